// The rows that messages share as columns.
use crate::column::Column;
use crate::row::{Row, Spread};
use octets::Octets;
use row_tables::{AddressRow, BodyPart, FieldName, RowChange};
use std::alloc::AllocError;

impl Spread for BodyPart {
    type Columns = (u64, ([u8; 32], Octets));

    ghost parts = { λ r. (r.id, (r.digest, r.content)) };

    ghost whole = { λ c. record { id = c.0; digest = c.1.0; content = c.1.1 } };

    fn write_columns(&self, out: &mut Vec<u8>) -> Result<(), AllocError> {
        self.id.write_to(out)?;
        self.digest.write_to(out)?;
        self.content.write_to(out)
    }

    fn of((id, (digest, content)): (u64, ([u8; 32], Octets))) -> BodyPart {
        BodyPart {
            id,
            digest,
            content,
        }
    }
}

impl Row for BodyPart {
    type Key = u64;

    ghost use Rattle.row_tables.specs.declared.change.RowChange.TheVariants.{InsertBodyPart, UpdateBodyPart, RemoveBodyPart};

    ghost insertion = { λ r. InsertBodyPart r };

    ghost update = { λ r. UpdateBodyPart r };

    ghost removal = { λ k. RemoveBodyPart k };

    fn insertion(self) -> RowChange {
        RowChange::InsertBodyPart(self)
    }

    fn update(self) -> RowChange {
        RowChange::UpdateBodyPart(self)
    }

    fn removal(key: u64) -> RowChange {
        RowChange::RemoveBodyPart(key)
    }
}

impl Spread for FieldName {
    type Columns = (u64, Octets);

    ghost parts = { λ r. (r.id, r.name) };

    ghost whole = { λ c. record { id = c.0; name = c.1 } };

    fn write_columns(&self, out: &mut Vec<u8>) -> Result<(), AllocError> {
        self.id.write_to(out)?;
        self.name.write_to(out)
    }

    fn of((id, name): (u64, Octets)) -> FieldName {
        FieldName { id, name }
    }
}

impl Row for FieldName {
    type Key = u64;

    ghost use Rattle.row_tables.specs.declared.change.RowChange.TheVariants.{InsertFieldName, UpdateFieldName, RemoveFieldName};

    ghost insertion = { λ r. InsertFieldName r };

    ghost update = { λ r. UpdateFieldName r };

    ghost removal = { λ k. RemoveFieldName k };

    fn insertion(self) -> RowChange {
        RowChange::InsertFieldName(self)
    }

    fn update(self) -> RowChange {
        RowChange::UpdateFieldName(self)
    }

    fn removal(key: u64) -> RowChange {
        RowChange::RemoveFieldName(key)
    }
}

impl Spread for AddressRow {
    type Columns = (u64, (Octets, (Octets, Octets)));

    ghost parts = { λ r. (r.id, (r.name, (r.local, r.domain))) };

    ghost whole = { λ c. record { id = c.0; name = c.1.0; local = c.1.1.0; domain = c.1.1.1 } };

    fn write_columns(&self, out: &mut Vec<u8>) -> Result<(), AllocError> {
        self.id.write_to(out)?;
        self.name.write_to(out)?;
        self.local.write_to(out)?;
        self.domain.write_to(out)
    }

    fn of((id, (name, (local, domain))): (u64, (Octets, (Octets, Octets)))) -> AddressRow {
        AddressRow {
            id,
            name,
            local,
            domain,
        }
    }
}

impl Row for AddressRow {
    type Key = u64;

    ghost use Rattle.row_tables.specs.declared.change.RowChange.TheVariants.{InsertAddressRow, UpdateAddressRow, RemoveAddressRow};

    ghost insertion = { λ r. InsertAddressRow r };

    ghost update = { λ r. UpdateAddressRow r };

    ghost removal = { λ k. RemoveAddressRow k };

    fn insertion(self) -> RowChange {
        RowChange::InsertAddressRow(self)
    }

    fn update(self) -> RowChange {
        RowChange::UpdateAddressRow(self)
    }

    fn removal(key: u64) -> RowChange {
        RowChange::RemoveAddressRow(key)
    }
}
