// The rows of messages, parts and fields as columns.
use crate::column::Column;
use crate::row::{Row, Spread};
use octets::Octets;
use row_tables::{HeaderField, MessageRow, PartNumber, RowChange, UnparsedMessage};
use std::alloc::AllocError;

impl Spread for MessageRow {
    type Columns = (u64, u64);

    ghost parts = { λ r. (r.id, r.size) };

    ghost whole = { λ c. record { id = c.0; size = c.1 } };

    fn write_columns(&self, out: &mut Vec<u8>) -> Result<(), AllocError> {
        self.id.write_to(out)?;
        self.size.write_to(out)
    }

    fn of((id, size): (u64, u64)) -> MessageRow {
        MessageRow { id, size }
    }
}

impl Row for MessageRow {
    type Key = u64;

    ghost use Rattle.row_tables.specs.declared.change.RowChange.TheVariants.{InsertMessageRow, UpdateMessageRow, RemoveMessageRow};

    ghost insertion = { λ r. InsertMessageRow r };

    ghost update = { λ r. UpdateMessageRow r };

    ghost removal = { λ k. RemoveMessageRow k };

    fn insertion(self) -> RowChange {
        RowChange::InsertMessageRow(self)
    }

    fn update(self) -> RowChange {
        RowChange::UpdateMessageRow(self)
    }

    fn removal(key: u64) -> RowChange {
        RowChange::RemoveMessageRow(key)
    }
}

impl Spread for PartNumber {
    type Columns = (u64, (Octets, (u8, u64)));

    ghost parts = { λ r. (r.message, (r.path, (r.kind, r.body))) };

    ghost whole = { λ c. record { message = c.0; path = c.1.0; kind = c.1.1.0; body = c.1.1.1 } };

    fn write_columns(&self, out: &mut Vec<u8>) -> Result<(), AllocError> {
        self.message.write_to(out)?;
        self.path.write_to(out)?;
        self.kind.write_to(out)?;
        self.body.write_to(out)
    }

    fn of((message, (path, (kind, body))): (u64, (Octets, (u8, u64)))) -> PartNumber {
        PartNumber {
            message,
            path,
            kind,
            body,
        }
    }
}

impl Row for PartNumber {
    type Key = (u64, Octets);

    ghost use Rattle.row_tables.specs.declared.change.RowChange.TheVariants.{InsertPartNumber, UpdatePartNumber, RemovePartNumber};

    ghost insertion = { λ r. InsertPartNumber r };

    ghost update = { λ r. UpdatePartNumber r };

    ghost removal = { λ k. RemovePartNumber k };

    fn insertion(self) -> RowChange {
        RowChange::InsertPartNumber(self)
    }

    fn update(self) -> RowChange {
        RowChange::UpdatePartNumber(self)
    }

    fn removal(key: (u64, Octets)) -> RowChange {
        RowChange::RemovePartNumber(key)
    }
}

impl Spread for HeaderField {
    type Columns = (u64, (Octets, (u32, (u64, (u8, Octets)))));

    ghost parts = { λ r. (r.message, (r.path, (r.place, (r.name, (r.form, r.value))))) };

    ghost whole = { λ c. record { message = c.0; path = c.1.0; place = c.1.1.0; name = c.1.1.1.0; form = c.1.1.1.1.0; value = c.1.1.1.1.1 } };

    fn write_columns(&self, out: &mut Vec<u8>) -> Result<(), AllocError> {
        self.message.write_to(out)?;
        self.path.write_to(out)?;
        self.place.write_to(out)?;
        self.name.write_to(out)?;
        self.form.write_to(out)?;
        self.value.write_to(out)
    }

    fn of(
        (message, (path, (place, (name, (form, value))))): (
            u64,
            (Octets, (u32, (u64, (u8, Octets)))),
        ),
    ) -> HeaderField {
        HeaderField {
            message,
            path,
            place,
            name,
            form,
            value,
        }
    }
}

impl Row for HeaderField {
    type Key = (u64, Octets, u32);

    ghost use Rattle.row_tables.specs.declared.change.RowChange.TheVariants.{InsertHeaderField, UpdateHeaderField, RemoveHeaderField};

    ghost insertion = { λ r. InsertHeaderField r };

    ghost update = { λ r. UpdateHeaderField r };

    ghost removal = { λ k. RemoveHeaderField k };

    fn insertion(self) -> RowChange {
        RowChange::InsertHeaderField(self)
    }

    fn update(self) -> RowChange {
        RowChange::UpdateHeaderField(self)
    }

    fn removal(key: (u64, Octets, u32)) -> RowChange {
        RowChange::RemoveHeaderField(key)
    }
}

impl Spread for UnparsedMessage {
    type Columns = (u64, u8);

    ghost parts = { λ r. (r.message, r.reason) };

    ghost whole = { λ c. record { message = c.0; reason = c.1 } };

    fn write_columns(&self, out: &mut Vec<u8>) -> Result<(), AllocError> {
        self.message.write_to(out)?;
        self.reason.write_to(out)
    }

    fn of((message, reason): (u64, u8)) -> UnparsedMessage {
        UnparsedMessage { message, reason }
    }
}

impl Row for UnparsedMessage {
    type Key = u64;

    ghost use Rattle.row_tables.specs.declared.change.RowChange.TheVariants.{InsertUnparsedMessage, UpdateUnparsedMessage, RemoveUnparsedMessage};

    ghost insertion = { λ r. InsertUnparsedMessage r };

    ghost update = { λ r. UpdateUnparsedMessage r };

    ghost removal = { λ k. RemoveUnparsedMessage k };

    fn insertion(self) -> RowChange {
        RowChange::InsertUnparsedMessage(self)
    }

    fn update(self) -> RowChange {
        RowChange::UpdateUnparsedMessage(self)
    }

    fn removal(key: u64) -> RowChange {
        RowChange::RemoveUnparsedMessage(key)
    }
}
