// The rows of the values of fields as columns.
use crate::column::Column;
use crate::row::{Row, Spread};
use octets::Octets;
use row_tables::{AddressField, DateField, MessageId, RowChange};
use std::alloc::AllocError;

impl Spread for AddressField {
    type Columns = (u64, (Octets, (u32, (u32, (u8, u64)))));

    ghost parts = { λ r. (r.message, (r.path, (r.place, (r.item, (r.kind, r.address))))) };

    ghost whole = { λ c. record { message = c.0; path = c.1.0; place = c.1.1.0; item = c.1.1.1.0; kind = c.1.1.1.1.0; address = c.1.1.1.1.1 } };

    fn write_columns(&self, out: &mut Vec<u8>) -> Result<(), AllocError> {
        self.message.write_to(out)?;
        self.path.write_to(out)?;
        self.place.write_to(out)?;
        self.item.write_to(out)?;
        self.kind.write_to(out)?;
        self.address.write_to(out)
    }

    fn of(
        (message, (path, (place, (item, (kind, address))))): (
            u64,
            (Octets, (u32, (u32, (u8, u64)))),
        ),
    ) -> AddressField {
        AddressField {
            message,
            path,
            place,
            item,
            kind,
            address,
        }
    }
}

impl Row for AddressField {
    type Key = (u64, Octets, u32, u32);

    ghost use Rattle.row_tables.specs.declared.change.RowChange.TheVariants.{InsertAddressField, UpdateAddressField, RemoveAddressField};

    ghost insertion = { λ r. InsertAddressField r };

    ghost update = { λ r. UpdateAddressField r };

    ghost removal = { λ k. RemoveAddressField k };

    fn insertion(self) -> RowChange {
        RowChange::InsertAddressField(self)
    }

    fn update(self) -> RowChange {
        RowChange::UpdateAddressField(self)
    }

    fn removal(key: (u64, Octets, u32, u32)) -> RowChange {
        RowChange::RemoveAddressField(key)
    }
}

impl Spread for DateField {
    type Columns = (u64, (Octets, (u32, (Octets, (i64, i64)))));

    ghost parts = { λ r. (r.message, (r.path, (r.place, (r.value, (r.seconds, r.day))))) };

    ghost whole = { λ c. record { message = c.0; path = c.1.0; place = c.1.1.0; value = c.1.1.1.0; seconds = c.1.1.1.1.0; day = c.1.1.1.1.1 } };

    fn write_columns(&self, out: &mut Vec<u8>) -> Result<(), AllocError> {
        self.message.write_to(out)?;
        self.path.write_to(out)?;
        self.place.write_to(out)?;
        self.value.write_to(out)?;
        self.seconds.write_to(out)?;
        self.day.write_to(out)
    }

    fn of(
        (message, (path, (place, (value, (seconds, day))))): (
            u64,
            (Octets, (u32, (Octets, (i64, i64)))),
        ),
    ) -> DateField {
        DateField {
            message,
            path,
            place,
            value,
            seconds,
            day,
        }
    }
}

impl Row for DateField {
    type Key = (u64, Octets, u32);

    ghost use Rattle.row_tables.specs.declared.change.RowChange.TheVariants.{InsertDateField, UpdateDateField, RemoveDateField};

    ghost insertion = { λ r. InsertDateField r };

    ghost update = { λ r. UpdateDateField r };

    ghost removal = { λ k. RemoveDateField k };

    fn insertion(self) -> RowChange {
        RowChange::InsertDateField(self)
    }

    fn update(self) -> RowChange {
        RowChange::UpdateDateField(self)
    }

    fn removal(key: (u64, Octets, u32)) -> RowChange {
        RowChange::RemoveDateField(key)
    }
}

impl Spread for MessageId {
    type Columns = (u64, (Octets, (u32, (u32, Octets))));

    ghost parts = { λ r. (r.message, (r.path, (r.place, (r.item, r.value)))) };

    ghost whole = { λ c. record { message = c.0; path = c.1.0; place = c.1.1.0; item = c.1.1.1.0; value = c.1.1.1.1 } };

    fn write_columns(&self, out: &mut Vec<u8>) -> Result<(), AllocError> {
        self.message.write_to(out)?;
        self.path.write_to(out)?;
        self.place.write_to(out)?;
        self.item.write_to(out)?;
        self.value.write_to(out)
    }

    fn of(
        (message, (path, (place, (item, value)))): (u64, (Octets, (u32, (u32, Octets)))),
    ) -> MessageId {
        MessageId {
            message,
            path,
            place,
            item,
            value,
        }
    }
}

impl Row for MessageId {
    type Key = (u64, Octets, u32, u32);

    ghost use Rattle.row_tables.specs.declared.change.RowChange.TheVariants.{InsertMessageId, UpdateMessageId, RemoveMessageId};

    ghost insertion = { λ r. InsertMessageId r };

    ghost update = { λ r. UpdateMessageId r };

    ghost removal = { λ k. RemoveMessageId k };

    fn insertion(self) -> RowChange {
        RowChange::InsertMessageId(self)
    }

    fn update(self) -> RowChange {
        RowChange::UpdateMessageId(self)
    }

    fn removal(key: (u64, Octets, u32, u32)) -> RowChange {
        RowChange::RemoveMessageId(key)
    }
}
