// The rows of the messages of mailboxes, of those that are gone, and of flags as columns.
use crate::column::Column;
use crate::row::{Row, Spread};
use octets::Octets;
use row_tables::{DeletedMessage, FlagName, FlagRow, MailboxMessage, RowChange};
use std::alloc::AllocError;

impl Spread for MailboxMessage {
    type Columns = (u32, (u32, (u64, (u64, (i64, i16)))));

    ghost parts = { λ r. (r.mailbox, (r.uid, (r.message, (r.modseq, (r.seconds, r.zone))))) };

    ghost whole = { λ c. record { mailbox = c.0; uid = c.1.0; message = c.1.1.0; modseq = c.1.1.1.0; seconds = c.1.1.1.1.0; zone = c.1.1.1.1.1 } };

    fn write_columns(&self, out: &mut Vec<u8>) -> Result<(), AllocError> {
        self.mailbox.write_to(out)?;
        self.uid.write_to(out)?;
        self.message.write_to(out)?;
        self.modseq.write_to(out)?;
        self.seconds.write_to(out)?;
        self.zone.write_to(out)
    }

    fn of(
        (mailbox, (uid, (message, (modseq, (seconds, zone))))): (
            u32,
            (u32, (u64, (u64, (i64, i16)))),
        ),
    ) -> MailboxMessage {
        MailboxMessage {
            mailbox,
            uid,
            message,
            modseq,
            seconds,
            zone,
        }
    }
}

impl Row for MailboxMessage {
    type Key = (u32, u32);

    ghost use Rattle.row_tables.specs.declared.change.RowChange.TheVariants.{InsertMailboxMessage, UpdateMailboxMessage, RemoveMailboxMessage};

    ghost insertion = { λ r. InsertMailboxMessage r };

    ghost update = { λ r. UpdateMailboxMessage r };

    ghost removal = { λ k. RemoveMailboxMessage k };

    fn insertion(self) -> RowChange {
        RowChange::InsertMailboxMessage(self)
    }

    fn update(self) -> RowChange {
        RowChange::UpdateMailboxMessage(self)
    }

    fn removal(key: (u32, u32)) -> RowChange {
        RowChange::RemoveMailboxMessage(key)
    }
}

impl Spread for DeletedMessage {
    type Columns = (u32, (u32, u64));

    ghost parts = { λ r. (r.mailbox, (r.uid, r.modseq)) };

    ghost whole = { λ c. record { mailbox = c.0; uid = c.1.0; modseq = c.1.1 } };

    fn write_columns(&self, out: &mut Vec<u8>) -> Result<(), AllocError> {
        self.mailbox.write_to(out)?;
        self.uid.write_to(out)?;
        self.modseq.write_to(out)
    }

    fn of((mailbox, (uid, modseq)): (u32, (u32, u64))) -> DeletedMessage {
        DeletedMessage {
            mailbox,
            uid,
            modseq,
        }
    }
}

impl Row for DeletedMessage {
    type Key = (u32, u32);

    ghost use Rattle.row_tables.specs.declared.change.RowChange.TheVariants.{InsertDeletedMessage, UpdateDeletedMessage, RemoveDeletedMessage};

    ghost insertion = { λ r. InsertDeletedMessage r };

    ghost update = { λ r. UpdateDeletedMessage r };

    ghost removal = { λ k. RemoveDeletedMessage k };

    fn insertion(self) -> RowChange {
        RowChange::InsertDeletedMessage(self)
    }

    fn update(self) -> RowChange {
        RowChange::UpdateDeletedMessage(self)
    }

    fn removal(key: (u32, u32)) -> RowChange {
        RowChange::RemoveDeletedMessage(key)
    }
}

impl Spread for FlagName {
    type Columns = (u64, Octets);

    ghost parts = { λ r. (r.id, r.name) };

    ghost whole = { λ c. record { id = c.0; name = c.1 } };

    fn write_columns(&self, out: &mut Vec<u8>) -> Result<(), AllocError> {
        self.id.write_to(out)?;
        self.name.write_to(out)
    }

    fn of((id, name): (u64, Octets)) -> FlagName {
        FlagName { id, name }
    }
}

impl Row for FlagName {
    type Key = u64;

    ghost use Rattle.row_tables.specs.declared.change.RowChange.TheVariants.{InsertFlagName, UpdateFlagName, RemoveFlagName};

    ghost insertion = { λ r. InsertFlagName r };

    ghost update = { λ r. UpdateFlagName r };

    ghost removal = { λ k. RemoveFlagName k };

    fn insertion(self) -> RowChange {
        RowChange::InsertFlagName(self)
    }

    fn update(self) -> RowChange {
        RowChange::UpdateFlagName(self)
    }

    fn removal(key: u64) -> RowChange {
        RowChange::RemoveFlagName(key)
    }
}

impl Spread for FlagRow {
    type Columns = (u32, (u32, u64));

    ghost parts = { λ r. (r.mailbox, (r.uid, r.flag)) };

    ghost whole = { λ c. record { mailbox = c.0; uid = c.1.0; flag = c.1.1 } };

    fn write_columns(&self, out: &mut Vec<u8>) -> Result<(), AllocError> {
        self.mailbox.write_to(out)?;
        self.uid.write_to(out)?;
        self.flag.write_to(out)
    }

    fn of((mailbox, (uid, flag)): (u32, (u32, u64))) -> FlagRow {
        FlagRow { mailbox, uid, flag }
    }
}

impl Row for FlagRow {
    type Key = (u32, u32, u64);

    ghost use Rattle.row_tables.specs.declared.change.RowChange.TheVariants.{InsertFlagRow, UpdateFlagRow, RemoveFlagRow};

    ghost insertion = { λ r. InsertFlagRow r };

    ghost update = { λ r. UpdateFlagRow r };

    ghost removal = { λ k. RemoveFlagRow k };

    fn insertion(self) -> RowChange {
        RowChange::InsertFlagRow(self)
    }

    fn update(self) -> RowChange {
        RowChange::UpdateFlagRow(self)
    }

    fn removal(key: (u32, u32, u64)) -> RowChange {
        RowChange::RemoveFlagRow(key)
    }
}
