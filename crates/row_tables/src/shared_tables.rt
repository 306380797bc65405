// The tables of the rows that messages share.
ghost use Rattle.std.specs.Prelude.{◌≡◌, OnOk, OnErr, None};
ghost use Rattle.std.specs.List.{find};
ghost use Rattle.ordered_rows.specs.Listed.{row_at, with_row};
ghost use Rattle.row_tables.specs.Indexes.{has_name, has_address};
ghost use Rattle.row_tables.specs.Keys.{body_part_key, field_name_key, address_key};
ghost use Rattle.row_tables.specs.TableRows.{no_rows};

use crate::contents::{AddressRow, BodyPart, FieldName};
use crate::indexes::{ContentEntry, DigestEntry};
use crate::shared::{add_body_part, add_unique};
use ordered_rows::Table;
use std::alloc::{AllocError, Global};
use std::marker::Model;

// Contracts see the record of the rows. `names`, `people` and `digests` find field names, addresses and bodies by what they hold.
#[derive(Drop)]
pub(crate) struct SharedTables {
    alloc: Global,
    pub(crate) bodyparts: Table<BodyPart>,
    pub(crate) field_names: Table<FieldName>,
    pub(crate) addresses: Table<AddressRow>,
    pub(crate) names: Table<ContentEntry>,
    pub(crate) people: Table<ContentEntry>,
    pub(crate) digests: Table<DigestEntry>,
}

impl Model for SharedTables {
    ghost use Rattle.row_tables.specs.TableRows.{SharedRows};
    ghost use Rattle.row_tables.specs.Indexes.{AreIndexed, AreDigests, field_name_contents, address_contents};

    ghost Value = { SharedRows };

    ghost view = { λ t. record { bodyparts = t.bodyparts; field_names = t.field_names; addresses = t.addresses } };

    ghost invariant = { λ t. AreIndexed field_name_contents t.names t.field_names × AreIndexed address_contents t.people t.addresses × AreDigests t.digests t.bodyparts };
}

impl SharedTables {
    pub(crate) fn new(alloc: Global) -> SharedTables
        ensures { result ≡ no_rows.shared }
    {
        SharedTables {
            alloc,
            bodyparts: Table::new(alloc),
            field_names: Table::new(alloc),
            addresses: Table::new(alloc),
            names: Table::new(alloc),
            people: Table::new(alloc),
            digests: Table::new(alloc),
        }
    }

    pub(crate) fn insert_body_part(&mut self, row: BodyPart) -> Result<(), AllocError>
        requires { row_at body_part_key (body_part_key row) self.old.bodyparts ≡ None }
        ensures ok { OnOk result (self.new ≡ record self.old { bodyparts = with_row body_part_key row self.old.bodyparts }) }
        ensures err { OnErr result (self.new ≡ self.old) }
    {
        add_body_part(&mut self.bodyparts, &mut self.digests, row)
    }

    pub(crate) fn insert_field_name(&mut self, row: FieldName) -> Result<(), AllocError>
        requires new_id { row_at field_name_key (field_name_key row) self.old.field_names ≡ None }
        requires new_name { find (has_name row.name) self.old.field_names ≡ None }
        ensures ok { OnOk result (self.new ≡ record self.old { field_names = with_row field_name_key row self.old.field_names }) }
        ensures err { OnErr result (self.new ≡ self.old) }
    {
        add_unique(self.alloc, &mut self.field_names, &mut self.names, row)
    }

    pub(crate) fn insert_address(&mut self, row: AddressRow) -> Result<(), AllocError>
        requires new_id { row_at address_key (address_key row) self.old.addresses ≡ None }
        requires new_texts { find (has_address row.name row.local row.domain) self.old.addresses ≡ None }
        ensures ok { OnOk result (self.new ≡ record self.old { addresses = with_row address_key row self.old.addresses }) }
        ensures err { OnErr result (self.new ≡ self.old) }
    {
        add_unique(self.alloc, &mut self.addresses, &mut self.people, row)
    }
}
