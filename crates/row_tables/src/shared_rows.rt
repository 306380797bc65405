// The calls that give rows that messages share.
ghost use Rattle.std.specs.Prelude.{◌≡◌};
ghost use Rattle.std.specs.Option.{option_copied};
ghost use Rattle.ordered_rows.specs.RowKey.{number_key};
ghost use Rattle.ordered_rows.specs.Listed.{IsInOrder, IsNewNumber, row_at, rows_from};
ghost use Rattle.row_tables.specs.Keys.{body_part_key, field_name_key, address_key};
ghost use Rattle.row_tables.specs.Indexes.{field_name_id, address_id, body_ids};

use crate::body_ids::BodyIds;
use crate::contents::{AddressRow, BodyPart, FieldName};
use crate::shared::id_of_content;
use crate::tables::Tables;
use ordered_rows::{Key, Rows};

impl Tables {
    pub fn bodyparts_row(&self, key: u64) -> Option<&BodyPart>
        ensures { option_copied result ≡ row_at body_part_key (number_key key) self.now.shared.bodyparts }
    {
        let shared = &self.shared;
        shared.bodyparts.get(Key::of_number(key))
    }

    pub fn bodyparts_rows(&self) -> Rows<'_, BodyPart>
        ensures rows { result ≡ self.now.shared.bodyparts }
        ensures order { IsInOrder body_part_key self.now.shared.bodyparts }
    {
        let shared = &self.shared;
        shared.bodyparts.rows()
    }

    pub fn bodyparts_rows_from(&self, key: u64) -> Rows<'_, BodyPart>
        ensures rows { result ≡ rows_from body_part_key (number_key key) self.now.shared.bodyparts }
        ensures order { IsInOrder body_part_key self.now.shared.bodyparts }
    {
        let shared = &self.shared;
        shared.bodyparts.rows_from(Key::of_number(key))
    }

    pub fn field_names_row(&self, key: u64) -> Option<&FieldName>
        ensures { option_copied result ≡ row_at field_name_key (number_key key) self.now.shared.field_names }
    {
        let shared = &self.shared;
        shared.field_names.get(Key::of_number(key))
    }

    pub fn field_names_rows(&self) -> Rows<'_, FieldName>
        ensures rows { result ≡ self.now.shared.field_names }
        ensures order { IsInOrder field_name_key self.now.shared.field_names }
    {
        let shared = &self.shared;
        shared.field_names.rows()
    }

    pub fn field_names_rows_from(&self, key: u64) -> Rows<'_, FieldName>
        ensures rows { result ≡ rows_from field_name_key (number_key key) self.now.shared.field_names }
        ensures order { IsInOrder field_name_key self.now.shared.field_names }
    {
        let shared = &self.shared;
        shared.field_names.rows_from(Key::of_number(key))
    }

    pub fn addresses_row(&self, key: u64) -> Option<&AddressRow>
        ensures { option_copied result ≡ row_at address_key (number_key key) self.now.shared.addresses }
    {
        let shared = &self.shared;
        shared.addresses.get(Key::of_number(key))
    }

    pub fn addresses_rows(&self) -> Rows<'_, AddressRow>
        ensures rows { result ≡ self.now.shared.addresses }
        ensures order { IsInOrder address_key self.now.shared.addresses }
    {
        let shared = &self.shared;
        shared.addresses.rows()
    }

    pub fn addresses_rows_from(&self, key: u64) -> Rows<'_, AddressRow>
        ensures rows { result ≡ rows_from address_key (number_key key) self.now.shared.addresses }
        ensures order { IsInOrder address_key self.now.shared.addresses }
    {
        let shared = &self.shared;
        shared.addresses.rows_from(Key::of_number(key))
    }

    /// The ids of the `bodyparts` rows with a digest, ascending.
    pub fn body_ids<'a>(&'a self, digest: &'a [u8; 32]) -> BodyIds<'a>
        ensures { result ≡ body_ids digest.now self.now.shared.bodyparts }
    {
        let shared = &self.shared;
        BodyIds::of(
            shared.digests.group(Key {
                text: digest,
                ..Key::of_number(0)
            }),
        )
    }

    /// The id for a new body.
    pub fn new_body_part_id(&self) -> u64
        ensures { IsNewNumber body_part_key self.now.shared.bodyparts result }
    {
        let shared = &self.shared;
        shared.bodyparts.new_number()
    }

    /// The id of the field name that is this text.
    pub fn field_name_id(&self, name: &[u8]) -> Option<u64>
        ensures { result ≡ field_name_id name.now self.now.shared.field_names }
    {
        let shared = &self.shared;
        id_of_content(&shared.names, name, &[], &[])
    }

    /// The id for a new field name.
    pub fn new_field_name_id(&self) -> u64
        ensures { IsNewNumber field_name_key self.now.shared.field_names result }
    {
        let shared = &self.shared;
        shared.field_names.new_number()
    }

    /// The id of the address that has these texts.
    pub fn address_id(&self, name: &[u8], local: &[u8], domain: &[u8]) -> Option<u64>
        ensures { result ≡ address_id name.now local.now domain.now self.now.shared.addresses }
    {
        let shared = &self.shared;
        id_of_content(&shared.people, name, local, domain)
    }

    /// The id for a new address.
    pub fn new_address_id(&self) -> u64
        ensures { IsNewNumber address_key self.now.shared.addresses result }
    {
        let shared = &self.shared;
        shared.addresses.new_number()
    }
}
