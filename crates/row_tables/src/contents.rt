// The rows that messages share.
ghost use Rattle.std.specs.Prelude.{◌≡◌, IfOk};

use crate::indexes::{ContentEntry, Unique};
use crate::marks::FlagName;
use octets::Octets;
use ordered_rows::{Key, Keyed};
use std::alloc::{AllocError, Global};

/// A row of `bodyparts`: the SHA-256 digest (FIPS 180-4) of its content, and the content.
#[derive(Drop, Debug)]
pub struct BodyPart {
    pub id: u64,
    pub digest: [u8; 32],
    pub content: Octets,
}

/// A row of `field_names`. No two rows have the same name.
#[derive(Drop, Debug)]
pub struct FieldName {
    pub id: u64,
    pub name: Octets,
}

/// A row of `addresses`: the name, empty where there is none, and `local@domain`. A group's name has empty local part and domain. No
/// two rows are equal in all three texts.
#[derive(Drop, Debug)]
pub struct AddressRow {
    pub id: u64,
    pub name: Octets,
    pub local: Octets,
    pub domain: Octets,
}

impl Keyed for BodyPart {
    ghost use Rattle.row_tables.specs.Keys.{body_part_key};

    ghost key_of = { body_part_key };

    fn key(&self) -> Key<'_> {
        Key::of_number(self.id)
    }
}

impl Keyed for FieldName {
    ghost use Rattle.row_tables.specs.Keys.{field_name_key};

    ghost key_of = { field_name_key };

    fn key(&self) -> Key<'_> {
        Key::of_number(self.id)
    }
}

impl Keyed for AddressRow {
    ghost use Rattle.row_tables.specs.Keys.{address_key};

    ghost key_of = { address_key };

    fn key(&self) -> Key<'_> {
        Key::of_number(self.id)
    }
}

impl Unique for FieldName {
    ghost use Rattle.row_tables.specs.Indexes.{field_name_contents};

    ghost contents = { field_name_contents };

    fn id(&self) -> u64 {
        self.id
    }

    fn entry(&self, alloc: Global) -> Result<ContentEntry, AllocError> {
        Ok(ContentEntry {
            text: copied(alloc, &self.name)?,
            second: Octets::new(Vec::new(alloc)),
            third: Octets::new(Vec::new(alloc)),
            id: self.id,
        })
    }
}

impl Unique for FlagName {
    ghost use Rattle.row_tables.specs.Indexes.{flag_name_contents};

    ghost contents = { flag_name_contents };

    fn id(&self) -> u64 {
        self.id
    }

    fn entry(&self, alloc: Global) -> Result<ContentEntry, AllocError> {
        Ok(ContentEntry {
            text: copied(alloc, &self.name)?,
            second: Octets::new(Vec::new(alloc)),
            third: Octets::new(Vec::new(alloc)),
            id: self.id,
        })
    }
}

impl Unique for AddressRow {
    ghost use Rattle.row_tables.specs.Indexes.{address_contents};

    ghost contents = { address_contents };

    fn id(&self) -> u64 {
        self.id
    }

    fn entry(&self, alloc: Global) -> Result<ContentEntry, AllocError> {
        Ok(ContentEntry {
            text: copied(alloc, &self.name)?,
            second: copied(alloc, &self.local)?,
            third: copied(alloc, &self.domain)?,
            id: self.id,
        })
    }
}

pub(crate) fn copied(alloc: Global, text: &Octets) -> Result<Octets, AllocError>
    ensures { IfOk result (λ copy. copy ≡ text.now) }
{
    Ok(Octets::new(text.as_slice().to_vec(alloc)?))
}
