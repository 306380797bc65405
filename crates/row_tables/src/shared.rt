// Rows put into a table that messages share and into its index, both or neither.
ghost use Rattle.std.specs.Prelude.{◌≡◌, OnOk, OnErr, None};
ghost use Rattle.std.specs.List.{find};
ghost use Rattle.std.specs.Option.{option_map};
ghost use Rattle.ordered_rows.specs.Listed.{row_at, with_row};
ghost use Rattle.row_tables.specs.Keys.{body_part_key, content_entry_key, texts_key};
ghost use Rattle.row_tables.specs.Indexes.{AreDigests, AreIndexed};

use crate::contents::BodyPart;
use crate::indexes::{ContentEntry, DigestEntry, Unique};
use ordered_rows::laws::{
    found_after_insert, insert_undone, keys, numbers_after_insert, row_after_insert,
};
use ordered_rows::{Key, Table};
use std::alloc::{AllocError, Global};

pub(crate) fn id_of_content(
    entries: &Table<ContentEntry>,
    text: &[u8],
    second: &[u8],
    third: &[u8],
) -> Option<u64>
    ensures { result ≡ option_map (λ e. e.id) (row_at content_entry_key (texts_key text.now second.now third.now) entries.now) }
{
    entries
        .get(Key {
            text,
            second,
            third,
            ..Key::of_number(0)
        })
        .map(|entry| entry.id)
}

pub(crate) fn add_unique<R: Unique>(
    alloc: Global,
    rows: &mut Table<R>,
    entries: &mut Table<ContentEntry>,
    row: R,
) -> Result<(), AllocError>
    requires indexed { AreIndexed R.contents entries.old rows.old }
    requires new_id { row_at R.key_of (R.key_of row) rows.old ≡ None }
    requires new_content { find (R.contents.has (R.contents.content row)) rows.old ≡ None }
    ensures indexed { AreIndexed R.contents entries.new rows.new }
    ensures ok { OnOk result (rows.new ≡ with_row R.key_of row rows.old) }
    ensures err { OnErr result (rows.new ≡ rows.old) }
{
    found_after_insert::<R>();
    row_after_insert::<ContentEntry>();
    insert_undone::<R>();
    let id = row.id();
    let entry = row.entry(alloc)?;
    rows.insert(row)?;
    match entries.insert(entry) {
        Ok(()) => Ok(()),
        Err(e) => {
            rows.remove(Key::of_number(id));
            Err(e)
        }
    }
}

pub(crate) fn add_body_part(
    rows: &mut Table<BodyPart>,
    digests: &mut Table<DigestEntry>,
    row: BodyPart,
) -> Result<(), AllocError>
    requires indexed { AreDigests digests.old rows.old }
    requires new_id { row_at body_part_key (body_part_key row) rows.old ≡ None }
    ensures indexed { AreDigests digests.new rows.new }
    ensures ok { OnOk result (rows.new ≡ with_row body_part_key row rows.old) }
    ensures err { OnErr result (rows.new ≡ rows.old) }
{
    keys();
    numbers_after_insert::<BodyPart>();
    numbers_after_insert::<DigestEntry>();
    insert_undone::<BodyPart>();
    let id = row.id;
    let digest = row.digest;
    rows.insert(row)?;
    match digests.insert(DigestEntry { digest, id }) {
        Ok(()) => Ok(()),
        Err(e) => {
            rows.remove(Key::of_number(id));
            Err(e)
        }
    }
}
