//! The keywords that messages of a mailbox have.

ghost use Rattle.std.specs.Prelude.{◌≡◌, ◌==◌, ◌||◌, ℕ, List, map, false, IfOk, OnOk, MatchOption};
ghost use Rattle.std.specs.List.{list_any};
ghost use Rattle.row_tables.specs.References.{flags_of};
ghost use Rattle.mail_world.specs.Names.{same_name};
ghost use Rattle.mailbox_core.specs.SummaryRows.{AreKeywords, has_word, is_id_of};

use octets::Octets;
use row_tables::Tables;
use sqlite_items::Items;
use std::alloc::{AllocError, Global};
use std::collections::BTreeSet;

// The keywords that messages of a mailbox have, each once, by bytes. Walks the rows of its flags, and looks each name up once.
pub(crate) fn keywords(
    alloc: Global,
    tables: &Tables,
    mailbox: u32,
) -> Result<Items<Octets>, AllocError>
    ensures { IfOk result (AreKeywords tables.now.marks.flag_names (map (λ row. row.flag) (flags_of mailbox tables.now.marks.flags))) }
{
    let ids = flag_ids(alloc, tables, mailbox)?;
    let words = words_of(alloc, tables, ids)?;
    let own = owned(alloc, words)?;
    Ok(own)
}

// The ids of the flags that messages of a mailbox have.
fn flag_ids(alloc: Global, tables: &Tables, mailbox: u32) -> Result<BTreeSet<u64>, AllocError>
    ensures { IfOk result (λ ids. (id : ℕ) → list_any (λ i. i == id) ids.keys ≡ list_any (λ row. row.flag == id) (flags_of mailbox tables.now.marks.flags)) }
{
    let mut ids = BTreeSet::new(alloc);
    let mut rows = tables.flags_of(mailbox);
    'rows: while let Some(row) = rows.next() {
        ids.insert(row.flag)?;
    }
    Ok(ids)
}

// The keywords among flags.
fn words_of<'a>(
    alloc: Global,
    tables: &'a Tables,
    ids: BTreeSet<u64>,
) -> Result<BTreeSet<&'a [u8]>, AllocError>
    ensures { IfOk result (λ words. AreKeywords tables.now.marks.flag_names ids.keys (map (λ word. word.now) words.keys)) }
{
    let mut words = BTreeSet::new(alloc);
    let mut ids = ids;
    'ids: while let Some(id) = ids.pop_first() {
        add_keyword(&mut words, tables, id)?;
    }
    // A set says of itself that it is in order where it is counted.
    let _ = words.len();
    Ok(words)
}

// Adds the name of a flag that is a keyword.
fn add_keyword<'a>(
    words: &mut BTreeSet<&'a [u8]>,
    tables: &'a Tables,
    id: u64,
) -> Result<(), AllocError>
    ensures { OnOk result ((word : List ℕ) → has_word word (map (λ w. w.now) words.new.keys)
        ≡ (is_id_of word tables.now.marks.flag_names id || has_word word (map (λ w. w.now) words.old.keys))) }
{
    match keyword(tables, id) {
        Some(word) => {
            words.insert(word)?;
            Ok(())
        }
        None => Ok(()),
    }
}

// The name of a flag that is a keyword.
fn keyword(tables: &Tables, id: u64) -> Option<&[u8]>
    ensures { MatchOption result
        ((word : List ℕ) → is_id_of word tables.now.marks.flag_names id ≡ false)
        (λ its. (word : List ℕ) → is_id_of word tables.now.marks.flag_names id ≡ same_name its.now word) }
{
    let row = tables.flag_names_row(id)?;
    let name = row.name.as_slice();
    if name.first() == Some(&b'\\') {
        return None;
    }
    Some(name)
}

// The words, in memory of their own.
fn owned(alloc: Global, words: BTreeSet<&[u8]>) -> Result<Items<Octets>, AllocError>
    ensures { IfOk result (λ own. own ≡ map (λ word. word.now) words.entry.keys) }
{
    let mut own = Vec::with_capacity(alloc, words.len())?;
    let mut words = words;
    'words: while let Some(word) = words.pop_first() {
        own.push(Octets::new(word.to_vec(alloc)?))?;
    }
    Ok(Items::from_vec(own))
}
