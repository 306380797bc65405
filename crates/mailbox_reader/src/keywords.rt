//! The keywords of a message.

ghost use Rattle.std.specs.Prelude.{◌≡◌, ◌||◌, ◌++◌, ℕ, List, map, false, IfOk, OnOk, MatchOption};
ghost use Rattle.imap_grammar.specs.declared.flags.Flag.TheVariants.{Keyword};
ghost use Rattle.row_tables.specs.References.{flags_at};
ghost use Rattle.mail_world.specs.Names.{same_name};
ghost use Rattle.mailbox_reader.specs.FlagRows.{AreKeywords, has_word, is_id_of};

use imap_grammar::Flag;
use octets::Octets;
use row_tables::Tables;
use std::alloc::{AllocError, Global};
use std::collections::BTreeSet;

// The keywords that a message has.
pub(crate) fn words_at<'a>(
    alloc: Global,
    tables: &'a Tables,
    mailbox: u32,
    uid: u32,
) -> Result<BTreeSet<&'a [u8]>, AllocError>
    ensures { IfOk result (λ words. AreKeywords tables.now.marks.flag_names (map (λ row. row.flag) (flags_at mailbox uid tables.now.marks.flags)) (map (λ word. word.now) words.keys)) }
{
    let mut words = BTreeSet::new(alloc);
    let mut rows = tables.flags_at(mailbox, uid);
    'rows: while let Some(row) = rows.next() {
        add_keyword(&mut words, tables, row.flag)?;
    }
    // A set says of itself that it is in order where it is counted.
    let _ = words.len();
    Ok(words)
}

// Adds the name of a flag that is a keyword.
fn add_keyword<'a>(
    words: &mut BTreeSet<&'a [u8]>,
    tables: &'a Tables,
    id: u64,
) -> Result<(), AllocError>
    ensures { OnOk result ((word : List ℕ) → has_word word (map (λ w. w.now) words.new.keys)
        ≡ (is_id_of word tables.now.marks.flag_names id || has_word word (map (λ w. w.now) words.old.keys))) }
{
    match keyword(tables, id) {
        Some(word) => {
            words.insert(word)?;
            Ok(())
        }
        None => Ok(()),
    }
}

// The name of a flag that is a keyword.
fn keyword(tables: &Tables, id: u64) -> Option<&[u8]>
    ensures { MatchOption result
        ((word : List ℕ) → is_id_of word tables.now.marks.flag_names id ≡ false)
        (λ its. (word : List ℕ) → is_id_of word tables.now.marks.flag_names id ≡ same_name its.now word) }
{
    let row = tables.flag_names_row(id)?;
    let name = row.name.as_slice();
    if name.first() == Some(&b'\\') {
        return None;
    }
    Some(name)
}

// Flags, and keywords of these names behind them.
pub(crate) fn with_keywords(
    alloc: Global,
    flags: Vec<Flag>,
    words: BTreeSet<&[u8]>,
) -> Result<Vec<Flag>, AllocError>
    ensures { IfOk result (λ all. all.items ≡ flags.items ++ map Keyword (map (λ word. word.now) words.entry.keys)) }
{
    let mut flags = flags;
    let mut words = words;
    'words: while let Some(word) = words.pop_first() {
        flags.push(Flag::Keyword(Octets::new(word.to_vec(alloc)?)))?;
    }
    Ok(flags)
}
