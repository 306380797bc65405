//! Keywords.
ghost use Rattle.std.specs.Prelude.{◌≡◌};
ghost use Rattle.imap_grammar.specs.Words.{entries, keyword as keyword_of, named as named_of, word as word_of};
ghost use Rattle.imap_grammar.specs.Readings.{Reads};
ghost use Rattle.imap_grammar.specs.declared.classes.Class.TheVariants.{Word};
ghost use Rattle.imap_grammar.specs.Classes.{is_in};
ghost use Rattle.mail_text.specs.Case.{is_same};
ghost use Rattle.mail_text.specs.Texts.{front};

use crate::classes::Class;
use crate::reader::{Fault, Reader};
use mail_text::same;

/// The entry of a table that has the name, in any case.
pub(crate) fn named<T: Copy>(table: &[(&'static [u8], T)], word: &[u8]) -> Option<T>
    ensures { result ≡ named_of (entries table.now) word.now }
{
    for (name, entry) in table {
        if same(word, name) {
            return Some(*entry);
        }
    }
    None
}

/// A keyword of a table.
#[tactic(auto, unfolding(crate::specs::Words::keyword))]
pub(crate) fn keyword<T: Copy>(
    reader: &mut Reader<'_>,
    table: &[(&'static [u8], T)],
) -> Result<T, Fault>
    ensures { Reads (keyword_of (entries table.now) reader.old) result reader.new }
{
    match named(table, reader.front(Class::Word)) {
        Some(entry) => Ok(entry),
        None => Err(Fault::NoReading),
    }
}

/// This keyword.
#[tactic(auto, unfolding(crate::specs::Words::word))]
pub(crate) fn word(reader: &mut Reader<'_>, name: &[u8]) -> Result<(), Fault>
    ensures { Reads (word_of name.now reader.old) result reader.new }
{
    if same(reader.front(Class::Word), name) {
        Ok(())
    } else {
        Err(Fault::NoReading)
    }
}

/// Whether this keyword comes next.
pub(crate) fn comes(reader: &Reader<'_>, name: &[u8]) -> bool
    ensures { result ≡ is_same (front (is_in Word) reader.now) name.now }
{
    same(Reader::new(reader.rest()).front(Class::Word), name)
}
