//! Laws of the definitions.
ghost use Rattle.std.specs.Prelude.{◌≡◌, ◌++◌, ℕ, true, List, Some, flat_map};
ghost use Rattle.std.specs.List.{list_all};
ghost use Rattle.imap_grammar.specs.Strings.{quoted};
ghost use Rattle.imap_writer.specs.Texts.{is_printable, text_of};
ghost use Rattle.imap_writer.specs.Sets.{AreApart, members, runs};

/// A set tells its numbers and no others, in runs as long as they can be.
pub fn law_sets()
    ensures members { (ns : List ℕ) → flat_map members (runs ns) ≡ ns }
    ensures apart { (ns : List ℕ) → AreApart (runs ns) }
{}

/// A text whose bytes have a print is read again as itself, whatever follows it.
pub fn law_texts()
    ensures { (bytes rest : List ℕ) → list_all is_printable bytes ≡ true → quoted (text_of bytes ++ rest) ≡ Some (bytes, rest) }
{}
