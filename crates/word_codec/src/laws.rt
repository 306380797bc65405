//! What the definitions say, in the words of the standards.
ghost use Rattle.word_codec.specs.Laws.{Utf8Laws, ValueLaws, WordLaws};

/// Bytes read as UTF-8: a character at the front stays, a byte that begins none is replaced, and so on.
pub fn law_utf8()
    ensures { Utf8Laws }
{}

/// An encoded word is found at the front of a text exactly where the text begins with it.
pub fn law_words()
    ensures { WordLaws }
{}

/// How encoded words are shown: alone, one behind another, and where one stays as it is.
pub fn law_values()
    ensures { ValueLaws }
{}
