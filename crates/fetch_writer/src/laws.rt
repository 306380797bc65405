//! Laws of the definitions.
ghost use Rattle.fetch_writer.specs.Laws.{ReadingLaws, SameItems};

/// What is told of two messages that are alike in what is read of them is the same.
pub fn law_reading()
    ensures { ReadingLaws }
{}

/// Items are one where they are equal.
pub fn law_same_items()
    ensures { SameItems }
{}
