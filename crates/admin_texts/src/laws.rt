// What the definitions say of each other.
ghost use Rattle.admin_texts.specs.Laws.{LinesEndOnce, TextsEndOnce};

/// A line has one LF, its last byte.
pub fn lines_end_once()
    ensures { LinesEndOnce }
{}

/// A text ends at the first quote behind the one that begins it.
pub fn texts_end_once()
    ensures { TextsEndOnce }
{}
