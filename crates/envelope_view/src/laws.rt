//! Laws of the definitions.
ghost use Rattle.envelope_view.specs.Laws.{SectionLaws};

/// A section is one piece of the message's text, but for some of the fields, which are pieces one behind another.
pub fn law_sections()
    ensures { SectionLaws }
{}
