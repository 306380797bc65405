//! What holds of headers, for the proofs of the crates above.
ghost use Rattle.header_reader.specs.Laws.{FieldLaws};

/// Fields that were read are good, and the body stands behind its place.
pub fn law_fields()
    ensures { FieldLaws }
{}
