//! What was read and is printed is read as the same again, and is no larger than its text, for the proofs of the crates above.
ghost use Rattle.address_grammar.specs.Laws.{AddressLaws, IdLaws};
ghost use Rattle.address_grammar.specs.Weights.{WeightLaws};

/// Items that some value reads as, printed, are read as these items again.
pub fn law_addresses()
    ensures { AddressLaws }
{}

/// Ids that some value reads as, printed, are read as these ids again.
pub fn law_ids()
    ensures { IdLaws }
{}

/// What is read from a value is bounded by the value's length.
pub fn law_weights()
    ensures { WeightLaws }
{}
