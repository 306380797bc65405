//! Texts of header fields and bodies, as a search sees them: encoded words (RFC 2047), charsets, and case folding.
#![tactic(auto)]

mod charsets;
mod contents;
mod folding;
mod laws;
mod unicode;
mod values;
mod words;

pub use charsets::charset_text;
pub use folding::folded;
pub use laws::{law_utf8, law_values, law_words};
pub use values::decoded_text;
