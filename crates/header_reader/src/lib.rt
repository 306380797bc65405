//! The header of a message: its fields, unfolded, and where the body begins (RFC 5322 §2.2).
#![tactic(auto)]

mod faults;
mod header;
mod kinds;
mod laws;
mod line;
mod raw;
mod scan;
mod values;

pub use faults::HeaderFault;
pub use header::fields;
pub use kinds::{FieldKind, kind_of};
pub use laws::law_fields;
pub use raw::RawField;
pub use values::read_field;
