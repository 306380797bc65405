//! Bytes read as a message (RFC 5322, RFC 2045, RFC 2046): every text is one tree of parts, or has a stated reason why it is none.
#![tactic(auto)]

mod bodies;
mod content_types;
mod encodings;
mod faults;
mod kinds;
mod parameters;
mod reading;
mod sizes;
mod tokens;
mod value_sizes;
mod wrapping;

pub use content_types::{ContentType, Parameter, content_type, parameter_value};
pub use encodings::{TransferEncoding, named_type, transfer_encoding};
pub use faults::ReadFault;
pub use kinds::{BodyKind, body_kind, first_text, type_of};
pub use parameters::{TokenWithParameters, token_with_parameters};
pub use reading::{law_reading, read_message};
pub use sizes::law_sizes;
pub use value_sizes::boundary_size;
pub use wrapping::{law_wrapping, read_or_wrap, wrap};
