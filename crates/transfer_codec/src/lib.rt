//! The encodings of bodies: base64 (RFC 2045 §6.8) and quoted-printable (RFC 2045 §6.7).
#![tactic(auto)]

mod base64_bodies;
mod engines;
mod laws;
mod quoted_bodies;

pub use base64_bodies::{append64, decode64, print64, printed64_len};
pub use engines::{decode_letters, standard_engine};
pub use laws::{law_base64, law_quoted};
pub use quoted_bodies::{decode_quoted, escape};
