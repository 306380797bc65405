//! Changes of rows as bytes, and the changes of bytes: each the other's exact inverse.
#![tactic(auto)]

mod changes;
mod column;
mod contents;
mod heads;
mod keys;
mod lists;
mod mails;
mod marks;
mod row;
mod values;

pub use lists::{decode, encode, encodings_differ, fitting_texts_have_lengths};
