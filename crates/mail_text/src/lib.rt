//! Texts of bytes: their lines, blanks, letters and numbers. Mail and its protocols are made of them (RFC 5322 §2.1).
#![tactic(auto)]

mod blanks;
mod fronts;
mod letters;
mod line_ends;
mod numbers;

pub use blanks::{is_blank, trim, trim_end, trim_start};
pub use fronts::{ByteClass, front_len, has_byte};
pub use letters::{lower, same};
pub use line_ends::{crlf, is_crlf, law_lines, lines, split_crlf, split_line};
pub use numbers::decimal;
