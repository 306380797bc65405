//! Tests of the public calls of the crates that texts are read and written with: tables of inputs and what they give.
#![tactic(auto)]

#[cfg(test)]
mod address_grammar_tests;
#[cfg(test)]
mod canon;
#[cfg(test)]
mod date_grammar_tests;
#[cfg(test)]
mod header_reader_tests;
#[cfg(test)]
mod mail_text_tests;
#[cfg(test)]
mod mime_reader_tests;
#[cfg(test)]
mod transfer_codec_tests;
#[cfg(test)]
mod word_codec_tests;
