//! The answers to FETCH.
ghost use Rattle.std.specs.Prelude.{◌≡◌, ◌++◌, OnOk, decimal};
ghost use Rattle.imap_writer.specs.Fetches.{fetch_line, size_text, message_data_text};

use crate::flags::push_flags;
use crate::spaced::{Shown, print_spaced};
use crate::texts::{push_literal, push_number};
use imap_grammar::Flag;
use std::alloc::AllocError;

/// An item of FETCH with its value.
#[derive(Clone, Copy)]
pub enum MessageData<'a> {
    Uid(u32),
    Flags { flags: &'a [Flag], recent: bool },
    Modseq(u64),
    /// The bytes of the whole message.
    Size(u64),
    /// When the message came, as `date_grammar::print_internal` prints it.
    InternalDate(&'a [u8; 26]),
    /// An item by the name that its answer has, with bytes that are told as a literal.
    Bytes { item: &'a [u8], bytes: &'a [u8] },
    /// An item that the message lacks.
    Absent(&'a [u8]),
    /// An item whose value is printed already.
    Printed { item: &'a [u8], text: &'a [u8] },
}

impl<'a> Shown for MessageData<'a> {
    ghost text_of = { message_data_text };

    fn print(&self, out: &mut Vec<u8>) -> Result<(), AllocError> {
        match self {
            MessageData::Uid(uid) => {
                out.extend_from_slice(b"UID ")?;
                push_number(out, u64::from(*uid))
            }
            MessageData::Flags { flags, recent } => {
                out.extend_from_slice(b"FLAGS ")?;
                push_flags(out, flags, *recent)
            }
            MessageData::Modseq(modseq) => {
                out.extend_from_slice(b"MODSEQ (")?;
                push_number(out, *modseq)?;
                out.extend_from_slice(b")")
            }
            MessageData::Size(size) => push_size(out, *size),
            MessageData::InternalDate(date) => {
                out.extend_from_slice(b"INTERNALDATE \"")?;
                out.extend_from_slice(date.as_slice())?;
                out.extend_from_slice(b"\"")
            }
            MessageData::Bytes { item, bytes } => {
                out.extend_from_slice(item)?;
                out.extend_from_slice(b" ")?;
                push_literal(out, bytes)
            }
            MessageData::Absent(item) => {
                out.extend_from_slice(item)?;
                out.extend_from_slice(b" NIL")
            }
            MessageData::Printed { item, text } => {
                out.extend_from_slice(item)?;
                out.extend_from_slice(b" ")?;
                out.extend_from_slice(text)
            }
        }
    }
}

fn push_size(out: &mut Vec<u8>, size: u64) -> Result<(), AllocError>
    ensures { OnOk result (out.new.items ≡ out.old.items ++ size_text size) }
{
    push_named(out, b"RFC822.SIZE ", size)
}

fn push_named(out: &mut Vec<u8>, name: &[u8], number: u64) -> Result<(), AllocError>
    ensures { OnOk result (out.new.items ≡ out.old.items ++ (name.now ++ decimal number)) }
{
    out.extend_from_slice(name)?;
    push_number(out, number)
}

/// `* n FETCH (..)`: what a message has, in the order given.
#[tactic(auto, unfolding(crate::specs::Fetches::fetch_line))]
pub fn push_fetch(
    out: &mut Vec<u8>,
    number: u32,
    values: &[MessageData<'_>],
) -> Result<(), AllocError>
    ensures { OnOk result (out.new.items ≡ out.old.items ++ fetch_line number values.now) }
{
    out.extend_from_slice(b"* ")?;
    push_number(out, u64::from(number))?;
    out.extend_from_slice(b" FETCH (")?;
    print_spaced(out, values)?;
    out.extend_from_slice(b")\r\n")
}
