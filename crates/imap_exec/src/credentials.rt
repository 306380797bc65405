//! Messages of PLAIN (RFC 4616 §2).

ghost use Rattle.std.specs.Prelude.{◌≡◌, IfOk};
ghost use Rattle.std.specs.Option.{option_and_then, option_map};
ghost use Rattle.transfer_codec.specs.Base64.{decoded};
ghost use Rattle.imap_steps.specs.LoggingIn.{acts_alone, credentials_of, line_of, parted_behind, zero_in};

use std::alloc::{AllocError, Global};
use std::marker::Model;
use transfer_codec::{decode_letters, standard_engine};

// Whose a message is.
#[derive(Drop)]
pub(crate) struct Credentials<'a> {
    identity: &'a [u8],
    name: &'a [u8],
    password: &'a [u8],
}

impl<'a> Model for Credentials<'a> {
    ghost use Rattle.imap_steps.specs.LoggingIn.{Credentials};

    ghost Value = { Credentials };

    ghost view = { λ its. record { identity = its.identity.now; name = its.name.now; password = its.password.now } };
}

impl<'a> Credentials<'a> {
    pub(crate) fn name(&self) -> &'a [u8]
        ensures { result.now ≡ self.now.name }
    {
        self.name
    }

    // Whether a user acts as itself.
    fn acts_alone(&self) -> bool
        ensures { result ≡ acts_alone self.now }
    {
        self.identity.is_empty() || self.identity == self.name
    }

    pub(crate) fn password(&self) -> &'a [u8]
        ensures { result.now ≡ self.now.password }
    {
        self.password
    }
}

// What a line stands for as base64, with no blanks; none where it isn't that of anything.
pub(crate) fn decoded_line(alloc: Global, unit: &[u8]) -> Result<Option<Vec<u8>>, AllocError>
    ensures { IfOk result (λ found. option_map (λ v. v.items) found ≡ decoded (line_of unit.now)) }
{
    let line = &unit[..unit.len().saturating_sub(2)];
    decode_letters(alloc, &standard_engine(), line)
}

// Whose the message of a line is, where the line has one.
pub(crate) fn credentials_in(message: &Option<Vec<u8>>) -> Option<Credentials<'_>>
    ensures { result ≡ option_and_then credentials_of (option_map (λ v. v.items) message.now) }
{
    match message {
        Some(message) => credentials_of(message),
        None => None,
    }
}

// Whose a message is; none where it is no message of PLAIN, or a user is to act as another.
fn credentials_of(message: &[u8]) -> Option<Credentials<'_>>
    ensures { result ≡ credentials_of message.now }
{
    let end = zero_in(message)?;
    let its = parted_behind(&message[..end], &message[end + 1..])?;
    if its.acts_alone() { Some(its) } else { None }
}

fn parted_behind<'a>(identity: &'a [u8], rest: &'a [u8]) -> Option<Credentials<'a>>
    ensures { result ≡ parted_behind identity.now rest.now }
{
    let end = zero_in(rest)?;
    Some(Credentials {
        identity,
        name: &rest[..end],
        password: &rest[end + 1..],
    })
}

fn zero_in(text: &[u8]) -> Option<usize>
    ensures { result ≡ zero_in text.now }
{
    text.iter().position(|b| *b == 0)
}
