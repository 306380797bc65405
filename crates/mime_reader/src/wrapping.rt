//! The message that stands for bytes which can't be read, and mail as it is kept.
ghost use Rattle.std.specs.Prelude.{◌≡◌, IfOk};
ghost use Rattle.mime_tree.specs.Trees.Trees.{none, more};
ghost use Rattle.mime_reader.specs.Arrival.{arrival as arrival_of};
ghost use Rattle.mime_reader.specs.Laws.{WrappingLaws};
ghost use Rattle.mime_reader.specs.Wrapping.{attachment as attachment_of, mail, notice as notice_of, reason_text as reason_text_of, text_field as text_field_of, wrapper, wrapper_fields as wrapper_fields_of};

use crate::faults::ReadFault;
use crate::reading::read_message;
use date_grammar::{law_dates, law_one_print, law_values, print_now};
use mime_tree::{Body, Encoding, Field, Mail, Message, Reason, SentDate, Value};
use octets::Octets;
use std::alloc::{AllocError, Global};

/// The last second of the year 9999.
const LAST_SECOND: u64 = 253_402_300_799;

/// A moment in +0000, as it is kept.
fn arrival(now: u64) -> SentDate
    ensures { result ≡ arrival_of now }
{
    law_one_print();
    law_values();
    let seconds = now.min(LAST_SECOND);
    SentDate {
        text: print_now(now),
        seconds: seconds as i64,
        day: (seconds / 86_400) as i64,
    }
}

/// A reason in words.
fn reason_text(reason: Reason) -> &'static [u8]
    ensures { result.now ≡ reason_text_of reason }
{
    match reason {
        Reason::ZeroByte => b"a zero byte",
        Reason::LoneReturn => b"a lone carriage return",
        Reason::NoField => b"a line that is no field",
        Reason::LongHeader => b"a long header",
        Reason::NoBoundary => b"no usable boundary",
        Reason::NoDelimiter => b"no delimiter",
        Reason::TooDeep => b"nested too deep",
        Reason::TooMany => b"too many parts",
    }
}

fn text_field(alloc: Global, name: &[u8], text: &[u8]) -> Result<Field, AllocError>
    ensures { IfOk result (λ field. field ≡ text_field_of name.now text.now) }
{
    let name = Octets::new(name.to_vec(alloc)?);
    let value = Value::Text(Octets::new(text.to_vec(alloc)?));
    Ok(Field { name, value })
}

/// The part that tells the reason.
fn notice(alloc: Global, reason: Reason) -> Result<Message, AllocError>
    ensures { IfOk result (λ message. message ≡ notice_of reason) }
{
    let kind = text_field(alloc, b"Content-Type", b"text/plain; charset=us-ascii")?;
    let mut text = b"The attached message could not be read: ".to_vec(alloc)?;
    text.extend_from_slice(reason_text(reason))?;
    text.push(b'.')?;
    Ok(Message {
        fields: vec![in alloc; kind]?,
        body: Body::Leaf {
            encoding: Encoding::Plain,
            bytes: Octets::new(text),
        },
    })
}

/// The part that has the bytes as they came.
fn attachment(alloc: Global, bytes: &[u8]) -> Result<Message, AllocError>
    ensures { IfOk result (λ message. message ≡ attachment_of bytes.now) }
{
    let kind = text_field(alloc, b"Content-Type", b"application/octet-stream")?;
    let encoding = text_field(alloc, b"Content-Transfer-Encoding", b"base64")?;
    let shown = text_field(
        alloc,
        b"Content-Disposition",
        b"attachment; filename=original",
    )?;
    let bytes = Octets::new(bytes.to_vec(alloc)?);
    Ok(Message {
        fields: vec![in alloc; kind, encoding, shown]?,
        body: Body::Leaf {
            encoding: Encoding::Base64,
            bytes,
        },
    })
}

fn wrapper_fields(alloc: Global, now: u64) -> Result<Vec<Field>, AllocError>
    ensures { IfOk result (λ found. found.items ≡ wrapper_fields_of now) }
{
    let date = Field {
        name: Octets::new(b"Date".to_vec(alloc)?),
        value: Value::Date(arrival(now)),
    };
    let subject = text_field(alloc, b"Subject", b"Unreadable message")?;
    let version = text_field(alloc, b"MIME-Version", b"1.0")?;
    let kind = text_field(
        alloc,
        b"Content-Type",
        b"multipart/mixed; boundary=\"wrapped\"",
    )?;
    let fields = vec![in alloc; date, subject, version, kind]?;
    Ok(fields)
}

/// The message that stands for bytes which can't be read for a reason: it tells the reason, and has the bytes attached as they
/// came. The time of arrival is in seconds since 1970-01-01 00:00:00 +0000; one behind the year 9999 is its last second.
#[tactic(auto, unfolding(crate::specs::Wrapping::wrapper))]
pub fn wrap(alloc: Global, bytes: &[u8], reason: Reason, now: u64) -> Result<Message, AllocError>
    ensures { IfOk result (λ message. message ≡ wrapper bytes.now reason now) }
{
    let fields = wrapper_fields(alloc, now)?;
    let notice = notice(alloc, reason)?;
    let attachment = attachment(alloc, bytes)?;
    let parts = vec![in alloc; notice, attachment]?;
    Ok(Message {
        fields,
        body: Body::Multi(parts),
    })
}

/// Bytes that came at a moment, as the mail that is kept: read, or wrapped where they can't be read.
pub fn read_or_wrap(alloc: Global, bytes: &[u8], now: u64) -> Result<Mail, AllocError>
    ensures { IfOk result (λ found. found ≡ mail bytes.now now) }
{
    match read_message(alloc, bytes) {
        Ok(message) => Ok(Mail {
            message,
            reason: None,
        }),
        Err(ReadFault::Unreadable(reason)) => Ok(Mail {
            message: wrap(alloc, bytes, reason, now)?,
            reason: Some(reason),
        }),
        Err(ReadFault::NoMemory) => Err(AllocError),
    }
}

/// A wrapper's fields are such as are read, and its date is printed as the calls of dates print it.
pub fn law_wrapping()
    ensures { WrappingLaws }
{
    law_dates();
    law_values();
}
