//! Messages, the reasons why there are none, content types and wrappers.
use mime_reader::{ReadFault, content_type, parameter_value, read_message, read_or_wrap, wrap};
use mime_tree::{Body, Encoding, Message, Reason, Value};
use std::alloc::{AllocError, Global};
use std::test::Fail;

/// How many fields a message has, and its body: `p<..>` for a plain leaf, `b<..>` for one in base64, `[..]` for parts, `(..)` for
/// a message within.
fn show(out: &mut Vec<u8>, message: &Message) -> Result<(), AllocError> {
    out.push(b'0'.saturating_add(message.fields.len().min(9) as u8))?;
    match &message.body {
        Body::Leaf { encoding, bytes } => {
            out.extend_from_slice(if *encoding == Encoding::Plain {
                b"p<"
            } else {
                b"b<"
            })?;
            out.extend_from_slice(bytes.as_slice())?;
            out.push(b'>')?;
        }
        Body::Multi(parts) => {
            out.push(b'[')?;
            for part in parts {
                show(out, part)?;
            }
            out.push(b']')?;
        }
        Body::Nested(inner) => {
            out.push(b'(')?;
            show(out, inner)?;
            out.push(b')')?;
        }
    }
    Ok(())
}

fn shown(alloc: Global, message: &Message) -> Result<Vec<u8>, AllocError> {
    let mut out = Vec::new(alloc);
    show(&mut out, message)?;
    Ok(out)
}

#[test]
fn messages(rt: HostRuntime) -> Result<(), Fail> {
    let alloc = rt.alloc();
    for (text, expected) in [
        // Bare line ends, an empty body, no header.
        (b"A: b\nB: c\n\nd\ne".as_slice(), b"2p<d\r\ne>".as_slice()),
        (b"", b"0p<>"),
        (b"\r\n\n", b"0p<\r\n>"),
        // Preamble, blanks behind a delimiter, an epilogue.
        (
            b"Content-Type: multipart/mixed; boundary=\"a b\"\n\nx\n--a b \t\n\ny\n--a b\n\n\n--a b-- \nz\n",
            b"1[0p<y>0p<>]",
        ),
        // Boundaries of which one is the beginning of the other: the last part of the inner isn't closed.
        (
            b"Content-Type: multipart/a; boundary=b\n\n--b\nContent-Type: multipart/a; boundary=bc\n\n--bc\n\n1\n--b\n\n2\n--bc\n3\n--b--\n",
            b"1[1[0p<1>]0p<2\r\n--bc\r\n3>]",
        ),
        // A digest, the type of a part of it that names one, and a multipart within.
        (
            b"Content-Type: Multipart/Digest; Boundary=b\n\n--b\n\nA: 1\n\nx\n--b\nContent-Type: text/plain\n\ny\n--b\nContent-Type: no type\n\n\nz\n--b--",
            b"1[0(1p<x>)1p<y>1(0p<z>)]",
        ),
        // Base64, with one bad letter too, and of a message.
        (
            b"content-transfer-encoding: BASE64\n\nZm9v\nYg==\n",
            b"1b<foob>",
        ),
        (
            b"Content-Transfer-Encoding: base64\n\nZm9*\n",
            b"1p<Zm9*\r\n>",
        ),
        (
            b"Content-Type: message/rfc822\nContent-Transfer-Encoding: base64\n\nQQ==",
            b"2b<A>",
        ),
        (
            b"Content-Type: message/rfc822\nContent-Transfer-Encoding: quoted-printable\n\nA: 1\n",
            b"2p<A: 1\r\n>",
        ),
        (
            b"Content-Type: MESSAGE/RFC822\nContent-Transfer-Encoding: 8bit\n\nA: 1\n",
            b"2(1p<>)",
        ),
        // The encoding of a multipart isn't looked at.
        (
            b"Content-Transfer-Encoding: base64\nContent-Type: multipart/x; boundary=q\n\n--q\n\nQQ==",
            b"2[0p<QQ==>]",
        ),
    ] {
        let message = read_message(alloc, text)?;
        assert_eq!(rt; shown(alloc, &message)?.as_slice(), expected);
    }
    Ok(())
}

#[test]
fn reasons(rt: HostRuntime) -> Result<(), Fail> {
    let alloc = rt.alloc();
    for (text, reason) in [
        (b"A b\n\0".as_slice(), Reason::ZeroByte),
        (b"A b\nC: \rd\n", Reason::LoneReturn),
        (b"A b\nContent-Type: multipart/mixed\n", Reason::NoField),
        (b"Content-Type: multipart/mixed\n\n", Reason::NoBoundary),
        (
            b"Content-Type: multipart/mixed; boundary=\"\"\n\n----\n",
            Reason::NoBoundary,
        ),
        (
            b"Content-Type: multipart/mixed; boundary=\"a \"\n\n--a\n",
            Reason::NoBoundary,
        ),
        (
            b"Content-Type: multipart/mixed; boundary=\"a\tb\"\n\n--a\tb\n",
            Reason::NoBoundary,
        ),
        (
            b"Content-Type: multipart/mixed; boundary=0123456789012345678901234567890123456789012345678901234567890123456789x\n\n--x\n",
            Reason::NoBoundary,
        ),
        // The closing line of the inner boundary would be a delimiter of the outer one.
        (
            b"Content-Type: multipart/mixed; boundary=a--\n\n--a--\nContent-Type: multipart/mixed; boundary=a\n\n--a\n",
            Reason::NoBoundary,
        ),
        // An inner boundary that is the outer one: the outer's delimiters are cut first.
        (
            b"Content-Type: multipart/mixed; boundary=a\n\n--a\nContent-Type: multipart/mixed; boundary=a\n\n--a\nx\n",
            Reason::NoDelimiter,
        ),
        (
            b"Content-Type: multipart/mixed; boundary=a\n\n--a--\n--a\n",
            Reason::NoDelimiter,
        ),
        // The first part that has a reason decides, and a message before its parts.
        (
            b"Content-Type: multipart/mixed; boundary=a\n\n--a\nContent-Type: multipart/mixed; boundary=b\n\n--a\nno field\n",
            Reason::NoDelimiter,
        ),
        (
            b"Content-Type: multipart/mixed; boundary=a\nb\n\n--a\n \n",
            Reason::NoField,
        ),
    ] {
        match read_message(alloc, text) {
            Err(fault) => assert_eq!(rt; fault, ReadFault::Unreadable(reason)),
            Ok(_) => assert!(rt; false),
        }
    }
    Ok(())
}

/// A text so many times, with another in front and a third behind.
fn repeated(
    alloc: Global,
    front: &[u8],
    text: &[u8],
    times: usize,
    behind: &[u8],
) -> Result<Vec<u8>, AllocError> {
    let mut out = front.to_vec(alloc)?;
    for _ in 0..times {
        out.extend_from_slice(text)?;
    }
    out.extend_from_slice(behind)?;
    Ok(out)
}

fn reason_of(alloc: Global, text: &[u8]) -> Option<ReadFault> {
    match read_message(alloc, text) {
        Ok(_) => None,
        Err(fault) => Some(fault),
    }
}

#[test]
fn limits(rt: HostRuntime) -> Result<(), Fail> {
    let alloc = rt.alloc();
    let within = b"Content-Type: message/rfc822\n\n";
    let parts = b"Content-Type: multipart/mixed; boundary=a\n\n";
    for (text, expected) in [
        (repeated(alloc, b"", within, 16, b"")?, None),
        (
            repeated(alloc, b"", within, 17, b"no field")?,
            Some(Reason::TooDeep),
        ),
        (repeated(alloc, parts, b"--a\n\n", 500, b"--a--")?, None),
        (
            repeated(alloc, parts, b"--a\n\n", 500, b"--a\nno field")?,
            Some(Reason::TooMany),
        ),
        (
            repeated(alloc, b"A:", b"b", 262_141, b"\n\n")?,
            Some(Reason::LongHeader),
        ),
        (repeated(alloc, b"A:", b"b", 262_140, b"\n\n")?, None),
    ] {
        assert_eq!(rt;
            reason_of(alloc, &text),
            expected.map(|reason| ReadFault::Unreadable(reason))
        );
    }
    Ok(())
}

#[test]
fn content_types(rt: HostRuntime) -> Result<(), Fail> {
    let alloc = rt.alloc();
    let Some(found) = content_type(alloc, b"a/B ;c=\"d \\\" e\" ; F= g ;f=h i; j=k")? else {
        return Ok(assert!(rt; false));
    };
    assert_eq!(rt; found.top_level.as_slice(), b"a".as_slice());
    assert_eq!(rt; found.subtype.as_slice(), b"B".as_slice());
    let parameters = found.parameters.as_slice();
    assert_eq!(rt; parameters.len(), 3);
    assert_eq!(rt;
        parameter_value(b"C", parameters),
        Some(b"d \" e".as_slice())
    );
    assert_eq!(rt; parameter_value(b"f", parameters), Some(b"g".as_slice()));
    assert!(rt; parameter_value(b"j", parameters).is_none());
    for value in [
        b"".as_slice(),
        b"text",
        b"text /plain",
        b"text/",
        b"/plain",
        b"\"a\"/b",
    ] {
        assert!(rt; content_type(alloc, value)?.is_none());
    }
    Ok(())
}

/// The text of the date that stands first.
fn first_date(message: &Message) -> &[u8] {
    match message.fields.first() {
        Some(field) => match &field.value {
            Value::Date(date) => &date.text,
            _ => b"",
        },
        None => b"",
    }
}

#[test]
fn wrappers(rt: HostRuntime) -> Result<(), Fail> {
    let alloc = rt.alloc();
    let mail = read_or_wrap(alloc, b"\0", 1_057_049_557)?;
    assert_eq!(rt; mail.reason, Some(Reason::ZeroByte));
    assert_eq!(rt;
        shown(alloc, &mail.message)?.as_slice(),
        b"4[1p<The attached message could not be read: a zero byte.>3b<\0>]".as_slice()
    );
    assert_eq!(rt;
        first_date(&mail.message),
        b"Tue, 01 Jul 2003 08:52:37 +0000".as_slice()
    );
    let late = wrap(alloc, b"", Reason::TooMany, u64::MAX)?;
    assert_eq!(rt;
        first_date(&late),
        b"Fri, 31 Dec 9999 23:59:59 +0000".as_slice()
    );
    assert!(rt; read_or_wrap(alloc, b"A: b\n", 0)?.reason.is_none());
    Ok(())
}
