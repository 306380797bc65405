//! Canonical texts, the values and sizes in them, and messages that are read again.
use canon_writer::{
    append_field, printed_body_size, printed_header_size, printed_size, value_text, write_body,
    write_header, write_message,
};
use mime_reader::{
    ReadFault, TransferEncoding, named_type, read_message, token_with_parameters,
    transfer_encoding, wrap,
};
use mime_tree::{Body, Reason};
use std::alloc::Global;
use std::test::Fail;

/// The canonical text, and how long it was said to be.
fn canonical(alloc: Global, text: &[u8]) -> Result<(Vec<u8>, usize), Fail> {
    let message = read_message(alloc, text)?;
    let size = printed_size(&message);
    Ok((write_message(alloc, &message)?, size))
}

#[test]
fn canonical_texts(rt: HostRuntime) -> Result<(), Fail> {
    let alloc = rt.alloc();
    for (text, expected) in [
        // Lines, blanks and folds.
        (b"A:  b\n\nc\n".as_slice(), b"A: b\r\n\r\nc\r\n".as_slice()),
        (b"", b"\r\n"),
        (b"A : b", b"A: b\r\n\r\n"),
        (b"A:\n\n", b"A:\r\n\r\n"),
        (b"\nc", b"\r\nc"),
        (b"A: b\nA: b \n\n", b"A: b\r\nA: b\r\n\r\n"),
        (b"S: a \t\n  b\t\n\n\xff\r", b"S: a \t  b\r\n\r\n\xff\r"),
        (
            b"S: aaaaaaaaaaaaaaaaaaaaaaaaaaaaaaaaaaaaa bbbbbbbbbbbbbbbbbbbbbbbbbbbbbbbbbbbbb c\n",
            b"S: aaaaaaaaaaaaaaaaaaaaaaaaaaaaaaaaaaaaa bbbbbbbbbbbbbbbbbbbbbbbbbbbbbbbbbbbbb\r\n c\r\n\r\n",
        ),
        (
            b"S: aaaaaaaaaaaaaaaaaaaaaaaaaaaaaaaaaaaaa bbbbbbbbbbbbbbbbbbbbbbbbbbbbbbbbbbbbbb c\n",
            b"S: aaaaaaaaaaaaaaaaaaaaaaaaaaaaaaaaaaaaa\r\n bbbbbbbbbbbbbbbbbbbbbbbbbbbbbbbbbbbbbb c\r\n\r\n",
        ),
        (
            b"S: aaaaaaaaaaaaaaaaaaaaaaaaaaaaaaaaaaaaaaaaaaaaaaaaaaaaaaaaaaaaaaaaaaaaaaaaaaaaaaaaaaaaaaaa b\n",
            b"S: aaaaaaaaaaaaaaaaaaaaaaaaaaaaaaaaaaaaaaaaaaaaaaaaaaaaaaaaaaaaaaaaaaaaaaaaaaaaaaaaaaaaaaaa\r\n b\r\n\r\n",
        ),
        // Values that have a type.
        (
            b"From: ann@x.org (Ann)\n\n".as_slice(),
            b"From: Ann <ann@x.org>\r\n\r\n".as_slice(),
        ),
        (b"Cc: what?\n", b"Cc: what?\r\n\r\n"),
        (
            b"date: 1 Jan 70 00:00 EST\n",
            b"date: Thu, 01 Jan 1970 00:00:00 -0500\r\n\r\n",
        ),
        (
            b"Message-ID: <a>  <b>\nReferences: <a>  <b>\n",
            b"Message-ID: <a>  <b>\r\nReferences: <a> <b>\r\n\r\n",
        ),
        (
            b"BCC: Team : a@x.org ,\n (b) \"B, C\" <@y:b@x.org> ;\n",
            b"BCC: Team: a@x.org, \"B, C\" <b@x.org>;\r\n\r\n",
        ),
        (
            b"To: aaaaaaaaaaaaaaaaaaaaaaaaaaaaaaaaaaaa@x.org,bbbbbbbbbbbbbbbbbbbbbbbbb@x.org\n",
            b"To: aaaaaaaaaaaaaaaaaaaaaaaaaaaaaaaaaaaa@x.org,\r\n bbbbbbbbbbbbbbbbbbbbbbbbb@x.org\r\n\r\n",
        ),
        // Parts.
        (
            b"Content-Type: multipart/mixed; boundary=x\n\npre\n--x\n\nhi\n".as_slice(),
            b"Content-Type: multipart/mixed; boundary=x\r\n\r\n--x\r\n\r\nhi\r\n\r\n--x--\r\n".as_slice(),
        ),
        (
            b"Content-Type: multipart/digest; boundary=\"a b\"\n\n--a b \n\nA: b\n\nc\n--a b--\nd\n",
            b"Content-Type: multipart/digest; boundary=\"a b\"\r\n\r\n--a b\r\n\r\nA: b\r\n\r\nc\r\n--a b--\r\n",
        ),
        (
            b"Content-Type: message/rfc822\n\nContent-Type: multipart/mixed; boundary=x\n\n--x\n--x\nA:b",
            b"Content-Type: message/rfc822\r\n\r\nContent-Type: multipart/mixed; boundary=x\r\n\r\n--x\r\n\r\n\r\n--x\r\nA: b\r\n\r\n\r\n--x--\r\n",
        ),
        (
            b"Content-Transfer-Encoding: BASE64\n\nA A\n==",
            b"Content-Transfer-Encoding: BASE64\r\n\r\nAA==\r\n",
        ),
        (
            b"Content-Transfer-Encoding: base64\n\nAB==\n",
            b"Content-Transfer-Encoding: base64\r\n\r\nAB==\r\n",
        ),
    ] {
        let (once, size) = canonical(alloc, text)?;
        assert_eq!(rt; once.as_slice(), expected);
        assert_eq!(rt; size, expected.len());
        let (twice, _) = canonical(alloc, &once)?;
        assert_eq!(rt; twice.as_slice(), expected);
    }
    Ok(())
}

/// A mail with an encoded subject, a quoted name, a preamble, a quoted-printable text and a picture.
#[test]
fn a_usual_mail(rt: HostRuntime) -> Result<(), Fail> {
    let alloc = rt.alloc();
    let text = b"From: \"Doe, Jane\" <jane@example.org>
To: Alice <alice@example.com>
Subject: =?utf-8?Q?Gr=C3=BC=C3=9Fe?=
Date: Tue, 1 Jul 2003 10:52:37 +0200
Message-ID: <m1@example.org>
MIME-Version: 1.0
Content-Type: multipart/mixed; boundary=\"b1\"

This is a multi-part message in MIME format.
--b1
Content-Type: text/plain; charset=utf-8; format=flowed
Content-Transfer-Encoding: quoted-printable

Gr=C3=BC=C3=9Fe
--b1
Content-Type: image/png; name=\"p.png\"
Content-Transfer-Encoding: base64
Content-Disposition: attachment; filename=\"p.png\"

iVBORw0KGgo=

--b1--
";
    let expected =
        b"From: \"Doe, Jane\" <jane@example.org>\r\nTo: Alice <alice@example.com>\r\nSubject: =?utf-8?Q?Gr=C3=BC=C3=9Fe?=\r\nDate: Tue, 01 Jul 2003 10:52:37 +0200\r\nMessage-ID: <m1@example.org>\r\nMIME-Version: 1.0\r\nContent-Type: multipart/mixed; boundary=\"b1\"\r\n\r\n--b1\r\nContent-Type: text/plain; charset=utf-8; format=flowed\r\nContent-Transfer-Encoding: quoted-printable\r\n\r\nGr=C3=BC=C3=9Fe\r\n--b1\r\nContent-Type: image/png; name=\"p.png\"\r\nContent-Transfer-Encoding: base64\r\nContent-Disposition: attachment; filename=\"p.png\"\r\n\r\niVBORw0KGgo=\r\n\r\n--b1--\r\n";
    let message = read_message(alloc, text)?;
    assert_eq!(rt;
        write_message(alloc, &message)?.as_slice(),
        expected.as_slice()
    );
    assert_eq!(rt; printed_size(&message), 526);
    assert_eq!(rt;
        write_header(alloc, &message.fields)?.as_slice(),
        &expected[..243]
    );
    assert_eq!(rt; printed_header_size(&message.fields), 243);
    let body = write_body(alloc, &message.body, b"b2")?;
    assert!(rt;
        body.as_slice()
            .starts_with(b"--b2\r\nContent-Type: text/plain")
    );
    assert!(rt; body.as_slice().ends_with(b"\r\n\r\n--b2--\r\n"));
    assert_eq!(rt; printed_body_size(&message.body, b"b2"), 283);
    let Body::Multi(parts) = &message.body else {
        return Err("no parts".into());
    };
    assert_eq!(rt; parts.len(), 2);
    assert_eq!(rt; printed_body_size(&parts[0].body, b""), 15);
    assert_eq!(rt; printed_body_size(&parts[1].body, b""), 14);
    Ok(())
}

/// Values of each kind, unfolded, and a field that is folded.
#[test]
fn values(rt: HostRuntime) -> Result<(), Fail> {
    let alloc = rt.alloc();
    let text =
        b"Subject: a\n  b\nTo: ann@x.org (Ann),\n \"B C\" <b@x.org>\nDate: 1 Jul 03 10:52 +0200\nReferences: <a>  <b>\n\n";
    let message = read_message(alloc, text)?;
    let expected = [
        b"a  b".as_slice(),
        b"Ann <ann@x.org>, B C <b@x.org>",
        b"Tue, 01 Jul 2003 10:52:00 +0200",
        b"<a> <b>",
    ];
    assert_eq!(rt; message.fields.len(), 4);
    for at in 0..4 {
        let value = value_text(alloc, &message.fields[at].value)?;
        assert_eq!(rt; value.as_slice(), expected[at]);
    }
    let mut out = b"BODY ".to_vec(alloc)?;
    append_field(alloc, &mut out, &message.fields[1])?;
    assert_eq!(rt;
        out.as_slice(),
        b"BODY To: Ann <ann@x.org>, B C <b@x.org>\r\n".as_slice()
    );
    Ok(())
}

#[test]
fn a_wrapper(rt: HostRuntime) -> Result<(), Fail> {
    let alloc = rt.alloc();
    let message = wrap(alloc, b"A: b\r\n\r\n\0", Reason::ZeroByte, 0)?;
    assert_eq!(rt; printed_size(&message), 420);
    let text = write_message(alloc, &message)?;
    let expected =
        b"Date: Thu, 01 Jan 1970 00:00:00 +0000\r\nSubject: Unreadable message\r\nMIME-Version: 1.0\r\nContent-Type: multipart/mixed; boundary=\"wrapped\"\r\n\r\n--wrapped\r\nContent-Type: text/plain; charset=us-ascii\r\n\r\nThe attached message could not be read: a zero byte.\r\n--wrapped\r\nContent-Type: application/octet-stream\r\nContent-Transfer-Encoding: base64\r\nContent-Disposition: attachment; filename=original\r\n\r\nQTogYg0KDQoA\r\n\r\n--wrapped--\r\n";
    assert_eq!(rt; text.as_slice(), expected.as_slice());
    let (again, _) = canonical(alloc, &text)?;
    assert_eq!(rt; again.as_slice(), expected.as_slice());
    Ok(())
}

/// Folding makes a header longer, so the longest ones are read, but their print is not read again.
#[test]
fn a_header_too_long_once_it_is_folded(rt: HostRuntime) -> Result<(), Fail> {
    let alloc = rt.alloc();
    let mut text = b"A: a".to_vec(alloc)?;
    for _ in 0..131_069 {
        text.extend_from_slice(b" a")?;
    }
    let (once, _) = canonical(alloc, &text)?;
    match read_message(alloc, &once) {
        Err(fault) => assert_eq!(rt; fault, ReadFault::Unreadable(Reason::LongHeader)),
        Ok(_) => assert!(rt; false),
    }
    Ok(())
}

#[test]
fn a_disposition(rt: HostRuntime) -> Result<(), Fail> {
    let alloc = rt.alloc();
    let value = b"Attachment ; a=1;FILENAME=\"p \\\"q\\\"\"; a = 2 x; b=3";
    let found = token_with_parameters(alloc, value)?.ok_or("no token")?;
    assert_eq!(rt; found.token.as_slice(), b"Attachment".as_slice());
    let expected = [
        (b"a".as_slice(), b"1".as_slice()),
        (b"FILENAME", b"p \"q\""),
        (b"a", b"2"),
    ];
    let parameters = found.parameters.as_slice();
    assert_eq!(rt; parameters.len(), 3);
    for at in 0..3 {
        assert_eq!(rt; parameters[at].name.as_slice(), expected[at].0);
        assert_eq!(rt; parameters[at].value.as_slice(), expected[at].1);
    }
    assert!(rt; token_with_parameters(alloc, b"; a=1")?.is_none());
    Ok(())
}

/// Encodings by name, and whether a type is named.
#[test]
fn types_and_encodings(rt: HostRuntime) -> Result<(), Fail> {
    let alloc = rt.alloc();
    for (text, encoding, is_named) in [
        (b"\n".as_slice(), TransferEncoding::Absent, false),
        (
            b"Content-Type: Text/Plain\nContent-Transfer-Encoding: BASE64\n\n",
            TransferEncoding::Base64,
            true,
        ),
        (
            b"content-type: text\ncontent-transfer-encoding: Quoted-Printable\n\n",
            TransferEncoding::QuotedPrintable,
            false,
        ),
        (
            b"Content-Transfer-Encoding:\n\n",
            TransferEncoding::Absent,
            false,
        ),
        (
            b"Content-Transfer-Encoding: 8bit\n\n",
            TransferEncoding::Other,
            false,
        ),
    ] {
        let message = read_message(alloc, text)?;
        assert_eq!(rt; transfer_encoding(&message.fields), encoding);
        assert_eq!(rt; named_type(alloc, &message.fields)?.is_some(), is_named);
    }
    Ok(())
}
