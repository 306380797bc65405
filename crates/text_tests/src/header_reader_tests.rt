//! Headers: their fields, what is wrong with them, and what values are read as.
use header_reader::{HeaderFault, RawField, fields, read_field};
use mime_tree::Value;
use std::alloc::{AllocError, Global};
use std::test::Fail;

fn shown(alloc: Global, raw: &[RawField]) -> Result<Vec<u8>, AllocError> {
    let mut out = Vec::new(alloc);
    for field in raw {
        out.extend_from_slice(field.name.as_slice())?;
        out.extend_from_slice(b"=")?;
        out.extend_from_slice(field.value.as_slice())?;
        out.extend_from_slice(b";")?;
    }
    Ok(out)
}

#[test]
fn headers(rt: HostRuntime) -> Result<(), Fail> {
    let alloc = rt.alloc();
    for (text, expected, place) in [
        (b"A:  b\n\nc\n".as_slice(), b"A=b;".as_slice(), 7),
        (b"A: 1\r\nA: 2\r\n\r\n", b"A=1;A=2;", 14),
        (b"A: b\r\n\tc \r\n d\r\nB\t:\r\n", b"A=b\tc  d;B=;", 20),
        (b"A:b\n \n", b"A=b;", 6),
        (b"", b"", 0),
        (b"\r\nA", b"", 2),
    ] {
        let (raw, at) = fields(alloc, text)?;
        assert_eq!(rt; shown(alloc, &raw)?.as_slice(), expected);
        assert_eq!(rt; at, place);
    }
    Ok(())
}

#[test]
fn refusals(rt: HostRuntime) -> Result<(), Fail> {
    let alloc = rt.alloc();
    for (text, fault) in [
        (b"A b\n".as_slice(), HeaderFault::BadLine),
        (b" A: b\n", HeaderFault::BadLine),
        (b"--A: b\n", HeaderFault::BadLine),
        (b"A\n : b\n", HeaderFault::BadLine),
        (b"A b\nB: \rc\n", HeaderFault::LoneCr),
        (b"A: b\r", HeaderFault::LoneCr),
    ] {
        match fields(alloc, text) {
            Err(found) => assert_eq!(rt; found, fault),
            Ok(_) => assert!(rt; false),
        }
    }
    let mut long = vec![in alloc; b'a'; 262_142]?;
    long[1] = b':';
    assert!(rt; fields(alloc, &long).is_ok());
    long.push(b'a')?;
    match fields(alloc, &long) {
        Err(fault) => assert_eq!(rt; fault, HeaderFault::LongHeader),
        Ok(_) => assert!(rt; false),
    }
    Ok(())
}

/// How each field of a text is read: a digit for each, 0 for text, 1 for addresses, 2 for a date, 3 for ids.
fn forms(alloc: Global, text: &[u8]) -> Result<Vec<u8>, Fail> {
    let (raw, _) = fields(alloc, text)?;
    let mut out = Vec::new(alloc);
    for field in raw {
        out.push(match read_field(alloc, field)?.value {
            Value::Text(_) => b'0',
            Value::Addresses(_) => b'1',
            Value::Date(_) => b'2',
            Value::Ids(_) => b'3',
        })?;
    }
    Ok(out)
}

#[test]
fn typed_fields(rt: HostRuntime) -> Result<(), Fail> {
    let alloc = rt.alloc();
    for (text, expected) in [
        (
            b"From: a@b\nSENDER: a@b\nreply-to: a@b\nTo: a@b\ncC: a@b\nBcc: a@b\n".as_slice(),
            b"111111".as_slice(),
        ),
        (
            b"Resent-From: a@b\nResent-Sender: a@b\nResent-To: a@b\nResent-Cc: a@b\nResent-Bcc: a@b\nResent-Reply-To: a@b\n",
            b"111110",
        ),
        (
            b"Date: 1 Jan 70 00:00 EST\nRESENT-DATE: 1 Jan 70 00:00 Z\nDate: 32 Jan 70 00:00 Z\n",
            b"220",
        ),
        (
            b"Message-ID: <a>\nResent-Message-ID: <a>\nIn-Reply-To: <a> <b>\nreferences: <a>\n",
            b"3333",
        ),
        (
            b"Message-ID: <a> <b>\nReferences: a\nCc: what?\nSubject: a@b\nFroms: a@b\n",
            b"00000",
        ),
    ] {
        assert_eq!(rt; forms(alloc, text)?.as_slice(), expected);
    }
    Ok(())
}
