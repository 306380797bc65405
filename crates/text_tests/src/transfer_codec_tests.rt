//! Base64 and quoted-printable bodies.
use std::test::Fail;
use transfer_codec::{decode_quoted, decode64, print64, printed64_len};

// RFC 4648 §10, blanks and line ends, and what isn't canonical base64.
#[test]
fn base64_bodies(rt: HostRuntime) -> Result<(), Fail> {
    let alloc = rt.alloc();
    for (body, bytes) in [
        (b"".as_slice(), b"".as_slice()),
        (b"Zg==", b"f"),
        (b"Zm8=", b"fo"),
        (b" Zm9v\tYmFy\r\n\n", b"foobar"),
    ] {
        let found = decode64(alloc, body)?.ok_or("no base64")?;
        assert_eq!(rt; found.as_slice(), bytes);
    }
    for body in [
        b"Zg=".as_slice(),
        b"Zh==",
        b"Zm8",
        b"Zg==Zg==",
        b"Z-8=",
        b"Z\x00m8=",
        b"====",
    ] {
        assert!(rt; decode64(alloc, body)?.is_none());
    }
    Ok(())
}

#[test]
fn base64_lines(rt: HostRuntime) -> Result<(), Fail> {
    let alloc = rt.alloc();
    assert!(rt; print64(alloc, b"")?.is_empty());
    assert_eq!(rt;
        print64(alloc, b"A: b\r\n\r\n\0")?.as_slice(),
        b"QTogYg0KDQoA\r\n".as_slice()
    );
    let long = vec![in alloc; 0; 58]?;
    let printed = print64(alloc, &long)?;
    let mut expected = vec![in alloc; b'A'; 76]?;
    expected.extend_from_slice(b"\r\nAA==\r\n")?;
    assert_eq!(rt; printed.as_slice(), expected.as_slice());
    assert_eq!(rt; printed64_len(58), Some(84));
    assert_eq!(rt; printed64_len(usize::MAX), None);
    Ok(())
}

#[test]
fn quoted_bodies(rt: HostRuntime) -> Result<(), Fail> {
    let alloc = rt.alloc();
    for (body, text) in [
        (
            b"Gr=C3=bC=c3=9Fe".as_slice(),
            b"Gr\xC3\xBC\xC3\x9Fe".as_slice(),
        ),
        (b"a \t\r\nb =20 ", b"a\r\nb  "),
        (b"a= \r\nb=\r\n=", b"ab"),
        (b"50% = half=4=\r\n1==3D", b"50% = half=41=="),
    ] {
        assert_eq!(rt; decode_quoted(alloc, body)?.as_slice(), text);
    }
    Ok(())
}
