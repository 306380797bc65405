//! Lines, blanks, letters and numbers of texts.
use mail_text::{crlf, decimal, has_byte, is_crlf, lines, lower, same, split_line, trim};
use std::test::Fail;

#[test]
fn line_ends(rt: HostRuntime) -> Result<(), Fail> {
    let alloc = rt.alloc();
    for (text, turned) in [
        (b"".as_slice(), b"".as_slice()),
        (b"a\nb\r\nc", b"a\r\nb\r\nc"),
        (b"\n\r\r\n\r", b"\r\n\r\r\n\r"),
    ] {
        assert_eq!(rt; crlf(alloc, text)?.as_slice(), turned);
        assert_eq!(rt; is_crlf(text), text == turned);
    }
    let pieces = lines(alloc, b"a\nb\r\n\r\r\n\r\nc\r")?;
    assert_eq!(rt;
        pieces.as_slice(),
        [b"a\nb".as_slice(), b"\r", b"", b"c\r"].as_slice()
    );
    assert_eq!(rt;
        split_line(b"a\r\nb\n"),
        Some((b"a".as_slice(), b"b\n".as_slice()))
    );
    Ok(())
}

#[test]
fn words_and_numbers(rt: HostRuntime) {
    assert_eq!(rt; trim(b" \t a b\t"), b"a b".as_slice());
    assert_eq!(rt; trim(b" \t"), b"".as_slice());
    assert_eq!(rt; lower(b'Z'), b'z');
    assert_eq!(rt; lower(b'['), b'[');
    assert!(rt; same(b"Subject[", b"sUBJECT["));
    assert!(rt; !same(b"a", b"a "));
    assert!(rt; has_byte(b"a\0", 0) && !has_byte(b"a", 0));
    for (text, value) in [
        (b"007".as_slice(), Some(7)),
        (b"18446744073709551615", Some(u64::MAX)),
        (b"18446744073709551616", None),
        (b"", None),
        (b"-1", None),
        (b"1 ", None),
    ] {
        assert_eq!(rt; decimal(text), value);
    }
}
