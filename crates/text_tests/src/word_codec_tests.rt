//! Encoded words, charsets and case folding.
use std::test::Fail;
use word_codec::{charset_text, decoded_text, folded};

// RFC 2047 §8.
#[test]
fn examples_of_the_standard(rt: HostRuntime) -> Result<(), Fail> {
    let alloc = rt.alloc();
    for (value, text) in [
        (b"(=?ISO-8859-1?Q?a?=)".as_slice(), "(a)"),
        (b"(=?ISO-8859-1?Q?a?= b)", "(a b)"),
        (b"(=?ISO-8859-1?Q?a?= =?ISO-8859-1?Q?b?=)", "(ab)"),
        (b"(=?ISO-8859-1?Q?a?=  =?ISO-8859-1?Q?b?=)", "(ab)"),
        (b"(=?ISO-8859-1?Q?a_b?=)", "(a b)"),
        (b"(=?ISO-8859-1?Q?a?= =?ISO-8859-2?Q?_b?=)", "(a b)"),
        (
            b"=?ISO-8859-1?Q?Keld_J=F8rn_Simonsen?= <keld@dkuug.dk>",
            "Keld J\u{F8}rn Simonsen <keld@dkuug.dk>",
        ),
        (
            b"=?ISO-8859-1?B?SWYgeW91IGNhbiByZWFkIHRoaXMgeW8=?= =?ISO-8859-2?B?dSB1bmRlcnN0YW5kIHRoZSBleGFtcGxlLg==?=",
            "If you can read this you understand the example.",
        ),
    ] {
        assert_eq!(rt; decoded_text(alloc, value)?.as_str(), text);
    }
    Ok(())
}

#[test]
fn values(rt: HostRuntime) -> Result<(), Fail> {
    let alloc = rt.alloc();
    for (value, text) in [
        (
            b"=?iso-8859-1?Q?a_b?= =?utf-8?B?w7w=?=".as_slice(),
            "a b\u{FC}",
        ),
        (b"a=?utf-8?q?b?= =?x?= =?UTF-8?b?Yw==?=d", "ab =?x?= cd"),
        (
            b"=?utf-8?Q?=4?= =?utf-8?B?AB==?= =?utf-8?Q?=c3=bc?=",
            "=?utf-8?Q?=4?= =?utf-8?B?AB==?= \u{FC}",
        ),
        (b"=??Q?=e9a?==?=?us-ascii?Q??=", "\u{FFFD}a=?"),
        (b"\xC3\xBC \xE2\x82", "\u{FC} \u{FFFD}\u{FFFD}"),
    ] {
        assert_eq!(rt; decoded_text(alloc, value)?.as_str(), text);
    }
    Ok(())
}

#[test]
fn charsets(rt: HostRuntime) -> Result<(), Fail> {
    let alloc = rt.alloc();
    for (charset, text) in [
        (b"Utf-8".as_slice(), "a\u{FC}\u{FFFD}"),
        (b"ISO-8859-1", "a\u{C3}\u{BC}\u{FF}"),
        (b"us-ascii", "a\u{FFFD}\u{FFFD}\u{FFFD}"),
        (b"latin1", "a\u{FFFD}\u{FFFD}\u{FFFD}"),
    ] {
        assert_eq!(rt;
            charset_text(alloc, charset, b"a\xC3\xBC\xFF")?.as_str(),
            text
        );
    }
    assert_eq!(rt; folded(alloc, "GR\u{DC}SSE")?.as_str(), "gr\u{FC}sse");
    assert_eq!(rt; folded(alloc, "Gr\u{FC}\u{DF}e")?.as_str(), "gr\u{FC}sse");
    Ok(())
}

// Many starts of words that are none: the time goes with the length.
#[test]
fn a_long_value(rt: HostRuntime) -> Result<(), Fail> {
    let alloc = rt.alloc();
    let mut value = Vec::with_capacity(alloc, 262_144)?;
    for _ in 0..131_072 {
        value.extend_from_slice(b"=?")?;
    }
    assert_eq!(rt; decoded_text(alloc, &value)?.as_bytes(), value.as_slice());
    Ok(())
}
