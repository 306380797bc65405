//! Dates of the standards' examples and at the edges of their rules.
use date_grammar::{
    Stamp, civil_day, print_internal, print_now, read_date, read_day, read_internal,
};

#[test]
fn dates_are_read(rt: HostRuntime) {
    for (value, text, seconds, day) in [
        (
            b"Tue, 1 Jul 2003 10:52:37 +0200".as_slice(),
            b"Tue, 01 Jul 2003 10:52:37 +0200".as_slice(),
            1_057_049_557,
            12_234,
        ),
        (
            b"1 Jan 70 00:00 EST",
            b"Thu, 01 Jan 1970 00:00:00 -0500",
            18_000,
            0,
        ),
        // RFC 5322, appendix A.1.1, A.5 (unfolded) and A.6.2.
        (
            b"Fri, 21 Nov 1997 09:55:06 -0600",
            b"Fri, 21 Nov 1997 09:55:06 -0600",
            880_127_706,
            10_186,
        ),
        (
            b"Thu,      13        Feb          1969      23:32               -0330 (Newfoundland Time)",
            b"Thu, 13 Feb 1969 23:32:00 -0330",
            -27_723_480,
            -322,
        ),
        (
            b"21 Nov 97 09:55:06 GMT",
            b"Fri, 21 Nov 1997 09:55:06 +0000",
            880_106_106,
            10_186,
        ),
        // A leap second, a wrong day name, comments, years of two and three digits.
        (
            b"31 Dec 1998 23:59:60 Z",
            b"Thu, 31 Dec 1998 23:59:60 +0000",
            915_148_800,
            10_591,
        ),
        (
            b"Mon,1 JUL 2003 10:52:37 +0200",
            b"Tue, 01 Jul 2003 10:52:37 +0200",
            1_057_049_557,
            12_234,
        ),
        (
            b"(a (b) \\) c)xyz,(d)01(e)jul\t(f)103(g)10:52(h)-0000(\\))",
            b"Tue, 01 Jul 2003 10:52:00 -0000",
            1_057_056_720,
            12_234,
        ),
        (
            b"1 Jan 49 00:00 ut",
            b"Fri, 01 Jan 2049 00:00:00 +0000",
            2_493_072_000,
            28_855,
        ),
        (
            b"1 Jan 50 00:00 Q",
            b"Sun, 01 Jan 1950 00:00:00 -0000",
            -631_152_000,
            -7_305,
        ),
        (
            b"31 Dec 9999 23:59:59 -2359",
            b"Fri, 31 Dec 9999 23:59:59 -2359",
            253_402_387_139,
            2_932_896,
        ),
    ] {
        match read_date(value) {
            Some(date) => {
                assert_eq!(rt; date.text.as_slice(), text);
                assert_eq!(rt; date.seconds, seconds, "{value:?}");
                assert_eq!(rt; date.day, day, "{value:?}");
            }
            None => assert!(rt; false, "{value:?}"),
        }
    }
}

// What `1 Jan 1970 00:00` is in a zone, in seconds.
fn midnight_in(value: &[u8]) -> i64 {
    match read_date(value) {
        Some(date) => date.seconds,
        None => -1,
    }
}

#[test]
fn zones_have_names(rt: HostRuntime) {
    for (value, hours) in [
        (b"1 Jan 1970 00:00 UT".as_slice(), 0),
        (b"1 Jan 1970 00:00 gmt", 0),
        (b"1 Jan 1970 00:00 z", 0),
        (b"1 Jan 1970 00:00 EDT", 4),
        (b"1 Jan 1970 00:00 est", 5),
        (b"1 Jan 1970 00:00 CDT", 5),
        (b"1 Jan 1970 00:00 CST", 6),
        (b"1 Jan 1970 00:00 MDT", 6),
        (b"1 Jan 1970 00:00 MST", 7),
        (b"1 Jan 1970 00:00 PDT", 7),
        (b"1 Jan 1970 00:00 PST", 8),
        (b"1 Jan 1970 00:00 A", 0),
        (b"1 Jan 1970 00:00 utcde", 0),
    ] {
        assert_eq!(rt; midnight_in(value), 3600 * hours, "{value:?}");
    }
}

#[test]
fn others_are_no_dates(rt: HostRuntime) {
    for value in [
        b"".as_slice(),
        b"31 Feb 2003 10:00:00 +0000",
        b"29 Feb 1900 10:00 Z",
        b"0 Jul 2003 10:52 Z",
        b"001 Jul 2003 10:52 Z",
        b"1 July 2003 10:52 Z",
        b"1Jul 2003 10:52 Z",
        b"1 Jul 20030 10:52 Z",
        b"1 Jul 3 10:52 Z",
        b"1 Jul 1899 10:52 Z",
        b"1 Jul 2003 24:00 Z",
        b"1 Jul 2003 10:60 Z",
        b"1 Jul 2003 10:52:61 Z",
        b"1 Jul 2003 1:52 Z",
        b"1 Jul 2003 10:52",
        b"1 Jul 2003 10:52 +2400",
        b"1 Jul 2003 10:52 +0060",
        b"1 Jul 2003 10:52 abcdef",
        b"1 Jul 2003 10:52 Z Z",
        b"1 Jul 2003 10:52 Z )",
        b"1 Jul 2003 10:52 Z (\\)",
        b"Tue , 1 Jul 2003 10:52 Z",
        b"Tues, 1 Jul 2003 10:52 Z",
        // RFC 5322, appendix A.6.3: an obsolete form that isn't read.
        b"Fri, 21 Nov 1997 09(comment):   55  :  06 -0600",
    ] {
        assert!(rt; read_date(value).is_none(), "{value:?}");
    }
}

#[test]
fn moments_are_printed(rt: HostRuntime) {
    assert_eq!(rt;
        print_now(0).as_slice(),
        b"Thu, 01 Jan 1970 00:00:00 +0000".as_slice()
    );
    assert_eq!(rt;
        print_now(1_057_049_557).as_slice(),
        b"Tue, 01 Jul 2003 08:52:37 +0000".as_slice()
    );
    let last = b"Fri, 31 Dec 9999 23:59:59 +0000".as_slice();
    assert_eq!(rt; print_now(253_402_300_799).as_slice(), last);
    assert_eq!(rt; print_now(u64::MAX).as_slice(), last);
}

#[test]
fn internal_dates(rt: HostRuntime) {
    for (text, seconds, zone, day) in [
        (
            b"01-Jul-2003 10:52:37 +0200".as_slice(),
            1_057_049_557,
            120,
            12_234,
        ),
        (b"1-jul-2003 10:52:37 +0200", 1_057_049_557, 120, 12_234),
        (b" 1-JUL-2003 23:59:59 -0330", 1_057_116_599, -210, 12_234),
        (
            b"01-Jan-0001 00:00:00 +2359",
            -62_135_683_140,
            1439,
            -719_162,
        ),
        (b"31-Dec-9999 23:59:59 -0000", 253_402_300_799, 0, 2_932_896),
    ] {
        assert_eq!(rt;
            read_internal(text),
            Some(Stamp { seconds, zone }),
            "{text:?}"
        );
        assert_eq!(rt; civil_day(Stamp { seconds, zone }), day, "{text:?}");
    }
    for text in [
        b"".as_slice(),
        b" 01-Jul-2003 10:52:37 +0200",
        b"001-Jul-2003 10:52:37 +0200",
        b"-1-Jul-2003 10:52:37 +0200",
        b"31-Jun-2003 10:52:37 +0200",
        b"01-Jul-0000 10:52:37 +0200",
        b"01-Jul-2003 10:52:60 +0200",
        b"01-Jul-2003 24:00:00 +0200",
        b"01-Jul-2003 10:52 +0200",
        b"01-Jul-2003 10:52:37 +2400",
        b"01-Jul-2003 10:52:37 +0260",
        b"01-Jul-2003 10:52:37 abcde",
        b"01-Jul-2003  10:52:37 +0200",
    ] {
        assert!(rt; read_internal(text).is_none(), "{text:?}");
    }
    let stamp = Stamp {
        seconds: 1_057_049_557,
        zone: 120,
    };
    assert_eq!(rt;
        print_internal(stamp).as_slice(),
        b"01-Jul-2003 10:52:37 +0200".as_slice()
    );
}

#[test]
fn days_of_searches(rt: HostRuntime) {
    for (text, day) in [
        (b"1-Jan-1970".as_slice(), Some(0)),
        (b" 1-jul-2003", Some(12_234)),
        (b"29-Feb-2000", Some(11_016)),
        (b"01-Jan-0001", Some(-719_162)),
        (b"31-Dec-9999", Some(2_932_896)),
        (b"29-Feb-1900", None),
        (b"1-Jan-0000", None),
        (b" 01-Jul-2003", None),
        (b"1-Jul-03", None),
        (b"1 Jul 2003", None),
    ] {
        assert_eq!(rt; read_day(text), day, "{text:?}");
    }
    // The day where the zone is, also at the ends of what seconds can say.
    assert_eq!(rt;
        civil_day(Stamp {
            seconds: -1,
            zone: 1
        }),
        0
    );
    assert_eq!(rt;
        civil_day(Stamp {
            seconds: 0,
            zone: -1
        }),
        -1
    );
    assert_eq!(rt;
        civil_day(Stamp {
            seconds: i64::MAX,
            zone: i16::MAX
        }),
        106_751_991_167_323
    );
}
