//! Families of commands, by the texts that may stand in their places (RFC 3501 §9, RFC 4315, 4551, 5161, 5162, 5256).
use crate::shapes::Family;

const STRINGS: [(&str, &str); 9] = [
    ("`INBOX`", "`INBOX`"),
    ("``", "``"),
    ("`fat man`", "`fat man`"),
    ("`m]c[+~`", "`m]c[+~`"),
    ("`a\"b\\\\c`", "`a\"b\\\\c`"),
    ("`(){5}%*`", "`(){5}%*`"),
    ("`caf\u{e9}`", "`caf\u{e9}`"),
    ("`\r\nb LOGOUT\r\n`", "`\r\nb LOGOUT\r\n`"),
    ("`\0`", "`\0`"),
];

const SESSION: Family = Family {
    frame: ("]a.1 @A\r\n", "@A"),
    places: &[
        &[
            ("CAPABILITY", "Capability"),
            ("NOOP", "Noop"),
            ("LOGOUT", "Logout"),
            ("CHECK", "Check"),
            ("CLOSE", "Close"),
            ("EXPUNGE", "Expunge"),
            ("LOGIN @B @C", "Login { name: @B, password: @C }"),
            ("AUTHENTICATE |PLAIN|", "Authenticate(|PLAIN|)"),
            ("AUTHENTICATE |x-Y|", "Authenticate(|x-Y|)"),
            (
                "ENABLE |CONDSTORE|",
                "Enable(Items { items: [|CONDSTORE|] })",
            ),
            (
                "ENABLE |Utf8=Accept| |qresync|",
                "Enable(Items { items: [|Utf8=Accept|, |qresync|] })",
            ),
        ],
        &STRINGS,
        &STRINGS,
    ],
};

const STATUS_ITEMS: [(&str, &str); 9] = [
    ("MESSAGES", "Messages"),
    ("RECENT", "Recent"),
    ("UIDNEXT", "Uidnext"),
    ("UIDVALIDITY", "Uidvalidity"),
    ("UNSEEN", "Unseen"),
    ("HIGHESTMODSEQ", "Highest"),
    ("UNSEEN RECENT", "Unseen, Recent"),
    ("UIDNEXT UIDNEXT MESSAGES", "Uidnext, Uidnext, Messages"),
    (
        "HIGHESTMODSEQ UNSEEN UIDVALIDITY UIDNEXT RECENT MESSAGES",
        "Highest, Unseen, Uidvalidity, Uidnext, Recent, Messages",
    ),
];

const MAILBOXES: Family = Family {
    frame: ("1 @A\r\n", "@A"),
    places: &[
        &[
            ("CREATE @B", "Create(@B)"),
            ("DELETE @B", "Delete(@B)"),
            ("SUBSCRIBE @B", "Subscribe(@B)"),
            ("UNSUBSCRIBE @B", "Unsubscribe(@B)"),
            ("RENAME @B @C", "Rename { from: @B, to: @C }"),
        ],
        &STRINGS,
        &STRINGS,
    ],
};

const STATUSES: Family = Family {
    frame: (
        "a STATUS @A (@B)\r\n",
        "Status { name: @A, items: Items { items: [@B] } }",
    ),
    places: &[&STRINGS, &STATUS_ITEMS],
};

const LISTS: Family = Family {
    frame: (
        "a @A @B @C\r\n",
        "List { reference: @B, name: @C, subscribed: @A }",
    ),
    places: &[
        &[("LIST", "false"), ("LSUB", "true")],
        &STRINGS,
        &[
            ("|%|", "|%|"),
            ("|*|", "|*|"),
            ("|~/Mail/%/]*.x|", "|~/Mail/%/]*.x|"),
            ("`INBOX`", "`INBOX`"),
            ("`a b.%`", "`a b.%`"),
        ],
    ],
};

const RANGES: [(&str, &str); 9] = [
    ("1", "(Some(1), Some(1))"),
    ("*", "(None, None)"),
    ("007", "(Some(7), Some(7))"),
    ("4294967295:1", "(Some(4294967295), Some(1))"),
    ("2:*", "(Some(2), None)"),
    ("*:4", "(None, Some(4))"),
    ("*:*", "(None, None)"),
    ("3,5", "(Some(3), Some(3)), (Some(5), Some(5))"),
    (
        "1,3:5,*,9:8",
        "(Some(1), Some(1)), (Some(3), Some(5)), (None, None), (Some(9), Some(8))",
    ),
];

const SELECTS: Family = Family {
    frame: ("a @A @B@C\r\n", "Select { name: @B, examine: @A, @C }"),
    places: &[
        &[("SELECT", "false"), ("EXAMINE", "true")],
        &[("`INBOX`", "`INBOX`"), ("`a b`", "`a b`")],
        &[
            ("", "condstore: false, resync: None"),
            (" (CONDSTORE)", "condstore: true, resync: None"),
            (
                " (QRESYNC (1 2))",
                "condstore: false, resync: Some(Resync { validity: 1, since: 2, known: None })",
            ),
            (
                " (QRESYNC (0 18446744073709551614 @D))",
                "condstore: false, resync: Some(Resync { validity: 0, since: 18446744073709551614, known: Some(SeqSet { ranges: Items { items: [@D] } }) })",
            ),
            (
                " (QRESYNC (4294967295 1 (@D 7)))",
                "condstore: false, resync: Some(Resync { validity: 4294967295, since: 1, known: None })",
            ),
            (
                " (QRESYNC (1 2 @D (3,4 @D)))",
                "condstore: false, resync: Some(Resync { validity: 1, since: 2, known: Some(SeqSet { ranges: Items { items: [@D] } }) })",
            ),
            (
                " (CONDSTORE QRESYNC (1 2))",
                "condstore: true, resync: Some(Resync { validity: 1, since: 2, known: None })",
            ),
            (
                " (QRESYNC (5 6 @D) CONDSTORE QRESYNC (1 2))",
                "condstore: true, resync: Some(Resync { validity: 1, since: 2, known: None })",
            ),
        ],
        &RANGES,
    ],
};

const FLAGS: [(&str, &str); 7] = [
    ("\\Answered", "Answered"),
    ("\\Flagged", "Flagged"),
    ("\\Deleted", "Deleted"),
    ("\\Seen", "Seen"),
    ("\\Draft", "Draft"),
    ("$MDNSent", "Keyword(`$mdnsent`)"),
    (
        "Aa!#&'+,-./09:;<=>?[^_}~",
        "Keyword(`aa!#&'+,-./09:;<=>?[^_}~`)",
    ),
];

const APPENDS: Family = Family {
    frame: (
        "a APPEND @A @B@C@D\r\n",
        "Append { name: @A, flags: Items { items: [@B] }, stamp: @C, text: @D }",
    ),
    places: &[
        &[("`saved`", "`saved`"), ("`a b`", "`a b`")],
        &[
            ("", ""),
            ("() ", ""),
            ("(@E) ", "@E"),
            ("(@E \\Seen @E) ", "@E, Seen, @E"),
        ],
        &[
            ("", "None"),
            (
                "\" 7-Feb-1994 21:52:25 -0800\" ",
                "Some(Stamp { seconds: 760686745, zone: -480 })",
            ),
            (
                "\"01-Jul-2003 10:52:37 +0200\" ",
                "Some(Stamp { seconds: 1057049557, zone: 120 })",
            ),
        ],
        &[
            ("|{0}\r\n|", "``"),
            ("|{3}\r\na\r\n|", "`a\r\n`"),
            ("|{14}\r\n\0\r\nb LOGOUT\r\n)|", "`\0\r\nb LOGOUT\r\n)`"),
        ],
        &FLAGS,
    ],
};

const STORES: Family = Family {
    frame: (
        "a @ASTORE @B @C@D @E\r\n",
        "Store { by_uid: @A, set: SeqSet { ranges: Items { items: [@B] } }, unchanged_since: @C, how: @D, flags: Items { items: [@E] } }",
    ),
    places: &[
        &[("", "false"), ("UID ", "true")],
        &[("1,*", "(Some(1), Some(1)), (None, None)")],
        &[
            ("", "None"),
            ("(UNCHANGEDSINCE 0) ", "Some(0)"),
            (
                "(UNCHANGEDSINCE 18446744073709551614) ",
                "Some(18446744073709551614)",
            ),
        ],
        &[
            ("FLAGS", "Set, silent: false"),
            ("FLAGS.SILENT", "Set, silent: true"),
            ("+FLAGS", "Add, silent: false"),
            ("+FLAGS.SILENT", "Add, silent: true"),
            ("-FLAGS", "Remove, silent: false"),
            ("-FLAGS.SILENT", "Remove, silent: true"),
        ],
        &[
            ("()", ""),
            ("(@F)", "@F"),
            ("@F", "@F"),
            ("@F \\Seen @F", "@F, Seen, @F"),
            ("(@F @F)", "@F, @F"),
        ],
        &FLAGS,
    ],
};

const SETS: Family = Family {
    frame: ("a @A\r\n", "@A"),
    places: &[
        &[
            (
                "COPY @B @C",
                "Copy { by_uid: false, set: SeqSet { ranges: Items { items: [@B] } }, name: @C }",
            ),
            (
                "UID COPY @B @C",
                "Copy { by_uid: true, set: SeqSet { ranges: Items { items: [@B] } }, name: @C }",
            ),
            (
                "UID EXPUNGE @B",
                "UidExpunge(SeqSet { ranges: Items { items: [@B] } })",
            ),
        ],
        &RANGES,
        &STRINGS,
    ],
};

const FETCHES: Family = Family {
    frame: (
        "a @AFETCH @B @C@D\r\n",
        "Fetch { by_uid: @A, set: SeqSet { ranges: Items { items: [@B] } }, items: Items { items: [@C] }, @D }",
    ),
    places: &[
        &[("", "false"), ("UID ", "true")],
        &[
            ("4294967295", "(Some(4294967295), Some(4294967295))"),
            ("1:*", "(Some(1), None)"),
            ("*,2:3", "(None, None), (Some(2), Some(3))"),
        ],
        &[
            ("ALL", "Flags, InternalDate, Rfc822Size, Envelope"),
            ("FAST", "Flags, InternalDate, Rfc822Size"),
            ("FULL", "Flags, InternalDate, Rfc822Size, Envelope, Body"),
            ("@E", "@E"),
            ("(@E)", "@E"),
            ("(UID @E @E)", "Uid, @E, @E"),
        ],
        &[
            ("", "changed_since: None, vanished: false"),
            (
                " (CHANGEDSINCE 1)",
                "changed_since: Some(1), vanished: false",
            ),
            (
                " (CHANGEDSINCE 18446744073709551614)",
                "changed_since: Some(18446744073709551614), vanished: false",
            ),
        ],
        &[
            ("BODY", "Body"),
            ("BODYSTRUCTURE", "BodyStructure"),
            ("ENVELOPE", "Envelope"),
            ("FLAGS", "Flags"),
            ("INTERNALDATE", "InternalDate"),
            ("MODSEQ", "Modseq"),
            ("RFC822", "Rfc822"),
            ("RFC822.HEADER", "Rfc822Header"),
            ("RFC822.SIZE", "Rfc822Size"),
            ("RFC822.TEXT", "Rfc822Text"),
            ("UID", "Uid"),
        ],
    ],
};

const GONE: Family = Family {
    frame: (
        "a UID FETCH @A @B (CHANGEDSINCE 12345 VANISHED)\r\n",
        "Fetch { by_uid: true, set: SeqSet { ranges: Items { items: [@A] } }, items: Items { items: [@B] }, changed_since: Some(12345), vanished: true }",
    ),
    places: &[&RANGES, &[("FLAGS", "Flags"), ("(FLAGS)", "Flags")]],
};

const PARTS: Family = Family {
    frame: (
        "a FETCH 1 @A\r\n",
        "Fetch { by_uid: false, set: SeqSet { ranges: Items { items: [(Some(1), Some(1))] } }, items: Items { items: [@A] }, changed_since: None, vanished: false }",
    ),
    places: &[
        &[
            (
                "BODY[@B]@C",
                "Part { section: Section { path: Items { items: [@B }, peek: false, partial: @C }",
            ),
            (
                "BODY.PEEK[@B]@C",
                "Part { section: Section { path: Items { items: [@B }, peek: true, partial: @C }",
            ),
            (
                "(BODY BODY[@B]@C UID)",
                "Body, Part { section: Section { path: Items { items: [@B }, peek: false, partial: @C }, Uid",
            ),
        ],
        &[
            ("", "] }, part: Whole"),
            ("HEADER", "] }, part: Header"),
            ("TEXT", "] }, part: Text"),
            (
                "HEADER.FIELDS (@D)",
                "] }, part: Fields { names: Items { items: [@D] }, except: false }",
            ),
            (
                "HEADER.FIELDS.NOT (@D)",
                "] }, part: Fields { names: Items { items: [@D] }, except: true }",
            ),
            ("1", "1] }, part: Whole"),
            ("1.2.3", "1, 2, 3] }, part: Whole"),
            ("4294967295.MIME", "4294967295] }, part: Mime"),
            ("1.2.MIME", "1, 2] }, part: Mime"),
            ("3.HEADER", "3] }, part: Header"),
            ("4.1.TEXT", "4, 1] }, part: Text"),
            (
                "2.HEADER.FIELDS (@D)",
                "2] }, part: Fields { names: Items { items: [@D] }, except: false }",
            ),
            (
                "2.2.HEADER.FIELDS.NOT (@D)",
                "2, 2] }, part: Fields { names: Items { items: [@D] }, except: true }",
            ),
        ],
        &[
            ("", "None"),
            ("<0.1>", "Some((0, 1))"),
            ("<4294967295.4294967295>", "Some((4294967295, 4294967295))"),
        ],
        &[
            ("`Date`", "`Date`"),
            ("`From` `x y`", "`From`, `x y`"),
            ("`To` `Cc` `Bcc`", "`To`, `Cc`, `Bcc`"),
        ],
    ],
};

const KEYS: [(&str, &str); 43] = [
    ("ALL", "All"),
    ("ANSWERED", "Has(Answered)"),
    ("DELETED", "Has(Deleted)"),
    ("DRAFT", "Has(Draft)"),
    ("FLAGGED", "Has(Flagged)"),
    ("SEEN", "Has(Seen)"),
    ("UNANSWERED", "Lacks(Answered)"),
    ("UNDELETED", "Lacks(Deleted)"),
    ("UNDRAFT", "Lacks(Draft)"),
    ("UNFLAGGED", "Lacks(Flagged)"),
    ("UNSEEN", "Lacks(Seen)"),
    ("KEYWORD $Fwd", "Has(Keyword(`$fwd`))"),
    ("UNKEYWORD NonJunk", "Lacks(Keyword(`nonjunk`))"),
    ("NEW", "New"),
    ("OLD", "Old"),
    ("RECENT", "Recent"),
    ("BCC @E", "Header { name: `BCC`, text: @E }"),
    ("CC @E", "Header { name: `CC`, text: @E }"),
    ("FROM @E", "Header { name: `FROM`, text: @E }"),
    ("SUBJECT @E", "Header { name: `SUBJECT`, text: @E }"),
    ("TO @E", "Header { name: `TO`, text: @E }"),
    ("HEADER `X-Y` @E", "Header { name: `X-Y`, text: @E }"),
    ("HEADER @E `a b`", "Header { name: @E, text: `a b` }"),
    ("BODY @E", "Body(@E)"),
    ("TEXT @E", "Text(@E)"),
    ("LARGER 0", "Larger(0)"),
    ("LARGER 4294967295", "Larger(4294967295)"),
    ("SMALLER 1", "Smaller(1)"),
    ("MODSEQ 0", "Modseq(0)"),
    (
        "MODSEQ 18446744073709551614",
        "Modseq(18446744073709551614)",
    ),
    ("MODSEQ \"/flags/\\\\Draft\" ALL 7", "Modseq(7)"),
    ("MODSEQ \"/flags/a\" PRIV 8", "Modseq(8)"),
    ("MODSEQ |{6}\r\n/flags| SHARED 9", "Modseq(9)"),
    (
        "1:3,*",
        "Set { set: SeqSet { ranges: Items { items: [(Some(1), Some(3)), (None, None)] } }, by_uid: false }",
    ),
    (
        "*:7",
        "Set { set: SeqSet { ranges: Items { items: [(None, Some(7))] } }, by_uid: false }",
    ),
    (
        "UID 5",
        "Set { set: SeqSet { ranges: Items { items: [(Some(5), Some(5))] } }, by_uid: true }",
    ),
    (
        "UID *,2:3",
        "Set { set: SeqSet { ranges: Items { items: [(None, None), (Some(2), Some(3))] } }, by_uid: true }",
    ),
    ("BEFORE 1-Feb-1994", "Before { day: 8797, sent: false }"),
    ("ON \"01-Feb-1994\"", "On { day: 8797, sent: false }"),
    ("SINCE 31-Dec-9999", "Since { day: 2932896, sent: false }"),
    (
        "SENTBEFORE 01-Jan-0001",
        "Before { day: -719162, sent: true }",
    ),
    ("SENTON \" 1-Feb-1994\"", "On { day: 8797, sent: true }"),
    ("SENTSINCE 29-Feb-2000", "Since { day: 11016, sent: true }"),
];

const SEARCHES: Family = Family {
    frame: (
        "a @ASEARCH @B@C\r\n",
        "Search { by_uid: @A, charset: @B, key: And(Items { items: [@C] }) }",
    ),
    places: &[
        &[("", "false"), ("UID ", "true")],
        &[("", "None"), ("CHARSET `UTF-8` ", "Some(`UTF-8`)")],
        &[
            ("@D", "@D"),
            ("@D UNSEEN @D", "@D, Lacks(Seen), @D"),
            ("NOT @D", "Not(Boxed { inner: @D })"),
            (
                "OR @D 1",
                "Or(Boxed { inner: @D }, Boxed { inner: Set { set: SeqSet { ranges: Items { items: [(Some(1), Some(1))] } }, by_uid: false } })",
            ),
            ("OR ALL @D", "Or(Boxed { inner: All }, Boxed { inner: @D })"),
            ("(@D)", "And(Items { items: [@D] })"),
            ("(@D NEW) OLD", "And(Items { items: [@D, New] }), Old"),
            (
                "NOT (OR NOT @D (ALL @D) OLD)",
                "Not(Boxed { inner: And(Items { items: [Or(Boxed { inner: Not(Boxed { inner: @D }) }, Boxed { inner: And(Items { items: [All, @D] }) }), Old] }) })",
            ),
        ],
        &KEYS,
        &[("`Smith`", "`Smith`"), ("``", "``"), ("`a \"b`", "`a \"b`")],
    ],
};

const SORTS: Family = Family {
    frame: (
        "a @ASORT (@B) @C @D\r\n",
        "Sort { by_uid: @A, keys: Items { items: [@B] }, charset: @C, key: And(Items { items: [@D] }) }",
    ),
    places: &[
        &[("", "false"), ("UID ", "true")],
        &[
            ("@E", "SortKey { by: @E, reverse: false }"),
            ("REVERSE @E", "SortKey { by: @E, reverse: true }"),
            (
                "@E REVERSE @E DATE",
                "SortKey { by: @E, reverse: false }, SortKey { by: @E, reverse: true }, SortKey { by: Date, reverse: false }",
            ),
        ],
        &[("`UTF-8`", "`UTF-8`"), ("`x y`", "`x y`")],
        &[
            ("ALL", "All"),
            ("NOT SEEN OLD", "Not(Boxed { inner: Has(Seen) }), Old"),
        ],
        &[
            ("ARRIVAL", "Arrival"),
            ("CC", "Cc"),
            ("DATE", "Date"),
            ("FROM", "From"),
            ("SIZE", "Size"),
            ("SUBJECT", "Subject"),
            ("TO", "To"),
        ],
    ],
};

const THREADS: Family = Family {
    frame: (
        "a @ATHREAD ORDEREDSUBJECT @B @C\r\n",
        "Thread { by_uid: @A, charset: @B, key: And(Items { items: [@C] }) }",
    ),
    places: &[
        &[("", "false"), ("UID ", "true")],
        &[("`UTF-8`", "`UTF-8`"), ("`x y`", "`x y`")],
        &[
            ("ALL", "All"),
            (
                "(NOT SEEN) OLD",
                "And(Items { items: [Not(Boxed { inner: Has(Seen) })] }), Old",
            ),
        ],
    ],
};

pub(crate) const FAMILIES: [Family; 14] = [
    SESSION, MAILBOXES, STATUSES, LISTS, SELECTS, APPENDS, STORES, SETS, FETCHES, GONE, PARTS,
    SEARCHES, SORTS, THREADS,
];
