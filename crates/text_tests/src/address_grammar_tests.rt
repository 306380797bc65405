//! Addresses, groups and message ids, read and printed.
use address_grammar::{print, print_ids, read, read_ids};
use std::alloc::Global;
use std::test::Fail;

/// The value read and printed, or `none`.
fn again(alloc: Global, value: &[u8]) -> Result<Vec<u8>, Fail> {
    match read(alloc, value)? {
        Some(items) => Ok(print(alloc, &items)?),
        None => Ok(b"none".to_vec(alloc)?),
    }
}

#[test]
fn addresses(rt: HostRuntime) -> Result<(), Fail> {
    let alloc = rt.alloc();
    for (value, expected) in [
        (b"ann@x.org (Ann)".as_slice(), b"Ann <ann@x.org>".as_slice()),
        (
            b"(a) \"Joe \\\"Q\\\"\"(b)Public < @n.test, @m:a.b (c) @ [::1] >(d)",
            b"\"Joe \\\"Q\\\" Public\" <a.b@[::1]>",
        ),
        (
            b"Pete(A nice \\) chap) <pete(his account)@silly.test(his host)>",
            b"Pete <pete@silly.test>",
        ),
        (b"J. \"\"B.C <\"a b\"@x> ,,", b"\"J. B.C\" <\"a b\"@x>"),
        (b"a@b ( \\(c\\) (d) )", b"\"(c) (d)\" <a@b>"),
        (b"\"\" <a@b> (c)", b"a@b"),
        (b"a@b (c) (d), \"a..b\"@[]", b"a@b, \"a..b\"@[]"),
        (
            b"Mary Smith <mary@x.test>, jdoe@example.org, Who? <one@y.test>",
            b"Mary Smith <mary@x.test>, jdoe@example.org, Who? <one@y.test>",
        ),
        (
            b"<boss@nil.test>, \"Giant; \\\"Big\\\" Box\" <sysservices@example.net>",
            b"boss@nil.test, \"Giant; \\\"Big\\\" Box\" <sysservices@example.net>",
        ),
        (
            b"Joe Q. Public <@node.test:john.q.public@example.com>",
            b"\"Joe Q. Public\" <john.q.public@example.com>",
        ),
        (b", , jdoe@test  . example", b"none"),
        (b"what?", b"none"),
        (b"a . b@c", b"none"),
        (b"\"a\"b@c", b"none"),
        (b"a@b c", b"none"),
        (b"(a", b"none"),
        (b" , (a)", b"none"),
        (b"<@a,,@b:c@d>", b"none"),
    ] {
        assert_eq!(rt; again(alloc, value)?.as_slice(), expected);
    }
    Ok(())
}

#[test]
fn groups(rt: HostRuntime) -> Result<(), Fail> {
    let alloc = rt.alloc();
    for (value, expected) in [
        (
            b"Team: a@x.org , \"B, C\" <b@x.org>;".as_slice(),
            b"Team: a@x.org, \"B, C\" <b@x.org>;".as_slice(),
        ),
        (b"undisclosed-recipients:;", b"undisclosed-recipients:;"),
        (
            b"(Empty list)(start)Hidden recipients  :(nobody(that I know))  ;",
            b"Hidden recipients:;",
        ),
        (
            b"A Group(Some people):Chris Jones <c@(Chris's host.)public.example>, joe@example.org,\tJohn <jdoe@one.test> (my dear friend); (the end of the group)",
            b"A Group: Chris Jones <c@public.example>, joe@example.org, John <jdoe@one.test>;",
        ),
        (b"\"\":,, ;, a@b", b"\"\":;, a@b"),
        (b"a:;b@c", b"none"),
        (b"a:b:;;", b"none"),
        (b":;", b"none"),
        (b"a:b@c", b"none"),
    ] {
        assert_eq!(rt; again(alloc, value)?.as_slice(), expected);
    }
    Ok(())
}

#[test]
fn long_values(rt: HostRuntime) -> Result<(), Fail> {
    let alloc = rt.alloc();
    let mut commas = vec![in alloc; b','; 262_141]?;
    commas.extend_from_slice(b"a@b")?;
    assert_eq!(rt; again(alloc, &commas)?.as_slice(), b"a@b".as_slice());
    let mut nested = vec![in alloc; b'('; 131_070]?;
    assert_eq!(rt; again(alloc, &nested)?.as_slice(), b"none".as_slice());
    let ends = vec![in alloc; b')'; 131_070]?;
    nested.extend_from_slice(&ends)?;
    nested.extend_from_slice(b"a@b")?;
    assert_eq!(rt; again(alloc, &nested)?.as_slice(), b"a@b".as_slice());
    Ok(())
}

#[test]
fn ids(rt: HostRuntime) -> Result<(), Fail> {
    let alloc = rt.alloc();
    for (value, expected) in [
        (
            b" <a@b><c>\t<\"d\"@[e]> ".as_slice(),
            b"<a@b> <c> <\"d\"@[e]>".as_slice(),
        ),
        (b"", b"none"),
        (b"<>", b"none"),
        (b"<a b>", b"none"),
        (b"a <b>", b"none"),
        (b"<a> b", b"none"),
        (b"<<a>", b"none"),
    ] {
        let printed = match read_ids(alloc, value)? {
            Some(ids) => print_ids(alloc, &ids)?,
            None => b"none".to_vec(alloc)?,
        };
        assert_eq!(rt; printed.as_slice(), expected);
    }
    Ok(())
}
