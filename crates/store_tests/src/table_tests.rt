use admin_texts::listing;
use octets::Octets;
use row_tables::{
    Counters, FieldName, FlagName, Mailbox, MailboxMessage, MessageRow, PartNumber, RowChange,
    RowCount, Subscription, Tables, User,
};
use std::alloc::{AllocError, Global};
use std::process::Abort;
use std::test::Fail;

// Makes a change where it fits, and says whether it did.
fn put(tables: &mut Tables, change: RowChange) -> Result<bool, AllocError> {
    if !tables.fits(&change) {
        return Ok(false);
    }
    tables.apply(change)?;
    Ok(true)
}

fn message(tables: &mut Tables, id: u64) -> Result<bool, AllocError> {
    put(
        tables,
        RowChange::InsertMessageRow(MessageRow { id, size: 9 }),
    )
}

fn part(alloc: Global, tables: &mut Tables, kind: u8, body: u64) -> Result<bool, AllocError> {
    let path = Octets::new(Vec::new(alloc));
    put(
        tables,
        RowChange::InsertPartNumber(PartNumber {
            message: 1,
            path,
            kind,
            body,
        }),
    )
}

// Parts of a message in tables that have none but message 2.
fn try_parts(rt: &impl Abort, alloc: Global, tables: &mut Tables) -> Result<(), Fail> {
    assert!(rt; !part(alloc, tables, 2, 0)?);
    assert!(rt; message(tables, 1)?);
    assert!(rt; !message(tables, 1)?);
    assert!(rt; !part(alloc, tables, 0, 4)?);
    assert!(rt; part(alloc, tables, 2, 0)?);
    assert_eq!(rt;
        tables.part_numbers_row((1, b"")).map(|row| row.kind),
        Some(2)
    );
    assert_eq!(rt; tables.new_message_id(), 3);
    Ok(())
}

fn name(alloc: Global, tables: &mut Tables, id: u64, name: &[u8]) -> Result<bool, AllocError> {
    let name = Octets::new(name.to_vec(alloc)?);
    put(tables, RowChange::InsertFieldName(FieldName { id, name }))
}

// Names in tables that have none.
fn try_names(rt: &impl Abort, alloc: Global, tables: &mut Tables) -> Result<(), Fail> {
    assert!(rt; name(alloc, tables, u64::MAX, b"To")?);
    assert!(rt; !name(alloc, tables, 1, b"To")?);
    assert_eq!(rt; tables.field_name_id(b"To"), Some(u64::MAX));
    assert_eq!(rt; tables.new_field_name_id(), 1);
    Ok(())
}

// Listings of empty tables, and of these with some rows.
fn try_listings(rt: &impl Abort, alloc: Global, tables: &mut Tables) -> Result<(), Fail> {
    let none = listing(alloc, tables)?;
    assert_eq!(rt; none.as_slice(), b"counters 1\n".as_slice());
    let name = Octets::new(b"a\"\\\n".to_vec(alloc)?);
    assert!(rt; put(tables, RowChange::InsertFlagName(FlagName { id: 1, name }))?);
    assert!(rt; message(tables, 2)?);
    let some = listing(alloc, tables)?;
    assert_eq!(rt;
        some.as_slice(),
        b"messages 2 9\nflag_names 1 \"a\\x22\\\\\\n\"\ncounters 1\n".as_slice()
    );
    Ok(())
}

fn user(alloc: Global, tables: &mut Tables, id: u32, name: &[u8]) -> Result<bool, AllocError> {
    let name = Octets::new(name.to_vec(alloc)?);
    put(
        tables,
        RowChange::InsertUser(User {
            id,
            name,
            verifier: [0; 32],
        }),
    )
}

fn id_of(tables: &Tables, name: &[u8]) -> Option<u32> {
    tables.user_named(name).map(|row| row.id)
}

// Users in tables that have none. No server makes two of the same name, but a file made by hand may have them.
fn try_users(rt: &impl Abort, alloc: Global, tables: &mut Tables) -> Result<(), Fail> {
    assert_eq!(rt; id_of(tables, b"ann"), None);
    assert!(rt; user(alloc, tables, 7, b"ann")?);
    assert!(rt; user(alloc, tables, 3, b"ann")?);
    assert!(rt; user(alloc, tables, 5, b"bob")?);
    assert_eq!(rt; id_of(tables, b"ann"), Some(3));
    assert_eq!(rt; id_of(tables, b"bob"), Some(5));
    assert_eq!(rt; id_of(tables, b"an"), None);
    assert_eq!(rt; tables.user_count(), 3);
    Ok(())
}

fn new_mailbox(alloc: Global, id: u32, owner: u32, name: &[u8]) -> Result<Mailbox, AllocError> {
    Ok(Mailbox {
        id,
        owner,
        name: Octets::new(name.to_vec(alloc)?),
        uidnext: 1,
        first_recent: 1,
        highest: 1,
    })
}

fn mailbox(
    alloc: Global,
    tables: &mut Tables,
    id: u32,
    owner: u32,
    name: &[u8],
) -> Result<bool, AllocError> {
    let row = new_mailbox(alloc, id, owner, name)?;
    put(tables, RowChange::InsertMailbox(row))
}

fn entry(tables: &mut Tables, mailbox: u32, uid: u32) -> Result<bool, AllocError> {
    put(
        tables,
        RowChange::InsertMailboxMessage(MailboxMessage {
            mailbox,
            uid,
            message: 4,
            modseq: 2,
            seconds: 0,
            zone: -60,
        }),
    )
}

// A mailbox with a message in tables that have none, and its removal.
fn try_mailbox(rt: &impl Abort, alloc: Global, tables: &mut Tables) -> Result<(), Fail> {
    let mut count = RowCount::new();
    assert!(rt; !mailbox(alloc, tables, 1, 1, b"INBOX")?);
    assert!(rt; user(alloc, tables, 1, b"ann")?);
    assert!(rt; mailbox(alloc, tables, 1, 1, b"INBOX")?);
    assert!(rt; !entry(tables, 1, 7)?);
    assert!(rt; message(tables, 4)?);
    assert!(rt; entry(tables, 1, 7)?);
    assert_eq!(rt; tables.uids(1).next(), Some(7));
    assert_eq!(rt;
        tables.mailbox_row(1, 7, &mut count).map(|row| row.zone),
        Some(-60)
    );
    assert!(rt; put(tables, RowChange::DropMailbox(1))?);
    assert!(rt; tables.mailbox_row(1, 7, &mut count).is_none());
    assert_eq!(rt; count.get(), 2);
    assert!(rt; !put(tables, RowChange::DropMailbox(1))?);
    Ok(())
}

fn next_id(tables: &Tables, owner: u32, name: &[u8]) -> Option<u32> {
    tables.mailbox_after(owner, name).map(|row| row.id)
}

// The mailboxes of users 3 and 5, which have none, in the order of their names. User 3 has two of one name and one without a name, as
// only a file made by hand does.
fn try_owners(rt: &impl Abort, alloc: Global, tables: &mut Tables) -> Result<(), Fail> {
    assert!(rt; mailbox(alloc, tables, 6, 3, b"b")?);
    assert!(rt; mailbox(alloc, tables, 4, 3, b"b")?);
    assert!(rt; mailbox(alloc, tables, 2, 3, b"a")?);
    assert!(rt; mailbox(alloc, tables, 8, 3, b"")?);
    assert!(rt; mailbox(alloc, tables, 9, 5, b"aa")?);
    assert_eq!(rt; next_id(tables, 3, b""), Some(2));
    assert_eq!(rt; next_id(tables, 3, b"a"), Some(4));
    assert_eq!(rt; next_id(tables, 3, b"aa"), Some(4));
    assert_eq!(rt; next_id(tables, 3, b"b"), None);
    assert_eq!(rt; next_id(tables, 4, b""), None);
    assert_eq!(rt; next_id(tables, 5, b"a"), Some(9));
    assert_eq!(rt; tables.mailbox_count(3), 4);
    assert_eq!(rt; tables.mailbox_count(4), 0);
    Ok(())
}

// A mailbox gets another owner and another name, and one is dropped.
fn try_moves(rt: &impl Abort, alloc: Global, tables: &mut Tables) -> Result<(), Fail> {
    let row = new_mailbox(alloc, 4, 5, b"a")?;
    assert!(rt; put(tables, RowChange::UpdateMailbox(row))?);
    assert_eq!(rt; tables.mailbox_count(3), 3);
    assert_eq!(rt; tables.mailbox_count(5), 2);
    assert_eq!(rt; next_id(tables, 3, b"a"), Some(6));
    assert_eq!(rt; next_id(tables, 5, b""), Some(4));
    assert!(rt; put(tables, RowChange::DropMailbox(6))?);
    assert_eq!(rt; tables.mailbox_count(3), 2);
    assert_eq!(rt; next_id(tables, 3, b"a"), None);
    Ok(())
}

// The messages of mailboxes 2 and 9, which have none.
fn try_entries(rt: &impl Abort, tables: &mut Tables) -> Result<(), Fail> {
    assert!(rt; entry(tables, 2, 7)?);
    assert!(rt; entry(tables, 2, 8)?);
    assert!(rt; entry(tables, 9, 7)?);
    assert_eq!(rt; tables.entry_count(2), 2);
    assert!(rt; put(tables, RowChange::RemoveMailboxMessage((2, 7)))?);
    assert_eq!(rt; tables.entry_count(2), 1);
    assert!(rt; put(tables, RowChange::DropMailbox(2))?);
    assert_eq!(rt; tables.entry_count(2), 0);
    assert_eq!(rt; tables.entry_count(9), 1);
    Ok(())
}

fn subscribe(
    alloc: Global,
    tables: &mut Tables,
    owner: u32,
    name: &[u8],
) -> Result<bool, AllocError> {
    let name = Octets::new(name.to_vec(alloc)?);
    put(
        tables,
        RowChange::InsertSubscription(Subscription { owner, name }),
    )
}

fn has_next(tables: &Tables, owner: u32, name: &[u8], next: &[u8]) -> bool {
    match tables.subscription_after(owner, name) {
        Some(row) => row.name.as_slice() == next,
        None => false,
    }
}

// The subscriptions of users 3 and 5, who have none.
fn try_subscriptions(rt: &impl Abort, alloc: Global, tables: &mut Tables) -> Result<(), Fail> {
    assert!(rt; subscribe(alloc, tables, 3, b"b")?);
    assert!(rt; subscribe(alloc, tables, 3, b"a")?);
    assert!(rt; subscribe(alloc, tables, 5, b"ab")?);
    assert!(rt; has_next(tables, 3, b"", b"a"));
    assert!(rt; has_next(tables, 3, b"a", b"b"));
    assert!(rt; tables.subscription_after(3, b"b").is_none());
    assert_eq!(rt; tables.subscription_count(3), 2);
    let name = Octets::new(b"a".to_vec(alloc)?);
    assert!(rt; put(tables, RowChange::RemoveSubscription((3, name)))?);
    assert_eq!(rt; tables.subscription_count(3), 1);
    assert!(rt; has_next(tables, 3, b"", b"b"));
    Ok(())
}

// Whether the counter may be set, and whether there may be another.
fn counters(tables: &mut Tables) -> Result<(bool, bool), AllocError> {
    let set = put(tables, RowChange::UpdateCounters(Counters { next: 0 }))?;
    let other = put(tables, RowChange::InsertCounters(Counters { next: 2 }))?;
    Ok((set, other))
}

// All of these, in tables that begin empty.
fn try_all(rt: &impl Abort, alloc: Global, tables: &mut Tables) -> Result<(), Fail> {
    try_listings(rt, alloc, tables)?;
    try_parts(rt, alloc, tables)?;
    try_names(rt, alloc, tables)?;
    try_users(rt, alloc, tables)?;
    try_mailbox(rt, alloc, tables)?;
    try_owners(rt, alloc, tables)?;
    try_moves(rt, alloc, tables)?;
    try_entries(rt, tables)?;
    try_subscriptions(rt, alloc, tables)?;
    assert_eq!(rt; counters(tables)?, (true, false));
    Ok(())
}

// The tables' end of life is dear to prove, so one function alone has tables of its own, and comes to one end.
#[test]
fn tables_keep_what_fits(rt: HostRuntime) -> Result<(), Fail> {
    let mut tables = Tables::new(rt.alloc());
    try_all(&rt, rt.alloc(), &mut tables)
}
