//! UIDs of messages in a view.

ghost use Rattle.std.specs.Prelude.{◌≡◌, ◌==◌, ◌<◌, ◌^◌, ◌++◌, ◌∷◌, [], length, OnOk, OnErr, take};
ghost use Rattle.std.specs.List.{list_any};
ghost use Rattle.session_view.specs.Order.{Ascend, rising};

use sqlite_items::Items;
use std::alloc::{AllocError, Global};
use std::marker::Model;

/// UIDs of messages of a view: from 1 on, ascending (RFC 3501 §2.3.1.1). So they are fewer than 2^32. Contracts see the list.
#[derive(Debug, Drop)]
pub struct ViewUids {
    list: Items<u32>,
}

impl Model for ViewUids {
    ghost use Rattle.std.specs.Prelude.{ℕ, List, ◌∷◌};
    ghost use Rattle.session_view.specs.Order.{Ascend};

    ghost Value = { List ℕ };

    ghost view = { λ uids. uids.list };

    ghost invariant = { λ uids. Ascend (0 ∷ uids.list) };
}

/// Takes items from the end until there are so many.
fn shorten(items: &mut Items<u32>, len: usize)
    ensures { items.new ≡ take len items.old }
{
    while items.len() > len {
        items.pop();
    }
}

/// Adds UIDs behind others, all of them or none.
fn add_all(list: &mut Items<u32>, uids: &[u32]) -> Result<(), AllocError>
    ensures ok { OnOk result (list.new ≡ list.old ++ uids.now) }
    ensures err { OnErr result (list.new ≡ list.old) }
{
    let len = list.len();
    for uid in uids {
        if list.push(*uid).is_err() {
            shorten(list, len);
            return Err(AllocError);
        }
    }
    Ok(())
}

/// How many numbers at the front ascend from 1 on.
fn rising_len(numbers: &[u32]) -> usize
    ensures { take result numbers.now ≡ rising 0 numbers.now }
{
    let mut last = 0;
    for (place, number) in numbers.iter().enumerate() {
        if *number <= last {
            return place;
        }
        last = *number;
    }
    numbers.len()
}

/// UIDs that ascend from 1 on are fewer than 2^32.
fn are_few(uids: &[u32])
    requires { Ascend (0 ∷ uids.now) }
    ensures { length uids.now < 2 ^ 32 }
{
    let _ = uids.len();
}

impl ViewUids {
    /// No UID. It takes no memory.
    pub fn empty(alloc: Global) -> ViewUids
        ensures { result ≡ [] }
    {
        ViewUids {
            list: Items::new(alloc),
        }
    }

    /// The UIDs, as far as they ascend from 1 on.
    pub fn new(uids: Items<u32>) -> ViewUids
        ensures { result ≡ rising 0 uids }
    {
        let mut list = uids;
        let len = rising_len(list.as_slice());
        shorten(&mut list, len);
        ViewUids { list }
    }

    /// The UIDs, which ascend.
    pub fn as_slice(&self) -> &[u32]
        ensures value { result.now ≡ self.now }
        ensures ascend { Ascend (0 ∷ self.now) }
        ensures few { length self.now < 2 ^ 32 }
    {
        let uids = self.list.as_slice();
        are_few(uids);
        uids
    }

    /// Whether a UID is among them, by a binary search.
    pub fn contains(&self, uid: u32) -> bool
        ensures { result ≡ list_any (λ other. other == uid) self.now }
    {
        let uids = self.as_slice();
        match uids.binary_search(&uid) {
            Ok(_) => true,
            Err(_) => false,
        }
    }

    /// Adds UIDs behind the others, all of them or none.
    pub fn append(&mut self, uids: &[u32]) -> Result<(), AllocError>
        requires { Ascend (0 ∷ (self.old ++ uids.now)) }
        ensures ok { OnOk result (self.new ≡ self.old ++ uids.now) }
        ensures err { OnErr result (self.new ≡ self.old) }
    {
        add_all(&mut self.list, uids)?;
        Ok(())
    }
}
