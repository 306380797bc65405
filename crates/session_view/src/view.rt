//! What a session was told of a mailbox.

ghost use Rattle.std.specs.Prelude.{◌≡◌, ◌==◌, ◌++◌, ◌∷◌, [], IfOk, OnOk, OnErr};
ghost use Rattle.std.specs.List.{list_any};
ghost use Rattle.session_view.specs.Order.{Ascend, rising};
ghost use Rattle.session_view.specs.Numbers.{number_of};
ghost use Rattle.session_view.specs.Resolving.{resolved};

use crate::spans::{covered, selected_spans};
use crate::uids::ViewUids;
use imap_grammar::SeqSet;
use sqlite_items::Items;
use std::alloc::{AllocError, Global};

/// The messages of a mailbox as a session was told of them. They stay so until the mailbox is selected again.
#[derive(Debug, Drop)]
pub struct View {
    /// The UIDs. A message's number is the place of its UID, from 1 (RFC 3501 §2.3.1.2).
    pub uids: ViewUids,
    /// The UIDs of the messages that are recent to the session (RFC 3501 §2.3.2).
    pub recent: ViewUids,
}

impl View {
    /// No message. It takes no memory.
    pub fn empty(alloc: Global) -> View
        ensures uids { result.uids ≡ [] }
        ensures recent { result.recent ≡ [] }
    {
        View {
            uids: ViewUids::empty(alloc),
            recent: ViewUids::empty(alloc),
        }
    }

    /// The messages of these UIDs, and the recent ones among them, as far as the UIDs ascend from 1 on, as those of a mailbox do.
    pub fn new(uids: Items<u32>, recent: Items<u32>) -> View
        ensures uids { result.uids ≡ rising 0 uids }
        ensures recent { result.recent ≡ rising 0 recent }
    {
        View {
            uids: ViewUids::new(uids),
            recent: ViewUids::new(recent),
        }
    }

    /// Messages came of which the session is the first to be told: they are recent to it (RFC 3501 §2.3.2).
    pub fn arrives(&mut self, uids: &[u32]) -> Result<(), AllocError>
        requires { Ascend (0 ∷ (self.old.recent ++ uids.now)) }
        ensures uids { self.new.uids ≡ self.old.uids }
        ensures ok { OnOk result (self.new.recent ≡ self.old.recent ++ uids.now) }
        ensures err { OnErr result (self.new.recent ≡ self.old.recent) }
    {
        self.recent.append(uids)
    }

    /// Whether the message with a UID is recent to the session.
    pub fn is_recent(&self, uid: u32) -> bool
        ensures { result ≡ list_any (λ other. other == uid) self.now.recent }
    {
        self.recent.contains(uid)
    }

    /// The number, from 1, of the message with a UID, by a binary search.
    pub fn position(&self, uid: u32) -> Option<u32>
        ensures { result ≡ number_of uid self.now.uids }
    {
        let uids = self.uids.as_slice();
        match uids.binary_search(&uid) {
            Ok(place) => Some(place as u32 + 1),
            Err(_) => None,
        }
    }

    /// The UIDs of the messages that a set selects, by UID or by number, ascending. A number that no message has selects nothing
    /// (RFC 3501 §6.4.8, §9). It costs a search for each range, and a copy of what is selected.
    pub fn resolve(&self, alloc: Global, set: &SeqSet, by_uid: bool) -> Result<Vec<u32>, AllocError>
        ensures value { IfOk result (λ uids. uids.items ≡ resolved self.now.uids set.now.ranges by_uid) }
        ensures ascend { IfOk result (λ uids. Ascend uids.items) }
    {
        let uids = self.uids.as_slice();
        let mut spans = selected_spans(alloc, uids, set.ranges.as_slice(), by_uid)?;
        spans.sort_unstable_by_key(|span| span.start);
        covered(alloc, uids, spans.as_slice())
    }
}
