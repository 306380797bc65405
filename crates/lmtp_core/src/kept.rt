//! The content of a text as far as it came, up to the limit.
ghost use Rattle.std.specs.Prelude.{ℕ, ◌≡◌, ◌+◌, ◌-◌, ◌^◌, ◌<◌, ◌≤◌, [], length, OnOk};
ghost use Rattle.lmtp_core.specs.Reading.{HasRoom, kept_of, with_bytes};

use std::alloc::{AllocError, Global};

/// How many bytes the content of a text may have.
const CONTENT_LIMIT: usize = 33_554_432;

/// The content so far, or that it is too long: then no byte of it is held.
#[derive(Drop, Debug)]
pub(crate) struct Kept {
    pub(crate) bytes: Vec<u8>,
    pub(crate) too_long: bool,
}

impl Kept {
    /// An empty content, which holds no memory.
    pub(crate) fn new(alloc: Global) -> Kept
        ensures { kept_of result ≡ Some [] }
    {
        Kept {
            bytes: Vec::new(alloc),
            too_long: false,
        }
    }

    /// Makes room for further bytes, as far as they may be kept.
    pub(crate) fn reserve(&mut self, more: usize) -> Result<(), AllocError>
        requires { more < 2 ^ 64 - 1 }
        ensures room { OnOk result (HasRoom self.new (more + 1)) }
        ensures unchanged { kept_of self.new ≡ kept_of self.old }
    {
        if self.too_long {
            return Ok(());
        }
        self.bytes.reserve((more + 1).min(CONTENT_LIMIT.saturating_sub(self.bytes.len())))
    }

    /// Adds bytes for which there is room, or drops the content where it is too long with them.
    pub(crate) fn keep(&mut self, bytes: &[u8])
        requires some { 0 < length bytes.now }
        requires room { HasRoom self.old (length bytes.now) }
        ensures kept { kept_of self.new ≡ with_bytes (kept_of self.old) bytes.now }
        ensures room { (more : ℕ) → HasRoom self.old (length bytes.now + more) → HasRoom self.new more }
    {
        if self.too_long {
            return;
        }
        if self.bytes.len() + bytes.len() > CONTENT_LIMIT {
            self.too_long = true;
            self.clear_bytes();
            return;
        }
        match self.bytes.extend_from_slice(bytes) {
            Ok(()) => {}
            Err(_) => unreachable!(),
        }
    }

    fn clear_bytes(&mut self)
        ensures { self.new.too_long ≡ self.old.too_long }
    {
        self.bytes.clear();
        self.bytes.shrink_to(0);
    }

    /// Drops the content, and gives its memory back.
    pub(crate) fn clear(&mut self)
        ensures { kept_of self.new ≡ Some [] }
    {
        self.bytes.clear();
        self.bytes.shrink_to(0);
        self.too_long = false;
    }
}
