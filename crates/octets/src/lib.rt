//! A text of bytes that owns them, as types keep it in their fields. Contracts see the list of its bytes.
#![tactic(auto)]

ghost use Rattle.std.specs.Prelude.{◌≡◌, ◌↔◌, ℕ, List, [], length, IsTrue};

use std::marker::Model;

/// Bytes of any value. They go in and out as a `Vec<u8>` without being copied.
#[derive(Drop, Debug)]
pub struct Octets {
    bytes: Vec<u8>,
}

impl Model for Octets {
    ghost Value = { List ℕ };

    ghost view = { λ octets. octets.bytes.items };
}

impl Octets {
    /// The bytes of `bytes`.
    pub fn new(bytes: Vec<u8>) -> Octets
        ensures { result ≡ bytes.items }
    {
        Octets { bytes }
    }

    /// The bytes, to be read.
    pub fn as_slice(&self) -> &[u8]
        ensures { result.now ≡ self.now }
    {
        self.bytes.as_slice()
    }

    /// How many bytes there are.
    pub fn len(&self) -> usize
        ensures { result ≡ length self.now }
    {
        self.bytes.len()
    }

    /// Whether there is no byte.
    pub fn is_empty(&self) -> bool
        ensures { IsTrue result ↔ (self.now ≡ []) }
    {
        self.bytes.is_empty()
    }

    /// The bytes, to be changed or kept.
    pub fn into_vec(self) -> Vec<u8>
        ensures { result.items ≡ self }
    {
        let Octets { bytes } = self;
        bytes
    }
}

#[cfg(test)]
mod tests {
    use super::*;
    use std::test::Fail;

    #[test]
    fn keeps_the_bytes(rt: HostRuntime) -> Result<(), Fail> {
        let octets = Octets::new(b"a\0\xff".to_vec(rt.alloc())?);
        assert_eq!(rt; octets.as_slice(), b"a\0\xff".as_slice());
        assert_eq!(rt; octets.len(), 3);
        assert!(rt; !octets.is_empty());
        assert_eq!(rt; octets.into_vec().as_slice(), b"a\0\xff".as_slice());
        Ok(())
    }
}
