// Values that are written in columns.
ghost use Rattle.std.specs.Prelude.{◌≡◌, ◌++◌, List, ℕ, OnOk, IfOk};
ghost use Rattle.std.specs.Int.{w8, w16, w32, w64};
ghost use Rattle.row_codec.specs.Codec.{Codec, Reads, number_codec, signed_codec, nothing_codec, text_codec, digest_codec, ◌then◌};

use octets::Octets;
use std::alloc::{AllocError, Global};

// A value that one column or several hold.
pub(crate) trait Column: Drop {
    ghost codec: { Codec Self };

    // Writes it behind what is there.
    fn write_to(&self, out: &mut Vec<u8>) -> Result<(), AllocError>
        requires { codec.column.HasTexts self.now }
        ensures written { OnOk result (out.new.items ≡ out.old.items ++ codec.column.bytes self.now) }
        ensures widths { OnOk result (codec.column.HasWidths self.now) };

    // The value at the front, and what follows it.
    fn read_from(alloc: Global, bytes: &[u8]) -> Result<Option<(Self, &[u8])>, AllocError>
        ensures { IfOk result (λ found. Reads (λ p. (p.0, p.1.now)) found (codec.read bytes.now)) };
}

impl Column for u8 {
    ghost codec = { number_codec w8 };

    #[tactic(auto, unfolding(crate::specs::Columns::number_bytes))]
    fn write_to(&self, out: &mut Vec<u8>) -> Result<(), AllocError> {
        out.extend_from_slice(&self.to_be_bytes())
    }

    #[tactic(auto, unfolding(crate::specs::Codec::number_read))]
    fn read_from(_alloc: Global, bytes: &[u8]) -> Result<Option<(u8, &[u8])>, AllocError> {
        match bytes.split_first_chunk::<1>() {
            Some((front, rest)) => Ok(Some((u8::from_be_bytes(*front), rest))),
            None => Ok(None),
        }
    }
}

impl Column for u16 {
    ghost codec = { number_codec w16 };

    #[tactic(auto, unfolding(crate::specs::Columns::number_bytes))]
    fn write_to(&self, out: &mut Vec<u8>) -> Result<(), AllocError> {
        out.extend_from_slice(&self.to_be_bytes())
    }

    #[tactic(auto, unfolding(crate::specs::Codec::number_read))]
    fn read_from(_alloc: Global, bytes: &[u8]) -> Result<Option<(u16, &[u8])>, AllocError> {
        match bytes.split_first_chunk::<2>() {
            Some((front, rest)) => Ok(Some((u16::from_be_bytes(*front), rest))),
            None => Ok(None),
        }
    }
}

impl Column for u32 {
    ghost codec = { number_codec w32 };

    #[tactic(auto, unfolding(crate::specs::Columns::number_bytes))]
    fn write_to(&self, out: &mut Vec<u8>) -> Result<(), AllocError> {
        out.extend_from_slice(&self.to_be_bytes())
    }

    #[tactic(auto, unfolding(crate::specs::Codec::number_read))]
    fn read_from(_alloc: Global, bytes: &[u8]) -> Result<Option<(u32, &[u8])>, AllocError> {
        match bytes.split_first_chunk::<4>() {
            Some((front, rest)) => Ok(Some((u32::from_be_bytes(*front), rest))),
            None => Ok(None),
        }
    }
}

impl Column for u64 {
    ghost codec = { number_codec w64 };

    #[tactic(auto, unfolding(crate::specs::Columns::number_bytes))]
    fn write_to(&self, out: &mut Vec<u8>) -> Result<(), AllocError> {
        out.extend_from_slice(&self.to_be_bytes())
    }

    #[tactic(auto, unfolding(crate::specs::Codec::number_read))]
    fn read_from(_alloc: Global, bytes: &[u8]) -> Result<Option<(u64, &[u8])>, AllocError> {
        match bytes.split_first_chunk::<8>() {
            Some((front, rest)) => Ok(Some((u64::from_be_bytes(*front), rest))),
            None => Ok(None),
        }
    }
}

impl Column for i16 {
    ghost codec = { signed_codec w16 };

    fn write_to(&self, out: &mut Vec<u8>) -> Result<(), AllocError> {
        self.cast_unsigned().write_to(out)
    }

    fn read_from(alloc: Global, bytes: &[u8]) -> Result<Option<(i16, &[u8])>, AllocError> {
        match u16::read_from(alloc, bytes)? {
            Some((bits, rest)) => Ok(Some((bits.cast_signed(), rest))),
            None => Ok(None),
        }
    }
}

impl Column for i64 {
    ghost codec = { signed_codec w64 };

    fn write_to(&self, out: &mut Vec<u8>) -> Result<(), AllocError> {
        self.cast_unsigned().write_to(out)
    }

    fn read_from(alloc: Global, bytes: &[u8]) -> Result<Option<(i64, &[u8])>, AllocError> {
        match u64::read_from(alloc, bytes)? {
            Some((bits, rest)) => Ok(Some((bits.cast_signed(), rest))),
            None => Ok(None),
        }
    }
}

impl Column for () {
    ghost codec = { nothing_codec };

    fn write_to(&self, _out: &mut Vec<u8>) -> Result<(), AllocError> {
        Ok(())
    }

    fn read_from(_alloc: Global, bytes: &[u8]) -> Result<Option<((), &[u8])>, AllocError> {
        Ok(Some(((), bytes)))
    }
}

impl Column for Octets {
    ghost codec = { text_codec };

    #[tactic(auto, unfolding(crate::specs::Columns::text_bytes))]
    fn write_to(&self, out: &mut Vec<u8>) -> Result<(), AllocError> {
        (self.len() as u32).write_to(out)?;
        out.extend_from_slice(self.as_slice())
    }

    #[tactic(auto, unfolding(crate::specs::Codec::text_read))]
    fn read_from(alloc: Global, bytes: &[u8]) -> Result<Option<(Octets, &[u8])>, AllocError> {
        let Some((len, rest)) = u32::read_from(alloc, bytes)? else {
            return Ok(None);
        };
        let len = len as usize;
        if rest.len() < len {
            return Ok(None);
        }
        let (text, rest) = rest.split_at(len);
        Ok(Some((Octets::new(text.to_vec(alloc)?), rest)))
    }
}

impl Column for [u8; 32] {
    ghost codec = { digest_codec };

    fn write_to(&self, out: &mut Vec<u8>) -> Result<(), AllocError> {
        out.extend_from_slice(self)
    }

    fn read_from(_alloc: Global, bytes: &[u8]) -> Result<Option<([u8; 32], &[u8])>, AllocError> {
        match bytes.split_first_chunk::<32>() {
            Some((front, rest)) => Ok(Some((*front, rest))),
            None => Ok(None),
        }
    }
}

impl<A: Column, B: Column> Column for (A, B) {
    ghost codec = { A.codec then B.codec };

    fn write_to(&self, out: &mut Vec<u8>) -> Result<(), AllocError> {
        self.0.write_to(out)?;
        self.1.write_to(out)
    }

    fn read_from(alloc: Global, bytes: &[u8]) -> Result<Option<((A, B), &[u8])>, AllocError> {
        let Some((first, rest)) = A::read_from(alloc, bytes)? else {
            return Ok(None);
        };
        match B::read_from(alloc, rest)? {
            Some((second, rest)) => Ok(Some(((first, second), rest))),
            None => Ok(None),
        }
    }
}
