//! Sources are read, and sinks written, to the end.

ghost use Rattle.std.specs.Prelude.{◌≡◌, ◌≤◌, ◌<◌, ◌+◌, ◌^◌, ◌++◌, [], OnOk, OnErr, IfOk, IsErrOf, length, take};
ghost use Rattle.fault_counts.specs.Rose.{Rose};
ghost use Rattle.mail_server.specs.declared.streams.ReadFailure.TheVariants.{NoMemory as ReadNoMemory};
ghost use Rattle.mail_server.specs.Outside.{WritesAll, StopsWriting};
ghost use Rattle.mail_server.specs.Run.{HasRead, IsAtEnd, ReadsUpTo, ReadsSome};

use port_model::{Sink, SinkFault, Source, SourceFault};
use std::alloc::{AllocError, Global};

/// How many bytes a source is read at a time.
const READ_ROOM: usize = 65536;

/// Why a source could not be read to its end.
#[derive(Clone, Copy, Debug, PartialEq, Eq)]
pub(crate) enum ReadFailure {
    /// A read failed.
    Fault,
    /// Memory was refused.
    NoMemory,
}

impl From<AllocError> for ReadFailure {
    ghost from_gives = { λ _ failure. failure ≡ ReadNoMemory };

    fn from(_error: AllocError) -> ReadFailure {
        ReadFailure::NoMemory
    }
}

/// Reads once, as much as the buffer has room for, and answers how many bytes came. None means the end.
fn read_piece<S: Source>(
    source: &mut S,
    buffer: &mut [u8],
    bytes: &mut Vec<u8>,
) -> Result<usize, ReadFailure>
    ensures within { IfOk result (λ n. n ≤ length buffer.old) }
    ensures added { IfOk result (λ n. bytes.new.items ≡ bytes.old.items ++ take n buffer.new) }
    ensures taken { IfOk result (λ n. HasRead (take n buffer.new) (S.left source.old) (S.left source.new)) }
    ensures the_end { IfOk result (λ n. n ≡ 0 → 0 < length buffer.old → IsAtEnd (S.left source.new)) }
    ensures part { OnErr result (ReadsSome (length buffer.old) (S.left source.old) (S.left source.new)) }
    ensures cause { IsErrOf result ReadFailure.Fault → Rose (S.faults source.old) (S.faults source.new) }
    ensures quiet { OnOk result (S.faults source.new ≡ S.faults source.old) }
    ensures no_memory { IsErrOf result ReadFailure.NoMemory → S.faults source.new ≡ S.faults source.old }
{
    match source.read(buffer) {
        Ok(n) => {
            bytes.extend_from_slice(&buffer[..n])?;
            Ok(n)
        }
        Err(SourceFault) => Err(ReadFailure::Fault),
    }
}

/// Reads a source to its end, but no further than the first byte past `limit`, in pieces of the buffer's length.
fn read_pieces<S: Source>(
    source: &mut S,
    limit: usize,
    buffer: &mut [u8],
    bytes: &mut Vec<u8>,
) -> Result<(), ReadFailure>
    requires limit { limit < 2 ^ 32 }
    requires room { 0 < length buffer.old }
    requires empty { bytes.old.items ≡ [] }
    ensures read { OnOk result (ReadsUpTo limit bytes.new.items (S.left source.old) (S.left source.new)) }
    ensures part { OnErr result (ReadsSome (limit + 1) (S.left source.old) (S.left source.new)) }
    ensures cause { IsErrOf result ReadFailure.Fault → Rose (S.faults source.old) (S.faults source.new) }
    ensures quiet { OnOk result (S.faults source.new ≡ S.faults source.old) }
    ensures no_memory { IsErrOf result ReadFailure.NoMemory → S.faults source.new ≡ S.faults source.old }
{
    'pieces: while bytes.len() <= limit {
        let room = buffer.len().min(limit + 1 - bytes.len());
        if read_piece(source, &mut buffer[..room], bytes)? == 0 {
            break;
        }
    }
    Ok(())
}

/// Reads a source to its end, but no further than the first byte past `limit`. The bytes are copied once.
pub(crate) fn read_all<S: Source>(
    alloc: Global,
    source: &mut S,
    limit: usize,
) -> Result<Vec<u8>, ReadFailure>
    requires { limit < 2 ^ 32 }
    ensures read { IfOk result (λ bytes. ReadsUpTo limit bytes.items (S.left source.old) (S.left source.new)) }
    ensures part { OnErr result (ReadsSome (limit + 1) (S.left source.old) (S.left source.new)) }
    ensures cause { IsErrOf result ReadFailure.Fault → Rose (S.faults source.old) (S.faults source.new) }
    ensures quiet { OnOk result (S.faults source.new ≡ S.faults source.old) }
    ensures no_memory { IsErrOf result ReadFailure.NoMemory → S.faults source.new ≡ S.faults source.old }
{
    let mut buffer = vec![in alloc; 0u8; READ_ROOM]?;
    let mut bytes = Vec::new(alloc);
    read_pieces(source, limit, &mut buffer, &mut bytes)?;
    Ok(bytes)
}

/// Writes all the bytes, in as many writes as the sink needs.
pub(crate) fn write_all<K: Sink>(sink: &mut K, bytes: &[u8]) -> Result<(), SinkFault>
    ensures written { OnOk result (WritesAll K.written K.faults bytes.now sink.old sink.new) }
    ensures stops { OnErr result (StopsWriting K.written K.faults bytes.now sink.old sink.new) }
{
    let mut at = 0;
    'writes: while at < bytes.len() {
        at += sink.write(&bytes[at..])?;
    }
    Ok(())
}

#[cfg(test)]
mod tests {
    use super::*;
    use port_model::MemorySource;
    use std::test::Fail;

    #[test]
    fn reading_ends_past_the_limit(rt: HostRuntime) -> Result<(), Fail> {
        let alloc = rt.alloc();
        let cases: [(usize, &[u8], usize); 4] = [
            (0, b"a", 3),
            (2, b"abc", 1),
            (3, b"abcd", 0),
            (4, b"abcd", 0),
        ];
        for (limit, read, left) in cases {
            let mut source = MemorySource::new(alloc, b"abcd".to_vec(alloc)?, Vec::new(alloc))?;
            let bytes = read_all(alloc, &mut source, limit)
                .ok()
                .unwrap_or(Vec::new(alloc));
            assert_eq!(rt; bytes.as_slice(), read);
            let mut rest = [0u8; 8];
            assert_eq!(rt; source.read(&mut rest), Ok(left));
        }
        Ok(())
    }
}
