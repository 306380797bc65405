//! A writer as a sink.

ghost use Rattle.std.specs.Prelude.{None};

use fault_counts::raised;
use port_model::{Sink, SinkFault};
use std::io::{ErrorKind, Write};

/// A sink that writes to a writer, and flushes it at each write. It doesn't tell what was written.
#[derive(Drop)]
pub struct StreamSink<W> {
    writer: W,
    faults: u64,
}

impl<W> StreamSink<W> {
    /// A sink that writes to `writer`.
    pub fn new(writer: W) -> StreamSink<W> {
        StreamSink { writer, faults: 0 }
    }
}

impl<W: Write> Sink for StreamSink<W> {
    ghost written = { λ _. None };

    ghost faults = { λ sink. sink.faults };

    /// Writes again where a signal came in between. To take nothing of some bytes is a fault, and so is a flush that fails.
    fn write(&mut self, bytes: &[u8]) -> Result<usize, SinkFault> {
        'again: for _ in 0..u64::MAX {
            match self.writer.write(bytes) {
                Ok(n) if (n > 0 || bytes.is_empty()) && self.writer.flush().is_ok() => return Ok(n),
                Err(error) if error.kind() == ErrorKind::Interrupted => {}
                _ => break,
            }
        }
        self.faults = raised(self.faults);
        Err(SinkFault)
    }
}

#[cfg(test)]
mod tests {
    use super::*;
    use std::io;

    /// A writer that is interrupted so often, and then takes so many bytes at most, and may fail to flush them.
    #[derive(Drop)]
    struct Faulty {
        interruptions: u32,
        takes: usize,
        flushes: bool,
    }

    impl Write for Faulty {
        fn write(&mut self, bytes: &[u8]) -> io::Result<usize> {
            if self.interruptions > 0 {
                self.interruptions -= 1;
                return Err(io::Error::from(ErrorKind::Interrupted));
            }
            Ok(bytes.len().min(self.takes))
        }

        fn flush(&mut self) -> io::Result<()> {
            if self.flushes {
                return Ok(());
            }
            Err(io::Error::from(ErrorKind::Other))
        }
    }

    fn sink(interruptions: u32, takes: usize, flushes: bool) -> StreamSink<Faulty> {
        StreamSink::new(Faulty {
            interruptions,
            takes,
            flushes,
        })
    }

    #[test]
    fn interrupted_writes_are_repeated(rt: HostRuntime) {
        assert_eq!(rt; sink(2, 2, true).write(b"abc"), Ok(2));
        assert_eq!(rt; sink(0, 0, true).write(b"abc"), Err(SinkFault));
        assert_eq!(rt; sink(0, 0, true).write(b""), Ok(0));
        assert_eq!(rt; sink(0, 3, false).write(b"abc"), Err(SinkFault));
    }
}
