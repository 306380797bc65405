//! A reader as a source.

ghost use Rattle.std.specs.Prelude.{None};

use fault_counts::raised;
use port_model::{Source, SourceFault};
use std::io::{ErrorKind, Read};

/// A source that reads what a reader gives. It doesn't tell what is left.
#[derive(Drop)]
pub struct StreamSource<R> {
    reader: R,
    faults: u64,
}

impl<R> StreamSource<R> {
    /// A source that reads `reader`.
    pub fn new(reader: R) -> StreamSource<R> {
        StreamSource { reader, faults: 0 }
    }
}

impl<R: Read> Source for StreamSource<R> {
    ghost left = { λ _. None };

    ghost faults = { λ source. source.faults };

    /// Reads again where a signal came in between.
    fn read(&mut self, buf: &mut [u8]) -> Result<usize, SourceFault> {
        'again: for _ in 0..u64::MAX {
            match self.reader.read(buf) {
                Ok(n) => return Ok(n),
                Err(error) if error.kind() == ErrorKind::Interrupted => {}
                Err(_) => break,
            }
        }
        self.faults = raised(self.faults);
        Err(SourceFault)
    }
}

#[cfg(test)]
mod tests {
    use super::*;
    use std::io;

    /// A reader that is interrupted so often, and then fails or gives one byte.
    #[derive(Drop)]
    struct Faulty {
        interruptions: u32,
        fails: bool,
    }

    impl Read for Faulty {
        fn read(&mut self, buf: &mut [u8]) -> io::Result<usize> {
            if self.interruptions > 0 {
                self.interruptions -= 1;
                return Err(io::Error::from(ErrorKind::Interrupted));
            }
            if self.fails {
                return Err(io::Error::from(ErrorKind::Other));
            }
            Ok(buf.len().min(1))
        }
    }

    #[test]
    fn interrupted_reads_are_repeated(rt: HostRuntime) {
        let mut buf = [0u8; 4];
        let mut source = StreamSource::new(Faulty {
            interruptions: 2,
            fails: false,
        });
        assert_eq!(rt; source.read(&mut buf), Ok(1));
        let mut source = StreamSource::new(Faulty {
            interruptions: 2,
            fails: true,
        });
        assert_eq!(rt; source.read(&mut buf), Err(SourceFault));
        assert_eq!(rt; source.faults, 1);
    }
}
