//! A file as a disk.

ghost use Rattle.std.specs.Prelude.{◌≡◌, ◌↔◌, ◌≤◌, ◌<◌, ◌+◌, ◌^◌, length, IfOk, OnOk, OnErr, IsOk, true, false};
ghost use Rattle.fault_counts.specs.Rose.{Rose};
ghost use Rattle.system_adapters.specs.FileTold.{file_told};

use disk_model::{Disk, DiskFault};
use fault_counts::raised;
use std::fmt::{self, Display, Formatter};
use std::fs::OpenFile;
use std::io::{self, ErrorKind};
use std::os::unix::fs::FileExt;

/// What a call on a file was to do.
#[derive(Clone, Copy)]
pub enum Action {
    /// To tell the file's length.
    Measure,
    /// To read from a place.
    Read,
    /// To write at a place.
    Write,
    /// To make sure of what was written.
    Sync,
}

impl Display for Action {
    fn fmt<W: fmt::Write>(&self, formatter: &mut Formatter<W>) -> fmt::Result {
        formatter.pad(match self {
            Action::Measure => "measured",
            Action::Read => "read",
            Action::Write => "written",
            Action::Sync => "synced",
        })
    }
}

/// A call on a file that failed, and the system's error.
#[derive(Drop)]
pub struct Failure {
    /// What it was to do.
    pub action: Action,
    /// The system's error.
    pub error: io::Error,
}

/// A disk over an open file. It doesn't tell what the file has. Once a write or a sync failed, every later call fails: the system
/// may have dropped what it could not write, so that a later sync would say too much.
#[derive(Drop)]
pub struct FileDisk<F> {
    file: F,
    faults: u64,
    reads: u64,
    failure: Option<Failure>,
    is_broken: bool,
}

impl<F> FileDisk<F> {
    /// A disk over this file, none of whose calls failed yet.
    pub fn new(file: F) -> FileDisk<F> {
        FileDisk {
            file,
            faults: 0,
            reads: 0,
            failure: None,
            is_broken: false,
        }
    }

    /// The first call that failed, if one did.
    pub fn failure(&self) -> Option<&Failure> {
        self.failure.as_ref()
    }

    /// Counts a call that failed, and notes the first one.
    fn fault(&mut self, action: Action, error: io::Error) -> DiskFault
        ensures rose { Rose self.old.faults self.new.faults }
        ensures count { self.old.faults ≤ self.new.faults }
        ensures reads { self.new.reads ≡ self.old.reads }
        ensures broken { self.new.is_broken ≡ self.old.is_broken }
    {
        self.faults = raised(self.faults);
        if self.failure.is_none() {
            self.failure = Some(Failure { action, error });
        }
        DiskFault
    }

    /// Nothing where no write and no sync failed yet; else the call is counted as one that failed.
    fn usable(&mut self, action: Action) -> Result<(), DiskFault>
        ensures usable { IsOk result ↔ (self.old.is_broken ≡ false) }
        ensures broken { self.new.is_broken ≡ self.old.is_broken }
        ensures rose { OnErr result (Rose self.old.faults self.new.faults) }
        ensures count { self.old.faults ≤ self.new.faults }
        ensures quiet { OnOk result (self.new.faults ≡ self.old.faults) }
        ensures reads { self.new.reads ≡ self.old.reads }
    {
        if self.is_broken {
            return Err(self.fault(action, io::Error::from(ErrorKind::Other)));
        }
        Ok(())
    }

    /// Answers what became of a write or a sync, whose failure is final.
    fn settled(&mut self, action: Action, done: io::Result<()>) -> Result<(), DiskFault>
        ensures same { IsOk result ↔ IsOk done }
        ensures lasting { OnErr result (self.new.is_broken ≡ true) }
        ensures kept { OnOk result (self.new.is_broken ≡ self.old.is_broken) }
        ensures rose { OnErr result (Rose self.old.faults self.new.faults) }
        ensures count { self.old.faults ≤ self.new.faults }
        ensures quiet { OnOk result (self.new.faults ≡ self.old.faults) }
        ensures reads { self.new.reads ≡ self.old.reads }
    {
        match done {
            Ok(()) => Ok(()),
            Err(error) => {
                self.is_broken = true;
                Err(self.fault(action, error))
            }
        }
    }
}

/// Reads from a place on until the buffer is full or the file ends, and reads again where a signal came in between.
fn read_full<F: FileExt>(file: &F, at: u64, buf: &mut [u8]) -> io::Result<usize>
    ensures { IfOk result (λ n. n ≤ length buf.old) }
{
    let mut filled = 0;
    'again: for _ in 0..u64::MAX {
        if filled == buf.len() {
            return Ok(filled);
        }
        match file.read_at(&mut buf[filled..], at.wrapping_add(filled as u64)) {
            Ok(0) => return Ok(filled),
            Ok(n) => filled += n,
            Err(error) if error.kind() == ErrorKind::Interrupted => {}
            Err(error) => return Err(error),
        }
    }
    Err(io::Error::from(ErrorKind::Interrupted))
}

/// Writes all bytes from a place on, which ends where a file of the system may end.
fn write_full<F: FileExt>(file: &F, at: u64, bytes: &[u8]) -> io::Result<()>
    ensures { OnOk result (at + length bytes.now < 2 ^ 63) }
{
    match at.checked_add(bytes.len() as u64) {
        Some(end) if end <= i64::MAX as u64 => file.write_all_at(bytes, at),
        _ => Err(io::Error::from(ErrorKind::InvalidInput)),
    }
}

impl<F: FileExt + OpenFile> Disk for FileDisk<F> {
    ghost told = { file_told };

    fn len(&mut self) -> Result<u64, DiskFault> {
        self.usable(Action::Measure)?;
        match self.file.metadata() {
            Ok(metadata) => Ok(metadata.len()),
            Err(error) => Err(self.fault(Action::Measure, error)),
        }
    }

    fn read(&mut self, at: u64, buf: &mut [u8]) -> Result<usize, DiskFault> {
        self.reads = raised(self.reads);
        self.usable(Action::Read)?;
        match read_full(&self.file, at, buf) {
            Ok(n) => Ok(n),
            Err(error) => Err(self.fault(Action::Read, error)),
        }
    }

    fn write_at(&mut self, at: u64, bytes: &[u8]) -> Result<(), DiskFault> {
        self.usable(Action::Write)?;
        let written = write_full(&self.file, at, bytes);
        self.settled(Action::Write, written)
    }

    fn sync(&mut self) -> Result<(), DiskFault> {
        self.usable(Action::Sync)?;
        let synced = self.file.sync_all();
        self.settled(Action::Sync, synced)
    }
}

#[cfg(test)]
mod tests {
    use super::*;
    use std::fs::{File, OpenOptions, remove_file};
    use std::test::Fail;

    #[test]
    fn a_file_is_written_and_read(rt: HostRuntime) -> Result<(), Fail> {
        let path = "file_disk_test";
        let file = OpenOptions::new()
            .read(true)
            .write(true)
            .create(true)
            .open(&rt, path)?;
        let mut disk = FileDisk::new(file);
        assert_eq!(rt; disk.write_at(0, b"abc"), Ok(()));
        assert_eq!(rt; disk.write_at(2, b"de"), Ok(()));
        assert_eq!(rt; disk.sync(), Ok(()));
        assert_eq!(rt; disk.len(), Ok(4));
        let mut buf = [0u8; 8];
        assert_eq!(rt; disk.read(1, &mut buf), Ok(3));
        assert_eq!(rt; &buf[..3], b"bde".as_slice());
        assert_eq!(rt; disk.read(9, &mut buf), Ok(0));
        assert_eq!(rt; disk.write_at(1 << 63, b"x"), Err(DiskFault));
        let mut unwritable = FileDisk::new(File::open(&rt, path)?);
        assert_eq!(rt; unwritable.write_at(0, b"x"), Err(DiskFault));
        assert_eq!(rt; unwritable.sync(), Err(DiskFault));
        assert_eq!(rt; unwritable.len(), Err(DiskFault));
        assert_eq!(rt; unwritable.faults, 3);
        remove_file(&rt, path)?;
        Ok(())
    }
}
