//! The files of a store in a folder: one process opens them at a time.

use disk_model::Files;
use std::fs::{File, OpenOptions, TryLockError};
use std::io;
use std::os::unix::fs::OpenOptionsExt;
use system_adapters::{Failure, FileDisk};

/// The rights of a file that is made: its owner reads and writes it, and nobody else.
const OWNER_ALONE: u32 = 0o600;

/// Why the files of a folder can't be used.
#[derive(Drop)]
pub(crate) enum Unusable {
    /// A file, or the folder where the name is empty, can't be opened, made or synced.
    Unopened {
        name: &'static str,
        error: io::Error,
    },
    /// Another process has the store open.
    InUse,
}

/// Opens a file of the store, and makes it where it isn't there.
fn open_file(rt: &HostRuntime, folder: &str, name: &'static str) -> Result<File, Unusable> {
    let opened = match format!(in rt.alloc(); "{folder}/{name}") {
        Ok(path) => OpenOptions::new()
            .read(true)
            .write(true)
            .create(true)
            .mode(OWNER_ALONE)
            .open(rt, path.as_str()),
        Err(error) => Err(io::Error::from(error)),
    };
    match opened {
        Ok(file) => Ok(file),
        Err(error) => Err(Unusable::Unopened { name, error }),
    }
}

/// Takes the exclusive lock on a file, which its closing lets go.
fn lock(file: &File, name: &'static str) -> Result<(), Unusable> {
    match file.try_lock() {
        Ok(()) => Ok(()),
        Err(TryLockError::WouldBlock) => Err(Unusable::InUse),
        Err(TryLockError::Error(error)) => Err(Unusable::Unopened { name, error }),
    }
}

/// Makes sure of the names of the files in a folder.
fn sync_folder(rt: &HostRuntime, folder: &str) -> Result<(), Unusable> {
    match File::open(rt, folder) {
        Ok(file) => match file.sync_all() {
            Ok(()) => Ok(()),
            Err(error) => Err(Unusable::Unopened { name: "", error }),
        },
        Err(error) => Err(Unusable::Unopened { name: "", error }),
    }
}

/// Opens the three files of the store in a folder that is there, behind an exclusive lock on `log0` that is taken first and
/// held until the files are closed.
pub(crate) fn open_files(
    rt: &HostRuntime,
    folder: &str,
) -> Result<Files<FileDisk<File>>, Unusable> {
    let log0 = open_file(rt, folder, "log0")?;
    lock(&log0, "log0")?;
    let log1 = open_file(rt, folder, "log1")?;
    let bodies = open_file(rt, folder, "bodies")?;
    sync_folder(rt, folder)?;
    Ok(Files {
        log0: FileDisk::new(log0),
        log1: FileDisk::new(log1),
        bodies: FileDisk::new(bodies),
    })
}

/// Says on standard error why the files of a folder can't be used.
pub(crate) fn tell_unusable(rt: &HostRuntime, folder: &str, why: &Unusable) {
    let _ = match why {
        Unusable::Unopened { name, error } => {
            eprintln!(rt; "mailstored: {folder}/{name} can't be opened: {error}")
        }
        Unusable::InUse => {
            eprintln!(rt; "mailstored: {folder} is in use by another process: end it first")
        }
    };
}

/// Says on standard error which call on which file of a folder failed first.
pub(crate) fn tell_failures(rt: &HostRuntime, folder: &str, files: &Files<FileDisk<File>>) {
    tell_failure(rt, folder, "log0", files.log0.failure());
    tell_failure(rt, folder, "log1", files.log1.failure());
    tell_failure(rt, folder, "bodies", files.bodies.failure());
}

fn tell_failure(rt: &HostRuntime, folder: &str, name: &str, failure: Option<&Failure>) {
    if let Some(Failure { action, error }) = failure {
        let _ = eprintln!(rt; "mailstored: {folder}/{name} can't be {action}: {error}");
    }
}

#[cfg(test)]
mod tests {
    use super::*;
    use std::fs::{create_dir, remove_dir_all};
    use std::test::Fail;

    #[test]
    fn a_store_is_open_once_at_a_time(rt: HostRuntime) -> Result<(), Fail> {
        create_dir(&rt, "locked_store")?;
        let first = open_files(&rt, "locked_store");
        assert!(rt; first.is_ok());
        assert!(rt; matches!(open_files(&rt, "locked_store"), Err(Unusable::InUse)));
        drop(first);
        assert!(rt; open_files(&rt, "locked_store").is_ok());
        assert!(rt;
            matches!(
                open_files(&rt, "no_folder"),
                Err(Unusable::Unopened { name: "log0", .. })
            )
        );
        remove_dir_all(&rt, "locked_store")?;
        Ok(())
    }
}
