//! Why a call on a log failed.

use disk_model::DiskFault;
use std::alloc::AllocError;

/// Why a log was not formatted.
#[derive(Clone, Copy, Debug, PartialEq, Eq)]
pub enum FormatFault {
    /// The disk failed.
    Failed,
    /// There was no memory. The disk was not touched.
    NoMemory,
}

/// Why a log was not loaded.
#[derive(Clone, Copy, Debug, PartialEq, Eq)]
pub enum LoadFault {
    /// The disk failed.
    Failed,
    /// What is on the disk is not the text of an open log.
    NotALog,
    /// There was no memory for what the disk has.
    NoMemory,
}

/// Why a payload was not acknowledged. The log is spent, and is to be loaded again.
#[derive(Clone, Copy, Debug, PartialEq, Eq)]
pub enum CommitFault {
    /// The disk failed. The payload may be in the log.
    Failed,
    /// An earlier call on this log failed.
    Spent,
    /// There was no memory for the record. The disk was not touched.
    NoMemory,
}

impl From<DiskFault> for FormatFault {
    ghost use Rattle.std.specs.Prelude.{◌≡◌};
    ghost use Rattle.redo_log.specs.declared.faults.FormatFault.{FormatFault};

    ghost from_gives = { λ _ e. e ≡ FormatFault.Failed };

    fn from(_: DiskFault) -> Self {
        FormatFault::Failed
    }
}

impl From<AllocError> for FormatFault {
    ghost use Rattle.std.specs.Prelude.{◌≡◌};
    ghost use Rattle.redo_log.specs.declared.faults.FormatFault.{FormatFault};

    ghost from_gives = { λ _ e. e ≡ FormatFault.NoMemory };

    fn from(_: AllocError) -> Self {
        FormatFault::NoMemory
    }
}

impl From<DiskFault> for LoadFault {
    ghost use Rattle.std.specs.Prelude.{◌≡◌};
    ghost use Rattle.redo_log.specs.declared.faults.LoadFault.{LoadFault};

    ghost from_gives = { λ _ e. e ≡ LoadFault.Failed };

    fn from(_: DiskFault) -> Self {
        LoadFault::Failed
    }
}

impl From<AllocError> for LoadFault {
    ghost use Rattle.std.specs.Prelude.{◌≡◌};
    ghost use Rattle.redo_log.specs.declared.faults.LoadFault.{LoadFault};

    ghost from_gives = { λ _ e. e ≡ LoadFault.NoMemory };

    fn from(_: AllocError) -> Self {
        LoadFault::NoMemory
    }
}

impl From<DiskFault> for CommitFault {
    ghost use Rattle.std.specs.Prelude.{◌≡◌};
    ghost use Rattle.redo_log.specs.declared.faults.CommitFault.{CommitFault};

    ghost from_gives = { λ _ e. e ≡ CommitFault.Failed };

    fn from(_: DiskFault) -> Self {
        CommitFault::Failed
    }
}

impl From<AllocError> for CommitFault {
    ghost use Rattle.std.specs.Prelude.{◌≡◌};
    ghost use Rattle.redo_log.specs.declared.faults.CommitFault.{CommitFault};

    ghost from_gives = { λ _ e. e ≡ CommitFault.NoMemory };

    fn from(_: AllocError) -> Self {
        CommitFault::NoMemory
    }
}
