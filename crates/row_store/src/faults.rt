//! Why a call on a store failed.

use disk_model::DiskFault;
use std::alloc::AllocError;

/// Why a call on a store failed. The store is given up, and its files are to be loaded again.
#[derive(Clone, Copy, Debug, PartialEq, Eq)]
pub enum StoreFault {
    /// A disk failed.
    Failed,
    /// There was no memory.
    NoMemory,
}

/// Why files were not loaded.
#[derive(Clone, Copy, Debug, PartialEq, Eq)]
pub enum LoadFault {
    /// A disk failed.
    Failed,
    /// The files hold no tables: there is no open log, its format is not known, or its payloads are not changes that fit one after
    /// another.
    NotAStore,
    /// There was no memory for what the files have.
    NoMemory,
}

impl From<AllocError> for StoreFault {
    ghost use Rattle.std.specs.Prelude.{◌≡◌};
    ghost use Rattle.row_store.specs.declared.faults.StoreFault.{StoreFault};

    ghost from_gives = { λ _ e. e ≡ StoreFault.NoMemory };

    fn from(_: AllocError) -> Self {
        StoreFault::NoMemory
    }
}

impl From<DiskFault> for LoadFault {
    ghost use Rattle.std.specs.Prelude.{◌≡◌};
    ghost use Rattle.row_store.specs.declared.faults.LoadFault.{LoadFault};

    ghost from_gives = { λ _ e. e ≡ LoadFault.Failed };

    fn from(_: DiskFault) -> Self {
        LoadFault::Failed
    }
}

impl From<AllocError> for LoadFault {
    ghost use Rattle.std.specs.Prelude.{◌≡◌};
    ghost use Rattle.row_store.specs.declared.faults.LoadFault.{LoadFault};

    ghost from_gives = { λ _ e. e ≡ LoadFault.NoMemory };

    fn from(_: AllocError) -> Self {
        LoadFault::NoMemory
    }
}
