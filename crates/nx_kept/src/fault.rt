//! Why a kept log can't be opened.

use crate::disk::DiskFailed;
use std::alloc::AllocError;
use thiserror::Error;

/// Why a kept log can't be opened.
#[derive(Clone, Copy, Debug, Drop, PartialEq, Eq, Error)]
pub enum OpenFault {
    /// The file can't be read.
    #[error("the kept log can't be read")]
    Read,
    /// The file can't be written, cut, or brought to the disk.
    #[error("the kept log can't be written")]
    Disk,
    /// The file is no kept log. Lines count from 1; `first` is the first byte of the file.
    #[error("the kept log is damaged at line {line}")]
    Damaged { line: u64, first: Option<u8> },
    /// Memory ran out, before any call of the disk.
    #[error("out of memory")]
    Memory,
}

impl From<AllocError> for OpenFault {
    ghost use Rattle.std.specs.Prelude.{◌≡◌};
    ghost use Rattle.nx_kept.specs.declared.fault.OpenFault.TheVariants.{Memory};

    ghost from_gives = { λ _ made. made ≡ Memory };

    fn from(_: AllocError) -> OpenFault {
        OpenFault::Memory
    }
}

impl From<DiskFailed> for OpenFault {
    ghost use Rattle.std.specs.Prelude.{◌≡◌};
    ghost use Rattle.nx_kept.specs.declared.fault.OpenFault.TheVariants.{Disk};

    ghost from_gives = { λ _ made. made ≡ Disk };

    fn from(_: DiskFailed) -> OpenFault {
        OpenFault::Disk
    }
}
