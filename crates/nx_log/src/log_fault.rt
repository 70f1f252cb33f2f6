//! Why a run over a log ended early.

use nx_fec::WriteFault;
use std::alloc::AllocError;
use thiserror::Error;

/// Why a run over a log ended early. Lines count from 1.
#[derive(Clone, Copy, Debug, Drop, PartialEq, Eq, Error)]
pub enum LogFault {
    /// A read failed.
    #[error("read failed")]
    Read,
    /// A write failed, after the writer took this many bytes in the run.
    #[error("write failed after {written} bytes")]
    Write { written: u64 },
    /// The bytes stop being a log at this line.
    #[error("line {line} is not of a log")]
    BadLog { line: u64 },
    /// Memory ran out.
    #[error("out of memory")]
    Memory(AllocError),
}

impl From<AllocError> for LogFault {
    ghost use Rattle.std.specs.Prelude.{◌≡◌};
    ghost use Rattle.nx_log.specs.declared.log_fault.LogFault.TheVariants.{Memory};

    ghost from_gives = { λ error made. made ≡ Memory error };

    fn from(error: AllocError) -> LogFault {
        LogFault::Memory(error)
    }
}

impl From<WriteFault> for LogFault {
    ghost use Rattle.std.specs.Prelude.{◌≡◌};
    ghost use Rattle.nx_log.specs.declared.log_fault.LogFault.TheVariants.{Write};

    ghost from_gives = { λ fault made. made ≡ Write fault.written };

    fn from(fault: WriteFault) -> LogFault {
        LogFault::Write {
            written: fault.written,
        }
    }
}
