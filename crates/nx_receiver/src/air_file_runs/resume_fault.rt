//! What a run that resumes writes, and why it ended early.

use crate::air_file_runs::listen_fault::ListenFault;
use crate::air_file_runs::state_fault::StateFault;
use thiserror::Error;

/// What a run that resumes writes.
#[derive(Clone, Copy, Debug, Drop, PartialEq, Eq)]
pub enum Want {
    /// The log of the air file.
    Log,
    /// The text of the state that it leaves.
    State,
}

/// Why a run that resumes ended early. Lines and bytes are counted from the start of the state, or
/// from that of the air file behind it.
#[derive(Clone, Copy, Debug, Drop, PartialEq, Eq, Error)]
pub enum ResumeFault {
    /// The state was not read.
    #[error("{0}")]
    State(StateFault),
    /// Listening to the air file behind the state ended early.
    #[error("{0}")]
    Listen(ListenFault),
    /// A write of the new state failed, after the writer took this many bytes of it.
    #[error("write failed after {written} bytes")]
    Write { written: u64 },
}

impl From<StateFault> for ResumeFault {
    ghost use Rattle.std.specs.Prelude.{◌≡◌};
    ghost use Rattle.nx_receiver.specs.declared.air_file_runs.resume_fault.ResumeFault.TheVariants.{State};

    ghost from_gives = { λ fault made. made ≡ State fault };

    fn from(fault: StateFault) -> ResumeFault {
        ResumeFault::State(fault)
    }
}
