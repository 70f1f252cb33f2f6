//! Why a receiver is not made, or a moment is refused.

ghost use Rattle.std.specs.Prelude.{◌≤◌, IfErr, OnOk};
ghost use Rattle.nx_envelope.specs.Moment.{last_moment};
ghost use Rattle.nx_receiver.specs.Moments.{Refuses};

use nx_envelope::LAST_MOMENT;
use std::alloc::AllocError;
use thiserror::Error;

/// Why a receiver is not made.
#[derive(Clone, Copy, Debug, Drop, PartialEq, Eq, Error)]
pub enum ReceiverFault {
    /// The first moment is past 2999-12-31 23:59:59 UTC, or before the newest of the memory.
    #[error("the first moment is out of range")]
    MomentRange,
    /// There is no memory for the receiver. It takes none of the allocator, so this isn't answered;
    /// it stays for callers who match on it.
    #[error("out of memory")]
    Memory(AllocError),
}

/// Why a moment is refused. Moments are whole seconds since 1970-01-01 00:00:00 UTC.
#[derive(Clone, Copy, Debug, Drop, PartialEq, Eq, Error)]
pub enum MomentFault {
    /// The moment is past 2999-12-31 23:59:59 UTC.
    #[error("moment {given} is out of range")]
    Range { given: u64 },
    /// The moment is before the last one that was given.
    #[error("moment {given} is before {last}")]
    Back { last: u64, given: u64 },
}

/// Whether a moment may be set where this one is in force. `Range` where it is past 2999-12-31
/// 23:59:59, else `Back` where it is before the one in force.
#[inline(always)]
pub fn check_moment(last: u64, given: u64) -> Result<(), MomentFault>
    ensures taken { OnOk result ((last ≤ given) × (given ≤ last_moment)) }
    ensures refused { IfErr result (Refuses last given) }
{
    if given > LAST_MOMENT {
        return Err(MomentFault::Range { given });
    }
    if given < last {
        return Err(MomentFault::Back { last, given });
    }
    Ok(())
}
