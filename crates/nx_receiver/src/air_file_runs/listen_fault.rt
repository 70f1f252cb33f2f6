//! Why `listen` ended early.

use crate::fault::MomentFault;
use nx_envelope::Letter;
use nx_fec::{AirFault, LineFault, WriteFault};
use nx_memory::Vital;
use std::alloc::AllocError;
use thiserror::Error;

/// Why a line of an air file isn't taken.
#[derive(Clone, Copy, Debug, Drop, PartialEq, Eq)]
pub enum LineRefusal {
    /// Elements come before any moment.
    NoMoment,
    /// The moment is out of range, or before the last one.
    Moment(MomentFault),
    /// The subject can't be refused.
    Vital { subject: Letter },
}

impl From<MomentFault> for LineRefusal {
    ghost use Rattle.std.specs.Prelude.{◌≡◌};
    ghost use Rattle.nx_receiver.specs.declared.air_file_runs.listen_fault.LineRefusal.TheVariants.{Moment};

    ghost from_gives = { λ fault made. made ≡ Moment fault };

    fn from(fault: MomentFault) -> LineRefusal {
        LineRefusal::Moment(fault)
    }
}

impl From<Vital> for LineRefusal {
    ghost use Rattle.std.specs.Prelude.{◌≡◌};
    ghost use Rattle.nx_receiver.specs.declared.air_file_runs.listen_fault.LineRefusal.TheVariants as refusal;

    ghost from_gives = { λ vital made. made ≡ refusal.Vital vital.subject };

    fn from(vital: Vital) -> LineRefusal {
        LineRefusal::Vital {
            subject: vital.subject,
        }
    }
}

/// Why a run that listens to an air file ended early. Lines count from 1.
#[derive(Clone, Copy, Debug, Drop, PartialEq, Eq, Error)]
pub enum ListenFault {
    /// A read failed.
    #[error("read failed")]
    Read,
    /// There is a byte past the limit of an air file.
    #[error("air file longer than 268435456 bytes")]
    AirTooLong,
    /// The line has a 515th byte before its end.
    #[error("line {line} is longer than 514 bytes")]
    LineLong { line: u64 },
    /// The file ends inside the line.
    #[error("line {line} has no end")]
    LineCut { line: u64 },
    /// The line is none of an air file.
    #[error("line {line} is not understood")]
    BadLine { line: u64 },
    /// The line has elements, and no line before it is a moment.
    #[error("line {line} has elements before any moment")]
    NoMoment { line: u64 },
    /// The moment of the line is out of range, or before the last one.
    #[error("line {line}: {fault}")]
    Moment { line: u64, fault: MomentFault },
    /// The line refuses a subject that can't be refused (ITU-R M.540).
    #[error("line {line}: subject {subject} can't be refused")]
    Vital { line: u64, subject: Letter },
    /// A write failed, after the writer took this many bytes in the run.
    #[error("write failed after {written} bytes")]
    Write { written: u64 },
    /// Memory ran out.
    #[error("out of memory")]
    Memory(AllocError),
}

impl ListenFault {
    ghost use Rattle.std.specs.Prelude.{◌≡◌};
    ghost use Rattle.nx_receiver.specs.air_file_runs.Listen.{refusal_fault};

    /// The fault of a run that ends at the line of this number, which isn't taken.
    pub fn of_refusal(line: u64, why: LineRefusal) -> ListenFault
        ensures { result ≡ refusal_fault line why }
    {
        match why {
            LineRefusal::NoMoment => ListenFault::NoMoment { line },
            LineRefusal::Moment(fault) => ListenFault::Moment { line, fault },
            LineRefusal::Vital { subject } => ListenFault::Vital { line, subject },
        }
    }
}

impl From<AirFault> for ListenFault {
    ghost use Rattle.std.specs.Prelude.{◌≡◌};
    ghost use Rattle.nx_receiver.specs.air_file_runs.Listen.{air_fault};

    ghost from_gives = { λ fault made. made ≡ air_fault fault };

    fn from(fault: AirFault) -> ListenFault {
        match fault {
            AirFault::Read => ListenFault::Read,
            AirFault::Line(why) => ListenFault::from(why),
        }
    }
}

impl From<LineFault> for ListenFault {
    ghost use Rattle.std.specs.Prelude.{◌≡◌};
    ghost use Rattle.nx_receiver.specs.air_file_runs.Listen.{file_fault};

    ghost from_gives = { λ fault made. made ≡ file_fault fault };

    fn from(fault: LineFault) -> ListenFault {
        match fault {
            LineFault::TooLong => ListenFault::AirTooLong,
            LineFault::LineLong { line } => ListenFault::LineLong { line },
            LineFault::LineCut { line } => ListenFault::LineCut { line },
            LineFault::BadLine { line } => ListenFault::BadLine { line },
        }
    }
}

impl From<AllocError> for ListenFault {
    ghost use Rattle.std.specs.Prelude.{◌≡◌};
    ghost use Rattle.nx_receiver.specs.declared.air_file_runs.listen_fault.ListenFault.TheVariants.{Memory};

    ghost from_gives = { λ error made. made ≡ Memory error };

    fn from(error: AllocError) -> ListenFault {
        ListenFault::Memory(error)
    }
}

impl From<WriteFault> for ListenFault {
    ghost use Rattle.std.specs.Prelude.{◌≡◌};
    ghost use Rattle.nx_receiver.specs.declared.air_file_runs.listen_fault.ListenFault.TheVariants.{Write};

    ghost from_gives = { λ fault made. made ≡ Write fault.written };

    fn from(fault: WriteFault) -> ListenFault {
        ListenFault::Write {
            written: fault.written,
        }
    }
}
