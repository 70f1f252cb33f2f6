//! The faults of air files and of runs over readers and writers.
use crate::emissions::aligned::AlignedFault;
use nx_code::SpellFault;
use std::alloc::AllocError;
use thiserror::Error;

/// The first fault of an air file, in the order of its bytes. Lines count from 1.
#[derive(Clone, Copy, Debug, PartialEq, Eq)]
pub enum LineFault {
    /// There is a byte past the limit.
    TooLong,
    /// The line has a 515th byte before its end.
    LineLong { line: u64 },
    /// The file ends inside the line.
    LineCut { line: u64 },
    /// The line is none of an air file.
    BadLine { line: u64 },
}

/// Why the lines of an air file ended early.
#[derive(Clone, Copy, Debug, PartialEq, Eq)]
pub enum AirFault {
    /// A read failed.
    Read,
    /// The file has this fault.
    Line(LineFault),
}

/// Why a run over a reader, and a writer, ended early. Lines count from 1, characters from 0.
#[derive(Clone, Copy, Debug, Drop, PartialEq, Eq, Error)]
pub enum RunFault {
    /// A read failed.
    #[error("read failed")]
    Read,
    /// There is a byte past the limit of a file.
    #[error("file longer than 1048576 bytes")]
    FileTooLong,
    /// The line has a 515th byte before its end.
    #[error("line {line} is longer than 514 bytes")]
    LineLong { line: u64 },
    /// The file ends inside the line.
    #[error("line {line} has no end")]
    LineCut { line: u64 },
    /// The line is none of an air file.
    #[error("line {line} is not understood")]
    BadLine { line: u64 },
    /// The elements are no whole words.
    #[error("{bits} elements are no whole words")]
    Ragged { bits: u64 },
    /// The character at this index has no signal.
    #[error("no signal for the character at {at}")]
    NoSuchCharacter { at: u64 },
    /// A write failed, after the writer took this many bytes in the run.
    #[error("write failed after {written} bytes")]
    Write { written: u64 },
    /// Memory ran out.
    #[error("out of memory")]
    Memory(AllocError),
}

/// Why a file was not read whole.
#[derive(Clone, Copy, Debug, Drop, PartialEq, Eq, Error)]
pub enum ReadFault {
    /// A read failed.
    #[error("read failed")]
    Read,
    /// There is a byte past the limit of a file.
    #[error("file longer than 1048576 bytes")]
    FileTooLong,
    /// Memory ran out.
    #[error("out of memory")]
    Memory(AllocError),
}

/// A write failed, after the writer took this many bytes in the call.
#[derive(Clone, Copy, Debug, PartialEq, Eq, Error)]
#[error("write failed after {written} bytes")]
pub struct WriteFault {
    pub written: u64,
}

impl From<LineFault> for AirFault {
    ghost use Rattle.std.specs.Prelude.{◌≡◌};
    ghost use Rattle.nx_fec.specs.declared.fault.AirFault.TheVariants.{Line};

    ghost from_gives = { λ fault made. made ≡ Line fault };

    fn from(fault: LineFault) -> AirFault {
        AirFault::Line(fault)
    }
}

impl From<AirFault> for RunFault {
    ghost use Rattle.std.specs.Prelude.{◌≡◌};
    ghost use Rattle.nx_fec.specs.Runs.{air_run_fault};

    ghost from_gives = { λ fault made. made ≡ air_run_fault fault };

    fn from(fault: AirFault) -> RunFault {
        match fault {
            AirFault::Read => RunFault::Read,
            AirFault::Line(why) => RunFault::from(why),
        }
    }
}

impl From<LineFault> for RunFault {
    ghost use Rattle.std.specs.Prelude.{◌≡◌};
    ghost use Rattle.nx_fec.specs.Runs.{run_fault};

    ghost from_gives = { λ fault made. made ≡ run_fault fault };

    fn from(fault: LineFault) -> RunFault {
        match fault {
            LineFault::TooLong => RunFault::FileTooLong,
            LineFault::LineLong { line } => RunFault::LineLong { line },
            LineFault::LineCut { line } => RunFault::LineCut { line },
            LineFault::BadLine { line } => RunFault::BadLine { line },
        }
    }
}

impl From<AllocError> for ReadFault {
    ghost use Rattle.std.specs.Prelude.{◌≡◌};
    ghost use Rattle.nx_fec.specs.declared.fault.ReadFault.TheVariants.{Memory};

    ghost from_gives = { λ error made. made ≡ Memory error };

    fn from(error: AllocError) -> ReadFault {
        ReadFault::Memory(error)
    }
}

impl From<ReadFault> for RunFault {
    ghost use Rattle.std.specs.Prelude.{◌≡◌};
    ghost use Rattle.nx_fec.specs.Runs.{reading_fault};

    ghost from_gives = { λ fault made. made ≡ reading_fault fault };

    fn from(fault: ReadFault) -> RunFault {
        match fault {
            ReadFault::Read => RunFault::Read,
            ReadFault::FileTooLong => RunFault::FileTooLong,
            ReadFault::Memory(error) => RunFault::Memory(error),
        }
    }
}

impl From<AllocError> for RunFault {
    ghost use Rattle.std.specs.Prelude.{◌≡◌};
    ghost use Rattle.nx_fec.specs.declared.fault.RunFault.TheVariants.{Memory};

    ghost from_gives = { λ error made. made ≡ Memory error };

    fn from(error: AllocError) -> RunFault {
        RunFault::Memory(error)
    }
}

impl From<WriteFault> for RunFault {
    ghost use Rattle.std.specs.Prelude.{◌≡◌};
    ghost use Rattle.nx_fec.specs.declared.fault.RunFault.TheVariants.{Write};

    ghost from_gives = { λ fault made. made ≡ Write fault.written };

    fn from(fault: WriteFault) -> RunFault {
        RunFault::Write {
            written: fault.written,
        }
    }
}

impl From<AlignedFault> for RunFault {
    ghost use Rattle.std.specs.Prelude.{◌≡◌};
    ghost use Rattle.nx_fec.specs.Runs.{aligned_fault};

    ghost from_gives = { λ fault made. made ≡ aligned_fault fault };

    fn from(fault: AlignedFault) -> RunFault {
        match fault {
            AlignedFault::Ragged { bits } => RunFault::Ragged { bits },
            AlignedFault::Memory(error) => RunFault::Memory(error),
        }
    }
}

impl From<SpellFault> for RunFault {
    ghost use Rattle.std.specs.Prelude.{◌≡◌};
    ghost use Rattle.nx_fec.specs.Runs.{spell_fault};

    ghost from_gives = { λ fault made. made ≡ spell_fault fault };

    fn from(fault: SpellFault) -> RunFault {
        match fault {
            SpellFault::NoSuchCharacter { at } => RunFault::NoSuchCharacter { at },
            SpellFault::Memory(error) => RunFault::Memory(error),
        }
    }
}
