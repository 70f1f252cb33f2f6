//! Why messages are not sent, an emission is not read, and an air file is not checked or damaged.
use nx_envelope::MessageFault;
use nx_fec::{AirFault, LineFault, ReadFault, RunFault, WriteFault};
use std::alloc::AllocError;
use thiserror::Error;

/// Why a list of messages makes no emission.
#[derive(Debug, PartialEq, Eq, Drop, Error)]
pub enum SendFault {
    /// There is no message.
    #[error("no messages")]
    NoMessages,
    /// The message at this index, from 0, is the first of another station than the first message's.
    #[error("message at {at} is of another station")]
    MixedStations { at: u64 },
    /// The station has no slot.
    #[error("no slot")]
    NoSlot,
    /// The messages have this many positions, and a slot has no room for more than 4,286.
    #[error("{positions} positions are too many for a slot")]
    SlotFull { positions: u128 },
    /// Memory ran out.
    #[error("out of memory")]
    Memory(AllocError),
}

/// Why a message file is not sent. Lines count from 1.
#[derive(Debug, PartialEq, Eq, Drop, Error)]
pub enum SendRunFault {
    /// A read failed.
    #[error("read failed")]
    Read,
    /// There is a byte past the limit of a file.
    #[error("file longer than 1048576 bytes")]
    FileTooLong,
    /// The line stands outside a message and begins none.
    #[error("line {line} is not understood")]
    BadLine { line: u64 },
    /// The lines of the message that begins at this line are refused.
    #[error("message at line {line}: {fault}")]
    Text { line: u64, fault: MessageFault },
    /// The file ends inside the line.
    #[error("line {line} has no end")]
    LineCut { line: u64 },
    /// The file ends inside the message that begins at this line.
    #[error("message at line {line} is not ended")]
    Open { line: u64 },
    /// The messages make no emission, or the station has no next slot.
    #[error("{0}")]
    Send(SendFault),
    /// A write failed, after the writer took this many bytes in the run.
    #[error("write failed after {written} bytes")]
    Write { written: u64 },
    /// Memory ran out.
    #[error("out of memory")]
    Memory(AllocError),
}

/// Why elements are not read as the emission of messages. Slots and positions count from 0.
#[derive(Debug, PartialEq, Eq, Drop, Error)]
pub enum EmissionFault {
    /// The elements are no whole words.
    #[error("{bits} elements are no whole words")]
    Ragged { bits: u64 },
    /// The word of this slot is the first of the wrong weight.
    #[error("word {slot} has the wrong weight")]
    WrongWord { slot: u64 },
    /// This position is the first whose two words are there and are no pair.
    #[error("position {position} is unpaired")]
    Unpaired { position: u64 },
    /// The words are those of no emission of this profile.
    #[error("not an emission of this profile")]
    BadEnvelope,
    /// Memory ran out.
    #[error("out of memory")]
    Memory(AllocError),
}

/// Why an air file was not checked.
#[derive(Debug, PartialEq, Eq, Drop, Error)]
pub enum CheckFault {
    /// The file was not read, or the answer was not written.
    #[error("{0}")]
    Run(RunFault),
    /// The elements of the file are not the emission of messages.
    #[error("{0}")]
    Emission(EmissionFault),
}

/// Why an air file was not damaged to its end. Lines count from 1.
#[derive(Clone, Copy, Debug, Drop, PartialEq, Eq, Error)]
pub enum DamageFault {
    /// A read failed.
    #[error("read failed")]
    Read,
    /// There is a byte past the limit of an air file.
    #[error("air file longer than 268435456 bytes")]
    AirTooLong,
    /// The line has a 515th byte before its end.
    #[error("line {line} is longer than 514 bytes")]
    LineLong { line: u64 },
    /// The file ends inside the line.
    #[error("line {line} has no end")]
    LineCut { line: u64 },
    /// The line is none of an air file.
    #[error("line {line} is not understood")]
    BadLine { line: u64 },
    /// A write failed, after the writer took this many bytes in the run.
    #[error("write failed after {written} bytes")]
    Write { written: u64 },
}

impl From<AllocError> for EmissionFault {
    ghost use Rattle.std.specs.Prelude.{◌≡◌};
    ghost use Rattle.nx_station.specs.declared.fault.EmissionFault.TheVariants.{Memory};

    ghost from_gives = { λ error made. made ≡ Memory error };

    fn from(error: AllocError) -> EmissionFault {
        EmissionFault::Memory(error)
    }
}

/// Messages that make no emission have no elements; the elements that were read aren't theirs.
impl From<SendFault> for EmissionFault {
    ghost use Rattle.std.specs.Prelude.{◌≡◌};
    ghost use Rattle.nx_station.specs.Faults.{unread_fault};

    ghost from_gives = { λ fault made. made ≡ unread_fault fault };

    fn from(fault: SendFault) -> EmissionFault {
        match fault {
            SendFault::Memory(error) => EmissionFault::Memory(error),
            _ => EmissionFault::BadEnvelope,
        }
    }
}

/// Lines that make no message stand in no emission.
impl From<MessageFault> for EmissionFault {
    ghost use Rattle.std.specs.Prelude.{◌≡◌};
    ghost use Rattle.nx_station.specs.Faults.{unmade_fault};

    ghost from_gives = { λ fault made. made ≡ unmade_fault fault };

    fn from(fault: MessageFault) -> EmissionFault {
        match fault {
            MessageFault::Memory(error) => EmissionFault::Memory(error),
            _ => EmissionFault::BadEnvelope,
        }
    }
}

impl From<AllocError> for SendRunFault {
    ghost use Rattle.std.specs.Prelude.{◌≡◌};
    ghost use Rattle.nx_station.specs.declared.fault.SendRunFault.TheVariants.{Memory};

    ghost from_gives = { λ error made. made ≡ Memory error };

    fn from(error: AllocError) -> SendRunFault {
        SendRunFault::Memory(error)
    }
}

impl From<ReadFault> for SendRunFault {
    ghost use Rattle.std.specs.Prelude.{◌≡◌};
    ghost use Rattle.nx_station.specs.Faults.{read_fault};

    ghost from_gives = { λ fault made. made ≡ read_fault fault };

    fn from(fault: ReadFault) -> SendRunFault {
        match fault {
            ReadFault::Read => SendRunFault::Read,
            ReadFault::FileTooLong => SendRunFault::FileTooLong,
            ReadFault::Memory(error) => SendRunFault::Memory(error),
        }
    }
}

impl From<SendFault> for SendRunFault {
    ghost use Rattle.std.specs.Prelude.{◌≡◌};
    ghost use Rattle.nx_station.specs.Faults.{send_fault};

    ghost from_gives = { λ fault made. made ≡ send_fault fault };

    fn from(fault: SendFault) -> SendRunFault {
        match fault {
            SendFault::Memory(error) => SendRunFault::Memory(error),
            refused => SendRunFault::Send(refused),
        }
    }
}

impl From<WriteFault> for SendRunFault {
    ghost use Rattle.std.specs.Prelude.{◌≡◌};
    ghost use Rattle.nx_station.specs.declared.fault.SendRunFault.TheVariants.{Write};

    ghost from_gives = { λ fault made. made ≡ Write fault.written };

    fn from(fault: WriteFault) -> SendRunFault {
        SendRunFault::Write {
            written: fault.written,
        }
    }
}

impl From<RunFault> for CheckFault {
    ghost use Rattle.std.specs.Prelude.{◌≡◌};
    ghost use Rattle.nx_station.specs.declared.fault.CheckFault.TheVariants.{Run};

    ghost from_gives = { λ fault made. made ≡ Run fault };

    fn from(fault: RunFault) -> CheckFault {
        CheckFault::Run(fault)
    }
}

impl From<EmissionFault> for CheckFault {
    ghost use Rattle.std.specs.Prelude.{◌≡◌};
    ghost use Rattle.nx_station.specs.declared.fault.CheckFault.TheVariants.{Emission};

    ghost from_gives = { λ fault made. made ≡ Emission fault };

    fn from(fault: EmissionFault) -> CheckFault {
        CheckFault::Emission(fault)
    }
}

impl From<AllocError> for CheckFault {
    ghost use Rattle.std.specs.Prelude.{◌≡◌};
    ghost use Rattle.nx_fec.specs.declared.fault.RunFault.TheVariants as run;
    ghost use Rattle.nx_station.specs.declared.fault.CheckFault.TheVariants.{Run};

    ghost from_gives = { λ error made. made ≡ Run (run.Memory error) };

    fn from(error: AllocError) -> CheckFault {
        CheckFault::Run(RunFault::Memory(error))
    }
}

impl From<WriteFault> for CheckFault {
    ghost use Rattle.std.specs.Prelude.{◌≡◌};
    ghost use Rattle.nx_fec.specs.declared.fault.RunFault.TheVariants as run;
    ghost use Rattle.nx_station.specs.declared.fault.CheckFault.TheVariants.{Run};

    ghost from_gives = { λ fault made. made ≡ Run (run.Write fault.written) };

    fn from(fault: WriteFault) -> CheckFault {
        CheckFault::Run(RunFault::Write {
            written: fault.written,
        })
    }
}

impl From<AirFault> for DamageFault {
    ghost use Rattle.std.specs.Prelude.{◌≡◌};
    ghost use Rattle.nx_station.specs.Faults.{air_fault};

    ghost from_gives = { λ fault made. made ≡ air_fault fault };

    fn from(fault: AirFault) -> DamageFault {
        match fault {
            AirFault::Read => DamageFault::Read,
            AirFault::Line(LineFault::TooLong) => DamageFault::AirTooLong,
            AirFault::Line(LineFault::LineLong { line }) => DamageFault::LineLong { line },
            AirFault::Line(LineFault::LineCut { line }) => DamageFault::LineCut { line },
            AirFault::Line(LineFault::BadLine { line }) => DamageFault::BadLine { line },
        }
    }
}

impl From<WriteFault> for DamageFault {
    ghost use Rattle.std.specs.Prelude.{◌≡◌};
    ghost use Rattle.nx_station.specs.declared.fault.DamageFault.TheVariants.{Write};

    ghost from_gives = { λ fault made. made ≡ Write fault.written };

    fn from(fault: WriteFault) -> DamageFault {
        DamageFault::Write {
            written: fault.written,
        }
    }
}
