//! Why a run of the program fails: the line on standard error, and the exit status.

ghost use Rattle.std.specs.Prelude.{◌≡◌};
ghost use Rattle.nx_program.specs.Report.{IsFaultText, WritesLast, WritesOne};
ghost use Rattle.nx_program.specs.Status.{call_status, fault_status};
ghost use Rattle.nx_program.specs.declared.fault.CallFault.TheVariants.{Check, Damage, Listen, Log};
ghost use Rattle.nx_program.specs.declared.fault.CallFault.TheVariants.{Resume, Run, Send};
ghost use Rattle.nx_program.specs.declared.fault.Fault.TheVariants.{Call};
ghost use Rattle.nx_fec.specs.declared.fault.RunFault.TheVariants.{Memory};

use crate::fault_text::call_fault_line;
use crate::file_name::FileName;
use crate::watch_command::WatchFailure;
use nx_fec::{Counting, RunFault, write_out};
use nx_log::LogFault;
use nx_receiver::{ListenFault, ResumeFault, StateFault};
use nx_station::{CheckFault, DamageFault, EmissionFault, SendRunFault};
use std::alloc::AllocError;
use std::io::Write;
use thiserror::Error;

/// The exit status where a device failed or memory ran out.
const DEVICE_OR_MEMORY: u8 = 1;
/// The exit status for a bad file, line or value.
const BAD_INPUT: u8 = 2;
/// The exit status for arguments that are not understood.
const BAD_ARGUMENTS: u8 = 64;

/// The line for arguments of which one is no text.
const NO_TEXT: &str = "navtex: a word of the command line is not UTF-8\n";
/// The line for a station that is not one letter A to Z.
const STATION: &str = "navtex: station must be one letter A to Z\n";
/// The line for a kind of damage that there isn't.
const KIND: &str = "navtex: kind must be dx, rx or all\n";

/// Why a call of the program failed.
#[derive(Debug, Drop, Error)]
pub enum CallFault {
    /// The reading, decoding, encoding or writing of a file failed, or the writing of a text.
    #[error(transparent)]
    Run(RunFault),
    /// The messages of a file were not sent.
    #[error(transparent)]
    Send(SendRunFault),
    /// An air file was not checked, or it is no emission.
    #[error(transparent)]
    Check(CheckFault),
    /// An air file was not listened to, or not to its end.
    #[error(transparent)]
    Listen(ListenFault),
    /// A state was not read, the air file behind it was not listened to, or not to its end, or a
    /// new state was not written whole.
    #[error(transparent)]
    Resume(ResumeFault),
    /// An air file was not copied whole.
    #[error(transparent)]
    Damage(DamageFault),
    /// A log was not read, or not to its end.
    #[error(transparent)]
    Log(LogFault),
    /// The station has no slot from that moment on.
    #[error("no slot")]
    NoSlot,
}

impl CallFault {
    fn status(&self) -> u8
        ensures { result ≡ call_status self.now }
    {
        match self {
            CallFault::Run(RunFault::Read | RunFault::Write { written: _ } | RunFault::Memory(_)) =>
                DEVICE_OR_MEMORY,
            CallFault::Send(
                SendRunFault::Read | SendRunFault::Write { written: _ } | SendRunFault::Memory(_),
            ) => DEVICE_OR_MEMORY,
            CallFault::Check(
                CheckFault::Run(
                    RunFault::Read | RunFault::Write { written: _ } | RunFault::Memory(_),
                )
                | CheckFault::Emission(EmissionFault::Memory(_)),
            ) => DEVICE_OR_MEMORY,
            CallFault::Listen(
                ListenFault::Read | ListenFault::Write { written: _ } | ListenFault::Memory(_),
            ) => DEVICE_OR_MEMORY,
            CallFault::Resume(
                ResumeFault::State(StateFault::Read)
                | ResumeFault::Listen(
                    ListenFault::Read | ListenFault::Write { written: _ } | ListenFault::Memory(_),
                )
                | ResumeFault::Write { written: _ },
            ) => DEVICE_OR_MEMORY,
            CallFault::Damage(DamageFault::Read | DamageFault::Write { written: _ }) =>
                DEVICE_OR_MEMORY,
            CallFault::Log(LogFault::Read | LogFault::Write { written: _ } | LogFault::Memory(_)) =>
                DEVICE_OR_MEMORY,
            _ => BAD_INPUT,
        }
    }
}

/// Why a run of the program failed.
#[derive(Debug, Drop)]
pub enum Fault<'a> {
    /// The arguments are not understood, as this text says.
    Arguments(String),
    /// An argument of the command line is no text, so none of them was read.
    NoText,
    /// The station is not one letter A to Z.
    Station,
    /// The kind of damage is none of those that there are.
    Kind,
    /// The value of an option names nothing, as this text says.
    Value(String),
    /// The watch of the log of this name failed.
    Watch(FileName<'a>, WatchFailure),
    /// The call that the arguments name failed, or the writing of help did.
    Call(CallFault),
}

impl<'a> Fault<'a> {
    fn status(&self) -> u8
        ensures { result ≡ fault_status self.now }
    {
        match self {
            Fault::Arguments(_) | Fault::NoText | Fault::Station | Fault::Kind | Fault::Value(_) =>
                BAD_ARGUMENTS,
            Fault::Watch(_, why) => why.status(),
            Fault::Call(why) => why.status(),
        }
    }

    /// Reports the fault on standard error by one text, and answers its exit status, which stays
    /// the same where the text can't be written. The device isn't called again after it failed.
    pub fn report<E: Write>(&self, faults: &mut Counting<E>) -> u8
        ensures status { result ≡ fault_status self.now }
        ensures reported { WritesLast (IsFaultText self.now) E.contents faults.old faults.new }
    {
        if faults.failures() == 0 {
            self.tell(faults);
        }
        self.status()
    }

    /// Tells of the fault by its text, as far as the device takes it.
    fn tell<E: Write>(&self, faults: &mut Counting<E>)
        requires { faults.old.failures ≡ 0 }
        ensures { WritesOne (IsFaultText self.now) E.contents faults.old faults.new }
    {
        // Where the device fails, there is no place left to say so.
        let _ = match self {
            Fault::Arguments(answer) => write_out(faults, answer.as_bytes()),
            Fault::NoText => write_out(faults, NO_TEXT.as_bytes()),
            Fault::Station => write_out(faults, STATION.as_bytes()),
            Fault::Kind => write_out(faults, KIND.as_bytes()),
            Fault::Value(report) => write_out(faults, report.as_bytes()),
            Fault::Watch(log, why) => return why.tell(log, faults),
            Fault::Call(why) => write_out(faults, call_fault_line(why).as_slice()),
        };
    }
}

impl From<RunFault> for CallFault {
    ghost from_gives = { λ why fault. fault ≡ Run why };

    fn from(why: RunFault) -> CallFault {
        CallFault::Run(why)
    }
}

impl From<SendRunFault> for CallFault {
    ghost from_gives = { λ why fault. fault ≡ Send why };

    fn from(why: SendRunFault) -> CallFault {
        CallFault::Send(why)
    }
}

impl From<CheckFault> for CallFault {
    ghost from_gives = { λ why fault. fault ≡ Check why };

    fn from(why: CheckFault) -> CallFault {
        CallFault::Check(why)
    }
}

impl From<ListenFault> for CallFault {
    ghost from_gives = { λ why fault. fault ≡ Listen why };

    fn from(why: ListenFault) -> CallFault {
        CallFault::Listen(why)
    }
}

impl From<ResumeFault> for CallFault {
    ghost from_gives = { λ why fault. fault ≡ Resume why };

    fn from(why: ResumeFault) -> CallFault {
        CallFault::Resume(why)
    }
}

impl From<DamageFault> for CallFault {
    ghost from_gives = { λ why fault. fault ≡ Damage why };

    fn from(why: DamageFault) -> CallFault {
        CallFault::Damage(why)
    }
}

impl From<LogFault> for CallFault {
    ghost from_gives = { λ why fault. fault ≡ Log why };

    fn from(why: LogFault) -> CallFault {
        CallFault::Log(why)
    }
}

impl<'a> From<CallFault> for Fault<'a> {
    ghost from_gives = { λ why fault. fault ≡ Call why };

    fn from(why: CallFault) -> Fault<'a> {
        Fault::Call(why)
    }
}

impl<'a> From<RunFault> for Fault<'a> {
    ghost from_gives = { λ why fault. fault ≡ Call (Run why) };

    fn from(why: RunFault) -> Fault<'a> {
        Fault::Call(CallFault::Run(why))
    }
}

impl<'a> From<AllocError> for Fault<'a> {
    ghost from_gives = { λ want fault. fault ≡ Call (Run (Memory want)) };

    fn from(want: AllocError) -> Fault<'a> {
        Fault::Call(CallFault::Run(RunFault::Memory(want)))
    }
}
