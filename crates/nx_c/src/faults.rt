//! What the fault of each run tells: its status, and its place.

ghost use Rattle.std.specs.Prelude.{◌≡◌, ◌≢◌};
ghost use Rattle.nx_c.specs.Faults.{check_told, emission_told, listen_told, message_told, resume_told, run_told, send_told, sending_told};
ghost use Rattle.nx_c.specs.Told.{told, told_at, told_in};
ghost use Rattle.nx_handle.specs.declared.status.Status.TheVariants.{Done};

use crate::told::{Place, Told};
use nx_envelope::MessageFault;
use nx_fec::RunFault;
use nx_handle::Status;
use nx_receiver::{ListenFault, MomentFault, ResumeFault, StateFault};
use nx_station::{CheckFault, EmissionFault, SendFault, SendRunFault};

/// This status, at this line, this line of a message and this number.
fn told_in(status: Status, line: u64, text_line: u64, at: u64) -> Told
    ensures { result ≡ told_in status line text_line at }
{
    Told {
        status,
        place: Place {
            line,
            text_line,
            at,
        },
    }
}

/// This status, at this line and this number.
fn told_at(status: Status, line: u64, at: u64) -> Told
    ensures { result ≡ told_at status line at }
{
    told_in(status, line, 0, at)
}

/// This status, at no place.
pub(crate) fn told(status: Status) -> Told
    ensures { result ≡ told status }
{
    told_at(status, 0, 0)
}

/// What a fault of a run over an air file or a text tells.
pub(crate) fn run_told(fault: RunFault) -> Told
    ensures told { result ≡ run_told fault }
    ensures fails { result.status ≢ Done }
{
    match fault {
        RunFault::Read => told(Status::Read),
        RunFault::FileTooLong => told(Status::FileTooLong),
        RunFault::LineLong { line } => told_at(Status::LineLong, line, 0),
        RunFault::LineCut { line } => told_at(Status::LineCut, line, 0),
        RunFault::BadLine { line } => told_at(Status::BadLine, line, 0),
        RunFault::Ragged { bits } => told_at(Status::Ragged, 0, bits),
        RunFault::NoSuchCharacter { at } => told_at(Status::NoSuchCharacter, 0, at),
        RunFault::Write { written: _ } => told(Status::Write),
        RunFault::Memory(_) => told(Status::Memory),
    }
}

/// What a fault of a run that listens tells.
pub(crate) fn listen_told(fault: ListenFault) -> Told
    ensures told { result ≡ listen_told fault }
    ensures fails { result.status ≢ Done }
{
    match fault {
        ListenFault::Read => told(Status::Read),
        ListenFault::AirTooLong => told(Status::AirTooLong),
        ListenFault::LineLong { line } => told_at(Status::LineLong, line, 0),
        ListenFault::LineCut { line } => told_at(Status::LineCut, line, 0),
        ListenFault::BadLine { line } => told_at(Status::BadLine, line, 0),
        ListenFault::NoMoment { line } => told_at(Status::NoMoment, line, 0),
        ListenFault::Moment {
            line,
            fault: MomentFault::Range { given },
        } => told_at(Status::MomentRange, line, given),
        ListenFault::Moment {
            line,
            fault: MomentFault::Back { last: _, given },
        } => told_at(Status::MomentBack, line, given),
        ListenFault::Vital { line, subject } => {
            told_at(Status::Vital, line, u64::from(subject.byte()))
        }
        ListenFault::Write { written: _ } => told(Status::Write),
        ListenFault::Memory(_) => told(Status::Memory),
    }
}

/// What a fault of a run that goes on from a state tells.
pub(crate) fn resume_told(fault: ResumeFault) -> Told
    ensures told { result ≡ resume_told fault }
    ensures fails { result.status ≢ Done }
{
    match fault {
        ResumeFault::State(StateFault::Read) => told(Status::Read),
        ResumeFault::State(StateFault::StateLine { line }) => told_at(Status::StateLine, line, 0),
        ResumeFault::State(StateFault::StateCut { line }) => told_at(Status::StateCut, line, 0),
        ResumeFault::Listen(fault) => listen_told(fault),
        ResumeFault::Write { written: _ } => told(Status::Write),
    }
}

/// What a fault of the lines of a message tells, which begins at this line of its file.
fn message_told(line: u64, fault: MessageFault) -> Told
    ensures told { result ≡ message_told line fault }
    ensures fails { result.status ≢ Done }
{
    match fault {
        MessageFault::LongLine { line: text_line } => told_in(Status::LongLine, line, text_line, 0),
        MessageFault::BadCharacter {
            line: text_line,
            at,
        } => told_in(Status::BadCharacter, line, text_line, at),
        MessageFault::Reserved { line: text_line } => told_in(Status::Reserved, line, text_line, 0),
        MessageFault::LongText => told_at(Status::LongText, line, 0),
        MessageFault::Memory(_) => told(Status::Memory),
    }
}

/// What a fault of messages tells.
fn send_told(fault: SendFault) -> Told
    ensures told { result ≡ send_told fault }
    ensures fails { result.status ≢ Done }
{
    match fault {
        SendFault::NoMessages => told(Status::NoMessages),
        SendFault::MixedStations { at } => told_at(Status::MixedStations, 0, at),
        SendFault::NoSlot => told(Status::NoSlot),
        SendFault::SlotFull { positions } => {
            told_at(
                Status::SlotFull,
                0,
                positions.min(u128::from(u64::MAX)) as u64,
            )
        }
        SendFault::Memory(_) => told(Status::Memory),
    }
}

/// What a fault of a run that sends tells.
pub(crate) fn sending_told(fault: SendRunFault) -> Told
    ensures told { result ≡ sending_told fault }
    ensures fails { result.status ≢ Done }
{
    match fault {
        SendRunFault::Read => told(Status::Read),
        SendRunFault::FileTooLong => told(Status::FileTooLong),
        SendRunFault::BadLine { line } => told_at(Status::BadLine, line, 0),
        SendRunFault::Text { line, fault } => message_told(line, fault),
        SendRunFault::LineCut { line } => told_at(Status::LineCut, line, 0),
        SendRunFault::Open { line } => told_at(Status::Open, line, 0),
        SendRunFault::Send(fault) => send_told(fault),
        SendRunFault::Write { written: _ } => told(Status::Write),
        SendRunFault::Memory(_) => told(Status::Memory),
    }
}

/// What a fault of elements that are read as an emission tells.
fn emission_told(fault: EmissionFault) -> Told
    ensures told { result ≡ emission_told fault }
    ensures fails { result.status ≢ Done }
{
    match fault {
        EmissionFault::Ragged { bits } => told_at(Status::Ragged, 0, bits),
        EmissionFault::WrongWord { slot } => told_at(Status::WrongWord, 0, slot),
        EmissionFault::Unpaired { position } => told_at(Status::Unpaired, 0, position),
        EmissionFault::BadEnvelope => told(Status::BadEnvelope),
        EmissionFault::Memory(_) => told(Status::Memory),
    }
}

/// What a fault of a run that checks tells.
pub(crate) fn check_told(fault: CheckFault) -> Told
    ensures told { result ≡ check_told fault }
    ensures fails { result.status ≢ Done }
{
    match fault {
        CheckFault::Run(fault) => run_told(fault),
        CheckFault::Emission(fault) => emission_told(fault),
    }
}
