//! Selecting what a receiver prints.

ghost use Rattle.std.specs.Prelude.{◌≡◌, ◌≢◌, ◌≤◌, length, IfErr, IfOk, true, false, if◌then◌else◌};
ghost use Rattle.nx_receiver.specs.Commands.{by_byte, refuses_vital, said};
ghost use Rattle.nx_handle.specs.Selecting.{AnswersSelecting, byte_status, command_status, is_letter};
ghost use Rattle.nx_handle.specs.declared.status.Status.TheVariants.{Done, NoStation, NoSubject, Vital};

use crate::kept_place::KeptPlace;
use crate::places::{all_hear, channel_of};
use crate::status::Status;
use nx_envelope::Letter;
use nx_receiver::Command;

/// Gives a command for the letter of a byte, 'A' to 'Z', to a channel, from here on.
///
/// `Closed` where the receiver is closed, or its end has begun; else `NoChannel` where it has no
/// channel of this number; else `NoStation` or `NoSubject` where the byte is no letter; else
/// `Vital` where it is to refuse subject A, B, D or L, which can't be refused (ITU-R M.540); else
/// `Done`. Where it isn't `Done`, the receiver stays as it was.
pub fn select<P: KeptPlace>(places: &mut [P], channel: u8, command: Command<u8>) -> u32
    requires few { length places.old ≤ 3 }
    ensures { AnswersSelecting P.kind (command_status channel (length places.old) command)
        (by_byte command) channel places.old places.new result }
{
    if !all_hear(places) {
        return Status::Closed.number();
    }
    let Some(channel) = channel_of(channel, places.len()) else {
        return Status::NoChannel.number();
    };
    let command = match for_letter(command) {
        Ok(command) => command,
        Err(status) => return status.number(),
    };
    match places[usize::from(channel.number())].command(command) {
        Ok(()) => 0,
        Err(_) => Status::Vital.number(),
    }
}

/// The command for the letter of its byte, or the status of one that is no letter's.
fn for_letter(command: Command<u8>) -> Result<Command, Status>
    ensures ok { IfOk result (λ asked. (said asked ≡ by_byte command)
        × (byte_status command ≡ (if refuses_vital (by_byte command) then Vital else Done))) }
    ensures err { IfErr result (λ status. (status ≡ byte_status command) × (status ≢ Done)) }
{
    match command {
        Command::RefuseStation(byte) => Ok(Command::RefuseStation(station(byte)?)),
        Command::AcceptStation(byte) => Ok(Command::AcceptStation(station(byte)?)),
        Command::RefuseSubject(byte) => Ok(Command::RefuseSubject(subject(byte)?)),
        Command::AcceptSubject(byte) => Ok(Command::AcceptSubject(subject(byte)?)),
    }
}

/// The station of this byte.
fn station(byte: u8) -> Result<Letter, Status>
    ensures ok { IfOk result (λ letter. (letter.byte ≡ byte) × (is_letter byte ≡ true)) }
    ensures err { IfErr result (λ status. (status ≡ NoStation) × (is_letter byte ≡ false)) }
{
    match Letter::new(byte) {
        Some(letter) => Ok(letter),
        None => Err(Status::NoStation),
    }
}

/// The subject of this byte.
fn subject(byte: u8) -> Result<Letter, Status>
    ensures ok { IfOk result (λ letter. (letter.byte ≡ byte) × (is_letter byte ≡ true)) }
    ensures err { IfErr result (λ status. (status ≡ NoSubject) × (is_letter byte ≡ false)) }
{
    match Letter::new(byte) {
        Some(letter) => Ok(letter),
        None => Err(Status::NoSubject),
    }
}
