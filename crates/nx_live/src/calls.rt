//! The calls of a receiver. Each does what the call of `nx_handle` does that has its name, with the
//! places that the receiver has, plain ones or ones that combine; those that refuse or accept do
//! what `select` does.

ghost use Rattle.std.specs.Prelude.{length};
ghost use Rattle.nx_copies.specs.Events as events;
ghost use Rattle.nx_receiver.specs.declared.command.Command.TheVariants.{RefuseStation, AcceptStation, RefuseSubject, AcceptSubject};
ghost use Rattle.nx_handle.specs.CallerRoom.{room};
ghost use Rattle.nx_handle.specs.Closing.{AnswersClosing};
ghost use Rattle.nx_handle.specs.Hearing.{AnswersHearing};
ghost use Rattle.nx_handle.specs.LogEntry.{AnswersEntry};
ghost use Rattle.nx_handle.specs.Opening.{AnswersOpening};
ghost use Rattle.nx_handle.specs.Saving.{AnswersOpeningFrom, AnswersSaving};
ghost use Rattle.nx_handle.specs.Selecting.{AnswersSelecting, command_status};
ghost use Rattle.nx_live.specs.Answers.{AnswersBy, IsAbandoned, SetsMomentOf, TellsSendingsOf};

use crate::families::LentFamilies;
use crate::handle::NxLive;
use crate::lending::{COMBINING_ROOM, FAMILY_ROOM, ROOM, ROOM_ALIGNMENT};
use nx_combine::FamilyPlace;
use nx_handle::{CombiningPlace, LogEntry, PlainPlace};
use nx_receiver::Command;

/// Opens a receiver at a moment, in whole seconds since 1970-01-01 00:00:00 UTC: it has heard
/// nothing, remembers nothing, and everything is selected.
///
/// Where the answer isn't 0, the receiver stays as it was.
#[unsafe(no_mangle)]
pub extern "C" fn nx_live_open(receiver: &mut NxLive, moment: u64) -> u32
    ensures { AnswersBy (λ _ kind old new. AnswersOpening kind moment old new result)
        receiver.old.value receiver.new.value }
{
    prove!(size_of::<PlainPlace>() == ROOM);
    prove!(align_of::<PlainPlace>() == ROOM_ALIGNMENT);
    prove!(size_of::<CombiningPlace<LentFamilies>>() == COMBINING_ROOM);
    prove!(align_of::<CombiningPlace<LentFamilies>>() == ROOM_ALIGNMENT);
    prove!(size_of::<FamilyPlace>() == FAMILY_ROOM);
    prove!(align_of::<FamilyPlace>() == ROOM_ALIGNMENT);
    if receiver.combines() {
        nx_handle::open(receiver.combining(), moment)
    } else {
        nx_handle::open(receiver.plain(), moment)
    }
}

/// Opens a receiver from the state with which these bytes begin: it remembers the state's entries,
/// has its selection on each channel, and the greatest moment of an entry. What stands behind the
/// state isn't read. `NoChannel` where the state has anything of a channel that it doesn't have.
///
/// Where the answer isn't 0, the receiver stays as it was.
#[unsafe(no_mangle)]
pub extern "C" fn nx_live_open_from(receiver: &mut NxLive, state: &[u8]) -> u32
    ensures { AnswersBy (λ _ kind old new. AnswersOpeningFrom kind state.now old new result)
        receiver.old.value receiver.new.value }
{
    if receiver.combines() {
        nx_handle::open_from(receiver.combining(), state)
    } else {
        nx_handle::open_from(receiver.plain(), state)
    }
}

/// Sets the moment from here on, of all channels. Refused where it is past the year 2999, or before
/// the one in force; the receiver then stays as it was.
#[unsafe(no_mangle)]
pub extern "C" fn nx_live_set_moment(receiver: &mut NxLive, moment: u64) -> u32
    ensures { AnswersBy (λ _ kind old new. SetsMomentOf kind moment old new result)
        receiver.old.value receiver.new.value }
{
    if receiver.combines() {
        nx_handle::set_moment(receiver.combining(), moment)
    } else {
        nx_handle::set_moment(receiver.plain(), moment)
    }
}

/// Hears elements of a channel, by its number, each a byte, 1 for B and 0 for Y: up to and with the
/// one that ends the first copy that is printed. `heard` is how many it heard; the bytes of the
/// entry are copied into the caller's room, and `written` is their number, 0 where nothing is
/// printed: then it heard all.
///
/// There has to be room for the largest entry, so that none is lost. Where the answer isn't 0,
/// nothing is heard.
#[unsafe(no_mangle)]
pub extern "C" fn nx_live_hear(
    receiver: &mut NxLive,
    channel: u8,
    elements: &[u8],
    heard: &mut usize,
    log: &mut [u8],
    written: &mut usize,
) -> u32
    ensures { AnswersBy (λ _ kind old new. AnswersHearing kind channel elements.now old new
        heard.new (room log.old log.new written.new) result)
        receiver.old.value receiver.new.value }
{
    if receiver.combines() {
        nx_handle::hear(receiver.combining(), channel, elements, heard, log, written)
    } else {
        nx_handle::hear(receiver.plain(), channel, elements, heard, log, written)
    }
}

/// Tells from how many sendings of its message the entry is put together that a channel, by its
/// number, handed out last with `nx_live_hear`: 1 where each copy is judged alone. Where the answer
/// isn't 0, it tells 0.
#[unsafe(no_mangle)]
pub extern "C" fn nx_live_sendings(receiver: &mut NxLive, channel: u8, sendings: &mut u64) -> u32
    ensures { AnswersBy (λ _ kind old new. TellsSendingsOf kind channel old new sendings.new result)
        receiver.old.value receiver.new.value }
{
    if receiver.combines() {
        nx_handle::sendings(receiver.combining(), channel, sendings)
    } else {
        nx_handle::sendings(receiver.plain(), channel, sendings)
    }
}

/// Refuses a station, 'A' to 'Z', on a channel, for all its subjects, from here on.
#[unsafe(no_mangle)]
pub extern "C" fn nx_live_refuse_station(receiver: &mut NxLive, channel: u8, station: u8) -> u32
    ensures { AnswersBy (λ _ kind old new. AnswersSelecting kind
        (command_status channel (length old) (RefuseStation station))
        (events.refuse_station station) channel old new result)
        receiver.old.value receiver.new.value }
{
    if receiver.combines() {
        nx_handle::select(
            receiver.combining(),
            channel,
            Command::RefuseStation(station),
        )
    } else {
        nx_handle::select(receiver.plain(), channel, Command::RefuseStation(station))
    }
}

/// Refuses a station on a channel no longer, from here on.
#[unsafe(no_mangle)]
pub extern "C" fn nx_live_accept_station(receiver: &mut NxLive, channel: u8, station: u8) -> u32
    ensures { AnswersBy (λ _ kind old new. AnswersSelecting kind
        (command_status channel (length old) (AcceptStation station))
        (events.accept_station station) channel old new result)
        receiver.old.value receiver.new.value }
{
    if receiver.combines() {
        nx_handle::select(
            receiver.combining(),
            channel,
            Command::AcceptStation(station),
        )
    } else {
        nx_handle::select(receiver.plain(), channel, Command::AcceptStation(station))
    }
}

/// Refuses a subject on a channel, of all stations, from here on. A, B, D and L can't be refused
/// (ITU-R M.540).
#[unsafe(no_mangle)]
pub extern "C" fn nx_live_refuse_subject(receiver: &mut NxLive, channel: u8, subject: u8) -> u32
    ensures { AnswersBy (λ _ kind old new. AnswersSelecting kind
        (command_status channel (length old) (RefuseSubject subject))
        (events.refuse_subject subject) channel old new result)
        receiver.old.value receiver.new.value }
{
    if receiver.combines() {
        nx_handle::select(
            receiver.combining(),
            channel,
            Command::RefuseSubject(subject),
        )
    } else {
        nx_handle::select(receiver.plain(), channel, Command::RefuseSubject(subject))
    }
}

/// Refuses a subject on a channel no longer, from here on.
#[unsafe(no_mangle)]
pub extern "C" fn nx_live_accept_subject(receiver: &mut NxLive, channel: u8, subject: u8) -> u32
    ensures { AnswersBy (λ _ kind old new. AnswersSelecting kind
        (command_status channel (length old) (AcceptSubject subject))
        (events.accept_subject subject) channel old new result)
        receiver.old.value receiver.new.value }
{
    if receiver.combines() {
        nx_handle::select(
            receiver.combining(),
            channel,
            Command::AcceptSubject(subject),
        )
    } else {
        nx_handle::select(receiver.plain(), channel, Command::AcceptSubject(subject))
    }
}

/// Copies the text of a state into the caller's room, with which `nx_live_open_from` goes on: of
/// each channel the last 200 entries, and what is selected now; of a channel that the receiver
/// doesn't have, nothing. Copies that stand open are no part of it.
///
/// `written` is the length of the whole text; where there is no room for all of it, its first bytes
/// stand in the room. The receiver stays as it was.
#[unsafe(no_mangle)]
pub extern "C" fn nx_live_save(receiver: &mut NxLive, state: &mut [u8], written: &mut usize) -> u32
    ensures { AnswersBy (λ _ kind old new. AnswersSaving kind old new
        (room state.old state.new written.new) result)
        receiver.old.value receiver.new.value }
{
    if receiver.combines() {
        nx_handle::save(receiver.combining(), state, written)
    } else {
        nx_handle::save(receiver.plain(), state, written)
    }
}

/// Ends the elements of all channels, and hands out what their end prints, by channel: one entry a
/// call, whose bytes are copied into the caller's room. `written` is their number, and 0 where none
/// is left: the receiver is closed then, and its room serves again. From the first call on it hears
/// nothing more.
///
/// There has to be room for the largest entry, so that none is lost. Where the answer isn't 0, the
/// receiver stays as it was.
#[unsafe(no_mangle)]
pub extern "C" fn nx_live_close(receiver: &mut NxLive, log: &mut [u8], written: &mut usize) -> u32
    ensures { AnswersBy (λ _ kind old new. AnswersClosing kind old new
        (room log.old log.new written.new) result)
        receiver.old.value receiver.new.value }
{
    if receiver.combines() {
        nx_handle::close(receiver.combining(), log, written)
    } else {
        nx_handle::close(receiver.plain(), log, written)
    }
}

/// Closes a receiver, and prints nothing. Its room serves again.
#[unsafe(no_mangle)]
pub extern "C" fn nx_live_abandon(receiver: &mut NxLive)
    ensures { AnswersBy (λ _ kind old new. IsAbandoned kind old new)
        receiver.old.value receiver.new.value }
{
    if receiver.combines() {
        nx_handle::abandon(receiver.combining());
    } else {
        nx_handle::abandon(receiver.plain());
    }
}

/// Reads the entry of a log with which the bytes begin, whatever stands behind it: tells what it
/// says, and copies its text into the caller's room. `NoEntry` where they begin with none; `NoRoom`
/// where the text is longer than the room.
///
/// The receiver, open or closed, stays as it is: only where the library is made into C by another
/// tool does that work in the receiver's room.
#[unsafe(no_mangle)]
pub extern "C" fn nx_live_log_entry(
    _receiver: &NxLive,
    bytes: &[u8],
    entry: &mut LogEntry,
    text: &mut [u8],
    written: &mut usize,
) -> u32
    ensures { AnswersEntry bytes.now entry.old entry.new
        (room text.old text.new written.new) result }
{
    nx_handle::log_entry(bytes, entry, text, written)
}
