//! The calls of a receiver. Each does with the places of its channels what `nx_handle` does, be
//! they plain ones or such as take the sendings of a message together.

ghost use Rattle.std.specs.Prelude.{◌≡◌, ◌≢◌, IfSome, None, true, false, ⊤};
ghost use Rattle.nx_c.specs.ByKind.{AnswersBy, is_closed, three_closed};
ghost use Rattle.nx_c.specs.Opening.{LacksMemory, OpensAt, OpensFromState};
ghost use Rattle.nx_copies.specs.Events as events;
ghost use Rattle.nx_receiver.specs.air_file_runs.State.{BeginsWith};
ghost use Rattle.nx_receiver.specs.declared.command.Command.TheVariants.{RefuseStation, AcceptStation, RefuseSubject, AcceptSubject};
ghost use Rattle.nx_handle.specs.CallerRoom.{room};
ghost use Rattle.nx_handle.specs.Closing.{AnswersClosing};
ghost use Rattle.nx_handle.specs.Hearing.{AnswersHearing};
ghost use Rattle.nx_handle.specs.Opening.{AnswersMoment, AnswersOpening, opening_status};
ghost use Rattle.nx_handle.specs.Places.{all_hear};
ghost use Rattle.nx_handle.specs.Saving.{AnswersOpeningFrom, AnswersSaving};
ghost use Rattle.nx_handle.specs.Selecting.{AnswersSelecting, command_status};
ghost use Rattle.nx_handle.specs.Sendings.{AnswersSendings};
ghost use Rattle.nx_handle.specs.Status.{number_of};
ghost use Rattle.nx_handle.specs.declared.status.Status.TheVariants.{Done, Memory};

use crate::receiver::handle::NxReceiver;
use crate::receiver::open_receiver::OpenReceiver;
use nx_combine::MAX_FAMILIES;
use nx_handle::{PlainPlace, Status, copy_out};
use nx_receiver::Command;
use std::alloc::Global;

/// Opens a receiver at a moment, in whole seconds since 1970-01-01 00:00:00 UTC: it has heard
/// nothing, remembers nothing, and everything is selected. It holds so many families on each
/// channel, for which the sendings of a message are taken together; with 0 each is taken alone.
/// Takes all memory that it ever needs.
///
/// `AlreadyOpen` where it is open; else `TooManyFamilies` where they are more than 200; else
/// `MomentRange` where the moment is past the year 2999; else `Done`, or `Memory` where there is
/// none. Where it isn't `Done`, the receiver stays as it was.
#[unsafe(no_mangle)]
pub extern "C" fn nx_open(
    alloc: Global,
    receiver: &mut NxReceiver,
    moment: u64,
    families: usize,
) -> u32
    ensures { OpensAt moment families receiver.old.value receiver.new.value result }
{
    if receiver.is_open(alloc) {
        return Status::AlreadyOpen.number();
    }
    if families > MAX_FAMILIES {
        return Status::TooManyFamilies.number();
    }
    let Ok(mut opened) = OpenReceiver::closed(alloc, families) else {
        return open_without_memory(moment);
    };
    let status = opened.open(moment);
    if status == Status::Done.number() {
        receiver.hold(opened, alloc);
    }
    status
}

/// Opens a receiver from the state with which these bytes begin, with so many families on each
/// channel: it remembers the state's entries, has its selection on each channel, and the greatest
/// moment of an entry. What stands behind the state isn't read.
///
/// `AlreadyOpen` where it is open; else `TooManyFamilies` where they are more than 200; else
/// `StateLine` or `StateCut` where the bytes begin with no state; else `Done`, or `Memory` where
/// there is none. Where it isn't `Done`, the receiver stays as it was.
#[unsafe(no_mangle)]
pub extern "C" fn nx_open_from(
    alloc: Global,
    receiver: &mut NxReceiver,
    state: &[u8],
    families: usize,
) -> u32
    ensures { OpensFromState state.now families receiver.old.value receiver.new.value result }
{
    if receiver.is_open(alloc) {
        return Status::AlreadyOpen.number();
    }
    if families > MAX_FAMILIES {
        return Status::TooManyFamilies.number();
    }
    let Ok(mut opened) = OpenReceiver::closed(alloc, families) else {
        return open_from_without_memory(state);
    };
    let status = opened.open_from(state);
    if status == Status::Done.number() {
        receiver.hold(opened, alloc);
    }
    status
}

/// What opening at a moment answers where there is no memory for it.
// A call, so that these places take stack only here.
#[inline(never)]
fn open_without_memory(moment: u64) -> u32
    ensures { LacksMemory (λ P kind old new. AnswersOpening kind moment old new result)
        (opening_status true moment ≡ Done) result }
{
    without_memory(nx_handle::open(&mut closed_places(), moment))
}

/// What opening from a state answers where there is no memory for it.
// A call as well.
#[inline(never)]
fn open_from_without_memory(state: &[u8]) -> u32
    ensures { LacksMemory (λ P kind old new. AnswersOpeningFrom kind state.now old new result)
        (BeginsWith state.now (λ states more. ⊤)) result }
{
    without_memory(nx_handle::open_from(&mut closed_places(), state))
}

/// The places of three channels of a closed receiver, which has no memory.
fn closed_places() -> [PlainPlace; 3]
    ensures { result ≡ three_closed }
{
    [PlainPlace::Closed, PlainPlace::Closed, PlainPlace::Closed]
}

/// The number of the status of opening without memory, by that of opening places that need none:
/// what is refused is told first.
fn without_memory(status: u32) -> u32
    ensures done { status ≡ number_of Done → result ≡ number_of Memory }
    ensures refused { status ≢ number_of Done → result ≡ status }
{
    if status == Status::Done.number() {
        return Status::Memory.number();
    }
    status
}

/// Sets the moment from here on, of all channels. `MomentRange` where it is past the year 2999,
/// `MomentBack` where it is before the one in force; the receiver then stays as it was.
#[unsafe(no_mangle)]
pub extern "C" fn nx_set_moment(alloc: Global, receiver: &mut NxReceiver, moment: u64) -> u32
    ensures { AnswersBy (λ P kind old new. AnswersMoment kind moment old new result
        (all_hear kind old)) receiver.old.value receiver.new.value }
{
    let Some(mut opened) = receiver.take(alloc) else {
        return Status::Closed.number();
    };
    let status = opened.set_moment(moment);
    receiver.hold(opened, alloc);
    status
}

/// Hears elements of a channel, 0 to 2, each a byte, 1 for B and 0 for Y: up to and with the one
/// that ends the first copy that is printed. `heard` is how many it heard; the bytes of the entry
/// are copied into the caller's room, and `written` is their number, 0 where nothing is printed:
/// then it heard all. Takes no memory.
///
/// There has to be room for the largest entry, so that none is lost. Where the answer isn't `Done`,
/// nothing is heard.
#[unsafe(no_mangle)]
pub extern "C" fn nx_hear(
    alloc: Global,
    receiver: &mut NxReceiver,
    channel: u8,
    elements: &[u8],
    heard: &mut usize,
    log: &mut [u8],
    written: &mut usize,
) -> u32
    ensures { AnswersBy (λ P kind old new. AnswersHearing kind channel elements.now old new
        heard.new (room log.old log.new written.new) result)
        receiver.old.value receiver.new.value }
{
    let Some(mut opened) = receiver.take(alloc) else {
        *heard = 0;
        copy_out(&[], log, written);
        return Status::Closed.number();
    };
    let status = opened.hear(channel, elements, heard, log, written);
    receiver.hold(opened, alloc);
    status
}

/// Tells from how many sendings the entry is put together that a channel, 0 to 2, printed last.
///
/// `Closed` where the receiver is closed, or its end has begun; else `NoChannel` where there is no
/// such channel; else `Done`. Where it isn't `Done`, 0 is told. The receiver stays as it was.
#[unsafe(no_mangle)]
pub extern "C" fn nx_sendings(
    alloc: Global,
    receiver: &mut NxReceiver,
    channel: u8,
    sendings: &mut u64,
) -> u32
    ensures tells { AnswersBy (λ P kind places same. AnswersSendings kind channel places
        sendings.new result) receiver.old.value receiver.new.value }
    ensures unchanged { receiver.new.value ≡ receiver.old.value }
{
    let Some(opened) = receiver.take(alloc) else {
        *sendings = 0;
        return Status::Closed.number();
    };
    let status = opened.sendings(channel, sendings);
    receiver.hold(opened, alloc);
    status
}

/// Refuses a station, 'A' to 'Z', on a channel, for all its subjects, from here on.
#[unsafe(no_mangle)]
pub extern "C" fn nx_refuse_station(
    alloc: Global,
    receiver: &mut NxReceiver,
    channel: u8,
    station: u8,
) -> u32
    ensures { AnswersBy (λ P kind old new. AnswersSelecting kind
        (command_status channel 3 (RefuseStation station)) (events.refuse_station station)
        channel old new result) receiver.old.value receiver.new.value }
{
    let Some(mut opened) = receiver.take(alloc) else {
        return Status::Closed.number();
    };
    let status = opened.select(channel, Command::RefuseStation(station));
    receiver.hold(opened, alloc);
    status
}

/// Refuses a station on a channel no longer, from here on.
#[unsafe(no_mangle)]
pub extern "C" fn nx_accept_station(
    alloc: Global,
    receiver: &mut NxReceiver,
    channel: u8,
    station: u8,
) -> u32
    ensures { AnswersBy (λ P kind old new. AnswersSelecting kind
        (command_status channel 3 (AcceptStation station)) (events.accept_station station)
        channel old new result) receiver.old.value receiver.new.value }
{
    let Some(mut opened) = receiver.take(alloc) else {
        return Status::Closed.number();
    };
    let status = opened.select(channel, Command::AcceptStation(station));
    receiver.hold(opened, alloc);
    status
}

/// Refuses a subject on a channel, of all stations, from here on. `Vital` where it is A, B, D or L,
/// which can't be refused (ITU-R M.540).
#[unsafe(no_mangle)]
pub extern "C" fn nx_refuse_subject(
    alloc: Global,
    receiver: &mut NxReceiver,
    channel: u8,
    subject: u8,
) -> u32
    ensures { AnswersBy (λ P kind old new. AnswersSelecting kind
        (command_status channel 3 (RefuseSubject subject)) (events.refuse_subject subject)
        channel old new result) receiver.old.value receiver.new.value }
{
    let Some(mut opened) = receiver.take(alloc) else {
        return Status::Closed.number();
    };
    let status = opened.select(channel, Command::RefuseSubject(subject));
    receiver.hold(opened, alloc);
    status
}

/// Refuses a subject on a channel no longer, from here on.
#[unsafe(no_mangle)]
pub extern "C" fn nx_accept_subject(
    alloc: Global,
    receiver: &mut NxReceiver,
    channel: u8,
    subject: u8,
) -> u32
    ensures { AnswersBy (λ P kind old new. AnswersSelecting kind
        (command_status channel 3 (AcceptSubject subject)) (events.accept_subject subject)
        channel old new result) receiver.old.value receiver.new.value }
{
    let Some(mut opened) = receiver.take(alloc) else {
        return Status::Closed.number();
    };
    let status = opened.select(channel, Command::AcceptSubject(subject));
    receiver.hold(opened, alloc);
    status
}

/// Copies the text of a state into the caller's room, with which `nx_open_from` goes on: of each
/// channel the last 200 entries, and what is selected now. Copies that stand open are no part of
/// it.
///
/// `written` is the length of the whole text; where there is no room for all of it, its first bytes
/// stand in the room, and all done is told as `NoRoom`. The receiver stays as it was.
#[unsafe(no_mangle)]
pub extern "C" fn nx_save(
    alloc: Global,
    receiver: &mut NxReceiver,
    state: &mut [u8],
    written: &mut usize,
) -> u32
    ensures { AnswersBy (λ P kind old new. AnswersSaving kind old new
        (room state.old state.new written.new) result) receiver.old.value receiver.new.value }
{
    let Some(opened) = receiver.take(alloc) else {
        copy_out(&[], state, written);
        return Status::Closed.number();
    };
    let status = opened.save(state, written);
    receiver.hold(opened, alloc);
    status
}

/// Ends the elements of all channels, and hands out what their end prints, by channel: one entry a
/// call, whose bytes are copied into the caller's room. `written` is their number, and 0 where none
/// is left: the receiver is closed then. From the first call on it hears nothing more.
///
/// There has to be room for the largest entry, so that none is lost. Where the answer isn't `Done`,
/// the receiver stays as it was.
#[unsafe(no_mangle)]
pub extern "C" fn nx_close(
    alloc: Global,
    receiver: &mut NxReceiver,
    log: &mut [u8],
    written: &mut usize,
) -> u32
    ensures closes { AnswersBy (λ P kind old new. AnswersClosing kind old new
        (room log.old log.new written.new) result) receiver.old.value receiver.new.value }
    ensures closed { IfSome receiver.new.value (λ opened. is_closed opened ≡ false) }
{
    let Some(mut opened) = receiver.take(alloc) else {
        copy_out(&[], log, written);
        return Status::Closed.number();
    };
    let status = opened.close(log, written);
    if opened.is_closed() {
        return status;
    }
    receiver.hold(opened, alloc);
    status
}

/// Closes a receiver, prints nothing, and gives its memory back. One that is closed stays so.
#[unsafe(no_mangle)]
pub extern "C" fn nx_abandon(alloc: Global, receiver: &mut NxReceiver)
    ensures { receiver.new.value ≡ None }
{
    drop(receiver.take(alloc));
}
