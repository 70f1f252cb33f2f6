//! Saving a receiver, and opening one from what is saved.

ghost use Rattle.std.specs.Prelude.{◌≡◌, ◌<◌, ◌≤◌, ◌↔◌, ◌∷◌, ◌++◌, ℕ, [], length, IfErr, IfOk, IsTrue, List, None, OnOk, Some, true};
ghost use Rattle.nx_envelope.specs.Moment.{last_moment};
ghost use Rattle.nx_fec.specs.air_files.Channels.{channel_number};
ghost use Rattle.nx_fec.specs.declared.air_files.channel.Channel.{Channel as TheChannel};
ghost use Rattle.nx_copies.specs.Events.{Event, Start};
ghost use Rattle.nx_copies.specs.copies.FoundCopies.{TaggedCopy};
ghost use Rattle.nx_copies.specs.copies.Shares.{saved_of, start_on, starts_from};
ghost use Rattle.nx_memory.specs.Memory.{newest_moment};
ghost use Rattle.nx_memory.specs.Saved.{AreSavedStates, nothing_saved};
ghost use Rattle.nx_memory.specs.Selection.{IsRefusable};
ghost use Rattle.nx_memory.specs.StateText.{IsStateText};
ghost use Rattle.nx_receiver.specs.air_file_runs.State.{BeginsWith, state_bytes};
ghost use Rattle.nx_handle.specs.Life.{HasHeard};
ghost use Rattle.nx_handle.specs.PlaceKinds.{HasBegun, start_with};
ghost use Rattle.nx_handle.specs.Places.{HaveRoom, all_hear, place_on};
ghost use Rattle.nx_handle.specs.Saving.{AnswersOpeningFrom, AnswersSaving, HasNoMore, HasNothing, RefusesLetter, RefusesNone, RefusesState, RefusesText};
ghost use Rattle.nx_handle.specs.private.Opening.{ShutSame};
ghost use Rattle.nx_handle.specs.private.Saving.{IsFirstLine, RefusesEnd, StandsNext};
ghost use Rattle.nx_handle.specs.CallerRoom.{IsCopiedOut, room};

use crate::caller_room::{after_copying_out, copy_more_out, copy_out};
use crate::kept_place::KeptPlace;
use crate::places::{all_hear, are_closed, channel_at, close_all};
use crate::status::Status;
use nx_envelope::Letter;
use nx_fec::Channel;
use nx_memory::{MAX_STATE_LINE, PlainRecall, Saved, SavedSet, Selection, StateReader, state_line};

/// Copies the text of a state into the caller's room, with which `open_from` goes on: of each
/// channel the last 200 entries, and what is selected now; of a channel that the receiver doesn't
/// have, nothing. Copies that stand open are no part of it, nor are families. It has at most
/// 11,001 bytes.
///
/// `Closed` where the receiver is closed, or its end has begun; then nothing is copied. Else
/// `NoRoom` where there is no room for all of the text, whose first bytes stand in the room then;
/// else `Done`. `written` is the length of the whole text. The receiver stays as it was.
pub fn save<P: KeptPlace>(places: &[P], state: &mut [u8], written: &mut usize) -> u32
    ensures { AnswersSaving P.kind places.now places.now
        (room state.old state.new written.new) result }
{
    if !all_hear(places) {
        copy_out(&[], state, written);
        return Status::Closed.number();
    }
    copy_state_out(&left_by(places), state, written);
    after_copying_out(*written, state.len(), Status::Done).number()
}

/// What the channels leave.
// Built in the place of its caller.
#[inline(always)]
fn left_by<P: KeptPlace>(places: &[P]) -> SavedSet
    ensures leaves { (channel : TheChannel) (place : P)
        → place_on places.now channel ≡ Some place
        → (held : ℕ) (start : Start) (history : List Event) (log : List TaggedCopy)
        → P.kind.stands held start place history log
        → P.kind.leaves held start history (saved_of result channel) }
    ensures others { (channel : TheChannel) → place_on places.now channel ≡ None
        → saved_of result channel ≡ nothing_saved }
{
    SavedSet::of(
        P::left_on(places, Channel::Zero),
        P::left_on(places, Channel::One),
        P::left_on(places, Channel::Two),
    )
}

/// Copies the text of a state into the caller's room, line by line.
fn copy_state_out(states: &SavedSet, space: &mut [u8], written: &mut usize)
    ensures copied { IsCopiedOut (state_bytes states.now) (room space.old space.new written.new) }
    ensures sound { AreSavedStates states.now }
{
    copy_out(&[], space, written);
    let mut place = 0;
    while let Some(line) = state_line(states, place) {
        copy_more_out(&line, space, written);
        copy_more_out(b"\n", space, written);
        place += 1;
    }
}

/// Opens a receiver from the state with which these bytes begin: it remembers the state's entries,
/// has its selection on each channel, and the greatest moment of an entry. What stands behind the
/// state isn't read.
///
/// `AlreadyOpen` where it is open; else `StateLine` where a line can't stand where it stands; else
/// `StateCut` where the bytes end before the state; else `NoChannel` where the state has anything
/// of a channel that the receiver doesn't have; else `Done`. Where it isn't `Done`, the receiver
/// stays as it was.
pub fn open_from<P: KeptPlace>(places: &mut [P], state: &[u8]) -> u32
    requires some { 0 < length places.old }
    requires few { length places.old ≤ 3 }
    ensures { AnswersOpeningFrom P.kind state.now places.old places.new result }
{
    if !are_closed(places) {
        return Status::AlreadyOpen.number();
    }
    match begin_all(places, state) {
        Ok(()) => 0,
        Err(status) => {
            close_all(places);
            status.number()
        }
    }
}

/// Gives each channel a receiver that starts with the state with which these bytes begin, and has
/// heard nothing. Or the status that says why they begin with no state of these channels.
fn begin_all<P: KeptPlace>(places: &mut [P], state: &[u8]) -> Result<(), Status>
    requires some { 0 < length places.old }
    requires few { length places.old ≤ 3 }
    ensures ok { OnOk result (BeginsWith state.now (λ states more.
        HasNoMore (length places.old) states
        × ((held : ℕ) → HaveRoom P.kind held places.old
        → HasHeard P.kind held (starts_from states) places.new [] []))) }
    ensures err { IfErr result (RefusesState (length places.old) state.now) }
    ensures shut { ShutSame P.kind places.old places.new }
{
    let count = places.len();
    for at in 0..count {
        begin_from(&mut places[at], state, channel_at(at), count)?;
    }
    Ok(())
}

/// Gives a channel, of so many, a receiver that starts with what is saved of the channel in the
/// state with which these bytes begin, and has heard nothing. Or the status that says why they
/// begin with no state of these channels.
// The state is read once for each channel, so that what is saved of the others takes no stack.
#[inline(never)]
fn begin_from<P: KeptPlace>(
    place: &mut P,
    state: &[u8],
    channel: Channel,
    count: usize,
) -> Result<(), Status>
    requires { 0 < count }
    ensures ok { OnOk result (BeginsWith state.now (λ states more. HasNoMore count states
        × HasBegun P.kind place.old place.new (start_on (starts_from states) channel))) }
    ensures room { P.kind.shut place.new ≡ P.kind.shut place.old }
    ensures err { IfErr result (RefusesState count state.now) }
{
    let mut memory = no_entries();
    let mut selection = Selection::all();
    let moment = match load_from(state, channel, count, &mut memory, &mut selection) {
        Ok(moment) => moment,
        Err(status) => return Err(status),
    };
    place.begin(&mut memory, moment, selection);
    Ok(())
}

/// A memory with no entry.
// A call, so that what making one takes of the stack is free again.
#[inline(never)]
fn no_entries() -> PlainRecall
    ensures { result ≡ [] }
{
    PlainRecall::new()
}

/// Enters what is saved of a channel into a memory that has no entry, and gives its selection:
/// answers the greatest moment of an entry of any channel, 0 where there is none. Or the status
/// that says why these bytes begin with no state of so many channels.
// A call, so that its stack is free again before the receiver is made. The work stands in a
// function that becomes part of it: what is so optimised twice takes 20 kB of stack, and else 49.
#[inline(never)]
fn load_from(
    state: &[u8],
    channel: Channel,
    count: usize,
    memory: &mut PlainRecall,
    selection: &mut Selection,
) -> Result<u64, Status>
    requires some { 0 < count }
    requires empty { memory.old ≡ [] }
    ensures ok { IfOk result (λ moment. BeginsWith state.now (λ states more.
        HasNoMore count states
        × (start_on (starts_from states) channel ≡ start_with memory.new moment selection.new))) }
    ensures newest { IfOk result (λ moment. newest_moment memory.new ≤ moment) }
    ensures range { IfOk result (λ moment. moment ≤ last_moment) }
    ensures err { IfErr result (RefusesState count state.now) }
{
    load_saved(state, channel, count, memory, selection)
}

/// Does what `load_from` does.
fn load_saved(
    state: &[u8],
    channel: Channel,
    count: usize,
    memory: &mut PlainRecall,
    selection: &mut Selection,
) -> Result<u64, Status>
    requires some { 0 < count }
    requires empty { memory.old ≡ [] }
    ensures ok { IfOk result (λ moment. BeginsWith state.now (λ states more.
        HasNoMore count states
        × (start_on (starts_from states) channel ≡ start_with memory.new moment selection.new))) }
    ensures newest { IfOk result (λ moment. newest_moment memory.new ≤ moment) }
    ensures range { IfOk result (λ moment. moment ≤ last_moment) }
    ensures err { IfErr result (RefusesState count state.now) }
{
    let mut text = StateReader::new();
    let last = match read_lines(state, &mut text) {
        Ok(last) => last,
        Err(status) => return Err(status),
    };
    let states = match ended_within(&text, last, count) {
        Ok(states) => states,
        Err(status) => return Err(status),
    };
    let saved = saved_on(states, channel);
    saved.load(memory);
    *selection = saved.selection();
    Ok(states.newest().unwrap_or(0))
}

/// What is saved of a channel.
fn saved_on(states: &SavedSet, channel: Channel) -> &Saved
    ensures { result.now ≡ saved_of states.now channel }
{
    let Some(saved) = states.get(channel.number()) else {
        unreachable!()
    };
    saved
}

/// What the text stands for that these lines and this last one are, where it has nothing of
/// channels behind the first so many. Or the status that says why not.
// A call, so that `load_saved` stays small enough to become part of `load_from`.
#[inline(never)]
fn ended_within<'a>(
    text: &'a StateReader,
    last: &[u8],
    count: usize,
) -> Result<&'a SavedSet, Status>
    requires { 0 < count }
    ensures ok { IfOk result (λ states. IsStateText (text.now ++ last.now ∷ []) states.now
        × HasNoMore count states.now) }
    ensures err { IfErr result (RefusesEnd count text.now last.now) }
{
    let Some(states) = text.ended(last) else {
        return Err(Status::StateLine);
    };
    if !has_no_more(states, count) {
        return Err(Status::NoChannel);
    }
    Ok(states)
}

/// Whether a state has nothing of channels behind the first so many.
fn has_no_more(states: &SavedSet, count: usize) -> bool
    requires { 0 < count }
    ensures { IsTrue result ↔ HasNoMore count states.now }
{
    is_within(states, Channel::One, count) && is_within(states, Channel::Two, count)
}

/// Whether a channel is one of the first so many, or a state has nothing of it.
fn is_within(states: &SavedSet, channel: Channel, count: usize) -> bool
    ensures { IsTrue result
        ↔ (count ≤ channel_number channel → HasNothing (saved_of states.now channel)) }
{
    usize::from(channel.number()) < count || has_nothing(saved_on(states, channel))
}

/// Whether nothing is saved of a channel: there is no entry, and no letter is refused.
fn has_nothing(saved: &Saved) -> bool
    ensures { IsTrue result ↔ HasNothing saved.now }
{
    saved.count() == 0 && refuses_none(&saved.selection())
}

/// Whether a selection refuses no station and no subject.
fn refuses_none(selection: &Selection) -> bool
    ensures { IsTrue result ↔ RefusesNone selection.now }
{
    for byte in b'A'..b'Z' + 1 {
        let Some(letter) = Letter::new(byte) else {
            unreachable!()
        };
        if refuses_letter(selection, letter) {
            return false;
        }
    }
    true
}

/// Whether a selection refuses the station or the subject of a letter.
fn refuses_letter(selection: &Selection, letter: Letter) -> bool
    ensures refused { IsTrue result ↔ RefusesLetter selection.now letter.byte }
    ensures refusable { IsRefusable selection.now }
{
    selection.refuses_station(letter) || selection.refuses_subject(letter)
}

/// Reads the lines of the text of a state with which these bytes begin, up to one that the reader,
/// which has taken none, doesn't take: that line. Or the status that says why these bytes begin
/// with no state.
// A call, so that its stack is free again before the receivers are made.
#[inline(never)]
fn read_lines<'a>(bytes: &'a [u8], text: &mut StateReader) -> Result<&'a [u8], Status>
    requires { text.old ≡ [] }
    ensures ok { IfOk result (λ line. StandsNext text.new line.now bytes.now) }
    ensures err { IfErr result (RefusesText bytes.now) }
{
    let mut at = 0;
    loop {
        let count = match first_line(&bytes[at..]) {
            Ok(count) => count,
            Err(status) => return Err(status),
        };
        let line = &bytes[at..at + count];
        if !text.take(line) {
            return Ok(line);
        }
        at += count + 1;
    }
}

/// How many bytes the line has with which these begin, without its line feed. `StateLine` where it
/// is too long for any line of a state, and `StateCut` where it has no line feed.
fn first_line(bytes: &[u8]) -> Result<usize, Status>
    ensures { IsFirstLine bytes.now result }
{
    let mut count = 0;
    while count < bytes.len() {
        if bytes[count] == b'\n' {
            return Ok(count);
        }
        if count == MAX_STATE_LINE {
            return Err(Status::StateLine);
        }
        count += 1;
    }
    Err(Status::StateCut)
}
