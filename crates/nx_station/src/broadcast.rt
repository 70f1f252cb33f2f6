//! The emission of a list of messages (M.540, form of a message; M.625, mode B, for phasing and the
//! end).
ghost use Rattle.std.specs.Prelude.{◌≡◌, ◌≢◌, ◌<◌, ◌≤◌, ◌==◌, ◌+◌, ◌++◌, ◌∷◌, ℕ, List, [], IfOk, IfErr, IsTrue, OnOk, length, map, not, position, replicate, slice_index_or, take};
ghost use Rattle.std.specs.List.{AllByRecursion, list_all};
ghost use Rattle.nx_code.specs.Reading.{is_in_code};
ghost use Rattle.nx_code.specs.Spelling.{Spells};
ghost use Rattle.nx_code.specs.declared.shifts.Shift.TheVariants.{Figures};
ghost use Rattle.nx_envelope.specs.Message.{AreLines, text_of, MessageView};
ghost use Rattle.nx_fec.specs.emissions.Emission.{sent_position, traffic_position};
ghost use Rattle.nx_station.specs.Broadcast.{IsBroadcast, IsSpelled, ending, phasing_and_message};
ghost use Rattle.nx_station.specs.private.MessageParts.{IsExtent};
ghost use Rattle.nx_station.specs.Sendable.{AreOf, HavePositions, IsRefusal, IsSendable, HasSlots};

use crate::fault::SendFault;
use crate::heads::{ENDING, HEAD, ending_len, head_of};
use crate::slots::has_slots;
use nx_code::{Comb, Extent, NEWLINE, Shift, SpellFault, extent_of, spell};
use nx_envelope::{Letter, Message};
use nx_fec::Position;
use std::alloc::{AllocError, Global};

/// The most positions of an emission, which a slot has room for.
const MAX_POSITIONS: u128 = 4286;

/// How many positions of phasing come before the first message.
const FIRST_PHASING: usize = 72;

/// How many positions of phasing come before each further message.
const FURTHER_PHASING: usize = 36;

/// How many positions end an emission.
const ENDS: usize = 3;

/// How many combinations end a line of text, carriage return and line feed.
const LINE_END_COMBS: u64 = 2;

/// The emission of messages of one station, at most 4,286 positions (M.540). It has 72 positions of
/// phasing and the first message, 36 of phasing before each further message, and three of the end.
/// The counts of phasing are this profile's.
///
/// `NoMessages`, then `MixedStations` where a message is of another station than the first, then
/// `NoSlot` where that station is Y or Z, then `SlotFull`, all before any memory is taken; then
/// `Memory`.
pub fn emission(alloc: Global, messages: &[Message]) -> Result<Vec<Position>, SendFault>
    ensures positions { IfOk result (λ positions.
        IsBroadcast messages.now (map sent_position positions.items)) }
    ensures sendable { IfOk result (λ positions. IsSendable messages.now) }
    ensures refused { IfErr result (IsRefusal messages.now) }
{
    check_stations(messages)?;
    let count = count_positions(messages);
    if count > MAX_POSITIONS {
        return Err(SendFault::SlotFull { positions: count });
    }
    match broadcast(alloc, messages) {
        Ok(positions) => Ok(positions),
        Err(error) => Err(SendFault::Memory(error)),
    }
}

/// Checks that there are messages, all of one station, which has slots.
fn check_stations(messages: &[Message]) -> Result<(), SendFault>
    ensures ok { OnOk result ((station : ℕ) × AreOf station messages.now × HasSlots station) }
    ensures refused { IfErr result (IsRefusal messages.now) }
{
    let Some(first) = messages.first() else {
        return Err(SendFault::NoMessages);
    };
    let station = first.identity().b1();
    if let Some(at) = first_of_another(station, messages) {
        return Err(SendFault::MixedStations { at: at as u64 });
    }
    if !has_slots(station) {
        return Err(SendFault::NoSlot);
    }
    Ok(())
}

/// The least index of a message that is of another station.
fn first_of_another(station: Letter, messages: &[Message]) -> Option<usize>
    ensures { result ≡ position
        (λ (message : MessageView). not (message.identity.b1.byte == station.byte)) messages.now }
{
    messages
        .iter()
        .position(|message| message.identity().b1().byte() != station.byte())
}

/// How many positions the emission of messages has.
fn count_positions(messages: &[Message]) -> u128
    requires { messages.now ≢ [] }
    ensures count { HavePositions messages.now result }
    ensures sound { AllByRecursion
        (λ (message : MessageView). AreLines message.lines) messages.now }
{
    let mut count = 0u128;
    for message in messages {
        count += FURTHER_PHASING as u128 + u128::from(count_combs(message));
    }
    count + (FIRST_PHASING - FURTHER_PHASING + ENDS) as u128
}

/// How many combinations a message has.
fn count_combs(message: &Message) -> u64
    ensures spelled { (numbers : List ℕ) × IsSpelled message.now numbers
        × (result ≡ length numbers) }
    ensures few { result ≤ 8213 }
    ensures sound { AreLines message.now.lines }
{
    let extent = extent_of_text(message);
    HEAD as u64 + extent.length + ending_len(extent.shift)
}

/// The extent of the spelling of a message's text, from the figure shift of its head on.
fn extent_of_text(message: &Message) -> Extent
    ensures spells { IsExtent (text_of message.now.lines) result }
    ensures few { result.length ≤ 8192 }
    ensures sound { AreLines message.now.lines }
{
    let mut extent = Extent {
        length: 0,
        shift: Shift::Figures,
    };
    for i in 0..message.line_count() {
        let line = line_at(message, i);
        let more = extent_of(line, extent.shift).unwrap();
        extent = Extent {
            length: extent.length + more.length + LINE_END_COMBS,
            shift: more.shift,
        };
    }
    extent
}

/// The line of a message at a place, from 0.
fn line_at(message: &Message, i: u64) -> &[u8]
    requires { i < length message.now.lines }
    ensures line { result.now ≡ slice_index_or message.now.lines i [] }
    ensures in_code { IsTrue (list_all is_in_code result.now) }
    ensures text { text_of (take (i + 1) message.now.lines)
        ≡ text_of (take i message.now.lines) ++ (result.now ++ 10 ∷ []) }
    ensures few { length (text_of (take (i + 1) message.now.lines)) ≤ 4096 }
{
    message.line(i).unwrap()
}

/// The positions of messages.
fn broadcast(alloc: Global, messages: &[Message]) -> Result<Vec<Position>, AllocError>
    ensures { IfOk result (λ positions.
        IsBroadcast messages.now (map sent_position positions.items)) }
{
    let mut positions = Vec::new(alloc);
    let Some((first, others)) = messages.split_first() else {
        return Ok(positions);
    };
    push_message(alloc, &mut positions, FIRST_PHASING, first)?;
    for message in others {
        push_message(alloc, &mut positions, FURTHER_PHASING, message)?;
    }
    push_many(&mut positions, ENDS, Position::End)?;
    Ok(positions)
}

/// Appends positions of phasing, so many, and a message.
fn push_message(
    alloc: Global,
    positions: &mut Vec<Position>,
    phasing: usize,
    message: &Message,
) -> Result<(), AllocError>
    ensures { OnOk result ((numbers : List ℕ) × IsSpelled message.now numbers
        × (map sent_position positions.new.items
        ≡ map sent_position positions.old.items ++ phasing_and_message phasing numbers)) }
{
    push_many(positions, phasing, Position::Phasing)?;
    push_combs(positions, &head_of(message.identity()))?;
    let text = spelled_text(alloc, message)?;
    push_combs(positions, &text)?;
    push_ending(positions, extent_of_text(message).shift)
}

/// Appends the end of a message, by the shift that its text leaves in force.
fn push_ending(positions: &mut Vec<Position>, shift: Shift) -> Result<(), AllocError>
    ensures { OnOk result (map sent_position positions.new.items
        ≡ map sent_position positions.old.items ++ map traffic_position (ending shift)) }
{
    match shift {
        Shift::Letters => push_combs(positions, &ENDING),
        Shift::Figures => {
            push_combs(positions, &[Comb::LETTER_SHIFT])?;
            push_combs(positions, &ENDING)
        }
    }
}

/// The text of a message, spelled from the figure shift of its head on.
fn spelled_text(alloc: Global, message: &Message) -> Result<Vec<Comb>, AllocError>
    ensures { IfOk result (λ combs.
        Spells (text_of message.now.lines) Figures (map (λ comb. comb.number) combs.items)) }
{
    let text = text_bytes(alloc, message)?;
    match spell(alloc, &text, Shift::Figures) {
        Ok(combs) => Ok(combs),
        Err(SpellFault::Memory(error)) => Err(error),
        Err(SpellFault::NoSuchCharacter { .. }) => unreachable!(),
    }
}

/// The text of a message: its lines, each followed by a newline.
pub(crate) fn text_bytes(alloc: Global, message: &Message) -> Result<Vec<u8>, AllocError>
    ensures text { IfOk result (λ text. text.items ≡ text_of message.now.lines) }
    ensures sound { AreLines message.now.lines }
{
    let mut text = Vec::new(alloc);
    for i in 0..message.line_count() {
        let line = line_at(message, i);
        text.extend_from_slice(line)?;
        text.push(NEWLINE)?;
    }
    Ok(text)
}

/// Appends a position so many times.
fn push_many(
    positions: &mut Vec<Position>,
    count: usize,
    position: Position,
) -> Result<(), AllocError>
    ensures { OnOk result (map sent_position positions.new.items
        ≡ map sent_position positions.old.items ++ replicate count (sent_position position)) }
{
    for _ in 0..count {
        positions.push(position)?;
    }
    Ok(())
}

/// Appends combinations.
fn push_combs(positions: &mut Vec<Position>, combs: &[Comb]) -> Result<(), AllocError>
    ensures { OnOk result (map sent_position positions.new.items
        ≡ map sent_position positions.old.items
        ++ map traffic_position (map (λ comb. comb.number) combs.now)) }
{
    for comb in combs {
        positions.push(Position::Traffic(*comb))?;
    }
    Ok(())
}
