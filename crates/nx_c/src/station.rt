//! A station's calls: sending, checking, and the next slot.

ghost use Rattle.std.specs.Prelude.{◌≡◌, ◌-◌, ◌^◌, ◌⊎◌, []};
ghost use Rattle.nx_c.specs.Calls.{ChecksTo, SendsTo};
ghost use Rattle.nx_c.specs.Faults.{check_told, sending_told};
ghost use Rattle.nx_c.specs.Told.{IsTold, Tells, answer, ended_told, told};
ghost use Rattle.nx_handle.specs.CallerRoom.{room};
ghost use Rattle.nx_handle.specs.declared.status.Status.TheVariants.{NoStation};
ghost use Rattle.nx_code.specs.Reading.{IsCapital};
ghost use Rattle.nx_station.specs.Slots.{HasNoSlot, IsNextSlot};

use crate::faults::{check_told, sending_told, told};
use crate::told::{Place, Told, tell};
use nx_envelope::Letter;
use nx_fec::Counting;
use nx_handle::Status;
use nx_station::{CheckFault, check_run, next_slot, send};
use std::alloc::Global;

/// What `nx_slot` answers where there is no slot.
const NO_SLOT: u64 = u64::MAX;

/// Sends a message file of a station in its next slot from a moment on, as `nx_station::send` does,
/// and puts the air file into the caller's room.
#[unsafe(no_mangle)]
pub extern "C" fn nx_send(
    alloc: Global,
    station: u8,
    moment: u64,
    messages: &[u8],
    air: &mut [u8],
    written: &mut usize,
    place: &mut Place,
) -> u32
    ensures sends { IsCapital station → Tells (SendsTo station moment messages.now) sending_told
        (room air.old air.new written.new) (answer result place.new) }
    ensures no_station { (¬ IsCapital station) → IsTold (told NoStation) []
        (room air.old air.new written.new) (answer result place.new) }
{
    let Some(letter) = Letter::new(station) else {
        return tell(told(Status::NoStation), &[], air, written, place);
    };
    let mut writer = Counting::new(Vec::new(alloc));
    let told = match send(
        alloc,
        &mut Counting::new(messages),
        &mut writer,
        letter,
        moment,
    ) {
        Ok(_) => told(Status::Done),
        Err(fault) => sending_told(fault),
    };
    tell(told, &writer.into_inner(), air, written, place)
}

/// Checks an air file, as `nx_station::check_run` does, and puts the line of its station and its
/// message file into the caller's room.
#[unsafe(no_mangle)]
pub extern "C" fn nx_check(
    alloc: Global,
    air: &[u8],
    text: &mut [u8],
    written: &mut usize,
    place: &mut Place,
) -> u32
    ensures { Tells (ChecksTo air.now) check_told
        (room text.old text.new written.new) (answer result place.new) }
{
    let mut writer = Counting::new(Vec::new(alloc));
    let outcome = check_run(alloc, &mut Counting::new(air), &mut writer);
    tell(ended(outcome), &writer.into_inner(), text, written, place)
}

/// What a run that checks tells.
fn ended(outcome: Result<u64, CheckFault>) -> Told
    ensures { result ≡ ended_told check_told outcome }
{
    match outcome {
        Ok(_) => told(Status::Done),
        Err(fault) => check_told(fault),
    }
}

/// The moment at which a station's next slot begins, from a moment on; the greatest u64 where there
/// is none, or the byte names no station.
#[unsafe(no_mangle)]
pub extern "C" fn nx_slot(station: u8, moment: u64) -> u64
    ensures { (IsCapital station × IsNextSlot station moment result)
        ⊎ ((result ≡ 2 ^ 64 - 1) × (IsCapital station → HasNoSlot station moment)) }
{
    let Some(letter) = Letter::new(station) else {
        return NO_SLOT;
    };
    match next_slot(letter, moment) {
        Some(slot) => slot,
        None => NO_SLOT,
    }
}
