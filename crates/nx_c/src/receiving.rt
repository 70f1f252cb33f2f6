//! Listening to an air file, from nothing or from a state.

ghost use Rattle.std.specs.Prelude.{◌≡◌, ◌≢◌, ◌≤◌, [], length, take, Some, IfOk, OnOk};
ghost use Rattle.nx_c.specs.Calls.{GoesOnTo, HasResumed, ListensTo, ResumesTo, TellsResuming, after_handing, handed, written_anew};
ghost use Rattle.nx_c.specs.Faults.{listen_told, resume_told};
ghost use Rattle.nx_c.specs.Told.{Tells, answer};
ghost use Rattle.nx_handle.specs.CallerRoom.{IsCopiedOut, room};
ghost use Rattle.nx_handle.specs.Status.{number_of};
ghost use Rattle.nx_handle.specs.declared.status.Status.TheVariants.{Done, StateNoRoom};
ghost use Rattle.nx_memory.specs.Saved.{AreSavedStates};
ghost use Rattle.nx_receiver.specs.air_file_runs.Listen.{IsLogOf};
ghost use Rattle.nx_receiver.specs.air_file_runs.ListenOnce.{HasPrintedOnce};
ghost use Rattle.nx_copies.specs.copies.Shares.{all_at_zero};
ghost use Rattle.nx_receiver.specs.air_file_runs.State.{BeginsWith, state_bytes};

use crate::faults::{listen_told, resume_told, told};
use crate::told::{Place, tell};
use nx_fec::{Counting, WriteFault};
use nx_handle::{Status, copy_out};
use nx_memory::SavedSet;
use nx_receiver::{Report, ResumeFault, listen, listen_from, read_state, write_state};
use std::alloc::Global;

/// Listens to an air file, as `nx_receiver::listen` does, and copies its log into the caller's
/// room.
///
/// `written` is the length of the whole log; where there is no room for all of it, its first bytes
/// stand in the room, and all done is told as `NoRoom`. After a fault it is the log of the whole
/// lines before it.
#[unsafe(no_mangle)]
pub extern "C" fn nx_listen(
    alloc: Global,
    air: &[u8],
    log: &mut [u8],
    written: &mut usize,
    place: &mut Place,
) -> u32
    ensures listens { Tells (ListensTo air.now) listen_told
        (room log.old log.new written.new) (answer result place.new) }
    ensures fits { result ≡ number_of Done → written.new ≤ length log.old }
    ensures log { result ≡ number_of Done → IsLogOf all_at_zero air.now (take written.new log.new) }
    ensures once { result ≡ number_of Done
        → HasPrintedOnce all_at_zero (written_anew (take written.new log.new)) air.now }
{
    let mut writer = Counting::new(Vec::new(alloc));
    let told = match listen(alloc, &mut Counting::new(air), &mut writer) {
        Ok(_) => told(Status::Done),
        Err(fault) => listen_told(fault),
    };
    tell(told, &writer.into_inner(), log, written, place)
}

/// Reads the state with which `state` begins, and listens to an air file, going on from it, as
/// `nx_receiver::listen_from` does. Copies the log and the text of what the run leaves into the
/// caller's rooms for them. What stands behind the state isn't read.
///
/// The log is copied as by `nx_listen`. The new state is handed out only where all succeeded and
/// the log has room: else `state_written` is 0, and the room for it stays as it was.
#[unsafe(no_mangle)]
pub extern "C" fn nx_resume(
    alloc: Global,
    state: &[u8],
    air: &[u8],
    log: &mut [u8],
    written: &mut usize,
    new_state: &mut [u8],
    state_written: &mut usize,
    place: &mut Place,
) -> u32
    ensures resumes { TellsResuming state.now air.now (room log.old log.new written.new)
        (room new_state.old new_state.new state_written.new) (answer result place.new) }
    ensures fits { result ≡ number_of Done → written.new ≤ length log.old }
    ensures state_fits { result ≡ number_of Done → state_written.new ≤ length new_state.old }
    ensures once { result ≡ number_of Done
        → BeginsWith state.now (λ states more. HasResumed states air.now
        (take written.new log.new) (take state_written.new new_state.new)) }
    ensures kept { result ≢ number_of Done → result ≢ number_of StateNoRoom
        → (state_written.new ≡ 0) × (new_state.new ≡ new_state.old) }
{
    let resumed = resume_over(alloc, state, air);
    let told = match resumed.outcome {
        Ok(_) => told(Status::Done),
        Err(fault) => resume_told(fault),
    };
    let status = tell(told, &resumed.log, log, written, place);
    hand_out(status, &resumed.left, new_state, state_written)
}

/// Hands out the text of a new state, only where the status before it says that all is done, and
/// answers the status behind it.
fn hand_out(status: u32, left: &[u8], new_state: &mut [u8], state_written: &mut usize) -> u32
    ensures handed { IsCopiedOut (handed status left.now)
        (room new_state.old new_state.new state_written.new) }
    ensures status { result ≡ after_handing status (length left.now) (length new_state.old) }
    ensures done { result ≡ number_of Done
        → (status ≡ number_of Done) × (state_written.new ≤ length new_state.old)
        × (take state_written.new new_state.new ≡ left.now) }
    ensures kept { result ≢ number_of Done → result ≢ number_of StateNoRoom
        → (state_written.new ≡ 0) × (new_state.new ≡ new_state.old) }
{
    if status != Status::Done.number() {
        copy_out(&[], new_state, state_written);
        return status;
    }
    copy_out(left, new_state, state_written);
    if left.len() > new_state.len() {
        return Status::StateNoRoom.number();
    }
    Status::Done.number()
}

/// What a run that goes on from a state came to: its log, and the text of what it leaves, which is
/// empty after a fault.
#[derive(Drop)]
struct Resumed {
    outcome: Result<Report, ResumeFault>,
    log: Vec<u8>,
    left: Vec<u8>,
}

/// Reads the state with which `state` begins, and listens to an air file, going on from it.
fn resume_over(alloc: Global, state: &[u8], air: &[u8]) -> Resumed
    ensures resumes { ResumesTo state.now air.now result.log.items result.left.items
        result.outcome }
    ensures ok { OnOk result.outcome (BeginsWith state.now (λ states more.
        HasResumed states air.now result.log.items result.left.items)) }
{
    match read_state(&mut Counting::new(state)) {
        Ok(states) => go_on(alloc, &states, air),
        Err(fault) => Resumed {
            outcome: Err(ResumeFault::State(fault)),
            log: Vec::new(alloc),
            left: Vec::new(alloc),
        },
    }
}

/// Listens to an air file, going on from what is saved.
fn go_on(alloc: Global, states: &SavedSet, air: &[u8]) -> Resumed
    ensures { GoesOnTo states.now air.now result.log.items result.left.items result.outcome }
{
    let mut writer = Counting::new(Vec::new(alloc));
    let listened = listen_from(alloc, states, &mut Counting::new(air), &mut writer);
    let log = writer.into_inner();
    match listened {
        Ok((report, saved)) => match state_text(alloc, &saved) {
            Ok(left) => Resumed {
                outcome: Ok(report),
                log,
                left,
            },
            Err(fault) => Resumed {
                outcome: Err(ResumeFault::Write {
                    written: fault.written,
                }),
                log,
                left: Vec::new(alloc),
            },
        },
        Err(fault) => Resumed {
            outcome: Err(ResumeFault::Listen(fault)),
            log,
            left: Vec::new(alloc),
        },
    }
}

/// The text of a state.
fn state_text(alloc: Global, states: &SavedSet) -> Result<Vec<u8>, WriteFault>
    ensures text { IfOk result (λ text. text.items ≡ state_bytes states.now) }
    ensures sound { AreSavedStates states.now }
{
    let mut writer = Counting::new(Vec::new(alloc));
    write_state(states, &mut writer)?;
    Ok(writer.into_inner())
}
