//! Opening a receiver, and setting its moment.

ghost use Rattle.std.specs.Prelude.{◌≡◌, ◌<◌, ◌≤◌, [], length, IfErr, OnOk, true};
ghost use Rattle.nx_copies.specs.Events.{none_refused};
ghost use Rattle.nx_handle.specs.PlaceKinds.{start_with};
ghost use Rattle.nx_handle.specs.private.Moments.{MomentsTaken, RefusesNext};
ghost use Rattle.nx_handle.specs.Opening.{AnswersMoment, AnswersOpening};
ghost use Rattle.nx_handle.specs.private.Opening.{HaveBegun, ShutSame, moment_told};
ghost use Rattle.nx_handle.specs.Places.{KeepsRoom, all_hear};

use crate::kept_place::KeptPlace;
use crate::places::{all_hear, are_closed, close_all};
use crate::status::Status;
use nx_receiver::MomentFault;

/// Opens a receiver at a moment, in whole seconds since 1970-01-01 00:00:00 UTC: it has heard
/// nothing, remembers nothing, and everything is selected.
///
/// `AlreadyOpen` where it is open; else `MomentRange` where the moment is past the year 2999; else
/// `Done`. Where it isn't `Done`, the receiver stays as it was.
pub fn open<P: KeptPlace>(places: &mut [P], moment: u64) -> u32
    requires some { 0 < length places.old }
    requires few { length places.old ≤ 3 }
    ensures { AnswersOpening P.kind moment places.old places.new result }
{
    if !are_closed(places) {
        return Status::AlreadyOpen.number();
    }
    begin_new(places);
    match set_moments(places, moment) {
        Ok(()) => 0,
        Err(fault) => {
            close_all(places);
            moment_told(fault).number()
        }
    }
}

/// Opens a receiver that starts with nothing, and has heard nothing. It is built in its places,
/// channel by channel: each move of one would take as much of the stack.
fn begin_new<P: KeptPlace>(places: &mut [P])
    ensures begun { HaveBegun P.kind places.new (start_with [] 0 none_refused) }
    ensures shut { ShutSame P.kind places.old places.new }
{
    for at in 0..places.len() {
        places[at].begin_new();
    }
}

/// Sets the moment from here on, of all channels.
///
/// `Closed` where the receiver is closed, or its end has begun; else `MomentRange` where the moment
/// is past the year 2999; else `MomentBack` where it is before the one in force; else `Done`. Where
/// it isn't `Done`, the receiver stays as it was.
pub fn set_moment<P: KeptPlace>(places: &mut [P], moment: u64) -> u32
    requires some { 0 < length places.old }
    requires few { length places.old ≤ 3 }
    ensures answers { AnswersMoment P.kind moment places.old places.new result
        (all_hear P.kind places.old) }
    ensures channels { length places.new ≡ length places.old }
    ensures rooms { KeepsRoom P.kind places.old places.new }
{
    if !all_hear(places) {
        return Status::Closed.number();
    }
    match set_moments(places, moment) {
        Ok(()) => 0,
        Err(fault) => moment_told(fault).number(),
    }
}

/// Sets the moment of each channel, all of which hear, up to the first that refuses it.
fn set_moments<P: KeptPlace>(places: &mut [P], moment: u64) -> Result<(), MomentFault>
    requires { all_hear P.kind places.old ≡ true }
    ensures taken { OnOk result
        (MomentsTaken P.kind moment places.old places.new (length places.old)) }
    ensures refused { IfErr result (RefusesNext P.kind moment places.old places.new) }
{
    for at in 0..places.len() {
        match places[at].set_moment(moment) {
            Ok(()) => {}
            Err(fault) => return Err(fault),
        }
    }
    Ok(())
}

/// The status that the fault of a moment tells.
fn moment_told(fault: MomentFault) -> Status
    ensures { result ≡ moment_told fault }
{
    match fault {
        MomentFault::Range { given: _ } => Status::MomentRange,
        MomentFault::Back { last: _, given: _ } => Status::MomentBack,
    }
}
