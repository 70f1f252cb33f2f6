//! Closing a receiver.

ghost use Rattle.std.specs.Prelude.{◌≡◌, ◌≤◌, ◌∷◌, List, [], length, map, true, false};
ghost use Rattle.nx_copies.specs.copies.FoundCopies.{TaggedCopy};
ghost use Rattle.nx_copies.specs.copies.Shares.{MarkedCopy, marked};
ghost use Rattle.nx_handle.specs.Closing.{AnswersClosing};
ghost use Rattle.nx_handle.specs.Life.{EndPrints, EndsWith};
ghost use Rattle.nx_handle.specs.private.Hearing.{CopiesEntryOut};
ghost use Rattle.nx_handle.specs.PlaceKinds.{SameRoom};
ghost use Rattle.nx_handle.specs.Places.{KeepsRoom, all_closed, all_hear};
ghost use Rattle.nx_handle.specs.CallerRoom.{room};

use crate::caller_room::{copy_entry_out, copy_out};
use crate::kept_place::KeptPlace;
use crate::places::{are_closed, channel_at, close_all};
use crate::status::Status;
use nx_copies::MAX_ENTRY;
use nx_fec::Channel;

/// Ends the elements of all channels, and hands out what their end prints, by channel: one entry a
/// call, whose bytes are copied into the caller's room. `written` is their number, and 0 where none
/// is left: the receiver is closed then. From the first call on it hears nothing more.
///
/// `Closed` where the receiver is closed; else `NoRoom` where there is no room for the largest
/// entry, so that none is lost; else `Done`. Where it isn't `Done`, the receiver stays as it was.
pub fn close<P: KeptPlace>(places: &mut [P], log: &mut [u8], written: &mut usize) -> u32
    requires few { length places.old ≤ 3 }
    ensures { AnswersClosing P.kind places.old places.new (room log.old log.new written.new)
        result }
{
    if are_closed(places) {
        copy_out(&[], log, written);
        return Status::Closed.number();
    }
    if log.len() < MAX_ENTRY {
        copy_out(&[], log, written);
        return Status::NoRoom.number();
    }
    if end_next(places, log, written) {
        return 0;
    }
    abandon(places);
    copy_out(&[], log, written);
    0
}

/// Ends the channels that have not ended, in order, up to and with the first whose end prints an
/// entry, which is copied into the caller's room: says whether there is one.
fn end_next<P: KeptPlace>(places: &mut [P], log: &mut [u8], written: &mut usize) -> bool
    requires few { length places.old ≤ 3 }
    ensures printed { result ≡ true → (copy : MarkedCopy)
        × CopiesEntryOut copy (room log.old log.new written.new)
        × ((left : List MarkedCopy) → EndsWith P.kind places.new left
        → EndsWith P.kind places.old (copy ∷ left)) }
    ensures ended { result ≡ true
        → (all_hear P.kind places.new ≡ false) × (all_closed P.kind places.new ≡ false) }
    ensures silent { result ≡ false → EndsWith P.kind places.old [] × (log.new ≡ log.old) }
    ensures channels { length places.new ≡ length places.old }
    ensures rooms { KeepsRoom P.kind places.old places.new }
{
    for at in 0..places.len() {
        if end_at(&mut places[at], channel_at(at), log, written) {
            return true;
        }
    }
    false
}

/// Ends a channel in its place, where it hears: says whether that prints an entry, which is copied
/// into the caller's room.
fn end_at<P: KeptPlace>(
    place: &mut P,
    channel: Channel,
    log: &mut [u8],
    written: &mut usize,
) -> bool
    ensures printed { result ≡ true → (copy : TaggedCopy)
        × CopiesEntryOut (marked channel copy) (room log.old log.new written.new)
        × EndPrints P.kind place.old (copy ∷ []) }
    ensures silent { result ≡ false → EndPrints P.kind place.old [] × (log.new ≡ log.old) }
    ensures ended { (P.kind.is_hearing place.new ≡ false) × (P.kind.is_closed place.new ≡ false) }
    ensures room { SameRoom P.kind place.old place.new }
{
    if !place.is_hearing() {
        place.leave();
        return false;
    }
    let Some(head) = place.end() else {
        place.leave();
        return false;
    };
    copy_entry_out(&head, place.text(), channel, log, written);
    place.leave();
    true
}

/// Closes a receiver, and prints nothing; the room of its places stays. One that is closed stays
/// so.
pub fn abandon<P: KeptPlace>(places: &mut [P])
    ensures shut { places.new ≡ map P.kind.shut places.old }
    ensures closed { all_closed P.kind places.new ≡ true }
    ensures channels { length places.new ≡ length places.old }
    ensures rooms { KeepsRoom P.kind places.old places.new }
{
    close_all(places);
}
