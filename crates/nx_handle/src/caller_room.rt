//! Putting a text into the room of a caller.

ghost use Rattle.std.specs.Prelude.{◌≡◌, ◌<◌, ◌≤◌, ◌+◌, ◌^◌, ℕ, List, ◌++◌, length, true};
ghost use Rattle.nx_envelope.specs.Copies.{errors_of};
ghost use Rattle.nx_envelope.specs.Moment.{last_moment};
ghost use Rattle.nx_copies.specs.copies.FoundCopies.{headed_copy};
ghost use Rattle.nx_copies.specs.copies.Shares.{marked};
ghost use Rattle.nx_handle.specs.private.Hearing.{CopiesEntryOut};
ghost use Rattle.nx_handle.specs.Status.{number_of};
ghost use Rattle.nx_handle.specs.CallerRoom.{IsCopiedOut, after_copying_out, room};
ghost use Rattle.nx_handle.specs.declared.status.Status.TheVariants.{Done};

use crate::status::Status;
use arrayvec::ArrayVec;
use nx_copies::{EntryHead, MAX_ENTRY, spell_entry};
use nx_envelope::MAX_FOUND;
use nx_fec::Channel;

/// Copies a text into the caller's room, as much of it as there is room for. `written` is the
/// length of the whole text.
pub fn copy_out(text: &[u8], space: &mut [u8], written: &mut usize)
    ensures { IsCopiedOut text.now (room space.old space.new written.new) }
{
    let count = text.len().min(space.len());
    space[..count].copy_from_slice(&text[..count]);
    *written = text.len();
}

/// Copies more of a text into the caller's room, behind what was copied of it. `written` is the
/// length of all that was given so far.
pub(crate) fn copy_more_out(piece: &[u8], space: &mut [u8], written: &mut usize)
    requires { written.old + length piece.now < 2 ^ 63 }
    ensures copied { (old text : List ℕ) → IsCopiedOut text (room old space.old written.old)
        → IsCopiedOut (text ++ piece.now) (room old space.new written.new) }
    ensures count { written.new ≡ written.old + length piece.now }
{
    let from = (*written).min(space.len());
    let count = piece.len().min(space.len() - from);
    space[from..from + count].copy_from_slice(&piece[..count]);
    *written += piece.len();
}

/// Copies the entry of a copy that is printed into the caller's room, by its head and its text.
// A call, so that its stack is taken only where something is printed.
#[inline(never)]
pub(crate) fn copy_entry_out(
    head: &EntryHead,
    text: &[u8],
    channel: Channel,
    space: &mut [u8],
    written: &mut usize,
)
    requires moment { head.now.moment ≤ last_moment }
    requires errors { head.now.errors ≡ errors_of text.now }
    requires short { length text.now ≤ MAX_FOUND }
    ensures { CopiesEntryOut (marked channel (headed_copy head.now text.now true))
        (room space.old space.new written.new) }
{
    let mut entry = ArrayVec::<u8, MAX_ENTRY>::new();
    spell_entry(head, text, channel, &mut entry);
    copy_out(&entry, space, written);
}

/// A status, where a text of so many bytes is copied into a room of so many.
pub fn after_copying_out(count: usize, capacity: usize, status: Status) -> Status
    ensures { result ≡ after_copying_out count capacity status }
{
    if status == Status::Done && count > capacity {
        return Status::NoRoom;
    }
    status
}

/// Copies a text into the caller's room as `copy_out` does, and answers the number of `Done`, or of
/// `NoRoom` where there is no room for all of it.
pub fn copy_whole_out(text: &[u8], space: &mut [u8], written: &mut usize) -> u32
    ensures copied { IsCopiedOut text.now (room space.old space.new written.new) }
    ensures status { result ≡ number_of
        (after_copying_out (length text.now) (length space.old) Done) }
{
    copy_out(text, space, written);
    after_copying_out(text.len(), space.len(), Status::Done).number()
}
