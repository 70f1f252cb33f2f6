//! What a call tells its caller: a status, and the place of a fault.

ghost use Rattle.std.specs.Prelude.{◌≡◌, ◌≤◌, length, take};
ghost use Rattle.nx_c.specs.Told.{IsTold, answer};
ghost use Rattle.nx_handle.specs.CallerRoom.{room};
ghost use Rattle.nx_handle.specs.Status.{number_of};
ghost use Rattle.nx_handle.specs.declared.status.Status.TheVariants.{Done};

use nx_handle::{Status, after_copying_out, copy_out};

/// Where a fault stands. A number that the fault doesn't have is 0.
#[repr(C)]
#[derive(Clone, Copy, Debug, Drop, PartialEq, Eq)]
pub struct Place {
    /// The line of the file, from 1.
    pub line: u64,
    /// The line of a message, from 1 behind that of its `#`.
    pub text_line: u64,
    /// What the fault counts or names beside them.
    pub at: u64,
}

/// How a call ended, and where its fault stands.
#[derive(Clone, Copy, Debug, Drop, PartialEq, Eq)]
pub struct Told {
    pub status: Status,
    pub place: Place,
}

/// Tells the caller how a run ended that wrote this text, and puts the text into the room for it.
/// Answers the number of the status.
pub(crate) fn tell(
    told: Told,
    text: &[u8],
    space: &mut [u8],
    written: &mut usize,
    place: &mut Place,
) -> u32
    ensures told { IsTold told text.now
        (room space.old space.new written.new) (answer result place.new) }
    ensures done { result ≡ number_of Done → (told.status ≡ Done)
        × (written.new ≤ length space.old) × (take written.new space.new ≡ text.now) }
{
    copy_out(text, space, written);
    *place = told.place;
    after_copying_out(text.len(), space.len(), told.status).number()
}
