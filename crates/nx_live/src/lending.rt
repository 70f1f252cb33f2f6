//! The calls that make a receiver of room, and give the room back.

ghost use Rattle.std.specs.Prelude.{◌≡◌, ◌<◌, ◌≤◌, List, length};
ghost use Rattle.std.specs.Borrow.{sem};
ghost use Rattle.std.specs.Ptr.{Ptr};
ghost use Rattle.nx_combine.specs.FamilyPlaces.{LentFamily};
ghost use Rattle.nx_handle.specs.CombiningPlaces.{combining_closed};
ghost use Rattle.nx_live.specs.Lending.{LentRoom, PlainRoom, closed_at, room_with, rooms_at};

use crate::families::LentFamilies;
use crate::handle::NxLive;
use nx_combine::FamilyPlace;
use nx_handle::{CombiningPlace, PlainPlace};

/// How many bytes of room each channel of a plain receiver needs: `NX_LIVE_CHANNEL` of the header.
pub const ROOM: usize = 7_464;

/// How many bytes of room each channel needs beside its families, where several sendings are taken
/// together: `NX_LIVE_COMBINING_CHANNEL` of the header.
pub const COMBINING_ROOM: usize = 19_864;

/// How many bytes of room each family needs: `NX_LIVE_FAMILY` of the header.
pub const FAMILY_ROOM: usize = 8_240;

/// The alignment of all that room.
pub const ROOM_ALIGNMENT: usize = 8;

/// Makes a closed receiver of one channel, of room that is lent to it, whatever lies there. The
/// room is the receiver's from here on, until `nx_live_return` gives it back.
#[unsafe(no_mangle)]
pub unsafe extern "C" fn nx_live_lend_1(receiver: *mut NxLive, room: *mut ())
    requires* { sem 𝓛 (rooms_at receiver room (PlainRoom 1)) }
    ensures* { sem 𝓛 (closed_at receiver room (PlainRoom 1)) }
{
    unsafe { lend_plain(receiver, room, 1) }
}

/// Makes a closed receiver of two channels, channel 0 and 1, as `nx_live_lend_1` does of one.
#[unsafe(no_mangle)]
pub unsafe extern "C" fn nx_live_lend_2(receiver: *mut NxLive, room: *mut ())
    requires* { sem 𝓛 (rooms_at receiver room (PlainRoom 2)) }
    ensures* { sem 𝓛 (closed_at receiver room (PlainRoom 2)) }
{
    unsafe { lend_plain(receiver, room, 2) }
}

/// Makes a closed receiver of three channels, as `nx_live_lend_1` does of one.
#[unsafe(no_mangle)]
pub unsafe extern "C" fn nx_live_lend_3(receiver: *mut NxLive, room: *mut ())
    requires* { sem 𝓛 (rooms_at receiver room (PlainRoom 3)) }
    ensures* { sem 𝓛 (closed_at receiver room (PlainRoom 3)) }
{
    unsafe { lend_plain(receiver, room, 3) }
}

/// Makes a closed receiver of one channel that takes several sendings of a message together: of
/// room for its place, whatever lies there, and of room for so many families, 1 to 200. In the
/// families' room each byte is zero, or it is what an earlier receiver gave back.
#[unsafe(no_mangle)]
pub unsafe extern "C" fn nx_live_lend_1_families(
    receiver: *mut NxLive,
    room: *mut (),
    families: *mut FamilyPlace,
    count: usize,
)
    ghost held: { List (List LentFamily) }
    requires channels { length held ≡ 1 }
    requires* lent { sem 𝓛 (rooms_at receiver room (room_with families count held)) }
    ensures* { sem 𝓛 (closed_at receiver room (room_with families count held)) }
{
    unsafe { lend_combining(receiver, room, 1, families, count) }
}

/// Makes such a receiver of two channels, channel 0 and 1, as `nx_live_lend_1_families` does of
/// one. There is room for so many families of each channel, one channel's behind another's.
#[unsafe(no_mangle)]
pub unsafe extern "C" fn nx_live_lend_2_families(
    receiver: *mut NxLive,
    room: *mut (),
    families: *mut FamilyPlace,
    count: usize,
)
    ghost held: { List (List LentFamily) }
    requires channels { length held ≡ 2 }
    requires* lent { sem 𝓛 (rooms_at receiver room (room_with families count held)) }
    ensures* { sem 𝓛 (closed_at receiver room (room_with families count held)) }
{
    unsafe { lend_combining(receiver, room, 2, families, count) }
}

/// Makes such a receiver of three channels, as `nx_live_lend_1_families` does of one. There is room
/// for so many families of each channel, one channel's behind another's.
#[unsafe(no_mangle)]
pub unsafe extern "C" fn nx_live_lend_3_families(
    receiver: *mut NxLive,
    room: *mut (),
    families: *mut FamilyPlace,
    count: usize,
)
    ghost held: { List (List LentFamily) }
    requires channels { length held ≡ 3 }
    requires* lent { sem 𝓛 (rooms_at receiver room (room_with families count held)) }
    ensures* { sem 𝓛 (closed_at receiver room (room_with families count held)) }
{
    unsafe { lend_combining(receiver, room, 3, families, count) }
}

/// Makes a closed receiver of so many channels, whose places are plain.
unsafe fn lend_plain(receiver: *mut NxLive, room: *mut (), channels: usize)
    requires some { 0 < channels }
    requires few { channels ≤ 3 }
    requires* lent { sem 𝓛 (rooms_at receiver room (PlainRoom channels)) }
    ensures* { sem 𝓛 (closed_at receiver room (PlainRoom channels)) }
{
    let places = room as *mut PlainPlace;
    let mut channel = 0;
    while channel < channels {
        unsafe {
            places.add(channel).write(PlainPlace::Closed);
        }
        channel += 1;
    }
    unsafe {
        receiver.write(NxLive {
            at: room,
            count: channels,
            combines: false,
        });
    }
}

/// Makes a closed receiver of so many channels, whose places combine, with so many families of each
/// channel, one channel's behind another's.
unsafe fn lend_combining(
    receiver: *mut NxLive,
    room: *mut (),
    channels: usize,
    families: *mut FamilyPlace,
    count: usize,
)
    ghost held: { List (List LentFamily) }
    requires some { 0 < channels }
    requires few { channels ≤ 3 }
    requires channels { length held ≡ channels }
    requires* lent { sem 𝓛 (rooms_at receiver room (room_with families count held)) }
    ensures* { sem 𝓛 (closed_at receiver room (room_with families count held)) }
{
    let places = room as *mut CombiningPlace<LentFamilies>;
    let mut at = families;
    let mut channel = 0;
    while channel < channels {
        unsafe {
            places
                .add(channel)
                .write(closed(LentFamilies { at, count }));
            at = at.add(count);
        }
        channel += 1;
    }
    unsafe {
        receiver.write(NxLive {
            at: room,
            count: channels,
            combines: true,
        });
    }
}

/// The place of a closed receiver, with these families.
#[inline(always)]
fn closed(families: LentFamilies) -> CombiningPlace<LentFamilies>
    requires { 0 < length families.value }
    ensures { result ≡ combining_closed families }
{
    CombiningPlace::closed(families)
}

/// Gives the room of a closed receiver back, that of its families, and that of its handle: nothing
/// is kept there, and no call may take the receiver any more.
#[unsafe(no_mangle)]
pub unsafe extern "C" fn nx_live_return(receiver: *mut NxLive)
    ghost lent: { Ptr × LentRoom }
    requires* { sem 𝓛 (closed_at receiver lent.0 lent.1) }
    ensures* { sem 𝓛 (rooms_at receiver lent.0 lent.1) }
{
    // The rooms are the caller's again from here on, and nothing has to run for that.
    let _receiver = receiver;
}
