//! From how many sendings an entry is put together.

ghost use Rattle.std.specs.Prelude.{◌≤◌, length};
ghost use Rattle.nx_handle.specs.Sendings.{AnswersSendings};

use crate::kept_place::KeptPlace;
use crate::places::{all_hear, channel_of};
use crate::status::Status;

/// Tells from how many sendings the entry is put together that was handed out last on a channel, by
/// its number: 1 where a copy stands for itself.
///
/// `Closed` where the receiver is closed, or its end has begun; else `NoChannel` where it has no
/// channel of this number; else `Done`. Where it isn't `Done`, 0 is told.
pub fn sendings<P: KeptPlace>(places: &[P], channel: u8, sendings: &mut u64) -> u32
    requires few { length places.now ≤ 3 }
    ensures { AnswersSendings P.kind channel places.now sendings.new result }
{
    *sendings = 0;
    if !all_hear(places) {
        return Status::Closed.number();
    }
    let Some(channel) = channel_of(channel, places.len()) else {
        return Status::NoChannel.number();
    };
    *sendings = places[usize::from(channel.number())].sendings();
    0
}
