//! The places of a receiver's channels.

ghost use Rattle.std.specs.Prelude.{◌≡◌, ◌<◌, ◌≤◌, length, map, MatchOption};
ghost use Rattle.nx_fec.specs.air_files.Channels.{channel_number};
ghost use Rattle.nx_handle.specs.Places.{all_closed, all_hear};

use crate::kept_place::KeptPlace;
use nx_fec::Channel;

/// Whether each channel hears.
pub(crate) fn all_hear<P: KeptPlace>(places: &[P]) -> bool
    ensures { result ≡ all_hear P.kind places.now }
{
    places.iter().all(|place| place.is_hearing())
}

/// Whether the receiver is closed.
pub fn are_closed<P: KeptPlace>(places: &[P]) -> bool
    ensures { result ≡ all_closed P.kind places.now }
{
    places.iter().all(|place| place.is_closed())
}

/// Closes the receiver, and prints nothing; the room of its places stays.
pub(crate) fn close_all<P: KeptPlace>(places: &mut [P])
    ensures { places.new ≡ map P.kind.shut places.old }
{
    for place in places.iter_mut() {
        place.shut();
    }
}

/// The channel whose place stands there, from 0.
pub(crate) fn channel_at(at: usize) -> Channel
    requires { at < 3 }
    ensures { channel_number result ≡ at }
{
    match at {
        0 => Channel::Zero,
        1 => Channel::One,
        _ => Channel::Two,
    }
}

/// The channel of this number, where the receiver has so many.
pub(crate) fn channel_of(number: u8, count: usize) -> Option<Channel>
    requires { count ≤ 3 }
    ensures { MatchOption result (count ≤ number)
        (λ channel. (channel_number channel ≡ number) × (number < count)) }
{
    if usize::from(number) < count {
        return Some(channel_at(usize::from(number)));
    }
    None
}
