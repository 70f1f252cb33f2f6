//! Hearing elements.

ghost use Rattle.std.specs.Prelude.{◌≡◌, ◌≢◌, ◌<◌, ◌≤◌, [], length, IfErr, IfOk, OnOk};
ghost use Rattle.std.specs.List.{list_all};
ghost use Rattle.nx_fec.specs.air_files.Channels.{channel_number};
ghost use Rattle.nx_handle.specs.Hearing.{AnswersHearing, is_element, request_status};
ghost use Rattle.nx_handle.specs.CallerRoom.{IsCopiedOut, room};
ghost use Rattle.nx_handle.specs.Status.{number_of};
ghost use Rattle.nx_handle.specs.declared.status.Status.TheVariants.{Done};

use crate::caller_room::copy_out;
use crate::kept_place::KeptPlace;
use crate::pieces::hear_all;
use crate::places::{all_hear, channel_of};
use crate::status::Status;
use nx_copies::MAX_ENTRY;
use nx_fec::Channel;

/// Hears elements of a channel, by its number, each a byte, 1 for B and 0 for Y: up to and with the
/// one that ends the first copy that is printed. `heard` is how many it heard; the bytes of the
/// entry are copied into the caller's room, and `written` is their number, 0 where nothing is
/// printed: then it heard all.
///
/// `Closed` where the receiver is closed, or its end has begun; else `NoChannel` where it has no
/// channel of this number; else `NoElement` where a byte is none of an element; else `NoRoom` where
/// there is no room for the largest entry, so that none is lost; else `Done`. Where it isn't
/// `Done`, nothing is heard, and nothing is copied.
pub fn hear<P: KeptPlace>(
    places: &mut [P],
    channel: u8,
    elements: &[u8],
    heard: &mut usize,
    log: &mut [u8],
    written: &mut usize,
) -> u32
    requires few { length places.old ≤ 3 }
    ensures { AnswersHearing P.kind channel elements.now places.old places.new heard.new
        (room log.old log.new written.new) result }
{
    *heard = 0;
    if !all_hear(places) {
        return refuse(Status::Closed, log, written);
    }
    let channel = match channel_asked(channel, places.len(), elements, log.len()) {
        Ok(channel) => channel,
        Err(status) => return refuse(status, log, written),
    };
    let place = &mut places[usize::from(channel.number())];
    *heard = hear_all(place, channel, elements, log, written);
    0
}

/// Copies nothing into the caller's room, and answers the number of a status.
fn refuse(status: Status, log: &mut [u8], written: &mut usize) -> u32
    ensures copied { IsCopiedOut [] (room log.old log.new written.new) }
    ensures status { result ≡ number_of status }
{
    copy_out(&[], log, written);
    status.number()
}

/// The channel of this number, of so many, on which these elements can be heard with room for so
/// many bytes.
fn channel_asked(
    number: u8,
    count: usize,
    elements: &[u8],
    capacity: usize,
) -> Result<Channel, Status>
    requires { count ≤ 3 }
    ensures ok { IfOk result (λ channel. (channel_number channel ≡ number)
        × (request_status number count elements.now capacity ≡ Done)) }
    ensures within { OnOk result (number < count) }
    ensures room { OnOk result (4163 ≤ capacity) }
    ensures err { IfErr result (λ status.
        (status ≡ request_status number count elements.now capacity) × (status ≢ Done)) }
{
    let Some(channel) = channel_of(number, count) else {
        return Err(Status::NoChannel);
    };
    if !are_elements(elements) {
        return Err(Status::NoElement);
    }
    if capacity < MAX_ENTRY {
        return Err(Status::NoRoom);
    }
    Ok(channel)
}

/// Whether each byte is one of an element.
fn are_elements(bytes: &[u8]) -> bool
    ensures { result ≡ list_all is_element bytes.now }
{
    bytes.iter().all(|byte| *byte < 2)
}
