//! A place in which each copy is judged alone.

use crate::kept_place::KeptPlace;
use nx_copies::EntryHead;
use nx_fec::{Channel, PackedElements};
use nx_memory::{PlainRecall, Saved, Selection, Vital};
use nx_receiver::{Command, MomentFault, Receiver};
use std::mem;

/// The place of a channel whose receiver judges each copy alone.
#[derive(Drop)]
pub enum PlainPlace {
    /// The receiver is closed.
    Closed,
    /// The channel hears, with a receiver of its own.
    Hears(Receiver<PlainRecall>),
    /// The end of the channel has come.
    Ended,
}

impl KeptPlace for PlainPlace {
    ghost use Rattle.nx_handle.specs.PlainPlaces.{plain_place};
    ghost use Rattle.nx_handle.specs.private.PlainPlaces.{plain-laws};

    ghost kind = { plain_place };

    fn is_hearing(&self) -> bool {
        matches!(self, PlainPlace::Hears(_))
    }

    fn is_closed(&self) -> bool {
        matches!(self, PlainPlace::Closed)
    }

    fn shut(&mut self) {
        *self = PlainPlace::Closed;
    }

    // A call, so that its stack is free again before the next channel. The receiver is built in its
    // place, as each move of one would take as much of the stack.
    #[inline(never)]
    fn begin_new(&mut self) {
        let Ok(receiver) = Receiver::starting(PlainRecall::new(), 0, Selection::all()) else {
            unreachable!()
        };
        *self = PlainPlace::Hears(receiver);
    }

    // A call as well. The memory comes by reference, since a value that is given takes a second
    // place.
    #[inline(never)]
    fn begin(&mut self, memory: &mut PlainRecall, moment: u64, selection: Selection) {
        let entries = mem::replace(memory, PlainRecall::new());
        let Ok(receiver) = Receiver::starting(entries, moment, selection) else {
            unreachable!()
        };
        *self = PlainPlace::Hears(receiver);
    }

    fn set_moment(&mut self, moment: u64) -> Result<(), MomentFault> {
        let PlainPlace::Hears(receiver) = self else {
            unreachable!()
        };
        receiver.set_moment(moment)
    }

    fn command(&mut self, command: Command) -> Result<(), Vital> {
        let PlainPlace::Hears(receiver) = self else {
            unreachable!()
        };
        receiver.command(command)
    }

    fn next_printed(&mut self, packed: &PackedElements, from: usize) -> (usize, Option<EntryHead>) {
        let PlainPlace::Hears(receiver) = self else {
            unreachable!()
        };
        receiver.next_printed(packed, from)
    }

    fn text(&self) -> &[u8] {
        let PlainPlace::Hears(receiver) = self else {
            return &[];
        };
        receiver.text()
    }

    fn end(&mut self) -> Option<EntryHead> {
        let PlainPlace::Hears(receiver) = self else {
            unreachable!()
        };
        receiver.end()
    }

    fn leave(&mut self) {
        *self = PlainPlace::Ended;
    }

    // Built in the place of its caller.
    #[inline(always)]
    fn left_on(places: &[PlainPlace], channel: Channel) -> Saved {
        match places.get(usize::from(channel.number())) {
            Some(PlainPlace::Hears(receiver)) => receiver.saved(),
            _ => Saved::new(),
        }
    }

    fn sendings(&self) -> u64 {
        1
    }

    ghost laws = { plain-laws };
}
