//! What a receiver has between two calls, where it is open.

ghost use Rattle.std.specs.Prelude.{◌≡◌, IfOk};
ghost use Rattle.nx_receiver.specs.Commands.{by_byte};
ghost use Rattle.nx_handle.specs.CallerRoom.{room};
ghost use Rattle.nx_handle.specs.Closing.{AnswersClosing};
ghost use Rattle.nx_handle.specs.Hearing.{AnswersHearing};
ghost use Rattle.nx_handle.specs.Opening.{AnswersMoment, AnswersOpening};
ghost use Rattle.nx_handle.specs.Places.{all_hear};
ghost use Rattle.nx_handle.specs.Saving.{AnswersOpeningFrom, AnswersSaving};
ghost use Rattle.nx_handle.specs.Selecting.{AnswersSelecting, command_status};
ghost use Rattle.nx_handle.specs.Sendings.{AnswersSendings};
ghost use Rattle.nx_c.specs.ByKind.{AnswersIn, is_closed};
ghost use Rattle.nx_c.specs.Opening.{IsReady};

use crate::receiver::family_block::FamilyBlock;
use crate::receiver::three_places::ThreePlaces;
use nx_handle::{CombiningPlace, PlainPlace, are_closed};
use nx_receiver::Command;
use std::alloc::{AllocError, Global};

/// What a receiver has between two calls, where it is open: the places of its three channels.
#[derive(Drop)]
pub enum OpenReceiver {
    /// It holds no families: each sending of a message is taken alone.
    Plain(ThreePlaces<PlainPlace>),
    /// The sendings of a message are taken together.
    Combining(ThreePlaces<CombiningPlace<FamilyBlock>>),
}

impl OpenReceiver {
    /// One that is closed, and holds so many families on each channel. Takes all memory that it
    /// ever needs; fails where there is none.
    pub(crate) fn closed(alloc: Global, families: usize) -> Result<Box<OpenReceiver>, AllocError>
        ensures { IfOk result (λ opened. IsReady families opened.value) }
    {
        let closed = if families == 0 {
            OpenReceiver::Plain(ThreePlaces::plain(alloc)?)
        } else {
            OpenReceiver::Combining(ThreePlaces::combining(alloc, families)?)
        };
        Ok(Box::new(alloc, closed)?)
    }

    /// Opens it at a moment, as `nx_handle::open` does.
    pub(crate) fn open(&mut self, moment: u64) -> u32
        ensures { AnswersIn (λ P kind old new. AnswersOpening kind moment old new result)
            self.old self.new }
    {
        match self {
            OpenReceiver::Plain(three) => nx_handle::open(&mut three.places, moment),
            OpenReceiver::Combining(three) => nx_handle::open(&mut three.places, moment),
        }
    }

    /// Opens it from a state, as `nx_handle::open_from` does.
    pub(crate) fn open_from(&mut self, state: &[u8]) -> u32
        ensures { AnswersIn (λ P kind old new. AnswersOpeningFrom kind state.now old new result)
            self.old self.new }
    {
        match self {
            OpenReceiver::Plain(three) => nx_handle::open_from(&mut three.places, state),
            OpenReceiver::Combining(three) => nx_handle::open_from(&mut three.places, state),
        }
    }

    /// Sets its moment, as `nx_handle::set_moment` does.
    pub(crate) fn set_moment(&mut self, moment: u64) -> u32
        ensures { AnswersIn
            (λ P kind old new. AnswersMoment kind moment old new result (all_hear kind old))
            self.old self.new }
    {
        match self {
            OpenReceiver::Plain(three) => nx_handle::set_moment(&mut three.places, moment),
            OpenReceiver::Combining(three) => nx_handle::set_moment(&mut three.places, moment),
        }
    }

    /// Hears elements of a channel, as `nx_handle::hear` does.
    pub(crate) fn hear(
        &mut self,
        channel: u8,
        elements: &[u8],
        heard: &mut usize,
        log: &mut [u8],
        written: &mut usize,
    ) -> u32
        ensures { AnswersIn (λ P kind old new. AnswersHearing kind channel elements.now old new
            heard.new (room log.old log.new written.new) result) self.old self.new }
    {
        match self {
            OpenReceiver::Plain(three) => {
                nx_handle::hear(&mut three.places, channel, elements, heard, log, written)
            }
            OpenReceiver::Combining(three) => {
                nx_handle::hear(&mut three.places, channel, elements, heard, log, written)
            }
        }
    }

    /// From how many sendings the entry is put together that a channel printed last, as
    /// `nx_handle::sendings` tells.
    pub(crate) fn sendings(&self, channel: u8, sendings: &mut u64) -> u32
        ensures { AnswersIn
            (λ P kind places same. AnswersSendings kind channel places sendings.new result)
            self.now self.now }
    {
        match self {
            OpenReceiver::Plain(three) => nx_handle::sendings(&three.places, channel, sendings),
            OpenReceiver::Combining(three) => nx_handle::sendings(&three.places, channel, sendings),
        }
    }

    /// Gives a command for the letter of a byte to a channel, as `nx_handle::select` does.
    pub(crate) fn select(&mut self, channel: u8, command: Command<u8>) -> u32
        ensures { AnswersIn (λ P kind old new. AnswersSelecting kind
            (command_status channel 3 command) (by_byte command) channel old new result)
            self.old self.new }
    {
        match self {
            OpenReceiver::Plain(three) => nx_handle::select(&mut three.places, channel, command),
            OpenReceiver::Combining(three) => {
                nx_handle::select(&mut three.places, channel, command)
            }
        }
    }

    /// Copies the text of its state out, as `nx_handle::save` does.
    pub(crate) fn save(&self, state: &mut [u8], written: &mut usize) -> u32
        ensures { AnswersIn (λ P kind old new. AnswersSaving kind old new
            (room state.old state.new written.new) result) self.now self.now }
    {
        match self {
            OpenReceiver::Plain(three) => nx_handle::save(&three.places, state, written),
            OpenReceiver::Combining(three) => nx_handle::save(&three.places, state, written),
        }
    }

    /// Ends its elements, as `nx_handle::close` does.
    pub(crate) fn close(&mut self, log: &mut [u8], written: &mut usize) -> u32
        ensures { AnswersIn (λ P kind old new. AnswersClosing kind old new
            (room log.old log.new written.new) result) self.old self.new }
    {
        match self {
            OpenReceiver::Plain(three) => nx_handle::close(&mut three.places, log, written),
            OpenReceiver::Combining(three) => nx_handle::close(&mut three.places, log, written),
        }
    }

    /// Whether it is closed.
    pub(crate) fn is_closed(&self) -> bool
        ensures { result ≡ is_closed self.now }
    {
        match self {
            OpenReceiver::Plain(three) => are_closed(&three.places),
            OpenReceiver::Combining(three) => are_closed(&three.places),
        }
    }
}
