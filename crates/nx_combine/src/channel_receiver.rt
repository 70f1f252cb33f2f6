//! The receiver that takes several sendings of a message together, as a receiver of a channel: a
//! listener can be made of it.

use crate::receiver::CombinedReceiver;
use nx_copies::{Entry, EntryHead, Over};
use nx_fec::PackedElements;
use nx_memory::{Renewing, Saved, Selection, Vital};
use nx_receiver::{ChannelReceiver, Command, FreshRecall, MomentFault, ReceiverFault};
use std::alloc::{AllocError, Global};

/// The receiver that takes several sendings together.
impl<M: Renewing + FreshRecall> ChannelReceiver for CombinedReceiver<M> {
    ghost use Rattle.nx_combine.specs.CombinedReceiver.{AwaitsAfterAll, combined_kind};
    ghost use Rattle.nx_combine.specs.Families.{most_families};
    ghost use Rattle.nx_combine.specs.private.CombiningLaws.{combining-receiver, none-awaited};

    type Over = Over;

    ghost kind = { combined_kind M.content };

    ghost awaits = { AwaitsAfterAll M.content };

    fn from_saved(
        alloc: Global,
        selected: Selection,
        kept: &Saved,
        moment: u64,
    ) -> Result<CombinedReceiver<M>, AllocError> {
        let mut memory = M::fresh(alloc)?;
        kept.load(&mut memory);
        match CombinedReceiver::starting(alloc, memory, moment, selected) {
            Ok(receiver) => Ok(receiver),
            Err(ReceiverFault::Memory(refused)) => Err(refused),
            Err(ReceiverFault::MomentRange) => unreachable!(),
        }
    }

    fn set_moment(&mut self, moment: u64) -> Result<(), MomentFault> {
        CombinedReceiver::set_moment(self, moment)
    }

    #[inline(always)]
    fn command(&mut self, command: Command) -> Result<(), Vital> {
        CombinedReceiver::command(self, command)
    }

    #[inline(always)]
    fn hear(&mut self, packed: &PackedElements, from: usize) -> (usize, Option<Over>) {
        CombinedReceiver::hear(self, packed, from)
    }

    #[inline(always)]
    fn finish(&mut self, over: Over) -> Option<EntryHead> {
        CombinedReceiver::finish(self, over)
    }

    #[inline(always)]
    fn text(&self) -> &[u8] {
        CombinedReceiver::text(self)
    }

    #[inline(always)]
    fn close(self) -> Option<Entry> {
        CombinedReceiver::close(self)
    }

    ghost laws = { combining-receiver most_families M.content };

    ghost none_awaited = { none-awaited most_families M.content };
}
