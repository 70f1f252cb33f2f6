//! What a kept log remembers, taken while it is read.

ghost use Rattle.std.specs.Prelude.{◌≡◌, ◌<◌, ◌≤◌, ℕ, List, [], ◌∷◌, ◌++◌, if◌then◌else◌, IfSome};
ghost use Rattle.nx_fec.specs.air_files.Channels.{same_channel};
ghost use Rattle.nx_code.specs.Lists.{last_of};
ghost use Rattle.nx_envelope.specs.Moment.{last_moment};
ghost use Rattle.nx_fec.specs.declared.air_files.channel.Channel.{Channel as TheChannel};
ghost use Rattle.nx_log.specs.Logged.{IsLoggedAs, remembered_on};
ghost use Rattle.nx_memory.specs.Memory.{most_entries};
ghost use Rattle.nx_memory.specs.declared.memories.entry.MemoryEntry.{MemoryEntry as TheEntry};
ghost use Rattle.nx_copies.specs.copies.Shares.{MarkedCopy};
ghost use Rattle.nx_watch.specs.Watch.{all_saved_at};
ghost use Rattle.nx_watch.specs.private.Remembering.{RemembersMore, entry_found, memory_on};

use crate::kept_log::channel_memory::ChannelMemory;
use nx_fec::Channel;
use nx_log::{entry_at, remembered_of};
use nx_memory::{MemoryEntry, SavedSet};

/// The last 200 entries of a memory that the log remembers of each channel.
#[derive(Drop)]
pub(crate) struct LogMemory {
    on_0: ChannelMemory,
    on_1: ChannelMemory,
    on_2: ChannelMemory,
}

impl LogMemory {
    /// Nothing is remembered.
    pub(crate) fn new() -> LogMemory
        ensures { (channel : TheChannel) → memory_on result channel ≡ [] }
    {
        LogMemory {
            on_0: ChannelMemory::new(),
            on_1: ChannelMemory::new(),
            on_2: ChannelMemory::new(),
        }
    }

    /// Remembers one entry more of a channel, behind the others.
    fn enter(&mut self, channel: Channel, entry: MemoryEntry)
        requires numbered { 0 < entry.identity.number }
        requires in_range { entry.moment ≤ last_moment }
        ensures { (on : TheChannel) (all : List TheEntry)
            → memory_on self.old on ≡ last_of most_entries all
            → memory_on self.new on ≡ last_of most_entries
            (all ++ (if same_channel channel on then entry ∷ [] else [])) }
    {
        match channel {
            Channel::Zero => self.on_0.enter(entry),
            Channel::One => self.on_1.enter(entry),
            Channel::Two => self.on_2.enter(entry),
        }
    }

    /// Takes the logged entry of these bytes, and remembers it where a memory does.
    pub(crate) fn take(&mut self, bytes: &[u8])
        ensures { RemembersMore self.old bytes.now self.new }
    {
        match found_in(bytes) {
            Some((channel, entry)) => self.enter(channel, entry),
            None => {}
        }
    }

    /// What is remembered at a moment.
    pub(crate) fn saved_at(&self, moment: u64) -> SavedSet
        ensures { (entries : List MarkedCopy)
            → ((channel : TheChannel)
            → memory_on self.now channel ≡ remembered_on channel entries)
            → result ≡ all_saved_at moment entries }
    {
        SavedSet::of(
            self.on_0.saved_at(moment),
            self.on_1.saved_at(moment),
            self.on_2.saved_at(moment),
        )
    }
}

/// What a memory remembers of the logged entry of these bytes: its channel, and its identity with
/// its moment.
fn found_in(bytes: &[u8]) -> Option<(Channel, MemoryEntry)>
    ensures found { (one : MarkedCopy) → IsLoggedAs one bytes.now → result ≡ entry_found one }
    ensures numbered { IfSome result (λ found. 0 < found.1.identity.number) }
    ensures in_range { IfSome result (λ found. found.1.moment ≤ last_moment) }
{
    let view = entry_at(bytes)?;
    let entry = remembered_of(&view)?;
    Some((view.head.channel, entry))
}
