//! What a memory of identities answers, whatever holds it.

ghost use Rattle.std.specs.Prelude.{◌≡◌, ◌-◌, ◌<◌, ◌≤◌, nat_lt, List, length, false};
ghost use Rattle.nx_memory.specs.declared.memories.entry.MemoryEntry.{MemoryEntry};
ghost use Rattle.nx_memory.specs.Memory.{most_entries, is_known, content_after};
ghost use Rattle.nx_memory.specs.Memory.{newest_of, newest_moment, seconds_known};

use nx_envelope::Identity;

/// How many entries a memory keeps: those before the last 200 are forgotten (this profile).
pub const CAPACITY: usize = 200;

/// How long an entry makes its identity known, in seconds: 66 hours (this profile).
pub const LIFETIME: u64 = 237_600;

/// Whether an entry of the one moment is less than 66 hours old at the other. One that is entered
/// later is.
#[inline(always)]
pub fn is_recent(entered: u64, moment: u64) -> bool
    ensures { result ≡ nat_lt (moment - entered) seconds_known }
{
    moment.saturating_sub(entered) < LIFETIME
}

/// A memory of the last 200 identities entered, each with its moment, in whole seconds since
/// 1970-01-01 00:00:00 UTC. Its calls take no memory.
pub trait Recall: Drop {
    /// The last 200 entries made, oldest first.
    ghost content: { Self → List MemoryEntry };

    /// The moment of the entry made last, `None` where there is none.
    fn newest(&self) -> Option<u64>
        ensures last { result ≡ newest_of (content self.now) }
        ensures bounded { length (content self.now) ≤ most_entries };

    /// Whether an entry of the identity is less than 66 hours old at the moment, which isn't before
    /// the newest.
    fn knows(&self, identity: &Identity, moment: u64) -> bool
        requires { newest_moment (content self.now) ≤ moment }
        ensures { result ≡ is_known identity.now moment (content self.now) };

    /// Enters the identity with the moment, which isn't before the newest; where there are 200
    /// entries already the oldest is forgotten. What is known isn't entered again, and the number
    /// 00 never is, since a message so numbered that is selected is always printed (ITU-R M.540).
    fn enter(&mut self, identity: Identity, moment: u64)
        requires not_before { newest_moment (content self.old) ≤ moment }
        requires unknown { is_known identity moment (content self.old) ≡ false }
        requires numbered { 0 < identity.number }
        ensures { content self.new ≡ content_after (content self.old) identity moment };
}
