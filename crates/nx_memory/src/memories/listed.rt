//! A memory of identities whose entries can be listed.

ghost use Rattle.std.specs.Prelude.{◌≡◌, length};
ghost use Rattle.nx_memory.specs.Content.{IsContent};
ghost use Rattle.nx_memory.specs.Memory.{entry_at};

use crate::memories::recall::Recall;
use nx_envelope::Identity;

/// A memory that tells its entries, oldest first: their moments never fall, none is numbered 00,
/// and two of one identity are at least 66 hours apart.
pub trait Listed: Recall {
    /// How many entries it has, at most 200.
    fn count(&self) -> usize
        ensures count { result ≡ length (Self.content self.now) }
        ensures in_turn { IsContent (Self.content self.now) };

    /// The entry at that place, from 0, the oldest, with its moment in whole seconds since
    /// 1970-01-01 00:00:00 UTC; `None` past the newest.
    fn entry(&self, place: usize) -> Option<(Identity, u64)>
        ensures { result ≡ entry_at (Self.content self.now) place };
}
