//! A memory of identities that enters what it knows.

ghost use Rattle.std.specs.Prelude.{◌≡◌, ◌<◌, ◌≤◌};
ghost use Rattle.nx_memory.specs.Memory.{content_after, newest_moment};

use crate::memories::recall::Recall;
use nx_envelope::Identity;

/// A memory in which an identity can be entered once more while it is known. Of its entries, which
/// may have one moment, the last one counts; each is one of the last 200.
pub trait Renewing: Recall {
    /// Enters the identity, whether it is known or not, with the moment, which isn't before the
    /// newest. Where there are 200 entries already the oldest is forgotten. The number 00 is never
    /// entered.
    fn renew(&mut self, identity: Identity, moment: u64)
        requires not_before { newest_moment (Self.content self.old) ≤ moment }
        requires numbered { 0 < identity.number }
        ensures { Self.content self.new ≡ content_after (Self.content self.old) identity moment };
}
