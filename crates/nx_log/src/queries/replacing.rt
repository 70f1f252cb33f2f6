//! Which entry of a log takes the place of another.

ghost use Rattle.std.specs.Prelude.{◌≡◌};
ghost use Rattle.nx_log.specs.Last as spec;
ghost use Rattle.nx_log.specs.private.Heads.{head_is_better, head_of_message, head_replaces};

use crate::entries::head::LoggedHead;
use nx_envelope::How;
use nx_memory::is_recent;

impl LoggedHead {
    /// Whether the entry that it heads takes the place of one that stood before it: one of the same
    /// message, less than 66 hours older, and not better.
    pub(crate) fn replaces(&self, earlier: &LoggedHead) -> bool
        ensures { result ≡ head_replaces self.now earlier.now }
    {
        self.is_of_message(earlier)
            && is_within_66_hours(earlier.moment, self.moment)
            && !earlier.is_better(self)
    }

    /// Whether both are of one message: of one identity, not numbered 00, and of one channel.
    fn is_of_message(&self, other: &LoggedHead) -> bool
        ensures { result ≡ head_of_message self.now other.now }
    {
        other.identity.number() != 0
            && self.identity == other.identity
            && self.channel.number() == other.channel.number()
    }

    /// Whether the entry that it heads is better than another: it is full and the other isn't, or
    /// both are or neither is and it has fewer errors.
    fn is_better(&self, other: &LoggedHead) -> bool
        ensures { result ≡ head_is_better self.now other.now }
    {
        match (self.how, other.how) {
            (How::Full, How::Cut | How::Long) => true,
            (How::Cut | How::Long, How::Full) => false,
            _ => self.errors < other.errors,
        }
    }
}

/// Whether a moment isn't before the first, and is less than 66 hours after it.
fn is_within_66_hours(first: u64, moment: u64) -> bool
    ensures { result ≡ spec.is_within_66_hours first moment }
{
    first <= moment && is_recent(first, moment)
}
