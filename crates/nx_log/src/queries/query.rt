//! Which entries of a log are asked for.

ghost use Rattle.std.specs.Prelude.{◌≡◌, ℕ, List, None, false, length};
ghost use Rattle.nx_envelope.specs.Copies.{errors_of};
ghost use Rattle.nx_log.specs.Query as spec;
ghost use Rattle.nx_log.specs.View.{copy_said};

use crate::entries::head::LoggedHead;
use crate::queries::letters::Letters;
use nx_envelope::Letter;
use nx_fec::Channel;

/// Which entries of a log are asked for: those of which all that is named here is true.
#[derive(Clone, Copy, Debug)]
pub struct Query {
    /// Their stations.
    pub stations: Option<Letters>,
    /// Their subjects.
    pub subjects: Option<Letters>,
    /// The channel on which they were heard.
    pub channel: Option<Channel>,
    /// The first of their moments, in whole seconds since 1970-01-01 00:00:00 UTC.
    pub since: Option<u64>,
    /// The last of their moments.
    pub until: Option<u64>,
    /// Whether good ones alone are asked for: full, and 25 times their errors less than the larger
    /// of 1 and their characters.
    pub good: bool,
    /// Whether of these entries the last one of each message alone is asked for: none that an entry
    /// behind it replaces, which is of its identity and channel, less than 66 hours later, and not
    /// worse.
    pub last: bool,
}

impl Query {
    /// Asks for all entries.
    pub fn all() -> Query
        ensures stations { result.stations ≡ None }
        ensures subjects { result.subjects ≡ None }
        ensures channel { result.channel ≡ None }
        ensures since { result.since ≡ None }
        ensures until { result.until ≡ None }
        ensures good { result.good ≡ false }
        ensures last { result.last ≡ false }
    {
        Query {
            stations: None,
            subjects: None,
            channel: None,
            since: None,
            until: None,
            good: false,
            last: false,
        }
    }

    /// Whether it admits the entry that this heads, whatever stands behind it.
    pub fn admits(&self, head: &LoggedHead) -> bool
        ensures { (text : List ℕ) → head.now.errors ≡ errors_of text
            → head.now.characters ≡ length text
            → result ≡ spec.admits self.now (copy_said head.now text) }
    {
        is_among(&self.stations, head.identity.b1())
            && is_among(&self.subjects, head.identity.b2())
            && is_heard_on(self.channel, head.channel)
            && is_since(self.since, head.moment)
            && is_until(self.until, head.moment)
            && (!self.good || head.is_good())
    }
}

/// Whether the letter is one of these, where letters are named.
fn is_among(letters: &Option<Letters>, letter: Letter) -> bool
    ensures { result ≡ spec.is_among letters.now letter.byte }
{
    match letters {
        Some(letters) => letters.contains(letter),
        None => true,
    }
}

/// Whether the channel is this one, where one is named.
fn is_heard_on(named: Option<Channel>, channel: Channel) -> bool
    ensures { result ≡ spec.is_heard_on named channel }
{
    match named {
        Some(named) => named.number() == channel.number(),
        None => true,
    }
}

/// Whether the moment is this one or later, where one is named.
fn is_since(first: Option<u64>, moment: u64) -> bool
    ensures { result ≡ spec.is_since first moment }
{
    match first {
        Some(first) => first <= moment,
        None => true,
    }
}

/// Whether the moment is this one or earlier, where one is named.
fn is_until(last: Option<u64>, moment: u64) -> bool
    ensures { result ≡ spec.is_until last moment }
{
    match last {
        Some(last) => moment <= last,
        None => true,
    }
}
