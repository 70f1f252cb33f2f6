//! An entry of the log, and what its first line says.

ghost use Rattle.std.specs.Prelude.{◌≡◌};
ghost use Rattle.nx_envelope.specs.Copies.{errors_of};

use arrayvec::ArrayVec;
use nx_envelope::{Found, How, Identity, MAX_FOUND};
use nx_fec::append;

/// What the line that heads an entry says of a copy that is printed. How long its text is, the text
/// says.
#[derive(Clone, Copy, Debug, PartialEq, Eq)]
pub struct EntryHead {
    /// The identity in its header.
    pub identity: Identity,
    /// The moment in force at the second digit of its header, in whole seconds since 1970-01-01
    /// 00:00:00 UTC.
    pub moment: u64,
    /// How it ended.
    pub how: How,
    /// Its errors, the asterisks in its text.
    pub errors: u16,
}

/// A copy of a message that is printed.
#[derive(Debug, Drop)]
pub struct Entry {
    /// The identity in its header.
    pub identity: Identity,
    /// The moment in force at the second digit of its header, in whole seconds since 1970-01-01
    /// 00:00:00 UTC.
    pub moment: u64,
    /// How it ended.
    pub how: How,
    /// Its errors, the asterisks in its text.
    pub errors: u16,
    /// Its text, newlines and asterisks included, without the marker that ended it.
    pub text: ArrayVec<u8, MAX_FOUND>,
    pub ghost counted: { errors ≡ errors_of text.items },
}

impl Entry {
    ghost use Rattle.std.specs.Prelude.{◌≤◌, length, true};
    ghost use Rattle.nx_copies.specs.copies.FoundCopies.{copy_of, headed_copy, tagged_found};

    /// The entry of a copy that is printed, with its moment.
    pub fn new(found: Found, moment: u64) -> Entry
        ensures copy { copy_of result ≡ tagged_found found moment true }
        ensures moment { result.moment ≡ moment }
    {
        Entry {
            identity: found.identity,
            moment,
            how: found.how,
            errors: found.errors,
            text: found.text,
        }
    }

    /// The entry of a copy that is printed, by its head and its text, which is copied. The text has
    /// at most 4,100 bytes, and the errors of the head are those of the text, its `*`.
    pub fn of(head: &EntryHead, text: &[u8]) -> Entry
        requires errors { head.now.errors ≡ errors_of text.now }
        requires short { length text.now ≤ MAX_FOUND }
        ensures copy { copy_of result ≡ headed_copy head.now text.now true }
        ensures moment { result.moment ≡ head.now.moment }
    {
        let mut copied = ArrayVec::new();
        append(&mut copied, text);
        Entry {
            identity: head.identity,
            moment: head.moment,
            how: head.how,
            errors: head.errors,
            text: copied,
        }
    }
}
