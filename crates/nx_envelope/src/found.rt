//! What the finder hands out.

ghost use Rattle.std.specs.Prelude.{◌≡◌};
ghost use Rattle.nx_envelope.specs.Copies.{errors_of};

use crate::identity::Identity;
use arrayvec::ArrayVec;

/// The most characters of a found text.
pub const MAX_FOUND: usize = 4100;

/// How a copy ended.
#[derive(Clone, Copy, PartialEq, Eq, Debug)]
pub enum How {
    /// With `NNNN`.
    Full,
    /// With `ZCZC`, or where the text ended.
    Cut,
    /// With 4,100 characters.
    Long,
}

/// A copy of a message that has ended.
#[derive(Debug, Drop)]
pub struct Found {
    /// The identity in its header.
    pub identity: Identity,
    /// Its found text, newlines and asterisks included, without the marker that ended it.
    pub text: ArrayVec<u8, MAX_FOUND>,
    /// Its errors, the asterisks in its text.
    pub errors: u16,
    /// How it ended.
    pub how: How,
    pub ghost counted: { errors ≡ errors_of text.items },
}

/// A copy of a message that has ended, without its text.
#[derive(Clone, Copy, PartialEq, Eq, Debug)]
pub struct FoundHead {
    /// The identity in its header.
    pub identity: Identity,
    /// Its errors, the asterisks in its text.
    pub errors: u16,
    /// How it ended.
    pub how: How,
}

/// What a byte of a received text brings.
#[derive(Debug, Drop)]
pub enum FinderStep {
    /// It completes no header and ends no copy.
    Nothing,
    /// It is the second digit of a header: a copy begins.
    Header(Identity),
    /// It completes the marker that ends a copy, or is the last of 4,100 characters.
    Over(Found),
}

/// What a byte of a received text brings, where the copy that it may end is left with the finder.
#[derive(Clone, Copy, PartialEq, Eq, Debug)]
pub enum TextEvent {
    /// It completes no header and ends no copy.
    Nothing,
    /// It is the second digit of a header: a copy begins.
    Header(Identity),
    /// It ends a copy, which can be taken.
    CopyOver,
}

/// What a finder holds of a copy, beside its text.
#[derive(Clone, Copy, Debug)]
pub enum HeldCopy {
    /// No copy.
    Nothing,
    /// An open copy; `true` where nothing stands behind its header yet.
    Open(Identity, bool),
    /// A copy that the last byte ended, and that was not taken.
    Ready(Identity, How),
}
