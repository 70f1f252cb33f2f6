//! What one element brings.

ghost use Rattle.std.specs.Prelude.{◌≡◌};
ghost use Rattle.nx_sync.specs.Words.{other_role};

use nx_code::Word;

/// The role of a word: each position is sent first as DX and again, five words later, as RX (M.625,
/// mode B).
#[derive(Clone, Copy, Debug, PartialEq, Eq)]
pub enum Role {
    /// The first sending.
    Dx,
    /// The second sending.
    Rx,
}

impl Role {
    /// The other role: roles alternate.
    pub(crate) fn other(self) -> Role
        ensures { result ≡ other_role self }
    {
        match self {
            Role::Dx => Role::Rx,
            Role::Rx => Role::Dx,
        }
    }
}

/// A change of what stands (this profile).
#[derive(Clone, Copy, Debug, PartialEq, Eq)]
pub enum Change {
    /// A lock was found: its first word begins with the next element.
    Locked,
    /// The lock is over: its last word is the third after two DX words in a row that were phasing
    /// signal 1.
    Ended,
    /// The lock is over, since too many of its last words had the wrong weight.
    LostLock,
}

/// What one element brings: the word that it completes, with its role, and a change.
#[derive(Clone, Copy, Debug, PartialEq, Eq)]
pub struct Step {
    /// The word of a lock that this element completes.
    pub word: Option<(Word, Role)>,
    /// The change that this element brings. A lock that is over was released by `word`.
    pub change: Option<Change>,
}

impl Step {
    /// The step of an element that completes no word and changes nothing.
    pub(crate) const NOTHING: Step = Step {
        word: None,
        change: None,
    };

    /// The step of an element at which a lock is found.
    pub(crate) const LOCKED: Step = Step {
        word: None,
        change: Some(Change::Locked),
    };
}
