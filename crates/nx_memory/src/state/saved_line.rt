//! A line of the text of a state that says what is saved of a channel.

ghost use Rattle.std.specs.Prelude.{◌≡◌, ◌≢◌, ◌≤◌, ℕ, length, IfSome, IfNone};
ghost use Rattle.std.specs.Fmt.{decimal};
ghost use Rattle.nx_envelope.specs.declared.identity.Identity.{Identity as TheIdentity};
ghost use Rattle.nx_envelope.specs.Identity.{identity_bytes};
ghost use Rattle.nx_envelope.specs.Moment.{last_moment};
ghost use Rattle.nx_memory.specs.StateText.{spelling};
ghost use Rattle.nx_memory.specs.declared.state.saved_line.SavedLine.{SavedLine as TheLine};
ghost use Rattle.nx_memory.specs.private.StateReading.{IsSpelled};

use crate::memories::entry::MemoryEntry;
use arrayvec::ArrayVec;
use itoa::Buffer;
use nx_code::decimal_number;
use nx_envelope::{Identity, LAST_MOMENT};

/// The most bytes of a line of the text of a state, without its line feed.
pub const MAX_STATE_LINE: usize = 16;

/// What a line says that stands behind the head of a channel.
#[derive(Clone, Copy)]
pub(crate) enum SavedLine {
    /// `RS`: the station of this letter is refused.
    Station(u8),
    /// `RJ`: the subject of this letter is refused.
    Subject(u8),
    /// An entry: its identity and its moment.
    Entry(MemoryEntry),
}

impl SavedLine {
    /// The line, without its line feed.
    pub(crate) fn bytes(self) -> ArrayVec<u8, MAX_STATE_LINE>
        requires { IsSpelled self }
        ensures { result.items ≡ spelling self }
    {
        match self {
            SavedLine::Station(letter) => fixed_line(&[b'R', b'S', b' ', letter]),
            SavedLine::Subject(letter) => fixed_line(&[b'R', b'J', b' ', letter]),
            SavedLine::Entry(entry) => {
                let mut line = fixed_line(&entry.identity.bytes());
                line.push(b' ');
                let mut digits = Buffer::new();
                let moment = digits.format(entry.moment);
                line.try_extend_from_slice(moment.as_bytes()).unwrap();
                line
            }
        }
    }
}

/// These bytes as a line.
pub(crate) fn fixed_line(bytes: &[u8]) -> ArrayVec<u8, MAX_STATE_LINE>
    requires { length bytes.now ≤ 16 }
    ensures { result.items ≡ bytes.now }
{
    let mut line = ArrayVec::new();
    line.try_extend_from_slice(bytes).unwrap();
    line
}

/// What a line says, given without its line feed. `None` where it is no refused station or subject
/// and no entry.
pub(crate) fn saved_line(line: &[u8]) -> Option<SavedLine>
    ensures found { IfSome result (λ said. IsSpelled said × (line.now ≡ spelling said)) }
    ensures none { IfNone result ((said : TheLine) → IsSpelled said → line.now ≢ spelling said) }
{
    match line {
        [b'R', b'S', b' ', letter] => Some(SavedLine::Station(*letter)),
        [b'R', b'J', b' ', letter] => Some(SavedLine::Subject(*letter)),
        [b1, b2, tens, units, b' ', digits @ ..] => {
            let identity = Identity::from_bytes([*b1, *b2, *tens, *units])?;
            let moment = decimal_number(digits, LAST_MOMENT)?;
            Some(SavedLine::Entry(MemoryEntry { identity, moment }))
        }
        _ => None,
    }
}
