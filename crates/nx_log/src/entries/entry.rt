//! An entry of a log, read back.

ghost use Rattle.std.specs.Prelude.{◌≡◌, ◌≢◌, ◌↔◌, ℕ, ◌+◌, ◌<◌, ◌≤◌, List, [], ◌∷◌, ◌++◌, All, IfErr, IfNone, IfOk, IfSome, IsTrue};
ghost use Rattle.nx_envelope.specs.Copies.{errors_of};
ghost use Rattle.nx_copies.specs.copies.Shares.{MarkedCopy};
ghost use Rattle.nx_log.specs.Entries.{IsWholeEntry};
ghost use Rattle.nx_log.specs.Logged.{IsLoggedAs, is_text_byte as the_is_text_byte};
ghost use Rattle.nx_log.specs.View.{IsViewOf};
ghost use Rattle.nx_log.specs.private.Stages.{FromName, IsTextOf, Lacks, Spells};

use crate::entries::head::{LoggedHead, head_at};
use crate::entries::lack::Lack;
use crate::entries::pieces::literal_at;
use nx_code::char_to_code;
use nx_copies::entry_end;

/// The most bytes of a logged entry.
pub const MAX_LOGGED: usize = 4146;

/// An entry as it stands at the beginning of bytes.
#[derive(Clone, Copy, Debug)]
pub struct EntryView<'a> {
    /// What the line that heads it says.
    pub head: LoggedHead,
    /// Its text, newlines and asterisks included.
    pub text: &'a [u8],
    /// How many bytes it has.
    pub len: usize,
}

/// The logged entry with which the bytes begin, whatever stands behind it. `None` exactly where
/// they begin with none.
pub fn entry_at(bytes: &[u8]) -> Option<EntryView>
    ensures found { IfSome result (IsViewOf bytes.now) }
    ensures none { IfNone result ((one : MarkedCopy) (entry more : List ℕ) → IsLoggedAs one entry
        → bytes.now ≢ entry ++ more) }
{
    match read_entry(bytes) {
        Ok(view) => Some(view),
        Err(_) => None,
    }
}

/// The logged entry with which the bytes begin, whatever stands behind it; or what they lack of
/// one.
pub(crate) fn read_entry(bytes: &[u8]) -> Result<EntryView, Lack<'_>>
    ensures found { IfOk result (IsViewOf bytes.now) }
    ensures lacks { IfErr result (λ lack. Lacks FromName bytes.now lack) }
{
    let (head, rest) = head_at(bytes)?;
    let (text, rest) = text_at(rest, head.errors, head.characters)?;
    let rest = literal_at(rest, entry_end(text))?;
    Ok(EntryView {
        head,
        text,
        len: bytes.len() - rest.len(),
    })
}

/// The text of so many errors and characters with which the bytes begin, and what stands behind; or
/// what they lack of one. The errors are at most the characters.
fn text_at(bytes: &[u8], errors: u16, characters: u16) -> Result<(&[u8], &[u8]), Lack<'_>>
    requires { errors ≤ characters }
    ensures found { IfOk result (λ found. (bytes.now ≡ found.0.now ++ found.1.now)
        × IsTextOf errors characters found.0.now found.0.now) }
    ensures lacks { IfErr result (λ lack.
        Lacks (Spells (IsTextOf errors characters)) bytes.now lack) }
{
    let (errors, characters) = (usize::from(errors), usize::from(characters));
    match whole_text(bytes, errors, characters) {
        Some(found) => Ok(found),
        None => Err(text_lack(bytes, errors, characters)),
    }
}

/// Such a text, where the bytes begin with one. It is judged as a whole, which takes less than byte
/// by byte.
fn whole_text(bytes: &[u8], errors: usize, characters: usize) -> Option<(&[u8], &[u8])>
    ensures found { IfSome result (λ found. (bytes.now ≡ found.0.now ++ found.1.now)
        × IsTextOf errors characters found.0.now found.0.now) }
    ensures none { IfNone result ((text more : List ℕ) → IsTextOf errors characters text text
        → bytes.now ≢ text ++ more) }
{
    match bytes.split_at_checked(characters) {
        Some((text, rest)) if is_text(text) && errors_in(text) == errors => Some((text, rest)),
        Some(_) => None,
        None => None,
    }
}

/// What bytes lack of such a text that begin with none.
fn text_lack(bytes: &[u8], errors: usize, characters: usize) -> Lack<'_>
    requires fits { errors ≤ characters }
    requires none { (text more : List ℕ) → IsTextOf errors characters text text
        → bytes.now ≢ text ++ more }
    ensures { Lacks (Spells (IsTextOf errors characters)) bytes.now result }
{
    let (mut lacking, mut left) = (errors, characters);
    let mut rest = bytes;
    while left > 0 {
        let Some((byte, behind)) = rest.split_first() else {
            return Lack::Unfinished;
        };
        if !fits_text(*byte, lacking, left) {
            return Lack::Broken(rest);
        }
        lacking -= usize::from(*byte == b'*');
        left -= 1;
        rest = behind;
    }
    unreachable!()
}

/// Whether a byte may stand where a text lacks so many errors, and no fewer characters.
#[tactic(auto, unfolding(crate::specs::Logged::is_text_byte))]
fn fits_text(byte: u8, errors: usize, characters: usize) -> bool
    requires { errors ≤ characters }
    ensures { IsTrue result ↔ (IsTrue (the_is_text_byte byte)
        × (errors_of (byte ∷ []) ≤ errors) × (errors < errors_of (byte ∷ []) + characters)) }
{
    if byte == b'*' {
        errors > 0
    } else {
        errors < characters && is_text_byte(byte)
    }
}

/// The logged entry that these bytes are, all of them. Its text isn't judged again.
pub(crate) fn whole_entry(bytes: &[u8]) -> EntryView
    requires { IsWholeEntry bytes.now }
    ensures { IsViewOf bytes.now result }
{
    let Ok((head, rest)) = head_at(bytes) else {
        unreachable!()
    };
    EntryView {
        head,
        text: &rest[..usize::from(head.characters)],
        len: bytes.len(),
    }
}

/// Whether each byte may stand in a text.
fn is_text(text: &[u8]) -> bool
    ensures { IsTrue result ↔ All (λ byte. IsTrue (the_is_text_byte byte)) text.now }
{
    text.iter().all(|byte| is_text_byte(*byte))
}

/// Whether a byte may stand in a text: it is a character of the code, or an asterisk.
#[tactic(auto, unfolding(crate::specs::Logged::is_text_byte))]
fn is_text_byte(byte: u8) -> bool
    ensures { result ≡ the_is_text_byte byte }
{
    char_to_code(byte).is_some() || byte == b'*'
}

/// How many asterisks a text has.
fn errors_in(text: &[u8]) -> usize
    ensures { result ≡ errors_of text.now }
{
    text.iter().filter(|byte| **byte == b'*').count()
}
