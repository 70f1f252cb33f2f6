//! The line that heads an entry, read back.

ghost use Rattle.std.specs.Prelude.{◌≡◌, ℕ, ◌≤◌, List, [], ◌∷◌, ◌++◌, IfErr, IfOk};
ghost use Rattle.nx_envelope.specs.Identity.{identity_bytes};
ghost use Rattle.nx_envelope.specs.Moment.{IsShownAs, last_moment};
ghost use Rattle.nx_envelope.specs.declared.found.How.{How as TheHow};
ghost use Rattle.nx_copies.specs.copies.Log.{channel_mark, how_name};
ghost use Rattle.nx_log.specs.private.Heads.{BeginsWithHead, IsHead};
ghost use Rattle.nx_log.specs.private.Stages.{FromName, IsEnd, IsMark, IsName, IsTime, Lacks, Spells};

use crate::entries::lack::Lack;
use crate::entries::moment::civil_at;
use crate::entries::pieces::{byte_at, count_at, literal_at, number_at};
use nx_envelope::{How, Identity, Letter};
use nx_fec::Channel;

/// What the line that heads an entry says.
#[derive(Clone, Copy, Debug, PartialEq, Eq)]
pub struct LoggedHead {
    /// The channel on which the copy was heard.
    pub channel: Channel,
    /// Its identity.
    pub identity: Identity,
    /// Its moment, in whole seconds since 1970-01-01 00:00:00 UTC.
    pub moment: u64,
    /// How it ended.
    pub how: How,
    /// Its errors, the asterisks in its text.
    pub errors: u16,
    /// How many characters its text has.
    pub characters: u16,
}

/// The head with which the bytes begin, and what stands behind its newline; or what they lack of an
/// entry, whose errors are at most its characters.
pub(crate) fn head_at(bytes: &[u8]) -> Result<(LoggedHead, &[u8]), Lack<'_>>
    ensures found { IfOk result (λ found. BeginsWithHead bytes.now found.0 found.1.now
        × IsHead found.0) }
    ensures lacks { IfErr result (λ lack. Lacks FromName bytes.now lack) }
{
    let (identity, rest) = name_at(bytes)?;
    let (channel, rest) = mark_at(rest)?;
    let (moment, rest) = time_at(rest)?;
    let (how, rest) = how_at(rest)?;
    let (errors, rest) = count_at(rest, 0, b'/')?;
    let (characters, rest) = count_at(rest, errors, b']')?;
    let rest = literal_at(rest, b"\n")?;
    let head = LoggedHead {
        channel,
        identity,
        moment,
        how,
        errors,
        characters,
    };
    Ok((head, rest))
}

/// The bracket and the identity with which the bytes begin, and what stands behind; or what they
/// lack of these.
fn name_at(bytes: &[u8]) -> Result<(Identity, &[u8]), Lack<'_>>
    ensures found { IfOk result (λ found.
        bytes.now ≡ (91 ∷ identity_bytes found.0) ++ found.1.now) }
    ensures lacks { IfErr result (λ lack. Lacks (Spells IsName) bytes.now lack) }
{
    let rest = literal_at(bytes, b"[")?;
    let (b1, rest) = byte_at(rest, b'A', b'Z')?;
    let (b2, rest) = byte_at(rest, b'A', b'Z')?;
    let (number, rest) = number_at(rest, b"", 0, 99)?;
    let identity = Identity {
        b1: Letter::of_capital(b1),
        b2: Letter::of_capital(b2),
        number,
    };
    Ok((identity, rest))
}

/// The same of the mark of a channel and the space behind it.
fn mark_at(bytes: &[u8]) -> Result<(Channel, &[u8]), Lack<'_>>
    ensures found { IfOk result (λ found.
        bytes.now ≡ channel_mark found.0 ++ (32 ∷ found.1.now)) }
    ensures lacks { IfErr result (λ lack. Lacks (Spells IsMark) bytes.now lack) }
{
    if let [b' ', rest @ ..] = bytes {
        return Ok((Channel::Zero, rest));
    }
    let rest = literal_at(bytes, b"/")?;
    let (digit, rest) = byte_at(rest, b'1', b'2')?;
    let rest = literal_at(rest, b" ")?;
    if digit == b'1' {
        Ok((Channel::One, rest))
    } else {
        Ok((Channel::Two, rest))
    }
}

/// The same of the civil time and the space behind it, as its moment.
fn time_at(bytes: &[u8]) -> Result<(u64, &[u8]), Lack<'_>>
    ensures found { IfOk result (λ found. (civil : List ℕ) × IsShownAs found.0 civil
        × (bytes.now ≡ civil ++ (32 ∷ found.1.now))) }
    ensures in_range { IfOk result (λ found. found.0 ≤ last_moment) }
    ensures lacks { IfErr result (λ lack. Lacks (Spells IsTime) bytes.now lack) }
{
    let (moment, rest) = civil_at(bytes)?;
    let rest = literal_at(rest, b" ")?;
    Ok((moment, rest))
}

/// The same of the name of an end and the space behind it.
fn how_at(bytes: &[u8]) -> Result<(How, &[u8]), Lack<'_>>
    ensures found { IfOk result (λ found. bytes.now ≡ how_name found.0 ++ (32 ∷ found.1.now)) }
    ensures lacks { IfErr result (λ lack. Lacks (Spells IsEnd) bytes.now lack) }
{
    let (how, name) = end_begun(bytes);
    let rest = literal_at(bytes, name)?;
    Ok((how, rest))
}

/// The one end whose name the first byte can begin, and that name with the space behind it.
fn end_begun(bytes: &[u8]) -> (How, &'static [u8])
    ensures name { result.1.now ≡ how_name result.0 ++ (32 ∷ []) }
    ensures only { (how : TheHow) (first : ℕ) (behind x y : List ℕ)
        → bytes.now ≡ first ∷ behind → first ∷ x ≡ how_name how ++ (32 ∷ y) → how ≡ result.0 }
{
    match bytes {
        [b'c', ..] => (How::Cut, b"cut "),
        [b'l', ..] => (How::Long, b"long "),
        _ => (How::Full, b"full "),
    }
}
