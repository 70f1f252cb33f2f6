//! The finder of copies, which sees a received text byte by byte. What runs for each byte, or for
//! each four, is inlined always; what needs a place for a text of 4,100 bytes never is.

ghost use Rattle.std.specs.Prelude.{◌≡◌, ◌+◌, ◌≤◌, ◌∷◌, ◌++◌, ℕ, List, length, take};
ghost use Rattle.nx_envelope.specs.private.Backward.{last_four};
ghost use Rattle.nx_envelope.specs.Copies.{errors_of};
ghost use Rattle.nx_envelope.specs.Found.{IsFoundOf};

use crate::found::{FinderStep, Found, FoundHead, HeldCopy, How, MAX_FOUND, TextEvent};
use crate::header_stage::HeaderStage;
use crate::identity::Identity;
use crate::markers::{eight_of, ends_marker, four_behind, marker_of};
use crate::message::START_MARKER;
use arrayvec::ArrayVec;
use nx_code::{ASTERISK, NEWLINE};
use std::marker::Model;

/// The length of a marker.
const MARKER_LEN: usize = 4;

/// Finds the copies of messages in a received text, of which it sees one byte after the other.
///
/// It holds the last four bytes, how far a header has come, and the text of the copy that is open
/// or can be taken. The text of one that has ended stays until the next begins.
#[derive(Debug, Drop)]
pub struct Finder {
    recent: [u8; MARKER_LEN],
    stage: HeaderStage,
    copy: HeldCopy,
    text: ArrayVec<u8, MAX_FOUND>,
}

impl Model for Finder {
    ghost use Rattle.nx_envelope.specs.FinderView.{FinderView};
    ghost use Rattle.nx_envelope.specs.private.Room.{HasRoom};

    ghost Value = { FinderView };

    ghost view = { λ f. record {
      recent = f.recent;
      stage = f.stage;
      copy = f.copy;
      text = f.text.items;
    } };

    ghost invariant = { λ f. HasRoom f.copy f.text.items };

    ghost inverse = { λ v. record {
      recent = v.recent;
      stage = v.stage;
      copy = v.copy;
      text = record { items = v.text };
    } };
}

impl Finder {
    ghost use Rattle.std.specs.Prelude.{◌↔◌, ◌≢◌, ◌<◌, [], Bool, IsTrue, false, length, reverse};
    ghost use Rattle.std.specs.Prelude.{IsNone, MatchOption};
    ghost use Rattle.nx_envelope.specs.private.Backward.{header_back};
    ghost use Rattle.nx_envelope.specs.Copies.{Copy, open_headers};
    ghost use Rattle.nx_envelope.specs.Finder.{BringNothing, Brings, Closes, ClosesHeld, HasReady, HappensAt, HoldsOpen};
    ghost use Rattle.nx_envelope.specs.Finder.{StandsAfter, held_identity, is_over, is_ready};
    ghost use Rattle.nx_envelope.specs.private.Finding.{Hearing};
    ghost use Rattle.nx_envelope.specs.Found.{IsFound, IsHeadOf};
    ghost use Rattle.nx_envelope.specs.declared.found.HeldCopy.TheVariants.{Open};

    /// A finder of a text of which nothing was seen yet.
    pub fn new() -> Finder
        ensures { StandsAfter result [] }
    {
        prove!(size_of::<Finder>() == 4128);
        Finder {
            recent: [0; MARKER_LEN],
            stage: HeaderStage::Nowhere,
            copy: HeldCopy::Nothing,
            text: ArrayVec::new(),
        }
    }

    /// Takes in the next byte of the text and answers what it brings.
    #[inline(always)]
    pub fn push(&mut self, byte: u8) -> FinderStep
        ensures stands { (text : List ℕ) → StandsAfter self.old text
            → StandsAfter self.new (text ++ byte ∷ []) }
        ensures brings { (text : List ℕ) → StandsAfter self.old text → Brings text byte result }
    {
        match self.hear(byte) {
            TextEvent::Nothing => FinderStep::Nothing,
            TextEvent::Header(identity) => FinderStep::Header(identity),
            TextEvent::CopyOver => match self.take_found() {
                Some(found) => FinderStep::Over(found),
                None => unreachable!(),
            },
        }
    }

    /// Takes in the next byte of the text and answers what it brings; a copy that it ends can be
    /// taken before the next byte. It does what `push` does, for callers that go over many bytes:
    /// its answer is small.
    #[inline(always)]
    pub fn hear(&mut self, byte: u8) -> TextEvent
        ensures stands { (text : List ℕ) → StandsAfter self.old text
            → StandsAfter self.new (text ++ byte ∷ []) }
        ensures hears { (text : List ℕ) → StandsAfter self.old text
            → HappensAt text byte self.new result }
        ensures ready { is_ready self.new ≡ is_over result }
    {
        let after_start = self.recent == START_MARKER;
        let [_, third, second, last] = self.recent;
        self.recent = [third, second, last, byte];
        match self.copy {
            // No header begins in an open copy, so the stage stays.
            HeldCopy::Open(identity, fresh) => self.add(identity, fresh, byte),
            HeldCopy::Nothing | HeldCopy::Ready(_, _) => {
                let header = self.stage.header(byte);
                self.stage = self.stage.next(after_start, byte);
                self.begin(header)
            }
        }
    }

    /// Takes in the first `count` of these bytes at once, where surely none of them begins or ends
    /// a copy: `true` where it did, and a copy that could be taken is gone. Else nothing changed,
    /// and they have to be heard one by one.
    #[inline(always)]
    pub fn hear_plain(&mut self, bytes: [u8; MARKER_LEN], count: usize) -> bool
        requires { count ≤ 4 }
        ensures stands { IsTrue result → (text : List ℕ) → StandsAfter self.old text
            → StandsAfter self.new (text ++ take count bytes) }
        ensures brings { IsTrue result → (text : List ℕ) → StandsAfter self.old text
            → BringNothing text (take count bytes) }
        ensures ready { IsTrue result → is_ready self.new ≡ false }
        ensures same { result ≡ false → self.new ≡ self.old }
    {
        let HeldCopy::Open(identity, fresh) = self.copy else {
            return self.pass_plain(bytes, count);
        };
        let eight = eight_of(self.recent, bytes);
        if ends_marker(eight) | (self.text.len() >= MAX_FOUND - MARKER_LEN) {
            return false;
        }
        if fresh {
            // With no byte the copy stays fresh; a newline behind a header is no part of its text.
            if (count == 0) | (bytes[0] == NEWLINE) {
                return false;
            }
            self.copy = HeldCopy::Open(identity, false);
        }
        append(&mut self.text, bytes, count);
        self.recent = four_behind(eight, count).to_le_bytes();
        true
    }

    /// Takes in bytes as `hear_plain` does, where no copy is open and none of them completes a
    /// header.
    #[inline(always)]
    fn pass_plain(&mut self, bytes: [u8; MARKER_LEN], count: usize) -> bool
        requires few { count ≤ 4 }
        requires none { (identity : Identity) (fresh : Bool) → self.old.copy ≢ Open identity fresh }
        ensures stands { IsTrue result → (text : List ℕ) → StandsAfter self.old text
            → StandsAfter self.new (text ++ take count bytes) }
        ensures brings { IsTrue result → (text : List ℕ) → StandsAfter self.old text
            → BringNothing text (take count bytes) }
        ensures ready { IsTrue result → is_ready self.new ≡ false }
        ensures same { result ≡ false → self.new ≡ self.old }
    {
        let eight = eight_of(self.recent, bytes);
        let mut stage = self.stage;
        for place in 0..count {
            let byte = bytes[place];
            if stage.header(byte).is_some() {
                return false;
            }
            let recent = four_behind(eight, place).to_le_bytes();
            stage = stage.next(recent == START_MARKER, byte);
        }
        self.recent = four_behind(eight, count).to_le_bytes();
        self.stage = stage;
        self.copy = HeldCopy::Nothing;
        true
    }

    /// The copy that the last byte ended, where it was not taken yet.
    #[inline(never)]
    pub fn take_found(&mut self) -> Option<Found>
        ensures stands { (text : List ℕ) → StandsAfter self.old text → StandsAfter self.new text }
        ensures found { (copy : Copy) → HasReady self.old copy
            → MatchOption result ⊥ (IsFound copy) }
        ensures none { IsNone result ↔ (is_ready self.old ≡ false) }
        ensures taken { is_ready self.new ≡ false }
    {
        let HeldCopy::Ready(identity, how) = self.copy else {
            return None;
        };
        self.copy = HeldCopy::Nothing;
        Some(found_of(identity, how, self.text.take()))
    }

    /// All but the text of the copy that the last byte or the end ended, where it was not taken
    /// yet. The copy stays with the finder.
    pub fn ready_head(&self) -> Option<FoundHead>
        ensures head { (copy : Copy) → HasReady self.now copy
            → MatchOption result ⊥ (IsHeadOf copy) }
        ensures none { IsNone result ↔ (is_ready self.now ≡ false) }
    {
        let HeldCopy::Ready(identity, how) = self.copy else {
            return None;
        };
        let errors = errors_in(self.text.as_slice());
        Some(FoundHead {
            identity,
            errors,
            how,
        })
    }

    /// The text of the copy that stands open, or that ended last, newlines and asterisks included.
    /// It stays until the next copy begins. That of a copy that can be taken is without the marker
    /// that ended it.
    pub fn text(&self) -> &[u8]
        ensures text { result.now ≡ self.now.text }
        ensures short { length result.now ≤ MAX_FOUND }
    {
        self.text.as_slice()
    }

    /// Ends the text and leaves the copy that stands open with the finder, where it can be taken
    /// before the first byte of a new text. It does what `end` does, for callers that don't move
    /// the copy. A copy that could be taken is gone.
    pub fn close(&mut self)
        ensures closes { (text : List ℕ) → StandsAfter self.old text → ClosesHeld text self.new }
        ensures as_new { StandsAfter self.new [] }
        ensures text { self.new.text ≡ self.old.text }
    {
        let copy = match self.copy {
            HeldCopy::Open(identity, _) => HeldCopy::Ready(identity, How::Cut),
            HeldCopy::Nothing | HeldCopy::Ready(_, _) => HeldCopy::Nothing,
        };
        self.restart();
        self.copy = copy;
    }

    /// The identity of the copy that is open, or that can be taken.
    #[inline(always)]
    pub fn identity(&self) -> Option<Identity>
        ensures { result ≡ held_identity self.now.copy }
    {
        match self.copy {
            HeldCopy::Nothing => None,
            HeldCopy::Open(identity, _) | HeldCopy::Ready(identity, _) => Some(identity),
        }
    }

    /// Ends the text and answers the copy that stands open; the finder is then as new. A copy that
    /// could be taken is gone.
    #[inline(never)]
    pub fn end(&mut self) -> Option<Found>
        ensures closes { (text : List ℕ) → StandsAfter self.old text → Closes text result }
        ensures as_new { StandsAfter self.new [] }
    {
        let HeldCopy::Open(identity, _) = self.copy else {
            self.restart();
            return None;
        };
        let found = found_of(identity, How::Cut, self.text.take());
        self.restart();
        Some(found)
    }

    /// Ends the text; the finder is then as new. A copy that stands open or could be taken is gone.
    // The text that it holds stays until a copy begins, since it is long to clear.
    pub fn restart(&mut self)
        ensures as_new { StandsAfter self.new [] }
        ensures text { self.new.text ≡ self.old.text }
    {
        self.recent = [0; MARKER_LEN];
        self.stage = HeaderStage::Nowhere;
        self.copy = HeldCopy::Nothing;
    }

    /// Begins a copy where a header was completed.
    fn begin(&mut self, header: Option<Identity>) -> TextEvent
        ensures recent { self.new.recent ≡ self.old.recent }
        ensures stage { self.new.stage ≡ self.old.stage }
        ensures hearing { (text : List ℕ) (byte : ℕ) → open_headers text ≡ []
            → header ≡ header_back (byte ∷ reverse text)
            → Hearing text byte result self.new }
        ensures ready { is_ready self.new ≡ is_over result }
    {
        let Some(identity) = header else {
            self.copy = HeldCopy::Nothing;
            return TextEvent::Nothing;
        };
        self.text.clear();
        self.copy = HeldCopy::Open(identity, true);
        TextEvent::Header(identity)
    }

    /// Adds a byte to the open copy, of that identity, or ends it.
    fn add(&mut self, identity: Identity, fresh: bool, byte: u8) -> TextEvent
        requires { length self.old.text < 4100 }
        ensures recent { self.new.recent ≡ self.old.recent }
        ensures stage { self.new.stage ≡ self.old.stage }
        ensures hearing { (text : List ℕ) → HoldsOpen fresh self.old.text text identity
            → self.old.recent ≡ last_four (byte ∷ reverse text)
            → Hearing text byte result self.new }
        ensures ready { is_ready self.new ≡ is_over result }
    {
        self.copy = HeldCopy::Open(identity, false);
        if fresh && byte == NEWLINE {
            // A newline directly behind a header is no part of the found text.
            return TextEvent::Nothing;
        }
        if let Some(how) = marker_of(self.recent) {
            self.text
                .truncate(self.text.len().saturating_sub(MARKER_LEN - 1));
            self.copy = HeldCopy::Ready(identity, how);
            return TextEvent::CopyOver;
        }
        self.text.push(byte);
        if self.text.len() == MAX_FOUND {
            self.copy = HeldCopy::Ready(identity, How::Long);
            return TextEvent::CopyOver;
        }
        TextEvent::Nothing
    }
}

/// Appends the first `count` of these bytes.
// How many are copied is a constant in each arm, so that no arm calls for a copy.
#[inline(always)]
fn append(text: &mut ArrayVec<u8, MAX_FOUND>, bytes: [u8; MARKER_LEN], count: usize)
    requires room { length text.old.items + 4 ≤ 4100 }
    requires few { count ≤ 4 }
    ensures { text.new.items ≡ text.old.items ++ take count bytes }
{
    let [first, second, third, _] = bytes;
    match count {
        0 => {}
        1 => text.push(first),
        2 => text.try_extend_from_slice(&[first, second]).unwrap(),
        3 => text.try_extend_from_slice(&[first, second, third]).unwrap(),
        _ => text.try_extend_from_slice(&bytes).unwrap(),
    }
}

/// The errors of a found text.
// Added up without a branch, so that many bytes are compared at once.
fn errors_in(text: &[u8]) -> u16
    requires { length text.now ≤ 4100 }
    ensures { result ≡ errors_of text.now }
{
    let mut errors = 0;
    for byte in text {
        errors += u16::from(*byte == ASTERISK);
    }
    errors
}

/// The copy of that identity, end and text, with its errors.
fn found_of(identity: Identity, how: How, text: ArrayVec<u8, MAX_FOUND>) -> Found
    ensures { IsFoundOf identity how text.items result }
{
    let errors = errors_in(text.as_slice());
    Found {
        identity,
        text,
        errors,
        how,
    }
}
