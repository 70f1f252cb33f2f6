//! The text of one lock, read from its words, and what is counted of it. What runs for each word
//! or for some at once is inlined always. What begins anew for the next lock never is, so that no
//! loop over words has a place for a text of 4,100 characters.

ghost use Rattle.std.specs.Prelude.{◌≡◌, ◌+◌, ◌≤◌, ◌==◌, ◌++◌, ℕ, List, false, length, not, slice_index, take, if◌then◌else◌, IsTrue};
ghost use Rattle.arrayvec.specs.ArrayVec.{array_vec_len};
ghost use Rattle.nx_code.specs.Word.{is_wrong, wrong_in};
ghost use Rattle.nx_envelope.specs.Finder.{HappensAt};
ghost use Rattle.nx_envelope.specs.declared.finder.Finder.{Finder};
ghost use Rattle.nx_code.specs.Reading.{newline};
ghost use Rattle.nx_locks.specs.private.Reader.{HearsWord, IsFresh, ShowsWord, ShowsWords, TakesByte, counted};
ghost use Rattle.nx_copies.specs.copies.Log.{is_of_lines};
ghost use Rattle.nx_sync.specs.Ahead.{ArePairs};
ghost use Rattle.nx_sync.specs.declared.step.Role.TheVariants.{Dx as DxRole};

use crate::report_text::{Shown, append_some};
use nx_code::{NEWLINE, Word, check_bits};
use nx_copies::LockReader;
use nx_envelope::TextEvent;
use nx_sync::Role;
use std::marker::Model;

/// Reads the text of a lock, of which it is given one word after the other, and counts its words,
/// those of the wrong weight, and the headers in the text.
#[derive(Drop)]
pub(crate) struct CountingReader {
    reader: LockReader,
    words: u64,
    wrong: u64,
    copies: u64,
    /// Whether the text isn't empty and doesn't end with a newline.
    is_line_open: bool,
}

impl Model for CountingReader {
    ghost use Rattle.nx_locks.specs.private.Reader.{Reading};

    ghost Value = { Reading };

    ghost view = { λ r. record {
      lock = r.reader;
      words = r.words;
      wrong = r.wrong;
      copies = r.copies;
      is_line_open = r.is_line_open;
    } };

    ghost inverse = { λ v. record {
      reader = v.lock;
      words = v.words;
      wrong = v.wrong;
      copies = v.copies;
      is_line_open = v.is_line_open;
    } };
}

impl CountingReader {
    /// A reader of a lock of which no word was heard yet.
    pub(crate) fn new() -> CountingReader
        ensures fresh { IsFresh result }
        ensures copies { result.copies ≡ 0 }
    {
        prove!(size_of::<CountingReader>() == size_of::<LockReader>() + 32);
        CountingReader {
            reader: LockReader::new(),
            words: 0,
            wrong: 0,
            copies: 0,
            is_line_open: false,
        }
    }

    /// How many words were heard.
    pub(crate) fn words(&self) -> u64
        ensures { result ≡ self.now.words }
    {
        self.words
    }

    /// How many of the words have the wrong weight.
    pub(crate) fn wrong(&self) -> u64
        ensures { result ≡ self.now.wrong }
    {
        self.wrong
    }

    /// How many headers stand in the text.
    pub(crate) fn copies(&self) -> u64
        ensures { result ≡ self.now.copies }
    {
        self.copies
    }

    /// Whether the text isn't empty and doesn't end with a newline.
    pub(crate) fn is_line_open(&self) -> bool
        ensures { result ≡ self.now.is_line_open }
    {
        self.is_line_open
    }

    /// Hears the next word of the lock, which has that role, and appends the byte that it prints,
    /// if it prints one. There is room for one byte more in what is shown.
    #[inline(always)]
    pub(crate) fn hear_word(&mut self, word: Word, role: Role, shown: &mut Shown)
        requires room { array_vec_len shown.old + 1 ≤ 57856 }
        ensures few { array_vec_len shown.new ≤ array_vec_len shown.old + 1 }
        ensures shows { ShowsWord self.old self.new word role shown.old.items shown.new.items }
    {
        self.count(word);
        if let Some((byte, event)) = self.reader.read_word(word, role) {
            self.take(byte, event);
            shown.push(byte);
        }
    }

    /// Hears the next words of the lock at once, DX and RX by turns, where surely no header begins
    /// or ends in what they print, and appends that: `true` where it did. Else nothing changed, and
    /// they have to be heard one by one. They are two to eight, in whole pairs, and there is room
    /// for four bytes more in what is shown.
    #[inline(always)]
    pub(crate) fn hear_words(&mut self, words: &[Word], shown: &mut Shown) -> bool
        requires pairs { ArePairs words.now }
        requires room { array_vec_len shown.old + 4 ≤ 57856 }
        ensures few { array_vec_len shown.new ≤ array_vec_len shown.old + 4 }
        ensures shows { IsTrue result → ShowsWords self.old self.new DxRole words.now
            shown.old.items shown.new.items }
        ensures reader { result ≡ false → self.new ≡ self.old }
        ensures shown { result ≡ false → shown.new ≡ shown.old }
    {
        let Some(printed) = self.reader.read_words(words) else {
            return false;
        };
        self.words = self.words.saturating_add(words.len() as u64);
        self.wrong = self.wrong.saturating_add(wrong_among(words));
        self.is_line_open = is_open_after(self.is_line_open, &printed.bytes, printed.count);
        append_some(shown, printed.bytes, printed.count);
        true
    }

    /// Counts a word.
    #[inline(always)]
    fn count(&mut self, word: Word)
        ensures { self.new ≡ counted self.old word }
    {
        self.words = self.words.saturating_add(1);
        if !check_bits(word) {
            self.wrong = self.wrong.saturating_add(1);
        }
    }

    /// Takes a byte of the text, which brings this.
    #[inline(always)]
    fn take(&mut self, byte: u8, event: TextEvent)
        ensures headers { (text : List ℕ) (finder : Finder) → HappensAt text byte finder event
            → TakesByte self.old self.new text byte }
        ensures kept { self.new ≡ record self.old {
          copies = self.new.copies;
          is_line_open = not (byte == newline);
        } }
        ensures few { self.new.copies ≤ self.old.copies + 1 }
    {
        self.is_line_open = byte != NEWLINE;
        if let TextEvent::Header(_) = event {
            self.copies = self.copies.saturating_add(1);
        }
    }

    /// Begins anew, for the next lock.
    #[inline(never)]
    pub(crate) fn restart(&mut self)
        ensures fresh { IsFresh self.new }
        ensures copies { self.new.copies ≡ 0 }
    {
        self.reader.restart();
        self.words = 0;
        self.wrong = 0;
        self.copies = 0;
        self.is_line_open = false;
    }
}

/// How many of at most eight words have the wrong weight.
#[inline(always)]
fn wrong_among(words: &[Word]) -> u64
    requires { length words.now ≤ 8 }
    ensures { result ≡ wrong_in (slice_index words.now) 0 (length words.now) }
{
    let mut wrong = 0;
    for place in 0..words.len() {
        wrong += one_if_wrong(words[place]);
    }
    wrong
}

/// 1 for a word of the wrong weight, else 0.
#[inline(always)]
fn one_if_wrong(word: Word) -> u64
    ensures value { result ≡ if is_wrong word then 1 else 0 }
    ensures small { result ≤ 1 }
{
    if check_bits(word) { 0 } else { 1 }
}

/// Whether the last line of a text is open once the first `count` of these four bytes, at most all,
/// follow it, by whether it was before.
#[inline(always)]
fn is_open_after(is_open: bool, bytes: &[u8; 4], count: usize) -> bool
    requires { count ≤ 4 }
    ensures { (text : List ℕ) → is_open ≡ not (is_of_lines text)
        → result ≡ not (is_of_lines (text ++ take count bytes.now)) }
{
    if count == 0 {
        return is_open;
    }
    bytes[count - 1] != NEWLINE
}
