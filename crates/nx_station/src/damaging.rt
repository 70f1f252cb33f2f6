//! Damage of an air file on purpose: the first element of each word that is named is inverted.
ghost use Rattle.std.specs.Prelude.{◌≡◌, ◌≢◌, ◌+◌, ◌-◌, ◌*◌, ◌^◌, ◌<◌, ◌≤◌, ◌↔◌, ◌⊎◌, ◌++◌, ◌∷◌, [], ℕ, Bool, List, Option, IfNone, IfSome, IsTrue, MatchResult, length, map, min};
ghost use Rattle.nx_fec.specs.Transfers.{FailsOnce, WroteSome, devices};
ghost use Rattle.nx_fec.specs.air_files.AirFile.{Line, element_digit, spelling};
ghost use Rattle.nx_fec.specs.air_files.Channels.{channel_of};
ghost use Rattle.nx_fec.specs.air_files.Lines.{elements_on, line_bytes};
ghost use Rattle.nx_fec.specs.air_files.Scanner.{kind_of};
ghost use Rattle.nx_fec.specs.declared.air_files.lines.LineKind.TheVariants.{Elements};
ghost use Rattle.nx_fec.specs.declared.air_files.channel.Channel.{Channel};
ghost use Rattle.nx_fec.specs.declared.air_files.channel.Channel.TheVariants.{Zero};
ghost use Rattle.nx_station.specs.Damage.{Damage, Damages, damaged_elements, damaged_file, damaged_line, inverted_count, inverts};
ghost use Rattle.nx_station.specs.private.DamageTaker.{AreNamed, HasDigitsFrom, IsAmong, IsAt, IsDamaging, IsText, first_for};
ghost use Rattle.nx_station.specs.private.DamageWalk.{IsOnWalk, front, front_count};

use crate::fault::DamageFault;
use arrayvec::ArrayVec;
use nx_code::ELEMENTS;
use nx_fec::{
    AIR_LIMIT, Batch, Channel, Counting, LineKind, LineReader, MAX_ELEMENTS, NextLine, WriteFault,
};
use std::io::{Read, Write};
use std::marker::Model;

/// How many bytes stand before the digits of a line of elements that names no channel.
const FRONT_BYTES: usize = 2;

/// How many bytes a line of elements has at most, with its end. One that names its channel has a
/// byte more before its digits, and at most one digit less.
const LINE_BYTES: usize = FRONT_BYTES + MAX_ELEMENTS + 1;

/// How many elements a DX word and the RX word after it have.
const PAIR: usize = 2 * ELEMENTS;

/// Which words are damaged, by their number from 0.
#[derive(Clone, Copy, Debug, PartialEq, Eq)]
pub enum DamageKind {
    /// DX words, which have even numbers.
    Dx,
    /// RX words, which have odd numbers.
    Rx,
    /// All words.
    All,
}

/// Damages lines: where the damage stands from the next element on. It is `Copy`, so it holds no
/// block of memory and no type of its own that contracts don't see.
#[derive(Clone, Copy)]
struct Damaging {
    kind: DamageKind,
    /// How many elements come before the words that may be damaged, and how many before their end.
    begin: u128,
    end: u128,
    /// The place of the next element among the 14 of a DX word and the RX word after it.
    phase: usize,
    /// How many elements were inverted, at most the greatest u64.
    inverted: u64,
}

impl Model for Damaging {
    ghost use Rattle.std.specs.Prelude.{◌<◌};
    ghost use Rattle.nx_station.specs.private.DamageTaker.{Damager};

    ghost Value = { Damager };

    ghost view = { λ d. record {
      kind = d.kind;
      begin = d.begin;
      end = d.end;
      phase = d.phase;
      inverted = d.inverted;
    } };

    ghost invariant = { λ d. d.phase < 14 };

    ghost inverse = { λ v. record {
      kind = v.kind;
      begin = v.begin;
      end = v.end;
      phase = v.phase;
      inverted = v.inverted;
    } };
}

/// The elements of a line that are inverted: `first`, and on from it by `stride`, before `end`.
#[derive(Clone, Copy)]
struct Named {
    first: usize,
    end: usize,
    stride: usize,
}

/// Copies an air file line by line, and inverts element 1 of each word k with `k >= from` and `k -
/// from < count` that the kind names. Word k is the elements 7k to 7k+6 of all lines of elements on
/// channel 0 together; an incomplete last word is treated alike. The lines of other channels are
/// copied unchanged, and each line keeps its name. Answers how many elements it inverted. It takes
/// no memory, and holds no more than a piece of the file, a line, and what waits to be written.
///
/// The faults are those of an air file of at most 268,435,456 bytes, in the order of its bytes:
/// `AirTooLong`, `LineLong`, `LineCut`, `BadLine`; `Read` where a read failed. The whole lines
/// before them were written. After `Write` the first `written` bytes were.
pub fn damage<R: Read, W: Write>(
    reader: &mut Counting<R>,
    writer: &mut Counting<W>,
    kind: DamageKind,
    from: u64,
    count: u64,
) -> Result<u64, DamageFault>
    requires reader { reader.old.failures ≡ 0 }
    requires writer { writer.old.failures ≡ 0 }
    ensures { Damages record { kind = kind; from = from; count = count }
        (devices R.remaining W.contents reader.old reader.new writer.old writer.new) result }
{
    let mut damaging = Damaging::new(kind, from, count);
    let mut lines = LineReader::new(reader, AIR_LIMIT);
    let mut batch = Batch::new();
    loop {
        match lines.next() {
            Ok(NextLine::Line(kind)) => {
                damaging.give_line(kind, lines.text(), writer, &mut batch)?
            }
            Ok(NextLine::PieceOver) => batch.send(writer)?,
            Ok(NextLine::End) => return Ok(damaging.inverted),
            Err(fault) => {
                batch.send(writer)?;
                return Err(DamageFault::from(fault));
            }
        }
    }
}

/// Writes the bytes of a line, with its end. They are handed in, so that they aren't moved.
fn copy_line(text: &[u8], bytes: &mut ArrayVec<u8, LINE_BYTES>)
    requires short { length text.now ≤ 514 }
    requires empty { bytes.old.items ≡ [] }
    ensures { bytes.new.items ≡ text.now ++ 10 ∷ [] }
{
    bytes.try_extend_from_slice(text).unwrap();
    bytes.push(b'\n');
}

/// Where the digits begin of a line that says this, if it has elements on channel 0.
fn digits_start(kind: LineKind) -> Option<usize>
    ensures found { IfSome result (HasDigitsFrom kind) }
    ensures none { IfNone result
        ((mark : Option Channel) → channel_of mark ≡ Zero → kind ≢ Elements mark) }
{
    match kind {
        LineKind::Elements(None) => Some(FRONT_BYTES),
        LineKind::Elements(Some(Channel::Zero)) => Some(FRONT_BYTES + 1),
        _ => None,
    }
}

impl Damaging {
    /// Damages such words of those that no line brought yet.
    fn new(kind: DamageKind, from: u64, count: u64) -> Damaging
        ensures { result ≡ first_for record { kind = kind; from = from; count = count } }
    {
        let begin = ELEMENTS as u128 * from as u128;
        Damaging {
            kind,
            begin,
            end: begin + ELEMENTS as u128 * count as u128,
            phase: 0,
            inverted: 0,
        }
    }

    /// Gives the batch the bytes, after the damage, of a line that says this and has this text.
    fn give_line<W: Write>(
        &mut self,
        kind: LineKind,
        text: &[u8],
        writer: &mut Counting<W>,
        batch: &mut Batch,
    ) -> Result<(), WriteFault>
        requires line { IsText kind text.now }
        requires none { writer.old.failures ≡ 0 }
        ensures given { (damage : Damage) (old : Option (List ℕ)) (lines : List Line) (line : Line)
            → text.now ≡ spelling line → kind ≡ kind_of line
            → IsDamaging damage self.old old (W.contents writer.old.inner) batch.old lines
            → MatchResult result
            (λ _. IsDamaging damage self.new old (W.contents writer.new.inner) batch.new
            (lines ++ line ∷ []))
            (λ fault. WroteSome old (W.contents writer.new.inner)
            (damaged_file damage (lines ++ line ∷ [])) fault.written) }
        ensures counts { FailsOnce writer.new result }
    {
        let mut bytes = ArrayVec::new();
        self.write_line(kind, text, &mut bytes);
        batch.give(writer, &bytes)
    }

    /// Writes the bytes, after the damage, of a line that says this and has this text.
    fn write_line(&mut self, kind: LineKind, text: &[u8], bytes: &mut ArrayVec<u8, LINE_BYTES>)
        requires line { IsText kind text.now }
        requires empty { bytes.old.items ≡ [] }
        ensures bytes { (damage : Damage) (place : ℕ) (line : Line)
            → text.now ≡ spelling line → kind ≡ kind_of line → IsAt damage self.old place
            → bytes.new.items ≡ line_bytes (damaged_line damage place line) }
        ensures at { (damage : Damage) (place : ℕ) (line : Line)
            → text.now ≡ spelling line → kind ≡ kind_of line → IsAt damage self.old place
            → IsAt damage self.new (place + length (elements_on Zero line)) }
        ensures counted { (damage : Damage) (place total : ℕ) (line : Line)
            → text.now ≡ spelling line → kind ≡ kind_of line → IsAt damage self.old place
            → self.old.inverted ≡ min total (2 ^ 64 - 1)
            → self.new.inverted
            ≡ min (total + inverted_count damage place (elements_on Zero line)) (2 ^ 64 - 1) }
    {
        copy_line(text, bytes);
        if let Some(start) = digits_start(kind) {
            let end = bytes.len() - 1;
            self.pass(&mut bytes[start..end]);
        }
    }

    /// Damages the elements that come next, given by their digits.
    fn pass(&mut self, digits: &mut [u8])
        requires { length digits.old ≤ 512 }
        ensures digits { (damage : Damage) (place : ℕ) (bits : List Bool)
            → IsAt damage self.old place → digits.old ≡ map element_digit bits
            → digits.new ≡ map element_digit (damaged_elements damage place bits) }
        ensures at { (damage : Damage) (place : ℕ) → IsAt damage self.old place
            → IsAt damage self.new (place + length digits.old) }
        ensures counted { (damage : Damage) (place total : ℕ) (bits : List Bool)
            → IsAt damage self.old place → digits.old ≡ map element_digit bits
            → self.old.inverted ≡ min total (2 ^ 64 - 1)
            → self.new.inverted
            ≡ min (total + inverted_count damage place bits) (2 ^ 64 - 1) }
    {
        let inverted = self.named(digits.len()).invert(digits);
        self.inverted = self.inverted.saturating_add(inverted);
        self.advance(digits.len());
    }

    /// Which of so many elements that come next are inverted.
    fn named(&self, count: usize) -> Named
        requires { count ≤ 512 }
        ensures end { result.end ≤ count }
        ensures stride { (result.stride ≡ 7) ⊎ (result.stride ≡ 14) }
        ensures named { (damage : Damage) (place i : ℕ) → IsAt damage self.now place → i < count
            → IsTrue (inverts damage (place + i)) ↔ IsAmong result i }
    {
        let start = self.begin.min(count as u128) as usize;
        let end = self.end.min(count as u128) as usize;
        let (due, stride) = match self.kind {
            DamageKind::Dx => (0, PAIR),
            DamageKind::Rx => (ELEMENTS, PAIR),
            DamageKind::All => (0, ELEMENTS),
        };
        let ahead = (PAIR + due - (self.phase + start) % PAIR) % stride;
        Named {
            first: start + ahead,
            end,
            stride,
        }
    }

    /// Goes on by so many elements.
    fn advance(&mut self, count: usize)
        requires { count ≤ 512 }
        ensures at { (damage : Damage) (place : ℕ) → IsAt damage self.old place
            → IsAt damage self.new (place + count) }
        ensures inverted { self.new.inverted ≡ self.old.inverted }
    {
        self.begin = self.begin.saturating_sub(count as u128);
        self.end = self.end.saturating_sub(count as u128);
        self.phase = (self.phase + count) % PAIR;
    }
}

/// Where a walk over named elements stands, and how many it inverted.
#[derive(Clone, Copy)]
struct Walk {
    at: usize,
    count: u64,
}

impl Named {
    /// Inverts these elements, given by their digits, and answers how many they are.
    fn invert(self, digits: &mut [u8]) -> u64
        requires end { self.end ≤ length digits.old }
        requires long { length digits.old ≤ 512 }
        requires stride { (self.stride ≡ 7) ⊎ (self.stride ≡ 14) }
        ensures digits { (damage : Damage) (place : ℕ) (bits : List Bool)
            → AreNamed damage place self bits → digits.old ≡ map element_digit bits
            → digits.new ≡ map element_digit (damaged_elements damage place bits) }
        ensures count { (damage : Damage) (place : ℕ) (bits : List Bool)
            → AreNamed damage place self bits → digits.old ≡ map element_digit bits
            → result ≡ inverted_count damage place bits }
    {
        let walk = self.invert_fours(digits);
        let mut at = walk.at;
        let mut count = walk.count;
        while at < self.end {
            self.invert_at(digits, at);
            at += self.stride;
            count += 1;
        }
        count
    }

    /// Inverts the first of these elements by fours, since a test for each costs as much as they.
    fn invert_fours(self, digits: &mut [u8]) -> Walk
        requires end { self.end ≤ length digits.old }
        requires long { length digits.old ≤ 512 }
        requires stride { (self.stride ≡ 7) ⊎ (self.stride ≡ 14) }
        ensures walk { IsOnWalk self result.at }
        ensures few { result.count ≤ result.at }
        ensures digits { (damage : Damage) (place : ℕ) (bits : List Bool)
            → AreNamed damage place self bits → digits.old ≡ map element_digit bits
            → digits.new ≡ map element_digit (front damage place result.at bits) }
        ensures counted { (damage : Damage) (place : ℕ) (bits : List Bool)
            → AreNamed damage place self bits → digits.old ≡ map element_digit bits
            → result.count ≡ front_count damage place result.at bits }
    {
        let fours_end = self.end.saturating_sub(3 * self.stride);
        let mut at = self.first;
        let mut count = 0;
        while at < fours_end {
            self.invert_at(digits, at);
            self.invert_at(digits, at + self.stride);
            self.invert_at(digits, at + 2 * self.stride);
            self.invert_at(digits, at + 3 * self.stride);
            at += 4 * self.stride;
            count += 4;
        }
        Walk { at, count }
    }

    /// Inverts the element at a place, given by its digit.
    fn invert_at(self, digits: &mut [u8], at: usize)
        requires before { at < self.end }
        requires end { self.end ≤ length digits.old }
        requires stride { (self.stride ≡ 7) ⊎ (self.stride ≡ 14) }
        ensures { (damage : Damage) (place next : ℕ) (bits : List Bool) → IsOnWalk self at
            → next ≡ at + self.stride → AreNamed damage place self bits
            → digits.old ≡ map element_digit (front damage place at bits)
            → digits.new ≡ map element_digit (front damage place next bits) }
    {
        digits[at] ^= 1;
    }
}
