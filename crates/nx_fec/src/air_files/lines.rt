//! The lines of an air file, which carries what a receiver hears: moments, elements and commands of
//! selection. What runs for each line is inlined always, since its answer would go through memory
//! otherwise. What reads a line that names its channel never is, so that other lines pay nothing
//! for it.
ghost use Rattle.std.specs.Prelude.{◌≡◌, ◌≢◌, ◌<◌, ◌≤◌, ◌^◌, ℕ, List, ◌++◌, codes, length, map, take, IfSome, IfNone, MatchOption, [], ◌∷◌, Some};
ghost use Rattle.std.specs.Fmt.{decimal};
ghost use Rattle.nx_code.specs.Reading.{IsCapital};
ghost use Rattle.nx_fec.specs.air_files.AirFile.{IsLine, IsNoLine, Line, Means, spelling, with_mark};
ghost use Rattle.nx_fec.specs.private.Packing.{is_one};
ghost use Rattle.nx_fec.specs.private.ScannerKept.{IsMarked, IsMarkedCommand, IsUnmarkedCommand, SpellsLine};
ghost use Rattle.nx_fec.specs.declared.air_files.lines.LineKind.{LineKind};

use crate::air_files::channel::Channel;
use crate::air_files::packed_elements::PackedElements;
use arrayvec::ArrayVec;
use nx_code::decimal_number;

/// The most elements of one line.
pub const MAX_ELEMENTS: usize = 512;

/// The most digits of a moment.
const MAX_DIGITS: usize = 11;

/// The greatest moment of so many digits.
const MAX_MOMENT: u64 = 99_999_999_999;

/// The byte of the digit 0.
const ZERO: u64 = b'0' as u64;

/// One line of an air file: what it means. It belongs to the channel that it names, or to channel 0
/// where it names none; a moment belongs to all channels.
#[derive(Debug, PartialEq, Drop)]
pub enum AirLine {
    /// `T`: the moment from here on, in seconds, of at most 11 digits.
    Moment(u64),
    /// `B`: 1 to 512 elements in the order of sending, or to 511 where the line names its channel;
    /// true is B.
    Bits(Channel, ArrayVec<bool, MAX_ELEMENTS>),
    /// `RS`: refuse the station of this letter A to Z.
    RefuseStation(Channel, u8),
    /// `AS`: accept the station of this letter A to Z.
    AcceptStation(Channel, u8),
    /// `RJ`: refuse the subject of this letter A to Z.
    RefuseSubject(Channel, u8),
    /// `AJ`: accept the subject of this letter A to Z.
    AcceptSubject(Channel, u8),
}

/// What a line of an air file says, but for its elements, with the channel that it names, if it
/// names one.
#[derive(Clone, Copy, Debug, PartialEq, Eq)]
pub enum LineKind {
    /// `T`: the moment from here on, in seconds, of at most 11 digits.
    Moment(u64),
    /// `B`: elements.
    Elements(Option<Channel>),
    /// `RS`: refuse the station of this letter A to Z.
    RefuseStation(Option<Channel>, u8),
    /// `AS`: accept the station of this letter A to Z.
    AcceptStation(Option<Channel>, u8),
    /// `RJ`: refuse the subject of this letter A to Z.
    RefuseSubject(Option<Channel>, u8),
    /// `AJ`: accept the subject of this letter A to Z.
    AcceptSubject(Option<Channel>, u8),
}

/// Reads a line, given without its line feed. None where it is no line of an air file.
pub fn air_line(line: &[u8]) -> Option<AirLine>
    ensures found { IfSome result (λ found. Means line.now found) }
    ensures none { IfNone result (IsNoLine line.now) }
{
    let mut elements = PackedElements::new();
    Some(match read_line(line, &mut elements)? {
        LineKind::Moment(moment) => AirLine::Moment(moment),
        LineKind::Elements(mark) => AirLine::Bits(Channel::of(mark), bits_at_end(line, &elements)),
        LineKind::RefuseStation(mark, letter) => AirLine::RefuseStation(Channel::of(mark), letter),
        LineKind::AcceptStation(mark, letter) => AirLine::AcceptStation(Channel::of(mark), letter),
        LineKind::RefuseSubject(mark, letter) => AirLine::RefuseSubject(Channel::of(mark), letter),
        LineKind::AcceptSubject(mark, letter) => AirLine::AcceptSubject(Channel::of(mark), letter),
    })
}

/// The elements of a line of elements, given without its line feed: its last bytes are their
/// digits.
fn bits_at_end(line: &[u8], elements: &PackedElements) -> ArrayVec<bool, MAX_ELEMENTS>
    requires { (kind : LineKind) × SpellsLine kind elements.now line.now }
    ensures { result.items ≡ elements.now }
{
    let mut bits = ArrayVec::new();
    unpack(&line[line.len() - elements.len()..], &mut bits);
    bits
}

/// Writes the elements that digits stand for, in place of those that were there.
pub(crate) fn unpack(digits: &[u8], bits: &mut ArrayVec<bool, MAX_ELEMENTS>)
    requires { length digits.now ≤ 512 }
    ensures { bits.new.items ≡ map is_one digits.now }
{
    let mut elements = [false; MAX_ELEMENTS];
    for place in 0..digits.len() {
        elements[place] = digits[place] == b'1';
    }
    bits.clear();
    bits.try_extend_from_slice(&elements[..digits.len()])
        .unwrap();
}

/// Reads a line, given without its line feed: what it says, and its elements. None, and no
/// elements, where it is no line of an air file.
#[inline(always)]
pub(crate) fn read_line(line: &[u8], elements: &mut PackedElements) -> Option<LineKind>
    requires { elements.old ≡ [] }
    ensures found { IfSome result (λ kind. SpellsLine kind elements.new line.now) }
    ensures none { IfNone result (IsNoLine line.now) }
    ensures unread { IfNone result (elements.new ≡ []) }
{
    if let Some(rest) = after(line, b"T ") {
        return Some(LineKind::Moment(moment(rest)?));
    }
    if let Some(rest) = after(line, b"B ") {
        return if elements.read(rest) {
            Some(LineKind::Elements(None))
        } else {
            None
        };
    }
    if let Some(kind) = command(line) {
        return Some(kind);
    }
    read_marked(line, elements)
}

/// Reads a command that names no channel, given without its line feed. None where the line is none.
#[inline(always)]
pub(crate) fn command(line: &[u8]) -> Option<LineKind>
    ensures found { IfSome result (λ kind. SpellsLine kind [] line.now) }
    ensures none { IfNone result ((sent : Line) → IsUnmarkedCommand sent → IsLine sent
        → line.now ≢ spelling sent) }
{
    if let Some(letter) = letter_behind(line, b"RS ") {
        return Some(LineKind::RefuseStation(None, letter));
    }
    if let Some(letter) = letter_behind(line, b"AS ") {
        return Some(LineKind::AcceptStation(None, letter));
    }
    if let Some(letter) = letter_behind(line, b"RJ ") {
        return Some(LineKind::RefuseSubject(None, letter));
    }
    if let Some(letter) = letter_behind(line, b"AJ ") {
        return Some(LineKind::AcceptSubject(None, letter));
    }
    None
}

/// The command that these two letters and a letter A to Z spell, with the channel that the line
/// names, if it names one.
#[inline(always)]
pub(crate) fn command_of(act: u8, what: u8, mark: Option<Channel>, letter: u8) -> Option<LineKind>
    ensures { IfSome result (λ kind.
        SpellsLine kind [] (with_mark (act ∷ what ∷ []) mark (letter ∷ []))) }
{
    if !letter.is_ascii_uppercase() {
        return None;
    }
    match (act, what) {
        (b'R', b'S') => Some(LineKind::RefuseStation(mark, letter)),
        (b'A', b'S') => Some(LineKind::AcceptStation(mark, letter)),
        (b'R', b'J') => Some(LineKind::RefuseSubject(mark, letter)),
        (b'A', b'J') => Some(LineKind::AcceptSubject(mark, letter)),
        _ => None,
    }
}

/// Reads a line that names its channel, as `read_line` does.
#[inline(never)]
fn read_marked(line: &[u8], elements: &mut PackedElements) -> Option<LineKind>
    requires { elements.old ≡ [] }
    ensures found { IfSome result (λ kind. SpellsLine kind elements.new line.now) }
    ensures none { IfNone result ((sent : Line) → IsMarked sent → IsLine sent
        → line.now ≢ spelling sent) }
    ensures unread { IfNone result (elements.new ≡ []) }
{
    if let Some((channel, digits)) = marked(line, b"B") {
        return if digits.len() < MAX_ELEMENTS && elements.read(digits) {
            Some(LineKind::Elements(Some(channel)))
        } else {
            None
        };
    }
    marked_command(line)
}

/// Reads a command that names its channel, as `command` does.
#[inline(always)]
pub(crate) fn marked_command(line: &[u8]) -> Option<LineKind>
    ensures found { IfSome result (λ kind. SpellsLine kind [] line.now) }
    ensures none { IfNone result ((sent : Line) → IsMarkedCommand sent → IsLine sent
        → line.now ≢ spelling sent) }
{
    if let Some((channel, letter)) = marked_letter(line, b"RS") {
        return Some(LineKind::RefuseStation(Some(channel), letter));
    }
    if let Some((channel, letter)) = marked_letter(line, b"AS") {
        return Some(LineKind::AcceptStation(Some(channel), letter));
    }
    if let Some((channel, letter)) = marked_letter(line, b"RJ") {
        return Some(LineKind::RefuseSubject(Some(channel), letter));
    }
    if let Some((channel, letter)) = marked_letter(line, b"AJ") {
        return Some(LineKind::AcceptSubject(Some(channel), letter));
    }
    None
}

/// The channel that a line of elements names, if it names one, and what follows a space behind it.
/// None where the bytes begin no line of elements.
pub(crate) fn digits_behind(line: &[u8]) -> Option<(Option<Channel>, &[u8])>
    ensures { IfSome result (λ found. line.now ≡ with_mark (codes "B") found.0 found.1.now) }
{
    if let Some(digits) = after(line, b"B ") {
        return Some((None, digits));
    }
    let (channel, digits) = marked(line, b"B")?;
    Some((Some(channel), digits))
}

/// The channel that a line names behind a word, and the letter A to Z that follows a space behind
/// it and ends the line.
#[tactic(auto, using(std::proofs::lemmas::List::append_cancel_left))]
fn marked_letter(line: &[u8], word: &[u8]) -> Option<(Channel, u8)>
    ensures found { IfSome result (λ found. IsCapital found.1
        × (line.now ≡ with_mark word.now (Some found.0) (found.1 ∷ []))) }
    ensures none { IfNone result ((channel : Channel) (letter : ℕ) → IsCapital letter
        → line.now ≢ with_mark word.now (Some channel) (letter ∷ [])) }
{
    let (channel, rest) = marked(line, word)?;
    Some((channel, letter(rest)?))
}

/// The channel that a line names behind a word, and what follows it and a space.
#[tactic(auto, using(std::proofs::lemmas::List::append_cancel_left))]
fn marked<'a>(line: &'a [u8], word: &[u8]) -> Option<(Channel, &'a [u8])>
    ensures found { IfSome result (λ found.
        line.now ≡ with_mark word.now (Some found.0) found.1.now) }
    ensures none { IfNone result ((channel : Channel) (rest : List ℕ)
        → line.now ≢ with_mark word.now (Some channel) rest) }
{
    let text = after(line, word)?;
    if let Some(rest) = after(text, b"0 ") {
        return Some((Channel::Zero, rest));
    }
    if let Some(rest) = after(text, b"1 ") {
        return Some((Channel::One, rest));
    }
    if let Some(rest) = after(text, b"2 ") {
        return Some((Channel::Two, rest));
    }
    None
}

/// What follows the word at the front of a line, if the line begins with that word.
fn after<'a>(line: &'a [u8], word: &[u8]) -> Option<&'a [u8]>
    ensures { MatchOption result
        ((rest : List ℕ) → line.now ≢ word.now ++ rest)
        (λ rest. line.now ≡ word.now ++ rest.now) }
{
    line.strip_prefix(word)
}

/// The letter A to Z that follows the word at the front of a line and ends the line.
#[inline(always)]
fn letter_behind(line: &[u8], word: &[u8]) -> Option<u8>
    ensures found { IfSome result (λ found. IsCapital found
        × (line.now ≡ word.now ++ (found ∷ []))) }
    ensures none { IfNone result ((byte : ℕ) → IsCapital byte
        → line.now ≢ word.now ++ (byte ∷ [])) }
{
    letter(after(line, word)?)
}

/// One letter A to Z.
fn letter(text: &[u8]) -> Option<u8>
    ensures found { IfSome result (λ found. IsCapital found × (text.now ≡ found ∷ [])) }
    ensures none { IfNone result ((byte : ℕ) → IsCapital byte → text.now ≢ byte ∷ []) }
{
    match text {
        [byte @ b'A'..=b'Z'] => Some(*byte),
        _ => None,
    }
}

/// 1 to 11 digits with no needless zero in front.
fn moment(digits: &[u8]) -> Option<u64>
    ensures found { IfSome result (λ n. (n < 10 ^ 11) × (digits.now ≡ decimal n)) }
    ensures none { IfNone result ((n : ℕ) → n < 10 ^ 11 → digits.now ≢ decimal n) }
{
    decimal_number(digits, MAX_MOMENT)
}

/// The moment whose digits stand at the front of bytes, and how many these are, at most 11; 0 of
/// them where there is none. A zero in front stands alone.
#[inline(always)]
pub(crate) fn moment_front(bytes: &[u8]) -> (u64, usize)
    requires { 12 ≤ length bytes.now }
    ensures count { result.1 ≤ 11 }
    ensures found { 0 < result.1
        → (result.0 < 10 ^ 11) × (take result.1 bytes.now ≡ decimal result.0) }
{
    let mut value = u64::from(bytes[0]).wrapping_sub(ZERO);
    if value == 0 || value > 9 {
        return (0, usize::from(value == 0));
    }
    let mut count = 1;
    while count < MAX_DIGITS {
        // More than 9 where the byte is no digit.
        let units = u64::from(bytes[count]).wrapping_sub(ZERO);
        if units > 9 {
            return (value, count);
        }
        value = 10 * value + units;
        count += 1;
    }
    (value, count)
}
