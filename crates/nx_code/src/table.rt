//! The one table of the code, from which all calls answer (M.476, M.625).

ghost use Rattle.std.specs.Prelude.{◌≡◌, ◌+◌, ◌<◌, ◌↔◌, Some, IsSome, IfSome, slice_index};
ghost use Rattle.nx_code.specs.Word.{signal_weight, weight};
ghost use Rattle.nx_code.specs.Table.{words};
ghost use Rattle.nx_code.specs.Signal.{place, number_of_signal, cell_of_signal};
ghost use Rattle.nx_code.specs.Reading.{character_of};
ghost use Rattle.nx_code.specs.private.Rows.{cell_in, character_in};
ghost use Rattle.nx_code.specs.declared.signals.Signal.{Signal};
ghost use Rattle.nx_code.specs.declared.shifts.Shift.{Shift};

use crate::names::Name;
use crate::shifts::Shift;
use crate::signals::{Comb, Signal};
use crate::table_indexes::place_of_word;
use crate::words::Word;
use std::slice;

/// A row of the table: the number of its word, the characters that it prints in letters and in
/// figures, and the name of a signal that stands for no letter.
#[derive(Clone, Copy, Debug)]
pub(crate) struct Row {
    word: u8,
    letter: Option<u8>,
    figure: Option<u8>,
    name: Option<Name>,
}

impl Row {
    /// The character that a row prints in a shift.
    pub(crate) fn character(self, shift: Shift) -> Option<u8>
        ensures { result ≡ character_in self shift }
    {
        match shift {
            Shift::Letters => self.letter,
            Shift::Figures => self.figure,
        }
    }

    /// What stands in the column of a shift: a name, a character, or nothing.
    fn cell(&self, shift: Shift) -> &[u8]
        ensures { result.now ≡ cell_in self.now shift }
    {
        if let Some(name) = self.name {
            return name.text();
        }
        let character = match shift {
            Shift::Letters => &self.letter,
            Shift::Figures => &self.figure,
        };
        match character {
            Some(byte) => slice::from_ref(byte),
            None => &[],
        }
    }
}

/// The rows of the combinations 1 to 32, and then of idle alpha, idle beta and signal repetition.
#[rattlefmt::skip]
static TABLE: [Row; SIGNALS] = [
    Row { word: 0x47, letter: Some(b'A'), figure: Some(b'-'), name: None },
    Row { word: 0x72, letter: Some(b'B'), figure: Some(b'?'), name: None },
    Row { word: 0x1D, letter: Some(b'C'), figure: Some(b':'), name: None },
    Row { word: 0x53, letter: Some(b'D'), figure: None, name: None },
    Row { word: 0x56, letter: Some(b'E'), figure: Some(b'3'), name: None },
    Row { word: 0x1B, letter: Some(b'F'), figure: None, name: None },
    Row { word: 0x35, letter: Some(b'G'), figure: None, name: None },
    Row { word: 0x69, letter: Some(b'H'), figure: None, name: None },
    Row { word: 0x4D, letter: Some(b'I'), figure: Some(b'8'), name: None },
    Row { word: 0x17, letter: Some(b'J'), figure: None, name: None },
    Row { word: 0x1E, letter: Some(b'K'), figure: Some(b'('), name: None },
    Row { word: 0x65, letter: Some(b'L'), figure: Some(b')'), name: None },
    Row { word: 0x39, letter: Some(b'M'), figure: Some(b'.'), name: None },
    Row { word: 0x59, letter: Some(b'N'), figure: Some(b','), name: None },
    Row { word: 0x71, letter: Some(b'O'), figure: Some(b'9'), name: None },
    Row { word: 0x2D, letter: Some(b'P'), figure: Some(b'0'), name: None },
    Row { word: 0x2E, letter: Some(b'Q'), figure: Some(b'1'), name: None },
    Row { word: 0x55, letter: Some(b'R'), figure: Some(b'4'), name: None },
    Row { word: 0x4B, letter: Some(b'S'), figure: Some(b'\''), name: None },
    Row { word: 0x74, letter: Some(b'T'), figure: Some(b'5'), name: None },
    Row { word: 0x4E, letter: Some(b'U'), figure: Some(b'7'), name: None },
    Row { word: 0x3C, letter: Some(b'V'), figure: Some(b'='), name: None },
    Row { word: 0x27, letter: Some(b'W'), figure: Some(b'2'), name: None },
    Row { word: 0x3A, letter: Some(b'X'), figure: Some(b'/'), name: None },
    Row { word: 0x2B, letter: Some(b'Y'), figure: Some(b'6'), name: None },
    Row { word: 0x63, letter: Some(b'Z'), figure: Some(b'+'), name: None },
    Row { word: 0x78, letter: None, figure: None, name: Some(Name::CarriageReturn) },
    Row { word: 0x6C, letter: Some(b'\n'), figure: Some(b'\n'), name: Some(Name::LineFeed) },
    Row { word: 0x5A, letter: None, figure: None, name: Some(Name::LetterShift) },
    Row { word: 0x36, letter: None, figure: None, name: Some(Name::FigureShift) },
    Row { word: 0x5C, letter: Some(b' '), figure: Some(b' '), name: Some(Name::Space) },
    Row { word: 0x6A, letter: None, figure: None, name: Some(Name::Blank) },
    Row { word: 0x0F, letter: None, figure: None, name: Some(Name::PhasingOne) },
    Row { word: 0x33, letter: None, figure: None, name: Some(Name::Beta) },
    Row { word: 0x66, letter: None, figure: None, name: Some(Name::PhasingTwo) },
];

/// The places of the service signals in the table; a combination stands one place below its number.
pub(crate) const ALPHA: usize = 32;

pub(crate) const BETA: usize = 33;

pub(crate) const REPEAT: usize = 34;

/// How many signals there are, each with a row of the table.
pub const SIGNALS: usize = 35;

/// The row at a place of the table.
pub(crate) fn row_at(place: usize) -> Row
    requires { place < SIGNALS }
    ensures word { result.word ≡ slice_index words place }
    ensures range { result.word < 128 }
    ensures characters { (shift : Shift) → character_in result shift
        ≡ character_of (place + 1) shift }
{
    TABLE[place]
}

/// The signal at a place of the table, from 0: the combinations 1 to 32, idle signal alpha, idle
/// signal beta and signal repetition.
pub fn signal_at(at: usize) -> Signal
    requires { at < 35 }
    ensures { place result ≡ at }
{
    match at {
        ALPHA => Signal::Alpha,
        BETA => Signal::Beta,
        REPEAT => Signal::Repeat,
        _ => Signal::Traffic(Comb {
            number: at as u8 + 1,
        }),
    }
}

/// The signal that a word stands for; None for a wrong weight (M.476 and M.625, conversion tables).
pub fn signal_of(word: Word) -> Option<Signal>
    ensures signals { IsSome result ↔ (weight word ≡ signal_weight) }
    ensures value { IfSome result (λ signal. number_of_signal signal ≡ word) }
    ensures only { (signal : Signal) → number_of_signal signal ≡ word → result ≡ Some signal }
{
    Some(signal_at(place_of_word(word)?))
}

/// The place of a signal in the table, from 0.
fn place_of_signal(signal: Signal) -> usize
    ensures place { result ≡ place signal }
    ensures range { result < SIGNALS }
{
    match signal {
        Signal::Traffic(comb) => usize::from(comb.number - 1),
        Signal::Alpha => ALPHA,
        Signal::Beta => BETA,
        Signal::Repeat => REPEAT,
    }
}

/// The word that stands for a signal (M.476 and M.625, conversion tables).
pub fn word_of(signal: Signal) -> Word
    ensures { result ≡ number_of_signal signal }
{
    Word::at(row_at(place_of_signal(signal)).word)
}

/// What stands for a signal in the table's column Letter or Figure, the column of the shift (M.476
/// and M.625, conversion tables). It is a character, a name in capitals, or nothing for a figure
/// that is not printed. The names are this profile's.
pub fn cell_of(signal: Signal, shift: Shift) -> &'static [u8]
    ensures { result.now ≡ cell_of_signal signal shift }
{
    TABLE[place_of_signal(signal)].cell(shift)
}
