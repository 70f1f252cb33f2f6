//! What a receiver prints of the positions that it takes.

ghost use Rattle.std.specs.Prelude.{◌≡◌, ◌+◌, ◌<◌, ◌≤◌, List, [], ◌∷◌, ◌++◌, take};
ghost use Rattle.std.specs.Option.{option_to_list};
ghost use Rattle.nx_code.specs.Reading.{Reception, combination, character_of, byte_of, shift_after, shift_after_all, text};
ghost use Rattle.nx_code.specs.Taken.{reception_of};
ghost use Rattle.nx_code.specs.Classes.{reception_of_class};
ghost use Rattle.nx_code.specs.private.Rows.{byte_given};
ghost use Rattle.nx_code.specs.declared.shifts.Shift.TheVariants.{Letters};

use crate::characters::code_to_char;
use crate::printer_steps::{AFTER, FourPrinted, PRINTED};
use crate::shifts::Shift;
use crate::signals::{Comb, FIGURE_SHIFT, LETTER_SHIFT};
use std::marker::Model;

/// What was taken of a position from its two words.
#[derive(Clone, Copy, Debug, PartialEq, Eq)]
pub enum Taken {
    /// A traffic combination.
    Char(Comb),
    /// A service signal: the position prints nothing.
    Idle,
    /// Neither word can be relied on: the position prints `*` (this profile).
    Lost,
}

/// A reader of text, one position at a time (M.476 and M.625, conversion tables; that a lost
/// position prints `*` is this profile's). It starts in letters. Contracts see it as the shift in
/// force.
#[derive(Clone, Copy, Debug)]
pub struct Printer {
    shift: Shift,
}

impl Model for Printer {
    ghost use Rattle.nx_code.specs.declared.shifts.Shift.{Shift};

    ghost Value = { Shift };

    ghost view = { λ printer. printer.shift };

    ghost inverse = { λ shift. record { shift = shift } };
}

/// The asterisk, which a lost position prints (this profile).
pub const ASTERISK: u8 = b'*';

impl Printer {
    /// A reader that has read nothing.
    pub fn new() -> Printer
        ensures { result ≡ Letters }
    {
        Printer {
            shift: Shift::Letters,
        }
    }

    /// Takes the next position, and answers the byte that it prints, if any.
    pub fn step(&mut self, taken: Taken) -> Option<u8>
        ensures printed { result ≡ byte_of (reception_of taken) self.old }
        ensures shift { self.new ≡ shift_after (reception_of taken) self.old }

        // For the positions so far, from letters, the byte is the next of their text.
        ensures reading { (positions : List Reception)
            → self.old ≡ shift_after_all positions Letters
            → (self.new ≡ shift_after_all (positions ++ reception_of taken ∷ []) Letters)
            × (text (positions ++ reception_of taken ∷ []) Letters
            ≡ text positions Letters ++ option_to_list result) }
    {
        match taken {
            Taken::Char(comb) => self.print(comb),
            Taken::Idle => None,
            Taken::Lost => Some(ASTERISK),
        }
    }

    /// Takes the next position by its class, and answers the byte that it prints, if any.
    #[inline(always)]
    pub fn step_by_class(&mut self, class: u8) -> Option<u8>
        requires { class < 34 }
        ensures printed { result ≡ byte_of (reception_of_class class) self.old }
        ensures shift { self.new ≡ shift_after (reception_of_class class) self.old }
    {
        let byte = self.print_byte(class);
        if byte == 0 { None } else { Some(byte) }
    }

    /// Takes the next position by its class, as `step_by_class` does, and appends the byte that it
    /// prints, if any, to those of at most three positions before it.
    #[inline(always)]
    pub fn print_behind(&mut self, class: u8, printed: &mut FourPrinted)
        requires class { class < 34 }
        requires room { printed.old.count < 4 }

        ensures printed { take printed.new.count printed.new.bytes
            ≡ take printed.old.count printed.old.bytes
            ++ option_to_list (byte_of (reception_of_class class) self.old) }

        ensures count { printed.new.count ≤ printed.old.count + 1 }
        ensures shift { self.new ≡ shift_after (reception_of_class class) self.old }
    {
        let byte = self.print_byte(class);
        printed.bytes[printed.count] = byte;
        printed.count += usize::from(byte != 0);
    }

    /// Takes the next position by its class, and answers the byte that it prints, or 0.
    #[inline(always)]
    fn print_byte(&mut self, class: u8) -> u8
        requires { class < 34 }
        ensures printed { byte_given result ≡ byte_of (reception_of_class class) self.old }
        ensures shift { self.new ≡ shift_after (reception_of_class class) self.old }
    {
        // Each class has two rows, one for letters and one for figures.
        let row = 2 * usize::from(class) + self.shift as usize;
        self.shift = AFTER[row];
        PRINTED[row]
    }

    /// Takes a combination.
    fn print(&mut self, comb: Comb) -> Option<u8>
        ensures printed { result ≡ character_of comb.number self.old }
        ensures shift { self.new ≡ shift_after (combination comb.number) self.old }
    {
        let printed = code_to_char(comb, self.shift);
        match comb.number {
            LETTER_SHIFT => self.shift = Shift::Letters,
            FIGURE_SHIFT => self.shift = Shift::Figures,
            _ => {}
        }
        printed
    }
}
