//! The code of NAVTEX: words of seven elements, the signals that they stand for, the characters
//! that the signals print, and the spelling of a text.
#![tactic(auto)]

mod characters;
mod classes;
mod decimals;
pub mod laws;
mod names;
mod packed;
mod printer_steps;
mod printing;
mod shifts;
mod signals;
mod spelling;
mod table;
mod table_indexes;
mod words;

pub use characters::{NEWLINE, char_to_code, code_to_char};
pub use classes::{CLASSES, NO_CLASS, class_of, pair_classes};
pub use decimals::decimal_number;
pub use packed::{PACKED, WORDS_AT_ONCE, elements_at, words_of};
pub use printer_steps::FourPrinted;
pub use printing::{ASTERISK, Printer, Taken};
pub use shifts::{Case, Shift};
pub use signals::{Comb, Signal};
pub use spelling::{Extent, SpellFault, extent_of, spell};
pub use table::{SIGNALS, cell_of, signal_at, signal_of, word_of};
pub use words::{ELEMENTS, Word, check_bits};
