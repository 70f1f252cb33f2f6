//! Positions that are read as those behind a header: their text, how it ended, and where.

ghost use Rattle.std.specs.Prelude.{◌≡◌, ◌≤◌, ℕ, List, ◌++◌, length};
ghost use Rattle.nx_code.specs.declared.shifts.Shift.TheVariants.{Figures};
ghost use Rattle.nx_envelope.specs.Finder.{StandsAfter, is_over};
ghost use Rattle.nx_station.specs.Broadcast.{header};
ghost use Rattle.nx_combine.specs.PositionEnds.{HasRead, end_of};

use crate::position::Position;
use nx_code::{Comb, Printer, Taken};
use nx_envelope::{Finder, Identity, TextEvent};

/// What stands before the identity in a header (ITU-R M.540).
const BEFORE_IDENTITY: [u8; 5] = *b"ZCZC ";

/// Reads positions as those behind a header of the identity, and leaves the copy that they give
/// with the finder. They are read from figures, since the digit before them is one. Answers the end
/// of the positions: how many of them there are up to the one that ends the copy, or all.
pub fn read_positions(positions: &[Position], identity: Identity, finder: &mut Finder) -> usize
    ensures end { result ≡ end_of positions.now }
    ensures within { result ≤ length positions.now }
    ensures copy { HasRead finder.new identity positions.now }
{
    hear_header(identity, finder);
    let mut printer = figures_printer();
    for (index, position) in positions.iter().enumerate() {
        if let Some(byte) = printer.step(position.taken()) {
            if is_over(finder.hear(byte)) {
                return index + 1;
            }
        }
    }
    finder.close();
    positions.len()
}

/// Lets the finder hear a header of the identity, as the first of a text.
fn hear_header(identity: Identity, finder: &mut Finder)
    ensures { StandsAfter finder.new (header identity) }
{
    finder.restart();
    hear_all(&BEFORE_IDENTITY, finder);
    hear_all(&identity.bytes(), finder);
}

/// Lets the finder hear these bytes.
fn hear_all(bytes: &[u8], finder: &mut Finder)
    ensures { (text : List ℕ) → StandsAfter finder.old text
        → StandsAfter finder.new (text ++ bytes.now) }
{
    for byte in bytes {
        let _event = finder.hear(*byte);
    }
}

/// Whether the event is the end of a copy.
fn is_over(event: TextEvent) -> bool
    ensures { result ≡ is_over event }
{
    match event {
        TextEvent::CopyOver => true,
        TextEvent::Nothing | TextEvent::Header(_) => false,
    }
}

/// A printer in figures.
fn figures_printer() -> Printer
    ensures { result ≡ Figures }
{
    let mut printer = Printer::new();
    let _shift = printer.step(Taken::Char(Comb::FIGURE_SHIFT));
    printer
}
