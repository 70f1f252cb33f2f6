//! The tables of a printer's step: what a position of each class prints, and the shift after it,
//! each found by the class and the shift with no branch. Beside them, what some positions print.

ghost use Rattle.std.specs.Prelude.{◌≡◌};

use crate::classes::CLASSES;
use crate::shifts::Shift;
use crate::shifts::Shift::{Figures as F, Letters as L};

/// How many rows the tables have: each class in each shift.
const ROWS: usize = 2 * CLASSES;

/// The bytes that each class prints, in letters and in figures by turns; 0 where it prints nothing.
#[rattlefmt::skip]
pub(crate) static PRINTED: [u8; ROWS] = [
    42, 42,
    65, 45, 66, 63, 67, 58, 68,  0, 69, 51, 70,  0, 71,  0, 72,  0,
    73, 56, 74,  0, 75, 40, 76, 41, 77, 46, 78, 44, 79, 57, 80, 48,
    81, 49, 82, 52, 83, 39, 84, 53, 85, 55, 86, 61, 87, 50, 88, 47,
    89, 54, 90, 43,  0,  0, 10, 10,  0,  0,  0,  0, 32, 32,  0,  0,
     0,  0,
];

/// The shifts after each class, in letters and in figures by turns.
#[rattlefmt::skip]
pub(crate) static AFTER: [Shift; ROWS] = [
    L, F,
    L, F, L, F, L, F, L, F, L, F, L, F, L, F, L, F,
    L, F, L, F, L, F, L, F, L, F, L, F, L, F, L, F,
    L, F, L, F, L, F, L, F, L, F, L, F, L, F, L, F,
    L, F, L, F, L, F, L, F, L, L, F, F, L, F, L, F,
    L, F,
];

/// What at most four positions print: the first `count` of these bytes.
#[derive(Clone, Copy, Debug)]
pub struct FourPrinted {
    /// The bytes, of which those from `count` on mean nothing.
    pub bytes: [u8; 4],
    /// How many bytes are printed, 0 to 4.
    pub count: usize,
}

impl FourPrinted {
    /// What no position prints: nothing.
    #[inline(always)]
    pub fn none() -> FourPrinted
        ensures { result.count ≡ 0 }
    {
        FourPrinted {
            bytes: [0; 4],
            count: 0,
        }
    }
}
