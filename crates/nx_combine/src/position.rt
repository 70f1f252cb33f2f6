//! A position of a copy, as it is kept until the message is sent again.

ghost use Rattle.std.specs.Prelude.{◌≡◌, ◌<◌};
ghost use Rattle.nx_code.specs.Classes.{reception_of_class};
ghost use Rattle.nx_code.specs.Reading.{lost};
ghost use Rattle.nx_code.specs.Taken.{reception_of};
ghost use Rattle.nx_combine.specs.Joining as spec;

use nx_code::{Comb, NO_CLASS, Taken};
use std::marker::Model;
use std::mem::size_of;

/// The class of an idle position.
const IDLE_CLASS: u8 = 33;

/// What was taken of a position: a combination, idle, or that it is lost. It is kept in one byte,
/// by its class (`nx_code::class_of`).
#[derive(Clone, Copy, Debug)]
pub struct Position {
    class: u8,
}

impl Model for Position {
    ghost use Rattle.std.specs.Prelude.{◌<◌};
    ghost use Rattle.nx_code.specs.Classes.{reception_of_class};
    ghost use Rattle.nx_code.specs.Reading.{Reception};
    ghost use Rattle.nx_combine.specs.private.Kept.{class_by, same_class};

    ghost Value = { Reception };

    ghost view = { λ position. reception_of_class position.class };

    ghost invariant = { λ position. position.class < 34 };

    ghost inverse = { λ taken. record { class = class_by taken } };

    ghost inverse_ok = { λ position h i. record { class = same_class position.class i } };
}

impl Default for Position {
    ghost is_default = { λ position. position ≡ lost };

    /// A lost position.
    fn default() -> Position {
        Position::of(Taken::Lost)
    }
}

impl Position {
    /// The position of which this was taken.
    pub fn of(taken: Taken) -> Position
        ensures { result ≡ reception_of taken }
    {
        prove!(size_of::<Position>() == 1);
        let class = match taken {
            Taken::Char(comb) => comb.number(),
            Taken::Idle => IDLE_CLASS,
            Taken::Lost => NO_CLASS,
        };
        Position { class }
    }

    /// The position of this class.
    #[inline(always)]
    pub(crate) fn of_class(class: u8) -> Position
        requires { class < 34 }
        ensures { result ≡ reception_of_class class }
    {
        Position { class }
    }

    /// What was taken of the position.
    pub fn taken(self) -> Taken
        ensures { reception_of result ≡ self }
    {
        if self.class == NO_CLASS {
            return Taken::Lost;
        }
        match Comb::new(self.class) {
            Some(comb) => Taken::Char(comb),
            None => Taken::Idle,
        }
    }

    /// Whether both took a combination, and the same one.
    pub fn took_one(self, other: Position) -> bool
        ensures { result ≡ spec.took_one self other }
    {
        match (self.taken(), other.taken()) {
            (Taken::Char(one), Taken::Char(another)) => one == another,
            _ => false,
        }
    }

    /// Whether both took a combination, and not the same one.
    pub fn took_two(self, other: Position) -> bool
        ensures { result ≡ spec.took_two self other }
    {
        match (self.taken(), other.taken()) {
            (Taken::Char(one), Taken::Char(another)) => one != another,
            _ => false,
        }
    }

    /// What two copies give of one position: the combination that one of them or both took. It is
    /// lost where they took two. Where neither took one, it is idle if both have it so, else lost.
    pub fn join(self, other: Position) -> Position
        ensures { result ≡ spec.joined_position self other }
    {
        match (self.taken(), other.taken()) {
            (Taken::Char(one), Taken::Char(another)) => {
                if one == another {
                    self
                } else {
                    Position::of(Taken::Lost)
                }
            }
            (Taken::Char(_), _) => self,
            (_, Taken::Char(_)) => other,
            (Taken::Idle, Taken::Idle) => self,
            _ => Position::of(Taken::Lost),
        }
    }
}
