//! Notes of the positions of the copy that stands open.

ghost use Rattle.std.specs.Prelude.{◌≡◌, ◌&&◌, if◌then◌else◌, ℕ, [], ◌∷◌, ◌++◌, length, take};
ghost use Rattle.nx_combine.specs.CopyPositions.{LockPositions};
ghost use Rattle.nx_combine.specs.Notes.{IsNoted};

use crate::joining::MAX_POSITIONS;
use crate::position::Position;
use arrayvec::ArrayVec;
use std::marker::Model;

/// How many positions are noted at most: one more than a copy has that has a family. So many say
/// that there are too many.
pub const MAX_NOTED: usize = MAX_POSITIONS + 1;

/// Notes of the positions of a lock from a place on: of the copy that stands open.
///
/// It holds the first 8,193 of them, how many stand up to the last two in a row whose words count
/// alike, and whether the words of the last one do.
#[derive(Drop)]
pub struct PositionNotes {
    positions: ArrayVec<Position, MAX_NOTED>,
    sure: usize,
    was_alike: bool,
}

impl Model for PositionNotes {
    ghost use Rattle.nx_combine.specs.Notes.{Noting};

    ghost Value = { Noting };

    ghost view = { λ notes. record {
      positions = notes.positions.items;
      sure = notes.sure;
      was_alike = notes.was_alike;
    } };

    ghost inverse = { λ noting. record {
      positions = record { items = noting.positions };
      sure = noting.sure;
      was_alike = noting.was_alike;
    } };
}

impl PositionNotes {
    /// Notes of a lock of which no position was read yet.
    pub fn new() -> PositionNotes
        ensures { IsNoted result (record { taken = []; alike = [] }) 0 }
    {
        PositionNotes {
            positions: ArrayVec::new(),
            sure: 0,
            was_alike: false,
        }
    }

    /// The positions that were noted.
    pub fn positions(&self) -> &[Position]
        ensures { result.now ≡ self.now.positions }
    {
        self.positions.as_slice()
    }

    /// Notes the next position of the lock, and whether its two words count alike.
    #[inline(always)]
    pub fn note(&mut self, position: Position, is_alike: bool)
        ensures { (lock : LockPositions) (from : ℕ) → IsNoted self.old lock from
            → IsNoted self.new
            (record { taken = lock.taken ++ position ∷ []; alike = lock.alike ++ is_alike ∷ [] })
            from }
    {
        let _full = self.positions.try_push(position);
        let count = self.positions.len();
        self.sure = sure_after(self.sure, count, is_alike, self.was_alike);
        self.was_alike = is_alike;
    }

    /// Begins anew behind the last position, for a copy whose header it completes.
    pub fn begin(&mut self)
        ensures anew { (lock : LockPositions) (from : ℕ) → IsNoted self.old lock from
            → IsNoted self.new lock (length lock.taken) }
        ensures none { self.new ≡ record self.old { positions = []; sure = 0 } }
    {
        self.positions.clear();
        self.sure = 0;
    }

    /// Begins anew for another lock, of which no position was read yet.
    pub fn restart(&mut self)
        ensures { IsNoted self.new (record { taken = []; alike = [] }) 0 }
    {
        self.begin();
        self.was_alike = false;
    }

    /// Leaves out what stands behind the last two positions in a row whose words count alike; all
    /// where there are no two.
    pub fn leave_unsure(&mut self)
        ensures { self.new
            ≡ record self.old { positions = take self.old.sure self.old.positions } }
    {
        self.positions.truncate(self.sure);
    }
}

/// How many positions are sure, where so many are noted with the last one: all of these where its
/// two words count alike, and those of the one before it did; else as many as before.
#[inline(always)]
fn sure_after(sure: usize, count: usize, is_alike: bool, was_alike: bool) -> usize
    ensures { result ≡ if is_alike && was_alike then count else sure }
{
    if is_alike && was_alike { count } else { sure }
}
