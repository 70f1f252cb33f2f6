//! Laws of the lines of any bytes, and of a start, over their definitions: each is the contract of
//! a function that does nothing.

ghost use Rattle.std.specs.Prelude.{◌≡◌, ◌≢◌, ◌+◌, ◌<◌, ◌≤◌, ℕ, Contains, List, [], ◌∷◌, Option};
ghost use Rattle.nx_fec.specs.Transfers.{CountedDevice, max_piece};
ghost use Rattle.nx_fec.specs.air_files.AirFile.{Line};
ghost use Rattle.nx_watch.specs.AnyLines.{AreLines};
ghost use Rattle.nx_watch.specs.LineRun.{HasTold};
ghost use Rattle.nx_watch.specs.LinesTold.{LacksEffect};
ghost use Rattle.nx_watch.specs.Stamp.{AreTheReads, CutNote, Stamp};
ghost use Rattle.nx_watch.specs.ToldFirst.{TellsBeforeChange};
ghost use Rattle.nx_watch.specs.Watch.{TellsOfCut};
ghost use Rattle.nx_watch.specs.declared.lines.no_effect.NoEffect.{NoEffect};

use nx_kept::DiskFile;
use std::io::Write;

/// Any bytes are lines and a part of one more, and in one way only. So every list of bytes has a
/// watch, and one alone.
pub fn every_bytes_have_one_reading()
    ensures some { (bytes : List ℕ)
        → (lines : List (Option Line)) × (rest : List ℕ) × AreLines bytes lines rest }
    ensures one { (bytes : List ℕ) (a b : List (Option Line)) (x y : List ℕ) → AreLines bytes a x
        → AreLines bytes b y → (a ≡ b) × (x ≡ y) }
{}

/// Of a line without effect one reason is told: where two reasons are why the line of this number
/// has none, they are the same.
pub fn a_line_without_effect_has_one_reason()
    ensures { (bytes : List ℕ) (lines : List (Option Line)) (number : ℕ) (why other : NoEffect)
        → LacksEffect bytes lines number why → LacksEffect bytes lines number other
        → why ≡ other }
{}

/// Each byte of the input of a watch came by a read that has a stamp: it stands in what that read
/// gave, which is at most 65,536 bytes.
pub fn each_byte_comes_by_a_read_with_a_stamp<D: DiskFile, W: Write, N: Write>()
    ensures { (stamps : List (Stamp D (CountedDevice W) (CountedDevice N))) (total place : ℕ)
        → AreTheReads stamps total → place < total
        → (at : Stamp D (CountedDevice W) (CountedDevice N)) × Contains stamps at
        × (at.read ≤ place) × (place < at.read + at.gave) × (at.gave ≤ max_piece) }
{}

/// Where a watch has changed its file, what its start cuts had been told before: as that was noted,
/// a read found what it had found at first, and a crash left nothing else than before. Of a file of
/// which nothing is cut nothing is told.
pub fn what_a_start_cuts_is_told_before_it_is_cut<D: DiskFile, N: Write>()
    ensures { (start : List ℕ) (disk disk_after : D) (notices : CountedDevice N)
        (old new : List (CutNote D (CountedDevice N)))
        → TellsBeforeChange D.DiskFile N.contents disk notices old new start disk_after
        → (D.seen start disk_after ≡ D.seen start disk → ⊥)
        → (cut : List ℕ) × TellsOfCut (D.seen start disk) cut
        × (cut ≢ [] → (note : CutNote D (CountedDevice N)) × (new ≡ note ∷ old)
        × (D.seen start note.disk ≡ D.seen start disk)
        × ((file : List ℕ) → D.may_leave start note.disk file → D.may_leave start disk file)
        × HasTold (N.contents notices.inner) (N.contents note.notices.inner)
        note.notices.failures cut) }
{}
