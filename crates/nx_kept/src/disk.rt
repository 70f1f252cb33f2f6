//! A file on a disk: what a read returns, and what a crash may leave.

ghost use Rattle.std.specs.Prelude.{◌≡◌, ◌+◌, ◌<◌, ◌≤◌, ◌^◌, List, ℕ, length, take, drop, IfOk, OnErr, OnOk};
ghost use Rattle.nx_kept.specs.Disk.{Cut, Elapses, Follows, Holds, Only, TellsFaults, Torn};

use thiserror::Error;

/// The disk failed.
#[derive(Clone, Copy, Debug, Drop, PartialEq, Eq, Error)]
#[error("the disk failed")]
pub struct DiskFailed;

/// A file on a disk. Each clause is said of any bytes that the file had at first, `start`: so a
/// theorem reads "for every first content that explains the answers". A file has fewer than 2^63
/// bytes.
pub trait DiskFile {
    /// All that was answered so far fits a file that had these bytes at first.
    ghost explains: { List ℕ → Self → Type 0 };

    /// The bytes that a read finds now, where the file had these at first.
    ghost seen: { List ℕ → Self → List ℕ };

    /// What a crash at this moment may leave, where the file had these bytes at first.
    ghost may_leave: { List ℕ → Self → List ℕ → Type 0 };

    /// This moment, as a number that doesn't fall.
    ghost moment: { Self → ℕ };

    /// What a crash at some moment from that one on might have left, in a call or between two,
    /// where the file had these bytes at first.
    ghost left_since: { List ℕ → Self → ℕ → List ℕ → Type 0 };

    /// How many calls of it have failed.
    ghost faults: { Self → ℕ };

    /// The last call of it was to read, and failed.
    ghost has_failed_to_read: { Self → Type 0 };

    /// The last call of it was to write, cut or sync, and failed.
    ghost has_failed_to_write: { Self → Type 0 };

    /// The last call of it was at a place within the file or at its end, where the file had these
    /// bytes at first, and failed.
    ghost has_failed_within: { List ℕ → Self → Type 0 };

    /// Reads the bytes at a place into the room, as many as there are and the room takes; how many.
    fn read_at(&mut self, at: usize, room: &mut [u8]) -> Result<usize, DiskFailed>
        ensures in_room { IfOk result (λ n. n ≤ length room.old) }
        ensures in_range { IfOk result (λ n. at + n < 2 ^ 63) }
        ensures bytes { (start : List ℕ) → explains start self.new → IfOk result (λ n.
            take n room.new ≡ take (length room.old) (drop at (seen start self.old))) }
        ensures explained { (start : List ℕ) → explains start self.new → explains start self.old }
        ensures seen { (start : List ℕ) → seen start self.new ≡ seen start self.old }
        ensures crash { (start c : List ℕ) → may_leave start self.new c
            → may_leave start self.old c }
        ensures time { (start : List ℕ) → Elapses (moment self.old) (moment self.new)
            (left_since start self.old) (left_since start self.new) (may_leave start self.new) }
        ensures faults { TellsFaults (faults self.old) (faults self.new)
            (has_failed_to_read self.new) result }
        ensures within { (start : List ℕ) → at ≤ length (seen start self.old) →
            OnErr result (has_failed_within start self.new) };

    /// Writes bytes over what is there, and past the end. Until a sync, a crash may leave any bytes
    /// in their range.
    fn write_at(&mut self, at: usize, bytes: &[u8]) -> Result<(), DiskFailed>
        ensures in_range { OnOk result (at + length bytes.now < 2 ^ 63) }
        ensures written { (start : List ℕ) → at ≤ length (seen start self.old) →
            OnOk result (Holds (seen start self.old) at bytes.now (seen start self.new)) }
        ensures crash { (start : List ℕ) → at ≤ length (seen start self.old) →
            Follows (Torn at (length bytes.now)) (may_leave start self.old)
            (may_leave start self.new) }
        ensures explained { (start : List ℕ) → explains start self.new → explains start self.old }
        ensures time { (start : List ℕ) → Elapses (moment self.old) (moment self.new)
            (left_since start self.old) (left_since start self.new) (may_leave start self.new) }
        ensures faults { TellsFaults (faults self.old) (faults self.new)
            (has_failed_to_write self.new) result }
        ensures within { (start : List ℕ) → at ≤ length (seen start self.old) →
            OnErr result (has_failed_within start self.new) };

    /// Cuts the file to this many bytes.
    fn cut(&mut self, size: usize) -> Result<(), DiskFailed>
        ensures cut { (start : List ℕ) → size ≤ length (seen start self.old) →
            OnOk result (seen start self.new ≡ take size (seen start self.old)) }
        ensures crash { (start : List ℕ) → size ≤ length (seen start self.old) →
            Follows (Cut size) (may_leave start self.old) (may_leave start self.new) }
        ensures explained { (start : List ℕ) → explains start self.new → explains start self.old }
        ensures time { (start : List ℕ) → Elapses (moment self.old) (moment self.new)
            (left_since start self.old) (left_since start self.new) (may_leave start self.new) }
        ensures faults { TellsFaults (faults self.old) (faults self.new)
            (has_failed_to_write self.new) result }
        ensures within { (start : List ℕ) → size ≤ length (seen start self.old) →
            OnErr result (has_failed_within start self.new) };

    /// Brings the file to the disk: after it, a crash leaves what a read finds.
    fn sync(&mut self) -> Result<(), DiskFailed>
        ensures durable { (start : List ℕ) →
            OnOk result (Only (seen start self.old) (may_leave start self.new)) }
        ensures seen { (start : List ℕ) → seen start self.new ≡ seen start self.old }
        ensures crash { (start c : List ℕ) → may_leave start self.new c
            → may_leave start self.old c }
        ensures explained { (start : List ℕ) → explains start self.new → explains start self.old }
        ensures time { (start : List ℕ) → Elapses (moment self.old) (moment self.new)
            (left_since start self.old) (left_since start self.new) (may_leave start self.new) }
        ensures faults { TellsFaults (faults self.old) (faults self.new)
            (has_failed_to_write self.new) result }
        ensures within { (start : List ℕ) → OnErr result (has_failed_within start self.new) };

    /// This moment is one of those since an earlier one.
    ghost counts_now: { (start : List ℕ) (file : Self) (t : ℕ) (c : List ℕ) →
        t ≤ moment file → may_leave start file c → left_since start file t c };

    /// Since this moment there is no other.
    ghost only_now: { (start : List ℕ) (file : Self) (c : List ℕ) →
        left_since start file (moment file) c → may_leave start file c };
}
