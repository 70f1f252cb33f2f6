//! What the words of a kept log mean: laws over the definitions alone.

ghost use Rattle.std.specs.Prelude.{◌≡◌, List, ℕ};
ghost use Rattle.nx_kept.specs.Disk.{Elapses, Only};
ghost use Rattle.nx_kept.specs.Kept.{BeginsWith, IsBehindOpenGates, IsDamaged, StandsFor};
ghost use Rattle.nx_kept.specs.Log.{Keeps};
ghost use Rattle.nx_kept.specs.Open.{SyncsFirst};

use crate::disk::DiskFile;
use crate::grammar::Grammar;
use crate::log::KeptLog;

/// Bytes stand for at most one list of records, and are damaged at no more than one line.
pub fn bytes_stand_for_one_list<G: Grammar>()
    ensures one_list { (a b : List (List ℕ)) (bytes : List ℕ) →
        StandsFor G.is_record G.LONGEST a bytes → StandsFor G.is_record G.LONGEST b bytes → a ≡ b }
    ensures one_line { (a b : ℕ) (bytes : List ℕ) →
        IsDamaged G.is_record G.LONGEST a bytes → IsDamaged G.is_record G.LONGEST b bytes → a ≡ b }
{}

/// Whatever a crash leaves of a log that keeps records stands for these records.
pub fn what_is_kept_is_left<D: DiskFile, G: Grammar>(log: &KeptLog<D, G>)
    ensures { (start c : List ℕ) (records : List (List ℕ)) →
        Keeps (D.seen start) (D.may_leave start) G.is_record records log.now →
        D.may_leave start log.now.device c → StandsFor G.is_record G.LONGEST records c }
{}

/// What stands before a gate stays in each file that begins with it, whatever such a file stands
/// for: it stands for the records there, and for those that stand behind them. So a start, which
/// keeps what stands before the tail of its file, keeps it too.
pub fn what_stands_before_a_gate_stays<G: Grammar>()
    ensures { (records others : List (List ℕ)) (front file : List ℕ) →
        IsBehindOpenGates G.is_record records front → BeginsWith front file →
        (stands : StandsFor G.is_record G.LONGEST others file) →
        BeginsWith records others × BeginsWith front stands.front }
{}

/// No moment is left out: what a crash may leave between two calls of a disk file counts among what
/// it might have left since the first of them, also behind the second.
pub fn a_moment_between_two_calls_counts<D: DiskFile>()
    ensures { (start c : List ℕ) (old mid new : D) →
        Elapses (D.moment old) (D.moment mid) (D.left_since start old) (D.left_since start mid)
        (D.may_leave start mid) →
        Elapses (D.moment mid) (D.moment new) (D.left_since start mid) (D.left_since start new)
        (D.may_leave start new) →
        D.may_leave start mid c → D.left_since start new (D.moment old) c }
{}

/// An opening brings its file to the disk before it changes it: there is a moment at which a crash
/// leaves just what a read found at first, and from which on it leaves the records.
pub fn an_opening_brings_its_file_to_the_disk<D: DiskFile, G: Grammar>()
    ensures { (start : List ℕ) (records : List (List ℕ)) (old new : D) →
        SyncsFirst G.is_record G.LONGEST (D.seen start) (D.may_leave start) D.moment
        (D.left_since start) records old new →
        (mid : D) × (D.seen start mid ≡ D.seen start old)
        × Only (D.seen start mid) (D.may_leave start mid)
        × ((c : List ℕ) → D.left_since start new (D.moment mid) c →
        StandsFor G.is_record G.LONGEST records c) }
{}
