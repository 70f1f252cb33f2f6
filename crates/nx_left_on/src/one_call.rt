//! Laws of one call of `watch`: what it read, what it told, and that no copy is lost. Each function
//! does nothing; its contract is the law.

ghost use Rattle.std.specs.Prelude.{◌≡◌, ◌≢◌, ◌⊎◌, ◌≤◌, ℕ, ◌+◌, Bool, true, Contains, List, [], ◌∷◌, ◌++◌, drop, length, take, Err, Ok, Option, Result, Some, ⊤};
ghost use Rattle.std.specs.Io.KnownBytes.{Appends, Consumes};
ghost use Rattle.nx_copies.specs.copies.Log.{IsLog};
ghost use Rattle.nx_copies.specs.copies.Shares.{MarkedCopy};
ghost use Rattle.nx_fec.specs.Transfers.{CountedDevice, IsReadOut};
ghost use Rattle.nx_fec.specs.air_files.AirFile.{Line, moment};
ghost use Rattle.nx_kept.specs.Kept.{line_behind};
ghost use Rattle.nx_receiver.specs.air_file_runs.Listen.{given_by};
ghost use Rattle.nx_watch.specs.Acting.{goes_on, most_bytes};
ghost use Rattle.nx_watch.specs.AnyLines.{AreLines};
ghost use Rattle.nx_watch.specs.CutTold.{AreHeads, cut_told};
ghost use Rattle.nx_watch.specs.LineRun.{HasTold};
ghost use Rattle.nx_watch.specs.LinesTold.{IsToldAtEnd};
ghost use Rattle.nx_watch.specs.Stamp.{AreTheReads, LastGaveNone, Stamp};
ghost use Rattle.nx_watch.specs.Watch.{AnswersStarted, AnswersWatch, HadFailed, HasOpened, HasRead, PrintsUntil, StandsForEntries, Stop, TellsOfCut, back, moments_at, starts_at, unwritten};
ghost use Rattle.nx_watch.specs.declared.lines.line_effects.StartMoments.{StartMoments};
ghost use Rattle.nx_watch.specs.declared.watch_fault.WatchFault.{WatchFault};
ghost use Rattle.nx_watch.specs.declared.watch_fault.WatchFault.TheVariants.{Disk, Read as Unread};
ghost use Rattle.nx_watch.specs.declared.watch_report.WatchReport.{WatchReport};
ghost use Rattle.nx_left_on.specs.AtHand.{AtHand, telling};
ghost use Rattle.nx_left_on.specs.Chain.{acting_at};

use nx_kept::DiskFile;
use std::io::{Read, Write};

/// Whatever a watch answers, the bytes that it read are at most 2^63 - 1, and its stamps are the
/// reads of them; each of these began within them. After Ok the input had ended, and the last read
/// found that, or so many bytes had been read; no read failed, and at most one write. After a
/// failed read no write had failed, and that read was the last one.
pub fn a_watch_reads_by_its_stamped_reads<D: DiskFile, R: Read, W: Write, N: Write>()
    ensures all { (a : AtHand D R W N) (now : ℕ) (log : List MarkedCopy)
        (outcome : Result WatchReport WatchFault)
        → AnswersWatch (telling D.DiskFile R.remaining W.contents N.contents a) now log outcome
        → (bytes : List ℕ)
        × Consumes (R.remaining a.reader.inner) (R.remaining a.reader_after.inner) bytes
        × (length bytes ≤ most_bytes) × AreTheReads a.stamps (length bytes)
        × ((at : Stamp D (CountedDevice W) (CountedDevice N)) → Contains a.stamps at
        → at.read ≤ length bytes) }
    ensures ok { (a : AtHand D R W N) (now : ℕ) (log : List MarkedCopy) (report : WatchReport)
        → AnswersWatch (telling D.DiskFile R.remaining W.contents N.contents a) now log (Ok report)
        → (a.reader_after.failures ≢ 1) × (a.writer_after.failures ≤ 1) × (bytes : List ℕ)
        × Consumes (R.remaining a.reader.inner) (R.remaining a.reader_after.inner) bytes
        × (IsReadOut (telling D.DiskFile R.remaining W.contents N.contents a).streams
        ⊎ (length bytes ≡ most_bytes))
        × (LastGaveNone a.stamps ⊎ (length bytes ≡ most_bytes)) }
    ensures failed_read { (a : AtHand D R W N) (now : ℕ) (log : List MarkedCopy)
        → AnswersWatch (telling D.DiskFile R.remaining W.contents N.contents a) now log (Err Unread)
        → (a.reader_after.failures ≡ 1) × (a.writer_after.failures ≡ 0)
        × LastGaveNone a.stamps }
{}

/// By each read of its input no write of a watch had failed, where none had when it began. A failed
/// write ends it before the next read.
pub fn no_write_had_failed_by_a_read<D: DiskFile, R: Read, W: Write, N: Write>()
    ensures { (a : AtHand D R W N) (now : ℕ) (log : List MarkedCopy)
        (outcome : Result WatchReport WatchFault)
        (at : Stamp D (CountedDevice W) (CountedDevice N))
        → AnswersWatch (telling D.DiskFile R.remaining W.contents N.contents a) now log outcome
        → Contains a.stamps at → a.writer.failures ≡ 0 → at.writer.failures ≡ 0 }
{}

/// What there is to tell stands on the notices of a watch when it is over, unless a write there had
/// failed. Of one that read, that is what the start cut; then the first of its lines without
/// effect, how many there are, and a put that failed, where one did. Of one that ended before its
/// first read it is what was cut, where the file isn't as it was.
pub fn what_there_is_to_tell_is_told_at_the_end<D: DiskFile, R: Read, W: Write, N: Write>()
    ensures started { (a : AtHand D R W N) (now : ℕ) (log : List MarkedCopy)
        (outcome : Result WatchReport WatchFault)
        → AnswersStarted (telling D.DiskFile R.remaining W.contents N.contents a) now
        (starts_at now log) log outcome
        → a.notices_after.failures ≡ 0
        → (bytes : List ℕ)
        × Consumes (R.remaining a.reader.inner) (R.remaining a.reader_after.inner) bytes
        × (stop : Stop) × (lines : List (Option Line))
        × HasRead (IsReadOut (telling D.DiskFile R.remaining W.contents N.contents a).streams
        ⊎ (length bytes ≡ most_bytes)) (moments_at now (starts_at now log)) stop bytes lines
        × (failed : Bool)
        × HadFailed (telling D.DiskFile R.remaining W.contents N.contents a) failed a.disk_after
        × (cut : List ℕ) × TellsOfCut (D.seen a.start a.disk) cut × (text : List ℕ)
        × IsToldAtEnd (moments_at now (starts_at now log)) bytes lines failed text
        × Appends (N.contents a.notices.inner) (N.contents a.notices_after.inner) (cut ++ text) }
    ensures opened { (a : AtHand D R W N) (log : List MarkedCopy)
        → HasOpened (telling D.DiskFile R.remaining W.contents N.contents a) log
        → D.seen a.start a.disk_after ≢ D.seen a.start a.disk
        → a.notices_after.failures ≡ 0
        → (cut : List ℕ) × TellsOfCut (D.seen a.start a.disk) cut
        × Appends (N.contents a.notices.inner) (N.contents a.notices_after.inner) cut }
{}

/// No copy is lost where the disk fails under a watch that had begun to read. A file that a crash
/// leaves when it is over stands for the entries and a beginning of the copies that its lines
/// print. From one of these on, or the last of them, the copies were written to the output, up to
/// a failed write there.
pub fn each_copy_is_kept_or_written<D: DiskFile, R: Read, W: Write, N: Write>()
    ensures { (a : AtHand D R W N) (now : ℕ) (log : List MarkedCopy) (file : List ℕ)
        → AnswersStarted (telling D.DiskFile R.remaining W.contents N.contents a) now
        (starts_at now log) log (Err Disk)
        → D.may_leave a.start a.disk_after file
        → (stop : Stop) × (lines : List (Option Line)) × (copies : List MarkedCopy)
        × PrintsUntil stop (starts_at now log) (given_by (acting_at now log lines)) copies
        × (kept : ℕ) × (kept ≤ length copies) × StandsForEntries (log ++ take kept copies) file
        × (count : ℕ) × (count ≤ kept) × (text : List ℕ) × IsLog (drop count copies) text
        × HasTold (W.contents a.writer.inner) (W.contents a.writer_after.inner)
        a.writer_after.failures text }
{}

/// None of the lines before the last one ended a watch, where it stopped behind that one: it goes
/// back behind a moment, which ends the watch, or a write of what that line prints failed. These
/// lines are as many as it answers, and they are those of the first bytes that it read.
pub fn no_line_before_the_last_ends_a_watch()
    ensures back { (first : StartMoments) (bytes : List ℕ) (lines : List (Option Line))
        (line last given : ℕ) → HasRead ⊤ first (back line last given) bytes lines
        → (before : List (Option Line)) × (lines ≡ before ++ Some (moment given) ∷ [])
        × (goes_on first before ≡ true) × (line ≡ length before + 1) × (front : List ℕ)
        × (more : List ℕ) × (bytes ≡ front ++ more) × AreLines front lines [] }
    ensures unwritten { (first : StartMoments) (bytes : List ℕ) (lines : List (Option Line))
        → HasRead ⊤ first unwritten bytes lines
        → (before : List (Option Line)) × (line : Line) × (lines ≡ before ++ Some line ∷ [])
        × (goes_on first before ≡ true) × (front : List ℕ) × (more : List ℕ)
        × (bytes ≡ front ++ more) × AreLines front lines [] }
{}

/// What a start tells of what it cuts is of bytes with which the file ends, behind at most the
/// gate before them: their number and line, and the line with which each whole entry among them
/// begins, in order.
pub fn what_a_start_cuts_stands_at_the_end()
    ensures { (file text : List ℕ) → TellsOfCut file text
        → (front : List ℕ) × (gate : List ℕ) × (cut : List ℕ) × (heads : List (List ℕ))
        × (file ≡ front ++ (gate ++ cut)) × (length gate ≤ 1) × AreHeads cut heads
        × (text ≡ cut_told (line_behind front) cut heads) }
{}
