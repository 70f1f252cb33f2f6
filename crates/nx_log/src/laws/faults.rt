//! Laws of runs over logs that damage, a failed call or a lack of memory ends, worked from what
//! `log_run` and `kept_run` promise. Each function does nothing; its contract is the law.

ghost use Rattle.std.specs.Prelude.{◌≡◌, ◌⊎◌, ◌<◌, ℕ, false, List, [], ◌++◌, length, take, alloc_error, Err, Some};
ghost use Rattle.std.specs.Io.KnownBytes.{Consumes};
ghost use Rattle.nx_fec.specs.Transfers.{CountedDevice, Devices, contents_of};
ghost use Rattle.nx_copies.specs.copies.Shares.{MarkedCopy};
ghost use Rattle.nx_log.specs.KeptLog.{HoldKept, StopKept};
ghost use Rattle.nx_log.specs.KeptRun.{RunsOverKept};
ghost use Rattle.nx_log.specs.LogRun.{RunsOverLog, WroteOutput, WrotePart, WrotePlaced, WrotePlacedPart, WrotePlacedToEnd, WroteToEnd, most_read};
ghost use Rattle.nx_log.specs.NotedReader.{HasToldBefore, as_asked, counted_of, told_as_asked};
ghost use Rattle.nx_log.specs.Notices.{HaveToldAll, HaveToldTorn, Notice, Notices, notices_of};
ghost use Rattle.nx_log.specs.Places.{PlacedCopy};
ghost use Rattle.nx_log.specs.Reading.{HoldEntries};
ghost use Rattle.nx_log.specs.Salvage.{Salvage, SalvageToEnd, Stretch, first_line};
ghost use Rattle.nx_log.specs.declared.damage.Damaged.{Damaged};
ghost use Rattle.nx_log.specs.declared.damage.Damaged.TheVariants.{PassedOver, Refused};
ghost use Rattle.nx_log.specs.declared.log_fault.LogFault.TheVariants.{BadLog, Memory, Read as ReadFailed, Write as WriteFailed};
ghost use Rattle.nx_log.specs.declared.noted_reader.NotedReader.{NotedReader};
ghost use Rattle.nx_log.specs.declared.queries.query.Query.{Query};
ghost use Rattle.nx_log.specs.declared.writing.form.Form.{Form};

use std::io::{Read, Write};

/// A run that passes over what is not of a log reads a damaged one to its end, however it came. It
/// answers with the first line that isn't of a log. The output of all entries that it salvaged was
/// written to its end, and each stretch and each torn entry was told.
pub fn a_damaged_log_is_salvaged_to_its_end<R: Read, W: Write>()
    ensures { (query : Query) (form : Form) (d : Devices R W) (n : Notices) (line : ℕ)
        (input : List ℕ) → RunsOverLog query form PassedOver d n (Err (BadLog line))
        → d.remaining d.reader.inner ≡ Some input
        → (stretches : List Stretch) × (entries : List MarkedCopy) × (told : List Notice)
        × SalvageToEnd stretches (take most_read input) entries told
        × (first_line stretches ≡ Some line) × WroteToEnd query form (contents_of d) entries
        × HaveToldAll n told }
{}

/// After a failed read such a run has written the output of all entries that it salvaged by then,
/// and told each stretch and each torn entry. After a failed write the same holds of some first of
/// what it read, where the first bytes of the output were written.
pub fn a_failed_call_ends_a_salvage<R: Read, W: Write>()
    ensures unread { (query : Query) (form : Form) (d : Devices R W) (n : Notices)
        → RunsOverLog query form PassedOver d n (Err ReadFailed)
        → (bytes : List ℕ) × (stretches : List Stretch) × (entries : List MarkedCopy)
        × (told : List Notice)
        × Consumes (d.remaining d.reader.inner) (d.remaining d.reader_after.inner) bytes
        × Salvage stretches bytes entries told × WroteOutput query form (contents_of d) entries
        × HaveToldAll n told × (d.reader_after.failures ≡ 1) }
    ensures unwritten { (query : Query) (form : Form) (d : Devices R W) (n : Notices)
        (written : ℕ) → RunsOverLog query form PassedOver d n (Err (WriteFailed written))
        → (front : List ℕ) × (more : List ℕ) × (stretches : List Stretch)
        × (entries : List MarkedCopy) × (told : List Notice)
        × Consumes (d.remaining d.reader.inner) (d.remaining d.reader_after.inner)
        (front ++ more)
        × Salvage stretches front entries told
        × WrotePart query form (contents_of d) entries written × HaveToldAll n told
        × (d.writer_after.failures ≡ 1) }
{}

/// What a run over a kept log has written where something ends it early. After a failed read it is
/// the output of all whole entries of what it read. Of damaged bytes it is that of the entries
/// before the damage, to its end; then it has met the damage, or read all. After a failed write the
/// first bytes were written of the output of entries of some first of what it read.
pub fn a_run_over_a_kept_log_ends_early<R: Read, W: Write>()
    ensures unread { (query : Query) (form : Form) (from : ℕ) (d : Devices R W)
        → RunsOverKept query form from d (Err ReadFailed)
        → (bytes : List ℕ) × (entries : List PlacedCopy)
        × Consumes (d.remaining d.reader.inner) (d.remaining d.reader_after.inner) bytes
        × HoldKept from bytes entries × WrotePlaced query form (contents_of d) entries
        × (d.reader_after.failures ≡ 1) }
    ensures damaged { (query : Query) (form : Form) (from : ℕ) (d : Devices R W) (line : ℕ)
        (input : List ℕ) → RunsOverKept query form from d (Err (BadLog line))
        → d.remaining d.reader.inner ≡ Some input
        → (bytes : List ℕ) × (entries : List PlacedCopy)
        × (stop : StopKept from bytes entries line)
        × Consumes (d.remaining d.reader.inner) (d.remaining d.reader_after.inner) bytes
        × ((stop.place < length bytes) ⊎ (bytes ≡ take most_read input))
        × WrotePlacedToEnd query form (contents_of d) entries }
    ensures unwritten { (query : Query) (form : Form) (from : ℕ) (d : Devices R W)
        (written : ℕ) → RunsOverKept query form from d (Err (WriteFailed written))
        → (front : List ℕ) × (more : List ℕ) × (entries : List PlacedCopy)
        × Consumes (d.remaining d.reader.inner) (d.remaining d.reader_after.inner)
        (front ++ more)
        × HoldKept from front entries
        × WrotePlacedPart query form (contents_of d) entries written
        × (d.writer_after.failures ≡ 1) }
{}

/// Where memory runs out, and not the last entries alone are asked for, nothing was read or
/// written, and nothing told.
pub fn a_run_without_memory_does_nothing<R: Read, W: Write>()
    ensures of_log { (query : Query) (form : Form) (damaged : Damaged) (d : Devices R W)
        (n : Notices)
        → (ran : RunsOverLog query form damaged d n (Err (Memory alloc_error)))
        → query.last ≡ false
        → (ran.bytes ≡ []) × (d.reader_after ≡ d.reader) × (d.writer_after ≡ d.writer)
        × HaveToldTorn n [] }
    ensures of_kept_log { (query : Query) (form : Form) (from : ℕ) (d : Devices R W)
        → (ran : RunsOverKept query form from d (Err (Memory alloc_error)))
        → query.last ≡ false
        → (ran.bytes ≡ []) × (d.reader_after ≡ d.reader) × (d.writer_after ≡ d.writer) }
{}

/// What there is to tell of what was read before a failed read was told when that read was asked
/// for, and no read had failed then: each torn entry; and each stretch too, where what is not of a
/// log is passed over.
pub fn what_there_is_to_tell_is_told_before_a_failed_read<R: Read, W: Write, N: Write>()
    ensures of_log { (query : Query) (form : Form) (d : Devices R W) (reader : NotedReader R N)
        (old new : CountedDevice N)
        → RunsOverLog query form Refused d
        (notices_of (N.contents old.inner) (N.contents new.inner) new.failures) (Err ReadFailed)
        → d.reader_after ≡ counted_of reader → HasToldBefore reader new
        → (bytes : List ℕ) × (entries : List MarkedCopy) × (torn : List ℕ)
        × Consumes (d.remaining d.reader.inner) (d.remaining d.reader_after.inner) bytes
        × HoldEntries bytes entries torn × ((as_asked reader).failures ≡ 0)
        × HaveToldTorn (notices_of (N.contents old.inner)
        (N.contents (told_as_asked reader).inner) (told_as_asked reader).failures) torn }
    ensures salvaged { (query : Query) (form : Form) (d : Devices R W)
        (reader : NotedReader R N) (old new : CountedDevice N)
        → RunsOverLog query form PassedOver d
        (notices_of (N.contents old.inner) (N.contents new.inner) new.failures) (Err ReadFailed)
        → d.reader_after ≡ counted_of reader → HasToldBefore reader new
        → (bytes : List ℕ) × (stretches : List Stretch) × (entries : List MarkedCopy)
        × (told : List Notice)
        × Consumes (d.remaining d.reader.inner) (d.remaining d.reader_after.inner) bytes
        × Salvage stretches bytes entries told × ((as_asked reader).failures ≡ 0)
        × HaveToldAll (notices_of (N.contents old.inner)
        (N.contents (told_as_asked reader).inner) (told_as_asked reader).failures) told }
{}
