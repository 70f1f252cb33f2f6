//! Laws of runs over logs, worked from what `log_run` and `kept_run` promise. Each function does
//! nothing; its contract is the law.

ghost use Rattle.std.specs.Prelude.{◌≡◌, ℕ, List, ◌++◌, length, take, Ok, Err, Some};
ghost use Rattle.std.specs.Io.KnownBytes.{Appends, Consumes};
ghost use Rattle.nx_fec.specs.Transfers.{Devices, WroteSome, contents_of};
ghost use Rattle.nx_copies.specs.copies.Shares.{MarkedCopy};
ghost use Rattle.nx_log.specs.KeptLog.{StandForPlaced};
ghost use Rattle.nx_log.specs.KeptRun.{RunsOverKept};
ghost use Rattle.nx_log.specs.LogRun.{RunsOverLog, most_read};
ghost use Rattle.nx_log.specs.Logged.{IsLogOfLogged};
ghost use Rattle.nx_log.specs.Notices.{Notices};
ghost use Rattle.nx_log.specs.Places.{PlacedCopy, chosen_placed};
ghost use Rattle.nx_log.specs.Query.{chosen};
ghost use Rattle.nx_log.specs.Reading.{HoldEntries, HoldEntriesToEnd};
ghost use Rattle.nx_log.specs.declared.damage.Damaged.{Damaged};
ghost use Rattle.nx_log.specs.declared.damage.Damaged.TheVariants.{Refused};
ghost use Rattle.nx_log.specs.declared.log_fault.LogFault.TheVariants.{Read as ReadFailed, Write as WriteFailed};
ghost use Rattle.nx_log.specs.declared.queries.query.Query.{Query};
ghost use Rattle.nx_log.specs.declared.writing.form.Form.{Form};
ghost use Rattle.nx_log.specs.declared.writing.form.Form.TheVariants.{Log};

use std::io::{Read, Write};

/// A run over a log that answers Ok read all of it, or as much as is ever read, however it came,
/// and its answer counts the entries in it that the query chooses. No call on its input or its
/// output failed.
pub fn a_run_that_ends_well_read_its_log<R: Read, W: Write>()
    ensures counted { (query : Query) (form : Form) (damaged : Damaged) (d : Devices R W)
        (n : Notices) (count : ℕ) (input : List ℕ)
        → RunsOverLog query form damaged d n (Ok count)
        → d.remaining d.reader.inner ≡ Some input
        → (entries : List MarkedCopy) × (torn : List ℕ)
        × HoldEntriesToEnd (take most_read input) entries torn
        × (count ≡ length (chosen query entries)) }
    ensures unfailed { (query : Query) (form : Form) (damaged : Damaged) (d : Devices R W)
        (n : Notices) (count : ℕ) → RunsOverLog query form damaged d n (Ok count)
        → (d.reader_after.failures ≡ 0) × (d.writer_after.failures ≡ 0) }
{}

/// The same of a run over a kept log.
pub fn a_run_that_ends_well_read_its_kept_log<R: Read, W: Write>()
    ensures counted { (query : Query) (form : Form) (from : ℕ) (d : Devices R W) (count : ℕ)
        (input : List ℕ) → RunsOverKept query form from d (Ok count)
        → d.remaining d.reader.inner ≡ Some input
        → (entries : List PlacedCopy) × StandForPlaced from (take most_read input) entries
        × (count ≡ length (chosen_placed query entries)) }
    ensures unfailed { (query : Query) (form : Form) (from : ℕ) (d : Devices R W) (count : ℕ)
        → RunsOverKept query form from d (Ok count)
        → (d.reader_after.failures ≡ 0) × (d.writer_after.failures ≡ 0) }
{}

/// Where a log is written of a log, it is that of the entries that the query chooses: of all that
/// was read, or behind a failed read of what came before it. After a failed write its first bytes
/// were written, where some first of what was read counts.
pub fn a_log_is_written_of_what_is_chosen<R: Read, W: Write>()
    ensures whole { (query : Query) (d : Devices R W) (n : Notices) (count : ℕ)
        → RunsOverLog query Log Refused d n (Ok count)
        → (bytes : List ℕ) × (entries : List MarkedCopy) × (torn : List ℕ) × (log : List ℕ)
        × Consumes (d.remaining d.reader.inner) (d.remaining d.reader_after.inner) bytes
        × HoldEntriesToEnd bytes entries torn × IsLogOfLogged (chosen query entries) log
        × Appends (contents_of d).before (contents_of d).after log }
    ensures unread { (query : Query) (d : Devices R W) (n : Notices)
        → RunsOverLog query Log Refused d n (Err ReadFailed)
        → (bytes : List ℕ) × (entries : List MarkedCopy) × (torn : List ℕ) × (log : List ℕ)
        × Consumes (d.remaining d.reader.inner) (d.remaining d.reader_after.inner) bytes
        × HoldEntries bytes entries torn × IsLogOfLogged (chosen query entries) log
        × Appends (contents_of d).before (contents_of d).after log }
    ensures unwritten { (query : Query) (d : Devices R W) (n : Notices) (written : ℕ)
        → RunsOverLog query Log Refused d n (Err (WriteFailed written))
        → (front : List ℕ) × (more : List ℕ) × (entries : List MarkedCopy) × (torn : List ℕ)
        × (log : List ℕ)
        × Consumes (d.remaining d.reader.inner) (d.remaining d.reader_after.inner)
        (front ++ more)
        × HoldEntries front entries torn × IsLogOfLogged (chosen query entries) log
        × WroteSome (contents_of d).before (contents_of d).after log written }
{}
