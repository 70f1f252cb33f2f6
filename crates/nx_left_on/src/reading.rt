//! Laws of reading kept logs: what a reader of logs gives of the file of a watch. Each function
//! does nothing; its contract is the law.

ghost use Rattle.std.specs.Prelude.{◌≡◌, ℕ, List, [], ◌++◌};
ghost use Rattle.std.specs.List.{AllZip, concat};
ghost use Rattle.nx_log.specs.LogReader.{IsAt};
ghost use Rattle.nx_log.specs.LogReading.{LogReading};
ghost use Rattle.nx_log.specs.Reading.{HoldEntries, HoldEntriesToEnd, StopAtLine};
ghost use Rattle.nx_copies.specs.copies.Shares.{MarkedCopy};
ghost use Rattle.nx_watch.specs.Watch.{RestsWithEntries, StandsForEntries};
ghost use Rattle.nx_left_on.specs.ReadBack.{AreEntriesAmong, AreThenThoseOfTail, IsAsPut, all_of};

/// A reader of logs gives the whole entries among the bytes of a log: one at each place where one
/// begins, in order, and no other.
pub fn a_log_reader_gives_the_entries_among_bytes()
    ensures so_far { (bytes : List ℕ) (entries : List MarkedCopy) (torn : List ℕ)
        → HoldEntries bytes entries torn → AreEntriesAmong bytes entries }
    ensures at_end { (bytes : List ℕ) (entries : List MarkedCopy) (torn : List ℕ)
        → HoldEntriesToEnd bytes entries torn → AreEntriesAmong bytes entries }
{}

/// A reader of logs reads what a watch keeps. Of a file that stands for logged entries it gives
/// these, in order, and then the whole ones of its tail, those behind the last closed gate: a
/// `LogReader` that was given the file, a run after a failed read, and one at the end. No first
/// part of the file stops being a log.
pub fn a_log_reader_reads_what_a_watch_keeps()
    ensures reader { (reader : LogReading) (entries all : List MarkedCopy) (file torn : List ℕ)
        → (kept : StandsForEntries entries file) → IsAt reader file all torn
        → AreThenThoseOfTail entries kept.stands.tail all }
    ensures so_far { (entries all : List MarkedCopy) (file torn : List ℕ)
        → (kept : StandsForEntries entries file) → HoldEntries file all torn
        → AreThenThoseOfTail entries kept.stands.tail all }
    ensures at_end { (entries all : List MarkedCopy) (file torn : List ℕ)
        → (kept : StandsForEntries entries file) → HoldEntriesToEnd file all torn
        → AreThenThoseOfTail entries kept.stands.tail all }
    ensures never_stops { (entries others : List MarkedCopy) (front more torn : List ℕ) (line : ℕ)
        → StandsForEntries entries (front ++ more) → StopAtLine front others torn line → ⊥ }
{}

/// So of a file with no tail it gives these entries alone.
pub fn a_log_reader_gives_no_more_without_a_tail()
    ensures { (entries all : List MarkedCopy)
        → AreThenThoseOfTail entries [] all → all ≡ entries }
{}

/// Kept logs at rest, one behind the other, are a log. A reader gives the entries of all, in order,
/// and no others; no first part of them stops being a log. Where each is as `put` leaves it, no
/// torn entry is told.
pub fn a_log_reader_reads_logs_at_rest()
    ensures given { (logs : List (List MarkedCopy)) (files : List (List ℕ))
        → AllZip RestsWithEntries logs files
        → (torn : List ℕ) × HoldEntriesToEnd (concat files) (all_of logs) torn }
    ensures quiet { (logs : List (List MarkedCopy)) (files : List (List ℕ))
        → AllZip IsAsPut logs files → HoldEntriesToEnd (concat files) (all_of logs) [] }
    ensures never_stops { (logs : List (List MarkedCopy)) (files : List (List ℕ))
        (entries : List MarkedCopy) (front more torn : List ℕ) (line : ℕ)
        → AllZip RestsWithEntries logs files → concat files ≡ front ++ more
        → StopAtLine front entries torn line → ⊥ }
{}
