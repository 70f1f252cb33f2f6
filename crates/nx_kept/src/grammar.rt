//! What the records of a log are.

ghost use Rattle.std.specs.Prelude.{◌≡◌, ◌++◌, ◌<◌, ◌≤◌, ◌^◌, List, [], ℕ, length};
ghost use Rattle.nx_kept.specs.Record.{TellsRecord};

/// What stands at the place of a record.
#[derive(Clone, Copy, Debug, Drop, PartialEq, Eq)]
pub enum RecordStart {
    /// The first so many bytes are a record.
    Whole(usize),
    /// All the bytes are the beginning of a record, and more have to come.
    Unfinished,
    /// So many bytes are the beginning of a record, and with the next one they aren't, whatever
    /// comes behind it.
    Broken(usize),
}

/// A grammar of records: which bytes are one. No record is empty, and none begins another.
pub trait Grammar: Drop {
    /// The bytes are a record.
    ghost is_record: { List ℕ → Type 0 };

    ghost LONGEST: { ℕ };

    /// The most bytes that a record has.
    const LONGEST: usize;

    /// What the bytes are that stand where a record is to begin.
    fn record_at(&self, bytes: &[u8]) -> RecordStart
        ensures { TellsRecord is_record bytes.now result };

    /// No record is empty.
    ghost some: { (bytes : List ℕ) → is_record bytes → 0 < length bytes };

    /// None is longer than the longest.
    ghost bounded: { (bytes : List ℕ) → is_record bytes → length bytes ≤ LONGEST };

    /// None begins another.
    ghost one: { (bytes more : List ℕ) → is_record bytes → is_record (bytes ++ more) → more ≡ [] };

    /// The longest is less than 4 GiB.
    ghost short: { LONGEST < 2 ^ 32 };
}
