//! What the records of the kept log of a watch are.

ghost use Rattle.std.proofs.Common.{arith};
ghost use Rattle.nx_log.specs.Entries.{IsWholeEntry};
ghost use Rattle.nx_watch.specs.private.Entries as entries;

use nx_kept::{Grammar, RecordStart};
use nx_log::{EntryStart, MAX_LOGGED, entry_start};

/// The grammar of logged entries.
#[derive(Clone, Copy, Drop)]
pub struct LogGrammar;

impl Grammar for LogGrammar {
    ghost is_record = { IsWholeEntry };

    ghost LONGEST = { 4146 };

    const LONGEST: usize = MAX_LOGGED;

    fn record_at(&self, bytes: &[u8]) -> RecordStart {
        match entry_start(bytes) {
            EntryStart::Whole(length) => RecordStart::Whole(length),
            EntryStart::Unfinished => RecordStart::Unfinished,
            EntryStart::Broken(place) => RecordStart::Broken(place),
        }
    }

    ghost some = { entries.entry_some };

    ghost bounded = { entries.entry_bounded };

    ghost one = { entries.entry_one };

    ghost short = { omega arith };
}
