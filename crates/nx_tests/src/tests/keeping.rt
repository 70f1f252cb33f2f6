//! A kept log of entries, over files in memory that tear and over files of the system.

mod files;
mod tears;

use nx_kept::RecordTaker;

/// How many entries it has taken, and the first byte behind the bracket of the last; how many bytes
/// it heard are cut, and on which line.
#[derive(Clone, Copy, Default, Drop)]
struct Count {
    records: u64,
    last: u8,
    cut: usize,
    cut_line: u64,
}

impl<D> RecordTaker<D> for Count {
    ghost can_take = { λ _. Unit {0} };

    ghost takes = { λ _ _ _. Unit {0} };

    ghost hears_of_cut = { λ _ _ _ _ _. Unit {0} };

    fn take(&mut self, bytes: &[u8]) {
        self.records = self.records.wrapping_add(1);
        self.last = bytes.get(1).copied().unwrap_or(0);
    }

    fn hear_of_cut(&mut self, _file: &D, line: u64, bytes: &[u8]) {
        self.cut = bytes.len();
        self.cut_line = line;
    }
}
