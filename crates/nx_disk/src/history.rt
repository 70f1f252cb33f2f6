//! Lists that only clauses read: the calls of a file, and what a crash could leave before them.

ghost use Rattle.std.specs.Prelude.{◌≡◌, List, [], ◌∷◌, ℕ};
ghost use Rattle.std.specs.Borrow.{ftrue};
ghost use Rattle.nx_disk.specs.Events.{DiskEvent};

use std::marker::{Model, PhantomData};

/// A call of a file: which one, and where.
#[derive(Drop)]
pub enum DiskCall {
    /// It reads from this place on, at most so many bytes.
    Read { at: usize, room: usize },
    /// It writes at this place.
    Written { at: usize },
    /// It cuts the file to this size.
    Cut { size: usize },
    /// It brings the file to the disk.
    Synced,
}

/// The calls of a file with their answers, the newest first. It takes no memory.
#[derive(Drop)]
pub struct History {
    marker: PhantomData<u8>,
    pub ghost events: { List DiskEvent },
}

impl Model for History {
    ghost also_owns = { λ _. ftrue };
}

impl History {
    pub(crate) fn new() -> History
        ensures { result.events ≡ [] }
    {
        History {
            marker: PhantomData,
        }
    }

    /// Notes a call, whether it succeeded, and the bytes that were read or written.
    pub(crate) fn note(&mut self, _call: &DiskCall, _has_succeeded: bool, _bytes: &[u8])
        ensures { self.new.events ≡ record {
          call = _call.now;
          has_succeeded = _has_succeeded;
          bytes = _bytes.now;
        } ∷ self.old.events }
    {}
}

/// The files of which a crash could leave one before the first call of a file, beside what a read
/// finds: what an earlier program that was killed wrote, and no sync followed. They are handed in
/// where a file is opened, and only clauses read them. It takes no memory.
#[derive(Drop)]
pub struct LeftBefore {
    marker: PhantomData<u8>,
    pub ghost files: { List (List ℕ) },
}

impl Model for LeftBefore {
    ghost also_owns = { λ _. ftrue };
}

impl LeftBefore {
    /// These files, which the caller names in its proof. It holds for every list.
    pub fn these() -> LeftBefore
        ghost files: { List (List ℕ) }
        ensures { result.files ≡ files }
    {
        LeftBefore {
            marker: PhantomData,
        }
    }

    /// Some such files. Nobody can know them, so no clause says which they are, and what is
    /// promised of a file is promised for every list that is handed in. "Each file that a crash
    /// could leave before stands for these entries" is thus a premise that some lists meet and
    /// some don't.
    pub fn any() -> LeftBefore {
        LeftBefore::these()
    }
}
