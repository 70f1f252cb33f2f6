//! What stood as a start told what it cuts of its log.

ghost use Rattle.std.specs.Prelude.{◌≡◌, [], ◌∷◌};
ghost use Rattle.nx_watch.specs.private.Stamp.{note};
ghost use Rattle.nx_watch.specs.Stamps.{notes_of};

use crate::stamped::stamps::Stamps;

/// What stood as a start told what it cuts, for clauses alone: the disk file, which isn't cut yet,
/// and the notices behind what was told. Nothing else makes such a note, and it takes no memory.
#[derive(Drop)]
pub struct CutNotes<D, N> {
    stamps: Stamps<D, (), N>,
}

impl<D, N> CutNotes<D, N> {
    /// None yet.
    pub(super) fn new() -> Self
        ensures { notes_of result ≡ [] }
    {
        CutNotes {
            stamps: Stamps::new(),
        }
    }

    /// Notes that these stand so.
    pub(crate) fn note(&mut self, disk: &D, notices: &N)
        ensures { notes_of self.new ≡ note disk.now notices.now ∷ notes_of self.old }
    {
        self.stamps = self.stamps.and(&0, &0, disk, &(), notices);
    }
}
