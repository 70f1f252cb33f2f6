//! What stood at each read of an input.

ghost use Rattle.std.specs.Prelude.{◌≡◌, List, [], ◌∷◌};
ghost use Rattle.std.specs.Borrow.{ftrue};
ghost use Rattle.nx_watch.specs.Stamp.{Stamp, stamp};

use std::marker::{Model, PhantomData};

/// What stood at each read, the last one first. Only clauses read it, and it takes no memory.
#[derive(Drop)]
pub struct Stamps<D, W, N> {
    of: PhantomData<(D, W, N)>,
    pub ghost items: { List (Stamp D W N) },
}

impl<D, W, N> Model for Stamps<D, W, N> {
    ghost also_owns = { λ _. ftrue };
}

impl<D, W, N> Stamps<D, W, N> {
    /// None yet.
    pub(super) fn new() -> Stamps<D, W, N>
        ensures { result.items ≡ [] }
    {
        Stamps { of: PhantomData }
    }

    /// These, and one more.
    pub(super) fn and(
        &self,
        _read: &u64,
        _gave: &u64,
        _disk: &D,
        _writer: &W,
        _notices: &N,
    ) -> Stamps<D, W, N>
        ensures { result.items
            ≡ stamp _read.now _gave.now _disk.now _writer.now _notices.now ∷ self.now.items }
    {
        Stamps { of: PhantomData }
    }
}
