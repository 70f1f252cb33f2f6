//! A memory with no entry, whatever holds it.

ghost use Rattle.std.specs.Prelude.{◌≡◌, [], IfOk};

use nx_memory::{PlainRecall, Recall, RenewingRecall, RingRecall};
use std::alloc::{AllocError, Global};

/// A memory that can be made with no entry, as a listener starts with three.
pub trait FreshRecall: Recall {
    /// A memory with no entry. Fails where memory ran out.
    fn fresh(alloc: Global) -> Result<Self, AllocError>
        ensures { IfOk result (λ memory. Self.content memory ≡ []) };
}

impl FreshRecall for RingRecall {
    fn fresh(alloc: Global) -> Result<Self, AllocError> {
        RingRecall::new(alloc)
    }
}

/// Takes no memory of the allocator.
impl FreshRecall for PlainRecall {
    fn fresh(_alloc: Global) -> Result<Self, AllocError> {
        Ok(PlainRecall::new())
    }
}

/// Takes no memory of the allocator.
impl FreshRecall for RenewingRecall {
    fn fresh(_alloc: Global) -> Result<Self, AllocError> {
        Ok(RenewingRecall::new())
    }
}
