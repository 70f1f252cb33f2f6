//! An entry of a memory of identities.

ghost use Rattle.std.specs.Prelude.{◌≡◌};

use nx_envelope::Identity;

/// An identity, and the moment at which it was entered.
#[derive(Clone, Copy, PartialEq, Eq, Debug)]
pub struct MemoryEntry {
    /// What was entered.
    pub identity: Identity,
    /// When, in whole seconds since 1970-01-01 00:00:00 UTC.
    pub moment: u64,
}

/// Fills the places of a fixed array that hold no entry yet: AA00 at moment 0.
impl Default for MemoryEntry {
    ghost is_default = { λ entry. (entry.identity.b1.byte ≡ 65) × (entry.identity.b2.byte ≡ 65)
        × (entry.identity.number ≡ 0) × (entry.moment ≡ 0) };

    fn default() -> Self {
        let Some(identity) = Identity::new(b'A', b'A', 0) else {
            unreachable!()
        };
        MemoryEntry {
            identity,
            moment: 0,
        }
    }
}
