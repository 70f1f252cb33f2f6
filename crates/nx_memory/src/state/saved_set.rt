//! What a receiver of three channels keeps while it is switched off.

ghost use Rattle.std.specs.Prelude.{◌≡◌, None, Some, MatchOption};
ghost use Rattle.nx_memory.specs.Saved.{nothing_saved, on_channel_0, saved_on, newest_of_all, later_of};

use crate::state::saved::Saved;
use std::marker::Model;

/// A selection and the entries of a memory for each of the channels 0, 1 and 2. Contracts see it as
/// what is saved of each, and it holds nothing else.
#[derive(Drop)]
pub struct SavedSet {
    pub(crate) on_0: Saved,
    pub(crate) on_1: Saved,
    pub(crate) on_2: Saved,
}

impl Model for SavedSet {
    ghost use Rattle.std.specs.Coded.{codes};
    ghost use Rattle.nx_memory.specs.private.RefusedCode.{refused_code};
    ghost use Rattle.nx_memory.specs.Saved.{SavedStates};

    ghost Value = { SavedStates };

    ghost coded = { Prim.hlevel (codes, refused_code) };

    ghost view = { λ set. record { on_0 = set.on_0; on_1 = set.on_1; on_2 = set.on_2 } };

    ghost inverse = { λ states. record {
      on_0 = states.on_0;
      on_1 = states.on_1;
      on_2 = states.on_2;
    } };
}

impl SavedSet {
    /// Everything is selected on each channel, and there is no entry.
    #[inline(always)]
    pub fn new() -> Self
        ensures { result ≡ on_channel_0 nothing_saved }
    {
        prove!(size_of::<SavedSet>() == 9_792);
        SavedSet {
            on_0: Saved::new(),
            on_1: Saved::new(),
            on_2: Saved::new(),
        }
    }

    /// What is saved of the channels 0, 1 and 2.
    #[inline(always)]
    pub fn of(on_0: Saved, on_1: Saved, on_2: Saved) -> Self
        ensures on_0 { result.on_0 ≡ on_0 }
        ensures on_1 { result.on_1 ≡ on_1 }
        ensures on_2 { result.on_2 ≡ on_2 }
    {
        SavedSet { on_0, on_1, on_2 }
    }

    /// What is saved of a channel, by its number; `None` above 2.
    pub fn get(&self, channel: u8) -> Option<&Saved>
        ensures { MatchOption result
            (saved_on self.now channel ≡ None)
            (λ saved. saved_on self.now channel ≡ Some saved.now) }
    {
        match channel {
            0 => Some(&self.on_0),
            1 => Some(&self.on_1),
            2 => Some(&self.on_2),
            _ => None,
        }
    }

    /// The greatest moment of an entry of any channel, `None` where there is no entry.
    pub fn newest(&self) -> Option<u64>
        ensures { result ≡ newest_of_all self.now }
    {
        later(
            self.on_0.newest(),
            later(self.on_1.newest(), self.on_2.newest()),
        )
    }
}

/// The later of two moments, where there are any.
fn later(first: Option<u64>, second: Option<u64>) -> Option<u64>
    ensures { result ≡ later_of first second }
{
    match (first, second) {
        (None, _) => second,
        (Some(_), None) => first,
        (Some(first), Some(second)) => Some(first.max(second)),
    }
}
