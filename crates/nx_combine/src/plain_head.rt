//! The identity of a message and the head of an entry in plain numbers, of which zeros are some.
//! They keep nothing but what contracts see.

ghost use Rattle.std.specs.Prelude.{◌≡◌, ◌<◌, None, Some};
ghost use Rattle.nx_combine.specs.private.PlainHead.{how_by, how_number, identity_by, letter_at, place_of};

use nx_copies::EntryHead;
use nx_envelope::{How, Identity, Letter};
use std::marker::Model;
use std::mem::size_of;

/// An identity in three bytes: the places of its letters in the alphabet, 0 for A, and its number.
/// Zeros are AA00.
#[repr(C)]
#[derive(Drop)]
pub(crate) struct PlainIdentity {
    b1: u8,
    b2: u8,
    number: u8,
}

impl Model for PlainIdentity {
    ghost use Rattle.nx_envelope.specs.declared.identity.Identity.{Identity};
    ghost use Rattle.nx_combine.specs.private.PlainHead.{AreOfIdentity, identity_by, place_of};

    ghost Value = { Identity };

    ghost view = { λ plain. identity_by plain.b1 plain.b2 plain.number };

    ghost invariant = { λ plain. AreOfIdentity plain.b1 plain.b2 plain.number };

    ghost inverse = { λ identity. record {
      b1 = place_of identity.b1;
      b2 = place_of identity.b2;
      number = identity.number;
    } };

    ghost inverse_ok = { λ plain are i. record {
      b1 = are.b1 i;
      b2 = are.b2 i;
      number = are.number i;
    } };
}

impl PlainIdentity {
    /// This identity.
    pub(crate) fn of(identity: Identity) -> PlainIdentity
        ensures { result ≡ identity }
    {
        prove!(size_of::<PlainIdentity>() == 3);
        PlainIdentity {
            b1: place_of(identity.b1),
            b2: place_of(identity.b2),
            number: identity.number,
        }
    }

    /// AA00, which is all zeros.
    pub(crate) fn zeros() -> PlainIdentity
        ensures { result ≡ identity_by 0 0 0 }
    {
        PlainIdentity {
            b1: 0,
            b2: 0,
            number: 0,
        }
    }

    /// The identity.
    pub(crate) fn identity(&self) -> Identity
        ensures { result ≡ self.now }
    {
        Identity {
            b1: letter_at(self.b1),
            b2: letter_at(self.b2),
            number: self.number,
        }
    }
}

/// The place of a letter in the alphabet, 0 for A.
fn place_of(letter: Letter) -> u8
    ensures { result ≡ place_of letter }
{
    letter.byte - b'A'
}

/// The letter at a place of the alphabet, 0 for A.
fn letter_at(place: u8) -> Letter
    requires { place < 26 }
    ensures { result ≡ letter_at place }
{
    Letter::of_capital(b'A' + place)
}

/// The head of an entry, or that there is none, in numbers. Zeros say that there is none.
#[repr(C)]
#[derive(Drop)]
pub(crate) struct PlainHead {
    moment: u64,
    errors: u16,
    how: u8,
    identity: PlainIdentity,
}

impl Model for PlainHead {
    ghost use Rattle.std.specs.Prelude.{Option};
    ghost use Rattle.nx_copies.specs.declared.entry.EntryHead.{EntryHead};
    ghost use Rattle.nx_combine.specs.private.PlainHead.{AreOfHead, errors_kept, head_by, how_kept, identity_kept, moment_kept};

    ghost Value = { Option EntryHead };

    ghost view = { λ plain. head_by plain.identity plain.moment plain.how plain.errors };

    ghost invariant = { λ plain. AreOfHead plain.identity plain.moment plain.how plain.errors };

    ghost inverse = { λ head. record {
      moment = moment_kept head;
      errors = errors_kept head;
      how = how_kept head;
      identity = identity_kept head;
    } };

    ghost inverse_ok = { λ plain are i. record {
      moment = are.moment i;
      errors = are.errors i;
      how = are.how i;
      identity = are.identity i;
    } };
}

impl PlainHead {
    /// This head.
    pub(crate) fn of(head: EntryHead) -> PlainHead
        ensures { result ≡ Some head }
    {
        prove!(size_of::<PlainHead>() == 16);
        PlainHead {
            moment: head.moment,
            errors: head.errors,
            how: number_of(head.how),
            identity: PlainIdentity::of(head.identity),
        }
    }

    /// None, which is all zeros.
    pub(crate) fn none() -> PlainHead
        ensures { result ≡ None }
    {
        PlainHead {
            moment: 0,
            errors: 0,
            how: 0,
            identity: PlainIdentity::zeros(),
        }
    }

    /// The head.
    pub(crate) fn head(&self) -> Option<EntryHead>
        ensures { result ≡ self.now }
    {
        if self.how == 0 {
            return None;
        }
        Some(EntryHead {
            identity: self.identity.identity(),
            moment: self.moment,
            how: how_of(self.how),
            errors: self.errors,
        })
    }
}

/// The number that says how a copy ended.
fn number_of(how: How) -> u8
    ensures { result ≡ how_number how }
{
    match how {
        How::Full => 1,
        How::Cut => 2,
        How::Long => 3,
    }
}

/// How a copy ended, by that number.
fn how_of(number: u8) -> How
    ensures { result ≡ how_by number }
{
    match number {
        1 => How::Full,
        2 => How::Cut,
        _ => How::Long,
    }
}
