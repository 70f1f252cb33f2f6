//! The families of a channel in memory that is taken for them: the positions of the copies that
//! were heard together.

ghost use Rattle.std.specs.Prelude.{◌≡◌, ◌≤◌, ◌<◌, [], ◌∷◌, length, IfOk};
ghost use Rattle.nx_combine.specs.CopyPositions.{HeardCopy};
ghost use Rattle.nx_combine.specs.Families as spec;

use crate::holds_families::HoldsFamilies;
use crate::joining::{MAX_POSITIONS, join};
use crate::position::Position;
use arrayvec::ArrayVec;
use circular_buffer::HeapCircularBuffer;
use nx_copies::EntryHead;
use nx_envelope::Identity;
use nx_memory::CAPACITY;
use std::alloc::{AllocError, Global};
use std::marker::Model;
use std::mem::size_of;

/// Behind how many later families one is joined no more (this profile).
pub const MAX_FAMILIES: usize = CAPACITY;

/// A family: the identity of its copies, the moment of the first one, their positions, joined, and
/// how many they are.
#[derive(Drop)]
pub struct Family {
    identity: Identity,
    moment: u64,
    positions: ArrayVec<Position, MAX_POSITIONS>,
    sendings: u64,
}

impl Model for Family {
    ghost use Rattle.nx_combine.specs.Families as families;

    ghost Value = { families.Family };

    ghost view = { λ family. record {
      identity = family.identity;
      moment = family.moment;
      positions = family.positions.items;
      sendings = family.sendings;
    } };

    ghost inverse = { λ family. record {
      identity = family.identity;
      moment = family.moment;
      positions = record { items = family.positions };
      sendings = family.sendings;
    } };
}

impl Family {
    /// The family that a copy begins, by its head and its positions.
    fn of(head: &EntryHead, positions: &[Position]) -> Family
        requires { length positions.now ≤ MAX_POSITIONS }
        ensures identity { result.identity ≡ head.now.identity }
        ensures moment { result.moment ≡ head.now.moment }
        ensures positions { result.positions ≡ positions.now }
        ensures sendings { result.sendings ≡ 1 }
    {
        prove!(size_of::<Family>() == 8224);
        let mut copied = ArrayVec::new();
        copied.try_extend_from_slice(positions).unwrap();
        Family {
            identity: head.identity,
            moment: head.moment,
            positions: copied,
            sendings: 1,
        }
    }

    /// The identity of its copies.
    fn identity(&self) -> Identity
        ensures { result ≡ self.now.identity }
    {
        self.identity
    }

    /// The moment of its first copy.
    fn moment(&self) -> u64
        ensures { result ≡ self.now.moment }
    {
        self.moment
    }

    /// Its positions.
    fn positions(&self) -> &[Position]
        ensures { result.now ≡ self.now.positions }
    {
        self.positions.as_slice()
    }

    /// How many its copies are.
    fn sendings(&self) -> u64
        ensures { result ≡ self.now.sendings }
    {
        self.sendings
    }

    /// Joins the positions of a copy to its own, and counts the copy.
    fn take(&mut self, positions: &[Position])
        requires { length positions.now ≤ MAX_POSITIONS }
        ensures { (heard : HeardCopy) → heard.positions ≡ positions.now
            → self.new ≡ spec.joined_by heard self.old }
    {
        join(&mut self.positions, positions);
        self.sendings = self.sendings.saturating_add(1);
    }
}

/// The last 200 families of a channel, newest first, and of each what was printed last. Their
/// blocks are taken when they are made, and no call takes memory after that.
#[derive(Drop)]
pub struct Families {
    families: HeapCircularBuffer<Family>,
    printed: HeapCircularBuffer<Option<EntryHead>>,
}

impl Model for Families {
    ghost use Rattle.std.specs.Prelude.{◌≡◌};
    ghost use Rattle.std.proofs.Common.{sym, ap};
    ghost use Rattle.circular_buffer.specs.Buffer.{buffer};
    ghost use Rattle.nx_combine.specs.Judging.{HeldFamilies};
    ghost use Rattle.nx_combine.specs.private.HeldFamilies.{AreHeld};

    ghost Value = { HeldFamilies };

    ghost view = { λ all. record {
      families = all.families.items;
      printed = all.printed.items;
    } };

    ghost invariant = { λ all. AreHeld all.families all.printed };

    ghost inverse = { λ held. record {
      families = buffer held.families 200;
      printed = buffer held.printed 200;
    } };

    ghost inverse_ok = { λ all is i. record {
      families = buffer all.families.items (sym is.capacity i);
      printed = buffer all.printed.items (sym is.as_many i);
    } };
}

impl Families {
    /// No families. Fails where memory ran out.
    pub fn new(alloc: Global) -> Result<Families, AllocError>
        ensures families { IfOk result (λ families. families.families ≡ []) }
        ensures printed { IfOk result (λ families. families.printed ≡ []) }
    {
        prove!(size_of::<Families>() == 64);
        Ok(Families {
            families: HeapCircularBuffer::with_capacity(alloc, MAX_FAMILIES)?,
            printed: HeapCircularBuffer::with_capacity(alloc, MAX_FAMILIES)?,
        })
    }
}

/// They need no room at a call.
impl HoldsFamilies for Families {
    ghost use Rattle.std.specs.Prelude.{List};
    ghost use Rattle.nx_combine.specs.Families.{most_families};

    type Place = ();

    ghost most = { λ places. most_families };

    ghost fits = { λ families places. Unit {0} };

    ghost held = { λ families places. families };

    fn last_index(&self, _places: &[()], identity: Identity) -> Option<usize> {
        self.families
            .iter()
            .position(|family| family.identity() == identity)
    }

    fn moment(&self, _places: &[()], index: usize) -> u64 {
        match self.families.get(index) {
            Some(family) => family.moment(),
            None => unreachable!(),
        }
    }

    fn positions<'a>(&'a self, _places: &'a [()], index: usize) -> &'a [Position] {
        match self.families.get(index) {
            Some(family) => family.positions(),
            None => unreachable!(),
        }
    }

    fn sendings(&self, _places: &[()], index: usize) -> u64 {
        match self.families.get(index) {
            Some(family) => family.sendings(),
            None => unreachable!(),
        }
    }

    fn join(&mut self, _places: &mut [()], index: usize, positions: &[Position]) {
        if let Some(family) = self.families.get_mut(index) {
            family.take(positions);
        }
    }

    fn begin(&mut self, _places: &mut [()], head: &EntryHead, positions: &[Position]) {
        let _forgotten = self.families.push_front(Family::of(head, positions));
        let _last = self.printed.push_front(None);
    }

    fn printed(&self, _places: &[()], index: usize) -> Option<EntryHead> {
        match self.printed.get(index) {
            Some(printed) => *printed,
            None => None,
        }
    }

    fn note(&mut self, _places: &mut [()], index: usize, head: EntryHead) {
        if let Some(last) = self.printed.get_mut(index) {
            *last = Some(head);
        }
    }
}
