//! What a copy comes to together with the others of its family.

ghost use Rattle.std.specs.Prelude.{◌≡◌, ◌≤◌, ◌<◌, ℕ, List, Bool, IfSome, IsTrue, is_some, length, not, take};
ghost use Rattle.nx_code.specs.Reading.{Reception};
ghost use Rattle.nx_envelope.specs.Copies.{errors_of};
ghost use Rattle.nx_envelope.specs.declared.identity.Identity.{Identity as TheIdentity};
ghost use Rattle.nx_copies.specs.copies.FoundCopies.{TaggedCopy, headed_copy};
ghost use Rattle.nx_copies.specs.copies.Printing as printing;
ghost use Rattle.nx_combine.specs.Families as spec;
ghost use Rattle.nx_combine.specs.Combining.{heard_of, meant};
ghost use Rattle.nx_combine.specs.CopyPositions.{HeardCopy};
ghost use Rattle.nx_combine.specs.PositionEnds.{HasRead};

use crate::combiner::Combiner;
use crate::holds_families::HoldsFamilies;
use crate::joining::{MAX_POSITIONS, is_of_one_text};
use crate::position::Position;
use crate::reading::read_positions;
use nx_copies::EntryHead;
use nx_envelope::{Finder, How};
use nx_memory::is_recent;

/// What a copy comes to.
#[derive(Clone, Copy, Debug)]
pub struct Combined {
    /// The index of its family among those that are held, the newest first; `None` where it has no
    /// family.
    pub family: Option<usize>,
    /// Whether it begins that family.
    pub begins: bool,
    /// The head of what its family gives in place of the copy, whose text the finder has. `None`
    /// where it is the copy itself.
    pub given: Option<EntryHead>,
    /// From how many sendings it is put together: from all of its family, where that gives it.
    pub sendings: u64,
}

/// Whether a copy has a family: it is selected, not numbered 00, and has at most 8,192 positions.
fn has_family(head: &EntryHead, selected: bool, positions: &[Position]) -> bool
    ensures has { (text : List ℕ)
        → result ≡ spec.has_family (heard_of head.now text selected positions.now) }
    ensures short { IsTrue result → length positions.now ≤ MAX_POSITIONS }
    ensures numbered { IsTrue result → 0 < head.now.identity.number }
{
    selected && head.identity.number() != 0 && positions.len() <= MAX_POSITIONS
}

/// Whether the one copy is better than the other, by their heads: it is full and the other isn't,
/// or both are or neither is and it has fewer errors.
pub fn is_better(one: &EntryHead, other: &EntryHead) -> bool
    ensures { (a b : TaggedCopy) → a.how ≡ one.now.how → one.now.errors ≡ errors_of a.text
        → b.how ≡ other.now.how → other.now.errors ≡ errors_of b.text
        → result ≡ printing.is_better a b }
{
    let fewer = one.errors < other.errors;
    if other.how == How::Full {
        one.how == How::Full && fewer
    } else {
        one.how == How::Full || fewer
    }
}

/// The head of what its family gives in place of a copy, which the finder has read; `None` where
/// the copy itself is better.
fn given_in_place(head: &EntryHead, finder: &Finder) -> Option<EntryHead>
    ensures copy { (positions : List Reception) (identity : TheIdentity) (text : List ℕ)
        (selected : Bool) → HasRead finder.now identity positions
        → head.now.errors ≡ errors_of text
        → spec.combined positions (headed_copy head.now text selected)
        ≡ meant result finder.now.text (headed_copy head.now text selected) }
    ensures given { (positions : List Reception) (identity : TheIdentity) (text : List ℕ)
        (selected : Bool) → HasRead finder.now identity positions
        → head.now.errors ≡ errors_of text
        → is_some result ≡ not (printing.is_better (headed_copy head.now text selected)
        (spec.given_by positions (headed_copy head.now text selected))) }
    ensures errors { (positions : List Reception) (identity : TheIdentity)
        → HasRead finder.now identity positions
        → IfSome result (λ given. given.errors ≡ errors_of finder.now.text) }
    ensures head { IfSome result (λ given. (given.identity ≡ head.now.identity)
        × (given.moment ≡ head.now.moment)) }
{
    let Some(found) = finder.ready_head() else {
        return None;
    };
    let given = EntryHead {
        identity: head.identity,
        moment: head.moment,
        how: found.how,
        errors: found.errors,
    };
    if is_better(head, &given) {
        None
    } else {
        Some(given)
    }
}

/// Whether a family takes in a copy, by its moment and its positions: it began less than 66 hours
/// before the copy, and its positions up to their end and those of the copy are of one text. What
/// was read of the family is left with the finder.
fn takes_in(
    began: u64,
    held: &[Position],
    head: &EntryHead,
    positions: &[Position],
    finder: &mut Finder,
) -> bool
    ensures { (family : spec.Family) (heard : HeardCopy) → family.moment ≡ began
        → family.positions ≡ held.now → heard.copy.moment ≡ head.now.moment
        → heard.positions ≡ positions.now → result ≡ spec.takes_in family heard }
{
    let end = read_positions(held, head.identity, finder);
    is_recent(began, head.moment) && is_of_one_text(&held[..end], positions)
}

/// The index of the family that a copy joins: the last one of its identity, if that takes it in.
/// What was read of that family is left with the finder.
fn index_joined<S: HoldsFamilies>(
    store: &S,
    places: &[S::Place],
    head: &EntryHead,
    positions: &[Position],
    finder: &mut Finder,
) -> Option<usize>
    requires { S.fits store.now places.now }
    ensures joined { (text : List ℕ) (selected : Bool)
        → result ≡ spec.index_joined_holding (S.most places.now)
        (S.held store.now places.now).families
        (heard_of head.now text selected positions.now) }
    ensures within { IfSome result
        (λ index. index < length (S.held store.now places.now).families) }
{
    let Some(index) = store.last_index(places, head.identity) else {
        return None;
    };
    let began = store.moment(places, index);
    let held = store.positions(places, index);
    if takes_in(began, held, head, positions, finder) {
        Some(index)
    } else {
        None
    }
}

impl<S: HoldsFamilies> Combiner<S> {
    ghost use Rattle.std.specs.Prelude.{◌∷◌, ◌+◌, None, Some, if◌then◌else◌, slice_get};
    ghost use Rattle.nx_combine.specs.Families.{Family};
    ghost use Rattle.nx_combine.specs.Combining.{IsCombined, begun_with};

    /// Takes a copy to the families, and answers what it comes to. It is the copy itself where it
    /// has no family, or begins one. Where it joins one, its family gives the copy, unless the copy
    /// itself is better; what is given is left with the finder.
    ///
    /// The head has the errors of the text. The families that are held are the last of all that
    /// were begun so far, whichever they are.
    pub fn combine(
        &mut self,
        places: &mut [S::Place],
        head: &EntryHead,
        text: &[u8],
        selected: bool,
        positions: &[Position],
    ) -> Combined
        requires fits { S.fits self.old.store places.old }
        requires errors { head.now.errors ≡ errors_of text.now }
        ensures fits { S.fits self.new.store places.new }
        ensures room { S.most places.new ≡ S.most places.old }
        ensures after { (families : List Family)
            → (S.held self.old.store places.old).families ≡ take (S.most places.old) families
            → (S.held self.new.store places.new).families ≡ take (S.most places.old)
            (spec.families_after_holding (S.most places.old) families
            (heard_of head.now text.now selected positions.now)) }
        ensures combined { (families : List Family)
            → (S.held self.old.store places.old).families ≡ take (S.most places.old) families
            → IsCombined
            (spec.combined_copy_holding (S.most places.old) families
            (heard_of head.now text.now selected positions.now))
            (spec.families_after_holding (S.most places.old) families
            (heard_of head.now text.now selected positions.now))
            self.new.finder.text result }
        ensures begins { (families : List Family)
            → (S.held self.old.store places.old).families ≡ take (S.most places.old) families
            → length
            (spec.families_after_holding (S.most places.old) families
            (heard_of head.now text.now selected positions.now))
            ≡ length families + begun_with result.begins }
        ensures printed { (S.held self.new.store places.new).printed
            ≡ if result.begins
            then take (S.most places.old) (None ∷ (S.held self.old.store places.old).printed)
            else (S.held self.old.store places.old).printed }
        ensures errors { IfSome result.given
            (λ given. given.errors ≡ errors_of self.new.finder.text) }
        ensures head { IfSome result.given (λ given. (given.identity ≡ head.now.identity)
            × (given.moment ≡ head.now.moment)) }
        ensures within { IfSome result.family
            (λ index. index < length (S.held self.new.store places.new).families) }
        ensures numbered { IfSome result.family (λ index. 0 < head.now.identity.number) }
    {
        if !has_family(head, selected, positions) {
            return Combined {
                family: None,
                begins: false,
                given: None,
                sendings: 1,
            };
        }
        let Some(index) = index_joined(&self.store, places, head, positions, &mut self.finder)
        else {
            self.store.begin(places, head, positions);
            return Combined {
                family: Some(0),
                begins: true,
                given: None,
                sendings: 1,
            };
        };
        self.join_at(places, index, head, positions);
        let given = given_in_place(head, &self.finder);
        let sendings = self.sendings_of(places, index, given.is_some());
        Combined {
            family: Some(index),
            begins: false,
            given,
            sendings,
        }
    }

    /// From how many sendings a copy is put together that joined the family of this index: from all
    /// of the family, where that gives it, and else from itself alone.
    fn sendings_of(&self, places: &[S::Place], index: usize, is_given: bool) -> u64
        requires fits { S.fits self.now.store places.now }
        requires there { index < length (S.held self.now.store places.now).families }
        ensures { (family : Family)
            → slice_get (S.held self.now.store places.now).families index ≡ Some family
            → result ≡ if is_given then family.sendings else 1 }
    {
        if is_given {
            self.store.sendings(places, index)
        } else {
            1
        }
    }

    /// Joins the family of this index, and leaves what its positions then give with the finder, as
    /// those of a copy of the identity of this head.
    fn join_at(
        &mut self,
        places: &mut [S::Place],
        index: usize,
        head: &EntryHead,
        positions: &[Position],
    )
        requires fits { S.fits self.old.store places.old }
        requires short { length positions.now ≤ MAX_POSITIONS }
        requires there { index < length (S.held self.old.store places.old).families }
        ensures fits { S.fits self.new.store places.new }
        ensures room { S.most places.new ≡ S.most places.old }
        ensures joined { (heard : HeardCopy) → heard.positions ≡ positions.now
            → (S.held self.new.store places.new).families
            ≡ spec.joined_at (S.held self.old.store places.old).families heard index }
        ensures printed { (S.held self.new.store places.new).printed
            ≡ (S.held self.old.store places.old).printed }
        ensures read { (heard : HeardCopy) (family : Family) → heard.positions ≡ positions.now
            → slice_get (S.held self.old.store places.old).families index ≡ Some family
            → HasRead self.new.finder head.now.identity (spec.joined_by heard family).positions }
    {
        self.store.join(places, index, positions);
        let joined = self.store.positions(places, index);
        let _end = read_positions(joined, head.identity, &mut self.finder);
    }
}
