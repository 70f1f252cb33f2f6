//! What judges the copies of a channel together with the others of their families.

ghost use Rattle.std.specs.Prelude.{◌≡◌, ◌≤◌, ◌<◌, ◌&&◌, ◌++◌, ◌∷◌, ℕ, List, [], Bool, IfSome};
ghost use Rattle.std.specs.Prelude.{is_some, length};
ghost use Rattle.nx_code.specs.Lists.{last_of};
ghost use Rattle.nx_envelope.specs.Copies.{errors_of};
ghost use Rattle.nx_memory.specs.declared.memories.entry.MemoryEntry.{MemoryEntry};
ghost use Rattle.nx_memory.specs.Memory.{most_entries, newest_moment};
ghost use Rattle.nx_copies.specs.copies.FoundCopies.{headed_copy};
ghost use Rattle.nx_copies.specs.copies.Printing as printing;
ghost use Rattle.nx_combine.specs.CombinedPrinting.{entry_made_combined, if_printed_combined};
ghost use Rattle.nx_combine.specs.CombinedPrinting.{is_better_than_before, is_printed_combined};
ghost use Rattle.nx_combine.specs.Combining.{meant};
ghost use Rattle.nx_combine.specs.CopyPositions.{HeardCopy};
ghost use Rattle.nx_combine.specs.Families.{CombinedCopy, Family as OneFamily, combined_copy_holding, families_after_holding};
ghost use Rattle.nx_combine.specs.Judging.{IsGivenAs, StandsHolding, combiner_of};
ghost use Rattle.nx_combine.specs.private.Judging.{ComesTo};
ghost use Rattle.nx_combine.specs.Judging.{all_copies, copies_printed, text_printed};

use crate::combining::{Combined, is_better};
use crate::holds_families::HoldsFamilies;
use crate::position::Position;
use nx_copies::{EntryHead, is_good_share};
use nx_envelope::{Finder, How, MAX_FOUND};
use nx_memory::Renewing;

/// A copy that is printed.
#[derive(Clone, Copy, Debug)]
pub struct PrintedCopy {
    /// What the line that heads its entry says.
    pub head: EntryHead,
    /// Whether its text is what its family gives, which the combiner has; else it is the copy's
    /// own.
    pub is_given: bool,
    /// From how many sendings it is put together.
    pub sendings: u64,
}

/// Judges the copies of a channel, each together with those of its family that were heard before.
#[derive(Drop)]
pub struct Combiner<S: HoldsFamilies> {
    /// Holds the last families, and of each the head of its last combined copy that was printed.
    pub store: S,
    /// Reads joined positions.
    pub finder: Finder,
}

impl<S: HoldsFamilies> Combiner<S> {
    /// Judges a copy that was heard: answers whether it is printed, and as what. It is what the
    /// copy comes to together with the others of its family. It is printed where it is selected,
    /// and is numbered 00 or unknown, or better than the last one of its family that was printed.
    /// Where it is printed, good and has a family, it is entered into the memory. Of positions that
    /// are more than 8,192 the first 8,193 suffice. A copy that isn't selected changes nothing.
    ///
    /// The head has the errors of the text, and its moment isn't before the newest of the memory.
    /// The room is that of the families. The combiner stands after all copies so far, and the
    /// memory holds the last 200 of all the entries made so far, whichever they are.
    pub fn judge<M: Renewing>(
        &mut self,
        places: &mut [S::Place],
        head: &EntryHead,
        text: &[u8],
        selected: bool,
        positions: &[Position],
        memory: &mut M,
    ) -> Option<PrintedCopy>
        requires fits { S.fits self.old.store places.old }
        requires newest { newest_moment (M.content memory.old) ≤ head.now.moment }
        requires errors { head.now.errors ≡ errors_of text.now }
        ensures fits { S.fits self.new.store places.new }
        ensures room { S.most places.new ≡ S.most places.old }
        ensures stands { (entries : List MemoryEntry) (families : List OneFamily)
            (before : List CombinedCopy) (heard : HeardCopy)
            → IsGivenAs heard (headed_copy head.now text.now selected) positions.now
            → M.content memory.old ≡ last_of most_entries entries
            → StandsHolding (S.most places.old)
            (combiner_of (S.held self.old.store places.old) self.old.finder) families before
            → StandsHolding (S.most places.old)
            (combiner_of (S.held self.new.store places.new) self.new.finder)
            (families_after_holding (S.most places.old) families heard)
            (if_printed_combined entries before
            (combined_copy_holding (S.most places.old) families heard) ++ before) }
        ensures entered { (entries : List MemoryEntry) (families : List OneFamily)
            (before : List CombinedCopy) (heard : HeardCopy)
            → IsGivenAs heard (headed_copy head.now text.now selected) positions.now
            → M.content memory.old ≡ last_of most_entries entries
            → StandsHolding (S.most places.old)
            (combiner_of (S.held self.old.store places.old) self.old.finder) families before
            → M.content memory.new ≡ last_of most_entries
            (entries ++ entry_made_combined entries before
            (combined_copy_holding (S.most places.old) families heard)) }
        ensures printed { (entries : List MemoryEntry) (families : List OneFamily)
            (before : List CombinedCopy) (heard : HeardCopy)
            → IsGivenAs heard (headed_copy head.now text.now selected) positions.now
            → M.content memory.old ≡ last_of most_entries entries
            → StandsHolding (S.most places.old)
            (combiner_of (S.held self.old.store places.old) self.old.finder) families before
            → all_copies (if_printed_combined entries before
            (combined_copy_holding (S.most places.old) families heard))
            ≡ copies_printed result self.new.finder.text text.now selected }
        ensures sendings { (families : List OneFamily) (before : List CombinedCopy)
            (heard : HeardCopy)
            → IsGivenAs heard (headed_copy head.now text.now selected) positions.now
            → StandsHolding (S.most places.old)
            (combiner_of (S.held self.old.store places.old) self.old.finder) families before
            → IfSome result (λ printed. printed.sendings
            ≡ (combined_copy_holding (S.most places.old) families heard).sendings) }
        ensures errors { IfSome result (λ printed. printed.head.errors
            ≡ errors_of (text_printed printed self.new.finder.text text.now)) }
        ensures head { IfSome result (λ printed. (printed.head.identity ≡ head.now.identity)
            × (printed.head.moment ≡ head.now.moment)) }
        ensures not_before { newest_moment (M.content memory.new) ≤ head.now.moment }
    {
        let combined = self.take(places, head, text, selected, positions);
        let one = printed_as(head, &combined);
        if !self.prints(places, &one.head, selected, combined.family, memory) {
            return None;
        }
        self.note(places, combined.family, one.head);
        if is_entered(&one.head, self.text_of(&one, text), combined.family) {
            memory.renew(head.identity, head.moment);
        }
        Some(one)
    }

    /// The text that was read of a family's positions last.
    pub fn text(&self) -> &[u8]
        ensures text { result.now ≡ self.now.finder.text }
        ensures short { length result.now ≤ MAX_FOUND }
    {
        self.finder.text()
    }

    /// The text of a copy that was judged last and is printed, by its own text.
    pub fn text_of<'a>(&'a self, printed: &PrintedCopy, own: &'a [u8]) -> &'a [u8]
        ensures text { result.now ≡ text_printed printed.now self.now.finder.text own.now }
        ensures short { length own.now ≤ MAX_FOUND → length result.now ≤ MAX_FOUND }
    {
        if printed.is_given {
            self.finder.text()
        } else {
            own
        }
    }

    /// Takes a copy to the families, and answers what it comes to. Nothing was printed yet of a
    /// family that it begins.
    fn take(
        &mut self,
        places: &mut [S::Place],
        head: &EntryHead,
        text: &[u8],
        selected: bool,
        positions: &[Position],
    ) -> Combined
        requires fits { S.fits self.old.store places.old }
        requires errors { head.now.errors ≡ errors_of text.now }
        ensures fits { S.fits self.new.store places.new }
        ensures room { S.most places.new ≡ S.most places.old }
        ensures stands { (families : List OneFamily) (before : List CombinedCopy)
            (heard : HeardCopy)
            → IsGivenAs heard (headed_copy head.now text.now selected) positions.now
            → StandsHolding (S.most places.old)
            (combiner_of (S.held self.old.store places.old) self.old.finder) families before
            → StandsHolding (S.most places.old)
            (combiner_of (S.held self.new.store places.new) self.new.finder)
            (families_after_holding (S.most places.old) families heard) before }
        ensures comes_to { (families : List OneFamily) (before : List CombinedCopy)
            (heard : HeardCopy)
            → IsGivenAs heard (headed_copy head.now text.now selected) positions.now
            → StandsHolding (S.most places.old)
            (combiner_of (S.held self.old.store places.old) self.old.finder) families before
            → ComesTo (combined_copy_holding (S.most places.old) families heard)
            (families_after_holding (S.most places.old) families heard) result.family
            (meant result.given self.new.finder.text (headed_copy head.now text.now selected)) }
        ensures sendings { (families : List OneFamily) (before : List CombinedCopy)
            (heard : HeardCopy)
            → IsGivenAs heard (headed_copy head.now text.now selected) positions.now
            → StandsHolding (S.most places.old)
            (combiner_of (S.held self.old.store places.old) self.old.finder) families before
            → result.sendings ≡ (combined_copy_holding (S.most places.old) families heard).sendings }
        ensures errors { IfSome result.given
            (λ given. given.errors ≡ errors_of self.new.finder.text) }
        ensures head { IfSome result.given (λ given. (given.identity ≡ head.now.identity)
            × (given.moment ≡ head.now.moment)) }
        ensures within { IfSome result.family
            (λ index. index < length (S.held self.new.store places.new).families) }
        ensures numbered { IfSome result.family (λ index. 0 < head.now.identity.number) }
    {
        self.combine(places, head, text, selected, positions)
    }

    /// Whether a combined copy is printed, by its head, and the index of its family.
    fn prints<M: Renewing>(
        &self,
        places: &[S::Place],
        head: &EntryHead,
        selected: bool,
        family: Option<usize>,
        memory: &M,
    ) -> bool
        requires fits { S.fits self.now.store places.now }
        requires newest { newest_moment (M.content memory.now) ≤ head.now.moment }
        requires within { IfSome family
            (λ index. index < length (S.held self.now.store places.now).families) }
        ensures { (entries : List MemoryEntry) (families : List OneFamily)
            (before : List CombinedCopy) (one : CombinedCopy) (text : List ℕ)
            → M.content memory.now ≡ last_of most_entries entries
            → StandsHolding (S.most places.now)
            (combiner_of (S.held self.now.store places.now) self.now.finder) families before
            → head.now.errors ≡ errors_of text
            → ComesTo one families family (headed_copy head.now text selected)
            → result ≡ is_printed_combined entries before one }
    {
        if memory.knows(&head.identity, head.moment) {
            selected && head.identity.number == 0
                || self.is_better_than_before(places, head, family)
        } else {
            selected
        }
    }

    /// Whether a combined copy is better than the last one of its family that was printed, by its
    /// head, and the index of its family.
    fn is_better_than_before(
        &self,
        places: &[S::Place],
        head: &EntryHead,
        family: Option<usize>,
    ) -> bool
        requires fits { S.fits self.now.store places.now }
        requires within { IfSome family
            (λ index. index < length (S.held self.now.store places.now).families) }
        ensures { (families : List OneFamily) (before : List CombinedCopy) (one : CombinedCopy)
            (text : List ℕ) (selected : Bool) → StandsHolding (S.most places.now)
            (combiner_of (S.held self.now.store places.now) self.now.finder) families before
            → head.now.errors ≡ errors_of text
            → ComesTo one families family (headed_copy head.now text selected)
            → result ≡ is_better_than_before before one }
    {
        let Some(index) = family else {
            return false;
        };
        match self.store.printed(places, index) {
            Some(last) => is_better(head, &last),
            None => false,
        }
    }

    /// Notes that a combined copy of the family of this index is printed.
    fn note(&mut self, places: &mut [S::Place], family: Option<usize>, head: EntryHead)
        requires fits { S.fits self.old.store places.old }
        requires within { IfSome family
            (λ index. index < length (S.held self.old.store places.old).families) }
        ensures stands { (families : List OneFamily) (before : List CombinedCopy)
            (one : CombinedCopy) (text : List ℕ) (selected : Bool)
            → StandsHolding (S.most places.old)
            (combiner_of (S.held self.old.store places.old) self.old.finder) families before
            → head.errors ≡ errors_of text
            → ComesTo one families family (headed_copy head text selected)
            → StandsHolding (S.most places.old)
            (combiner_of (S.held self.new.store places.new) self.new.finder) families
            (one ∷ before) }
        ensures fits { S.fits self.new.store places.new }
        ensures room { S.most places.new ≡ S.most places.old }
        ensures finder { self.new.finder ≡ self.old.finder }
    {
        let Some(index) = family else {
            return;
        };
        self.store.note(places, index, head);
    }
}

/// What is printed of a copy, by what it comes to.
fn printed_as(head: &EntryHead, combined: &Combined) -> PrintedCopy
    requires head { IfSome combined.now.given (λ given. (given.identity ≡ head.now.identity)
        × (given.moment ≡ head.now.moment)) }
    ensures copy { (read own : List ℕ) (selected : Bool)
        → meant combined.now.given read (headed_copy head.now own selected)
        ≡ headed_copy result.head (text_printed result read own) selected }
    ensures errors { (read own : List ℕ) → head.now.errors ≡ errors_of own
        → IfSome combined.now.given (λ given. given.errors ≡ errors_of read)
        → result.head.errors ≡ errors_of (text_printed result read own) }
    ensures identity { result.head.identity ≡ head.now.identity }
    ensures moment { result.head.moment ≡ head.now.moment }
    ensures sendings { result.sendings ≡ combined.now.sendings }
{
    let sendings = combined.sendings;
    match combined.given {
        Some(given) => PrintedCopy {
            head: given,
            is_given: true,
            sendings,
        },
        None => PrintedCopy {
            head: *head,
            is_given: false,
            sendings,
        },
    }
}

/// Whether a copy that is printed is entered: it has a family, is full, and fewer than 4 per cent
/// of its characters are errors. An empty text counts as one character.
fn is_entered(head: &EntryHead, text: &[u8], family: Option<usize>) -> bool
    ensures { (selected : Bool) → head.now.errors ≡ errors_of text.now
        → result ≡ (printing.is_good (headed_copy head.now text.now selected) && is_some family) }
{
    head.how == How::Full && is_good_share(usize::from(head.errors), text.len()) && family.is_some()
}
