//! The loop over elements, and over the words of locks that they bring, for whoever takes these.
//! Whether some words are taken at once, a few of them, one word, a part of one, or a hunt, is
//! decided here alone. What runs for each word is inlined always, since its answers would go
//! through memory otherwise. Each loop is a call of its own, and so is what few words need, so that
//! a loop has the registers to itself.

ghost use Rattle.std.specs.Prelude.{◌≡◌, ℕ, ◌+◌, ◌*◌, ◌%◌, ◌<◌, ◌≤◌, List, Bool, Option, None, false, [], ◌++◌, length, take, IsTrue};
ghost use Rattle.std.specs.List.{flat_map};
ghost use Rattle.nx_code.specs.Packed.{packed_elements, packed_part};
ghost use Rattle.nx_code.specs.Word.{elements, word_elements};
ghost use Rattle.nx_sync.specs.Ahead.{ArePairs, BringsStep, BringsWords, HasPart};
ghost use Rattle.nx_sync.specs.Synchroniser.{Held, keeps_lock};
ghost use Rattle.nx_copies.specs.WordLoop.{HearsPart};

use nx_code::{ELEMENTS, Word};
use nx_sync::{Step, Synchroniser};

/// Takes what the elements bring that a synchroniser hears: the words of locks, and the changes of
/// what stands, in order.
pub trait WordTaker {
    /// What can be over with an element, at which the hearing stops.
    type Over: Copy;

    /// There is room for what so many elements bring.
    ghost has_room: { Self → ℕ → Type 0 } = { λ taker count. Unit {0} };

    /// In `hears old before bits new after over` a synchroniser that held `old` heard these
    /// elements, and a taker took what they bring. The one then holds `new`, and `before` became
    /// `after`. With the last element `over` is over, and nothing was with one before it.
    ghost hears: { Held → Self → List Bool → Held → Self → Option Self.Over → Type 0 };

    /// Takes what so many elements bring: the last one this step, and those before it nothing.
    /// Answers what is over with the last one, if anything is.
    fn take_step(&mut self, count: usize, step: Step) -> Option<Self::Over>
        requires some { 0 < count }
        requires room { has_room self.old count }
        ensures hears { (old new : Held) (bits : List Bool) → length bits ≡ count
            → BringsStep old new bits step → hears old self.old bits new self.new result };

    /// Takes words of a lock that bring no change, DX and RX by turns, at once, where surely
    /// nothing is over with any of them: `true` where it did. Else nothing changed.
    fn take_plain(&mut self, words: &[Word]) -> bool
        requires pairs { ArePairs words.now }
        requires room { has_room self.old (word_elements * length words.now) }
        ensures hears { IsTrue result → (old new : Held) → BringsWords old new words.now
            → hears old self.old (flat_map elements words.now) new self.new None }
        ensures same { result ≡ false → self.new ≡ self.old };

    /// Takes the first of these words of a lock, which bring no change, DX and RX by turns: one or
    /// more pairs of them, up to and with the first one with which anything is over. Says how many
    /// words these are, and what is over with the last one.
    fn take_pairs(&mut self, words: &[Word]) -> (usize, Option<Self::Over>)
        requires pairs { ArePairs words.now }
        requires room { has_room self.old (word_elements * length words.now) }
        ensures within { result.0 ≤ length words.now }
        ensures even { result.0 % 2 ≡ 0 }
        ensures some { 0 < result.0 }
        ensures hears { (old new : Held) → BringsWords old new (take result.0 words.now)
            → hears old self.old (flat_map elements (take result.0 words.now)) new self.new
            result.1 };

    /// No elements bring nothing.
    ghost none: { (held : Held) (taker : Self) → hears held taker [] held taker None };

    /// Elements after others, with which nothing was over, bring what both do.
    ghost both: { (old mid new : Held) (first between last : Self) (xs ys : List Bool)
        (over : Option Self.Over)
        → hears old first xs mid between None → hears mid between ys new last over
        → hears old first (xs ++ ys) new last over };

    /// Where elements and more have room, the more have room behind them.
    ghost room: { (old new : Held) (before after : Self) (bits : List Bool)
        (over : Option Self.Over) (count more : ℕ)
        → hears old before bits new after over → length bits + more ≤ count
        → has_room before count → has_room after more };
}

/// Hears packed elements for a taker by this synchroniser, so many from a place on: up to and with
/// the first one with which anything is over for the taker, all of them where nothing is. Says how
/// many, and what is over. Element i is bit `i % 64` of number `i / 64`, set for B.
#[inline(always)]
pub fn hear_elements<T: WordTaker>(
    taker: &mut T,
    synchroniser: &mut Synchroniser,
    numbers: &[u64],
    from: usize,
    count: usize,
) -> (usize, Option<T::Over>)
    requires part { HasPart numbers.now from count }
    requires room { T.has_room taker.old count }
    ensures all { result.1 ≡ None → result.0 ≡ count }
    ensures hears { HearsPart T.hears synchroniser.old taker.old numbers.now from count
        synchroniser.new taker.new result }
{
    // One element, fewer than two words have, and more: each is a call with registers of its own.
    if count == 1 {
        return (1, hear_one(taker, synchroniser, numbers, from));
    }
    if count < ELEMENTS * 2 {
        return hear_few(taker, synchroniser, numbers, from, count);
    }
    hear_many(taker, synchroniser, numbers, from, count)
}

/// Hears the one element that there is to hear. Never inlined: it needs none of the registers that
/// words do.
#[inline(never)]
fn hear_one<T: WordTaker>(
    taker: &mut T,
    synchroniser: &mut Synchroniser,
    numbers: &[u64],
    from: usize,
) -> Option<T::Over>
    requires part { from + 1 ≤ packed_elements * length numbers.now }
    requires room { T.has_room taker.old 1 }
    ensures { T.hears synchroniser.old taker.old (packed_part numbers.now from 1)
        synchroniser.new taker.new result }
{
    let step = synchroniser.push_at(numbers, from);
    taker.take_step(1, step)
}

/// Hears elements as `hear_elements` does, one word after the other, which suits fewer elements
/// than two words have. Never inlined: it needs few of the registers that words at once do.
#[inline(never)]
fn hear_few<T: WordTaker>(
    taker: &mut T,
    synchroniser: &mut Synchroniser,
    numbers: &[u64],
    from: usize,
    count: usize,
) -> (usize, Option<T::Over>)
    requires part { HasPart numbers.now from count }
    requires room { T.has_room taker.old count }
    ensures all { result.1 ≡ None → result.0 ≡ count }
    ensures hears { HearsPart T.hears synchroniser.old taker.old numbers.now from count
        synchroniser.new taker.new result }
{
    let mut heard = 0;
    while heard < count {
        let (part, step) = synchroniser.push_some(numbers, from + heard, count - heard);
        let over = taker.take_step(part, step);
        heard += part;
        if over.is_some() {
            return (heard, over);
        }
    }
    (heard, None)
}

/// Hears elements as `hear_elements` does, some words at once. Never inlined: its loop has the
/// registers to itself.
#[inline(never)]
fn hear_many<T: WordTaker>(
    taker: &mut T,
    synchroniser: &mut Synchroniser,
    numbers: &[u64],
    from: usize,
    count: usize,
) -> (usize, Option<T::Over>)
    requires part { HasPart numbers.now from count }
    requires room { T.has_room taker.old count }
    ensures all { result.1 ≡ None → result.0 ≡ count }
    ensures hears { HearsPart T.hears synchroniser.old taker.old numbers.now from count
        synchroniser.new taker.new result }
{
    let mut heard = 0;
    while heard < count {
        let (some, over) = hear_some(taker, synchroniser, numbers, from + heard, count - heard);
        heard += some;
        if over.is_some() {
            return (heard, over);
        }
    }
    (heard, None)
}

/// Hears some of these elements. In a lock these are words at once, where some lie ahead that
/// bring no change: all of these, or the first pairs. Else these are those of a hunt, one word, or
/// a part of one.
#[inline(always)]
fn hear_some<T: WordTaker>(
    taker: &mut T,
    synchroniser: &mut Synchroniser,
    numbers: &[u64],
    from: usize,
    count: usize,
) -> (usize, Option<T::Over>)
    requires some { 0 < count }
    requires part { HasPart numbers.now from count }
    requires room { T.has_room taker.old count }
    ensures { HearsPart T.hears synchroniser.old taker.old numbers.now from count
        synchroniser.new taker.new result }
{
    let (many, eight) = synchroniser.words_ahead(numbers, from, count);
    // A number that the compiler knows, so that it makes a form for each.
    match many {
        8 => hear_words(taker, synchroniser, &eight[..8]),
        6 => hear_words(taker, synchroniser, &eight[..6]),
        2 => hear_words(taker, synchroniser, &eight[..2]),
        _ => hear_part(taker, synchroniser, numbers, from, count),
    }
}

/// Hears the first of these words at once, which lie ahead and bring no change: all of them where
/// surely nothing is over with any, else the first pairs. Says how many elements these are, and
/// what is over with the last one.
#[inline(always)]
fn hear_words<T: WordTaker>(
    taker: &mut T,
    synchroniser: &mut Synchroniser,
    words: &[Word],
) -> (usize, Option<T::Over>)
    requires pairs { ArePairs words.now }
    requires keeps { (n : ℕ) → 0 < n → n ≤ length words.now
        → IsTrue (keeps_lock synchroniser.old (take n words.now)) }
    requires room { T.has_room taker.old (word_elements * length words.now) }
    ensures within { result.0 ≤ word_elements * length words.now }
    ensures some { 0 < result.0 }
    ensures hears { T.hears synchroniser.old taker.old
        (take result.0 (flat_map elements words.now)) synchroniser.new taker.new result.1 }
{
    if taker.take_plain(words) {
        synchroniser.accept(words);
        return (ELEMENTS * words.len(), None);
    }
    let (taken, over) = taker.take_pairs(words);
    synchroniser.accept(&words[..taken]);
    (ELEMENTS * taken, over)
}

/// Hears some of these elements: those of a hunt, one word of a lock, or a part of one. Never
/// inlined: a loop over words at once has the registers to itself.
#[inline(never)]
fn hear_part<T: WordTaker>(
    taker: &mut T,
    synchroniser: &mut Synchroniser,
    numbers: &[u64],
    from: usize,
    count: usize,
) -> (usize, Option<T::Over>)
    requires some { 0 < count }
    requires part { HasPart numbers.now from count }
    requires room { T.has_room taker.old count }
    ensures { HearsPart T.hears synchroniser.old taker.old numbers.now from count
        synchroniser.new taker.new result }
{
    let (heard, step) = synchroniser.push_some(numbers, from, count);
    (heard, taker.take_step(heard, step))
}
