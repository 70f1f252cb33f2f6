//! What stands in a log behind an entry, or behind the beginning of a torn one, up to the next
//! bracket.

ghost use Rattle.std.specs.Prelude.{◌≡◌, ◌≢◌, ◌⊎◌, ◌<◌, ◌≤◌, ◌↔◌, ◌+◌, ◌-◌, ◌^◌, ℕ, true, false, List, [], ◌∷◌, ◌++◌, IsTrue, None as Nothing, IfNone, IfSome, length, min, take};
ghost use Rattle.nx_log.specs.Reading.{IsBlank, bracket, line_behind};
ghost use Rattle.nx_log.specs.private.Standing.{CanTear, IsSomeTail, StandsBehind, StandsSomehow, StaysGap, torn_of, with_blank, with_other, with_torn};
ghost use Rattle.nx_log.specs.private.Steps.{EndsTail};

use crate::entries::reader::TornLine;

/// The most bytes that the last space of a gap reaches.
pub(crate) const MAX_TORN: usize = 4147;

/// What a tail has so far.
#[derive(Clone, Copy, Debug, Drop, PartialEq, Eq)]
pub(crate) enum Shape {
    /// Nothing.
    Nothing,
    /// Newlines and spaces.
    Blanks,
    /// One other byte.
    One,
    /// Bytes that are torn, within reach of the last space of a gap.
    Torn,
}

/// What stands behind an entry or its beginning so far.
#[derive(Clone, Copy, Debug, Drop, PartialEq, Eq)]
pub(crate) struct Tail {
    /// Whether it stands behind the beginning of an entry, which is torn.
    pub(crate) is_torn: bool,
    /// What it has so far.
    pub(crate) shape: Shape,
    /// How many bytes more the last space reaches.
    pub(crate) reach: usize,
    /// How many more can be torn: the spaces behind the beginning of an entry reach none.
    pub(crate) torn_reach: usize,
    /// The line of the torn entry, where there is one.
    pub(crate) torn_line: u64,
}

/// How many bytes of a piece were passed, and the tail and the line behind them.
#[derive(Clone, Copy, Debug)]
pub(crate) struct TailPassed {
    pub(crate) count: usize,
    pub(crate) tail: Tail,
    pub(crate) line: u64,
    pub(crate) end: TailEnd,
}

/// What stands behind the bytes that were passed.
#[derive(Clone, Copy, Debug, Drop, PartialEq, Eq)]
pub(crate) enum TailEnd {
    /// Nothing.
    All,
    /// A bracket.
    Bracket,
    /// A byte that can't stand in the tail.
    Bad,
}

impl TailPassed {
    /// Whether a bracket stands behind the bytes, and nothing is torn, so that an entry begins.
    pub(crate) fn opens(&self) -> bool
        ensures opens { IsTrue result → (self.now.end ≡ TailEnd.Bracket)
            × ¬ ((self.now.tail.is_torn ≡ true) ⊎ (self.now.tail.shape ≡ Shape.Torn)) }
        ensures torn { result ≡ false → self.now.end ≡ TailEnd.Bracket
            → (self.now.tail.is_torn ≡ true) ⊎ (self.now.tail.shape ≡ Shape.Torn) }
    {
        match self.end {
            TailEnd::Bracket => !self.tail.has_torn(),
            TailEnd::All | TailEnd::Bad => false,
        }
    }
}

impl Tail {
    /// Behind a whole entry, or before all, where the last space reaches so many bytes.
    pub(crate) fn behind(reach: usize) -> Tail
        ensures stands { (before front : List ℕ) → StandsBehind result before front reach [] Nothing }
        ensures whole { result.is_torn ≡ false }
    {
        Tail {
            is_torn: false,
            shape: Shape::Nothing,
            reach,
            torn_reach: reach,
            torn_line: 0,
        }
    }

    /// Behind the beginning of an entry on this line.
    pub(crate) fn behind_begun(reach: usize, line: u64) -> Tail
        ensures stands { (before front : List ℕ) → line ≡ min (line_behind before) (2 ^ 64 - 1)
            → StandsBehind result before front reach [] Nothing }
        ensures torn { result.is_torn ≡ true }
    {
        Tail {
            is_torn: true,
            shape: Shape::Nothing,
            reach,
            torn_reach: reach,
            torn_line: line,
        }
    }

    /// Whether an entry is torn here.
    pub(crate) fn has_torn(&self) -> bool
        ensures { IsTrue result ↔ ((self.now.is_torn ≡ true) ⊎ (self.now.shape ≡ Shape.Torn)) }
    {
        self.is_torn || self.shape == Shape::Torn
    }

    /// The torn entry that stands here, if there is one.
    pub(crate) fn torn(&self) -> Option<TornLine>
        ensures { result ≡ torn_of self.now }
    {
        if self.has_torn() {
            return Some(TornLine {
                line: self.torn_line,
            });
        }
        None
    }

    /// The tail with one byte more, which stands on this line and is no bracket. `None` exactly
    /// where there is none.
    fn with(self, byte: u8, line: u64) -> Option<Tail>
        requires { byte ≢ bracket }
        ensures goes_on { (before front tail : List ℕ) (reach : ℕ)
            → line ≡ min (line_behind (before ++ (front ++ tail))) (2 ^ 64 - 1)
            → StandsSomehow self before front reach tail
            → IfSome result (λ next. StandsSomehow next before front reach (tail ++ byte ∷ [])) }
        ensures same { IfSome result (λ next. next.is_torn ≡ self.is_torn) }
        ensures ends { (before front tail : List ℕ) (reach : ℕ)
            → StandsSomehow self before front reach tail
            → IfNone result (¬ IsSomeTail self.is_torn reach (tail ++ byte ∷ [])) }
    {
        if self.stays_gap(byte) {
            return Some(self.with_gap(byte));
        }
        if self.torn_reach == 0 {
            return None;
        }
        Some(self.with_torn(line))
    }

    /// Whether the byte goes on with a gap.
    fn stays_gap(&self, byte: u8) -> bool
        ensures stays { IsTrue result → StaysGap self.now.shape byte }
        ensures tears { result ≡ false → CanTear self.now.shape byte }
    {
        match self.shape {
            Shape::Nothing => true,
            Shape::Blanks => is_blank(byte),
            Shape::One | Shape::Torn => false,
        }
    }

    /// The tail with one byte more, which goes on with the gap and is no bracket.
    fn with_gap(self, byte: u8) -> Tail
        requires gap { StaysGap self.shape byte }
        requires other { byte ≢ bracket }
        ensures stands { (before front tail : List ℕ) (reach : ℕ)
            → StandsSomehow self before front reach tail
            → StandsSomehow result before front reach (tail ++ byte ∷ []) }
        ensures same { result.is_torn ≡ self.is_torn }
    {
        if is_blank(byte) {
            return self.with_blank(byte);
        }
        self.with_other()
    }

    /// The tail with one more newline or space of a gap.
    fn with_blank(self, byte: u8) -> Tail
        ensures { result ≡ with_blank self byte }
    {
        let reach = if byte == b' ' {
            MAX_TORN
        } else {
            self.reach.saturating_sub(1)
        };
        let torn_reach = if self.is_torn {
            self.torn_reach.saturating_sub(1)
        } else {
            reach
        };
        Tail {
            is_torn: self.is_torn,
            shape: Shape::Blanks,
            reach,
            torn_reach,
            torn_line: self.torn_line,
        }
    }

    /// The tail with another byte, which is the gap.
    fn with_other(self) -> Tail
        ensures { result ≡ with_other self }
    {
        Tail {
            is_torn: self.is_torn,
            shape: Shape::One,
            reach: self.reach.saturating_sub(1),
            torn_reach: self.torn_reach.saturating_sub(1),
            torn_line: self.torn_line,
        }
    }

    /// The tail with another byte, which is torn and stands on this line.
    fn with_torn(self, line: u64) -> Tail
        ensures { result ≡ with_torn self line }
    {
        let reach = self.torn_reach.saturating_sub(1);
        Tail {
            is_torn: self.is_torn,
            shape: Shape::Torn,
            reach,
            torn_reach: reach,
            torn_line: if self.has_torn() {
                self.torn_line
            } else {
                line
            },
        }
    }
}

/// Passes over the bytes of a piece that stand in a tail, of which the first stands on this line.
pub(crate) fn pass_tail(tail: Tail, line: u64, piece: &[u8]) -> TailPassed
    ensures within { result.count ≤ length piece.now }
    ensures stands { (before front bytes : List ℕ) (reach : ℕ)
        → line ≡ min (line_behind (before ++ (front ++ bytes))) (2 ^ 64 - 1)
        → StandsSomehow tail before front reach bytes
        → StandsSomehow result.tail before front reach (bytes ++ take result.count piece.now) }
    ensures same { result.tail.is_torn ≡ tail.is_torn }
    ensures line { (before : List ℕ) → line ≡ min (line_behind before) (2 ^ 64 - 1)
        → result.line ≡ min (line_behind (before ++ take result.count piece.now)) (2 ^ 64 - 1) }
    ensures end { EndsTail result.end result.count piece.now }
    ensures small { result.end ≡ TailEnd.Bracket → result.count < 2 ^ 64 - 1 }
    ensures bad { result.end ≡ TailEnd.Bad
        → (before front bytes : List ℕ) (reach : ℕ) → StandsSomehow tail before front reach bytes
        → line ≡ min (line_behind (before ++ (front ++ bytes))) (2 ^ 64 - 1)
        → ¬ IsSomeTail tail.is_torn reach (bytes ++ take (result.count + 1) piece.now) }
{
    let mut passed = TailPassed {
        count: 0,
        tail,
        line,
        end: TailEnd::All,
    };
    for byte in piece {
        if *byte == b'[' {
            passed.end = TailEnd::Bracket;
            return passed;
        }
        let Some(next) = passed.tail.with(*byte, passed.line) else {
            passed.end = TailEnd::Bad;
            return passed;
        };
        passed.tail = next;
        passed.count += 1;
        passed.line = next_line(passed.line, *byte);
    }
    passed
}

/// The line behind this byte, which stands on this line.
fn next_line(line: u64, byte: u8) -> u64
    ensures { (before : List ℕ) → line ≡ min (line_behind before) (2 ^ 64 - 1)
        → result ≡ min (line_behind (before ++ byte ∷ [])) (2 ^ 64 - 1) }
{
    if byte == b'\n' {
        return line.saturating_add(1);
    }
    line
}

/// The byte is a newline or a space.
fn is_blank(byte: u8) -> bool
    ensures { IsTrue result ↔ IsBlank byte }
{
    byte == b'\n' || byte == b' '
}
