//! The text of a state as it is read.

ghost use Rattle.std.specs.Prelude.{◌≡◌, ◌≢◌, true, false, [], ◌∷◌, ◌++◌, codes, MatchOption};
ghost use Rattle.nx_memory.specs.StateText.{BeginsText, BeginsNoText, IsStateText, OnMore, IfDone, OnBad};
ghost use Rattle.nx_memory.specs.private.StateReading.{IsReading, IsRefusedAt, lines_read};
ghost use Rattle.nx_memory.specs.private.StateReading.{opened as the_opened, may_end as the_may_end};

use crate::state::saved::Saved;
use crate::state::saved_set::SavedSet;
use std::marker::Model;
use std::mem;

/// What a reader answers to a line.
#[derive(Drop)]
pub enum StateStep {
    /// The line was taken, and more have to come.
    More,
    /// The line was the last: this is what the text stands for.
    Done(SavedSet),
    /// The line can't stand there.
    Bad,
}

/// How far the text of a state was read.
#[derive(Clone, Copy)]
pub(crate) enum StateStage {
    /// Nothing was read.
    Start,
    /// The text is of version 1, and the lines of its one channel come.
    Version1,
    /// The text is of version 2, and the head of channel 0 comes.
    Version2,
    /// The lines of channel 0 come.
    Channel0,
    /// The lines of channel 1 come.
    Channel1,
    /// The lines of channel 2 come.
    Channel2,
}

/// Reads the text of a state line by line. Contracts see it as the lines that it took; it keeps
/// what they stand for, and nothing else.
#[derive(Drop)]
pub struct StateReader {
    stage: StateStage,
    states: SavedSet,
}

impl Model for StateReader {
    ghost use Rattle.std.specs.Prelude.{ℕ, List};
    ghost use Rattle.nx_memory.specs.private.StateReading.{lines_read, IsReading};

    ghost Value = { List (List ℕ) };

    ghost view = { λ reader. lines_read reader.stage reader.states };

    ghost invariant = { λ reader. IsReading reader.stage reader.states };
}

impl StateReader {
    /// A reader that took no line.
    #[inline(always)]
    pub fn new() -> Self
        ensures { result ≡ [] }
    {
        prove!(size_of::<StateReader>() == 9_800);
        StateReader {
            stage: StateStage::Start,
            states: SavedSet::new(),
        }
    }

    /// Takes the next line of the text, given without its line feed. `More` where more lines have
    /// to come. `Done` where it was the last, and the reader is then as new. `Bad` where no text of
    /// a state goes on so, and the reader then stays as it was.
    pub fn line(&mut self, line: &[u8]) -> StateStep
        ensures more { OnMore result (self.new ≡ self.old ++ line.now ∷ []) }
        ensures begins { BeginsText self.new }
        ensures done { IfDone result (IsStateText (self.old ++ line.now ∷ [])) }
        ensures as_new { IfDone result (λ _. self.new ≡ []) }
        ensures bad { OnBad result (BeginsNoText (self.old ++ line.now ∷ [])) }
        ensures unchanged { OnBad result (self.new ≡ self.old) }
    {
        if let Some(stage) = opened(self.stage, line) {
            self.stage = stage;
            return StateStep::More;
        }
        if may_end(self.stage) && line == b"END".as_slice() {
            self.stage = StateStage::Start;
            return StateStep::Done(mem::replace(&mut self.states, SavedSet::new()));
        }
        if take_line(&mut self.states, self.stage, line) {
            return StateStep::More;
        }
        StateStep::Bad
    }

    /// Takes the next line of the text, given without its line feed, where more lines have to come
    /// behind it: says whether it did. Where it didn't, the reader stays as it was, and no text of
    /// a state goes on so, but for what `ended` says of the line `END`.
    pub fn take(&mut self, line: &[u8]) -> bool
        ensures taken { result ≡ true → self.new ≡ self.old ++ line.now ∷ [] }
        ensures begins { BeginsText self.new }
        ensures unchanged { result ≡ false → self.new ≡ self.old }
        ensures refused { result ≡ false → line.now ≢ codes "END"
            → BeginsNoText (self.old ++ line.now ∷ []) }
    {
        if let Some(stage) = opened(self.stage, line) {
            self.stage = stage;
            return true;
        }
        take_line(&mut self.states, self.stage, line)
    }

    /// What the text stands for in its place, where this is its last line, given without its line
    /// feed. `None` where it isn't; where it is the line `END`, no text of a state goes on so.
    pub fn ended(&self, line: &[u8]) -> Option<&SavedSet>
        ensures { MatchOption result
            (line.now ≡ codes "END" → BeginsNoText (self.now ++ line.now ∷ []))
            (λ states. IsStateText (self.now ++ line.now ∷ []) states.now) }
    {
        if may_end(self.stage) && line == b"END".as_slice() {
            return Some(&self.states);
        }
        None
    }
}

/// The stage that a line opens, where it says nothing of a channel itself.
fn opened(stage: StateStage, line: &[u8]) -> Option<StateStage>
    ensures { result ≡ the_opened stage line.now }
{
    match stage {
        StateStage::Start if line == b"STATE 1".as_slice() => Some(StateStage::Version1),
        StateStage::Start if line == b"STATE 2".as_slice() => Some(StateStage::Version2),
        StateStage::Version2 if line == b"C0".as_slice() => Some(StateStage::Channel0),
        StateStage::Channel0 if line == b"C1".as_slice() => Some(StateStage::Channel1),
        StateStage::Channel1 if line == b"C2".as_slice() => Some(StateStage::Channel2),
        _ => None,
    }
}

/// Whether the last line of a text may stand here.
fn may_end(stage: StateStage) -> bool
    ensures { result ≡ the_may_end stage }
{
    matches!(stage, StateStage::Version1 | StateStage::Channel2)
}

/// Takes one more line of the channel whose lines come. `false` where none come, or it can't stand
/// behind those so far, which then stay.
fn take_line(states: &mut SavedSet, stage: StateStage, line: &[u8]) -> bool
    ensures taken { result ≡ true
        → lines_read stage states.new ≡ lines_read stage states.old ++ line.now ∷ [] }
    ensures unchanged { result ≡ false → states.new ≡ states.old }
    ensures refused { result ≡ false → IsRefusedAt stage states.old line.now }
    ensures reading { IsReading stage states.old → IsReading stage states.new }
{
    match stage {
        StateStage::Start | StateStage::Version2 => false,
        StateStage::Version1 => states.on_0.take_line(line),
        StateStage::Channel0 => states.on_0.take_line(line),
        StateStage::Channel1 => states.on_1.take_line(line),
        StateStage::Channel2 => states.on_2.take_line(line),
    }
}
