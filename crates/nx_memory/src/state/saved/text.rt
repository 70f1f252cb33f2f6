//! What is saved, line by line of its text.

ghost use Rattle.std.specs.Prelude.{◌≡◌, ◌≤◌, ◌∷◌, ◌++◌, true, false, [], length, slice_get, IfSome};
ghost use Rattle.nx_memory.specs.Memory.{is_known};
ghost use Rattle.nx_memory.specs.Saved.{IsSavedState};
ghost use Rattle.nx_memory.specs.StateText.{said, section};
ghost use Rattle.nx_memory.specs.declared.state.saved_line.SavedLine.TheVariants as lines;
ghost use Rattle.nx_memory.specs.private.StateReading.{IsRefused, IsSpelled, with_line};
ghost use Rattle.nx_memory.specs.private.StateReading.{is_behind as is_behind_all, takes as takes_line};

use super::Saved;
use crate::memories::entry::MemoryEntry;
use crate::memories::recall::{CAPACITY, is_recent};
use crate::selection::is_vital_subject;
use crate::state::saved_line::{SavedLine, saved_line};
use nx_envelope::Letter;

impl Saved {
    /// How many lines its text has.
    pub(crate) fn lines(&self) -> usize
        ensures lines { result ≡ length (said self.now) }
        ensures few { result ≤ 252 }
        ensures sound { IsSavedState self.now }
    {
        let stations = self.selection.refused_stations().len();
        let subjects = self.selection.refused_subjects().len();
        stations + subjects + self.entries.len()
    }

    /// What the line at that place of its text says, from 0; `None` past the last.
    pub(crate) fn line(&self, place: usize) -> Option<SavedLine>
        ensures line { result ≡ slice_get (said self.now) place }
        ensures spelled { IfSome result IsSpelled }
    {
        let stations = self.selection.refused_stations();
        if let Some(letter) = stations.as_slice().get(place) {
            return Some(SavedLine::Station(*letter));
        }
        let place = place - stations.len();
        let subjects = self.selection.refused_subjects();
        if let Some(letter) = subjects.as_slice().get(place) {
            return Some(SavedLine::Subject(*letter));
        }
        let place = place - subjects.len();
        let entry = self.entries.as_slice().get(place)?;
        Some(SavedLine::Entry(*entry))
    }

    /// Takes one more line of its text, given without its line feed. `false` where it can't stand
    /// behind the lines so far, which then stay.
    pub(crate) fn take_line(&mut self, line: &[u8]) -> bool
        ensures taken { result ≡ true → section self.new ≡ section self.old ++ line.now ∷ [] }
        ensures unchanged { result ≡ false → self.new ≡ self.old }
        ensures refused { result ≡ false → IsRefused self.old line.now }
        ensures sound { IsSavedState self.new }
    {
        match saved_line(line) {
            Some(said) => self.add(said),
            None => {
                self.lines();
                false
            }
        }
    }

    /// Adds what one more line says, where it may stand behind those so far.
    fn add(&mut self, line: SavedLine) -> bool
        requires { IsSpelled line }
        ensures taken { result ≡ takes_line self.old line }
        ensures added { result ≡ true → self.new ≡ with_line self.old line }
        ensures unchanged { result ≡ false → self.new ≡ self.old }
        ensures sound { IsSavedState self.old }
    {
        if !self.takes(line) {
            return false;
        }
        match line {
            SavedLine::Station(letter) => {
                if let Some(station) = Letter::new(letter) {
                    self.selection.refuse_station(station);
                }
            }
            SavedLine::Subject(letter) => {
                if let Some(subject) = Letter::new(letter) {
                    // It can be refused, as `takes` has asked.
                    let _ = self.selection.refuse_subject(subject);
                }
            }
            SavedLine::Entry(entry) => self.entries.push(entry),
        }
        true
    }

    /// Whether one more line may stand behind those so far.
    #[tactic(auto, unfolding(crate::specs::private::StateReading::takes))]
    fn takes(&self, line: SavedLine) -> bool
        ensures takes { result ≡ takes_line self.now line }
        ensures sound { IsSavedState self.now }
    {
        let stations = self.selection.refused_stations();
        let subjects = self.selection.refused_subjects();
        match line {
            SavedLine::Station(letter) => {
                letter.is_ascii_uppercase()
                    && self.entries.len() == 0
                    && subjects.len() == 0
                    && is_behind(letter, stations.as_slice())
            }
            SavedLine::Subject(letter) => {
                letter.is_ascii_uppercase()
                    && !is_vital_subject(letter)
                    && self.entries.len() == 0
                    && is_behind(letter, subjects.as_slice())
            }
            SavedLine::Entry(entry) => self.takes_entry(entry),
        }
    }

    /// Whether one more entry may stand behind those so far.
    #[tactic(auto, unfolding(crate::specs::private::StateReading::takes))]
    fn takes_entry(&self, entry: MemoryEntry) -> bool
        ensures { result ≡ takes_line self.now (lines.Entry entry) }
    {
        let newest = self.newest().unwrap_or(0);
        let is_known = self.knows(entry);
        self.entries.len() < CAPACITY
            && entry.identity.number > 0
            && newest <= entry.moment
            && !is_known
    }

    /// Whether an entry of the identity is less than 66 hours old at the entry's moment.
    fn knows(&self, entry: MemoryEntry) -> bool
        ensures { result ≡ is_known entry.identity entry.moment self.now.entries }
    {
        self.entries.as_slice().iter().any(|earlier| {
            earlier.identity == entry.identity && is_recent(earlier.moment, entry.moment)
        })
    }
}

/// Whether the letter is behind all of these.
fn is_behind(letter: u8, letters: &[u8]) -> bool
    ensures { result ≡ is_behind_all letter letters.now }
{
    letters.iter().all(|before| *before < letter)
}
