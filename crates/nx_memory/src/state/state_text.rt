//! The text of a state as it is written.

ghost use Rattle.std.specs.Prelude.{◌≡◌, ◌+◌, ◌≤◌, ◌∷◌, length, slice_get, MatchResult, Some};
ghost use Rattle.std.specs.Option.{option_map};
ghost use Rattle.nx_memory.specs.Saved.{AreSavedStates};
ghost use Rattle.nx_memory.specs.StateText.{section, text_2};

use crate::state::saved::Saved;
use crate::state::saved_line::{MAX_STATE_LINE, fixed_line};
use crate::state::saved_set::SavedSet;
use arrayvec::ArrayVec;

/// The line at that place, from 0, of the text of a state, without its line feed; `None` past the
/// last. The text is of version 2.
pub fn state_line(states: &SavedSet, place: usize) -> Option<ArrayVec<u8, MAX_STATE_LINE>>
    ensures line { option_map (λ line. line.items) result ≡ slice_get (text_2 states.now) place }
    ensures sound { AreSavedStates states.now }
{
    if place >= text_lines(states) {
        return None;
    }
    let Some(place) = place.checked_sub(1) else {
        return Some(fixed_line(b"STATE 2"));
    };
    let place = match channel_line(b"C0", &states.on_0, place) {
        Ok(line) => return Some(line),
        Err(place) => place,
    };
    let place = match channel_line(b"C1", &states.on_1, place) {
        Ok(line) => return Some(line),
        Err(place) => place,
    };
    match channel_line(b"C2", &states.on_2, place) {
        Ok(line) => Some(line),
        Err(_) => Some(fixed_line(b"END")),
    }
}

/// How many lines the text of a state has.
fn text_lines(states: &SavedSet) -> usize
    ensures count { result ≡ length (text_2 states.now) }
    ensures sound { AreSavedStates states.now }
{
    5 + states.on_0.lines() + states.on_1.lines() + states.on_2.lines()
}

/// The line at that place, from 0, of the head and the lines of a channel; past the last how many
/// places behind the last it is.
fn channel_line(
    head: &[u8],
    saved: &Saved,
    place: usize,
) -> Result<ArrayVec<u8, MAX_STATE_LINE>, usize>
    requires { length head.now ≤ 16 }
    ensures { MatchResult result
        (λ line. slice_get (head.now ∷ section saved.now) place ≡ Some line.items)
        (λ behind. place ≡ length (head.now ∷ section saved.now) + behind) }
{
    let lines = saved.lines();
    let Some(place) = place.checked_sub(1) else {
        return Ok(fixed_line(head));
    };
    match saved.line(place) {
        Some(line) => Ok(line.bytes()),
        None => Err(place - lines),
    }
}
