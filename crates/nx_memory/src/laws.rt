//! What the words of the memory and of the text of a state mean: laws over the definitions alone;
//! and that nothing is lost by saving and loading.

ghost use Rattle.std.specs.Prelude.{◌≡◌, ℕ, ◌<◌, ◌≤◌, ◌↔◌, List, [], ◌∷◌, ◌++◌, IsTrue, false};
ghost use Rattle.nx_code.specs.Lists.{last_of};
ghost use Rattle.nx_envelope.specs.declared.identity.Identity.{Identity};
ghost use Rattle.nx_memory.specs.declared.memories.entry.MemoryEntry.{MemoryEntry};
ghost use Rattle.nx_memory.specs.Content.{IsContent, IsRenewedContent, NeverFall, last_known};
ghost use Rattle.nx_memory.specs.Memory.{IsLive, content_after, is_known, most_entries, newest_moment};
ghost use Rattle.nx_memory.specs.Table.{identities, index_of, is_recent_moment, moment_of_last};
ghost use Rattle.nx_envelope.specs.Moment.{last_moment};
ghost use Rattle.std.specs.List.{AllByRecursion};
ghost use Rattle.nx_memory.specs.Saved.{SavedStates, AreSavedStates};
ghost use Rattle.nx_memory.specs.StateText.{IsShortLine, IsStateText, IsText1, IsText2, text_2};

use crate::memories::listed::Listed;
use crate::memories::recall::Recall;
use crate::selection::Selection;
use crate::state::saved::Saved;

/// Of all the entries made so far, those among the last 200 make an identity known exactly where
/// one of them is live. Such an entry bears the identity, is less than 66 hours old, and fewer than
/// 200 entries were made after it.
pub fn known_is_live()
    ensures { (identity : Identity) (moment : ℕ) (entries : List MemoryEntry) →
        IsTrue (is_known identity moment (last_of most_entries entries))
        ↔ IsLive identity moment entries }
{}

/// What a memory forgot makes no difference later: the last 200 of the last 200 and one more are
/// the last 200 of all entries and that one. So the content of a memory is the last 200 of all the
/// entries made so far.
pub fn last_of_goes_on()
    ensures { (entries : List MemoryEntry) (entry : MemoryEntry) →
        last_of most_entries (last_of most_entries entries ++ entry ∷ [])
        ≡ last_of most_entries (entries ++ entry ∷ []) }
{}

/// What a memory can hold: at most 200 entries, none numbered 00, whose moments never fall, and
/// where two bear one identity at least 66 hours lie between them. No entries are such, and the
/// conditions of `Recall::enter` keep it.
pub fn entries_stand_in_turn()
    ensures none { IsContent [] }
    ensures kept { (content : List MemoryEntry) (identity : Identity) (moment : ℕ) →
        IsContent content
        → newest_moment content ≤ moment
        → is_known identity moment content ≡ false
        → 0 < identity.number
        → IsContent (content_after content identity moment) }
{}

/// Each identity has a place of its own in a table: its place is within the table, and no two
/// identities share one.
pub fn identities_have_places_of_their_own()
    ensures within { (identity : Identity) → index_of identity < identities }
    ensures one { (a b : Identity) → index_of a ≡ index_of b → a ≡ b }
{}

/// The last entry of an identity alone tells whether the identity is known, whatever was entered
/// before it.
pub fn the_last_entry_tells()
    ensures { (content : List MemoryEntry) (identity : Identity) (moment : ℕ) → IsContent content →
        is_known identity moment content
        ≡ is_recent_moment moment (moment_of_last identity content) }
{}

/// What an entry told that is left out, the others tell: where the moments never fall, the entries
/// behind which none of their identity stands less than 66 hours later make the same known as all.
/// And they are what a memory can hold that enters nothing it knows.
pub fn the_last_known_tell_all()
    ensures known { (entries : List MemoryEntry) (identity : Identity) (moment : ℕ) →
        NeverFall entries
        → is_known identity moment (last_known entries) ≡ is_known identity moment entries }
    ensures content { (entries : List MemoryEntry) → IsRenewedContent entries
        → IsContent (last_known entries) }
    ensures newest { (entries : List MemoryEntry)
        → newest_moment (last_known entries) ≡ newest_moment entries }
{}

/// A text of a state stands for one state, and of one version a state has one text. What is written
/// is a text of what is saved, so it is read back as the same. No text begins another, and no line
/// has more than 16 bytes or a line feed in it.
pub fn a_state_text_stands_for_one_state()
    ensures one_state { (lines : List (List ℕ)) (states others : SavedStates) →
        IsStateText lines states → IsStateText lines others → states ≡ others }
    ensures one_text_1 { (lines others : List (List ℕ)) (states : SavedStates) →
        IsText1 lines states → IsText1 others states → lines ≡ others }
    ensures one_text_2 { (lines others : List (List ℕ)) (states : SavedStates) →
        IsText2 lines states → IsText2 others states → lines ≡ others }
    ensures written { (states : SavedStates) →
        AreSavedStates states → IsStateText (text_2 states) states }
    ensures none_begins { (lines more : List (List ℕ)) (states others : SavedStates) →
        IsStateText lines states → IsStateText (lines ++ more) others → more ≡ [] }
    ensures short { (lines : List (List ℕ)) (states : SavedStates) →
        IsStateText lines states → AllByRecursion IsShortLine lines }
{}

/// Nothing is lost where a memory is loaded and saved: what is saved of it is what was loaded.
pub fn loaded_is_saved_again<M: Listed>(saved: &Saved, memory: &mut M) -> Saved
    requires { M.content memory.old ≡ [] }
    ensures { result ≡ saved.now }
{
    saved.load(memory);
    Saved::of(&saved.selection(), memory)
}

/// Nothing is lost where a memory is saved and another loaded: the other then has the same entries.
pub fn saved_is_loaded_again<M: Listed, N: Recall>(memory: &M, other: &mut N)
    requires in_range { newest_moment (M.content memory.now) ≤ last_moment }
    requires empty { N.content other.old ≡ [] }
    ensures { N.content other.new ≡ M.content memory.now }
{
    Saved::of(&Selection::all(), memory).load(other);
}
