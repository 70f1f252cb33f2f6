//! Laws of places in a kept log: an entry keeps its own, wherever reading begins. Each function
//! does nothing; its contract is the law.

ghost use Rattle.std.specs.Prelude.{◌≡◌, ◌≤◌, ◌-◌, ℕ, List, [], ◌∷◌, ◌++◌, Some, drop, map};
ghost use Rattle.nx_copies.specs.copies.Shares.{MarkedCopy};
ghost use Rattle.nx_log.specs.KeptLog.{StandForPlaced};
ghost use Rattle.nx_log.specs.Places.{PlacedCopy, copy_of};
ghost use Rattle.nx_log.specs.declared.writing.places.Places.{Places};
ghost use Rattle.nx_watch.specs.Watch.{StandsForEntries};
ghost use Rattle.nx_left_on.specs.Chain.{IsChain, Watch, all_put};

/// A run over a kept log reads what a watch keeps: where bytes stand for entries with places, they
/// stand for these entries to a watch, and each entry for which they stand has its places.
pub fn a_kept_log_is_read_as_a_watch_reads_it()
    ensures stand { (from : ℕ) (bytes : List ℕ) (entries : List PlacedCopy)
        → StandForPlaced from bytes entries → StandsForEntries (map copy_of entries) bytes }
    ensures placed { (from : ℕ) (bytes : List ℕ) (entries : List MarkedCopy)
        → StandsForEntries entries bytes
        → (placed : List PlacedCopy) × StandForPlaced from bytes placed
        × (map copy_of placed ≡ entries) }
{}

/// What stands from the gate before an entry on stands for it and for those behind it, each at its
/// own places. What stands from the gate behind it on stands for those behind it: for none, where
/// it is the last.
pub fn what_stands_from_a_gate_on_stands_for_the_rest()
    ensures before { (from : ℕ) (bytes : List ℕ) (earlier later : List PlacedCopy)
        (one : PlacedCopy) → StandForPlaced from bytes (earlier ++ one ∷ later)
        → (places : Places) × (one.places ≡ Some places) × (from ≤ places.place)
        × StandForPlaced places.place (drop (places.place - from) bytes) (one ∷ later) }
    ensures behind { (from : ℕ) (bytes : List ℕ) (earlier later : List PlacedCopy)
        (one : PlacedCopy) → StandForPlaced from bytes (earlier ++ one ∷ later)
        → (places : Places) × (one.places ≡ Some places) × (from ≤ places.next)
        × StandForPlaced places.next (drop (places.next - from) bytes) later }
{}

/// An entry has the same places in each file that stands for it behind the same entries, whatever
/// gates and whatever tail such a file has.
pub fn an_entry_has_its_places_in_each_file()
    ensures { (from : ℕ) (bytes others : List ℕ) (entries all : List PlacedCopy)
        (more : List MarkedCopy)
        → StandForPlaced from bytes entries → StandForPlaced from others all
        → map copy_of all ≡ map copy_of entries ++ more
        → (later : List PlacedCopy) × (all ≡ entries ++ later) × (map copy_of later ≡ more) }
{}

/// What a reader has of a kept log stays, and so does the place at which he goes on. Take a chain
/// of watches over the file, however each of them ended, and whatever its start cut. The file that
/// the last of them left stands for the entries that he has, each at its own places, and then for
/// those that were put since. What stands from the gate behind the last entry that he has on stands
/// for just these.
pub fn a_chain_of_watches_keeps_each_place()
    ensures stays { (file : List ℕ) (entries : List PlacedCopy) (watches : List Watch)
        (last : Watch)
        → StandForPlaced 0 file entries
        → IsChain (map copy_of entries) (watches ++ last ∷ [])
        → (later : List PlacedCopy) × StandForPlaced 0 last.file (entries ++ later)
        × (map copy_of later ≡ all_put (watches ++ last ∷ [])) }
    ensures goes_on { (file : List ℕ) (earlier : List PlacedCopy) (one : PlacedCopy)
        (watches : List Watch) (last : Watch)
        → StandForPlaced 0 file (earlier ++ one ∷ [])
        → IsChain (map copy_of (earlier ++ one ∷ [])) (watches ++ last ∷ [])
        → (places : Places) × (later : List PlacedCopy) × (one.places ≡ Some places)
        × StandForPlaced places.next (drop places.next last.file) later
        × (map copy_of later ≡ all_put (watches ++ last ∷ [])) }
{}
