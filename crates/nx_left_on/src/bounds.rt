//! Laws of the bounds in what the law of a message that stands in the log once asks for: an example
//! on each side of each bound. Each function does nothing; its contract is the law.

ghost use Rattle.std.specs.Prelude.{◌≡◌, ℕ, [], ◌∷◌, ◌++◌, Some};
ghost use Rattle.nx_envelope.specs.declared.found.How.TheVariants.{Full};
ghost use Rattle.nx_fec.specs.air_files.AirFile.{moment};
ghost use Rattle.nx_fec.specs.declared.air_files.channel.Channel.TheVariants.{One, Zero};
ghost use Rattle.nx_log.specs.Logged.{remembered_on};
ghost use Rattle.nx_log.specs.Query.{chosen};
ghost use Rattle.nx_promises.specs.examples.Repeats.{first_copy, heard_at};
ghost use Rattle.nx_copies.specs.copies.Printing.{printed_copies};
ghost use Rattle.nx_copies.specs.laws.Once.{FewBetween, IsUnknownAtFirst};
ghost use Rattle.nx_station.specs.reception.PathExample.{ea01, example_message};
ghost use Rattle.nx_watch.specs.Watch.{moments_at, starts_at};
ghost use Rattle.nx_left_on.specs.Chain.{ClocksAreNear, IsChain, acting_at};
ghost use Rattle.nx_left_on.specs.Example.{first_moment, one_entry, watches_apart};
ghost use Rattle.nx_left_on.specs.Bounds.{asks_since, copies_between, entry_then, newer_entry, silent_watch, watch_behind, watches_between};
ghost use Rattle.nx_left_on.specs.LeftOn.{AreFewOver, IsHeardInTimeOver, IsUnknownOver};
ghost use Rattle.nx_left_on.specs.Shortened.{HearsFrom, LeavesOutOld};
ghost use Rattle.nx_left_on.specs.Together.{IsOver};

/// The clock of a watch is near where its MOMENT lies 66 hours less a second before the newest
/// entry of the channel, and not where it lies 66 hours before. Entries that an earlier watch of
/// the chain put count too, and those of other channels don't.
pub fn a_clock_is_less_than_66_hours_behind()
    ensures near { ClocksAreNear Zero one_entry (silent_watch 1735454401 [] ∷ []) }
    ensures far { ClocksAreNear Zero one_entry (silent_watch 1735454400 [] ∷ []) → ⊥ }
    ensures put_near { ClocksAreNear Zero []
        (silent_watch first_moment one_entry ∷ silent_watch 1735454401 [] ∷ []) }
    ensures put_far { ClocksAreNear Zero []
        (silent_watch first_moment one_entry ∷ silent_watch 1735454400 [] ∷ []) → ⊥ }
    ensures other_channel { ClocksAreNear One one_entry (silent_watch 0 [] ∷ []) }
{}

/// A message that is heard in two watches of a chain, 66 hours less a second apart, is heard in
/// time over them. Where they are 66 hours apart it isn't.
pub fn sendings_lie_less_than_66_hours_apart()
    ensures chain { IsChain [] (watches_apart 237599) }
    ensures heard { IsHeardInTimeOver Zero (watches_apart 237599) example_message }
    ensures not_heard { IsHeardInTimeOver Zero (watches_apart 237600) example_message → ⊥ }
{}

/// At the second copy of a message 199 entries that were put behind its own are few, and 200 are
/// not.
pub fn fewer_than_200_entries_stand_behind()
    ensures few { AreFewOver Zero (watches_between 199) ea01 }
    ensures many { AreFewOver Zero (watches_between 200) ea01 → ⊥ }
{}

/// At the first copy of a message an entry of it that is 66 hours old isn't live, and one that is a
/// second younger is.
pub fn an_entry_of_66_hours_is_not_live()
    ensures unknown { IsUnknownOver Zero (watch_behind 1735454400 ∷ []) ea01 }
    ensures known { IsUnknownOver Zero (watch_behind 1735454401 ∷ []) ea01 → ⊥ }
{}

/// The same bounds hold of one receiver: an entry that it begins with isn't live where it is 66
/// hours old, and is where it is a second younger. Between two copies of a message 199 entries are
/// few, and 200 are not.
pub fn one_receiver_has_the_same_bounds()
    ensures unknown { IsUnknownAtFirst (entry_then 1735454400 ∷ []) ea01 (first_copy ∷ []) }
    ensures known { IsUnknownAtFirst (entry_then 1735454401 ∷ []) ea01 (first_copy ∷ []) → ⊥ }
    ensures few { FewBetween [] ea01 (copies_between 199) }
    ensures many { FewBetween [] ea01 (copies_between 200) → ⊥ }
{}

/// A log of one entry is shortened to none at the moment at which that is 66 hours old, and not a
/// second before, when it still keeps its message out. MOMENT alone tells nothing: a line may say
/// an earlier one, which has no effect behind the entry, and acts where it is left out.
pub fn a_shortened_log_leaves_out_what_is_66_hours_old()
    ensures old { LeavesOutOld 1735929600 one_entry [] }
    ensures young { LeavesOutOld 1735929599 one_entry [] → ⊥ }
    ensures kept_out { printed_copies (remembered_on Zero one_entry)
        (heard_at 1735929599 ea01 Full [] ∷ []) ≡ [] }
    ensures let_in { printed_copies (remembered_on Zero [])
        (heard_at 1735929599 ea01 Full [] ∷ []) ≡ heard_at 1735929599 ea01 Full [] ∷ [] }
    ensures heard { HearsFrom 1735929600 (moments_at 1735929600 (starts_at 1735929600 one_entry))
        (Some (moment 1735929600) ∷ []) }
    ensures not_heard { HearsFrom 1735929600
        (moments_at 1735929600 (starts_at 1735929600 one_entry))
        (Some (moment 1735929599) ∷ []) → ⊥ }
    ensures idle { acting_at 1735929600 one_entry (Some (moment 5) ∷ []) ≡ [] }
    ensures acts { acting_at 1735929600 [] (Some (moment 5) ∷ []) ≡ moment 5 ∷ [] }
{}

/// Where an entry that is left out stands behind one that stays, the whole log remembers the older
/// one alone, and the shorter log the newer one.
pub fn a_log_out_of_order_is_not_shortened_so()
    ensures chosen { chosen (asks_since 1735929600) (newer_entry ++ one_entry) ≡ newer_entry }
    ensures not_old { (moment : ℕ) → LeavesOutOld moment (newer_entry ++ one_entry) newer_entry → ⊥ }
    ensures whole { (starts_at 1735929600 (newer_entry ++ one_entry)).entries Zero
        ≡ remembered_on Zero one_entry }
    ensures shorter { (starts_at 1735929600 newer_entry).entries Zero
        ≡ remembered_on Zero newer_entry }
{}

/// A copy is over behind an entry where that is 66 hours old, and not a second before, unless 200
/// entries stand behind it; 199 are too few.
pub fn an_entry_is_over_after_66_hours_or_200_entries()
    ensures old { IsOver (entry_then 1735454400) 0 first_copy }
    ensures young { IsOver (entry_then 1735454401) 199 first_copy → ⊥ }
    ensures many { IsOver (entry_then 1735454401) 200 first_copy }
{}
