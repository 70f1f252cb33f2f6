//! What combined copies promise: laws over the definitions alone, however many families are held.

ghost use Rattle.std.specs.Prelude.{◌≡◌, ◌+◌, ◌<◌, ◌≤◌, ◌++◌, ℕ, max, List, [], ◌∷◌, length, map, slice_get, None, Some, false, true};
ghost use Rattle.nx_code.specs.Reading.{Reception, combination};
ghost use Rattle.nx_combine.specs.CopyPositions.{HeardCopy, PlacedCopy};
ghost use Rattle.nx_envelope.specs.declared.identity.Identity.{Identity as TheIdentity};
ghost use Rattle.nx_combine.specs.Families.{CombinedCopy, Family, combined_copies_holding, given_by};
ghost use Rattle.nx_combine.specs.Families.{combined_copy_holding, families_after_holding};
ghost use Rattle.nx_combine.specs.Families.{last_index, most_positions};
ghost use Rattle.nx_combine.specs.Laws.{AreSendings, FewBegunHolding, IsGivenBy, IsSending, bears};
ghost use Rattle.nx_combine.specs.Laws.{families_behind_holding, positions_heard};
ghost use Rattle.nx_memory.specs.declared.memories.entry.MemoryEntry.{MemoryEntry};
ghost use Rattle.nx_copies.specs.Events.{Event, Start};
ghost use Rattle.nx_copies.specs.copies.Log.{printed_of};
ghost use Rattle.nx_copies.specs.copies.Printing.{is_better, is_remembered};
ghost use Rattle.nx_combine.specs.CombinedPrinting.{if_printed_combined, is_printed_combined, printed_combined};
ghost use Rattle.nx_combine.specs.CombinedPrinting.{printed_of_placed_holding};
ghost use Rattle.nx_combine.specs.Judging.{Judged, all_printed_holding, judged_behind_holding};
ghost use Rattle.nx_combine.specs.Laws.{AreHeardTogetherHolding, IsWholeOnce, text_sent};
ghost use Rattle.nx_combine.specs.Laws.{IsLastWhole, IsOfPrinted, IsWholeCopy};
ghost use Rattle.nx_combine.specs.Laws.{copies_of_family, is_own_better};
ghost use Rattle.nx_fec.specs.Transfers.{count_of};
ghost use Rattle.nx_combine.specs.Joining.{is_of_one_text, joined};
ghost use Rattle.nx_combine.specs.PositionEnds.{ending_by, has_ended, up_to_end};
ghost use Rattle.nx_combine.specs.Laws.{CameThrough, IsHeardOf, RunOnAlike, joined_all};
ghost use Rattle.std.specs.List.{AllByRecursion};
ghost use Rattle.nx_combine.specs.Laws.{AreAllTakenAlike, InventNothing, IsWhole, LosesNoIdle, joined_where};

/// The joined list has the length of the longer one, and at each index what both give; behind the
/// shorter one, what the longer one has.
pub fn positions_are_joined_by_index()
    ensures long { (first second : List Reception) → length (joined first second)
        ≡ max (length first) (length second) }
    ensures each { (first second : List Reception) (index : ℕ)
        → slice_get (joined first second) index
        ≡ joined_where (slice_get first index) (slice_get second index) }
{}

/// Nothing is invented: each combination that a combined copy has was taken at that index by a copy
/// of its family.
pub fn nothing_is_invented()
    ensures { (held : ℕ) (copies : List HeardCopy)
        → InventNothing (combined_copies_holding held [] copies) }
{}

/// No combined copy is worse than its copy. Where a list of positions and those of a copy that
/// joins them took nothing otherwise at any index, each combination stays as it was. And so does a
/// full text with no error, letter for letter, where no idle position of it is lost in the copy.
pub fn no_combined_copy_is_worse()
    ensures own { (held : ℕ) (families : List Family) (heard : HeardCopy)
        → is_better heard.copy (combined_copy_holding held families heard).copy ≡ false }
    ensures stays { (first second : List Reception) (index number : ℕ)
        → AreAllTakenAlike first second → slice_get first index ≡ Some (combination number)
        → slice_get (joined first second) index ≡ Some (combination number) }
    ensures whole { (first second : List Reception)
        → AreAllTakenAlike first second → LosesNoIdle first second → IsWhole first
        → ending_by (joined first second) ≡ ending_by first }
{}

/// The sendings of a message make a whole. Copies took no other combinations than those that were
/// sent, as far as these go, up to the marker that ends them. Then what is joined of them and one
/// more copy are of one text, where no two took two combinations behind that. And
/// where each combination came through in one of them, the joined list gives the text that was
/// sent, and nothing else. A combined copy that is given by such positions has that text, full and
/// without an error.
pub fn sendings_make_a_whole()
    ensures of_one_text { (sent : List ℕ) (copies : List (List Reception)) (next : List Reception)
        → AllByRecursion (IsHeardOf sent) copies → IsHeardOf sent next
        → AllByRecursion (λ positions. RunOnAlike sent positions next) copies
        → is_of_one_text (up_to_end (joined_all copies)) next ≡ true }
    ensures whole { (sent : List ℕ) (copies : List (List Reception))
        → has_ended (map combination sent) ≡ true → AllByRecursion (IsHeardOf sent) copies
        → CameThrough sent copies
        → ending_by (joined_all copies) ≡ ending_by (map combination sent) }
    ensures printed { (sent positions : List Reception) (one : CombinedCopy)
        → ending_by positions ≡ ending_by sent → IsWhole sent → IsGivenBy positions one
        → one.copy ≡ given_by sent one.own.copy }
{}

/// The sendings of a message make one family, whatever is heard between them. No family of its
/// identity was begun before the first of them; they lie within 66 hours of it, and fewer families
/// than are held are begun between it and any later one. Then what each later one joins is the
/// joined list of all of them up to it.
pub fn sendings_make_one_family()
    ensures { (held : ℕ) (sent : List ℕ) (behind : ℕ → ℕ) (identity : TheIdentity)
        (families : List Family) (first : HeardCopy) (copies : List HeardCopy)
        → last_index identity families ≡ None → bears identity first ≡ true
        → IsSending sent behind first.copy.moment first
        → AreSendings sent behind first.copy.moment identity copies
        → FewBegunHolding held identity (length families + 1)
        (families_after_holding held families first) copies
        → (mid later : List HeardCopy) (one : HeardCopy) → copies ≡ mid ++ one ∷ later
        → bears identity one ≡ true
        → IsGivenBy
        (joined_all ((first.positions ∷ positions_heard identity mid) ++ one.positions ∷ []))
        (combined_copy_holding held
        (families_behind_holding held (families_after_holding held families first) mid) one) }
{}

/// A combined copy that its family gives is put together from all copies of the family up to it,
/// and so many sendings it has. One that stands for itself has one: the copy itself is better than
/// what its family gives, or it has no family.
pub fn sendings_are_copies_of_a_family()
    ensures given { (held : ℕ) (copies : List HeardCopy) (before later : List CombinedCopy)
        (one : CombinedCopy) → combined_copies_holding held [] copies ≡ before ++ one ∷ later
        → (number : ℕ) → one.family ≡ Some number → is_own_better one ≡ false
        → one.sendings ≡ count_of (copies_of_family one before + 1) }
    ensures own { (held : ℕ) (families : List Family) (heard : HeardCopy)
        → is_own_better (combined_copy_holding held families heard) ≡ true
        → (combined_copy_holding held families heard).sendings ≡ 1 }
    ensures alone { (held : ℕ) (families : List Family) (heard : HeardCopy)
        → (combined_copy_holding held families heard).family ≡ None
        → (combined_copy_holding held families heard).sendings ≡ 1 }
{}

/// A whole combined copy, full and without an error, is printed, or the last one of its family that
/// was printed is whole. And behind a whole one nothing of its family is printed, while an entry of
/// its identity is live.
pub fn whole_copies_are_printed_once()
    ensures printed { (entries : List MemoryEntry) (before : List CombinedCopy) (one : CombinedCopy)
        → IsWholeCopy one → IsOfPrinted entries before one
        → IsLastWhole (if_printed_combined entries before one ++ before) one }
    ensures nothing_behind { (entries : List MemoryEntry) (before : List CombinedCopy)
        (one : CombinedCopy) → IsLastWhole before one → 0 < one.copy.identity.number
        → is_remembered entries one.copy ≡ true
        → is_printed_combined entries before one ≡ false }
{}

/// What is left of copies that are judged one after the other is what the definition of the log
/// says of all of them: the combined copies that are printed are those of the list.
pub fn copies_are_judged_in_order()
    ensures { (held : ℕ) (so_far : Judged) (copies : List HeardCopy)
        → all_printed_holding held so_far copies
        ≡ printed_combined so_far.entries so_far.printed
        (combined_copies_holding held so_far.families copies) }
{}

/// A message is printed whole once, letter for letter, and nothing of it afterwards, whatever else
/// is heard. Its copies are sendings that are heard together, and with one of them the last of its
/// combinations came through.
pub fn a_message_is_printed_whole_once()
    ensures { (held : ℕ) (sent : List ℕ) (behind : ℕ → ℕ) (identity : TheIdentity)
        (so_far : Judged) (first : HeardCopy) (copies : List HeardCopy)
        → AreHeardTogetherHolding held sent behind identity so_far first copies
        → has_ended (map combination sent) ≡ true → IsWhole (map combination sent)
        → (mid later : List HeardCopy) (one : HeardCopy) → first ∷ copies ≡ mid ++ one ∷ later
        → bears identity one ≡ true
        → CameThrough sent (positions_heard identity (mid ++ one ∷ []))
        → IsWholeOnce identity (text_sent sent) (all_printed_holding held so_far (mid ++ one ∷ []))
        (all_printed_holding held (judged_behind_holding held so_far (mid ++ one ∷ [])) later) }
{}

/// Where no family is held, each copy is judged alone: it comes to itself. Of copies that have at
/// most 8,192 positions that is printed which is printed without taking any together.
pub fn without_families_each_copy_is_alone()
    ensures itself { (families : List Family) (heard : HeardCopy)
        → (combined_copy_holding 0 families heard).copy ≡ heard.copy }
    ensures printed { (start : Start) (events : List Event) (copies : List PlacedCopy)
        → AllByRecursion (λ (one : PlacedCopy). length one.positions ≤ most_positions) copies
        → printed_of_placed_holding 0 start events copies
        ≡ printed_of start events (map (λ (one : PlacedCopy). one.found) copies) }
{}
