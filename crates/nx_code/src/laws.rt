//! Laws of the definitions, each the contract of a function that does nothing.

ghost use Rattle.std.specs.Prelude.{◌≡◌, ◌<◌, ◌≤◌, ◌↔◌, ◌⊎◌, ℕ, Bool, List, [], ◌∷◌, ◌++◌, length, map, ◌==◌, None, IsSome, IsTrue};
ghost use Rattle.std.specs.Option.{option_to_list};
ghost use Rattle.std.specs.List.{list_all, list_any};
ghost use Rattle.nx_code.specs.Reading.{is_in_code, Reception, IsShiftAfter, combination, character_of, byte_of, shift_after_all, text};
ghost use Rattle.nx_code.specs.Spelling.{IsSilent, Spells};
ghost use Rattle.nx_code.specs.Word.{elements, number_of, signal_weight, weight};
ghost use Rattle.nx_code.specs.Signal.{number_of_signal};
ghost use Rattle.nx_code.specs.Table.{row_of, traffic_word, phasing_1, phasing_2, elements_of_phasing_1, elements_of_phasing_2};
ghost use Rattle.nx_code.specs.declared.signals.Comb.{Comb};
ghost use Rattle.nx_code.specs.declared.signals.Signal.TheVariants as signals;
ghost use Rattle.nx_code.specs.declared.shifts.Shift.{Shift};
ghost use Rattle.nx_code.specs.declared.shifts.Shift.TheVariants as shifts;

/// The reading of positions, by the nearest shift: each position prints in the shift that the
/// nearest position before it sets, and in the first shift where none does. There is one such shift
/// (M.476).
pub fn reading_by_nearest_shift()
    ensures nothing { (first : Shift) → text [] first ≡ [] }
    ensures one_more { (positions : List Reception) (position : Reception) (first shift : Shift)
        → IsShiftAfter positions first shift
        → text (positions ++ position ∷ []) first
        ≡ text positions first ++ option_to_list (byte_of position shift) }
    ensures some { (positions : List Reception) (first : Shift)
        → (shift : Shift) × IsShiftAfter positions first shift }
    ensures only { (positions : List Reception) (first one other : Shift)
        → IsShiftAfter positions first one → IsShiftAfter positions first other → one ≡ other }
{}

/// A word and its elements determine each other.
pub fn words_are_their_elements()
    ensures number { (word : ℕ) → word < 128 → number_of (elements word) ≡ word }
    ensures bits { (bits : List Bool) → length bits ≡ 7 → elements (number_of bits) ≡ bits }
{}

/// There are the combinations 1 to 32 and no others (M.476 and M.625, conversion tables). A
/// combination has a row at just these numbers, its word is that of its signal, and without a row
/// nothing is printed.
pub fn thirty_two_combinations()
    ensures rows { (number : ℕ) → IsSome (row_of number) ↔ ((1 ≤ number) × (number ≤ 32)) }
    ensures words { (comb : Comb)
        → traffic_word comb.number ≡ number_of_signal (signals.Traffic comb) }
    ensures no_word { (number : ℕ) → row_of number ≡ None → traffic_word number ≡ 128 }
    ensures no_character { (number : ℕ) (shift : Shift) → row_of number ≡ None
        → character_of number shift ≡ None }
{}

/// The phasing signals are the words of idle signal alpha and of signal repetition in the table,
/// their elements are those of their numbers, and both have the weight of a signal (M.476, M.625).
pub fn phasing_signals_are_in_the_table()
    ensures first_signal { number_of_signal signals.Alpha ≡ phasing_1 }
    ensures second_signal { number_of_signal signals.Repeat ≡ phasing_2 }
    ensures first_elements { elements phasing_1 ≡ elements_of_phasing_1 }
    ensures second_elements { elements phasing_2 ≡ elements_of_phasing_2 }
    ensures first_number { number_of elements_of_phasing_1 ≡ phasing_1 }
    ensures second_number { number_of elements_of_phasing_2 ≡ phasing_2 }
    ensures weights { (weight phasing_1 ≡ signal_weight)
        × (weight phasing_2 ≡ signal_weight) }
{}

/// What is printed of positions and then of more is what is printed of each, the later ones from
/// the shift in force after the earlier ones.
pub fn reading_goes_on()
    ensures text { (earlier later : List Reception) (first : Shift)
        → text (earlier ++ later) first
        ≡ text earlier first ++ text later (shift_after_all earlier first) }
    ensures shift { (earlier later : List Reception) (first : Shift)
        → shift_after_all (earlier ++ later) first
        ≡ shift_after_all later (shift_after_all earlier first) }
{}

/// A text has a spelling exactly where each of its bytes is in the code, and then it has one
/// (M.476, M.540; which of the spellings that are read alike is sent is this profile's).
pub fn a_text_has_one_spelling()
    ensures some { (bytes : List ℕ) (shift : Shift) → IsTrue (list_all is_in_code bytes)
        → (numbers : List ℕ) × Spells bytes shift numbers }
    ensures in_code { (bytes : List ℕ) (shift : Shift) (numbers : List ℕ)
        → Spells bytes shift numbers → IsTrue (list_all is_in_code bytes) }
    ensures only { (bytes : List ℕ) (shift : Shift) (one two : List ℕ)
        → Spells bytes shift one → Spells bytes shift two → one ≡ two }
{}

/// The combinations that no spelling has, since they are silent: 32 in both shifts, and the figures
/// of D, F, G, H and J (M.476; that these print nothing is this profile's).
pub fn silent_combinations()
    ensures { (shift : Shift) (number : ℕ) → 1 ≤ number → number ≤ 32
        → IsSilent shift number
        ↔ ((number ≡ 32) ⊎ ((shift ≡ shifts.Figures)
        × IsTrue (list_any (λ other. other == number) (4 ∷ 6 ∷ 7 ∷ 8 ∷ 10 ∷ [])))) }
{}

/// A spelling of a text, and then one of more text from the shift in force after it, is the
/// spelling of the whole (M.476, M.540).
pub fn a_spelling_goes_on()
    ensures whole { (one two : List ℕ) (from : Shift) (earlier later : List ℕ)
        → Spells one from earlier
        → Spells two (shift_after_all (map combination earlier) from) later
        → Spells (one ++ two) from (earlier ++ later) }
    ensures shift { (from : Shift) (earlier later : List ℕ)
        → shift_after_all (map combination (earlier ++ later)) from
        ≡ shift_after_all (map combination later) (shift_after_all (map combination earlier) from) }
{}
