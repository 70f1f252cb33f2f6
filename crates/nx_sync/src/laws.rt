//! Laws of the locks, over whole lists of bits. Each function does nothing; its contract is the
//! law. They show that the definition says what a receiver needs, and the crates above build on
//! them.

ghost use Rattle.std.specs.Prelude.{◌≡◌, ℕ, ◌+◌, ◌*◌, ◌/◌, ◌<◌, ◌≤◌, ◌↔◌, List, Bool, true, take, [], ◌∷◌, ◌++◌, length};
ghost use Rattle.nx_sync.specs.declared.step.Change.{Change as How};
ghost use Rattle.nx_sync.specs.declared.step.Role.{Role as RoleOf};
ghost use Rattle.nx_sync.specs.declared.step.Step.{Step};
ghost use Rattle.nx_code.specs.Word.{number_of, is_wrong, wrong_in};
ghost use Rattle.nx_code.specs.Table.{phasing_1};
ghost use Rattle.nx_sync.specs.Words.{word_begin, lock_words, words_heard, heard_word, marked_words, losing_count, word_of_lock, first_role, role_of, wrong_until};
ghost use Rattle.nx_sync.specs.Locks.{pattern_elements, before_dx, before_rx, hunting, locked, IsHunting, words_of_past, IsPattern, Finds, IsSecondPhasing1, EndedAt, LostAt, IsReleased, Lock, Past, Now, IsLocked, IsNow};
ghost use Rattle.nx_sync.specs.Steps.{Brings, IsStep, word_of_step};
ghost use Rattle.nx_sync.specs.Laws.{IsOnPhasing, IsBetweenLimits, IsReleasedBy, WhatStands, GoesOn, Stood, OneMore, phasing, LockedBeforeDx, Holds};

/// The two patterns as numbers, their oldest element in the least place.
pub fn patterns_have_these_numbers()
    ensures before_dx { number_of before_dx ≡ 0x1F987E6 }
    ensures before_rx { number_of before_rx ≡ 0xCC3F30F }
{}

/// After every list of bits something stands, and only one thing: the past locks, and hunting or a
/// lock.
pub fn what_stands_is_unique()
    ensures stands { (bits : List Bool) → WhatStands bits }
    ensures locks { (bits : List Bool) (locks others : List Lock) (now was : Now)
        → IsNow bits locks now → IsNow bits others was → locks ≡ others }
    ensures now { (bits : List Bool) (locks others : List Lock) (now was : Now)
        → IsNow bits locks now → IsNow bits others was → now ≡ was }
{}

/// More bits don't change what is past: the past locks, where a lock was found, what released it,
/// and the words that were heard whole. Each of these words keeps its role, and whether it is the
/// second DX word in a row that is phasing signal 1. At each, as many of the last ones are wrong as
/// before.
pub fn more_bits_keep_the_past()
    ensures past { (bits more : List Bool) (locks : List Lock) (p : ℕ) → Past bits locks p
        → Past (bits ++ more) locks p }
    ensures found { (bits more : List Bool) (p t : ℕ) → Finds bits p t → Finds (bits ++ more) p t }
    ensures released { (bits more : List Bool) (t w : ℕ) (how : How) → IsPattern bits t
        → IsReleased bits t w how → IsReleased (bits ++ more) t w how }
    ensures words { (bits more : List Bool) (t k : ℕ) → word_begin t (k + 1) ≤ length bits
        → word_of_lock (bits ++ more) t k ≡ word_of_lock bits t k }
    ensures roles { (bits more : List Bool) (t : ℕ) → IsPattern bits t
        → first_role (bits ++ more) t ≡ first_role bits t }
    ensures seconds { (bits more : List Bool) (t k : ℕ) → IsPattern bits t
        → word_begin t (k + 1) ≤ length bits
        → (IsSecondPhasing1 (first_role (bits ++ more) t) (word_of_lock (bits ++ more) t) k
        ↔ IsSecondPhasing1 (first_role bits t) (word_of_lock bits t) k) }
    ensures wrong { (bits more : List Bool) (t k : ℕ) → word_begin t (k + 1) ≤ length bits
        → wrong_until (word_of_lock (bits ++ more) t) k ≡ wrong_until (word_of_lock bits t) k }
{}

/// What an element brings is one thing.
pub fn a_step_is_unique()
    ensures { (bits : List Bool) (s r : Step) → IsStep bits s → IsStep bits r → s ≡ r }
{}

/// The words of a lock that were heard whole, with their roles, as a list. There are none where the
/// lock is found. Each step appends the word that it completes, the releasing step too, and no
/// other step changes the list; nor do bits that come later.
pub fn a_word_is_appended()
    ensures found { (bits : List Bool) (p t : ℕ) → Finds bits p t → length bits ≡ t
        → words_heard bits t ≡ [] }
    ensures stands { (bits : List Bool) (bit : Bool) (s : Step) (locks : List Lock) (p t : ℕ)
        → IsLocked bits locks p t → Brings (bits ++ bit ∷ []) s locks (locked p t)
        → words_heard (bits ++ bit ∷ []) t ≡ words_heard bits t ++ word_of_step s }
    ensures over { (bits : List Bool) (bit : Bool) (s : Step) (lock : Lock) (older : List Lock)
        (p q : ℕ) → IsLocked bits older p lock.at → IsHunting (bits ++ bit ∷ []) (lock ∷ older) q
        → Brings (bits ++ bit ∷ []) s (lock ∷ older) (hunting q)
        → words_of_past (bits ++ bit ∷ []) lock ≡ words_heard bits lock.at ++ word_of_step s }
    ensures next { (bits : List Bool) (t k : ℕ)
        → lock_words bits t (k + 1) ≡ lock_words bits t k ++ heard_word bits t k ∷ [] }
    ensures more { (bits more : List Bool) (t n : ℕ) → IsPattern bits t
        → word_begin t n ≤ length bits → lock_words (bits ++ more) t n ≡ lock_words bits t n }
{}

/// What stands after more bits comes from what stood: hunting goes on, finds a lock, or led to the
/// next past lock; a lock that stood still stands, or is the next past lock.
pub fn what_stood_goes_on()
    ensures stood { (bits more : List Bool) (locks : List Lock) (now : Now)
        → IsNow (bits ++ more) locks now → Stood bits locks now }
    ensures goes_on { (bits more : List Bool) (older locks : List Lock) (was now : Now)
        → IsNow bits older was → IsNow (bits ++ more) locks now → GoesOn older was locks now }
{}

/// One more bit leaves the past locks as they are, or adds the lock that it releases.
pub fn one_bit_more()
    ensures { (bits : List Bool) (bit : Bool) (older locks : List Lock) (was now : Now)
        → IsNow bits older was → IsNow (bits ++ bit ∷ []) locks now
        → OneMore (bits ++ bit ∷ []) older was locks now }
{}

/// A lock that stands goes on standing where each later word leaves fewer of the last words wrong
/// than lose it and is not the third word after a second phasing signal 1.
pub fn a_lock_stands_on()
    ensures { (bits more : List Bool) (locks : List Lock) (p t : ℕ) → IsLocked bits locks p t
        → ((k : ℕ) → length bits < word_begin t (k + 1)
        → word_begin t (k + 1) ≤ length (bits ++ more)
        → wrong_until (word_of_lock (bits ++ more) t) k < losing_count)
        → ((k : ℕ) → length bits < word_begin t (k + 4)
        → word_begin t (k + 4) ≤ length (bits ++ more)
        → IsSecondPhasing1 (first_role (bits ++ more) t) (word_of_lock (bits ++ more) t) k → ⊥)
        → IsLocked (bits ++ more) locks p t }
{}

/// A lock is released by one word at most, in one way: the earlier of the word of Ended and the
/// word of Lost. It holds exactly where none of its words that were heard whole is one of the two.
pub fn the_earlier_releases()
    ensures word { (bits : List Bool) (t v w : ℕ) (how other : How) → IsReleased bits t v how
        → IsReleased bits t w other → v ≡ w }
    ensures how { (bits : List Bool) (t v w : ℕ) (how other : How) → IsReleased bits t v how
        → IsReleased bits t w other → how ≡ other }
    ensures holds { (bits : List Bool) (t : ℕ) → (Holds bits t
        ↔ ((w : ℕ) → word_begin t (w + 1) ≤ length bits
        → (EndedAt (first_role bits t) (word_of_lock bits t) w → ⊥)
        × (LostAt (word_of_lock bits t) w → ⊥))) }
{}

/// A lock is not released while each run of its words, no longer than it marks, has fewer wrong
/// ones than lose it, and no two DX words in a row are phasing signal 1.
pub fn a_good_lock_is_kept()
    ensures { (bits : List Bool) (locks : List Lock) (p t : ℕ) → Past bits locks p → Finds bits p t
        → ((i n : ℕ) → n ≤ marked_words → word_begin t (i + n) ≤ length bits
        → wrong_in (word_of_lock bits t) i n < losing_count)
        → ((k : ℕ) → word_begin t (k + 3) ≤ length bits → role_of (first_role bits t) k ≡ RoleOf.Dx
        → word_of_lock bits t k ≡ phasing_1 → word_of_lock bits t (k + 2) ≡ phasing_1 → ⊥)
        → IsLocked bits locks p t }
{}

/// A hunt locks rightly in 48 phasing words as sent, whatever bits came before them. After 28 of
/// their bits or more, the search finds the next word limit, and the lock has the limits and roles
/// of the phasing.
pub fn a_hunt_locks_in_phasing()
    ensures { (earlier : List Bool) (i p : ℕ) (locks : List Lock)
        → pattern_elements ≤ i → i < 336
        → IsHunting (earlier ++ take i (phasing 24)) locks p
        → Finds (earlier ++ phasing 24) p (length earlier + 7 * (i / 7 + 1))
        × IsOnPhasing (earlier ++ phasing 24) (length earlier) (length earlier + 7 * (i / 7 + 1)) }
{}

/// A lock on other word limits than those of 48 phasing words as sent meets only wrong words in
/// them. So it is released, at the latest, by the last of as many of these as lose it.
pub fn a_lock_between_limits_is_lost()
    ensures wrong { (earlier : List Bool) (t : ℕ) → IsPattern (earlier ++ phasing 24) t
        → IsBetweenLimits (length earlier) t
        → (k : ℕ) → length earlier ≤ word_begin t k → word_begin t (k + 1) ≤ length earlier + 336
        → is_wrong (word_of_lock (earlier ++ phasing 24) t k) ≡ true }
    ensures released { (earlier : List Bool) (t : ℕ) → IsPattern (earlier ++ phasing 24) t
        → IsBetweenLimits (length earlier) t
        → IsReleasedBy (earlier ++ phasing 24) t (length earlier + (6 + 7 * losing_count)) }
{}

/// A lock on the word limits of 48 phasing words as sent, but with swapped roles, has phasing
/// signal 1 in its DX words. So it is released by the seventh of the 48 words at the latest.
pub fn a_lock_with_swapped_roles_ends()
    ensures second { (earlier : List Bool) (t k : ℕ) → word_begin t k ≡ length earlier
        → role_of (first_role (earlier ++ phasing 24) t) k ≡ RoleOf.Rx
        → IsSecondPhasing1 (first_role (earlier ++ phasing 24) t)
        (word_of_lock (earlier ++ phasing 24) t) (k + 3) }
    ensures released { (earlier : List Bool) (t k : ℕ) → word_begin t k ≡ length earlier
        → role_of (first_role (earlier ++ phasing 24) t) k ≡ RoleOf.Rx
        → IsReleasedBy (earlier ++ phasing 24) t (length earlier + 49) }
{}

/// A lock on the word limits and roles of 48 phasing words as sent, which stands after 28 of their
/// bits or more, stands after all of them.
pub fn a_right_lock_stays()
    ensures { (earlier : List Bool) (i p t : ℕ) (locks : List Lock)
        → pattern_elements ≤ i → i ≤ 336
        → IsLocked (earlier ++ take i (phasing 24)) locks p t
        → IsOnPhasing (earlier ++ phasing 24) (length earlier) t
        → IsLocked (earlier ++ phasing 24) locks p t }
{}

/// 48 phasing words as sent (P2 P1, 24 times) leave a lock on their word limits and with P2 as DX,
/// whatever bits came before them.
pub fn phasing_locks()
    ensures { (earlier : List Bool) → LockedBeforeDx (earlier ++ phasing 24) }
{}
