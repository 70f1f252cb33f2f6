//! Each law is a call that does nothing.

use nx_sync::laws;

#[test]
fn laws_hold() {
    laws::patterns_have_these_numbers();
    laws::what_stands_is_unique();
    laws::more_bits_keep_the_past();
    laws::a_step_is_unique();
    laws::a_word_is_appended();
    laws::what_stood_goes_on();
    laws::one_bit_more();
    laws::a_lock_stands_on();
    laws::the_earlier_releases();
    laws::a_good_lock_is_kept();
    laws::a_hunt_locks_in_phasing();
    laws::a_lock_between_limits_is_lost();
    laws::a_lock_with_swapped_roles_ends();
    laws::a_right_lock_stays();
    laws::phasing_locks();
}
