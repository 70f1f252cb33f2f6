//! Each law of the receiver is called once.

use nx_memory::PlainRecall;
use nx_promises as laws;
use nx_promises::{chain, channels, listening, once, resuming, sending};

#[test]
fn laws_of_the_log() {
    laws::a_text_is_read_of_positions();
    laws::locks_share_nothing();
    laws::the_end_closes_the_open_copy();
    laws::more_events_keep_the_log();
    laws::there_is_one_log();
    laws::logs_go_on();
    laws::repeats_are_printed_once();
    laws::there_are_repeats();
    laws::a_worked_emission_is_printed();
    laws::cuttings_print_the_same::<PlainRecall>();
}

#[test]
fn laws_of_sending() {
    sending::an_emission_as_sent_is_heard_in_time();
    sending::what_was_sent_is_printed();
    sending::what_was_sent_is_printed_once();
}

#[test]
fn laws_of_once() {
    once::a_received_emission_keeps_its_lock();
    once::each_sending_gives_one_copy();
    once::a_message_is_printed_once();
    once::printed_messages_hold_their_headers_alone();
    once::there_is_a_message_heard_in_time();
}

#[test]
fn laws_of_listening() {
    listening::an_air_file_has_one_log();
    listening::an_air_file_has_one_outcome();
    listening::a_message_heard_in_time_has_one_entry();
    listening::there_is_an_air_file_with_a_message_heard_in_time();
}

#[test]
fn laws_of_channels() {
    channels::each_channel_has_its_log();
    channels::channels_share_nothing();
    channels::a_file_without_channels_has_the_log_of_one_receiver();
    channels::two_channels_are_logged();
}

#[test]
fn laws_of_chains() {
    chain::the_last_entries_decide();
    chain::copies_are_printed_in_turn();
    chain::a_chain_logs_its_joined_copies();
    chain::a_run_goes_on_from_what_is_saved();
    chain::a_receiver_holds_what_it_leaves::<PlainRecall>();
    chain::a_chain_is_told_by_its_files();
    chain::a_message_heard_over_runs_has_one_entry();
    chain::there_is_a_chain_with_a_message_heard_in_time();
    chain::there_is_a_message_heard_again_after_66_hours();
}

#[test]
fn laws_of_resuming() {
    resuming::a_state_is_told_by_its_bytes();
    resuming::an_input_has_one_state();
    resuming::texts_make_a_chain();
    resuming::a_run_writes_its_log_or_its_state();
}
