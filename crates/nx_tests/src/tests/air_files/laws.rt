//! Each law is a call that does nothing.

use nx_fec::laws;

/// Each law is called once.
#[test]
fn laws_hold(_rt: HostRuntime) {
    laws::emissions();
    laws::words_and_bits();
    laws::receptions_of_emissions();
    laws::decoded_emissions();
    laws::one_spelling();
    laws::one_reading();
    laws::one_outcome();
    laws::reading_of_writing();
    laws::decoding_of_encoding();
    laws::dx_words_of_locks();
    laws::causes_of_faults();
    laws::writes_in_turn();
}
