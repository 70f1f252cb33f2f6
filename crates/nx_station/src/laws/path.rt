//! Laws of what a good enough path leaves of an emission, each the contract of a function that does
//! nothing.
ghost use Rattle.std.specs.Prelude.{◌≡◌, ◌≢◌, ℕ, ◌+◌, ◌-◌, ◌*◌, ◌%◌, ◌<◌, ◌≤◌, Bool, List, [], ◌∷◌, ◌++◌, Some, count_by, drop, length, slice_get, take};
ghost use Rattle.nx_code.specs.Table.{phasing_1, traffic_word};
ghost use Rattle.nx_code.specs.Word.{is_wrong, word_from, wrong_in};
ghost use Rattle.nx_envelope.specs.Message.{MessageView};
ghost use Rattle.nx_fec.specs.emissions.Emission.{SentPosition, bits_of, emission, position_at, reception, slots_of, word_sent, end_positions};
ghost use Rattle.nx_fec.specs.emissions.Pairing.{counts_as, pairing};
ghost use Rattle.nx_station.specs.Broadcast.{AreSpelled, IsBroadcast, digit_combination, layout};
ghost use Rattle.nx_station.specs.reception.Path.{PassesPath, first_slot, heard_in, message_slot, most_wrong, phasing_received, phasing_words, word_span};
ghost use Rattle.nx_station.specs.reception.PathExample.{example_emission, example_numbers, example_parts, example_sending, heard_half, heard_without_75};
ghost use Rattle.nx_station.specs.Sendable.{IsSendable};
ghost use Rattle.nx_station.specs.reception.Sendings.{IsCut, IsReceived, IsSending, ReceivedEmission, StandsFrom, digit_slot, positions_before};

/// Of what is received any 64 successive words from the first slot on, and any fewer, have at most
/// 35 of wrong weight. So have the last 64 words of a lock, up to each word of the first message or
/// later, whatever words of the lock came before the first slot. Here `whole` is the word of the
/// lock that is the first of the first message.
pub fn few_words_are_wrong()
    ensures few { (messages : List MessageView) (positions : List SentPosition) (heard : List ℕ)
        → IsBroadcast messages positions → PassesPath positions heard
        → (first n : ℕ) → n ≤ word_span
        → count_by is_wrong (take n (drop first heard)) ≤ most_wrong }
    ensures by_slots { (messages : List MessageView) (positions : List SentPosition)
        (heard : List ℕ)
        → IsBroadcast messages positions → PassesPath positions heard
        → (slot n : ℕ) → first_slot ≤ slot → n ≤ word_span → slot + n ≤ slots_of positions
        → wrong_in (heard_in heard) slot n ≤ most_wrong }
    ensures in_a_lock { (messages : List MessageView) (positions : List SentPosition)
        (heard : List ℕ)
        → IsBroadcast messages positions → PassesPath positions heard
        → (words : ℕ → ℕ) (whole : ℕ)
        → ((k slot : ℕ) → k + message_slot ≡ slot + whole → first_slot ≤ slot
        → slot < slots_of positions
        → words k ≡ heard_in heard slot)
        → (k slot : ℕ) → k + message_slot ≡ slot + whole → message_slot ≤ slot
        → slot < slots_of positions
        → wrong_in words (k + 1 - word_span) (k + 1 - (k + 1 - word_span)) ≤ most_wrong }
{}

/// No DX word that is received from the first slot on is phasing signal 1 before the positions of
/// the end, so no two in a row are. A word that is damaged has the wrong weight, and so is no
/// phasing signal.
pub fn no_phasing_1_before_the_end()
    ensures { (messages : List MessageView) (positions : List SentPosition) (heard : List ℕ)
        → IsBroadcast messages positions → PassesPath positions heard
        → (i : ℕ) → first_slot ≤ 2 * i → i + end_positions < length positions
        → heard_in heard (2 * i) ≢ phasing_1 }
{}

/// Each position that is received from the first slot on, but for those of the end, is taken as it
/// was sent: from its two words, in the slots 2i and 2i+5.
pub fn positions_are_taken_as_sent()
    ensures { (messages : List MessageView) (positions : List SentPosition) (heard : List ℕ)
        → IsBroadcast messages positions → PassesPath positions heard
        → (i : ℕ) → first_slot ≤ 2 * i → i + end_positions < length positions
        → pairing (counts_as (heard_in heard (2 * i))) (counts_as (heard_in heard (2 * i + 5)))
        ≡ reception (position_at positions i) }
{}

/// What is heard of an emission that is received begins with phasing words as sent. And each word
/// that is heard stands in the bits, whatever stands before and after.
pub fn words_stand_in_the_bits()
    ensures phasing { (messages : List MessageView) (positions : List SentPosition) (heard : List ℕ)
        → IsBroadcast messages positions → PassesPath positions heard
        → take (2 * phasing_received) heard ≡ phasing_words phasing_received }
    ensures word { (messages : List MessageView) (positions : List SentPosition) (heard : List ℕ)
        → IsBroadcast messages positions → PassesPath positions heard
        → (before after : List Bool) (slot : ℕ) → first_slot ≤ slot → slot < slots_of positions
        → word_from (before ++ (bits_of heard ++ after)) (length before + 7 * (slot - first_slot))
        ≡ heard_in heard slot }
{}

/// Each message of a list stands in the positions of the list, from the place that is counted by
/// those before it. The RX of its second digit is sent in the slot that a sending names.
pub fn messages_stand_in_their_emission()
    ensures stands { (messages : List MessageView) (spellings : List (List ℕ)) (i : ℕ)
        (message : MessageView)
        → AreSpelled messages spellings → slice_get messages i ≡ Some message
        → StandsFrom (layout spellings) message (positions_before (take i spellings)) }
    ensures digit { (messages : List MessageView) (spellings : List (List ℕ)) (i : ℕ)
        (message : MessageView)
        → AreSpelled messages spellings → slice_get messages i ≡ Some message
        → word_sent (layout spellings) (digit_slot spellings i)
        ≡ traffic_word (digit_combination (message.identity.number % 10)) }
    ensures within { (messages : List MessageView) (spellings : List (List ℕ)) (i : ℕ)
        (message : MessageView)
        → AreSpelled messages spellings → slice_get messages i ≡ Some message
        → digit_slot spellings i < slots_of (layout spellings) }
{}

/// An emission that arrives as it is sent is received: the bits of its slots before the
/// first belong to the gap before it, and those from there on are received. And what a station may
/// send is received, where it passes.
pub fn an_undamaged_emission_is_received()
    ensures passes { (messages : List MessageView) (positions : List SentPosition)
        → messages ≢ [] → IsBroadcast messages positions
        → PassesPath positions (drop first_slot (emission positions)) }
    ensures cut { (positions : List SentPosition) → bits_of (emission positions)
        ≡ bits_of (take first_slot (emission positions))
        ++ bits_of (drop first_slot (emission positions)) }
    ensures received { (emission : ReceivedEmission) → IsSendable emission.messages
        → AreSpelled emission.messages emission.spellings
        → PassesPath (layout emission.spellings) emission.heard → IsReceived emission }
{}

/// The definitions at a worked emission, of EA01 with the line TEST. It is received where the first
/// 96 words of its phasing, two thirds, are damaged or lost in any way, and one word of each
/// position of the message. Where both words of one position are damaged, it isn't.
pub fn an_example_is_received()
    ensures sendable { IsSendable example_emission.messages }
    ensures received { IsReceived example_emission }
    ensures cut { (before after : List Bool)
        → IsCut (before ++ (bits_of heard_half ++ after)) (example_parts before after) }
    ensures sending { (before after : List Bool)
        → IsSending (example_parts before after) (example_sending before) }
    ensures outside { PassesPath (layout (example_numbers ∷ [])) heard_without_75 → ⊥ }
{}
