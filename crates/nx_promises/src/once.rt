//! Laws of messages that are sent, from the words of their emissions to what is printed of them.
//! Each function does nothing; its contract is the law.

ghost use Rattle.std.specs.Prelude.{◌≡◌, ◌↔◌, Bool, Contains, List, [], ◌∷◌, take};
ghost use Rattle.std.specs.List.{AllByRecursion, flat_map};
ghost use Rattle.nx_envelope.specs.Copies.{headers, errors_of};
ghost use Rattle.nx_envelope.specs.Header.{Header};
ghost use Rattle.nx_envelope.specs.Message.{AreLines, text_of, MessageView};
ghost use Rattle.nx_fec.specs.emissions.Emission.{bits_of};
ghost use Rattle.nx_station.specs.Broadcast.{printed_text};
ghost use Rattle.nx_station.specs.reception.PathExample.{example_message, example_parts};
ghost use Rattle.nx_station.specs.reception.Sendings.{IsCut, IsReceived, IsSending, Part, ReceivedEmission, Sending};
ghost use Rattle.nx_sync.specs.Locks.{IsNow, Lock, Now};
ghost use Rattle.nx_copies.specs.Events.{Event, Start};
ghost use Rattle.nx_copies.specs.copies.FoundCopies.{ended_so_far, found_to_end, TaggedCopy};
ghost use Rattle.nx_copies.specs.copies.Log.{PrintsToEnd};
ghost use Rattle.nx_copies.specs.laws.Once.{IsHeardInTime, IsPrintedOnce};
ghost use Rattle.nx_copies.specs.laws.Emissions.{HoldsThrough, IsHeaderOf, copies_at, copy_of_sending};
ghost use Rattle.nx_promises.specs.examples.Emission.{at_its_slot, damaged_words, heard_elements};

/// Under the channel a lock holds, whatever bits came before. It is the lock that the last 48
/// phasing words before the first message leave. It stands to the last bit of a received emission,
/// and so to the RX of the last message's fourth N.
pub fn a_received_emission_keeps_its_lock()
    ensures { (earlier : List Bool) (emission : ReceivedEmission) → IsReceived emission
        → HoldsThrough earlier emission.heard }
{}

/// Under the channel each sending gives exactly one copy that begins with its header, whatever bits
/// come before it and behind it. The copy has ended, is full, has 0 errors, and its text is the
/// message's, letter for letter.
pub fn each_sending_gives_one_copy()
    ensures found { (bits : List Bool) (parts : List Part) (sending : Sending) (locks : List Lock)
        (now : Now) → IsCut bits parts → IsSending parts sending → IsNow bits locks now
        → copies_at sending.place (found_to_end bits locks now) ≡ copy_of_sending sending ∷ [] }
    ensures ended { (bits : List Bool) (parts : List Part) (sending : Sending) (locks : List Lock)
        (now : Now) → IsCut bits parts → IsSending parts sending → IsNow bits locks now
        → copies_at sending.place (ended_so_far bits locks now) ≡ copy_of_sending sending ∷ [] }
    ensures errors { (bits : List Bool) (parts : List Part) (sending : Sending) → IsCut bits parts
        → IsSending parts sending → errors_of (text_of sending.message.lines) ≡ 0 }
{}

/// A message is printed once, over any list of gaps and received emissions: exactly one printed
/// copy bears its identity. That copy is full, has 0 errors, and its text is the message's, letter
/// for letter. It is so where the message isn't numbered 00, is selected at each of its sendings,
/// which lie within 66 hours while 200 identities suffice, and no other copy with its identity is
/// found.
pub fn a_message_is_printed_once()
    ensures { (start : Start) (events : List Event) (parts : List Part) (message : MessageView)
        (log : List TaggedCopy) → PrintsToEnd start events log
        → IsHeardInTime start events parts message → IsPrintedOnce message log }
{}

/// What has to be met, so that a message is printed once, can be met. EA01 with the line TEST meets
/// it, in the bits of its emission alone, of whose message each DX word is damaged.
pub fn there_is_a_message_heard_in_time()
    ensures { IsHeardInTime at_its_slot (heard_elements damaged_words)
        (example_parts (bits_of (take 96 damaged_words)) []) example_message }
{}

/// What is printed of messages, one after another, holds the header of each message, and no other.
pub fn printed_messages_hold_their_headers_alone()
    ensures { (messages : List MessageView) (header : Header) →
        AllByRecursion (λ (message : MessageView). AreLines message.lines) messages
        → Contains (headers (flat_map printed_text messages)) header ↔ IsHeaderOf messages header }
{}
