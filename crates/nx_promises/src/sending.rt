//! Laws that tie what a station sends to what a receiver prints. Each function does nothing; its
//! contract is the law.

ghost use Rattle.std.specs.Prelude.{◌≡◌, ℕ, ◌<◌, List, [], map};
ghost use Rattle.nx_envelope.specs.Message.{MessageView};
ghost use Rattle.nx_fec.specs.air_files.AirFile.{Line};
ghost use Rattle.nx_fec.specs.declared.air_files.channel.Channel.TheVariants.{Zero};
ghost use Rattle.nx_station.specs.Broadcast.{AreSpelled};
ghost use Rattle.nx_station.specs.FileSending.{IsTransmission};
ghost use Rattle.nx_station.specs.Sendable.{IsSendable};
ghost use Rattle.nx_station.specs.declared.sending.Sent.{Sent};
ghost use Rattle.nx_copies.specs.Events.{at_zero};
ghost use Rattle.nx_receiver.specs.air_file_runs.Listen.{IsLogOf, IsLogOfFile};
ghost use Rattle.nx_receiver.specs.air_file_runs.ListenOnce.{IsHeardInTimeOn};
ghost use Rattle.nx_copies.specs.laws.Once.{IsHeardInTime, IsPrintedOnce};
ghost use Rattle.nx_copies.specs.copies.Printing.{printed_copies};
ghost use Rattle.nx_promises.specs.laws.FromSend.{AreDifferent, BearsAlone, copy_as_sent, events_as_sent, parts_as_sent};
ghost use Rattle.nx_copies.specs.copies.Shares.{MarkedCopy, all_at_zero, copies_on, marked};

/// An emission that is heard as it is sent: each of its messages that isn't numbered 00, and that
/// alone bears its identity, is heard in time, at whatever moment.
pub fn an_emission_as_sent_is_heard_in_time()
    ensures { (messages : List MessageView) (spellings : List (List ℕ)) (slot : ℕ)
        (message : MessageView) → IsSendable messages → AreSpelled messages spellings
        → BearsAlone messages message → 0 < message.identity.number
        → IsHeardInTime at_zero (events_as_sent slot spellings)
        (parts_as_sent messages spellings) message }
{}

/// What is printed of what was sent: an air file that `send` wrote of a message file is listened to
/// without a fault, for it has a log. That log has the entries of what the rules of printing make
/// of its messages: one full copy of each, in order, at the moment of the slot. Where no two
/// messages bear one identity, it has all of these, and nothing else.
pub fn what_was_sent_is_printed()
    ensures log { (station from : ℕ) (file air : List ℕ) (sent : Sent)
        → IsTransmission station from file air sent
        → (log : List ℕ) × IsLogOf all_at_zero air log }
    ensures printed { (station from : ℕ) (file air log : List ℕ) (sent : Sent) (lines : List Line)
        (copies : List MarkedCopy) → (t : IsTransmission station from file air sent)
        → IsLogOfFile all_at_zero air lines copies log
        → copies ≡ map (marked Zero) (printed_copies [] (map (copy_as_sent sent.slot) t.messages)) }
    ensures different { (station from : ℕ) (file air log : List ℕ) (sent : Sent) (lines : List Line)
        (copies : List MarkedCopy) → (t : IsTransmission station from file air sent)
        → AreDifferent t.messages → IsLogOfFile all_at_zero air lines copies log
        → copies ≡ map (marked Zero) (map (copy_as_sent sent.slot) t.messages) }
{}

/// What was sent is printed once. Each message of an air file that `send` wrote, if it isn't
/// numbered 00 and alone bears its identity, is heard in time in that file. So what `listen`
/// promises of such a message holds of it. And the log of the file has one entry of it, and no
/// more: full, with 0 errors and its text, letter for letter.
pub fn what_was_sent_is_printed_once()
    ensures heard { (station from : ℕ) (file air : List ℕ) (sent : Sent) (message : MessageView)
        → (t : IsTransmission station from file air sent)
        → BearsAlone t.messages message → 0 < message.identity.number
        → IsHeardInTimeOn Zero all_at_zero air message }
    ensures once { (station from : ℕ) (file air log : List ℕ) (sent : Sent) (message : MessageView)
        (lines : List Line) (copies : List MarkedCopy)
        → (t : IsTransmission station from file air sent)
        → BearsAlone t.messages message → 0 < message.identity.number
        → IsLogOfFile all_at_zero air lines copies log
        → IsPrintedOnce message (copies_on Zero copies) }
{}
