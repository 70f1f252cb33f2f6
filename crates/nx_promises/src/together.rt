//! Laws of several sendings that are taken together, from the words of their emissions to what is
//! printed of them. Each function does nothing; its contract is the law.

ghost use Rattle.nx_promises.specs.examples.Emission.{at_its_slot, heard_elements};
ghost use Rattle.nx_promises.specs.examples.Together.{twice_heard, twice_parts};
ghost use Rattle.nx_station.specs.reception.PathExample.{example_message, example_numbers};
ghost use Rattle.std.specs.Prelude.{ℕ, Bool, List, [], ◌∷◌, ◌++◌};
ghost use Rattle.nx_envelope.specs.Message.{MessageView};
ghost use Rattle.nx_station.specs.reception.Sendings.{IsReceived, Part, ReceivedEmission};
ghost use Rattle.nx_copies.specs.laws.Emissions.{HoldsThrough};
ghost use Rattle.nx_combine.specs.CopyPositions.{PlacedCopy};
ghost use Rattle.nx_copies.specs.Events.{Event, Setting, Start};
ghost use Rattle.nx_copies.specs.copies.FoundCopies.{TaggedCopy};
ghost use Rattle.nx_combine.specs.CombinedPrinting.{HasPrintedCombined, PrintsCombinedToEnd, combined};
ghost use Rattle.nx_copies.specs.copies.Shares.{MarkedCopy, Starts, copies_on, start_on};
ghost use Rattle.nx_fec.specs.air_files.AirFile.{Line};
ghost use Rattle.nx_fec.specs.declared.air_files.channel.Channel.{Channel};
ghost use Rattle.nx_receiver.specs.air_file_runs.Listen.{IsLogOfFileBy};
ghost use Rattle.nx_promises.specs.laws.Together.{IsHeardTogether, IsHeardTogetherOn, IsPrintedWholeOnce, IsThroughWith};
ghost use Rattle.nx_combine.specs.CopyPositions.{ended_placed, placed_to_end};
ghost use Rattle.nx_combine.specs.Laws.{Arrives, IsHeardOf, IsNeverIdle};
ghost use Rattle.nx_sync.specs.Locks.{IsNow, Lock, Now};
ghost use Rattle.nx_promises.specs.laws.Together.{IsFoundAt, IsHeaderHeard, IsSeenCut, IsSentIn, heard_with};
ghost use Rattle.nx_promises.specs.laws.Together.{AreTakenOf, IsCopyOf, IsSeen, Reaches, behind_digit};

/// Over a visible path a lock holds, whatever bits came before, though both words of a
/// position may be lost. It is the lock that the last 48 phasing words before the first message
/// leave, and it stands to the last bit. What passes the path is visible too.
pub fn a_visible_emission_keeps_its_lock()
    ensures holds { (earlier : List Bool) (emission : ReceivedEmission) → IsSeen emission
        → HoldsThrough earlier emission.heard }
    ensures received { (emission : ReceivedEmission) → IsReceived emission → IsSeen emission }
{}

/// Of a copy at the place of a sending that is visible, each position behind the header is as it
/// was sent where one of its two words is heard so, and else lost, whatever bits come before and
/// behind, and in whichever way its lock ended. So what the copy took is what was sent, and it has
/// nothing idle where something was sent. What one word says is taken as far as the positions
/// reach: to the last N, but for what is left out behind a lost lock or behind an end of the text.
pub fn a_visible_sending_is_as_sent_or_lost()
    ensures taken { (bits : List Bool) (parts : List Part) (message : MessageView)
        (numbers : List ℕ) (copy : PlacedCopy) (is : IsCopyOf bits parts message numbers copy)
        → AreTakenOf is.sending.sent.emission is.sending.sent.index numbers copy.positions }
    ensures as_sent { (bits : List Bool) (parts : List Part) (message : MessageView)
        (numbers : List ℕ) (copy : PlacedCopy) → IsCopyOf bits parts message numbers copy
        → IsHeardOf (behind_digit numbers) copy.positions }
    ensures never_idle { (bits : List Bool) (parts : List Part) (message : MessageView)
        (numbers : List ℕ) (copy : PlacedCopy) → IsCopyOf bits parts message numbers copy
        → IsNeverIdle (behind_digit numbers) copy.positions }
    ensures reaches { (bits : List Bool) (parts : List Part) (message : MessageView)
        (numbers : List ℕ) (copy : PlacedCopy) (is : IsCopyOf bits parts message numbers copy)
        → Reaches numbers is.locks copy }
{}

/// A visible sending is found, whatever bits come before it and behind it, where each position of
/// its header has one word that is heard as sent. There is a copy then with its identity, at its
/// place. And a copy at the place of a visible sending arrives: where it is full, or its positions
/// give a full text, it is what they give.
pub fn a_visible_sending_arrives()
    ensures found { (bits : List Bool) (parts : List Part) (message : MessageView)
        (numbers : List ℕ) (place : ℕ) (locks : List Lock) (now : Now) → IsSeenCut bits parts
        → (sending : IsSentIn parts message numbers place)
        → IsHeaderHeard sending.sent.emission sending.sent.index → IsNow bits locks now
        → IsFoundAt message.identity place (placed_to_end bits locks now) }
    ensures arrives { (bits : List Bool) (parts : List Part) (message : MessageView)
        (numbers : List ℕ) (copy : PlacedCopy) → IsCopyOf bits parts message numbers copy
        → (setting : Setting) → Arrives (behind_digit numbers) (heard_with setting copy) }
{}

/// A message is printed whole once, letter for letter, from the bits of its sendings on, though
/// each of them may have lost other letters; and nothing of it is printed afterwards. It is so
/// where the sendings are visible and heard together. It is printed with the copy with which the
/// last of its combinations came through, at the latest. So it is of the copies that have ended so
/// far, and of all copies where the events end.
pub fn a_message_heard_together_is_printed_whole_once()
    ensures so_far { (start : Start) (events : List Event) (parts : List Part)
        (message : MessageView) (numbers : List ℕ)
        (heard : IsHeardTogether ended_placed start events parts message numbers)
        (came : IsThroughWith (behind_digit numbers) message.identity (heard.first ∷ heard.later))
        (log : List TaggedCopy) → HasPrintedCombined start events log
        → IsPrintedWholeOnce message start (heard.before ++ (came.up_to ++ came.one ∷ []))
        came.rest log }
    ensures to_end { (start : Start) (events : List Event) (parts : List Part)
        (message : MessageView) (numbers : List ℕ)
        (heard : IsHeardTogether placed_to_end start events parts message numbers)
        (came : IsThroughWith (behind_digit numbers) message.identity (heard.first ∷ heard.later))
        (log : List TaggedCopy) → PrintsCombinedToEnd start events log
        → IsPrintedWholeOnce message start (heard.before ++ (came.up_to ++ came.one ∷ []))
        came.rest log }
{}

/// The same of an air file: of each channel of a file that `listen --combine` reads to its end, a
/// message that is heard together there is printed whole once among the entries of the channel.
pub fn a_log_has_a_message_heard_together_whole_once()
    ensures { (channel : Channel) (starts : Starts) (file log : List ℕ) (lines : List Line)
        (copies : List MarkedCopy) (message : MessageView) (numbers : List ℕ)
        (on : IsHeardTogetherOn channel starts lines message numbers)
        → IsLogOfFileBy combined starts file lines copies log
        → IsPrintedWholeOnce message (start_on starts channel)
        (on.heard.before ++ (on.came.up_to ++ on.came.one ∷ [])) on.came.rest
        (copies_on channel copies) }
{}

/// What has to be met, so that a message is printed whole once, can be met where no copy is whole.
/// EA01 with the line TEST is sent twice in one emission. In the first sending both words of its
/// first T are lost, and in the second those of its E.
pub fn there_is_a_message_heard_together()
    ensures { (heard : IsHeardTogether placed_to_end at_its_slot (heard_elements twice_heard)
        twice_parts example_message example_numbers)
        × IsThroughWith (behind_digit example_numbers) example_message.identity
        (heard.first ∷ heard.later) }
{}
