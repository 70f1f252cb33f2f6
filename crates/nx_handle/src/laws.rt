//! Laws of a receiver between calls, over the definitions, whatever the kind of its places. Each
//! function does nothing; its contract is the law.

ghost use Rattle.std.specs.Prelude.{◌≡◌, ℕ, List, [], ◌∷◌, ◌++◌, map, take, true};
ghost use Rattle.std.specs.List.{concat};
ghost use Rattle.nx_envelope.specs.Message.{MessageView};
ghost use Rattle.nx_fec.specs.air_files.Channels.{channel_number};
ghost use Rattle.nx_fec.specs.declared.air_files.channel.Channel.{Channel};
ghost use Rattle.nx_copies.specs.Events as events;
ghost use Rattle.nx_copies.specs.Events.{Command, command};
ghost use Rattle.nx_copies.specs.copies.InTurn.{PrintAllToEnd, PrintAllToEndBy};
ghost use Rattle.nx_copies.specs.copies.Log.{IsLog};
ghost use Rattle.nx_copies.specs.laws.Once.{IsHeardInTime, IsPrintedOnce};
ghost use Rattle.nx_copies.specs.copies.Shares.{Given, MarkedCopy, Starts, all_at_zero, copies_on, share, start_on, to_all, to_one};
ghost use Rattle.nx_station.specs.reception.Sendings.{Part};
ghost use Rattle.nx_handle.specs.Hearing.{AnswersHearing, elements_of};
ghost use Rattle.nx_handle.specs.Opening.{AnswersMoment, AnswersOpening};
ghost use Rattle.nx_handle.specs.Selecting.{AnswersSelecting};
ghost use Rattle.nx_handle.specs.CallerRoom.{Room};
ghost use Rattle.nx_handle.specs.WholeLife.{AreCloses, AreSteps, HasLogged, IsStep, LifeStep, given_in, step, texts_of};
ghost use Rattle.nx_handle.specs.Places.{HaveRoom, all_closed, all_hear};
ghost use Rattle.nx_handle.specs.declared.status.Status.{Status};

use crate::kept_place::KeptPlace;

/// Each call that is done is a step in the life of a receiver: what it gives, and the bytes that it
/// hands out.
pub fn each_call_is_a_step<P: KeptPlace>()
    ensures hears { (channel heard : ℕ) (bytes : List ℕ) (old new : List P) (log : Room)
        → AnswersHearing P.kind channel bytes old new heard log 0
        → (on : Channel) × (channel_number on ≡ channel)
        × IsStep P.kind old (step (to_one on (events.elements (elements_of (take heard bytes))))
        (take log.written log.new)) new }
    ensures moment { (moment : ℕ) (old new : List P)
        → AnswersMoment P.kind moment old new 0 (all_hear P.kind old)
        → IsStep P.kind old (step (to_all moment) []) new }
    ensures selects { (asked : Status) (one : Command) (channel : ℕ) (old new : List P)
        → AnswersSelecting P.kind asked one channel old new 0
        → (on : Channel) × (channel_number on ≡ channel)
        × IsStep P.kind old (step (to_one on (command one ∷ [])) []) new }
{}

/// What a receiver handed out since it was opened, and by closing, is the log of all that was given
/// to it. That is the moment at which it was opened, and what its calls gave, in order. As many
/// families are held a channel as there was room for.
pub fn a_whole_life_has_its_log<P: KeptPlace>()
    ensures log { (held moment : ℕ) (closed first last end : List P) (steps : List LifeStep)
        (texts : List (List ℕ)) → HaveRoom P.kind held closed
        → AnswersOpening P.kind moment closed first 0 → AreSteps P.kind first steps last
        → AreCloses P.kind last texts end → all_closed P.kind end ≡ true
        → (copies : List MarkedCopy)
        × PrintAllToEndBy (P.kind.printing held) all_at_zero (to_all moment ∷ given_in steps) copies
        × IsLog copies (texts_of steps ++ concat texts) }

    // And so with whatever it started.
    ensures from { (held : ℕ) (starts : Starts) (given : List Given) (first last end : List P)
        (steps : List LifeStep) (before : List ℕ) (texts : List (List ℕ))
        → HasLogged P.kind held starts first given before → AreSteps P.kind first steps last
        → AreCloses P.kind last texts end → all_closed P.kind end ≡ true
        → (copies : List MarkedCopy)
        × PrintAllToEndBy (P.kind.printing held) starts (given ++ given_in steps) copies
        × IsLog copies ((before ++ texts_of steps) ++ concat texts) }
{}

/// A message that is heard in time on a channel by a receiver, from its opening to its closing, has
/// exactly one entry of that channel in the log. The entry is full, has 0 errors, and its text is
/// the message's, letter for letter.
pub fn a_message_heard_in_a_life_has_one_entry()
    ensures { (starts : Starts) (given : List Given) (copies : List MarkedCopy) (channel : Channel)
        (parts : List Part) (message : MessageView) → PrintAllToEnd starts given copies
        → IsHeardInTime (start_on starts channel) (share channel given) parts message
        → IsPrintedOnce message (copies_on channel copies) }
{}
