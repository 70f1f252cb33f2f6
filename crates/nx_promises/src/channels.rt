//! Laws of three channels. Each function does nothing; its contract is the law.

ghost use Rattle.std.specs.Prelude.{◌≡◌, ℕ, List, None, map};
ghost use Rattle.std.specs.List.{AllByRecursion, flat_map};
ghost use Rattle.nx_fec.specs.air_files.AirFile.{Line};
ghost use Rattle.nx_fec.specs.air_files.Lines.{file_of};
ghost use Rattle.nx_fec.specs.declared.air_files.channel.Channel.{Channel};
ghost use Rattle.nx_fec.specs.declared.air_files.channel.Channel.TheVariants.{Zero};
ghost use Rattle.nx_promises.specs.examples.Channels.{two_channels, two_channels_log};
ghost use Rattle.nx_copies.specs.copies.FoundCopies.{TaggedCopy};
ghost use Rattle.nx_copies.specs.copies.InTurn.{PrintAllToEnd, PrintsInTurn};
ghost use Rattle.nx_copies.specs.laws.LawTerms.{events_said, named_by};
ghost use Rattle.nx_receiver.specs.air_file_runs.Listen.{IsLogOf, IsLogOfFile, events_on};
ghost use Rattle.nx_copies.specs.copies.Log.{PrintsToEnd};
ghost use Rattle.nx_copies.specs.copies.Shares.{Given, MarkedCopy, Starts, all_at_zero, copies_on, marked, share, start_on};

/// Each channel has its own log: on each, the entries are what is printed of its share alone. What
/// is given has one log of three channels, so the shares and the order tell it.
pub fn each_channel_has_its_log()
    ensures share { (starts : Starts) (given : List Given) (copies : List MarkedCopy)
        (channel : Channel) → PrintAllToEnd starts given copies
        → PrintsToEnd (start_on starts channel) (share channel given) (copies_on channel copies) }
    ensures some { (starts : Starts) (given : List Given)
        → (copies : List MarkedCopy) × PrintAllToEnd starts given copies }
    ensures one { (starts : Starts) (given : List Given) (copies other : List MarkedCopy)
        → PrintAllToEnd starts given copies → PrintAllToEnd starts given other → copies ≡ other }
    ensures some_open { (starts : Starts) (given : List Given)
        → (copies : List MarkedCopy) × PrintsInTurn starts given copies }
    ensures one_open { (starts : Starts) (given : List Given) (copies other : List MarkedCopy)
        → PrintsInTurn starts given copies → PrintsInTurn starts given other → copies ≡ other }
{}

/// Channels don't disturb each other: of two air files whose lines have the same share for a
/// channel, the logs have the same entries on that channel, whatever the lines of the others are.
pub fn channels_share_nothing()
    ensures { (starts others : Starts) (file other log same : List ℕ) (lines more : List Line)
        (copies those : List MarkedCopy) (channel : Channel)
        → start_on starts channel ≡ start_on others channel
        → events_on channel lines ≡ events_on channel more
        → IsLogOfFile starts file lines copies log → IsLogOfFile others other more those same
        → copies_on channel copies ≡ copies_on channel those }
{}

/// A file of version 1, whose lines name no channel, has the log that it had: its entries bear no
/// mark, and are what one receiver prints of all that its lines say.
pub fn a_file_without_channels_has_the_log_of_one_receiver()
    ensures { (starts : Starts) (file log : List ℕ) (lines : List Line) (copies : List MarkedCopy)
        → AllByRecursion (λ line. named_by line ≡ None) lines
        → IsLogOfFile starts file lines copies log
        → (printed : List TaggedCopy) × (copies ≡ map (marked Zero) printed)
        × PrintsToEnd (start_on starts Zero) (flat_map events_said lines) printed }
{}

/// The definitions on a worked air file of two channels: EA01 with the line TEST is heard on
/// channel 0 and on channel 1, line by line. The log is the entry of channel 0, and then the same
/// with the mark of channel 1.
pub fn two_channels_are_logged()
    ensures { IsLogOf all_at_zero (file_of two_channels) two_channels_log }
{}
