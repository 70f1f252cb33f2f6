//! Laws of the log of an air file, over the definitions. Each function does nothing; its contract
//! is the law.

ghost use Rattle.std.specs.Prelude.{◌≡◌, ℕ, List, Option};
ghost use Rattle.nx_envelope.specs.Message.{MessageView};
ghost use Rattle.nx_fec.specs.air_files.AirFile.{Line};
ghost use Rattle.nx_fec.specs.air_files.Lines.{IsAirFile, air_limit};
ghost use Rattle.nx_fec.specs.declared.air_files.channel.Channel.{Channel};
ghost use Rattle.nx_fec.specs.declared.air_files.channel.Channel.TheVariants.{Zero};
ghost use Rattle.nx_fec.specs.Transfers.{Contents};
ghost use Rattle.nx_station.specs.reception.PathExample.{example_message};
ghost use Rattle.nx_receiver.specs.air_file_runs.Listen.{AreTaken, HasListenFault, HasLogged, IsLogOf, IsLogOfFile, IsLogOfLines, given_by, moment_after};
ghost use Rattle.nx_promises.specs.examples.AirFile.{example_air_file};
ghost use Rattle.nx_receiver.specs.Listener.{moment_in_force};
ghost use Rattle.nx_receiver.specs.air_file_runs.ListenOnce.{IsHeardInTimeOn};
ghost use Rattle.nx_copies.specs.laws.Once.{IsPrintedOnce};
ghost use Rattle.nx_copies.specs.copies.Shares.{MarkedCopy, Starts, all_at_zero, copies_on};
ghost use Rattle.nx_promises.specs.examples.Emission.{worked_log};
ghost use Rattle.nx_receiver.specs.declared.air_file_runs.listen_fault.ListenFault.{ListenFault};

/// An air file has one log, with whatever three receivers start: there is one, wherever each line
/// is taken after those before it, and no other. And so have lines after which nothing is closed.
pub fn an_air_file_has_one_log()
    ensures some { (starts : Starts) (bytes : List ℕ) (lines : List Line)
        → IsAirFile air_limit bytes lines → AreTaken starts lines
        → (log : List ℕ) × IsLogOf starts bytes log }
    ensures one { (starts : Starts) (bytes log other : List ℕ) → IsLogOf starts bytes log
        → IsLogOf starts bytes other → log ≡ other }
    ensures some_open { (starts : Starts) (lines : List Line) → AreTaken starts lines
        → (log : List ℕ) × IsLogOfLines starts lines log }
    ensures one_open { (starts : Starts) (lines : List Line) (log other : List ℕ)
        → IsLogOfLines starts lines log → IsLogOfLines starts lines other → log ≡ other }
{}

/// An air file has one outcome, with whatever three receivers start: its first fault, by its bytes
/// alone, is one, whatever was written; and a file that has a log has none.
pub fn an_air_file_has_one_outcome()
    ensures fault { (starts : Starts) (bytes : List ℕ) (why other : ListenFault)
        → HasListenFault starts (AreTaken starts) bytes why
        → HasListenFault starts (AreTaken starts) bytes other → why ≡ other }
    ensures log { (starts : Starts) (bytes log : List ℕ) (why : ListenFault)
        → IsLogOf starts bytes log → HasListenFault starts (AreTaken starts) bytes why → ⊥ }
    ensures written { (starts : Starts) (contents : Contents) (bytes : List ℕ)
        (why : ListenFault) → HasListenFault starts (HasLogged starts contents) bytes why
        → HasListenFault starts (AreTaken starts) bytes why }
{}

/// A message that is heard in time on a channel of an air file has exactly one entry of that
/// channel in the log of the file. The entry is full, has 0 errors, and its text is the message's,
/// letter for letter.
pub fn a_message_heard_in_time_has_one_entry()
    ensures { (starts : Starts) (file log : List ℕ) (lines : List Line) (copies : List MarkedCopy)
        (channel : Channel) (message : MessageView) → IsLogOfFile starts file lines copies log
        → IsHeardInTimeOn channel starts file message
        → IsPrintedOnce message (copies_on channel copies) }
{}

/// There is an air file with such a message: EA01 with the line TEST, each of whose DX words is
/// damaged. Its log is that one entry, in 42 bytes.
pub fn there_is_an_air_file_with_a_message_heard_in_time()
    ensures heard { IsHeardInTimeOn Zero all_at_zero example_air_file example_message }
    ensures log { IsLogOf all_at_zero example_air_file worked_log }
{}

/// The moment in force after lines is the one in force after what they give.
pub fn lines_tell_the_moment_in_force()
    ensures { (first : ℕ) (lines : List Line)
        → moment_in_force first (given_by lines) ≡ moment_after first lines }
{}
