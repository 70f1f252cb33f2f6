//! Laws of the text of a state, by its bytes, and of runs each of which begins with the text that
//! the one before it wrote. Each function does nothing; its contract is the law.

ghost use Rattle.std.specs.Prelude.{◌≡◌, ◌≢◌, ℕ, List, [], ◌++◌, Some, Result, Ok, Err};
ghost use Rattle.nx_fec.specs.Transfers.{whole_input};
ghost use Rattle.nx_fec.specs.declared.air_files.channel.Channel.{Channel};
ghost use Rattle.nx_memory.specs.Saved.{AreSavedStates, SavedStates};
ghost use Rattle.nx_memory.specs.StateText.{IsText1, IsText2};
ghost use Rattle.nx_receiver.specs.air_file_runs.Chain.{all_copies, all_printed};
ghost use Rattle.nx_copies.specs.copies.Log.{IsLog};
ghost use Rattle.nx_copies.specs.copies.Printing.{printed_copies};
ghost use Rattle.nx_receiver.specs.air_file_runs.Resume.{AnswersResuming, HasChain, IsTextChain, TextRun, WritesLog, WritesState, text_logs};
ghost use Rattle.nx_copies.specs.copies.Shares.{copies_on, saved_of};
ghost use Rattle.nx_receiver.specs.air_file_runs.State.{AnswersState, BeginsWithState, IsStateBytes, ended_lines, state_bytes};
ghost use Rattle.nx_receiver.specs.declared.air_file_runs.listening.Report.{Report};
ghost use Rattle.nx_receiver.specs.declared.air_file_runs.resume_fault.Want.TheVariants.{Log, State};
ghost use Rattle.nx_receiver.specs.declared.air_file_runs.state_fault.StateFault.{StateFault};
ghost use Rattle.nx_receiver.specs.declared.air_file_runs.state_fault.StateFault.TheVariants.{Read};

/// The bytes of a text of a state stand for one state, and of one version a state has one text.
/// What is written of a state is a text of it, and is read back as the same, whatever follows it.
/// No text begins another.
pub fn a_state_is_told_by_its_bytes()
    ensures one_state { (text : List ℕ) (states others : SavedStates)
        → IsStateBytes text states → IsStateBytes text others → states ≡ others }
    ensures one_text_1 { (lines others : List (List ℕ)) (states : SavedStates)
        → IsText1 lines states → IsText1 others states → ended_lines lines ≡ ended_lines others }
    ensures one_text_2 { (lines others : List (List ℕ)) (states : SavedStates)
        → IsText2 lines states → IsText2 others states → ended_lines lines ≡ ended_lines others }
    ensures written { (states : SavedStates) → AreSavedStates states
        → IsStateBytes (state_bytes states) states }
    ensures read_back { (states : SavedStates) (more : List ℕ) → AreSavedStates states
        → BeginsWithState (state_bytes states ++ more) states }
    ensures none_begins { (text more : List ℕ) (states others : SavedStates)
        → IsStateBytes text states → IsStateBytes (text ++ more) others → more ≡ [] }
{}

/// An input has one answer where no read fails: what the text of a state stands for with which it
/// begins, or the first fault, with its line.
pub fn an_input_has_one_state()
    ensures { (input : List ℕ) (answer other : Result SavedStates StateFault)
        → AnswersState whole_input input answer
        → AnswersState whole_input input other
        → answer ≢ Err Read → other ≢ Err Read → answer ≡ other }
{}

/// Runs that each begin with the text that the one before it wrote are a chain, though nothing but
/// texts is handed on. A chain of runs that begins with what the first text stands for reads the
/// same files and has the same logs. The last text stands for what that chain leaves. So all that
/// is said of the log of a chain holds of the joined logs: on each channel, they are what is
/// printed of all copies of the runs, in order.
pub fn texts_make_a_chain()
    ensures chain { (first last : List ℕ) (saved : SavedStates) (runs : List TextRun)
        → IsStateBytes first saved → IsTextChain first runs last → HasChain saved runs last }
    ensures log { (saved : SavedStates) (runs : List TextRun) (last : List ℕ)
        → (h : HasChain saved runs last) → IsLog (all_printed h.chain) (text_logs runs) }
    ensures printed { (saved : SavedStates) (runs : List TextRun) (last : List ℕ)
        (channel : Channel) → (h : HasChain saved runs last)
        → copies_on channel (all_printed h.chain)
        ≡ printed_copies (saved_of saved channel).entries (all_copies channel h.chain) }
{}

/// What a run that resumes writes of its whole input is such a log. Where it answers a report to
/// `Want::Log`, the input is the text of a state and an air file, and what it wrote is the log of
/// the two. And where it answers one to `Want::State`, what it wrote is the text of what they
/// leave.
pub fn a_run_writes_its_log_or_its_state()
    ensures log { (input old new : List ℕ) (report : Report)
        → AnswersResuming Log whole_input (record { before = Some old; after = Some new })
        (Ok report) input
        → (text air log : List ℕ) × (input ≡ text ++ air) × WritesLog text air log
        × (new ≡ old ++ log) }
    ensures state { (input old new : List ℕ) (report : Report)
        → AnswersResuming State whole_input (record { before = Some old; after = Some new })
        (Ok report) input
        → (text air state : List ℕ) × (input ≡ text ++ air) × WritesState text air state
        × (new ≡ old ++ state) }
{}
