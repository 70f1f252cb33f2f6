//! Laws of logged entries. Each function does nothing; its contract is the law.

ghost use Rattle.std.specs.Prelude.{◌≡◌, ◌⊎◌, ℕ, ◌≤◌, ◌<◌, true, List, [], ◌∷◌, ◌++◌, length, take, All, Ok, Option, Result, Some};
ghost use Rattle.std.specs.FinSet as set;
ghost use Rattle.std.specs.Ordering.{nat_cmp};
ghost use Rattle.std.specs.Io.KnownBytes.{IsAtEnd};
ghost use Rattle.nx_code.specs.Lists.{last_of};
ghost use Rattle.nx_code.specs.Reading.{IsCapital};
ghost use Rattle.nx_envelope.specs.Moment.{IsShownAs};
ghost use Rattle.nx_fec.specs.air_files.AirFile.{Line};
ghost use Rattle.nx_fec.specs.Transfers.{Contents, read_to};
ghost use Rattle.nx_fec.specs.declared.air_files.channel.Channel.{Channel};
ghost use Rattle.nx_memory.specs.Memory.{most_entries};
ghost use Rattle.nx_memory.specs.Saved.{SavedStates};
ghost use Rattle.nx_memory.specs.declared.memories.entry.MemoryEntry.{MemoryEntry};
ghost use Rattle.nx_receiver.specs.air_file_runs.Chain.{GoesOn, Run};
ghost use Rattle.nx_copies.specs.copies.FoundCopies.{TaggedCopy};
ghost use Rattle.nx_copies.specs.copies.InTurn.{HavePrinted, PrintAllToEnd};
ghost use Rattle.nx_receiver.specs.air_file_runs.Listen.{AnswersListening, AreTaken, given_by};
ghost use Rattle.nx_copies.specs.copies.Printing.{entries_made, printed_copies};
ghost use Rattle.nx_receiver.specs.air_file_runs.Resume.{AnswersResuming};
ghost use Rattle.nx_copies.specs.copies.Shares.{MarkedCopy, Starts, saved_of};
ghost use Rattle.nx_receiver.specs.declared.air_file_runs.listen_fault.ListenFault.{ListenFault};
ghost use Rattle.nx_receiver.specs.declared.air_file_runs.listening.Report.{Report};
ghost use Rattle.nx_receiver.specs.declared.air_file_runs.resume_fault.ResumeFault.{ResumeFault};
ghost use Rattle.nx_receiver.specs.declared.air_file_runs.resume_fault.Want.TheVariants.{Log};
ghost use Rattle.nx_log.specs.Json.{IsPlacedLine};
ghost use Rattle.nx_log.specs.KeptLog.{HoldKept, StopKept};
ghost use Rattle.nx_log.specs.Logged.{IsLogged, IsLoggedAs, IsLogOfLogged, memory_entries, remembered_on};
ghost use Rattle.nx_log.specs.Places.{PlacedCopy};
ghost use Rattle.nx_log.specs.Query.{AreLetters, IsSetOf};
ghost use Rattle.nx_log.specs.Reading.{HoldEntries, HoldEntriesToEnd, IsNoBracket, StopAtLine, bracket};
ghost use Rattle.nx_log.specs.Runs.{ResumedEntries, WroteEntries};
ghost use Rattle.nx_log.specs.Salvage.{AreCut, BeginsAnew, BeginsBehind, IsPassedOver, Stretch};
ghost use Rattle.nx_log.specs.View.{IsViewOf, copy_said};
ghost use Rattle.nx_log.specs.declared.entries.entry.EntryView.{EntryView};
ghost use Rattle.nx_log.specs.declared.writing.places.Places.{Places};

pub mod faults;
pub mod runs;

/// A log is read in one way: its bytes are the log of one list of logged entries. No entry's bytes
/// begin another's, none is empty, and none has more than 4,146 bytes.
pub fn a_log_is_read_in_one_way()
    ensures one_list { (entries others : List MarkedCopy) (bytes : List ℕ)
        → IsLogOfLogged entries bytes → IsLogOfLogged others bytes → entries ≡ others }
    ensures one_entry { (one other : MarkedCopy) (bytes : List ℕ)
        → IsLoggedAs one bytes → IsLoggedAs other bytes → one ≡ other }
    ensures none_begins { (one other : MarkedCopy) (bytes more : List ℕ)
        → IsLoggedAs one bytes → IsLoggedAs other (bytes ++ more) → more ≡ [] }
    ensures some { (one : MarkedCopy) (bytes : List ℕ) → IsLoggedAs one bytes → 1 ≤ length bytes }
    ensures short { (one : MarkedCopy) (bytes : List ℕ) → IsLoggedAs one bytes
        → length bytes ≤ 4146 }
{}

/// Bytes are read in one way: they have one list of whole entries and one of torn ones, so far and
/// at their end. Where they stop being a log, they do so at one line, and don't hold the entries of
/// one.
pub fn bytes_are_read_in_one_way()
    ensures one_reading { (entries others : List MarkedCopy) (torn lines bytes : List ℕ)
        → HoldEntries bytes entries torn → HoldEntries bytes others lines
        → (entries ≡ others) × (torn ≡ lines) }
    ensures one_end { (entries others : List MarkedCopy) (torn lines bytes : List ℕ)
        → HoldEntriesToEnd bytes entries torn → HoldEntriesToEnd bytes others lines
        → (entries ≡ others) × (torn ≡ lines) }
    ensures one_line { (entries others : List MarkedCopy) (torn lines bytes : List ℕ)
        (line other : ℕ) → StopAtLine bytes entries torn line
        → StopAtLine bytes others lines other → line ≡ other }
    ensures stopped { (entries others : List MarkedCopy) (torn lines bytes : List ℕ) (line : ℕ)
        → StopAtLine bytes entries torn line → ¬ HoldEntries bytes others lines }
{}

/// A bracket begins an entry wherever it stands: each entry has one, its first byte, and no other.
pub fn a_bracket_begins_an_entry()
    ensures { (one : MarkedCopy) (bytes : List ℕ) → IsLoggedAs one bytes
        → (more : List ℕ) × (bytes ≡ bracket ∷ more) × All IsNoBracket more }
{}

/// A view has the bytes of its entry: so many, with which the bytes begin, whatever stands behind.
pub fn a_view_has_the_bytes_of_its_entry()
    ensures { (bytes : List ℕ) (view : EntryView) → IsViewOf bytes view
        → (entry : List ℕ) × (more : List ℕ) × (bytes ≡ entry ++ more)
        × (length entry ≡ view.len) × IsLoggedAs (copy_said view.head view.text.now) entry }
{}

/// A kept log is read in one way: its bytes hold one list of entries, each at its places. Where
/// they are damaged before their end, they hold those of none; and the entries that count are those
/// of the bytes before the damage.
pub fn a_kept_log_is_read_in_one_way()
    ensures one_reading { (from : ℕ) (entries others : List PlacedCopy) (bytes : List ℕ)
        → HoldKept from bytes entries → HoldKept from bytes others → entries ≡ others }
    ensures stopped { (from : ℕ) (entries others : List PlacedCopy) (bytes : List ℕ) (line : ℕ)
        (stop : StopKept from bytes entries line) → stop.place < length bytes
        → ¬ HoldKept from bytes others }
    ensures before { (from : ℕ) (entries others : List PlacedCopy) (bytes : List ℕ) (line : ℕ)
        (stop : StopKept from bytes entries line) → HoldKept from (take stop.place bytes) others
        → entries ≡ others }
{}

/// Where a log is damaged, all is passed over up to the next bracket, and no bracket with it.
pub fn damage_reaches_to_the_next_bracket()
    ensures { (bytes rest : List ℕ) (stretch : Stretch) (earlier : List Stretch)
        → AreCut bytes (stretch ∷ earlier) rest
        → (front : List ℕ) × (passed : List ℕ) × (bytes ≡ front ++ (passed ++ rest))
        × All IsNoBracket passed × ((rest ≡ []) ⊎ BeginsAnew rest) }
{}

/// Each stretch of a damaged log is passed over, to its end: it stops being a log at its line, and
/// no bracket stands from there on. Each but the first begins with the bracket up to which the one
/// before it was passed over.
pub fn each_stretch_is_passed_over_to_a_bracket()
    ensures { (bytes rest : List ℕ) (later earlier : List Stretch) (one : Stretch)
        → AreCut bytes (later ++ one ∷ earlier) rest
        → IsPassedOver one × BeginsBehind earlier one.bytes }
{}

/// A text that names letters names one at least, and nothing but letters A to Z.
pub fn a_text_names_letters()
    ensures some { (text : List ℕ) (letters : set.FinSet nat_cmp) → AreLetters text
        → IsSetOf text letters → (byte : ℕ) × (set.contains letters byte ≡ true) }
    ensures capitals { (text : List ℕ) (letters : set.FinSet nat_cmp) (byte : ℕ)
        → AreLetters text → IsSetOf text letters → set.contains letters byte ≡ true
        → IsCapital byte }
{}

/// An entry has one line of JSON, with its places and without them.
pub fn an_entry_has_one_json_line()
    ensures { (one : MarkedCopy) (places : Option Places) (line other : List ℕ)
        → IsPlacedLine one places line → IsPlacedLine one places other → line ≡ other }
{}

/// A civil time shows one moment.
pub fn a_text_shows_one_moment()
    ensures { (moment other : ℕ) (text : List ℕ) → IsShownAs moment text → IsShownAs other text
        → moment ≡ other }
{}

/// What is printed of lines that are taken is logged entries, while they come and at their end. So
/// what `listen` and `listen_from` write, and `resume` where it writes its log, is the log of
/// logged entries after each answer but a failed write, after which it begins one.
pub fn a_run_writes_a_log()
    ensures printed { (starts : Starts) (lines : List Line) (copies : List MarkedCopy)
        → AreTaken starts lines → HavePrinted starts (given_by lines) copies
        → All IsLogged copies }
    ensures closed { (starts : Starts) (lines : List Line) (copies : List MarkedCopy)
        → AreTaken starts lines → PrintAllToEnd starts (given_by lines) copies
        → All IsLogged copies }
    ensures listened { (starts : Starts) (left_after : Option (List ℕ)) (contents : Contents)
        (outcome : Result Report ListenFault) (bytes : List ℕ)
        → AnswersListening starts (read_to (IsAtEnd left_after)) contents outcome bytes
        → WroteEntries contents outcome }
    ensures resumed { (left_after : Option (List ℕ)) (contents : Contents)
        (outcome : Result Report ResumeFault) (input : List ℕ)
        → AnswersResuming Log (read_to (IsAtEnd left_after)) contents outcome input
        → ResumedEntries contents outcome }
{}

/// What a run writes behind a log makes it a longer one. Where the output held the log of logged
/// entries, `listen` and `listen_from` leave the log of these and more there, when they end well.
pub fn a_run_goes_on_with_a_log()
    ensures { (contents : Contents) (report : Report) (held : List MarkedCopy)
        (before after : List ℕ) → WroteEntries contents (Ok report)
        → contents.before ≡ Some before → contents.after ≡ Some after → IsLogOfLogged held before
        → (more : List MarkedCopy) × IsLogOfLogged (held ++ more) after }
{}

/// A log says what the memory of its run knew. The entries that are made of copies are those that
/// the printed ones keep. So, where a run started with entries on a channel, the entries after it
/// are the last 200 of these and what its log remembers of the channel.
pub fn a_log_remembers_what_its_run_entered()
    ensures made { (entries : List MemoryEntry) (copies : List TaggedCopy)
        → entries_made entries copies ≡ memory_entries (printed_copies entries copies) }
    ensures after { (saved left : SavedStates) (run : Run) (channel : Channel)
        → GoesOn saved run left
        → (saved_of left channel).entries
        ≡ last_of most_entries
        ((saved_of saved channel).entries ++ remembered_on channel run.printed) }
{}
