//! Laws of the definitions, each the contract of a function that does nothing.
ghost use Rattle.std.specs.Prelude.{◌≡◌, ◌≢◌, ◌≤◌, ◌++◌, ◌⊎◌, ℕ, Bool, List, length, map};
ghost use Rattle.std.specs.List.{AllByRecursion, flat_map};
ghost use Rattle.nx_code.specs.Reading.{combination, shift_after_all, text};
ghost use Rattle.nx_code.specs.declared.shifts.Shift.{Shift};
ghost use Rattle.nx_code.specs.declared.shifts.Shift.TheVariants.{Letters};
ghost use Rattle.nx_envelope.specs.Message.{AreLines, MessageView};
ghost use Rattle.nx_fec.specs.emissions.Emission.{SentPosition, reception};
ghost use Rattle.nx_station.specs.Broadcast.{IsBroadcast, IsSpelled, printed_text};
ghost use Rattle.nx_station.specs.MessageFile.{FileMessage, FileFault, IsMessageFile, HasFirstFault};
ghost use Rattle.nx_fec.specs.air_files.AirFile.{Line};
ghost use Rattle.nx_fec.specs.air_files.Lines.{IsAirFile, elements_on};
ghost use Rattle.nx_fec.specs.Runs.{file_limit};
ghost use Rattle.nx_fec.specs.air_files.Scanner.{kind_of};
ghost use Rattle.nx_fec.specs.declared.air_files.channel.Channel.{Channel};
ghost use Rattle.nx_fec.specs.declared.air_files.channel.Channel.TheVariants.{Zero};
ghost use Rattle.nx_station.specs.Damage.{Damage, IsDamaged, damaged_elements, damaged_lines};
ghost use Rattle.nx_station.specs.Checking.{IsChecked, station_line};
ghost use Rattle.nx_station.specs.FileSending.{IsTransmission};
ghost use Rattle.nx_station.specs.declared.sending.Sent.{Sent};
ghost use Rattle.nx_station.specs.StrictReading.{ExplainsEmission, IsEmissionOf, IsMemory};
ghost use Rattle.nx_station.specs.declared.fault.EmissionFault.{EmissionFault};

pub mod path;

/// A message file has one spelling, and one list of messages.
pub fn a_message_file_has_one_reading()
    ensures spelling { (one other : List ℕ) (entries : List FileMessage) → IsMessageFile one entries
        → IsMessageFile other entries → one ≡ other }
    ensures list { (bytes : List ℕ) (one other : List FileMessage) → IsMessageFile bytes one
        → IsMessageFile bytes other → one ≡ other }
{}

/// A file has one outcome: its messages, or one fault.
pub fn a_file_has_one_outcome()
    ensures messages { (bytes : List ℕ) (entries : List FileMessage) (why : FileFault)
        → IsMessageFile bytes entries → HasFirstFault bytes why → ⊥ }
    ensures fault { (bytes : List ℕ) (one other : FileFault) → HasFirstFault bytes one
        → HasFirstFault bytes other → one ≡ other }
{}

/// What is sent of a message reads back: its header, a newline, its text, NNNN and two newlines,
/// from whatever shift. It leaves letters in force, so the next message is read as well; phasing
/// and the end print nothing.
pub fn messages_read_back()
    ensures message { (message : MessageView) (numbers : List ℕ) (first : Shift)
        → IsSpelled message numbers
        → text (map combination numbers) first ≡ printed_text message }
    ensures shift { (message : MessageView) (numbers : List ℕ) (first : Shift)
        → IsSpelled message numbers
        → shift_after_all (map combination numbers) first ≡ Letters }
    ensures all { (messages : List MessageView) (positions : List SentPosition) (first : Shift)
        → IsBroadcast messages positions
        → text (map reception positions) first ≡ flat_map printed_text messages }
{}

/// Messages have one list of positions.
pub fn messages_have_one_broadcast()
    ensures some { (messages : List MessageView)
        → AllByRecursion (λ (message : MessageView). AreLines message.lines) messages
        → (positions : List SentPosition) × IsBroadcast messages positions }
    ensures only { (messages : List MessageView) (one other : List SentPosition)
        → IsBroadcast messages one → IsBroadcast messages other
        → one ≡ other }
{}

/// Elements are the emission of one list of messages at most, so strict reading of an emission
/// gives back what was sent; and they have one outcome: the messages, or one fault. Want of memory
/// excludes nothing.
pub fn an_emission_has_one_reading()
    ensures list { (bits : List Bool) (one other : List MessageView) → IsEmissionOf one bits
        → IsEmissionOf other bits → one ≡ other }
    ensures messages { (bits : List Bool) (messages : List MessageView) (why : EmissionFault)
        → IsEmissionOf messages bits
        → ExplainsEmission bits why → IsMemory why }
    ensures fault { (bits : List Bool) (one other : EmissionFault) → ExplainsEmission bits one
        → ExplainsEmission bits other
        → IsMemory one ⊎ (IsMemory other ⊎ (one ≡ other)) }
{}

/// Checking gives back what was sent. An air file that sending wrote of a message file keeps to the
/// limit of files that are checked, and is checked wherever it keeps to the limit. The report is
/// the line of the station and then the very bytes that were sent. An air file has one report.
pub fn checking_gives_back_what_was_sent()
    ensures within { (station from : ℕ) (file air : List ℕ) (sent : Sent)
        → IsTransmission station from file air sent → length air ≤ file_limit }
    ensures checked { (limit station from : ℕ) (file air : List ℕ) (sent : Sent)
        → IsTransmission station from file air sent
        → length air ≤ limit → IsChecked limit air (station_line station ++ file) sent.messages }
    ensures only { (limit : ℕ) (air one other : List ℕ) (m n : ℕ) → IsChecked limit air one m
        → IsChecked limit air other n
        → (one ≡ other) × (m ≡ n) }
    ensures back { (limit station from : ℕ) (file air text : List ℕ) (sent : Sent) (count : ℕ)
        → IsTransmission station from file air sent → IsChecked limit air text count
        → (text ≡ station_line station ++ file) × (count ≡ sent.messages) }
{}

/// Checking takes channel 0 alone, whatever else stands in the file. Two air files with the same
/// elements on channel 0 have the same report. So a file that has there the elements of an air file
/// that sending wrote is checked as that one is. The report is the line of the station and then the
/// very bytes that were sent.
pub fn checking_takes_channel_0_alone()
    ensures same { (limit most : ℕ) (one other text : List ℕ) (lines more : List Line) (count : ℕ)
        → IsAirFile limit one lines → IsAirFile most other more
        → flat_map (elements_on Zero) lines ≡ flat_map (elements_on Zero) more
        → IsChecked limit one text count → IsChecked most other text count }
    ensures sent { (limit most station from : ℕ) (file air other : List ℕ) (sent : Sent)
        (lines more : List Line) → IsTransmission station from file air sent
        → IsAirFile limit air lines → IsAirFile most other more
        → flat_map (elements_on Zero) lines ≡ flat_map (elements_on Zero) more
        → IsChecked most other (station_line station ++ file) sent.messages }
    ensures back { (limit most station from : ℕ) (file air other text : List ℕ) (sent : Sent)
        (lines more : List Line) (count : ℕ) → IsTransmission station from file air sent
        → IsAirFile limit air lines → IsAirFile most other more
        → flat_map (elements_on Zero) lines ≡ flat_map (elements_on Zero) more
        → IsChecked most other text count
        → (text ≡ station_line station ++ file) × (count ≡ sent.messages) }
{}

/// Damage changes the elements that it names on channel 0 and nothing else, and twice it changes
/// nothing. Over lines, what is damaged again with the same damage is what was there. The elements
/// of all lines on channel 0 are damaged by their place among them all, and those on other channels
/// are as they were. Each line says what it said, and names the channel that it named.
pub fn damage_undoes_itself()
    ensures twice { (damage : Damage) (lines : List Line)
        → damaged_lines damage 0 (damaged_lines damage 0 lines) ≡ lines }
    ensures elements { (damage : Damage) (lines : List Line)
        → flat_map (elements_on Zero) (damaged_lines damage 0 lines)
        ≡ damaged_elements damage 0 (flat_map (elements_on Zero) lines) }
    ensures others { (damage : Damage) (lines : List Line) (channel : Channel) → channel ≢ Zero
        → flat_map (elements_on channel) (damaged_lines damage 0 lines)
        ≡ flat_map (elements_on channel) lines }
    ensures names { (damage : Damage) (lines : List Line)
        → map kind_of (damaged_lines damage 0 lines) ≡ map kind_of lines }
    ensures long { (damage : Damage) (place : ℕ) (bits : List Bool)
        → length (damaged_elements damage place bits) ≡ length bits }
    ensures files { (damage : Damage) (limit : ℕ) (air once twice : List ℕ) (m n : ℕ)
        → IsDamaged damage limit air once m
        → IsDamaged damage limit once twice n → twice ≡ air }
{}
