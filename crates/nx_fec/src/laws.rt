//! Laws of emissions, of their decoding, of air files and of devices, over their definitions: each
//! is the contract of a function that does nothing.

ghost use Rattle.std.specs.Prelude.{◌≡◌, ◌+◌, ◌-◌, ◌*◌, ◌^◌, ◌≤◌, Bool, List, ℕ, [], ◌∷◌, ◌++◌, Option, length, map, min, slice_index, take};
ghost use Rattle.std.specs.Io.KnownBytes.{Appends};
ghost use Rattle.nx_code.specs.Reading.{combination, idle, text};
ghost use Rattle.nx_code.specs.declared.shifts.Shift.TheVariants.{Letters};
ghost use Rattle.nx_fec.specs.air_files.AirFile.{IsLine, Line, spelling};
ghost use Rattle.nx_fec.specs.emissions.Aligned.{AreWhole, aligned_text, dx_words, receptions, words_of};
ghost use Rattle.nx_fec.specs.emissions.Pairing.{five_before, counts_as, third_last};
ghost use Rattle.nx_fec.specs.air_files.BitLines.{bit_lines};
ghost use Rattle.nx_fec.specs.Transfers.{WroteSome};
ghost use Rattle.nx_fec.specs.emissions.Emission.{AreCombinations, AreInCode, AreWords, IsEmission, SentPosition, bits_of, emission, framed_positions, reception};
ghost use Rattle.nx_fec.specs.air_files.Lines.{HasFault, IsAirFile, IsAtByte, IsBitFile, IsCause, Splits, file_of};
ghost use Rattle.nx_fec.specs.Runs.{IsDecoded, IsEncoded};
ghost use Rattle.nx_fec.specs.declared.fault.LineFault.{LineFault};

/// Each list of positions has an emission, and no other.
pub fn emissions()
    ensures one { (positions : List SentPosition) → IsEmission positions (emission positions) }
    ensures only { (positions : List SentPosition) (sent : List ℕ) → IsEmission positions sent
        → sent ≡ emission positions }
    ensures sound { (positions : List SentPosition) → AreInCode positions
        → AreWords (emission positions) }
{}

/// Words and their elements give each other back.
pub fn words_and_bits()
    ensures words { (sent : List ℕ) → AreWords sent → words_of (bits_of sent) ≡ sent }
    ensures whole { (sent : List ℕ) → AreWhole (bits_of sent) }
    ensures bits { (bits : List Bool) → AreWhole bits → bits_of (words_of bits) ≡ bits }
    ensures sound { (bits : List Bool) → AreWords (words_of bits) }
{}

/// What is taken of an emission all of whose words arrive, read from slot 0. First come two idle
/// positions, whose DX words weren't seen, and then all positions but the last three, whose RX
/// words aren't sent.
pub fn receptions_of_emissions()
    ensures { (positions : List SentPosition) → AreInCode positions → 3 ≤ length positions
        → receptions (emission positions)
        ≡ idle ∷ idle ∷ map reception (take (length positions - 3) positions) }
{}

/// Nothing is lost of combinations that are sent alone: the text of their emission is their text.
pub fn decoded_emissions()
    ensures { (numbers : List ℕ) → AreCombinations numbers
        → aligned_text (words_of (bits_of (emission (framed_positions numbers))))
        ≡ text (map combination numbers) Letters }
{}

/// Each line has a spelling of its own.
pub fn one_spelling()
    ensures { (a b : Line) → IsLine a → IsLine b → spelling a ≡ spelling b → a ≡ b }
{}

/// Bytes are lines and the beginning of one more in one way only.
pub fn one_reading()
    ensures { (bytes : List ℕ) (a b : List Line) (x y : List ℕ) → Splits bytes a x
        → Splits bytes b y
        → (a ≡ b) × (x ≡ y) }
{}

/// A file has one outcome: one fault, or no fault and one list of elements.
pub fn one_outcome()
    ensures fault { (limit : ℕ) (bytes : List ℕ) (a b : LineFault) → HasFault limit bytes a
        → HasFault limit bytes b → a ≡ b }
    ensures lines { (limit : ℕ) (bytes : List ℕ) (lines : List Line) (why : LineFault)
        → IsAirFile limit bytes lines → HasFault limit bytes why → ⊥ }
    // What stands before a fault has none at a byte of its own: so the fault is the one at the
    // earliest byte.
    ensures earliest { (limit : ℕ) (front : List ℕ) (lines : List Line) (rest : List ℕ)
        (why : LineFault)
        → Splits front lines rest
        → length front ≤ limit → IsAtByte why → HasFault limit front why → ⊥ }
    ensures elements { (limit : ℕ) (bytes : List ℕ) (a b : List Bool) → IsBitFile limit bytes a
        → IsBitFile limit bytes b → a ≡ b }
{}

/// What is written of elements is an air file with these elements, where it keeps to the limit.
pub fn reading_of_writing()
    ensures { (limit : ℕ) (bits : List Bool) → length (file_of (bit_lines bits)) ≤ limit
        → IsBitFile limit (file_of (bit_lines bits)) bits }
{}

/// Decoding gives back what was encoded, wherever its file keeps to the limit; and a file has one
/// text.
pub fn decoding_of_encoding()
    ensures text { (limit : ℕ) (text file : List ℕ) (positions : ℕ) → IsEncoded text file positions
        → length file ≤ limit → IsDecoded limit file text }
    ensures only { (limit : ℕ) (file a b : List ℕ) → IsDecoded limit file a → IsDecoded limit file b
        → a ≡ b }
{}

/// The third last of the DX words before RX word k is word k-5, and unseen where k < 5, whichever
/// role the first word of a lock has. The first DX word of a lock is word 0, or word 1 where the
/// lock begins with an RX word. So `Diversity`, which is given the DX words one by one, pairs each
/// RX word with the word five before it.
pub fn dx_words_of_locks()
    ensures third_last { (words : List ℕ) (first count : ℕ) → first ≤ 1
        → third_last (dx_words words first count) ≡ five_before (slice_index words)
        (2 * count + first - 1) }
    ensures none { (words : List ℕ) (first : ℕ) → dx_words words first 0 ≡ [] }
    ensures next { (words : List ℕ) (first count : ℕ) → dx_words words first (count + 1)
        ≡ dx_words words first count ++ counts_as (slice_index words (2 * count + first)) ∷ [] }
    ensures longer { (words more : List ℕ) (first count : ℕ) → 2 * count + first ≤ length words + 1
        → dx_words (words ++ more) first count ≡ dx_words words first count }
{}

/// Where a cause stands after good lines and the beginning of one more, it is the fault of the
/// file, whatever follows.
pub fn causes_of_faults()
    ensures { (limit : ℕ) (bytes : List ℕ) (lines : List Line) (rest more : List ℕ)
        (why : LineFault)
        → Splits bytes lines rest
        → IsCause limit (length bytes) lines rest more why → HasFault limit (bytes ++ more) why }
{}

/// What was written before counts with what a failed write took; and what was to follow it changes
/// nothing.
pub fn writes_in_turn()
    ensures after { (a b c : Option (List ℕ)) (xs ys : List ℕ) (written : ℕ) → Appends a b xs
        → WroteSome b c ys written
        → WroteSome a c (xs ++ ys) (min (length xs + written) (2 ^ 64 - 1)) }
    ensures before { (a b : Option (List ℕ)) (xs ys : List ℕ) (written : ℕ)
        → WroteSome a b xs written
        → WroteSome a b (xs ++ ys) written }
{}
