//! What prints the words of a lock. What runs for some words at once is inlined always, since its
//! answers would go through memory otherwise.

ghost use Rattle.std.specs.Prelude.{◌≡◌, ◌+◌, ◌*◌, ◌<◌, ◌≤◌, ℕ, List, length, take, IfSome};
ghost use Rattle.nx_copies.specs.private.LockPrinter.{HasPrintedWords, PrintsLock};
ghost use Rattle.nx_copies.specs.copies.LockText.{AreNext};
ghost use Rattle.nx_copies.specs.ReadPositions.{IsPositionAt};
ghost use Rattle.nx_copies.specs.copies.AlikeWords.{count_alike};
ghost use Rattle.nx_copies.specs.private.AlikeClasses.{are_alike_by};
ghost use Rattle.nx_code.specs.Taken.{reception_of};
ghost use Rattle.nx_fec.specs.emissions.Pairing.{Counted, IsLatest, counts_as, third_last};
ghost use Rattle.nx_sync.specs.Words.{role_of};
ghost use Rattle.nx_sync.specs.Ahead.{ArePairs};
ghost use Rattle.nx_sync.specs.declared.step.Role.{Role};
ghost use Rattle.nx_sync.specs.declared.step.Role.TheVariants.{Dx as DxRole};

use nx_code::{FourPrinted, NO_CLASS, Printer, Taken, Word, class_of};
use nx_fec::{Diversity, Heard};
use nx_sync::Role;

/// A position that an RX word completes.
#[derive(Clone, Copy, Debug)]
pub struct ReadPosition {
    /// What is taken of it, by its class (`nx_code::class_of`): the number of a combination, 33
    /// for idle, and 0 where it is lost.
    pub class: u8,
    /// Whether its two words count alike: both as one combination, or both as idle.
    pub is_alike: bool,
}

/// Prints the words of a lock, DX and RX by turns: some at once by a call of its own, one alone by
/// its fields, in `LockReader::read_word`.
///
/// It holds the latest three DX words and the shift in force.
#[derive(Clone, Copy, Debug)]
pub(crate) struct LockPrinter {
    /// What arrived of the latest three DX words.
    pub(crate) diversity: Diversity,
    /// What prints the positions, in the shift in force.
    pub(crate) printer: Printer,
}

impl LockPrinter {
    /// A printer of a lock of which no word was heard yet.
    #[tactic(auto, unfolding(crate::specs::copies::LockText::dx_words, crate::specs::copies::LockText::positions))]
    pub(crate) fn new() -> LockPrinter
        ensures { (first : Role) (words : ℕ → ℕ) → PrintsLock result first words 0 }
    {
        LockPrinter {
            diversity: Diversity::new(),
            printer: Printer::new(),
        }
    }

    /// Takes the next words of the lock at once, DX and RX by turns, and answers the bytes that
    /// they print.
    #[inline(always)]
    pub(crate) fn print_words(&mut self, words: &[Word]) -> FourPrinted
        requires { ArePairs words.now }
        ensures printed { (first : Role) (before : ℕ → ℕ) (n : ℕ)
            → PrintsLock self.old first before n → AreNext first before n words.now
            → HasPrintedWords self.new first before n (length words.now)
            (take result.count result.bytes) }
        ensures count { 2 * result.count ≤ length words.now }
    {
        let mut printed = FourPrinted::none();
        for pair in 0..words.len() / 2 {
            self.print_pair(words[2 * pair], words[2 * pair + 1], &mut printed);
        }
        printed
    }

    /// The position that the next word of the lock completes, which has that role; a DX word
    /// completes none. The word isn't taken.
    #[inline(always)]
    pub(crate) fn position(&self, word: Word, role: Role) -> Option<ReadPosition>
        ensures is { (first : Role) (words : ℕ → ℕ) (n : ℕ) → PrintsLock self.now first words n
            → words n ≡ word → role ≡ role_of first n → IsPositionAt first words n result }
        ensures range { IfSome result (λ position. position.class < 34) }
    {
        match role {
            Role::Dx => None,
            Role::Rx => Some(ReadPosition {
                class: self.diversity.rx_by_word(word),
                is_alike: self.is_alike(word),
            }),
        }
    }

    /// Whether the two words count alike of the position that the next word completes as RX.
    #[inline(always)]
    fn is_alike(&self, word: Word) -> bool
        ensures { (sent : List Counted) → IsLatest self.now.diversity sent
            → result ≡ count_alike (third_last sent) (counts_as word) }
    {
        let class = self.diversity.rx_by_word(word);
        let mut diversity = self.diversity;
        let dx = diversity.rx(Heard::Wrong);
        alike_by(class, class_of(word), dx)
    }

    /// Takes the next two words of the lock, a DX word and an RX word, and appends the byte that
    /// they print, if they print one, to those of at most three pairs before them.
    #[inline(always)]
    fn print_pair(&mut self, dx: Word, rx: Word, printed: &mut FourPrinted)
        requires { printed.old.count < 4 }
        ensures printed { (first : Role) (words : ℕ → ℕ) (n count : ℕ)
            → HasPrintedWords self.old first words n count
            (take printed.old.count printed.old.bytes)
            → role_of first (n + count) ≡ DxRole → words (n + count) ≡ dx
            → words (n + count + 1) ≡ rx → HasPrintedWords self.new first words n (count + 2)
            (take printed.new.count printed.new.bytes) }
        ensures count { printed.new.count ≤ printed.old.count + 1 }
    {
        self.diversity.dx_by_word(dx);
        let class = self.diversity.rx_by_word(rx);
        self.printer.print_behind(class, printed);
    }
}

/// Whether the two words of a position count alike, by the class of the position, that of its RX
/// word, and what is taken of its DX word alone: none of these is lost.
#[inline(always)]
fn alike_by(class: u8, rx: u8, dx: Taken) -> bool
    ensures { result ≡ are_alike_by class rx (reception_of dx) }
{
    class != NO_CLASS && rx != NO_CLASS && dx != Taken::Lost
}
