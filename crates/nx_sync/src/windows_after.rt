//! The window after more elements. A window is the last 28 elements as a number, the oldest in the
//! least place. The plain rule is `next_window`, element by element, and each faster form is proved
//! to be what the rule gives. All but `windows_after` are inlined always, since a call would cost
//! more than its few instructions.

ghost use Rattle.std.specs.Prelude.{◌≡◌, ℕ, ◌+◌, ◌^◌, ◌<◌, ◌≤◌, length, take, slice_index};
ghost use Rattle.nx_code.specs.Packed.{packed_elements};
ghost use Rattle.nx_code.specs.Word.{elements_from};
ghost use Rattle.nx_sync.specs.Locks.{pattern_elements};
ghost use Rattle.nx_sync.specs.private.Eight.{window_after_words};
ghost use Rattle.nx_sync.specs.private.Windows as spec;

use crate::phasing::PATTERN;
use nx_code::{WORDS_AT_ONCE, Word};

/// How many elements are hunted through at once. A pattern that ends at one of them has the seven
/// elements before the first of them in it.
pub(crate) const STRIDE: usize = 21;

/// The window after one more element: the oldest one goes, and each other one moves a place down.
#[inline(always)]
pub(crate) fn next_window(window: u32, bit: bool) -> u32
    requires { window < 2 ^ pattern_elements }
    ensures value { result ≡ spec.next_window window bit }
    ensures within { result < 2 ^ pattern_elements }
{
    (window >> 1) + (u32::from(bit) << (PATTERN - 1))
}

/// The windows after each of these elements, at most 21 of them, by the rule.
pub(crate) fn windows_after(window: u32, bits: &[bool]) -> [u32; STRIDE]
    requires window { window < 2 ^ pattern_elements }
    requires few { length bits.now ≤ 21 }
    ensures values { (k : ℕ) → k < length bits.now
        → slice_index result k ≡ spec.window_after window (take (k + 1) bits.now) }
    ensures within { (k : ℕ) → k < length bits.now → slice_index result k < 2 ^ pattern_elements }
{
    let mut windows = [0; STRIDE];
    let mut last = window;
    for place in 0..bits.len() {
        last = next_window(last, bits[place]);
        windows[place] = last;
    }
    windows
}

/// The window after 21 elements, which is the last one that the rule gives.
#[inline(always)]
pub(crate) fn window_after_stride(window: u32, bits: &[bool]) -> u32
    requires window { window < 2 ^ pattern_elements }
    requires stride { length bits.now ≡ 21 }
    ensures value { result ≡ spec.window_after window bits.now }
    ensures within { result < 2 ^ pattern_elements }
{
    let mut number = 0;
    for place in (0..STRIDE).rev() {
        number = 2 * number + u32::from(bits[place]);
    }
    (window >> 21) + (number << 7)
}

/// The window after one more word, which is what the rule gives for its seven elements.
#[inline(always)]
pub(crate) fn next_word_window(window: u32, word: Word) -> u32
    requires { window < 2 ^ pattern_elements }
    ensures value { result ≡ spec.next_word_window window word }
    ensures within { result < 2 ^ pattern_elements }
{
    (window >> 7) + (u32::from(word.number()) << 21)
}

/// The window after more words, which is what the rule gives for their elements. The clause `small`
/// says that each word is one of 128; nothing runs for it.
#[inline(always)]
pub(crate) fn window_after_words(window: u32, words: &[Word]) -> u32
    requires window { window < 2 ^ pattern_elements }
    ensures value { result ≡ window_after_words window words.now }
    ensures within { result < 2 ^ pattern_elements }
    ensures small { (k : ℕ) → k < length words.now → slice_index words.now k < 128 }
{
    if words.len() == WORDS_AT_ONCE {
        // Each word is one of 128. That is all that this says, and nothing runs for it.
        let _words = numbers(words);
        // The window has the last four words, whichever window was before.
        let older = u32::from(words[4].number()) + (u32::from(words[5].number()) << 7);
        let newer = (u32::from(words[6].number()) << 14) + (u32::from(words[7].number()) << 21);
        return older + newer;
    }
    let mut last = window;
    for place in 0..words.len() {
        last = next_word_window(last, words[place]);
    }
    last
}

/// The numbers of eight words.
#[inline(always)]
pub(crate) fn numbers(words: &[Word]) -> [u8; WORDS_AT_ONCE]
    requires { length words.now ≡ 8 }
    ensures value { result ≡ words.now }
    ensures small { (k : ℕ) → k < 8 → slice_index result k < 128 }
{
    [
        words[0].number(),
        words[1].number(),
        words[2].number(),
        words[3].number(),
        words[4].number(),
        words[5].number(),
        words[6].number(),
        words[7].number(),
    ]
}

/// A window, and above it the elements of the number that comes after it.
#[inline(always)]
pub(crate) fn joined(window: u32, number: u64) -> u128
    requires { window < 2 ^ pattern_elements }
    ensures { result ≡ spec.joined window number }
{
    u128::from(window) + (u128::from(number) << PATTERN)
}

/// The window after so many elements of a number, which is the last one that the rule gives.
#[inline(always)]
pub(crate) fn window_after_number(window: u32, number: u64, count: usize) -> u32
    requires window { window < 2 ^ pattern_elements }
    requires few { count ≤ packed_elements }
    ensures value { result ≡ spec.window_after window (elements_from count number) }
    ensures within { result < 2 ^ pattern_elements }
{
    ((joined(window, number) >> count) % (1 << PATTERN)) as u32
}

/// The same after so few elements that the window and they have room in 64 places.
#[inline(always)]
pub(crate) fn window_after_few(window: u32, number: u64, count: usize) -> u32
    requires window { window < 2 ^ pattern_elements }
    requires few { number < 2 ^ 36 }
    requires shift { count < 64 }
    ensures value { result ≡ spec.window_after window (elements_from count number) }
    ensures within { result < 2 ^ pattern_elements }
{
    (((u64::from(window) + (number << PATTERN)) >> count) % (1 << PATTERN)) as u32
}

/// The window after all 64 elements of a number, which is the last one that the rule gives,
/// whichever window was before.
#[inline(always)]
pub(crate) fn window_after_whole(number: u64) -> u32
    ensures value { (window : ℕ) → window < 2 ^ pattern_elements
        → result ≡ spec.window_after window (elements_from packed_elements number) }
    ensures within { result < 2 ^ pattern_elements }
{
    (number >> 36) as u32
}
