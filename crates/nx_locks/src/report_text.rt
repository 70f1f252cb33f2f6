//! The lines of what is shown of locks. What opens or closes a lock is never inlined, so that no
//! loop over words has a place for a line. What appends the bytes of words always is, so that four
//! of them are one write.

ghost use Rattle.std.specs.Prelude.{◌≡◌, ◌+◌, ◌*◌, ◌≤◌, ℕ, List, ◌++◌, length, take};
ghost use Rattle.arrayvec.specs.ArrayVec.{array_vec_len};
ghost use Rattle.nx_envelope.specs.Moment.{IsShownAs, last_moment};
ghost use Rattle.nx_locks.specs.ReportText.{closing_lines, how_name, last_line, opening_line};

use arrayvec::ArrayVec;
use itoa::Buffer;
use nx_envelope::{CIVIL_LEN, civil};
use nx_fec::{MAX_ELEMENTS, append};
use nx_sync::Change;

/// The most bytes that one element brings: a byte of text, a newline, and the lines that close a
/// lock. These have a civil time, a word of at most 5 letters and three numbers of at most 20
/// digits.
pub(crate) const MAX_STEP: usize = CIVIL_LEN + 94;

/// The most bytes that the elements of a line bring.
pub(crate) const MAX_SHOWN: usize = MAX_ELEMENTS * MAX_STEP;

/// What the elements of a line bring.
pub(crate) type Shown = ArrayVec<u8, MAX_SHOWN>;

/// Appends the line that opens a lock after so many elements. The moment is at most the last one.
/// There is room for 113 bytes more.
#[inline(never)]
pub(crate) fn open_lock(shown: &mut Shown, moment: u64, elements: u64)
    requires moment { moment ≤ last_moment }
    requires room { array_vec_len shown.old + 113 ≤ 57856 }
    ensures line { (civil : List ℕ) × IsShownAs moment civil
        × (shown.new.items ≡ shown.old.items ++ opening_line civil elements) }
    ensures few { array_vec_len shown.new ≤ array_vec_len shown.old + 113 }
{
    let Some(time) = civil(moment) else {
        unreachable!()
    };
    append(shown, b"[");
    append(shown, &time);
    append(shown, b" lock ");
    append(shown, Buffer::new().format(elements).as_bytes());
    append(shown, b"]\n");
}

/// What is counted of a lock.
#[derive(Clone, Copy, Debug)]
pub(crate) struct Counts {
    /// How many whole words it has.
    pub(crate) words: u64,
    /// How many of them have the wrong weight.
    pub(crate) wrong: u64,
    /// How many headers stand in its text.
    pub(crate) copies: u64,
}

/// Appends the lines that close a lock, of which this came. The moment is at most the last one.
/// There is room for 111 bytes more.
#[inline(never)]
pub(crate) fn close_lock(shown: &mut Shown, moment: u64, how: Change, counts: Counts)
    requires moment { moment ≤ last_moment }
    requires room { array_vec_len shown.old + 111 ≤ 57856 }
    ensures lines { (civil : List ℕ) × IsShownAs moment civil
        × (shown.new.items
        ≡ shown.old.items ++ closing_lines civil how counts.words counts.wrong counts.copies) }
    ensures few { array_vec_len shown.new ≤ array_vec_len shown.old + 111 }
{
    let Some(time) = civil(moment) else {
        unreachable!()
    };
    append(shown, b"[");
    append(shown, &time);
    append(shown, b" ");
    append(shown, how_text(how).as_bytes());
    append(shown, b" words ");
    append(shown, Buffer::new().format(counts.words).as_bytes());
    append(shown, b" wrong ");
    append(shown, Buffer::new().format(counts.wrong).as_bytes());
    append(shown, b" copies ");
    append(shown, Buffer::new().format(counts.copies).as_bytes());
    append(shown, b"]\n\n");
}

/// Appends the last line. There is room for 87 bytes more.
pub(crate) fn end_report(shown: &mut Shown, elements: u64, locks: u64, copies: u64)
    requires room { array_vec_len shown.old + 87 ≤ 57856 }
    ensures line { shown.new.items ≡ shown.old.items ++ last_line elements locks copies }
{
    append(shown, b"[elements ");
    append(shown, Buffer::new().format(elements).as_bytes());
    append(shown, b" locks ");
    append(shown, Buffer::new().format(locks).as_bytes());
    append(shown, b" copies ");
    append(shown, Buffer::new().format(copies).as_bytes());
    append(shown, b"]\n");
}

/// What came of a lock, as it is printed.
fn how_text(how: Change) -> &'static str
    ensures name { result.now ≡ how_name how }
    ensures short { length result.now ≤ 5 }
{
    match how {
        Change::Locked => "open",
        Change::Ended => "ended",
        Change::LostLock => "lost",
    }
}

/// Appends the first `count` of these bytes. They are four at most, for which there is room.
#[inline(always)]
pub(crate) fn append_some(shown: &mut Shown, bytes: [u8; 4], count: usize)
    requires room { array_vec_len shown.old + 4 ≤ 57856 }
    requires few { count ≤ 4 }
    ensures items { shown.new.items ≡ shown.old.items ++ take count bytes }
    ensures len { array_vec_len shown.new ≤ array_vec_len shown.old + 4 }
{
    let length = shown.len() + count;
    shown.try_extend_from_slice(&bytes).unwrap();
    shown.truncate(length);
}
