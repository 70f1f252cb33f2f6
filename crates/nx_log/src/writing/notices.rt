//! What is told of torn entries, and of bytes that are passed over.

ghost use Rattle.std.specs.Prelude.{◌≡◌, ◌≤◌, ℕ, List, [], ◌∷◌, ◌++◌, Option, codes, decimal, length};
ghost use Rattle.nx_log.specs.Notices.{HaveTold, HaveToldAll, Notice, damaged_at, notices_of, torn_at};

use arrayvec::ArrayVec;
use itoa::Buffer;
use nx_fec::{Counting, append, write_out};
use std::io::Write;

/// The most bytes that are told of one line: 51 beside a number of at most 20 digits.
const MOST_TOLD: usize = 71;

/// The most of them that stand behind the number.
const MOST_BEHIND: usize = 38;

/// Tells of the torn entry on this line, behind what was told. A failed write is passed over, and
/// nothing is told behind one.
pub(crate) fn tell_torn<N: Write>(line: u64, notices: &mut Counting<N>)
    ensures { (old : Option (List ℕ)) (before : List Notice)
        → HaveToldAll (notices_of old (N.contents notices.old.inner) notices.old.failures) before
        → HaveToldAll (notices_of old (N.contents notices.new.inner) notices.new.failures)
        (before ++ torn_at line ∷ []) }
{
    tell_line(line, b": a torn entry was passed over\n", notices);
}

/// Tells so of bytes that are passed over, since they stop being a log at this line.
pub(crate) fn tell_damage<N: Write>(line: u64, notices: &mut Counting<N>)
    ensures { (old : Option (List ℕ)) (before : List Notice)
        → HaveToldAll (notices_of old (N.contents notices.old.inner) notices.old.failures) before
        → HaveToldAll (notices_of old (N.contents notices.new.inner) notices.new.failures)
        (before ++ damaged_at line ∷ []) }
{
    tell_line(line, b" is not of a log, and was passed over\n", notices);
}

/// Tells this of a line, of which at most 38 bytes stand behind its number.
fn tell_line<N: Write>(line: u64, behind: &[u8], notices: &mut Counting<N>)
    requires { length behind.now ≤ MOST_BEHIND }
    ensures { (old : Option (List ℕ)) (before : List ℕ)
        → HaveTold (notices_of old (N.contents notices.old.inner) notices.old.failures) before
        → HaveTold (notices_of old (N.contents notices.new.inner) notices.new.failures)
        (before ++ (codes "navtex: line " ++ (decimal line ++ behind.now))) }
{
    let mut text = ArrayVec::<u8, MOST_TOLD>::new();
    append(&mut text, b"navtex: line ");
    append(&mut text, Buffer::new().format(line).as_bytes());
    append(&mut text, behind);
    tell(&text, notices);
}

/// Writes a text behind what was told, unless a write failed before. A failed write is passed over.
fn tell<N: Write>(text: &[u8], notices: &mut Counting<N>)
    ensures { (old : Option (List ℕ)) (before : List ℕ)
        → HaveTold (notices_of old (N.contents notices.old.inner) notices.old.failures) before
        → HaveTold (notices_of old (N.contents notices.new.inner) notices.new.failures)
        (before ++ text.now) }
{
    if notices.failures() > 0 {
        return;
    }
    // The writer counts the failure.
    let _ = write_out(notices, text);
}
