//! What is told of lines without effect, and of a put that failed.

ghost use Rattle.std.specs.Prelude.{◌≡◌, ◌+◌, ◌≤◌, ◌<◌, ◌&&◌, not, ℕ, List, ◌++◌, IsSome, None, Option, decimal, length};
ghost use Rattle.nx_watch.specs.LineRun.{HasTold};
ghost use Rattle.nx_watch.specs.LinesTold.{line_told, number_told, put_told};

use crate::lines::no_effect::NoEffect;
use arrayvec::ArrayVec;
use itoa::Buffer;
use nx_fec::{Counting, append, write_out};
use std::io::Write;

/// The most bytes of what is told at once: 80 beside a number of at most 20 digits.
const MOST_TOLD: usize = 100;

/// What is told of the first put that failed.
const PUT_FAILED: &[u8] =
    b"navtex: the log can't be written; entries go to standard output from here on\n";

/// Tells of the line of this number, and why it has no effect, unless there was one before.
#[inline(never)]
pub(crate) fn tell_first<F: Write>(
    before: Option<u64>,
    number: u64,
    why: NoEffect,
    notices: &mut Counting<F>,
)
    ensures some { IsSome before → notices.new ≡ notices.old }
    ensures none { before ≡ None → (old : Option (List ℕ)) (text : List ℕ)
        → HasTold old (F.contents notices.old.inner) notices.old.failures text
        → HasTold old (F.contents notices.new.inner) notices.new.failures
        (text ++ line_told number why) }
{
    if before.is_some() {
        return;
    }
    tell(b"navtex: line ", number, why.told(), notices);
}

/// Tells that a put failed, where one has now and none had before.
pub(crate) fn tell_failed_put<F: Write>(
    had_failed: bool,
    has_failed: bool,
    notices: &mut Counting<F>,
)
    ensures { (old : Option (List ℕ)) (text : List ℕ)
        → HasTold old (F.contents notices.old.inner) notices.old.failures text
        → HasTold old (F.contents notices.new.inner) notices.new.failures
        (text ++ put_told (has_failed && not had_failed)) }
{
    if has_failed && !had_failed {
        write_more(PUT_FAILED, notices);
    }
}

/// Tells at the end how many lines had no effect, where there are any.
pub(crate) fn tell_number<F: Write>(count: u64, notices: &mut Counting<F>)
    ensures { (old : Option (List ℕ)) (text : List ℕ)
        → HasTold old (F.contents notices.old.inner) notices.old.failures text
        → HasTold old (F.contents notices.new.inner) notices.new.failures
        (text ++ number_told count) }
{
    if count > 1 {
        tell(b"navtex: ", count, b" lines had no effect\n", notices);
    } else if count > 0 {
        tell(b"navtex: ", count, b" line had no effect\n", notices);
    }
}

/// Tells a number between two texts, behind what was told. A failed write is passed over, and
/// nothing is told behind one.
pub fn tell<F: Write>(before: &[u8], number: u64, behind: &[u8], notices: &mut Counting<F>)
    requires { length before.now + length behind.now ≤ 80 }
    ensures { (old : Option (List ℕ)) (text : List ℕ)
        → HasTold old (F.contents notices.old.inner) notices.old.failures text
        → HasTold old (F.contents notices.new.inner) notices.new.failures
        (text ++ (before.now ++ (decimal number ++ behind.now))) }
{
    let mut text = ArrayVec::<u8, MOST_TOLD>::new();
    append(&mut text, before);
    append(&mut text, Buffer::new().format(number).as_bytes());
    append(&mut text, behind);
    write_more(&text, notices);
}

/// Writes bytes behind others, unless a write failed before. A failed write is passed over, and so
/// are all bytes behind it.
pub fn write_more<W: Write>(bytes: &[u8], writer: &mut Counting<W>)
    ensures written { (old : Option (List ℕ)) (text : List ℕ)
        → HasTold old (W.contents writer.old.inner) writer.old.failures text
        → HasTold old (W.contents writer.new.inner) writer.new.failures (text ++ bytes.now) }
    ensures once { writer.old.failures ≤ 1 → writer.new.failures ≤ 1 }
{
    if writer.failures() > 0 {
        return;
    }
    // The writer counts the failure.
    let _ = write_out(writer, bytes);
}
