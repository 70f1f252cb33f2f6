//! What is told of the bytes that a start cuts of its log.

ghost use Rattle.std.specs.Prelude.{◌≡◌, ◌==◌, ℕ, List, position};
ghost use Rattle.std.specs.List.{flat_map};
ghost use Rattle.nx_code.specs.Reading.{newline};
ghost use Rattle.nx_watch.specs.CutTold.{AreHeads, count_told, cut_told, first_line, head_told};
ghost use Rattle.nx_watch.specs.private.Cutting.{IsHeadAt, TellsMore};

use crate::lines::telling::{tell, write_more};
use nx_fec::Counting;
use nx_log::entry_at;
use std::io::Write;

/// Tells that these bytes are cut, which begin on this line of the log, and the head of each whole
/// entry among them. Where there are none, it tells nothing.
pub(crate) fn tell_of_cut<F: Write>(line: u64, bytes: &[u8], notices: &mut Counting<F>)
    ensures { (heads : List (List ℕ)) × AreHeads bytes.now heads
        × TellsMore F.contents notices.old notices.new (cut_told line bytes.now heads) }
{
    if bytes.is_empty() {
        return;
    }
    tell_count(bytes.len() as u64, line, notices);
    tell_heads(bytes, notices);
}

/// Tells that so many bytes are cut, which begin on this line of the log.
fn tell_count<F: Write>(count: u64, line: u64, notices: &mut Counting<F>)
    ensures { TellsMore F.contents notices.old notices.new (count_told count line) }
{
    let is_one = count == 1;
    if is_one {
        tell(b"navtex: ", count, b" byte at line ", notices);
        tell(
            b"",
            line,
            b" of the log is no kept entry, and is cut\n",
            notices,
        );
    } else {
        tell(b"navtex: ", count, b" bytes at line ", notices);
        tell(
            b"",
            line,
            b" of the log are no kept entry, and are cut\n",
            notices,
        );
    }
}

/// Tells the head of each whole entry among the bytes.
fn tell_heads<F: Write>(bytes: &[u8], notices: &mut Counting<F>)
    ensures { (heads : List (List ℕ)) × AreHeads bytes.now heads
        × TellsMore F.contents notices.old notices.new (flat_map head_told heads) }
{
    let mut at = 0;
    while at < bytes.len() {
        tell_head(&bytes[at..], notices);
        at += 1;
    }
}

/// Tells the head of the entry with which the bytes begin, if they begin with one.
fn tell_head<F: Write>(bytes: &[u8], notices: &mut Counting<F>)
    ensures { (heads : List (List ℕ)) × IsHeadAt bytes.now heads
        × TellsMore F.contents notices.old notices.new (flat_map head_told heads) }
{
    if let Some(_entry) = entry_at(bytes) {
        write_more(b"navtex: cut: ", notices);
        write_more(line_at(bytes), notices);
        write_more(b"\n", notices);
    }
}

/// The line with which the bytes begin, without its end.
fn line_at(bytes: &[u8]) -> &[u8]
    ensures { result.now ≡ first_line bytes.now }
{
    let end = line_feed_in(bytes).unwrap_or(bytes.len());
    &bytes[..end]
}

/// The place of the first line feed.
fn line_feed_in(bytes: &[u8]) -> Option<usize>
    ensures { result ≡ position (λ byte. byte == newline) bytes.now }
{
    bytes.iter().position(|byte| *byte == b'\n')
}
