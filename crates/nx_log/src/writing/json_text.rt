//! A logged entry as a line of JSON.

ghost use Rattle.std.specs.Prelude.{◌≡◌, ◌≤◌, ◌+◌, ◌*◌, ◌++◌, ℕ, List, length, All, IsTrue, codes};
ghost use Rattle.json.specs.Print.{escape};
ghost use Rattle.nx_envelope.specs.Moment.{IsShownAs, last_moment};
ghost use Rattle.nx_log.specs.Json.{IsJsonLine, IsPlacedLine};
ghost use Rattle.nx_log.specs.Logged.{is_text_byte};
ghost use Rattle.nx_log.specs.Times.{joined};
ghost use Rattle.nx_log.specs.View.{IsSeen, copy_said};
ghost use Rattle.nx_log.specs.private.JsonParts.{counted, json_front, json_middle, json_tail, truth_name as the_truth_name};
ghost use Rattle.nx_copies.specs.copies.Log.{how_name as the_how_name};

use crate::entries::entry::EntryView;
use crate::entries::head::LoggedHead;
use crate::writing::places::Places;
use arrayvec::ArrayVec;
use itoa::Buffer;
use memchr::memchr;
use nx_code::NEWLINE;
use nx_envelope::{CIVIL_LEN, How, MAX_FOUND, civil};
use nx_fec::append;

/// The most bytes of a line up to the identity of its entry: 65 bytes of keys, and their values.
const MAX_FRONT: usize = 96;

/// The most bytes from there up to the text: 73 bytes of keys, and their values.
const MAX_MIDDLE: usize = 160;

/// The most bytes of a number.
const MAX_NUMBER: usize = 20;

/// The bytes of a time in UTC, `2025-01-01T00:40:00Z`.
const UTC_LEN: usize = CIVIL_LEN + 1;

/// The bytes of a line behind the text of its entry.
const TAIL_LEN: usize = UTC_LEN + 13;

/// The most bytes of a line. Each byte of a text takes at most two.
const MAX_LINE: usize = MAX_FRONT + MAX_MIDDLE + 2 * MAX_FOUND + TAIL_LEN;

/// The place between a date and a time of day.
const BETWEEN: usize = 10;

/// A logged entry as one line of JSON with its newline: an object with the keys `channel`,
/// `characters`, `end`, `errors`, `good`, `identity`, `moment`, `number`, `station`, `subject`,
/// `text` and `time` in this order. `end` is `full`, `cut` or `long`, `good` is `true` or `false`,
/// and `time` is the civil time of the moment in UTC, as `2025-01-01T00:40:00Z`. It takes no
/// memory. The view is that of an entry with which some bytes begin, as `entry_at` gives it.
pub fn json_line(view: &EntryView) -> ArrayVec<u8, MAX_LINE>
    requires { IsSeen view.now }
    ensures { IsJsonLine (copy_said view.now.head view.now.text.now) result.items }
{
    placed_line(view, None)
}

/// The same with the keys `next` and `place` in their order, where its places are told. The view is
/// one of an entry here too.
pub(crate) fn placed_line(view: &EntryView, places: Option<Places>) -> ArrayVec<u8, MAX_LINE>
    requires { IsSeen view.now }
    ensures { IsPlacedLine (copy_said view.now.head view.now.text.now) places result.items }
{
    let head = &view.head;
    let front = json_front(head, head.is_good());
    let middle = json_middle(head, places);
    let tail = json_tail(head.moment);
    let mut line = ArrayVec::new();
    append(&mut line, front.as_slice());
    append(&mut line, middle.as_slice());
    append_escaped(&mut line, view.text);
    append(&mut line, tail.as_slice());
    line
}

/// The line up to the identity of its entry, which is good or isn't.
fn json_front(head: &LoggedHead, good: bool) -> ArrayVec<u8, MAX_FRONT>
    ensures { result.items ≡ json_front head.now good }
{
    let mut line = ArrayVec::new();
    append(&mut line, b"{\"channel\":");
    append(
        &mut line,
        Buffer::new().format(head.channel.number()).as_bytes(),
    );
    append(&mut line, b",\"characters\":");
    append(&mut line, Buffer::new().format(head.characters).as_bytes());
    append(&mut line, b",\"end\":\"");
    append(&mut line, how_name(head.how).as_bytes());
    append(&mut line, b"\",\"errors\":");
    append(&mut line, Buffer::new().format(head.errors).as_bytes());
    append(&mut line, b",\"good\":");
    append(&mut line, truth_name(good).as_bytes());
    append(&mut line, b",\"identity\":\"");
    append(&mut line, &head.identity.bytes());
    line
}

/// The line from there up to the text, with the places, where they are told.
fn json_middle(head: &LoggedHead, places: Option<Places>) -> ArrayVec<u8, MAX_MIDDLE>
    ensures { result.items ≡ json_middle head.now places }
{
    let next = places.map(|places| places.next);
    let place = places.map(|places| places.place);
    let mut line = ArrayVec::new();
    append(&mut line, b"\",\"moment\":");
    append(&mut line, Buffer::new().format(head.moment).as_bytes());
    append_count(&mut line, b",\"next\":", next);
    append(&mut line, b",\"number\":");
    append(
        &mut line,
        Buffer::new().format(head.identity.number()).as_bytes(),
    );
    append_count(&mut line, b",\"place\":", place);
    append(&mut line, b",\"station\":\"");
    line.push(head.identity.b1().byte());
    append(&mut line, b"\",\"subject\":\"");
    line.push(head.identity.b2().byte());
    append(&mut line, b"\",\"text\":\"");
    line
}

/// Appends a key and its number, where there is one. There is room for both.
fn append_count(line: &mut ArrayVec<u8, MAX_MIDDLE>, key: &[u8], count: Option<u64>)
    requires { length line.old.items + length key.now + MAX_NUMBER ≤ MAX_MIDDLE }
    ensures items { line.new.items ≡ line.old.items ++ counted key.now count }
    ensures few { length line.new.items ≤ length line.old.items + length key.now + MAX_NUMBER }
{
    if let Some(count) = count {
        append(line, key);
        append(line, Buffer::new().format(count).as_bytes());
    }
}

/// The line behind the text of its entry, whose moment is in range.
fn json_tail(moment: u64) -> ArrayVec<u8, TAIL_LEN>
    requires { moment ≤ last_moment }
    ensures { (civil : List ℕ) × IsShownAs moment civil
        × (result.items ≡ json_tail (joined civil ++ codes "Z")) }
{
    let mut line = ArrayVec::new();
    append(&mut line, b"\",\"time\":\"");
    append(&mut line, &utc_time(moment));
    append(&mut line, b"\"}\n");
    line
}

/// Appends a text as it stands in a string of JSON, where each newline is `\n`. No other byte of a
/// text is escaped. Each byte is one of a text (`text`), and there is room for two of each
/// (`room`).
fn append_escaped(line: &mut ArrayVec<u8, MAX_LINE>, text: &[u8])
    requires room { length line.old.items + 2 * length text.now ≤ MAX_LINE }
    requires text { All (λ byte. IsTrue (is_text_byte byte)) text.now }
    ensures items { line.new.items ≡ line.old.items ++ escape text.now }
    ensures few { length line.new.items ≤ length line.old.items + 2 * length text.now }
{
    let mut at = 0;
    while let Some(end) = memchr(NEWLINE, &text[at..]) {
        append(line, &text[at..at + end]);
        append(line, b"\\n");
        at += end + 1;
    }
    append(line, &text[at..]);
}

/// The civil time of a moment in range, as ISO 8601 writes it in UTC.
fn utc_time(moment: u64) -> [u8; UTC_LEN]
    requires { moment ≤ last_moment }
    ensures { (civil : List ℕ) × IsShownAs moment civil × (result ≡ joined civil ++ codes "Z") }
{
    let Some(civil) = civil(moment) else {
        unreachable!()
    };
    let mut time = [b'Z'; UTC_LEN];
    time[..CIVIL_LEN].copy_from_slice(&civil);
    time[BETWEEN] = b'T';
    time
}

/// How a copy ended, as it is printed.
fn how_name(how: How) -> &'static str
    ensures { result.now ≡ the_how_name how }
{
    match how {
        How::Full => "full",
        How::Cut => "cut",
        How::Long => "long",
    }
}

/// A truth value, as JSON writes it.
fn truth_name(truth: bool) -> &'static str
    ensures { result.now ≡ the_truth_name truth }
{
    if truth { "true" } else { "false" }
}
