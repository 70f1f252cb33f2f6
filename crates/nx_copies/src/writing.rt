//! The text of an entry.

ghost use Rattle.std.specs.Prelude.{◌≡◌, ◌+◌, ◌≤◌, ℕ, true, List, [], ◌∷◌, ◌++◌, length, Option, MatchResult};
ghost use Rattle.std.specs.Io.KnownBytes.{Appends};
ghost use Rattle.arrayvec.specs.ArrayVec.{array_vec_len};
ghost use Rattle.nx_envelope.specs.Copies.{errors_of};
ghost use Rattle.nx_code.specs.Reading.{newline};
ghost use Rattle.nx_envelope.specs.Moment.{IsShownAs, last_moment};
ghost use Rattle.nx_fec.specs.air_files.LineRuns.{HasGiven};
ghost use Rattle.nx_fec.specs.Transfers.{FailsOnce, WroteSome};
ghost use Rattle.nx_fec.specs.declared.air_files.channel.Channel.TheVariants.{Zero};
ghost use Rattle.nx_copies.specs.copies.Log.{IsEntry, channel_mark, entry_head, how_name, missing_newline};
ghost use Rattle.nx_copies.specs.copies.FoundCopies.{copy_of, headed_copy};
ghost use Rattle.nx_copies.specs.copies.Shares.{marked};

use crate::entry::{Entry, EntryHead};
use arrayvec::ArrayVec;
use itoa::Buffer;
use nx_code::NEWLINE;
use nx_envelope::{CIVIL_LEN, How, MAX_FOUND, civil};
use nx_fec::{Batch, Channel, Counting, WriteFault, append, write_out};
use std::io::Write;

/// The most bytes of the line that heads an entry: a mark of at most 2 bytes, a number of at most 5
/// digits, one of at most 20,
/// and the rest.
const MAX_HEAD: usize = CIVIL_LEN + 42;

/// The most bytes of an entry: its head, its text and two newlines.
pub const MAX_ENTRY: usize = MAX_HEAD + MAX_FOUND + 2;

/// Writes an entry of channel 0 as it stands in the log: its head, its text, and newlines. The
/// moment is at most the last one, as that of every copy is. Takes no memory.
///
/// Where a write fails, the first `written` bytes of the entry were written.
pub fn entry_text<W: Write>(entry: &Entry, writer: &mut Counting<W>) -> Result<(), WriteFault>
    requires unused { writer.old.failures ≡ 0 }
    requires moment { entry.now.moment ≤ last_moment }
    ensures written { (bytes : List ℕ) × IsEntry (marked Zero (copy_of entry.now)) bytes
        × MatchResult result
        (λ _. Appends (W.contents writer.old.inner) (W.contents writer.new.inner) bytes)
        (λ fault. WroteSome (W.contents writer.old.inner) (W.contents writer.new.inner) bytes
        fault.written) }
    ensures counts { FailsOnce writer.new result }
{
    entry_text_on(entry, Channel::Zero, writer)
}

/// Writes an entry as `entry_text` does, with the mark of its channel directly behind the identity:
/// `/1` or `/2`, and none for channel 0.
///
/// Where a write fails, the first `written` bytes of the entry were written.
pub fn entry_text_on<W: Write>(
    entry: &Entry,
    channel: Channel,
    writer: &mut Counting<W>,
) -> Result<(), WriteFault>
    requires unused { writer.old.failures ≡ 0 }
    requires moment { entry.now.moment ≤ last_moment }
    ensures written { (bytes : List ℕ) × IsEntry (marked channel (copy_of entry.now)) bytes
        × MatchResult result
        (λ _. Appends (W.contents writer.old.inner) (W.contents writer.new.inner) bytes)
        (λ fault. WroteSome (W.contents writer.old.inner) (W.contents writer.new.inner) bytes
        fault.written) }
    ensures counts { FailsOnce writer.new result }
{
    write_out(writer, &entry_bytes(entry, channel))
}

/// Gives a batch the entry of a copy that is printed, by its head and its text, which isn't copied
/// on the way, as `entry_text_on` writes it. The moment is at most the last one, and the errors of
/// the head are those of the text, its `*`. The writer hasn't failed yet.
///
/// Where a write fails, `written` bytes were written of all that was given, the entry last.
// A call, so that no loop over elements has a place for what it needs.
#[inline(never)]
pub fn give_entry<W: Write>(
    head: &EntryHead,
    text: &[u8],
    channel: Channel,
    writer: &mut Counting<W>,
    batch: &mut Batch,
) -> Result<(), WriteFault>
    requires unused { writer.old.failures ≡ 0 }
    requires moment { head.now.moment ≤ last_moment }
    requires errors { head.now.errors ≡ errors_of text.now }
    ensures given { (bytes : List ℕ)
        × IsEntry (marked channel (headed_copy head.now text.now true)) bytes
        × ((old : Option (List ℕ)) (before : List ℕ)
        → HasGiven old (W.contents writer.old.inner) batch.old before → MatchResult result
        (λ _. HasGiven old (W.contents writer.new.inner) batch.new (before ++ bytes))
        (λ fault. WroteSome old (W.contents writer.new.inner) (before ++ bytes) fault.written)) }
    ensures counts { FailsOnce writer.new result }
{
    let line = head_line(head, text, channel);
    let end = entry_end(text);
    batch.give(writer, line.as_slice())?;
    batch.give(writer, text)?;
    batch.give(writer, end)
}

/// The bytes of an entry as it stands in the log of its channel. The moment is at most the last
/// one, as that of every copy is.
pub fn entry_bytes(entry: &Entry, channel: Channel) -> ArrayVec<u8, MAX_ENTRY>
    requires { entry.now.moment ≤ last_moment }
    ensures { IsEntry (marked channel (copy_of entry.now)) result.items }
{
    let head = EntryHead {
        identity: entry.identity,
        moment: entry.moment,
        how: entry.how,
        errors: entry.errors,
    };
    let mut bytes = ArrayVec::new();
    spell_entry(&head, &entry.text, channel, &mut bytes);
    bytes
}

/// Puts the bytes of the entry of a copy that is printed, by its head and its text, in place of
/// those that were there. The moment is at most the last one, the text has at most 4,100 bytes, and
/// the errors of the head are those of the text, its `*`.
// A call, so that no loop over elements has a place for what it needs.
#[inline(never)]
pub fn spell_entry(
    head: &EntryHead,
    text: &[u8],
    channel: Channel,
    bytes: &mut ArrayVec<u8, MAX_ENTRY>,
)
    requires moment { head.now.moment ≤ last_moment }
    requires errors { head.now.errors ≡ errors_of text.now }
    requires short { length text.now ≤ MAX_FOUND }
    ensures { IsEntry (marked channel (headed_copy head.now text.now true)) bytes.new.items }
{
    let line = head_line(head, text, channel);
    bytes.clear();
    append(bytes, line.as_slice());
    append(bytes, text);
    append(bytes, entry_end(text));
}

/// The line that heads an entry.
fn head_line(head: &EntryHead, text: &[u8], channel: Channel) -> ArrayVec<u8, MAX_HEAD>
    requires moment { head.now.moment ≤ last_moment }
    requires errors { head.now.errors ≡ errors_of text.now }
    ensures { (civil : List ℕ) × IsShownAs head.now.moment civil
        × (result.items ≡ entry_head channel (headed_copy head.now text.now true) civil) }
{
    let Some(time) = civil(head.moment) else {
        unreachable!()
    };
    let name = head.identity.bytes();
    let mut bytes = ArrayVec::new();
    bytes.push(b'[');
    append(&mut bytes, &name);
    append_mark(&mut bytes, channel);
    bytes.push(b' ');
    append(&mut bytes, &time);
    bytes.push(b' ');
    append_how(&mut bytes, head.how);
    bytes.push(b' ');
    append(&mut bytes, Buffer::new().format(head.errors).as_bytes());
    bytes.push(b'/');
    append(&mut bytes, Buffer::new().format(text.len()).as_bytes());
    append(&mut bytes, b"]\n");
    bytes
}

/// Appends the mark of a channel behind an identity, which channel 0 doesn't have.
// How many bytes are appended is a constant in each arm, so that no arm calls for a copy.
#[inline(always)]
fn append_mark(bytes: &mut ArrayVec<u8, MAX_HEAD>, channel: Channel)
    requires { array_vec_len bytes.old + 2 ≤ MAX_HEAD }
    ensures mark { bytes.new.items ≡ bytes.old.items ++ channel_mark channel }
    ensures short { array_vec_len bytes.new ≤ array_vec_len bytes.old + 2 }
{
    match channel {
        Channel::Zero => {}
        Channel::One => append(bytes, b"/1"),
        Channel::Two => append(bytes, b"/2"),
    }
}

/// Appends how a copy ended, as it is printed.
// As with a mark, no arm calls for a copy.
#[inline(always)]
fn append_how(bytes: &mut ArrayVec<u8, MAX_HEAD>, how: How)
    requires { array_vec_len bytes.old + 4 ≤ MAX_HEAD }
    ensures name { bytes.new.items ≡ bytes.old.items ++ how_name how }
    ensures short { array_vec_len bytes.new ≤ array_vec_len bytes.old + 4 }
{
    match how {
        How::Full => append(bytes, b"full"),
        How::Cut => append(bytes, b"cut"),
        How::Long => append(bytes, b"long"),
    }
}

/// What stands behind the text of an entry: a newline where the text isn't empty and doesn't end
/// with one, and a newline.
#[tactic(auto, unfolding(crate::specs::copies::Log::missing_newline, crate::specs::copies::Log::is_of_lines))]
pub fn entry_end(text: &[u8]) -> &'static [u8]
    ensures end { result.now ≡ missing_newline text.now ++ newline ∷ [] }
    ensures short { length result.now ≤ 2 }
{
    match text.last() {
        Some(last) if *last != NEWLINE => b"\n\n",
        Some(_) | None => b"\n",
    }
}
