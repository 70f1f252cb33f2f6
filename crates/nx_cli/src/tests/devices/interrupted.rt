//! Each call over a reader and a writer, interrupted at each of its reads, and at each kind of
//! place in what it writes.

ghost use Rattle.std.specs.Prelude.{◌≡◌, ◌≤◌};
ghost use Rattle.nx_envelope.specs.Moment.{last_moment};

use super::super::air::Piece::{Combinations, Named, Part, Text};
use super::super::air::{HEADER_OF_EA01, MOMENT_OF_EA01, Piece, made_of};
use super::super::resuming::{EA01_SAVED, NOTHING};
use super::super::station::{AIR_FILE_OF_EA01, MESSAGE_FILE};
use super::super::{AIR_FILE_OF_A, shown};
use super::clocked::{Clock, Pieces, Reader, Writer};
use super::endings::Ending;
use nx_envelope::{Finder, FinderStep, Identity, Letter};
use nx_fec::{
    Channel, Counting, decode_run, encode_run, read_bits, show_run, write_bits, write_table,
};
use nx_locks::locks;
use nx_memory::{PlainRecall, Recall, Saved, SavedSet, Selection};
use nx_receiver::{Entry, Want, entry_text, entry_text_on, listen, listen_from, resume};
use nx_station::{DamageKind, check_run, damage, send};
use std::alloc::Global;
use std::io::{Read, Write};
use std::process::Abort;

/// A call over a reader and a writer, or over one of them.
#[derive(Clone, Copy, Debug, PartialEq, Eq)]
enum Call {
    Send,
    Listen,
    ListenFrom,
    Locks,
    Resume(Want),
    ReadBits,
    DecodeRun,
    EncodeRun,
    ShowRun,
    CheckRun,
    Damage,
    EntryText,
    EntryTextOn(Channel),
    WriteBits,
    WriteTable,
}

/// What calls are given beside their devices.
#[derive(Drop)]
struct Given {
    station: Letter,
    entry: Entry,
    /// What a receiver left that heard EB02.
    saved: SavedSet,
    bits: Vec<bool>,
    /// EA01 in three lines behind a command, so that its copy is open behind the first of them and
    /// ends in the second.
    short_lines: Vec<u8>,
    /// The same lines behind the state of a receiver that has heard nothing.
    resumed: Vec<u8>,
    /// Behind that state three channels that hear EA01 in turn: 1 all of it, 0 and 2 up to the end
    /// of its text.
    on_three: Vec<u8>,
    /// One line in which a copy of EA01 is cut, and one of EB02 ends.
    two_in_a_line: Vec<u8>,
}

const MOMENT: u64 = 1_735_689_600;

impl Call {
    fn make<R: Read, W: Write>(
        self,
        alloc: Global,
        given: &Given,
        reader: &mut Counting<R>,
        writer: &mut Counting<W>,
    ) -> Result<(), Ending>
        requires reader { reader.old.failures ≡ 0 }
        requires writer { writer.old.failures ≡ 0 }
        requires moment { given.now.entry.moment ≤ last_moment }
    {
        match self {
            Call::Send => {
                send(alloc, reader, writer, given.station, MOMENT)?;
            }
            Call::Listen => {
                listen(alloc, reader, writer)?;
            }
            Call::ListenFrom => {
                listen_from(alloc, &given.saved, reader, writer)?;
            }
            Call::Locks => {
                locks(reader, writer)?;
            }
            Call::Resume(want) => {
                resume(alloc, reader, writer, want)?;
            }
            Call::ReadBits => {
                read_bits(alloc, reader)?;
            }
            Call::DecodeRun => {
                decode_run(alloc, reader, writer)?;
            }
            Call::EncodeRun => {
                encode_run(alloc, reader, writer)?;
            }
            Call::ShowRun => {
                show_run(alloc, reader, writer)?;
            }
            Call::CheckRun => {
                check_run(alloc, reader, writer)?;
            }
            Call::Damage => {
                damage(reader, writer, DamageKind::All, 0, 1)?;
            }
            Call::EntryText => entry_text(&given.entry, writer)?,
            Call::EntryTextOn(channel) => entry_text_on(&given.entry, channel, writer)?,
            Call::WriteBits => write_bits(writer, &given.bits)?,
            Call::WriteTable => write_table(writer)?,
        }
        Ok(())
    }
}

/// The log of EA01, its identity, and its text in its copy.
const LOG_OF_EA01: &[u8] = b"[EA01 2025-01-01 00:40:00 full 0/5]\nTEST\n\n";

/// Its locks.
const LOCKS_OF_EA01: &[u8] = b"[2025-01-01 00:40:00 lock 28]\nZCZC EA01\nTEST\nNNNN\n\n\
    [2025-01-01 00:40:00 open words 199 wrong 0 copies 1]\n\n[elements 1421 locks 1 copies 1]\n";

/// Lines of which `damage` inverts one element, and what is left.
const LINES: &[u8] = b"T 0\nB 00000000\nRS E\nB 0\n";

const DAMAGED_LINES: &[u8] = b"T 0\nB 10000000\nRS E\nB 0\n";

/// The table of the code (M.476; the figures of D, F, G, H and J print nothing).
const TABLE: &[u8] = b"\
    47 BBBYYYB A -\n72 YBYYBBB B ?\n1D BYBBBYY C :\n53 BBYYBYB D none\n56 YBBYBYB E 3\n\
    1B BBYBBYY F none\n35 BYBYBBY G none\n69 BYYBYBB H none\n4D BYBBYYB I 8\n17 BBBYBYY J none\n\
    1E YBBBBYY K (\n65 BYBYYBB L )\n39 BYYBBBY M .\n59 BYYBBYB N ,\n71 BYYYBBB O 9\n\
    2D BYBBYBY P 0\n2E YBBBYBY Q 1\n55 BYBYBYB R 4\n4B BBYBYYB S '\n74 YYBYBBB T 5\n\
    4E YBBBYYB U 7\n3C YYBBBBY V =\n27 BBBYYBY W 2\n3A YBYBBBY X /\n2B BBYBYBY Y 6\n\
    63 BBYYYBB Z +\n78 YYYBBBB CR CR\n6C YYBBYBB LF LF\n5A YBYBBYB LTRS LTRS\n\
    36 YBBYBBY FIGS FIGS\n5C YYBBBYB SPACE SPACE\n6A YBYBYBB BLANK BLANK\n0F BBBBYYY P1 P1\n\
    33 BBYYBBY BETA BETA\n66 YBBYYBB P2 P2\n";

/// The first line of the air file of EA01 has this many bytes.
const LINE_OF_MOMENT: usize = 13;

/// The entry of EA01.
fn entry_of_ea01(rt: &impl Abort) -> Entry
    ensures { result.moment ≤ last_moment }
{
    let mut finder = Finder::new();
    for byte in b"ZCZC EA01\nTEST\nNNNN" {
        if let FinderStep::Over(found) = finder.push(*byte) {
            return Entry::new(found, 1_735_692_000);
        }
    }
    rt.panic("no copy")
}

/// A memory that holds EB02, saved.
fn saved_with_eb02(rt: &impl Abort) -> SavedSet {
    let mut memory = PlainRecall::new();
    memory.enter(Identity::new(b'E', b'B', 2).expect(rt, "EB02"), MOMENT);
    let on_0 = Saved::of(&Selection::all(), &memory);
    SavedSet::of(on_0, Saved::new(), Saved::new())
}

fn given_to_calls(rt: &impl Abort, alloc: Global) -> Given
    ensures { result.entry.moment ≤ last_moment }
{
    let mut file = Counting::new(AIR_FILE_OF_EA01);
    let bits = read_bits(alloc, &mut file).expect(rt, "elements");
    Given {
        station: Letter::new(b'E').expect(rt, "a station"),
        entry: entry_of_ea01(rt),
        saved: saved_with_eb02(rt),
        short_lines: made_of(rt, alloc, &[Text(COMMAND), NOW, SHORT_LINES]),
        resumed: made_of(rt, alloc, &[Text(NOTHING), NOW, SHORT_LINES]),
        two_in_a_line: made_of(rt, alloc, &TWO_IN_A_LINE),
        on_three: made_of(rt, alloc, &ON_THREE),
        bits,
    }
}

/// A command that refuses what isn't heard.
const COMMAND: &[u8] = b"RS A\n";

const NOW: Piece<'static> = Text(MOMENT_OF_EA01);

/// The last 749 elements of EA01, with which a lock begins, in lines of at most 360.
const SHORT_LINES: Piece<'static> = Part(672, 1_421, 360);

/// Those elements on three channels in turn, of which channel 1 hears all, behind a state.
static ON_THREE: [Piece<'static>; 8] = [
    Text(NOTHING),
    NOW,
    Part(672, 1_162, 490),
    Named(b'1', 672, 1_162),
    Named(b'2', 672, 1_162),
    Part(1_162, 1_323, 490),
    Named(b'1', 1_162, 1_421),
    Named(b'2', 1_162, 1_323),
];

/// The letter shift, ZCZC, a space, EB, the figure shift, 02 and a new line.
const HEADER_OF_EB02: [u8; 13] = [29, 26, 3, 26, 3, 31, 5, 2, 30, 16, 23, 27, 28];

/// The letter shift, NNNN and what follows it.
const END: [u8; 8] = [29, 14, 14, 14, 14, 27, 28, 28];

/// The C before EB02 is position 89 and the last N position 102, so that the copies end with the
/// elements 1,288 and 1,470, which the second and last line has both.
static TWO_IN_A_LINE: [Piece<'static>; 2] = [
    NOW,
    Combinations(&[&HEADER_OF_EA01, &HEADER_OF_EB02, &END], 672, usize::MAX),
];

/// A call, what it reads, and what it writes.
#[derive(Drop)]
struct Case<'a> {
    call: Call,
    input: &'a [u8],
    output: &'a [u8],
    /// How many bytes of the input are those of a state, which are read one by one.
    state: usize,
    /// How many bytes are read before some are written, and how many are written then, twice. The
    /// others are written at the end.
    written: [(usize, usize); 2],
}

impl Case<'_> {
    /// How many bytes are written where so many were read, and the next read fails. `damage` writes
    /// each line that it has read.
    fn written_after(&self, read: usize) -> usize {
        if self.call == Call::Damage {
            return whole_lines(self.input, read);
        }
        let mut written = 0;
        for (enough, count) in self.written.iter() {
            if read >= *enough {
                written = *count;
            }
        }
        written
    }

    /// How often the call reads, where each read gives such a piece: a call that reads sees the end
    /// too.
    fn reads(&self, pieces: Pieces) -> usize {
        match self.call {
            Call::EntryText | Call::EntryTextOn(_) | Call::WriteBits | Call::WriteTable => 0,
            _ => {
                let others = self.input.get(self.state..).unwrap_or(b"");
                let count = pieces.count(others, self.state as u64);
                count.saturating_add(self.state).saturating_add(1)
            }
        }
    }
}

/// How many of so many bytes are those of whole lines.
fn whole_lines(input: &[u8], read: usize) -> usize {
    let mut lines = 0;
    for (index, byte) in input.iter().take(read).enumerate() {
        if *byte == b'\n' {
            lines = index.saturating_add(1);
        }
    }
    lines
}

/// The copy of EA01 ends with the word of slot 195, its element 1,372: in the second of these lines
/// of 363 bytes.
const HEARD_IN_SHORT_LINES: usize = COMMAND.len() + LINE_OF_MOMENT + 2 * 363;

/// Where the first of the channels on three has heard a copy in full. That is behind a line of 490
/// elements on each of the three, one of 161 on channel 0 and one of 259 on channel 1.
const HEARD_ON_THREE: usize = LINE_OF_MOMENT + (493 + 494 + 494) + 164 + 263;

/// The copies that stand open at the end come by channel.
const LOG_ON_THREE: &[u8] = b"[EA01/1 2025-01-01 00:40:00 full 0/5]\nTEST\n\n\
    [EA01 2025-01-01 00:40:00 cut 0/5]\nTEST\n\n\
    [EA01/2 2025-01-01 00:40:00 cut 0/5]\nTEST\n\n";

/// Two copies of one line.
const LOG_OF_TWO: &[u8] =
    b"[EA01 2025-01-01 00:40:00 cut 0/0]\n\n[EB02 2025-01-01 00:40:00 full 0/0]\n\n";

const LOG_ON_CHANNEL_2: &[u8] = b"[EA01/2 2025-01-01 00:40:00 full 0/5]\nTEST\n\n";

/// The calls that listen to one channel.
fn listening<'a>(given: &'a Given) -> [Case<'a>; 4] {
    let two = given.two_in_a_line.as_slice();
    [
        heard(
            Call::ListenFrom,
            &given.short_lines,
            LOG_OF_EA01,
            HEARD_IN_SHORT_LINES,
        ),
        heard(Call::Listen, two, LOG_OF_TWO, two.len()),
        locks_shown(),
        resumed_for_the_state(given),
    ]
}

/// The call that listens to three, behind a state.
fn listening_on_three(given: &Given) -> Case<'_> {
    let first = b"[EA01/1 2025-01-01 00:40:00 full 0/5]\nTEST\n\n".len();
    let input = given.on_three.as_slice();
    Case {
        state: NOTHING.len(),
        written: [(NOTHING.len() + HEARD_ON_THREE, first); 2],
        ..row(Call::Resume(Want::Log), input, LOG_ON_THREE)
    }
}

/// The others.
fn others<'a>() -> [Case<'a>; 11] {
    [
        row(Call::Send, MESSAGE_FILE, AIR_FILE_OF_EA01),
        row(Call::ReadBits, LINES, b""),
        row(
            Call::DecodeRun,
            AIR_FILE_OF_EA01,
            b"ZCZC EA01\nTEST\nNNNN\n\n",
        ),
        row(Call::EncodeRun, b"A", AIR_FILE_OF_A),
        row(
            Call::ShowRun,
            b"B 01100110000000\n",
            b"0 DX 66 P2\n1 RX 00 wrong\n",
        ),
        row(
            Call::CheckRun,
            AIR_FILE_OF_EA01,
            b"station E\n#A01\nTEST\n;\n",
        ),
        row(Call::Damage, LINES, DAMAGED_LINES),
        row(Call::EntryText, b"", LOG_OF_EA01),
        row(Call::EntryTextOn(Channel::Two), b"", LOG_ON_CHANNEL_2),
        row(Call::WriteBits, b"", &AIR_FILE_OF_EA01[LINE_OF_MOMENT..]),
        row(Call::WriteTable, b"", TABLE),
    ]
}

/// A case that writes at the end.
fn row<'a>(call: Call, input: &'a [u8], output: &'a [u8]) -> Case<'a> {
    Case {
        call,
        input,
        output,
        state: 0,
        written: [(usize::MAX, 0); 2],
    }
}

/// A case in which all that is heard is written where so many bytes were read.
fn heard<'a>(call: Call, input: &'a [u8], output: &'a [u8], enough: usize) -> Case<'a> {
    Case {
        written: [(enough, output.len()); 2],
        ..row(call, input, output)
    }
}

/// The locks of EA01: its first line of elements begins one, the third has its text.
fn locks_shown<'a>() -> Case<'a> {
    let begun = b"[2025-01-01 00:40:00 lock 28]\n".len();
    let text = b"ZCZC EA01\nTEST\nNNNN\n\n".len();
    Case {
        written: [(506, begun), (AIR_FILE_OF_EA01.len(), begun + text)],
        ..row(Call::Locks, AIR_FILE_OF_EA01, LOCKS_OF_EA01)
    }
}

/// EA01 in short lines is heard from a state on, and the state is kept.
fn resumed_for_the_state(given: &Given) -> Case<'_> {
    Case {
        state: NOTHING.len(),
        ..row(Call::Resume(Want::State), &given.resumed, EA01_SAVED)
    }
}

/// How a call ended, what was written, how many bytes were read, and whether the call on a device
/// that failed was the last one on either.
#[derive(Drop)]
struct Ended {
    ending: Result<(), Ending>,
    written: Vec<u8>,
    read: usize,
    stopped: bool,
}

/// Where a call is interrupted.
#[derive(Clone, Copy, Debug, Drop)]
struct Trouble {
    /// What the reader gives at once.
    pieces: Pieces,
    /// How many reads succeed before one fails.
    sound: Option<usize>,
    /// How many bytes the writer takes before it fails.
    room: Option<usize>,
}

fn reader_on<'a>(clock: &'a Clock, input: &'a [u8], trouble: Trouble) -> Counting<Reader<'a>>
    ensures { result.failures ≡ 0 }
{
    Counting::new(Reader {
        clock,
        rest: input,
        pieces: trouble.pieces,
        given: 0,
        sound: trouble.sound,
    })
}

fn writer_on<'a>(clock: &'a Clock, alloc: Global, trouble: Trouble) -> Counting<Writer<'a>>
    ensures { result.failures ≡ 0 }
{
    Counting::new(Writer {
        clock,
        taken: Vec::new(alloc),
        room: trouble.room,
    })
}

/// Makes the call on devices with this trouble.
fn interrupt(alloc: Global, case: &Case, given: &Given, trouble: Trouble) -> Ended
    requires { given.now.entry.moment ≤ last_moment }
{
    let clock = Clock::new();
    let mut reader = reader_on(&clock, case.input, trouble);
    let mut writer = writer_on(&clock, alloc, trouble);
    let ending = case.call.make(alloc, given, &mut reader, &mut writer);
    let unread = reader.into_inner().rest.len();
    Ended {
        ending,
        written: writer.into_inner().taken,
        read: case.input.len().saturating_sub(unread),
        stopped: clock.stands_at_failure(),
    }
}

/// Expects that a call with this trouble ended so and wrote this, and that a failed call on a
/// device was the last one.
fn expect_ending(
    rt: &impl Abort,
    case: &Case,
    trouble: Trouble,
    ended: &Ended,
    ending: Result<(), Ending>,
    written: usize,
) {
    let (call, came) = (case.call, ended.ending);
    assert!(rt;
        came == ending,
        "{call:?}, {trouble:?}: {came:?} in place of {ending:?}"
    );
    assert!(rt;
        ended.stopped || ending.is_ok(),
        "{call:?}, {trouble:?}: a call after a failure"
    );
    assert!(rt;
        Some(ended.written.as_slice()) == case.output.get(..written),
        "{call:?}, {trouble:?}: {:?} and not {written} bytes of {:?}",
        shown(&ended.written),
        shown(case.output)
    );
}

/// Expects that the call stops at this read, which fails.
fn expect_stop_at_read(
    rt: &impl Abort,
    alloc: Global,
    case: &Case,
    given: &Given,
    pieces: Pieces,
    read: usize,
)
    requires { given.now.entry.moment ≤ last_moment }
{
    let trouble = Trouble {
        pieces,
        sound: Some(read),
        room: None,
    };
    let ended = interrupt(alloc, case, given, trouble);
    let written = case.written_after(ended.read);
    expect_ending(rt, case, trouble, &ended, Err(Ending::Read), written);
}

/// Expects that the call stops at each of its reads, as each fails in turn, and that there is no
/// further one: it succeeds where the next would fail.
fn expect_stops_at_reads(rt: &impl Abort, alloc: Global, case: &Case, given: &Given, pieces: Pieces)
    requires { given.now.entry.moment ≤ last_moment }
{
    let reads = case.reads(pieces);
    for read in 0..reads {
        expect_stop_at_read(rt, alloc, case, given, pieces, read);
    }
    let trouble = Trouble {
        pieces,
        sound: Some(reads),
        room: None,
    };
    let ended = interrupt(alloc, case, given, trouble);
    expect_ending(rt, case, trouble, &ended, Ok(()), case.output.len());
}

/// Each read fails in turn, inside a line and at its end.
#[test]
fn stops_at_each_failed_read(rt: HostRuntime) {
    let given = given_to_calls(&rt, rt.alloc());
    for case in &others() {
        expect_stops_at_reads(&rt, rt.alloc(), case, &given, Pieces::HalfLines);
        if case.input.len() < 100 {
            expect_stops_at_reads(&rt, rt.alloc(), case, &given, Pieces::Bytes);
        }
    }
}

#[test]
fn stops_listening_at_each_failed_read(rt: HostRuntime) {
    let given = given_to_calls(&rt, rt.alloc());
    for case in &listening(&given) {
        expect_stops_at_reads(&rt, rt.alloc(), case, &given, Pieces::HalfLines);
    }
}

#[test]
fn stops_listening_to_three_channels_at_each_failed_read(rt: HostRuntime) {
    let given = given_to_calls(&rt, rt.alloc());
    let case = listening_on_three(&given);
    expect_stops_at_reads(&rt, rt.alloc(), &case, &given, Pieces::HalfLines);
}

/// Expects that the call stops at a writer that fails behind so many bytes, or succeeds where there
/// is room for all.
fn expect_stop_at_write(rt: &impl Abort, alloc: Global, case: &Case, given: &Given, room: usize)
    requires { given.now.entry.moment ≤ last_moment }
{
    let trouble = Trouble {
        pieces: Pieces::HalfLines,
        sound: None,
        room: Some(room),
    };
    let ended = interrupt(alloc, case, given, trouble);
    let ending = if room == case.output.len() {
        Ok(())
    } else {
        Err(Ending::Write(room as u64))
    };
    expect_ending(rt, case, trouble, &ended, ending, room);
}

/// Whether a writer fails here: at the beginning, behind one byte, directly before a line's end, or
/// directly behind it, where one entry ends and the next one begins.
fn is_place(output: &[u8], room: usize) -> bool {
    let near = output.get(room.saturating_sub(1)..room.saturating_add(1));
    room < 2 || near.unwrap_or(b"\n").contains(&b'\n')
}

/// Expects that the call stops at a writer that fails at each place in turn.
fn expect_stops_at_writes(rt: &impl Abort, alloc: Global, case: &Case, given: &Given)
    requires { given.now.entry.moment ≤ last_moment }
{
    for room in 0..=case.output.len() {
        if is_place(case.output, room) {
            expect_stop_at_write(rt, alloc, case, given, room);
        }
    }
}

/// An entry is written to a writer that fails behind each byte in turn, too.
#[test]
fn stops_at_each_failed_write(rt: HostRuntime) {
    let given = given_to_calls(&rt, rt.alloc());
    for case in &others() {
        expect_stops_at_writes(&rt, rt.alloc(), case, &given);
        if matches!(case.call, Call::EntryText | Call::EntryTextOn(_)) {
            for room in 0..=case.output.len() {
                expect_stop_at_write(&rt, rt.alloc(), case, &given, room);
            }
        }
    }
}

#[test]
fn stops_listening_at_each_failed_write(rt: HostRuntime) {
    let given = given_to_calls(&rt, rt.alloc());
    for case in &listening(&given) {
        expect_stops_at_writes(&rt, rt.alloc(), case, &given);
    }
}

/// It writes an entry while it reads, and two at the end.
#[test]
fn stops_listening_to_three_channels_at_each_failed_write(rt: HostRuntime) {
    let given = given_to_calls(&rt, rt.alloc());
    let case = listening_on_three(&given);
    expect_stops_at_writes(&rt, rt.alloc(), &case, &given);
}
