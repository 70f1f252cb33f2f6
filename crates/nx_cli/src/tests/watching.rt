//! `watch` over a file in memory: what it leaves there, its exit statuses and the lines of its
//! faults.

mod combining;

use super::air::{MOMENT_OF_EA01, join};
use super::devices::{Sink, Source};
use super::expect_text;
use super::station::AIR_FILE_OF_EA01;
use nx_disk::{FileFault, FileOpenFault, LeftBefore, Noted, TornFile};
use nx_fec::Counting;
use nx_program::{LogFiles, answer};
use std::alloc::Global;
use std::process::Abort;

// The kept log of the one entry of EA01, at rest.
const KEPT: &[u8] = b"\n[EA01 2025-01-01 00:40:00 full 0/5]\nTEST\n\n ";

// Gives this when a log is opened, whatever its name.
#[derive(Drop)]
struct Given {
    opened: Result<Noted<TornFile>, FileFault>,
}

impl LogFiles for Given {
    ghost use Rattle.std.specs.Prelude.{◌≡◌};

    type Disk = Noted<TornFile>;

    ghost gives = { λ given name opened. opened ≡ given.opened };

    fn open(self, _name: &str) -> Result<Noted<TornFile>, FileFault> {
        self.opened
    }
}

// A file in memory with these bytes, in whose call of that number the disk fails; 0 is none.
fn file_of(rt: &impl Abort, alloc: Global, bytes: &[u8], failing: u64) -> Given {
    let file = TornFile::new(alloc, bytes).expect(rt, "memory");
    Given {
        opened: Ok(Noted::new(file.failing_in(failing), LeftBefore::any())),
    }
}

// What asks for a watch of `x.log` from 2025-01-01 00:40:00 on.
const WATCH: &[&str] = &["navtex", "watch", "x.log", "1735692000"];

// The arguments of these words.
fn arguments_of(rt: &impl Abort, alloc: Global, words: &[&str]) -> Vec<String> {
    let mut arguments = Vec::new(alloc);
    for word in words {
        let argument = String::from_str(alloc, word).expect(rt, "memory");
        arguments.push(argument).expect(rt, "memory");
    }
    arguments
}

// How a watch ends: the status, what stands on standard error, and on standard output.
type End<'a> = (u8, &'a str, &'a [u8]);

// Expects that a watch ends so, and gives its file back.
fn expect_watch(
    rt: &impl Abort,
    alloc: Global,
    row: &str,
    files: Given,
    source: &mut Source,
    end: End,
) -> Option<TornFile> {
    expect_run(rt, alloc, row, WATCH, files, source, end)
}

// Expects that a watch that these words ask for ends so, and gives its file back.
fn expect_run(
    rt: &impl Abort,
    alloc: Global,
    row: &str,
    words: &[&str],
    files: Given,
    source: &mut Source,
    end: End,
) -> Option<TornFile> {
    let mut output = Counting::new(Sink::new(Vec::new(alloc)));
    let mut faults = Counting::new(Sink::new(Vec::new(alloc)));
    let arguments = Ok(arguments_of(rt, alloc, words));
    let input = Counting::new(source);
    let ended = answer(alloc, arguments, input, &mut output, &mut faults, files);
    expect_text(rt, row, &faults.into_inner().taken, end.1.as_bytes());
    expect_text(rt, row, &output.into_inner().taken, end.2);
    assert!(rt;
        ended.status == end.0,
        "{row}: status {} in place of {}",
        ended.status,
        end.0
    );
    match ended.file {
        Some(file) => Some(file.into_file()),
        None => None,
    }
}

// Expects that a watch over these bytes ends so, and leaves these.
fn expect_kept(
    rt: &impl Abort,
    alloc: Global,
    row: &str,
    before: &[u8],
    input: &[u8],
    end: End,
    after: &[u8],
) -> u64 {
    let files = file_of(rt, alloc, before, 0);
    let file = expect_watch(rt, alloc, row, files, &mut Source::of(input), end);
    let file = file.expect(rt, "a file");
    expect_text(rt, row, file.bytes(), after);
    file.calls()
}

const SILENT: End<'static> = (0, "", b"");

// The air file of EA01 at another moment, and with lines behind it.
fn air_file_at(rt: &impl Abort, alloc: Global, moment: &[u8], behind: &[u8]) -> Vec<u8> {
    let lines = AIR_FILE_OF_EA01.strip_prefix(MOMENT_OF_EA01);
    join(rt, alloc, &[moment, lines.expect(rt, "a moment"), behind])
}

#[test]
fn kept_x(rt: HostRuntime) {
    let input = AIR_FILE_OF_EA01;
    expect_kept(&rt, rt.alloc(), "kept-x", b"", input, SILENT, KEPT);
}

// A sync, and a read at each gate: it isn't written.
#[test]
fn kept_repeat(rt: HostRuntime) {
    let input = air_file_at(&rt, rt.alloc(), b"T 1735706400\n", b"");
    let calls = expect_kept(&rt, rt.alloc(), "kept-repeat", KEPT, &input, SILENT, KEPT);
    assert!(rt; calls == 3, "{calls} calls");
}

#[test]
fn kept_damaged(rt: HostRuntime) {
    let damaged = b"\n[EA01 2025-01-01 00:40:00 full 0/5]\n\0EST\n\n ";
    let end: End = (2, "navtex: the log x.log is damaged at line 3\n", b"");
    let input = AIR_FILE_OF_EA01;
    expect_kept(
        &rt,
        rt.alloc(),
        "kept-damaged",
        damaged,
        input,
        end,
        damaged,
    );
}

// A log of `listen` begins with an entry, and is told for what it is.
#[test]
fn kept_foreign(rt: HostRuntime) {
    let foreign = b"[EA01 2025-01-01 00:40:00 full 0/5]\nTEST\n\n";
    let told = "navtex: the log x.log is damaged at line 1: it begins with an entry, \
        as a log of listen does\n";
    let input = AIR_FILE_OF_EA01;
    expect_kept(
        &rt,
        rt.alloc(),
        "kept-foreign",
        foreign,
        input,
        (2, told, b""),
        foreign,
    );
}

// Ten bytes stand behind the space, which is on line 5.
#[test]
fn kept_torn(rt: HostRuntime) {
    let torn = join(&rt, rt.alloc(), &[KEPT, b"[EA02 2025"]);
    let told = "navtex: 10 bytes at line 5 of the log are no kept entry, and are cut\n";
    expect_kept(
        &rt,
        rt.alloc(),
        "kept-torn",
        &torn,
        b"",
        (0, told, b""),
        KEPT,
    );
}

// Two entries that somebody appended, of 42 and 37 bytes.
#[test]
fn kept_appended(rt: HostRuntime) {
    let more: &[u8] = b"[EA01 2025-01-01 00:40:00 full 0/5]\nTEST\n\n\
        [EB02 2025-01-01 00:40:00 full 0/0]\n\n";
    let appended = join(&rt, rt.alloc(), &[KEPT, more]);
    let told = "navtex: 79 bytes at line 5 of the log are no kept entry, and are cut\n\
        navtex: cut: [EA01 2025-01-01 00:40:00 full 0/5]\n\
        navtex: cut: [EB02 2025-01-01 00:40:00 full 0/0]\n";
    let end: End = (0, told, b"");
    expect_kept(&rt, rt.alloc(), "kept-appended", &appended, b"", end, KEPT);
}

// A gate that a crash tore as it was made.
#[test]
fn kept_gate(rt: HostRuntime) {
    let told = "navtex: 1 byte at line 1 of the log is no kept entry, and is cut\n";
    expect_kept(
        &rt,
        rt.alloc(),
        "kept-gate",
        b"x",
        b"",
        (0, told, b""),
        b" ",
    );
}

// The third call is the cut, which fails: behind what it would have cut, that is told.
#[test]
fn its_cut_fails(rt: HostRuntime) {
    let told = "navtex: 10 bytes at line 1 of the log are no kept entry, and are cut\n\
        navtex: the log x.log can't be written\n";
    let files = file_of(&rt, rt.alloc(), b" [EA02 2025", 3);
    let mut source = Source::of(AIR_FILE_OF_EA01);
    expect_watch(
        &rt,
        rt.alloc(),
        "its-cut-fails",
        files,
        &mut source,
        (1, told, b""),
    );
}

#[test]
fn watch_clock_back(rt: HostRuntime) {
    let input = air_file_at(&rt, rt.alloc(), MOMENT_OF_EA01, b"T 5\nT 6\n");
    let told = "navtex: line 5 had no effect: its moment is before the last one\n\
        navtex: 2 lines had no effect\n\
        navtex: line 6: moment 6 is before 1735692000\n";
    expect_kept(
        &rt,
        rt.alloc(),
        "watch-clock-back",
        b"",
        &input,
        (2, told, b""),
        KEPT,
    );
}

#[test]
fn its_log_cannot_be_had(rt: HostRuntime) {
    for (fault, status, line) in [
        (
            FileFault::Open(FileOpenFault::Other),
            1,
            "navtex: the log x.log can't be opened\n",
        ),
        (
            FileFault::Busy,
            2,
            "navtex: another watch has the log x.log\n",
        ),
        (FileFault::Memory, 1, "navtex: out of memory\n"),
    ] {
        expect_unopened(&rt, rt.alloc(), fault, status, line);
    }
}

#[test]
fn its_log_cannot_be_opened(rt: HostRuntime) {
    for (why, line) in [
        (
            FileOpenFault::NoFolder,
            "navtex: the log x.log can't be opened: its folder isn't there\n",
        ),
        (
            FileOpenFault::NoLeave,
            "navtex: the log x.log can't be opened: there is no leave to read and write it\n",
        ),
        (
            FileOpenFault::DeadLink,
            "navtex: the log x.log can't be opened: it is a link that leads nowhere\n",
        ),
        (
            FileOpenFault::FolderName,
            "navtex: the log x.log can't be opened: its name is that of a folder\n",
        ),
        (
            FileOpenFault::LongName,
            "navtex: the log x.log can't be opened: its name is too long\n",
        ),
        (
            FileOpenFault::NoRoom,
            "navtex: the log x.log can't be opened: there is no room on the disk\n",
        ),
        (
            FileOpenFault::OnlyRead,
            "navtex: the log x.log can't be opened: its disk can only be read\n",
        ),
        (
            FileOpenFault::NotRegular,
            "navtex: the log x.log can't be opened: it is no regular file\n",
        ),
        (
            FileOpenFault::NoLock,
            "navtex: the log x.log can't be opened: it can't be locked\n",
        ),
        (
            FileOpenFault::Moved,
            "navtex: the log x.log can't be opened: it was moved while it was opened\n",
        ),
        (
            FileOpenFault::FolderUnread,
            "navtex: the log x.log can't be opened: there is no leave to read its folder\n",
        ),
        (
            FileOpenFault::FolderUnsynced,
            "navtex: the log x.log can't be opened: its folder can't be brought to the disk\n",
        ),
    ] {
        expect_unopened(&rt, rt.alloc(), FileFault::Open(why), 1, line);
    }
}

// Expects that a watch whose log can't be had for this fault ends so, and reads nothing.
fn expect_unopened(rt: &impl Abort, alloc: Global, fault: FileFault, status: u8, line: &str) {
    let files = Given { opened: Err(fault) };
    let mut source = Source::of(AIR_FILE_OF_EA01);
    let file = expect_watch(rt, alloc, line, files, &mut source, (status, line, b""));
    assert!(rt; file.is_none(), "{line}");
    assert!(rt; source.calls == 0, "{line}");
}

// Its first call is a sync, and the second a read.
#[test]
fn its_disk_fails(rt: HostRuntime) {
    for (call, line) in [
        (1, "navtex: the log x.log can't be written\n"),
        (2, "navtex: the log x.log can't be opened\n"),
    ] {
        let files = file_of(&rt, rt.alloc(), KEPT, call);
        let mut source = Source::of(AIR_FILE_OF_EA01);
        expect_watch(&rt, rt.alloc(), line, files, &mut source, (1, line, b""));
    }
}

#[test]
fn its_input_fails(rt: HostRuntime) {
    let files = file_of(&rt, rt.alloc(), b"", 0);
    let mut source = Source::of(AIR_FILE_OF_EA01);
    source.fails_at = Some(1);
    let end: End = (1, "navtex: read failed\n", b"");
    expect_watch(&rt, rt.alloc(), "read", files, &mut source, end);
}
