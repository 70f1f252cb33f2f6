//! A kept log in a file in memory whose disk fails, and tears what was written, in each call.

use super::super::{KEPT, LOG_OF_EA01};
use super::Count;
use nx_disk::{LeftBefore, Noted, Tear, TornFile};
use nx_kept::{KeptLog, OpenFault};
use nx_log::MAX_LOGGED;
use nx_watch::LogGrammar;
use std::alloc::Global;
use std::process::Abort;
use std::test::Fail;

/// The entry of EA01 under other numbers.
const NEXT: &[u8] = b"[FA02 2025-01-01 00:40:00 full 0/5]\nTEST\n\n";

type Log = KeptLog<Noted<TornFile>, LogGrammar>;

fn open(alloc: Global, file: TornFile) -> (Result<Log, (OpenFault, Noted<TornFile>)>, Count) {
    let mut count = Count::default();
    let opened = KeptLog::open(
        alloc,
        Noted::new(file, LeftBefore::any()),
        LogGrammar,
        &mut count,
    );
    (opened, count)
}

fn opened(alloc: Global, bytes: &[u8]) -> Result<(Log, Count), Fail> {
    let (opened, count) = open(alloc, TornFile::new(alloc, bytes)?);
    match opened {
        Ok(log) => Ok((log, count)),
        Err((fault, _device)) => Err(fault.into()),
    }
}

/// An empty file is opened, and an entry is put.
#[test]
fn an_entry_is_put_behind_a_newline(rt: HostRuntime) -> Result<(), Fail> {
    let alloc = rt.alloc();
    let (mut log, count) = opened(alloc, b"")?;
    assert_eq!(rt; count.records, 0);
    assert_eq!(rt; log.device.file().bytes(), b" ".as_slice());
    assert_eq!(rt; log.put(LOG_OF_EA01), Ok(()));
    assert_eq!(rt; log.device.file().bytes(), KEPT);
    Ok(())
}

/// A log at rest is read, and not written.
#[test]
fn a_log_at_rest_is_only_read(rt: HostRuntime) -> Result<(), Fail> {
    let alloc = rt.alloc();
    let (log, count) = opened(alloc, KEPT)?;
    assert_eq!(rt; (count.records, count.cut), (1, 0));
    // It is synced, and read at each gate.
    assert_eq!(rt; log.device.file().calls(), 3);
    Ok(())
}

/// What a torn put left behind the closed gate is cut.
#[test]
fn a_torn_tail_is_cut(rt: HostRuntime) -> Result<(), Fail> {
    let alloc = rt.alloc();
    let mut torn = KEPT.to_vec(alloc)?;
    torn.extend_from_slice(b"[EA02 2025")?;
    let (log, count) = opened(alloc, &torn)?;
    assert_eq!(rt; count.records, 1);
    // The closed gate stands on the line behind the four of the entry.
    assert_eq!(rt; (count.cut, count.cut_line), (10, 5));
    assert_eq!(rt; log.device.file().bytes(), KEPT);
    Ok(())
}

/// So is a gate that was torn, which is any byte but a space.
#[test]
fn a_torn_gate_is_cut(rt: HostRuntime) -> Result<(), Fail> {
    let alloc = rt.alloc();
    let (log, count) = opened(alloc, b"\0")?;
    assert_eq!(rt; (count.records, count.cut, count.cut_line), (0, 1, 1));
    assert_eq!(rt; log.device.file().bytes(), b" ".as_slice());
    Ok(())
}

/// What the file stands for is counted, and then it is opened with a crash in each call.
fn stays(rt: &impl Abort, alloc: Global, bytes: &[u8]) -> Result<u64, Fail> {
    let (_log, count) = opened(alloc, bytes)?;
    for call in 1..12 {
        let (opened, _count) = open(alloc, TornFile::new(alloc, bytes)?.failing_in(call));
        match opened {
            Ok(_log) => {}
            Err((_fault, device)) => {
                for tear in Tear::ALL {
                    stays_so(rt, alloc, device.file(), (call, tear), count)?;
                }
            }
        }
    }
    Ok(count.records)
}

/// What is left behind a crash in a call of the opening stands for as many records.
fn stays_so(
    rt: &impl Abort,
    alloc: Global,
    file: &TornFile,
    crash: (u64, Tear),
    count: Count,
) -> Result<(), Fail> {
    let (call, tear) = crash;
    let (_log, again) = opened(alloc, &file.left(alloc, tear)?)?;
    let found = (again.records, again.last);
    assert_eq!(rt;
        found,
        (count.records, count.last),
        "call {call} of the opening, {tear:?}"
    );
    Ok(())
}

/// The file stands for all that was put with an Ok, and for one more at most.
fn crashes_in(
    rt: &impl Abort,
    alloc: Global,
    next: &[u8],
    call: u64,
    tears: &[Tear],
) -> Result<(), Fail> {
    let (opened, _count) = open(alloc, TornFile::new(alloc, KEPT)?.failing_in(call));
    if let Ok(mut log) = opened {
        let mut kept = 1;
        if log.put(next).is_ok() {
            kept = 2;
            if log.put(LOG_OF_EA01).is_ok() {
                kept = 3;
            }
        }
        for tear in tears {
            let found = stays(rt, alloc, &log.device.file().left(alloc, *tear)?)?;
            assert!(rt;
                kept <= found && found <= 3 && found <= kept + 1,
                "call {call}, {tear:?}: {found} records of {kept} that were put"
            );
        }
    }
    Ok(())
}

/// The longest entry: a first line of 44 bytes, a text of 4,100 lost characters, and two newlines.
fn longest_entry(alloc: Global) -> Result<Vec<u8>, Fail> {
    let mut entry = b"[FA02/1 2025-01-01 00:40:00 long 4100/4100]\n".to_vec(alloc)?;
    entry.resize(4144, b'*')?;
    entry.extend_from_slice(b"\n\n")?;
    Ok(entry)
}

/// Two puts, of five calls each, behind an opening of three.
#[test]
fn each_call_may_be_the_last(rt: HostRuntime) -> Result<(), Fail> {
    for call in 4..15 {
        crashes_in(&rt, rt.alloc(), NEXT, call, &Tear::ALL)?;
    }
    Ok(())
}

/// A put of the longest entry that ends in one of its calls leaves the longest tail.
#[test]
fn the_longest_tail_is_cut(rt: HostRuntime) -> Result<(), Fail> {
    let longest = longest_entry(rt.alloc())?;
    assert_eq!(rt; longest.len(), MAX_LOGGED);
    for call in 4..9 {
        crashes_in(&rt, rt.alloc(), &longest, call, &[Tear::All])?;
    }
    Ok(())
}
