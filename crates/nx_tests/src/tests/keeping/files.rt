//! A kept log in a file of the system.

use super::super::LOG_OF_EA01;
use super::Count;
use nx_disk::{FileFault, FileOpenFault, LeftBefore, open};
use nx_kept::{DiskFailed, KeptLog};
use nx_watch::LogGrammar;
use std::fs;
use std::os::unix::fs::symlink;
use std::test::Fail;

/// It is locked while it is open, and no entry goes where its name doesn't lead any more.
#[test]
fn a_file_is_locked_and_found_by_its_name(rt: HostRuntime) -> Result<(), Fail> {
    let path = "nx_disk_test.log";
    let _ = fs::remove_file(&rt, path);
    let mut count = Count::default();
    let file = open(rt.alloc(), &rt, path, LeftBefore::any())?;
    assert_eq!(rt;
        open(rt.alloc(), &rt, path, LeftBefore::any()).err(),
        Some(FileFault::Busy)
    );
    match KeptLog::open(rt.alloc(), file, LogGrammar, &mut count) {
        Ok(mut log) => {
            assert_eq!(rt; log.put(LOG_OF_EA01), Ok(()));
            fs::rename(&rt, path, "nx_disk_test.old")?;
            assert_eq!(rt; log.put(LOG_OF_EA01), Err(DiskFailed));
        }
        Err(_refused) => assert!(rt; false, "opens"),
    }
    let kept = fs::read(&rt, "nx_disk_test.old")?;
    assert!(rt; kept.len() > 44, "{} bytes are kept", kept.len());
    let again = open(rt.alloc(), &rt, "nx_disk_test.old", LeftBefore::any())?;
    assert!(rt; KeptLog::open(rt.alloc(), again, LogGrammar, &mut count).is_ok());
    assert!(rt; count.records >= 1, "no record is kept");
    fs::remove_file(&rt, "nx_disk_test.old")?;
    Ok(())
}

/// Why a file can't be opened is told.
#[test]
fn a_file_that_cannot_be_opened_is_told_why(rt: HostRuntime) -> Result<(), Fail> {
    let link = "nx_disk_test_link";
    let _ = fs::remove_file(&rt, link);
    symlink(&rt, "nx_disk_test_of_none", link)?;
    let mut long = String::new(rt.alloc());
    for _ in 0..256 {
        long.push_str("x")?;
    }
    for (path, why) in [
        (".", FileOpenFault::FolderName),
        ("/dev/null", FileOpenFault::NotRegular),
        ("nx_disk_test_of_none/x.log", FileOpenFault::NoFolder),
        (link, FileOpenFault::DeadLink),
        ("nx_disk_test_of_none/", FileOpenFault::FolderName),
        (long.as_str(), FileOpenFault::LongName),
    ] {
        assert_eq!(rt;
            open(rt.alloc(), &rt, path, LeftBefore::any()).err(),
            Some(FileFault::Open(why))
        );
    }
    fs::remove_file(&rt, link)?;
    Ok(())
}

/// What an opening of the file counts; an entry is put then, if one is asked for.
fn reopened(rt: &HostRuntime, path: &str, puts: bool) -> Result<Count, Fail> {
    let mut count = Count::default();
    let file = open(rt.alloc(), rt, path, LeftBefore::any())?;
    match KeptLog::open(rt.alloc(), file, LogGrammar, &mut count) {
        Ok(mut log) => {
            if puts {
                log.put(LOG_OF_EA01)?;
            }
            Ok(count)
        }
        Err((fault, _file)) => Err(fault.into()),
    }
}

fn add_entry(bytes: &mut Vec<u8>) -> Result<(), Fail> {
    bytes.push(b'\n')?;
    bytes.extend_from_slice(LOG_OF_EA01)?;
    Ok(())
}

/// A name of more than 200 bytes is taken whole.
#[test]
fn a_long_name_leads_to_its_own_file(rt: HostRuntime) -> Result<(), Fail> {
    let mut name = String::from_str(rt.alloc(), "nx_disk_test_")?;
    for _ in 0..20 {
        name.push_str("0123456789")?;
    }
    let path = name.as_str();
    assert_eq!(rt; path.len(), 213);
    let _ = fs::remove_file(&rt, path);
    assert_eq!(rt; reopened(&rt, path, true)?.records, 0);
    assert_eq!(rt; reopened(&rt, path, false)?.records, 1);
    let mut wanted = Vec::new(rt.alloc());
    add_entry(&mut wanted)?;
    wanted.push(b' ')?;
    let kept = fs::read(&rt, path)?;
    assert!(rt;
        kept.as_slice() == wanted.as_slice(),
        "{} bytes are kept",
        kept.len()
    );
    fs::remove_file(&rt, path)?;
    Ok(())
}

/// A log of more than 1 MiB is put to, opened again, and opened with a torn tail.
#[test]
fn a_long_log_is_kept(rt: HostRuntime) -> Result<(), Fail> {
    let path = "nx_disk_test_long.log";
    let mut wanted = Vec::new(rt.alloc());
    for _ in 0..25_000 {
        add_entry(&mut wanted)?;
    }
    wanted.push(b' ')?;
    fs::write(&rt, path, &wanted)?;
    assert_eq!(rt; reopened(&rt, path, true)?.records, 25_000);
    let _gate = wanted.pop();
    add_entry(&mut wanted)?;
    wanted.push(b' ')?;
    let kept = fs::read(&rt, path)?;
    assert!(rt;
        kept.as_slice() == wanted.as_slice(),
        "{} bytes are kept",
        kept.len()
    );
    let mut torn = wanted.clone()?;
    torn.extend_from_slice(b"[EA02 2025")?;
    fs::write(&rt, path, &torn)?;
    let count = reopened(&rt, path, false)?;
    assert_eq!(rt; (count.records, count.cut), (25_001, 10));
    let kept = fs::read(&rt, path)?;
    assert!(rt;
        kept.as_slice() == wanted.as_slice(),
        "{} bytes are kept",
        kept.len()
    );
    fs::remove_file(&rt, path)?;
    Ok(())
}
