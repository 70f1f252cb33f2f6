//! The watch of a log: how its file is opened, and how a failure is told.

ghost use Rattle.std.specs.Prelude.{◌≡◌, [], List, ℕ, Option, Result, Err, Some, ◌++◌};
ghost use Rattle.nx_fec.specs.Transfers.{devices};
ghost use Rattle.nx_disk.specs.declared.file.FileFault.TheVariants.{Open};
ghost use Rattle.nx_program.specs.Status.{watch_failure_status};
ghost use Rattle.nx_program.specs.declared.watch_command.WatchFailure.TheVariants.{Unopened, Ended};
ghost use Rattle.nx_program.specs.WatchCommand as spec;
ghost use Rattle.nx_program.specs.WatchCommand.{WatchesLog, beside, watch_fault_line, watch_outcome};
ghost use Rattle.nx_watch.specs.LineRun.{HasTold};
ghost use Rattle.nx_watch.specs.Stamps.{IsFresh, counted_of, cut_notes, stamps_of};

use crate::arguments::Sendings;
use crate::fault::Fault;
use crate::fault_text::open_reason;
use crate::file_name::FileName;
use nx_disk::{FileFault, FileOpenFault, LeftBefore, LogFile, Noted, RawFile};
use nx_fec::Counting;
use nx_kept::{DiskFailed, DiskFile};
use nx_watch::{StampedReader, WatchFault, WatchReport, tell, watch, watch_combined, write_more};
use std::alloc::Global;
use std::fs::{File, Files};
use std::io::{Read, Write};

/// What opens the file of a log.
pub trait LogFiles {
    ghost use Rattle.std.specs.Prelude.{List, ℕ, Result};
    ghost use Rattle.nx_disk.specs.declared.file.FileFault.{FileFault};

    /// An open file.
    type Disk: DiskFile + Drop;

    /// What opening the file of this name may give.
    ghost gives: { Self → List ℕ → Result Self.Disk FileFault → Type 0 };

    /// Opens the file of this name.
    fn open(self, name: &str) -> Result<Self::Disk, FileFault>
        ensures { gives self name.now result };
}

/// The files of the system. What they have no clause can say. Of one that was just opened no call
/// was made, and a crash may leave what it holds, or one of the files of `left`.
#[derive(Drop)]
pub struct SystemFiles<'a, R> {
    alloc: Global,
    system: &'a R,
    left: LeftBefore,
}

impl<'a, R> SystemFiles<'a, R> {
    /// The files of this system, and those of which a crash could leave one before the log is
    /// opened.
    pub fn new(alloc: Global, system: &'a R, left: LeftBefore) -> Self
        ensures { result.left ≡ left }
    {
        SystemFiles {
            alloc,
            system,
            left,
        }
    }
}

impl<'a, R: Files<File = File>> LogFiles for SystemFiles<'a, R> {
    ghost use Rattle.std.specs.Prelude.{IfOk};
    ghost use Rattle.nx_disk.specs.Fresh.{IsFresh as IsJustOpened};

    type Disk = Noted<LogFile<'a, R>>;

    ghost gives = { λ files name opened. IfOk opened (λ file.
        IsJustOpened ⟦<Noted<LogFile<'a, R>> as DiskFile>⟧ files.left.files file) };

    fn open(self, name: &str) -> Result<Noted<LogFile<'a, R>>, FileFault> {
        let SystemFiles {
            alloc,
            system,
            left,
        } = self;
        nx_disk::open(alloc, system, name, left)
    }
}

/// No files: none can be opened.
#[derive(Drop)]
pub struct NoFiles;

/// A file that there isn't. Its disk fails.
#[derive(Drop)]
pub struct NoFile;

impl RawFile for NoFile {
    fn read_at(&mut self, _at: u64, _room: &mut [u8]) -> Result<usize, DiskFailed> {
        Err(DiskFailed)
    }

    fn write_at(&mut self, _at: u64, _bytes: &[u8]) -> Result<(), DiskFailed> {
        Err(DiskFailed)
    }

    fn cut(&mut self, _size: u64) -> Result<(), DiskFailed> {
        Err(DiskFailed)
    }

    fn sync(&mut self) -> Result<(), DiskFailed> {
        Err(DiskFailed)
    }
}

impl LogFiles for NoFiles {
    ghost use Rattle.std.specs.Prelude.{◌≡◌, Err};
    ghost use Rattle.nx_disk.specs.declared.file.FileFault.TheVariants.{Open};
    ghost use Rattle.nx_disk.specs.declared.file.FileOpenFault.TheVariants.{Other};

    type Disk = Noted<NoFile>;

    ghost gives = { λ files name opened. opened ≡ Err (Open Other) };

    fn open(self, _name: &str) -> Result<Noted<NoFile>, FileFault> {
        Err(FileFault::Open(FileOpenFault::Other))
    }
}

/// Why the watch of a log failed.
#[derive(Clone, Copy, Debug, Drop, PartialEq, Eq)]
pub enum WatchFailure {
    /// Its file can't be had.
    Unopened(FileFault),
    /// The watch ended before its input.
    Ended(WatchFault),
}

impl WatchFailure {
    /// Its exit status: `1` for a device or memory, `2` for a bad file or line.
    pub fn status(&self) -> u8
        ensures { result ≡ watch_failure_status self.now }
    {
        match self {
            WatchFailure::Unopened(FileFault::Busy)
            | WatchFailure::Ended(WatchFault::Damaged { .. } | WatchFault::Back { .. }) => 2,
            _ => 1,
        }
    }

    /// Tells of it on standard error by one line, which names the log. A failed write is passed
    /// over, and nothing is told behind one.
    pub fn tell<E: Write>(&self, log: &FileName, faults: &mut Counting<E>)
        ensures { (old : Option (List ℕ)) (text : List ℕ)
            → HasTold old (E.contents faults.old.inner) faults.old.failures text
            → HasTold old (E.contents faults.new.inner) faults.new.failures
            (text ++ watch_fault_line log.now self.now) }
    {
        match self {
            WatchFailure::Unopened(why) => tell_of_file(*why, log, faults),
            WatchFailure::Ended(why) => tell_of_end(*why, log, faults),
        }
    }
}

/// Tells why the file of the log can't be had.
fn tell_of_file<E: Write>(why: FileFault, log: &FileName, faults: &mut Counting<E>)
    ensures { (old : Option (List ℕ)) (text : List ℕ)
        → HasTold old (E.contents faults.old.inner) faults.old.failures text
        → HasTold old (E.contents faults.new.inner) faults.new.failures
        (text ++ watch_fault_line log.now (Unopened why)) }
{
    match why {
        FileFault::Open(why) => tell_unopened(why, log, faults),
        FileFault::Busy => tell_of_log(b"navtex: another watch has the log ", log, b"\n", faults),
        FileFault::Memory => write_more(b"navtex: out of memory\n", faults),
    }
}

/// Tells that the file of the log can't be opened, and why.
fn tell_unopened<E: Write>(why: FileOpenFault, log: &FileName, faults: &mut Counting<E>)
    ensures { (old : Option (List ℕ)) (text : List ℕ)
        → HasTold old (E.contents faults.old.inner) faults.old.failures text
        → HasTold old (E.contents faults.new.inner) faults.new.failures
        (text ++ watch_fault_line log.now (Unopened (Open why))) }
{
    tell_of_log(b"navtex: the log ", log, b" can't be opened", faults);
    write_more(open_reason(why), faults);
    write_more(b"\n", faults);
}

/// Tells why the watch of the log ended before its input.
fn tell_of_end<E: Write>(why: WatchFault, log: &FileName, faults: &mut Counting<E>)
    ensures { (old : Option (List ℕ)) (text : List ℕ)
        → HasTold old (E.contents faults.old.inner) faults.old.failures text
        → HasTold old (E.contents faults.new.inner) faults.new.failures
        (text ++ watch_fault_line log.now (Ended why)) }
{
    match why {
        WatchFault::Open => tell_of_log(b"navtex: the log ", log, b" can't be opened\n", faults),
        WatchFault::Disk => tell_of_log(b"navtex: the log ", log, b" can't be written\n", faults),
        WatchFault::Memory => write_more(b"navtex: out of memory\n", faults),
        WatchFault::Read => write_more(b"navtex: read failed\n", faults),
        WatchFault::Damaged { line, first } => {
            tell_of_log(b"navtex: the log ", log, b" is damaged at line ", faults);
            tell(b"", line, b"", faults);
            write_more(damage_end(begins_with_entry(first)), faults);
        }
        WatchFault::Back { line, last, given } => {
            tell(b"navtex: line ", line, b": moment ", faults);
            tell(b"", given, b" is before ", faults);
            tell(b"", last, b"\n", faults);
        }
    }
}

/// Whether a file with this first byte begins with an entry, as a log of `listen` does.
fn begins_with_entry(first: Option<u8>) -> bool
    ensures { result ≡ spec.begins_with_entry first }
{
    match first {
        Some(byte) => byte == b'[',
        None => false,
    }
}

/// The end of the line that tells of a damaged log.
fn damage_end(begins_with_entry: bool) -> &'static [u8]
    ensures { result.now ≡ spec.damage_end begins_with_entry }
{
    if begins_with_entry {
        b": it begins with an entry, as a log of listen does\n"
    } else {
        b"\n"
    }
}

/// Tells the name of the log between two texts.
fn tell_of_log<E: Write>(before: &[u8], log: &FileName, behind: &[u8], faults: &mut Counting<E>)
    ensures { (old : Option (List ℕ)) (text : List ℕ)
        → HasTold old (E.contents faults.old.inner) faults.old.failures text
        → HasTold old (E.contents faults.new.inner) faults.new.failures
        (text ++ (before.now ++ (log.now ++ behind.now))) }
{
    write_more(before, faults);
    write_more(log.as_str().as_bytes(), faults);
    write_more(behind, faults);
}

/// What the program tells of the watch of the log of this name, by its answer and its file, which
/// is handed back.
fn ended<'a, D: Drop>(
    log: FileName<'a>,
    watched: (Result<WatchReport, WatchFault>, D),
) -> (Result<(), Fault<'a>>, Option<D>)
    ensures outcome { result.0 ≡ watch_outcome log.entry watched.0 }
    ensures file { result.1 ≡ Some watched.1 }
{
    let (answer, file) = watched;
    let outcome = match answer {
        Ok(_) => Ok(()),
        Err(why) => Err(Fault::Watch(log, WatchFailure::Ended(why))),
    };
    (outcome, Some(file))
}

/// Opens the log of this name and watches it from this moment on, and takes the sendings of a
/// message so. Its file is handed back, if it was opened.
pub fn watch_log<'a, F: LogFiles, R: Read, W: Write, E: Write>(
    alloc: Global,
    sendings: Sendings,
    log: FileName<'a>,
    moment: u64,
    files: F,
    reader: &mut StampedReader<R, F::Disk, Counting<W>, Counting<E>>,
    writer: &mut Counting<W>,
    faults: &mut Counting<E>,
) -> (Result<(), Fault<'a>>, Option<F::Disk>)
    requires reader { IsFresh reader.old }
    requires unnoted { cut_notes reader.old ≡ [] }
    requires writer { writer.old.failures ≡ 0 }
    requires faults { faults.old.failures ≡ 0 }
    ensures { WatchesLog
        (devices R.remaining W.contents (counted_of reader.old) (counted_of reader.new) writer.old
        writer.new)
        (beside files F.gives result.1 F.Disk.DiskFile E.contents faults.old faults.new
        (stamps_of reader.new) (cut_notes reader.new))
        sendings log.entry moment result.0 }
{
    match files.open(log.as_str()) {
        Ok(disk) => match sendings {
            Sendings::Alone => ended(log, watch(alloc, moment, disk, reader, writer, faults)),
            Sendings::Together => ended(
                log,
                watch_combined(alloc, moment, disk, reader, writer, faults),
            ),
        },
        Err(why) => (Err(Fault::Watch(log, WatchFailure::Unopened(why))), None),
    }
}
