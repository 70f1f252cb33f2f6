//! The calls that a log makes of the system, all of them. No contract can say what a call does on a
//! disk, so these lines are read by people: before each call stands what to ask there. What follows
//! from the calls is proved elsewhere, once each does what its name says.

ghost use Rattle.std.specs.Prelude.{IfOk};
ghost use Rattle.nx_disk.specs.Fresh.{IsFresh};

use crate::file::{FileFault, FileOpenFault};
use crate::history::LeftBefore;
use crate::noted::{Noted, RawFile};
use nx_kept::{DiskFailed, DiskFile};
use std::alloc::Global;
use std::fs::{self, File, Files, OpenOptions};
use std::io;
use std::os::fd::AsRawFd;
use std::os::unix::fs::{FileExt, MetadataExt};
use std::path::Path;

/// An open regular file, locked for as long as it is open, and its name.
#[derive(Drop)]
pub struct LogFile<'a, R> {
    file: File,
    files: &'a R,
    path: String,
    /// Its file system, and its number there, by which a name leads to it.
    device: u64,
    inode: u64,
}

/// The closed gate with which an empty log begins.
const FIRST_GATE: u8 = b' ';

/// Opens the regular file of that name, or makes it, and locks it. Its folder is brought to the
/// disk, so that a crash doesn't lose a file that was made. An empty file is given its first gate,
/// so that a disk without room for one byte is told. Its other bytes are brought to the disk by the
/// first call of a `KeptLog`. A link at the name is followed. No call of it was made then, and a
/// crash may leave what it holds, or one of the files of `left`.
pub fn open<'a, R: Files<File = File>>(
    alloc: Global,
    files: &'a R,
    path: &str,
    left: LeftBefore,
) -> Result<Noted<LogFile<'a, R>>, FileFault>
    ensures { IfOk result (λ file. IsFresh ⟦<Noted<LogFile<'a, R>> as DiskFile>⟧ left.files file) }
{
    // Is it the whole name, however long?
    let path = String::from_str(alloc, path)?;
    let mut file = open_or_make(files, path.as_str())?;
    // Is its descriptor above the three of the standard streams? (What is meant for one that was
    // closed must not land in the log.) Is the lower one closed?
    if file.as_raw_fd() <= 2 {
        file = file.try_clone()?;
    }
    // Is all but a regular file refused, and a regular file of any size taken?
    let found = file.metadata()?;
    if !found.is_file() {
        return Err(FileFault::Open(FileOpenFault::NotRegular));
    }
    // Is the lock exclusive, is it not waited for, and is it kept until the file is closed?
    file.try_lock()?;
    let log = LogFile {
        file,
        files,
        path,
        device: found.dev(),
        inode: found.ino(),
    };
    // Does the name lead to this file now that it is locked?
    if !log.is_named() {
        return Err(FileFault::Open(FileOpenFault::Moved));
    }
    // Is the folder brought to the disk before a byte is written?
    sync_folder(files, log.path.as_str())?;
    // Is the file still empty, now that nobody else may write it? Is the gate brought to the disk,
    // and a fault told?
    if log.file.metadata()?.len() == 0 {
        log.file.write_all_at(&[FIRST_GATE], 0)?;
        log.file.sync_all()?;
    }
    Ok(Noted::new(log, left))
}

fn open_or_make<R: Files<File = File>>(files: &R, path: &str) -> Result<File, FileFault> {
    if let Some(file) = open_there(files, path)? {
        return Ok(file);
    }
    // Is no file made in a folder that can't be read, and so can't be brought to the disk?
    open_folder(files, path)?;
    // Is one made only where there is none, also if another is made meanwhile?
    match OpenOptions::new()
        .read(true)
        .write(true)
        .create_new(true)
        .open(files, path)
    {
        Ok(file) => Ok(file),
        // Is that other one opened then? Where there is none, is it a link that keeps one from
        // being made?
        Err(error) if error.kind() == io::ErrorKind::AlreadyExists => {
            open_there(files, path)?.ok_or(FileFault::Open(FileOpenFault::DeadLink))
        }
        Err(error) => Err(FileFault::from(error)),
    }
}

fn open_there<R: Files<File = File>>(files: &R, path: &str) -> Result<Option<File>, FileFault> {
    match fs::metadata(files, path) {
        // Is nothing but a regular file opened? (To open a pipe or a device may do something, or
        // wait.) Is a folder told as one?
        Ok(found) if found.is_dir() => Err(FileFault::Open(FileOpenFault::FolderName)),
        Ok(found) if !found.is_file() => Err(FileFault::Open(FileOpenFault::NotRegular)),
        // Is a file that is there opened to read and to write, and nothing of it cut?
        Ok(_) => Ok(Some(OpenOptions::new().read(true).write(true).open(files, path)?)),
        // Does the name lead to no file?
        Err(error) if error.kind() == io::ErrorKind::NotFound => Ok(None),
        Err(error) => Err(FileFault::from(error)),
    }
}

fn open_folder<R: Files<File = File>>(files: &R, path: &str) -> Result<File, FileFault> {
    // Is it the folder in which the name stands, also where the name has no folder?
    let folder = match Path::new(path).parent() {
        Some(folder) if !folder.as_str().is_empty() => folder,
        _ => Path::new("."),
    };
    // Is want of leave for the folder told apart from that for the file?
    match File::open(files, folder) {
        Ok(folder) => Ok(folder),
        Err(error) if error.kind() == io::ErrorKind::PermissionDenied => {
            Err(FileFault::Open(FileOpenFault::FolderUnread))
        }
        Err(error) => Err(FileFault::from(error)),
    }
}

fn sync_folder<R: Files<File = File>>(files: &R, path: &str) -> Result<(), FileFault> {
    // Is that folder brought to the disk, and a fault told?
    match open_folder(files, path)?.sync_all() {
        Ok(()) => Ok(()),
        Err(_) => Err(FileFault::Open(FileOpenFault::FolderUnsynced)),
    }
}

impl<R: Files> LogFile<'_, R> {
    /// Whether the name still leads to the open file.
    fn is_named(&self) -> bool {
        // Are both compared, those of the name with those of the file that was locked?
        fs::metadata(self.files, self.path.as_str()).is_ok_and(|named| named.dev() == self.device
            && named.ino() == self.inode)
    }
}

impl<R: Files> RawFile for LogFile<'_, R> {
    fn read_at(&mut self, at: u64, room: &mut [u8]) -> Result<usize, DiskFailed> {
        let mut got = 0;
        'fill: while got < room.len() {
            // Are these the bytes behind those that were got, of this place of this file?
            let Ok(count) = self
                .file
                .read_at(&mut room[got..], at.wrapping_add(got as u64))
            else {
                return Err(DiskFailed);
            };
            // Are there fewer than the room takes only at the end of the file?
            if count == 0 {
                break;
            }
            got += count;
        }
        Ok(got)
    }

    fn write_at(&mut self, at: u64, bytes: &[u8]) -> Result<(), DiskFailed> {
        // Are all bytes written, however many, at this place and no other, and is a fault told?
        self.file.write_all_at(bytes, at).map_err(|_| DiskFailed)
    }

    fn cut(&mut self, size: u64) -> Result<(), DiskFailed> {
        // Is the file this long then, whatever its size, with the bytes up to there as they were?
        self.file.set_len(size).map_err(|_| DiskFailed)
    }

    /// Fails also where the name doesn't lead to the open file any more: what is written there
    /// nobody would find.
    fn sync(&mut self) -> Result<(), DiskFailed> {
        // Is this file brought to the disk, its length too, and is a fault told?
        if self.file.sync_all().is_ok() && self.is_named() {
            Ok(())
        } else {
            Err(DiskFailed)
        }
    }
}
