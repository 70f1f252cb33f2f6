//! A disk file over calls without a contract: each is noted with its answer, and what follows from
//! the notes is what the clauses say.

ghost use Rattle.std.specs.Prelude.{◌+◌, ◌<◌, ◌^◌, ℕ, length, OnOk};
ghost use Rattle.nx_disk.specs.Events.{Explains, HasFailed, HasFailedWithin, LeftSince, MayLeave, ReadsDisk, ChangesDisk, faults_of, seen_of};
ghost use Rattle.nx_disk.specs.Events as events;
ghost use Rattle.nx_disk.specs.Fresh.{IsFresh};

use crate::history::{DiskCall, History, LeftBefore};
use nx_kept::{DiskFailed, DiskFile};

/// A file has fewer than 2^63 bytes.
const MAX_FILE: usize = (1 << 63) - 1;

/// The calls of a file. They have no contract: what they do on a disk no clause can say.
pub trait RawFile {
    /// Reads the bytes from a place on into the room, fewer than the room takes only at the end of
    /// the file; how many.
    fn read_at(&mut self, at: u64, room: &mut [u8]) -> Result<usize, DiskFailed>;

    /// Writes all the bytes at a place.
    fn write_at(&mut self, at: u64, bytes: &[u8]) -> Result<(), DiskFailed>;

    /// Cuts the file to a size.
    fn cut(&mut self, size: u64) -> Result<(), DiskFailed>;

    /// Brings the file to the disk.
    fn sync(&mut self) -> Result<(), DiskFailed>;
}

/// A file, and the calls that were made of it with their answers. They are said to be those of a
/// file that does what it was asked: see the clauses of `DiskFile`.
#[derive(Drop)]
pub struct Noted<F> {
    file: F,
    left: LeftBefore,
    history: History,
}

impl<F: RawFile> Noted<F> {
    /// The file, of which no call was made, and what a crash could leave before.
    pub fn new(file: F, left: LeftBefore) -> Self
        ensures { IsFresh ⟦<Noted<F> as DiskFile>⟧ left.files result }
    {
        Noted {
            file,
            left,
            history: History::new(),
        }
    }

    /// The file.
    pub fn file(&self) -> &F {
        &self.file
    }

    /// Gives the file back.
    pub fn into_file(self) -> F {
        let Noted {
            file,
            left: _,
            history: _,
        } = self;
        file
    }
}

/// Writes all the bytes, where they end within the largest file.
fn write_in_range<F: RawFile>(file: &mut F, at: usize, bytes: &[u8]) -> Result<(), DiskFailed>
    ensures { OnOk result (at + length bytes.now < 2 ^ 63) }
{
    if at > MAX_FILE || bytes.len() > MAX_FILE - at {
        return Err(DiskFailed);
    }
    file.write_at(at as u64, bytes)
}

impl<F: RawFile> DiskFile for Noted<F> {
    ghost explains = { λ start f. Explains start f.history.events };

    ghost seen = { λ start f. seen_of start f.history.events };

    ghost may_leave = { λ start f c. MayLeave start f.left.files f.history.events c };

    ghost moment = { λ f. length f.history.events };

    ghost left_since = { λ start f t c. LeftSince start f.left.files f.history.events t c };

    ghost faults = { λ f. faults_of f.history.events };

    ghost has_failed_to_read = { λ f. HasFailed ReadsDisk f.history.events };

    ghost has_failed_to_write = { λ f. HasFailed ChangesDisk f.history.events };

    ghost has_failed_within = { λ start f. HasFailedWithin start f.history.events };

    ghost counts_now = { λ start f t c le now. events.counts_now start f.left.files f.history.events
        t c le now };

    ghost only_now = { λ start f c left. events.only_now start f.left.files f.history.events c
        left };

    fn read_at(&mut self, at: usize, room: &mut [u8]) -> Result<usize, DiskFailed> {
        let call = DiskCall::Read {
            at,
            room: room.len(),
        };
        if let Ok(count) = self.file.read_at(at as u64, room)
            && at <= MAX_FILE
            && count <= room.len()
            && count <= MAX_FILE - at
        {
            self.history.note(&call, true, &room[..count]);
            return Ok(count);
        }
        self.history.note(&call, false, &[]);
        Err(DiskFailed)
    }

    fn write_at(&mut self, at: usize, bytes: &[u8]) -> Result<(), DiskFailed> {
        let call = DiskCall::Written { at };
        let answer = write_in_range(&mut self.file, at, bytes);
        match answer {
            Ok(()) => self.history.note(&call, true, bytes),
            Err(_) => self.history.note(&call, false, bytes),
        }
        answer
    }

    fn cut(&mut self, size: usize) -> Result<(), DiskFailed> {
        let call = DiskCall::Cut { size };
        let answer = self.file.cut(size as u64);
        match answer {
            Ok(()) => self.history.note(&call, true, &[]),
            Err(_) => self.history.note(&call, false, &[]),
        }
        answer
    }

    fn sync(&mut self) -> Result<(), DiskFailed> {
        let answer = self.file.sync();
        match answer {
            Ok(()) => self.history.note(&DiskCall::Synced, true, &[]),
            Err(_) => self.history.note(&DiskCall::Synced, false, &[]),
        }
        answer
    }
}
