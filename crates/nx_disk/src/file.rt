//! Why the file of a log can't be had.

ghost use Rattle.std.specs.Prelude.{◌≡◌};
ghost use Rattle.std.specs.IoError.{error_kind};
ghost use Rattle.nx_disk.specs.Reasons.{fault_of_kind};

use std::alloc::AllocError;
use std::fs::TryLockError;
use std::io;
use std::io::ErrorKind;
use thiserror::Error;

/// Why the file of a log can't be had.
#[derive(Clone, Copy, Debug, Drop, PartialEq, Eq, Error)]
pub enum FileFault {
    /// It can't be opened, locked or made, for this reason.
    #[error(transparent)]
    Open(FileOpenFault),
    /// Another open file has the lock.
    #[error("the file is in use")]
    Busy,
    /// Memory ran out.
    #[error("out of memory")]
    Memory,
}

/// Why a file can't be opened.
#[derive(Clone, Copy, Debug, Drop, PartialEq, Eq, Error)]
pub enum FileOpenFault {
    /// A folder that its name leads through isn't there.
    #[error("the folder of the file isn't there")]
    NoFolder,
    /// The system gives no leave to read it, to write it or to make it.
    #[error("there is no leave to read and write the file")]
    NoLeave,
    /// It is a link that leads to no file.
    #[error("the file is a link that leads nowhere")]
    DeadLink,
    /// Its name is that of a folder: it leads to one, or ends in `/`.
    #[error("the name of the file is that of a folder")]
    FolderName,
    /// Its name, or that of a folder that it leads through, is longer than the disk takes.
    #[error("the name of the file is too long")]
    LongName,
    /// The disk is full, or what its owner may have of it.
    #[error("there is no room on the disk")]
    NoRoom,
    /// The disk can't be written to.
    #[error("the disk can only be read")]
    OnlyRead,
    /// It is a pipe, a device, or another thing that is no folder and no regular file.
    #[error("the file is no regular file")]
    NotRegular,
    /// The disk gives no lock.
    #[error("the file can't be locked")]
    NoLock,
    /// Its name led to another file, or to none, as soon as it was locked.
    #[error("the file was moved while it was opened")]
    Moved,
    /// The system gives no leave to read its folder, so that it can't be brought to the disk.
    #[error("there is no leave to read the folder of the file")]
    FolderUnread,
    /// Its folder can't be brought to the disk, so a crash might lose the file.
    #[error("the folder of the file can't be brought to the disk")]
    FolderUnsynced,
    /// None of these.
    #[error("the file can't be opened")]
    Other,
}

impl From<AllocError> for FileFault {
    fn from(_: AllocError) -> FileFault {
        FileFault::Memory
    }
}

impl From<io::Error> for FileFault {
    ghost from_gives = { λ error fault. fault ≡ fault_of_kind (error_kind error) };

    fn from(error: io::Error) -> FileFault {
        FileFault::of_kind(error.kind())
    }
}

impl From<TryLockError> for FileFault {
    fn from(error: TryLockError) -> FileFault {
        match error {
            TryLockError::WouldBlock => FileFault::Busy,
            TryLockError::Error(_) => FileFault::Open(FileOpenFault::NoLock),
        }
    }
}

impl FileFault {
    /// The fault that an error of this kind is, where a file is opened or made.
    pub fn of_kind(kind: ErrorKind) -> FileFault
        ensures { result ≡ fault_of_kind kind }
    {
        match kind {
            ErrorKind::NotFound | ErrorKind::NotADirectory => FileFault::Open(
                FileOpenFault::NoFolder,
            ),
            ErrorKind::PermissionDenied => FileFault::Open(FileOpenFault::NoLeave),
            ErrorKind::FilesystemLoop => FileFault::Open(FileOpenFault::DeadLink),
            ErrorKind::IsADirectory => FileFault::Open(FileOpenFault::FolderName),
            ErrorKind::InvalidFilename => FileFault::Open(FileOpenFault::LongName),
            ErrorKind::StorageFull | ErrorKind::QuotaExceeded => FileFault::Open(
                FileOpenFault::NoRoom,
            ),
            ErrorKind::ReadOnlyFilesystem => FileFault::Open(FileOpenFault::OnlyRead),
            ErrorKind::OutOfMemory => FileFault::Memory,
            _ => FileFault::Open(FileOpenFault::Other),
        }
    }
}
