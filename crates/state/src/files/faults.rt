//! Why a directory can't be used.
ghost use Rattle.std.specs.Prelude.{◌≡◌, IfErr, IfOk, Err, Ok};
ghost use Rattle.std.specs.IoError.{error_kind};
ghost use Rattle.std.specs.declared.io.Error.{Error};
ghost use Rattle.state.specs.FolderFaults.{IsFaultAt, IsRefusal};

use crate::folder::FolderFault;
use sqlite_std_file::OpenError;
use std::io;
use std::io::ErrorKind;

/// Why the file of this name can't be used. Want of memory is told as that.
pub(crate) fn fault_at(name: &'static str, error: &io::Error) -> FolderFault
    ensures { IsFaultAt name.now (error_kind error.now) result }
{
    match error.kind() {
        ErrorKind::OutOfMemory => FolderFault::NoMemory,
        cause => FolderFault::Unusable(name, cause),
    }
}

/// What became of a call for the file of this name.
pub(crate) fn at<T: Drop>(name: &'static str, done: io::Result<T>) -> Result<T, FolderFault>
    ensures done { IfOk result (λ answer. done ≡ Ok answer) }
    ensures fault { IfErr result (λ fault. (error : Error) × (done ≡ Err error)
        × IsFaultAt name.now (error_kind error) fault) }
{
    match done {
        Ok(answer) => Ok(answer),
        Err(error) => Err(fault_at(name, &error)),
    }
}

/// Why the two files of the log aren't opened, of which the one of this name can't be used.
pub(crate) fn opening_fault(name: &'static str, error: &OpenError) -> FolderFault
    ensures { IsRefusal name.now error.now result }
{
    match error {
        OpenError::Busy => FolderFault::InUse,
        OpenError::HotJournal => {
            FolderFault::Unusable("segments-journal", ErrorKind::AlreadyExists)
        }
        OpenError::OutOfMemory => FolderFault::NoMemory,
        OpenError::Io(error) => fault_at(name, error),
    }
}
