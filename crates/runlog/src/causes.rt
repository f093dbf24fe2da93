//! The words for what the system answers (those of the standard library).
ghost use Rattle.std.specs.Prelude.{◌≡◌};
ghost use Rattle.runlog.specs.Causes as spec;

use std::io::ErrorKind;

/// Why a call of the system failed. No contract gives the text of the library's own `Display`.
pub fn cause_words(cause: ErrorKind) -> &'static str
    ensures { result.now ≡ spec.cause_words cause }
{
    match cause {
        ErrorKind::NotFound => "entity not found",
        ErrorKind::PermissionDenied => "permission denied",
        ErrorKind::ConnectionRefused => "connection refused",
        ErrorKind::ConnectionReset => "connection reset",
        ErrorKind::HostUnreachable => "host unreachable",
        ErrorKind::NetworkUnreachable => "network unreachable",
        ErrorKind::ConnectionAborted => "connection aborted",
        ErrorKind::NotConnected => "not connected",
        ErrorKind::AddrInUse => "address in use",
        ErrorKind::AddrNotAvailable => "address not available",
        ErrorKind::NetworkDown => "network down",
        ErrorKind::BrokenPipe => "broken pipe",
        ErrorKind::AlreadyExists => "entity already exists",
        ErrorKind::WouldBlock => "operation would block",
        ErrorKind::NotADirectory => "not a directory",
        ErrorKind::IsADirectory => "is a directory",
        ErrorKind::DirectoryNotEmpty => "directory not empty",
        ErrorKind::ReadOnlyFilesystem => "read-only filesystem or storage medium",
        ErrorKind::FilesystemLoop => "filesystem loop or indirection limit (e.g. symlink loop)",
        ErrorKind::StaleNetworkFileHandle => "stale network file handle",
        ErrorKind::InvalidInput => "invalid input parameter",
        ErrorKind::InvalidData => "invalid data",
        ErrorKind::TimedOut => "timed out",
        ErrorKind::WriteZero => "write zero",
        ErrorKind::StorageFull => "no storage space",
        ErrorKind::NotSeekable => "seek on unseekable file",
        ErrorKind::QuotaExceeded => "quota exceeded",
        ErrorKind::FileTooLarge => "file too large",
        ErrorKind::ResourceBusy => "resource busy",
        ErrorKind::ExecutableFileBusy => "executable file busy",
        ErrorKind::Deadlock => "deadlock",
        ErrorKind::CrossesDevices => "cross-device link or rename",
        ErrorKind::TooManyLinks => "too many links",
        ErrorKind::InvalidFilename => "invalid filename",
        ErrorKind::ArgumentListTooLong => "argument list too long",
        ErrorKind::Interrupted => "operation interrupted",
        ErrorKind::Unsupported => "unsupported",
        ErrorKind::UnexpectedEof => "unexpected end of file",
        ErrorKind::OutOfMemory => "out of memory",
        ErrorKind::InProgress => "in progress",
        ErrorKind::Other => "other error",
        // What the library has no kind for is mostly EIO, which a dying disk says.
        ErrorKind::Uncategorized => "input or output error",
    }
}

/// Why the line can't be reached.
pub fn line_cause_words(cause: ErrorKind) -> &'static str
    ensures { result.now ≡ spec.line_cause_words cause }
{
    match cause {
        // Of the path of a socket, or of a host: the library has no kind for that.
        ErrorKind::NotFound | ErrorKind::Uncategorized => "name unknown",
        cause => cause_words(cause),
    }
}

/// Whether this is another cause than the one that was told, in words.
pub(crate) fn is_news(cause: Option<ErrorKind>, told: Option<ErrorKind>) -> bool
    ensures { result ≡ spec.is_news cause told }
{
    match (cause, told) {
        (None, _) => false,
        (Some(_), None) => true,
        (Some(cause), Some(told)) => {
            line_cause_words(cause).as_bytes() != line_cause_words(told).as_bytes()
        }
    }
}
