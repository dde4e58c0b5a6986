//! The errors of replies.

/// Why a request isn't done. The numbers are those of the NBD protocol, section "Error values".
#[derive(Clone, Copy, Debug, PartialEq, Eq)]
pub enum ErrorCode {
    /// EPERM: the export is read-only.
    NotPermitted,
    /// EIO
    Io,
    /// ENOMEM
    NoMemory,
    /// EINVAL
    Invalid,
    /// ENOSPC: the write goes past the end, or there is no room.
    NoSpace,
    /// ENOTSUP
    NotSupported,
    /// ESHUTDOWN
    Shutdown,
}

impl ErrorCode {
    ghost use Rattle.std.specs.Prelude.{◌≡◌};
    ghost use Rattle.nbd_wire.specs.Requests.{number_of_error};

    pub fn number(self) -> u32
        ensures { result ≡ number_of_error self }
    {
        match self {
            ErrorCode::NotPermitted => 1,
            ErrorCode::Io => 5,
            ErrorCode::NoMemory => 12,
            ErrorCode::Invalid => 22,
            ErrorCode::NoSpace => 28,
            ErrorCode::NotSupported => 95,
            ErrorCode::Shutdown => 108,
        }
    }
}
