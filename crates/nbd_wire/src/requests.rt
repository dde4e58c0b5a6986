//! Requests and their replies: NBD protocol, sections "Request message" and "Simple reply message".
ghost use Rattle.std.specs.Prelude.{◌≡◌, MatchOption};
ghost use Rattle.nbd_wire.specs.Requests.{SpellsRequest, command_of, simple_reply_bytes};
ghost use Rattle.nbd_wire.specs.declared.requests.RequestHead.{RequestHead};

use crate::errors::ErrorCode;
use crate::fields::{u16_at, u32_at, u64_at};
use words::put;

/// What a request begins with.
const REQUEST_MAGIC: u32 = 0x2560_9513;

/// What a simple reply begins with.
const SIMPLE_REPLY_MAGIC: u32 = 0x6744_6698;

/// How many bytes a request has before its payload.
pub const REQUEST_LEN: usize = 28;

/// How many bytes a simple reply has before its data.
pub const SIMPLE_REPLY_LEN: usize = 16;

/// A request without its payload.
#[derive(Clone, Copy)]
pub struct RequestHead {
    /// The command flags.
    pub flags: u16,
    /// The number of the command.
    pub kind: u16,
    /// What the reply is known by.
    pub cookie: u64,
    /// Where the range begins, in bytes.
    pub offset: u64,
    /// How many bytes the range has.
    pub len: u32,
}

/// The commands that a server of flags HAS_FLAGS, SEND_FLUSH and SEND_FUA knows.
#[derive(Clone, Copy)]
pub enum Command {
    /// NBD_CMD_READ
    Read,
    /// NBD_CMD_WRITE
    Write,
    /// NBD_CMD_DISC: the client leaves.
    Disconnect,
    /// NBD_CMD_FLUSH
    Flush,
}

impl Command {
    /// The command of that number, if it is one of these.
    pub fn of(kind: u16) -> Option<Command>
        ensures { result ≡ command_of kind }
    {
        match kind {
            0 => Some(Command::Read),
            1 => Some(Command::Write),
            2 => Some(Command::Disconnect),
            3 => Some(Command::Flush),
            _ => None,
        }
    }
}

/// Reads a request's head: the magic number, command flags, command, cookie, offset and length. It is `None` where the magic number is another.
pub fn decode_request(bytes: &[u8; REQUEST_LEN]) -> Option<RequestHead>
    ensures { MatchOption result
        ((head : RequestHead) → ¬ SpellsRequest bytes.now head)
        (SpellsRequest bytes.now) }
{
    if u32_at(bytes, 0) != REQUEST_MAGIC {
        return None;
    }
    Some(RequestHead {
        flags: u16_at(bytes, 4),
        kind: u16_at(bytes, 6),
        cookie: u64_at(bytes, 8),
        offset: u64_at(bytes, 16),
        len: u32_at(bytes, 24),
    })
}

/// A simple reply without its data: the magic number, the error's number, or 0, and the cookie of the request.
pub fn encode_simple_reply(error: Option<ErrorCode>, cookie: u64) -> [u8; SIMPLE_REPLY_LEN]
    ensures { result ≡ simple_reply_bytes error cookie }
{
    let number = match error {
        Some(error) => error.number(),
        None => 0,
    };
    let mut bytes = [0; SIMPLE_REPLY_LEN];
    put(&mut bytes, 0, &SIMPLE_REPLY_MAGIC.to_be_bytes());
    put(&mut bytes, 4, &number.to_be_bytes());
    put(&mut bytes, 8, &cookie.to_be_bytes());
    bytes
}
