//! The answers to options: NBD protocol, sections "Option reply types" and "Option types".
ghost use Rattle.std.specs.Prelude.{◌≡◌};
ghost use Rattle.nbd_wire.specs.Replies.{block_size_info_bytes, export_bytes, export_info_bytes, number_of_reply, option_reply_bytes, transmission_flags};

use words::put;

/// What an option reply begins with.
const REPLY_MAGIC: u64 = 0x0003_e889_0455_65a9;

/// NBD_INFO_EXPORT
const EXPORT_INFO: u16 = 0;

/// NBD_INFO_BLOCK_SIZE
const BLOCK_SIZE_INFO: u16 = 3;

/// The smallest block of a request, in bytes: offsets and lengths are multiples of it.
pub const MINIMUM_BLOCK: u32 = 512;

const PREFERRED_BLOCK: u32 = 4096;

/// The most bytes of one request: 32 MiB.
pub const MAXIMUM_PAYLOAD: u32 = 1 << 25;

/// How many bytes stand before an option reply's data.
pub const OPTION_REPLY_LEN: usize = 20;

/// How many bytes the size and the transmission flags of an export have.
pub const EXPORT_LEN: usize = 10;

/// How many bytes the data have that tell what an export is.
pub const EXPORT_INFO_LEN: usize = 12;

/// How many bytes the data have that tell the sizes of requests.
pub const BLOCK_SIZE_INFO_LEN: usize = 14;

/// The types of option replies.
#[derive(Clone, Copy)]
pub enum OptionReply {
    /// NBD_REP_ACK: all of the answer is sent.
    Ack,
    /// NBD_REP_SERVER: an export.
    Server,
    /// NBD_REP_INFO: a piece of information.
    Info,
    /// NBD_REP_ERR_UNSUP: the option is not known.
    Unsupported,
    /// NBD_REP_ERR_POLICY: the option isn't allowed.
    Policy,
    /// NBD_REP_ERR_INVALID: the option's data are broken.
    Invalid,
    /// NBD_REP_ERR_UNKNOWN: there is no such export.
    Unknown,
    /// NBD_REP_ERR_TOO_BIG: the option or its answer is too long.
    TooBig,
}

impl OptionReply {
    pub fn number(self) -> u32
        ensures { result ≡ number_of_reply self }
    {
        match self {
            OptionReply::Ack => 1,
            OptionReply::Server => 2,
            OptionReply::Info => 3,
            OptionReply::Unsupported => 0x8000_0001,
            OptionReply::Policy => 0x8000_0002,
            OptionReply::Invalid => 0x8000_0003,
            OptionReply::Unknown => 0x8000_0006,
            OptionReply::TooBig => 0x8000_0009,
        }
    }
}

/// What stands before the data of the reply to an option: the magic number, the option, the type and the length of the data.
pub fn encode_option_reply(option: u32, reply: OptionReply, len: u32) -> [u8; OPTION_REPLY_LEN]
    ensures { result ≡ option_reply_bytes option reply len }
{
    let mut bytes = [0; OPTION_REPLY_LEN];
    put(&mut bytes, 0, &REPLY_MAGIC.to_be_bytes());
    put(&mut bytes, 8, &option.to_be_bytes());
    put(&mut bytes, 12, &reply.number().to_be_bytes());
    put(&mut bytes, 16, &len.to_be_bytes());
    bytes
}

/// HAS_FLAGS, SEND_FLUSH and SEND_FUA, and READ_ONLY of an export that can't be written.
fn transmission_flags(read_only: bool) -> u16
    ensures { result ≡ transmission_flags read_only }
{
    if read_only { 15 } else { 13 }
}

/// The size and the transmission flags of an export, as EXPORT_NAME is answered.
pub fn encode_export(size: u64, read_only: bool) -> [u8; EXPORT_LEN]
    ensures { result ≡ export_bytes size read_only }
{
    let mut bytes = [0; EXPORT_LEN];
    put(&mut bytes, 0, &size.to_be_bytes());
    put(&mut bytes, 8, &transmission_flags(read_only).to_be_bytes());
    bytes
}

/// The data of NBD_INFO_EXPORT: its number, the size and the transmission flags of an export.
pub fn encode_export_info(size: u64, read_only: bool) -> [u8; EXPORT_INFO_LEN]
    ensures { result ≡ export_info_bytes size read_only }
{
    let mut bytes = [0; EXPORT_INFO_LEN];
    put(&mut bytes, 0, &EXPORT_INFO.to_be_bytes());
    put(&mut bytes, 2, &encode_export(size, read_only));
    bytes
}

/// The data of NBD_INFO_BLOCK_SIZE: its number, and the minimum (512 bytes), the preferred (4,096 bytes) and the maximum (32 MiB) of
/// a request.
pub fn encode_block_size_info() -> [u8; BLOCK_SIZE_INFO_LEN]
    ensures { result ≡ block_size_info_bytes }
{
    let mut bytes = [0; BLOCK_SIZE_INFO_LEN];
    put(&mut bytes, 0, &BLOCK_SIZE_INFO.to_be_bytes());
    put(&mut bytes, 2, &MINIMUM_BLOCK.to_be_bytes());
    put(&mut bytes, 6, &PREFERRED_BLOCK.to_be_bytes());
    put(&mut bytes, 10, &MAXIMUM_PAYLOAD.to_be_bytes());
    bytes
}
