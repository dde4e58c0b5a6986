//! What client and server of a network block device say to each other, as bytes: the fixed newstyle handshake and the
//! transmission with simple replies, after "The NBD protocol" (`doc/proto.md` of the NetworkBlockDevice project). All numbers
//! are big-endian.
//!
//! Read are the messages of a client, written those of a server.
#![tactic(auto)]

mod errors;
mod fields;
mod handshake;
mod options;
mod replies;
mod requests;

pub use errors::ErrorCode;
pub use handshake::{ClientFlags, GREETING_LEN, decode_client_flags, encode_greeting};
pub use options::{
    OPTION_HEAD_LEN, OptionHead, OptionKind, decode_info_request, decode_option_head,
};
pub use replies::{
    BLOCK_SIZE_INFO_LEN, EXPORT_INFO_LEN, EXPORT_LEN, MAXIMUM_PAYLOAD, MINIMUM_BLOCK,
    OPTION_REPLY_LEN, OptionReply, encode_block_size_info, encode_export, encode_export_info,
    encode_option_reply,
};
pub use requests::{
    Command, REQUEST_LEN, RequestHead, SIMPLE_REPLY_LEN, decode_request, encode_simple_reply,
};
