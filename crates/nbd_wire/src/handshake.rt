//! The start of the handshake: NBD protocol, section "Newstyle negotiation".
ghost use Rattle.std.specs.Prelude.{◌≡◌, MatchOption};
ghost use Rattle.nbd_wire.specs.Handshake.{client_flags_bytes, greeting_bytes};
ghost use Rattle.nbd_wire.specs.declared.handshake.ClientFlags.{ClientFlags};

use crate::fields::u32_at;
use words::put;

/// "NBDMAGIC", with which a server begins.
pub(crate) const SERVER_MAGIC: u64 = 0x4e42_444d_4147_4943;

/// "IHAVEOPT", which stands in the greeting and before each option.
pub(crate) const OPTION_MAGIC: u64 = 0x4948_4156_454f_5054;

/// NBD_FLAG_FIXED_NEWSTYLE and NBD_FLAG_NO_ZEROES.
const HANDSHAKE_FLAGS: u16 = 3;

/// How many bytes a server's greeting has.
pub const GREETING_LEN: usize = 18;

/// The greeting of a server: both magic numbers and the handshake flags, of which it has FIXED_NEWSTYLE and NO_ZEROES.
pub fn encode_greeting() -> [u8; GREETING_LEN]
    ensures { result ≡ greeting_bytes }
{
    let mut bytes = [0; GREETING_LEN];
    put(&mut bytes, 0, &SERVER_MAGIC.to_be_bytes());
    put(&mut bytes, 8, &OPTION_MAGIC.to_be_bytes());
    put(&mut bytes, 16, &HANDSHAKE_FLAGS.to_be_bytes());
    bytes
}

/// The flags with which a client that speaks the fixed newstyle handshake answers the greeting.
#[derive(Clone, Copy)]
pub struct ClientFlags {
    /// The client wants no zeros behind the answer to EXPORT_NAME.
    pub no_zeroes: bool,
}

/// Reads the flags of a client. It is `None` where it has a flag that the server hasn't, or no FIXED_NEWSTYLE: such a session ends.
pub fn decode_client_flags(bytes: &[u8; 4]) -> Option<ClientFlags>
    ensures { MatchOption result
        ((flags : ClientFlags) → ¬ bytes.now ≡ client_flags_bytes flags)
        (λ flags. bytes.now ≡ client_flags_bytes flags) }
{
    match u32_at(bytes, 0) {
        1 => Some(ClientFlags { no_zeroes: false }),
        3 => Some(ClientFlags { no_zeroes: true }),
        _ => None,
    }
}
