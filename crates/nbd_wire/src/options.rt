//! The options of a client: NBD protocol, section "Option types".
ghost use Rattle.std.specs.Prelude.{◌≡◌, ℕ, List, MatchOption};
ghost use Rattle.nbd_wire.specs.Options.{SpellsInfoRequest, SpellsOptionHead, option_kind_of};
ghost use Rattle.nbd_wire.specs.declared.options.OptionHead.{OptionHead};

use crate::fields::{u16_at, u32_at, u64_at};
use crate::handshake::OPTION_MAGIC;

/// How many bytes stand before an option's data.
pub const OPTION_HEAD_LEN: usize = 16;

/// What stands before the data of an option.
#[derive(Clone, Copy)]
pub struct OptionHead {
    /// The option's number.
    pub option: u32,
    /// How many bytes of data it has.
    pub len: u32,
}

/// The options that a server of one export answers otherwise than with `Unsupported`.
#[derive(Clone, Copy)]
pub enum OptionKind {
    /// NBD_OPT_EXPORT_NAME: the transmission of an export begins, without any way to refuse.
    ExportName,
    /// NBD_OPT_ABORT: the client leaves.
    Abort,
    /// NBD_OPT_LIST: what exports there are.
    List,
    /// NBD_OPT_INFO: what an export is like.
    Info,
    /// NBD_OPT_GO: the same, and its transmission begins.
    Go,
}

impl OptionKind {
    /// The option of that number, if it is one of these.
    pub fn of(option: u32) -> Option<OptionKind>
        ensures { result ≡ option_kind_of option }
    {
        match option {
            1 => Some(OptionKind::ExportName),
            2 => Some(OptionKind::Abort),
            3 => Some(OptionKind::List),
            6 => Some(OptionKind::Info),
            7 => Some(OptionKind::Go),
            _ => None,
        }
    }
}

/// Reads what stands before an option's data: "IHAVEOPT", its number and the length of the data. It is `None` where the magic number is another.
pub fn decode_option_head(bytes: &[u8; OPTION_HEAD_LEN]) -> Option<OptionHead>
    ensures { MatchOption result
        ((head : OptionHead) → ¬ SpellsOptionHead bytes.now head)
        (SpellsOptionHead bytes.now) }
{
    if u64_at(bytes, 0) != OPTION_MAGIC {
        return None;
    }
    Some(OptionHead {
        option: u32_at(bytes, 8),
        len: u32_at(bytes, 12),
    })
}

/// Reads the data of INFO or GO, which are the length of a name, the name, a count, and that many kinds of information. It gives the name: which
/// information is asked for changes no answer. It is `None` where the data are anything else.
pub fn decode_info_request(data: &[u8]) -> Option<&[u8]>
    ensures { MatchOption result
        ((name : List ℕ) → ¬ SpellsInfoRequest «data».now name)
        (λ name. SpellsInfoRequest «data».now name.now) }
{
    if data.len() < 6 {
        return None;
    }
    let len = u32_at(data, 0) as usize;
    if data.len() - 6 < len {
        return None;
    }
    let count = u16_at(data, 4 + len) as usize;
    if data.len() - 6 - len != 2 * count {
        return None;
    }
    Some(&data[4..4 + len])
}
