ghost use Rattle.std.specs.Prelude.{◌≡◌};
ghost use Rattle.nvlist.specs.Grammar.{is_printable, is_behind};

use std::cmp::Ordering;

/// Whether each byte is printable ASCII.
pub(crate) fn is_printable(bytes: &[u8]) -> bool
    ensures { result ≡ is_printable bytes.now }
{
    bytes.iter().all(|b| 0x20 <= *b && *b <= 0x7e)
}

/// Whether a name stands behind another in byte order.
pub(crate) fn is_behind(name: &[u8], last: &[u8]) -> bool
    ensures { result ≡ is_behind name.now last.now }
{
    last.cmp(name) == Ordering::Less
}
