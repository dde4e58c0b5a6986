//! Numbers in messages.
ghost use Rattle.std.specs.Prelude.{◌≡◌, ℕ, ◌+◌, ◌≤◌, ◌<◌, ◌^◌, length, take, drop};
ghost use Rattle.std.specs.Int.{w16, w32, w64, to_be_bytes};

use words::bytes_at;

/// The number of 16 bits in a field.
pub(crate) fn u16_at(bytes: &[u8], at: usize) -> u16
    requires { at + 2 ≤ length bytes.now }
    ensures found { take 2 (drop at bytes.now) ≡ to_be_bytes w16 result }
    ensures only { (n : ℕ) → n < 2 ^ 16
        → take 2 (drop at bytes.now) ≡ to_be_bytes w16 n → result ≡ n }
{
    u16::from_be_bytes(bytes_at(bytes, at))
}

/// The number of 32 bits in a field.
pub(crate) fn u32_at(bytes: &[u8], at: usize) -> u32
    requires { at + 4 ≤ length bytes.now }
    ensures found { take 4 (drop at bytes.now) ≡ to_be_bytes w32 result }
    ensures only { (n : ℕ) → n < 2 ^ 32
        → take 4 (drop at bytes.now) ≡ to_be_bytes w32 n → result ≡ n }
{
    u32::from_be_bytes(bytes_at(bytes, at))
}

/// The number of 64 bits in a field.
pub(crate) fn u64_at(bytes: &[u8], at: usize) -> u64
    requires { at + 8 ≤ length bytes.now }
    ensures found { take 8 (drop at bytes.now) ≡ to_be_bytes w64 result }
    ensures only { (n : ℕ) → n < 2 ^ 64
        → take 8 (drop at bytes.now) ≡ to_be_bytes w64 n → result ≡ n }
{
    u64::from_be_bytes(bytes_at(bytes, at))
}
