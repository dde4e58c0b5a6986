//! Numbers as words.
ghost use Rattle.std.specs.Prelude.{◌≡◌, ◌≢◌, ◌^◌, ◌<◌, ℕ, false, MatchOption};
ghost use Rattle.std.specs.Fmt.{digit_glyph};
ghost use Rattle.schedule_lines.specs.Reading.{number_of, byte_of};

use itoa::Buffer;

/// The number that prints as the word: a sign or a leading zero makes no number.
pub(crate) fn number64(word: &[u8]) -> Option<u64>
    ensures { result ≡ number_of (2 ^ 64) word.now }
{
    let Ok(text) = str::from_utf8(word) else {
        return None;
    };
    let Ok(number) = text.parse::<u64>() else {
        return None;
    };
    if Buffer::new().format(number).as_bytes() == word {
        Some(number)
    } else {
        None
    }
}

pub(crate) fn number32(word: &[u8]) -> Option<u32>
    ensures { result ≡ number_of (2 ^ 32) word.now }
{
    let Some(number) = number64(word) else {
        return None;
    };
    u32::try_from(number).ok()
}

/// How many groups an open goes back.
pub(crate) fn rewind(word: &[u8]) -> Option<u64>
    ensures { result ≡ number_of 3 word.now }
{
    let Some(number) = number64(word) else {
        return None;
    };
    if number < 3 { Some(number) } else { None }
}

/// The value of a hexadecimal digit, lower case.
fn hexadecimal(digit: u8) -> Option<u8>
    ensures { MatchOption result ((d : ℕ) → d < 16 → digit ≢ digit_glyph false d)
        (λ d. (d < 16) × (digit ≡ digit_glyph false d)) }
{
    match digit {
        b'0'..=b'9' => Some(digit - b'0'),
        b'a'..=b'f' => Some(digit - b'a' + 10),
        _ => None,
    }
}

/// The byte of two hexadecimal digits.
pub(crate) fn byte(word: &[u8]) -> Option<u8>
    ensures { result ≡ byte_of word.now }
{
    let [high, low] = word else {
        return None;
    };
    Some(16 * hexadecimal(*high)? + hexadecimal(*low)?)
}
