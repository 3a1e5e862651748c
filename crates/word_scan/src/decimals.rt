//! Decimals below 2^32.

ghost use Rattle.std.specs.Prelude.{◌≡◌, ◌^◌, ◌<◌, ℕ, IfSome, IfNone, decimal};
ghost use Rattle.word_scan.specs.Decimals.{digit_more, decimal_of, plain_decimal_of};

/// The number with one more digit at its end.
fn with_digit(value: u32, byte: u8) -> Option<u32>
    ensures { result ≡ digit_more value byte }
{
    if !byte.is_ascii_digit() {
        return None;
    }
    let more = value as u64 * 10 + (byte - b'0') as u64;
    if more <= u32::MAX as u64 {
        Some(more as u32)
    } else {
        None
    }
}

/// The number that one or more decimal digits write, where it is below 2^32. Leading zeros are
/// accepted. None exactly for other bytes. It takes no memory.
pub fn decimal(bytes: &[u8]) -> Option<u32>
    ensures { result ≡ decimal_of bytes.now }
{
    if bytes.is_empty() {
        return None;
    }
    let mut value = 0;
    for byte in bytes {
        value = with_digit(value, *byte)?;
    }
    Some(value)
}

/// The same without leading zeros, where a zero that stands before another digit is refused: the
/// number below 2^32 whose decimal text the bytes are. None exactly for other bytes.
#[tactic(auto, using(crate::proofs::PlainLemmas::found_is_written, crate::proofs::PlainLemmas::none_is_written))]
pub fn plain_decimal(bytes: &[u8]) -> Option<u32>
    ensures value { result ≡ plain_decimal_of bytes.now }
    ensures found { IfSome result (λ number. bytes.now ≡ decimal number) }
    ensures none { IfNone result ((n : ℕ) → n < 2 ^ 32 → bytes.now ≡ decimal n → ⊥) }
{
    without_leading_zero(bytes)
}

fn without_leading_zero(bytes: &[u8]) -> Option<u32>
    ensures { result ≡ plain_decimal_of bytes.now }
{
    if bytes.len() > 1 && bytes[0] == b'0' {
        return None;
    }
    decimal(bytes)
}
