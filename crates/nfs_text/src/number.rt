//! Numbers in digits.
ghost use Rattle.std.specs.Prelude.{◌≡◌, ◌≤◌, IfSome};
ghost use Rattle.nfs_text.specs.Numbers.{decimal_of};

/// The number that a text of one or more decimal digits says, leading zeros allowed. `None` where
/// the text is another one, or the number is above `max`.
pub fn decimal(text: &[u8], max: u64) -> Option<u64>
    ensures read { result ≡ decimal_of max text.now }
    ensures bound { IfSome result (λ n. n ≤ max) }
{
    if text.is_empty() {
        return None;
    }
    let mut number: u64 = 0;
    for byte in text {
        if !byte.is_ascii_digit() {
            return None;
        }
        number = number
            .checked_mul(10)?
            .checked_add(u64::from(*byte - b'0'))?;
    }
    if number <= max { Some(number) } else { None }
}
