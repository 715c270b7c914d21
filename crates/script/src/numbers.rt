ghost use Rattle.std.specs.Prelude.{◌≡◌, ◌≤◌, IfSome};
ghost use Rattle.script.specs.Numbers.{largest, with_digit, whole_of, signed_of};

// The largest whole number that is read. specs/Numbers.antt has the same number for the contracts.
pub const LARGEST_NUMBER: u32 = 999_999_999;

// The number that `value` becomes with one digit more; none where the byte is no digit or the number is too large.
fn with_digit(value: u32, byte: u8) -> Option<u32>
    ensures value { result ≡ with_digit value byte }
    ensures within { IfSome result (λ n. n ≤ largest) }
{
    let digit = char::from(byte).to_digit(10)?;
    let grown = value.checked_mul(10)?.checked_add(digit)?;
    (grown <= LARGEST_NUMBER).then_some(grown)
}

// The whole number that the bytes stand for. Not by `parse`: a word is bytes, takes no `+`, and the limit is lower.
pub fn whole_of(bytes: &[u8]) -> Option<u32>
    ensures value { result ≡ whole_of bytes.now }
    ensures within { IfSome result (λ n. n ≤ largest) }
{
    if bytes.is_empty() {
        return None;
    }
    bytes
        .iter()
        .try_fold(0, |value, byte| with_digit(value, *byte))
}

// The signed number that the bytes stand for.
pub fn signed_of(bytes: &[u8]) -> Option<i32>
    ensures { result ≡ signed_of bytes.now }
{
    if let [b'-', digits @ ..] = bytes {
        return Some(-(whole_of(digits)? as i32));
    }
    Some(whole_of(bytes)? as i32)
}
