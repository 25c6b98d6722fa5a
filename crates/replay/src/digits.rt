// Words as digits: numbers are decimal, byte strings lower-case hex.

// The number of decimal digits; std's `parse` takes a sign too.
pub(crate) fn decimal(digits: &[u8]) -> Option<u64> {
    if digits.is_empty() {
        return None;
    }
    digits.iter().try_fold(0u64, |number, b| {
        let digit = char::from(*b).to_digit(10)?;
        number.checked_mul(10)?.checked_add(u64::from(digit))
    })
}

// The value of a hex digit; std's `to_digit` takes capitals too.
fn hex_digit(b: u8) -> Option<u8> {
    match b {
        b'0'..=b'9' => Some(b - b'0'),
        b'a'..=b'f' => Some(b - b'a' + 10),
        _ => None,
    }
}

fn pair(high: u8, low: u8) -> Option<u8> {
    u8::try_from(u32::from(hex_digit(high)?) * 16 + u32::from(hex_digit(low)?)).ok()
}

// The bytes that hex digits say, put where the digits stood: fixed memory, there is no heap for them.
pub(crate) fn decoded(digits: &mut [u8]) -> Option<&[u8]> {
    if digits.len() % 2 != 0 {
        return None;
    }
    let count = digits.len() / 2;
    // an index, since each turn reads ahead of the place that it writes
    for i in 0..count {
        digits[i] = pair(digits[2 * i], digits[2 * i + 1])?;
    }
    Some(&digits[..count])
}
