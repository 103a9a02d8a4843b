//! Digits of a base up to 16.
ghost use Rattle.std.specs.Prelude.{◌≡◌, ◌+◌, ◌*◌, ◌^◌, ◌≤◌, length, IfSome};
ghost use Rattle.rapid_num.specs.Literal.{digit_value};
ghost use Rattle.rapid_num.specs.Reading.{number_of, number_onto};

/// The value of a digit up to 15, case-insensitive; 16 for a byte that is not a digit.
pub fn digit_value(byte: u8) -> u8
    ensures value { result ≡ digit_value byte }
    ensures at_most { result ≤ 16 }
{
    match byte {
        b'0'..=b'9' => byte - b'0',
        b'A'..=b'F' => byte - b'A' + 10,
        b'a'..=b'f' => byte - b'a' + 10,
        _ => 16,
    }
}

/// The value of `so_far` extended by `digits`. `None` if one of them is not a digit of the base.
pub(crate) fn read_onto(base: u128, so_far: u128, digits: &[u8]) -> Option<u128>
    requires room { (so_far + 1) * base ^ length digits.now ≤ 2 ^ 127 }
    ensures number { result ≡ number_onto base so_far digits.now }
    ensures bound { IfSome result (λ n. n + 1 ≤ (so_far + 1) * base ^ length digits.now) }
{
    let mut number = so_far;
    for byte in digits {
        let digit = u128::from(digit_value(*byte));
        if digit >= base {
            return None;
        }
        number = number * base + digit;
    }
    Some(number)
}

/// The value of at least one digit.
pub(crate) fn read_digits(base: u128, digits: &[u8]) -> Option<u128>
    requires room { base ^ length digits.now ≤ 2 ^ 127 }
    ensures number { result ≡ number_of base digits.now }
    ensures bound { IfSome result (λ n. n + 1 ≤ base ^ length digits.now) }
{
    if digits.is_empty() {
        return None;
    }
    read_onto(base, 0, digits)
}
