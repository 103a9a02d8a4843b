//! Numbers times a power of ten, as absolute values of nums.
ghost use Rattle.std.specs.Prelude.{◌≡◌, ◌*◌, ◌^◌, ◌<◌};
ghost use Rattle.rapid_num.specs.Arithmetic.{rounded};
ghost use Rattle.rapid_num.specs.Literal.{scaled};
ghost use Rattle.rapid_num.specs.Reading.{size_within};

use crate::round::nearest_quotient;

/// The greatest absolute value of a num, in thousandths.
const GREATEST: u128 = 9_999_999_999_999;

/// The number as the absolute value of a num. `None` exactly if it is too large.
pub(crate) fn size_within(natural: u128) -> Option<u64>
    ensures { result ≡ size_within natural }
{
    if natural > GREATEST {
        return None;
    }
    Some(natural as u64)
}

/// `number * 10^tens`, as the absolute value of a num. If the product is out of range anyway, nothing is multiplied.
fn scale_up(number: u128, tens: u128) -> Option<u64>
    ensures { result ≡ size_within (number * 10 ^ tens) }
{
    if number == 0 {
        return Some(0);
    }
    if number > GREATEST || tens > 12 {
        return None;
    }
    size_within(number * 10u128.pow(tens as u32))
}

/// `number / 10^tens`, rounded, as the absolute value of a num. From `tens = 31` on, it rounds to 0.
fn scale_down(number: u128, tens: u128) -> Option<u64>
    requires thirty_digits { number < 10 ^ 30 }
    ensures { result ≡ size_within (rounded number (10 ^ tens)) }
{
    if tens > 30 {
        return Some(0);
    }
    size_within(nearest_quotient(number, 10u128.pow(tens as u32)))
}

/// `number * 10^exponent`, rounded to an integer, halves up. `None` exactly if it is out of range for the absolute
/// value of a num.
pub(crate) fn scale(number: u128, exponent: i128) -> Option<u64>
    requires thirty_digits { number < 10 ^ 30 }
    ensures { result ≡ size_within (scaled number exponent) }
{
    if exponent < 0 {
        scale_down(number, exponent.unsigned_abs())
    } else {
        scale_up(number, exponent.unsigned_abs())
    }
}
