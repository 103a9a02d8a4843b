ghost use Rattle.std.specs.Prelude.{◌≡◌, ◌<◌, ◌≤◌, ◌<ℤ◌, ◌^◌, pos, nat_abs};
ghost use Rattle.rapid_num.specs.Arithmetic.{rounded, rounded_ratio};

/// `top / bottom` rounded to the nearest integer, halves away from zero. `bottom` is positive and the absolute value of
/// `top` is below 2^125.
pub fn round_ratio(top: i128, bottom: i128) -> i128
    requires positive { pos 0 <ℤ bottom }
    requires fits { nat_abs top < 2 ^ 125 }
    ensures { result ≡ rounded_ratio top (nat_abs bottom) }
{
    let size = nearest_quotient(top.unsigned_abs(), bottom.unsigned_abs()) as i128;
    if top < 0 { -size } else { size }
}

/// `top / bottom` rounded to the nearest integer, halves up.
pub(crate) fn nearest_quotient(top: u128, bottom: u128) -> u128
    requires positive { 0 < bottom }
    ensures nearest { result ≡ rounded top bottom }
    ensures at_most { result ≤ top }
{
    let whole = top / bottom;
    let rest = top % bottom;
    if rest >= bottom - rest {
        whole + 1
    } else {
        whole
    }
}
