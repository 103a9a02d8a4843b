//! Sums, differences, negation, products and quotients of nums (RAPID Overview, expressions; RAPID Kernel, operators).
ghost use Rattle.std.specs.Prelude.{◌≡◌, ◌<◌, ◌≤◌, ◌^◌, ◌*ℤ◌, pos, neg_ℤ, nat_abs};
ghost use Rattle.rapid_num.specs.Range.{IsNum, greatest};
ghost use Rattle.rapid_num.specs.Arithmetic.{num_of, sum_of, difference_of, product_of, quotient_of, whole_quotient_of, remainder_of, rounded_ratio, signed_by, whole_part};

use crate::num::Num;
use crate::round::round_ratio;

impl Num {
    /// The exact sum. `None` exactly if it is out of range.
    pub fn add(self, other: Num) -> Option<Num>
        ensures { result ≡ sum_of self other }
    {
        Num::new(self.thousandths() + other.thousandths())
    }

    /// The exact difference. `None` exactly if it is out of range.
    pub fn sub(self, other: Num) -> Option<Num>
        ensures { result ≡ difference_of self other }
    {
        Num::new(self.thousandths() - other.thousandths())
    }

    /// The negated num, which is always in range.
    pub fn negated(self) -> Num
        ensures { result ≡ neg_ℤ self }
    {
        Num::within_range(-self.thousandths())
    }

    /// The product, rounded to a thousandth, halves away from zero. `None` exactly if the rounded product is out of
    /// range.
    pub fn mul(self, other: Num) -> Option<Num>
        ensures { result ≡ product_of self other }
    {
        num_within(round_ratio(exact_product(wide(self), wide(other)), 1000))
    }

    /// The quotient, rounded to a thousandth, halves away from zero. `None` exactly if the rounded quotient is out of
    /// range. `other` is not zero.
    pub fn div(self, other: Num) -> Option<Num>
        requires { ¬ (other ≡ pos 0) }
        ensures { result ≡ quotient_of self other }
    {
        num_within(signed_ratio(exact_product(wide(self), 1000), wide(other)))
    }

    /// DIV: the quotient, truncated toward zero. `None` exactly if the truncated quotient is out of range. `other` is
    /// not zero.
    pub fn int_div(self, other: Num) -> Option<Num>
        requires { ¬ (other ≡ pos 0) }
        ensures { result ≡ whole_quotient_of self other }
    {
        Num::new(whole_quotient(self, other) * 1000)
    }

    /// MOD: the exact remainder after DIV. It is zero or has the sign of `self`, whatever the sign of `other`, and its
    /// absolute value is below that of `other`. `other` is not zero.
    pub fn modulo(self, other: Num) -> Num
        requires { ¬ (other ≡ pos 0) }
        ensures { result ≡ remainder_of self other }
    {
        Num::within_range(remainder(self, other))
    }
}

/// The number of thousandths.
fn wide(num: Num) -> i128
    ensures same { result ≡ num }
    ensures small { nat_abs result ≤ greatest }
{
    i128::from(num.thousandths())
}

/// The product of two numbers of thousandths.
fn exact_product(left: i128, right: i128) -> i128
    requires left { nat_abs left ≤ greatest }
    requires right { nat_abs right ≤ greatest }
    ensures product { result ≡ left *ℤ right }
    ensures fits { nat_abs result < 2 ^ 125 }
{
    left * right
}

/// The num with this many thousandths. `None` exactly if it is out of range.
fn num_within(count: i128) -> Option<Num>
    ensures { result ≡ num_of count }
{
    if count < -9_999_999_999_999 || count > 9_999_999_999_999 {
        return None;
    }
    Num::new(count as i64)
}

/// `top / bottom` rounded to the nearest integer, halves away from zero.
fn signed_ratio(top: i128, bottom: i128) -> i128
    requires nonzero { ¬ (bottom ≡ pos 0) }
    requires top { nat_abs top < 2 ^ 125 }
    requires bottom { nat_abs bottom ≤ greatest }
    ensures { result ≡ rounded_ratio (signed_by bottom top) (nat_abs bottom) }
{
    if bottom < 0 {
        round_ratio(-top, -bottom)
    } else {
        round_ratio(top, bottom)
    }
}

/// `left / right` truncated toward zero.
fn whole_quotient(left: Num, right: Num) -> i64
    requires { ¬ (right ≡ pos 0) }
    ensures quotient { result ≡ whole_part (signed_by right left) (nat_abs right) }
    ensures small { nat_abs result ≤ greatest }
{
    left.thousandths() / right.thousandths()
}

/// The remainder after DIV, in thousandths.
fn remainder(left: Num, right: Num) -> i64
    requires { ¬ (right ≡ pos 0) }
    ensures remainder { result ≡ remainder_of left right }
    ensures range { IsNum result }
{
    left.thousandths() % right.thousandths()
}
