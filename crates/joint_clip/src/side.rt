ghost use Rattle.std.specs.Prelude.{◌≡◌, ◌≤◌, ◌+◌, ◌*◌, ◌-ℤ◌, nat_abs};
ghost use Rattle.rapid_num.specs.Range.{greatest};

use crate::fraction::Fraction;
use rapid_num::Num;

/// How far the two ends of a segment are on the inner side of a bound, in thousandths of a degree: negative if the end
/// is past it.
#[derive(Clone, Copy, Debug)]
pub(crate) struct Side {
    pub(crate) start: i64,
    pub(crate) end: i64,
    ghost small_start: { nat_abs start ≤ 2 * greatest },
    ghost small_end: { nat_abs end ≤ 2 * greatest },
}

impl Side {
    /// The inner side of a low bound, for an axis that goes from `p` to `q`.
    pub(crate) fn above(low: Num, p: Num, q: Num) -> Side
        ensures start { result.start ≡ p -ℤ low }
        ensures end { result.end ≡ q -ℤ low }
    {
        Side {
            start: difference(p, low),
            end: difference(q, low),
        }
    }

    /// The inner side of a high bound, for an axis that goes from `p` to `q`.
    pub(crate) fn below(high: Num, p: Num, q: Num) -> Side
        ensures start { result.start ≡ high -ℤ p }
        ensures end { result.end ≡ high -ℤ q }
    {
        Side {
            start: difference(high, p),
            end: difference(high, q),
        }
    }

    /// Where a segment with one end past the bound crosses it.
    pub(crate) fn crossing(self) -> Fraction
        requires { 1 ≤ nat_abs self.start + nat_abs self.end }
        ensures top { result.top ≡ nat_abs self.start }
        ensures bottom { result.bottom ≡ nat_abs self.start + nat_abs self.end }
    {
        let start = self.start.unsigned_abs();
        Fraction::new(start, start + self.end.unsigned_abs())
    }
}

fn difference(a: Num, b: Num) -> i64
    ensures difference { result ≡ a -ℤ b }
    ensures small { nat_abs result ≤ 2 * greatest }
{
    a.thousandths() - b.thousandths()
}
