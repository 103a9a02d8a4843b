ghost use Rattle.std.specs.Prelude.{◌≡◌, ◌≤◌, ◌*◌, nat_abs, pos, ◌-ℤ◌};
ghost use Rattle.rapid_limits.specs.declared.TheConstants.{EXTERNAL_REACH};
ghost use Rattle.zone_clearance.specs.Lines.{low_line, high_line};
ghost use Rattle.zone_clearance.specs.Premises.{IsInReach};

use rapid_num::{Bound, Num};

/// The line of a side along a segment: its values at the two ends, in thousandths of a degree.
#[derive(Clone, Copy, Debug)]
pub(crate) struct Line {
    pub(crate) start: i64,
    pub(crate) end: i64,
    ghost small_start: { nat_abs start ≤ 2 * EXTERNAL_REACH },
    ghost small_end: { nat_abs end ≤ 2 * EXTERNAL_REACH },
}

impl Line {
    /// The line of `Zero`.
    pub(crate) fn zero() -> Line
        ensures start { result.start ≡ pos 0 }
        ensures end { result.end ≡ pos 0 }
    {
        Line { start: 0, end: 0 }
    }

    /// The line of a low bound, for an axis that goes from `p` to `q`.
    pub(crate) fn low(inside: bool, bound: &Bound, p: Num, q: Num) -> Line
        requires { IsInReach bound.now p q }
        ensures start { result.start ≡ low_line inside bound.now p 1 }
        ensures end { result.end ≡ low_line inside bound.now q 1 }
    {
        if inside {
            Line::below(bound.low, p, q)
        } else {
            Line::above(bound.low, p, q)
        }
    }

    /// The line of a high bound, for an axis that goes from `p` to `q`.
    pub(crate) fn high(inside: bool, bound: &Bound, p: Num, q: Num) -> Line
        requires { IsInReach bound.now p q }
        ensures start { result.start ≡ high_line inside bound.now p 1 }
        ensures end { result.end ≡ high_line inside bound.now q 1 }
    {
        if inside {
            Line::above(bound.high, p, q)
        } else {
            Line::below(bound.high, p, q)
        }
    }

    /// How far an axis is above an angle.
    fn above(angle: Num, p: Num, q: Num) -> Line
        requires angle { nat_abs angle ≤ EXTERNAL_REACH }
        requires p { nat_abs p ≤ EXTERNAL_REACH }
        requires q { nat_abs q ≤ EXTERNAL_REACH }
        ensures start { result.start ≡ p -ℤ angle }
        ensures end { result.end ≡ q -ℤ angle }
    {
        Line {
            start: difference(p, angle),
            end: difference(q, angle),
        }
    }

    /// How far an axis is below an angle.
    fn below(angle: Num, p: Num, q: Num) -> Line
        requires angle { nat_abs angle ≤ EXTERNAL_REACH }
        requires p { nat_abs p ≤ EXTERNAL_REACH }
        requires q { nat_abs q ≤ EXTERNAL_REACH }
        ensures start { result.start ≡ angle -ℤ p }
        ensures end { result.end ≡ angle -ℤ q }
    {
        Line {
            start: difference(angle, p),
            end: difference(angle, q),
        }
    }
}

fn difference(a: Num, b: Num) -> i64
    requires a { nat_abs a ≤ EXTERNAL_REACH }
    requires b { nat_abs b ≤ EXTERNAL_REACH }
    ensures difference { result ≡ a -ℤ b }
    ensures small { nat_abs result ≤ 2 * EXTERNAL_REACH }
{
    a.thousandths() - b.thousandths()
}
