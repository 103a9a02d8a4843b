ghost use Rattle.std.specs.Prelude.{◌≡◌, ◌≤◌, nat_abs, pos, ◌+ℤ◌, ◌-ℤ◌, ◌*ℤ◌};
ghost use Rattle.rapid_num.specs.Arithmetic.{rounded_ratio};

use rapid_limits::EXTERNAL_REACH;
use rapid_num::{Num, round_ratio};

/// The angle of an axis, within 100,000 degrees at both ends, after `j` of `count` setpoints from `start` to `target`.
pub(crate) fn part_of_way(start: Num, target: Num, j: u32, count: u32) -> Num
    requires start { nat_abs start ≤ EXTERNAL_REACH }
    requires target { nat_abs target ≤ EXTERNAL_REACH }
    requires some { 1 ≤ count }
    requires last { j ≤ count }
    ensures { result ≡ start +ℤ rounded_ratio ((target -ℤ start) *ℤ pos j) count }
{
    Num::new(start.thousandths() + moved(start, target, j, count)).unwrap()
}

/// How far an axis has moved after `j` of `count` setpoints, in thousandths.
fn moved(start: Num, target: Num, j: u32, count: u32) -> i64
    requires start { nat_abs start ≤ EXTERNAL_REACH }
    requires target { nat_abs target ≤ EXTERNAL_REACH }
    requires some { 1 ≤ count }
    requires last { j ≤ count }
    ensures moved { result ≡ rounded_ratio ((target -ℤ start) *ℤ pos j) count }
    ensures in_reach { nat_abs (start +ℤ result) ≤ EXTERNAL_REACH }
{
    let way = (target.thousandths() - start.thousandths()) * i64::from(j);
    round_ratio(i128::from(way), i128::from(count)) as i64
}
