ghost use Rattle.std.specs.Prelude.{◌≡◌, ◌≤◌, ◌*◌, ◌↔◌, IsTrue, nat_abs, pos, ◌*ℤ◌, ◌≤ℤ◌};
ghost use Rattle.rapid_limits.specs.declared.TheConstants.{EXTERNAL_REACH};

/// A level that lines are compared with: a number of thousandths of a degree, not negative, as a fraction.
#[derive(Clone, Copy, Debug)]
pub(crate) struct Level {
    pub(crate) top: u64,
    pub(crate) bottom: u64,
    ghost some: { 1 ≤ bottom },

    // Two lines cross at the quotient of sums of two products, 2e8 * 4e8 each, and of sums of two differences.
    ghost small_top: { top ≤ 160_000_000_000_000_000 },
    ghost small_bottom: { bottom ≤ 800_000_000 },
}

impl Level {
    /// An integer number of thousandths, which is not negative.
    pub(crate) fn whole(thousandths: i64) -> Level
        requires not_negative { pos 0 ≤ℤ thousandths }
        requires small { nat_abs thousandths ≤ 2 * EXTERNAL_REACH }
        ensures top { pos result.top ≡ thousandths }
        ensures bottom { result.bottom ≡ 1 }
    {
        Level {
            top: thousandths as u64,
            bottom: 1,
        }
    }

    /// Whether an integer number of thousandths is at most the level.
    pub(crate) fn is_at_least(self, thousandths: i64) -> bool
        requires { nat_abs thousandths ≤ 2 * EXTERNAL_REACH }
        ensures { IsTrue result ↔ ((thousandths *ℤ pos self.bottom) ≤ℤ pos self.top) }
    {
        thousandths < 0 || thousandths.unsigned_abs() * self.bottom <= self.top
    }
}
