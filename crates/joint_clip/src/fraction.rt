ghost use Rattle.std.specs.Prelude.{◌≡◌, ◌≤◌, ◌*◌, ◌↔◌, IsTrue};
ghost use Rattle.rapid_num.specs.Range.{greatest};

/// A fraction of the way along a segment, from 0 to 1.
#[derive(Clone, Copy, Debug)]
pub(crate) struct Fraction {
    pub(crate) top: u64,
    pub(crate) bottom: u64,
    ghost some: { 1 ≤ bottom },
    ghost on_the_way: { top ≤ bottom },

    // 4 * 9_999_999_999_999 is below 2 ^ 46, so a product of two such numbers is below 2 ^ 92.
    ghost small: { bottom ≤ 4 * greatest },
}

impl Fraction {
    /// The fraction `top / bottom`.
    pub(crate) fn new(top: u64, bottom: u64) -> Fraction
        requires some { 1 ≤ bottom }
        requires on_the_way { top ≤ bottom }
        requires small { bottom ≤ 4 * greatest }
        ensures top { result.top ≡ top }
        ensures bottom { result.bottom ≡ bottom }
    {
        Fraction { top, bottom }
    }

    /// Whether the fraction is at most another one: exact, by cross multiplication.
    pub(crate) fn is_at_most(self, other: Fraction) -> bool
        ensures { IsTrue result ↔ (self.top * other.bottom ≤ other.top * self.bottom) }
    {
        product(self.top, other.bottom) <= product(other.top, self.bottom)
    }
}

fn product(top: u64, bottom: u64) -> u128
    requires top { top ≤ 4 * greatest }
    requires bottom { bottom ≤ 4 * greatest }
    ensures { result ≡ top * bottom }
{
    u128::from(top) * u128::from(bottom)
}
