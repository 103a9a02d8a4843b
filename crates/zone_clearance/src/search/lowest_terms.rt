//! Fractions in lowest terms.

ghost use Rattle.std.specs.Prelude.{◌≡◌, ◌≤◌, ◌*◌};
ghost use Rattle.std.specs.Int.{IsGcd};

/// A fraction in lowest terms.
#[derive(Clone, Copy, Debug)]
pub(crate) struct Lowest {
    pub(crate) top: u64,
    pub(crate) bottom: u64,
    ghost some: { 1 ≤ bottom },
    ghost lowest: { IsGcd top bottom 1 },
}

/// A fraction in lowest terms.
pub(crate) fn in_lowest_terms(top: u64, bottom: u64) -> Lowest
    requires { 1 ≤ bottom }
    ensures same { result.top * bottom ≡ top * result.bottom }
    ensures small_top { result.top ≤ top }
    ensures small_bottom { result.bottom ≤ bottom }
{
    let divisor = greatest_divisor(top, bottom);
    Lowest {
        top: top / divisor,
        bottom: bottom / divisor,
    }
}

/// The greatest common divisor, by Euclid's algorithm.
fn greatest_divisor(mut one: u64, mut two: u64) -> u64
    requires { 1 ≤ two }
    ensures { IsGcd one two result }
{
    while two != 0 {
        (one, two) = (two, one % two);
    }
    one
}
