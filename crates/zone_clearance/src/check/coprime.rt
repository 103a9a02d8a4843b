ghost use Rattle.std.specs.Prelude.{◌↔◌, IsTrue};
ghost use Rattle.std.specs.Int.{IsGcd};

/// Whether two numbers have no common divisor but 1, by Euclid's algorithm.
pub(crate) fn are_coprime(mut one: u64, mut two: u64) -> bool
    ensures { IsTrue result ↔ IsGcd one two 1 }
{
    while two != 0 {
        (one, two) = (two, one % two);
    }
    one == 1
}
