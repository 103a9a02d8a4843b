ghost use Rattle.std.specs.Prelude.{◌≡◌, ◌*◌};

/// The exact product of two numbers.
pub(crate) fn product(one: u64, two: u64) -> u128
    ensures { result ≡ one * two }
{
    u128::from(one) * u128::from(two)
}
