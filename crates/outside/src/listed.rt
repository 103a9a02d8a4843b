ghost use Rattle.std.specs.Prelude.{◌≡◌, ◌==◌};
ghost use Rattle.std.specs.List.{list_any};

// Whether the call with this number is to fail.
pub(crate) fn is_listed(failing: &[u32], number: u64) -> bool
    ensures { result ≡ list_any (λ n. n == number) failing.now }
{
    failing.iter().any(|n| u64::from(*n) == number)
}
