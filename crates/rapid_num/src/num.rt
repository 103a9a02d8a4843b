ghost use Rattle.std.specs.Prelude.{◌≡◌};
ghost use Rattle.rapid_num.specs.Range.{IsNum};
ghost use Rattle.rapid_num.specs.Absent.{is_absent};
ghost use Rattle.rapid_num.specs.Arithmetic.{num_of};

use std::marker::Model;

/// A RAPID num: an integer number of thousandths, of absolute value at most 9 999 999 999 999 (RAPID Overview, basic
/// elements). ABB's num is a float; this profile's num is exact. Contracts see it as the number of thousandths.
#[derive(Clone, Copy, Debug, PartialEq, Eq)]
pub struct Num {
    thousandths: i64,
}

impl Model for Num {
    ghost use Rattle.std.specs.Prelude.{ℤ};
    ghost use Rattle.rapid_num.specs.Range.{IsNum};

    ghost Value = { ℤ };

    ghost view = { λ n. n.thousandths };

    ghost invariant = { λ n. IsNum n.thousandths };

    ghost inverse = { λ z. record { thousandths = z } };
}

impl Num {
    /// The num with this many thousandths. `None` exactly if it is out of range.
    pub fn new(thousandths: i64) -> Option<Num>
        ensures { result ≡ num_of thousandths }
    {
        if thousandths < -9_999_999_999_999 || thousandths > 9_999_999_999_999 {
            return None;
        }
        Some(Num { thousandths })
    }

    /// The number of thousandths.
    pub fn thousandths(self) -> i64
        ensures same { result ≡ self }
        ensures range { IsNum self }
    {
        self.thousandths
    }

    /// Whether it is 9E9, which means 'not given': an external axis that a position leaves open, or a missing bound of
    /// an axis (RAPID Instructions, Functions and Data types: extjoint, WZLimJointDef).
    pub fn is_absent(self) -> bool
        ensures { result ≡ is_absent self }
    {
        self.thousandths() == 9_000_000_000_000
    }

    /// The num with this many thousandths, which must be in range.
    pub(crate) fn within_range(thousandths: i64) -> Num
        requires { IsNum thousandths }
        ensures { result ≡ thousandths }
    {
        Num { thousandths }
    }
}
