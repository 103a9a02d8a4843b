/// A fraction whose bottom is above 0. The numbers are so small that no product of two of them wraps.
#[derive(Clone, Copy)]
pub(crate) struct Fraction {
    pub(crate) top: i128,
    pub(crate) bottom: i128,
}

impl Fraction {
    pub(crate) fn is_below(self, other: Fraction) -> bool {
        self.top.wrapping_mul(other.bottom) < other.top.wrapping_mul(self.bottom)
    }

    pub(crate) fn equals(self, other: Fraction) -> bool {
        self.top.wrapping_mul(other.bottom) == other.top.wrapping_mul(self.bottom)
    }

    /// Whether no number but 1 divides both: by Euclid's algorithm, which ends within 200 steps.
    pub(crate) fn is_in_lowest_terms(self) -> bool {
        let mut one = self.top.unsigned_abs();
        let mut two = self.bottom.unsigned_abs();
        for _ in 0..200 {
            if two != 0 {
                let rest = one % two;
                one = two;
                two = rest;
            }
        }
        one == 1 && two == 0
    }
}
