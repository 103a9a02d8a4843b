ghost use Rattle.std.specs.Prelude.{◌≡◌};
ghost use Rattle.rapid_values.specs.Equality.{same};

use crate::place::Spot;
use crate::rows::Rows;
use rapid_model::Value;
use std::marker::Model;

/// A part of a persistent as it is now, lent by a store. Contracts see its value.
#[derive(Drop)]
pub struct Seen<'a> {
    pub(crate) rows: &'a Rows,
    pub(crate) spot: Spot,
}

impl<'a> Model for Seen<'a> {
    ghost use Rattle.rapid_model.specs.declared.value.Value.{Value as ValueOf};

    ghost Value = { ValueOf };

    ghost use Rattle.std.specs.Prelude.{◌≡◌, true};
    ghost use Rattle.rapid_model.specs.Sorts.{has_values};
    ghost use Rattle.persist_store.specs.Rows.{IsWithin, value_at};

    ghost view = { λ s. value_at s.rows.now s.spot.sort s.spot.at };

    ghost invariant = { λ s. IsWithin s.rows.now s.spot.sort s.spot.at × (has_values s.spot.sort ≡ true) };
}

impl Seen<'_> {
    /// The value.
    pub fn value(&self) -> Value
        ensures { result ≡ self.now }
    {
        self.rows.value(self.spot.sort, self.spot.at)
    }

    /// Whether it has the form of another value and equals it in every part (RAPID Overview, expressions). Copies
    /// nothing.
    pub fn same(&self, value: &Value) -> bool
        ensures { result ≡ same self.now value.now }
    {
        self.rows.same(self.spot.sort, self.spot.at, value)
    }
}
