ghost use Rattle.std.specs.Prelude.{◌≡◌, ◌<◌, ◌++◌, [], ◌∷◌, length};

use rapid_limits::MOST_ZONES;
use rapid_model::Watched;
use std::marker::Model;

/// The signals to which zones of an arm gave new values in one event, at most one for each zone. Contracts see them as a
/// list.
#[derive(Drop)]
pub(crate) struct Changed {
    values: [Watched; MOST_ZONES],
    count: usize,
}

impl Model for Changed {
    ghost use Rattle.std.specs.Prelude.{◌≡◌, ◌≤◌, length, take, List};
    ghost use Rattle.rapid_limits.specs.declared.TheConstants.{MOST_ZONES};
    ghost use Rattle.rapid_model.specs.declared.watched.Watched.{Watched};

    ghost Value = { List Watched };

    ghost view = { λ c. take c.count c.values };

    ghost invariant = { λ c. (length c.values ≡ MOST_ZONES) × (c.count ≤ MOST_ZONES) };
}

impl Changed {
    /// None yet.
    pub(crate) fn new() -> Changed
        ensures { result ≡ [] }
    {
        Changed {
            values: [Watched::Pers { pers: 0 }; MOST_ZONES],
            count: 0,
        }
    }

    /// Appends a signal's new value.
    pub(crate) fn push(&mut self, on: Watched)
        requires { length self.old < MOST_ZONES }
        ensures { self.new ≡ self.old ++ on ∷ [] }
    {
        self.values[self.count] = on;
        self.count += 1;
    }

    /// All of them.
    pub(crate) fn as_slice(&self) -> &[Watched]
        ensures { result.now ≡ self.now }
    {
        &self.values[..self.count]
    }
}
