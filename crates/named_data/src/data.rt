//! What a name stands for as a value or a place.

ghost use Rattle.std.specs.Prelude.{◌≡◌, ◌<◌, ℕ, false, length};
ghost use Rattle.raw_trees.specs.Views.{view_name};
ghost use Rattle.rule_checks.specs.TypeChecks.{Gives};
ghost use Rattle.named_data.specs.Data;
ghost use Rattle.named_data.specs.Views.{view_site};

use crate::named::{NamedDatum, Source};
use crate::places::{counter, parameter, persistent, stored};
use crate::rules::fault;
use crate::site::Site;
use crate::values::{constant, predefined};
use data_scopes::Meant;
use rapid_model::Sort;
use raw_trees::RawName;
use rule_checks::{TypeFault, TypeRule};
use typed_trees::TreeRoot;

/// The datum that a name means; the name of a signal stands for its value.
fn datum_meant(site: &Site<'_>, at: usize, meant: Option<Meant>) -> Result<NamedDatum, TypeFault>
    requires known { (constant : ℕ) → meant ≡ Some (Meant.Const constant) → constant < length site.now.scopes.now.kept }
    ensures { Gives (λ d. d) result (Data.datum_meant (view_site site.now) at meant) }
{
    let scopes = site.scopes;
    let routine = site.spot.routine;
    let Some(meant) = meant else {
        return Err(fault(site, at, TypeRule::NoName));
    };
    match meant {
        Meant::Slot(number) => stored(site, at, TreeRoot::Slot(number), scopes.slot(number)),
        Meant::Local(index) => {
            stored(
                site,
                at,
                TreeRoot::Local(index),
                scopes.local(routine, index),
            )
        }
        Meant::Ref(index) => parameter(site, at, index, scopes.param(routine, index)),
        Meant::Pers(number) => persistent(site, at, number, scopes.pers(number)),
        Meant::Const(number) => constant(site, at, scopes.constant(number), scopes.kept(number)),
        Meant::For(number) => counter(site, number),
        Meant::Signal(number) => Ok(signal(number)),
        Meant::Predefined(name) => predefined(site, at, name),
        _ => Err(fault(site, at, TypeRule::NotThis)),
    }
}

/// The value of a signal, by its number in the script.
fn signal(number: u32) -> NamedDatum
    ensures { result ≡ record { source = Source.Signal number; sort = Sort.Num; array = false } }
{
    NamedDatum {
        source: Source::Signal(number),
        sort: Sort::Num,
        array: false,
    }
}

/// The datum that a name means. NoName, NotThis and ConstOrder are reported at the name.
pub fn datum_at(site: &Site<'_>, name: &RawName<'_>) -> Result<NamedDatum, TypeFault>
    ensures { Gives (λ d. d) result (Data.datum_at (view_site site.now) (view_name name.now)) }
{
    datum_meant(site, name.at, site.scopes.find(site.spot, name.text))
}
