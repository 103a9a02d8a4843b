//! The part of a value that components name.

ghost use Rattle.std.specs.Prelude.{◌≡◌, ◌∷◌, [], map};
ghost use Rattle.raw_trees.specs.Views.{view_name};
ghost use Rattle.rule_checks.specs.TypeChecks.{Gives};
ghost use Rattle.named_data.specs.Data;
ghost use Rattle.named_data.specs.Views.{view_site};

use crate::rules::fault;
use crate::site::Site;
use rapid_model::{PartName, Sort};
use rapid_values::component;
use raw_trees::RawName;
use rule_checks::{TypeFault, TypeRule};

/// A part of a value, and the part's type.
#[derive(Clone, Copy, Debug, PartialEq, Eq)]
pub struct Part {
    pub name: PartName,
    pub sort: Sort,
}

/// A value as a part of itself.
fn whole_of(sort: Sort) -> Part
    ensures { result ≡ Data.whole_of sort }
{
    Part {
        name: PartName::Whole,
        sort,
    }
}

/// The component of a part with this name. NoName is reported at the name.
fn component_at(site: &Site<'_>, found: Part, name: &RawName<'_>) -> Result<Part, TypeFault>
    ensures { Gives (λ p. p) result (Data.part_at (view_site site.now) found (view_name name.now ∷ [])) }
{
    match component(found.sort, name.text) {
        Some((name, sort)) => Ok(Part { name, sort }),
        None => Err(fault(site, name.at, TypeRule::NoName)),
    }
}

/// The part of a value of this type that components name, from left to right. NoName is reported at the first one that
/// the type before it does not have.
pub fn part_at(site: &Site<'_>, sort: Sort, components: &[RawName<'_>]) -> Result<Part, TypeFault>
    ensures { Gives (λ p. p) result (Data.part_at (view_site site.now) (Data.whole_of sort) (map view_name components.now)) }
{
    let mut found = whole_of(sort);
    for name in components {
        found = component_at(site, found, name)?;
    }
    Ok(found)
}
