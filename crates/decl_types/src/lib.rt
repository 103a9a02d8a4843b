//! The data of a task's modules: their lengths and first values.
#![tactic(auto)]

ghost use Rattle.std.specs.Prelude.{◌≡◌, map};
ghost use Rattle.raw_trees.specs.Views.{view_module};
ghost use Rattle.rule_checks.specs.TypeChecks.{Gives};
ghost use Rattle.decl_types.specs.Data.{data_of, beginning};
ghost use Rattle.decl_types.specs.Views.{view_progress};

mod arrays;
mod brackets;
mod datum;
mod first_data;
mod initial;
mod inner;
mod items;
mod known;
mod lengths;
mod locals;
mod numbers;
mod progress;
mod single;
mod sites;

use crate::items::items;
use data_scopes::{Scopes, number_after};
pub use progress::Progress;
use raw_trees::RawModule;
use rule_checks::TypeFault;
use std::alloc::Global;

/// No data yet.
fn beginning(alloc: Global, scopes: Scopes) -> Progress
    ensures { view_progress result ≡ beginning scopes }
{
    Progress {
        scopes,
        consts: 0,
        known: Vec::new(alloc),
        slots: Vec::new(alloc),
        pers: Vec::new(alloc),
        locals: Vec::new(alloc),
        values: 0,
    }
}

/// The data of a task's modules, or the first broken rule of declarations after those of `Scopes::new`.
pub fn data_of(
    alloc: Global,
    modules: &[RawModule<'_>],
    scopes: Scopes,
) -> Result<Progress, TypeFault>
    ensures { Gives view_progress result (data_of 0 (map view_module modules.now) (beginning scopes)) }
{
    let mut number = 0;
    let mut progress = beginning(alloc, scopes);
    for unit in modules {
        progress = items(alloc, number, &unit.items, progress)?;
        number = number_after(number)?;
    }
    Ok(progress)
}
