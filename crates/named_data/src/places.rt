//! Names that stand for places of the task's data.

ghost use Rattle.std.specs.Prelude.{◌≡◌};
ghost use Rattle.rule_checks.specs.TypeChecks.{Gives};
ghost use Rattle.named_data.specs.Data;
ghost use Rattle.named_data.specs.Views.{view_site};

use crate::access::{access_by, access_of, is_before};
use crate::named::{Access, NamedDatum, Source};
use crate::rules::{fault, must};
use crate::site::Site;
use data_scopes::{DatumRow, ParamRow};
use rapid_model::Sort;
use rule_checks::{TypeFault, TypeRule};
use typed_trees::TreeRoot;

/// A datum at a place of its own: ConstOrder if it is a CONST array that is declared later.
pub(crate) fn stored(
    site: &Site<'_>,
    at: usize,
    root: TreeRoot,
    row: Option<DatumRow>,
) -> Result<NamedDatum, TypeFault>
    ensures { Gives (λ d. d) result (Data.stored (view_site site.now) at root row) }
{
    let Some(row) = row else {
        return Err(fault(site, at, TypeRule::NoName));
    };
    let holds = is_before(site.spot, row.since);
    must(site, holds, at, TypeRule::ConstOrder)?;
    let access = access_of(row.since);
    Ok(NamedDatum {
        source: Source::Place { root, access },
        sort: row.sort,
        array: row.array,
    })
}

/// The PERS with a number.
pub(crate) fn persistent(
    site: &Site<'_>,
    at: usize,
    number: u32,
    row: Option<DatumRow>,
) -> Result<NamedDatum, TypeFault>
    ensures { Gives (λ d. d) result (Data.persistent (view_site site.now) at number row) }
{
    let Some(row) = row else {
        return Err(fault(site, at, TypeRule::NoName));
    };
    let root = TreeRoot::Pers(number);
    let access = Access::Pers;
    Ok(NamedDatum {
        source: Source::Place { root, access },
        sort: row.sort,
        array: row.array,
    })
}

/// What the reference parameter at an index of the routine refers to.
pub(crate) fn parameter(
    site: &Site<'_>,
    at: usize,
    index: u32,
    row: Option<ParamRow>,
) -> Result<NamedDatum, TypeFault>
    ensures { Gives (λ d. d) result (Data.parameter (view_site site.now) at index row) }
{
    let Some(row) = row else {
        return Err(fault(site, at, TypeRule::NoName));
    };
    let root = TreeRoot::Ref(index);
    let access = access_by(row.mode);
    Ok(NamedDatum {
        source: Source::Place { root, access },
        sort: row.sort,
        array: false,
    })
}

/// The variable of the routine's FOR with this number; its index comes after the routine's parameters and data (RAPID
/// Kernel, FOR statement). Fails only if an allocation fails.
pub(crate) fn counter(site: &Site<'_>, number: u32) -> Result<NamedDatum, TypeFault>
    ensures { Gives (λ d. d) result (Ok (Data.counter (view_site site.now) number)) }
{
    let Ok(count) = u32::try_from(site.scopes.data_count(site.spot.routine)) else {
        return Err(TypeFault::Memory);
    };
    let Some(index) = count.checked_add(number) else {
        return Err(TypeFault::Memory);
    };
    let root = TreeRoot::Local(index);
    let access = Access::Fixed;
    Ok(NamedDatum {
        source: Source::Place { root, access },
        sort: Sort::Num,
        array: false,
    })
}
