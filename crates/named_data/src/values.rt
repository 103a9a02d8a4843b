//! Names whose value is known.

ghost use Rattle.std.specs.Prelude.{◌≡◌};
ghost use Rattle.rule_checks.specs.TypeChecks.{Gives};
ghost use Rattle.named_data.specs.Data;
ghost use Rattle.named_data.specs.Views.{view_site};

use crate::access::is_before;
use crate::named::{NamedDatum, Source};
use crate::rules::{fault, must};
use crate::site::Site;
use data_scopes::DatumRow;
use rapid_builtins::predefined_datum;
use rapid_model::{Predefined, Sort, Value};
use rule_checks::{TypeFault, TypeRule};

/// A CONST that is not an array, by its kept value: ConstOrder if none is kept yet, or if it is declared later.
pub(crate) fn constant(
    site: &Site<'_>,
    at: usize,
    row: Option<DatumRow>,
    kept: Option<Value>,
) -> Result<NamedDatum, TypeFault>
    ensures { Gives (λ d. d) result (Data.constant (view_site site.now) at row (Some kept)) }
{
    let Some(row) = row else {
        return Err(fault(site, at, TypeRule::NoName));
    };
    let Some(value) = kept else {
        return Err(fault(site, at, TypeRule::ConstOrder));
    };
    let holds = is_before(site.spot, row.since);
    must(site, holds, at, TypeRule::ConstOrder)?;
    Ok(NamedDatum {
        source: Source::Value(value),
        sort: row.sort,
        array: false,
    })
}

/// A predefined datum by its type and value: NotThis if it has none.
fn with_value(
    site: &Site<'_>,
    at: usize,
    typed: Option<(Sort, Value)>,
) -> Result<NamedDatum, TypeFault>
    ensures { Gives (λ d. d) result (Data.with_value (view_site site.now) at typed) }
{
    match typed {
        Some((sort, value)) => {
            Ok(NamedDatum {
                source: Source::Value(value),
                sort,
                array: false,
            })
        }
        None => Err(fault(site, at, TypeRule::NotThis)),
    }
}

/// A predefined name, if it is a datum's (RAPID Instructions, Functions and Data types; RAPID Overview, error recovery,
/// for `ERRNO`).
pub(crate) fn predefined(
    site: &Site<'_>,
    at: usize,
    name: Predefined,
) -> Result<NamedDatum, TypeFault>
    ensures { Gives (λ d. d) result (Data.predefined (view_site site.now) at name) }
{
    match name {
        Predefined::ErrNo => {
            Ok(NamedDatum {
                source: Source::Errno,
                sort: Sort::Num,
                array: false,
            })
        }
        other => with_value(site, at, predefined_datum(other)),
    }
}
