//! The first contents of data.

ghost use Rattle.std.specs.Prelude.{◌≡◌, map};
ghost use Rattle.constant_meaning.specs.Constants.{items_of};
ghost use Rattle.rule_checks.specs.TypeChecks.{Gives};
ghost use Rattle.decl_types.specs.Values;

use rapid_model::{Sort, Value, width};
use rapid_values::start_value;
use rule_checks::TypeFault;
use std::alloc::Global;
use typed_trees::{Datum, FirstData};

/// The first contents of a datum of a type without values.
fn without_value(sort: Sort) -> Datum
    ensures { result ≡ Values.without_value sort }
{
    match sort {
        Sort::ShapeData => Datum::Shape(None),
        _ => Datum::Mark(0),
    }
}

fn plain_or_mark(sort: Sort, value: Option<Value>) -> Datum
    ensures { result ≡ Values.plain_or_mark sort value }
{
    match value {
        Some(value) => Datum::Plain(value),
        None => without_value(sort),
    }
}

/// The first contents of a datum of a type, if its declaration gives no value.
fn start_datum(sort: Sort) -> Datum
    ensures { result ≡ Values.start_datum sort }
{
    plain_or_mark(sort, start_value(sort))
}

/// These values as data.
fn plain_data(alloc: Global, values: &[Value]) -> Result<Vec<Datum>, TypeFault>
    ensures { Gives (λ v. v.items) result (Ok (map Datum.Plain values.now)) }
{
    let mut held = Vec::with_capacity(alloc, values.len())?;
    for value in values {
        held.push(Datum::Plain(value.copy()))?;
    }
    Ok(held)
}

/// The first contents of a datum's elements. If no values are given, nothing is allocated for the elements.
pub(crate) fn first_data(
    alloc: Global,
    sort: Sort,
    len: Option<u16>,
    values: &Option<Vec<Value>>,
) -> Result<FirstData, TypeFault>
    ensures { Gives (λ first. first) result (Ok (Values.first_data sort len (items_of values.now))) }
{
    match values {
        Some(values) => Ok(FirstData::given(plain_data(alloc, values)?)),
        None => Ok(FirstData::alike(start_datum(sort), width(len))),
    }
}
