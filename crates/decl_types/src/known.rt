//! Values of CONSTs, which are known to what comes after them.

ghost use Rattle.std.specs.Prelude.{◌≡◌, Some};
ghost use Rattle.constant_meaning.specs.Constants.{items_of};
ghost use Rattle.rule_checks.specs.TypeChecks.{Gives};
ghost use Rattle.data_scopes.specs.Kept.{with_kept};
ghost use Rattle.decl_types.specs.Data;

use data_scopes::Scopes;
use rapid_model::{Value, is_value_of};
use rule_checks::TypeFault;

/// The names with the value of one more CONST. Fails only as out of memory, also if the value is not of the type of the
/// CONST's row, which never happens: each initial value is of its row's type.
fn with_kept(scopes: Scopes, constant: u32, value: Value) -> Result<Scopes, TypeFault>
    ensures { Gives (λ s. s) result (Ok (with_kept scopes constant value)) }
{
    let Some(row) = scopes.constant(constant) else {
        return Err(TypeFault::Memory);
    };
    if !is_value_of(row.sort, &value) {
        return Err(TypeFault::Memory);
    }
    let mut scopes = scopes;
    scopes.keep(constant, value);
    Ok(scopes)
}

/// The names with the first of these values for one more CONST.
fn keeping_first(scopes: Scopes, constant: u32, values: &[Value]) -> Result<Scopes, TypeFault>
    ensures { Gives (λ s. s) result (Ok (Data.keeping scopes constant (Some values.now))) }
{
    match values {
        [] => Ok(scopes),
        [value, ..] => with_kept(scopes, constant, value.copy()),
    }
}

/// The names with the value of one more CONST, if it has one.
pub(crate) fn keeping(
    scopes: Scopes,
    constant: u32,
    values: &Option<Vec<Value>>,
) -> Result<Scopes, TypeFault>
    ensures { Gives (λ s. s) result (Ok (Data.keeping scopes constant (items_of values.now))) }
{
    match values {
        None => Ok(scopes),
        Some(values) => keeping_first(scopes, constant, values),
    }
}

/// The elements of an array, if they never change.
pub(crate) fn known_elements(constant: bool, values: Option<Vec<Value>>) -> Option<Vec<Value>>
    ensures { items_of result ≡ Data.known_elements constant (items_of values) }
{
    if constant { values } else { None }
}
