//! Equal values (RAPID Overview, expressions).
ghost use Rattle.std.specs.Prelude.{◌≡◌, ◌↔◌, IsTrue};
ghost use Rattle.rapid_values.specs.Equality.{are_alike, same, same_nums};

use rapid_model::Value;
use rapid_num::Num;

/// Whether two values have the same form and are equal in every part (RAPID Overview, expressions).
pub fn same_value(a: &Value, b: &Value) -> bool
    ensures same { result ≡ same a.now b.now }
    ensures equal { IsTrue result ↔ (a.now ≡ b.now) }
{
    match (a, b) {
        (Value::Num(a), Value::Num(b)) => a.thousandths() == b.thousandths(),
        (Value::Bool(a), Value::Bool(b)) => a == b,
        (Value::Text(a), Value::Text(b)) => a.bytes() == b.bytes(),
        (Value::Rob(a), Value::Rob(b)) => are_same(a, b),
        (Value::Ext(a), Value::Ext(b)) => are_same(a, b),
        (Value::Target(a), Value::Target(b)) => are_same(&a.axis, &b.axis),
        (Value::Speed(a), Value::Speed(b)) => are_same(a, b),
        _ => false,
    }
}

/// Whether two values have the same form.
pub(crate) fn are_alike(a: &Value, b: &Value) -> bool
    ensures { result ≡ are_alike a.now b.now }
{
    match (a, b) {
        (Value::Num(_), Value::Num(_))
        | (Value::Bool(_), Value::Bool(_))
        | (Value::Text(_), Value::Text(_))
        | (Value::Rob(_), Value::Rob(_))
        | (Value::Ext(_), Value::Ext(_))
        | (Value::Target(_), Value::Target(_))
        | (Value::Speed(_), Value::Speed(_)) => true,
        _ => false,
    }
}

/// Whether two lists of nums are equal, num by num.
fn are_same(a: &[Num], b: &[Num]) -> bool
    ensures same { result ≡ same_nums a.now b.now }
    ensures equal { IsTrue result ↔ (a.now ≡ b.now) }
{
    a == b
}
