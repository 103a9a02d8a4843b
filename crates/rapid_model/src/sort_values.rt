//! Values of the data types.

ghost use Rattle.std.specs.Prelude.{◌≡◌};
ghost use Rattle.rapid_model.specs.Sorts;

use crate::sort::Sort;
use crate::value::Value;

/// Whether data of the type have values in expressions (RAPID Kernel, value, non-value and semi-value data types). Only
/// such data can be CONST or PERS, have an initial value, or be read and assigned.
pub fn has_values(sort: Sort) -> bool
    ensures { result ≡ Sorts.has_values sort }
{
    match sort {
        Sort::IntNum => false,
        Sort::SyncIdent => false,
        Sort::ShapeData => false,
        Sort::WzTemporary => false,
        Sort::WzStationary => false,
        _ => true,
    }
}

/// Whether it is a value of the type, as the value of a datum must be (RAPID Kernel, data declarations). The value of a
/// tasks is the text of its only component. A type without values has none.
pub fn is_value_of(sort: Sort, value: &Value) -> bool
    ensures { result ≡ Sorts.is_value_of sort value.now }
{
    match (sort, value) {
        (Sort::Num, Value::Num(_)) => true,
        (Sort::Bool, Value::Bool(_)) => true,
        (Sort::Text, Value::Text(_)) => true,
        (Sort::Tasks, Value::Text(_)) => true,
        (Sort::RobJoint, Value::Rob(_)) => true,
        (Sort::ExtJoint, Value::Ext(_)) => true,
        (Sort::JointTarget, Value::Target(_)) => true,
        (Sort::SpeedData, Value::Speed(_)) => true,
        _ => false,
    }
}

/// The number of elements of a datum: its length if it is an array, else one.
pub fn width(len: Option<u16>) -> usize
    ensures { result ≡ Sorts.width len }
{
    match len {
        Some(len) => len as usize,
        None => 1,
    }
}
