//! What a path names in a persistent (RAPID Kernel, data references).

ghost use Rattle.std.specs.Prelude.{◌≡◌, is_some};
ghost use Rattle.rapid_model.specs.Paths.{fits_part, has_element, has_path, num_where, part_sort};
ghost use Rattle.rapid_model.specs.Requests.{is_bool};

use rapid_limits::{MOST_AXES, ROBOT_AXES};
use rapid_model::{PartName, Path, PersCell, Sort, Value, is_value_of};
use rapid_values::value_is_full;

/// Whether the persistent has the element and the part that a path names.
pub(crate) fn has_path(row: &PersCell, path: &Path) -> bool
    ensures { result ≡ has_path row.now path.now }
{
    has_element(row.len, path.index) && part_sort(row.sort, path.part).is_some()
}

/// Whether the value can be this part of a value of this type.
pub(crate) fn fits_part(sort: Sort, part: PartName, value: &Value) -> bool
    ensures { result ≡ fits_part sort part value.now }
{
    value_is_full(value);
    match part_sort(sort, part) {
        Some(inner) => is_value_of(inner, value),
        None => false,
    }
}

/// Whether the part of a value of this type is a bool.
pub(crate) fn is_bool_part(sort: Sort, part: PartName) -> bool
    ensures { result ≡ is_bool (part_sort sort part) }
{
    match part_sort(sort, part) {
        Some(Sort::Bool) => true,
        _ => false,
    }
}

/// Whether a datum of this length has an element with this number.
fn has_element(len: Option<u16>, index: u16) -> bool
    ensures { result ≡ has_element len index }
{
    match len {
        None => index == 0,
        Some(len) => (1..=len).contains(&index),
    }
}

/// The type of a part of a value of this type, if it has the part.
fn part_sort(sort: Sort, part: PartName) -> Option<Sort>
    ensures { result ≡ part_sort sort part }
{
    match (sort, part) {
        (_, PartName::Whole) => Some(sort),
        (Sort::JointTarget, PartName::Robax) => Some(Sort::RobJoint),
        (Sort::JointTarget, PartName::Extax) => Some(Sort::ExtJoint),
        (Sort::JointTarget, PartName::Axis(number)) => num_where((number as usize) < MOST_AXES),
        (Sort::RobJoint, PartName::Axis(number)) => num_where(number < 6),
        (Sort::ExtJoint, PartName::Axis(number)) => num_where(
            ROBOT_AXES <= number as usize && (number as usize) < MOST_AXES,
        ),
        (Sort::SpeedData, PartName::SpeedPart(number)) => num_where(number < 4),
        (Sort::Tasks, PartName::Taskname) => Some(Sort::Text),
        _ => None,
    }
}

fn num_where(there: bool) -> Option<Sort>
    ensures { result ≡ num_where there }
{
    if there { Some(Sort::Num) } else { None }
}
