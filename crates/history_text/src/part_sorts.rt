//! The types of parts of persistents.

ghost use Rattle.std.specs.Prelude.{◌≡◌};
ghost use Rattle.std.specs.Option.{option_map};
ghost use Rattle.rapid_model.specs.Paths.{num_where, part_sort};
ghost use Rattle.history_text.specs.Named.{pers_sort, view_names};
ghost use Rattle.history_text.specs.EventReading.{part_value_at, path_sort};

use crate::names::Names;
use crate::value_reading::value_at;
use rapid_limits::{MOST_AXES, ROBOT_AXES};
use rapid_model::{PartName, Path, Sort, Value};

/// A value of the type of a part of a persistent.
#[tactic(auto, unfolding(crate::specs::EventReading::part_value_at))]
pub(crate) fn part_value_at<'a>(
    names: &Names,
    pers: u32,
    path: Path,
    text: &'a [u8],
) -> Option<(Value, &'a [u8])>
    ensures { option_map (λ x. (x.0, x.1.now)) result ≡ part_value_at (view_names names.now) pers path text.now }
{
    let sort = path_sort(names, pers, path)?;
    value_at(sort, text)
}

/// The type of a part of a persistent, if there is such a part.
fn path_sort(names: &Names, pers: u32, path: Path) -> Option<Sort>
    ensures { result ≡ path_sort (view_names names.now) pers path }
{
    let sort = pers_sort(names, pers)?;
    part_sort(sort, path.part)
}

/// The type of a persistent.
pub(crate) fn pers_sort(names: &Names, pers: u32) -> Option<Sort>
    ensures { result ≡ pers_sort (view_names names.now) pers }
{
    let row = names.pers.get(pers as usize)?;
    Some(row.sort)
}

/// The type of a part of a value of this type, if it has the part.
pub(crate) fn part_sort(sort: Sort, part: PartName) -> Option<Sort>
    ensures { result ≡ part_sort sort part }
{
    match (sort, part) {
        (_, PartName::Whole) => Some(sort),
        (Sort::JointTarget, PartName::Robax) => Some(Sort::RobJoint),
        (Sort::JointTarget, PartName::Extax) => Some(Sort::ExtJoint),
        (Sort::JointTarget, PartName::Axis(number)) => num_where((number as usize) < MOST_AXES),
        (Sort::RobJoint, PartName::Axis(number)) => num_where(number < 6),
        (Sort::ExtJoint, PartName::Axis(number)) => num_where(
            ROBOT_AXES <= number as usize && (number as usize) < MOST_AXES,
        ),
        (Sort::SpeedData, PartName::SpeedPart(number)) => num_where(number < 4),
        (Sort::Tasks, PartName::Taskname) => Some(Sort::Text),
        _ => None,
    }
}

fn num_where(there: bool) -> Option<Sort>
    ensures { result ≡ num_where there }
{
    if there { Some(Sort::Num) } else { None }
}
