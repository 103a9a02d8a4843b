ghost use Rattle.std.specs.Prelude.{◌≡◌, ◌-◌, ◌<◌, is_ok, is_some, IfOk, IsTrue};
ghost use Rattle.rapid_model.specs.Paths.{has_element, part_sort};
ghost use Rattle.persist_store.specs.Rows.{axis_in, offset_in, sort_in, span, spot_of};

use crate::index_range::IndexRange;
use rapid_limits::{MOST_AXES, ROBOT_AXES};
use rapid_model::{PartName, Path, Sort};

/// Where a persistent is: its type, its length if it is an array, and the index of its first element in the row of its
/// type. 12 bytes.
#[derive(Clone, Copy, Debug)]
pub(crate) struct Place {
    pub(crate) sort: Sort,
    pub(crate) len: Option<u16>,
    pub(crate) from: u32,
}

/// Where a part of a persistent is: its type, and the index in the row of that type.
#[derive(Clone, Copy, Debug)]
pub(crate) struct Spot {
    pub(crate) sort: Sort,
    pub(crate) at: usize,
}

impl Place {
    /// Where the part that a path names is; the type has that part. `IndexRange` exactly if there is no such element.
    pub(crate) fn spot(&self, path: &Path) -> Result<Spot, IndexRange>
        ensures range { is_ok result ≡ has_element self.now.len path.now.index }
        ensures spot { IfOk result (λ spot. spot ≡ spot_of self.now path.now) }
    {
        if !self.has_element(path.index) {
            return Err(IndexRange);
        }
        let index = usize::from(path.index.saturating_sub(1));
        let from = self.from as usize + index * span(self.sort);
        Ok(Spot {
            sort: sort_in(self.sort, path.part),
            at: from + offset_in(self.sort, path.part),
        })
    }

    /// Whether the persistent has an element with this number.
    pub(crate) fn has_element(&self, index: u16) -> bool
        ensures { result ≡ has_element self.now.len index }
    {
        match self.len {
            None => index == 0,
            Some(len) => (1..=len).contains(&index),
        }
    }
}

/// How many items of its row a value of the type takes.
pub(crate) fn span(sort: Sort) -> usize
    ensures { result ≡ span sort }
{
    match sort {
        Sort::RobJoint => 6,
        Sort::ExtJoint => 6,
        Sort::JointTarget => MOST_AXES,
        Sort::SpeedData => 4,
        _ => 1,
    }
}

/// The type of a part that a value of the type has.
fn sort_in(sort: Sort, part: PartName) -> Sort
    ensures { result ≡ sort_in sort part }
{
    match part {
        PartName::Whole => sort,
        PartName::Robax => Sort::RobJoint,
        PartName::Extax => Sort::ExtJoint,
        PartName::Axis(_) => Sort::Num,
        PartName::SpeedPart(_) => Sort::Num,
        PartName::Taskname => Sort::Text,
    }
}

/// How far into a value the part begins.
fn offset_in(sort: Sort, part: PartName) -> usize
    ensures same { result ≡ offset_in sort part }
    ensures small { result < 256 }
{
    match part {
        PartName::Axis(number) => axis_in(sort, number),
        PartName::SpeedPart(number) => usize::from(number),
        PartName::Extax => ROBOT_AXES,
        _ => 0,
    }
}

/// Where an axis lies within the value; the axes of an extjoint are numbered from 6.
fn axis_in(sort: Sort, number: u8) -> usize
    ensures same { result ≡ axis_in sort number }
    ensures small { result < 256 }
{
    match sort {
        Sort::ExtJoint => usize::from(number).saturating_sub(ROBOT_AXES),
        _ => usize::from(number),
    }
}
