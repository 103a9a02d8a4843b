use crate::printable::NameText;
use rapid_num::Joints;

/// A task of the cell: its name, the start position of its arm, if it has one, and the number of axes of the arm: 6 to
/// 12, or 0 if there is none.
#[derive(Debug, Drop)]
pub struct TaskRow {
    pub name: NameText,
    pub arm: Option<Joints>,
    pub axes: u8,
}
