use crate::printable::NameText;
use rapid_num::Shape;

/// A zone of the cell: it watches the arm of the task with this number as long as the signal with this number has the
/// value.
#[derive(Debug, Drop)]
pub struct ZoneRow {
    pub name: NameText,
    pub task: u32,
    pub shape: Shape,
    pub signal: u32,
    pub value: bool,
}
