use crate::file_name::FileName;
use crate::printable::NameText;
use crate::sequence::Sequence;
use rapid_num::Joints;

/// A task of the script: its name, its module files, the start position of its arm, if it has one, and the number of
/// axes of the arm: 6 to 12, or 0 if there is none.
#[derive(Debug, Drop)]
pub struct ScriptTask {
    pub name: NameText,
    pub modules: Sequence<FileName>,
    pub arm: Option<Joints>,
    pub axes: u8,
}
