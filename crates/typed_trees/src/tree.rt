//! A checked task.

use crate::data_rows::{PersRow, SlotRow};
use crate::routine::Routine;
use rapid_model::NameText;

/// The contents of a task's modules: how many modules there are, the names of all tasks in the script, the modules'
/// data, persistents and meetings, the routines, and the number of `main` among them. `pers_of` and `meeting_of` map
/// the tree's numbers to the cell's once the cell is made; before, they are empty. `axes` is how many axes the task's
/// arm has, 0 if it has none.
#[derive(Drop)]
pub struct Tree {
    pub modules: u32,
    pub tasks: Vec<NameText>,
    pub slots: Vec<SlotRow>,
    pub pers: Vec<PersRow>,
    pub meetings: Vec<NameText>,
    pub routines: Vec<Routine>,
    pub main: u32,
    pub pers_of: Vec<u32>,
    pub meeting_of: Vec<u32>,
    pub axes: u8,
}
