//! Which persistents and meetings of a cell's tasks are the same, what the script says about persistents, and the cell.
#![tactic(auto)]

mod cell;
mod cell_fault;
mod giving;
mod make;
mod meeting_names;
mod meeting_tables;
mod meetings;
mod met;
mod number;
mod numbered;
mod one_pers;
mod own_numbers;
mod pers_cells;
mod pers_info;
mod pers_tables;
mod persistents;
mod rows;
mod tables;
mod trees;

pub use cell::make_cell;
pub use cell_fault::CellFault;
pub use make::cell_tables;
pub use pers_info::PersInfo;
pub use tables::CellTables;
