//! Theorems only. The trees of an accepted cell are well typed, have the cell's numbers, and are ones that `compile`
//! takes. Its tasks ask as the laws on histories require, and as the compiled code of their trees, which suits them.
#![tactic(auto)]

mod laws;

pub use laws::{
    accepted_code_fits_its_task, accepted_code_suits_its_task, accepted_tasks_are_well_typed,
    accepted_tasks_ask_as_their_code, accepted_tasks_ask_well, accepted_tasks_go_on,
    accepted_tasks_keep_constants, accepted_tasks_run_as_code, accepted_trees_are_checked,
    accepted_trees_number_their_labels, made_cells_number_their_trees, read_labels_stand_apart,
    read_traps_take_nothing,
};
