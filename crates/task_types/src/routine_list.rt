use crate::routine_data::RoutineData;
use typed_trees::Routine;

/// The routines typed so far, and the rows of the data of the remaining ones.
#[derive(Drop)]
pub(crate) struct RoutineList {
    pub typed: Vec<Routine>,
    pub left: RoutineData,
}
