use crate::label_list::LabelList;
use data_scopes::Scopes;
use rapid_model::RoutineKind;
use std::alloc::Global;

/// The routine that is checked: the names of the task's modules, its module's number and its own, whether it is a
/// procedure, a function or a trap, and all its labels in text order.
#[derive(Clone, Copy)]
pub struct Body<'a, 'b> {
    pub alloc: Global,
    pub scopes: &'a Scopes,
    pub module: u32,
    pub routine: u32,
    pub kind: RoutineKind,
    pub labels: &'a LabelList<'b>,
}
