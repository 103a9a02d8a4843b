use data_scopes::Scopes;
use rule_checks::Spot;
use std::alloc::Global;

/// The context of checking: the names of the task's modules, and the spot of the current expression or statement.
#[derive(Clone, Copy)]
pub struct Site<'a> {
    pub alloc: Global,
    pub scopes: &'a Scopes,
    pub spot: Spot,
}
