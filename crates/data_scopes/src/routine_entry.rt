use crate::data_row::{DatumRow, ParamRow};
use rapid_model::{RoutineKind, Sort};
use std::marker::Model;

/// How a routine is called, and what its data are.
#[derive(Drop)]
pub(crate) struct RoutineEntry {
    pub(crate) kind: RoutineKind,
    pub(crate) result: Option<Sort>,
    pub(crate) params: Vec<ParamRow>,
    pub(crate) locals: Vec<DatumRow>,
}

impl Model for RoutineEntry {
    ghost use Rattle.data_scopes.specs.Scopes.{RoutineRow};

    ghost Value = { RoutineRow };

    ghost view = { λ r. record { kind = r.kind; result = r.result; params = r.params.items; locals = r.locals.items } };
}
