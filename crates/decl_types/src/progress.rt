use data_scopes::Scopes;
use rapid_model::Value;
use typed_trees::{LocalRow, PersRow, SlotRow};

/// The data of a task's modules so far: the names with the values of the CONSTs that are not arrays, and how many of
/// these there are; the elements of the CONST arrays by their slots; the rows of VARs and CONST arrays, of PERSs, and
/// of each routine's data; and how many values the modules' data have in all.
#[derive(Drop)]
pub struct Progress {
    pub scopes: Scopes,
    pub consts: u32,
    pub known: Vec<Option<Vec<Value>>>,
    pub slots: Vec<SlotRow>,
    pub pers: Vec<PersRow>,
    pub locals: Vec<Vec<LocalRow>>,
    pub values: usize,
}
