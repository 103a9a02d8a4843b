use data_scopes::Scopes;
use rapid_model::Value;
use typed_trees::LocalRow;

/// The data of a routine so far: the names with the values of the CONSTs, and how many of these there are; after the
/// parameters, the elements of its CONST arrays by their places; and the rows.
#[derive(Drop)]
pub(crate) struct Inner {
    pub(crate) scopes: Scopes,
    pub(crate) consts: u32,
    pub(crate) known: Vec<Option<Vec<Value>>>,
    pub(crate) rows: Vec<LocalRow>,
}
