use typed_trees::Stmt;

/// The ERROR part of a routine, if there is one, and the number of the next FOR after it.
#[derive(Drop)]
pub(crate) struct TypedHandler {
    pub list: Option<Vec<Stmt>>,
    pub next: u32,
}
