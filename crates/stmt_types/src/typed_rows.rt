use typed_trees::{Expr, Stmt};

/// The typed statements of a list, and the number of the next FOR after them.
#[derive(Drop)]
pub struct TypedList {
    pub list: Vec<Stmt>,
    pub next: u32,
}

/// The typed form of a statement, and the number of the next FOR after it.
#[derive(Drop)]
pub(crate) struct TypedOne {
    pub(crate) stmt: Stmt,
    pub(crate) next: u32,
}

/// IF and each ELSEIF with its list, and the number of the next FOR after them.
#[derive(Drop)]
pub(crate) struct TypedArms {
    pub(crate) arms: Vec<(Expr, Vec<Stmt>)>,
    pub(crate) next: u32,
}

/// Each CASE with its values and its list, and the number of the next FOR after them.
#[derive(Drop)]
pub(crate) struct TypedCases {
    pub(crate) cases: Vec<(Vec<Expr>, Vec<Stmt>)>,
    pub(crate) next: u32,
}

/// The list of ELSE or DEFAULT, if there is one, and the number of the next FOR after it.
#[derive(Drop)]
pub(crate) struct TypedElse {
    pub(crate) other: Option<Vec<Stmt>>,
    pub(crate) next: u32,
}
