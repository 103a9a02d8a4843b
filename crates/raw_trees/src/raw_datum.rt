use crate::raw_expr::RawExpr;
use crate::raw_name::RawName;

/// The word that declares a datum.
#[derive(Clone, Copy, Debug, PartialEq, Eq)]
pub enum DatumKind {
    Const,
    Var,
    Pers,
}

/// A declaration of a datum: the name of its type, its name, the length if it is an array, and the initial value if it
/// has one (RAPID Kernel, data declarations). `at` is the byte of the word that declares it, from 0.
#[derive(Drop)]
pub struct RawDatum<'a> {
    pub kind: DatumKind,
    pub sort: RawName<'a>,
    pub name: RawName<'a>,
    pub len: Option<RawExpr<'a>>,
    pub first: Option<RawExpr<'a>>,
    pub at: usize,
}
