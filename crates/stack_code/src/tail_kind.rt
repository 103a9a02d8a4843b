/// What follows an operator's text (RAPID Instructions: TPWrite).
#[derive(Clone, Copy)]
pub enum TailKind {
    None,
    Num,
    Bool,
}
