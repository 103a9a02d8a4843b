/// The kinds of routine (RAPID Kernel, routine declarations).
#[derive(Clone, Copy, Debug, PartialEq, Eq)]
pub enum RoutineKind {
    Proc,
    Func,
    Trap,
}
