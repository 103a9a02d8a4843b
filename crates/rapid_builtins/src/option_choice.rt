/// How many of an instruction's options one call may have (RAPID Instructions, Functions and Data types, arguments).
#[derive(Clone, Copy, Debug, PartialEq, Eq)]
pub enum Choice {
    /// Any of them, each at most once.
    Any,
    /// At most one: they exclude each other.
    OneAtMost,
    /// Exactly one: they exclude each other, and one must be present.
    JustOne,
    /// `Inside` and exactly one of the others, which exclude each other.
    InsideAndOne,
}
