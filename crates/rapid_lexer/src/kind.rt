use crate::mark::Mark;
use crate::word::Word;

/// The kind of a token.
#[derive(Clone, Copy, Debug, PartialEq, Eq)]
pub enum Kind {
    /// A letter, then letters, digits and `_`, but not a reserved word.
    Name,
    /// A reserved word, case-insensitive.
    Word(Word),
    /// A numerical literal.
    Number,
    /// A string with its quotes.
    Quoted,
    /// A mark.
    Mark(Mark),
}
