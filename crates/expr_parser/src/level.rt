ghost use Rattle.std.specs.Prelude.{◌≡◌};
ghost use Rattle.expr_parser.specs.Reads.{operators_of};

use rapid_forms::Sign;

/// A level of operators, which chain from left to right (RAPID Kernel, expressions).
#[derive(Clone, Copy, Debug, PartialEq, Eq)]
pub(crate) enum Level {
    Or,
    And,
    Sum,
    Term,
}

static OR: [Sign; 2] = [Sign::Or, Sign::Xor];

static AND: [Sign; 1] = [Sign::And];

static SUM: [Sign; 2] = [Sign::Plus, Sign::Minus];

static TERM: [Sign; 4] = [Sign::Star, Sign::Slash, Sign::Div, Sign::Mod];

impl Level {
    /// The operators of the level.
    pub(crate) fn operators(self) -> &'static [Sign]
        ensures { result.now ≡ operators_of self }
    {
        match self {
            Level::Or => &OR,
            Level::And => &AND,
            Level::Sum => &SUM,
            Level::Term => &TERM,
        }
    }
}
