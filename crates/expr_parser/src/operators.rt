//! The meaning of operators and of the words that are literals.

ghost use Rattle.std.specs.Prelude.{◌≡◌, ◌∷◌, []};
ghost use Rattle.rapid_lexer.specs.Tokens.{view};
ghost use Rattle.rapid_forms.specs.Signs.{has, is_seen};
ghost use Rattle.expr_parser.specs.Operators.{is_minus, is_true, operator_in, operator_of, operator_rows, operator_signs};
ghost use Rattle.expr_parser.specs.Reads.{prefixes};

use rapid_forms::{Sign, sign_of};
use rapid_lexer::Token;
use rapid_model::Operator;

/// The operator of a token, if it is one.
#[tactic(auto, unfolding(crate::specs::Operators::operator_of))]
pub(crate) fn operator_of(token: &Token<'_>) -> Operator
    ensures { result ≡ operator_of (view token.now) }
{
    operator_with(sign_of(token))
}

/// The operator for this sign, if it is one.
#[tactic(auto, unfolding(rapid_forms::specs::Signs::has))]
fn operator_with(sign: Sign) -> Operator
    ensures { result ≡ operator_in operator_rows sign }
{
    match sign {
        Sign::Xor => Operator::Xor,
        Sign::And => Operator::And,
        Sign::Equal => Operator::Equal,
        Sign::NotEqual => Operator::NotEqual,
        Sign::Less => Operator::Less,
        Sign::Greater => Operator::Greater,
        Sign::LessEqual => Operator::LessEqual,
        Sign::GreaterEqual => Operator::GreaterEqual,
        Sign::Plus => Operator::Add,
        Sign::Minus => Operator::Sub,
        Sign::Star => Operator::Mul,
        Sign::Slash => Operator::Div,
        Sign::Div => Operator::IntDiv,
        Sign::Mod => Operator::Mod,
        _ => Operator::Or,
    }
}

pub(crate) fn is_minus(token: &Token<'_>) -> bool
    ensures { result ≡ is_minus (view token.now) }
{
    matches!(sign_of(token), Sign::Minus)
}

pub(crate) fn is_true(token: &Token<'_>) -> bool
    ensures { result ≡ is_true (view token.now) }
{
    matches!(sign_of(token), Sign::True)
}

/// Whether there is a sign, and it is TRUE or FALSE.
pub(crate) fn is_truth(sign: Option<Sign>) -> bool
    ensures { result ≡ is_seen (Sign.True ∷ Sign.False ∷ []) sign }
{
    match sign {
        Some(sign) => spells_truth(sign),
        None => false,
    }
}

/// Whether this sign is TRUE or FALSE.
#[tactic(auto, unfolding(rapid_forms::specs::Signs::has))]
fn spells_truth(sign: Sign) -> bool
    ensures { result ≡ has (Sign.True ∷ Sign.False ∷ []) sign }
{
    match sign {
        Sign::True => true,
        Sign::False => true,
        _ => false,
    }
}

/// Whether there is a sign, and it is NOT or a leading sign.
pub(crate) fn is_prefix(sign: Option<Sign>) -> bool
    ensures { result ≡ is_seen prefixes sign }
{
    match sign {
        Some(sign) => leads(sign),
        None => false,
    }
}

/// Whether this sign is NOT or a leading sign.
#[tactic(auto, unfolding(rapid_forms::specs::Signs::has))]
fn leads(sign: Sign) -> bool
    ensures { result ≡ has prefixes sign }
{
    match sign {
        Sign::Not => true,
        Sign::Plus => true,
        Sign::Minus => true,
        _ => false,
    }
}

/// Whether there is a sign, and it is an operator.
pub(crate) fn is_operator(sign: Option<Sign>) -> bool
    ensures { result ≡ is_seen operator_signs sign }
{
    match sign {
        Some(sign) => joins(sign),
        None => false,
    }
}

/// Whether this sign is an operator.
#[tactic(auto, unfolding(rapid_forms::specs::Signs::has))]
fn joins(sign: Sign) -> bool
    ensures { result ≡ has operator_signs sign }
{
    match sign {
        Sign::Or => true,
        Sign::Xor => true,
        Sign::And => true,
        Sign::Equal => true,
        Sign::NotEqual => true,
        Sign::Less => true,
        Sign::Greater => true,
        Sign::LessEqual => true,
        Sign::GreaterEqual => true,
        Sign::Plus => true,
        Sign::Minus => true,
        Sign::Star => true,
        Sign::Slash => true,
        Sign::Div => true,
        Sign::Mod => true,
        _ => false,
    }
}
