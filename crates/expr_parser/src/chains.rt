//! Chains of operators.

ghost use Rattle.std.specs.Prelude.{◌≡◌, ◌++◌, ◌∷◌, [], false, map, OnOk, IfErr, Ok};
ghost use Rattle.raw_trees.specs.Views.{view_expr, view_step};
ghost use Rattle.rapid_forms.specs.declared.fault.SyntaxFault.TheVariants.{Memory};
ghost use Rattle.rapid_forms.specs.Reading.{Gives, many_read, rest_from};
ghost use Rattle.rapid_forms.specs.Signs.{begins_with};
ghost use Rattle.expr_parser.specs.Grammar.{comparisons};
ghost use Rattle.expr_parser.specs.Reads.{expr_of_read, first_read, inside_read, is_followed, land_read, level_read, negated_read, operand_read, operators_of, prefixes, primary_read, relation_read, signed_read, step_read, sum_read, term_read};

use crate::level::Level;
use crate::operators::{is_minus, is_operator, is_prefix, operator_of};
use crate::primary::primary;
use rapid_forms::{Parser, Sign, SyntaxFault};
use rapid_model::Operator;
use raw_trees::RawExpr;

static COMPARISONS: [Sign; 6] = [
    Sign::Equal,
    Sign::NotEqual,
    Sign::Less,
    Sign::Greater,
    Sign::LessEqual,
    Sign::GreaterEqual,
];

/// The expression that starts at token `at`, within `left` levels, and the number of the token after it.
#[cycle(expr)]
pub fn expr<'a>(
    p: &Parser<'_, 'a>,
    at: usize,
    left: u32,
) -> Result<(RawExpr<'a>, usize), SyntaxFault>
    ensures { Gives p.now.tokens view_expr result (expr_of_read (inside_read left) (rest_from p.now.tokens at)) }
{
    chain(p, at, left, Level::Or)
}

/// A chain of a level. If it starts with neither NOT nor a sign, its first operand without operators is parsed at once,
/// and the levels are gone through only if an operator follows.
#[cycle(expr)]
fn chain<'a>(
    p: &Parser<'_, 'a>,
    at: usize,
    left: u32,
    level: Level,
) -> Result<(RawExpr<'a>, usize), SyntaxFault>
    ensures { Gives p.now.tokens view_expr result (level_read (inside_read left) level (rest_from p.now.tokens at)) }
{
    if is_prefix(p.tokens.sign(at)) {
        return prefixed(p, at, left, level);
    }
    let first = primary(p, at, left);
    if !is_followed(p, &first) {
        return first;
    }
    let (first, next) = first?;
    behind(p, at, first, next, left, level)
}

/// Whether there is a first operand, and an operator follows it.
#[tactic(auto, unfolding(rapid_forms::specs::Signs::begins_with))]
fn is_followed<'a>(p: &Parser<'_, 'a>, first: &Result<(RawExpr<'a>, usize), SyntaxFault>) -> bool
    ensures { result ≡ is_followed p.now.tokens first.now }
{
    match first {
        Ok((_, next)) => is_operator(p.tokens.sign(*next)),
        Err(_) => false,
    }
}

/// A chain of a level that may start with NOT or a sign.
#[cycle(expr)]
#[tactic(auto, using(crate::proofs::Operands::level_chain), unfolding(crate::specs::Reads::chain_read, rapid_forms::specs::Reading::made_read, rapid_forms::specs::Reading::seq_read, rapid_forms::specs::Reading::then_read))]
fn prefixed<'a>(
    p: &Parser<'_, 'a>,
    at: usize,
    left: u32,
    level: Level,
) -> Result<(RawExpr<'a>, usize), SyntaxFault>
    ensures { Gives p.now.tokens view_expr result (level_read (inside_read left) level (rest_from p.now.tokens at)) }
{
    let (first, next) = first(p, at, left, level)?;
    chain_behind(p, at, first, next, left, level)
}

/// A chain of a level that starts with neither NOT nor a sign, after its first operand without operators.
#[cycle(expr)]
fn behind<'a>(
    p: &Parser<'_, 'a>,
    at: usize,
    first: RawExpr<'a>,
    next: usize,
    left: u32,
    level: Level,
) -> Result<(RawExpr<'a>, usize), SyntaxFault>
    requires plain { begins_with prefixes (rest_from p.now.tokens at) ≡ false }
    requires read { primary_read (inside_read left) (rest_from p.now.tokens at) ≡ Ok (view_expr first, rest_from p.now.tokens next) }
    ensures { Gives p.now.tokens view_expr result (level_read (inside_read left) level (rest_from p.now.tokens at)) }
{
    let (term, after) = chain_behind(p, at, first, next, left, Level::Term)?;
    match level {
        Level::Or => {
            let (relations, end) = relations_behind(p, at, term, after, left)?;
            chain_behind(p, at, relations, end, left, Level::Or)
        }
        Level::And => relations_behind(p, at, term, after, left),
        Level::Sum => chain_behind(p, at, term, after, left, Level::Sum),
        Level::Term => Ok((term, after)),
    }
}

/// A chain of relations that starts with no sign, after its first term.
#[cycle(expr)]
fn relations_behind<'a>(
    p: &Parser<'_, 'a>,
    at: usize,
    term: RawExpr<'a>,
    next: usize,
    left: u32,
) -> Result<(RawExpr<'a>, usize), SyntaxFault>
    requires plain { begins_with prefixes (rest_from p.now.tokens at) ≡ false }
    requires read { term_read (inside_read left) (rest_from p.now.tokens at) ≡ Ok (view_expr term, rest_from p.now.tokens next) }
    ensures { Gives p.now.tokens view_expr result (land_read (inside_read left) (rest_from p.now.tokens at)) }
{
    let (sum, after) = chain_behind(p, at, term, next, left, Level::Sum)?;
    let (relation, end) = relation_behind(p, at, sum, after, left)?;
    chain_behind(p, at, relation, end, left, Level::And)
}

/// A chain of a level, after its first operand. If no operator follows, it is the operand.
#[cycle(expr)]
#[tactic(auto, using(crate::proofs::Operands::level_chain), unfolding(crate::specs::Reads::chain_read, rapid_forms::specs::Reading::made_read, rapid_forms::specs::Reading::seq_read, rapid_forms::specs::Reading::then_read))]
fn chain_behind<'a>(
    p: &Parser<'_, 'a>,
    at: usize,
    first: RawExpr<'a>,
    next: usize,
    left: u32,
    level: Level,
) -> Result<(RawExpr<'a>, usize), SyntaxFault>
    requires read { first_read (inside_read left) level (rest_from p.now.tokens at) ≡ Ok (view_expr first, rest_from p.now.tokens next) }
    ensures { Gives p.now.tokens view_expr result (level_read (inside_read left) level (rest_from p.now.tokens at)) }
{
    if !p.tokens.sees(next, level.operators()) {
        return Ok((first, next));
    }
    let (rest, end) = steps(p, next, left, level)?;
    let chain = RawExpr::chain(p.alloc, p.tokens.byte_at(at), first, rest)?;
    Ok((chain, end))
}

/// The first operand of a chain of a level.
#[cycle(expr)]
fn first<'a>(
    p: &Parser<'_, 'a>,
    at: usize,
    left: u32,
    level: Level,
) -> Result<(RawExpr<'a>, usize), SyntaxFault>
    ensures { Gives p.now.tokens view_expr result (first_read (inside_read left) level (rest_from p.now.tokens at)) }
{
    match level {
        Level::Or => negated(p, at, left),
        Level::And => relation(p, at, left),
        Level::Sum => signed(p, at, left),
        Level::Term => primary(p, at, left),
    }
}

/// Each further operand of a chain of a level.
#[cycle(expr)]
fn operand<'a>(
    p: &Parser<'_, 'a>,
    at: usize,
    left: u32,
    level: Level,
) -> Result<(RawExpr<'a>, usize), SyntaxFault>
    ensures { Gives p.now.tokens view_expr result (operand_read (inside_read left) level (rest_from p.now.tokens at)) }
{
    match level {
        Level::Or => chain(p, at, left, Level::And),
        Level::And => relation(p, at, left),
        Level::Sum => chain(p, at, left, Level::Term),
        Level::Term => primary(p, at, left),
    }
}

/// Operators of a level, each with the operand after it.
#[cycle(expr)]
fn steps<'a>(
    p: &Parser<'_, 'a>,
    at: usize,
    left: u32,
    level: Level,
) -> Result<(Vec<(Operator, RawExpr<'a>)>, usize), SyntaxFault>
    ensures { Gives p.now.tokens (λ v. map view_step v.items) result (many_read (operators_of level) (step_read (operators_of level) (operand_read (inside_read left) level)) (rest_from p.now.tokens at)) }
{
    let mut list = Vec::new(p.alloc);
    let mut next = at;
    while p.tokens.sees(next, level.operators()) {
        let (step, after) = step(p, next, left, level)?;
        push_step(&mut list, step)?;
        next = after;
    }
    Ok((list, next))
}

/// Appends a step. The first one allocates room for exactly one.
fn push_step<'a>(
    list: &mut Vec<(Operator, RawExpr<'a>)>,
    step: (Operator, RawExpr<'a>),
) -> Result<(), SyntaxFault>
    ensures ok { OnOk result (list.new.items ≡ list.old.items ++ step.entry ∷ []) }
    ensures err { IfErr result (λ fault. fault ≡ Memory) }
{
    if list.is_empty() {
        list.reserve_exact(1)?;
    }
    list.push(step)?;
    Ok(())
}

/// An operator of a level and the operand after it.
#[cycle(expr)]
#[tactic(auto, unfolding(crate::specs::Reads::step_read, rapid_forms::specs::Reading::made_read, rapid_forms::specs::Reading::seq_read, rapid_forms::specs::Reading::then_read))]
fn step<'a>(
    p: &Parser<'_, 'a>,
    at: usize,
    left: u32,
    level: Level,
) -> Result<((Operator, RawExpr<'a>), usize), SyntaxFault>
    ensures { Gives p.now.tokens view_step result (step_read (operators_of level) (operand_read (inside_read left) level) (rest_from p.now.tokens at)) }
{
    let (operator, next) = p.tokens.take(at, level.operators())?;
    let (value, end) = operand(p, next, left, level)?;
    Ok(((operator_of(&operator), value), end))
}

/// An optional NOT and its operand.
#[cycle(expr)]
#[tactic(auto, unfolding(crate::specs::Reads::negated_read, rapid_forms::specs::Reading::made_read, rapid_forms::specs::Reading::seq_read, rapid_forms::specs::Reading::optional_read, rapid_forms::specs::Reading::then_read))]
fn negated<'a>(
    p: &Parser<'_, 'a>,
    at: usize,
    left: u32,
) -> Result<(RawExpr<'a>, usize), SyntaxFault>
    ensures { Gives p.now.tokens view_expr result (negated_read (inside_read left) (rest_from p.now.tokens at)) }
{
    if !p.tokens.sees(at, &[Sign::Not]) {
        return chain(p, at, left, Level::And);
    }
    let (_word, next) = p.tokens.take(at, &[Sign::Not])?;
    let (value, end) = chain(p, next, left, Level::And)?;
    let not = RawExpr::not(p.alloc, p.tokens.byte_at(at), value)?;
    Ok((not, end))
}

/// An optional sign and the term that it applies to.
#[cycle(expr)]
#[tactic(auto, unfolding(crate::specs::Reads::signed_read, rapid_forms::specs::Reading::made_read, rapid_forms::specs::Reading::seq_read, rapid_forms::specs::Reading::optional_read, rapid_forms::specs::Reading::then_read))]
fn signed<'a>(p: &Parser<'_, 'a>, at: usize, left: u32) -> Result<(RawExpr<'a>, usize), SyntaxFault>
    ensures { Gives p.now.tokens view_expr result (signed_read (inside_read left) (rest_from p.now.tokens at)) }
{
    if !p.tokens.sees(at, &[Sign::Plus, Sign::Minus]) {
        return chain(p, at, left, Level::Term);
    }
    let (sign, next) = p.tokens.take(at, &[Sign::Plus, Sign::Minus])?;
    let (operand, end) = chain(p, next, left, Level::Term)?;
    let signed = RawExpr::signed(p.alloc, p.tokens.byte_at(at), is_minus(&sign), operand)?;
    Ok((signed, end))
}

/// A sum, or a comparison of two.
#[cycle(expr)]
#[tactic(auto, unfolding(crate::specs::Reads::relation_read, rapid_forms::specs::Reading::made_read, rapid_forms::specs::Reading::seq_read, rapid_forms::specs::Reading::then_read))]
fn relation<'a>(
    p: &Parser<'_, 'a>,
    at: usize,
    left: u32,
) -> Result<(RawExpr<'a>, usize), SyntaxFault>
    ensures { Gives p.now.tokens view_expr result (relation_read (inside_read left) (rest_from p.now.tokens at)) }
{
    let (first, next) = chain(p, at, left, Level::Sum)?;
    relation_behind(p, at, first, next, left)
}

/// A sum, or a comparison of two, after the first sum.
#[cycle(expr)]
#[tactic(auto, unfolding(crate::specs::Reads::relation_read, rapid_forms::specs::Reading::made_read, rapid_forms::specs::Reading::seq_read, rapid_forms::specs::Reading::optional_read, rapid_forms::specs::Reading::then_read))]
fn relation_behind<'a>(
    p: &Parser<'_, 'a>,
    at: usize,
    first: RawExpr<'a>,
    next: usize,
    left: u32,
) -> Result<(RawExpr<'a>, usize), SyntaxFault>
    requires read { sum_read (inside_read left) (rest_from p.now.tokens at) ≡ Ok (view_expr first, rest_from p.now.tokens next) }
    ensures { Gives p.now.tokens view_expr result (relation_read (inside_read left) (rest_from p.now.tokens at)) }
{
    if !p.tokens.sees(next, &COMPARISONS) {
        return Ok((first, next));
    }
    let (step, end) = comparison(p, next, left)?;
    let mut rest = Vec::with_capacity(p.alloc, 1)?;
    rest.push(step)?;
    let chain = RawExpr::chain(p.alloc, p.tokens.byte_at(at), first, rest)?;
    Ok((chain, end))
}

/// A comparison operator and the sum after it.
#[cycle(expr)]
#[tactic(auto, unfolding(crate::specs::Reads::step_read, rapid_forms::specs::Reading::made_read, rapid_forms::specs::Reading::seq_read, rapid_forms::specs::Reading::then_read))]
fn comparison<'a>(
    p: &Parser<'_, 'a>,
    at: usize,
    left: u32,
) -> Result<((Operator, RawExpr<'a>), usize), SyntaxFault>
    ensures { Gives p.now.tokens view_step result (step_read comparisons (sum_read (inside_read left)) (rest_from p.now.tokens at)) }
{
    let (operator, next) = p.tokens.take(at, &COMPARISONS)?;
    let (value, end) = chain(p, next, left, Level::Sum)?;
    Ok(((operator_of(&operator), value), end))
}
