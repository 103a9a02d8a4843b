//! Parameters.

ghost use Rattle.std.specs.Prelude.{◌≡◌, map};
ghost use Rattle.rapid_lexer.specs.Tokens.{view};
ghost use Rattle.std.specs.Option.{option_map};
ghost use Rattle.raw_trees.specs.Views.{view_name, view_param};
ghost use Rattle.rapid_forms.specs.Reading.{Gives, made_read, one_read, optional_read, rest_from};
ghost use Rattle.expr_parser.specs.Grammar.{none_or};
ghost use Rattle.module_parser.specs.Grammar.{param_tree};
ghost use Rattle.module_parser.specs.Reads.{mode_signs, more_param_read, param_read, param_signs, params_read, some_params_read};

use crate::words::mode_of;
use expr_parser::name;
use rapid_forms::{Parser, Sign, SyntaxFault};
use rapid_lexer::Token;
use rapid_model::Mode;
use raw_trees::{RawName, RawParam};

static MODE_SIGNS: [Sign; 3] = [Sign::Inout, Sign::Var, Sign::Pers];

static PARAM_SIGNS: [Sign; 4] = [Sign::Name, Sign::Inout, Sign::Var, Sign::Pers];

/// Parenthesized parameters, possibly none.
#[tactic(auto, unfolding(crate::specs::Reads::params_read, rapid_forms::specs::Reading::made_read, rapid_forms::specs::Reading::seq_read, rapid_forms::specs::Reading::then_read))]
pub(crate) fn params<'a>(
    p: &Parser<'_, 'a>,
    at: usize,
) -> Result<(Vec<RawParam<'a>>, usize), SyntaxFault>
    ensures { Gives p.now.tokens (λ v. map view_param v.items) result (params_read (rest_from p.now.tokens at)) }
{
    let (_open, first) = p.tokens.take(at, &[Sign::OpenParenthesis])?;
    let (params, last) = params_if_any(p, first)?;
    let (_close, end) = p.tokens.take(last, &[Sign::CloseParenthesis])?;
    Ok((params, end))
}

#[tactic(auto, unfolding(rapid_forms::specs::Reading::made_read, rapid_forms::specs::Reading::optional_read, rapid_forms::specs::Reading::then_read))]
fn params_if_any<'a>(
    p: &Parser<'_, 'a>,
    at: usize,
) -> Result<(Vec<RawParam<'a>>, usize), SyntaxFault>
    ensures { Gives p.now.tokens (λ v. map view_param v.items) result (made_read none_or (optional_read param_signs some_params_read) (rest_from p.now.tokens at)) }
{
    if p.tokens.sees(at, &PARAM_SIGNS) {
        some_params(p, at)
    } else {
        Ok((Vec::new(p.alloc), at))
    }
}

/// One or more parameters.
#[tactic(auto, unfolding(crate::specs::Reads::some_params_read, rapid_forms::specs::Reading::made_read, rapid_forms::specs::Reading::seq_read, rapid_forms::specs::Reading::then_read))]
fn some_params<'a>(p: &Parser<'_, 'a>, at: usize) -> Result<(Vec<RawParam<'a>>, usize), SyntaxFault>
    ensures { Gives p.now.tokens (λ v. map view_param v.items) result (some_params_read (rest_from p.now.tokens at)) }
{
    let (first, after) = param(p, at)?;
    let mut list = Vec::new(p.alloc);
    list.push(first)?;
    let mut next = after;
    while p.tokens.sees(next, &[Sign::Comma]) {
        let (more, after) = more_param(p, next)?;
        list.push(more)?;
        next = after;
    }
    Ok((list, next))
}

/// A comma and the parameter after it.
#[tactic(auto, unfolding(crate::specs::Reads::more_param_read, rapid_forms::specs::Reading::made_read, rapid_forms::specs::Reading::seq_read, rapid_forms::specs::Reading::then_read))]
fn more_param<'a>(p: &Parser<'_, 'a>, at: usize) -> Result<(RawParam<'a>, usize), SyntaxFault>
    ensures { Gives p.now.tokens view_param result (more_param_read (rest_from p.now.tokens at)) }
{
    let (_comma, next) = p.tokens.take(at, &[Sign::Comma])?;
    param(p, next)
}

/// A parameter.
#[tactic(auto, unfolding(crate::specs::Reads::param_read, rapid_forms::specs::Reading::made_read, rapid_forms::specs::Reading::seq_read, rapid_forms::specs::Reading::then_read))]
fn param<'a>(p: &Parser<'_, 'a>, at: usize) -> Result<(RawParam<'a>, usize), SyntaxFault>
    ensures { Gives p.now.tokens view_param result (param_read (rest_from p.now.tokens at)) }
{
    let (mode, first) = mode_if_any(p, at)?;
    let (sort, second) = name(p, first)?;
    let (name, end) = name(p, second)?;
    Ok((param_of(p.tokens.byte_at(at), mode, sort, name), end))
}

/// A parameter at a byte, with the word of its mode, if there is one.
fn param_of<'a>(
    at: usize,
    word: Option<Token<'a>>,
    sort: RawName<'a>,
    name: RawName<'a>,
) -> RawParam<'a>
    ensures { view_param result ≡ param_tree at (option_map view word.entry, (view_name sort.entry, view_name name.entry)) }
{
    match word {
        Some(word) => RawParam {
            mode: mode_of(&word),
            sort,
            name,
            at,
        },
        None => RawParam {
            mode: Mode::Value,
            sort,
            name,
            at,
        },
    }
}

/// The word of a parameter's mode, if there is one.
#[tactic(auto, unfolding(rapid_forms::specs::Reading::optional_read, rapid_forms::specs::Reading::then_read))]
fn mode_if_any<'a>(p: &Parser<'_, 'a>, at: usize) -> Result<(Option<Token<'a>>, usize), SyntaxFault>
    ensures { Gives p.now.tokens (option_map view) result (optional_read mode_signs (one_read mode_signs) (rest_from p.now.tokens at)) }
{
    if !p.tokens.sees(at, &MODE_SIGNS) {
        return Ok((None, at));
    }
    let (word, next) = p.tokens.take(at, &MODE_SIGNS)?;
    Ok((Some(word), next))
}
