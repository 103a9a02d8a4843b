//! Declarations of data.

ghost use Rattle.std.specs.Prelude.{map, ◌∷◌, []};
ghost use Rattle.raw_trees.specs.Views.{view_datum};
ghost use Rattle.rapid_forms.specs.Reading.{Gives, rest_from};
ghost use Rattle.module_parser.specs.Reads.{datum_read, locals_read};

use crate::optional::{length_if_any, value_if_any};
use crate::words::kind_of;
use expr_parser::name;
use rapid_forms::{Parser, Sign, SyntaxFault};
use rapid_limits::MOST_LEVELS;
use raw_trees::RawDatum;

/// A datum that is declared by one of these words.
#[tactic(auto, unfolding(crate::specs::Reads::datum_read, crate::specs::Reads::rest_read, rapid_forms::specs::Reading::made_read, rapid_forms::specs::Reading::seq_read, rapid_forms::specs::Reading::then_read))]
pub(crate) fn datum<'a>(
    p: &Parser<'_, 'a>,
    at: usize,
    words: &[Sign],
) -> Result<(RawDatum<'a>, usize), SyntaxFault>
    ensures { Gives p.now.tokens view_datum result (datum_read words.now MOST_LEVELS (rest_from p.now.tokens at)) }
{
    let (word, next) = p.tokens.take(at, words)?;
    let (sort, second) = name(p, next)?;
    let (name, behind) = name(p, second)?;
    let (len, after) = length_if_any(p, behind)?;
    let (first, last) = value_if_any(p, after)?;
    let (_semicolon, end) = p.tokens.take(last, &[Sign::Semicolon])?;
    let datum = RawDatum {
        kind: kind_of(&word),
        sort,
        name,
        len,
        first,
        at: p.tokens.byte_at(at),
    };
    Ok((datum, end))
}

/// The data of a routine.
#[tactic(auto, unfolding(crate::specs::Reads::locals_read))]
pub(crate) fn locals<'a>(
    p: &Parser<'_, 'a>,
    at: usize,
) -> Result<(Vec<RawDatum<'a>>, usize), SyntaxFault>
    ensures { Gives p.now.tokens (λ v. map view_datum v.items) result (locals_read MOST_LEVELS (rest_from p.now.tokens at)) }
{
    let mut list = Vec::new(p.alloc);
    let mut next = at;
    while p.tokens.sees(next, &[Sign::Const, Sign::Var]) {
        let (datum, after) = datum(p, next, &[Sign::Const, Sign::Var])?;
        list.push(datum)?;
        next = after;
    }
    Ok((list, next))
}
