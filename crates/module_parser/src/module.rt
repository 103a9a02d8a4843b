//! A whole module.

ghost use Rattle.std.specs.Prelude.{map, ◌∷◌, []};
ghost use Rattle.raw_trees.specs.Views.{view_item, view_module};
ghost use Rattle.rapid_forms.specs.Reading.{Gives, made_read, many_read, optional_read, rest_from, seq_read};
ghost use Rattle.expr_parser.specs.Grammar.{first_and_more, none_or};
ghost use Rattle.module_parser.specs.Reads.{attribute_read, attributes_read, item_read, item_signs, module_read, more_attribute_read};

use crate::items::item;
use crate::words::attribute_of;
use expr_parser::name;
use rapid_forms::{Parser, Sign, SyntaxFault};
use rapid_limits::MOST_LEVELS;
use raw_trees::{Attribute, RawItem, RawModule};

static ITEM_SIGNS: [Sign; 8] = [
    Sign::Task,
    Sign::Local,
    Sign::Proc,
    Sign::Func,
    Sign::Trap,
    Sign::Const,
    Sign::Var,
    Sign::Pers,
];

static ATTRIBUTE_SIGNS: [Sign; 5] = [
    Sign::SysModule,
    Sign::NoView,
    Sign::NoStepIn,
    Sign::ViewOnly,
    Sign::ReadOnly,
];

/// A module.
#[tactic(auto, unfolding(crate::specs::Reads::module_read, rapid_forms::specs::Reading::made_read, rapid_forms::specs::Reading::seq_read, rapid_forms::specs::Reading::then_read))]
pub(crate) fn module<'a>(
    p: &Parser<'_, 'a>,
    at: usize,
) -> Result<(RawModule<'a>, usize), SyntaxFault>
    ensures { Gives p.now.tokens view_module result (module_read MOST_LEVELS (rest_from p.now.tokens at)) }
{
    let (_word, first) = p.tokens.take(at, &[Sign::Module])?;
    let (name, next) = name(p, first)?;
    let (attributes, after) = attributes_if_any(p, next)?;
    let (items, last) = items(p, after)?;
    let (_end, end) = p.tokens.take(last, &[Sign::EndModule])?;
    let module = RawModule {
        name,
        attributes,
        items,
        at: p.tokens.byte_at(at),
    };
    Ok((module, end))
}

#[tactic(auto, unfolding(rapid_forms::specs::Reading::made_read, rapid_forms::specs::Reading::optional_read, rapid_forms::specs::Reading::then_read))]
fn attributes_if_any(p: &Parser<'_, '_>, at: usize) -> Result<(Vec<Attribute>, usize), SyntaxFault>
    ensures { Gives p.now.tokens (λ v. v.items) result (made_read none_or (optional_read (Sign.OpenParenthesis ∷ []) attributes_read) (rest_from p.now.tokens at)) }
{
    if p.tokens.sees(at, &[Sign::OpenParenthesis]) {
        attributes(p, at)
    } else {
        Ok((Vec::new(p.alloc), at))
    }
}

/// Attributes in parentheses.
#[tactic(auto, unfolding(crate::specs::Reads::attributes_read, rapid_forms::specs::Reading::made_read, rapid_forms::specs::Reading::seq_read, rapid_forms::specs::Reading::then_read))]
fn attributes(p: &Parser<'_, '_>, at: usize) -> Result<(Vec<Attribute>, usize), SyntaxFault>
    ensures { Gives p.now.tokens (λ v. v.items) result (attributes_read (rest_from p.now.tokens at)) }
{
    let (_open, first) = p.tokens.take(at, &[Sign::OpenParenthesis])?;
    let (list, last) = some_attributes(p, first)?;
    let (_close, end) = p.tokens.take(last, &[Sign::CloseParenthesis])?;
    Ok((list, end))
}

/// One or more attributes.
#[tactic(auto, unfolding(rapid_forms::specs::Reading::made_read, rapid_forms::specs::Reading::seq_read, rapid_forms::specs::Reading::then_read))]
fn some_attributes(p: &Parser<'_, '_>, at: usize) -> Result<(Vec<Attribute>, usize), SyntaxFault>
    ensures { Gives p.now.tokens (λ v. v.items) result (made_read first_and_more (seq_read attribute_read (many_read (Sign.Comma ∷ []) more_attribute_read)) (rest_from p.now.tokens at)) }
{
    let (first, after) = attribute(p, at)?;
    let mut list = Vec::new(p.alloc);
    list.push(first)?;
    let mut next = after;
    while p.tokens.sees(next, &[Sign::Comma]) {
        let (more, after) = more_attribute(p, next)?;
        list.push(more)?;
        next = after;
    }
    Ok((list, next))
}

#[tactic(auto, unfolding(crate::specs::Reads::attribute_read, crate::specs::Words::attribute_of, rapid_forms::specs::Reading::made_read, rapid_forms::specs::Reading::then_read))]
fn attribute(p: &Parser<'_, '_>, at: usize) -> Result<(Attribute, usize), SyntaxFault>
    ensures { Gives p.now.tokens (λ a. a) result (attribute_read (rest_from p.now.tokens at)) }
{
    let (word, next) = p.tokens.take(at, &ATTRIBUTE_SIGNS)?;
    Ok((attribute_of(&word), next))
}

/// A comma and the attribute after it.
#[tactic(auto, unfolding(crate::specs::Reads::more_attribute_read, rapid_forms::specs::Reading::made_read, rapid_forms::specs::Reading::seq_read, rapid_forms::specs::Reading::then_read))]
fn more_attribute(p: &Parser<'_, '_>, at: usize) -> Result<(Attribute, usize), SyntaxFault>
    ensures { Gives p.now.tokens (λ a. a) result (more_attribute_read (rest_from p.now.tokens at)) }
{
    let (_comma, next) = p.tokens.take(at, &[Sign::Comma])?;
    attribute(p, next)
}

fn items<'a>(p: &Parser<'_, 'a>, at: usize) -> Result<(Vec<RawItem<'a>>, usize), SyntaxFault>
    ensures { Gives p.now.tokens (λ v. map view_item v.items) result (many_read item_signs (item_read MOST_LEVELS) (rest_from p.now.tokens at)) }
{
    let mut list = Vec::new(p.alloc);
    let mut next = at;
    while p.tokens.sees(next, &ITEM_SIGNS) {
        let (item, after) = item(p, next)?;
        list.push(item)?;
        next = after;
    }
    Ok((list, next))
}
