//! Items of a module.

ghost use Rattle.std.specs.Prelude.{◌≡◌, Ok, is_some};
ghost use Rattle.rapid_lexer.specs.Tokens.{view};
ghost use Rattle.std.specs.Option.{option_map};
ghost use Rattle.raw_trees.specs.Views.{view_item};
ghost use Rattle.rapid_forms.specs.Reading.{Gives, rest_from, then_read};
ghost use Rattle.module_parser.specs.Grammar.{datum_item, func_tree, proc_tree, trap_tree};
ghost use Rattle.module_parser.specs.Reads.{behind_local_read, datum_read, datum_signs, func_read, item_read, local_read, local_tree, proc_read, task_read, trap_read};

use crate::body::routine_body;
use crate::data::datum;
use crate::params::params;
use expr_parser::name;
use rapid_forms::{Parser, Sign, SyntaxFault};
use rapid_lexer::Token;
use rapid_limits::MOST_LEVELS;
use rapid_model::RoutineKind;
use raw_trees::{RawItem, RawRoutine};

static DATUM_SIGNS: [Sign; 3] = [Sign::Const, Sign::Var, Sign::Pers];

/// An item.
#[tactic(auto, unfolding(crate::specs::Reads::item_read, rapid_forms::specs::Reading::either_read, rapid_forms::specs::Reading::made_read, rapid_forms::specs::Reading::seq_read, rapid_forms::specs::Reading::then_read))]
pub(crate) fn item<'a>(p: &Parser<'_, 'a>, at: usize) -> Result<(RawItem<'a>, usize), SyntaxFault>
    ensures { Gives p.now.tokens view_item result (item_read MOST_LEVELS (rest_from p.now.tokens at)) }
{
    if p.tokens.sees(at, &[Sign::Task]) {
        return task(p, at);
    }
    let (local, next) = local_if_any(p, at)?;
    behind_local(p, local, p.tokens.byte_at(at), next)
}

/// A persistent of which each task has its own.
#[tactic(auto, unfolding(crate::specs::Reads::task_read, rapid_forms::specs::Reading::made_read, rapid_forms::specs::Reading::seq_read, rapid_forms::specs::Reading::then_read))]
fn task<'a>(p: &Parser<'_, 'a>, at: usize) -> Result<(RawItem<'a>, usize), SyntaxFault>
    ensures { Gives p.now.tokens view_item result (task_read MOST_LEVELS (rest_from p.now.tokens at)) }
{
    let (_word, next) = p.tokens.take(at, &[Sign::Task])?;
    let (datum, end) = datum(p, next, &[Sign::Pers])?;
    let item = RawItem::Datum {
        local: false,
        task: true,
        datum,
        at: p.tokens.byte_at(at),
    };
    Ok((item, end))
}

/// An optional LOCAL.
#[tactic(auto, unfolding(crate::specs::Reads::local_read, rapid_forms::specs::Reading::optional_read, rapid_forms::specs::Reading::then_read))]
fn local_if_any<'a>(
    p: &Parser<'_, 'a>,
    at: usize,
) -> Result<(Option<Token<'a>>, usize), SyntaxFault>
    ensures { Gives p.now.tokens (option_map view) result (local_read (rest_from p.now.tokens at)) }
{
    if !p.tokens.sees(at, &[Sign::Local]) {
        return Ok((None, at));
    }
    let (word, next) = p.tokens.take(at, &[Sign::Local])?;
    Ok((Some(word), next))
}

/// What follows an optional LOCAL in an item that starts at this byte.
fn behind_local<'a>(
    p: &Parser<'_, 'a>,
    local: Option<Token<'a>>,
    byte: usize,
    at: usize,
) -> Result<(RawItem<'a>, usize), SyntaxFault>
    ensures { Gives p.now.tokens view_item result (then_read (behind_local_read MOST_LEVELS (rest_from p.now.tokens at)) (λ x rest. Ok (local_tree byte (option_map view local.entry, x), rest))) }
{
    if p.tokens.sees(at, &DATUM_SIGNS) {
        return local_datum(p, local, byte, at);
    }
    if p.tokens.sees(at, &[Sign::Proc]) {
        return procedure(p, local, byte, at);
    }
    if p.tokens.sees(at, &[Sign::Func]) {
        return function(p, local, byte, at);
    }
    trap(p, local, byte, at)
}

/// Whether the word LOCAL was there.
fn is_there(word: Option<Token<'_>>) -> bool
    ensures { result ≡ is_some (option_map view word.entry) }
{
    word.is_some()
}

#[tactic(auto, unfolding(rapid_forms::specs::Reading::then_read))]
fn local_datum<'a>(
    p: &Parser<'_, 'a>,
    local: Option<Token<'a>>,
    byte: usize,
    at: usize,
) -> Result<(RawItem<'a>, usize), SyntaxFault>
    ensures { Gives p.now.tokens view_item result (then_read (datum_read datum_signs MOST_LEVELS (rest_from p.now.tokens at)) (λ x rest. Ok (datum_item byte (option_map view local.entry, x), rest))) }
{
    let (datum, end) = datum(p, at, &DATUM_SIGNS)?;
    let item = RawItem::Datum {
        local: is_there(local),
        task: false,
        datum,
        at: byte,
    };
    Ok((item, end))
}

#[tactic(auto, unfolding(crate::specs::Reads::proc_read, rapid_forms::specs::Reading::seq_read, rapid_forms::specs::Reading::then_read))]
fn procedure<'a>(
    p: &Parser<'_, 'a>,
    local: Option<Token<'a>>,
    byte: usize,
    at: usize,
) -> Result<(RawItem<'a>, usize), SyntaxFault>
    ensures { Gives p.now.tokens view_item result (then_read (proc_read MOST_LEVELS (rest_from p.now.tokens at)) (λ x rest. Ok (proc_tree byte (option_map view local.entry, x), rest))) }
{
    let (_word, first) = p.tokens.take(at, &[Sign::Proc])?;
    let (name, next) = name(p, first)?;
    let (params, after) = params(p, next)?;
    let (body, last) = routine_body(p, after)?;
    let (_end, end) = p.tokens.take(last, &[Sign::EndProc])?;
    let routine = RawRoutine {
        local: is_there(local),
        kind: RoutineKind::Proc,
        result: None,
        name,
        params,
        locals: body.locals,
        list: body.list,
        handler: body.handler,
        at: byte,
    };
    Ok((RawItem::Routine(routine), end))
}

#[tactic(auto, unfolding(crate::specs::Reads::func_read, rapid_forms::specs::Reading::seq_read, rapid_forms::specs::Reading::then_read))]
fn function<'a>(
    p: &Parser<'_, 'a>,
    local: Option<Token<'a>>,
    byte: usize,
    at: usize,
) -> Result<(RawItem<'a>, usize), SyntaxFault>
    ensures { Gives p.now.tokens view_item result (then_read (func_read MOST_LEVELS (rest_from p.now.tokens at)) (λ x rest. Ok (func_tree byte (option_map view local.entry, x), rest))) }
{
    let (_word, first) = p.tokens.take(at, &[Sign::Func])?;
    let (sort, second) = name(p, first)?;
    let (name, next) = name(p, second)?;
    let (params, after) = params(p, next)?;
    let (body, last) = routine_body(p, after)?;
    let (_end, end) = p.tokens.take(last, &[Sign::EndFunc])?;
    let routine = RawRoutine {
        local: is_there(local),
        kind: RoutineKind::Func,
        result: Some(sort),
        name,
        params,
        locals: body.locals,
        list: body.list,
        handler: body.handler,
        at: byte,
    };
    Ok((RawItem::Routine(routine), end))
}

#[tactic(auto, unfolding(crate::specs::Reads::trap_read, rapid_forms::specs::Reading::seq_read, rapid_forms::specs::Reading::then_read))]
fn trap<'a>(
    p: &Parser<'_, 'a>,
    local: Option<Token<'a>>,
    byte: usize,
    at: usize,
) -> Result<(RawItem<'a>, usize), SyntaxFault>
    ensures { Gives p.now.tokens view_item result (then_read (trap_read MOST_LEVELS (rest_from p.now.tokens at)) (λ x rest. Ok (trap_tree byte (option_map view local.entry, x), rest))) }
{
    let (_word, first) = p.tokens.take(at, &[Sign::Trap])?;
    let (name, after) = name(p, first)?;
    let (body, last) = routine_body(p, after)?;
    let (_end, end) = p.tokens.take(last, &[Sign::EndTrap])?;
    let routine = RawRoutine {
        local: is_there(local),
        kind: RoutineKind::Trap,
        result: None,
        name,
        params: Vec::new(p.alloc),
        locals: body.locals,
        list: body.list,
        handler: body.handler,
        at: byte,
    };
    Ok((RawItem::Routine(routine), end))
}
