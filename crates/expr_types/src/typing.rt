//! The typed form of an expression, or the first broken rule in it (RAPID Overview, expressions): from left to right,
//! the parts before the whole.

ghost use Rattle.std.specs.Prelude.{◌≡◌, Ok, map};
ghost use Rattle.raw_trees.specs.Plain.{Aggregate, Chain, Group, Held, Invoke, Not, Optional, Place, PlainExpr, Signed, args_of as raw_args_of, exprs_of as raw_exprs_of, steps_of as raw_steps_of};
ghost use Rattle.raw_trees.specs.Views.{view_arg as view_raw_arg, view_expr as view_raw, view_name, view_place as view_raw_place, view_step as view_raw_step};
ghost use Rattle.typed_trees.specs.Plain.{args_of, exprs_of};
ghost use Rattle.typed_trees.specs.Views.{view_arg, view_expr};
ghost use Rattle.rule_checks.specs.TypeChecks.{Gives};
ghost use Rattle.named_data.specs.Views.{view_site};
ghost use Rattle.named_data.specs.Wants;
ghost use Rattle.expr_types.specs.Arguments;
ghost use Rattle.expr_types.specs.Calls;
ghost use Rattle.expr_types.specs.Places;
ghost use Rattle.expr_types.specs.Typing;
ghost use Rattle.expr_types.specs.Views.{view_chain, view_held, view_part, view_signature, view_taking};

use crate::called::function_at;
use crate::lending::{lent_as, lent_of, lent_whole, referred};
use crate::literals::{number, quoted, truth};
use crate::names::{bare_name, is_datum, is_whole, known_parts, named};
use crate::options::{needed_by, option_with, plain_option};
use crate::place_part::PlacePart;
use crate::signals::{itself, meeting_meant, signal_meant, whole_pers};
use crate::signature::Signature;
use crate::taking::{Taking, after, nothing_taken};
use crate::typed_chain::TypedChain;
use crate::values::{
    aggregate, call, element_want, first_operand, group, must_fit, one_dimension, place_value,
};
use data_scopes::begin_of;
use named_data::{Site, Wanted, comes_to, datum_at, fault, inside, must, part_at, suits};
use rapid_builtins::{Need, first_named};
use rapid_model::{Operator, Predefined, Sort};
use raw_trees::{RawArg, RawExpr, RawExprForm, RawName, RawPlace};
use rule_checks::{TypeFault, TypeRule};
use typed_trees::{Arg, Expr};

/// The typed form of an expression in a place with a requirement.
#[cycle(typing)]
pub fn typed(site: &Site<'_>, raw: &RawExpr<'_>, want: Wanted) -> Result<Expr, TypeFault>
    ensures { Gives view_expr result (Typing.typed (view_site site.now) (view_raw raw.now) want) }
{
    let at = raw.at;
    match &raw.form {
        RawExprForm::Number(text) => number(site, want, at, text),
        RawExprForm::Text(text) => quoted(site, want, at, text),
        RawExprForm::Bool(value) => truth(site, want, at, *value),
        RawExprForm::Group(inner) => grouped(site, want, at, inner),
        RawExprForm::Aggregate(values) => bracketed(site, want, at, values),
        RawExprForm::Call { name, args } => invoked(site, want, at, name, args),
        RawExprForm::Place(written) => placed(site, want, at, written),
        RawExprForm::Not(operand) => negated(site, want, at, operand),
        RawExprForm::Signed { minus, operand } => signed(site, want, at, *minus, operand),
        RawExprForm::Chain { first, rest } => {
            let value = typed(site, first, first_operand(rest))?;
            chained(site, want, at, rest, value)
        }
    }
}

/// A value in parentheses that start at this byte.
#[cycle(typing)]
#[tactic(auto, unfolding(crate::specs::Typing::typed))]
fn grouped(site: &Site<'_>, want: Wanted, at: usize, inner: &RawExpr<'_>) -> Result<Expr, TypeFault>
    ensures { Gives view_expr result (Typing.typed (view_site site.now) (Group at (view_raw inner.now)) want) }
{
    group(site, want, at, typed(site, inner, inside(want))?)
}

/// Values in brackets that start at this byte.
#[cycle(typing)]
fn bracketed(
    site: &Site<'_>,
    want: Wanted,
    at: usize,
    values: &Vec<RawExpr<'_>>,
) -> Result<Expr, TypeFault>
    ensures { Gives view_expr result (Typing.typed (view_site site.now) (Aggregate at (raw_exprs_of (map view_raw values.now.items))) want) }
{
    aggregate(site, want, at, values, elements(site, values, want)?)
}

/// A function call that starts at this byte.
#[cycle(typing)]
#[tactic(auto, unfolding(crate::specs::Typing::typed))]
fn invoked(
    site: &Site<'_>,
    want: Wanted,
    at: usize,
    name: &RawName<'_>,
    args: &Vec<RawArg<'_>>,
) -> Result<Expr, TypeFault>
    ensures { Gives view_expr result (Typing.typed (view_site site.now) (Invoke at (view_name name.now) (raw_args_of (map view_raw_arg args.now.items))) want) }
{
    let called = function_at(site, name)?;
    let typed_args = arguments(site, args, &called.signature)?;
    call(site, want, at, &called, args, typed_args)
}

/// The value of a place, as an expression that starts at this byte.
#[cycle(typing)]
#[tactic(auto, unfolding(crate::specs::Typing::typed))]
fn placed(
    site: &Site<'_>,
    want: Wanted,
    at: usize,
    written: &RawPlace<'_>,
) -> Result<Expr, TypeFault>
    ensures { Gives view_expr result (Typing.typed (view_site site.now) (Place at (view_raw_place written.now)) want) }
{
    place_value(site, want, at, place(site, written, false)?)
}

/// NOT at this byte, with its operand.
#[cycle(typing)]
#[tactic(auto, unfolding(crate::specs::Typing::typed))]
fn negated(
    site: &Site<'_>,
    want: Wanted,
    at: usize,
    operand: &RawExpr<'_>,
) -> Result<Expr, TypeFault>
    ensures { Gives view_expr result (Typing.typed (view_site site.now) (Not at (view_raw operand.now)) want) }
{
    let value = typed(site, operand, Wanted::Same(Sort::Bool))?;
    must_fit(site, want, at, Sort::Bool)?;
    let tree = Expr::not(site.alloc, at, Sort::Bool, value)?;
    Ok(tree)
}

/// A sign at this byte, with its operand.
#[cycle(typing)]
#[tactic(auto, unfolding(crate::specs::Typing::typed))]
fn signed(
    site: &Site<'_>,
    want: Wanted,
    at: usize,
    minus: bool,
    operand: &RawExpr<'_>,
) -> Result<Expr, TypeFault>
    ensures { Gives view_expr result (Typing.typed (view_site site.now) (Signed at minus (view_raw operand.now)) want) }
{
    let value = typed(site, operand, Wanted::Same(Sort::Num))?;
    must_fit(site, want, at, Sort::Num)?;
    let tree = Expr::signed(site.alloc, at, Sort::Num, minus, value)?;
    Ok(tree)
}

/// A chain of operators that starts at this byte, whose first operand has this typed form.
#[cycle(typing)]
fn chained(
    site: &Site<'_>,
    want: Wanted,
    at: usize,
    rest: &Vec<(Operator, RawExpr<'_>)>,
    value: Expr,
) -> Result<Expr, TypeFault>
    ensures { (first : PlainExpr) → let steps = raw_steps_of (map view_raw_step rest.now.items) in Typing.typed (view_site site.now) first (Wants.first_operand steps) ≡ Ok (view_expr value) → Gives view_expr result (Typing.typed (view_site site.now) (Chain at first steps) want) }
{
    let chain = steps(site, rest, at, value.sort)?;
    must_fit(site, want, at, chain.sort)?;
    let tree = Expr::chain(site.alloc, at, chain.sort, value, chain.steps)?;
    Ok(tree)
}

/// The elements of brackets, each with its component's type.
#[cycle(typing)]
fn elements(site: &Site<'_>, raw: &Vec<RawExpr<'_>>, want: Wanted) -> Result<Vec<Expr>, TypeFault>
    ensures { Gives (λ v. exprs_of (map view_expr v.items)) result (Typing.elements (view_site site.now) (raw_exprs_of (map view_raw raw.now.items)) (Wants.needed_components want)) }
{
    let mut done = Vec::new(site.alloc);
    for element in raw {
        let value = typed(site, element, element_want(want, done.len()))?;
        done.push(value)?;
    }
    Ok(done)
}

/// Operators and their operands, after operands of this type, in a chain that starts at this byte.
#[cycle(typing)]
fn steps(
    site: &Site<'_>,
    raw: &Vec<(Operator, RawExpr<'_>)>,
    at: usize,
    left: Sort,
) -> Result<TypedChain, TypeFault>
    ensures { Gives view_chain result (Typing.steps (view_site site.now) (raw_steps_of (map view_raw_step raw.now.items)) at left) }
{
    let mut steps = Vec::with_capacity(site.alloc, raw.len())?;
    let mut sort = left;
    for (operator, operand) in raw {
        must(site, suits(*operator, sort), at, TypeRule::TypeClash)?;
        let value = typed(site, operand, Wanted::Same(sort))?;
        steps.push((*operator, value))?;
        sort = comes_to(*operator, sort);
    }
    Ok(TypedChain { steps, sort })
}

/// The index of a place, if it has one.
#[cycle(typing)]
#[tactic(auto, unfolding(crate::specs::Typing::index))]
fn index_of(site: &Site<'_>, raw: &RawPlace<'_>) -> Result<Option<Expr>, TypeFault>
    ensures { Gives view_held result (Typing.index (view_site site.now) (Places.index_of (view_raw_place raw.now))) }
{
    match &raw.index {
        Some(index) => Ok(Some(typed(site, index, Wanted::Is(Sort::Num))?)),
        None => Ok(None),
    }
}

/// What a place names; a whole array may be named if `whole` is true (RAPID Overview, arrays and records).
#[cycle(typing)]
pub fn place(site: &Site<'_>, raw: &RawPlace<'_>, whole: bool) -> Result<PlacePart, TypeFault>
    ensures { Gives view_part result (Places.place (view_site site.now) whole (view_raw_place raw.now)) }
{
    let at = raw.name.at;
    let datum = datum_at(site, &raw.name)?;
    let indexed = raw.index.is_some();
    must(
        site,
        whole || indexed || !datum.array,
        at,
        TypeRule::WholeArray,
    )?;
    let index = index_of(site, raw)?;
    must(site, datum.array || !indexed, at, TypeRule::TypeClash)?;
    let part = part_at(site, datum.sort, &raw.parts)?;
    Ok(PlacePart {
        source: datum.source,
        array: datum.array,
        index,
        part: part.name,
        sort: part.sort,
    })
}

/// The place that an expression is; the rule is broken if it is not one.
#[cycle(typing)]
fn place_in(
    site: &Site<'_>,
    raw: &RawExpr<'_>,
    whole: bool,
    want: Wanted,
    rule: TypeRule,
) -> Result<PlacePart, TypeFault>
    ensures { Gives view_part result (Places.place_in (view_site site.now) whole want rule (view_raw raw.now)) }
{
    match &raw.form {
        RawExprForm::Place(written) => place(site, written, whole),
        _ => {
            typed(site, raw, want)?;
            Err(fault(site, begin_of(raw), rule))
        }
    }
}

/// The arguments of a call, by their needs.
#[cycle(typing)]
pub(crate) fn arguments(
    site: &Site<'_>,
    raw: &Vec<RawArg<'_>>,
    signature: &Signature<'_>,
) -> Result<Vec<Arg>, TypeFault>
    ensures { Gives (λ v. args_of (map view_arg v.items)) result (Typing.arguments (view_site site.now) (raw_args_of (map view_raw_arg raw.now.items)) (Calls.taking (view_signature signature.now))) }
{
    let mut left = nothing_taken(site.alloc, signature);
    let mut done = Vec::with_capacity(site.alloc, raw.len())?;
    for arg in raw {
        let value = one_argument(site, arg, &left)?;
        done.push(value)?;
        left = after(left, arg)?;
    }
    Ok(done)
}

/// An argument after those before it.
#[cycle(typing)]
#[tactic(auto, unfolding(crate::specs::Typing::one_argument))]
fn one_argument(site: &Site<'_>, raw: &RawArg<'_>, left: &Taking<'_>) -> Result<Arg, TypeFault>
    ensures { Gives view_arg result (Typing.one_argument (view_site site.now) (view_raw_arg raw.now) (view_taking left.now)) }
{
    match raw {
        RawArg::Needed(value) => match left.needs.first() {
            Some(need) => argument(site, value, need),
            None => Ok(Arg::Value(typed(site, value, Wanted::Any)?)),
        },
        RawArg::Option { name, value, at } => match value {
            Some(value) => valued_option(site, value, left, *at, name.text),
            None => plain_option(site, left, *at, first_named(left.options, name.text)),
        },
    }
}

/// An option with a value, whose backslash is at this byte.
#[cycle(typing)]
fn valued_option(
    site: &Site<'_>,
    raw: &RawExpr<'_>,
    left: &Taking<'_>,
    at: usize,
    name: &[u8],
) -> Result<Arg, TypeFault>
    ensures { Gives view_arg result (Typing.one_argument (view_site site.now) (Optional (record { text = name.now; at = 0 }) (Held (view_raw raw.now)) at) (view_taking left.now)) }
{
    let Some((name, need)) = needed_by(first_named(left.options, name)) else {
        typed(site, raw, Wanted::Any)?;
        return Err(fault(site, at, TypeRule::ArgName));
    };
    let value = argument(site, raw, need)?;
    option_with(site, left, at, name, value)
}

/// An argument for what the callee needs (RAPID Kernel, parameter declarations and procedure calls).
#[cycle(typing)]
fn argument(site: &Site<'_>, raw: &RawExpr<'_>, need: Need) -> Result<Arg, TypeFault>
    ensures { Gives view_arg result (Arguments.argument (view_site site.now) need (view_raw raw.now) (Typing.typed (view_site site.now) (view_raw raw.now)) (Typing.index_in (view_site site.now) (view_raw raw.now))) }
{
    let at = begin_of(raw);
    match need {
        Need::Value(sort) => Ok(Arg::Value(typed(site, raw, Wanted::Is(sort))?)),
        Need::One => Ok(Arg::Value(typed(site, raw, one_dimension(raw))?)),
        Need::Signal { output } => signal(site, raw, output),
        Need::Var(_) | Need::Pers(_) | Need::VarOrPers(_) | Need::Written(_) | Need::WorldZone => {
            let place = place_in(site, raw, false, referred(need), TypeRule::BadRef)?;
            lent_as(site, need, at, place)
        }
        Need::Place(sort) => {
            let place = place_in(site, raw, false, Wanted::Nothing, TypeRule::TypeClash)?;
            lent_of(site, sort, at, place)
        }
        Need::Array | Need::TaskList => {
            let place = place_in(site, raw, true, Wanted::Nothing, TypeRule::TypeClash)?;
            lent_whole(site, need, at, is_whole(raw), place)
        }
        Need::Fine => itself(site, Predefined::Fine, b"fine", TypeRule::CornerZone, raw),
        Need::Tool => itself(site, Predefined::Tool0, b"tool0", TypeRule::ToolOnly, raw),
        Need::WorkObject => itself(site, Predefined::Wobj0, b"wobj0", TypeRule::ToolOnly, raw),
        Need::Meeting => meeting(site, raw),
        Need::PersName => pers_name(site, raw),
    }
}

/// The name of a signal.
#[cycle(typing)]
fn signal(site: &Site<'_>, raw: &RawExpr<'_>, output: bool) -> Result<Arg, TypeFault>
    ensures { Gives view_arg result (Arguments.signal (view_site site.now) output (view_raw raw.now) (Typing.typed (view_site site.now) (view_raw raw.now))) }
{
    match bare_name(raw) {
        Some(name) => signal_meant(site, output, begin_of(raw), named(site, &name)),
        None => {
            typed(site, raw, Wanted::Nothing)?;
            Err(fault(site, begin_of(raw), TypeRule::TypeClash))
        }
    }
}

/// The name of a module's VAR syncident.
#[cycle(typing)]
fn meeting(site: &Site<'_>, raw: &RawExpr<'_>) -> Result<Arg, TypeFault>
    ensures { Gives view_arg result (Arguments.meeting (view_site site.now) (view_raw raw.now) (Typing.typed (view_site site.now) (view_raw raw.now)) (Typing.index_in (view_site site.now) (view_raw raw.now))) }
{
    match bare_name(raw) {
        Some(name) => meeting_meant(site, begin_of(raw), named(site, &name)),
        None => no_meeting(site, raw),
    }
}

/// What is broken in an expression, other than a name, in place of a meeting.
#[cycle(typing)]
fn no_meeting(site: &Site<'_>, raw: &RawExpr<'_>) -> Result<Arg, TypeFault>
    ensures { Gives view_arg result (Places.no_meeting (view_site site.now) (view_raw raw.now)) }
{
    match &raw.form {
        RawExprForm::Place(written) => {
            let holds = named(site, &written.name).is_some();
            must(site, holds, begin_of(raw), TypeRule::NoName)?;
            index_of(site, written)?;
            known_parts(site, written)?;
            Err(fault(site, begin_of(raw), TypeRule::SyncName))
        }
        _ => {
            typed(site, raw, Wanted::Meeting)?;
            Err(fault(site, begin_of(raw), TypeRule::SyncName))
        }
    }
}

/// The name of a declared PERS, an array or not.
#[cycle(typing)]
fn pers_name(site: &Site<'_>, raw: &RawExpr<'_>) -> Result<Arg, TypeFault>
    ensures { Gives view_arg result (Places.pers_name (view_site site.now) (view_raw raw.now)) }
{
    match &raw.form {
        RawExprForm::Place(written) => pers_at(site, written, begin_of(raw)),
        _ => {
            typed(site, raw, Wanted::Reference)?;
            Err(fault(site, begin_of(raw), TypeRule::BadRef))
        }
    }
}

/// The name of a declared PERS, as an argument that starts at this byte.
#[cycle(typing)]
fn pers_at(site: &Site<'_>, raw: &RawPlace<'_>, at: usize) -> Result<Arg, TypeFault>
    ensures { Gives view_arg result (Places.pers_at (view_site site.now) at (view_raw_place raw.now)) }
{
    let datum = datum_at(site, &raw.name)?;
    index_of(site, raw)?;
    part_at(site, datum.sort, &raw.parts)?;
    whole_pers(site, is_datum(raw), at, datum.sort, datum.source)
}
