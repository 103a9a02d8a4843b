//! Expressions by the types that are required of them.

ghost use Rattle.std.specs.Prelude.{◌≡◌, drop, length, map, not, Ok};
ghost use Rattle.rapid_values.specs.Components.{Component};
ghost use Rattle.rapid_values.specs.Values.{part_of};
ghost use Rattle.raw_trees.specs.Plain.{Number, args_of as raw_args_of, exprs_of as raw_exprs_of, steps_of as raw_steps_of};
ghost use Rattle.raw_trees.specs.Views.{view_arg as view_raw_arg, view_expr as view_raw, view_place as view_raw_place, view_step as view_raw_step};
ghost use Rattle.typed_trees.specs.Plain.{Given, args_of, exprs_of};
ghost use Rattle.typed_trees.specs.Views.{view_arg, view_expr};
ghost use Rattle.rule_checks.specs.Checks.{must};
ghost use Rattle.rule_checks.specs.TypeChecks.{Gives};
ghost use Rattle.named_data.specs.Data;
ghost use Rattle.named_data.specs.Rules.{at_byte};
ghost use Rattle.named_data.specs.Views.{view_site};
ghost use Rattle.named_data.specs.Wants;
ghost use Rattle.expr_types.specs.Arguments;
ghost use Rattle.expr_types.specs.Typing;
ghost use Rattle.expr_types.specs.Views.{view_called, view_part};

use crate::called::Called;
use crate::callee::Callee;
use crate::place_part::PlacePart;
use crate::rules::{call_rules, count_rules};
use named_data::{Site, Source, Wanted, clash, fault, fits, hands_on, must, untyped};
use rapid_model::{Operator, PartName, Sort, Value, has_values};
use rapid_num::read_literal;
use rapid_values::{component_sorts, part};
use raw_trees::{RawArg, RawExpr, RawExprForm};
use rule_checks::{TypeFault, TypeRule};
use typed_trees::{Arg, Expr, TreePlace};

/// Checks that a value of this type meets the requirement.
pub(crate) fn must_fit(
    site: &Site<'_>,
    want: Wanted,
    at: usize,
    sort: Sort,
) -> Result<(), TypeFault>
    ensures { Gives (λ u. u) result (must (Wants.fits want sort) (at_byte (view_site site.now) at (Wants.clash want))) }
{
    must(site, fits(want, sort), at, clash(want))
}

/// A value in parentheses.
pub(crate) fn group(
    site: &Site<'_>,
    want: Wanted,
    at: usize,
    value: Expr,
) -> Result<Expr, TypeFault>
    ensures { Gives view_expr result (Typing.group (view_site site.now) want at (view_expr value)) }
{
    must(site, hands_on(want), at, clash(want))?;
    let sort = value.sort;
    let group = Expr::group(site.alloc, at, sort, value)?;
    Ok(group)
}

/// Brackets must have a type, and as many values as it has components.
pub(crate) fn aggregate(
    site: &Site<'_>,
    want: Wanted,
    at: usize,
    raw: &[RawExpr<'_>],
    values: Vec<Expr>,
) -> Result<Expr, TypeFault>
    ensures { Gives view_expr result (Typing.aggregate (view_site site.now) want at (raw_exprs_of (map view_raw raw.now)) (exprs_of (map view_expr values.items))) }
{
    must(site, is_record(want), at, untyped(want))?;
    let holds = count(raw) == components_in(want);
    must(site, holds, at, TypeRule::DimRange)?;
    Ok(Expr::aggregate(at, needed_sort(want), values))
}

/// How many values there are in brackets.
fn count(raw: &[RawExpr<'_>]) -> usize
    ensures { result ≡ Typing.count (raw_exprs_of (map view_raw raw.now)) }
{
    raw.len()
}

/// How many values brackets must have.
fn components_in(want: Wanted) -> usize
    ensures { result ≡ length (Wants.needed_components want) }
{
    needed_sorts(want).len()
}

/// Whether brackets have a type.
fn is_record(want: Wanted) -> bool
    ensures { result ≡ not (Data.is_empty (Wants.needed_components want)) }
{
    !needed_sorts(want).is_empty()
}

/// The types of the components that brackets must have; an operand passes no type to brackets.
fn needed_sorts(want: Wanted) -> &'static [Sort]
    ensures { result.now ≡ map (λ (c : Component). c.sort) (Wants.needed_components want) }
{
    match want {
        Wanted::Is(sort) | Wanted::Brackets(sort) | Wanted::ReferenceTo(sort) => component_sorts(
            sort,
        ),
        _ => &[],
    }
}

/// The type of brackets.
fn needed_sort(want: Wanted) -> Sort
    ensures { result ≡ Wants.needed_sort want }
{
    match want {
        Wanted::Is(sort) | Wanted::Brackets(sort) | Wanted::ReferenceTo(sort) => sort,
        _ => Sort::Num,
    }
}

/// What is required of the element after this many.
pub(crate) fn element_want(want: Wanted, before: usize) -> Wanted
    ensures { result ≡ Wants.of_component (drop before (Wants.needed_components want)) }
{
    match needed_sorts(want).get(before) {
        Some(sort) => Wanted::Is(*sort),
        None => Wanted::Any,
    }
}

/// What is required of the first operand of a chain.
pub(crate) fn first_operand(rest: &[(Operator, RawExpr<'_>)]) -> Wanted
    ensures { result ≡ Wants.first_operand (raw_steps_of (map view_raw_step rest.now)) }
{
    match rest {
        [] => Wanted::Any,
        [(operator, _), ..] => Wanted::Fits(*operator),
    }
}

/// Whether the place takes the name of a meeting.
fn names_meeting(want: Wanted) -> bool
    ensures { result ≡ Typing.names_meeting want }
{
    matches!(want, Wanted::Meeting)
}

/// A call that starts at this byte, after its arguments. In place of a meeting's name, the first rules of the call come
/// before the rule that it is not a meeting.
pub(crate) fn call(
    site: &Site<'_>,
    want: Wanted,
    at: usize,
    called: &Called<'_>,
    raw: &[RawArg<'_>],
    args: Vec<Arg>,
) -> Result<Expr, TypeFault>
    ensures { Gives view_expr result (Typing.call (view_site site.now) want at (view_called called.now) (raw_args_of (map view_raw_arg raw.now)) (args_of (map view_arg args.items))) }
{
    if names_meeting(want) {
        count_rules(site, at, &called.signature, raw)?;
        return Err(fault(site, at, TypeRule::SyncName));
    }
    must(site, fits(want, called.sort), at, clash(want))?;
    call_rules(site, at, &called.signature, raw)?;
    Ok(invoked(at, called.sort, called.callee, args))
}

fn invoked(at: usize, sort: Sort, callee: Callee, args: Vec<Arg>) -> Expr
    ensures { view_expr result ≡ Typing.invoked at sort callee (args_of (map view_arg args.items)) }
{
    match callee {
        Callee::Builtin(function) => Expr::builtin(at, sort, function, args),
        Callee::Routine(routine) => Expr::invoke(at, sort, routine, args),
    }
}

/// The value at a place, as an expression that starts at this byte.
pub(crate) fn place_value(
    site: &Site<'_>,
    want: Wanted,
    at: usize,
    place: PlacePart,
) -> Result<Expr, TypeFault>
    ensures { Gives view_expr result (Typing.value_given (view_site site.now) want at (view_part place)) }
{
    let sort = place.sort;
    must(site, has_values(sort), at, TypeRule::TypeClash)?;
    must_fit(site, want, at, sort)?;
    value_from(site, at, place)
}

/// The value of a source. Fails only if an allocation fails.
fn value_from(site: &Site<'_>, at: usize, place: PlacePart) -> Result<Expr, TypeFault>
    ensures { Gives view_expr result (Ok (Data.value_from at (view_part place) place.source)) }
{
    let PlacePart {
        source,
        array: _,
        index,
        part,
        sort,
    } = place;
    match source {
        Source::Place { root, .. } => {
            let place = TreePlace::new(site.alloc, root, index, part, sort)?;
            Ok(Expr::place(at, sort, place))
        }
        Source::Value(value) => {
            let value = part_or_whole(value, part);
            Ok(Expr::constant(site.alloc, at, sort, value)?)
        }
        Source::Errno => Ok(Expr::errno(at, sort)),
        Source::Signal(number) => Ok(Expr::signal(at, sort, number)),
    }
}

/// A part of a value, or the value if it has no such part.
fn part_or_whole(value: Value, name: PartName) -> Value
    ensures { result ≡ Data.or_whole value (part_of value name) }
{
    match part(&value, name) {
        Some(part) => part,
        None => value,
    }
}

/// What is required of the number of a dimension: as there is only one, a literal with value 1.
pub(crate) fn one_dimension(raw: &RawExpr<'_>) -> Wanted
    ensures { result ≡ Arguments.one_dimension (view_raw raw.now) }
{
    match &raw.form {
        RawExprForm::Number(text) => one_literal(text),
        _ => Wanted::Nothing,
    }
}

fn one_literal(text: &[u8]) -> Wanted
    ensures { result ≡ Arguments.one_dimension (Number 0 text.now) }
{
    match read_literal(text) {
        Ok(number) => {
            if number.thousandths() == 1_000 {
                return Wanted::Is(Sort::Num);
            }
            Wanted::Nothing
        }
        Err(_) => Wanted::Nothing,
    }
}
