//! The typed form of a routine's statements, or the first broken rule in them: from left to right, the parts before the
//! whole (RAPID Kernel, statements).

ghost use Rattle.std.specs.Prelude.{◌≡◌, map, option_map};
ghost use Rattle.raw_trees.specs.Plain.{For, If, IfOne, PlainName, Test, While, stmts_of as raw_stmts_of};
ghost use Rattle.raw_trees.specs.Views.{view_expr as view_raw, view_list as view_raw_list, view_stmt as view_raw_stmt};
ghost use Rattle.typed_trees.specs.Plain.{Else};
ghost use Rattle.typed_trees.specs.Views.{view_stmt};
ghost use Rattle.rule_checks.specs.TypeChecks.{Gives};
ghost use Rattle.named_data.specs.Views.{view_site};
ghost use Rattle.stmt_types.specs.Bodies;
ghost use Rattle.stmt_types.specs.Bodies.{outside};
ghost use Rattle.stmt_types.specs.Parts.{arms_in, cases_in, else_in};
ghost use Rattle.stmt_types.specs.Views.{view_around, view_body, view_typed_arms, view_typed_cases, view_typed_else, view_typed_list, view_typed_one};

use crate::around::{Around, site_at};
use crate::body::Body;
use crate::bounds::bounds_of;
use crate::case_values::case_values;
use crate::counter_index::counter_index;
use crate::labels::{has_labels, levels_within, own_labels};
use crate::simple::simple;
use crate::typed_rows::{TypedArms, TypedCases, TypedElse, TypedList, TypedOne};
use data_scopes::number_after;
use expr_types::typed;
use named_data::{Site, Wanted};
use rapid_model::{Operator, Sort};
use raw_trees::{RawBounds, RawExpr, RawForm, RawStmt};
use rule_checks::TypeFault;
use typed_trees::Stmt;

/// A statement, and the number of the next FOR.
fn with_next(next: u32, stmt: Stmt) -> TypedOne
    ensures { view_typed_one result ≡ Bodies.with_next next (view_stmt stmt) }
{
    TypedOne { stmt, next }
}

/// ELSE or DEFAULT with this list.
fn given(list: TypedList) -> TypedElse
    ensures { let l = view_typed_list list in view_typed_else result ≡ record { tree = Else l.tree; next = l.next } }
{
    TypedElse {
        other: Some(list.list),
        next: list.next,
    }
}

/// The typed form of a statement, given the number of the next FOR.
#[cycle(statements)]
fn stmt<'b>(
    raw: &RawStmt<'b>,
    body: &Body<'_, '_>,
    around: &Around<'_, 'b>,
    next: u32,
) -> Result<TypedOne, TypeFault>
    ensures { Gives view_typed_one result (Bodies.stmt (view_body body.now) (view_raw_stmt raw.now) (view_around around.now) next) }
{
    let at = raw.at;
    match &raw.form {
        RawForm::If { .. } => branched(raw, body, around, next),
        RawForm::IfOne { test, then } => branched_one(at, then, test, body, around, next),
        RawForm::For { bounds, list, .. } => counted(at, bounds, list, body, around, next),
        RawForm::While { test, list } => repeated(at, list, test, body, around, next),
        RawForm::Test { value, .. } => tested(raw, value, body, around, next),
        _ => Ok(with_next(next, simple(raw, body, around)?)),
    }
}

/// IF and ELSEIF with their lists, and ELSE (RAPID Kernel, IF).
#[cycle(statements)]
#[tactic(auto, unfolding(crate::specs::Bodies::stmt))]
fn branched<'b>(
    raw: &RawStmt<'b>,
    body: &Body<'_, '_>,
    around: &Around<'_, 'b>,
    next: u32,
) -> Result<TypedOne, TypeFault>
    ensures { let stmt = view_raw_stmt raw.now in Gives view_typed_one result (Bodies.stmt (view_body body.now) (If raw.now.at (arms_in stmt) (else_in stmt)) (view_around around.now) next) }
{
    let site = site_at(body, around, raw.at);
    let arms = branches(raw, body, around, &site, next)?;
    let other = otherwise(raw, body, around, arms.next)?;
    let tree = Stmt::branch(raw.at, arms.arms, other.other);
    Ok(with_next(other.next, tree))
}

/// IF with one simple statement (RAPID Kernel, IF).
#[cycle(statements)]
#[tactic(auto, unfolding(crate::specs::Bodies::stmt))]
fn branched_one<'b>(
    at: usize,
    then: &RawStmt<'b>,
    test: &RawExpr<'b>,
    body: &Body<'_, '_>,
    around: &Around<'_, 'b>,
    next: u32,
) -> Result<TypedOne, TypeFault>
    ensures { Gives view_typed_one result (Bodies.stmt (view_body body.now) (IfOne at (view_raw test.now) (view_raw_stmt then.now)) (view_around around.now) next) }
{
    let site = site_at(body, around, at);
    let test = typed(&site, test, Wanted::Is(Sort::Bool))?;
    let then = stmt(then, body, around, next)?;
    let tree = Stmt::branch_one(body.alloc, at, test, then.stmt)?;
    Ok(with_next(then.next, tree))
}

/// FOR with its list, whatever the name of its variable (RAPID Kernel, FOR).
#[cycle(statements)]
#[tactic(auto, unfolding(crate::specs::Bodies::stmt))]
fn counted<'b>(
    at: usize,
    bounds: &Box<RawBounds<'b>>,
    list: &Vec<RawStmt<'b>>,
    body: &Body<'_, '_>,
    around: &Around<'_, 'b>,
    next: u32,
) -> Result<TypedOne, TypeFault>
    ensures { (name : PlainName) → let b = bounds.now.value in Gives view_typed_one result (Bodies.stmt (view_body body.now) (For at name (view_raw b.first) (view_raw b.last) (option_map view_raw b.step) (raw_stmts_of (view_raw_list list.now))) (view_around around.now) next) }
{
    let site = site_at(body, around, at);
    let bounds = bounds_of(&site, bounds)?;
    let local = counter_index(body, next)?;
    let list = inner(list, body, &around.in_loop(next), number_after(next)?)?;
    let tree = Stmt::count(body.alloc, at, local, bounds, list.list)?;
    Ok(with_next(list.next, tree))
}

/// WHILE with its list (RAPID Kernel, WHILE).
#[cycle(statements)]
#[tactic(auto, unfolding(crate::specs::Bodies::stmt))]
fn repeated<'b>(
    at: usize,
    list: &Vec<RawStmt<'b>>,
    test: &RawExpr<'b>,
    body: &Body<'_, '_>,
    around: &Around<'_, 'b>,
    next: u32,
) -> Result<TypedOne, TypeFault>
    ensures { Gives view_typed_one result (Bodies.stmt (view_body body.now) (While at (view_raw test.now) (raw_stmts_of (view_raw_list list.now))) (view_around around.now) next) }
{
    let site = site_at(body, around, at);
    let test = typed(&site, test, Wanted::Is(Sort::Bool))?;
    let list = inner(list, body, around, next)?;
    Ok(with_next(list.next, Stmt::repeat(at, test, list.list)))
}

/// TEST of this value: each CASE with its list, and DEFAULT (RAPID Kernel, TEST).
#[cycle(statements)]
#[tactic(auto, unfolding(crate::specs::Bodies::stmt))]
fn tested<'b>(
    raw: &RawStmt<'b>,
    value: &RawExpr<'b>,
    body: &Body<'_, '_>,
    around: &Around<'_, 'b>,
    next: u32,
) -> Result<TypedOne, TypeFault>
    ensures { let stmt = view_raw_stmt raw.now in Gives view_typed_one result (Bodies.stmt (view_body body.now) (Test raw.now.at (view_raw value.now) (cases_in stmt) (else_in stmt)) (view_around around.now) next) }
{
    let site = site_at(body, around, raw.at);
    let value = typed(&site, value, Wanted::Fits(Operator::Equal))?;
    let cases = choices(raw, body, around, &site, value.sort, next)?;
    let other = otherwise(raw, body, around, cases.next)?;
    let tree = Stmt::test(raw.at, value, cases.cases, other.other);
    Ok(with_next(other.next, tree))
}

/// The statements of a list whose labels are in the context.
#[cycle(statements)]
fn stmts<'b>(
    list: &Vec<RawStmt<'b>>,
    body: &Body<'_, '_>,
    around: &Around<'_, 'b>,
    next: u32,
) -> Result<TypedList, TypeFault>
    ensures { Gives view_typed_list result (Bodies.stmts (view_body body.now) (raw_stmts_of (view_raw_list list.now)) (view_around around.now) next) }
{
    let mut done = Vec::with_capacity(body.alloc, list.len())?;
    let mut number = next;
    for raw in list {
        let one = stmt(raw, body, around, number)?;
        number = one.next;
        done.push(one.stmt)?;
    }
    Ok(TypedList {
        list: done,
        next: number,
    })
}

/// The statements of a list, with its own labels added to the context.
#[cycle(statements)]
fn inner<'b>(
    list: &Vec<RawStmt<'b>>,
    body: &Body<'_, '_>,
    around: &Around<'_, 'b>,
    next: u32,
) -> Result<TypedList, TypeFault>
    ensures { let list = raw_stmts_of (view_raw_list list.now) in Gives view_typed_list result (Bodies.stmts (view_body body.now) list (Bodies.into (view_around around.now) list) next) }
{
    if !has_labels(list) {
        return stmts(list, body, around, next);
    }
    let own = own_labels(body.alloc, list)?;
    let levels = levels_within(body.alloc, &own, around.levels)?;
    let inside = Around {
        within: around.within,
        levels: &levels,
        handler: around.handler,
    };
    stmts(list, body, &inside, next)
}

/// The IF and ELSEIFs of a statement, with their lists (RAPID Kernel, IF).
#[cycle(statements)]
fn branches<'b>(
    raw: &RawStmt<'b>,
    body: &Body<'_, '_>,
    around: &Around<'_, 'b>,
    site: &Site<'_>,
    next: u32,
) -> Result<TypedArms, TypeFault>
    ensures { Gives view_typed_arms result (Bodies.branches (view_body body.now) (arms_in (view_raw_stmt raw.now)) (view_site site.now) (view_around around.now) next) }
{
    let RawForm::If { arms, .. } = &raw.form else {
        let none = Vec::new(body.alloc);
        return Ok(TypedArms { arms: none, next });
    };
    let mut done = Vec::with_capacity(body.alloc, arms.len())?;
    let mut number = next;
    for (test, list) in arms {
        let value = typed(site, test, Wanted::Is(Sort::Bool))?;
        let inside = inner(list, body, around, number)?;
        number = inside.next;
        done.push((value, inside.list))?;
    }
    Ok(TypedArms {
        arms: done,
        next: number,
    })
}

/// The CASEs of a statement with their values, which must have the type of the tested value, and their lists (RAPID
/// Kernel, TEST).
#[cycle(statements)]
fn choices<'b>(
    raw: &RawStmt<'b>,
    body: &Body<'_, '_>,
    around: &Around<'_, 'b>,
    site: &Site<'_>,
    sort: Sort,
    next: u32,
) -> Result<TypedCases, TypeFault>
    ensures { Gives view_typed_cases result (Bodies.choices (view_body body.now) (cases_in (view_raw_stmt raw.now)) (view_site site.now) sort (view_around around.now) next) }
{
    let RawForm::Test { cases, .. } = &raw.form else {
        let none = Vec::new(body.alloc);
        return Ok(TypedCases { cases: none, next });
    };
    let mut done = Vec::with_capacity(body.alloc, cases.len())?;
    let mut number = next;
    for (values, list) in cases {
        let values = case_values(site, sort, values)?;
        let inside = inner(list, body, around, number)?;
        number = inside.next;
        done.push((values, inside.list))?;
    }
    Ok(TypedCases {
        cases: done,
        next: number,
    })
}

/// The list of ELSE or DEFAULT of a statement, if there is one.
#[cycle(statements)]
#[tactic(auto, unfolding(crate::specs::Bodies::otherwise))]
fn otherwise<'b>(
    raw: &RawStmt<'b>,
    body: &Body<'_, '_>,
    around: &Around<'_, 'b>,
    next: u32,
) -> Result<TypedElse, TypeFault>
    ensures { Gives view_typed_else result (Bodies.otherwise (view_body body.now) (else_in (view_raw_stmt raw.now)) (view_around around.now) next) }
{
    match &raw.form {
        RawForm::If { other, .. } => match other {
            Some(list) => Ok(given(inner(list, body, around, next)?)),
            None => Ok(TypedElse { other: None, next }),
        },
        RawForm::Test { other, .. } => match other {
            Some(list) => Ok(given(inner(list, body, around, next)?)),
            None => Ok(TypedElse { other: None, next }),
        },
        _ => Ok(TypedElse { other: None, next }),
    }
}

/// The typed form of a routine's statements, or of those of its ERROR part, given the number of the next FOR.
pub fn typed_list(
    body: &Body<'_, '_>,
    list: &Vec<RawStmt<'_>>,
    handler: bool,
    next: u32,
) -> Result<TypedList, TypeFault>
    ensures { let list = raw_stmts_of (map view_raw_stmt list.now.items) in Gives view_typed_list result (Bodies.stmts (view_body body.now) list (Bodies.into (outside handler) list) next) }
{
    inner(list, body, &Around::outside(handler), next)
}
