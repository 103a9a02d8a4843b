//! The values with which frames begin, after their arguments. Each fails only if an allocation fails or there are 2^32
//! values or more.

ghost use Rattle.std.specs.Prelude.{◌≡◌, ◌*◌, ◌++◌, flat_map, length, pos, replicate, IfOk, OnOk};
ghost use Rattle.rapid_meaning.specs.Frames.{first_values};
ghost use Rattle.stack_code.specs.Firsts.{in_full};
ghost use Rattle.typed_trees.specs.Views.{view_routine};

use code_expr::{count_of, sum};
use rapid_model::Value;
use rapid_num::Num;
use stack_code::FirstRun;
use std::alloc::{AllocError, Global};
use typed_trees::{Datum, FirstData, FirstRuns, LocalRow, Routine};

/// Appends the first values of a routine's own data and of its FORs, which have three each; returns their number.
pub(crate) fn add_firsts(
    alloc: Global,
    routine: &Routine,
    firsts: &mut Vec<FirstRun>,
) -> Result<u32, AllocError>
    ensures firsts { OnOk result (in_full firsts.new.items ≡ in_full firsts.old.items ++ first_values (view_routine routine.now)) }
    ensures count { IfOk result (λ count. count ≡ length (first_values (view_routine routine.now))) }
{
    let count = add_locals(alloc, &routine.locals, firsts)?;
    let counters = thrice(routine.loops)?;
    add_run(Datum::Plain(Value::Num(zero())), counters, firsts)?;
    sum(count, counters)
}

/// Appends the first values of a routine's own data; returns their number.
fn add_locals(
    alloc: Global,
    locals: &[LocalRow],
    firsts: &mut Vec<FirstRun>,
) -> Result<u32, AllocError>
    ensures firsts { OnOk result (in_full firsts.new.items ≡ in_full firsts.old.items ++ flat_map (λ row. row.first) locals.now) }
    ensures count { IfOk result (λ count. count ≡ length (flat_map (λ row. row.first) locals.now)) }
{
    let mut count = 0;
    for local in locals {
        add_data(alloc, &local.first, firsts)?;
        count = sum(count, count_of(local.first.len())?)?;
    }
    Ok(count)
}

/// Three times a number.
fn thrice(loops: u32) -> Result<u32, AllocError>
    ensures { IfOk result (λ n. n ≡ 3 * loops) }
{
    match loops.checked_mul(3) {
        Some(n) => Ok(n),
        None => Err(AllocError),
    }
}

/// The num 0.
fn zero() -> Num
    ensures { result ≡ pos 0 }
{
    match Num::new(0) {
        Some(number) => number,
        None => unreachable!(),
    }
}

/// Appends the first values of a datum's elements, run by run as they are kept.
fn add_data(alloc: Global, first: &FirstData, firsts: &mut Vec<FirstRun>) -> Result<(), AllocError>
    ensures { OnOk result (in_full firsts.new.items ≡ in_full firsts.old.items ++ first.now) }
{
    match first.runs() {
        FirstRuns::Each(each) => add_each(alloc, each, firsts),
        FirstRuns::Alike(datum, count) => {
            let count = count_of(count)?;
            add_run(datum.copy(alloc)?, count, firsts)
        }
    }
}

/// Appends a run for each datum.
fn add_each(alloc: Global, each: &[Datum], firsts: &mut Vec<FirstRun>) -> Result<(), AllocError>
    ensures { OnOk result (in_full firsts.new.items ≡ in_full firsts.old.items ++ each.now) }
{
    for datum in each {
        add_run(datum.copy(alloc)?, 1, firsts)?;
    }
    Ok(())
}

/// Appends `count` copies of a datum as one run; nothing if that is 0.
fn add_run(datum: Datum, count: u32, firsts: &mut Vec<FirstRun>) -> Result<(), AllocError>
    ensures { OnOk result (in_full firsts.new.items ≡ in_full firsts.old.items ++ replicate count datum) }
{
    if count != 0 {
        firsts.push(FirstRun { datum, count })?;
    }
    Ok(())
}
