//! Procedure calls, instructions and CONNECT.

ghost use Rattle.std.specs.Prelude.{◌≡◌, map};
ghost use Rattle.raw_trees.specs.Plain.{args_of as raw_args_of};
ghost use Rattle.raw_trees.specs.Views.{view_arg as view_raw_arg, view_name, view_place as view_raw_place};
ghost use Rattle.typed_trees.specs.Views.{view_stmt};
ghost use Rattle.rule_checks.specs.TypeChecks.{Gives};
ghost use Rattle.named_data.specs.Views.{view_site};
ghost use Rattle.stmt_types.specs.Bodies;

use crate::targets::{named, no_signal};
use data_scopes::Meant;
use expr_types::{call_arguments, instruction_signature, lent_place, routine_signature};
use named_data::{Site, fault};
use rapid_model::{Instruction, RoutineKind, Sort};
use raw_trees::{RawArg, RawName, RawPlace};
use rule_checks::{TypeFault, TypeRule};
use typed_trees::Stmt;

/// An instruction of the profile (RAPID Instructions, Functions and Data types, arguments).
fn instructed(
    site: &Site<'_>,
    at: usize,
    instruction: Instruction,
    args: &Vec<RawArg<'_>>,
) -> Result<Stmt, TypeFault>
    ensures { Gives view_stmt result (Bodies.instructed (view_site site.now) at instruction (raw_args_of (map view_raw_arg args.now.items))) }
{
    let signature = instruction_signature(instruction, args);
    let args = call_arguments(site, at, args, &signature)?;
    Ok(Stmt::instruct(at, instruction, args))
}

/// A call of a routine of this kind; a statement may call only procedures (RAPID Kernel, procedure calls).
fn procedure(
    site: &Site<'_>,
    at: usize,
    name: &RawName<'_>,
    routine: u32,
    args: &Vec<RawArg<'_>>,
    kind: Option<RoutineKind>,
) -> Result<Stmt, TypeFault>
    ensures { Gives view_stmt result (Bodies.procedure (view_site site.now) at (view_name name.now) routine (raw_args_of (map view_raw_arg args.now.items)) kind) }
{
    match kind {
        Some(RoutineKind::Proc) => {
            let signature = routine_signature(site.scopes.routine_params(routine));
            let args = call_arguments(site, at, args, &signature)?;
            Ok(Stmt::call(at, routine, args))
        }
        _ => Err(fault(site, name.at, TypeRule::NotThis)),
    }
}

/// A call of what a name means.
fn call_meant(
    site: &Site<'_>,
    at: usize,
    name: &RawName<'_>,
    args: &Vec<RawArg<'_>>,
    meant: Option<Meant>,
) -> Result<Stmt, TypeFault>
    ensures { Gives view_stmt result (Bodies.call_meant (view_site site.now) at (view_name name.now) (raw_args_of (map view_raw_arg args.now.items)) meant) }
{
    match meant {
        None => Err(fault(site, name.at, TypeRule::NoName)),
        Some(Meant::Instruction(instruction)) => instructed(site, at, instruction, args),
        Some(Meant::Routine(routine)) => {
            let kind = site.scopes.routine_kind(routine);
            procedure(site, at, name, routine, args, kind)
        }
        Some(_) => Err(fault(site, name.at, TypeRule::NotThis)),
    }
}

/// An instruction, or a call of a procedure.
pub(crate) fn called(
    site: &Site<'_>,
    at: usize,
    name: &RawName<'_>,
    args: &Vec<RawArg<'_>>,
) -> Result<Stmt, TypeFault>
    ensures { Gives view_stmt result (Bodies.called (view_site site.now) at (view_name name.now) (raw_args_of (map view_raw_arg args.now.items))) }
{
    call_meant(site, at, name, args, named(site, name))
}

/// A routine of this kind that is named as a trap.
fn trap_of_kind(
    site: &Site<'_>,
    at: usize,
    routine: u32,
    kind: Option<RoutineKind>,
) -> Result<u32, TypeFault>
    ensures { Gives (λ n. n) result (Bodies.trap_of_kind (view_site site.now) at routine kind) }
{
    match kind {
        Some(RoutineKind::Trap) => Ok(routine),
        _ => Err(fault(site, at, TypeRule::NotThis)),
    }
}

/// The trap that a name at this byte means.
fn trap_meant(site: &Site<'_>, at: usize, meant: Option<Meant>) -> Result<u32, TypeFault>
    ensures { Gives (λ n. n) result (Bodies.trap_meant (view_site site.now) at meant) }
{
    match meant {
        None => Err(fault(site, at, TypeRule::NoName)),
        Some(Meant::Routine(routine)) => {
            trap_of_kind(site, at, routine, site.scopes.routine_kind(routine))
        }
        Some(_) => Err(fault(site, at, TypeRule::NotThis)),
    }
}

/// CONNECT of an interrupt with a trap (RAPID Kernel, trap routines).
pub(crate) fn connected(
    site: &Site<'_>,
    at: usize,
    written: &RawPlace<'_>,
    trap: &RawName<'_>,
) -> Result<Stmt, TypeFault>
    ensures { Gives view_stmt result (Bodies.connected (view_site site.now) at (view_raw_place written.now) (view_name trap.now)) }
{
    no_signal(site, &written.name)?;
    let place = lent_place(site, written, written.name.at, Sort::IntNum)?;
    let trap = trap_meant(site, trap.at, named(site, trap))?;
    Ok(Stmt::connect(at, place, trap))
}
