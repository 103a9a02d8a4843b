//! Taking the arguments of a call, one after the other.

ghost use Rattle.std.specs.Prelude.{◌≡◌, map, option_map, Ok};
ghost use Rattle.std.specs.List.{list_any};
ghost use Rattle.std.specs.Str.{str_eq_ignore_ascii_case};
ghost use Rattle.rapid_model.specs.Names;
ghost use Rattle.rapid_builtins.specs.declared.instruction_option.InstructionOption.{InstructionOption};
ghost use Rattle.rapid_builtins.specs.Calls.{row_of};
ghost use Rattle.raw_trees.specs.Views.{view_arg as view_raw_arg};
ghost use Rattle.rule_checks.specs.TypeChecks.{Gives};
ghost use Rattle.expr_types.specs.Calls;
ghost use Rattle.expr_types.specs.Views.{view_signature, view_taking};

use crate::needs::Needs;
use crate::signature::Signature;
use rapid_builtins::{Choice, InstructionOption, first_named};
use raw_trees::RawArg;
use rule_checks::TypeFault;
use std::alloc::Global;

/// The needs of the remaining arguments, and the options so far.
#[derive(Drop)]
pub struct Taking<'a> {
    pub needs: Needs<'a>,
    pub options: &'a [InstructionOption],
    pub choice: Choice,
    pub before: Vec<InstructionOption>,
}

/// Before the first argument.
pub(crate) fn nothing_taken<'a>(alloc: Global, signature: &Signature<'a>) -> Taking<'a>
    ensures { view_taking result ≡ Calls.taking (view_signature signature.now) }
{
    Taking {
        needs: signature.needs,
        options: signature.options,
        choice: signature.choice,
        before: Vec::new(alloc),
    }
}

/// What is left after an argument. Fails only if an allocation fails.
pub(crate) fn after<'a>(taking: Taking<'a>, arg: &RawArg<'_>) -> Result<Taking<'a>, TypeFault>
    ensures { Gives view_taking result (Ok (Calls.after (view_taking taking.entry) (view_raw_arg arg.now))) }
{
    match arg {
        RawArg::Needed(_) => Ok(after_needed(taking)),
        RawArg::Option { name, .. } => {
            let row = first_named(taking.options, name.text);
            with_option(taking, row)
        }
    }
}

fn after_needed(taking: Taking<'_>) -> Taking<'_>
    ensures { view_taking result ≡ Calls.after_needed (view_taking taking.entry) }
{
    let mut taking = taking;
    taking.needs = taking.needs.rest();
    taking
}

fn with_option<'a>(
    taking: Taking<'a>,
    row: Option<InstructionOption>,
) -> Result<Taking<'a>, TypeFault>
    ensures { Gives view_taking result (Ok (Calls.with_option (view_taking taking.entry) (option_map row_of row))) }
{
    let mut taking = taking;
    if let Some(option) = row {
        taking.before.push(option)?;
    }
    Ok(taking)
}

/// Whether an option is not allowed after those before it: it is one of them, or it excludes one of them.
pub(crate) fn is_excluded(taking: &Taking<'_>, name: &[u8]) -> bool
    ensures { result ≡ Calls.is_excluded taking.now.choice name.now (view_taking taking.now).before }
{
    match taking.choice {
        Choice::Any => is_among(name, &taking.before),
        Choice::InsideAndOne => is_any_like(name, &taking.before),
        _ => !taking.before.is_empty(),
    }
}

/// Whether an option has this name, case-insensitively.
fn is_named(option: &InstructionOption, name: &[u8]) -> bool
    ensures { result ≡ str_eq_ignore_ascii_case name.now option.now.name.now }
{
    name.eq_ignore_ascii_case(option.name)
}

/// Whether one of the options has this name.
fn is_among(name: &[u8], options: &[InstructionOption]) -> bool
    ensures { result ≡ Names.is_among name.now (map (λ (o : InstructionOption). o.name.now) options.now) }
{
    for option in options {
        if is_named(option, name) {
            return true;
        }
    }
    false
}

/// Whether one of the options excludes the one with this name, which `Inside` does not if the name is another.
fn is_any_like(name: &[u8], options: &[InstructionOption]) -> bool
    ensures { result ≡ list_any (Calls.is_like name.now) (map (λ (o : InstructionOption). o.name.now) options.now) }
{
    for option in options {
        if is_like(name, option) {
            return true;
        }
    }
    false
}

/// Whether both the name and the option are `Inside`, or neither is.
fn is_like(name: &[u8], option: &InstructionOption) -> bool
    ensures { result ≡ Calls.is_like name.now option.now.name.now }
{
    is_inside(name) == is_inside(option.name)
}

fn is_inside(name: &[u8]) -> bool
    ensures { result ≡ Calls.is_inside name.now }
{
    b"Inside".eq_ignore_ascii_case(name)
}
