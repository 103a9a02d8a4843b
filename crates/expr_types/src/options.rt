//! Options among the arguments of a call.

ghost use Rattle.std.specs.Prelude.{◌≡◌, ℕ, List, Ok};
ghost use Rattle.std.specs.Borrow.{Bor};
ghost use Rattle.std.specs.Option.{option_map};
ghost use Rattle.rapid_builtins.specs.Calls.{row_of};
ghost use Rattle.rapid_builtins.specs.declared.need.Need.{Need};
ghost use Rattle.typed_trees.specs.Plain.{Argument, NoArgument, Optional};
ghost use Rattle.typed_trees.specs.Views.{view_arg};
ghost use Rattle.rule_checks.specs.TypeChecks.{Gives};
ghost use Rattle.named_data.specs.Views.{view_site};
ghost use Rattle.expr_types.specs.Calls;
ghost use Rattle.expr_types.specs.Views.{view_taking};

use crate::taking::{Taking, is_excluded};
use named_data::{Site, fault, must, name_text};
use rapid_builtins::{InstructionOption, Need};
use rule_checks::{TypeFault, TypeRule};
use typed_trees::Arg;

/// An option without a value, whose backslash is at this byte.
pub(crate) fn plain_option(
    site: &Site<'_>,
    taking: &Taking<'_>,
    at: usize,
    row: Option<InstructionOption>,
) -> Result<Arg, TypeFault>
    ensures { Gives view_arg result (Calls.plain_option (view_site site.now) (view_taking taking.now) at (option_map row_of row)) }
{
    match row {
        None => Err(fault(site, at, TypeRule::ArgName)),
        Some(option) => match option.value {
            Some(_) => Err(fault(site, at, TypeRule::ArgName)),
            None => {
                may_stand(site, taking, at, option.name)?;
                bare_option(option.name)
            }
        },
    }
}

/// Checks that the option is allowed after those before it.
fn may_stand(site: &Site<'_>, taking: &Taking<'_>, at: usize, name: &[u8]) -> Result<(), TypeFault>
    ensures { Gives (λ u. u) result (Calls.may_stand (view_site site.now) (view_taking taking.now) at name.now) }
{
    let holds = !is_excluded(taking, name);
    must(site, holds, at, TypeRule::ArgName)
}

/// An option without an argument. Fails only if an allocation fails.
fn bare_option(name: &[u8]) -> Result<Arg, TypeFault>
    ensures { Gives view_arg result (Ok (Optional name.now NoArgument)) }
{
    Ok(Arg::option(name_text(name)?))
}

/// An option with its argument, whose backslash is at this byte.
pub(crate) fn option_with(
    site: &Site<'_>,
    taking: &Taking<'_>,
    at: usize,
    name: &[u8],
    value: Arg,
) -> Result<Arg, TypeFault>
    ensures { Gives view_arg result (Calls.option_with (view_site site.now) (view_taking taking.now) at name.now (view_arg value)) }
{
    may_stand(site, taking, at, name)?;
    let option = Arg::option_with(site.alloc, name_text(name)?, value)?;
    Ok(option)
}

/// The name of an option that takes a value, and what that must be; `None` if there is no such option.
pub(crate) fn needed_by(row: Option<InstructionOption>) -> Option<(&'static [u8], Need)>
    ensures { option_map (λ (r : Bor (List ℕ) × Need). (r.0.now, r.1)) result ≡ Calls.needed_by (option_map row_of row) }
{
    let option = row?;
    let need = option.value?;
    Some((option.name, need))
}
