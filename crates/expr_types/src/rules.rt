//! The rules of a call, after those of its arguments.

ghost use Rattle.std.specs.Prelude.{◌≡◌, map};
ghost use Rattle.raw_trees.specs.Plain.{args_of};
ghost use Rattle.raw_trees.specs.Views.{view_arg as view_raw_arg};
ghost use Rattle.rule_checks.specs.TypeChecks.{Gives};
ghost use Rattle.named_data.specs.Views.{view_site};
ghost use Rattle.expr_types.specs.Calls;
ghost use Rattle.expr_types.specs.Views.{view_signature};

use crate::signature::Signature;
use named_data::{Site, must};
use rapid_builtins::Choice;
use rapid_limits::MOST_ARGUMENTS;
use raw_trees::RawArg;
use rule_checks::{TypeFault, TypeRule};

/// Whether an argument is not an option.
fn is_needed(arg: &RawArg<'_>) -> bool
    ensures { result ≡ Calls.is_needed (view_raw_arg arg.now) }
{
    matches!(arg, RawArg::Needed(_))
}

/// How many arguments are not options.
fn needed_in(args: &[RawArg<'_>]) -> usize
    ensures { result ≡ Calls.needed_in (args_of (map view_raw_arg args.now)) }
{
    let mut count = 0;
    for arg in args {
        if is_needed(arg) {
            count += 1;
        }
    }
    count
}

/// How many arguments there are.
fn all_in(args: &[RawArg<'_>]) -> usize
    ensures { result ≡ Calls.all_in (args_of (map view_raw_arg args.now)) }
{
    args.len()
}

/// Whether there are as many options as are required, among options that do not exclude each other.
fn are_chosen(choice: Choice, args: &[RawArg<'_>]) -> bool
    ensures { result ≡ Calls.are_chosen choice (args_of (map view_raw_arg args.now)) }
{
    match choice {
        Choice::JustOne => all_in(args) != needed_in(args),
        Choice::Any | Choice::OneAtMost => true,
        Choice::InsideAndOne => all_in(args).saturating_sub(needed_in(args)) == 2,
    }
}

/// Whether there are as many arguments as needed, and at most 32 with the options.
fn are_counted(args: &[RawArg<'_>], count: usize) -> bool
    ensures { result ≡ Calls.are_counted (args_of (map view_raw_arg args.now)) count }
{
    needed_in(args) == count && all_in(args) <= MOST_ARGUMENTS
}

/// The first rules of a call that starts at this byte: the number of its arguments, its options (RAPID Kernel,
/// procedure calls and function calls).
pub(crate) fn count_rules(
    site: &Site<'_>,
    at: usize,
    signature: &Signature<'_>,
    args: &[RawArg<'_>],
) -> Result<(), TypeFault>
    ensures { Gives (λ u. u) result (Calls.count_rules (view_site site.now) at (view_signature signature.now) (args_of (map view_raw_arg args.now))) }
{
    let holds = are_counted(args, signature.needs.count());
    must(site, holds, at, TypeRule::ArgCount)?;
    let holds = are_chosen(signature.choice, args);
    must(site, holds, at, TypeRule::ArgName)
}

/// The rules of a call that starts at this byte: the number of its arguments, its options, its arm (RAPID Kernel,
/// procedure calls and function calls).
pub(crate) fn call_rules(
    site: &Site<'_>,
    at: usize,
    signature: &Signature<'_>,
    args: &[RawArg<'_>],
) -> Result<(), TypeFault>
    ensures { Gives (λ u. u) result (Calls.call_rules (view_site site.now) at (view_signature signature.now) (args_of (map view_raw_arg args.now))) }
{
    let holds = are_counted(args, signature.needs.count());
    must(site, holds, at, TypeRule::ArgCount)?;
    let holds = are_chosen(signature.choice, args);
    must(site, holds, at, TypeRule::ArgName)?;
    let holds = !signature.arm || site.scopes.has_arm();
    must(site, holds, at, TypeRule::NoArm)
}
