//! The arguments of an instruction: the required ones, and its options (RAPID Instructions).

ghost use Rattle.std.specs.Prelude.{◌≡◌, map, IfOk};
ghost use Rattle.rapid_meaning.specs.Instructions.{has, needed, options};
ghost use Rattle.typed_trees.specs.Plain.{args_of};
ghost use Rattle.typed_trees.specs.Views.{view_arg};
ghost use Rattle.code_stmt.specs.Options;
ghost use Rattle.code_stmt.specs.Views.{view_args};

use std::alloc::{AllocError, Global};
use typed_trees::Arg;

/// The required arguments and the options, each in order.
#[derive(Drop)]
pub(crate) struct Arguments<'a> {
    pub(crate) needed: Vec<&'a Arg>,
    pub(crate) options: Vec<&'a Arg>,
}

/// Splits the arguments into required ones and options. Fails only if an allocation fails.
pub(crate) fn parted<'a>(alloc: Global, args: &'a Vec<Arg>) -> Result<Arguments<'a>, AllocError>
    ensures needed { IfOk result (λ a. view_args a.needed.items ≡ needed (args_of (map view_arg args.now.items))) }
    ensures options { IfOk result (λ a. view_args a.options.items ≡ options (args_of (map view_arg args.now.items))) }
{
    let mut given = Vec::new(alloc);
    let mut options = Vec::new(alloc);
    for arg in args {
        if is_option(arg) {
            options.push(arg)?;
        } else {
            given.push(arg)?;
        }
    }
    Ok(Arguments {
        needed: given,
        options,
    })
}

/// Whether an argument is an option.
fn is_option(arg: &Arg) -> bool
    ensures { result ≡ Options.is_option (view_arg arg.now) }
{
    match arg {
        Arg::Option { .. } => true,
        _ => false,
    }
}

/// Whether an option of this name is given.
pub(crate) fn has(name: &[u8], options: &[&Arg]) -> bool
    ensures { result ≡ has name.now (view_args options.now) }
{
    for option in options {
        if is_named(option, name) {
            return true;
        }
    }
    false
}

/// Whether an argument is the option of this name.
fn is_named(arg: &Arg, name: &[u8]) -> bool
    ensures { result ≡ Options.is_named name.now (view_arg arg.now) }
{
    match arg {
        Arg::Option { name: other, .. } => other.bytes() == name,
        _ => false,
    }
}
