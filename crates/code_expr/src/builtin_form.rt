//! The forms of the arguments of predefined functions.

ghost use Rattle.std.specs.Prelude.{◌≡◌, map};
ghost use Rattle.typed_trees.specs.Plain.{MoreArgs, NoArgs, args_of};
ghost use Rattle.typed_trees.specs.Views.{view_arg};
ghost use Rattle.code_expr.specs.BuiltinForms.{form_of};

use typed_trees::{Arg, TreeRoot};

/// The form of the arguments of a call.
#[derive(Clone, Copy)]
pub(crate) enum BuiltinForm {
    Nothing,
    /// One value or two.
    Values,
    /// A signal, by its number.
    Signal(u32),
    Place,
    /// A lent array, by its root, and one more argument.
    Array(TreeRoot),
    /// Anything else, which no checked tree has.
    Other,
}

/// The form of a list of arguments.
pub(crate) fn form_of(args: &Vec<Arg>) -> BuiltinForm
    ensures { result ≡ form_of (args_of (map view_arg args.now.items)) }
{
    match args.as_slice() {
        [] => BuiltinForm::Nothing,
        [arg] => form_of_one(arg),
        [first, second] => form_of_two(first, second),
        _ => BuiltinForm::Other,
    }
}

/// The form of one argument.
fn form_of_one(arg: &Arg) -> BuiltinForm
    ensures { result ≡ form_of (MoreArgs (view_arg arg.now) NoArgs) }
{
    match arg {
        Arg::Value(_) => BuiltinForm::Values,
        Arg::Signal(signal) => BuiltinForm::Signal(*signal),
        Arg::Place(_) => BuiltinForm::Place,
        Arg::Meeting(_) | Arg::Known(_) | Arg::Option { .. } => BuiltinForm::Other,
    }
}

/// The form of two arguments.
fn form_of_two(first: &Arg, second: &Arg) -> BuiltinForm
    ensures { result ≡ form_of (MoreArgs (view_arg first.now) (MoreArgs (view_arg second.now) NoArgs)) }
{
    match (first, second) {
        (Arg::Value(_), Arg::Value(_)) => BuiltinForm::Values,
        (Arg::Place(place), _) => BuiltinForm::Array(place.root),
        _ => BuiltinForm::Other,
    }
}
