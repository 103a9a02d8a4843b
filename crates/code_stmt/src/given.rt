//! The arguments of an instruction by number, from 0. Each returns `None` if the argument is missing or has another
//! form.

ghost use Rattle.std.specs.Prelude.{◌≡◌, option_map, slice_get};
ghost use Rattle.stack_code.specs.Pieces;
ghost use Rattle.typed_trees.specs.Views.{view_arg, view_expr, view_place};
ghost use Rattle.code_stmt.specs.Views.{view_args};

use typed_trees::{Arg, Expr, TreePlace};

/// An argument that is a value.
pub(crate) fn value_at<'a>(args: &[&'a Arg], number: usize) -> Option<&'a Expr>
    ensures { option_map (λ e. view_expr e.now) result ≡ Pieces.value_at (view_args args.now) number }
{
    match arg_at(args, number) {
        Some(arg) => value_in(arg),
        None => None,
    }
}

/// An argument that is a place.
pub(crate) fn place_at<'a>(args: &[&'a Arg], number: usize) -> Option<&'a TreePlace>
    ensures { option_map (λ p. view_place p.now) result ≡ Pieces.place_at (view_args args.now) number }
{
    match arg_at(args, number) {
        Some(arg) => place_in(arg),
        None => None,
    }
}

/// An argument that is a signal.
pub(crate) fn signal_at(args: &[&Arg], number: usize) -> Option<u32>
    ensures { result ≡ Pieces.signal_at (view_args args.now) number }
{
    match arg_at(args, number) {
        Some(arg) => signal_in(arg),
        None => None,
    }
}

/// An argument that is a meeting.
pub(crate) fn meeting_at(args: &[&Arg], number: usize) -> Option<u32>
    ensures { result ≡ Pieces.meeting_at (view_args args.now) number }
{
    match arg_at(args, number) {
        Some(arg) => meeting_in(arg),
        None => None,
    }
}

/// An argument.
fn arg_at<'a>(args: &[&'a Arg], number: usize) -> Option<&'a Arg>
    ensures { option_map (λ a. view_arg a.now) result ≡ slice_get (view_args args.now) number }
{
    match args.get(number) {
        Some(arg) => Some(*arg),
        None => None,
    }
}

/// The value that an argument is.
pub(crate) fn value_in(arg: &Arg) -> Option<&Expr>
    ensures { option_map (λ e. view_expr e.now) result ≡ Pieces.value_in (view_arg arg.now) }
{
    match arg {
        Arg::Value(value) => Some(value),
        _ => None,
    }
}

/// The place that an argument is.
fn place_in(arg: &Arg) -> Option<&TreePlace>
    ensures { option_map (λ p. view_place p.now) result ≡ Pieces.place_in (view_arg arg.now) }
{
    match arg {
        Arg::Place(place) => Some(place),
        _ => None,
    }
}

/// The signal that an argument is.
fn signal_in(arg: &Arg) -> Option<u32>
    ensures { result ≡ Pieces.signal_in (view_arg arg.now) }
{
    match arg {
        Arg::Signal(signal) => Some(*signal),
        _ => None,
    }
}

/// The meeting that an argument is.
fn meeting_in(arg: &Arg) -> Option<u32>
    ensures { result ≡ Pieces.meeting_in (view_arg arg.now) }
{
    match arg {
        Arg::Meeting(meeting) => Some(*meeting),
        _ => None,
    }
}
