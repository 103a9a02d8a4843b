//! The value that an option of TPWrite adds to its text (RAPID Instructions, TPWrite).

ghost use Rattle.std.specs.Prelude.{◌≡◌, [], ◌∷◌, option_map};
ghost use Rattle.stack_code.specs.Pieces;
ghost use Rattle.typed_trees.specs.Views.{view_arg, view_expr};
ghost use Rattle.code_stmt.specs.Views.{view_args};

use stack_code::TailKind;
use typed_trees::{Arg, Expr};

/// The value of the option; `None` if there is none.
pub(crate) fn tail_in<'a>(options: &[&'a Arg]) -> Option<&'a Expr>
    ensures { option_map (λ e. view_expr e.now) result ≡ Pieces.tail_in (view_args options.now) }
{
    match options {
        [] => None,
        [option] => tail_of(option),
        _ => None,
    }
}

/// The value of an option.
fn tail_of(option: &Arg) -> Option<&Expr>
    ensures { option_map (λ e. view_expr e.now) result ≡ Pieces.tail_in (view_arg option.now ∷ []) }
{
    let Arg::Option {
        name: _,
        value: Some(given),
    } = option
    else {
        return None;
    };
    let Arg::Value(value) = &**given else {
        return None;
    };
    Some(value)
}

/// What follows the text; `None` if the options have another form.
pub(crate) fn tail_kind_in(options: &[&Arg]) -> Option<TailKind>
    ensures { result ≡ Pieces.tail_kind_in (view_args options.now) }
{
    match options {
        [] => Some(TailKind::None),
        [option] => tail_kind_of(option),
        _ => None,
    }
}

/// Whether an option gives a num or a bool; `None` if it gives no value.
fn tail_kind_of(option: &Arg) -> Option<TailKind>
    ensures { result ≡ Pieces.tail_kind_in (view_arg option.now ∷ []) }
{
    let Arg::Option {
        name,
        value: Some(given),
    } = option
    else {
        return None;
    };
    let Arg::Value(_) = &**given else {
        return None;
    };
    if name.bytes() == b"Num".as_slice() {
        Some(TailKind::Num)
    } else {
        Some(TailKind::Bool)
    }
}
