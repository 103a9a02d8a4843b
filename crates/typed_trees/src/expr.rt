//! Expressions and places of a checked task.

ghost use Rattle.std.specs.Prelude.{◌≡◌, IfOk, map, option_map};
ghost use Rattle.typed_trees.specs.Plain;
ghost use Rattle.typed_trees.specs.Plain.{args_of, exprs_of, held_of, steps_of};
ghost use Rattle.typed_trees.specs.Views.{view_arg, view_expr, view_place, view_step};

use rapid_model::{Function, NameText, Operator, PartName, Predefined, Sort, Value};
use rapid_num::Num;
use std::alloc::{AllocError, Global};

/// An expression, the byte at which it starts, counted from 0, and its type (RAPID Kernel, expressions).
#[derive(Drop)]
#[cycle(typed_expr)]
pub struct Expr {
    pub at: usize,
    pub sort: Sort,
    pub form: ExprForm,
}

/// The form of an expression. Operators of one level, from left to right, form one chain, whose `rest` is never empty.
#[derive(Drop)]
#[cycle(typed_expr)]
pub enum ExprForm {
    /// A num known before the run.
    Number(Num),
    /// Any other value known before the run: a literal, a constant other than an array, or a predefined datum; for the
    /// latter two, the part that is named.
    Const(Box<Value>),
    /// ERRNO.
    Errno,
    /// The value, 0 or 1, of a signal, by its number in the script.
    Signal(u32),
    /// The value at a place.
    Place(TreePlace),
    /// An expression in parentheses.
    Group(Box<Expr>),
    /// Values in brackets, in the order of the type's components or of an array's elements.
    Aggregate(Vec<Expr>),
    /// A call of a predefined function.
    Builtin {
        function: Function,
        args: Vec<Arg>,
    },
    /// A call of a function of the task, by its number among the tree's routines.
    Call {
        routine: u32,
        args: Vec<Arg>,
    },
    Not(Box<Expr>),
    /// A leading sign, which applies only to the first term.
    Signed {
        minus: bool,
        operand: Box<Expr>,
    },
    Chain {
        first: Box<Expr>,
        rest: Vec<(Operator, Expr)>,
    },
}

/// An argument of a call.
#[derive(Drop)]
#[cycle(typed_expr)]
pub enum Arg {
    /// A value.
    Value(Expr),
    /// A place, passed by reference.
    Place(TreePlace),
    /// A signal, by its number in the script.
    Signal(u32),
    /// A meeting, by its number among the tree's meetings.
    Meeting(u32),
    /// A predefined name that stands for itself: `fine`, `tool0`, `wobj0`.
    Known(Predefined),
    /// An option and its argument, if any.
    Option {
        name: NameText,
        value: Option<Box<Arg>>,
    },
}

/// What a place is a part of: a module's datum, a parameter or datum of the routine, what a reference parameter refers
/// to, or a persistent; each by its number.
#[derive(Clone, Copy, Debug, PartialEq, Eq)]
pub enum TreeRoot {
    Slot(u32),
    Local(u32),
    Ref(u32),
    Pers(u32),
}

/// A part of a datum, or of an element of an array, and its type.
#[derive(Drop)]
#[cycle(typed_expr)]
pub struct TreePlace {
    pub root: TreeRoot,
    pub index: Option<Box<Expr>>,
    pub part: PartName,
    pub sort: Sort,
}

impl Expr {
    /// A value known before the run. Fails only if an allocation fails.
    pub fn constant(alloc: Global, at: usize, sort: Sort, value: Value) -> Result<Expr, AllocError>
        ensures { IfOk result (λ e. view_expr e ≡ Plain.Known at sort value) }
    {
        let form = match value {
            Value::Num(number) => ExprForm::Number(number),
            other => ExprForm::Const(Box::new(alloc, other)?),
        };
        Ok(Expr { at, sort, form })
    }

    /// The number of the last error of the task.
    pub fn errno(at: usize, sort: Sort) -> Expr
        ensures { view_expr result ≡ Plain.ErrorNumber at sort }
    {
        let form = ExprForm::Errno;
        Expr { at, sort, form }
    }

    /// The value of a signal, by its number in the script.
    pub fn signal(at: usize, sort: Sort, signal: u32) -> Expr
        ensures { view_expr result ≡ Plain.SignalValue at sort signal }
    {
        let form = ExprForm::Signal(signal);
        Expr { at, sort, form }
    }

    /// The value at a place.
    pub fn place(at: usize, sort: Sort, place: TreePlace) -> Expr
        ensures { view_expr result ≡ Plain.Stored at sort (view_place place) }
    {
        let form = ExprForm::Place(place);
        Expr { at, sort, form }
    }

    /// An expression in parentheses. Fails only if an allocation fails.
    pub fn group(alloc: Global, at: usize, sort: Sort, value: Expr) -> Result<Expr, AllocError>
        ensures { IfOk result (λ e. view_expr e ≡ Plain.Group at sort (view_expr value)) }
    {
        let form = ExprForm::Group(Box::new(alloc, value)?);
        Ok(Expr { at, sort, form })
    }

    /// Values in brackets.
    pub fn aggregate(at: usize, sort: Sort, values: Vec<Expr>) -> Expr
        ensures { view_expr result ≡ Plain.Aggregate at sort (exprs_of (map view_expr values.items)) }
    {
        let form = ExprForm::Aggregate(values);
        Expr { at, sort, form }
    }

    /// A call of a predefined function.
    pub fn builtin(at: usize, sort: Sort, function: Function, args: Vec<Arg>) -> Expr
        ensures { view_expr result ≡ Plain.Builtin at sort function (args_of (map view_arg args.items)) }
    {
        let form = ExprForm::Builtin { function, args };
        Expr { at, sort, form }
    }

    /// A call of a function of the task, by its number among the tree's routines.
    pub fn invoke(at: usize, sort: Sort, routine: u32, args: Vec<Arg>) -> Expr
        ensures { view_expr result ≡ Plain.Invoke at sort routine (args_of (map view_arg args.items)) }
    {
        let form = ExprForm::Call { routine, args };
        Expr { at, sort, form }
    }

    /// NOT and its operand. Fails only if an allocation fails.
    pub fn not(alloc: Global, at: usize, sort: Sort, value: Expr) -> Result<Expr, AllocError>
        ensures { IfOk result (λ e. view_expr e ≡ Plain.Not at sort (view_expr value)) }
    {
        let form = ExprForm::Not(Box::new(alloc, value)?);
        Ok(Expr { at, sort, form })
    }

    /// A leading sign, minus or plus, and its operand. Fails only if an allocation fails.
    pub fn signed(
        alloc: Global,
        at: usize,
        sort: Sort,
        minus: bool,
        operand: Expr,
    ) -> Result<Expr, AllocError>
        ensures { IfOk result (λ e. view_expr e ≡ Plain.Signed at sort minus (view_expr operand)) }
    {
        let operand = Box::new(alloc, operand)?;
        let form = ExprForm::Signed { minus, operand };
        Ok(Expr { at, sort, form })
    }

    /// Operators of one level and their operands, from left to right. Fails only if an allocation fails.
    pub fn chain(
        alloc: Global,
        at: usize,
        sort: Sort,
        first: Expr,
        rest: Vec<(Operator, Expr)>,
    ) -> Result<Expr, AllocError>
        ensures { IfOk result (λ e. view_expr e ≡ Plain.Chain at sort (view_expr first) (steps_of (map view_step rest.items))) }
    {
        let first = Box::new(alloc, first)?;
        let form = ExprForm::Chain { first, rest };
        Ok(Expr { at, sort, form })
    }
}

impl Arg {
    /// An option without an argument.
    pub fn option(name: NameText) -> Arg
        ensures { view_arg result ≡ Plain.Optional name Plain.NoArgument }
    {
        Arg::Option { name, value: None }
    }

    /// An option and its argument. Fails only if an allocation fails.
    pub fn option_with(alloc: Global, name: NameText, value: Arg) -> Result<Arg, AllocError>
        ensures { IfOk result (λ a. view_arg a ≡ Plain.Optional name (Plain.Argument (view_arg value))) }
    {
        let value = Some(Box::new(alloc, value)?);
        Ok(Arg::Option { name, value })
    }
}

impl TreePlace {
    /// A part of what the root names, or of the element that `index` selects. Fails only if an allocation fails.
    pub fn new(
        alloc: Global,
        root: TreeRoot,
        index: Option<Expr>,
        part: PartName,
        sort: Sort,
    ) -> Result<TreePlace, AllocError>
        ensures { IfOk result (λ p. view_place p ≡ Plain.PlaceOf root (held_of (option_map view_expr index)) part sort) }
    {
        let index = match index {
            Some(value) => Some(Box::new(alloc, value)?),
            None => None,
        };
        Ok(TreePlace {
            root,
            index,
            part,
            sort,
        })
    }
}
