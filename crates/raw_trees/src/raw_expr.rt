//! Expressions as spelled in a module.

ghost use Rattle.std.specs.Prelude.{◌≡◌, IfOk, map, option_map};
ghost use Rattle.raw_trees.specs.Plain;
ghost use Rattle.raw_trees.specs.Plain.{args_of, exprs_of, held_of, steps_of};
ghost use Rattle.raw_trees.specs.Views.{view_arg, view_expr, view_name, view_place, view_step};

use crate::raw_name::RawName;
use rapid_model::Operator;
use std::alloc::{AllocError, Global};

/// An expression and the byte where it starts, from 0 (RAPID Kernel, expressions).
#[derive(Drop)]
#[cycle(raw_expr)]
pub struct RawExpr<'a> {
    pub at: usize,
    pub form: RawExprForm<'a>,
}

impl<'a> RawExpr<'a> {
    /// A numerical literal, as spelled.
    pub fn number(at: usize, text: &'a [u8]) -> RawExpr<'a>
        ensures { view_expr result ≡ Plain.Number at text.now }
    {
        RawExpr {
            at,
            form: RawExprForm::Number(text),
        }
    }

    /// A string with its quotes, as spelled.
    pub fn text(at: usize, text: &'a [u8]) -> RawExpr<'a>
        ensures { view_expr result ≡ Plain.Quoted at text.now }
    {
        RawExpr {
            at,
            form: RawExprForm::Text(text),
        }
    }

    /// TRUE or FALSE.
    pub fn truth(at: usize, value: bool) -> RawExpr<'a>
        ensures { view_expr result ≡ Plain.Truth at value }
    {
        RawExpr {
            at,
            form: RawExprForm::Bool(value),
        }
    }

    /// An expression in parentheses. Fails only if an allocation fails.
    pub fn group(alloc: Global, at: usize, value: RawExpr<'a>) -> Result<RawExpr<'a>, AllocError>
        ensures { IfOk result (λ e. view_expr e ≡ Plain.Group at (view_expr value.entry)) }
    {
        let form = RawExprForm::Group(Box::new(alloc, value)?);
        Ok(RawExpr { at, form })
    }

    /// Values in brackets.
    pub fn aggregate(at: usize, values: Vec<RawExpr<'a>>) -> RawExpr<'a>
        ensures { view_expr result ≡ Plain.Aggregate at (exprs_of (map view_expr values.entry.items)) }
    {
        RawExpr {
            at,
            form: RawExprForm::Aggregate(values),
        }
    }

    /// A function call.
    pub fn invoke(at: usize, name: RawName<'a>, args: Vec<RawArg<'a>>) -> RawExpr<'a>
        ensures { view_expr result ≡ Plain.Invoke at (view_name name.entry) (args_of (map view_arg args.entry.items)) }
    {
        RawExpr {
            at,
            form: RawExprForm::Call { name, args },
        }
    }

    /// The value of a datum, an element or a component.
    pub fn place(at: usize, place: RawPlace<'a>) -> RawExpr<'a>
        ensures { view_expr result ≡ Plain.Place at (view_place place.entry) }
    {
        RawExpr {
            at,
            form: RawExprForm::Place(place),
        }
    }

    /// NOT and its operand. Fails only if an allocation fails.
    pub fn not(alloc: Global, at: usize, value: RawExpr<'a>) -> Result<RawExpr<'a>, AllocError>
        ensures { IfOk result (λ e. view_expr e ≡ Plain.Not at (view_expr value.entry)) }
    {
        let form = RawExprForm::Not(Box::new(alloc, value)?);
        Ok(RawExpr { at, form })
    }

    /// A leading sign, minus or plus, and its operand. Fails only if an allocation fails.
    pub fn signed(
        alloc: Global,
        at: usize,
        minus: bool,
        operand: RawExpr<'a>,
    ) -> Result<RawExpr<'a>, AllocError>
        ensures { IfOk result (λ e. view_expr e ≡ Plain.Signed at minus (view_expr operand.entry)) }
    {
        let operand = Box::new(alloc, operand)?;
        Ok(RawExpr {
            at,
            form: RawExprForm::Signed { minus, operand },
        })
    }

    /// Operators of one level and their operands, from left to right. Fails only if an allocation fails.
    pub fn chain(
        alloc: Global,
        at: usize,
        first: RawExpr<'a>,
        rest: Vec<(Operator, RawExpr<'a>)>,
    ) -> Result<RawExpr<'a>, AllocError>
        ensures { IfOk result (λ e. view_expr e ≡ Plain.Chain at (view_expr first.entry) (steps_of (map view_step rest.entry.items))) }
    {
        let first = Box::new(alloc, first)?;
        Ok(RawExpr {
            at,
            form: RawExprForm::Chain { first, rest },
        })
    }
}

/// The forms of an expression. Operators of one level, from left to right, are one chain, whose `rest` is never empty.
#[derive(Drop)]
#[cycle(raw_expr)]
pub enum RawExprForm<'a> {
    /// A numerical literal, as spelled.
    Number(&'a [u8]),
    /// A string with its quotes, as spelled.
    Text(&'a [u8]),
    Bool(bool),
    /// An expression in parentheses.
    Group(Box<RawExpr<'a>>),
    /// Values in brackets.
    Aggregate(Vec<RawExpr<'a>>),
    /// A function call.
    Call {
        name: RawName<'a>,
        args: Vec<RawArg<'a>>,
    },
    Place(RawPlace<'a>),
    Not(Box<RawExpr<'a>>),
    /// A leading sign, which applies only to the first term.
    Signed {
        minus: bool,
        operand: Box<RawExpr<'a>>,
    },
    Chain {
        first: Box<RawExpr<'a>>,
        rest: Vec<(Operator, RawExpr<'a>)>,
    },
}

/// An argument of a call: a value, or an option with its own value.
#[derive(Drop)]
#[cycle(raw_expr)]
pub enum RawArg<'a> {
    Needed(RawExpr<'a>),
    /// `at` is the byte of the backslash.
    Option {
        name: RawName<'a>,
        value: Option<RawExpr<'a>>,
        at: usize,
    },
}

impl<'a> RawArg<'a> {
    /// The value for a required parameter.
    pub fn needed(value: RawExpr<'a>) -> RawArg<'a>
        ensures { view_arg result ≡ Plain.Needed (view_expr value.entry) }
    {
        RawArg::Needed(value)
    }

    /// An option, whose backslash is at `at`.
    pub fn option(at: usize, name: RawName<'a>, value: Option<RawExpr<'a>>) -> RawArg<'a>
        ensures { view_arg result ≡ Plain.Optional (view_name name.entry) (held_of (option_map view_expr value.entry)) at }
    {
        RawArg::Option { name, value, at }
    }
}

/// A datum, an element of an array, or a component of one of them.
#[derive(Drop)]
#[cycle(raw_expr)]
pub struct RawPlace<'a> {
    pub name: RawName<'a>,
    pub index: Option<Box<RawExpr<'a>>>,
    pub parts: Vec<RawName<'a>>,
}

impl<'a> RawPlace<'a> {
    /// A datum by name, or its element at `index`, or the component at the path `parts` from there. Fails only if an
    /// allocation fails.
    pub fn new(
        alloc: Global,
        name: RawName<'a>,
        index: Option<RawExpr<'a>>,
        parts: Vec<RawName<'a>>,
    ) -> Result<RawPlace<'a>, AllocError>
        ensures { IfOk result (λ p. view_place p ≡ Plain.PlaceOf (view_name name.entry) (held_of (option_map view_expr index.entry)) (map view_name parts.entry.items)) }
    {
        let index = match index {
            Some(value) => Some(Box::new(alloc, value)?),
            None => None,
        };
        Ok(RawPlace { name, index, parts })
    }
}
