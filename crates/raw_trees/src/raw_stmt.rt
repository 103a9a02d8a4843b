//! Statements as spelled in a module.

ghost use Rattle.std.specs.Prelude.{◌≡◌, IfOk, map, option_map};
ghost use Rattle.raw_trees.specs.Plain;
ghost use Rattle.raw_trees.specs.Plain.{args_of, arms_of, cases_of, else_of, stmts_of};
ghost use Rattle.raw_trees.specs.Views.{view_arg, view_arm, view_case, view_expr, view_list, view_name, view_place, view_stmt};

use crate::raw_bounds::RawBounds;
use crate::raw_expr::{RawArg, RawExpr, RawPlace};
use crate::raw_name::RawName;
use std::alloc::{AllocError, Global};

/// A statement and the byte where it starts, from 0 (RAPID Kernel, statements).
#[derive(Drop)]
#[cycle(raw_stmt)]
pub struct RawStmt<'a> {
    pub at: usize,
    pub form: RawForm<'a>,
}

impl<'a> RawStmt<'a> {
    /// An assignment of a value to a place.
    pub fn assign(at: usize, place: RawPlace<'a>, value: RawExpr<'a>) -> RawStmt<'a>
        ensures { view_stmt result ≡ Plain.Assign at (view_place place.entry) (view_expr value.entry) }
    {
        RawStmt {
            at,
            form: RawForm::Assign { place, value },
        }
    }

    /// An instruction or a procedure call.
    pub fn call(at: usize, name: RawName<'a>, args: Vec<RawArg<'a>>) -> RawStmt<'a>
        ensures { view_stmt result ≡ Plain.Call at (view_name name.entry) (args_of (map view_arg args.entry.items)) }
    {
        RawStmt {
            at,
            form: RawForm::Call { name, args },
        }
    }

    /// A label, the target of GOTO.
    pub fn label(at: usize, name: RawName<'a>) -> RawStmt<'a>
        ensures { view_stmt result ≡ Plain.Label at (view_name name.entry) }
    {
        RawStmt {
            at,
            form: RawForm::Label(name),
        }
    }

    /// GOTO a label.
    pub fn goto(at: usize, name: RawName<'a>) -> RawStmt<'a>
        ensures { view_stmt result ≡ Plain.Goto at (view_name name.entry) }
    {
        RawStmt {
            at,
            form: RawForm::Goto(name),
        }
    }

    /// RETURN, with the result if it is in a function.
    pub fn returns(at: usize, value: Option<RawExpr<'a>>) -> RawStmt<'a>
        ensures { view_stmt result ≡ Plain.Return at (option_map view_expr value.entry) }
    {
        RawStmt {
            at,
            form: RawForm::Return(value),
        }
    }

    /// EXIT, which ends the task.
    pub fn exit(at: usize) -> RawStmt<'a>
        ensures { view_stmt result ≡ Plain.Exit at }
    {
        RawStmt {
            at,
            form: RawForm::Exit,
        }
    }

    /// RAISE, with an error number or without.
    pub fn raise(at: usize, value: Option<RawExpr<'a>>) -> RawStmt<'a>
        ensures { view_stmt result ≡ Plain.Raise at (option_map view_expr value.entry) }
    {
        RawStmt {
            at,
            form: RawForm::Raise(value),
        }
    }

    /// RETRY, in an ERROR part.
    pub fn retry(at: usize) -> RawStmt<'a>
        ensures { view_stmt result ≡ Plain.Retry at }
    {
        RawStmt {
            at,
            form: RawForm::Retry,
        }
    }

    /// TRYNEXT, in an ERROR part.
    pub fn try_next(at: usize) -> RawStmt<'a>
        ensures { view_stmt result ≡ Plain.TryNext at }
    {
        RawStmt {
            at,
            form: RawForm::TryNext,
        }
    }

    /// CONNECT of an interrupt at a place WITH a trap routine.
    pub fn connect(at: usize, place: RawPlace<'a>, trap: RawName<'a>) -> RawStmt<'a>
        ensures { view_stmt result ≡ Plain.Connect at (view_place place.entry) (view_name trap.entry) }
    {
        RawStmt {
            at,
            form: RawForm::Connect { place, trap },
        }
    }

    /// IF and ELSEIF with their lists, and ELSE.
    pub fn choice(
        at: usize,
        arms: Vec<(RawExpr<'a>, Vec<RawStmt<'a>>)>,
        other: Option<Vec<RawStmt<'a>>>,
    ) -> RawStmt<'a>
        ensures { view_stmt result ≡ Plain.If at (arms_of (map view_arm arms.entry.items)) (else_of (option_map view_list other.entry)) }
    {
        RawStmt {
            at,
            form: RawForm::If { arms, other },
        }
    }

    /// IF with one simple statement. Fails only if an allocation fails.
    pub fn choice_of_one(
        alloc: Global,
        at: usize,
        test: RawExpr<'a>,
        then: RawStmt<'a>,
    ) -> Result<RawStmt<'a>, AllocError>
        ensures { IfOk result (λ s. view_stmt s ≡ Plain.IfOne at (view_expr test.entry) (view_stmt then.entry)) }
    {
        let then = Box::new(alloc, then)?;
        Ok(RawStmt {
            at,
            form: RawForm::IfOne { test, then },
        })
    }

    /// FOR, with the bounds of its variable. Fails only if an allocation fails.
    pub fn for_loop(
        alloc: Global,
        at: usize,
        name: RawName<'a>,
        bounds: RawBounds<'a>,
        list: Vec<RawStmt<'a>>,
    ) -> Result<RawStmt<'a>, AllocError>
        ensures { IfOk result (λ s. let b = bounds.entry in view_stmt s ≡ Plain.For at (view_name name.entry) (view_expr b.first) (view_expr b.last) (option_map view_expr b.step) (stmts_of (view_list list.entry))) }
    {
        let bounds = Box::new(alloc, bounds)?;
        Ok(RawStmt {
            at,
            form: RawForm::For { name, bounds, list },
        })
    }

    /// WHILE with its list.
    pub fn while_loop(at: usize, test: RawExpr<'a>, list: Vec<RawStmt<'a>>) -> RawStmt<'a>
        ensures { view_stmt result ≡ Plain.While at (view_expr test.entry) (stmts_of (view_list list.entry)) }
    {
        RawStmt {
            at,
            form: RawForm::While { test, list },
        }
    }

    /// TEST: each CASE with its values and its list, and DEFAULT.
    pub fn test(
        at: usize,
        value: RawExpr<'a>,
        cases: Vec<(Vec<RawExpr<'a>>, Vec<RawStmt<'a>>)>,
        other: Option<Vec<RawStmt<'a>>>,
    ) -> RawStmt<'a>
        ensures { view_stmt result ≡ Plain.Test at (view_expr value.entry) (cases_of (map view_case cases.entry.items)) (else_of (option_map view_list other.entry)) }
    {
        RawStmt {
            at,
            form: RawForm::Test {
                value,
                cases,
                other,
            },
        }
    }
}

/// The forms of a statement.
#[derive(Drop)]
#[cycle(raw_stmt)]
pub enum RawForm<'a> {
    Assign {
        place: RawPlace<'a>,
        value: RawExpr<'a>,
    },
    /// An instruction or a procedure call.
    Call {
        name: RawName<'a>,
        args: Vec<RawArg<'a>>,
    },
    Label(RawName<'a>),
    Goto(RawName<'a>),
    Return(Option<RawExpr<'a>>),
    Exit,
    Raise(Option<RawExpr<'a>>),
    Retry,
    TryNext,
    Connect {
        place: RawPlace<'a>,
        trap: RawName<'a>,
    },
    /// IF and ELSEIF with their lists, and ELSE.
    If {
        arms: Vec<(RawExpr<'a>, Vec<RawStmt<'a>>)>,
        other: Option<Vec<RawStmt<'a>>>,
    },
    /// IF with one simple statement.
    IfOne {
        test: RawExpr<'a>,
        then: Box<RawStmt<'a>>,
    },
    For {
        name: RawName<'a>,
        bounds: Box<RawBounds<'a>>,
        list: Vec<RawStmt<'a>>,
    },
    While {
        test: RawExpr<'a>,
        list: Vec<RawStmt<'a>>,
    },
    /// Each CASE with its values and its list, and DEFAULT.
    Test {
        value: RawExpr<'a>,
        cases: Vec<(Vec<RawExpr<'a>>, Vec<RawStmt<'a>>)>,
        other: Option<Vec<RawStmt<'a>>>,
    },
}
