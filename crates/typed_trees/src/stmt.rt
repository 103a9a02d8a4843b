//! Statements of a checked task.

ghost use Rattle.std.specs.Prelude.{◌≡◌, IfOk, map, option_map};
ghost use Rattle.typed_trees.specs.Plain;
ghost use Rattle.typed_trees.specs.Plain.{args_of, arms_of, cases_of, else_of, stmts_of};
ghost use Rattle.typed_trees.specs.Views.{view_arg, view_arm, view_case, view_expr, view_list, view_place, view_stmt};

use crate::bounds::Bounds;
use crate::expr::{Arg, Expr, TreePlace};
use rapid_model::Instruction;
use std::alloc::{AllocError, Global};

/// A statement and the byte at which it starts, counted from 0 (RAPID Kernel, statements).
#[derive(Drop)]
#[cycle(typed_stmt)]
pub struct Stmt {
    pub at: usize,
    pub form: Form,
}

/// The form of a statement. A routine is given by its number in the tree, a label by its number in text order in its
/// routine, and the variable of a FOR by its place among the routine's parameters, data and FORs.
#[derive(Drop)]
#[cycle(typed_stmt)]
pub enum Form {
    Assign {
        place: TreePlace,
        value: Expr,
    },
    Instruct {
        instruction: Instruction,
        args: Vec<Arg>,
    },
    Call {
        routine: u32,
        args: Vec<Arg>,
    },
    Label(u32),
    Goto(u32),
    Return(Option<Expr>),
    Exit,
    Raise(Option<Expr>),
    Retry,
    TryNext,
    Connect {
        place: TreePlace,
        trap: u32,
    },
    /// IF and each ELSEIF with its list, and ELSE.
    If {
        arms: Vec<(Expr, Vec<Stmt>)>,
        other: Option<Vec<Stmt>>,
    },
    /// An IF without THEN.
    IfOne {
        test: Expr,
        then: Box<Stmt>,
    },
    For {
        local: u32,
        bounds: Box<Bounds>,
        list: Vec<Stmt>,
    },
    While {
        test: Expr,
        list: Vec<Stmt>,
    },
    /// Each CASE with its values and its list, and DEFAULT.
    Test {
        value: Expr,
        cases: Vec<(Vec<Expr>, Vec<Stmt>)>,
        other: Option<Vec<Stmt>>,
    },
}

impl Stmt {
    /// An assignment of a value to a place.
    pub fn assign(at: usize, place: TreePlace, value: Expr) -> Stmt
        ensures { view_stmt result ≡ Plain.Assign at (view_place place) (view_expr value) }
    {
        let form = Form::Assign { place, value };
        Stmt { at, form }
    }

    /// An instruction of the profile.
    pub fn instruct(at: usize, instruction: Instruction, args: Vec<Arg>) -> Stmt
        ensures { view_stmt result ≡ Plain.Instruct at instruction (args_of (map view_arg args.items)) }
    {
        let form = Form::Instruct { instruction, args };
        Stmt { at, form }
    }

    /// A call of a procedure, by its number among the tree's routines.
    pub fn call(at: usize, routine: u32, args: Vec<Arg>) -> Stmt
        ensures { view_stmt result ≡ Plain.Call at routine (args_of (map view_arg args.items)) }
    {
        let form = Form::Call { routine, args };
        Stmt { at, form }
    }

    /// A label.
    pub fn label(at: usize, label: u32) -> Stmt
        ensures { view_stmt result ≡ Plain.Label at label }
    {
        let form = Form::Label(label);
        Stmt { at, form }
    }

    /// GOTO, to a label.
    pub fn goto(at: usize, label: u32) -> Stmt
        ensures { view_stmt result ≡ Plain.Goto at label }
    {
        let form = Form::Goto(label);
        Stmt { at, form }
    }

    /// RETURN, with a function's result or none.
    pub fn returns(at: usize, value: Option<Expr>) -> Stmt
        ensures { view_stmt result ≡ Plain.Return at (option_map view_expr value) }
    {
        let form = Form::Return(value);
        Stmt { at, form }
    }

    /// EXIT, the end of the task.
    pub fn exit(at: usize) -> Stmt
        ensures { view_stmt result ≡ Plain.Exit at }
    {
        let form = Form::Exit;
        Stmt { at, form }
    }

    /// RAISE, with an error number or none.
    pub fn raise(at: usize, number: Option<Expr>) -> Stmt
        ensures { view_stmt result ≡ Plain.Raise at (option_map view_expr number) }
    {
        let form = Form::Raise(number);
        Stmt { at, form }
    }

    /// RETRY.
    pub fn retry(at: usize) -> Stmt
        ensures { view_stmt result ≡ Plain.Retry at }
    {
        let form = Form::Retry;
        Stmt { at, form }
    }

    /// TRYNEXT.
    pub fn try_next(at: usize) -> Stmt
        ensures { view_stmt result ≡ Plain.TryNext at }
    {
        let form = Form::TryNext;
        Stmt { at, form }
    }

    /// CONNECT of the interrupt at a place with a trap.
    pub fn connect(at: usize, place: TreePlace, trap: u32) -> Stmt
        ensures { view_stmt result ≡ Plain.Connect at (view_place place) trap }
    {
        let form = Form::Connect { place, trap };
        Stmt { at, form }
    }

    /// IF with its ELSEIFs and ELSE.
    pub fn branch(at: usize, arms: Vec<(Expr, Vec<Stmt>)>, other: Option<Vec<Stmt>>) -> Stmt
        ensures { view_stmt result ≡ Plain.If at (arms_of (map view_arm arms.items)) (else_of (option_map view_list other)) }
    {
        let form = Form::If { arms, other };
        Stmt { at, form }
    }

    /// IF without THEN. Fails only if an allocation fails.
    pub fn branch_one(alloc: Global, at: usize, test: Expr, then: Stmt) -> Result<Stmt, AllocError>
        ensures { IfOk result (λ s. view_stmt s ≡ Plain.IfOne at (view_expr test) (view_stmt then)) }
    {
        let then = Box::new(alloc, then)?;
        let form = Form::IfOne { test, then };
        Ok(Stmt { at, form })
    }

    /// WHILE.
    pub fn repeat(at: usize, test: Expr, list: Vec<Stmt>) -> Stmt
        ensures { view_stmt result ≡ Plain.While at (view_expr test) (stmts_of (view_list list)) }
    {
        let form = Form::While { test, list };
        Stmt { at, form }
    }

    /// FOR, with its variable at this place of the routine. Fails only if an allocation fails.
    pub fn count(
        alloc: Global,
        at: usize,
        local: u32,
        bounds: Bounds,
        list: Vec<Stmt>,
    ) -> Result<Stmt, AllocError>
        ensures { IfOk result (λ s. let b = bounds in view_stmt s ≡ Plain.For at local (view_expr b.first) (view_expr b.last) (option_map view_expr b.step) (stmts_of (view_list list))) }
    {
        let bounds = Box::new(alloc, bounds)?;
        let form = Form::For {
            local,
            bounds,
            list,
        };
        Ok(Stmt { at, form })
    }

    /// TEST with its CASEs and DEFAULT.
    pub fn test(
        at: usize,
        value: Expr,
        cases: Vec<(Vec<Expr>, Vec<Stmt>)>,
        other: Option<Vec<Stmt>>,
    ) -> Stmt
        ensures { view_stmt result ≡ Plain.Test at (view_expr value) (cases_of (map view_case cases.items)) (else_of (option_map view_list other)) }
    {
        let form = Form::Test {
            value,
            cases,
            other,
        };
        Stmt { at, form }
    }
}
