//! The values of a CASE, each compared with a copy of the value tested (RAPID Kernel, TEST). Each fails only if an
//! allocation fails or there are 2^32 operations or more.

ghost use Rattle.std.specs.Prelude.{◌≡◌, IfOk, OnOk, map};
ghost use Rattle.stack_code.specs.Needs;
ghost use Rattle.stack_code.specs.Placed.{Own};
ghost use Rattle.stack_code.specs.Sizes;
ghost use Rattle.stack_code.specs.StmtLayouts.{values_code};
ghost use Rattle.typed_trees.specs.Plain.{exprs_of};
ghost use Rattle.typed_trees.specs.Views.{view_expr};
ghost use Rattle.code_expr.specs.Adds.{Adds};
ghost use Rattle.code_expr.specs.Contexts.{routine_of, tree_of};

use code_expr::{Block, Context, add_expr, expr_need, expr_size, more, sum};
use rapid_model::Operator;
use stack_code::Op;
use std::alloc::AllocError;
use typed_trees::Expr;

/// The number of operations of the values.
pub(crate) fn values_size(values: &Vec<Expr>) -> Result<u32, AllocError>
    ensures { IfOk result (λ size. size ≡ Sizes.values_size (exprs_of (map view_expr values.now.items))) }
{
    let mut size = 0;
    for value in values {
        size = sum(size, sum(expr_size(value)?, 3)?)?;
    }
    Ok(size)
}

/// The operands that the values need, the value tested included.
pub(crate) fn values_need(values: &Vec<Expr>) -> Result<u32, AllocError>
    ensures { IfOk result (λ need. need ≡ Needs.values_need (exprs_of (map view_expr values.now.items))) }
{
    let mut most = 0;
    for value in values {
        most = more(most, sum(2, expr_need(value)?)?);
    }
    Ok(more(most, 1))
}

/// Emits the values; each jumps to the list if it equals the value tested.
pub(crate) fn add_values(
    context: &Context<'_>,
    values: &Vec<Expr>,
    list: u32,
    code: &mut Block,
) -> Result<(), AllocError>
    ensures { OnOk result ((own : Own) → Adds own code.old code.new (Sizes.values_size (exprs_of (map view_expr values.now.items))) (λ pc ps. values_code (tree_of context.now) (routine_of context.now) own list pc (exprs_of (map view_expr values.now.items)) ps)) }
{
    for value in values {
        code.put(Op::Dup)?;
        add_expr(context, value, code)?;
        code.put(Op::Binary(Operator::Equal))?;
        code.put(Op::JumpTrue(list))?;
    }
    Ok(())
}
