//! Appending what was written to the code and its marks.

ghost use Rattle.std.specs.Prelude.{◌≡◌, ◌+◌, ◌≤◌, [], ◌∷◌, ◌++◌, vec_capacity, vec_len, IfOk, OnOk, OnErr};
ghost use Rattle.code_stmt.specs.Marked.{Kept, front_of, last_of};

use crate::written::Written;
use stack_code::{Marks, Op, Owner};
use std::alloc::{AllocError, Global};

/// A copy of the last row, if there is one. Fails only if an allocation fails.
pub(crate) fn last_row(alloc: Global, owners: &[Owner]) -> Result<Vec<Owner>, AllocError>
    ensures { IfOk result (λ last. last.items ≡ last_of owners.now) }
{
    let mut last = Vec::new(alloc);
    match owners.last() {
        Some(row) => last.push(*row)?,
        None => {}
    }
    Ok(last)
}

/// Appends what was written, and the place of an ERROR part. Its rows begin with the last row of the marks, which they
/// replace. Fails only if an allocation fails; code and marks are then unchanged.
pub(crate) fn commit(
    code: &mut Vec<Op>,
    marks: &mut Marks,
    out: Written,
    handler: Option<u32>,
) -> Result<(), AllocError>
    ensures code { OnOk result (code.new.items ≡ code.old.items ++ out.code.ops.items) }
    ensures owners { OnOk result (marks.new.owners.items ≡ front_of marks.old.owners.items ++ out.owners.items) }
    ensures handlers { OnOk result (marks.new.handlers.items ≡ marks.old.handlers.items ++ handler ∷ []) }
    ensures kept { OnErr result (Kept code.old.items code.new.items marks.old marks.new) }
{
    let Written {
        code: block,
        owners: rows,
    } = out;
    let mut ops = block.ops;
    let mut rows = rows;
    code.reserve(ops.len())?;
    marks.owners.reserve(rows.len())?;
    marks.handlers.reserve(1)?;
    drop_last(&mut marks.owners);
    append_reserved(code, &mut ops);
    append_reserved(&mut marks.owners, &mut rows);
    marks.handlers.push_reserved(handler);
    Ok(())
}

/// Drops the last row, if there is one.
fn drop_last(owners: &mut Vec<Owner>)
    ensures items { owners.new.items ≡ front_of owners.old.items }
    ensures shorter { vec_len owners.new ≤ vec_len owners.old }
    ensures capacity { vec_capacity owners.new ≡ vec_capacity owners.old }
{
    let _last = owners.pop();
}

/// Appends a list for which there is room.
fn append_reserved<T>(to: &mut Vec<T>, more: &mut Vec<T>)
    requires { vec_len to.old + vec_len more.old ≤ vec_capacity to.old }
    ensures { to.new.items ≡ to.old.items ++ more.old.items }
{
    match to.append(more) {
        Ok(()) => {}
        Err(_) => unreachable!(),
    }
}
