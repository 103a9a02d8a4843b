//! Rows of owners.

ghost use Rattle.std.specs.Prelude.{◌≡◌, OnOk};
ghost use Rattle.stack_code.specs.Compiled.{owner_row, same_own};
ghost use Rattle.stack_code.specs.Placed.{own_of};
ghost use Rattle.code_stmt.specs.Runs.{with_row, with_run};
ghost use Rattle.code_stmt.specs.Views.{view_own};

use crate::own::Own;
use stack_code::Owner;
use std::alloc::AllocError;

/// Appends a run of operations of a statement, from `first` to before `past`; nothing if both are equal. Fails only if
/// an allocation fails.
pub(crate) fn add_run(
    owners: &mut Vec<Owner>,
    first: u32,
    past: u32,
    own: &Own,
) -> Result<(), AllocError>
    ensures { OnOk result (owners.new.items ≡ with_run owners.old.items first past (view_own own.now)) }
{
    if first == past {
        return Ok(());
    }
    add_row(owners, first, past, own)
}

/// Appends a run that is not empty: the last row grows if it is that statement's. Fails only if an allocation fails.
fn add_row(owners: &mut Vec<Owner>, first: u32, past: u32, own: &Own) -> Result<(), AllocError>
    ensures { OnOk result (owners.new.items ≡ with_row owners.old.items first past (view_own own.now)) }
{
    let count = owners.len();
    if count != 0 && is_own(&owners[count - 1], own) {
        owners[count - 1].past = past;
        return Ok(());
    }
    owners.push(row_of(first, past, own))?;
    Ok(())
}

/// The row of a run of operations of a statement.
fn row_of(first: u32, past: u32, own: &Own) -> Owner
    ensures { result ≡ owner_row first past (view_own own.now) }
{
    Owner {
        first,
        past,
        retry: own.retry,
        next: own.next,
        at: own.at,
    }
}

/// Whether a row is that statement's.
fn is_own(row: &Owner, own: &Own) -> bool
    ensures { result ≡ same_own (view_own own.now) (own_of row.now) }
{
    own.retry == row.retry
        && own.next == row.next
        && own.at.module == row.at.module
        && own.at.byte == row.at.byte
}
