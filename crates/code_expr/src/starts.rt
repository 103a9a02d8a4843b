//! Where the data of each row of a task's modules and of a routine begin.

ghost use Rattle.std.specs.Prelude.{◌≡◌, ℕ, [], ◌∷◌, ◌++◌, List, map, replicate, sum, take, IfOk, OnOk};
ghost use Rattle.rapid_model.specs.Sorts.{width as width_of};
ghost use Rattle.rapid_meaning.specs.Layouts.{local_widths, slot_widths};
ghost use Rattle.typed_trees.specs.Views.{view_routine, view_tree};
ghost use Rattle.code_expr.specs.Starts.{AreStarts};

use crate::numbers::{count_of, sum};
use rapid_model::width;
use std::alloc::{AllocError, Global};
use typed_trees::{Routine, Tree};

/// The end of no rows, 0. Fails only if an allocation fails.
fn no_rows(alloc: Global) -> Result<Vec<u32>, AllocError>
    ensures { IfOk result (λ starts. AreStarts starts.items []) }
{
    let mut starts = Vec::new(alloc);
    starts.push(0)?;
    Ok(starts)
}

/// Appends a row of `width` data. Fails only if an allocation fails or there are 2^32 data or more.
fn add_row(starts: &mut Vec<u32>, width: usize) -> Result<(), AllocError>
    ensures { OnOk result ((widths : List ℕ) → AreStarts starts.old.items widths → AreStarts starts.new.items (widths ++ width ∷ [])) }
{
    let end = start_in(starts, starts.len());
    let past = sum(end, count_of(width)?)?;
    starts.push(past)?;
    Ok(())
}

/// Where a row begins; after the last one, the end of all.
pub(crate) fn start_in(starts: &[u32], row: usize) -> u32
    ensures { (widths : List ℕ) → AreStarts starts.now widths → result ≡ sum (take row widths) }
{
    match (starts.get(row), starts.last()) {
        (Some(start), _) => *start,
        (None, Some(end)) => *end,
        (None, None) => 0,
    }
}

/// Where the data of the modules begin, and the end of all. Fails only if an allocation fails or there are 2^32 data or
/// more.
pub fn slot_starts(alloc: Global, tree: &Tree) -> Result<Vec<u32>, AllocError>
    ensures { IfOk result (λ starts. AreStarts starts.items (slot_widths (view_tree tree.now))) }
{
    let mut starts = no_rows(alloc)?;
    for slot in &tree.slots {
        add_row(&mut starts, width(slot.len))?;
    }
    Ok(starts)
}

/// Where the parameters, data and FORs of a routine begin, and the end of all. A FOR has three data. Fails only if an
/// allocation fails or there are 2^32 data or more.
pub fn local_starts(alloc: Global, routine: &Routine) -> Result<Vec<u32>, AllocError>
    ensures { IfOk result (λ starts. AreStarts starts.items (local_widths (view_routine routine.now))) }
{
    let mut starts = no_rows(alloc)?;
    add_rows(&mut starts, routine.params.len(), 1)?;
    add_locals(&mut starts, routine)?;
    add_rows(&mut starts, routine.loops as usize, 3)?;
    Ok(starts)
}

/// Appends `count` rows of `width` data each. Fails as `add_row` does.
fn add_rows(starts: &mut Vec<u32>, count: usize, width: usize) -> Result<(), AllocError>
    ensures { OnOk result ((widths : List ℕ) → AreStarts starts.old.items widths → AreStarts starts.new.items (widths ++ replicate count width)) }
{
    for _row in 0..count {
        add_row(starts, width)?;
    }
    Ok(())
}

/// Appends a row for each datum that a routine declares. Fails as `add_row` does.
fn add_locals(starts: &mut Vec<u32>, routine: &Routine) -> Result<(), AllocError>
    ensures { OnOk result ((widths : List ℕ) → AreStarts starts.old.items widths → AreStarts starts.new.items (widths ++ map (λ row. width_of row.len) (view_routine routine.now).locals)) }
{
    for local in &routine.locals {
        add_row(starts, width(local.len))?;
    }
    Ok(())
}
