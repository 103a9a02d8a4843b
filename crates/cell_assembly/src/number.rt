//! The numbers of persistents, meetings and tasks.

ghost use Rattle.std.specs.Prelude.{◌≡◌, ◌+◌, Ok, IfOk, IfErr};
ghost use Rattle.cell_assembly.specs.declared.cell_fault.CellFault.TheVariants.{Memory};
ghost use Rattle.cell_assembly.specs.Views.{Gives};

use crate::cell_fault::CellFault;

/// An index as a number. An index that is too large counts as out of memory.
pub(crate) fn number_of(index: usize) -> Result<u32, CellFault>
    ensures { Gives (λ number. number) result (Ok index) }
{
    match u32::try_from(index) {
        Ok(number) => Ok(number),
        Err(_) => Err(CellFault::Memory),
    }
}

/// The number of the next task.
pub(crate) fn next(task: u32) -> Result<u32, CellFault>
    ensures ok { IfOk result (λ n. n ≡ task + 1) }
    ensures err { IfErr result (λ fault. fault ≡ Memory) }
{
    match task.checked_add(1) {
        Some(n) => Ok(n),
        None => Err(CellFault::Memory),
    }
}
