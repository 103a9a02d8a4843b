ghost use Rattle.std.specs.Prelude.{◌≡◌, ◌-◌, ◌+◌, ◌<◌, ◌≤◌, ◌∷◌, length, reverse, take, drop, slice_get, Some, IfOk, IfErr};
ghost use Rattle.rapid_meaning.specs.Data.{values_in};
ghost use Rattle.stack_code.specs.Entering.{frame_in};
ghost use Rattle.stack_code.specs.Placed.{owner_at};

use crate::operands::first_counts::{copied, count_from};
use crate::routines::living::keep_code;
use crate::routines::owners::owner_numbers;
use machine_stacks::{Frames, Operands, RunStart, starts_of};
use stack_code::{FirstRun, Owner, RoutineRow};
use std::alloc::Global;
use std::marker::Model;
use task_code::Code;

/// Code that a task can run, with an index of where each routine's first values begin among the runs, so that a call
/// takes time proportional to the values of its routine, and with the number of each operation's owner, so that a Look
/// searches nothing. Contracts see the code.
#[derive(Drop)]
pub struct LoadedCode {
    pub(crate) code: Code,
    pub(crate) runs: Vec<FirstRun>,
    pub(crate) starts: Vec<RunStart>,
    pub(crate) owners: Vec<u32>,
}

impl Model for LoadedCode {
    ghost use Rattle.stack_code.specs.CodeData.{CodeData};
    ghost use Rattle.task_steps.specs.Loading.{IsLoaded};

    ghost Value = { CodeData };

    ghost view = { λ l. l.code };

    ghost invariant = { λ l. IsLoaded l.code l.runs.items l.starts.items l.owners.items };
}

impl LoadedCode {
    /// Code that is ready to run. Returns the code if an allocation fails.
    pub fn new(alloc: Global, code: Code) -> Result<LoadedCode, Code>
        ensures loaded { IfOk result (λ l. l ≡ code) }
        ensures back { IfErr result (λ back. back ≡ code) }
    {
        let Ok(runs) = copied(alloc, code.firsts()) else {
            return Err(code);
        };
        let Ok(starts) = starts_of(alloc, code.routines(), &runs) else {
            return Err(code);
        };
        keep_code(&code);
        let Ok(owners) = owner_numbers(alloc, &code.marks().owners, code.ops().len() as u32) else {
            return Err(code);
        };
        Ok(LoadedCode {
            code,
            runs,
            starts,
            owners,
        })
    }

    /// The code.
    pub fn code(&self) -> &Code
        ensures { result.now ≡ self.now }
    {
        &self.code
    }

    /// The code, taken out.
    pub fn into_code(self) -> Code
        ensures { result ≡ self }
    {
        self.code
    }

    /// The owner of an operation.
    pub(crate) fn owner(&self, pc: u32) -> &Owner
        requires { pc < length self.now.ops }
        ensures { owner_at self.now.owners pc ≡ Some result.now }
    {
        let number = self.owners[pc as usize];
        &self.code.marks().owners[number as usize]
    }

    /// The number of first values that a routine has after its arguments.
    pub(crate) fn own_values(&self, routine: u32, row: RoutineRow) -> usize
        requires { slice_get self.now.routines routine ≡ Some row }
        ensures count { result ≡ length (take (row.values - row.args) (drop row.first self.now.firsts)) }
        ensures few { result ≤ row.values - row.args }
    {
        let start = self.starts[routine as usize];
        let most = row.values.saturating_sub(row.args) as usize;
        count_from(&self.runs, start, most)
    }

    /// Begins a routine: its frame has the operands on top as its arguments, and its first values after them. Does not
    /// allocate; takes time proportional to the values.
    pub(crate) fn enter(
        &self,
        routine: u32,
        row: RoutineRow,
        args: u16,
        frames: &mut Frames,
        operands: &mut Operands,
    )
        requires row { slice_get self.now.routines routine ≡ Some row }
        requires args { args ≤ length operands.old.top }
        requires depth { length frames.old.frames < frames.old.depth }
        requires room { let frame = frame_in self.now row (reverse (take args operands.old.top)) in values_in frames.old.frames + length frame.values ≤ frames.old.room }
        ensures popped { operands.new ≡ record operands.old { top = drop args operands.old.top } }
        ensures entered { let frame = frame_in self.now row (reverse (take args operands.old.top)) in frames.new ≡ record frames.old { frames = frame ∷ frames.old.frames } }
    {
        let start = self.starts[routine as usize];
        let own = row.values.saturating_sub(row.args) as usize;
        frames.enter(operands, args as usize, &self.runs, start, own);
    }
}
