ghost use Rattle.std.specs.Prelude.{◌≡◌, OnOk};
ghost use Rattle.code_expr.specs.Adds.{end_of};
ghost use Rattle.code_stmt.specs.Runs.{with_run};
ghost use Rattle.code_stmt.specs.Views.{view_own};

use crate::own::Own;
use crate::runs::add_run;
use code_expr::Block;
use stack_code::Owner;
use std::alloc::AllocError;

/// A run of operations and their owners: the rows tile the operations in order.
#[derive(Drop)]
pub(crate) struct Written {
    pub(crate) code: Block,
    pub(crate) owners: Vec<Owner>,
}

impl Written {
    /// Makes a statement the owner of the operations from `first` to the end. Fails only if an allocation fails.
    pub(crate) fn close(&mut self, first: u32, own: &Own) -> Result<(), AllocError>
        ensures code { self.new.code ≡ self.old.code }
        ensures owners { OnOk result (self.new.owners.items ≡ with_run self.old.owners.items first (end_of self.old.code) (view_own own.now)) }
    {
        let past = self.code.end()?;
        add_run(&mut self.owners, first, past, own)
    }
}
