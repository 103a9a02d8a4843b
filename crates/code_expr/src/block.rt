ghost use Rattle.std.specs.Prelude.{◌≡◌, ◌+◌, [], IfOk, OnOk};
ghost use Rattle.stack_code.specs.ExprLayouts.{put};
ghost use Rattle.stack_code.specs.Placed.{Own};
ghost use Rattle.code_expr.specs.Adds.{Adds, end_of};

use crate::numbers::sum;
use stack_code::Op;
use std::alloc::{AllocError, Global};

/// A run of operations, and the place of the first one in the code, counted from 0.
#[derive(Drop)]
pub struct Block {
    pub start: u32,
    pub ops: Vec<Op>,
}

impl Block {
    /// An empty block at a place.
    pub fn new(alloc: Global, start: u32) -> Block
        ensures start { result.start ≡ start }
        ensures ops { result.ops.items ≡ [] }
    {
        Block {
            start,
            ops: Vec::new(alloc),
        }
    }

    /// Appends an operation. Fails only if an allocation fails.
    pub fn put(&mut self, op: Op) -> Result<(), AllocError>
        ensures { OnOk result ((own : Own) → Adds own self.old self.new 1 (λ pc ps. put own op ps)) }
    {
        self.ops.push(op)?;
        Ok(())
    }

    /// The place of the next operation. Fails only if that is 2^32 or more.
    pub fn end(&self) -> Result<u32, AllocError>
        ensures { IfOk result (λ place. place ≡ end_of self.now) }
    {
        match u32::try_from(self.ops.len()) {
            Ok(count) => sum(self.start, count),
            Err(_) => Err(AllocError),
        }
    }

    /// The place `count` operations after the next one. Fails as `end` does.
    pub fn behind(&self, count: u32) -> Result<u32, AllocError>
        ensures { IfOk result (λ place. place ≡ end_of self.now + count) }
    {
        sum(self.end()?, count)
    }
}
