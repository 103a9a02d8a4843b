ghost use Rattle.rapid_meaning.specs.Layouts.{local_widths, slot_widths};
ghost use Rattle.typed_trees.specs.Views.{view_routine, view_tree};
ghost use Rattle.code_expr.specs.Starts.{AreStarts};

use crate::lengths::{local_length, pers_length, slot_length};
use crate::starts::start_in;
use stack_code::Op;
use std::alloc::Global;
use typed_trees::{Routine, Tree, TreeRoot};

/// What the code of an expression depends on: the task's tree, the routine, and where the data of each of their rows
/// begin. Contracts see the tree and the routine.
#[derive(Drop)]
pub struct Context<'a> {
    alloc: Global,
    tree: &'a Tree,
    routine: &'a Routine,
    slots: &'a [u32],
    ghost slots_are_right: { AreStarts slots.now (slot_widths (view_tree tree.now)) },
    locals: &'a [u32],
    ghost locals_are_right: { AreStarts locals.now (local_widths (view_routine routine.now)) },
}

impl<'a> Context<'a> {
    ghost use Rattle.std.specs.Prelude.{◌≡◌};
    ghost use Rattle.std.specs.Option.{unwrap_or};
    ghost use Rattle.rapid_meaning.specs.Layouts;
    ghost use Rattle.rapid_meaning.specs.Layouts.{local_widths, slot_widths};
    ghost use Rattle.stack_code.specs.ExprLayouts;
    ghost use Rattle.stack_code.specs.Pieces;
    ghost use Rattle.typed_trees.specs.Views.{view_routine, view_tree};
    ghost use Rattle.typed_trees.specs.declared.expr.TreeRoot.TheVariants as roots;
    ghost use Rattle.code_expr.specs.Contexts.{routine_of, tree_of};
    ghost use Rattle.code_expr.specs.Starts.{AreStarts};

    /// The context of a routine, with the starts of the tree's and of the routine's data.
    pub fn new(
        alloc: Global,
        tree: &'a Tree,
        routine: &'a Routine,
        slots: &'a [u32],
        locals: &'a [u32],
    ) -> Context<'a>
        requires slots { AreStarts slots.now (slot_widths (view_tree tree.now)) }
        requires locals { AreStarts locals.now (local_widths (view_routine routine.now)) }
        ensures tree { tree_of result ≡ view_tree tree.now }
        ensures routine { routine_of result ≡ view_routine routine.now }
    {
        Context {
            alloc,
            tree,
            routine,
            slots,
            locals,
        }
    }

    /// The allocator.
    pub fn alloc(&self) -> Global {
        self.alloc
    }

    /// The routine.
    pub fn routine(&self) -> &Routine
        ensures { view_routine result.now ≡ routine_of self.now }
    {
        self.routine
    }

    /// The number of the routine's module.
    pub fn module(&self) -> u32
        ensures { result ≡ (routine_of self.now).«module» }
    {
        self.routine.module
    }

    /// Where the data of a parameter, datum or FOR of the routine begin, by its number.
    pub fn local_start(&self, row: u32) -> u32
        ensures { result ≡ Layouts.local_start (routine_of self.now) row }
    {
        start_in(self.locals, row as usize)
    }

    /// The operation that pushes a place, by its root.
    pub fn root_op(&self, root: TreeRoot) -> Op
        ensures { result ≡ ExprLayouts.root_op (tree_of self.now) (routine_of self.now) root }
    {
        match root {
            TreeRoot::Slot(row) => Op::Slot(start_in(self.slots, row as usize)),
            TreeRoot::Local(row) => Op::Local(self.local_start(row)),
            TreeRoot::Ref(row) => Op::Ref(self.local_start(row)),
            TreeRoot::Pers(row) => Op::Pers(self.cell_number(row)),
        }
    }

    /// The operation that narrows a place to an element, by its root.
    pub fn index_op(&self, root: TreeRoot) -> Op
        ensures { result ≡ ExprLayouts.index_op (tree_of self.now) (routine_of self.now) root }
    {
        Op::Index(self.length_at(root))
    }

    /// The number of elements of an array, by its root; 0 if it is no array.
    pub fn length_at(&self, root: TreeRoot) -> u16
        ensures { result ≡ unwrap_or (Layouts.length_at (tree_of self.now) (routine_of self.now) root) 0 }
    {
        let len = match root {
            TreeRoot::Slot(row) => slot_length(self.tree, row),
            TreeRoot::Local(row) => local_length(self.routine, row),
            TreeRoot::Ref(_) => None,
            TreeRoot::Pers(row) => pers_length(self.tree, row),
        };
        len.unwrap_or(0)
    }

    /// The cell's number of a persistent of the tree; 0 if there is none.
    pub fn cell_number(&self, row: u32) -> u32
        ensures { result ≡ Pieces.cell_number (tree_of self.now) (roots.Pers row) }
    {
        match self.tree.pers_of.get(row as usize) {
            Some(number) => *number,
            None => 0,
        }
    }

    /// The cell's number of a meeting of the tree; 0 if there is none.
    pub fn meeting_number(&self, row: u32) -> u32
        ensures { result ≡ Pieces.meeting_number (tree_of self.now) row }
    {
        match self.tree.meeting_of.get(row as usize) {
            Some(number) => *number,
            None => 0,
        }
    }
}
