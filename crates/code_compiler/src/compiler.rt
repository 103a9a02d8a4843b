ghost use Rattle.std.specs.Prelude.{◌≡◌, ◌<◌, ◌^◌, IfOk, length, true};
ghost use Rattle.code_laws.specs.Asking.{AsksAs};
ghost use Rattle.code_laws.specs.Checked.{IsChecked};
ghost use Rattle.task_code.specs.IsCode.{IsCode};
ghost use Rattle.stack_code.specs.Compiled.{compiled};
ghost use Rattle.typed_trees.specs.Views.{view_tree};

use crate::link_routines;
use rapid_num::Memory;
use stack_code::LinkedCode;
use std::alloc::Global;
use task_code::Code;
use typed_trees::Tree;

/// Compiles a checked task: its code asks what its tree asks. Fails only if an allocation fails or the code would have
/// 2^32 or more operations, module data or first values.
pub fn compile(alloc: Global, tree: &Tree) -> Result<Code, Memory>
    requires { IsChecked (view_tree tree.now) }
    ensures code { IfOk result (λ code. code ≡ compiled (view_tree tree.now)) }
    ensures asks { IfOk result (λ code. AsksAs (view_tree tree.now) code) }
{
    let linked = link_routines(alloc, tree)?;
    if is_counted(&linked) {
        Ok(kept(linked))
    } else {
        Err(Memory)
    }
}

/// Whether the numbers of operations and of module data fit a u32.
fn is_counted(linked: &LinkedCode) -> bool
    ensures ops { result ≡ true → length linked.now.ops < 2 ^ 32 }
    ensures slots { result ≡ true → length linked.now.slots < 2 ^ 32 }
{
    let most = u32::MAX as usize;
    linked.ops.len() <= most && linked.slots.len() <= most
}

/// Linked code as code whose invariant is proved.
fn kept(linked: LinkedCode) -> Code
    requires { IsCode linked }
    ensures { result ≡ linked }
{
    Code { linked }
}
