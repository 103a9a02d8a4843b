ghost use Rattle.std.specs.Prelude.{◌≡◌, ℕ, ◌≤◌, Option, IfSome, option_map};
ghost use Rattle.outside.specs.Count.{Rose};
ghost use Rattle.outside.specs.Told.{Told, found, after_reads};
ghost use Rattle.outside.specs.Reads.{Gains, Follows};

use super::ShelfFault;
use std::alloc::Global;

/// Named files to read. A shelf may report its files and which reads fail. It always counts its faults, in a u64 that
/// saturates.
pub trait Shelf {
    // What the shelf reports about itself, if anything.
    ghost told: { Self → Option Told };

    // The number of its faults.
    ghost faults: { Self → ℕ };

    /// Appends the file's bytes to `into`, if there are at most `limit` of them.
    fn read(
        &mut self,
        alloc: Global,
        name: &str,
        limit: usize,
        into: &mut Vec<u8>,
    ) -> Result<(), ShelfFault>
        ensures faults_never_fall { faults self.old ≤ faults self.new }
        ensures failed_only_where_faults_rose { result ≡ Err ShelfFault.Failed → Rose (faults self.old) (faults self.new) }
        ensures into_gains { Gains limit into.old.items into.new.items result }
        // Out of memory is no fault of the shelf.
        ensures memory_counts_nothing { result ≡ Err ShelfFault.Memory → faults self.new ≡ faults self.old }

        // A shelf that reports nothing never starts to. Any other counts the read, whatever the result.
        ensures told_after { told self.new ≡ option_map (after_reads 1) (told self.old) }
        ensures follows_told { IfSome (told self.old) (λ t. Follows (found t name.now) limit into.old.items into.new.items result) };
}
