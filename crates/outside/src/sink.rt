ghost use Rattle.std.specs.Prelude.{ℕ, ◌<◌, ◌≤◌, List, length, Option, IfOk, OnErr};
ghost use Rattle.outside.specs.Count.{Rose};
ghost use Rattle.outside.specs.Writes.{taken, call_of, Appended};
ghost use Rattle.outside.specs.declared.call.Call.{Call};

use super::Failed;

/// A sink for bytes. A sink may report the bytes in it, and the calls that wrote them. It always counts its faults, in
/// a u64 that saturates.
pub trait Sink {
    // The bytes in the sink, if it reports them.
    ghost told: { Self → Option (List ℕ) };

    // The calls of `write` that wrote something, oldest first, if the sink reports them.
    ghost calls: { Self → Option (List Call) };

    // The number of its faults.
    ghost faults: { Self → ℕ };

    /// Appends the first bytes of `piece`, at least one, and returns how many.
    fn write(&mut self, piece: &[u8]) -> Result<usize, Failed>
        requires not_empty { 0 < length piece.now }
        ensures faults_never_fall { faults self.old ≤ faults self.new }
        ensures failed_only_where_faults_rose { OnErr result (Rose (faults self.old) (faults self.new)) }
        ensures takes_some { IfOk result (λ n. 0 < n) }
        ensures takes_at_most_all { IfOk result (λ n. n ≤ length piece.now) }

        // If the sink reported no bytes, or no calls, this does not say whether it reports them now.
        ensures told_after { Appended (told self.old) (taken result piece.now) (told self.new) }
        ensures called { Appended (calls self.old) (call_of result (length piece.now)) (calls self.new) };
}
