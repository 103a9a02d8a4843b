ghost use Rattle.std.specs.Prelude.{◌≡◌, ◌<◌, Bool, List, length, slice_index_or, false};

/// Read access to the values of the cell's signals.
pub trait SignalValues {
    // The value of each signal, by its number in the cell.
    ghost values: { Self → List Bool };

    /// Whether the signal with this number is 1. The signal must exist.
    fn value(&self, signal: u32) -> bool
        requires there { signal < length (values self.now) }
        ensures { result ≡ slice_index_or (values self.now) signal false };
}
