//! Signals that start at 0, 1, 0.

ghost use Rattle.std.specs.Prelude.{◌≡◌, ◌<◌, length};

use crate::cell::board_cell;
use signal_board::Signals;
use std::test::Fail;

/// Whether the three signals have these values.
fn are(signals: &Signals, wanted: [bool; 3]) -> bool
    requires three { length signals.now ≡ 3 }
{
    [signals.get(0), signals.get(1), signals.get(2)] == wanted
}

/// Sets a signal, and returns whether that changed it.
fn set(signals: &mut Signals, signal: u32, value: bool) -> bool
    requires three { length signals.old ≡ 3 }
    requires there { signal < 3 }
    ensures three { length signals.new ≡ 3 }
{
    signals.set(signal, value)
}

#[test]
fn signals(rt: HostRuntime) -> Result<(), Fail> {
    let cell = board_cell(rt.alloc())?;
    let mut signals = Signals::new(rt.alloc(), &cell).ok().ok_or("memory")?;
    assert!(rt; are(&signals, [false, true, false]));
    assert!(rt; set(&mut signals, 0, true));
    assert!(rt; !set(&mut signals, 0, true));
    assert!(rt; are(&signals, [true, true, false]));
    assert!(rt; set(&mut signals, 1, false));
    assert!(rt; are(&signals, [true, false, false]));
    Ok(())
}
