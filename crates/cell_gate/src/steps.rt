//! Steps of a place at the gate's table.
ghost use Rattle.std.specs.Prelude.{◌≡◌, [], ◌∷◌, Some, None};
ghost use Rattle.cell_gate.specs.Hands.{IsPlaceOf, IsSamePlace, IsSized, MayCount};
ghost use Rattle.cell_gate.specs.Steps.{counted_in};

use crate::backoff::Backoff;
use crate::boxed_core::BoxedCore;
use crate::rule::{Count, Place, Rest, Top};
use std::hint::spin_loop;
use std::sync::Wait;

/// The turn is usually free again after fewer looks.
const LOOKS: u32 = 32;

/// Puts the core into the slot, which the place has taken.
pub(crate) fn put(top: &Top, place: &mut Place, core: BoxedCore)
    requires place { IsPlaceOf top.now.table_id place.old }
    requires slot { place.old.me.1 ≡ (0, None) ∷ [] }
    ensures same { IsSamePlace place.old place.new }
    ensures me { place.new.me ≡ (place.old.me.0, (0, Some core) ∷ []) }
{
    drop(top.exchange(place, 0, Some(core)));
}

/// Counts the event that the core in the slot gained, if it gained one.
pub(crate) fn count(top: &Top, place: &mut Place, grew: bool)
    requires place { IsPlaceOf top.now.table_id place.old }
    requires may { MayCount place.old.me grew }
    ensures same { IsSamePlace place.old place.new }
    ensures me { place.new.me ≡ counted_in place.old.me }
{
    if grew {
        top.fetch_add::<Count>(place, 1, 1);
    }
}

/// Waits until the turn seems to be free. Another thread may take it first.
pub(crate) fn await_turn<R: Wait>(rt: &R, top: &Top)
    requires { IsSized top.now.table_id }
{
    let mut backoff = Backoff::new();
    for _ in rt.forever() {
        for _ in 0..LOOKS {
            if top.peek(0) == 0 {
                return;
            }
            spin_loop();
        }
        backoff.pause(rt);
    }
}

/// Waits until the history has more than `len` events.
pub(crate) fn wait_past<R: Wait>(
    rt: &R,
    top: &Top,
    place: &mut Place,
    len: u32,
    backoff: &mut Backoff,
)
    requires place { IsPlaceOf top.now.table_id place.old }
    ensures same { IsSamePlace place.old place.new }
    ensures me { place.new.me ≡ place.old.me }
{
    for _ in rt.forever() {
        backoff.pause(rt);
        let found = top.load::<Rest>(place, 1);
        if found > u64::from(len) {
            break;
        }
    }
}
