ghost use Rattle.std.specs.Prelude.{◌≡◌, ℕ, ◌↔◌, Some, map};
ghost use Rattle.outside.specs.Count.{Rose};
ghost use Rattle.command_words.specs.Words.{refused_place};
ghost use Rattle.sink_lines.specs.Printed.{sunk};
ghost use Rattle.controller.specs.Answered.{AnswersWords};
ghost use Rattle.controller.specs.Complete.{IsComplete};

use crate::action::quiet;
use crate::free_run::free;
use crate::report::Report;
use cell_loading::Refused;
use command_words::is_run;
use outside::{Pace, Shelf, Sink};
use std::alloc::Global;
use std::convert::AsSlice;
use std::sync::Wait;
use std::thread::Threads;

/// Does what the command words say: `check CELL`, `round CELL`, `list CELL`, `load N`, `audit CELL HISTORY`,
/// `state CELL HISTORY`, `clearance CELL`, `trace CELL` and `migrate CELL` as `quiet` does, and `run CELL` as `free` does.
/// A refusal is one line on the second sink. If the words ask for `run`, it waits as `free` does, and its clauses hold if it returns.
pub fn controller<
    R: Threads + Wait + Sync,
    W: AsSlice<u8>,
    S: Shelf,
    O: Sink,
    E: Sink,
    P: Pace + Sync,
>(rt: &R, alloc: Global, words: &[W], shelf: &mut S, out: &mut O, err: &mut E, pace: &P) -> Report
    // The report answers what the words and the files come to.
    ensures answers { AnswersWords (map W.items words.now) (S.told shelf.old) result (sunk O.told O.calls O.faults out.old out.new) (sunk E.told E.calls E.faults err.old err.new) }
    // Words are refused exactly if they are wrong, whatever the shelf reports.
    ensures words { (place : ℕ) → (result.refused ≡ Some (Refused.Words place)) ↔ (refused_place (map W.items words.now) ≡ Some place) }
    // A read fails only if the shelf counted a fault, and a write only if the first sink did.
    ensures read { (file : ℕ) → result.refused ≡ Some (Refused.Read file) → Rose (S.faults shelf.old) (S.faults shelf.new) }
    ensures write { result.refused ≡ Some Refused.Write → Rose (O.faults out.old) (O.faults out.new) }
    // If no write fails, what the words and the files come to is done, or memory ran out before the first event.
    ensures done { IsComplete (map W.items words.now) (S.told shelf.old) result (sunk O.told O.calls O.faults out.old out.new) (sunk E.told E.calls E.faults err.old err.new) }
{
    if is_run(words) {
        free(rt, alloc, words, shelf, out, err, pace)
    } else {
        quiet(alloc, words, shelf, out, err)
    }
}
