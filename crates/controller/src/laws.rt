ghost use Rattle.std.specs.Prelude.{◌≡◌, ◌⊎◌, ℕ, List, Some};
ghost use Rattle.outside.specs.Count.{Rose};
ghost use Rattle.outside.specs.Told.{Told};
ghost use Rattle.rapid_model.specs.CellData.{CellData};
ghost use Rattle.rapid_model.specs.declared.event.Event.{Event};
ghost use Rattle.cell_meaning.specs.Histories.{IsLegal};
ghost use Rattle.cell_loading.specs.Files.{Reads, told_reads};
ghost use Rattle.controller.specs.Accepted.{Verdict, refuses, Accepted};
ghost use Rattle.controller.specs.Answered.{AnswersWords, IsOutOfMemory};
ghost use Rattle.controller.specs.Complete.{IsDone};
ghost use Rattle.sink_lines.specs.Printed.{Sunk};
ghost use Rattle.cell_runs.specs.Outcomes.{MissesZones, run_status};
ghost use Rattle.cell_loading.specs.declared.refused.Refused.TheVariants.{Write, Memory};
ghost use Rattle.controller.specs.declared.report.Report.{Report};

use cell_meaning::Askers;

/// A law: command words and the results of the reads have at most one verdict.
pub fn verdict_is_one()
    ensures { (words : List (List ℕ)) (gave : Reads) (verdict other : Verdict) → Accepted words gave verdict → Accepted words gave other → verdict ≡ other }
{}

/// A law: no verdict refuses for lack of memory or for a write.
pub fn verdicts_refuse_input()
    ensures memory { (words : List (List ℕ)) (gave : Reads) (names : List (List ℕ)) → Accepted words gave (refuses names Memory) → ⊥ }
    ensures write { (words : List (List ℕ)) (gave : Reads) (names : List (List ℕ)) → Accepted words gave (refuses names Write) → ⊥ }
{}

/// A law: in a legal history, whoever asks, no arm passes through a zone that watches it.
pub fn given_setpoints_miss_zones<A: Askers>()
    ensures { (cell : CellData) (history : List Event) → IsLegal A.asks cell history → MissesZones cell history }
{}

/// A law: the clauses of `controller`, `quiet` and `free` imply that what the words and the files come to is done. If
/// the shelf reports its files and the first sink counts no fault, the status is that of the refusal, or 0 for `check`,
/// `list` and `migrate`, or 0, 1, 8 or 9 for a run, as its history says, or 0 or 12 for `audit` and `state`, as what is
/// found says; or memory ran out before the first event.
pub fn what_is_asked_is_done()
    ensures done { (words : List (List ℕ)) (files : Told) (verdict : Verdict) (report : Report) (out err : Sunk) → AnswersWords words (Some files) report out err → (report.refused ≡ Some Write → Rose out.old.faults out.new.faults) → ¬ Rose out.old.faults out.new.faults → Accepted words (told_reads files) verdict → IsOutOfMemory report out err ⊎ IsDone verdict report }
    ensures statuses { (cell : CellData) (history : List Event) → (run_status cell history ≡ 0) ⊎ ((run_status cell history ≡ 1) ⊎ ((run_status cell history ≡ 8) ⊎ (run_status cell history ≡ 9))) }
{}
