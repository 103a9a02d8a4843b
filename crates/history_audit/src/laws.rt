ghost use Rattle.std.specs.Prelude.{◌≡◌, ◌↔◌, ◌++◌, ℕ, Bool, true, IsTrue, List, Result, Ok, Some, [], slice_get};
ghost use Rattle.rapid_model.specs.CellData.{CellData};
ghost use Rattle.rapid_model.specs.declared.event.Event.{Event};
ghost use Rattle.rapid_model.specs.declared.fate.Fate.{Fate};
ghost use Rattle.cell_meaning.specs.Fates.{fate_after};
ghost use Rattle.cell_meaning.specs.Histories.{IsLegal, IsWhole};
ghost use Rattle.cell_meaning.specs.Premises.{AsksOne, AsksWhatItMay};
ghost use Rattle.history_audit.specs.Audits.{IsAudit, IsFirstWrong};
ghost use Rattle.history_audit.specs.declared.audit_fault.AuditFault.{AuditFault};
ghost use Rattle.history_audit.specs.declared.wrong.Wrong.{Wrong};

use cell_meaning::Askers;

/// A law: a history has at most one first wrong event, and that has one cause. A legal history has none.
pub fn first_wrong_is_one<A: Askers>()
    ensures one { (cell : CellData) (history : List Event) (at other : ℕ) (wrong cause : Wrong) → AsksOne A.asks → AsksWhatItMay A.asks cell → IsFirstWrong A.asks cell history at wrong → IsFirstWrong A.asks cell history other cause → (at ≡ other) × (wrong ≡ cause) }
    ensures none { (cell : CellData) (history : List Event) (at : ℕ) (wrong : Wrong) → IsLegal A.asks cell history → ¬ IsFirstWrong A.asks cell history at wrong }
{}

/// A law: there is at most one outcome of an audit.
pub fn audit_is_one<A: Askers>()
    ensures { (cell : CellData) (history : List Event) (fates : List Fate) (found other : Result Bool AuditFault) → AsksOne A.asks → AsksWhatItMay A.asks cell → IsAudit A.asks cell history fates found → IsAudit A.asks cell history fates other → found ≡ other }
{}

/// A law: a legal and complete history, with the fates that follow from it for some tasks, is found legal and whole, as
/// that of each run is. The first events of a legal history, without fates, are found legal too: whole if nothing can
/// follow them, and open otherwise.
pub fn legal_histories_pass<A: Askers>()
    ensures whole { (cell : CellData) (history : List Event) (fates : List Fate) (found : Result Bool AuditFault) → IsLegal A.asks cell history → IsWhole A.asks cell history → ((task : ℕ) (fate : Fate) → slice_get fates task ≡ Some fate → fate ≡ fate_after cell history task) → IsAudit A.asks cell history fates found → found ≡ Ok true }
    ensures front { (cell : CellData) (history front back : List Event) (found : Result Bool AuditFault) → history ≡ front ++ back → IsLegal A.asks cell history → IsAudit A.asks cell front [] found → (whole : Bool) × (found ≡ Ok whole) × (IsTrue whole ↔ IsWhole A.asks cell front) }
{}
