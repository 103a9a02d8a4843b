ghost use Rattle.std.specs.Prelude.{◌≡◌, ℕ, List, length};
ghost use Rattle.std.specs.List.{AllByRecursion, concat};
ghost use Rattle.rapid_model.specs.CellData.{CellData, IsCell};
ghost use Rattle.rapid_model.specs.declared.event.Event.{Event};
ghost use Rattle.rapid_model.specs.declared.fate.Fate.{Fate};
ghost use Rattle.cell_meaning.specs.Fates.{fates_after};
ghost use Rattle.cell_meaning.specs.Histories.{IsLegal};
ghost use Rattle.cell_meaning.specs.Premises.{AsksWhatItMay};
ghost use Rattle.history_text.specs.HistoryText.{IsFirstFault, IsHistory, Spells, history_lines};
ghost use Rattle.history_text.specs.InRange.{IsEvent};
ghost use Rattle.history_laws.specs.Shown.{names_in};

use cell_meaning::Askers;

/// A law: a legal history of a cell fits the cell's names, with the fates of its tasks, if the actors ask what they may.
/// The events are those of a program: each number has its type's bits.
pub fn legal_histories_fit_the_names<A: Askers>()
    ensures { (cell : CellData) (history : List Event) → IsCell cell → AsksWhatItMay A.asks cell → IsLegal A.asks cell history → AllByRecursion IsEvent history → IsHistory (names_in cell) history (fates_after cell history (length cell.tasks)) }
{}

/// A law: the text that has the lines of such a history is that history and no other, and none of its lines is faulty.
pub fn printed_histories_are_read<A: Askers>()
    ensures spelled { (cell : CellData) (history : List Event) → IsCell cell → AsksWhatItMay A.asks cell → IsLegal A.asks cell history → AllByRecursion IsEvent history → Spells (names_in cell) (concat (history_lines (names_in cell) history (fates_after cell history (length cell.tasks)))) history (fates_after cell history (length cell.tasks)) }
    ensures alone { (cell : CellData) (history events : List Event) (fates : List Fate) → IsCell cell → AsksWhatItMay A.asks cell → IsLegal A.asks cell history → AllByRecursion IsEvent history → Spells (names_in cell) (concat (history_lines (names_in cell) history (fates_after cell history (length cell.tasks)))) events fates → (events ≡ history) × (fates ≡ fates_after cell history (length cell.tasks)) }
    ensures faultless { (cell : CellData) (history : List Event) (number : ℕ) → IsCell cell → AsksWhatItMay A.asks cell → IsLegal A.asks cell history → AllByRecursion IsEvent history → IsFirstFault (names_in cell) (concat (history_lines (names_in cell) history (fates_after cell history (length cell.tasks)))) number → ⊥ }
{}
