ghost use Rattle.std.specs.Prelude.{◌≡◌};
ghost use Rattle.typed_trees.specs.Views.{view_slot};
ghost use Rattle.state_text.specs.StateLines.{is_shown};

use rapid_model::Sort;
use typed_trees::SlotRow;

/// Whether the data of a row are shown: a constant array is not, nor is the name of a meeting.
pub fn is_shown(row: &SlotRow) -> bool
    ensures { result ≡ is_shown (view_slot row.now) }
{
    row.variable && !matches!(row.sort, Sort::SyncIdent)
}
