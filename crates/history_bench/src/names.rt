//! What the history names.

ghost use Rattle.std.specs.Prelude.{◌≡◌, ◌∷◌, [], IfOk};
ghost use Rattle.history_text.specs.HistoryText.{AreNamed};

use rapid_model::{NameText, PersCell, Sequence, Sort, TaskRow};
use std::alloc::{AllocError, Global};

/// The name L1.
fn name() -> NameText
    ensures { result ≡ 76 ∷ 49 ∷ [] }
{
    let mut name = NameText::new();
    name.push(b'L');
    name.push(b'1');
    name
}

/// The task L1.
pub fn one_task(alloc: Global) -> Result<Vec<TaskRow>, AllocError>
    ensures { IfOk result (λ rows. AreNamed rows.items) }
{
    let task = TaskRow {
        name: name(),
        arm: None,
        axes: 6,
    };
    Ok(vec![in alloc; task]?)
}

/// A num.
pub fn one_num(alloc: Global) -> Result<Vec<PersCell>, AllocError> {
    let row = PersCell {
        name: name(),
        owner: None,
        sort: Sort::Num,
        len: None,
        first: Sequence::from_vec(Vec::new(alloc)),
    };
    Ok(vec![in alloc; row]?)
}
