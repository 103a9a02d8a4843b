//! What the rows name: tasks A and B, a signal, and a persistent of each type that has values.

ghost use Rattle.std.specs.Prelude.{◌≡◌, ◌≤◌, ◌∷◌, [], IfOk};
ghost use Rattle.history_text.specs.HistoryText.{AreNamed};

use rapid_model::{NameText, PersCell, Sequence, SignalRow, Sort, TaskRow};
use std::alloc::{AllocError, Global};

/// A name of one letter.
fn name(letter: u8) -> NameText
    requires low { 65 ≤ letter }
    requires high { letter ≤ 90 }
    ensures { result ≡ letter ∷ [] }
{
    let mut name = NameText::new();
    name.push(letter);
    name
}

fn task(letter: u8) -> TaskRow
    requires low { 65 ≤ letter }
    requires high { letter ≤ 90 }
    ensures { result.name ≡ letter ∷ [] }
{
    TaskRow {
        name: name(letter),
        arm: None,
        axes: 6,
    }
}

/// Tasks A and B.
pub fn two_tasks(alloc: Global) -> Result<Vec<TaskRow>, AllocError>
    ensures { IfOk result (λ rows. AreNamed rows.items) }
{
    Ok(vec![in alloc; task(b'A'), task(b'B')]?)
}

/// An output.
pub fn one_signal(alloc: Global) -> Result<Vec<SignalRow>, AllocError> {
    let signal = SignalRow {
        name: name(b'S'),
        output: true,
        start: false,
    };
    Ok(vec![in alloc; signal]?)
}

/// A bool, num, string, robjoint, extjoint, jointtarget, speeddata and tasks.
pub fn one_of_each(alloc: Global) -> Result<Vec<PersCell>, AllocError> {
    let sorts = [
        Sort::Bool,
        Sort::Num,
        Sort::Text,
        Sort::RobJoint,
        Sort::ExtJoint,
        Sort::JointTarget,
        Sort::SpeedData,
        Sort::Tasks,
    ];
    let mut rows = Vec::new(alloc);
    for sort in sorts {
        rows.push(PersCell {
            name: name(b'P'),
            owner: None,
            sort,
            len: None,
            first: Sequence::from_vec(Vec::new(alloc)),
        })?;
    }
    Ok(rows)
}
