ghost use Rattle.std.specs.Prelude.{◌≡◌};
ghost use Rattle.task_code.specs.Owners.{resumed};
ghost use Rattle.task_steps.specs.Points.{own_at};

use crate::routines::living::keep_code;
use task_code::{Code, How, resume_of};

/// Where the statement that owns a place of the code begins, or the place after it; 0 for a place outside the code.
/// Takes time proportional to the logarithm of the number of owners.
pub(crate) fn resumed_at(code: &Code, place: u32, how: How) -> u32
    ensures { result ≡ resumed how (own_at code.now place) }
{
    keep_code(code);
    if (place as usize) < code.ops().len() {
        resume_of(code.marks(), place, how)
    } else {
        0
    }
}
