ghost use Rattle.task_code.specs.IsCode.{IsCode};

use task_code::Code;

/// The invariant of code.
pub(crate) fn keep_code(code: &Code)
    ensures { IsCode code.now }
{
    let _main = code.linked.main;
}
