ghost use Rattle.task_code.specs.Live.{IsLive};

use task_code::Code;

/// Code is live.
pub(crate) fn keep_live(code: &Code)
    ensures { IsLive code.now }
{
    let _main = code.linked.main;
}
