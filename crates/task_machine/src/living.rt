ghost use Rattle.live_code.specs.Live.{IsLive};

use live_code::Code;

/// Code is live.
pub(crate) fn keep_live(code: &Code)
    ensures { IsLive code.now }
{
    let _main = code.linked.main;
}
