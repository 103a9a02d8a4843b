ghost use Rattle.std.specs.Prelude.{◌≡◌, ◌<◌, length, IfOk, IfErr, IsFalse, IsTrue};
ghost use Rattle.rapid_model.specs.Own.{is_held, part_of};
ghost use Rattle.cell_meaning.specs.MayAsk.{may_ask};
ghost use Rattle.cell_gate.specs.Causes.{may_wait};
ghost use Rattle.cell_gate.specs.Turn.{Acts, Rises, Feeds};

use crate::acted::Acted;
use crate::asking::{try_act, try_feed, try_rise};
use crate::fed::Fed;
use crate::now::Now;
use cell_core::Core;
use rapid_model::Request;
use std::alloc::Global;
use std::marker::Model;

/// A core that stays in place in memory: taking the turn takes a pointer. Contracts see the core.
#[derive(Drop)]
pub struct BoxedCore {
    core: Box<Core>,
}

impl Model for BoxedCore {
    ghost use Rattle.cell_core.specs.CoreData.{CoreData};

    ghost Value = { CoreData };

    ghost view = { λ b. b.core.value };
}

impl BoxedCore {
    /// Fails only if an allocation fails; the core comes back then.
    pub(crate) fn new(alloc: Global, core: Core) -> Result<BoxedCore, Core>
        ensures ok { IfOk result (λ boxed. boxed ≡ core) }
        ensures err { IfErr result (λ back. back ≡ core) }
    {
        match Box::new(alloc, core) {
            Ok(core) => Ok(BoxedCore { core }),
            Err(failed) => Err(failed.value),
        }
    }

    /// The core itself.
    pub(crate) fn into_core(self) -> Core
        ensures { result ≡ self }
    {
        let BoxedCore { core } = self;
        Box::into_inner(core)
    }

    /// The number of events.
    pub(crate) fn len(&self) -> u32
        ensures { result ≡ length self.now.history }
    {
        self.core.len()
    }

    /// As `try_act` of asking.
    pub(crate) fn try_act(&mut self, actor: u32, request: &Request) -> Acted
        requires may { IsTrue (may_ask self.old.cell actor (part_of actor self.old.history) request.now) }
        requires plain { IsFalse (may_wait request.now) }
        ensures { Acts self.old actor request.now result self.new }
    {
        try_act(&mut self.core, actor, request)
    }

    /// As `try_rise` of asking.
    pub(crate) fn try_rise(&mut self, task: u32) -> Now
        requires task { task < length self.old.cell.tasks }
        requires held { IsTrue (is_held (part_of task self.old.history)) }
        ensures { Rises self.old task result self.new }
    {
        try_rise(&mut self.core, task)
    }

    /// As `try_feed` of asking.
    pub(crate) fn try_feed(&mut self) -> Fed
        ensures { Feeds self.old result self.new }
    {
        try_feed(&mut self.core)
    }
}
