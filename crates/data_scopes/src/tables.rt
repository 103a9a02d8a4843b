ghost use Rattle.std.specs.Prelude.{◌≡◌, length, take};
ghost use Rattle.std.specs.Option.{option_or};
ghost use Rattle.std.specs.Str.{str_to_ascii_lowercase};
ghost use Rattle.data_scopes.specs.Scopes.{list_at, loop_named, loop_rows, meaning, meant_in, meant_in_routine, meant_outside, meant_predefined};
ghost use Rattle.data_scopes.specs.Shared.{IsShared};

use crate::loop_row::LoopRow;
use crate::loops::loop_named;
use crate::meant::Meant;
use name_tables::{NameKey, NameTable};
use rapid_builtins::{function, instruction, predefined};
use rule_checks::Spot;
use std::marker::Model;

/// The names of a task's modules: the items that are not LOCAL, then the signals and the predefined names; the LOCAL
/// items of each module; the parameters and data of each routine, and its FORs in text order; the signals.
#[derive(Drop)]
pub(crate) struct NameTables {
    shared: NameTable<Meant>,
    // How many of these are items.
    items: usize,
    own: Vec<NameTable<Meant>>,
    inner: Vec<NameTable<Meant>>,
    loops: Vec<Vec<LoopRow>>,
    signals: NameTable<Meant>,
}

impl Model for NameTables {
    ghost use Rattle.std.specs.Prelude.{take};
    ghost use Rattle.data_scopes.specs.Scopes.{Tables, loop_rows};
    ghost use Rattle.data_scopes.specs.Shared.{IsShared};

    ghost Value = { Tables };

    ghost view = { λ t. record { task = take t.items t.shared; own = t.own.items; inner = t.inner.items; loops = loop_rows t.loops.items; signals = t.signals } };

    ghost invariant = { λ t. IsShared t.shared (take t.items t.shared) t.signals };
}

impl NameTables {
    /// The tables of these scopes.
    pub(crate) fn new(
        shared: NameTable<Meant>,
        items: usize,
        own: Vec<NameTable<Meant>>,
        inner: Vec<NameTable<Meant>>,
        loops: Vec<Vec<LoopRow>>,
        signals: NameTable<Meant>,
    ) -> NameTables
        requires { IsShared shared (take items shared) signals }
        ensures { result ≡ record { task = take items shared; own = own.items; inner = inner.items; loops = loop_rows loops.items; signals = signals } }
    {
        NameTables {
            shared,
            items,
            own,
            inner,
            loops,
            signals,
        }
    }

    /// What the name means at the spot.
    pub(crate) fn meaning(&self, spot: Spot, name: &[u8]) -> Option<Meant>
        ensures { result ≡ meaning self.now spot name.now }
    {
        let name = &NameKey::new(name);
        if let Some(meant) = self.in_routine(name, spot.routine, spot.within) {
            return Some(meant);
        }
        if let Some(meant) = self.own(spot.module, name) {
            return Some(meant);
        }
        self.shared(name)
    }

    /// What the name means among the items that are not LOCAL, then as a signal or a predefined name.
    fn shared(&self, name: &NameKey<'_>) -> Option<Meant>
        ensures { result ≡ option_or (meant_in name.now self.now.task) (meant_outside self.now name.now) }
    {
        self.shared.find_key(name)
    }

    /// What the name means among the items that are not LOCAL.
    pub(crate) fn task(&self, name: &NameKey<'_>) -> Option<Meant>
        ensures { result ≡ meant_in name.now self.now.task }
    {
        self.shared.find_among_first(self.items, name)
    }

    /// What the name means among the LOCAL items of a module.
    pub(crate) fn own(&self, module: u32, name: &NameKey<'_>) -> Option<Meant>
        ensures { result ≡ meant_in name.now (list_at self.now.own «module») }
    {
        find_at(&self.own, module, name)
    }

    /// What the name means among the parameters and data of a routine.
    pub(crate) fn inner(&self, routine: u32, name: &NameKey<'_>) -> Option<Meant>
        ensures { result ≡ meant_in name.now (list_at self.now.inner routine) }
    {
        find_at(&self.inner, routine, name)
    }

    /// What the name means in a routine: the variables of the enclosing FORs, then its parameters and data.
    fn in_routine(
        &self,
        name: &NameKey<'_>,
        routine: Option<u32>,
        within: Option<u32>,
    ) -> Option<Meant>
        ensures { result ≡ meant_in_routine self.now name.now routine within }
    {
        let routine = routine?;
        match loop_at(&self.loops, routine, name.name(), within) {
            Some(number) => Some(Meant::For(number)),
            None => self.inner(routine, name),
        }
    }

    /// What the name means as a signal or a predefined name.
    pub(crate) fn outside(&self, name: &NameKey<'_>) -> Option<Meant>
        ensures { result ≡ meant_outside self.now name.now }
    {
        match self.signals.find_key(name) {
            Some(meant) => Some(meant),
            None => meant_predefined(name.name()),
        }
    }
}

/// What the name means in the scope with this number.
fn find_at(scopes: &[NameTable<Meant>], number: u32, name: &NameKey<'_>) -> Option<Meant>
    ensures { result ≡ meant_in name.now (list_at scopes.now number) }
{
    let scope = scopes.get(number as usize)?;
    scope.find_key(name)
}

/// The FOR with this variable in a routine, searched outward from the FOR with this number.
fn loop_at(loops: &[Vec<LoopRow>], routine: u32, name: &[u8], within: Option<u32>) -> Option<u32>
    ensures { let rows = list_at (loop_rows loops.now) routine in result ≡ loop_named (length rows) (str_to_ascii_lowercase name.now) rows within }
{
    let rows = loops.get(routine as usize)?;
    loop_named(rows, name, within)
}

/// What a predefined name means.
#[tactic(auto, unfolding(crate::specs::Scopes::meant_predefined))]
fn meant_predefined(name: &[u8]) -> Option<Meant>
    ensures { result ≡ meant_predefined name.now }
{
    if let Some(instruction) = instruction(name) {
        return Some(Meant::Instruction(instruction));
    }
    if let Some(function) = function(name) {
        return Some(Meant::Function(function));
    }
    let predefined = predefined(name)?;
    Some(Meant::Predefined(predefined))
}
