//! Names of signals and of meetings as arguments, and names that stand for themselves.

ghost use Rattle.std.specs.Prelude.{◌≡◌};
ghost use Rattle.raw_trees.specs.Views.{view_expr as view_raw};
ghost use Rattle.typed_trees.specs.Views.{view_arg};
ghost use Rattle.rule_checks.specs.TypeChecks.{Gives};
ghost use Rattle.named_data.specs.Views.{view_site};
ghost use Rattle.expr_types.specs.Arguments;

use crate::names::is_bare;
use data_scopes::{Meant, begin_of, is_meeting};
use named_data::{Site, Source, fault, must};
use rapid_model::{PartName, Predefined, Sort};
use raw_trees::RawExpr;
use rule_checks::{TypeFault, TypeRule};
use typed_trees::{Arg, TreePlace, TreeRoot};

/// A predefined name that stands for itself, and is not looked up.
pub(crate) fn itself(
    site: &Site<'_>,
    name: Predefined,
    text: &[u8],
    rule: TypeRule,
    raw: &RawExpr<'_>,
) -> Result<Arg, TypeFault>
    ensures { Gives view_arg result (Arguments.itself (view_site site.now) name text.now rule (view_raw raw.now)) }
{
    must(site, is_bare(text, raw), begin_of(raw), rule)?;
    Ok(Arg::Known(name))
}

/// Whether the signal is an output or an input, as needed.
fn has_direction(wanted: bool, output: Option<bool>) -> bool
    ensures { result ≡ Arguments.has_direction wanted output }
{
    match output {
        None => false,
        Some(output) => { if wanted { output } else { !output } }
    }
}

/// The signal that a name means at this byte.
pub(crate) fn signal_meant(
    site: &Site<'_>,
    output: bool,
    at: usize,
    meant: Option<Meant>,
) -> Result<Arg, TypeFault>
    ensures { Gives view_arg result (Arguments.signal_meant (view_site site.now) output at meant) }
{
    match meant {
        None => Err(fault(site, at, TypeRule::NoName)),
        Some(Meant::Signal(number)) => {
            let holds = has_direction(output, site.scopes.output(number));
            must(site, holds, at, TypeRule::TypeClash)?;
            Ok(Arg::Signal(number))
        }
        Some(_) => Err(fault(site, at, TypeRule::NotThis)),
    }
}

/// The meeting that a name means at this byte.
pub(crate) fn meeting_meant(
    site: &Site<'_>,
    at: usize,
    meant: Option<Meant>,
) -> Result<Arg, TypeFault>
    ensures { Gives view_arg result (Arguments.meeting_meant (view_site site.now) at meant) }
{
    match meant {
        None => Err(fault(site, at, TypeRule::NoName)),
        Some(Meant::Slot(number)) => {
            let holds = is_meeting(site.scopes.slot(number));
            must(site, holds, at, TypeRule::SyncName)?;
            Ok(Arg::Meeting(site.scopes.meetings_before(number)))
        }
        Some(_) => Err(fault(site, at, TypeRule::SyncName)),
    }
}

/// A declared PERS of this type as an argument at this byte; `bare` if it has neither index nor components.
pub(crate) fn whole_pers(
    site: &Site<'_>,
    bare: bool,
    at: usize,
    sort: Sort,
    source: Source,
) -> Result<Arg, TypeFault>
    ensures { Gives view_arg result (Arguments.whole_pers (view_site site.now) bare at sort source) }
{
    match source {
        Source::Place {
            root: TreeRoot::Pers(number),
            ..
        } => {
            must(site, bare, at, TypeRule::BadRef)?;
            let root = TreeRoot::Pers(number);
            let place = TreePlace::new(site.alloc, root, None, PartName::Whole, sort)?;
            Ok(Arg::Place(place))
        }
        _ => Err(fault(site, at, TypeRule::BadRef)),
    }
}
