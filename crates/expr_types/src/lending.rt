//! Places that are passed by reference.

ghost use Rattle.std.specs.Prelude.{◌≡◌, Ok};
ghost use Rattle.typed_trees.specs.Plain.{PlaceOf};
ghost use Rattle.typed_trees.specs.Views.{view_arg, view_place};
ghost use Rattle.rule_checks.specs.TypeChecks.{Gives};
ghost use Rattle.named_data.specs.Views.{view_site};
ghost use Rattle.expr_types.specs.Arguments;
ghost use Rattle.expr_types.specs.Places;
ghost use Rattle.expr_types.specs.Views.{view_held, view_part};

use crate::place_part::PlacePart;
use named_data::{Access, Site, Source, Wanted, fault, must, same_sort};
use rapid_builtins::Need;
use rapid_model::{Sort, has_values};
use rule_checks::{TypeFault, TypeRule};
use typed_trees::{Arg, TreePlace, TreeRoot};

/// Whether a place with this access may be passed.
fn lends(need: Need, access: Access) -> bool
    ensures { result ≡ Arguments.lends need access }
{
    match need {
        Need::Var(_) | Need::WorldZone => matches!(access, Access::Var),
        Need::Pers(_) => matches!(access, Access::Pers),
        Need::VarOrPers(_) | Need::Written(_) => !matches!(access, Access::Fixed),
        _ => false,
    }
}

/// Whether a place of this type may be passed.
fn takes(need: Need, sort: Sort) -> bool
    ensures { result ≡ Arguments.takes need sort }
{
    match need {
        Need::Var(wanted) | Need::Pers(wanted) | Need::VarOrPers(wanted) | Need::Written(wanted) =>
            same_sort(sort, wanted),
        Need::WorldZone => {
            same_sort(sort, Sort::WzTemporary) || same_sort(sort, Sort::WzStationary)
        }
        _ => false,
    }
}

/// What is required of a reference that is not a place: nothing fits, and brackets have the needed type.
pub(crate) fn referred(need: Need) -> Wanted
    ensures { result ≡ Arguments.referred need }
{
    match need {
        Need::Var(sort) | Need::Pers(sort) | Need::VarOrPers(sort) | Need::Written(sort) =>
            Wanted::ReferenceTo(sort),
        _ => Wanted::Reference,
    }
}

fn is_written(need: Need) -> bool
    ensures { result ≡ Arguments.is_written need }
{
    matches!(need, Need::Written(_))
}

/// What is never written: a CONST, the variable of a FOR, ERRNO, a predefined datum (RAPID Kernel, assignment
/// statement).
pub fn is_fixed(source: &Source) -> bool
    ensures { result ≡ Arguments.is_fixed source.now }
{
    match source {
        Source::Place { access, .. } => matches!(access, Access::Fixed),
        Source::Value(_) => true,
        Source::Errno => true,
        Source::Signal(_) => false,
    }
}

/// How the place of a source may be accessed; a source without a place is never written.
fn access_in(source: &Source) -> Access
    ensures { result ≡ Arguments.access_in source.now }
{
    match source {
        Source::Place { access, .. } => *access,
        Source::Value(_) | Source::Errno | Source::Signal(_) => Access::Fixed,
    }
}

/// A place passed by reference, if the rule holds.
pub(crate) fn lent(
    site: &Site<'_>,
    holds: bool,
    at: usize,
    rule: TypeRule,
    place: PlacePart,
) -> Result<Arg, TypeFault>
    ensures { Gives view_arg result (Arguments.lent (view_site site.now) holds at rule (view_part place) place.source) }
{
    match root_of(&place.source) {
        None => Err(fault(site, at, rule)),
        Some(root) => {
            must(site, holds, at, rule)?;
            Ok(Arg::Place(tree_place(site, root, place)?))
        }
    }
}

/// The root of the place of a source.
fn root_of(source: &Source) -> Option<TreeRoot>
    ensures { result ≡ Arguments.root_of source.now }
{
    match source {
        Source::Place { root, .. } => Some(*root),
        Source::Value(_) | Source::Errno | Source::Signal(_) => None,
    }
}

/// A place that the callee reads and writes, as an argument that starts at this byte.
pub(crate) fn lent_as(
    site: &Site<'_>,
    need: Need,
    at: usize,
    place: PlacePart,
) -> Result<Arg, TypeFault>
    ensures { Gives view_arg result (Arguments.lent_as (view_site site.now) need at (view_part place)) }
{
    let holds = !(is_written(need) && is_fixed(&place.source));
    must(site, holds, at, TypeRule::ReadOnly)?;
    let holds = lends(need, access_in(&place.source)) && takes(need, place.sort);
    lent(site, holds, at, TypeRule::BadRef, place)
}

/// A place of a type, of any kind, as an argument that starts at this byte.
pub(crate) fn lent_of(
    site: &Site<'_>,
    sort: Sort,
    at: usize,
    place: PlacePart,
) -> Result<Arg, TypeFault>
    ensures { Gives view_arg result (Arguments.lent_of (view_site site.now) sort at (view_part place)) }
{
    let holds = same_sort(place.sort, sort);
    lent(site, holds, at, TypeRule::TypeClash, place)
}

/// Whether an array with elements of this type may be passed.
fn array_fits(need: Need, sort: Sort) -> bool
    ensures { result ≡ Arguments.array_fits need sort }
{
    match need {
        Need::TaskList => same_sort(Sort::Tasks, sort),
        _ => has_values(sort),
    }
}

/// An array without an index as an argument that starts at this byte; `bare` if it has neither index nor components.
pub(crate) fn lent_whole(
    site: &Site<'_>,
    need: Need,
    at: usize,
    bare: bool,
    place: PlacePart,
) -> Result<Arg, TypeFault>
    ensures { Gives view_arg result (Arguments.lent_whole (view_site site.now) need at bare (view_part place)) }
{
    let holds = place.array && bare && array_fits(need, place.sort);
    lent(site, holds, at, TypeRule::TypeClash, place)
}

/// A place of a type, of any kind, with the rule reported at this byte.
pub(crate) fn lent_at_place(
    site: &Site<'_>,
    sort: Sort,
    at: usize,
    place: PlacePart,
) -> Result<TreePlace, TypeFault>
    ensures { Gives view_place result (Places.lent_of (view_site site.now) sort at (view_part place)) }
{
    match root_of(&place.source) {
        None => Err(fault(site, at, TypeRule::TypeClash)),
        Some(root) => {
            must(site, same_sort(place.sort, sort), at, TypeRule::TypeClash)?;
            tree_place(site, root, place)
        }
    }
}

/// A part of a place with this root. Fails only if an allocation fails.
fn tree_place(site: &Site<'_>, root: TreeRoot, place: PlacePart) -> Result<TreePlace, TypeFault>
    ensures { Gives view_place result (Ok (PlaceOf root (view_held place.index) place.part place.sort)) }
{
    let PlacePart {
        source: _,
        array: _,
        index,
        part,
        sort,
    } = place;
    let place = TreePlace::new(site.alloc, root, index, part, sort)?;
    Ok(place)
}
