//! Parts of data.
#![tactic(auto)]

ghost use Rattle.std.specs.Prelude.{◌≡◌, None};
ghost use Rattle.rapid_model.specs.declared.part_name.PartName.TheVariants as parts;
ghost use Rattle.machine_stacks.specs.Forms.{as_value};
ghost use Rattle.rapid_meaning.specs.Places.{part_in, put_in};

use machine_stacks::Held;
use rapid_model::PartName;
use rapid_values::{part, with_part};

/// The part of a datum. None if it has no such part; only a value has parts besides the whole.
pub(crate) fn part_in(name: PartName, held: &Held) -> Option<Held>
    ensures { result ≡ part_in name held.now }
{
    match held.value() {
        Some(value) => match part(value, name) {
            Some(value) => Some(Held::of_value(value)),
            None => None,
        },
        None => whole_in(name, held),
    }
}

/// The whole of a datum that is no value.
fn whole_in(name: PartName, held: &Held) -> Option<Held>
    requires { as_value held.now ≡ None }
    ensures { result ≡ part_in name held.now }
{
    match name {
        PartName::Whole => Some(held.copy()),
        _ => None,
    }
}

/// A datum with one part replaced; its form stays. None if it has no such part or the new part has another form.
pub(crate) fn put_in(name: PartName, new: &Held, old: &Held) -> Option<Held>
    ensures { result ≡ put_in name new.now old.now }
{
    match (new.value(), old.value()) {
        (Some(new), Some(old)) => match with_part(old.copy(), name, new.copy()) {
            Some(value) => Some(Held::of_value(value)),
            None => None,
        },
        (None, None) => exchanged(name, new, old),
        _ => None,
    }
}

/// A new datum that is no value, if it has the form of the old one.
fn exchanged(name: PartName, new: &Held, old: &Held) -> Option<Held>
    requires new { as_value new.now ≡ None }
    requires old { as_value old.now ≡ None }
    ensures { result ≡ put_in name new.now old.now }
{
    match name {
        PartName::Whole => exchanged_whole(new, old),
        _ => None,
    }
}

fn exchanged_whole(new: &Held, old: &Held) -> Option<Held>
    requires new { as_value new.now ≡ None }
    requires old { as_value old.now ≡ None }
    ensures { result ≡ put_in parts.Whole new.now old.now }
{
    let marks = new.mark().is_some() && old.mark().is_some();
    let shapes = new.shape().is_some() && old.shape().is_some();
    if marks || shapes {
        Some(new.copy())
    } else {
        None
    }
}
