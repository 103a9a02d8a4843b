//! Laws of values: their parts, and when two are equal.

ghost use Rattle.std.specs.Prelude.{IsTrue, List, length, slice_get, true, ℕ, ◌<◌, ◌↔◌, ◌≡◌, ◌≤◌};
ghost use Rattle.std.specs.List.{list_all};
ghost use Rattle.rapid_model.specs.declared.sort.Sort.{Sort};
ghost use Rattle.rapid_model.specs.declared.value.Value.{Value};
ghost use Rattle.rapid_model.specs.declared.part_name.PartName.{PartName};
ghost use Rattle.rapid_values.specs.Components.{Component, components};
ghost use Rattle.rapid_values.specs.Values.{made_of, part_of, put_part};
ghost use Rattle.rapid_values.specs.Equality.{same};
ghost use Rattle.rapid_model.specs.Lengths as lengths;

use rapid_model::Value;
use rapid_num::Num;

/// Each value has as many nums as its type says: 6 in a robjoint and in an extjoint, 12 in a jointtarget, 4 in a
/// speeddata.
pub fn value_is_full(value: &Value)
    ensures { lengths.is_full value.now ≡ true }
{
    match value {
        Value::Rob(axes) => is_long(axes),
        Value::Ext(axes) => is_long(axes),
        Value::Target(joints) => is_long(&joints.axis),
        Value::Speed(nums) => is_long(nums),
        _ => {}
    }
}

/// An array has as many elements as its type says.
fn is_long<const N: usize>(nums: &[Num; N])
    ensures { length nums.now ≡ N }
{}

/// A part that was replaced is the new one, and the value has as many nums as before; other axes, the other half of a
/// jointtarget, and other parts of a speed are unchanged (RAPID Kernel, assignment).
pub fn put_parts()
    ensures there { (v w new : Value) (p : PartName) → lengths.is_full v ≡ true → lengths.is_full new ≡ true → put_part v p new ≡ Some w → part_of w p ≡ Some new }
    ensures full { (v w new : Value) (p : PartName) → lengths.is_full v ≡ true → lengths.is_full new ≡ true → put_part v p new ≡ Some w → lengths.is_full w ≡ true }
    ensures other_axes { (v w new : Value) (j k : ℕ) → (j ≡ k → ⊥) → put_part v (PartName.Axis j) new ≡ Some w → part_of w (PartName.Axis k) ≡ part_of v (PartName.Axis k) }
    ensures other_half { (v w new : Value) → lengths.is_full v ≡ true → lengths.is_full new ≡ true → (put_part v PartName.Robax new ≡ Some w → part_of w PartName.Extax ≡ part_of v PartName.Extax) × (put_part v PartName.Extax new ≡ Some w → part_of w PartName.Robax ≡ part_of v PartName.Robax) }
    ensures other_speeds { (v w new : Value) (j k : ℕ) → (j ≡ k → ⊥) → put_part v (PartName.SpeedPart j) new ≡ Some w → part_of w (PartName.SpeedPart k) ≡ part_of v (PartName.SpeedPart k) }
{}

/// A value made of components has each of them as the part that the component's name stands for, and the axes of a
/// jointtarget's two halves are its own, under the same numbers (RAPID Instructions, Functions and Data types:
/// robjoint, extjoint, jointtarget, speeddata, tasks).
pub fn made_parts()
    ensures made { (sort : Sort) (vs : List Value) (v : Value) (i : ℕ) (c : Component) → list_all lengths.is_full vs ≡ true → made_of sort vs ≡ Some v → slice_get (components sort) i ≡ Some c → part_of v c.part ≡ slice_get vs i }
    ensures arm { (v arm : Value) (j : ℕ) → j < 6 → part_of v PartName.Robax ≡ Some arm → part_of arm (PartName.Axis j) ≡ part_of v (PartName.Axis j) }
    ensures external { (v external : Value) (j : ℕ) → 6 ≤ j → part_of v PartName.Extax ≡ Some external → part_of external (PartName.Axis j) ≡ part_of v (PartName.Axis j) }
{}

/// Two values are equal exactly if they have the same form and are equal in every part.
pub fn equal_values()
    ensures { (v w : Value) → IsTrue (same v w) ↔ (v ≡ w) }
{}

/// Equality of values does not depend on their order.
pub fn equality_is_symmetric()
    ensures { (v w : Value) → same v w ≡ same w v }
{}
