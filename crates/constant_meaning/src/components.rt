//! The components of an aggregate: as many as any type has, and one more (RAPID Kernel, aggregates).

ghost use Rattle.std.specs.Prelude.{◌≡◌, ◌≤◌, nat_lt, false, [], ◌∷◌, ◌++◌, length, take, if◌then◌else◌};

use rapid_model::Value;

/// Seven placeholders for components.
pub(crate) fn blanks() -> [Value; 7] {
    [
        Value::Bool(false),
        Value::Bool(false),
        Value::Bool(false),
        Value::Bool(false),
        Value::Bool(false),
        Value::Bool(false),
        Value::Bool(false),
    ]
}

/// Stores a value after the first `count`, if there is room, and returns how many there are now.
pub(crate) fn keep(values: &mut [Value; 7], count: usize, value: Value) -> usize
    requires { count ≤ 7 }
    ensures bound { result ≤ 7 }
    ensures values { take result values.new ≡ (if nat_lt count 7 then take count values.old ++ value ∷ [] else take count values.old) }
    ensures full { nat_lt count 7 ≡ false → length (take count values.old) ≡ 7 }
{
    if count == 7 {
        return count;
    }
    values[count] = value;
    count + 1
}
