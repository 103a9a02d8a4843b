//! The element of an array that a num names (RAPID Overview, arrays).
ghost use Rattle.std.specs.Prelude.{◌≡◌, ℕ, ◌*◌, ◌≤◌, pos, IfSome};
ghost use Rattle.rapid_values.specs.Elements.{element_number};

use rapid_num::Num;

/// The number, from 1, of the element that a num names in an array of `len` elements: Some exactly for an integer from
/// 1 to `len` (RAPID Overview, arrays).
pub fn whole_index(value: Num, len: u16) -> Option<u16>
    ensures same { result ≡ element_number len value }
    ensures named { IfSome result (λ index. (value ≡ pos (index * 1_000)) × (1 ≤ index) × (index ≤ len)) }
    ensures only { (index : ℕ) → value ≡ pos (index * 1_000) → 1 ≤ index → index ≤ len → result ≡ Some index }
{
    match element_number(len as usize, value) {
        Some(number) => Some(number as u16),
        None => None,
    }
}

/// The same for a list of any length.
pub fn element_number(len: usize, number: Num) -> Option<usize>
    ensures same { result ≡ element_number len number }
    ensures named { IfSome result (λ index. (number ≡ pos (index * 1_000)) × (1 ≤ index) × (index ≤ len)) }
    ensures only { (index : ℕ) → number ≡ pos (index * 1_000) → 1 ≤ index → index ≤ len → result ≡ Some index }
{
    let Ok(count) = usize::try_from(number.thousandths()) else {
        return None;
    };
    if count % 1_000 == 0 && 1 <= count / 1_000 && count / 1_000 <= len {
        return Some(count / 1_000);
    }
    None
}
