//! Laws about parts of typed values.

ghost use Rattle.std.specs.Prelude.{◌≡◌, IsTrue, IsSomeAnd};
ghost use Rattle.rapid_model.specs.declared.part_name.PartName.{PartName};
ghost use Rattle.rapid_model.specs.declared.sort.Sort.{Sort};
ghost use Rattle.rapid_model.specs.declared.value.Value.{Value};
ghost use Rattle.rapid_model.specs.Paths.{fits_part, has_sort, part_sort};
ghost use Rattle.rapid_values.specs.Values.{part_of, put_part};

/// A law: a value of a type has each part of the type, and the part is of its own type. After a fitting value is put in
/// as a part, it is still of its type (RAPID Kernel, data references, assignment).
pub fn parts_fit()
    ensures there { (sort inner : Sort) (v : Value) (p : PartName) → IsTrue (has_sort sort v) → part_sort sort p ≡ Some inner → IsSomeAnd (part_of v p) (λ w. IsTrue (has_sort inner w)) }
    ensures put { (sort : Sort) (v new : Value) (p : PartName) → IsTrue (has_sort sort v) → IsTrue (fits_part sort p new) → IsSomeAnd (put_part v p new) (λ w. IsTrue (has_sort sort w)) }
{}
