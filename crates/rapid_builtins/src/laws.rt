//! Laws of the predefined names.

ghost use Rattle.std.specs.Prelude.{◌≡◌, ℕ, List, true};
ghost use Rattle.std.specs.List.{Contains};
ghost use Rattle.rapid_model.specs.Names.{differ};
ghost use Rattle.rapid_model.specs.declared.instruction.Instruction.{Instruction};
ghost use Rattle.rapid_model.specs.declared.function.Function.{Function};
ghost use Rattle.rapid_model.specs.declared.predefined.Predefined.{Predefined};
ghost use Rattle.rapid_builtins.specs.Names.{instruction_rows, instruction_of, function_rows, function_of, type_rows, data_rows, predefined_of, all_names};

/// The predefined names all differ, so each has one meaning, and each row of a table is found by its name.
pub fn names_differ()
    ensures differ { differ all_names ≡ true }
    ensures instructions { (name : List ℕ) (x : Instruction) → Contains instruction_rows (name, x) → instruction_of name ≡ Some x }
    ensures functions { (name : List ℕ) (x : Function) → Contains function_rows (name, x) → function_of name ≡ Some x }
    ensures types { (name : List ℕ) (x : Predefined) → Contains type_rows (name, x) → predefined_of name ≡ Some x }
    ensures data_objects { (name : List ℕ) (x : Predefined) → Contains data_rows (name, x) → predefined_of name ≡ Some x }
{}
