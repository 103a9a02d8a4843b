//! Laws of the options.

ghost use Rattle.std.specs.Prelude.{◌≡◌, true, map, length};
ghost use Rattle.rapid_model.specs.Names.{differ};
ghost use Rattle.rapid_model.specs.declared.instruction.Instruction.{Instruction};
ghost use Rattle.rapid_builtins.specs.declared.option_choice.Choice.{Choice};
ghost use Rattle.rapid_builtins.specs.Calls.{options, choice};

/// The options of an instruction have different names, so each name means one option; and an instruction whose options
/// exclude each other has two, besides `Inside` if it takes that too.
pub fn options_differ()
    ensures differ { (i : Instruction) → differ (map (λ o. o.name) (options i)) ≡ true }
    ensures two { (i : Instruction) → ¬ (choice i ≡ Choice.Any) → ¬ (choice i ≡ Choice.InsideAndOne) → length (options i) ≡ 2 }
    ensures three { (i : Instruction) → choice i ≡ Choice.InsideAndOne → length (options i) ≡ 3 }
{}
