//! Laws about modules.

ghost use Rattle.std.specs.Prelude.{◌≡◌, ℕ, List, Result};
ghost use Rattle.raw_trees.specs.Plain.{PlainModule};
ghost use Rattle.rapid_forms.specs.declared.fault.SyntaxFault.{SyntaxFault};
ghost use Rattle.module_parser.specs.Modules.{ModuleText, SpellsWithin};

/// A text has one result: a module, a lexical fault, or a fault of its tokens. It spells at most one module, at any
/// depth.
pub fn one_module()
    ensures one { (source : List ℕ) (a b : Result PlainModule SyntaxFault) → ModuleText source a → ModuleText source b → a ≡ b }
    ensures tree { (m n : ℕ) (t u : PlainModule) (source : List ℕ) → SpellsWithin m t source → SpellsWithin n u source → t ≡ u }
{}
