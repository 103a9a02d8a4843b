//! Laws of histories and their texts.

ghost use Rattle.std.specs.Prelude.{◌≡◌, ℕ, List};
ghost use Rattle.rapid_model.specs.declared.event.Event.{Event};
ghost use Rattle.rapid_model.specs.declared.fate.Fate.{Fate};
ghost use Rattle.history_text.specs.HistoryText.{AreNamed, IsFirstFault, Spells};
ghost use Rattle.history_text.specs.Named.{NamesData};

/// A law: two histories that fit the names of a cell and have the same text are the same.
pub fn history_is_one()
    ensures { (names : NamesData) (text : List ℕ) (events others : List Event) (fates ends : List Fate) → AreNamed names.tasks → Spells names text events fates → Spells names text others ends → (events ≡ others) × (fates ≡ ends) }
{}

/// A law: a text that is a history has no faulty line, and in any other text at most one line is the first faulty one.
pub fn first_fault_is_one()
    ensures none { (names : NamesData) (text : List ℕ) (events : List Event) (fates : List Fate) (number : ℕ) → AreNamed names.tasks → Spells names text events fates → IsFirstFault names text number → ⊥ }
    ensures one { (names : NamesData) (text : List ℕ) (number other : ℕ) → IsFirstFault names text number → IsFirstFault names text other → number ≡ other }
{}
