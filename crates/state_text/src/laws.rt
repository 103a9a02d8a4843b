ghost use Rattle.std.specs.Prelude.{◌≡◌, ◌∷◌, ◌++◌, ℕ, List, Some, codes, length, slice_get};
ghost use Rattle.rapid_model.specs.declared.event.Event.{Event};
ghost use Rattle.rapid_model.specs.declared.task_row.TaskRow.{TaskRow};
ghost use Rattle.typed_trees.specs.Plain.{TypedTree};
ghost use Rattle.history_text.specs.EventLines.{actor_words, event_line};
ghost use Rattle.state_text.specs.StateLines.{SourcesData};
ghost use Rattle.state_text.specs.TraceLines.{trace_lines};

/// A law: a trace has a line for each event, which without its place is the event's line in a history, but for the first
/// letter.
pub fn traces_are_histories()
    ensures count { (tasks : List TaskRow) (trees : List TypedTree) (sources : List SourcesData) (history : List Event) → length (trace_lines tasks trees sources history) ≡ length history }
    ensures lines { (tasks : List TaskRow) (trees : List TypedTree) (sources : List SourcesData) (history : List Event) (k : ℕ) (e : Event) → slice_get history k ≡ Some e → (place rest : List ℕ) × (slice_get (trace_lines tasks trees sources history) k ≡ Some (codes "M " ++ (actor_words tasks e.actor ++ (32 ∷ place ++ (32 ∷ rest))))) × (event_line tasks e ≡ codes "H " ++ (actor_words tasks e.actor ++ (32 ∷ rest))) }
{}
