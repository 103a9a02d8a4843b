ghost use Rattle.std.specs.Prelude.{◌≡◌, ℕ, List, Some};
ghost use Rattle.rapid_model.specs.declared.answer.Answer.{Answer};
ghost use Rattle.rapid_model.specs.declared.request.Request.{Request};
ghost use Rattle.rapid_meaning.specs.Answering.{Asking};
ghost use Rattle.stack_code.specs.CodeRuns.{code_after};
ghost use Rattle.task_machine.specs.MachineData.{MachineData, request_of};
ghost use Rattle.task_machine.specs.Standing.{StandsFor};

/// A law: after the answers that a machine stands for, its code asks the request that is due and has the machine's
/// data.
pub fn machines_ask_what_code_asks()
    ensures { (m : MachineData) (answers : List Answer) (request : Request) → StandsFor m answers → request_of m ≡ Some request → (k : ℕ) × (code_after m.code k answers ≡ Asking request m.data') }
{}
