ghost use Rattle.std.specs.Prelude.{◌≡◌, ◌↔◌, [], ◌∷◌, ◌++◌, List, Option, Some, IsSome, IsSomeAnd, None};
ghost use Rattle.rapid_model.specs.Own.{fate_of};
ghost use Rattle.rapid_model.specs.declared.answer.Answer.{Answer};
ghost use Rattle.rapid_model.specs.declared.request.Request.{Request};

use rapid_model::{Answer, Request};

/// A machine that runs the program of one task. It makes one request at a time, and goes on with its answer.
pub trait TaskMachine {
    // What machines of this kind run.
    ghost Program: { Type 0 };

    // What the machine runs, from its first request to its End.
    ghost program: { Self → Program };

    // Each of these answers fits what the program asked, the first of them its first request.
    ghost fits: { Program → List Answer → Type 0 };

    // After these answers the program asks this.
    ghost asks: { Program → List Answer → Request → Type 0 };

    // The machine has asked nothing yet.
    ghost is_fresh: { Self → Type 0 };

    // The machine has reached what its program asks after these answers.
    ghost stands_for: { Self → List Answer → Type 0 };

    // The request that is due: the last one asked, not answered yet.
    ghost due: { Self → Option Request };

    /// Asks the first request, which is then due.
    fn first(&mut self)
        requires { is_fresh self.old }
        ensures program { program self.new ≡ program self.old }
        ensures due { IsSome (due self.new) }
        ensures stands { stands_for self.new [] };

    /// Goes on with an answer that fits the request that is due, and asks the next, which is then due. There is none
    /// after an End.
    fn next(&mut self, answer: Answer)
        requires goes_on { IsSomeAnd (due self.old) (λ request. fate_of request ≡ None) }
        requires fitting { (answers : List Answer) × stands_for self.old answers × fits (program self.old) (answers ++ answer ∷ []) }
        ensures program { program self.new ≡ program self.old }
        ensures due { IsSome (due self.new) }
        ensures stands { (answers : List Answer) → stands_for self.old answers → stands_for self.new (answers ++ answer ∷ []) };

    /// The request that is due.
    fn last(&self) -> &Request
        requires { IsSome (due self.now) }
        ensures { due self.now ≡ Some result.now };

    // After answers that fit it, a program asks one request only: the one that is due at a machine that stands for
    // them.
    ghost asks_due: { (m : Self) (answers : List Answer) (request other : Request) → stands_for m answers → due m ≡ Some request → asks (program m) answers other ↔ (other ≡ request) };
}
