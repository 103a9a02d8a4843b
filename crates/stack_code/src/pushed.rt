ghost use Rattle.std.specs.Prelude.{◌≡◌, IfOk};
ghost use Rattle.typed_trees.specs.declared.datum.Datum.TheVariants.{Plain};
ghost use Rattle.rapid_model.specs.declared.value.Value.TheVariants.{Num as OfNum};

use rapid_model::Value;
use rapid_num::Num;
use std::alloc::{AllocError, Global};
use std::marker::Model;

/// A value that an operation pushes. A num is stored in the operation itself and any other value apart, to keep
/// operations small: 16 bytes. Contracts see the datum.
#[derive(Drop)]
pub struct Pushed {
    kept: Kept,
}

#[derive(Drop)]
enum Kept {
    Number(Num),
    Other(Box<Value>),
}

impl Model for Pushed {
    ghost use Rattle.typed_trees.specs.declared.datum.Datum.{Datum};
    ghost use Rattle.stack_code.specs.Kept.{datum_of};

    ghost Value = { Datum };

    ghost view = { λ p. datum_of p.kept };
}

impl Pushed {
    /// A num. Takes no memory.
    pub fn number(number: Num) -> Pushed
        ensures { result ≡ Plain (OfNum number) }
    {
        let kept = Kept::Number(number);
        Pushed { kept }
    }

    /// A value. Fails only if an allocation fails.
    pub fn value(alloc: Global, value: Value) -> Result<Pushed, AllocError>
        ensures { IfOk result (λ p. p ≡ Plain value) }
    {
        let kept = match value {
            Value::Num(number) => Kept::Number(number),
            other => Kept::Other(Box::new(alloc, other)?),
        };
        Ok(Pushed { kept })
    }

    /// An equal value. Takes no memory.
    pub fn kept_value(&self) -> Value
        ensures { self.now ≡ Plain result }
    {
        match &self.kept {
            Kept::Number(number) => Value::Num(*number),
            Kept::Other(value) => value.copy(),
        }
    }
}
