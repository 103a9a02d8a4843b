ghost use Rattle.std.specs.Prelude.{◌≡◌, Some, IfSome};
ghost use Rattle.std.specs.Option.{option_copied};
ghost use Rattle.rapid_meaning.specs.Places.{place_in};
ghost use Rattle.rapid_model.specs.declared.value.Value.TheVariants as values;
ghost use Rattle.typed_trees.specs.declared.datum.Datum.TheVariants as datums;
ghost use Rattle.machine_stacks.specs.Forms.{as_bool, as_mark, as_num, as_shape, as_value};
ghost use Rattle.machine_stacks.specs.Words.{in_word};

use crate::word::Word;
use rapid_model::Value;
use rapid_num::{Num, Shape};
use std::marker::Model;
use typed_trees::{Datum, Lvalue};

/// A datum as a machine keeps it: 312 bytes, shapes in place, so that a copy does not allocate. Contracts see the
/// datum.
#[derive(Debug, Drop)]
pub struct Held {
    kept: Kept,
}

#[derive(Debug, Drop)]
enum Kept {
    Plain(Value),
    Mark(u8),
    Shape(Option<Shape>),
    Place(Lvalue),
}

impl Model for Held {
    ghost use Rattle.typed_trees.specs.declared.datum.Datum.{Datum};

    ghost Value = { Datum };

    ghost use Rattle.machine_stacks.specs.Kept.{datum_of};

    ghost view = { λ h. datum_of h.kept };
}

impl Held {
    /// Keeps a datum. Does not allocate.
    pub fn of(datum: &Datum) -> Held
        ensures { result ≡ datum.now }
    {
        match datum {
            Datum::Plain(value) => Held::of_value(value.copy()),
            Datum::Mark(number) => Held::of_mark(*number),
            Datum::Shape(None) => Held::of_shape(None),
            Datum::Shape(Some(shape)) => Held::of_shape(Some(*shape.shape())),
            Datum::Place(place) => Held::of_place(*place),
        }
    }

    /// Keeps a value of a type that has values. Does not allocate.
    pub fn of_value(value: Value) -> Held
        ensures { result ≡ datums.Plain value }
    {
        Held {
            kept: Kept::Plain(value),
        }
    }

    /// Keeps the number of an interrupt or of a zone; 0 if there is none. Does not allocate.
    pub fn of_mark(number: u8) -> Held
        ensures { result ≡ datums.Mark number }
    {
        Held {
            kept: Kept::Mark(number),
        }
    }

    /// Keeps a shape, if it was defined. Does not allocate.
    pub fn of_shape(shape: Option<Shape>) -> Held
        ensures { result ≡ datums.Shape shape }
    {
        Held {
            kept: Kept::Shape(shape),
        }
    }

    /// Keeps what a reference parameter stands for. Does not allocate.
    pub fn of_place(place: Lvalue) -> Held
        ensures { result ≡ datums.Place place }
    {
        Held {
            kept: Kept::Place(place),
        }
    }

    /// An equal datum. Does not allocate.
    pub fn copy(&self) -> Held
        ensures { result ≡ self.now }
    {
        match &self.kept {
            Kept::Plain(value) => Held::of_value(value.copy()),
            Kept::Mark(number) => Held::of_mark(*number),
            Kept::Shape(shape) => Held::of_shape(*shape),
            Kept::Place(place) => Held::of_place(*place),
        }
    }

    /// The value; none if it is no value.
    pub fn value(&self) -> Option<&Value>
        ensures { option_copied result ≡ as_value self.now }
    {
        match &self.kept {
            Kept::Plain(value) => Some(value),
            _ => None,
        }
    }

    /// The value, taken out of the datum; none if it is no value.
    pub fn into_value(self) -> Option<Value>
        ensures { result ≡ as_value self }
    {
        let Held { kept } = self;
        match kept {
            Kept::Plain(value) => Some(value),
            _ => None,
        }
    }

    /// The num; none if it is no num.
    pub fn num(&self) -> Option<Num>
        ensures { result ≡ as_num self.now }
    {
        match &self.kept {
            Kept::Plain(Value::Num(number)) => Some(*number),
            _ => None,
        }
    }

    /// Makes the datum this num. Over a num it writes only the num.
    pub fn set_num(&mut self, number: Num)
        ensures { self.new ≡ datums.Plain (values.Num number) }
    {
        match &mut self.kept {
            Kept::Plain(Value::Num(old)) => *old = number,
            _ => self.kept = Kept::Plain(Value::Num(number)),
        }
    }

    /// The bool; none if it is no bool.
    pub fn truth(&self) -> Option<bool>
        ensures { result ≡ as_bool self.now }
    {
        match &self.kept {
            Kept::Plain(Value::Bool(truth)) => Some(*truth),
            _ => None,
        }
    }

    /// The datum in one word; none if it takes more than that.
    pub(crate) fn word(&self) -> Option<Word>
        ensures { IfSome result (λ word. in_word word ≡ Some self.now) }
    {
        match &self.kept {
            Kept::Plain(Value::Num(number)) => Some(Word::Num(*number)),
            Kept::Plain(Value::Bool(truth)) => Some(Word::Bool(*truth)),
            Kept::Mark(number) => Some(Word::Mark(*number)),
            Kept::Place(place) => Some(Word::of_place(*place)),
            _ => None,
        }
    }

    /// The number of an interrupt or of a zone; none if it is no such datum.
    pub fn mark(&self) -> Option<u8>
        ensures { result ≡ as_mark self.now }
    {
        match &self.kept {
            Kept::Mark(number) => Some(*number),
            _ => None,
        }
    }

    /// The shape, if it was defined; none if the datum is no shape.
    pub fn shape(&self) -> Option<Option<Shape>>
        ensures { result ≡ as_shape self.now }
    {
        match &self.kept {
            Kept::Shape(shape) => Some(*shape),
            _ => None,
        }
    }

    /// What the reference parameter stands for; none if it is no such datum.
    pub fn place(&self) -> Option<Lvalue>
        ensures { result ≡ place_in self.now }
    {
        match &self.kept {
            Kept::Place(place) => Some(*place),
            _ => None,
        }
    }
}
