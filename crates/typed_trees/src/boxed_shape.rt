ghost use Rattle.std.specs.Prelude.{◌≡◌, IfOk};

use rapid_num::Shape;
use std::alloc::{AllocError, Global};
use std::marker::Model;

/// A boxed shape, so that data without one stay small. Contracts see the shape.
#[derive(Debug, Drop)]
pub struct BoxedShape {
    shape: Box<Shape>,
}

impl Model for BoxedShape {
    ghost use Rattle.rapid_num.specs.declared.shape.Shape.{Shape};

    ghost Value = { Shape };

    ghost view = { λ b. b.shape.value };
}

impl BoxedShape {
    /// Boxes a shape. Fails only if an allocation fails.
    pub fn new(alloc: Global, shape: Shape) -> Result<BoxedShape, AllocError>
        ensures { IfOk result (λ b. b ≡ shape) }
    {
        let shape = Box::new(alloc, shape)?;
        Ok(BoxedShape { shape })
    }

    /// A copy in a box of its own. Fails only if an allocation fails.
    pub fn copy(&self, alloc: Global) -> Result<BoxedShape, AllocError>
        ensures { IfOk result (λ b. b ≡ self.now) }
    {
        BoxedShape::new(alloc, *self.shape)
    }

    /// The shape.
    pub fn shape(&self) -> &Shape
        ensures { result.now ≡ self.now }
    {
        &self.shape
    }
}
