ghost use Rattle.cell_meaning.specs.Asking.{Asking};

use std::marker::Brand;

/// Who asks what of a cell. A law or a run holds for any relation of asking; its caller picks the relation (`Brand`),
/// such as that of source trees or that of compiled code.
pub trait Askers {
    ghost asks: { Asking };
}

impl Askers for Brand {
    ghost asks = { λ actor answers request. ⊥ };
}
