//! The predefined functions (RAPID Instructions, Functions and Data types).

ghost use Rattle.std.specs.Prelude.{◌≡◌, map};
ghost use Rattle.rapid_builtins.specs.Names.{function_of, function_rows};

use crate::table::meant_by;
use rapid_model::Function;

static FUNCTIONS: [(&[u8], Function); 9] = [
    (b"Abs", Function::Abs),
    (b"Trunc", Function::Trunc),
    (b"StrLen", Function::StrLen),
    (b"NumToStr", Function::NumToStr),
    (b"Dim", Function::Dim),
    (b"CJointT", Function::CJointT),
    (b"TestDI", Function::TestDI),
    (b"DOutput", Function::DOutput),
    (b"TestAndSet", Function::TestAndSet),
];

/// The function with a name; `None` exactly for other names. Names are case-insensitive (RAPID Instructions, Functions
/// and Data types; RAPID Kernel, identifiers).
pub fn function(name: &[u8]) -> Option<Function>
    ensures { result ≡ function_of name.now }
{
    meant_by(&FUNCTIONS, name)
}

/// The names of the functions, and what each stands for.
pub fn function_rows() -> &'static [(&'static [u8], Function)]
    ensures { map (λ row. (row.0.now, row.1)) result.now ≡ function_rows }
{
    &FUNCTIONS
}
