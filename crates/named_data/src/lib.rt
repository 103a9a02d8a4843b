//! What a name stands for in an expression, and which type the place of an expression requires.
#![tactic(auto)]

mod access;
mod component;
mod data;
mod named;
mod names;
mod numbers;
mod places;
mod rules;
mod site;
mod values;
mod wanted;
mod wants;

pub use component::{Part, part_at};
pub use data::datum_at;
pub use data_scopes::same_sort;
pub use named::{Access, NamedDatum, Source};
pub use names::name_text;
pub use numbers::number_of;
pub use rules::{fault, must};
pub use site::Site;
pub use wanted::Wanted;
pub use wants::{clash, comes_to, fits, hands_on, inside, suits, untyped};
