use crate::printable::NameText;
use crate::value::Value;

/// The first value that a script gives to a global persistent, or to an element of an array, by its number from 1.
#[derive(Debug, Drop)]
pub struct PersValue {
    pub name: NameText,
    pub index: Option<u16>,
    pub value: Value,
}
