//! Tests of clearances: gaps worked by hand, and ten thousand random segments and zones against a second computation from
//! the definition and against points of the segment.
#![tactic(auto)]

#[cfg(test)]
mod by_hand;
#[cfg(test)]
mod case;
#[cfg(test)]
mod checked;
#[cfg(test)]
mod exact;
#[cfg(test)]
mod fraction;
#[cfg(test)]
mod limits;
#[cfg(test)]
mod lines;
#[cfg(test)]
mod random;
#[cfg(test)]
mod trials;
