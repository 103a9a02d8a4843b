//! Tests of the boards of a cell on examples worked by hand: zones in joint space, persistents, signals, meetings,
//! interrupts, the zones of arms, and the pages of a history.
#![tactic(auto)]

#[cfg(test)]
mod cell;
#[cfg(test)]
mod clips;
#[cfg(test)]
mod kept;
#[cfg(test)]
mod meetings;
#[cfg(test)]
mod one_task;
#[cfg(test)]
mod pages;
#[cfg(test)]
mod persistents;
#[cfg(test)]
mod signals;
#[cfg(test)]
mod step;
#[cfg(test)]
mod three_tasks;
#[cfg(test)]
mod traps;
#[cfg(test)]
mod two_arms;
#[cfg(test)]
mod written;
#[cfg(test)]
mod zone_cell;
#[cfg(test)]
mod zone_step;
#[cfg(test)]
mod zones;
