//! The meaning of the language: what a task does, as definitions that contracts cite, and laws about them.
#![tactic(auto)]

mod laws;

pub use laws::{
    caps_are_whole_parts, constants_come_to_their_values, constants_fail_as_their_values,
    empty_error_parts_pass_errors_on, frames_have_room, fuel_is_enough, homes_are_halfway,
    loops_turn_by_their_closed_form, moves_are_planned, moves_end, runs_go_on,
    tasks_ask_one_request, three_decimals_are_fixed, waits_look_again,
};
