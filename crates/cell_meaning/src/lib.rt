//! What a cell answers, and what a history is: the definitions that the run theorem cites, and the laws on whole
//! histories.
#![tactic(auto)]

mod askers;
mod full;
mod laws;
mod told;

pub use askers::Askers;
pub use full::starts_full;
pub use laws::{
    answer_is_one, answers_fit, each_history_has_its_order, input_script_is_an_actor,
    interrupts_are_as_asked, meetings_are_as_arrived, no_choices_are_by_turns,
    outputs_follow_their_zones, run_by_turns_is_legal_and_whole, run_by_turns_is_one,
    run_in_order_is_legal_and_whole, run_in_order_is_one, stalled_history_is_whole,
    stalled_tasks_wait, who_ask_the_same_have_the_same_histories, whole_history_is_over,
    zones_are_as_given,
};
pub use told::{
    disabled_tasks_begin_no_trap, fates_are_as_ended, floods_stay, new_numbers_are_least,
    queues_stay, script_comes_last, signals_are_as_set, written_signals_stay,
};
