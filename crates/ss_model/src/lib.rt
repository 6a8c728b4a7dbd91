//! A law book: the definitions that several crates speak of, and laws over them. There is no code here.
#![tactic(auto)]

mod answer_laws;
mod closing_laws;
mod decay_laws;
mod history_laws;
mod laws;
mod newest;
mod newest_laws;
mod outcome;
mod outline_laws;
mod query_laws;
mod series_laws;
mod step_laws;
mod types;

pub use answer_laws::{
    estimates_have_the_ends, outcomes_hold_the_truth, queries_are_refused_or_answered,
};
pub use closing_laws::{
    closing_again_changes_nothing, closing_is_confluent, closing_is_joining_what_is_due,
    interrupted_joins_close_to_the_windows, joining_due_keeps_windows, joins_add_up,
};
pub use decay_laws::{
    closing_leaves_none_due, cover_is_least, decay_bound, decay_bound_with_steps,
    no_window_crosses_a_step, no_window_outgrows_its_target,
};
pub use history_laws::{
    histories_go_on, origins_change_filters_alone, other_streams_stay, states_go_on_by_steps,
    states_keep_to_their_targets, states_stay_states, streams_are_of_their_values,
};
pub use laws::{
    append_keeps_windows, closing_keeps_newest_time, closing_keeps_taken, closing_keeps_windows,
    incremental_is_from_scratch, joining_keeps_windows, windows_are_neighbours,
    windows_count_values, windows_end_last, windows_stand_in_place,
};
pub use newest::{Known, Newest};
pub use newest_laws::{kept_values_are_of_the_history, newest_values_hold_the_truth};
pub use outcome::{Outcome, Presence};
pub use outline_laws::refusals_read_outlines;
pub use query_laws::{
    answers_hold_the_truth, answers_hold_the_truth_of_histories, one_of_some_is_among_them,
    one_window_leaves_means_open, unsplit_answers_are_exact,
};
pub use series_laws::rows_hold_the_truth;
pub use step_laws::whole_steps_are_exact;
pub use types::{Ack, MOST_RECORDS, Placed, Run, StreamRow, Window};
