//! A law book: what is promised to whoever runs the program, as laws over what `run` ensures. There is no code here.
#![tactic(auto)]

mod chain_laws;
mod frame_laws;
mod laws;
mod length_laws;
mod name_laws;
mod origin_laws;
mod promises;
mod session_laws;
mod source_laws;
mod step_laws;

pub use chain_laws::chains_of_runs_hold_one_history;
pub use frame_laws::{
    any_bytes_are_followed, followed_frames_are_offered, followers_go_on_with_their_primary,
    followers_own_fronts_of_their_primary, reports_are_the_frames_of_accepted_events,
};
pub use laws::{
    certificates_are_sharp, dropped_streams_are_unknown, guesses_lie_between_the_ends,
    landmark_values_are_told, newest_values_are_told, presence_holds_the_truth,
    queries_hold_the_truth, reports_are_replies, series_hold_the_truth, sessions_leave_a_history,
};
pub use length_laws::files_are_as_short_as_their_streams;
pub use name_laws::{created_streams_begin_anew, dropped_names_are_unknown};
pub use origin_laws::old_values_change_answers_to_has_alone;
pub use promises::{
    checks_and_generated_files_are_told, runs_hold_what_they_acknowledge,
    statuses_have_their_causes,
};
pub use session_laws::{
    conversations_hold_the_truth, conversations_leave_a_history,
    cursors_show_the_history_at_their_opening, sessions_say_what_commands_bring,
};
pub use source_laws::sources_are_blamed_with_cause;
pub use step_laws::{conversations_answer_whole_steps_exactly, whole_steps_are_answered_exactly};
