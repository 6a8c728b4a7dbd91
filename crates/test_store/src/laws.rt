// The laws of stores, of what queries answer and of replicas.
use ss_model::{
    answers_hold_the_truth, answers_hold_the_truth_of_histories, outcomes_hold_the_truth,
    unsplit_answers_are_exact,
};
use ss_replica::{
    events_have_the_next_frames, frames_are_refused_for_room_alone,
    replicas_own_fronts_of_their_primary, streams_own_their_events_since_their_create,
};
use ss_store::{
    query_refusals_of_what_is_held, refusals_of_what_is_held, unformatted_files_stand_for_nothing,
    what_is_held_counts_alike, what_is_held_is_found_alike, what_is_kept_is_the_state,
};
use ss_stream::few_windows_stand;

#[test]
fn laws_are_called() {
    what_is_kept_is_the_state();
    what_is_held_is_found_alike();
    what_is_held_counts_alike();
    refusals_of_what_is_held();
    query_refusals_of_what_is_held();
    few_windows_stand();
    unformatted_files_stand_for_nothing();
    answers_hold_the_truth();
    answers_hold_the_truth_of_histories();
    unsplit_answers_are_exact();
    outcomes_hold_the_truth();
    streams_own_their_events_since_their_create();
    events_have_the_next_frames();
    replicas_own_fronts_of_their_primary();
    frames_are_refused_for_room_alone();
}
