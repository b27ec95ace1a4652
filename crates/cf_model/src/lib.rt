//! The model of a run: actions and entries, the state that a journal leaves, which journals are
//! legal, and what is written of one. Bodies elsewhere are proved against these definitions.
#![tactic(auto)]

mod ending;
mod entry;
mod examples;
mod laws;

pub use cf_next::Action;
pub use ending::Ending;
pub use entry::Entry;
pub use examples::{
    a_callout_takes_another_out, a_late_timer_fires_once, a_notice_with_a_finalised_observer,
    a_release_that_is_not_owned, a_run_without_a_date_stalls, a_shared_string_changes_six_times,
    a_signal_wakes_nobody, a_wake_is_kept, a_worker_a_bell_and_an_observer,
    an_item_of_the_common_modes, one_signal_for_three, two_threads_release_one_string,
};
pub use laws::{
    actions_name_what_they_take, changes_count_references, changes_grow_by_flows,
    deeds_change_no_item, entries_add_few_references, entries_add_little, entries_go_one_way,
    few_objects_are_made, finalised_bodies_give_up, finals_of_legal_journals, first_is_next,
    gains_are_listed, gains_are_live_or_new, held_along_journals, held_references_change_by_flows,
    journals_are_determined, journals_grow, lead_ends_the_run, lead_tells_the_times,
    lines_are_of_the_stage, made_objects_have_changes, next_actions_of_owned_scripts,
    next_retains_are_had, next_retains_stay, nothing_is_registered, nothing_without_threads,
    numbers_of_lists, own_references_stay, parcels_have_one, plain_deals,
    references_in_view_and_of_others, references_stay_few, releases_take_their_own,
    sizes_stay_small, threads_demand_until_done,
};
