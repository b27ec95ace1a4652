//! Scripts over threads, run loops and notices, and what their serial runs show, which the check computes.
ghost use Rattle.std.specs.Prelude.{◌≡◌, pos, [], ◌∷◌, Some, true};
ghost use Rattle.cf_syntax.specs.Owned.{Owned};
ghost use Rattle.cf_ids.specs.declared.answer.Answer.TheVariants.{Number};
ghost use Rattle.cf_model.specs.Journals.{IsLegal, IsLegalEntry};
ghost use Rattle.cf_model.specs.Steps.{answer_if, demanded};
ghost use Rattle.cf_model.specs.Runs.{serial_run, summary_of};
ghost use Rattle.cf_model.specs.Changes.{changes};
ghost use Rattle.cf_model.specs.Examples.{two_threads, one_signal, cut_out, kept_wake, silent_signal, late_timer, no_date, common_item, two_posts, worker_and_producer, not_owned, two_threads_seen, one_signal_seen, cut_out_seen, kept_wake_seen, silent_signal_seen, late_timer_seen, common_item_seen, two_posts_seen, worker_and_producer_seen, over_with, released_item, kept_item, cut_out_left, silent_signal_left, worker_and_producer_left, final_too_early, second_call, call_of_what_is_out, sleep_past_a_wake, woken_by_a_signal, early_tick, call_of_a_finalised_observer, not_owned_journal};
ghost use Rattle.cf_model.specs.Things.{date_of_thing, is_signalled_thing, thing_at};

/// Two threads release one string, and the last release finalises it; the first one may not.
pub fn two_threads_release_one_string()
    ensures whole { summary_of two_threads (serial_run two_threads [] 13) ≡ over_with two_threads_seen [] 13 1 1 }
    ensures last { IsLegalEntry two_threads (serial_run two_threads [] 8).state final_too_early → ⊥ }
{}

/// The string that two threads release has six changes: three references are added and three are taken away.
pub fn a_shared_string_changes_six_times()
    ensures string { changes two_threads 0 (serial_run two_threads [] 13).entries ≡ 6 }
    ensures none { changes two_threads 1 (serial_run two_threads [] 13).entries ≡ 0 }
{}

/// A source is called once for three signals; a second call is not legal after that.
pub fn one_signal_for_three()
    ensures whole { summary_of one_signal (serial_run one_signal [] 19)
        ≡ over_with one_signal_seen released_item 19 1 0 }
    ensures once { IsLegalEntry one_signal (serial_run one_signal [] 13).state second_call → ⊥ }
{}

/// A callout takes another source out of the mode, which is not called there; and such a call is not legal.
pub fn a_callout_takes_another_out()
    ensures whole { summary_of cut_out (serial_run cut_out [] 39) ≡ over_with cut_out_seen cut_out_left 39 3 0 }
    ensures out { IsLegalEntry cut_out (serial_run cut_out [] 22).state call_of_what_is_out → ⊥ }
{}

/// A wake before a run ends its first sleep, which may not begin there.
pub fn a_wake_is_kept()
    ensures whole { summary_of kept_wake (serial_run kept_wake [] 25) ≡ over_with kept_wake_seen kept_item 25 1 0 }
    ensures woken { IsLegalEntry kept_wake (serial_run kept_wake [] 9).state sleep_past_a_wake → ⊥ }
{}

/// A signal ends no sleep: the loop that sleeps may not go on after it.
pub fn a_signal_wakes_nobody()
    ensures whole { summary_of silent_signal (serial_run silent_signal [] 40)
        ≡ over_with silent_signal_seen silent_signal_left 40 1 0 }
    ensures signalled { is_signalled_thing (thing_at (serial_run silent_signal [] 30).state.parts 0) ≡ true }
    ensures asleep { IsLegalEntry silent_signal (serial_run silent_signal [] 30).state woken_by_a_signal → ⊥ }
{}

/// A timer that is late fires once, and keeps to its times; a second call is not legal after that, and no tick goes to
/// a time before its date.
pub fn a_late_timer_fires_once()
    ensures whole { summary_of late_timer (serial_run late_timer (37 ∷ []) 20)
        ≡ over_with late_timer_seen kept_item 20 1 0 }
    ensures date { date_of_thing (thing_at (serial_run late_timer (37 ∷ []) 20).state.parts 0) ≡ Some 45 }
    ensures once { IsLegalEntry late_timer (serial_run late_timer (37 ∷ []) 15).state second_call → ⊥ }
    ensures late { IsLegalEntry late_timer (serial_run late_timer (37 ∷ []) 9).state early_tick → ⊥ }
{}

/// A run without a date that nothing wakes ends with a stall; no tick is legal there.
pub fn a_run_without_a_date_stalls()
    ensures whole { summary_of no_date (serial_run no_date [] 10) ≡ over_with [] kept_item 10 1 0 }
    ensures tick { IsLegalEntry no_date (serial_run no_date [] 9).state early_tick → ⊥ }
{}

/// An item of the common modes is in each of them, and leaves each.
pub fn an_item_of_the_common_modes()
    ensures { summary_of common_item (serial_run common_item [] 22) ≡ over_with common_item_seen [] 22 1 1 }
{}

/// A notice reaches an observer that is live, and none that is finalised, of which a call is not legal.
pub fn a_notice_with_a_finalised_observer()
    ensures whole { summary_of two_posts (serial_run two_posts [] 10) ≡ over_with two_posts_seen [] 10 1 1 }
    ensures none { answer_if two_posts 0 (serial_run two_posts [] 8).state
        (demanded two_posts (serial_run two_posts [] 8).state 0) ≡ Number (pos 0) }
    ensures unheard { IsLegalEntry two_posts (serial_run two_posts [] 9).state call_of_a_finalised_observer → ⊥ }
{}

/// A worker, a bell and an observer: the producer's string reaches the worker by a source, and the bell stops the run.
/// The script is owned.
pub fn a_worker_a_bell_and_an_observer()
    ensures owned { Owned worker_and_producer }
    ensures whole { summary_of worker_and_producer (serial_run worker_and_producer [] 104)
        ≡ over_with worker_and_producer_seen worker_and_producer_left 104 5 2 }
{}

/// A script that releases what another of its variables holds is not owned, and has a legal journal.
pub fn a_release_that_is_not_owned()
    ensures unowned { Owned not_owned → ⊥ }
    ensures legal { IsLegal not_owned not_owned_journal }
{}
