//! What small scripts over threads, run loops and notices write, which the check computes.
ghost use Rattle.std.specs.Prelude.{◌≡◌, [], ◌∷◌};
ghost use Rattle.cf_syntax.specs.Text.{Text};
ghost use Rattle.cf_syntax.specs.Owned.{Owned};
ghost use Rattle.cf_model.specs.declared.ending.Ending.TheVariants.{Done, Limit, Stalled};
ghost use Rattle.cf_render.specs.LineRows.{two_releases_script, two_releases, plain_array, three_signals, taken_out, early_wake, quiet_signal, slow_clock, without_date, panel_item, posted_twice, worker_script, written, written_in_full, two_releases_text, two_releases_journal, plain_array_journal, three_signals_text, taken_out_text, early_wake_text, quiet_signal_text, slow_clock_text, slow_clock_journal, without_date_text, panel_item_text, posted_twice_text, worker_text, equal_elements, equal_elements_text, equal_elements_limited, cycle, cycle_text, kept_key, kept_key_text};

/// Two threads release one string: the text is that of the script, which is owned; and what is written of the run, and
/// of each of its entries.
pub fn lines_of_two_releases()
    ensures text { Text two_releases_script two_releases }
    ensures owned { Owned two_releases }
    ensures seen { written two_releases [] 13 Done ≡ two_releases_text }
    ensures full { written_in_full two_releases [] 13 Done ≡ two_releases_journal }
{}

/// A plain array does not hold what it names: each entry of the run.
pub fn lines_of_a_plain_array()
    ensures { written_in_full plain_array [] 8 Done ≡ plain_array_journal }
{}

/// A source is called once for three signals.
pub fn lines_of_three_signals()
    ensures { written three_signals [] 19 Done ≡ three_signals_text }
{}

/// A callout takes another source out of the mode.
pub fn lines_of_what_was_taken_out()
    ensures { written taken_out [] 39 Done ≡ taken_out_text }
{}

/// A wake before a run ends its first sleep.
pub fn lines_of_an_early_wake()
    ensures { written early_wake [] 25 Done ≡ early_wake_text }
{}

/// A signal wakes nobody.
pub fn lines_of_a_quiet_signal()
    ensures { written quiet_signal [] 40 Done ≡ quiet_signal_text }
{}

/// A late timer fires once: what is written of the run, and of each of its entries.
pub fn lines_of_a_slow_clock()
    ensures seen { written slow_clock (37 ∷ []) 20 Done ≡ slow_clock_text }
    ensures full { written_in_full slow_clock (37 ∷ []) 20 Done ≡ slow_clock_journal }
{}

/// A run without a date stalls.
pub fn lines_of_a_stall()
    ensures { written without_date [] 10 Stalled ≡ without_date_text }
{}

/// An item of the common modes.
pub fn lines_of_a_common_item()
    ensures { written panel_item [] 22 Done ≡ panel_item_text }
{}

/// A notice reaches an observer that is live, and none that is not.
pub fn lines_of_two_posts()
    ensures { written posted_twice [] 10 Done ≡ posted_twice_text }
{}

/// A worker, a bell and an observer.
pub fn lines_of_a_worker()
    ensures { written worker_script [] 104 Done ≡ worker_text }
{}

/// An array that holds one string twice gives up both places, also written where the limit comes before.
pub fn lines_of_two_equal_elements()
    ensures whole { written equal_elements [] 9 Done ≡ equal_elements_text }
    ensures limited { written equal_elements [] 4 Limit ≡ equal_elements_limited }
{}

/// Two arrays that hold each other are left.
pub fn lines_of_a_cycle()
    ensures { written cycle [] 7 Done ≡ cycle_text }
{}

/// A dictionary keeps its key where an equal one is set.
pub fn lines_of_a_key_that_stays()
    ensures { written kept_key [] 11 Done ≡ kept_key_text }
{}
