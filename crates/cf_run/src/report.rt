//! What a call reports.

use cf_model::Entry;

/// What a command came to: the exit status, and the journal of the run, which is empty where no script
/// has run.
#[derive(Drop)]
pub struct Report {
    /// The exit status: 0, or 2 to 9, as `cfrun_serial` says.
    pub status: u8,
    /// The entries of the run, from the first on; none if no script has run.
    pub journal: Vec<Entry>,
}
