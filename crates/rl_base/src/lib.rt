//! What run loops and notices are, in definitions: the crates that keep them meet these, and the definitions of a run
//! cite them. The only code is the types of which they speak, and the laws.
#![tactic(auto)]

mod laws;
mod observers;
mod places;
mod registrations;
mod sources;

pub use laws::{bit_of_observers, bits_of_sources, date_after_call};
pub use observers::ObserverState;
pub use places::Place;
pub use registrations::{RegId, Registration};
pub use sources::SourceState;
