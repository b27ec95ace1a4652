//! Where a run loop can hold an item.
use cf_ids::ModeId;

/// A place of a run loop that can hold an item (the Run Loops guide: modes, and the common items that each common mode
/// gets).
#[derive(Clone, Copy, Debug, PartialEq, Eq)]
pub enum Place {
    /// The common items.
    Common,
    /// A mode.
    Mode(ModeId),
}
