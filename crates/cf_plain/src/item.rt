//! Items of run loops.

/// An item of a run loop.
#[derive(Clone, Copy)]
pub enum Item {
    /// A source, its order, and whether it is signalled.
    Source {
        order: i64,
        signalled: bool,
    },
    /// A timer, its first date and its interval, both in ticks, and its next date.
    Timer {
        first: u64,
        interval: u64,
        date: Option<u64>,
    },
    /// An observer, the mask of its activities, whether it is called again and again, and its order.
    Observer {
        mask: u8,
        repeats: bool,
        order: i64,
    },
}
