//! Where a byte of a line stands.

/// The place of a byte among the words of its line.
#[derive(Clone, Copy)]
pub enum Place {
    /// Between words, or the first byte of one.
    Between,
    /// In a plain word, after its first byte.
    Plain,
    /// In a TEXT.
    Quoted,
    /// In a TEXT, after a backslash.
    Escaped,
    /// After the quote that closes a TEXT.
    Closed,
}
