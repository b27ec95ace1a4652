//! What a count word has: bits 0 to 7 are the count byte, bits 8 and 9 the state, and bits 16 to 63 the number of
//! exchanges.
ghost use Rattle.std.specs.Prelude.{◌≡◌};
ghost use Rattle.cf_count.specs.Words.{byte_in, changes_in, number_of, state_in};

/// The state of an object's word.
#[derive(Clone, Copy, Debug, PartialEq, Eq)]
pub enum State {
    /// No object of this number was made: 0.
    Unmade,
    /// The object has references: 1.
    Live,
    /// The object was finalised: 2.
    Dead,
    /// No word has this state: 3.
    Other,
}

/// The count byte of a word.
pub fn byte_of(word: u64) -> u8
    ensures { result ≡ byte_in word }
{
    (word % 256) as u8
}

/// The state of a word.
pub fn state_of(word: u64) -> State
    ensures { number_of result ≡ state_in word }
{
    match word / 256 % 4 {
        0 => State::Unmade,
        1 => State::Live,
        2 => State::Dead,
        _ => State::Other,
    }
}

/// How many exchanges were won on a word, modulo 2^48.
pub fn changes_of(word: u64) -> u64
    ensures { result ≡ changes_in word }
{
    word / 65536
}
