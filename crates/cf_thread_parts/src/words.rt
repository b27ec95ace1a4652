//! Count words: what each part of a word says.
use cf_count::{State, byte_of, changes_of, state_of, unrolled};

// A word, and its byte, state and number of exchanges.
const WORD_CASES: [(&str, u64, u8, State, u64); 5] = [
    ("no object", 0, 0, State::Unmade, 0),
    (
        "128 references, made by 128 exchanges",
        8_389_056,
        0xC0,
        State::Live,
        128,
    ),
    ("finalised after six exchanges", 393_728, 0, State::Dead, 6),
    ("a state that no word has", 768, 0, State::Other, 0),
    ("all bits", u64::MAX, 255, State::Other, 281_474_976_710_655),
];

#[test]
fn words(rt: HostRuntime) {
    for (case, word, byte, state, changes) in WORD_CASES {
        assert_eq!(rt;
            (byte_of(word), state_of(word), changes_of(word)),
            (byte, state, changes),
            "{case}"
        );
    }
    for (left, byte) in [(0, 63), (1, 0xBF), (2, 0xBF), (u64::MAX, 0xBF)] {
        assert_eq!(rt; unrolled(left), byte, "an unroll that leaves {left}");
    }
}
