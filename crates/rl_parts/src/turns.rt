//! Turns of a run loop: the phases in their order, and the result at the test.
use rl_turn::{Phase, TurnFacts, has_row, next_phase, result};

// Whether something was handled, the run is to end then, it is past its deadline, it is stopped, and it is empty.
type Facts = [bool; 5];

fn facts(all: Facts) -> TurnFacts {
    let [handled, once, past, stopped, empty] = all;
    TurnFacts {
        handled,
        once,
        past,
        stopped,
        empty,
    }
}

/// The phase after this one, or `Ran` again.
fn after(phase: Phase, facts: &TurnFacts) -> Phase {
    if has_row(phase) {
        next_phase(phase, facts)
    } else {
        Phase::Ran
    }
}

/// The ten phases after note 1 of a run whose facts stay as they are.
fn phases(facts: &TurnFacts) -> [Phase; 10] {
    let mut phases = [Phase::Ran; 10];
    let mut phase = Phase::Note(1);
    for place in 0..10 {
        phase = after(phase, facts);
        phases[place] = phase;
    }
    phases
}

// A turn that sleeps and goes on with another one.
const ON: [Phase; 10] = [
    Phase::Note(2),
    Phase::Note(4),
    Phase::Sources,
    Phase::Note(32),
    Phase::Sleep,
    Phase::Note(64),
    Phase::Timers,
    Phase::Test,
    Phase::Note(2),
    Phase::Note(4),
];

// A turn that sleeps and ends.
const ENDS: [Phase; 10] = [
    Phase::Note(2),
    Phase::Note(4),
    Phase::Sources,
    Phase::Note(32),
    Phase::Sleep,
    Phase::Note(64),
    Phase::Timers,
    Phase::Test,
    Phase::Note(128),
    Phase::Ran,
];

// Turns that do not sleep and go on.
const ON_AWAKE: [Phase; 10] = [
    Phase::Note(2),
    Phase::Note(4),
    Phase::Sources,
    Phase::Timers,
    Phase::Test,
    Phase::Note(2),
    Phase::Note(4),
    Phase::Sources,
    Phase::Timers,
    Phase::Test,
];

// A turn that does not sleep and ends.
const ENDS_AWAKE: [Phase; 10] = [
    Phase::Note(2),
    Phase::Note(4),
    Phase::Sources,
    Phase::Timers,
    Phase::Test,
    Phase::Note(128),
    Phase::Ran,
    Phase::Ran,
    Phase::Ran,
    Phase::Ran,
];

// The facts, the phases after note 1, and the result at the test.
const TURN_CASES: [(&str, Facts, [Phase; 10], Option<u8>); 12] = [
    ("nothing", [false, false, false, false, false], ON, None),
    ("empty", [false, false, false, false, true], ENDS, Some(1)),
    ("stopped", [false, false, false, true, false], ENDS, Some(2)),
    (
        "stopped and empty",
        [false, false, false, true, true],
        ENDS,
        Some(2),
    ),
    (
        "past",
        [false, false, true, false, false],
        ENDS_AWAKE,
        Some(3),
    ),
    (
        "past, stopped and empty",
        [false, false, true, true, true],
        ENDS_AWAKE,
        Some(3),
    ),
    (
        "to end, and nothing handled",
        [false, true, false, false, false],
        ON,
        None,
    ),
    (
        "to end, nothing handled, past",
        [false, true, true, false, false],
        ENDS_AWAKE,
        Some(3),
    ),
    (
        "handled",
        [true, false, false, false, false],
        ON_AWAKE,
        None,
    ),
    (
        "handled and stopped",
        [true, false, false, true, false],
        ENDS_AWAKE,
        Some(2),
    ),
    (
        "handled, and to end",
        [true, true, false, false, false],
        ENDS_AWAKE,
        Some(4),
    ),
    (
        "all of them",
        [true, true, true, true, true],
        ENDS_AWAKE,
        Some(4),
    ),
];

#[test]
fn turns(rt: HostRuntime) {
    for (case, all, wanted, end) in TURN_CASES {
        let facts = facts(all);
        assert_eq!(rt; (phases(&facts), result(&facts)), (wanted, end), "{case}");
    }
}
