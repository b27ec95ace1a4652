//! Actions as words.
use cf_ids::ObjId;
use cf_next::Action;

/// What stands for nothing.
pub(crate) const NONE: u32 = 99;

/// An action as its word and two numbers: of a statement its own number and its first object, of a call its handler
/// and its item, of a drop its place and its object.
pub(crate) type Words = (&'static str, u32, u32);

/// The number of an object.
pub(crate) fn number(object: &Option<ObjId>) -> u32 {
    match object {
        Some(object) => object.0,
        None => NONE,
    }
}

/// The words of a statement's action.
fn statement_words(action: &Action) -> Words {
    match action {
        Action::MakeArray { number, .. } => ("make", *number, NONE),
        Action::Retain {
            number: at,
            used,
            ..
        } => ("retain", *at, number(&used[0])),
        Action::Release {
            number: at,
            used,
            ..
        } => ("release", *at, number(&used[0])),
        Action::ArrTake {
            number: at,
            used,
            ..
        } => ("take", *at, number(&used[0])),
        Action::Run { number, block, .. } => ("run", *number, u32::from(*block)),
        Action::Post {
            number: at,
            used,
            ..
        } => ("post", *at, number(&used[0])),
        _ => ("another", NONE, NONE),
    }
}

/// The words of an action of a run.
fn run_words(action: &Action) -> Words {
    match action {
        Action::Note(activity) => ("note", u32::from(*activity), NONE),
        Action::Sources => ("sources", NONE, NONE),
        Action::Timers => ("timers", NONE, NONE),
        Action::Sleep => ("sleep", NONE, NONE),
        Action::Test => ("test", NONE, NONE),
        Action::Ran(mode) => ("ran", u32::from(mode.0), NONE),
        _ => statement_words(action),
    }
}

/// The words of an action.
fn words(action: &Action) -> Words {
    match action {
        Action::Pack(thread, object) => ("pack", u32::from(thread.0), number(object)),
        Action::Claim(object) => ("claim", number(object), NONE),
        Action::Done => ("done", NONE, NONE),
        Action::Owed(object) => ("owed", object.0, NONE),
        Action::DropSlot { place, object, .. } => ("drop", *place, object.0),
        Action::Call { handler, item, .. } => ("call", u32::from(handler.0), number(item)),
        Action::Return => ("return", NONE, NONE),
        Action::Spend(item) => ("spend", item.0, NONE),
        _ => run_words(action),
    }
}

/// Whether the next action has these words, which are those of `nothing` where there is none.
pub(crate) fn says(next: &Option<Action>, wanted: &Words) -> bool {
    let (word, first, second) = match next {
        Some(action) => words(action),
        None => ("nothing", NONE, NONE),
    };
    word == wanted.0 && first == wanted.1 && second == wanted.2
}
