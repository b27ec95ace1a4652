//! The words of actions and of answers.
ghost use Rattle.std.specs.Prelude.{◌≡◌};
ghost use Rattle.cf_syntax.specs.declared.script.Script.{Script};
ghost use Rattle.cf_history.specs.Notices.{used_in};
ghost use Rattle.cf_history.specs.Written.{statement_of};
ghost use Rattle.cf_render.specs.Rendering.{action_words, answer_words, words_if};
ghost use Rattle.cf_render.specs.Rows.{texts_in};

use crate::statement_words::statement_words;
use crate::statements::{site_of, statement_at};
use crate::word::{Name, Row, Word, row};
use cf_ids::Answer;
use cf_model::Action;
use cf_syntax::Script;

/// The words of an action that a statement writes.
fn said<'s>(script: &'s Script, action: &Action) -> Row<'s>
    ensures { texts_in script.now result
        ≡ words_if script.now (used_in action.now) (statement_of script.now action.now) }
{
    let Some(site) = site_of(action) else {
        return row!(Word::Nothing);
    };
    match statement_at(script, &site) {
        Some(statement) => statement_words(statement, site.used),
        None => row!(Word::Nothing),
    }
}

/// The words of an action.
pub(crate) fn action_words<'s>(script: &'s Script, action: &Action) -> Row<'s>
    ensures { texts_in script.now result ≡ action_words script.now action.now }
{
    match action {
        Action::Pack(thread, object) => row!(
            Word::Plain(b"pack"),
            Word::Named(Name::Thread(*thread)),
            Word::Object(*object)
        ),
        Action::Claim(object) => row!(Word::Plain(b"claim"), Word::Object(*object)),
        Action::Done => row!(Word::Plain(b"done")),
        Action::Owed(object) => row!(Word::Plain(b"release"), Word::Object(Some(*object))),
        Action::DropSlot {
            body,
            place,
            object,
        } => row!(
            Word::Plain(b"drop"),
            Word::Object(Some(*body)),
            Word::Number(u64::from(*place)),
            Word::Object(Some(*object))
        ),
        Action::Note(activity) => { row!(Word::Plain(b"note"), Word::Number(u64::from(*activity))) }
        Action::Sources => row!(Word::Plain(b"sources")),
        Action::Timers => row!(Word::Plain(b"timers")),
        Action::Call {
            handler,
            item,
            info,
        } => row!(
            Word::Plain(b"call"),
            Word::Named(Name::Handler(*handler)),
            Word::Object(*item),
            Word::Object(*info)
        ),
        Action::Return => row!(Word::Plain(b"return")),
        Action::Spend(item) => row!(Word::Plain(b"spend"), Word::Object(Some(*item))),
        Action::Sleep => row!(Word::Plain(b"sleep")),
        Action::Test => row!(Word::Plain(b"test")),
        Action::Ran(mode) => row!(Word::Plain(b"ran"), Word::Named(Name::Mode(*mode))),
        Action::Tick(time) => row!(Word::Plain(b"tick"), Word::Number(*time)),
        Action::Stall => row!(Word::Plain(b"stall")),
        _ => said(script, action),
    }
}

/// The words of an answer.
pub(crate) fn answer_words(answer: &Answer) -> Row<'_>
    ensures { (s : Script) → texts_in s result ≡ answer_words s.classes answer.now }
{
    match answer {
        Answer::Ok => row!(Word::Plain(b"ok")),
        Answer::More => row!(Word::Plain(b"more")),
        Answer::Final(class) => row!(Word::Plain(b"final"), Word::Named(Name::Class(*class))),
        Answer::Skip => row!(Word::Plain(b"skip")),
        Answer::Nil => row!(Word::Plain(b"nil")),
        Answer::Object(object) => row!(Word::Object(Some(*object))),
        Answer::Shown(description) => row!(Word::Plain(description.as_slice())),
        Answer::Number(number) => row!(Word::Integer(*number)),
        Answer::Lossy => row!(Word::Plain(b"lossy")),
        Answer::Range => row!(Word::Plain(b"range")),
        Answer::Split => row!(Word::Plain(b"split")),
        Answer::Added => row!(Word::Plain(b"added")),
        Answer::Changed => row!(Word::Plain(b"changed")),
        Answer::Present => row!(Word::Plain(b"present")),
        Answer::Absent => row!(Word::Plain(b"absent")),
        Answer::Empty => row!(Word::Plain(b"empty")),
        Answer::Invalid => row!(Word::Plain(b"invalid")),
        Answer::Elsewhere => row!(Word::Plain(b"elsewhere")),
        Answer::Idle => row!(Word::Plain(b"idle")),
        Answer::Entered => row!(Word::Plain(b"in")),
        Answer::Woken => row!(Word::Plain(b"woken")),
        Answer::Due => row!(Word::Plain(b"due")),
        Answer::Asleep(_) => row!(Word::Plain(b"asleep")),
        Answer::Again => row!(Word::Plain(b"again")),
    }
}
