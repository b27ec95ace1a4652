//! Whether two answers are the same.
ghost use Rattle.std.specs.Prelude.{◌≡◌, ◌↔◌, true};
ghost use Rattle.cf_same.specs.Answers.{answer_number, told_bytes, told_date, told_number, told_value};

use cf_ids::Answer;

/// The number of an answer among all.
fn answer_number(answer: &Answer) -> u8
    ensures { result ≡ answer_number answer.now }
{
    match answer {
        Answer::Ok => 0,
        Answer::More => 1,
        Answer::Skip => 2,
        Answer::Nil => 3,
        Answer::Lossy => 4,
        Answer::Range => 5,
        Answer::Split => 6,
        Answer::Added => 7,
        Answer::Changed => 8,
        Answer::Present => 9,
        Answer::Absent => 10,
        Answer::Empty => 11,
        Answer::Invalid => 12,
        Answer::Elsewhere => 13,
        Answer::Idle => 14,
        Answer::Entered => 15,
        Answer::Woken => 16,
        Answer::Due => 17,
        Answer::Again => 18,
        Answer::Final(_) => 19,
        Answer::Object(_) => 20,
        Answer::Shown(_) => 21,
        Answer::Number(_) => 22,
        Answer::Asleep(_) => 23,
    }
}

/// The number of a type or an object that an answer names.
fn told_number(answer: &Answer) -> u32
    ensures { result ≡ told_number answer.now }
{
    match answer {
        Answer::Final(class) => u32::from(class.0),
        Answer::Object(object) => object.0,
        _ => 0,
    }
}

/// The number that an answer is.
fn told_value(answer: &Answer) -> i64
    ensures { result ≡ told_value answer.now }
{
    match answer {
        Answer::Number(value) => *value,
        _ => 0,
    }
}

/// The description that an answer shows.
fn told_bytes(answer: &Answer) -> &[u8]
    ensures { result.now ≡ told_bytes answer.now }
{
    match answer {
        Answer::Shown(description) => description.as_slice(),
        _ => &[],
    }
}

/// The date until which a loop sleeps.
fn told_date(answer: &Answer) -> Option<u64>
    ensures { result ≡ told_date answer.now }
{
    match answer {
        Answer::Asleep(date) => *date,
        _ => None,
    }
}

/// Whether two answers are the same.
pub fn is_same_answer(a: &Answer, b: &Answer) -> bool
    ensures { (result ≡ true) ↔ (a.now ≡ b.now) }
{
    answer_number(a) == answer_number(b)
        && told_number(a) == told_number(b)
        && told_value(a) == told_value(b)
        && told_bytes(a) == told_bytes(b)
        && told_date(a) == told_date(b)
}
