//! The words of statements.
ghost use Rattle.std.specs.Prelude.{◌≡◌, [], ◌∷◌};
ghost use Rattle.cf_syntax.specs.declared.script.Script.{Script};
ghost use Rattle.cf_contents.specs.Descriptions.{member_word};
ghost use Rattle.cf_render.specs.FormWords.{repeats_word, statement_words, word_or_any};
ghost use Rattle.cf_render.specs.Rows.{last_words, texts, texts_in};

use crate::word::{
    Name, Row, Word, class_word, kind_word, limit_word, mode_word, notice_word, row, thread_word,
};
use cf_ids::{ObjId, VarId};
use cf_syntax::Statement;

/// A last word that stands there or does not.
fn last<'s>(stands: bool, word: &'s [u8]) -> Word<'s>
    ensures { (s : Script) → texts s result ≡ last_words stands word.now }
{
    if stands {
        Word::Plain(word)
    } else {
        Word::Nothing
    }
}

/// Whether an observer is called again and again.
fn repeats_word<'s>(repeats: bool) -> Word<'s>
    ensures { (s : Script) → texts s result ≡ repeats_word repeats ∷ [] }
{
    if repeats {
        Word::Plain(b"repeats")
    } else {
        Word::Plain(b"once")
    }
}

/// The object by which notices are told apart, or `any`.
fn filter_word<'s>(filter: Option<VarId>, object: Option<ObjId>) -> Word<'s>
    ensures { (s : Script) → texts s result ≡ word_or_any filter (member_word object) ∷ [] }
{
    match filter {
        Some(_) => Word::Object(object),
        None => Word::Plain(b"any"),
    }
}

/// The words of a statement, with the objects of the variables that it uses.
pub(crate) fn statement_words<'s>(statement: &'s Statement, used: &[Option<ObjId>; 3]) -> Row<'s>
    ensures { (s : Script) → texts_in s result ≡ statement_words s used.now statement.now }
{
    let a = Word::Object(used[0]);
    let b = Word::Object(used[1]);
    let c = Word::Object(used[2]);
    match statement {
        Statement::MakeString { text, .. } => row!(
            Word::Plain(b"make"),
            Word::Plain(b"string"),
            Word::Text(text)
        ),
        Statement::MakeMstring { text, .. } => row!(
            Word::Plain(b"make"),
            Word::Plain(b"mstring"),
            Word::Text(text)
        ),
        Statement::MakeData { bytes, .. } => row!(
            Word::Plain(b"make"),
            Word::Plain(b"data"),
            Word::Bytes(bytes)
        ),
        Statement::MakeMdata { bytes, .. } => row!(
            Word::Plain(b"make"),
            Word::Plain(b"mdata"),
            Word::Bytes(bytes)
        ),
        Statement::MakeNumber { number, .. } => row!(
            Word::Plain(b"make"),
            Word::Plain(b"number"),
            kind_word(number.kind()),
            Word::Integer(number.value())
        ),
        Statement::MakeArray { plain, .. } => row!(
            Word::Plain(b"make"),
            Word::Plain(b"array"),
            last(*plain, b"plain")
        ),
        Statement::MakeDict { plain, .. } => row!(
            Word::Plain(b"make"),
            Word::Plain(b"dict"),
            last(*plain, b"plain")
        ),
        Statement::MakeSet { plain, .. } => row!(
            Word::Plain(b"make"),
            Word::Plain(b"set"),
            last(*plain, b"plain")
        ),
        Statement::MakeBag { plain, .. } => row!(
            Word::Plain(b"make"),
            Word::Plain(b"bag"),
            last(*plain, b"plain")
        ),
        Statement::MakeHeap { plain, .. } => row!(
            Word::Plain(b"make"),
            Word::Plain(b"heap"),
            last(*plain, b"plain")
        ),
        Statement::MakeSource { order, handler, .. } => row!(
            Word::Plain(b"make"),
            Word::Plain(b"source"),
            Word::Integer(*order),
            Word::Named(Name::Handler(*handler)),
            a
        ),
        Statement::MakeTimer {
            first,
            interval,
            handler,
            ..
        } => row!(
            Word::Plain(b"make"),
            Word::Plain(b"timer"),
            Word::Number(*first),
            Word::Number(*interval),
            Word::Named(Name::Handler(*handler)),
            a
        ),
        Statement::MakeObserver {
            mask,
            repeats,
            order,
            handler,
            ..
        } => row!(
            Word::Plain(b"make"),
            Word::Plain(b"observer"),
            Word::Number(u64::from(*mask)),
            repeats_word(*repeats),
            Word::Integer(*order),
            Word::Named(Name::Handler(*handler)),
            a
        ),
        Statement::New { class, key, .. } => row!(
            Word::Plain(b"new"),
            class_word(*class),
            Word::Integer(*key)
        ),
        Statement::Retain { .. } => row!(Word::Plain(b"retain"), a),
        Statement::Release { .. } => row!(Word::Plain(b"release"), a),
        Statement::Show { .. } => row!(Word::Plain(b"show"), a),
        Statement::StrAppend { .. } => row!(Word::Plain(b"str.append"), a, b),
        Statement::StrInsert { at, text, .. } => row!(
            Word::Plain(b"str.insert"),
            a,
            Word::Number(u64::from(*at)),
            Word::Text(text)
        ),
        Statement::StrDelete { at, len, .. } => row!(
            Word::Plain(b"str.delete"),
            a,
            Word::Number(u64::from(*at)),
            Word::Number(u64::from(*len))
        ),
        Statement::StrReplace { at, len, text, .. } => row!(
            Word::Plain(b"str.replace"),
            a,
            Word::Number(u64::from(*at)),
            Word::Number(u64::from(*len)),
            Word::Text(text)
        ),
        Statement::StrSub { at, len, .. } => row!(
            Word::Plain(b"str.sub"),
            a,
            Word::Number(u64::from(*at)),
            Word::Number(u64::from(*len))
        ),
        Statement::DataAppend { bytes, .. } => row!(
            Word::Plain(b"data.append"),
            a,
            Word::Bytes(bytes)
        ),
        Statement::DataReplace { at, len, bytes, .. } => row!(
            Word::Plain(b"data.replace"),
            a,
            Word::Number(u64::from(*at)),
            Word::Number(u64::from(*len)),
            Word::Bytes(bytes)
        ),
        Statement::DataDelete { at, len, .. } => row!(
            Word::Plain(b"data.delete"),
            a,
            Word::Number(u64::from(*at)),
            Word::Number(u64::from(*len))
        ),
        Statement::NumAs { kind, .. } => row!(Word::Plain(b"num.as"), a, kind_word(*kind)),
        Statement::ArrAppend { .. } => row!(Word::Plain(b"arr.append"), a, b),
        Statement::ArrInsert { at, .. } => row!(
            Word::Plain(b"arr.insert"),
            a,
            Word::Number(u64::from(*at)),
            b
        ),
        Statement::ArrSet { at, .. } => row!(
            Word::Plain(b"arr.set"),
            a,
            Word::Number(u64::from(*at)),
            b
        ),
        Statement::ArrRemove { at, .. } => row!(
            Word::Plain(b"arr.remove"),
            a,
            Word::Number(u64::from(*at))
        ),
        Statement::ArrTake { at, .. } => row!(
            Word::Plain(b"arr.take"),
            a,
            Word::Number(u64::from(*at))
        ),
        Statement::DictAdd { .. } => row!(Word::Plain(b"dict.add"), a, b, c),
        Statement::DictSet { .. } => row!(Word::Plain(b"dict.set"), a, b, c),
        Statement::DictReplace { .. } => row!(Word::Plain(b"dict.replace"), a, b, c),
        Statement::DictRemove { .. } => row!(Word::Plain(b"dict.remove"), a, b),
        Statement::DictTake { .. } => row!(Word::Plain(b"dict.take"), a, b),
        Statement::SetAdd { .. } => row!(Word::Plain(b"set.add"), a, b),
        Statement::SetSet { .. } => row!(Word::Plain(b"set.set"), a, b),
        Statement::SetReplace { .. } => row!(Word::Plain(b"set.replace"), a, b),
        Statement::SetRemove { .. } => row!(Word::Plain(b"set.remove"), a, b),
        Statement::SetCount { .. } => row!(Word::Plain(b"set.count"), a, b),
        Statement::SetTake { .. } => row!(Word::Plain(b"set.take"), a, b),
        Statement::HeapAdd { .. } => row!(Word::Plain(b"heap.add"), a, b),
        Statement::HeapTake { .. } => row!(Word::Plain(b"heap.take"), a),
        Statement::HeapRemove { .. } => row!(Word::Plain(b"heap.remove"), a),
        Statement::FieldSet { at, .. } => row!(
            Word::Plain(b"field.set"),
            a,
            Word::Number(u64::from(*at)),
            b
        ),
        Statement::FieldClear { at, .. } => row!(
            Word::Plain(b"field.clear"),
            a,
            Word::Number(u64::from(*at))
        ),
        Statement::FieldTake { at, .. } => row!(
            Word::Plain(b"field.take"),
            a,
            Word::Number(u64::from(*at))
        ),
        Statement::Add { thread, mode, .. } => row!(
            Word::Plain(b"add"),
            a,
            thread_word(*thread),
            mode_word(*mode)
        ),
        Statement::Drop { thread, mode, .. } => row!(
            Word::Plain(b"drop"),
            a,
            thread_word(*thread),
            mode_word(*mode)
        ),
        Statement::Common { thread, mode, .. } => row!(
            Word::Plain(b"common"),
            thread_word(*thread),
            Word::Named(Name::Mode(*mode))
        ),
        Statement::Signal { .. } => row!(Word::Plain(b"signal"), a),
        Statement::Invalidate { .. } => row!(Word::Plain(b"invalidate"), a),
        Statement::Wake { thread, .. } => row!(Word::Plain(b"wake"), thread_word(*thread)),
        Statement::Stop { thread, .. } => row!(Word::Plain(b"stop"), thread_word(*thread)),
        Statement::Run {
            mode,
            limit,
            once,
            ..
        } => row!(
            Word::Plain(b"run"),
            Word::Named(Name::Mode(*mode)),
            limit_word(*limit),
            last(*once, b"once")
        ),
        Statement::Observe {
            handler,
            name,
            filter,
            ..
        } => row!(
            Word::Plain(b"observe"),
            a,
            Word::Named(Name::Handler(*handler)),
            notice_word(*name),
            filter_word(*filter, used[1])
        ),
        Statement::Forget { name, filter, .. } => row!(
            Word::Plain(b"forget"),
            a,
            notice_word(*name),
            filter_word(*filter, used[1])
        ),
        Statement::Post { name, .. } => row!(
            Word::Plain(b"post"),
            Word::Named(Name::Notice(*name)),
            a
        ),
    }
}
