//! The line of an entry of each form of statement that the reader takes.
use crate::lines::{assert_none, entry, has_line};
use crate::scripts::script;
use cf_render::put_line;
use cf_script::Script;
use std::alloc::{AllocError, Global};
use std::process::Abort;
use std::test::Fail;

/// A statement as a line of a script, and its line, where its variables have the object 1, none, and the object 3.
const FORMS: [(&str, &str); 45] = [
    (
        r#"make a string "\"q\" \\ \n""#,
        r#"t0 make string "\"q\" \\ \n" ok"#,
    ),
    (r#"make b mstring """#, r#"t0 make mstring "" ok"#),
    ("make c data 00FF", "t0 make data 00ff ok"),
    ("make d mdata -", "t0 make mdata - ok"),
    ("make e number s16 -07", "t0 make number s16 -7 ok"),
    ("make f array", "t0 make array ok"),
    ("make g dict plain", "t0 make dict plain ok"),
    ("make h set", "t0 make set ok"),
    ("make i bag plain", "t0 make bag plain ok"),
    ("make j heap", "t0 make heap ok"),
    ("new n pair 9", "t0 new pair 9 ok"),
    ("retain a", "t0 retain #1 ok"),
    ("release a", "t0 release #1 ok"),
    ("show a", "t0 show #1 ok"),
    ("str.append b a", "t0 str.append #1 nil ok"),
    (r#"str.insert b 00 "x""#, r#"t0 str.insert #1 0 "x" ok"#),
    ("str.delete b 1 2", "t0 str.delete #1 1 2 ok"),
    (r#"str.replace b 1 2 """#, r#"t0 str.replace #1 1 2 "" ok"#),
    ("str.sub o a 0 1", "t0 str.sub #1 0 1 ok"),
    ("data.append d 0A", "t0 data.append #1 0a ok"),
    ("data.replace d 0 1 -", "t0 data.replace #1 0 1 - ok"),
    ("data.delete d 0 1", "t0 data.delete #1 0 1 ok"),
    ("num.as e s64", "t0 num.as #1 s64 ok"),
    ("arr.append f a", "t0 arr.append #1 nil ok"),
    ("arr.insert f 0 a", "t0 arr.insert #1 0 nil ok"),
    ("arr.set f 0 a", "t0 arr.set #1 0 nil ok"),
    ("arr.remove f 0", "t0 arr.remove #1 0 ok"),
    ("arr.take p f 0", "t0 arr.take #1 0 ok"),
    ("dict.add g a b", "t0 dict.add #1 nil #3 ok"),
    ("dict.set g a b", "t0 dict.set #1 nil #3 ok"),
    ("dict.replace g a b", "t0 dict.replace #1 nil #3 ok"),
    ("dict.remove g a", "t0 dict.remove #1 nil ok"),
    ("dict.take q g a", "t0 dict.take #1 nil ok"),
    ("set.add h a", "t0 set.add #1 nil ok"),
    ("set.set h a", "t0 set.set #1 nil ok"),
    ("set.replace h a", "t0 set.replace #1 nil ok"),
    ("set.remove h a", "t0 set.remove #1 nil ok"),
    ("set.count h a", "t0 set.count #1 nil ok"),
    ("set.take r h a", "t0 set.take #1 nil ok"),
    ("heap.add j a", "t0 heap.add #1 nil ok"),
    ("heap.take s j", "t0 heap.take #1 ok"),
    ("heap.remove j", "t0 heap.remove #1 ok"),
    ("field.set n 0 a", "t0 field.set #1 0 nil ok"),
    ("field.clear n 1", "t0 field.clear #1 1 ok"),
    ("field.take t n 1", "t0 field.take #1 1 ok"),
];

/// The statements.
fn forms(alloc: Global) -> Result<Vec<&'static str>, AllocError> {
    let mut forms = Vec::new(alloc);
    for (form, _) in FORMS.iter() {
        forms.push(*form)?;
    }
    Ok(forms)
}

/// The first line of a statement that is not as wanted.
fn wrong_form(alloc: Global, script: &Script) -> Option<&'static str> {
    for (number, (_, wanted)) in FORMS.iter().enumerate() {
        if !has_line(alloc, script, number, wanted) {
            return Some(*wanted);
        }
    }
    None
}

/// Each statement has its line.
#[test]
fn statements(rt: HostRuntime) -> Result<(), Fail> {
    let script = script(rt.alloc(), &forms(rt.alloc())?)?;
    assert_none(&rt, wrong_form(rt.alloc(), &script));
    Ok(())
}

/// Whether the line of a statement of setup is put after a text.
fn is_put(text: &mut Vec<u8>, script: &Script, number: usize) -> bool {
    match &entry(script, number) {
        Some(entry) => put_line(text, script, entry).is_ok(),
        None => false,
    }
}

/// Whether the lines of two statements go after one another, each with its line feed.
fn are_put(alloc: Global, script: &Script) -> bool {
    let mut text = Vec::new(alloc);
    is_put(&mut text, script, 0)
        && is_put(&mut text, script, 1)
        && text.as_slice() == b"t0 retain #1 ok\nt0 show #1 ok\n".as_slice()
}

/// Lines go after one another, each with its line feed.
#[test]
fn lines(rt: HostRuntime) -> Result<(), Fail> {
    let script = script(rt.alloc(), &["retain a", "show a"])?;
    assert!(rt; are_put(rt.alloc(), &script), "two lines");
    Ok(())
}
