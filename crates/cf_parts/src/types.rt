//! Leaves and the registry: the worked hashes, equality and order under both callbacks, copies, and names.
ghost use Rattle.std.specs.Prelude.{◌≡◌, ◌<◌};

use crate::check::assert_gives;
use cf_callbacks::{Callbacks, Steps};
use cf_data::Bytes;
use cf_ids::{ObjId, TypeId};
use cf_string::Str;
use cf_types::{Cell, CellCallbacks, Class, Equality, Form, Leaf, RegisterFault, Registry};
use std::alloc::{AllocError, Global};
use std::cmp::Ordering;
use std::marker::Brand;
use std::process::Abort;
use std::sync::ledger::{Blank, Ledger};
use std::test::Fail;

// The text `é€😀` in UTF-8, of two, three and four bytes.
const LETTERS: [u8; 9] = [0xC3, 0xA9, 0xE2, 0x82, 0xAC, 0xF0, 0x9F, 0x98, 0x80];

fn text(alloc: Global, bytes: &[u8]) -> Option<Form> {
    let text = Str::from_utf8(alloc, bytes).ok()?;
    Some(Form::Text(text))
}

fn data(alloc: Global, bytes: &[u8]) -> Option<Form> {
    let mut made = Bytes::new(alloc);
    made.reserve(bytes.len()).ok()?;
    made.append(bytes);
    Some(Form::Data(made))
}

fn cell(id: u32, class: u16, form: Form) -> Cell
    requires id { id < 65536 }
    requires some { 0 < class }
    requires class { class < 100 }
{
    Cell {
        id: ObjId(id),
        leaf: Leaf {
            class: TypeId(class),
            form,
        },
    }
}

// Six elements in their order under `Typed`, the first two with one text.
fn cells(alloc: Global) -> Option<[Cell; 6]> {
    Some([
        cell(9, 3, text(alloc, b"hi")?),
        cell(8, 3, text(alloc, b"hi")?),
        cell(7, 4, data(alloc, b"hi")?),
        cell(6, 5, Form::Whole(-1)),
        cell(5, 5, Form::Whole(2)),
        cell(4, 6, Form::Same(ObjId(4))),
    ])
}

fn orders<L: Ledger>(blank: Blank, c: CellCallbacks, a: &Cell, b: &Cell) -> Ordering
    requires name { blank.name ≡ L.name }
    requires parts { blank.parts ≡ L.parts }
    requires some { 0 < blank.parts }
{
    let mut steps = Steps::<L>::new(blank);
    c.order(a, b, &mut steps)
}

fn compared(c: CellCallbacks, a: &Cell, b: &Cell) -> (bool, bool, Ordering) {
    let order = orders::<Brand>(Blank::new(1), c, a, b);
    (c.equal(a, b), c.hash(a) == c.hash(b), order)
}

// Whether the elements stand as they should: under `Typed` in the order of the list, only the first two equal, and
// under `Plain` by their identities, which fall.
fn stand_right(cells: &[Cell; 6], i: usize, j: usize) -> bool
    requires one { i < 6 }
    requires other { j < 6 }
{
    let (equal, hashes, order) = compared(CellCallbacks::Typed, &cells[i], &cells[j]);
    let (same, marks, plain) = compared(CellCallbacks::Plain, &cells[i], &cells[j]);
    let alike = i == j || i < 2 && j < 2;
    let typed = if alike { Ordering::Equal } else { i.cmp(&j) };
    equal == alike
        && hashes == alike
        && order == typed
        && same == (i == j)
        && marks == (i == j)
        && plain == j.cmp(&i)
}

fn all_stand_right(cells: &[Cell; 6]) -> bool {
    for i in 0..6 {
        for j in 0..6 {
            if !stand_right(cells, i, j) {
                return false;
            }
        }
    }
    true
}

fn are_ordered(alloc: Global) -> bool {
    match &cells(alloc) {
        Some(cells) => all_stand_right(cells),
        None => false,
    }
}

// Whether the copy is the same object, equal to it and with its hash.
fn is_copied(alloc: Global, cell: &Cell) -> bool {
    let Ok(copied) = &cell.copy(alloc) else {
        return false;
    };
    let (equal, hashes, order) = compared(CellCallbacks::Typed, cell, copied);
    equal && hashes && order == Ordering::Equal && copied.id == cell.id
}

fn all_are_copied(alloc: Global, cells: &[Cell; 6]) -> bool {
    for cell in cells {
        if !is_copied(alloc, cell) {
            return false;
        }
    }
    true
}

fn are_copied(alloc: Global) -> bool {
    match &cells(alloc) {
        Some(cells) => all_are_copied(alloc, cells),
        None => false,
    }
}

fn hash_of(form: Form) -> u64 {
    CellCallbacks::Typed.hash(&cell(0, 3, form))
}

fn text_hash(alloc: Global, bytes: &[u8]) -> Option<u64> {
    Some(hash_of(text(alloc, bytes)?))
}

fn data_hash(alloc: Global, bytes: &[u8]) -> Option<u64> {
    Some(hash_of(data(alloc, bytes)?))
}

/// What is tried of leaves.
#[derive(Clone, Copy)]
enum LeafCase {
    /// A text has a hash.
    Hash(&'static [u8], u64),
    /// A text has the hash of the bytes of its UTF-8.
    HashOfBytes(&'static [u8]),
    Order,
    Copies,
    Retains(CellCallbacks, bool),
}

const LEAF_CASES: [(LeafCase, &str); 7] = [
    (
        LeafCase::Hash(b"hi", 6381447705),
        "the worked hash of a text",
    ),
    (LeafCase::Hash(b"", 5859912), "that of the empty text"),
    (LeafCase::Order, "six elements compared"),
    (LeafCase::Copies, "their copies"),
    (
        LeafCase::HashOfBytes(&LETTERS),
        "a text is hashed by the bytes of its UTF-8",
    ),
    (
        LeafCase::Retains(CellCallbacks::Typed, true),
        "retained under typed callbacks",
    ),
    (
        LeafCase::Retains(CellCallbacks::Plain, false),
        "not under plain ones",
    ),
];

fn is_hashed_as_bytes(alloc: Global, bytes: &[u8]) -> bool {
    let hash = text_hash(alloc, bytes);
    hash.is_some() && hash == data_hash(alloc, bytes)
}

fn holds(alloc: Global, case: LeafCase) -> bool {
    match case {
        LeafCase::Hash(bytes, hash) => text_hash(alloc, bytes) == Some(hash),
        LeafCase::HashOfBytes(bytes) => is_hashed_as_bytes(alloc, bytes),
        LeafCase::Order => are_ordered(alloc),
        LeafCase::Copies => are_copied(alloc),
        LeafCase::Retains(callbacks, retains) => callbacks.retains() == retains,
    }
}

#[test]
fn leaves(rt: HostRuntime) {
    for (case, about) in LEAF_CASES.iter() {
        assert!(rt; holds(rt.alloc(), *case), "{about}");
    }
}

/// A step of a registry's life.
#[derive(Clone, Copy)]
enum Step {
    /// A class of one field, made with keys, is registered.
    Register,
    /// So are 1,009 classes, named from `000` on.
    Fill,
    /// The class of a number is looked up.
    Class(u16),
}

// A step, the name that is registered or looked up, and what the step gives: the answer, that of the last class, or
// the length of a class's name, its fields and what its instances are compared by.
const STEPS: [(Step, &str, &str); 11] = [
    (Step::Register, "p", "Ok(TypeId(14))"),
    (Step::Register, "p", "Err(Taken)"),
    (Step::Register, "String", "Err(Taken)"),
    (Step::Register, "q", "Ok(TypeId(15))"),
    (Step::Fill, "000 to :08", "Ok(TypeId(1024))"),
    (Step::Register, "z", "Err(Full)"),
    (Step::Register, "p", "Err(Full)"),
    (Step::Class(1), "Null", "4 0 identity"),
    (Step::Class(13), "RunLoopObserver", "15 0 identity"),
    (Step::Class(14), "p", "1 1 key"),
    (Step::Class(1024), ":08", "3 1 key"),
];

fn registered(alloc: Global, registry: &mut Registry, name: &str) -> Result<TypeId, RegisterFault> {
    registry.register(alloc, name, 1, Equality::Key)
}

fn fill(alloc: Global, registry: &mut Registry) -> Result<TypeId, RegisterFault> {
    let mut last = Ok(TypeId(1));
    for i in 0..1009u16 {
        let digits = [
            b'0' + (i / 100) as u8,
            b'0' + (i / 10 % 10) as u8,
            b'0' + (i % 10) as u8,
        ];
        if let Ok(name) = str::from_utf8(&digits) {
            last = registered(alloc, registry, name);
        }
    }
    last
}

fn description_of(alloc: Global, class: Option<&Class>) -> Result<String, AllocError> {
    match class {
        Some(class) => {
            let equality = match class.equality {
                Equality::Identity => "identity",
                Equality::Key => "key",
            };
            format!(in alloc; "{} {} {equality}", class.name.len(), class.fields)
        }
        None => String::from_str(alloc, "no class"),
    }
}

fn outcome_of(
    alloc: Global,
    registry: &mut Registry,
    step: Step,
    name: &str,
) -> Result<String, AllocError> {
    match step {
        Step::Register => {
            let answer = registered(alloc, registry, name);
            format!(in alloc; "{answer:?}")
        }
        Step::Fill => {
            let answer = fill(alloc, registry);
            format!(in alloc; "{answer:?}")
        }
        Step::Class(number @ 1..=1024) => description_of(alloc, registry.class(TypeId(number))),
        Step::Class(_) => String::from_str(alloc, "no number of a class"),
    }
}

fn assert_steps(rt: &impl Abort, alloc: Global, registry: &mut Registry) -> Result<(), AllocError> {
    for (i, &(step, name, gives)) in STEPS.iter().enumerate() {
        let outcome = outcome_of(alloc, registry, step, name)?;
        assert_gives(rt, i, outcome.as_str(), gives, name);
    }
    Ok(())
}

#[test]
fn registry(rt: HostRuntime) -> Result<(), Fail> {
    let mut registry = Registry::new(rt.alloc())?;
    assert_steps(&rt, rt.alloc(), &mut registry)?;
    Ok(())
}
