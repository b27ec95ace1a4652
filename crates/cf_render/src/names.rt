//! The names that a script has, by their numbers.
ghost use Rattle.std.specs.Prelude.{◌≡◌, slice_get};
ghost use Rattle.cf_contents.specs.Descriptions.{class_name, name_in};
ghost use Rattle.cf_render.specs.FormWords.{handler_name, mode_name, notice_name, thread_name};
ghost use Rattle.cf_render.specs.Rows.{name_of};

use crate::word::Name;
use cf_ids::{HandlerId, ModeId, NameId, ThreadId, TypeId};
use cf_syntax::{ClassLine, Script};
use cf_types::built_in_name;

/// The number of a script's first class.
const FIRST_CLASS: u16 = 14;

/// The name of a thread: that of its block.
fn thread_name(script: &Script, thread: ThreadId) -> &[u8]
    ensures { result.now ≡ thread_name script.now thread }
{
    match script.block(usize::from(thread.0)) {
        Some(block) => block.name.as_slice(),
        None => &[],
    }
}

/// The name of a handler.
fn handler_name(script: &Script, handler: HandlerId) -> &[u8]
    ensures { result.now ≡ handler_name script.now handler }
{
    match script.handler_name(handler) {
        Some(name) => name,
        None => &[],
    }
}

/// The name of a mode.
fn mode_name(script: &Script, mode: ModeId) -> &[u8]
    ensures { result.now ≡ mode_name script.now mode }
{
    match script.mode(mode) {
        Some(name) => name,
        None => &[],
    }
}

/// The name of a notice.
fn notice_name(script: &Script, notice: NameId) -> &[u8]
    ensures { result.now ≡ notice_name script.now notice }
{
    match script.notice(notice) {
        Some(name) => name,
        None => &[],
    }
}

/// The name of a class of the script.
fn line_name(classes: &[ClassLine], line: u16) -> &[u8]
    ensures { result.now ≡ name_in (slice_get classes.now line) }
{
    match classes.get(usize::from(line)) {
        Some(line) => line.name.as_slice(),
        None => &[],
    }
}

/// The name of a type: built in, or a class of the script.
fn class_name(classes: &[ClassLine], class: TypeId) -> &[u8]
    ensures { result.now ≡ class_name classes.now class }
{
    if FIRST_CLASS <= class.0 {
        return line_name(classes, class.0 - FIRST_CLASS);
    }
    match built_in_name(class) {
        Some(name) => name.as_bytes(),
        None => &[],
    }
}

/// A name of the script; empty if it has none of this number.
pub(crate) fn name_of(script: &Script, name: Name) -> &[u8]
    ensures { result.now ≡ name_of script.now name }
{
    match name {
        Name::Thread(thread) => thread_name(script, thread),
        Name::Handler(handler) => handler_name(script, handler),
        Name::Mode(mode) => mode_name(script, mode),
        Name::Notice(notice) => notice_name(script, notice),
        Name::Class(class) => class_name(script.classes(), class),
    }
}
