//! Laws of the definitions, and scripts that the check computes.
ghost use Rattle.std.specs.Prelude.{◌≡◌};
ghost use Rattle.cf_syntax.specs.Owned.{Owned, Unfit, FitsByBlock};
ghost use Rattle.cf_syntax.specs.declared.script.Script.{Script};
ghost use Rattle.cf_syntax.specs.declared.refusal.Reason.TheVariants.{Undefined, Redefined, Unowned, Unbalanced};
ghost use Rattle.cf_syntax.specs.Examples.{owned_script, released_twice, kept_info, taken_twice, named_twice, refused_at};

/// The blocks of an owned script have no fault, setup with what it packs and each thread with what it claims, and each
/// handler is balanced.
pub fn an_owned_script_fits()
    ensures { (s : Script) → Owned s → FitsByBlock s }
{}

/// A script of setup, a thread that uses a variable, and a handler is owned.
pub fn a_script_that_is_owned()
    ensures { Owned owned_script }
{}

/// Scripts with one fault each: a second release, a handler that keeps `info`, a thread that takes what an earlier one
/// took, and a variable that is named twice after `uses`, also if setup owns no reference for it.
pub fn scripts_that_are_not_owned()
    ensures second_release { Unfit released_twice (refused_at 5 Unowned) }
    ensures kept_info { Unfit kept_info (refused_at 6 Unbalanced) }
    ensures used_up { Unfit taken_twice (refused_at 8 Unowned) }
    ensures named_twice { Unfit named_twice (refused_at 5 Redefined) }
{}
