//! Laws of contents, which hold of every object and every change.
ghost use Rattle.std.specs.Prelude.{◌≡◌, ℕ, Bool};
ghost use Rattle.cf_contents.specs.Contents.{Content};
ghost use Rattle.cf_contents.specs.Deeds.{Change, content_after};
ghost use Rattle.cf_contents.specs.Keys.{compared_by};

/// No change alters what an object is compared by, so a key of a dictionary stays what it was.
pub fn changes_keep_keys()
    ensures { (keyed : Bool) (o : ℕ) (change : Change) (content : Content)
        → compared_by keyed o (content_after change content) ≡ compared_by keyed o content }
{}
