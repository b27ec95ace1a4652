//! Laws of counts and of words, which hold of all of them.
ghost use Rattle.std.specs.Prelude.{◌≡◌, ℕ, ◌+◌, ◌<◌, ◌%◌, ◌^◌, Some};
ghost use Rattle.cf_count.specs.Counts.{Count, TellsExternal, objects_after, composite, make_rows, release_rows, retain_rows};
ghost use Rattle.cf_count.specs.Words.{byte_in, changes_in, number_of, state_in, word_of};
ghost use Rattle.cf_count.specs.declared.words.State.{State};

/// Each change of a count moves the composite count by exactly 1, and keeps that bit 7 tells of an external number.
pub fn counts_of_changes()
    ensures made { (c d : Count) → objects_after make_rows c ≡ Some d → TellsExternal c →
        (composite d ≡ composite c + 1) × TellsExternal d }
    ensures retained { (c d : Count) → objects_after retain_rows c ≡ Some d → TellsExternal c →
        (composite d ≡ composite c + 1) × TellsExternal d }
    ensures released { (c d : Count) → c.byte < 2 ^ 8 → objects_after release_rows c ≡ Some d → TellsExternal c →
        (composite d + 1 ≡ composite c) × TellsExternal d }
{}

/// A word has the byte, the state and the number of exchanges that it was made of.
pub fn parts_of_words()
    ensures byte { (byte changes : ℕ) (state : State) → byte < 2 ^ 8 → byte_in (word_of byte state changes) ≡ byte }
    ensures state { (byte changes : ℕ) (state : State) → byte < 2 ^ 8 →
        state_in (word_of byte state changes) ≡ number_of state }
    ensures changes { (byte changes : ℕ) (state : State) → byte < 2 ^ 8 →
        changes_in (word_of byte state changes) ≡ changes % 2 ^ 48 }
{}
