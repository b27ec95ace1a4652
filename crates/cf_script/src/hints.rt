//! Where a word was found last, by a value of its bytes.
ghost use Rattle.std.specs.Prelude.{◌<◌};
ghost use Rattle.cf_script.specs.declared.hints.TheConstants.{HINTS};

/// How many hints there are. Names that differ in their last three digits alone have hints of their own.
pub(crate) const HINTS: usize = 1024;

/// The hint of a word: a value of its last three bytes.
#[inline(always)]
pub(crate) fn hint_of(word: &[u8]) -> usize
    ensures { result < HINTS }
{
    let value = match word {
        [] => 0,
        [last] => usize::from(*last),
        [second, last] => usize::from(*last) + usize::from(*second) * 10,
        [.., third, second, last] => {
            usize::from(*last) + usize::from(*second) * 10 + usize::from(*third) * 100
        }
    };
    value % HINTS
}
