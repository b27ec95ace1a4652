//! The hash of bytes and of texts.
ghost use Rattle.std.specs.Prelude.{◌≡◌, ◌∷◌, [], fold};
ghost use Rattle.cf_types.specs.Hash.{hash_of, hash_step, leaf_bytes, utf8_of};
ghost use Rattle.cf_types.specs.Views.{text_form};

use cf_string::Str;

/// The hash of no bytes.
pub(crate) const START: u64 = 5381;

/// The hash that takes further bytes.
pub(crate) fn hash_on(start: u64, bytes: &[u8]) -> u64
    ensures { result ≡ fold hash_step start bytes.now }
{
    let mut hash = start;
    for &byte in bytes {
        hash = hash.wrapping_mul(33).wrapping_add(u64::from(byte));
    }
    hash
}

/// The hash that takes the UTF-8 of a text, character by character.
pub(crate) fn hash_text(start: u64, text: &Str) -> u64
    ensures { result ≡ fold hash_step start (utf8_of text.now.units) }
{
    let mut hash = start;
    let mut at = 0;
    while at < text.length() {
        let (character, next) = text.char_at(at);
        let mut buffer = [0; 4];
        hash = hash_on(hash, character.encode_utf8(&mut buffer).as_bytes());
        at = next;
    }
    hash
}

/// The hash of the immutable string `hi`, whose class is 3, under `Typed`.
pub fn hash_of_hi()
    ensures { hash_of (leaf_bytes (record { class = 3; form = text_form (104 ∷ 105 ∷ []) }))
        ≡ 6381447705 }
{}

/// The hash of the empty immutable string, whose class is 3, under `Typed`.
pub fn hash_of_empty()
    ensures { hash_of (leaf_bytes (record { class = 3; form = text_form [] })) ≡ 5859912 }
{}
