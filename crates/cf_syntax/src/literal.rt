//! The texts and bytes that a script writes out.
ghost use Rattle.std.specs.Prelude.{◌≡◌};

use cf_data::Bytes;
use cf_string::Str;
use std::marker::Model;

/// A text of the script. Contracts see its UTF-16 units, whatever room it has.
#[derive(Drop)]
pub struct TextLiteral {
    text: Str,
}

impl Model for TextLiteral {
    ghost use Rattle.std.specs.Prelude.{List, ℕ};

    ghost Value = { List ℕ };

    ghost view = { λ t. t.text.units };
}

impl TextLiteral {
    /// The literal of a text. It takes no memory.
    pub fn new(text: Str) -> TextLiteral
        ensures { result ≡ text.units }
    {
        TextLiteral { text }
    }

    /// The text, lent.
    pub fn text(&self) -> &Str
        ensures { result.now.units ≡ self.now }
    {
        &self.text
    }
}

/// Bytes of the script. Contracts see the list of them, whatever room it has.
#[derive(Drop)]
pub struct DataLiteral {
    bytes: Bytes,
}

impl Model for DataLiteral {
    ghost use Rattle.std.specs.Prelude.{List, ℕ};

    ghost Value = { List ℕ };

    ghost view = { λ d. d.bytes.items };
}

impl DataLiteral {
    /// The literal of bytes. It takes no memory.
    pub fn new(bytes: Bytes) -> DataLiteral
        ensures { result ≡ bytes.items }
    {
        DataLiteral { bytes }
    }

    /// The bytes, lent.
    pub fn bytes(&self) -> &[u8]
        ensures { result.now ≡ self.now }
    {
        self.bytes.get()
    }
}
