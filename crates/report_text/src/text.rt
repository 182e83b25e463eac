//! The text of a report, which grows at its end.

ghost use Rattle.std.specs.Prelude.{◌≡◌, ◌++◌, [], OnOk, decimal};
ghost use Rattle.std.specs.Str.{IsUtf8};
ghost use Rattle.hex.specs.Hex.{encode_lower};
ghost use Rattle.literals.specs.Text.{text_literal};
ghost use Rattle.tx_text.specs.Values.{value_text};

use literals::{push_number, push_text};
use rel_base::{NoMemory, Str, Value};
use std::alloc::Global;
use std::marker::Model;
use tx_text::push_value;

/// A text in UTF-8 that grows at its end. Contracts see its bytes.
#[derive(Drop)]
pub struct Text {
    bytes: Vec<u8>,
}

impl Model for Text {
    ghost use Rattle.std.specs.Prelude.{ℕ, List};
    ghost use Rattle.std.specs.Str.{IsUtf8};

    ghost Value = { List ℕ };

    ghost view = { λ text. text.bytes.items };

    ghost invariant = { λ text. IsUtf8 text.bytes.items };
}

impl Text {
    /// A text without a character.
    pub fn new(alloc: Global) -> Text
        ensures { result ≡ [] }
    {
        Text {
            bytes: Vec::new(alloc),
        }
    }

    /// The text of bytes in UTF-8.
    pub fn from_bytes(bytes: Vec<u8>) -> Text
        requires utf8 { IsUtf8 bytes.items }
        ensures { result ≡ bytes.items }
    {
        Text { bytes }
    }

    /// Its characters.
    pub fn as_str(&self) -> &str
        ensures { result.now ≡ self.now }
    {
        match std::str::from_utf8(self.bytes.as_slice()) {
            Ok(text) => text,
            // which the invariant excludes
            Err(_) => "",
        }
    }

    /// Its bytes.
    pub fn into_bytes(self) -> Vec<u8>
        ensures { result.items ≡ self }
    {
        let Text { bytes } = self;
        bytes
    }

    /// Takes all characters out, and keeps the memory for the next ones.
    pub fn clear(&mut self)
        ensures { self.new ≡ [] }
    {
        self.bytes.clear();
    }

    /// Writes some characters at the end.
    pub fn push(&mut self, text: &str) -> Result<(), NoMemory>
        ensures { OnOk result (self.new ≡ self.old ++ text.now) }
    {
        self.bytes.extend_from_slice(text.as_bytes())?;
        Ok(())
    }

    /// Writes a number in decimal at the end.
    pub fn push_number(&mut self, number: u64) -> Result<(), NoMemory>
        ensures { OnOk result (self.new ≡ self.old ++ decimal number) }
    {
        push_number(&mut self.bytes, number)?;
        Ok(())
    }

    /// Writes a text in quotes at the end.
    pub fn push_quoted(&mut self, text: &Str) -> Result<(), NoMemory>
        ensures { OnOk result (self.new ≡ self.old ++ text_literal text.now) }
    {
        push_text(&mut self.bytes, text.as_str())?;
        Ok(())
    }

    /// Writes a value at the end, as it is spelled in a transaction line.
    pub fn push_value(&mut self, value: &Value) -> Result<(), NoMemory>
        ensures { OnOk result (self.new ≡ self.old ++ value_text value.now) }
    {
        push_value(&mut self.bytes, value)?;
        Ok(())
    }

    /// Writes the digits of a digest at the end.
    pub fn push_digits(&mut self, digest: &[u8; 32]) -> Result<(), NoMemory>
        ensures { OnOk result (self.new ≡ self.old ++ encode_lower digest.now) }
    {
        self.bytes.extend_from_slice(&digits_of(digest))?;
        Ok(())
    }
}

/// The digits of a digest.
fn digits_of(digest: &[u8; 32]) -> [u8; 64]
    ensures { result ≡ encode_lower digest.now }
{
    let mut digits = [b'0'; 64];
    let written = hex::encode_to_slice(digest.as_slice(), &mut digits);
    prove!(written.is_ok());
    digits
}
