//! JSON in the making.

ghost use Rattle.std.specs.Prelude.{◌≡◌, ◌∷◌, ◌++◌, [], OnOk, decimal};
ghost use Rattle.json.specs.Token.{begin_object, end_object, begin_array, end_array, key, string, number, boolean};
ghost use Rattle.json.specs.Print.{print};
ghost use Rattle.serde_json.specs.Data.{string as text_value};
ghost use Rattle.serde_json.specs.Find.{of_integer};
ghost use Rattle.serde_json.specs.Written.{number_text};
ghost use Rattle.hex.specs.Hex.{encode_lower};
ghost use Rattle.report_text.specs.Outcome.{outcome_text};
ghost use Rattle.report_text.specs.JsonReport.{count};
ghost use Rattle.report_text.specs.JsonTokens.{member_tokens};
ghost use Rattle.tx_text.specs.Values.{value_text};

use crate::outcome::push_outcome;
use crate::text::Text;
use json::Writer;
use node_model::Outcome;
use rel_base::{NoMemory, TableDef, Value};
use std::alloc::Global;
use std::marker::Model;

/// JSON that grows at its end, one token after another. Contracts see its tokens.
#[derive(Drop)]
pub struct JsonText {
    writer: Writer,
    // What the next string is to say, before it is written.
    spelling: Text,
}

impl Model for JsonText {
    ghost use Rattle.std.specs.Prelude.{List, ◌≡◌, []};
    ghost use Rattle.json.specs.Token.{Token, tokens_code};

    ghost Value = { List Token };

    ghost coded = { tokens_code };

    ghost view = { λ text. text.writer.tokens };

    ghost invariant = { λ text. text.writer.before ≡ [] };
}

impl JsonText {
    /// A text without a token.
    pub fn new(alloc: Global) -> JsonText
        ensures { result ≡ [] }
    {
        JsonText {
            writer: Writer::new(Vec::new(alloc)),
            spelling: Text::new(alloc),
        }
    }

    /// The text of the tokens, with commas and colons and without a space.
    pub fn into_text(self) -> Text
        ensures { result ≡ print self }
    {
        let JsonText { writer, .. } = self;
        Text::from_bytes(writer.into_inner())
    }

    /// Opens an object.
    pub fn begin_object(&mut self) -> Result<(), NoMemory>
        ensures { OnOk result (self.new ≡ self.old ++ begin_object ∷ []) }
    {
        self.writer.begin_object()?;
        Ok(())
    }

    /// Closes an object.
    pub fn end_object(&mut self) -> Result<(), NoMemory>
        ensures { OnOk result (self.new ≡ self.old ++ end_object ∷ []) }
    {
        self.writer.end_object()?;
        Ok(())
    }

    /// Opens an array.
    pub fn begin_array(&mut self) -> Result<(), NoMemory>
        ensures { OnOk result (self.new ≡ self.old ++ begin_array ∷ []) }
    {
        self.writer.begin_array()?;
        Ok(())
    }

    /// Closes an array.
    pub fn end_array(&mut self) -> Result<(), NoMemory>
        ensures { OnOk result (self.new ≡ self.old ++ end_array ∷ []) }
    {
        self.writer.end_array()?;
        Ok(())
    }

    /// Writes the name of a member.
    pub fn key(&mut self, name: &str) -> Result<(), NoMemory>
        ensures { OnOk result (self.new ≡ self.old ++ key name.now ∷ []) }
    {
        self.writer.key(name)?;
        Ok(())
    }

    /// Writes a string.
    pub fn string(&mut self, text: &str) -> Result<(), NoMemory>
        ensures { OnOk result (self.new ≡ self.old ++ string text.now ∷ []) }
    {
        self.writer.string(text)?;
        Ok(())
    }

    /// Writes a member whose value is a string.
    pub fn text_member(&mut self, name: &str, text: &str) -> Result<(), NoMemory>
        ensures { OnOk result (self.new ≡ self.old ++ member_tokens name.now (text_value text.now)) }
    {
        self.key(name)?;
        self.string(text)
    }

    /// Writes a member whose value is a number from 0.
    pub fn count_member(&mut self, name: &str, n: u64) -> Result<(), NoMemory>
        ensures { OnOk result (self.new ≡ self.old ++ member_tokens name.now (count n)) }
    {
        self.key(name)?;
        self.count(n)
    }

    /// Writes a number from 0.
    pub fn count(&mut self, n: u64) -> Result<(), NoMemory>
        ensures { OnOk result (self.new ≡ self.old ++ number (decimal n) ∷ []) }
    {
        self.writer.u64(n)?;
        Ok(())
    }

    /// Writes a number with a sign.
    pub fn int(&mut self, int: i64) -> Result<(), NoMemory>
        ensures { OnOk result (self.new ≡ self.old ++ number (number_text (of_integer int)) ∷ []) }
    {
        self.writer.i64(int)?;
        Ok(())
    }

    /// Writes `true` or `false`.
    pub fn boolean(&mut self, answer: bool) -> Result<(), NoMemory>
        ensures { OnOk result (self.new ≡ self.old ++ boolean answer ∷ []) }
    {
        self.writer.boolean(answer)?;
        Ok(())
    }

    /// Writes a string of the spelling of a value.
    pub fn spelled(&mut self, value: &Value) -> Result<(), NoMemory>
        ensures { OnOk result (self.new ≡ self.old ++ string (value_text value.now) ∷ []) }
    {
        self.spelling.clear();
        self.spelling.push_value(value)?;
        self.writer.string(self.spelling.as_str())?;
        Ok(())
    }

    /// Writes a string of the text of an outcome.
    pub fn outcome(&mut self, tables: &[TableDef], outcome: &Outcome) -> Result<(), NoMemory>
        ensures { OnOk result (self.new ≡ self.old ++ string (outcome_text tables.now outcome.now) ∷ []) }
    {
        self.spelling.clear();
        push_outcome(&mut self.spelling, tables, outcome)?;
        self.writer.string(self.spelling.as_str())?;
        Ok(())
    }

    /// Writes a string of the digits of a digest.
    pub fn digits(&mut self, digest: &[u8; 32]) -> Result<(), NoMemory>
        ensures { OnOk result (self.new ≡ self.old ++ string (encode_lower digest.now) ∷ []) }
    {
        self.spelling.clear();
        self.spelling.push_digits(digest)?;
        self.writer.string(self.spelling.as_str())?;
        Ok(())
    }
}
