//! A text of JSON (RFC 8259), written token after token.
ghost use Rattle.std.specs.Prelude.{[], ◌≡◌, ◌∷◌, ◌++◌, IfOk, OnOk, string_bytes};
ghost use Rattle.json.specs.Print.{print};
ghost use Rattle.json.specs.Token.{begin_array, begin_object, end_array, end_object, key, string};
ghost use Rattle.reports.specs.JsonMembers.{boolean_member, number_member, optional, said_member, text_member};
ghost use Rattle.reports.specs.Texts.{line_feed};

use json::Writer;
use std::alloc::{AllocError, Global};
use std::marker::Model;

/// A text of JSON that is being written. A contract sees the tokens that are there.
#[derive(Drop)]
pub struct JsonText {
    writer: Writer,
}

impl Model for JsonText {
    ghost use Rattle.std.specs.Prelude.{List, [], ◌≡◌};
    ghost use Rattle.json.specs.Token.{Token, tokens_code};

    ghost Value = { List Token };

    ghost coded = { tokens_code };

    ghost view = { λ json. json.writer.tokens };

    ghost invariant = { λ json. json.writer.before ≡ [] };
}

impl JsonText {
    pub fn new(alloc: Global) -> JsonText
        ensures { result ≡ [] }
    {
        JsonText {
            writer: Writer::new(Vec::new(alloc)),
        }
    }

    /// One with room for so many octets.
    pub(crate) fn with_room(alloc: Global, octets: usize) -> Result<JsonText, AllocError>
        ensures { IfOk result (λ json. json ≡ []) }
    {
        let text = Vec::with_capacity(alloc, octets)?;
        Ok(JsonText {
            writer: Writer::new(text),
        })
    }

    pub fn begin_object(&mut self) -> Result<(), AllocError>
        ensures { OnOk result (self.new ≡ self.old ++ begin_object ∷ []) }
    {
        self.writer.begin_object()
    }

    /// A member that is an object, up to the first member of that.
    pub fn begin_object_at(&mut self, name: &str) -> Result<(), AllocError>
        ensures { OnOk result (self.new ≡ self.old ++ (key name.now ∷ begin_object ∷ [])) }
    {
        self.writer.key(name)?;
        self.writer.begin_object()
    }

    pub fn end_object(&mut self) -> Result<(), AllocError>
        ensures { OnOk result (self.new ≡ self.old ++ end_object ∷ []) }
    {
        self.writer.end_object()
    }

    /// A member that is a list, up to its first item.
    pub fn begin_list_at(&mut self, name: &str) -> Result<(), AllocError>
        ensures { OnOk result (self.new ≡ self.old ++ (key name.now ∷ begin_array ∷ [])) }
    {
        self.writer.key(name)?;
        self.writer.begin_array()
    }

    /// An item that is a list, up to its first item.
    pub fn begin_list(&mut self) -> Result<(), AllocError>
        ensures { OnOk result (self.new ≡ self.old ++ begin_array ∷ []) }
    {
        self.writer.begin_array()
    }

    pub fn end_list(&mut self) -> Result<(), AllocError>
        ensures { OnOk result (self.new ≡ self.old ++ end_array ∷ []) }
    {
        self.writer.end_array()
    }

    /// A member that is a string.
    pub fn text(&mut self, name: &str, text: &str) -> Result<(), AllocError>
        ensures { OnOk result (self.new ≡ self.old ++ text_member name.now text.now) }
    {
        self.writer.key(name)?;
        self.writer.string(text)
    }

    /// An item that is a string.
    pub fn item(&mut self, text: &str) -> Result<(), AllocError>
        ensures { OnOk result (self.new ≡ self.old ++ string text.now ∷ []) }
    {
        self.writer.string(text)
    }

    /// A member that is a string, where there is something to say.
    pub fn said(&mut self, name: &str, text: &str) -> Result<(), AllocError>
        ensures { OnOk result (self.new ≡ self.old ++ said_member name.now text.now) }
    {
        if text.is_empty() {
            return Ok(());
        }
        self.text(name, text)
    }

    /// A member that is a number.
    pub fn number(&mut self, name: &str, number: u64) -> Result<(), AllocError>
        ensures { OnOk result (self.new ≡ self.old ++ number_member name.now number) }
    {
        self.writer.key(name)?;
        self.writer.u64(number)
    }

    /// The same where there is one.
    pub fn optional_number(&mut self, name: &str, number: Option<u64>) -> Result<(), AllocError>
        ensures { OnOk result (self.new ≡ self.old ++ optional (number_member name.now) number) }
    {
        match number {
            None => Ok(()),
            Some(number) => self.number(name, number),
        }
    }

    /// A member that is true or false.
    pub fn boolean(&mut self, name: &str, value: bool) -> Result<(), AllocError>
        ensures { OnOk result (self.new ≡ self.old ++ boolean_member name.now value) }
    {
        self.writer.key(name)?;
        self.writer.boolean(value)
    }

    /// The text as a line.
    pub fn into_line(self) -> Result<String, AllocError>
        ensures { IfOk result (λ text. string_bytes text ≡ print self ++ line_feed) }
    {
        let JsonText { writer } = self;
        let Ok(mut text) = String::from_utf8(writer.into_inner()) else {
            unreachable!()
        };
        text.push_str("\n")?;
        Ok(text)
    }
}
