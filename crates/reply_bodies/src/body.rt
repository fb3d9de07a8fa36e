ghost use Rattle.std.specs.Prelude.{◌≡◌, [], ◌∷◌, ◌++◌, OnOk, option_copied};
ghost use Rattle.std.specs.Str.{IsUtf8};
ghost use Rattle.json.specs.Lex.{tokens};
ghost use Rattle.json.specs.Print.{print};
ghost use Rattle.json.specs.Token.{begin_array, begin_object, end_array, end_object, key};
ghost use Rattle.reply_bodies.specs.Members.{number_if_any, number_member, text_if_any, text_member};

use json::Writer;
use sched_plain::Text;
use std::alloc::{AllocError, Global};
use std::marker::Model;

/// A body as it is written, piece by piece. Contracts see its tokens.
///
/// Each `Err` is want of memory, and what was written is then of no use.
#[derive(Drop)]
pub struct Body {
    writer: Writer,
}

impl Model for Body {
    ghost use Rattle.std.specs.Prelude.{◌≡◌, [], List};
    ghost use Rattle.json.specs.Token.{Token, tokens_code};

    ghost Value = { List Token };

    ghost coded = { tokens_code };

    ghost view = { λ b. b.writer.tokens };

    ghost invariant = { λ b. b.writer.before ≡ [] };
}

impl Body {
    /// The empty body, which takes no memory.
    pub fn new(alloc: Global) -> Body
        ensures { result ≡ [] }
    {
        Body {
            writer: Writer::new(Vec::new(alloc)),
        }
    }

    /// The text of the body.
    pub fn into_bytes(self) -> Vec<u8>
        ensures text { result.items ≡ print self }
        ensures utf8 { IsUtf8 (print self) }
        ensures read { tokens (print self) ≡ self }
    {
        let Body { writer } = self;
        writer.into_inner()
    }

    /// Begins an object that is no member: the whole body, or one of a list.
    pub fn begin_object(&mut self) -> Result<(), AllocError>
        ensures { OnOk result (self.new ≡ self.old ++ begin_object ∷ []) }
    {
        self.writer.begin_object()
    }

    /// Ends the object that was begun last.
    pub fn end_object(&mut self) -> Result<(), AllocError>
        ensures { OnOk result (self.new ≡ self.old ++ end_object ∷ []) }
    {
        self.writer.end_object()
    }

    /// Begins a member whose value is a list.
    pub fn begin_list(&mut self, name: &str) -> Result<(), AllocError>
        ensures { OnOk result (self.new ≡ self.old ++ key name.now ∷ begin_array ∷ []) }
    {
        self.writer.key(name)?;
        self.writer.begin_array()
    }

    /// Ends the list that was begun last.
    pub fn end_list(&mut self) -> Result<(), AllocError>
        ensures { OnOk result (self.new ≡ self.old ++ end_array ∷ []) }
    {
        self.writer.end_array()
    }

    /// Begins a member whose value is an object.
    pub fn begin_member(&mut self, name: &str) -> Result<(), AllocError>
        ensures { OnOk result (self.new ≡ self.old ++ key name.now ∷ begin_object ∷ []) }
    {
        self.writer.key(name)?;
        self.writer.begin_object()
    }

    /// A member whose value is a text.
    pub fn text(&mut self, name: &str, value: &str) -> Result<(), AllocError>
        ensures { OnOk result (self.new ≡ self.old ++ text_member name.now value.now) }
    {
        self.writer.key(name)?;
        self.writer.string(value)
    }

    /// A member whose value is a whole number.
    pub fn number(&mut self, name: &str, value: u64) -> Result<(), AllocError>
        ensures { OnOk result (self.new ≡ self.old ++ number_member name.now value) }
    {
        self.writer.key(name)?;
        self.writer.u64(value)
    }

    /// A member that is left out where there is no text.
    pub fn text_if_any(&mut self, name: &str, value: &Option<Text>) -> Result<(), AllocError>
        ensures { OnOk result (self.new ≡ self.old ++ text_if_any name.now value.now) }
    {
        match value {
            Some(value) => self.text(name, value.as_str()),
            None => Ok(()),
        }
    }

    /// A member that is left out where there is no number.
    pub fn number_if_any(&mut self, name: &str, value: Option<u64>) -> Result<(), AllocError>
        ensures { OnOk result (self.new ≡ self.old ++ number_if_any name.now value) }
    {
        match value {
            Some(value) => self.number(name, value),
            None => Ok(()),
        }
    }
}
