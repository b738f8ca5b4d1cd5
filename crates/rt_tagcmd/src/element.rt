// What a dump shows.
ghost use Rattle.std.specs.Prelude.{◌≡◌, codes, string_bytes};
ghost use Rattle.rt_tagcmd.specs.Elements.{key_word};

use rt_stamps::Position;
use std::marker::Model;

/// What an element of a dump is (Tk text manual, "dump").
#[derive(Clone, Copy, Debug, PartialEq, Eq)]
pub enum Key {
    /// `tagoff`: a range of a tag ends.
    TagOff,
    /// `tagon`: a range of a tag begins.
    TagOn,
    /// `mark`: a mark stands here.
    Mark,
    /// `text`: characters stand from here on.
    Text,
}

impl Key {
    /// The word by which a dump answers it.
    pub fn word(self) -> &'static str
        ensures { result.now ≡ key_word self }
    {
        match self {
            Key::TagOff => "tagoff",
            Key::TagOn => "tagon",
            Key::Mark => "mark",
            Key::Text => "text",
        }
    }
}

/// An element of a dump: what it is, the name of the tag or the mark or the characters, and the line and the character
/// where it stands.
#[derive(Debug, Drop)]
pub struct Element {
    key: Key,
    value: String,
    position: Position,
}

impl Model for Element {
    ghost use Rattle.std.specs.Prelude.{string_bytes};
    ghost use Rattle.rt_tagcmd.specs.Elements.{Element};

    ghost Value = { Element };

    ghost view = { λ e. record { key = e.key; value = string_bytes e.value; position = e.position } };
}

impl Element {
    /// An element at a line and a character. It takes no memory.
    pub(crate) fn new(key: Key, value: String, position: Position) -> Element
        ensures { result ≡ record { key = key; value = string_bytes value; position = position } }
    {
        Element {
            key,
            value,
            position,
        }
    }

    /// What it is.
    pub fn key(&self) -> Key
        ensures { result ≡ self.now.key }
    {
        self.key
    }

    /// The name of the tag or the mark, or the characters.
    pub fn value(&self) -> &str
        ensures { result.now ≡ self.now.value }
    {
        &self.value
    }

    /// The line and the character where it stands.
    pub fn position(&self) -> Position
        ensures { result ≡ self.now.position }
    {
        self.position
    }
}
