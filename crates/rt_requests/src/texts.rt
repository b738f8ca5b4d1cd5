// Texts to insert.
ghost use Rattle.std.specs.Prelude.{◌≡◌};
ghost use Rattle.rt_stamps.specs.Words.{as_words};

use std::marker::Model;

/// A text with the names of its tags, in any order, repeated or not.
#[derive(Drop)]
pub struct TaggedText<'a> {
    text: &'a str,
    tags: Vec<String>,
}

impl<'a> Model for TaggedText<'a> {
    ghost use Rattle.rt_stamps.specs.Words.{as_words};
    ghost use Rattle.rt_requests.specs.Parts.{TaggedTextValue};

    ghost Value = { TaggedTextValue };

    ghost view = { λ p. record { text = p.text.now; tags = as_words p.tags.items } };
}

impl<'a> TaggedText<'a> {
    /// A text with the names of its tags.
    pub fn new(text: &'a str, tags: Vec<String>) -> TaggedText<'a>
        ensures { result ≡ record { text = text.now; tags = as_words tags.items } }
    {
        TaggedText { text, tags }
    }

    /// The text.
    pub fn text(&self) -> &'a str
        ensures { result.now ≡ self.now.text }
    {
        self.text
    }

    /// The names of its tags.
    pub fn tags(&self) -> &[String]
        ensures { as_words result.now ≡ self.now.tags }
    {
        &self.tags
    }
}

/// Texts with their tags, and a text without a list of tags behind them, perhaps an empty one.
#[derive(Drop)]
pub struct Texts<'a> {
    pieces: Vec<TaggedText<'a>>,
    rest: &'a str,
}

impl<'a> Model for Texts<'a> {
    ghost use Rattle.rt_requests.specs.Parts.{TextsValue};

    ghost Value = { TextsValue };

    ghost view = { λ t. record { pieces = t.pieces.items; rest = t.rest.now } };
}

impl<'a> Texts<'a> {
    /// Texts with their tags, and a text without a list.
    pub fn new(pieces: Vec<TaggedText<'a>>, rest: &'a str) -> Texts<'a>
        ensures { result ≡ record { pieces = pieces.entry.items; rest = rest.now } }
    {
        Texts { pieces, rest }
    }

    /// The texts that have a list of tags.
    pub fn pieces(&self) -> &[TaggedText<'a>]
        ensures { result.now ≡ self.now.pieces }
    {
        &self.pieces
    }

    /// The text without a list, perhaps an empty one.
    pub fn rest(&self) -> &'a str
        ensures { result.now ≡ self.now.rest }
    {
        self.rest
    }
}
