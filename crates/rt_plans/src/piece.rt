// Pieces of text to insert.
ghost use Rattle.std.specs.Prelude.{◌≡◌, All, IsUtf8, string_bytes};
ghost use Rattle.rt_stamps.specs.Words.{as_words};

use std::marker::Model;

/// Characters to insert, with the list of their tags.
#[derive(Drop)]
pub struct Piece {
    text: String,
    tags: Vec<String>,
}

impl Model for Piece {
    ghost use Rattle.std.specs.Prelude.{string_bytes};
    ghost use Rattle.rt_stamps.specs.Words.{as_words};
    ghost use Rattle.rt_plans.specs.Insertions.{Piece};

    ghost Value = { Piece };

    ghost view = { λ p. record { text = string_bytes p.text; tags = as_words p.tags.items } };
}

impl Piece {
    /// A text with the names of its tags, in any order, repeated or not.
    pub fn new(text: String, tags: Vec<String>) -> Piece
        ensures { result ≡ record { text = string_bytes text; tags = as_words tags.items } }
    {
        Piece { text, tags }
    }

    /// The characters.
    pub fn text(&self) -> &str
        ensures { result.now ≡ self.now.text }
    {
        &self.text
    }

    /// The names of the tags.
    pub fn tags(&self) -> &[String]
        ensures { as_words result.now ≡ self.now.tags }
    {
        &self.tags
    }

    /// Its words are UTF-8.
    pub fn is_text(&self)
        ensures text { IsUtf8 self.now.text }
        ensures tags { All IsUtf8 self.now.tags }
    {
        let _ = &self.text;
    }
}
