// Words that are borrowed: one, and one or more.
ghost use Rattle.std.specs.Prelude.{◌≡◌};
ghost use Rattle.rt_stamps.specs.Words.{as_words};
ghost use Rattle.rt_requests.specs.Parts.{several, all_of};

use std::marker::Model;

/// A word.
#[derive(Drop)]
pub struct Word<'a> {
    text: &'a str,
}

impl<'a> Model for Word<'a> {
    ghost use Rattle.std.specs.Prelude.{List, ℕ};

    ghost Value = { List ℕ };

    ghost view = { λ w. w.text.now };
}

impl<'a> Word<'a> {
    /// The word of a text.
    pub fn new(text: &'a str) -> Word<'a>
        ensures { result ≡ text.now }
    {
        Word { text }
    }

    /// Its text.
    pub fn text(&self) -> &'a str
        ensures { result.now ≡ self.now }
    {
        self.text
    }
}

/// One word or more.
#[derive(Drop)]
pub struct Words<'a> {
    words: &'a [String],
}

impl<'a> Model for Words<'a> {
    ghost use Rattle.std.specs.Prelude.{◌<◌, length};
    ghost use Rattle.rt_stamps.specs.Words.{as_words};
    ghost use Rattle.rt_requests.specs.Parts.{Several, several_or_empty};

    ghost Value = { Several };

    ghost view = { λ w. several_or_empty (as_words w.words.now) };

    ghost invariant = { λ w. 0 < length w.words.now };
}

impl<'a> Words<'a> {
    /// Some words, where there is one.
    pub fn new(words: &'a [String]) -> Option<Words<'a>>
        ensures { result ≡ several (as_words words.now) }
    {
        if words.is_empty() {
            return None;
        }
        Some(Words { words })
    }

    /// All of them.
    pub fn all(&self) -> &'a [String]
        ensures { as_words result.now ≡ all_of self.now }
    {
        self.words
    }
}
