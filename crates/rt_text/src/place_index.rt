// The index of a place, as it is written.
ghost use Rattle.std.specs.Prelude.{◌≡◌};
ghost use Rattle.rt_text.specs.PlaceWords.{place_word};

use arrayvec::ArrayString;
use itoa::Buffer;
use std::marker::Model;

// How many bytes an index has at most: those of `1.0+`, of a number of 20 digits, and `c`.
const MOST_BYTES: usize = 25;

/// The index of a place, `1.0+Nc`, which takes no memory. It is seen as its bytes.
#[derive(Drop)]
pub struct PlaceIndex {
    text: ArrayString<MOST_BYTES>,
}

impl Model for PlaceIndex {
    ghost use Rattle.rt_stamps.specs.Words.{Word};

    ghost Value = { Word };

    ghost view = { λ index. index.text.bytes };
}

impl PlaceIndex {
    /// The index of a place of what a widget shows, counted from where that begins, from 0. Past its end it is an index of
    /// the end, as in Tk.
    pub fn new(place: usize) -> PlaceIndex
        ensures value { result ≡ place_word place }
    {
        let mut digits = Buffer::new();
        let mut text = ArrayString::new();
        text.push_str("1.0+");
        text.push_str(digits.format(place));
        text.push_str("c");
        PlaceIndex { text }
    }

    /// The index, as a word.
    pub fn text(&self) -> &str
        ensures value { result.now ≡ self.now }
    {
        self.text.as_str()
    }
}
