// A line, and a character of it.
ghost use Rattle.std.specs.Prelude.{◌∷◌, ◌++◌};

use std::fmt;

/// A place of a text as a person reads it (Tk text manual). It is written `LINE.CHARACTER`.
#[derive(Clone, Copy, Debug, PartialEq, Eq)]
pub struct Position {
    /// Counted from 1.
    pub line: usize,
    /// Counted from 0.
    pub character: usize,
}

impl fmt::Display for Position {
    ghost use Rattle.std.specs.Prelude.{Some};
    ghost use Rattle.rt_stamps.specs.Places.{text_of_position};

    ghost output = { λ p. Some (text_of_position p) };

    fn fmt<W: fmt::Write>(&self, f: &mut fmt::Formatter<W>) -> fmt::Result {
        let line = self.line;
        let character = self.character;
        write!(f, "{line}.{character}")
    }
}
