// Where a mark stands after text was inserted at its place.
ghost use Rattle.std.specs.Prelude.{◌≡◌};
ghost use Rattle.rt_marks.specs.Marks.{gravity_of, gravity_word};

/// Where a mark stands after text was inserted at its place (Tk text manual, "mark gravity").
#[derive(Clone, Copy, Debug, PartialEq, Eq, PartialOrd, Ord)]
pub enum Gravity {
    /// Before the text: the mark stays at its place.
    Left,
    /// After the text: the mark moves on with the character behind it. New marks are so.
    Right,
}

impl Gravity {
    /// The gravity that a word names, `left` or `right`. It takes no memory.
    pub fn of(word: &str) -> Option<Gravity>
        ensures { result ≡ gravity_of word.now }
    {
        match word {
            "left" => Some(Gravity::Left),
            "right" => Some(Gravity::Right),
            _ => None,
        }
    }

    /// The word that names it.
    pub fn word(self) -> &'static str
        ensures { result.now ≡ gravity_word self }
    {
        match self {
            Gravity::Left => "left",
            Gravity::Right => "right",
        }
    }
}
