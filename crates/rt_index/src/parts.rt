// The parts of an index expression.

/// What a modifier counts.
#[derive(Clone, Copy, Debug, PartialEq, Eq)]
pub enum Step {
    Characters,
    Lines,
}

/// A place of the line or of the word that a place lies in.
#[derive(Clone, Copy, Debug, PartialEq, Eq)]
pub enum Keyword {
    LineStart,
    LineEnd,
    WordStart,
    WordEnd,
}

/// A modifier of an index expression (Tk text manual, "Indices").
#[derive(Clone, Copy, Debug, PartialEq, Eq)]
pub enum Modifier {
    /// So many steps towards the end.
    Forward(usize, Step),
    /// So many steps towards the beginning.
    Back(usize, Step),
    To(Keyword),
}

/// No step: it leaves every place as it is.
impl Default for Modifier {
    ghost use Rattle.std.specs.Prelude.{◌≡◌};
    ghost use Rattle.rt_index.specs.declared.parts.Modifier.TheVariants.{Forward};
    ghost use Rattle.rt_index.specs.declared.parts.Step.TheVariants.{Characters};

    ghost is_default = { λ modifier. modifier ≡ Forward 0 Characters };

    fn default() -> Self {
        Modifier::Forward(0, Step::Characters)
    }
}

/// A sign of a number of steps.
#[derive(Clone, Copy, Debug, PartialEq, Eq)]
pub enum Sign {
    Plus,
    Minus,
}

/// A base that the text alone gives a place.
#[derive(Clone, Copy, Debug, PartialEq, Eq)]
pub enum Fixed {
    /// A line and a character of it.
    Character(usize, usize),
    /// The newline of a line.
    LineEndOf(usize),
    /// The end of the text.
    End,
}

/// An end of the characters of a tag.
#[derive(Clone, Copy, Debug, PartialEq, Eq)]
pub enum Side {
    First,
    Last,
}

/// `NAME.first` or `NAME.last`, at the front of a word.
#[derive(Clone, Copy, Debug, PartialEq, Eq)]
pub struct Tag {
    /// How many bytes the name has.
    pub name_len: usize,
    pub side: Side,
}

/// What an expression begins with.
#[derive(Clone, Copy, Debug, PartialEq, Eq)]
pub enum Base {
    AtPlace(Fixed),
    /// A token, which may be a mark's name, or `NAME.first` or `NAME.last`.
    Named {
        /// How many bytes the token has.
        token_len: usize,
        /// Whether the modifiers follow it.
        modifiers_follow: bool,
        /// The end of a tag that the modifiers follow.
        tag: Option<Tag>,
    },
}

/// The greatest number that is kept. A greater one says the same, as texts are shorter.
pub const MOST: usize = usize::MAX;
