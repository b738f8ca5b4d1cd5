// Which of a widget's own marks.
ghost use Rattle.std.specs.Prelude.{◌≡◌};

/// A mark that each widget has for itself (Tk text manual, "The marks").
#[derive(Clone, Copy, Debug, PartialEq, Eq)]
pub enum OwnMark {
    /// `insert`: the insertion cursor.
    Insert,
    /// `current`: the character under the mouse.
    Current,
}

impl OwnMark {
    ghost use Rattle.rt_text.specs.Widgets.{own_mark_of, own_name};

    /// The own mark that a name names, if it is one. It takes no memory.
    pub fn of(name: &str) -> Option<OwnMark>
        ensures { result ≡ own_mark_of name.now }
    {
        match name {
            "insert" => Some(OwnMark::Insert),
            "current" => Some(OwnMark::Current),
            _ => None,
        }
    }

    /// Its name.
    pub fn name(self) -> &'static str
        ensures { result.now ≡ own_name self }
    {
        match self {
            OwnMark::Insert => "insert",
            OwnMark::Current => "current",
        }
    }
}
