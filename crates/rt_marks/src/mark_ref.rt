// Where a mark stands in the order of marks.
ghost use Rattle.std.specs.Prelude.{◌≡◌};
ghost use Rattle.rt_marks.specs.Marks.{comes_before};

use crate::Gravity;

/// A spot in the order of marks: the place, the gravity and the name of a mark that stands there, or
/// would. The fields decide in the order in which they are written.
#[derive(Clone, Copy, Debug, PartialEq, Eq, PartialOrd, Ord)]
pub struct MarkRef<'a> {
    /// The characters before it.
    pub place: usize,
    pub gravity: Gravity,
    pub name: &'a str,
}

impl MarkRef<'_> {
    ghost use Rattle.rt_marks.specs.Seen.{spotted};

    /// Whether a mark here comes before one at another spot in the order of marks.
    pub fn comes_before(&self, other: &MarkRef<'_>) -> bool
        ensures { result ≡ comes_before (spotted self.now) (spotted other.now) }
    {
        self < other
    }
}
