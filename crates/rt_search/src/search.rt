// What a search looks for, and where.
ghost use Rattle.std.specs.Prelude.{◌≡◌, ◌-◌, ◌<◌, ◌≤◌, slice_index_or};
ghost use Rattle.rt_search.specs.Searches.{agree, ordered_places};

use rt_lines::Stretch;
use unicode::case::simple_fold;

/// Which way a search goes (Tk text manual, "search").
#[derive(Clone, Copy, Debug, PartialEq, Eq)]
pub enum Direction {
    /// `-forwards`: from the start index on. A search that isn't told goes so.
    Forwards,
    /// `-backwards`: from the character before the start index back.
    Backwards,
}

/// Which characters count as the same.
#[derive(Clone, Copy, Debug, PartialEq, Eq)]
pub enum Case {
    /// A character is only the same as itself.
    Exact,
    /// `-nocase`: those with one simple case folding of Unicode are the same.
    Ignored,
}

/// What of a match must lie in the stretch that is searched.
#[derive(Clone, Copy, Debug, PartialEq, Eq)]
pub enum Strictness {
    /// Its first character.
    First,
    /// `-strictlimits`: all of it.
    Strict,
}

/// What becomes of a match that overlaps one that a search for all has taken already.
#[derive(Clone, Copy, Debug, PartialEq, Eq)]
pub enum Overlaps {
    /// It is passed over.
    PassedOver,
    /// `-overlap`: it is taken too.
    Taken,
}

/// How to search.
#[derive(Clone, Copy, Debug, PartialEq, Eq)]
pub struct Search {
    pub direction: Direction,
    pub case: Case,
    pub strictness: Strictness,
}

/// How many places a stretch has: none if the end isn't behind the beginning.
pub(crate) fn places(stretch: Stretch) -> usize
    ensures { result ≡ stretch.end - stretch.begin }
{
    stretch.end.saturating_sub(stretch.begin)
}

/// The place of a stretch that a search comes to after so many others.
pub(crate) fn nth(stretch: Stretch, direction: Direction, index: usize) -> usize
    requires { index < stretch.end - stretch.begin }
    ensures place { result ≡ slice_index_or (ordered_places direction stretch) index result }
    ensures begin { stretch.begin ≤ result }
    ensures end { result < stretch.end }
{
    match direction {
        Direction::Forwards => stretch.begin + index,
        Direction::Backwards => stretch.end - 1 - index,
    }
}

/// Whether two characters count as the same.
pub(crate) fn agree(case: Case, a: char, b: char) -> bool
    ensures { result ≡ agree case a b }
{
    match case {
        Case::Exact => a == b,
        Case::Ignored => simple_fold(a) == simple_fold(b),
    }
}
