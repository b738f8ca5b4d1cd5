// A mark as it is kept.
ghost use Rattle.std.specs.Prelude.{◌≡◌, ◌+◌, ◌≤◌, string_bytes};
ghost use Rattle.rt_marks.specs.Marks.{comes_before, name_order, place_inserted, place_removed};

use crate::{Gravity, MarkRef, place};
use std::cmp::Ordering;

/// A mark.
#[derive(Debug, Drop)]
pub struct Mark {
    /// The characters before it.
    pub place: usize,
    pub gravity: Gravity,
    pub name: String,
}

impl Mark {
    ghost use Rattle.rt_marks.specs.Seen.{seen_mark, spotted};

    /// What decides where it stands in the order of marks.
    pub fn spot(&self) -> MarkRef<'_>
        ensures { spotted result ≡ seen_mark self.now }
    {
        MarkRef {
            place: self.place,
            gravity: self.gravity,
            name: self.name.as_str(),
        }
    }

    /// Where it stands after `n` characters were inserted at a place.
    pub fn place_after_insertion(&self, place: usize, n: usize) -> usize
        requires { self.now.place + n ≤ usize.MAX }
        ensures { result ≡ place_inserted place n (seen_mark self.now) }
    {
        place::place_inserted(place, n, self.place, self.gravity)
    }

    /// Where it stands after the `n` characters from a place on were removed.
    pub fn place_after_removal(&self, place: usize, n: usize) -> usize
        ensures { result ≡ place_removed place n self.now.place }
    {
        place::place_removed(place, n, self.place)
    }

    /// How its name compares with another, by their bytes.
    pub fn compare_name(&self, name: &str) -> Ordering
        ensures { result ≡ name_order (string_bytes self.now.name) name.now }
    {
        self.name.as_str().cmp(name)
    }
}
