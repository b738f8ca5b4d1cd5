// Many names are forgotten at once.
ghost use Rattle.std.specs.Prelude.{◌≡◌, ◌||◌, ◌&&◌, Bool, List, ℕ, filter, length, map, not, take};
ghost use Rattle.std.specs.Str.{bytes_eq};
ghost use Rattle.rt_stamps.specs.Words.{as_words};
ghost use Rattle.rt_tags.specs.Seen.{names_of};
ghost use Rattle.rt_tags.specs.Kept.{IsListing};
ghost use Rattle.rt_tags.specs.Tags.{HaveNoRepeats, all_forgotten, is_forgotten, is_listed, sel};

use crate::names;
use indexmap::IndexSet;

/// Marks a name that is there. `sel` is passed over.
fn mark(names: &IndexSet<String>, name: &str, marks: &mut [bool])
    requires differ { HaveNoRepeats (names_of names.now) }
    requires len { length marks.old ≡ length (names_of names.now) }
    ensures len { length marks.new ≡ length (names_of names.now) }
    ensures marks { (test : List ℕ → Bool) → marks.old ≡ map test (names_of names.now)
        → marks.new ≡ map (λ x. test x || (bytes_eq x name.now && not (bytes_eq x sel))) (names_of names.now) }
{
    if name == "sel" {
        return;
    }
    match names::index_of(names, name) {
        Some(place) => marks[place] = true,
        None => {}
    }
}

/// Marks the names that are given, and no others. `sel` is passed over.
fn mark_all(names: &IndexSet<String>, given: &[String], marks: &mut [bool])
    requires differ { HaveNoRepeats (names_of names.now) }
    requires len { length marks.old ≡ length (names_of names.now) }
    ensures { marks.new ≡ map (is_forgotten (as_words given.now)) (names_of names.now) }
{
    marks.fill(false);
    for name in given {
        mark(names, name, marks);
    }
}

/// Puts the listed names that are marked behind those that aren't, and answers how many these are.
fn part(names: &mut IndexSet<String>, listed: usize, marks: &[bool]) -> usize
    requires listed { IsListing (names_of names.old) listed }
    requires len { length marks.now ≡ length (names_of names.old) }
    ensures listed { IsListing (names_of names.new) result }
    ensures names { (test : List ℕ → Bool) → marks.now ≡ map test (names_of names.old)
        → take result (names_of names.new) ≡ filter (λ x. not (test x)) (take listed (names_of names.old)) }
    ensures len { length (names_of names.new) ≡ length (names_of names.old) }
    ensures same { (name : List ℕ) → is_listed name (names_of names.new) ≡ is_listed name (names_of names.old) }
{
    let mut kept = 0;
    for place in 0..listed {
        if !marks[place] {
            names::bring(names, place, kept);
            kept += 1;
        }
    }
    kept
}

/// Puts the listed names that are given behind the others, and answers how many these are. `sel` is
/// passed over. The marks are for its own use.
pub fn forget(
    names: &mut IndexSet<String>,
    listed: usize,
    given: &[String],
    marks: &mut [bool],
) -> usize
    requires listed { IsListing (names_of names.old) listed }
    requires len { length marks.old ≡ length (names_of names.old) }
    ensures listed { IsListing (names_of names.new) result }
    ensures names { take result (names_of names.new)
        ≡ all_forgotten (as_words given.now) (take listed (names_of names.old)) }
    ensures same { (name : List ℕ) → is_listed name (names_of names.new) ≡ is_listed name (names_of names.old) }
    ensures marks { length marks.new ≡ length (names_of names.new) }
{
    mark_all(names, given, marks);
    part(names, listed, marks)
}
