// What widgets with limits show of a text of the characters a, b, c and d, each on a line of its own, as far as scripts can't
// tell it.
use crate::checks::same;
use crate::store::Text;
use rt_lines::{Limits, Stretch};
use rt_stamps::{Fault, Stamp};
use rt_store::TextStore;
use std::alloc::Global;
use std::test::Fail;

// The stamp of a character of site 1.
fn stamp(count: u64) -> Stamp {
    Stamp { count, site: 1 }
}

const BACKWARDS: &[(u64, char, bool)] = &[
    (7, 'd', false),
    (6, '\n', false),
    (5, 'c', false),
    (4, '\n', false),
    (3, 'b', false),
    (9, '\n', false),
    (2, '\n', false),
    (1, 'a', false),
];

// The text whose first newline, the character 2, is gone, and came back as the character 9.
fn four_lines_again(alloc: Global) -> Result<Text, Fault> {
    let mut text = Text::of(alloc, BACKWARDS)?;
    text.remove(2)?;
    Ok(text)
}

/// What a widget shows, and the numbers of its limits.
type Sight = (Stretch, Option<usize>, Option<usize>);

fn seen(text: &Text, limits: Limits) -> Result<Sight, Fault> {
    if text.store.cells() > 100 {
        return Err(Fault::NoMemory);
    }
    Ok((
        limits.stretch(&text.store),
        limits.start_number(&text.store),
        limits.end_number(&text.store),
    ))
}

// A stretch of the text, and the numbers of the limits about it.
fn sight(begin: usize, first: usize, last: usize) -> Result<Sight, Fault> {
    Ok((Stretch { begin, end: 6 }, Some(first), Some(last)))
}

// Where a newline came back under a newer stamp, the limit follows it; without that it begins with the line before.
#[test]
fn a_newline_that_came_back(rt: HostRuntime) -> Result<(), Fail> {
    let text = four_lines_again(rt.alloc())?;
    let limits = Limits {
        start: Some(stamp(2)),
        end: Some(stamp(6)),
    };
    let renamed = limits.renamed(stamp(2), stamp(9));
    same(&rt, seen(&text, renamed), sight(2, 2, 4));
    same(&rt, seen(&text, limits), sight(0, 1, 4));
    Ok(())
}

// Marks outside are brought to the nearer end, and the insertion cursor never stands behind the last newline.
#[test]
fn places_that_are_seen(rt: HostRuntime) {
    let stretch = Stretch { begin: 2, end: 6 };
    same(&rt, (stretch.place(0), stretch.cursor(0)), (0, 0));
    same(&rt, (stretch.place(3), stretch.cursor(3)), (1, 1));
    same(&rt, (stretch.place(6), stretch.cursor(6)), (4, 3));
    same(&rt, (stretch.place(8), stretch.cursor(8)), (4, 3));
}
