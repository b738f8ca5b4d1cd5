// The cells of texts in a tree, beside those in a list.
use crate::checks::same;
use crate::stores::{Pair, many_runs};
use rt_stamps::{Fault, Span, Stamp};
use rt_store::FINAL_CELL;
use rt_tree::Tree;
use std::alloc::Global;
use std::process::Abort;
use std::test::Fail;

// The final newline alone: one run in one leaf. A look at the only entry is counted.
#[test]
fn a_new_tree(rt: HostRuntime) -> Result<(), Fail> {
    let tree = Tree::new(rt.alloc())?;
    same(&rt, (tree.cells(), tree.visible(), tree.lines()), (1, 1, 1));
    same(&rt, (tree.runs(), tree.height()), (1, 1));
    let first = (tree.nth(0), tree.cell_at(0), tree.char_at(0));
    same(&rt, first, (FINAL_CELL, FINAL_CELL, '\n'));
    let lines = (tree.line_start(1), tree.line_of(0), tree.line_of(1));
    same(&rt, lines, (0, 1, 2));
    let mut looks = 5;
    same(&rt, tree.find(0, &mut looks), FINAL_CELL);
    same(&rt, looks, 6);
    Ok(())
}

// With ample memory room is made, and kept.
#[test]
fn room(rt: HostRuntime) -> Result<(), Fail> {
    let mut tree = Tree::new(rt.alloc())?;
    tree.reserve(1000, 50, 3)?;
    tree.reserve(10, 60, 2)?;
    same(&rt, (tree.cells(), tree.runs(), tree.height()), (1, 1, 1));
    Ok(())
}

/// What is done to both: a character at a place with its count and site, three of these, and spans (site, first and last
/// count) that become gone or get the tag.
#[derive(Clone, Copy)]
enum Step {
    Put(usize, u64, u32, char),
    Paste(usize, u64, u32, [char; 3]),
    Remove(u32, u64, u64),
    Tag(u32, u64, u64),
}

// The counts of a site from a first one to a last one.
fn span(site: u32, first: u64, last: u64) -> Span {
    Span { site, first, last }
}

fn take(pair: &mut Pair, step: Step) -> Result<(), Fault> {
    match step {
        Step::Put(at, count, site, ch) => pair.plain(at, count, site, ch),
        Step::Paste(at, count, site, text) => pair.paste(at, count, site, text),
        Step::Remove(site, first, last) => pair.remove(span(site, first, last)),
        Step::Tag(site, first, last) => pair.mark(span(site, first, last), true),
    }
}

/// Steps, and how many runs there are then, where that is told.
type Row = (&'static [Step], Option<usize>);

// Takes steps, and stops a test where there are other runs then, or both differ.
fn comes_out(
    rt: &impl Abort,
    pair: &mut Pair,
    steps: &[Step],
    runs: Option<usize>,
) -> Result<(), Fault> {
    for step in steps {
        take(pair, *step)?;
    }
    let (found, _) = pair.shape();
    same(rt, (pair.is_same(), found), (true, runs.unwrap_or(found)));
    Ok(())
}

// Takes the steps of rows in turn on a new text, whose first characters both read then.
fn all_come_out(rt: &impl Abort, alloc: Global, rows: &[Row]) -> Result<(), Fault> {
    let mut pair = Pair::new(alloc)?;
    for (steps, runs) in rows {
        comes_out(rt, &mut pair, *steps, *runs)?;
    }
    same(rt, pair.same_characters(), true);
    Ok(())
}

/// A count of site 1, a count that is asked for, and the count to which cells go on from the first, with whether they are gone.
type RunRow = (u64, u64, Option<(u64, bool)>);

// Stops a test where others than these runs are told.
fn tells_runs(rt: &impl Abort, pair: &Pair, rows: &[RunRow]) {
    for (count, asked, run) in rows {
        let stamp = Stamp {
            count: *count,
            site: 1,
        };
        same(rt, (*count, pair.run_from(stamp, *asked)), (*count, *run));
    }
}

// The runs of `abcdef`.
const WHOLE: &[RunRow] = &[
    (1, 9, Some((6, false))),
    (3, 9, Some((6, false))),
    (3, 5, Some((5, false))),
    (6, 6, Some((6, false))),
    (7, 9, None),
];

// Those when `c` and `d` are gone, and when `f` has a tag too.
const IN_PARTS: &[RunRow] = &[
    (1, 9, Some((2, false))),
    (3, 9, Some((4, true))),
    (5, 9, Some((5, false))),
    (6, 9, Some((6, false))),
];

// A run is told from each of its stamps, to its end or to the count that is asked for. What is gone is another run, and
// what is in another state.
#[test]
fn told_runs(rt: HostRuntime) -> Result<(), Fail> {
    let mut pair = Pair::new(rt.alloc())?;
    pair.paste(0, 1, 1, ['a', 'b', 'c'])?;
    pair.paste(3, 4, 1, ['d', 'e', 'f'])?;
    tells_runs(&rt, &pair, WHOLE);
    pair.remove(span(1, 3, 4))?;
    pair.mark(span(1, 6, 6), true)?;
    tells_runs(&rt, &pair, IN_PARTS);
    Ok(())
}

// What is typed on makes its run longer; cells that don't follow make another.
const TYPED: &[Row] = &[
    (
        &[
            Step::Put(0, 1, 1, 'a'),
            Step::Put(1, 2, 1, 'b'),
            Step::Put(2, 3, 1, '\n'),
        ],
        Some(2),
    ),
    (&[Step::Put(3, 4, 1, 'c'), Step::Put(1, 5, 2, 'x')], Some(5)),
];

// A stretch that is pasted is one run, or more where a newline ends one.
const PASTED: &[Row] = &[
    (&[Step::Paste(0, 1, 1, ['a', 'b', 'c'])], Some(2)),
    (&[Step::Paste(3, 4, 1, ['\n', 'd', 'e'])], Some(3)),
    (&[Step::Paste(2, 1, 2, ['\n', '\n', 'f'])], Some(7)),
];

// A stamp that is there already: its cells come in as runs of one cell, and are marked with the others.
const TWICE: &[Row] = &[
    (
        &[
            Step::Paste(0, 1, 1, ['a', 'b', 'c']),
            Step::Paste(1, 2, 1, ['d', 'e', 'f']),
        ],
        Some(6),
    ),
    (
        &[
            Step::Paste(0, 7, 1, ['g', 'h', 'i']),
            Step::Put(3, 10, 1, 'j'),
        ],
        Some(7),
    ),
    (&[Step::Remove(1, 2, 2)], Some(8)),
    (&[Step::Tag(1, 3, 8)], None),
];

// Cells that become gone, or get a tag.
const MARKED: &[Row] = &[
    (
        &[
            Step::Paste(0, 1, 1, ['a', 'b', 'c']),
            Step::Paste(3, 4, 1, ['\n', 'd', 'e']),
            Step::Remove(1, 2, 5),
        ],
        Some(5),
    ),
    (&[Step::Tag(1, 3, 6)], Some(6)),
    (&[Step::Tag(0, 1, 1)], None),
];

#[test]
fn runs_of_cells(rt: HostRuntime) -> Result<(), Fail> {
    for rows in [TYPED, PASTED, TWICE, MARKED] {
        all_come_out(&rt, rt.alloc(), rows)?;
    }
    Ok(())
}

// One call at a place that a number gives; each round has counts of its own.
fn turn(pair: &mut Pair, random: usize, round: u64) -> Result<(), Fault> {
    let (cells, stamp) = pair.some_stamp(random / 8);
    if cells == 0 || round > 1000 {
        return Err(Fault::NoMemory);
    }
    let at = random / 8 % cells;
    let last = stamp.count.saturating_add((random / 1024 % 9) as u64);
    let near = span(stamp.site, stamp.count, last);
    let count = 1 + 3 * round;
    match random % 8 {
        0 if stamp.site > 0 => pair.remove(near),
        1 => pair.mark(near, true),
        2 => pair.plain(at, count, 3, '\n'),
        3 => pair.paste(at, count, 1, ['a', '\n', 'b']),
        4 => pair.paste(at, count, 2, ['c', 'd', '\n']),
        _ => pair.paste(cells - 1, count, 1, ['e', 'f', 'g']),
    }
}

// A series of calls at pseudo-random places: after each, both stores have the same cells. At the end they find the same by stamps
// and by the tag, though runs have moved to other leaves and were cut.
#[test]
fn a_random_series(rt: HostRuntime) -> Result<(), Fail> {
    let mut pair = Pair::new(rt.alloc())?;
    let mut seed: u32 = 7;
    for round in 0..200 {
        seed = seed.wrapping_mul(1_664_525).wrapping_add(1_013_904_223);
        turn(&mut pair, (seed / 65_536) as usize, round)?;
        same(&rt, pair.has_same_cells(), true);
    }
    let (_, height) = pair.shape();
    same(&rt, (height > 1, pair.is_same()), (true, true));
    Ok(())
}

// A new stamp goes past the greater ones behind its left element, over many runs, and both stores agree where.
#[test]
fn skipping(rt: HostRuntime) -> Result<(), Fail> {
    let pair = many_runs(rt.alloc(), 1000)?;
    let (_, height) = pair.shape();
    same(&rt, height > 1, true);
    for count in 0..30 {
        let new = Stamp {
            count: 695 + 10 * count,
            site: 2,
        };
        same(&rt, pair.same_skip(new), true);
    }
    Ok(())
}
