// What a search for a tag costs in a tree of three levels: the character at place p has the count p + 1.
use crate::checks::same;
use crate::stores::{Pair, many_runs};
use rt_stamps::{Fault, Span};
use std::process::Abort;
use std::test::Fail;

// The character of a count gets the tag.
fn tag(pair: &mut Pair, count: u64) -> Result<(), Fault> {
    let span = Span {
        site: 1,
        first: count,
        last: count,
    };
    pair.mark(span, true)
}

// Where no character has the tag, a look at each entry of the root tells so; the counter that is lent goes on from what it was.
fn find_no_tag(rt: &impl Abort, pair: &Pair) {
    let (_, height) = pair.shape();
    same(rt, height, 3);
    for before in [0, 7, 1000] {
        let (found, looks) = pair.search(0, before);
        same(rt, (found, 2 <= looks && looks <= 16), (None, true));
    }
}

/// Places, and the next of the places 5, 150 and 299.
const NEXT: &[(usize, Option<usize>)] = &[
    (0, Some(5)),
    (5, Some(5)),
    (6, Some(150)),
    (149, Some(150)),
    (150, Some(150)),
    (151, Some(299)),
    (299, Some(299)),
    (300, None),
    (301, None),
    (1000, None),
];

// Three tagged characters, far from each other: each is found from wherever it is the next, with at most thirty-two looks a
// level, and at most sixteen from the beginning of the text.
fn find_the_next(rt: &impl Abort, pair: &Pair) {
    for (place, next) in NEXT {
        let (found, looks) = pair.search(*place, 5);
        same(rt, (*place, found, looks <= 3 * 32), (*place, *next, true));
    }
    let (_, looks) = pair.search(0, 0);
    same(rt, looks <= 3 * 16, true);
}

// From every place the answer is that of `next_tagged`.
fn find_from_every_place(rt: &impl Abort, pair: &Pair) {
    same(rt, pair.is_same(), true);
    for place in 0..302 {
        let (found, looks) = pair.search(place, 0);
        let next = pair.next_tagged(place);
        same(rt, (place, found, looks <= 3 * 32), (place, next, true));
    }
}

fn tag_three(pair: &mut Pair) -> Result<(), Fault> {
    tag(pair, 6)?;
    tag(pair, 151)?;
    tag(pair, 300)
}

// Every eighth character gets the tag, and no other one has it.
fn tag_eighths(pair: &mut Pair) -> Result<(), Fault> {
    let all = Span {
        site: 1,
        first: 1,
        last: 300,
    };
    pair.mark(all, false)?;
    for count in 1..38 {
        tag(pair, 8 * count)?;
    }
    Ok(())
}

// A tree of three levels: no character has the tag; then three have it; then many, also where ranges begin and end at nodes'
// borders.
#[test]
fn looks_of_searches(rt: HostRuntime) -> Result<(), Fail> {
    let mut pair = many_runs(rt.alloc(), 300)?;
    find_no_tag(&rt, &pair);
    tag_three(&mut pair)?;
    find_the_next(&rt, &pair);
    tag_eighths(&mut pair)?;
    find_from_every_place(&rt, &pair);
    Ok(())
}
