// Spans set one over the other, and random calls against a plain list of what was set.
ghost use Rattle.std.specs.Prelude.{◌+◌, ◌^◌, ◌<◌, ◌≤◌};

use crate::checks::same;
use rt_spans::SpanMap;
use rt_stamps::{Fault, Span, Stamp};
use std::alloc::Global;
use std::process::Abort;
use std::test::Fail;

/// Spans of site 1 with their values, which are set; such spans that get another value without room, and whether they do;
/// counts and their values then.
type Case = (
    &'static [(u64, u64, char)],
    &'static [(u64, u64, char, bool)],
    &'static [(u64, Option<char>)],
);

// A span of site 1.
fn span(first: u64, last: u64) -> Span
    ensures order { result.first ≤ result.last }
    ensures bound { result.last < 2 ^ 32 }
{
    let first = first.min(1000);
    Span {
        site: 1,
        first,
        last: last.min(1000).max(first),
    }
}

// The map of spans that are set.
fn set_of(alloc: Global, sets: &[(u64, u64, char)]) -> Result<SpanMap<char>, Fault> {
    let mut map = SpanMap::new(alloc);
    for (first, last, value) in sets {
        map.reserve(1)?;
        map.set(span(*first, *last), *value);
    }
    Ok(map)
}

// Stops a test where other spans get a value without room than those that are told.
fn repaint(rt: &impl Abort, map: &mut SpanMap<char>, spans: &[(u64, u64, char, bool)]) {
    for (first, last, value, wanted) in spans {
        same(rt, map.repaint(span(*first, *last), *value), *wanted);
    }
}

// A span within another; a span that was set gets another value without room, and one that begins or ends elsewhere doesn't.
const CASES: &[Case] = &[
    (
        &[(1, 5, 'a'), (3, 3, 'b')],
        &[],
        &[(2, Some('a')), (3, Some('b')), (4, Some('a')), (6, None)],
    ),
    (
        &[(1, 5, 'a'), (6, 9, 'b')],
        &[(6, 9, 'c', true), (1, 3, 'd', false), (2, 5, 'd', false)],
        &[(5, Some('a')), (6, Some('c')), (9, Some('c'))],
    ),
    (
        &[(1, 5, 'a'), (6, 9, 'b')],
        &[
            (6, 9, 'c', true),
            (1, 3, 'd', false),
            (2, 5, 'd', false),
            (1, 9, 'e', true),
            (6, 9, 'f', false),
        ],
        &[(1, Some('e')), (6, Some('e')), (10, None)],
    ),
];

#[test]
fn spans_set_and_set_again(rt: HostRuntime) -> Result<(), Fail> {
    for (sets, spans, values) in CASES {
        let mut map = set_of(rt.alloc(), *sets)?;
        repaint(&rt, &mut map, *spans);
        for (count, value) in *values {
            same(
                &rt,
                map.get(Stamp {
                    count: *count,
                    site: 1,
                }),
                *value,
            );
        }
        same(&rt, map.get(Stamp { count: 3, site: 2 }), None);
    }
    Ok(())
}

// What was set, the newest last.
fn last_set(sets: &[(Span, u32)], stamp: Stamp) -> Option<u32> {
    let mut found = None;
    for (span, value) in sets {
        if span.site == stamp.site && span.first <= stamp.count && stamp.count <= span.last {
            found = Some(*value);
        }
    }
    found
}

#[derive(Drop)]
struct Random {
    seed: u64,
}

impl Random {
    fn below(&mut self, limit: u64) -> u64
        requires { 0 < limit }
        ensures { result < limit }
    {
        self.seed = self
            .seed
            .wrapping_mul(6_364_136_223_846_793_005)
            .wrapping_add(1);
        (self.seed >> 33) % limit
    }

    // Most are short, and some are long.
    fn span(&mut self) -> Span
        ensures order { result.first ≤ result.last }
        ensures bound { result.last < 2 ^ 32 }
    {
        let first = self.below(4000);
        let more = if self.below(40) == 0 { 1500 } else { 4 };
        Span {
            site: 1 + self.below(2) as u32,
            first,
            last: first + self.below(more),
        }
    }
}

// As many sets as there is room for, and look-ups at random after each.
fn set_some(
    rt: &impl Abort,
    map: &mut SpanMap<u32>,
    sets: &mut Vec<(Span, u32)>,
    random: &mut Random,
) -> Result<(), Fail>
    requires { 50 ≤ map.old.room }
{
    for value in 0..50u32 {
        let span = random.span();
        map.set(span, value);
        sets.push((span, value))?;
        for _ in 0..6 {
            let stamp = Stamp {
                count: random.below(5600),
                site: 1 + random.below(2) as u32,
            };
            same(rt, map.get(stamp), last_set(sets, stamp));
        }
    }
    Ok(())
}

#[test]
fn random_calls(rt: HostRuntime) -> Result<(), Fail> {
    let mut map = SpanMap::new(rt.alloc());
    let mut sets = Vec::new(rt.alloc());
    let mut random = Random { seed: 7 };
    for _ in 0..40 {
        map.reserve(50)?;
        set_some(&rt, &mut map, &mut sets, &mut random)?;
    }
    Ok(())
}
