// A long text in runs of one character each, in a list, in a tree, and in the list of a replica that makes its insertions.
use crate::checks::same;
use crate::rga_make::Own;
use crate::stores::Pair;
use rt_stamps::{Fault, Span, Stamp};
use std::alloc::Global;
use std::process::Abort;
use std::test::Fail;

// 2,000 characters of site 1 with counts from 1 up, each put in front of those before it: so the greatest count stands first,
// and no two characters make one run.
fn typed_in_front(alloc: Global) -> Result<Pair, Fault> {
    let mut pair = Pair::new(alloc)?;
    for count in 1..=2000 {
        pair.plain(0, count, 1, 'a')?;
    }
    Ok(pair)
}

// What `typed_in_front` gives, by a replica of site 1 that makes each insertion.
fn made_in_front(alloc: Global) -> Result<Own, Fail> {
    let mut own = Own::new(alloc, 3000)?;
    for _ in 0..2000 {
        own.type_in_front()?;
    }
    Ok(own)
}

// Stops a test where other numbers of visible characters stand before those of the counts from 1 to 2,000. The visible ones
// are those of the counts from a greatest one down: those of greater counts are gone, and stand before all. A climb from the
// leaf takes a look a level at least, and sixteen at most, and there is no walk but climbs.
fn has_places(rt: &impl Abort, pair: &Pair, greatest: usize) {
    let (_, height) = pair.shape();
    same(rt, pair.is_sure(), true);
    for count in 1..=2000 {
        let stamp = Stamp {
            count: count as u64,
            site: 1,
        };
        let place = Some(greatest.saturating_sub(count));
        same(rt, (count, pair.places(stamp)), (count, (place, place)));
        let (climbed, looks) = pair.climb(stamp, 7);
        let enough = height as u64 <= looks && looks / 16 <= height as u64;
        same(rt, (climbed, enough), (place, true));
    }
}

// A run for each character and one for the final newline, on few levels. Then the first 1,000 characters go, and the others
// come to stand first.
#[test]
fn runs_of_one_character(rt: HostRuntime) -> Result<(), Fail> {
    let mut pair = typed_in_front(rt.alloc())?;
    let (runs, height) = pair.shape();
    same(&rt, (runs, height == 3 || height == 4), (2001, true));
    has_places(&rt, &pair, 2000);
    let own = made_in_front(rt.alloc())?;
    same(&rt, pair.has_cells_of(own.replica.replica().store()), true);
    let first = Span {
        site: 1,
        first: 1001,
        last: 2000,
    };
    pair.remove(first)?;
    has_places(&rt, &pair, 1000);
    same(&rt, pair.has_same_cells(), true);
    Ok(())
}
