// Operations in rows: what a site types in a row is kept as one.
use crate::checks::same;
use rt_ops::{Edit, Op, Text};
use rt_rows::{RowPlace, Rows};
use rt_stamps::{Fault, ROOT, Span, Stamp};
use std::alloc::Global;
use std::process::Abort;
use std::test::Fail;

/// Rows, and where each operation was put.
struct Kept {
    rows: Rows,
    places: Vec<(RowPlace, Stamp)>,
}

// Written out, so that each way out of a test lets the rows go in one step of its proof.
impl Drop for Kept {
    fn drop(self) {
        let Kept { rows: _, places: _ } = self;
    }
}

impl Kept {
    fn new(alloc: Global) -> Kept {
        Kept {
            rows: Rows::new(alloc),
            places: Vec::new(alloc),
        }
    }

    // Puts an operation in, and stops a test where it isn't seen at its place.
    fn put(&mut self, rt: &impl Abort, op: Op) -> Result<(), Fault> {
        let (stamp, prev) = (op.stamp(), op.prev());
        self.rows.reserve(1)?;
        let place = self.rows.push(op);
        let seen = self.rows.view(place);
        same(rt, (seen.stamp, seen.prev), (stamp, prev));
        self.places.push((place, stamp))?;
        Ok(())
    }

    // Stops a test where there are other rows, or an operation has another place.
    fn has_rows(&self, rt: &impl Abort, count: usize) {
        same(rt, self.rows.count(), count);
        for (place, stamp) in &self.places {
            same(rt, self.rows.stamp_at(*place), *stamp);
        }
    }
}

// The Insert of one character behind an element.
fn typed_op(alloc: Global, stamp: Stamp, prev: u64, after: Stamp) -> Op {
    let edit = Edit::Insert {
        after,
        tags: Vec::new(alloc),
        text: Text::of('x'),
    };
    Op::of(stamp, prev, edit)
}

// The character of a stamp, whose site types in a row from the count 1 on.
fn next(alloc: Global, stamp: Stamp) -> Op {
    let prev = stamp.count.saturating_sub(1);
    let site = stamp.site;
    let after = if prev == 0 {
        ROOT
    } else {
        Stamp { count: prev, site }
    };
    typed_op(alloc, stamp, prev, after)
}

// Rows of one site that typed so many characters.
fn typed(rt: &impl Abort, alloc: Global, many: u64) -> Result<Kept, Fault> {
    let mut kept = Kept::new(alloc);
    for back in 0..many {
        let count = back.saturating_add(1);
        kept.put(rt, next(alloc, Stamp { count, site: 7 }))?;
    }
    Ok(kept)
}

// The characters of this count of so many sites.
fn put_of_each(
    rt: &impl Abort,
    alloc: Global,
    kept: &mut Kept,
    count: u64,
    sites: u32,
) -> Result<(), Fault> {
    for back in 0..sites {
        let site = back.saturating_add(1);
        kept.put(rt, next(alloc, Stamp { count, site }))?;
    }
    Ok(())
}

// So many sites type in turn, ten characters each.
fn in_turn(rt: &impl Abort, alloc: Global, sites: u32) -> Result<Kept, Fault> {
    let mut kept = Kept::new(alloc);
    for count in 1..11u64 {
        put_of_each(rt, alloc, &mut kept, count, sites)?;
    }
    Ok(kept)
}

#[test]
fn what_a_site_types_is_one_row(rt: HostRuntime) -> Result<(), Fail> {
    typed(&rt, rt.alloc(), 100)?.has_rows(&rt, 1);
    typed(&rt, rt.alloc(), 5_000)?.has_rows(&rt, 2);
    Ok(())
}

#[test]
fn sites_in_turn_have_a_row_each(rt: HostRuntime) -> Result<(), Fail> {
    in_turn(&rt, rt.alloc(), 2)?.has_rows(&rt, 2);
    in_turn(&rt, rt.alloc(), 4)?.has_rows(&rt, 4);
    in_turn(&rt, rt.alloc(), 8)?.has_rows(&rt, 8);
    Ok(())
}

const LAST: Stamp = Stamp { count: 2, site: 7 };

const THIRD: Stamp = Stamp { count: 3, site: 7 };

const FOURTH: Stamp = Stamp { count: 4, site: 7 };

const OTHER: Stamp = Stamp { count: 3, site: 8 };

/// A character's stamp, the count that it goes on from, and what stands before it; and how many rows there are with two
/// characters of site 7 before it.
type Typed = (Stamp, u64, Stamp, usize);

const TYPED: &[Typed] = &[
    (THIRD, 2, LAST, 1),
    // A jump.
    (THIRD, 2, Stamp { count: 1, site: 7 }, 2),
    (THIRD, 2, ROOT, 2),
    // A gap of counts.
    (FOURTH, 2, LAST, 2),
    // It goes on from another operation.
    (THIRD, 1, LAST, 2),
    // Another site.
    (OTHER, 2, LAST, 2),
    (OTHER, 0, LAST, 2),
];

#[test]
fn a_row_takes_what_goes_on_from_it(rt: HostRuntime) -> Result<(), Fail> {
    for (stamp, prev, after, count) in TYPED {
        let mut kept = typed(&rt, rt.alloc(), 2)?;
        kept.put(&rt, typed_op(rt.alloc(), *stamp, *prev, *after))?;
        kept.has_rows(&rt, *count);
    }
    Ok(())
}

// An Insert that goes on from two characters of site 7, with so many tags.
fn inserted(alloc: Global, text: &[char], is_tagged: bool) -> Result<Op, Fault> {
    let mut tags = Vec::new(alloc);
    if is_tagged {
        tags.push(String::from_str(alloc, "t")?)?;
    }
    Op::insert(THIRD, 2, LAST, tags, Vec::from_slice(alloc, text)?)
}

// A Delete of one character of site 7.
fn deleting(alloc: Global, stamp: Stamp, prev: u64, count: u64) -> Result<Op, Fault> {
    let span = Span {
        site: 7,
        first: count,
        last: count,
    };
    Op::delete(stamp, prev, Vec::from_slice(alloc, &[span])?)
}

// A Delete of the first of two characters of site 7.
fn deleted(alloc: Global) -> Result<Op, Fault> {
    deleting(alloc, THIRD, 2, 1)
}

#[test]
fn others_are_rows_by_themselves(rt: HostRuntime) -> Result<(), Fail> {
    let alloc = rt.alloc();
    for (text, is_tagged, count) in [
        (&['x'][..], false, 1),
        (&['x'][..], true, 2),
        (&['x', 'y'][..], false, 2),
    ] {
        let mut kept = typed(&rt, alloc, 2)?;
        kept.put(&rt, inserted(alloc, text, is_tagged)?)?;
        kept.has_rows(&rt, count);
    }
    Ok(())
}

#[test]
fn a_delete_between_begins_a_row(rt: HostRuntime) -> Result<(), Fail> {
    let mut kept = typed(&rt, rt.alloc(), 2)?;
    kept.put(&rt, deleted(rt.alloc())?)?;
    kept.put(&rt, typed_op(rt.alloc(), FOURTH, 3, LAST))?;
    kept.has_rows(&rt, 3);
    Ok(())
}

// Two characters of site 7 that it takes away again, the last one first.
#[test]
fn deletes_in_a_row_are_one_row(rt: HostRuntime) -> Result<(), Fail> {
    let mut kept = typed(&rt, rt.alloc(), 2)?;
    kept.put(&rt, deleting(rt.alloc(), THIRD, 2, 2)?)?;
    kept.put(&rt, deleting(rt.alloc(), FOURTH, 3, 1)?)?;
    kept.has_rows(&rt, 2);
    Ok(())
}

// A character of site 7 under a tag, which goes on from the one before it.
fn tagged(alloc: Global, count: u64, tag: &str) -> Result<Op, Fault> {
    let prev = count.saturating_sub(1);
    let after = if prev == 0 {
        ROOT
    } else {
        Stamp {
            count: prev,
            site: 7,
        }
    };
    let mut tags = Vec::new(alloc);
    tags.push(String::from_str(alloc, tag)?)?;
    let text = Vec::from_slice(alloc, &['x'])?;
    Op::insert(Stamp { count, site: 7 }, prev, after, tags, text)
}

#[test]
fn what_is_typed_under_the_same_tags_is_one_row(rt: HostRuntime) -> Result<(), Fail> {
    let mut kept = Kept::new(rt.alloc());
    kept.put(&rt, tagged(rt.alloc(), 1, "t")?)?;
    kept.put(&rt, tagged(rt.alloc(), 2, "t")?)?;
    kept.has_rows(&rt, 1);
    kept.put(&rt, tagged(rt.alloc(), 3, "u")?)?;
    kept.put(&rt, tagged(rt.alloc(), 4, "t")?)?;
    kept.has_rows(&rt, 3);
    Ok(())
}
