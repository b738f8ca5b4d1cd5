// Marks of a few names: what rt_marks alone tells. Their order and their places are told by scripts (rt_tests_script).
use crate::checks::same;
use rt_marks::place::{place_inserted, place_removed};
use rt_marks::{Gravity, MarkRef, Marks};
use rt_stamps::Fault;
use std::alloc::Global;
use std::process::Abort;
use std::test::Fail;

/// Marks.
struct Names {
    marks: Marks,
}

// Written out, so that each way out of a test lets the marks go in one step of its proof.
impl Drop for Names {
    fn drop(self) {
        let Names { marks: _ } = self;
    }
}

// Three marks at a place, one of which has left gravity.
fn three(alloc: Global) -> Result<Names, Fault> {
    let mut marks = Marks::new(alloc);
    for name in ["c", "b", "z"] {
        marks.set(name, 3)?;
    }
    marks.set_gravity("z", Gravity::Left)?;
    Ok(Names { marks })
}

/// A spot, and the names of the mark after it and of the mark before it.
type Row = (
    usize,
    Gravity,
    &'static str,
    Option<&'static str>,
    Option<&'static str>,
);

// What stands about a spot where no mark stands, among marks of its place.
const ABOUT: &[Row] = &[
    (3, Gravity::Right, "bb", Some("c"), Some("b")),
    (3, Gravity::Right, "a", Some("b"), Some("z")),
    (3, Gravity::Right, "b", Some("c"), Some("z")),
    (3, Gravity::Left, "", Some("z"), None),
    (4, Gravity::Left, "", None, Some("c")),
];

fn name_of(mark: Option<MarkRef<'_>>) -> Option<&str> {
    match mark {
        Some(spot) => Some(spot.name),
        None => None,
    }
}

// Stops a test where other marks stand about a spot.
fn stand_about(rt: &impl Abort, marks: &Marks, row: &Row) {
    let (place, gravity, name, after, before) = *row;
    let here = MarkRef {
        place,
        gravity,
        name,
    };
    same(rt, (name, name_of(marks.first_after(&here))), (name, after));
    same(rt, (name, name_of(marks.last_until(&here))), (name, before));
}

#[test]
fn about_a_spot(rt: HostRuntime) -> Result<(), Fail> {
    let names = three(rt.alloc())?;
    for row in ABOUT {
        stand_about(&rt, &names.marks, row);
    }
    no_marks(&rt, &names.marks);
    Ok(())
}

// No mark of a name, none before the first one, and none after the last one.
fn no_marks(rt: &impl Abort, marks: &Marks) {
    same(rt, marks.find("q").is_none(), true);
    same(rt, marks.next("q").is_none(), true);
    same(rt, marks.previous("z").is_none(), true);
    same(rt, marks.next("c").is_none(), true);
}

// A place that isn't a mark's moves by the same rule.
#[test]
fn one_place(rt: HostRuntime) {
    same(&rt, place_inserted(1, 2, 1, Gravity::Left), 1);
    same(&rt, place_inserted(1, 2, 1, Gravity::Right), 3);
    same(&rt, place_inserted(1, 2, 0, Gravity::Right), 0);
    same(&rt, place_removed(2, 3, 9), 6);
    same(&rt, place_removed(2, 3, 4), 2);
    same(&rt, place_removed(2, 3, 1), 1);
}
