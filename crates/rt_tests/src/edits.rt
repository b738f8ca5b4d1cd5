// Selected characters, a removal of nothing, and a range that passes the end of what is shown. What removals take is told by
// scripts (rt_tests_script).
use crate::checks::same;
use crate::store::Text;
use rt_lines::Stretch;
use rt_plans::removal::{ranges_shown, removed_ranges};
use rt_plans::{Range, Selection};
use rt_stamps::{Fault, Stamp};
use rt_store::TextStore;
use std::alloc::Global;
use std::process::Abort;
use std::test::Fail;

fn stamp(count: u64) -> Stamp {
    Stamp { count, site: 1 }
}

// Stops a test where other stamps of the counts from 1 to 5 are selected.
fn selects(rt: &impl Abort, selection: &Selection, wanted: &[u64]) {
    for count in 1..6 {
        let is_wanted = wanted.contains(&count);
        same(rt, (count, selection.has(stamp(count))), (count, is_wanted));
    }
}

// A stamp is selected once, however often it is added, and one removal takes it out.
#[test]
fn stamps_of_a_selection(rt: HostRuntime) -> Result<(), Fail> {
    let mut some = Selection::of(rt.alloc(), &[stamp(1), stamp(2), stamp(1)])?;
    let other = Selection::of(rt.alloc(), &[stamp(1), stamp(3), stamp(4)])?;
    selects(&rt, &some, &[1, 2]);
    same(&rt, some.has(Stamp { count: 1, site: 2 }), false);
    some.reserve(3)?;
    some.add(&[stamp(4), stamp(2), stamp(5)]);
    selects(&rt, &some, &[1, 2, 4, 5]);
    some.remove(&other);
    selects(&rt, &some, &[2, 5]);
    some.remove_one(stamp(2));
    selects(&rt, &some, &[5]);
    selects(&rt, &other, &[1, 3, 4]);
    Ok(())
}

// A range that passes the end of the lines that are shown ends there.
fn ends_with_the_lines(rt: &impl Abort, alloc: Global) -> Result<(), Fault> {
    let stretch = Stretch { begin: 2, end: 6 };
    let shown = ranges_shown(alloc, stretch, &[Range { from: 3, to: 9 }])?;
    same(rt, shown.as_slice(), [Range { from: 5, to: 6 }].as_slice());
    Ok(())
}

// A removal of no ranges takes nothing.
#[test]
#[tactic(auto, using(rt_plans::proofs::PlaceLaws::length_text))]
fn no_ranges(rt: HostRuntime) -> Result<(), Fail> {
    let text = Text::of(rt.alloc(), &[(2, 'b', false), (1, 'a', false)])?;
    let end = text.store.visible();
    if end == 0 {
        return Err(Fail::from("no last newline"));
    }
    let all = Stretch { begin: 0, end };
    let removed = removed_ranges(rt.alloc(), &text.store, all, &[])?;
    same(&rt, removed.len(), 0);
    ends_with_the_lines(&rt, rt.alloc())?;
    Ok(())
}
