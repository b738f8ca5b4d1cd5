// The marks of a stretch of a text.
ghost use Rattle.std.specs.Prelude.{◌≡◌, ◌≤◌, ◌∷◌, [], List, IsOkUnless, IfOk, IfSome, None, OnOk, map};
ghost use Rattle.std.specs.Ordering.{is_lt};
ghost use Rattle.rt_marks.specs.Marks.{Mark, comes_before, in_order};
ghost use Rattle.rt_marks.specs.Seen.{spotted};
ghost use Rattle.rt_tagcmd.specs.MarkLists.{marks_from, marks_ahead};
ghost use Rattle.rt_text.specs.Widgets.{mark_seen, marks_of};

use crate::nearest::{first_after, last_of, shows_all};
use crate::seen::{order, own_spot, seen};
use rt_lines::Stretch;
use rt_marks::{Gravity, MarkRef, Marks};
use rt_stamps::Fault;
use rt_store::TextStore;
use rt_text::{OwnMark, ViewRef};
use std::alloc::Global;
use std::cmp::Ordering;

/// The first mark of a widget after a spot, where it stands before a place.
fn next_before<'a, S: TextStore>(
    view: &ViewRef<'a, S>,
    here: &MarkRef<'_>,
    behind: usize,
) -> Option<MarkRef<'a>>
    ensures some { IfSome result (λ spot. marks_ahead behind (spotted here.now) (marks_of view.now)
        ≡ spotted spot ∷ marks_ahead behind (spotted spot) (marks_of view.now)) }
    ensures none { result ≡ None → marks_ahead behind (spotted here.now) (marks_of view.now) ≡ [] }
{
    order(view);
    let spot = first_after(view, here)?;
    if spot.place < behind {
        Some(spot)
    } else {
        None
    }
}

/// The marks of a stretch, one after the other: a few binary searches for each where the widget shows all of the text.
fn one_by_one<'a, S: TextStore>(
    alloc: Global,
    view: &ViewRef<'a, S>,
    from: usize,
    behind: usize,
) -> Result<Vec<MarkRef<'a>>, Fault>
    ensures ok { IfOk result (λ spots. map spotted spots.items ≡ marks_from from behind (marks_of view.now)) }
    ensures err { IsOkUnless result Fault.NoMemory }
{
    order(view);
    let mut spots = Vec::new(alloc);
    let mut here = MarkRef {
        place: from,
        gravity: Gravity::Left,
        name: "",
    };
    while let Some(spot) = next_before(view, &here, behind) {
        spots.push(spot)?;
        here = spot;
    }
    Ok(spots)
}

/// Puts a mark behind others, where it stands at a place or behind it, and before another.
fn push_within<'a>(
    spots: &mut Vec<MarkRef<'a>>,
    spot: MarkRef<'a>,
    from: usize,
    behind: usize,
) -> Result<(), Fault>
    ensures ok { OnOk result ((marks : List Mark) → in_order (map spotted spots.old.items) ≡ marks_from from behind (in_order marks)
        → in_order (map spotted spots.new.items) ≡ marks_from from behind (in_order (spotted spot.entry ∷ marks))) }
    ensures err { IsOkUnless result Fault.NoMemory }
{
    if from <= spot.place && spot.place < behind {
        spots.push(spot)?;
    }
    Ok(())
}

/// Gathers the marks of a stretch, of marks at their places among the characters that are shown: each of them is looked
/// at once. They are in no order yet.
fn gathered<'a>(
    alloc: Global,
    marks: &'a Marks,
    stretch: Stretch,
    from: usize,
    behind: usize,
) -> Result<Vec<MarkRef<'a>>, Fault>
    requires { stretch.begin ≤ stretch.end }
    ensures ok { IfOk result (λ spots. in_order (map spotted spots.items)
        ≡ marks_from from behind (in_order (map (mark_seen stretch) marks.now))) }
    ensures err { IsOkUnless result Fault.NoMemory }
{
    let mut spots = Vec::new(alloc);
    let mut left = marks.len();
    while let Some(mark) = last_of(marks, left) {
        push_within(&mut spots, seen(stretch, mark), from, behind)?;
        left -= 1;
    }
    Ok(spots)
}

/// How two spots compare in the order of marks.
fn compare(a: &MarkRef<'_>, b: &MarkRef<'_>) -> Ordering
    ensures { is_lt result ≡ comes_before (spotted a.now) (spotted b.now) }
{
    a.cmp(b)
}

/// Puts marks in order.
fn sort(spots: &mut Vec<MarkRef<'_>>) -> Result<(), Fault>
    ensures ok { OnOk result (map spotted spots.new.items ≡ in_order (map spotted spots.old.items)) }
    ensures err { IsOkUnless result Fault.NoMemory }
{
    Ok(spots.sort_by(|a, b| compare(a, b))?)
}

/// The marks of a stretch, each looked at once and then put in order.
fn sorted<'a, S: TextStore>(
    alloc: Global,
    view: &ViewRef<'a, S>,
    from: usize,
    behind: usize,
) -> Result<Vec<MarkRef<'a>>, Fault>
    ensures ok { IfOk result (λ spots. map spotted spots.items ≡ marks_from from behind (marks_of view.now)) }
    ensures err { IsOkUnless result Fault.NoMemory }
{
    let marks = view.doc().marks();
    let mut spots = gathered(alloc, marks, view.stretch(), from, behind)?;
    push_within(&mut spots, own_spot(view, OwnMark::Current), from, behind)?;
    push_within(&mut spots, own_spot(view, OwnMark::Insert), from, behind)?;
    sort(&mut spots)?;
    Ok(spots)
}

/// The marks of a widget that stand at a place of what it shows, counted from 0, or behind it, and before another, in the order of place, gravity and
/// name: a few binary searches for each where the widget shows all of the text; else all marks are looked at, and those
/// of the stretch sorted, as those outside of what is shown stand in another order then. `NoMemory` is its only fault.
pub(crate) fn marks_between<'a, S: TextStore>(
    alloc: Global,
    view: &ViewRef<'a, S>,
    from: usize,
    behind: usize,
) -> Result<Vec<MarkRef<'a>>, Fault>
    ensures ok { IfOk result (λ spots. map spotted spots.items ≡ marks_from from behind (marks_of view.now)) }
    ensures err { IsOkUnless result Fault.NoMemory }
{
    if shows_all(view) {
        one_by_one(alloc, view, from, behind)
    } else {
        sorted(alloc, view, from, behind)
    }
}
