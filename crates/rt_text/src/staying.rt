// Where characters stand before and after ranges are removed.
ghost use Rattle.std.specs.Prelude.{◌≡◌, ◌+◌, ◌≤◌, ◌<◌, All, IfSome, None, Some, false, if◌then◌else◌, length, slice_get};
ghost use Rattle.rt_marks.specs.Marks.{place_left};
ghost use Rattle.rt_stamps.specs.declared.limits.TheConstants.{MOST_CELLS};
ghost use Rattle.rt_store.specs.Cells.{visible_of};
ghost use Rattle.rt_store.specs.Tagged.{AreStates};
ghost use Rattle.rt_tags.specs.States.{IsState, TagStates};
ghost use Rattle.rt_plans.specs.Insertions.{left_neighbour, right_neighbour};
ghost use Rattle.rt_plans.specs.Removals.{RangesFollow, gone_at, is_covered};

use rt_marks::place::place_removed;
use rt_plans::Range;
use rt_store::{Cell, TextStore};
use rt_tags::StateId;

/// Where a place is after ranges are removed. The last range goes first, so that the places of the others
/// still count.
pub(crate) fn place_after(removed: &[Range], place: usize) -> usize
    requires { RangesFollow 0 removed.now }
    ensures { result ≡ place_left (is_covered removed.now) place }
{
    let mut after = place;
    let mut i = removed.len();
    while i > 0 {
        i -= 1;
        let range = removed[i];
        after = place_removed(range.from, range.to - range.from, after);
    }
    after
}

// The place of a character that stays when ranges are removed, and then comes to stand at a place.
fn place_before(removed: &[Range], place: usize) -> usize
    requires order { RangesFollow 0 removed.now }
    requires fits { All (λ range. place + range.to ≤ usize.MAX) removed.now }
    ensures stays { is_covered removed.now result ≡ false }
    ensures place { place_left (is_covered removed.now) result ≡ place }
{
    let mut before = place;
    for range in removed {
        if range.from <= before {
            before += range.to - range.from;
        }
    }
    before
}

// The character that comes to stand at a place when ranges are removed.
fn cell_after<S: TextStore>(store: &S, removed: &[Range], place: usize) -> Cell<StateId>
    requires order { RangesFollow 0 removed.now }
    requires place { place < place_left (is_covered removed.now) (length (visible_of (S.list store.now))) }
    requires within { All (λ range. range.to ≤ length (visible_of (S.list store.now))) removed.now }
    requires few { length (visible_of (S.list store.now)) ≤ MOST_CELLS }
    ensures is { slice_get (visible_of (gone_at (is_covered removed.now) 0 (S.list store.now))) place ≡ Some result }
    ensures given { (table : TagStates) → AreStates table (S.list store.now) → IsState table result.state }
{
    store.cell_at(place_before(removed, place))
}

/// The character that comes to stand before a place when ranges are removed, if there is one.
pub(crate) fn left_after<S: TextStore>(
    store: &S,
    removed: &[Range],
    place: usize,
) -> Option<Cell<StateId>>
    requires order { RangesFollow 0 removed.now }
    requires place { place < place_left (is_covered removed.now) (length (visible_of (S.list store.now))) }
    requires within { All (λ range. range.to ≤ length (visible_of (S.list store.now))) removed.now }
    requires few { length (visible_of (S.list store.now)) ≤ MOST_CELLS }
    ensures is { result ≡ left_neighbour (visible_of (gone_at (is_covered removed.now) 0 (S.list store.now))) place }
    ensures given { (table : TagStates) → AreStates table (S.list store.now) → IfSome result (λ cell. IsState table cell.state) }
{
    if place == 0 {
        None
    } else {
        Some(cell_after(store, removed, place - 1))
    }
}

/// The character that comes to stand at a place when ranges are removed; none where these hold the last
/// newline.
pub(crate) fn right_after<S: TextStore>(
    store: &S,
    removed: &[Range],
    held: bool,
    place: usize,
) -> Option<Cell<StateId>>
    requires order { RangesFollow 0 removed.now }
    requires place { place < place_left (is_covered removed.now) (length (visible_of (S.list store.now))) }
    requires within { All (λ range. range.to ≤ length (visible_of (S.list store.now))) removed.now }
    requires few { length (visible_of (S.list store.now)) ≤ MOST_CELLS }
    ensures is { result ≡ (if held then None else right_neighbour (visible_of (gone_at (is_covered removed.now) 0 (S.list store.now))) place) }
    ensures given { (table : TagStates) → AreStates table (S.list store.now) → IfSome result (λ cell. IsState table cell.state) }
{
    if held {
        None
    } else {
        Some(cell_after(store, removed, place))
    }
}
