// Places in a text of characters in a working copy, which has only some of its cells.
ghost use Rattle.std.specs.Prelude.{◌≡◌, ℕ, ◌+◌, ◌-◌, ◌*◌, ◌≤◌, true, All, IsOkUnless, IfOk, length};
ghost use Rattle.rt_stamps.specs.declared.limits.TheConstants.{GREATEST_COUNT, MOST_CELLS};
ghost use Rattle.rt_stamps.specs.declared.stamp.Stamp.{Stamp};
ghost use Rattle.rt_store.specs.Cells.{stamps_of, visible_of};
ghost use Rattle.rt_store.specs.Spans.{is_among};
ghost use Rattle.rt_plans.specs.Removals.{RangesFollow, is_covered, stamps_at};
ghost use Rattle.rt_revert.specs.Plans.{AreUpTo};
ghost use Rattle.rt_revert.specs.Portions.{AreSmall, offset_behind, offset_of, visible_before_stamp, whole_ranges};

use crate::work::push_place;
use rt_plans::Range;
use rt_plans::cells::cells_in;
use rt_spans::SpanMap;
use rt_stamps::{Fault, ROOT, Span, Stamp};
use rt_store::TextStore;
use std::alloc::Global;

// How many more visible characters stand before a stamp's cell in a text than in a copy.
fn offset_in<S: TextStore, C: TextStore>(store: &S, copy: &C, stamp: Stamp) -> usize
    ensures { result ≡ visible_before_stamp (S.list store.now) stamp - visible_before_stamp (C.list copy.now) stamp }
{
    let whole = store.place_of(stamp).unwrap_or(0);
    whole.saturating_sub(copy.place_of(stamp).unwrap_or(0))
}

/// The offsets of the cells of a copy. Want of memory.
pub(crate) fn offsets_of<S: TextStore, C: TextStore>(
    alloc: Global,
    store: &S,
    copy: &C,
) -> Result<SpanMap<usize>, Fault>
    requires whole { length (S.list store.now) ≤ MOST_CELLS }
    requires few { length (C.list copy.now) ≤ MOST_CELLS }
    requires older { AreUpTo GREATEST_COUNT (C.list copy.now) }
    ensures offsets { IfOk result (λ offsets. (s : Stamp) → is_among (stamps_of (C.list copy.now)) s ≡ true
        → offset_of offsets s ≡ visible_before_stamp (S.list store.now) s - visible_before_stamp (C.list copy.now) s) }
    ensures small { IfOk result AreSmall }
    ensures err { IsOkUnless result Fault.NoMemory }
{
    let mut offsets = SpanMap::new(alloc);
    offsets.reserve(copy.cells())?;
    for position in 0..copy.cells() {
        let stamp = copy.nth(position).stamp;
        offsets.set(Span::of(stamp), offset_in(store, copy, stamp));
    }
    Ok(offsets)
}

/// The offset of what stands directly behind an element.
pub(crate) fn offset_behind(offsets: &SpanMap<usize>, left: Stamp) -> usize
    ensures { result ≡ offset_behind offsets.now left }
{
    if left == ROOT {
        return 0;
    }
    offsets.get(left).unwrap_or(0)
}

// The place in the text of a stamp's character.
fn whole_place<S: TextStore>(copy: &S, offsets: &SpanMap<usize>, stamp: Stamp) -> usize
    requires few { length (S.list copy.now) ≤ MOST_CELLS }
    requires small { AreSmall offsets.now }
    ensures place { result ≡ visible_before_stamp (S.list copy.now) stamp + offset_of offsets.now stamp }
    ensures small { result ≤ 2 * MOST_CELLS }
{
    let place = copy.place_of(stamp).unwrap_or(0);
    let offset = offsets.get(stamp).unwrap_or(0);
    place + offset
}

/// The places in the text of characters at some places of a copy, as ranges. Want of memory.
pub(crate) fn whole_places<S: TextStore>(
    alloc: Global,
    copy: &S,
    offsets: &SpanMap<usize>,
    places: &[Range],
) -> Result<Vec<Range>, Fault>
    requires few { length (S.list copy.now) ≤ MOST_CELLS }
    requires small { AreSmall offsets.now }
    requires order { RangesFollow 0 places.now }
    requires within { All (λ range. range.to ≤ length (visible_of (S.list copy.now))) places.now }
    ensures covered { IfOk result (λ ranges. (at : ℕ) → is_covered ranges.items at
        ≡ is_covered (whole_ranges offsets.now (S.list copy.now) (stamps_at (is_covered places.now) 0 (S.list copy.now))) at) }
    ensures order { IfOk result (λ ranges. RangesFollow 0 (whole_ranges offsets.now (S.list copy.now) (stamps_at (is_covered places.now) 0 (S.list copy.now)))
        → RangesFollow 0 ranges.items) }
    ensures err { IsOkUnless result Fault.NoMemory }
{
    let cells = cells_in(alloc, copy, places)?;
    let mut ranges = Vec::new(alloc);
    for cell in &cells {
        push_place(&mut ranges, whole_place(copy, offsets, cell.stamp))?;
    }
    Ok(ranges)
}
