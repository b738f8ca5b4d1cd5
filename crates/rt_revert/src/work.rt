// The places of characters that are named by their stamps.
ghost use Rattle.std.specs.Prelude.{◌≡◌, ℕ, ◌*◌, ◌≤◌, ◌<◌, ◌++◌, ◌||◌, List, All, IfOk, IsOkUnless, IfSome, OnErr, OnOk, Some, length};
ghost use Rattle.rt_stamps.specs.declared.limits.TheConstants.{MOST_CELLS};
ghost use Rattle.rt_ops.specs.Operations.{stamps_in, stamps_of_span};
ghost use Rattle.rt_store.specs.Cells.{AreDistinct, visible_of};
ghost use Rattle.rt_plans.specs.declared.range.Range.{Range};
ghost use Rattle.rt_plans.specs.Removals.{RangesFollow, is_covered};
ghost use Rattle.rt_revert.specs.Planning.{is_behind, range_at, ranges_of_visible, visible_place};
ghost use Rattle.rt_revert.specs.Reverting.{are_at};

use rt_plans::Range;
use rt_plans::removal::ranges_within;
use rt_stamps::{Fault, Span, Stamp};
use rt_store::TextStore;
use std::alloc::Global;

// The place of a stamp's character, if it is visible.
fn visible_place<S: TextStore>(store: &S, stamp: Stamp) -> Option<usize>
    ensures place { result ≡ visible_place (S.list store.now) stamp }
    ensures within { IfSome result (λ place. place < length (S.list store.now)) }
{
    match store.cell_of(stamp) {
        Some(cell) if !cell.gone => store.place_of(stamp),
        _ => None,
    }
}

// Whether a place is the one behind a range.
fn is_behind(range: Range, place: usize) -> bool
    ensures { result ≡ is_behind range place }
{
    range.from <= range.to && range.to == place
}

/// Adds a place to ranges, to the last one where it is the one behind it, and that takes no memory. Want of memory,
/// and then the ranges are as they were.
pub(crate) fn push_place(ranges: &mut Vec<Range>, place: usize) -> Result<(), Fault>
    requires { place ≤ 2 * MOST_CELLS }
    ensures ok { OnOk result ((at : ℕ) → is_covered ranges.new.items at ≡ (is_covered ranges.old.items at || is_covered (range_at (Some place)) at)) }
    ensures order { OnOk result ((more : List Range) → RangesFollow 0 (ranges.old.items ++ range_at (Some place) ++ more)
        → RangesFollow 0 (ranges.new.items ++ more)) }
    ensures same { OnErr result (ranges.new.items ≡ ranges.old.items) }
    ensures err { IsOkUnless result Fault.NoMemory }
{
    let to = place + 1;
    if let Some(last) = ranges.pop() {
        if is_behind(last, place) {
            let from = last.from;
            ranges.push_reserved(Range { from, to });
            return Ok(());
        }
        ranges.push_reserved(last);
    }
    ranges.push(Range { from: place, to })?;
    Ok(())
}

// Adds the place of a stamp's character, if it is visible. Want of memory, and then the ranges are as they were.
fn push_visible<S: TextStore>(store: &S, stamp: Stamp, ranges: &mut Vec<Range>) -> Result<(), Fault>
    requires few { length (S.list store.now) ≤ MOST_CELLS }
    ensures ok { OnOk result ((at : ℕ) → is_covered ranges.new.items at
        ≡ (is_covered ranges.old.items at || is_covered (range_at (visible_place (S.list store.now) stamp)) at)) }
    ensures same { OnErr result (ranges.new.items ≡ ranges.old.items) }
    ensures err { IsOkUnless result Fault.NoMemory }
{
    match visible_place(store, stamp) {
        Some(place) => push_place(ranges, place),
        None => Ok(()),
    }
}

// Adds the places of those of a span's characters that are visible.
fn push_places<S: TextStore>(store: &S, span: Span, ranges: &mut Vec<Range>) -> Result<(), Fault>
    requires few { length (S.list store.now) ≤ MOST_CELLS }
    ensures ok { OnOk result ((at : ℕ) → is_covered ranges.new.items at
        ≡ (is_covered ranges.old.items at || is_covered (ranges_of_visible (S.list store.now) (stamps_of_span span)) at)) }
    ensures err { IsOkUnless result Fault.NoMemory }
{
    for count in span.first..=span.last {
        let stamp = Stamp {
            count,
            site: span.site,
        };
        push_visible(store, stamp, ranges)?;
    }
    Ok(())
}

// The places of those of some characters that are visible, in the order of their stamps.
fn places_of<S: TextStore>(alloc: Global, store: &S, spans: &[Span]) -> Result<Vec<Range>, Fault>
    requires few { length (S.list store.now) ≤ MOST_CELLS }
    ensures ok { IfOk result (λ ranges. (at : ℕ)
        → is_covered ranges.items at ≡ is_covered (ranges_of_visible (S.list store.now) (stamps_in spans.now)) at) }
    ensures err { IsOkUnless result Fault.NoMemory }
{
    let mut ranges = Vec::new(alloc);
    for span in spans {
        push_places(store, *span, &mut ranges)?;
    }
    Ok(ranges)
}

/// The places of those of some characters that are visible, as ranges in the text's order. Want of
/// memory.
pub(crate) fn visible_ranges<S: TextStore>(
    alloc: Global,
    store: &S,
    spans: &[Span],
) -> Result<Vec<Range>, Fault>
    requires distinct { AreDistinct (S.list store.now) }
    requires few { length (S.list store.now) ≤ MOST_CELLS }
    ensures order { IfOk result (λ ranges. RangesFollow 0 ranges.items) }
    ensures within { IfOk result (λ ranges. All (λ range. range.to ≤ length (visible_of (S.list store.now))) ranges.items) }
    ensures places { IfOk result (λ ranges. (place : ℕ) → is_covered ranges.items place ≡ are_at (stamps_in spans.now) (S.list store.now) place) }
    ensures err { IsOkUnless result Fault.NoMemory }
{
    let ranges = places_of(alloc, store, spans)?;
    ranges_within(alloc, store, &ranges)
}
