// The places that a removal takes, as ranges in the text's order.
ghost use Rattle.std.specs.Prelude.{◌≡◌, ℕ, ◌<◌, ◌≤◌, ◌&&◌, nat_lt, true, ◌∷◌, ◌+◌, ◌-◌, All, IfOk, IsOkUnless, length, map};
ghost use Rattle.rt_store.specs.Cells.{text_of, visible_of};
ghost use Rattle.rt_lines.specs.Stretches.{part};
ghost use Rattle.rt_plans.specs.Deletions.{places_from};
ghost use Rattle.rt_plans.specs.Merging.{RangesRise, AreSpaced, begins_line, range_from, spared};
ghost use Rattle.rt_plans.specs.Removals.{is_covered, is_removed, RangesFollow};

use crate::Range;
use rt_lines::Stretch;
use rt_stamps::Fault;
use rt_store::TextStore;
use std::alloc::Global;

// The ranges up to an end, without those that are empty then.
fn ranges_before(alloc: Global, ranges: &[Range], end: usize) -> Result<Vec<Range>, Fault>
    ensures covered { IfOk result (λ before. (place : ℕ) → is_covered before.items place ≡ (nat_lt place end && is_covered ranges.now place)) }
    ensures some { IfOk result (λ before. All (λ range. range.from < range.to) before.items) }
    ensures err { IsOkUnless result Fault.NoMemory }
{
    let mut before = Vec::new(alloc);
    for range in ranges {
        let to = range.to.min(end);
        if range.from < to {
            before.push(Range {
                from: range.from,
                to,
            })?;
        }
    }
    Ok(before)
}

// The ranges up to an end in the order of their beginnings.
fn sorted_before(alloc: Global, ranges: &[Range], end: usize) -> Result<Vec<Range>, Fault>
    ensures covered { IfOk result (λ sorted. (place : ℕ) → is_covered sorted.items place ≡ (nat_lt place end && is_covered ranges.now place)) }
    ensures rising { IfOk result (λ sorted. RangesRise 0 sorted.items) }
    ensures err { IsOkUnless result Fault.NoMemory }
{
    let mut sorted = ranges_before(alloc, ranges, end)?;
    sorted.sort_unstable_by_key(|range| range.from);
    Ok(sorted)
}

// The ranges that overlap or touch as one, after a first.
fn merged_after(alloc: Global, first: Range, rest: &[Range]) -> Result<Vec<Range>, Fault>
    requires some { first.from < first.to }
    requires rising { RangesRise first.from rest.now }
    ensures covered { IfOk result (λ merged. (place : ℕ) → is_covered merged.items place ≡ is_covered (first ∷ rest.now) place) }
    ensures apart { IfOk result (λ merged. AreSpaced 0 merged.items) }
    ensures err { IsOkUnless result Fault.NoMemory }
{
    let mut merged = Vec::new(alloc);
    let mut current = first;
    for range in rest {
        if range.from <= current.to {
            current.to = current.to.max(range.to);
        } else {
            merged.push(current)?;
            current = *range;
        }
    }
    merged.push(current)?;
    Ok(merged)
}

// Sorted ranges, those that overlap or touch as one.
fn merged(alloc: Global, sorted: &[Range]) -> Result<Vec<Range>, Fault>
    requires { RangesRise 0 sorted.now }
    ensures covered { IfOk result (λ merged. (place : ℕ) → is_covered merged.items place ≡ is_covered sorted.now place) }
    ensures apart { IfOk result (λ merged. AreSpaced 0 merged.items) }
    ensures err { IsOkUnless result Fault.NoMemory }
{
    match sorted.split_first() {
        Some((first, rest)) => merged_after(alloc, *first, rest),
        None => Ok(Vec::new(alloc)),
    }
}

// A line of a stretch other than its first begins at a place.
fn begins_line<S: TextStore>(store: &S, stretch: Stretch, place: usize) -> bool
    requires stretch { stretch.end ≤ length (text_of (S.list store.now)) }
    requires place { place ≤ length (part stretch (text_of (S.list store.now))) }
    ensures { result ≡ begins_line (part stretch (text_of (S.list store.now))) place }
{
    place > 0 && store.char_at(stretch.begin + place - 1) == '\n'
}

// The last range of a stretch without the last newline, but with the newline before it where it takes whole lines.
fn spared<S: TextStore>(store: &S, stretch: Stretch, last: Range) -> Range
    requires stretch { stretch.end ≤ length (text_of (S.list store.now)) }
    requires last { (last.from < last.to) × (last.to ≤ length (part stretch (text_of (S.list store.now)))) }
    ensures { result ≡ spared (part stretch (text_of (S.list store.now))) last }
{
    if last.to < stretch.end - stretch.begin {
        return last;
    }
    let from = if begins_line(store, stretch, last.from) {
        last.from - 1
    } else {
        last.from
    };
    Range {
        from,
        to: last.to - 1,
    }
}

// Merged ranges of a stretch, the last newline spared.
fn sparing<S: TextStore>(store: &S, stretch: Stretch, mut merged: Vec<Range>) -> Vec<Range>
    requires stretch { stretch.end ≤ length (text_of (S.list store.now)) }
    requires apart { AreSpaced 0 merged.items }
    requires within { (place : ℕ) → is_covered merged.items place ≡ true → place < length (part stretch (text_of (S.list store.now))) }
    ensures order { RangesFollow 0 result.items }
    ensures within { All (λ range. range.to < length (part stretch (text_of (S.list store.now)))) result.items }
    ensures places { (place : ℕ) → is_covered result.items place ≡ is_removed (part stretch (text_of (S.list store.now))) merged.items place }
{
    let Some(last) = merged.pop() else {
        return merged;
    };
    let last = spared(store, stretch, last);
    if last.from < last.to {
        merged.push_reserved(last);
    }
    merged
}

// Ranges of a stretch as those of the whole text, in which it begins at a place.
fn moved_on(begin: usize, mut ranges: Vec<Range>) -> Vec<Range>
    requires { All (λ range. (begin + range.from ≤ usize.MAX) × (begin + range.to ≤ usize.MAX)) ranges.items }
    ensures { result.items ≡ map (range_from begin) ranges.items }
{
    for i in 0..ranges.len() {
        ranges[i] = ranges[i].moved_on(begin);
    }
    ranges
}

/// The places that a removal of ranges takes of a stretch of the text, as ranges of the whole text, in
/// its order: the ranges are of the stretch, and may come in any order, overlap, be empty, and pass its
/// end. Want of memory.
pub fn removed_ranges<S: TextStore>(
    alloc: Global,
    store: &S,
    stretch: Stretch,
    ranges: &[Range],
) -> Result<Vec<Range>, Fault>
    requires { (stretch.begin < stretch.end) × (stretch.end ≤ length (text_of (S.list store.now))) }
    ensures ok { IfOk result (λ removed. RangesFollow 0 removed.items) }
    ensures within { IfOk result (λ removed. All (λ range. range.to < stretch.end) removed.items) }
    ensures places { IfOk result (λ removed. (place : ℕ) → is_covered removed.items place
        ≡ places_from stretch.begin (is_removed (part stretch (text_of (S.list store.now))) ranges.now) place) }
    ensures err { IsOkUnless result Fault.NoMemory }
{
    let sorted = sorted_before(alloc, ranges, stretch.end - stretch.begin)?;
    let merged = merged(alloc, &sorted)?;
    Ok(moved_on(stretch.begin, sparing(store, stretch, merged)))
}

/// The places of a stretch of a text in ranges, as ranges of the whole text, in its order: the ranges
/// are of the stretch, and may come in any order, overlap, be empty, and pass its end. Want of memory.
pub fn ranges_shown(alloc: Global, stretch: Stretch, ranges: &[Range]) -> Result<Vec<Range>, Fault>
    requires { stretch.begin ≤ stretch.end }
    ensures order { IfOk result (λ shown. RangesFollow 0 shown.items) }
    ensures within { IfOk result (λ shown. All (λ range. range.to ≤ stretch.end) shown.items) }
    ensures places { IfOk result (λ shown. (place : ℕ) → is_covered shown.items place
        ≡ places_from stretch.begin (λ p. nat_lt p (stretch.end - stretch.begin) && is_covered ranges.now p) place) }
    ensures err { IsOkUnless result Fault.NoMemory }
{
    let sorted = sorted_before(alloc, ranges, stretch.end - stretch.begin)?;
    let merged = merged(alloc, &sorted)?;
    Ok(moved_on(stretch.begin, merged))
}

/// The places of a text in ranges, as ranges in the text's order: the ranges may come in any order,
/// overlap, be empty, and pass the text's end. Want of memory.
pub fn ranges_within<S: TextStore>(
    alloc: Global,
    store: &S,
    ranges: &[Range],
) -> Result<Vec<Range>, Fault>
    ensures order { IfOk result (λ within. RangesFollow 0 within.items) }
    ensures within { IfOk result (λ within. All (λ range. range.to ≤ length (visible_of (S.list store.now))) within.items) }
    ensures places { IfOk result (λ within. (place : ℕ)
        → is_covered within.items place ≡ (nat_lt place (length (visible_of (S.list store.now))) && is_covered ranges.now place)) }
    ensures err { IsOkUnless result Fault.NoMemory }
{
    let sorted = sorted_before(alloc, ranges, store.visible())?;
    merged(alloc, &sorted)
}
