// The places at which a tag changes.
ghost use Rattle.std.specs.Prelude.{◌≡◌, ℕ, ◌<◌, ◌≤◌, ◌++◌, ◌&&◌, ◌||◌, All, IfNone, IfOk, IfSome, IsOkUnless, OnOk, false, length, map};
ghost use Rattle.rt_stamps.specs.declared.limits.TheConstants.{MOST_SPANS};
ghost use Rattle.rt_ops.specs.Edits.{body_of};
ghost use Rattle.rt_store.specs.Cells.{AreDistinct, visible_of};
ghost use Rattle.rt_store.specs.Shown.{shown};
ghost use Rattle.rt_store.specs.Tagged.{next_place, tag_is};
ghost use Rattle.rt_tags.specs.States.{IsTag};
ghost use Rattle.rt_plans.specs.Removals.{RangesFollow, is_covered, is_in};
ghost use Rattle.rt_plans.specs.TagDrafts.{tag_drafts_at};
ghost use Rattle.rt_plans.specs.TagWrites.{is_changed, passes_at};

use crate::Range;
use crate::parts::push_tags;
use crate::runs::spans_in;
use rt_rga::Draft;
use rt_stamps::Fault;
use rt_store::TextStore;
use rt_tags::{StateTable, TagId};
use std::alloc::Global;

// The first place from one up whose character has a tag, or hasn't it.
fn next_with<S: TextStore>(
    store: &S,
    states: &StateTable,
    tag: TagId,
    on: bool,
    place: usize,
) -> Option<usize>
    requires tag { IsTag states.now tag }
    requires states { S.agrees store.now states.now }
    ensures { result ≡ next_place (tag_is states.now tag on) (visible_of (S.list store.now)) place }
{
    if on {
        store.next_tagged(states, tag, place)
    } else {
        store.next_untagged(states, tag, place)
    }
}

// The first places of a range that follow one another and whose characters have a tag, or haven't it.
fn first_with<S: TextStore>(
    store: &S,
    states: &StateTable,
    tag: TagId,
    on: bool,
    range: Range,
) -> Option<Range>
    requires tag { IsTag states.now tag }
    requires states { S.agrees store.now states.now }
    requires within { range.to ≤ length (visible_of (S.list store.now)) }
    ensures within { IfSome result (λ found. (range.from ≤ found.from) × (found.from < found.to) × (found.to ≤ range.to)) }
    ensures places { IfSome result (λ found. (place : ℕ) → place < found.to
        → is_in found place ≡ (is_in range place && passes_at (tag_is states.now tag on) (visible_of (S.list store.now)) place)) }
    ensures none { IfNone result ((place : ℕ)
        → (is_in range place && passes_at (tag_is states.now tag on) (visible_of (S.list store.now)) place) ≡ false) }
{
    let from = next_with(store, states, tag, on, range.from)?;
    if from >= range.to {
        return None;
    }
    let to = match next_with(store, states, tag, !on, from) {
        Some(to) => to.min(range.to),
        None => range.to,
    };
    Some(Range { from, to })
}

// Adds the places of a range whose characters have a tag, or haven't it.
fn push_with<S: TextStore>(
    store: &S,
    states: &StateTable,
    tag: TagId,
    on: bool,
    range: Range,
    found: &mut Vec<Range>,
) -> Result<(), Fault>
    requires tag { IsTag states.now tag }
    requires states { S.agrees store.now states.now }
    requires range { range.from ≤ range.to }
    requires within { range.to ≤ length (visible_of (S.list store.now)) }
    requires order { RangesFollow 0 found.old.items }
    requires ends { All (λ found. found.to ≤ range.from) found.old.items }
    ensures order { OnOk result (RangesFollow 0 found.new.items) }
    ensures ends { OnOk result (All (λ found. found.to ≤ range.to) found.new.items) }
    ensures places { OnOk result ((place : ℕ) → is_covered found.new.items place ≡ (is_covered found.old.items place
        || (is_in range place && passes_at (tag_is states.now tag on) (visible_of (S.list store.now)) place))) }
    ensures err { IsOkUnless result Fault.NoMemory }
{
    let mut rest = range;
    while let Some(next) = first_with(store, states, tag, on, rest) {
        found.push(next)?;
        rest.from = next.to;
    }
    Ok(())
}

// The places in ranges whose characters have a tag, or haven't it.
fn ranges_with<S: TextStore>(
    alloc: Global,
    store: &S,
    states: &StateTable,
    ranges: &[Range],
    tag: TagId,
    on: bool,
) -> Result<Vec<Range>, Fault>
    requires tag { IsTag states.now tag }
    requires states { S.agrees store.now states.now }
    requires order { RangesFollow 0 ranges.now }
    requires within { All (λ range. range.to ≤ length (visible_of (S.list store.now))) ranges.now }
    ensures order { IfOk result (λ found. RangesFollow 0 found.items) }
    ensures places { IfOk result (λ found. (place : ℕ) → is_covered found.items place
        ≡ (is_covered ranges.now place && passes_at (tag_is states.now tag on) (visible_of (S.list store.now)) place)) }
    ensures err { IsOkUnless result Fault.NoMemory }
{
    let mut found = Vec::new(alloc);
    for range in ranges {
        push_with(store, states, tag, on, *range, &mut found)?;
    }
    Ok(found)
}

// The places in ranges whose characters a tag is to be put on, or taken off.
fn changed_ranges<S: TextStore>(
    alloc: Global,
    store: &S,
    states: &StateTable,
    ranges: &[Range],
    name: &str,
    on: bool,
) -> Result<Vec<Range>, Fault>
    requires states { S.agrees store.now states.now }
    requires order { RangesFollow 0 ranges.now }
    requires within { All (λ range. range.to ≤ length (visible_of (S.list store.now))) ranges.now }
    ensures order { IfOk result (λ changed. RangesFollow 0 changed.items) }
    ensures places { IfOk result (λ changed. (place : ℕ) → is_covered changed.items place
        ≡ (is_covered ranges.now place && passes_at (is_changed name.now on) (visible_of (map (shown states.now) (S.list store.now))) place)) }
    ensures err { IsOkUnless result Fault.NoMemory }
{
    match states.known(name) {
        Some(tag) => ranges_with(alloc, store, states, ranges, tag, !on),
        None if on => Ok(Vec::from_slice(alloc, ranges)?),
        None => Ok(Vec::new(alloc)),
    }
}

/// Adds the Tags that put a tag on those characters in ranges that haven't it, or take it off those that
/// have it. Want of memory.
pub(crate) fn push_changes<S: TextStore>(
    alloc: Global,
    drafts: &mut Vec<Draft>,
    store: &S,
    states: &StateTable,
    ranges: &[Range],
    name: &str,
    on: bool,
) -> Result<(), Fault>
    requires distinct { AreDistinct (S.list store.now) }
    requires states { S.agrees store.now states.now }
    requires order { RangesFollow 0 ranges.now }
    requires within { All (λ range. range.to ≤ length (visible_of (S.list store.now))) ranges.now }
    ensures ok { OnOk result (map body_of drafts.new.items ≡ map body_of drafts.old.items
        ++ tag_drafts_at MOST_SPANS (is_covered ranges.now) on name.now (map (shown states.now) (S.list store.now))) }
    ensures err { IsOkUnless result Fault.NoMemory }
{
    let changed = changed_ranges(alloc, store, states, ranges, name, on)?;
    let spans = spans_in(alloc, store, &changed)?;
    push_tags(alloc, drafts, on, name, &spans)
}
