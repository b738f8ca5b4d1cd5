// Deletions and tag writes, as the operations that they make.
ghost use Rattle.std.specs.Prelude.{◌≡◌, ℕ, ◌<◌, ◌≤◌, ◌++◌, ◌&&◌, All, IfOk, IsOkUnless, OnOk, [], is_some, length, map, not, option_map, slice_get, unwrap_or};
ghost use Rattle.rt_stamps.specs.declared.limits.TheConstants.{MOST_SPANS};
ghost use Rattle.rt_stamps.specs.Words.{as_words};
ghost use Rattle.rt_ops.specs.Edits.{body_of};
ghost use Rattle.rt_store.specs.Cells.{AreDistinct, text_of, visible_of};
ghost use Rattle.rt_store.specs.Shown.{shown};
ghost use Rattle.rt_store.specs.Tagged.{AreStates};
ghost use Rattle.rt_store.specs.Written.{AreWritten};
ghost use Rattle.rt_tags.specs.States.{names_on};
ghost use Rattle.rt_tags.specs.Tags.{IsName, is_listed};
ghost use Rattle.rt_lines.specs.Stretches.{part};
ghost use Rattle.rt_plans.specs.Deletions.{delete_drafts, loss_in};
ghost use Rattle.rt_plans.specs.DocValue.{DocValue};
ghost use Rattle.rt_plans.specs.Listed.{AreListed};
ghost use Rattle.rt_plans.specs.Removals.{RangesFollow, is_covered};
ghost use Rattle.rt_plans.specs.RemovalDrafts.{removal_drafts};
ghost use Rattle.rt_plans.specs.TagDrafts.{tag_deletion_drafts, newline_drafts, tag_drafts_at};

use crate::Range;
use crate::changes::push_changes;
use crate::parts::{push_deletes, push_tags};
use crate::removal::removed_ranges;
use crate::runs::spans_in;
use rt_lines::Stretch;
use rt_rga::Draft;
use rt_stamps::{Fault, Span};
use rt_store::TextStore;
use rt_tags::{StateTable, TagTable};
use std::alloc::Global;

/// What a deletion comes to: the ranges of places that go, whether it holds the last newline, and its
/// operations.
#[derive(Drop)]
pub struct Deletion {
    pub removed: Vec<Range>,
    pub held: bool,
    pub drafts: Vec<Draft>,
}

// Whether a place is in a range.
fn holds(ranges: &[Range], place: usize) -> bool
    ensures { result ≡ is_covered ranges.now place }
{
    ranges
        .iter()
        .any(|range| range.from <= place && place < range.to)
}

/// The Deletes of the characters in ranges of the text, which may hold its last newline. Want of memory.
pub fn removals<S: TextStore>(
    alloc: Global,
    store: &S,
    removed: &[Range],
) -> Result<Vec<Draft>, Fault>
    requires distinct { AreDistinct (S.list store.now) }
    requires order { RangesFollow 0 removed.now }
    requires within { All (λ range. range.to ≤ length (visible_of (S.list store.now))) removed.now }
    ensures ok { IfOk result (λ drafts. map body_of drafts.items ≡ removal_drafts MOST_SPANS (is_covered removed.now) (S.list store.now)) }
    ensures err { IsOkUnless result Fault.NoMemory }
{
    let spans = spans_in(alloc, store, removed)?;
    let mut drafts = Vec::new(alloc);
    push_deletes(alloc, &mut drafts, &spans)?;
    Ok(drafts)
}

// Adds the Tags that take its tags off the character at a place.
fn push_newline<S: TextStore>(
    alloc: Global,
    store: &S,
    states: &StateTable,
    place: usize,
    drafts: &mut Vec<Draft>,
) -> Result<(), Fault>
    requires states { AreStates states.now (S.list store.now) }
    requires place { place < length (visible_of (S.list store.now)) }
    ensures ok { OnOk result (let newline = slice_get (visible_of (map (shown states.now) (S.list store.now))) place in
        map body_of drafts.new.items ≡ map body_of drafts.old.items
        ++ unwrap_or (option_map (λ cell. newline_drafts cell.stamp (names_on cell.state)) newline) []) }
    ensures err { IsOkUnless result Fault.NoMemory }
{
    let newline = store.cell_at(place);
    let on = states.on(newline.state)?;
    for tag in on.as_slice() {
        push_tags(
            alloc,
            drafts,
            false,
            states.name(*tag),
            &[Span::of(newline.stamp)],
        )?;
    }
    Ok(())
}

/// Plans the deletion of ranges of a stretch of the text, in any order and of any length: the Deletes of
/// their characters, and where they hold the stretch's last newline, a Tag for each of its shared tags.
/// Want of memory.
pub fn planned_deletion<S: TextStore>(
    alloc: Global,
    store: &S,
    states: &StateTable,
    stretch: Stretch,
    ranges: &[Range],
) -> Result<Deletion, Fault>
    requires stretch { (stretch.begin < stretch.end) × (stretch.end ≤ length (text_of (S.list store.now))) }
    requires distinct { AreDistinct (S.list store.now) }
    requires states { AreStates states.now (S.list store.now) }
    ensures drafts { IfOk result (λ d. (doc : DocValue) → doc.cells ≡ map (shown states.now) (S.list store.now)
        → map body_of d.drafts.items ≡ delete_drafts MOST_SPANS doc (loss_in (part stretch (text_of (S.list store.now))) stretch.begin ranges.now)) }
    ensures places { IfOk result (λ d. (place : ℕ)
        → is_covered d.removed.items place ≡ (loss_in (part stretch (text_of (S.list store.now))) stretch.begin ranges.now).places place) }
    ensures order { IfOk result (λ d. RangesFollow 0 d.removed.items) }
    ensures before { IfOk result (λ d. All (λ range. range.to < stretch.end) d.removed.items) }
    ensures held { IfOk result (λ d. d.held ≡ is_some (loss_in (part stretch (text_of (S.list store.now))) stretch.begin ranges.now).newline) }
    ensures err { IsOkUnless result Fault.NoMemory }
{
    let removed = removed_ranges(alloc, store, stretch, ranges)?;
    let mut drafts = removals(alloc, store, &removed)?;
    let last = stretch.end - 1;
    let held = holds(ranges, last - stretch.begin);
    if held {
        push_newline(alloc, store, states, last, &mut drafts)?;
    }
    Ok(Deletion {
        removed,
        held,
        drafts,
    })
}

/// The operations that put a tag on those characters in ranges that haven't it, or take it off those
/// that have it. Want of memory.
pub fn planned_tag<S: TextStore>(
    alloc: Global,
    store: &S,
    states: &StateTable,
    ranges: &[Range],
    name: &str,
    on: bool,
) -> Result<Vec<Draft>, Fault>
    requires distinct { AreDistinct (S.list store.now) }
    requires states { S.agrees store.now states.now }
    requires order { RangesFollow 0 ranges.now }
    requires within { All (λ range. range.to ≤ length (visible_of (S.list store.now))) ranges.now }
    ensures ok { IfOk result (λ drafts. map body_of drafts.items
        ≡ tag_drafts_at MOST_SPANS (is_covered ranges.now) on name.now (map (shown states.now) (S.list store.now))) }
    ensures err { IsOkUnless result Fault.NoMemory }
{
    let mut drafts = Vec::new(alloc);
    push_changes(alloc, &mut drafts, store, states, ranges, name, on)?;
    Ok(drafts)
}

// Whether a name is that of a listed tag, and comes for the first time.
fn is_new(tags: &TagTable, seen: &TagTable, name: &str) -> bool
    ensures { result ≡ (is_listed name.now tags.now.names && not (is_listed name.now seen.now.names)) }
{
    tags.has(name) && !seen.has(name)
}

/// The operations that take tags off all characters, `sel` passed over: those of a name that comes
/// again, or isn't listed, are none. They are those of any document with these cells in which no write
/// is newer than its count. Want of memory.
pub fn planned_tag_deletion<S: TextStore>(
    alloc: Global,
    store: &S,
    states: &StateTable,
    tags: &TagTable,
    names: &[String],
) -> Result<Vec<Draft>, Fault>
    requires distinct { AreDistinct (S.list store.now) }
    requires states { S.agrees store.now states.now }
    requires listed { AreListed tags.now.names (map (shown states.now) (S.list store.now)) }
    ensures ok { IfOk result (λ drafts. (doc : DocValue) → AreWritten doc.count doc.cells
        → doc.cells ≡ map (shown states.now) (S.list store.now)
        → map body_of drafts.items ≡ tag_deletion_drafts MOST_SPANS doc (as_words names.now)) }
    ensures err { IsOkUnless result Fault.NoMemory }
{
    let all = [Range {
        from: 0,
        to: store.visible(),
    }];
    // `sel` is seen from the start
    let mut seen = TagTable::new(alloc)?;
    let mut drafts = Vec::new(alloc);
    for name in names {
        if is_new(tags, &seen, name) {
            seen.ensure(name)?;
            push_changes(alloc, &mut drafts, store, states, &all, name, false)?;
        }
    }
    Ok(drafts)
}
