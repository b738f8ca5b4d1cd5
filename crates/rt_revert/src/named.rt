// The cells that the actions of a group name.
ghost use Rattle.std.specs.Prelude.{◌≡◌, ℕ, ◌+◌, ◌-◌, ◌<◌, ◌≤◌, ◌++◌, ◌∷◌, [], ◌||◌, true, All, IsOkUnless, IfOk, OnOk, length};
ghost use Rattle.std.specs.List.Sorted.{IsStrictlyIncreasing};
ghost use Rattle.rt_stamps.specs.declared.limits.TheConstants.{GREATEST_COUNT};
ghost use Rattle.rt_stamps.specs.declared.stamp.TheConstants.{FINAL, ROOT};
ghost use Rattle.rt_stamps.specs.Stamps.{is_before};
ghost use Rattle.rt_ops.specs.Operations.{stamps_in, stamps_of_span};
ghost use Rattle.rt_store.specs.Cells.{AreDistinct, position_of};
ghost use Rattle.rt_store.specs.Written.{AreBelowNext};
ghost use Rattle.rt_undo.specs.Actions.{action_of, group_of};
ghost use Rattle.rt_revert.specs.Named.{AreAt, has_position, is_in_group, is_one_at, named_by, named_in};
ghost use Rattle.rt_revert.specs.Plans.{AreUpTo};
ghost use Rattle.rt_revert.specs.Portions.{only};

use rt_stamps::{FINAL, Fault, ROOT, Site, Span, Stamp};
use rt_store::TextStore;
use rt_undo::Action;
use std::alloc::Global;

// Adds the spans of the characters that an action put in and took away. Want of memory.
fn push_named(action: &Action, spans: &mut Vec<Span>) -> Result<(), Fault>
    ensures ok { OnOk result (stamps_in spans.new.items ≡ stamps_in spans.old.items ++ named_by (action_of action.now)) }
    ensures err { IsOkUnless result Fault.NoMemory }
{
    spans.extend_from_slice(&action.inserted)?;
    for part in &action.removed {
        spans.push(part.span)?;
    }
    Ok(())
}

// The spans of the characters that a group names. Want of memory.
fn named_spans(alloc: Global, group: &[Action]) -> Result<Vec<Span>, Fault>
    ensures ok { IfOk result (λ spans. stamps_in spans.items ≡ named_in (group_of group.now)) }
    ensures err { IsOkUnless result Fault.NoMemory }
{
    let mut spans = Vec::new(alloc);
    for action in group {
        push_named(action, &mut spans)?;
    }
    Ok(spans)
}

// The position of the cell that has the root's stamp. A store takes the root for what stands before all
// cells, so it has to be looked for; no operation puts such a cell in.
fn root_position<S: TextStore>(store: &S) -> Option<usize>
    ensures { result ≡ position_of (S.list store.now) ROOT }
{
    for position in 0..store.cells() {
        if store.nth(position).stamp == ROOT {
            return Some(position);
        }
    }
    None
}

// The position of a stamp's cell, by a stamp that is newer than all.
fn position_of<S: TextStore>(store: &S, newest: Stamp, stamp: Stamp) -> Option<usize>
    requires distinct { AreDistinct (S.list store.now) }
    requires older { AreBelowNext (newest.count - 1) (S.list store.now) }
    requires newest { (0 < newest.count) × (is_before FINAL newest ≡ true) }
    ensures { result ≡ position_of (S.list store.now) stamp }
{
    if stamp == FINAL {
        return Some(store.cells() - 1);
    }
    if stamp == ROOT {
        return root_position(store);
    }
    match store.cell_of(stamp) {
        Some(_) => Some(store.after_skip(stamp, newest) - 1),
        None => None,
    }
}

// Adds the position of a stamp's cell, if there is one. Want of memory.
fn push_position<S: TextStore>(
    store: &S,
    newest: Stamp,
    stamp: Stamp,
    positions: &mut Vec<usize>,
) -> Result<(), Fault>
    requires distinct { AreDistinct (S.list store.now) }
    requires older { AreBelowNext (newest.count - 1) (S.list store.now) }
    requires newest { (0 < newest.count) × (is_before FINAL newest ≡ true) }
    ensures ok { OnOk result ((at : ℕ) → has_position positions.new.items at
        ≡ (has_position positions.old.items at || is_one_at (stamp ∷ []) (S.list store.now) at)) }
    ensures err { IsOkUnless result Fault.NoMemory }
{
    match position_of(store, newest, stamp) {
        Some(position) => Ok(positions.push(position)?),
        None => Ok(()),
    }
}

// Adds the positions of a span's cells. Want of memory.
fn push_positions<S: TextStore>(
    store: &S,
    newest: Stamp,
    span: Span,
    positions: &mut Vec<usize>,
) -> Result<(), Fault>
    requires distinct { AreDistinct (S.list store.now) }
    requires older { AreBelowNext (newest.count - 1) (S.list store.now) }
    requires newest { (0 < newest.count) × (is_before FINAL newest ≡ true) }
    ensures ok { OnOk result ((at : ℕ) → has_position positions.new.items at
        ≡ (has_position positions.old.items at || is_one_at (stamps_of_span span) (S.list store.now) at)) }
    ensures err { IsOkUnless result Fault.NoMemory }
{
    for count in span.first..=span.last {
        let stamp = Stamp {
            count,
            site: span.site,
        };
        push_position(store, newest, stamp, positions)?;
    }
    Ok(())
}

// The positions of the cells of some spans, in any order, and that of the final newline.
fn positions_of<S: TextStore>(
    alloc: Global,
    store: &S,
    newest: Stamp,
    spans: &[Span],
) -> Result<Vec<usize>, Fault>
    requires distinct { AreDistinct (S.list store.now) }
    requires older { AreBelowNext (newest.count - 1) (S.list store.now) }
    requires newest { (0 < newest.count) × (is_before FINAL newest ≡ true) }
    ensures ok { IfOk result (λ positions. (at : ℕ) → has_position positions.items at
        ≡ is_one_at (FINAL ∷ stamps_in spans.now) (S.list store.now) at) }
    ensures err { IsOkUnless result Fault.NoMemory }
{
    let mut positions = Vec::new(alloc);
    positions.push(store.cells() - 1)?;
    for span in spans {
        push_positions(store, newest, *span, &mut positions)?;
    }
    Ok(positions)
}

// Puts positions in order, each once.
fn put_in_order(positions: &mut Vec<usize>)
    ensures rising { IsStrictlyIncreasing positions.new.items }
    ensures same { (at : ℕ) → has_position positions.new.items at ≡ has_position positions.old.items at }
{
    positions.sort_unstable();
    positions.dedup();
}

/// The positions of the cells that a group names, and that of the final newline, in order. No cell has a
/// count above `count`. The cost goes by the characters that the group names, and by a sort. Want of
/// memory.
pub(crate) fn named_positions<S: TextStore>(
    alloc: Global,
    store: &S,
    site: Site,
    count: u64,
    group: &[Action],
) -> Result<Vec<usize>, Fault>
    requires distinct { AreDistinct (S.list store.now) }
    requires older { AreUpTo count (S.list store.now) }
    requires count { count ≤ GREATEST_COUNT }
    ensures within { IfOk result (λ positions. All (λ position. position < length (S.list store.now)) positions.items) }
    ensures cells { IfOk result (λ positions. AreAt (S.list store.now) positions.items (only (is_in_group (group_of group.now)) (S.list store.now))) }
    ensures err { IsOkUnless result Fault.NoMemory }
{
    let newest = Stamp {
        count: count + 1,
        site: site.number(),
    };
    let spans = named_spans(alloc, group)?;
    let mut positions = positions_of(alloc, store, newest, &spans)?;
    put_in_order(&mut positions);
    Ok(positions)
}
