// Changes of one leaf, with the summaries above it.
ghost use Rattle.std.specs.Prelude.{◌≡◌, ◌+◌, ◌<◌, ◌≤◌, ◌^◌, ◌++◌, IfSome, insert, length, slice_index_or, slice_set};
ghost use Rattle.std.specs.List.{AllByRecursion};
ghost use Rattle.rt_nodes.specs.Nodes.{IsNode, entries, with_entries};
ghost use Rattle.rt_tags.specs.Borders.{one_or_none};
ghost use Rattle.rt_tags.specs.States.{IsState};
ghost use Rattle.rt_tree.specs.declared.node.Entry.{Entry};
ghost use Rattle.rt_tree.specs.declared.node.Entry.TheVariants.{Here};
ghost use Rattle.rt_tree.specs.Changes.{AreExact, bare, links};
ghost use Rattle.rt_tree.specs.Shape.{AreFilled, IsShape, ahead, all_below, behind, below, level_of, runs};
ghost use Rattle.rt_tree.specs.Summaries.{AreBeside, AreSummed, AreSummedBut, HaveMemory, shown_states};
ghost use Rattle.rt_tree.specs.Sums.{AreFew, counts_of};

use crate::change::{put_run, set_run};
use crate::node::{Entry, Mem, Run};
use crate::node_entry::read_entry;
use crate::note::{Restated, note};
use crate::room::{Place, Top};
use crate::summaries::shown_state;
use crate::summary::StateChange;
use crate::summed::Summaries;
use rt_nodes::NodeId;
use rt_tags::{StateId, StateTable};

// The state that an entry of a leaf shows, if it is visible.
fn shown_at(mem: &Mem, leaf: NodeId, i: usize) -> Option<StateId>
    requires node { IsNode mem.now leaf.index }
    requires within { i < length (entries mem.now leaf.index) }
    ensures { (e : Entry) → e ≡ slice_index_or (entries mem.now leaf.index) i e → shown_states (below mem.now 0 e) ≡ one_or_none result }
{
    match read_entry(mem, leaf, i) {
        Entry::Here(run) => shown_state(&run),
        Entry::Down(_, _) => None,
    }
}

// An entry of a leaf shows another state now, or none, or the same as before: puts right the summaries of the nodes above it.
#[inline(always)]
fn put_right(sums: &mut Summaries, states: &StateTable, mem: &Mem, top: Top, restated: Restated)
    requires tree { IsShape mem.now top.height top.root.index }
    requires leaf { (restated.place.leaf.index < length mem.now.heads) × (level_of mem.now restated.place.leaf.index ≡ 0) }
    requires within { restated.place.entry < length (entries mem.now restated.place.leaf.index) }
    requires many { length mem.now.heads ≤ length sums.old.each.items }
    requires old { IfSome restated.change.from (IsState states.now) }
    requires new { IfSome restated.change.to (IsState states.now) }
    requires shows { (e : Entry) → e ≡ slice_index_or (entries mem.now restated.place.leaf.index) restated.place.entry e
        → shown_states (below mem.now 0 e) ≡ one_or_none restated.change.to }
    requires beside { AreBeside states.now mem.now top.height restated.place.leaf.index restated.place.entry }
    requires but { AreSummedBut states.now mem.now sums.old.each.items top.height restated.place.leaf.index restated.place.entry restated.change.from }
    requires memory { HaveMemory sums.old }
    requires tags { length states.now.names ≤ sums.old.tags }
    ensures summed { AreSummed states.now mem.now sums.new.each.items }
    ensures many { length sums.new.each.items ≡ length sums.old.each.items }
    ensures memory { HaveMemory sums.new }
    ensures tags { sums.new.tags ≡ sums.old.tags }
{
    if restated.change.from == restated.change.to {
        return;
    }
    note(
        sums.each.as_mut_slice(),
        &mut sums.minus,
        &mut sums.plus,
        states,
        mem,
        top,
        restated,
    );
}

// Puts another run in place of one, and the summaries right.
pub(crate) fn replace_run(
    mem: &mut Mem,
    sums: &mut Summaries,
    states: &StateTable,
    top: Top,
    place: Place,
    run: Run,
)
    requires tree { IsShape (bare mem.old) top.height top.root.index }
    requires exact { AreExact mem.old }
    requires filled { AreFilled mem.old top.root.index }
    requires leaf { (place.leaf.index < length mem.old.heads) × (level_of (bare mem.old) place.leaf.index ≡ 0) }
    requires within { place.entry < length (entries mem.old place.leaf.index) }
    requires few { AreFew (counts_of (ahead (bare mem.old) top.height place.leaf.index
        ++ (all_below (bare mem.old) 0 (links (slice_set (entries mem.old place.leaf.index) place.entry (Here run)))
        ++ behind (bare mem.old) top.height place.leaf.index))) }
    requires summed { AreSummed states.now mem.old sums.old.each.items }
    requires many { length mem.old.heads ≤ length sums.old.each.items }
    requires memory { HaveMemory sums.old }
    requires tags { length states.now.names ≤ sums.old.tags }
    requires had { AllByRecursion (IsState states.now) (shown_states (runs (bare mem.old) top.height top.root.index)) }
    requires given { AllByRecursion (IsState states.now) (shown_states (ahead (bare mem.old) top.height place.leaf.index
        ++ (all_below (bare mem.old) 0 (links (slice_set (entries mem.old place.leaf.index) place.entry (Here run)))
        ++ behind (bare mem.old) top.height place.leaf.index))) }
    requires short { length (shown_states (ahead (bare mem.old) top.height place.leaf.index
        ++ (all_below (bare mem.old) 0 (links (slice_set (entries mem.old place.leaf.index) place.entry (Here run)))
        ++ behind (bare mem.old) top.height place.leaf.index))) + 4 < 2 ^ 32 }
    ensures tree { IsShape (bare mem.new) top.height top.root.index }
    ensures exact { AreExact mem.new }
    ensures filled { AreFilled mem.new top.root.index }
    ensures bare { bare mem.new ≡ with_entries (bare mem.old) place.leaf.index (links (slice_set (entries mem.old place.leaf.index) place.entry (Here run))) }
    ensures runs { runs (bare mem.new) top.height top.root.index ≡ ahead (bare mem.old) top.height place.leaf.index
        ++ (all_below (bare mem.old) 0 (links (slice_set (entries mem.old place.leaf.index) place.entry (Here run)))
        ++ behind (bare mem.old) top.height place.leaf.index) }
    ensures summed { AreSummed states.now mem.new sums.new.each.items }
    ensures many { length sums.new.each.items ≡ length sums.old.each.items }
    ensures memory { HaveMemory sums.new }
    ensures tags { sums.new.tags ≡ sums.old.tags }
{
    let from = shown_at(mem, place.leaf, place.entry);
    let to = shown_state(&run);
    set_run(mem, top.root, top.height, place.leaf, place.entry, run);
    let change = StateChange { from, to };
    put_right(sums, states, mem, top, Restated { place, change });
}

// Puts a run into a leaf that has room, and the summaries right.
#[inline(always)]
pub(crate) fn insert_run(
    mem: &mut Mem,
    sums: &mut Summaries,
    states: &StateTable,
    top: Top,
    place: Place,
    run: Run,
)
    requires tree { IsShape (bare mem.old) top.height top.root.index }
    requires exact { AreExact mem.old }
    requires filled { AreFilled mem.old top.root.index }
    requires leaf { (place.leaf.index < length mem.old.heads) × (level_of (bare mem.old) place.leaf.index ≡ 0) }
    requires within { place.entry ≤ length (entries mem.old place.leaf.index) }
    requires room { length (entries mem.old place.leaf.index) < 16 }
    requires few { AreFew (counts_of (ahead (bare mem.old) top.height place.leaf.index
        ++ (all_below (bare mem.old) 0 (links (insert (entries mem.old place.leaf.index) place.entry (Here run)))
        ++ behind (bare mem.old) top.height place.leaf.index))) }
    requires summed { AreSummed states.now mem.old sums.old.each.items }
    requires many { length mem.old.heads ≤ length sums.old.each.items }
    requires memory { HaveMemory sums.old }
    requires tags { length states.now.names ≤ sums.old.tags }
    requires given { AllByRecursion (IsState states.now) (shown_states (ahead (bare mem.old) top.height place.leaf.index
        ++ (all_below (bare mem.old) 0 (links (insert (entries mem.old place.leaf.index) place.entry (Here run)))
        ++ behind (bare mem.old) top.height place.leaf.index))) }
    requires short { length (shown_states (ahead (bare mem.old) top.height place.leaf.index
        ++ (all_below (bare mem.old) 0 (links (insert (entries mem.old place.leaf.index) place.entry (Here run)))
        ++ behind (bare mem.old) top.height place.leaf.index))) + 4 < 2 ^ 32 }
    ensures tree { IsShape (bare mem.new) top.height top.root.index }
    ensures exact { AreExact mem.new }
    ensures filled { AreFilled mem.new top.root.index }
    ensures bare { bare mem.new ≡ with_entries (bare mem.old) place.leaf.index (links (insert (entries mem.old place.leaf.index) place.entry (Here run))) }
    ensures runs { runs (bare mem.new) top.height top.root.index ≡ ahead (bare mem.old) top.height place.leaf.index
        ++ (all_below (bare mem.old) 0 (links (insert (entries mem.old place.leaf.index) place.entry (Here run)))
        ++ behind (bare mem.old) top.height place.leaf.index) }
    ensures room { (mem.new.room ≡ mem.old.room) × (length mem.new.heads ≡ length mem.old.heads) }
    ensures summed { AreSummed states.now mem.new sums.new.each.items }
    ensures many { length sums.new.each.items ≡ length sums.old.each.items }
    ensures memory { HaveMemory sums.new }
    ensures tags { sums.new.tags ≡ sums.old.tags }
{
    let from: Option<StateId> = None;
    let to = shown_state(&run);
    put_run(mem, top.root, top.height, place.leaf, place.entry, run);
    let change = StateChange { from, to };
    put_right(sums, states, mem, top, Restated { place, change });
}
