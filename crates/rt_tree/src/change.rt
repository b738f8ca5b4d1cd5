// Changes of one leaf.
ghost use Rattle.std.specs.Prelude.{◌≡◌, ◌<◌, ◌≤◌, ◌++◌, insert, length, slice_set};
ghost use Rattle.rt_nodes.specs.Nodes.{entries, with_entries};
ghost use Rattle.rt_tree.specs.declared.node.Entry.TheVariants.{Here};
ghost use Rattle.rt_tree.specs.Changes.{AreExact, bare, links};
ghost use Rattle.rt_tree.specs.Shape.{AreFilled, IsShape, ahead, all_below, behind, level_of, runs};
ghost use Rattle.rt_tree.specs.Sums.{AreFew, counts_of};

use crate::node::{Entry, Mem, Run};
use crate::node_entry::{insert_entry, set_entry};
use crate::settle::{add_above, settle_by};
use crate::totals::{entry_totals, growth, totals_of};
use rt_nodes::NodeId;

// Puts another run in place of one.
pub(crate) fn set_run(mem: &mut Mem, root: NodeId, height: u32, leaf: NodeId, i: usize, run: Run)
    requires tree { IsShape (bare mem.old) height root.index }
    requires exact { AreExact mem.old }
    requires filled { AreFilled mem.old root.index }
    requires leaf { (leaf.index < length mem.old.heads) × (level_of (bare mem.old) leaf.index ≡ 0) }
    requires within { i < length (entries mem.old leaf.index) }
    requires few { AreFew (counts_of (ahead (bare mem.old) height leaf.index
        ++ (all_below (bare mem.old) 0 (links (slice_set (entries mem.old leaf.index) i (Here run))) ++ behind (bare mem.old) height leaf.index))) }
    ensures tree { IsShape (bare mem.new) height root.index }
    ensures exact { AreExact mem.new }
    ensures filled { AreFilled mem.new root.index }
    ensures bare { bare mem.new ≡ with_entries (bare mem.old) leaf.index (links (slice_set (entries mem.old leaf.index) i (Here run))) }
    ensures runs { runs (bare mem.new) height root.index ≡ ahead (bare mem.old) height leaf.index
        ++ (all_below (bare mem.old) 0 (links (slice_set (entries mem.old leaf.index) i (Here run))) ++ behind (bare mem.old) height leaf.index) }
{
    let seen = run;
    let new = Entry::Here(run);
    let before = entry_totals(mem.entry(leaf, i));
    let after = totals_of(seen);
    let grown = growth(before, after);
    set_entry(mem, leaf, i, new);
    settle_by(mem, root, height, leaf, grown);
}

// Puts a run into a leaf that has room.
#[inline(always)]
pub(crate) fn put_run(mem: &mut Mem, root: NodeId, height: u32, leaf: NodeId, i: usize, run: Run)
    requires tree { IsShape (bare mem.old) height root.index }
    requires exact { AreExact mem.old }
    requires filled { AreFilled mem.old root.index }
    requires leaf { (leaf.index < length mem.old.heads) × (level_of (bare mem.old) leaf.index ≡ 0) }
    requires within { i ≤ length (entries mem.old leaf.index) }
    requires room { length (entries mem.old leaf.index) < 16 }
    requires few { AreFew (counts_of (ahead (bare mem.old) height leaf.index
        ++ (all_below (bare mem.old) 0 (links (insert (entries mem.old leaf.index) i (Here run))) ++ behind (bare mem.old) height leaf.index))) }
    ensures tree { IsShape (bare mem.new) height root.index }
    ensures exact { AreExact mem.new }
    ensures filled { AreFilled mem.new root.index }
    ensures bare { bare mem.new ≡ with_entries (bare mem.old) leaf.index (links (insert (entries mem.old leaf.index) i (Here run))) }
    ensures runs { runs (bare mem.new) height root.index ≡ ahead (bare mem.old) height leaf.index
        ++ (all_below (bare mem.old) 0 (links (insert (entries mem.old leaf.index) i (Here run))) ++ behind (bare mem.old) height leaf.index) }
    ensures room { (mem.new.room ≡ mem.old.room) × (length mem.new.heads ≡ length mem.old.heads) }
{
    let seen = run;
    let new = Entry::Here(run);
    let more = totals_of(seen);
    insert_entry(mem, leaf, i, new);
    add_above(mem, root, height, leaf, more);
}
