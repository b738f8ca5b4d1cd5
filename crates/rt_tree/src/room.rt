// Room in a leaf.
ghost use Rattle.std.specs.Prelude.{◌≡◌, ℕ, ◌+◌, ◌-◌, ◌<◌, ◌≤◌, ◌^◌, length};
ghost use Rattle.rt_nodes.specs.Nodes.{entries};
ghost use Rattle.rt_tree.specs.Changes.{AreExact, above, bare};
ghost use Rattle.rt_tree.specs.Shape.{AreFilled, IsShape, ahead, level_of, parent_of, runs};
ghost use Rattle.rt_tree.specs.Standing.{Stay};
ghost use Rattle.rt_tree.specs.Summaries.{AreTold};
ghost use Rattle.rt_tree.specs.Sums.{AreFew, counts_of};
ghost use Rattle.rt_tree.specs.Trees.{HasNodes};

use crate::node::Mem;
use crate::regrow::{add_root, cut_node};
use crate::settle::{parent_of, slot_of};
use crate::summed::Summaries;
use rt_nodes::NodeId;
use rt_tags::StateTable;

// The node so many levels above a node.
fn above(mem: &Mem, root: NodeId, height: u32, node: NodeId, levels: u32) -> NodeId
    requires tree { IsShape (bare mem.now) height root.index }
    requires node { node.index < length mem.now.heads }
    requires levels { level_of (bare mem.now) node.index + levels ≤ height }
    ensures { result.index ≡ above (bare mem.now) levels node.index }
{
    let mut at = node;
    for i in 0..levels {
        at = parent_of(mem, at);
    }
    at
}

// A place in a leaf, before an entry or behind the last.
#[derive(Clone, Copy)]
pub(crate) struct Place {
    pub(crate) leaf: NodeId,
    pub(crate) entry: usize,
}

// Sees to it that the node above a leaf has room, the root having some.
fn make_way(
    mem: &mut Mem,
    sums: &mut Summaries,
    states: &StateTable,
    root: NodeId,
    height: u32,
    leaf: NodeId,
)
    requires tree { IsShape (bare mem.old) height root.index }
    requires exact { AreExact mem.old }
    requires filled { AreFilled mem.old root.index }
    requires few { AreFew (counts_of (runs (bare mem.old) height root.index)) }
    requires leaf { (leaf.index < length mem.old.heads) × (level_of (bare mem.old) leaf.index ≡ 0) }
    requires root_room { length (entries mem.old root.index) < 16 }
    requires room { HasNodes mem.old (length (runs (bare mem.old) height root.index)) }
    requires told { AreTold states.now mem.old sums.old (runs (bare mem.old) height root.index) }
    requires short { length (runs (bare mem.old) height root.index) + 5 < 2 ^ 32 }
    ensures tree { IsShape (bare mem.new) height root.index }
    ensures exact { AreExact mem.new }
    ensures filled { AreFilled mem.new root.index }
    ensures runs { runs (bare mem.new) height root.index ≡ runs (bare mem.old) height root.index }
    ensures leaf { (leaf.index < length mem.new.heads) × (level_of (bare mem.new) leaf.index ≡ 0) }
    ensures same { entries mem.new leaf.index ≡ entries mem.old leaf.index }
    ensures ahead { ahead (bare mem.new) height leaf.index ≡ ahead (bare mem.old) height leaf.index }
    ensures stay { Stay mem.old mem.new }
    ensures longer { length mem.old.heads ≤ length mem.new.heads }
    ensures way { 0 < height → length (entries mem.new (parent_of (bare mem.new) leaf.index)) < 16 }
    ensures room { length mem.new.heads + mem.new.room ≡ length mem.old.heads + mem.old.room }
    ensures told { AreTold states.now mem.new sums.new (runs (bare mem.new) height root.index) }
    ensures tags { sums.new.tags ≡ sums.old.tags }
{
    let mut level = height;
    while level > 1 {
        let next = level - 1;
        let node = above(mem, root, height, leaf, next);
        if mem.len(node) >= 16 {
            let parent = parent_of(mem, node);
            let slot = slot_of(mem, parent, node);
            cut_node(mem, sums, states, Top { root, height }, node, parent, slot);
        }
        level = next;
    }
}

// Sees to it that a place's leaf has room, the root having some; the place may now be in a new leaf.
#[inline(always)]
pub(crate) fn make_room(
    mem: &mut Mem,
    sums: &mut Summaries,
    states: &StateTable,
    top: Top,
    place: Place,
) -> Place
    requires tree { IsShape (bare mem.old) top.height top.root.index }
    requires exact { AreExact mem.old }
    requires filled { AreFilled mem.old top.root.index }
    requires few { AreFew (counts_of (runs (bare mem.old) top.height top.root.index)) }
    requires leaf { (place.leaf.index < length mem.old.heads) × (level_of (bare mem.old) place.leaf.index ≡ 0) }
    requires within { place.entry ≤ length (entries mem.old place.leaf.index) }
    requires root_room { length (entries mem.old top.root.index) < 16 }
    requires room { HasNodes mem.old (length (runs (bare mem.old) top.height top.root.index)) }
    requires told { AreTold states.now mem.old sums.old (runs (bare mem.old) top.height top.root.index) }
    requires short { length (runs (bare mem.old) top.height top.root.index) + 5 < 2 ^ 32 }
    ensures tree { IsShape (bare mem.new) top.height top.root.index }
    ensures exact { AreExact mem.new }
    ensures filled { AreFilled mem.new top.root.index }
    ensures runs { runs (bare mem.new) top.height top.root.index ≡ runs (bare mem.old) top.height top.root.index }
    ensures leaf { (result.leaf.index < length mem.new.heads) × (level_of (bare mem.new) result.leaf.index ≡ 0) }
    ensures within { result.entry ≤ length (entries mem.new result.leaf.index) }
    ensures leaf_room { length (entries mem.new result.leaf.index) < 16 }
    ensures stay { Stay mem.old mem.new }
    ensures longer { length mem.old.heads ≤ length mem.new.heads }
    ensures place { length (ahead (bare mem.new) top.height result.leaf.index) + result.entry
        ≡ length (ahead (bare mem.old) top.height place.leaf.index) + place.entry }
    ensures room { length mem.new.heads + mem.new.room ≡ length mem.old.heads + mem.old.room }
    ensures told { AreTold states.now mem.new sums.new (runs (bare mem.new) top.height top.root.index) }
    ensures tags { sums.new.tags ≡ sums.old.tags }
{
    if mem.len(place.leaf) < 16 {
        return place;
    }
    cut_for_room(mem, sums, states, top, place)
}

// What `make_room` sees to, where the leaf is full.
#[inline(never)]
fn cut_for_room(
    mem: &mut Mem,
    sums: &mut Summaries,
    states: &StateTable,
    top: Top,
    place: Place,
) -> Place
    requires tree { IsShape (bare mem.old) top.height top.root.index }
    requires exact { AreExact mem.old }
    requires filled { AreFilled mem.old top.root.index }
    requires few { AreFew (counts_of (runs (bare mem.old) top.height top.root.index)) }
    requires leaf { (place.leaf.index < length mem.old.heads) × (level_of (bare mem.old) place.leaf.index ≡ 0) }
    requires within { place.entry ≤ length (entries mem.old place.leaf.index) }
    requires full { length (entries mem.old place.leaf.index) ≡ 16 }
    requires root_room { length (entries mem.old top.root.index) < 16 }
    requires room { HasNodes mem.old (length (runs (bare mem.old) top.height top.root.index)) }
    requires told { AreTold states.now mem.old sums.old (runs (bare mem.old) top.height top.root.index) }
    requires short { length (runs (bare mem.old) top.height top.root.index) + 5 < 2 ^ 32 }
    ensures tree { IsShape (bare mem.new) top.height top.root.index }
    ensures exact { AreExact mem.new }
    ensures filled { AreFilled mem.new top.root.index }
    ensures runs { runs (bare mem.new) top.height top.root.index ≡ runs (bare mem.old) top.height top.root.index }
    ensures leaf { (result.leaf.index < length mem.new.heads) × (level_of (bare mem.new) result.leaf.index ≡ 0) }
    ensures within { result.entry ≤ length (entries mem.new result.leaf.index) }
    ensures leaf_room { length (entries mem.new result.leaf.index) < 16 }
    ensures stay { Stay mem.old mem.new }
    ensures longer { length mem.old.heads ≤ length mem.new.heads }
    ensures place { length (ahead (bare mem.new) top.height result.leaf.index) + result.entry
        ≡ length (ahead (bare mem.old) top.height place.leaf.index) + place.entry }
    ensures room { length mem.new.heads + mem.new.room ≡ length mem.old.heads + mem.old.room }
    ensures told { AreTold states.now mem.new sums.new (runs (bare mem.new) top.height top.root.index) }
    ensures tags { sums.new.tags ≡ sums.old.tags }
{
    let Place { leaf, entry } = place;
    make_way(mem, sums, states, top.root, top.height, leaf);
    let parent = parent_of(mem, leaf);
    let slot = slot_of(mem, parent, leaf);
    let new = cut_node(mem, sums, states, top, leaf, parent, slot);
    let half = mem.len(leaf);
    if entry <= half {
        place
    } else {
        Place {
            leaf: new,
            entry: entry - half,
        }
    }
}

// The root, and how many levels are below it.
#[derive(Clone, Copy)]
pub(crate) struct Top {
    pub(crate) root: NodeId,
    pub(crate) height: u32,
}

// Sees to it that the root has room.
#[inline(always)]
pub(crate) fn top_room(
    mem: &mut Mem,
    sums: &mut Summaries,
    states: &StateTable,
    root: NodeId,
    height: u32,
) -> Top
    requires tree { IsShape (bare mem.old) height root.index }
    requires exact { AreExact mem.old }
    requires filled { AreFilled mem.old root.index }
    requires few { AreFew (counts_of (runs (bare mem.old) height root.index)) }
    requires height { height + 1 < 2 ^ 32 }
    requires room { HasNodes mem.old (length (runs (bare mem.old) height root.index)) }
    requires told { AreTold states.now mem.old sums.old (runs (bare mem.old) height root.index) }
    requires short { length (runs (bare mem.old) height root.index) + 5 < 2 ^ 32 }
    ensures tree { IsShape (bare mem.new) result.height result.root.index }
    ensures exact { AreExact mem.new }
    ensures filled { AreFilled mem.new result.root.index }
    ensures runs { runs (bare mem.new) result.height result.root.index ≡ runs (bare mem.old) height root.index }
    ensures roomy { length (entries mem.new result.root.index) < 16 }
    ensures height { result.height ≤ height + 1 }
    ensures stay { Stay mem.old mem.new }
    ensures longer { length mem.old.heads ≤ length mem.new.heads }
    ensures still { result.height ≡ height → (mem.new ≡ mem.old) × (result.root ≡ root) }
    ensures room { length mem.new.heads + mem.new.room ≡ length mem.old.heads + mem.old.room }
    ensures told { AreTold states.now mem.new sums.new (runs (bare mem.new) result.height result.root.index) }
    ensures tags { sums.new.tags ≡ sums.old.tags }
{
    if mem.len(root) < 16 {
        return Top { root, height };
    }
    cut_root(mem, sums, states, root, height)
}

// What `top_room` sees to, where the root is full.
#[inline(never)]
fn cut_root(
    mem: &mut Mem,
    sums: &mut Summaries,
    states: &StateTable,
    root: NodeId,
    height: u32,
) -> Top
    requires tree { IsShape (bare mem.old) height root.index }
    requires exact { AreExact mem.old }
    requires filled { AreFilled mem.old root.index }
    requires few { AreFew (counts_of (runs (bare mem.old) height root.index)) }
    requires full { length (entries mem.old root.index) ≡ 16 }
    requires height { height + 1 < 2 ^ 32 }
    requires room { HasNodes mem.old (length (runs (bare mem.old) height root.index)) }
    requires told { AreTold states.now mem.old sums.old (runs (bare mem.old) height root.index) }
    requires short { length (runs (bare mem.old) height root.index) + 5 < 2 ^ 32 }
    ensures tree { IsShape (bare mem.new) result.height result.root.index }
    ensures exact { AreExact mem.new }
    ensures filled { AreFilled mem.new result.root.index }
    ensures runs { runs (bare mem.new) result.height result.root.index ≡ runs (bare mem.old) height root.index }
    ensures roomy { length (entries mem.new result.root.index) < 16 }
    ensures height { result.height ≡ height + 1 }
    ensures stay { Stay mem.old mem.new }
    ensures longer { length mem.old.heads ≤ length mem.new.heads }
    ensures room { length mem.new.heads + mem.new.room ≡ length mem.old.heads + mem.old.room }
    ensures told { AreTold states.now mem.new sums.new (runs (bare mem.new) result.height result.root.index) }
    ensures tags { sums.new.tags ≡ sums.old.tags }
{
    let new = add_root(mem, sums, states, root, height);
    let top = Top {
        root: new,
        height: height + 1,
    };
    cut_node(mem, sums, states, top, root, new, 0);
    top
}
