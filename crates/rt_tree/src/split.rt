// Nodes cut in two.
ghost use Rattle.std.specs.Prelude.{◌≡◌, ◌≢◌, ℕ, ◌+◌, ◌<◌, ◌≤◌, ◌/◌, ◌^◌, length, slice_index_or};
ghost use Rattle.rt_nodes.specs.Nodes.{IsNode, entries, with_head};
ghost use Rattle.rt_tree.specs.declared.node.Entry.{Entry};
ghost use Rattle.rt_tree.specs.declared.node.Entry.TheVariants.{Down};
ghost use Rattle.rt_tree.specs.Changes.{AreExact, AreHalves, AreStill, IsAdopted, IsGrown, IsHalved, bare, blank, links, strip};
ghost use Rattle.rt_tree.specs.Shape.{IsShape, child_count, level_of, parent_of, runs};
ghost use Rattle.rt_tree.specs.Sums.{AreFew, counts_of};

use crate::node::{Entry, Head, Mem};
use crate::node_entry::{insert_entry, read_entry, set_entry};
use crate::settle::level_of;
use crate::totals::adds_up;
use rt_nodes::NodeId;

fn set_parent(mem: &mut Mem, id: NodeId, parent: NodeId)
    requires { IsNode mem.old id.index }
    ensures { mem.new ≡ with_head mem.old id.index (record { parent = parent; level = level_of (bare mem.old) id.index }) }
{
    mem.head_mut(id).parent = parent;
}

// Makes a node the parent of those that stand in it.
fn adopt(mem: &mut Mem, id: NodeId)
    requires node { IsNode mem.old id.index }
    requires same { length mem.old.heads ≡ length mem.old.rows }
    requires kids { (c : ℕ) → 0 < child_count c (entries (bare mem.old) id.index) → c < length mem.old.heads }
    ensures { IsAdopted mem.old mem.new id.index (entries (bare mem.old) id.index) }
{
    for i in 0..mem.len(id) {
        match read_entry(mem, id, i) {
            Entry::Down(child, _) => set_parent(mem, child, id),
            Entry::Here(_) => {}
        }
    }
}

// A new node with the back half of a node's entries.
fn halve(mem: &mut Mem, node: NodeId, parent: NodeId) -> NodeId
    requires node { IsNode mem.old node.index }
    requires same { length mem.old.heads ≡ length mem.old.rows }
    requires kids { (c : ℕ) → 0 < child_count c (links (entries mem.old node.index))
        → (c < length mem.old.heads) × (0 < level_of (bare mem.old) node.index) }
    requires room { 0 < mem.old.room }
    ensures { IsHalved mem.old mem.new node.index result.index parent.index (length (entries mem.old node.index) / 2) }
{
    let half = mem.len(node) / 2;
    let level = level_of(mem, node);
    let new = mem.make(Head { parent, level });
    mem.move_tail(node, half, new);
    // The entries of a leaf are runs, which have no parent.
    if level > 0 {
        adopt(mem, new);
    }
    new
}

// Cuts a node in two; its parent has room for one entry more.
pub(crate) fn split(
    mem: &mut Mem,
    root: NodeId,
    height: u32,
    node: NodeId,
    parent: NodeId,
    slot: usize,
) -> NodeId
    requires tree { IsShape (bare mem.old) height root.index }
    requires exact { AreExact mem.old }
    requires few { AreFew (counts_of (runs (bare mem.old) height root.index)) }
    requires node { (node.index < length mem.old.heads) × (node.index ≢ root.index) }
    requires parent { parent.index ≡ parent_of (bare mem.old) node.index }
    requires within { slot < length (entries mem.old parent.index) }
    requires slot { (e : Entry) → e ≡ slice_index_or (entries mem.old parent.index) slot e → strip e ≡ Down node blank }
    requires parent_room { length (entries mem.old parent.index) < 16 }
    requires room { 0 < mem.old.room }
    ensures tree { IsShape (bare mem.new) height root.index }
    ensures exact { AreExact mem.new }
    ensures runs { runs (bare mem.new) height root.index ≡ runs (bare mem.old) height root.index }
    ensures room { mem.new.room + 1 ≡ mem.old.room }
    ensures wider { length (entries mem.new parent.index) ≡ length (entries mem.old parent.index) + 1 }
    ensures halves { AreHalves mem.old mem.new node.index result.index }
    ensures still { AreStill mem.old mem.new height node.index result.index }
    ensures others { (id : ℕ) → id < length mem.old.heads → id ≢ node.index
        → runs (bare mem.new) (level_of (bare mem.old) id) id ≡ runs (bare mem.old) (level_of (bare mem.old) id) id }
{
    let new = halve(mem, node, parent);
    let front = adds_up(mem, node);
    let back = adds_up(mem, new);
    set_entry(mem, parent, slot, Entry::Down(node, front));
    insert_entry(mem, parent, slot + 1, Entry::Down(new, back));
    new
}

// A new root above the old one.
pub(crate) fn grow(mem: &mut Mem, root: NodeId, height: u32) -> NodeId
    requires tree { IsShape (bare mem.old) height root.index }
    requires exact { AreExact mem.old }
    requires few { AreFew (counts_of (runs (bare mem.old) height root.index)) }
    requires room { 0 < mem.old.room }
    requires height { height + 1 < 2 ^ 32 }
    ensures tree { IsShape (bare mem.new) (height + 1) result.index }
    ensures exact { AreExact mem.new }
    ensures runs { runs (bare mem.new) (height + 1) result.index ≡ runs (bare mem.old) height root.index }
    ensures grown { IsGrown mem.old mem.new height root.index result.index }
    ensures room { mem.new.room + 1 ≡ mem.old.room }
{
    let totals = adds_up(mem, root);
    let level = height + 1;
    let new = mem.make(Head {
        parent: root,
        level,
    });
    insert_entry(mem, new, 0, Entry::Down(root, totals));
    set_parent(mem, root, new);
    new
}
