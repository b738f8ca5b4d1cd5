// New nodes, with their summaries.
ghost use Rattle.std.specs.Prelude.{◌≡◌, ◌≢◌, ◌+◌, ◌<◌, ◌≤◌, ◌^◌, length, slice_index_or};
ghost use Rattle.std.specs.List.{AllByRecursion};
ghost use Rattle.rt_nodes.specs.Nodes.{entries};
ghost use Rattle.rt_tags.specs.States.{IsState};
ghost use Rattle.rt_tree.specs.declared.node.Entry.{Entry};
ghost use Rattle.rt_tree.specs.declared.node.Entry.TheVariants.{Down};
ghost use Rattle.rt_tree.specs.Changes.{AreExact, AreHalves, AreStill, IsGrown, bare, blank, strip};
ghost use Rattle.rt_tree.specs.Shape.{IsShape, parent_of, runs};
ghost use Rattle.rt_tree.specs.Standing.{Stay};
ghost use Rattle.rt_tree.specs.Summaries.{AreSummed, HaveMemory, shown_states};
ghost use Rattle.rt_tree.specs.Sums.{AreFew, counts_of};

use crate::gather::gather_at;
use crate::node::Mem;
use crate::room::Top;
use crate::split::{grow, split};
use crate::summed::Summaries;
use rt_nodes::NodeId;
use rt_tags::StateTable;

// A new root above the old one, with its summary.
pub(crate) fn add_root(
    mem: &mut Mem,
    sums: &mut Summaries,
    states: &StateTable,
    root: NodeId,
    height: u32,
) -> NodeId
    requires tree { IsShape (bare mem.old) height root.index }
    requires exact { AreExact mem.old }
    requires few { AreFew (counts_of (runs (bare mem.old) height root.index)) }
    requires room { 0 < mem.old.room }
    requires height { height + 1 < 2 ^ 32 }
    requires summed { AreSummed states.now mem.old sums.old.each.items }
    requires many { length mem.old.heads + mem.old.room ≤ length sums.old.each.items }
    requires memory { HaveMemory sums.old }
    requires tags { length states.now.names ≤ sums.old.tags }
    requires given { AllByRecursion (IsState states.now) (shown_states (runs (bare mem.old) height root.index)) }
    requires short { length (shown_states (runs (bare mem.old) height root.index)) + 2 < 2 ^ 32 }
    ensures tree { IsShape (bare mem.new) (height + 1) result.index }
    ensures exact { AreExact mem.new }
    ensures runs { runs (bare mem.new) (height + 1) result.index ≡ runs (bare mem.old) height root.index }
    ensures grown { IsGrown mem.old mem.new height root.index result.index }
    ensures stay { Stay mem.old mem.new }
    ensures room { mem.new.room + 1 ≡ mem.old.room }
    ensures summed { AreSummed states.now mem.new sums.new.each.items }
    ensures many { length sums.new.each.items ≡ length sums.old.each.items }
    ensures memory { HaveMemory sums.new }
    ensures tags { sums.new.tags ≡ sums.old.tags }
{
    let new = grow(mem, root, height);
    gather_at(sums, states, mem, new);
    new
}

// Cuts a node in two, with the summaries of both; its parent has room for one entry more.
pub(crate) fn cut_node(
    mem: &mut Mem,
    sums: &mut Summaries,
    states: &StateTable,
    top: Top,
    node: NodeId,
    parent: NodeId,
    slot: usize,
) -> NodeId
    requires tree { IsShape (bare mem.old) top.height top.root.index }
    requires exact { AreExact mem.old }
    requires few { AreFew (counts_of (runs (bare mem.old) top.height top.root.index)) }
    requires node { (node.index < length mem.old.heads) × (node.index ≢ top.root.index) }
    requires parent { parent.index ≡ parent_of (bare mem.old) node.index }
    requires within { slot < length (entries mem.old parent.index) }
    requires slot { (e : Entry) → e ≡ slice_index_or (entries mem.old parent.index) slot e → strip e ≡ Down node blank }
    requires parent_room { length (entries mem.old parent.index) < 16 }
    requires room { 0 < mem.old.room }
    requires summed { AreSummed states.now mem.old sums.old.each.items }
    requires many { length mem.old.heads + mem.old.room ≤ length sums.old.each.items }
    requires memory { HaveMemory sums.old }
    requires tags { length states.now.names ≤ sums.old.tags }
    requires given { AllByRecursion (IsState states.now) (shown_states (runs (bare mem.old) top.height top.root.index)) }
    requires short { length (shown_states (runs (bare mem.old) top.height top.root.index)) + 2 < 2 ^ 32 }
    ensures tree { IsShape (bare mem.new) top.height top.root.index }
    ensures exact { AreExact mem.new }
    ensures runs { runs (bare mem.new) top.height top.root.index ≡ runs (bare mem.old) top.height top.root.index }
    ensures room { mem.new.room + 1 ≡ mem.old.room }
    ensures wider { length (entries mem.new parent.index) ≡ length (entries mem.old parent.index) + 1 }
    ensures halves { AreHalves mem.old mem.new node.index result.index }
    ensures still { AreStill mem.old mem.new top.height node.index result.index }
    ensures stay { Stay mem.old mem.new }
    ensures summed { AreSummed states.now mem.new sums.new.each.items }
    ensures many { length sums.new.each.items ≡ length sums.old.each.items }
    ensures memory { HaveMemory sums.new }
    ensures tags { sums.new.tags ≡ sums.old.tags }
{
    let new = split(mem, top.root, top.height, node, parent, slot);
    gather_at(sums, states, mem, node);
    gather_at(sums, states, mem, new);
    new
}
