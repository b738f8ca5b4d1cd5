// Totals put right from a node upwards.
ghost use Rattle.std.specs.Prelude.{◌≡◌, ◌<◌, length, slice_index_or};
ghost use Rattle.std.specs.Option.{ForSome};
ghost use Rattle.rt_nodes.specs.Nodes.{IsNode, entries};
ghost use Rattle.rt_tree.specs.declared.node.Entry.{Entry};
ghost use Rattle.rt_tree.specs.declared.node.Entry.TheVariants.{Down};
ghost use Rattle.rt_tree.specs.Changes.{AreExact, AreExactBut, Lacks, bare, blank, join, strip};
ghost use Rattle.rt_tree.specs.Shape.{IsShape, child_count, level_of, parent_of, runs};
ghost use Rattle.rt_tree.specs.Sums.{AreFew, counts_of, plus};

use crate::node::{Entry, Mem, Totals};
use crate::node_entry::{add_to, set_entry};
use crate::sums::plus;
use crate::totals::{adds_up, join};
use crate::up::is_node;
use rt_nodes::NodeId;

pub(crate) fn parent_of(mem: &Mem, id: NodeId) -> NodeId
    requires { IsNode mem.now id.index }
    ensures { result.index ≡ parent_of (bare mem.now) id.index }
{
    mem.head(id).parent
}

pub(crate) fn level_of(mem: &Mem, id: NodeId) -> u32
    requires { IsNode mem.now id.index }
    ensures { result ≡ level_of (bare mem.now) id.index }
{
    mem.head(id).level
}

// Joins more to totals: their counts alone change where the least count of more is greater.
#[inline(always)]
pub(crate) fn grow_by(totals: &mut Totals, more: Totals)
    requires { AreFew (plus more.counts totals.old.counts) }
    ensures { totals.new ≡ join more totals.old }
{
    if more.least_count <= totals.least_count {
        *totals = join(more, *totals);
    } else {
        totals.counts = plus(more.counts, totals.counts);
    }
}

// Where a node stands in its parent. The last place is looked at first, as text is typed there.
pub(crate) fn slot_of(mem: &Mem, parent: NodeId, id: NodeId) -> usize
    requires node { IsNode mem.now parent.index }
    requires stands { 0 < child_count id.index (entries (bare mem.now) parent.index) }
    ensures within { result < length (entries mem.now parent.index) }
    ensures few { result < 16 }
    ensures is { (e : Entry) → e ≡ slice_index_or (entries mem.now parent.index) result e → strip e ≡ Down id blank }
{
    let all = mem.len(parent);
    if all > 0 && is_node(mem.entry(parent, all - 1), id) {
        return all - 1;
    }
    for i in 0..all {
        if is_node(mem.entry(parent, i), id) {
            return i;
        }
    }
    unreachable!()
}

// Puts right the totals above a node whose entries have changed.
fn settle(mem: &mut Mem, root: NodeId, height: u32, from: NodeId)
    requires tree { IsShape (bare mem.old) height root.index }
    requires from { from.index < length mem.old.heads }
    requires exact { AreExactBut from.index mem.old }
    requires few { AreFew (counts_of (runs (bare mem.old) height root.index)) }
    ensures same { bare mem.new ≡ bare mem.old }
    ensures exact { AreExact mem.new }
{
    let mut node = from;
    let mut level = level_of(mem, from);
    while level < height {
        let totals = adds_up(mem, node);
        let parent = parent_of(mem, node);
        let slot = slot_of(mem, parent, node);
        set_entry(mem, parent, slot, Entry::Down(node, totals));
        node = parent;
        level += 1;
    }
}

// Puts right the totals above a node whose entries have come to so much more.
pub(crate) fn add_above(mem: &mut Mem, root: NodeId, height: u32, from: NodeId, more: Totals)
    requires tree { IsShape (bare mem.old) height root.index }
    requires from { from.index < length mem.old.heads }
    requires exact { AreExactBut from.index mem.old }
    requires more { Lacks from.index more mem.old }
    requires few { AreFew (counts_of (runs (bare mem.old) height root.index)) }
    ensures same { bare mem.new ≡ bare mem.old }
    ensures exact { AreExact mem.new }
{
    let mut node = from;
    let mut level = level_of(mem, from);
    while level < height {
        let parent = parent_of(mem, node);
        let slot = slot_of(mem, parent, node);
        add_to(mem, parent, slot, more);
        node = parent;
        level += 1;
    }
}

// Puts right the totals above a node whose entries have changed: by what they have come to more, where that is told.
pub(crate) fn settle_by(
    mem: &mut Mem,
    root: NodeId,
    height: u32,
    from: NodeId,
    grown: Option<Totals>,
)
    requires tree { IsShape (bare mem.old) height root.index }
    requires from { from.index < length mem.old.heads }
    requires exact { AreExactBut from.index mem.old }
    requires grown { ForSome grown (λ more. Lacks from.index more mem.old) }
    requires few { AreFew (counts_of (runs (bare mem.old) height root.index)) }
    ensures same { bare mem.new ≡ bare mem.old }
    ensures exact { AreExact mem.new }
{
    match grown {
        Some(more) => add_above(mem, root, height, from, more),
        None => settle(mem, root, height, from),
    }
}
