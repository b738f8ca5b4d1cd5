// A node's summary, made from its entries.
ghost use Rattle.std.specs.Prelude.{◌≡◌, ◌≢◌, ℕ, ◌+◌, ◌<◌, ◌≤◌, ◌^◌, ◌++◌, ◌∷◌, [], IfSome, List, false, length, take};
ghost use Rattle.std.specs.List.{AllByRecursion};
ghost use Rattle.rt_nodes.specs.Nodes.{IsNode, entries};
ghost use Rattle.rt_tags.specs.Borders.{HasRoomForAll};
ghost use Rattle.rt_tags.specs.States.{IsState};
ghost use Rattle.rt_tags.specs.Toggles.{count_of};
ghost use Rattle.rt_tree.specs.Shape.{all_below, level_of, runs};
ghost use Rattle.rt_tree.specs.Summaries.{HasSummary, HaveMemory, IsSummary, shown_states, summary_of};

use crate::node::{Entry, Mem, Run};
use crate::node_entry::read_entry;
use crate::summary::Summary;
use crate::summed::Summaries;
use rt_nodes::NodeId;
use rt_tags::StateTable;
use std::mem::swap;

// The characters of a run stand behind, if it is visible.
#[inline(always)]
fn add_run(summary: &mut Summary, states: &StateTable, run: &Run)
    requires last { IfSome summary.old.last (IsState states.now) }
    requires state { run.now.gone ≡ false → IsState states.now run.now.state }
    requires room { HasRoomForAll states.now summary.old.counts }
    requires few { (tag : ℕ) → count_of tag summary.old.counts + 2 < 2 ^ 32 }
    ensures added { (xs : List ℕ) → IsSummary states.now xs summary.old
        → IsSummary states.now (xs ++ shown_states (run.now ∷ [])) summary.new }
    ensures capacity { summary.new.counts.capacity ≡ summary.old.counts.capacity }
{
    if run.gone {
        return;
    }
    summary.push(states, run.state);
}

// The characters of one entry stand behind those of the entries before it.
#[inline(always)]
fn add_entry(
    summary: &mut Summary,
    each: &[Summary],
    states: &StateTable,
    mem: &Mem,
    node: NodeId,
    i: usize,
)
    requires node { IsNode mem.now node.index }
    requires within { i < length (entries mem.now node.index) }
    requires kids { AllByRecursion (HasSummary states.now mem.now (level_of mem.now node.index) each.now) (entries mem.now node.index) }
    requires given { AllByRecursion (IsState states.now) (shown_states (runs mem.now (level_of mem.now node.index) node.index)) }
    requires few { length (shown_states (runs mem.now (level_of mem.now node.index) node.index)) + 2 < 2 ^ 32 }
    requires room { length states.now.names ≤ summary.old.counts.capacity }
    requires before { IsSummary states.now (shown_states (all_below mem.now (level_of mem.now node.index) (take i (entries mem.now node.index))))
        summary.old }
    ensures added { IsSummary states.now (shown_states (all_below mem.now (level_of mem.now node.index) (take (i + 1) (entries mem.now node.index))))
        summary.new }
    ensures capacity { summary.new.counts.capacity ≡ summary.old.counts.capacity }
{
    match read_entry(mem, node, i) {
        Entry::Here(run) => add_run(summary, states, &run),
        Entry::Down(child, _) => summary.join(states, &each[child.index as usize]),
    }
}

// Makes the summary of a node: from its runs, or from the summaries of the nodes one level down.
pub(crate) fn gather(
    summary: &mut Summary,
    each: &[Summary],
    states: &StateTable,
    mem: &Mem,
    node: NodeId,
)
    requires node { IsNode mem.now node.index }
    requires kids { AllByRecursion (HasSummary states.now mem.now (level_of mem.now node.index) each.now) (entries mem.now node.index) }
    requires given { AllByRecursion (IsState states.now) (shown_states (runs mem.now (level_of mem.now node.index) node.index)) }
    requires few { length (shown_states (runs mem.now (level_of mem.now node.index) node.index)) + 2 < 2 ^ 32 }
    requires room { length states.now.names ≤ summary.old.counts.capacity }
    ensures gathered { IsSummary states.now (shown_states (runs mem.now (level_of mem.now node.index) node.index)) summary.new }
    ensures capacity { summary.new.counts.capacity ≡ summary.old.counts.capacity }
{
    summary.clear();
    for i in 0..mem.len(node) {
        add_entry(summary, each, states, mem, node, i);
    }
}

// Makes the summary of a node anew, where it is kept.
pub(crate) fn gather_at(sums: &mut Summaries, states: &StateTable, mem: &Mem, node: NodeId)
    requires node { IsNode mem.now node.index }
    requires within { node.index < length sums.old.each.items }
    requires kids { AllByRecursion (HasSummary states.now mem.now (level_of mem.now node.index) sums.old.each.items) (entries mem.now node.index) }
    requires given { AllByRecursion (IsState states.now) (shown_states (runs mem.now (level_of mem.now node.index) node.index)) }
    requires few { length (shown_states (runs mem.now (level_of mem.now node.index) node.index)) + 2 < 2 ^ 32 }
    requires memory { HaveMemory sums.old }
    requires tags { length states.now.names ≤ sums.old.tags }
    ensures gathered { IsSummary states.now (shown_states (runs mem.now (level_of mem.now node.index) node.index))
        (summary_of sums.new.each.items node.index) }
    ensures others { (id : ℕ) → id ≢ node.index → summary_of sums.new.each.items id ≡ summary_of sums.old.each.items id }
    ensures many { length sums.new.each.items ≡ length sums.old.each.items }
    ensures memory { HaveMemory sums.new }
    ensures tags { sums.new.tags ≡ sums.old.tags }
{
    gather(&mut sums.spare, &sums.each, states, mem, node);
    swap(&mut sums.spare, &mut sums.each[node.index as usize]);
}
