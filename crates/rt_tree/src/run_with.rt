// The run that has a stamp, where it isn't asked what stands before it.
ghost use Rattle.std.specs.Prelude.{◌≡◌, ◌+◌, ◌-◌, ◌<◌, IfSome, Some, length, min, slice_get, true};
ghost use Rattle.rt_nodes.specs.Nodes.{IsNode, entries};
ghost use Rattle.rt_tree.specs.declared.node.Counts.{Counts};
ghost use Rattle.rt_tree.specs.declared.node.Entry.TheVariants.{Here};
ghost use Rattle.rt_tree.specs.Holds.{Holds};
ghost use Rattle.rt_tree.specs.Homes.{IsRunSaid};
ghost use Rattle.rt_tree.specs.Runs.{IsRun, has_cell, run_cells};
ghost use Rattle.rt_tree.specs.Shape.{IsTree, tree_runs};
ghost use Rattle.rt_tree.specs.Walks.{IsBehind};

use crate::find::cell_in;
use crate::homes::{Homes, entry_with, is_leaf};
use crate::node::{Entry, Mem, Run};
use crate::node_entry::read_entry;
use crate::walk::Found;
use rt_nodes::NodeId;
use rt_stamps::Stamp;
use rt_store::CellRun;

// What is known of the run that has a stamp: no run has it, or this one has it, or nothing is known.
#[derive(Clone, Copy)]
pub(crate) enum SoughtRun {
    Nowhere,
    Is(Run),
    Unknown,
}

// The run at an entry of a node, if one is there.
#[inline(always)]
fn run_at(mem: &Mem, node: NodeId, entry: usize) -> Option<Run>
    requires { IsNode mem.now node.index × (entry < length (entries mem.now node.index)) }
    ensures { IfSome result (λ run. slice_get (entries mem.now node.index) entry ≡ Some (Here run)) }
{
    match read_entry(mem, node, entry) {
        Entry::Here(run) => Some(run),
        Entry::Down(..) => None,
    }
}

// The run of a node that has a stamp, if it is a leaf and has one.
#[inline(always)]
fn run_in(mem: &Mem, root: NodeId, leaf: NodeId, stamp: Stamp) -> Option<Run>
    requires { IsTree mem.now root.index }
    ensures stands { IfSome result (λ run. (front : Counts) × IsBehind (tree_runs mem.now root.index) run front) }
    ensures has { IfSome result (λ run. has_cell run stamp ≡ true) }
{
    if !is_leaf(mem, leaf) {
        return None;
    }
    let entry = entry_with(mem, leaf, stamp)?;
    run_at(mem, leaf, entry)
}

// The run that has a stamp: the one that is known to stand somewhere, or one of the leaf that the stamp has.
#[inline(always)]
pub(crate) fn run_with(
    homes: &Homes,
    mem: &Mem,
    root: NodeId,
    last: &Option<Found>,
    stamp: Stamp,
) -> SoughtRun
    requires tree { IsTree mem.now root.index }
    requires held { IfSome last.now (Holds mem.now root.index) }
    ensures { IsRunSaid (tree_runs mem.now root.index) homes.now.sure homes.now.leaves stamp result }
{
    if !homes.sure {
        return SoughtRun::Unknown;
    }
    if let Some(home) = homes.near(mem, root, last, stamp) {
        return SoughtRun::Is(home.run);
    }
    let Some(leaf) = homes.leaf_of(stamp) else {
        return SoughtRun::Nowhere;
    };
    match run_in(mem, root, leaf, stamp) {
        Some(run) => SoughtRun::Is(run),
        None => SoughtRun::Unknown,
    }
}

// The cell of a stamp that a run has, with the rest of the run up to a count.
pub(crate) fn rest_from(run: Run, text: &[char], stamp: Stamp, last: u64) -> CellRun
    requires run { IsRun text.now run }
    requires has { has_cell run stamp ≡ true }
    ensures cell { slice_get (run_cells text.now run) (stamp.count - run.first) ≡ Some result.cell }
    ensures last { result.last ≡ min last (run.first + (run.len - 1)) }
{
    let len = run.len as u64;
    let end = run.first + (len - 1);
    let cell = cell_in(text, &run, (stamp.count - run.first) as usize);
    CellRun {
        cell,
        last: last.min(end),
    }
}
