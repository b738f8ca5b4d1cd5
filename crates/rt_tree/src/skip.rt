// The first run from a position on whose stamp isn't greater than a new one.
ghost use Rattle.std.specs.Prelude.{◌≡◌, ◌<◌, ◌^◌, not, [], ◌∷◌, length, slice_index_or};
ghost use Rattle.std.specs.List.{AllByRecursion};
ghost use Rattle.rt_nodes.specs.Nodes.{IsNode, entries};
ghost use Rattle.rt_stamps.specs.Stamps.{is_before};
ghost use Rattle.rt_tree.specs.declared.node.Entry.{Entry};
ghost use Rattle.rt_tree.specs.Shape.{IsTree, below, level_of, runs};
ghost use Rattle.rt_tree.specs.Skips.{HasCells, are_passed, passed};
ghost use Rattle.rt_tree.specs.Sums.{counts_of};

use crate::node::{Entry, Mem, Run, Totals};
use crate::node_entry::read_entry;
use crate::sums::entry_counts;
use crate::totals::least_of;
use rt_nodes::NodeId;
use rt_stamps::Stamp;

// Whether a stamp isn't greater than a new one.
pub(crate) fn is_low(stamp: Stamp, new: Stamp) -> bool
    ensures { result ≡ not (is_before new stamp) }
{
    stamp <= new
}

// Whether runs are passed whole, as their totals tell.
fn are_passed(totals: Totals, from: usize, new: Stamp) -> bool
    ensures { result ≡ are_passed from new totals }
{
    totals.counts.cells as usize <= from || from == 0 && !is_low(least_of(totals), new)
}

// How many cells of one run are passed.
fn run_passed(run: Run, from: usize, new: Stamp) -> usize
    ensures { result ≡ passed from new (run ∷ []) }
{
    let first = Stamp {
        count: run.first,
        site: run.site,
    };
    if from == 0 && is_low(first, new) {
        0
    } else {
        run.len as usize
    }
}

// How many cells of an entry's runs are passed. Where its totals tell, nothing below is looked at.
#[cycle(passed)]
fn entry_passed(mem: &Mem, root: NodeId, node: NodeId, i: usize, from: usize, new: Stamp) -> usize
    requires tree { IsTree mem.now root.index }
    requires node { IsNode mem.now node.index }
    requires within { i < length (entries mem.now node.index) }
    requires some { AllByRecursion HasCells (runs mem.now (level_of mem.now node.index) node.index) }
    requires few { (counts_of (runs mem.now (level_of mem.now node.index) node.index)).cells < 2 ^ 32 }
    ensures { (e : Entry) → e ≡ slice_index_or (entries mem.now node.index) i e
        → result ≡ passed from new (below mem.now (level_of mem.now node.index) e) }
{
    match read_entry(mem, node, i) {
        Entry::Here(run) => run_passed(run, from, new),
        Entry::Down(_, totals) if are_passed(totals, from, new) => totals.counts.cells as usize,
        Entry::Down(child, _) => passed(mem, root, child, from, new),
    }
}

// How many cells of a node's runs stand before the first that begins so many cells on, or further, and whose stamp isn't
// greater than a new one; all of them, if there is none. At most two nodes a level are gone through.
#[cycle(passed)]
pub(crate) fn passed(mem: &Mem, root: NodeId, node: NodeId, from: usize, new: Stamp) -> usize
    requires tree { IsTree mem.now root.index }
    requires node { IsNode mem.now node.index }
    requires some { AllByRecursion HasCells (runs mem.now (level_of mem.now node.index) node.index) }
    requires few { (counts_of (runs mem.now (level_of mem.now node.index) node.index)).cells < 2 ^ 32 }
    ensures { result ≡ passed from new (runs mem.now (level_of mem.now node.index) node.index) }
{
    let mut done = 0;
    for i in 0..mem.len(node) {
        let cells = entry_counts(mem.entry(node, i)).cells as usize;
        let inside = entry_passed(mem, root, node, i, from.saturating_sub(done), new);
        done += inside;
        if inside < cells {
            return done;
        }
    }
    done
}
