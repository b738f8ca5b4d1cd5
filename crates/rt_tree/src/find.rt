// Runs by what is counted, in the nodes of a tree.
ghost use Rattle.std.specs.Prelude.{◌≡◌, ◌+◌, ◌*◌, ◌<◌, ◌≤◌, ◌^◌, length, take, slice_get, Some};
ghost use Rattle.rt_nodes.specs.Nodes.{IsNode, entries};
ghost use Rattle.rt_tree.specs.Runs.{IsRun, first_stamp, has_cell, run_cells};
ghost use Rattle.rt_tree.specs.Shape.{IsTree, level_of, sum_of, tree_runs};
ghost use Rattle.rt_tree.specs.Sums.{AreFew, amount, counts_of};
ghost use Rattle.rt_tree.specs.Walks.{StandsAt};

use crate::looks::Counted;
use crate::node::{CountedBy, Counts, Mem, Run};
use crate::sums::{entry_counts, no_counts, plus};
use crate::walk::{Found, descend_by};
use rt_nodes::NodeId;
use rt_stamps::Stamp;
use rt_store::Cell;
use rt_tags::StateId;

// What the entries of a node count.
pub(crate) fn sum_of(mem: &Mem, id: NodeId) -> Counts
    requires node { IsNode mem.now id.index }
    requires few { AreFew (sum_of (entries mem.now id.index)) }
    ensures { result ≡ sum_of (entries mem.now id.index) }
{
    let mut sum = no_counts();
    for i in 0..mem.len(id) {
        sum = plus(sum, entry_counts(mem.entry(id, i)));
    }
    sum
}

// How many cells the runs of a tree have.
pub(crate) fn cells_of(mem: &Mem, root: NodeId) -> usize
    requires tree { IsTree mem.now root.index }
    requires few { AreFew (counts_of (tree_runs mem.now root.index)) }
    ensures { result ≡ (counts_of (tree_runs mem.now root.index)).cells }
{
    sum_of(mem, root).cells as usize
}

// How many levels of nodes there are.
pub(crate) fn height(mem: &Mem, root: NodeId) -> usize
    requires { IsNode mem.now root.index }
    ensures value { result ≡ level_of mem.now root.index + 1 }
    ensures bound { result ≤ 2 ^ 32 }
{
    mem.head(root).level as usize + 1
}

// The run that has a place, with so many looks at entries.
pub(crate) fn find(mem: &Mem, root: NodeId, by: CountedBy, place: usize, looks: &mut u64) -> Found
    requires tree { IsTree mem.now root.index }
    requires few { AreFew (counts_of (tree_runs mem.now root.index)) }
    requires within { place < amount by (counts_of (tree_runs mem.now root.index)) }
    requires room { looks.old + 16 * (level_of mem.now root.index + 1) < 2 ^ 64 }
    ensures run { StandsAt by (tree_runs mem.now root.index) result.run result.before result.spot.offset place }
    ensures counted { looks.old + (level_of mem.now root.index + 1) ≤ looks.new }
    ensures cost { looks.new ≤ looks.old + 16 * (level_of mem.now root.index + 1) }
{
    let mut sight = Counted { mem, looks };
    descend_by(&mut sight, root, by, place)
}

// The run that has a place.
pub(crate) fn run_at(mem: &Mem, root: NodeId, by: CountedBy, place: usize) -> Found
    requires tree { IsTree mem.now root.index }
    requires few { AreFew (counts_of (tree_runs mem.now root.index)) }
    requires within { place < amount by (counts_of (tree_runs mem.now root.index)) }
    ensures { StandsAt by (tree_runs mem.now root.index) result.run result.before result.spot.offset place }
{
    // For its clause alone: it bounds the levels, and so the looks.
    height(mem, root);
    let mut looks = 0;
    find(mem, root, by, place, &mut looks)
}

// The cell so many places into a run.
pub(crate) fn cell_in(text: &[char], run: &Run, offset: usize) -> Cell<StateId>
    requires run { IsRun text.now run.now }
    requires within { offset < run.now.len }
    ensures { slice_get (run_cells text.now run.now) offset ≡ Some result }
{
    let stamp = Stamp {
        count: run.first + offset as u64,
        site: run.site,
    };
    Cell {
        stamp,
        ch: text[run.at as usize + offset],
        gone: run.gone,
        state: run.state,
    }
}

// Whether a stamp is one of a run's cells'.
pub(crate) fn has(run: Run, stamp: Stamp) -> bool
    ensures { result ≡ has_cell run stamp }
{
    run.site == stamp.site && run.first <= stamp.count && stamp.count - run.first < run.len as u64
}

// The stamp of a run's first cell.
pub(crate) fn first_stamp(run: &Run) -> Stamp
    ensures { result ≡ first_stamp run.now }
{
    Stamp {
        count: run.first,
        site: run.site,
    }
}
