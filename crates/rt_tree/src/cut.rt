// Runs cut in two.
ghost use Rattle.std.specs.Prelude.{◌≡◌, ◌+◌, ◌<◌, ◌≤◌, ◌^◌, ◌&&◌, nat_lt, length, true, IfSome, MatchOption, None};
ghost use Rattle.std.specs.List.{AllByRecursion};
ghost use Rattle.rt_stamps.specs.declared.limits.TheConstants.{MOST_CELLS};
ghost use Rattle.rt_tree.specs.Holds.{Holds, IsEndAt};
ghost use Rattle.rt_tree.specs.Homes.{AreHome};
ghost use Rattle.rt_tree.specs.Runs.{has_cell};
ghost use Rattle.rt_tree.specs.Shape.{IsTree, tree_runs};
ghost use Rattle.rt_tree.specs.Sharing.{AreApart, AreParts, BeginsAt, IsInside, IsRecut};
ghost use Rattle.rt_tree.specs.Standing.{AreHoused, IsParted};
ghost use Rattle.rt_tree.specs.Stretches.{AreRunsOfText, IsEdge, back_of, front_of, lengths};
ghost use Rattle.rt_tree.specs.Summaries.{AreTold};
ghost use Rattle.rt_tree.specs.Sums.{counts_of};
ghost use Rattle.rt_tree.specs.Trees.{HasNodes};

use crate::find::{cells_of, has, run_at, sum_of};
use crate::homes::Homes;
use crate::near::found_near;
use crate::node::{CountedBy, Mem, Run};
use crate::put::{Known, put, replace_at};
use crate::summed::Summaries;
use crate::walk::{Found, Spot};
use rt_nodes::NodeId;
use rt_stamps::Stamp;
use rt_tags::StateTable;

// The root after a change, and how many runs were put in.
#[derive(Clone, Copy)]
pub(crate) struct RootChange {
    pub(crate) root: NodeId,
    pub(crate) more: usize,
}

// The root after a change, the run that was put in with the leaf where it stands, if there is one, and the spot of its last cell.
#[derive(Clone, Copy)]
pub(crate) struct Parted {
    pub(crate) change: RootChange,
    pub(crate) front: Option<Front>,
    pub(crate) end: Option<Spot>,
}

// The first cells of a run that was cut in two, and the leaf in which they stand.
#[derive(Clone, Copy)]
pub(crate) struct Front {
    pub(crate) run: Run,
    pub(crate) leaf: NodeId,
}

// No run was put in.
fn uncut(root: NodeId) -> Parted
    ensures { result ≡ record { change = record { root = root; more = 0 }; front = None; end = None } }
{
    Parted {
        change: RootChange { root, more: 0 },
        front: None,
        end: None,
    }
}

// The first cells of a run.
fn front_of(run: Run, count: u32) -> Run
    ensures { result ≡ front_of count run }
{
    Run {
        len: count,
        newline: false,
        ..run
    }
}

// The others.
fn back_of(run: Run, count: u32) -> Run
    requires count { count < run.len }
    requires fits { (run.first + count < 2 ^ 64) × (run.at + count < 2 ^ 32) }
    ensures { result ≡ back_of count run }
{
    Run {
        first: run.first + count as u64,
        at: run.at + count,
        len: run.len - count,
        ..run
    }
}

// The spot of the first cell of a spot's run.
fn begin_of(spot: Spot) -> Spot
    ensures { result ≡ record spot { offset = 0 } }
{
    Spot { offset: 0, ..spot }
}

// Sees to it that a run begins or ends at a position; `last` is a run that is known to stand somewhere.
pub(crate) fn cut(
    mem: &mut Mem,
    sums: &mut Summaries,
    states: &StateTable,
    root: NodeId,
    at: usize,
    last: &Option<Found>,
) -> Parted
    requires tree { IsTree mem.old root.index }
    requires kept { AreRunsOfText (tree_runs mem.old root.index) }
    requires few { (counts_of (tree_runs mem.old root.index)).cells ≤ MOST_CELLS }
    requires within { at ≤ (counts_of (tree_runs mem.old root.index)).cells }
    requires room { HasNodes mem.old (length (tree_runs mem.old root.index)) }
    requires held { IfSome last.now (Holds mem.old root.index) }
    requires told { AreTold states.now mem.old sums.old (tree_runs mem.old root.index) }
    ensures tree { IsTree mem.new result.change.root.index }
    ensures recut { IsRecut (tree_runs mem.old root.index) (tree_runs mem.new result.change.root.index) }
    ensures edge { IsEdge (lengths (tree_runs mem.new result.change.root.index)) at }
    ensures parts { AreParts (tree_runs mem.old root.index) (tree_runs mem.new result.change.root.index) at }
    ensures runs { length (tree_runs mem.new result.change.root.index) ≡ length (tree_runs mem.old root.index) + result.change.more }
    ensures more { result.change.more ≤ 1 }
    ensures still { result.front ≡ None → (mem.new ≡ mem.old) × (result.change.root ≡ root) }
    ensures end { IfSome result.end (IsEndAt mem.new result.change.root.index at) }
    ensures parted { IfSome result.front (λ front. IsParted mem.old mem.new root.index result.change.root.index front.run front.leaf.index) }
    ensures room { length mem.new.heads + mem.new.room ≡ length mem.old.heads + mem.old.room }
    ensures told { AreTold states.now mem.new sums.new (tree_runs mem.new result.change.root.index) }
    ensures tags { sums.new.tags ≡ sums.old.tags }
{
    if at == 0 {
        return uncut(root);
    }
    if at == sum_of(mem, root).cells as usize {
        return uncut(root);
    }
    let found = found_near(mem, root, last, CountedBy::Cells, at);
    let offset = found.spot.offset;
    if offset == 0 {
        return uncut(root);
    }
    let back = back_of(found.run, offset as u32);
    let front = front_of(found.run, offset as u32);
    let first = front;
    replace_at(mem, sums, states, root, found.spot, back);
    let known = Known::At(begin_of(found.spot));
    let placed = put(mem, sums, states, root, at - offset, known, first);
    let end = Spot {
        leaf: placed.leaf,
        entry: placed.entry,
        offset: offset - 1,
    };
    Parted {
        change: RootChange {
            root: placed.root,
            more: 1,
        },
        front: Some(Front {
            run: front,
            leaf: placed.leaf,
        }),
        end: Some(end),
    }
}

// The gap before the cell at a position, in which a run is to end or begin, and what is known of it.
#[derive(Clone, Copy)]
pub(crate) struct CutPlace<'a> {
    pub(crate) at: usize,
    // Whether a run is known to end or begin there.
    pub(crate) is_edge: bool,
    // The spot of the last cell of the run that ends there, where this is known.
    pub(crate) end: Option<Spot>,
    // A run that is known to stand somewhere.
    pub(crate) last: &'a Option<Found>,
}

// The root after a cut, how many runs were put in, and the spot of the last cell of the run that ends there, if that is known.
#[derive(Clone, Copy)]
pub(crate) struct CutEnd {
    pub(crate) change: RootChange,
    pub(crate) end: Option<Spot>,
}

// Cuts, and tells where the stamps are of runs that are in another leaf now. Nothing is done where a run is known to begin or
// end at the position.
#[inline(always)]
pub(crate) fn cut_home(
    mem: &mut Mem,
    sums: &mut Summaries,
    states: &StateTable,
    root: NodeId,
    gap: &CutPlace<'_>,
    homes: &mut Homes,
) -> CutEnd
    requires tree { IsTree mem.old root.index }
    requires kept { AreRunsOfText (tree_runs mem.old root.index) }
    requires few { (counts_of (tree_runs mem.old root.index)).cells ≤ MOST_CELLS }
    requires within { gap.now.at ≤ (counts_of (tree_runs mem.old root.index)).cells }
    requires room { HasNodes mem.old (length (tree_runs mem.old root.index)) }
    requires home { homes.old.sure ≡ true → AreHome homes.old.leaves (tree_runs mem.old root.index) }
    requires housed { homes.old.sure ≡ true → AreHoused mem.old root.index homes.old.leaves }
    requires left { 0 < homes.old.left }
    requires edge { gap.now.is_edge ≡ true → IsEdge (lengths (tree_runs mem.old root.index)) gap.now.at }
    requires end { IfSome gap.now.end (IsEndAt mem.old root.index gap.now.at) }
    requires held { IfSome gap.now.last.now (Holds mem.old root.index) }
    requires told { AreTold states.now mem.old sums.old (tree_runs mem.old root.index) }
    ensures tree { IsTree mem.new result.change.root.index }
    ensures recut { IsRecut (tree_runs mem.old root.index) (tree_runs mem.new result.change.root.index) }
    ensures edge { IsEdge (lengths (tree_runs mem.new result.change.root.index)) gap.now.at }
    ensures parts { AreParts (tree_runs mem.old root.index) (tree_runs mem.new result.change.root.index) gap.now.at }
    ensures runs { length (tree_runs mem.new result.change.root.index) ≡ length (tree_runs mem.old root.index) + result.change.more }
    ensures more { result.change.more ≤ 1 }
    ensures room { length mem.new.heads + mem.new.room ≡ length mem.old.heads + mem.old.room }
    ensures home { homes.new.sure ≡ true → AreHome homes.new.leaves (tree_runs mem.new result.change.root.index) }
    ensures housed { homes.new.sure ≡ true → AreHoused mem.new result.change.root.index homes.new.leaves }
    ensures left { homes.old.left ≤ homes.new.left + 1 }
    ensures sure { homes.new.sure ≡ homes.old.sure }
    ensures told { AreTold states.now mem.new sums.new (tree_runs mem.new result.change.root.index) }
    ensures tags { sums.new.tags ≡ sums.old.tags }
    ensures end { IfSome result.end (IsEndAt mem.new result.change.root.index gap.now.at) }
    ensures still { gap.now.is_edge ≡ true → (mem.new ≡ mem.old) × (result.change.root ≡ root) }
{
    if gap.is_edge {
        return CutEnd {
            change: RootChange { root, more: 0 },
            end: gap.end,
        };
    }
    let nodes = mem.nodes();
    let Parted { change, front, end } = cut(mem, sums, states, root, gap.at, gap.last);
    if let Some(front) = front {
        homes.place(&front.run, front.leaf);
        homes.note_new(mem, nodes);
    }
    CutEnd { change, end }
}

// Whether a run has a stamp and doesn't begin with it.
fn is_within(run: &Run, stamp: Stamp) -> bool
    ensures { result ≡ (has_cell run.now stamp && nat_lt run.now.first stamp.count) }
{
    has(*run, stamp) && run.first < stamp.count
}

// The position of the cell of a stamp that a run has and doesn't begin with; none if no run has it so.
fn inside(mem: &Mem, root: NodeId, stamp: Stamp, homes: &Homes) -> Option<usize>
    requires home { homes.now.sure ≡ true → AreHome homes.now.leaves (tree_runs mem.now root.index) }
    requires tree { IsTree mem.now root.index }
    requires kept { AreRunsOfText (tree_runs mem.now root.index) }
    requires few { (counts_of (tree_runs mem.now root.index)).cells ≤ MOST_CELLS }
    ensures { MatchOption result (AllByRecursion (BeginsAt stamp) (tree_runs mem.now root.index))
        (λ at. IsInside (tree_runs mem.now root.index) stamp at) }
{
    let leaf = homes.leaf_of(stamp);
    if homes.is_nowhere(leaf) {
        return None;
    }
    if let Some(home) = homes.locate(mem, root, leaf, stamp) {
        return home.inside(stamp);
    }
    inside_by_walk(mem, root, stamp)
}

// What `inside` finds, by a walk from run to run.
fn inside_by_walk(mem: &Mem, root: NodeId, stamp: Stamp) -> Option<usize>
    requires tree { IsTree mem.now root.index }
    requires kept { AreRunsOfText (tree_runs mem.now root.index) }
    requires few { (counts_of (tree_runs mem.now root.index)).cells ≤ MOST_CELLS }
    ensures { MatchOption result (AllByRecursion (BeginsAt stamp) (tree_runs mem.now root.index))
        (λ at. IsInside (tree_runs mem.now root.index) stamp at) }
{
    let all = cells_of(mem, root);
    let mut at = 0;
    while at < all {
        let found = run_at(mem, root, CountedBy::Cells, at);
        if is_within(&found.run, stamp) {
            return Some(at + (stamp.count - found.run.first) as usize);
        }
        at += found.run.len as usize;
    }
    None
}

// Sees to it that each run which has a stamp begins with it: of more than one cell only one run can have it.
pub(crate) fn part(
    mem: &mut Mem,
    sums: &mut Summaries,
    states: &StateTable,
    root: NodeId,
    stamp: Stamp,
    homes: &mut Homes,
) -> RootChange
    requires home { homes.old.sure ≡ true → AreHome homes.old.leaves (tree_runs mem.old root.index) }
    requires housed { homes.old.sure ≡ true → AreHoused mem.old root.index homes.old.leaves }
    requires left { 0 < homes.old.left }
    requires tree { IsTree mem.old root.index }
    requires kept { AreRunsOfText (tree_runs mem.old root.index) }
    requires apart { AreApart (tree_runs mem.old root.index) }
    requires few { (counts_of (tree_runs mem.old root.index)).cells ≤ MOST_CELLS }
    requires room { HasNodes mem.old (length (tree_runs mem.old root.index)) }
    requires told { AreTold states.now mem.old sums.old (tree_runs mem.old root.index) }
    ensures home { homes.new.sure ≡ true → AreHome homes.new.leaves (tree_runs mem.new result.root.index) }
    ensures housed { homes.new.sure ≡ true → AreHoused mem.new result.root.index homes.new.leaves }
    ensures left { homes.old.left ≤ homes.new.left + 1 }
    ensures sure { homes.new.sure ≡ homes.old.sure }
    ensures tree { IsTree mem.new result.root.index }
    ensures recut { IsRecut (tree_runs mem.old root.index) (tree_runs mem.new result.root.index) }
    ensures begins { AllByRecursion (BeginsAt stamp) (tree_runs mem.new result.root.index) }
    ensures runs { length (tree_runs mem.new result.root.index) ≡ length (tree_runs mem.old root.index) + result.more }
    ensures more { result.more ≤ 1 }
    ensures room { length mem.new.heads + mem.new.room ≡ length mem.old.heads + mem.old.room }
    ensures told { AreTold states.now mem.new sums.new (tree_runs mem.new result.root.index) }
    ensures tags { sums.new.tags ≡ sums.old.tags }
{
    match inside(mem, root, stamp, homes) {
        None => RootChange { root, more: 0 },
        Some(at) => {
            let last = None;
            let gap = CutPlace {
                at,
                is_edge: false,
                end: None,
                last: &last,
            };
            cut_home(mem, sums, states, root, &gap, homes).change
        }
    }
}
