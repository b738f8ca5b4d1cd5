// Runs put in, and put in place of others.
ghost use Rattle.std.specs.Prelude.{◌≡◌, ◌≢◌, ℕ, ◌+◌, ◌*◌, ◌<◌, ◌≤◌, ◌^◌, IfSome, MatchOption, Some, insert, length, slice_get, true};
ghost use Rattle.rt_nodes.specs.Nodes.{IsNode, entries};
ghost use Rattle.rt_tags.specs.States.{IsState};
ghost use Rattle.rt_tree.specs.declared.node.Counts.{Counts};
ghost use Rattle.rt_tree.specs.declared.node.Entry.TheVariants.{Here};
ghost use Rattle.rt_tree.specs.declared.node.CountedBy.TheVariants.{Cells};
ghost use Rattle.rt_tree.specs.declared.node.Run.{Run};
ghost use Rattle.rt_tree.specs.declared.put.Known.TheVariants.{Behind, Nothing};
ghost use Rattle.rt_tree.specs.Changes.{AreExact, bare};
ghost use Rattle.rt_tree.specs.Holds.{HoldsAt, IsEndAt, IsHeld};
ghost use Rattle.rt_tree.specs.Homes.{AreHome, IsNew};
ghost use Rattle.rt_tree.specs.Shape.{AreFilled, IsShape, IsTree, ahead, level_of, runs, tree_runs};
ghost use Rattle.rt_tree.specs.Sharing.{AreKnown};
ghost use Rattle.rt_tree.specs.Standing.{AreHoused, Stands, StayBut};
ghost use Rattle.rt_tree.specs.Stretches.{IsEdge, lengths};
ghost use Rattle.rt_tree.specs.Summaries.{AreTold};
ghost use Rattle.rt_tree.specs.Sums.{AreFew, amount, counts_of, counts_of_run, plus};
ghost use Rattle.rt_tree.specs.Trees.{HasNodes};
ghost use Rattle.rt_tree.specs.Walks.{IsPutAt, IsReplacedAt, IsSpot, StandsAt};

use crate::homes::Homes;
use crate::looks::Counted;
use crate::node::{CountedBy, Entry, Mem, Run};
use crate::node_entry::read_entry;
use crate::resum::{insert_run, replace_run};
use crate::room::{Place, Top, make_room, top_room};
use crate::settle::level_of;
use crate::summed::Summaries;
use crate::walk::{Found, Spot, descend_by};
use rt_nodes::NodeId;
use rt_tags::StateTable;

// Puts a run in at a place of a leaf, the root having room, and tells the place where it now is.
#[inline(always)]
fn insert_at(
    mem: &mut Mem,
    sums: &mut Summaries,
    states: &StateTable,
    top: Top,
    place: Place,
    run: Run,
) -> Place
    requires tree { IsShape (bare mem.old) top.height top.root.index }
    requires exact { AreExact mem.old }
    requires filled { AreFilled mem.old top.root.index }
    requires few { AreFew (counts_of (runs (bare mem.old) top.height top.root.index)) }
    requires leaf { (place.leaf.index < length mem.old.heads) × (level_of (bare mem.old) place.leaf.index ≡ 0) }
    requires within { place.entry ≤ length (entries mem.old place.leaf.index) }
    requires root_room { length (entries mem.old top.root.index) < 16 }
    requires room { HasNodes mem.old (length (runs (bare mem.old) top.height top.root.index)) }
    requires still_few { AreFew (counts_of
        (insert (runs (bare mem.old) top.height top.root.index) (length (ahead (bare mem.old) top.height place.leaf.index) + place.entry) run)) }
    requires told { AreTold states.now mem.old sums.old (runs (bare mem.old) top.height top.root.index) }
    requires short { length (runs (bare mem.old) top.height top.root.index) + 5 < 2 ^ 32 }
    requires state { IsState states.now run.state }
    ensures tree { IsShape (bare mem.new) top.height top.root.index }
    ensures exact { AreExact mem.new }
    ensures filled { AreFilled mem.new top.root.index }
    ensures runs { runs (bare mem.new) top.height top.root.index
        ≡ insert (runs (bare mem.old) top.height top.root.index) (length (ahead (bare mem.old) top.height place.leaf.index) + place.entry) run }
    ensures stay { StayBut mem.old mem.new result.leaf.index run }
    ensures leaf { (result.leaf.index < length mem.new.heads) × (level_of (bare mem.new) result.leaf.index ≡ 0) }
    ensures here { slice_get (entries mem.new result.leaf.index) result.entry ≡ Some (Here run) }
    ensures place { length (ahead (bare mem.new) top.height result.leaf.index) + result.entry
        ≡ length (ahead (bare mem.old) top.height place.leaf.index) + place.entry }
    ensures longer { length mem.old.heads ≤ length mem.new.heads }
    ensures room { length mem.new.heads + mem.new.room ≡ length mem.old.heads + mem.old.room }
    ensures told { AreTold states.now mem.new sums.new (runs (bare mem.new) top.height top.root.index) }
    ensures tags { sums.new.tags ≡ sums.old.tags }
{
    let place = make_room(mem, sums, states, top, place);
    insert_run(mem, sums, states, top, place, run);
    place
}

// What is known of the cell at a position.
#[derive(Clone, Copy)]
pub(crate) enum Known {
    Nothing,
    // The spot of the cell before it, which is the last of its run.
    Behind(Spot),
    // The spot of the cell itself.
    At(Spot),
}

// What is known where the spot of the cell before may be, which is the last of its run.
#[inline(always)]
pub(crate) fn behind(end: Option<Spot>) -> Known
    ensures { MatchOption end (result ≡ Nothing) (λ spot. result ≡ Behind spot) }
{
    match end {
        None => Known::Nothing,
        Some(spot) => Known::Behind(spot),
    }
}

// The run that has the cell at a position, with the spot where it stands.
pub(crate) fn found_at(mem: &Mem, root: NodeId, at: usize) -> Found
    requires tree { IsTree mem.now root.index }
    requires few { AreFew (counts_of (tree_runs mem.now root.index)) }
    requires within { at < (counts_of (tree_runs mem.now root.index)).cells }
    ensures spot { IsSpot mem.now root.index Cells at result.spot.leaf.index result.spot.entry result.spot.offset result.run }
    ensures run { StandsAt Cells (tree_runs mem.now root.index) result.run result.before result.spot.offset at }
{
    // For its clause alone: it bounds the levels, and so the looks.
    crate::find::height(mem, root);
    let mut looks = 0;
    let looks = &mut looks;
    let mut sight = Counted { mem, looks };
    descend_by(&mut sight, root, CountedBy::Cells, at)
}

// The spot of the cell at a position.
fn spot_of(mem: &Mem, root: NodeId, at: usize) -> Spot
    requires tree { IsTree mem.now root.index }
    requires few { AreFew (counts_of (tree_runs mem.now root.index)) }
    requires within { at < (counts_of (tree_runs mem.now root.index)).cells }
    ensures { (run : Run) × IsSpot mem.now root.index Cells at result.leaf.index result.entry result.offset run }
{
    found_at(mem, root, at).spot
}

// The entry behind one of a leaf, if a run stands there. That runs have cells is not asked of the nodes here, so it is looked at.
#[inline(always)]
fn next_entry(mem: &Mem, spot: Spot) -> Option<usize>
    requires node { IsNode mem.now spot.leaf.index }
    requires within { spot.entry < length (entries mem.now spot.leaf.index) }
    ensures next { IfSome result (λ i. i ≡ spot.entry + 1) }
    ensures run { IfSome result (λ i. (run : Run) × (slice_get (entries mem.now spot.leaf.index) i ≡ Some (Here run)) × (0 < run.len)) }
{
    let all = mem.len(spot.leaf);
    let next = spot.entry + 1;
    if next >= all {
        return None;
    }
    match read_entry(mem, spot.leaf, next) {
        Entry::Down(..) => None,
        Entry::Here(run) => { if run.len > 0 { Some(next) } else { None } }
    }
}

// The spot of the cell at a position; `end` is that of the cell before it, which is the last of its run.
#[inline(always)]
fn spot_behind(mem: &Mem, root: NodeId, at: usize, end: Spot) -> Spot
    requires tree { IsTree mem.now root.index }
    requires few { AreFew (counts_of (tree_runs mem.now root.index)) }
    requires within { at < (counts_of (tree_runs mem.now root.index)).cells }
    requires end { IsEndAt mem.now root.index at end }
    ensures { (run : Run) × IsSpot mem.now root.index Cells at result.leaf.index result.entry result.offset run }
{
    match next_entry(mem, end) {
        None => spot_of(mem, root, at),
        Some(entry) => Spot {
            leaf: end.leaf,
            entry,
            offset: 0,
        },
    }
}

// The spot of the cell at a position, of which something may be known.
#[inline(always)]
fn spot_known(mem: &Mem, root: NodeId, at: usize, known: Known) -> Spot
    requires tree { IsTree mem.now root.index }
    requires few { AreFew (counts_of (tree_runs mem.now root.index)) }
    requires within { at < (counts_of (tree_runs mem.now root.index)).cells }
    requires known { HoldsAt mem.now root.index at known }
    ensures { (run : Run) × IsSpot mem.now root.index Cells at result.leaf.index result.entry result.offset run }
{
    match known {
        Known::Nothing => spot_of(mem, root, at),
        Known::Behind(end) => spot_behind(mem, root, at, end),
        Known::At(spot) => spot,
    }
}

// What was known, unless a new root was put above.
#[inline(always)]
fn still_known(known: Known, height: u32, top: &Top) -> Known
    ensures still { top.now.height ≡ height → result ≡ known }
    ensures dropped { top.now.height ≢ height → result ≡ Nothing }
{
    if top.height == height {
        known
    } else {
        Known::Nothing
    }
}

// The root after a run was put in, and the entry of a leaf that the run is.
#[derive(Clone, Copy)]
pub(crate) struct Placed {
    pub(crate) root: NodeId,
    pub(crate) leaf: NodeId,
    pub(crate) entry: usize,
}

// Puts a run in before the one that has the cell at a position. The root may now be another node.
#[inline(always)]
pub(crate) fn put(
    mem: &mut Mem,
    sums: &mut Summaries,
    states: &StateTable,
    root: NodeId,
    at: usize,
    known: Known,
    run: Run,
) -> Placed
    requires tree { IsTree mem.old root.index }
    requires within { at < (counts_of (tree_runs mem.old root.index)).cells }
    requires hint { HoldsAt mem.old root.index at known }
    requires few { AreFew (plus (counts_of_run run) (counts_of (tree_runs mem.old root.index))) }
    requires height { level_of mem.old root.index + 1 < 2 ^ 32 }
    requires room { HasNodes mem.old (length (tree_runs mem.old root.index)) }
    requires told { AreTold states.now mem.old sums.old (tree_runs mem.old root.index) }
    requires short { length (tree_runs mem.old root.index) + 5 < 2 ^ 32 }
    requires state { IsState states.now run.state }
    ensures tree { IsTree mem.new result.root.index }
    ensures runs { IsPutAt (tree_runs mem.old root.index) (tree_runs mem.new result.root.index) at run }
    ensures stay { StayBut mem.old mem.new result.leaf.index run }
    ensures there { Stands mem.new result.leaf.index run }
    ensures spot { IsEdge (lengths (tree_runs mem.old root.index)) at → 0 < run.len
        → IsSpot mem.new result.root.index Cells at result.leaf.index result.entry 0 run }
    ensures longer { length mem.old.heads ≤ length mem.new.heads }
    ensures room { length mem.new.heads + mem.new.room ≡ length mem.old.heads + mem.old.room }
    ensures told { AreTold states.now mem.new sums.new (tree_runs mem.new result.root.index) }
    ensures tags { sums.new.tags ≡ sums.old.tags }
{
    let height = level_of(mem, root);
    let top = top_room(mem, sums, states, root, height);
    let known = still_known(known, height, &top);
    let spot = spot_known(mem, top.root, at, known);
    let place = Place {
        leaf: spot.leaf,
        entry: spot.entry,
    };
    let place = insert_at(mem, sums, states, top, place, run);
    Placed {
        root: top.root,
        leaf: place.leaf,
        entry: place.entry,
    }
}

// A run that is put in before the one that has the cell at a position, and what is known of that cell. No cell that is there has
// a greater count than `newest`.
#[derive(Clone, Copy)]
pub(crate) struct NewRun {
    pub(crate) run: Run,
    pub(crate) at: usize,
    pub(crate) known: Known,
    pub(crate) newest: u64,
}

// Puts a run in, and tells where its stamps are.
#[inline(always)]
pub(crate) fn put_home(
    mem: &mut Mem,
    sums: &mut Summaries,
    states: &StateTable,
    root: NodeId,
    new: NewRun,
    homes: &mut Homes,
) -> NodeId
    requires tree { IsTree mem.old root.index }
    requires within { new.at < (counts_of (tree_runs mem.old root.index)).cells }
    requires hint { HoldsAt mem.old root.index new.at new.known }
    requires few { AreFew (plus (counts_of_run new.run) (counts_of (tree_runs mem.old root.index))) }
    requires height { level_of mem.old root.index + 1 < 2 ^ 32 }
    requires room { HasNodes mem.old (length (tree_runs mem.old root.index)) }
    requires counts { new.run.first + new.run.len ≤ 2 ^ 64 }
    requires known { AreKnown new.newest (tree_runs mem.old root.index) }
    requires home { homes.old.sure ≡ true → AreHome homes.old.leaves (tree_runs mem.old root.index) }
    requires housed { homes.old.sure ≡ true → AreHoused mem.old root.index homes.old.leaves }
    requires left { 0 < homes.old.left }
    requires told { AreTold states.now mem.old sums.old (tree_runs mem.old root.index) }
    requires short { length (tree_runs mem.old root.index) + 5 < 2 ^ 32 }
    requires state { IsState states.now new.run.state }
    ensures tree { IsTree mem.new result.index }
    ensures runs { IsPutAt (tree_runs mem.old root.index) (tree_runs mem.new result.index) new.at new.run }
    ensures room { length mem.new.heads + mem.new.room ≡ length mem.old.heads + mem.old.room }
    ensures home { homes.new.sure ≡ true → AreHome homes.new.leaves (tree_runs mem.new result.index) }
    ensures housed { homes.new.sure ≡ true → AreHoused mem.new result.index homes.new.leaves }
    ensures left { homes.old.left ≤ homes.new.left + 1 }
    ensures sure { homes.old.sure ≡ true → IsNew new.run (tree_runs mem.old root.index) → 0 < new.run.len → new.run.first + new.run.len < 2 ^ 64
        → homes.new.sure ≡ true }
    ensures told { AreTold states.now mem.new sums.new (tree_runs mem.new result.index) }
    ensures tags { sums.new.tags ≡ sums.old.tags }
{
    let is_new = homes.is_new(new.newest, &new.run);
    let nodes = mem.nodes();
    let placed = put(mem, sums, states, root, new.at, new.known, new.run);
    homes.enter(&new.run, placed.leaf, is_new);
    homes.note_new(mem, nodes);
    placed.root
}

// Puts a run in place of the one at a spot.
pub(crate) fn replace_at(
    mem: &mut Mem,
    sums: &mut Summaries,
    states: &StateTable,
    root: NodeId,
    spot: Spot,
    run: Run,
)
    requires tree { IsTree mem.old root.index }
    requires spot { (at : ℕ) × (before : Run) × IsSpot mem.old root.index Cells at spot.leaf.index spot.entry spot.offset before }
    requires few { AreFew (plus (counts_of_run run) (counts_of (tree_runs mem.old root.index))) }
    requires told { AreTold states.now mem.old sums.old (tree_runs mem.old root.index) }
    requires short { length (tree_runs mem.old root.index) + 5 < 2 ^ 32 }
    requires state { IsState states.now run.state }
    ensures tree { IsTree mem.new root.index }
    ensures runs { (at : ℕ) (before : Run) → IsSpot mem.old root.index Cells at spot.leaf.index spot.entry spot.offset before
        → IsReplacedAt (tree_runs mem.old root.index) (tree_runs mem.new root.index) at run }
    ensures stay { StayBut mem.old mem.new spot.leaf.index run }
    ensures held { (before : Run) (front : Counts) → IsHeld mem.old root.index spot.leaf.index spot.entry before front
        → IsHeld mem.new root.index spot.leaf.index spot.entry run front }
    ensures room { (mem.new.room ≡ mem.old.room) × (length mem.new.heads ≡ length mem.old.heads) }
    ensures told { AreTold states.now mem.new sums.new (tree_runs mem.new root.index) }
    ensures tags { sums.new.tags ≡ sums.old.tags }
{
    let height = level_of(mem, root);
    let place = Place {
        leaf: spot.leaf,
        entry: spot.entry,
    };
    replace_run(mem, sums, states, Top { root, height }, place, run);
}
