// Runs that are looked for first where one is known to stand.
ghost use Rattle.std.specs.Prelude.{◌≡◌, ◌+◌, ◌==◌, ◌<◌, ◌≤◌, IfSome, MatchOption, Some, length, slice_get, true};
ghost use Rattle.rt_nodes.specs.Nodes.{IsNode, entries};
ghost use Rattle.rt_tree.specs.declared.node.CountedBy.TheVariants.{Cells};
ghost use Rattle.rt_tree.specs.declared.node.Entry.TheVariants.{Here};
ghost use Rattle.rt_tree.specs.Holds.{Holds};
ghost use Rattle.rt_tree.specs.Shape.{IsTree, level_of, runs_before, tree_runs};
ghost use Rattle.rt_tree.specs.Sums.{AreFew, amount, counts_of, counts_of_run};
ghost use Rattle.rt_tree.specs.Walks.{IsBehind, IsSpot, StandsAt};

use crate::find::height;
use crate::looks::Counted;
use crate::node::{CountedBy, Counts, Entry, Mem, Run};
use crate::node_entry::read_entry;
use crate::sums::{amount, counts_of_run, plus};
use crate::up::rise_from;
use crate::walk::{Found, Spot, descend_by};
use rt_nodes::NodeId;

// How far into the run of a spot a place is, if it is in it.
#[inline(always)]
fn offset_in(found: &Found, by: CountedBy, place: usize) -> Option<usize>
    ensures { IfSome result (λ offset. (amount by found.now.before + offset ≡ place) × (offset < amount by (counts_of_run found.now.run))) }
{
    let offset = place.checked_sub(amount(by, found.before))?;
    if offset < amount(by, counts_of_run(found.run)) {
        Some(offset)
    } else {
        None
    }
}

// Whether the run that is known to stand somewhere has a place.
#[inline(always)]
pub(crate) fn is_in(last: &Option<Found>, by: CountedBy, place: usize) -> bool
    ensures { result ≡ true → MatchOption last.now ⊥
        (λ found. (amount by found.before ≤ place) × (place < amount by found.before + amount by (counts_of_run found.run))) }
{
    match last {
        Some(found) => offset_in(found, by, place).is_some(),
        None => false,
    }
}

// The spot in the run that was found, so far into it.
#[inline(always)]
fn moved(found: &Found, offset: usize) -> Found
    ensures spot { result.spot ≡ record { leaf = found.now.spot.leaf; entry = found.now.spot.entry; offset = offset } }
    ensures run { result.run ≡ found.now.run }
    ensures before { result.before ≡ found.now.before }
{
    let spot = Spot {
        offset,
        ..found.spot
    };
    Found { spot, ..*found }
}

// Whether a run that is known to stand somewhere ends at a place.
#[inline(always)]
fn ends_at(found: &Found, by: CountedBy, place: usize) -> bool
    ensures { result ≡ (amount by found.now.before + amount by (counts_of_run found.now.run) == place) }
{
    let before = amount(by, found.before);
    place >= before && place - before == amount(by, counts_of_run(found.run))
}

// The run behind one that is known to stand somewhere, if it stands in the same leaf.
#[inline(always)]
fn behind(mem: &Mem, root: NodeId, found: &Found) -> Option<Found>
    requires tree { IsTree mem.now root.index }
    requires few { AreFew (counts_of (tree_runs mem.now root.index)) }
    requires held { Holds mem.now root.index found.now }
    ensures { IfSome result (Holds mem.now root.index) }
{
    let leaf = found.spot.leaf;
    let all = mem.len(leaf);
    let entry = found.spot.entry + 1;
    if entry >= all {
        return None;
    }
    match read_entry(mem, leaf, entry) {
        Entry::Down(..) => None,
        Entry::Here(run) => {
            let before = plus(found.before, counts_of_run(found.run));
            let spot = Spot {
                leaf,
                entry,
                offset: 0,
            };
            Some(Found { spot, run, before })
        }
    }
}

// The run that has a place: one that is known to stand somewhere, or the one behind it in its leaf, if either has it. It is
// compiled into its callers, as what it answers is large.
#[inline(always)]
fn known(mem: &Mem, root: NodeId, found: &Found, by: CountedBy, place: usize) -> Option<Found>
    requires tree { IsTree mem.now root.index }
    requires few { AreFew (counts_of (tree_runs mem.now root.index)) }
    requires held { Holds mem.now root.index found.now }
    ensures spot { IfSome result (λ there. IsSpot mem.now root.index by place there.spot.leaf.index there.spot.entry there.spot.offset there.run) }
    ensures held { IfSome result (Holds mem.now root.index) }
{
    if let Some(offset) = offset_in(found, by, place) {
        return Some(moved(found, offset));
    }
    if !ends_at(found, by, place) {
        return None;
    }
    let next = behind(mem, root, found)?;
    let offset = offset_in(&next, by, place)?;
    Some(moved(&next, offset))
}

// The run that has a place, with the spot where it stands. It is compiled into its callers, since one that asks for no counts
// then adds none up.
#[inline(always)]
pub(crate) fn found_near(
    mem: &Mem,
    root: NodeId,
    last: &Option<Found>,
    by: CountedBy,
    place: usize,
) -> Found
    requires tree { IsTree mem.now root.index }
    requires few { AreFew (counts_of (tree_runs mem.now root.index)) }
    requires within { place < amount by (counts_of (tree_runs mem.now root.index)) }
    requires held { IfSome last.now (Holds mem.now root.index) }
    ensures spot { IsSpot mem.now root.index by place result.spot.leaf.index result.spot.entry result.spot.offset result.run }
    ensures run { StandsAt by (tree_runs mem.now root.index) result.run result.before result.spot.offset place }
    ensures held { Holds mem.now root.index result }
{
    if let Some(found) = last {
        if let Some(there) = known(mem, root, found, by, place) {
            return there;
        }
    }
    // For its clause alone: it bounds the levels, and so the looks.
    height(mem, root);
    let mut looks = 0;
    let looks = &mut looks;
    let mut sight = Counted { mem, looks };
    descend_by(&mut sight, root, by, place)
}

// The run that has a place. It is compiled into its callers too.
#[inline(always)]
pub(crate) fn run_near(
    mem: &Mem,
    root: NodeId,
    last: &Option<Found>,
    by: CountedBy,
    place: usize,
) -> Found
    requires tree { IsTree mem.now root.index }
    requires few { AreFew (counts_of (tree_runs mem.now root.index)) }
    requires within { place < amount by (counts_of (tree_runs mem.now root.index)) }
    requires held { IfSome last.now (Holds mem.now root.index) }
    ensures { StandsAt by (tree_runs mem.now root.index) result.run result.before result.spot.offset place }
{
    found_near(mem, root, last, by, place)
}

// A spot with its run.
#[derive(Clone, Copy)]
pub(crate) struct Seen {
    pub(crate) spot: Spot,
    pub(crate) run: Run,
}

// The run that has the cell at a position, with the spot where it stands. What is before it isn't counted.
#[inline(always)]
pub(crate) fn cell_near(mem: &Mem, root: NodeId, last: &Option<Found>, at: usize) -> Seen
    requires tree { IsTree mem.now root.index }
    requires few { AreFew (counts_of (tree_runs mem.now root.index)) }
    requires within { at < (counts_of (tree_runs mem.now root.index)).cells }
    requires held { IfSome last.now (Holds mem.now root.index) }
    ensures { IsSpot mem.now root.index Cells at result.spot.leaf.index result.spot.entry result.spot.offset result.run }
{
    let Found { spot, run, .. } = found_near(mem, root, last, CountedBy::Cells, at);
    Seen { spot, run }
}

// What the runs before an entry of a leaf count: as it is kept, if the run there is the one that is known, or by a walk up.
pub(crate) fn counts_before(mem: &Mem, root: NodeId, last: &Option<Found>, spot: Spot) -> Counts
    requires tree { IsTree mem.now root.index }
    requires few { AreFew (counts_of (tree_runs mem.now root.index)) }
    requires leaf { IsNode mem.now spot.leaf.index × (level_of mem.now spot.leaf.index ≡ 0) }
    requires within { spot.entry ≤ length (entries mem.now spot.leaf.index) }
    requires held { IfSome last.now (Holds mem.now root.index) }
    ensures { result ≡ counts_of (runs_before mem.now root.index spot.leaf.index spot.entry) }
{
    if let Some(found) = last {
        if found.spot.leaf.index == spot.leaf.index && found.spot.entry == spot.entry {
            return found.before;
        }
    }
    // For its clause alone: it bounds the levels, and so the looks.
    height(mem, root);
    let mut looks = 0;
    let looks = &mut looks;
    let mut sight = Counted { mem, looks };
    rise_from(&mut sight, root, spot.leaf, spot.entry)
}

// The run at an entry of a leaf, with its spot.
#[inline(always)]
pub(crate) fn found_at(mem: &Mem, root: NodeId, leaf: NodeId, entry: usize) -> Option<Found>
    requires tree { IsTree mem.now root.index }
    requires few { AreFew (counts_of (tree_runs mem.now root.index)) }
    requires leaf { IsNode mem.now leaf.index × (level_of mem.now leaf.index ≡ 0) }
    requires within { entry < length (entries mem.now leaf.index) }
    ensures held { IfSome result (Holds mem.now root.index) }
    ensures home { IfSome result (λ found. IsBehind (tree_runs mem.now root.index) found.run found.before) }
    ensures run { IfSome result (λ found. slice_get (entries mem.now leaf.index) entry ≡ Some (Here found.run)) }
{
    match read_entry(mem, leaf, entry) {
        Entry::Down(..) => None,
        Entry::Here(run) => {
            // For its clause alone: it bounds the levels, and so the looks.
            height(mem, root);
            let mut looks = 0;
            let looks = &mut looks;
            let mut sight = Counted { mem, looks };
            let before = rise_from(&mut sight, root, leaf, entry);
            let spot = Spot {
                leaf,
                entry,
                offset: 0,
            };
            Some(Found { spot, run, before })
        }
    }
}
