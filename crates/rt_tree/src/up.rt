// Walks from a leaf up to the root.
ghost use Rattle.std.specs.Prelude.{◌≡◌, ℕ, ◌+◌, ◌-◌, ◌*◌, ◌<◌, ◌≤◌, ◌^◌, if◌then◌else◌, false, true, length, take, slice_get, IfSome, None, Some};
ghost use Rattle.rt_nodes.specs.Nodes.{IsNode, entries};
ghost use Rattle.rt_tree.specs.declared.node.Entry.TheVariants.{Here};
ghost use Rattle.rt_tree.specs.declared.node.Run.{Run};
ghost use Rattle.rt_tree.specs.Shape.{IsTree, child_count, is_of, left_of, level_of, runs_before, sum_of, tree_runs};
ghost use Rattle.rt_tree.specs.Sums.{AreFew, counts_of, plus};
ghost use Rattle.rt_tree.specs.Runs.{has_cell};
ghost use Rattle.rt_tree.specs.Walks.{IsBehind, IsPlaceIn};

use crate::find::has;
use crate::looks::Looks;
use crate::node::{Counts, Entry, Run};
use crate::node_entry::NodeEntry;
use crate::sums::{entry_counts, no_counts, plus};
use rt_nodes::NodeId;
use rt_stamps::Stamp;

// What the first entries of a node count.
#[inline(always)]
fn first_counts<L: Looks>(looks: &mut L, node: NodeId, count: usize) -> Counts
    requires node { IsNode (L.nodes looks.old) node.index }
    requires within { count ≤ length (entries (L.nodes looks.old) node.index) }
    requires few { AreFew (sum_of (take count (entries (L.nodes looks.old) node.index))) }
    requires room { L.looked looks.old + 16 < 2 ^ 64 }
    ensures value { result ≡ sum_of (take count (entries (L.nodes looks.old) node.index)) }
    ensures cost { L.looked looks.new ≤ L.looked looks.old + 16 }
    ensures same { L.nodes looks.new ≡ L.nodes looks.old }
    ensures kept { L.summaries looks.new ≡ L.summaries looks.old }
    ensures lent { L.counter looks.new ≡ L.counter looks.old }
{
    let mut counts = no_counts();
    for index in 0..looks.len(node) {
        if index == count {
            return counts;
        }
        counts = plus(counts, entry_counts(&looks.look(node, index, None).entry));
    }
    counts
}

// What stands before a node in its parent counts, together with so much more.
#[inline(always)]
fn counts_with_left<L: Looks>(looks: &mut L, parent: NodeId, node: NodeId, more: Counts) -> Counts
    requires parent { IsNode (L.nodes looks.old) parent.index }
    requires child { 0 < child_count node.index (entries (L.nodes looks.old) parent.index) }
    requires few { AreFew (plus more (sum_of (left_of node.index (entries (L.nodes looks.old) parent.index)))) }
    requires room { L.looked looks.old + 16 < 2 ^ 64 }
    ensures value { result ≡ plus more (sum_of (left_of node.index (entries (L.nodes looks.old) parent.index))) }
    ensures counted { L.looked looks.old + 1 ≤ L.looked looks.new }
    ensures cost { L.looked looks.new ≤ L.looked looks.old + 16 }
    ensures same { L.nodes looks.new ≡ L.nodes looks.old }
    ensures kept { L.summaries looks.new ≡ L.summaries looks.old }
    ensures lent { L.counter looks.new ≡ L.counter looks.old }
{
    let mut counts = more;
    for index in 0..looks.len(parent) {
        let entry = looks.look(parent, index, None).entry;
        if is_node(&entry, node) {
            return counts;
        }
        counts = plus(counts, entry_counts(&entry));
    }
    unreachable!()
}

// How many first entries of a leaf there are, and what they count.
#[derive(Clone, Copy)]
struct First {
    entry: usize,
    counts: Counts,
}

// What the runs before an entry of a leaf count, where it is known what the first entries do, by a walk from the leaf up to the root.
#[inline(always)]
fn rise<L: Looks>(looks: &mut L, root: NodeId, leaf: NodeId, first: First) -> Counts
    requires tree { IsTree (L.nodes looks.old) root.index }
    requires few { AreFew (counts_of (tree_runs (L.nodes looks.old) root.index)) }
    requires leaf { IsNode (L.nodes looks.old) leaf.index × (level_of (L.nodes looks.old) leaf.index ≡ 0) }
    requires within { first.entry ≤ length (entries (L.nodes looks.old) leaf.index) }
    requires first { first.counts ≡ sum_of (take first.entry (entries (L.nodes looks.old) leaf.index)) }
    requires room { L.looked looks.old + 16 * level_of (L.nodes looks.old) root.index < 2 ^ 64 }
    ensures before { result ≡ counts_of (runs_before (L.nodes looks.old) root.index leaf.index first.entry) }
    ensures stands { (run : Run) → slice_get (entries (L.nodes looks.old) leaf.index) first.entry ≡ Some (Here run)
        → IsBehind (tree_runs (L.nodes looks.old) root.index) run result }
    ensures counted { L.looked looks.old + level_of (L.nodes looks.old) root.index ≤ L.looked looks.new }
    ensures cost { L.looked looks.new ≤ L.looked looks.old + 16 * level_of (L.nodes looks.old) root.index }
    ensures same { L.nodes looks.new ≡ L.nodes looks.old }
    ensures kept { L.summaries looks.new ≡ L.summaries looks.old }
    ensures lent { L.counter looks.new ≡ L.counter looks.old }
{
    let mut node = leaf;
    let mut before = first.counts;
    while node.index != root.index {
        let parent = looks.parent(node);
        before = counts_with_left(looks, parent, node, before);
        node = parent;
    }
    before
}

// What the runs before an entry of a leaf count, or before its end, where `entry` is how many it has. It takes at most sixteen looks a
// level, and no memory.
#[inline(always)]
pub(crate) fn rise_from<L: Looks>(looks: &mut L, root: NodeId, leaf: NodeId, entry: usize) -> Counts
    requires tree { IsTree (L.nodes looks.old) root.index }
    requires few { AreFew (counts_of (tree_runs (L.nodes looks.old) root.index)) }
    requires leaf { IsNode (L.nodes looks.old) leaf.index × (level_of (L.nodes looks.old) leaf.index ≡ 0) }
    requires within { entry ≤ length (entries (L.nodes looks.old) leaf.index) }
    requires room { L.looked looks.old + 16 * (level_of (L.nodes looks.old) root.index + 1) < 2 ^ 64 }
    ensures before { result ≡ counts_of (runs_before (L.nodes looks.old) root.index leaf.index entry) }
    ensures stands { (run : Run) → slice_get (entries (L.nodes looks.old) leaf.index) entry ≡ Some (Here run)
        → IsBehind (tree_runs (L.nodes looks.old) root.index) run result }
    ensures cost { L.looked looks.new ≤ L.looked looks.old + 16 * (level_of (L.nodes looks.old) root.index + 1) }
    ensures same { L.nodes looks.new ≡ L.nodes looks.old }
    ensures kept { L.summaries looks.new ≡ L.summaries looks.old }
    ensures lent { L.counter looks.new ≡ L.counter looks.old }
{
    let counts = first_counts(looks, leaf, entry);
    rise(looks, root, leaf, First { entry, counts })
}

// A run of a leaf that has a stamp, where it stands in the leaf, with what those before it count, and the run.
#[derive(Clone, Copy)]
struct Stood {
    first: First,
    run: Run,
}

// The run of an entry, if it has a stamp.
#[inline(always)]
fn run_with(entry: &NodeEntry, stamp: Stamp) -> Option<Run>
    ensures some { IfSome result (λ run. (entry.now ≡ Here run) × (has_cell run stamp ≡ true)) }
    ensures none { result ≡ None → (run : Run) → entry.now ≡ Here run → has_cell run stamp ≡ false }
{
    match entry.get() {
        Entry::Here(run) => {
            let seen = run;
            if has(seen, stamp) { Some(run) } else { None }
        }
        Entry::Down(..) => None,
    }
}

// The first of a leaf's runs that has a stamp.
#[inline(always)]
fn stood_with<L: Looks>(looks: &mut L, leaf: NodeId, stamp: Stamp) -> Option<Stood>
    requires node { IsNode (L.nodes looks.old) leaf.index }
    requires few { (count : ℕ) → AreFew (sum_of (take count (entries (L.nodes looks.old) leaf.index))) }
    requires room { L.looked looks.old + 16 < 2 ^ 64 }
    ensures some { IfSome result (λ s. (slice_get (entries (L.nodes looks.old) leaf.index) s.first.entry ≡ Some (Here s.run))
        × (has_cell s.run stamp ≡ true)) }
    ensures counts { IfSome result (λ s. s.first.counts ≡ sum_of (take s.first.entry (entries (L.nodes looks.old) leaf.index))) }
    ensures first { IfSome result (λ s. (i : ℕ) (run : Run) → i < s.first.entry
        → slice_get (entries (L.nodes looks.old) leaf.index) i ≡ Some (Here run) → has_cell run stamp ≡ false) }
    ensures none { result ≡ None → (i : ℕ) (run : Run)
        → slice_get (entries (L.nodes looks.old) leaf.index) i ≡ Some (Here run) → has_cell run stamp ≡ false }
    ensures counted { L.looked looks.old ≤ L.looked looks.new }
    ensures looked { IfSome result (λ _. L.looked looks.old + 1 ≤ L.looked looks.new) }
    ensures cost { L.looked looks.new ≤ L.looked looks.old + 16 }
    ensures same { L.nodes looks.new ≡ L.nodes looks.old }
    ensures kept { L.summaries looks.new ≡ L.summaries looks.old }
    ensures lent { L.counter looks.new ≡ L.counter looks.old }
{
    let mut counts = no_counts();
    for entry in 0..looks.len(leaf) {
        let seen = looks.look(leaf, entry, None).entry;
        if let Some(run) = run_with(&seen, stamp) {
            let first = First { entry, counts };
            return Some(Stood { first, run });
        }
        counts = plus(counts, entry_counts(&seen));
    }
    None
}

// How many visible cells stand before a stamp's cell in a run, before which so many stand.
pub(crate) fn place_in(run: Run, before: Counts, stamp: Stamp) -> usize
    requires has { has_cell run stamp ≡ true }
    requires few { before.visible + run.len < 2 ^ 33 }
    ensures { result ≡ before.visible + (if run.gone then 0 else (stamp.count - run.first)) }
{
    if run.gone {
        before.visible as usize
    } else {
        before.visible as usize + (stamp.count - run.first) as usize
    }
}

/// How many visible cells stand before the cell of a stamp in the first run of a leaf that has the stamp: its place, if it is
/// visible; none if no run of the leaf has it. It takes at most sixteen looks a level, at least one where it tells a
/// place, and no memory.
#[inline(always)]
pub fn ascend<L: Looks>(looks: &mut L, root: NodeId, leaf: NodeId, stamp: Stamp) -> Option<usize>
    requires tree { IsTree (L.nodes looks.old) root.index }
    requires few { AreFew (counts_of (tree_runs (L.nodes looks.old) root.index)) }
    requires leaf { IsNode (L.nodes looks.old) leaf.index × (level_of (L.nodes looks.old) leaf.index ≡ 0) }
    requires room { L.looked looks.old + 16 * (level_of (L.nodes looks.old) root.index + 1) < 2 ^ 64 }
    ensures place { IfSome result (IsPlaceIn (L.nodes looks.old) root.index leaf.index stamp) }
    ensures none { result ≡ None → (i : ℕ) (run : Run)
        → slice_get (entries (L.nodes looks.old) leaf.index) i ≡ Some (Here run) → has_cell run stamp ≡ false }
    ensures counted { L.looked looks.old ≤ L.looked looks.new }
    ensures looked { IfSome result (λ _. L.looked looks.old + (level_of (L.nodes looks.old) root.index + 1) ≤ L.looked looks.new) }
    ensures cost { L.looked looks.new ≤ L.looked looks.old + 16 * (level_of (L.nodes looks.old) root.index + 1) }
    ensures same { L.nodes looks.new ≡ L.nodes looks.old }
    ensures kept { L.summaries looks.new ≡ L.summaries looks.old }
    ensures lent { L.counter looks.new ≡ L.counter looks.old }
{
    let Stood { first, run } = stood_with(looks, leaf, stamp)?;
    let before = rise(looks, root, leaf, first);
    Some(place_in(run, before, stamp))
}

// Whether an entry is that of a node.
pub(crate) fn is_node(entry: &NodeEntry, node: NodeId) -> bool
    ensures { result ≡ is_of node.index entry.now }
{
    match entry.get() {
        Entry::Down(child, _) => child.index == node.index,
        Entry::Here(_) => false,
    }
}
