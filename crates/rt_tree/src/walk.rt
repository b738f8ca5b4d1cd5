// Walks from the root down.
ghost use Rattle.std.specs.Prelude.{◌≡◌, ◌+◌, ◌*◌, ◌<◌, ◌≤◌, ◌^◌, IfNone, IfSome, length, take, slice_index_or};
ghost use Rattle.rt_nodes.specs.Nodes.{IsNode, entries};
ghost use Rattle.rt_tree.specs.declared.node.CountedBy.TheVariants.{Visible};
ghost use Rattle.rt_tree.specs.declared.node.Run.{Run};
ghost use Rattle.rt_tree.specs.Shape.{IsTree, entry_counts, level_of, runs_before, sum_of, tree_runs};
ghost use Rattle.rt_tree.specs.Sums.{AreFew, amount, counts_of, plus};
ghost use Rattle.rt_tree.specs.Walks.{IsSpot};

use crate::looks::Looks;
use crate::node::{CountedBy, Counts, Entry, Run};
use crate::node_entry::NodeEntry;
use crate::sums::{amount, counts_of_run, no_counts, plus};
use rt_nodes::NodeId;

/// A place in the run at an entry of a leaf.
#[derive(Clone, Copy, Debug, PartialEq, Eq)]
pub struct Spot {
    pub leaf: NodeId,
    pub entry: usize,
    pub offset: usize,
}

// A spot with its run, and what the runs before that count.
#[derive(Clone, Copy)]
pub(crate) struct Found {
    pub(crate) spot: Spot,
    pub(crate) run: Run,
    pub(crate) before: Counts,
}

// An entry of a node, so much into it, and what stands before it.
#[derive(Clone, Copy)]
struct Step {
    entry: NodeEntry,
    index: usize,
    rest: usize,
    before: Counts,
}

// What is left of a place behind an entry, and what stands before that.
#[derive(Clone, Copy)]
struct Passed {
    rest: usize,
    before: Counts,
}

// Behind so many, if the place isn't among them.
#[inline(always)]
fn past(by: CountedBy, rest: usize, before: Counts, counts: Counts) -> Option<Passed>
    requires { AreFew (plus before counts) }
    ensures rest { IfSome result (λ past. past.rest + amount by counts ≡ rest) }
    ensures before { IfSome result (λ past. past.before ≡ plus before counts) }
    ensures none { IfNone result (rest < amount by counts) }
{
    let here = amount(by, counts);
    if rest < here {
        return None;
    }
    Some(Passed {
        rest: rest - here,
        before: plus(before, counts),
    })
}

// Behind an entry, if the place isn't in it. Each kind of entry is gone past by itself, as it keeps its counts in another way.
#[inline(always)]
fn past_entry(by: CountedBy, rest: usize, before: Counts, entry: &NodeEntry) -> Option<Passed>
    requires { AreFew (plus before (entry_counts entry.now)) }
    ensures rest { IfSome result (λ past. past.rest + amount by (entry_counts entry.now) ≡ rest) }
    ensures before { IfSome result (λ past. past.before ≡ plus before (entry_counts entry.now)) }
    ensures none { IfNone result (rest < amount by (entry_counts entry.now)) }
{
    match entry.get() {
        Entry::Down(_, totals) => past(by, rest, before, totals.counts),
        Entry::Here(run) => past(by, rest, before, counts_of_run(run)),
    }
}

// The entry of a node that has a place, after so much before the node.
fn entry_at<L: Looks>(
    looks: &mut L,
    node: NodeId,
    by: CountedBy,
    place: usize,
    ahead: Counts,
) -> Step
    requires node { IsNode (L.nodes looks.old) node.index }
    requires within { place < amount by (sum_of (entries (L.nodes looks.old) node.index)) }
    requires few { AreFew (plus ahead (sum_of (entries (L.nodes looks.old) node.index))) }
    requires room { L.looked looks.old + 16 < 2 ^ 64 }
    ensures index { result.index < length (entries (L.nodes looks.old) node.index) }
    ensures entry { result.entry ≡ slice_index_or (entries (L.nodes looks.old) node.index) result.index result.entry }
    ensures before { result.before ≡ plus ahead (sum_of (take result.index (entries (L.nodes looks.old) node.index))) }
    ensures at { amount by (sum_of (take result.index (entries (L.nodes looks.old) node.index))) + result.rest ≡ place }
    ensures inside { result.rest < amount by (entry_counts result.entry) }
    ensures counted { L.looked looks.old + 1 ≤ L.looked looks.new }
    ensures cost { L.looked looks.new ≤ L.looked looks.old + 16 }
    ensures same { L.nodes looks.new ≡ L.nodes looks.old }
    ensures kept { L.summaries looks.new ≡ L.summaries looks.old }
    ensures lent { L.counter looks.new ≡ L.counter looks.old }
{
    let mut rest = place;
    let mut before = ahead;
    for index in 0..looks.len(node) {
        let entry = looks.look(node, index, None).entry;
        match past_entry(by, rest, before, &entry) {
            Some(past) => {
                rest = past.rest;
                before = past.before;
            }
            None => {
                return Step {
                    entry,
                    index,
                    rest,
                    before,
                };
            }
        }
    }
    unreachable!()
}

impl Found {
    fn new(leaf: NodeId, entry: usize, offset: usize, run: Run, before: Counts) -> Found
        ensures spot { result.spot ≡ record { leaf = leaf; entry = entry; offset = offset } }
        ensures run { result.run ≡ run }
        ensures before { result.before ≡ before }
    {
        let spot = Spot {
            leaf,
            entry,
            offset,
        };
        Found { spot, run, before }
    }
}

// The spot of a place that is counted by a measure. It is compiled into its callers, as `found_near` is.
#[inline(always)]
pub(crate) fn descend_by<L: Looks>(
    looks: &mut L,
    root: NodeId,
    by: CountedBy,
    place: usize,
) -> Found
    requires tree { IsTree (L.nodes looks.old) root.index }
    requires few { AreFew (counts_of (tree_runs (L.nodes looks.old) root.index)) }
    requires within { place < amount by (counts_of (tree_runs (L.nodes looks.old) root.index)) }
    requires room { L.looked looks.old + 16 * (level_of (L.nodes looks.old) root.index + 1) < 2 ^ 64 }
    ensures spot { IsSpot (L.nodes looks.old) root.index by place result.spot.leaf.index result.spot.entry result.spot.offset result.run }
    ensures before { result.before ≡ counts_of (runs_before (L.nodes looks.old) root.index result.spot.leaf.index result.spot.entry) }
    ensures counted { L.looked looks.old + (level_of (L.nodes looks.old) root.index + 1) ≤ L.looked looks.new }
    ensures cost { L.looked looks.new ≤ L.looked looks.old + 16 * (level_of (L.nodes looks.old) root.index + 1) }
    ensures same { L.nodes looks.new ≡ L.nodes looks.old }
    ensures kept { L.summaries looks.new ≡ L.summaries looks.old }
    ensures lent { L.counter looks.new ≡ L.counter looks.old }
{
    let mut node = root;
    let mut rest = place;
    let mut before = no_counts();
    loop {
        let Step {
            entry,
            index,
            rest: inside,
            before: ahead,
        } = entry_at(looks, node, by, rest, before);
        match entry.get() {
            Entry::Down(child, _) => {
                node = child;
                rest = inside;
                before = ahead;
            }
            Entry::Here(run) => return Found::new(node, index, inside, run, ahead),
        }
    }
}

/// The spot of a visible place. It takes at most sixteen looks a level.
pub fn descend<L: Looks>(looks: &mut L, root: NodeId, place: usize) -> Spot
    requires tree { IsTree (L.nodes looks.old) root.index }
    requires few { AreFew (counts_of (tree_runs (L.nodes looks.old) root.index)) }
    requires within { place < (counts_of (tree_runs (L.nodes looks.old) root.index)).visible }
    requires room { L.looked looks.old + 16 * (level_of (L.nodes looks.old) root.index + 1) < 2 ^ 64 }
    ensures spot { (run : Run) × IsSpot (L.nodes looks.old) root.index Visible place result.leaf.index result.entry result.offset run }
    ensures cost { L.looked looks.new ≤ L.looked looks.old + 16 * (level_of (L.nodes looks.old) root.index + 1) }
    ensures same { L.nodes looks.new ≡ L.nodes looks.old }
    ensures kept { L.summaries looks.new ≡ L.summaries looks.old }
    ensures lent { L.counter looks.new ≡ L.counter looks.old }
{
    descend_by(looks, root, CountedBy::Visible, place).spot
}
