// The last character before a place that has a tag.
ghost use Rattle.std.specs.Prelude.{◌≡◌, ℕ, ◌<◌, ◌≤◌, ◌^◌, List, [], ◌∷◌, IfSome, false, true, length, slice_index_or};
ghost use Rattle.std.specs.List.{AllByRecursion};
ghost use Rattle.rt_nodes.specs.Nodes.{IsNode, entries};
ghost use Rattle.rt_tags.specs.States.{IsState, IsTag};
ghost use Rattle.rt_tree.specs.declared.node.Entry.{Entry};
ghost use Rattle.rt_tree.specs.declared.node.Run.{Run};
ghost use Rattle.rt_store.specs.Cells.{visible_of};
ghost use Rattle.rt_store.specs.Tagged.{previous_place, tag_is};
ghost use Rattle.rt_tree.specs.Reaches.{reached_back};
ghost use Rattle.rt_tree.specs.Runs.{IsRun, cells_of_runs};
ghost use Rattle.rt_tree.specs.Shape.{IsTree, below, level_of, runs, tree_runs};
ghost use Rattle.rt_tree.specs.Summaries.{AreSummed, IsSummary, shown_states, tagged_as};
ghost use Rattle.rt_tree.specs.Sums.{AreFew, counts_of};

use crate::find::sum_of;
use crate::node::{Entry, Mem, Run};
use crate::node_entry::read_entry;
use crate::reach::Wanted;
use crate::summary::{Summary, passes_nowhere, state_is};
use crate::sums::entry_counts;
use rt_nodes::NodeId;
use rt_tags::StateTable;

// A search of the nodes for characters that have a tag, or haven't it: what is looked for, and what tells of it.
#[derive(Clone, Copy)]
pub(crate) struct Search<'a> {
    pub(crate) wanted: Wanted,
    // The table that gave out the states of the characters, and knows the tags of each.
    pub(crate) states: &'a StateTable,
    // What is kept for each node of the tags on the characters below it.
    pub(crate) sums: &'a [Summary],
}

// How far it is in one run.
fn run_back(states: &StateTable, wanted: &Wanted, run: Run, upto: usize) -> usize
    requires tag { IsTag states.now wanted.now.tag }
    requires state { run.gone ≡ false → IsState states.now run.state }
    ensures { result ≡ reached_back (tagged_as states.now wanted.now.tag wanted.now.on) upto (run ∷ []) }
{
    if run.gone {
        return 0;
    }
    if state_is(states, wanted.tag, wanted.on, run.state) {
        upto.min(run.len as usize)
    } else {
        0
    }
}

// Whether none of the first so many of a node's characters is looked for, as that number and its summary tell.
fn is_before(states: &StateTable, wanted: &Wanted, summary: &Summary, upto: usize) -> bool
    requires tag { IsTag states.now wanted.now.tag }
    requires state { IfSome summary.now.first (IsState states.now) }
    ensures { (rs : List Run) → IsSummary states.now (shown_states rs) summary.now → result ≡ true
        → reached_back (tagged_as states.now wanted.now.tag wanted.now.on) upto rs ≡ 0 }
{
    upto == 0 || passes_nowhere(states, wanted.tag, wanted.on, summary)
}

// How far it is in the runs of an entry. Where the summary that is kept for its node tells, nothing below is looked at.
#[cycle(reached_back)]
fn entry_back(
    mem: &Mem,
    search: &Search<'_>,
    root: NodeId,
    node: NodeId,
    i: usize,
    upto: usize,
) -> usize
    requires tree { IsTree mem.now root.index }
    requires sums { AreSummed search.now.states.now mem.now search.now.sums.now }
    requires many { length mem.now.heads ≤ length search.now.sums.now }
    requires tag { IsTag search.now.states.now search.now.wanted.tag }
    requires node { IsNode mem.now node.index }
    requires within { i < length (entries mem.now node.index) }
    requires given { AllByRecursion (IsState search.now.states.now) (shown_states (runs mem.now (level_of mem.now node.index) node.index)) }
    requires few { AreFew (counts_of (runs mem.now (level_of mem.now node.index) node.index)) }
    ensures { (e : Entry) → e ≡ slice_index_or (entries mem.now node.index) i e
        → result ≡ reached_back (tagged_as search.now.states.now search.now.wanted.tag search.now.wanted.on) upto
        (below mem.now (level_of mem.now node.index) e) }
{
    match read_entry(mem, node, i) {
        Entry::Here(run) => run_back(search.states, &search.wanted, run, upto),
        Entry::Down(child, _) => {
            let summary = &search.sums[child.index as usize];
            if is_before(search.states, &search.wanted, summary, upto) {
                0
            } else {
                reached_back(mem, search, root, child, upto)
            }
        }
    }
}

// One more than the last place, of the first so many of a node, whose character is looked for; 0 if there is none. At most two
// nodes a level are gone through.
#[cycle(reached_back)]
pub(crate) fn reached_back(
    mem: &Mem,
    search: &Search<'_>,
    root: NodeId,
    node: NodeId,
    upto: usize,
) -> usize
    requires tree { IsTree mem.now root.index }
    requires sums { AreSummed search.now.states.now mem.now search.now.sums.now }
    requires many { length mem.now.heads ≤ length search.now.sums.now }
    requires tag { IsTag search.now.states.now search.now.wanted.tag }
    requires node { IsNode mem.now node.index }
    requires given { AllByRecursion (IsState search.now.states.now) (shown_states (runs mem.now (level_of mem.now node.index) node.index)) }
    requires few { AreFew (counts_of (runs mem.now (level_of mem.now node.index) node.index)) }
    ensures { result ≡ reached_back (tagged_as search.now.states.now search.now.wanted.tag search.now.wanted.on) upto
        (runs mem.now (level_of mem.now node.index) node.index) }
{
    let mut left = sum_of(mem, node).visible as usize;
    let mut i = mem.len(node);
    while i > 0 {
        i -= 1;
        left -= entry_counts(mem.entry(node, i)).visible as usize;
        let before = upto.saturating_sub(left);
        let inside = entry_back(mem, search, root, node, i, before);
        if inside > 0 {
            return left + inside;
        }
    }
    0
}

// The greatest place below one whose character is looked for.
pub(crate) fn previous_place(
    mem: &Mem,
    sums: &[Summary],
    states: &StateTable,
    wanted: &Wanted,
    root: NodeId,
    place: usize,
) -> Option<usize>
    requires tree { IsTree mem.now root.index }
    requires sums { AreSummed states.now mem.now sums.now }
    requires many { length mem.now.heads ≤ length sums.now }
    requires tag { IsTag states.now wanted.now.tag }
    requires given { AllByRecursion (IsState states.now) (shown_states (tree_runs mem.now root.index)) }
    requires few { AreFew (counts_of (tree_runs mem.now root.index)) }
    ensures { (text : List ℕ) → AllByRecursion (IsRun text) (tree_runs mem.now root.index)
        → result ≡ previous_place (tag_is states.now wanted.now.tag wanted.now.on) (visible_of (cells_of_runs text (tree_runs mem.now root.index))) place }
{
    let search = Search {
        sums,
        states,
        wanted: *wanted,
    };
    let found = reached_back(mem, &search, root, root, place);
    if found > 0 { Some(found - 1) } else { None }
}
