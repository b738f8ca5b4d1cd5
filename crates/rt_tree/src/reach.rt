// The first character from a place on that has a tag, or hasn't it.
ghost use Rattle.std.specs.Prelude.{◌≡◌, ℕ, ◌+◌, ◌*◌, ◌<◌, ◌≤◌, ◌^◌, List, [], ◌∷◌, IfSome, Some, false, true, length, nat_lt};
ghost use Rattle.std.specs.List.{AllByRecursion};
ghost use Rattle.rt_nodes.specs.Nodes.{IsNode, entries};
ghost use Rattle.rt_store.specs.Cells.{visible_of};
ghost use Rattle.rt_store.specs.Tagged.{next_place, tag_is};
ghost use Rattle.rt_tags.specs.States.{IsState, IsTag};
ghost use Rattle.rt_tree.specs.declared.node.Run.{Run};
ghost use Rattle.rt_tree.specs.declared.summary.Summary.{Summary};
ghost use Rattle.rt_tree.specs.Reaches.{reached};
ghost use Rattle.rt_tree.specs.Runs.{IsRun, cells_of_runs};
ghost use Rattle.rt_tree.specs.Seeks.{IsReached, Tells, most_below, runs_at};
ghost use Rattle.rt_tree.specs.Shape.{IsTree, level_of, runs, tree_runs};
ghost use Rattle.rt_tree.specs.Skips.{HasCells};
ghost use Rattle.rt_tree.specs.Summaries.{AreSummed, IsSummary, shown_states, tagged_as};
ghost use Rattle.rt_tree.specs.Sums.{AreFew, counts_of};

use crate::find::height;
use crate::looks::{Counted, CountedTags, Looks, Sight};
use crate::node::{Entry, Mem, Run};
use crate::summary::{Summary, state_is};
use rt_nodes::NodeId;
use rt_tags::{StateTable, TagId};

// What is looked for.
#[derive(Clone, Copy)]
pub(crate) struct Wanted {
    pub(crate) tag: TagId,
    pub(crate) on: bool,
}

// How many visible characters stand before the first that is looked for, or how many there are, and whether there is one.
#[derive(Clone, Copy)]
pub(crate) struct Reach {
    pub(crate) place: usize,
    pub(crate) found: bool,
}

// How far it is in one run.
fn run_reached(states: &StateTable, wanted: &Wanted, run: Run, from: usize) -> Reach
    requires tag { IsTag states.now wanted.now.tag }
    requires state { run.gone ≡ false → IsState states.now run.state }
    ensures place { result.place ≡ reached (tagged_as states.now wanted.now.tag wanted.now.on) from (run ∷ []) }
    ensures found { result.found ≡ nat_lt (reached (tagged_as states.now wanted.now.tag wanted.now.on) from (run ∷ [])) (counts_of (run ∷ [])).visible }
{
    let len = if run.gone { 0 } else { run.len as usize };
    if from < len && state_is(states, wanted.tag, wanted.on, run.state) {
        Reach {
            place: from,
            found: true,
        }
    } else {
        Reach {
            place: len,
            found: false,
        }
    }
}

// Whether none of a node's characters is looked for, as a look at its entry told.
fn has_none(states: &StateTable, wanted: &Wanted, seen: &Sight) -> bool
    requires tag { IsTag states.now wanted.now.tag }
    requires state { IfSome seen.now.first (IsState states.now) }
    ensures none { (shown : List ℕ) (s : Summary) → IsSummary states.now shown s → Tells wanted.now.tag seen.now.borders seen.now.first s
        → result ≡ true → AllByRecursion (λ state. tagged_as states.now wanted.now.tag wanted.now.on state ≡ false) shown }
    ensures some { (shown : List ℕ) (s : Summary) → IsSummary states.now shown s → Tells wanted.now.tag seen.now.borders seen.now.first s
        → AllByRecursion (λ state. tagged_as states.now wanted.now.tag wanted.now.on state ≡ false) shown → result ≡ true }
{
    if seen.borders > 0 {
        return false;
    }
    match seen.first {
        Some(state) => !state_is(states, wanted.tag, wanted.on, state),
        None => true,
    }
}

// Whether none of a node's characters from so many on is looked for, as their number and a look at its entry told. From the first
// one on, there is one if this doesn't say so.
fn is_past(states: &StateTable, wanted: &Wanted, visible: usize, seen: &Sight, from: usize) -> bool
    requires tag { IsTag states.now wanted.now.tag }
    requires state { IfSome seen.now.first (IsState states.now) }
    ensures past { (rs : List Run) (s : Summary) → IsSummary states.now (shown_states rs) s → Tells wanted.now.tag seen.now.borders seen.now.first s
        → visible ≡ (counts_of rs).visible → result ≡ true
        → reached (tagged_as states.now wanted.now.tag wanted.now.on) from rs ≡ visible }
    ensures there { (rs : List Run) (s : Summary) → IsSummary states.now (shown_states rs) s → Tells wanted.now.tag seen.now.borders seen.now.first s
        → visible ≡ (counts_of rs).visible → AllByRecursion HasCells rs → from ≡ 0 → result ≡ false
        → reached (tagged_as states.now wanted.now.tag wanted.now.on) from rs < visible }
    ensures far { visible ≤ from → result ≡ true }
{
    visible <= from || from == 0 && has_none(states, wanted, seen)
}

// How far it is in the runs of an entry. Where a look at it tells, nothing below is looked at.
#[cycle(reached)]
fn entry_reached<L: Looks>(
    looks: &mut L,
    states: &StateTable,
    wanted: &Wanted,
    root: NodeId,
    node: NodeId,
    i: usize,
    from: usize,
) -> Reach
    requires tree { IsTree (L.nodes looks.old) root.index }
    requires sums { AreSummed states.now (L.nodes looks.old) (L.summaries looks.old) }
    requires tag { IsTag states.now wanted.now.tag }
    requires node { IsNode (L.nodes looks.old) node.index }
    requires within { i < length (entries (L.nodes looks.old) node.index) }
    requires given { AllByRecursion (IsState states.now) (shown_states (runs (L.nodes looks.old) (level_of (L.nodes looks.old) node.index) node.index)) }
    requires few { (counts_of (runs (L.nodes looks.old) (level_of (L.nodes looks.old) node.index) node.index)).visible < 2 ^ 32 }
    requires room { L.looked looks.old + (1 + most_below from (level_of (L.nodes looks.old) node.index)) < 2 ^ 64 }
    ensures place { AllByRecursion HasCells (runs_at (L.nodes looks.old) node.index i)
        → IsReached (tagged_as states.now wanted.now.tag wanted.now.on) from (runs_at (L.nodes looks.old) node.index i) result }
    ensures whole { result.found ≡ false → result.place ≡ (counts_of (runs_at (L.nodes looks.old) node.index i)).visible }
    ensures inside { result.place ≤ (counts_of (runs_at (L.nodes looks.old) node.index i)).visible }
    ensures cost { L.looked looks.new ≤ L.looked looks.old + (1 + most_below from (level_of (L.nodes looks.old) node.index)) }
    ensures none { result.found ≡ false → L.looked looks.new ≤ L.looked looks.old + (1 + 16 * level_of (L.nodes looks.old) node.index) }
    ensures start { result.found ≡ false → from ≡ 0 → L.looked looks.new ≤ L.looked looks.old + 1 }
    ensures far { (counts_of (runs_at (L.nodes looks.old) node.index i)).visible ≤ from → L.looked looks.new ≤ L.looked looks.old + 1 }
    ensures counted { L.looked looks.old + 1 ≤ L.looked looks.new }
    ensures looked { AllByRecursion HasCells (runs_at (L.nodes looks.old) node.index i) → result.found ≡ true
        → L.looked looks.old + (level_of (L.nodes looks.old) node.index + 1) ≤ L.looked looks.new }
    ensures same { L.nodes looks.new ≡ L.nodes looks.old }
    ensures kept { L.summaries looks.new ≡ L.summaries looks.old }
    ensures lent { L.counter looks.new ≡ L.counter looks.old }
{
    let seen = looks.look(node, i, Some(wanted.tag));
    match seen.entry.get() {
        Entry::Here(run) => run_reached(states, wanted, run, from),
        Entry::Down(child, totals) => {
            let visible = totals.counts.visible as usize;
            if is_past(states, wanted, visible, &seen, from) {
                return Reach {
                    place: visible,
                    found: false,
                };
            }
            // From its first character on, the look told that there is one.
            let below = reached(looks, states, wanted, root, child, from);
            Reach {
                place: below.place,
                found: below.found || from == 0,
            }
        }
    }
}

// How far it is in the runs of a node. From its first character on, one node a level is gone into, else two at most: the one with
// the place, and the one with the character.
#[cycle(reached)]
pub(crate) fn reached<L: Looks>(
    looks: &mut L,
    states: &StateTable,
    wanted: &Wanted,
    root: NodeId,
    node: NodeId,
    from: usize,
) -> Reach
    requires tree { IsTree (L.nodes looks.old) root.index }
    requires sums { AreSummed states.now (L.nodes looks.old) (L.summaries looks.old) }
    requires tag { IsTag states.now wanted.now.tag }
    requires node { IsNode (L.nodes looks.old) node.index }
    requires given { AllByRecursion (IsState states.now) (shown_states (runs (L.nodes looks.old) (level_of (L.nodes looks.old) node.index) node.index)) }
    requires few { (counts_of (runs (L.nodes looks.old) (level_of (L.nodes looks.old) node.index) node.index)).visible < 2 ^ 32 }
    requires room { L.looked looks.old + (16 + most_below from (level_of (L.nodes looks.old) node.index)) < 2 ^ 64 }
    ensures place { AllByRecursion HasCells (runs (L.nodes looks.old) (level_of (L.nodes looks.old) node.index) node.index)
        → IsReached (tagged_as states.now wanted.now.tag wanted.now.on) from
        (runs (L.nodes looks.old) (level_of (L.nodes looks.old) node.index) node.index) result }
    ensures whole { result.found ≡ false
        → result.place ≡ (counts_of (runs (L.nodes looks.old) (level_of (L.nodes looks.old) node.index) node.index)).visible }
    ensures inside { result.place ≤ (counts_of (runs (L.nodes looks.old) (level_of (L.nodes looks.old) node.index) node.index)).visible }
    ensures cost { L.looked looks.new ≤ L.looked looks.old + (16 + most_below from (level_of (L.nodes looks.old) node.index)) }
    ensures none { result.found ≡ false → L.looked looks.new ≤ L.looked looks.old + (16 + 16 * level_of (L.nodes looks.old) node.index) }
    ensures counted { L.looked looks.old ≤ L.looked looks.new }
    ensures looked { AllByRecursion HasCells (runs (L.nodes looks.old) (level_of (L.nodes looks.old) node.index) node.index) → result.found ≡ true
        → L.looked looks.old + (level_of (L.nodes looks.old) node.index + 1) ≤ L.looked looks.new }
    ensures same { L.nodes looks.new ≡ L.nodes looks.old }
    ensures kept { L.summaries looks.new ≡ L.summaries looks.old }
    ensures lent { L.counter looks.new ≡ L.counter looks.old }
{
    let mut done = 0;
    for i in 0..looks.len(node) {
        let here = entry_reached(
            looks,
            states,
            wanted,
            root,
            node,
            i,
            from.saturating_sub(done),
        );
        done += here.place;
        if here.found {
            return Reach {
                place: done,
                found: true,
            };
        }
    }
    Reach {
        place: done,
        found: false,
    }
}

// The least place from one up whose character is looked for. It takes at most thirty-two looks a level, and one a level
// at least where there is such a place.
pub(crate) fn sought<L: Looks>(
    looks: &mut L,
    states: &StateTable,
    wanted: &Wanted,
    root: NodeId,
    place: usize,
) -> Option<usize>
    requires tree { IsTree (L.nodes looks.old) root.index }
    requires sums { AreSummed states.now (L.nodes looks.old) (L.summaries looks.old) }
    requires tag { IsTag states.now wanted.now.tag }
    requires given { AllByRecursion (IsState states.now) (shown_states (tree_runs (L.nodes looks.old) root.index)) }
    requires few { AreFew (counts_of (tree_runs (L.nodes looks.old) root.index)) }
    requires room { L.looked looks.old + 32 * (level_of (L.nodes looks.old) root.index + 1) < 2 ^ 64 }
    ensures place { (text : List ℕ) → AllByRecursion (IsRun text) (tree_runs (L.nodes looks.old) root.index)
        → result ≡ next_place (tag_is states.now wanted.now.tag wanted.now.on)
        (visible_of (cells_of_runs text (tree_runs (L.nodes looks.old) root.index))) place }
    ensures counted { L.looked looks.old ≤ L.looked looks.new }
    ensures looked { (text : List ℕ) → AllByRecursion (IsRun text) (tree_runs (L.nodes looks.old) root.index)
        → IfSome result (λ _. L.looked looks.old + (level_of (L.nodes looks.old) root.index + 1) ≤ L.looked looks.new) }
    ensures cost { L.looked looks.new ≤ L.looked looks.old + 32 * (level_of (L.nodes looks.old) root.index + 1) }
    ensures same { L.nodes looks.new ≡ L.nodes looks.old }
    ensures kept { L.summaries looks.new ≡ L.summaries looks.old }
    ensures lent { L.counter looks.new ≡ L.counter looks.old }
{
    let found = reached(looks, states, wanted, root, root, place);
    if found.found { Some(found.place) } else { None }
}

// The least place from one up whose character is looked for.
pub(crate) fn next_place(
    mem: &Mem,
    sums: &[Summary],
    states: &StateTable,
    wanted: &Wanted,
    root: NodeId,
    place: usize,
) -> Option<usize>
    requires tree { IsTree mem.now root.index }
    requires sums { AreSummed states.now mem.now sums.now }
    requires many { length mem.now.heads ≤ length sums.now }
    requires tag { IsTag states.now wanted.now.tag }
    requires given { AllByRecursion (IsState states.now) (shown_states (tree_runs mem.now root.index)) }
    requires few { AreFew (counts_of (tree_runs mem.now root.index)) }
    ensures { (text : List ℕ) → AllByRecursion (IsRun text) (tree_runs mem.now root.index)
        → result ≡ next_place (tag_is states.now wanted.now.tag wanted.now.on) (visible_of (cells_of_runs text (tree_runs mem.now root.index))) place }
{
    // For its clause alone: it bounds the levels, and so the looks.
    height(mem, root);
    let mut looks = 0;
    let looks = &mut looks;
    let nodes = Counted { mem, looks };
    let mut sight = CountedTags { nodes, sums };
    sought(&mut sight, states, wanted, root, place)
}
