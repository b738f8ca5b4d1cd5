// What is kept for all nodes of the tags on the characters below them.
ghost use Rattle.std.specs.Prelude.{◌≡◌, ◌≢◌, ℕ, ◌+◌, ◌<◌, ◌≤◌, List, [], ◌∷◌, ◌++◌, IfSome, length, take, drop, slice_index_or};
ghost use Rattle.std.specs.List.{AllByRecursion};
ghost use Rattle.rt_nodes.specs.Nodes.{IsNode, entries};
ghost use Rattle.rt_tags.specs.Borders.{either, first, last, one_or_none};
ghost use Rattle.rt_tags.specs.States.{IsState};
ghost use Rattle.rt_tree.specs.declared.node.Entry.{Entry};
ghost use Rattle.rt_tree.specs.Shape.{all_below, below, level_of};
ghost use Rattle.rt_tree.specs.Summaries.{HasEnds, IsSummary, WasAround, shown_states, summary_of};

use crate::node::{Entry, Mem, Run};
use crate::node_entry::read_entry;
use crate::summary::{Around, StateChange, Summary, count_around};
use rt_nodes::NodeId;
use rt_tags::{StateId, StateTable, Toggles};

// The state that a run shows, if it is visible.
pub(crate) fn shown_state(run: &Run) -> Option<StateId>
    ensures first { result ≡ first (shown_states (run.now ∷ [])) }
    ensures last { result ≡ last (shown_states (run.now ∷ [])) }
{
    if run.gone { None } else { Some(run.state) }
}

// The first state that an entry's runs show.
fn first_of(each: &[Summary], mem: &Mem, node: NodeId, i: usize) -> Option<StateId>
    requires node { IsNode mem.now node.index }
    requires within { i < length (entries mem.now node.index) }
    requires ends { AllByRecursion (HasEnds mem.now (level_of mem.now node.index) each.now) (entries mem.now node.index) }
    ensures { (e : Entry) → e ≡ slice_index_or (entries mem.now node.index) i e
        → result ≡ first (shown_states (below mem.now (level_of mem.now node.index) e)) }
{
    match read_entry(mem, node, i) {
        Entry::Here(run) => shown_state(&run),
        Entry::Down(child, _) => each[child.index as usize].first,
    }
}

// The last one.
fn last_of(each: &[Summary], mem: &Mem, node: NodeId, i: usize) -> Option<StateId>
    requires node { IsNode mem.now node.index }
    requires within { i < length (entries mem.now node.index) }
    requires ends { AllByRecursion (HasEnds mem.now (level_of mem.now node.index) each.now) (entries mem.now node.index) }
    ensures { (e : Entry) → e ≡ slice_index_or (entries mem.now node.index) i e
        → result ≡ last (shown_states (below mem.now (level_of mem.now node.index) e)) }
{
    match read_entry(mem, node, i) {
        Entry::Here(run) => shown_state(&run),
        Entry::Down(child, _) => each[child.index as usize].last,
    }
}

// The state of the last visible character before an entry of a node, or before its end.
pub(crate) fn before_in(each: &[Summary], mem: &Mem, node: NodeId, i: usize) -> Option<StateId>
    requires node { IsNode mem.now node.index }
    requires within { i ≤ length (entries mem.now node.index) }
    requires ends { AllByRecursion (HasEnds mem.now (level_of mem.now node.index) each.now) (entries mem.now node.index) }
    ensures { result ≡ last (shown_states (all_below mem.now (level_of mem.now node.index) (take i (entries mem.now node.index)))) }
{
    let mut at = i;
    while at > 0 {
        at -= 1;
        let last = last_of(each, mem, node, at);
        if last.is_some() {
            return last;
        }
    }
    None
}

// The state of the first visible character from an entry of a node on.
pub(crate) fn after_in(each: &[Summary], mem: &Mem, node: NodeId, i: usize) -> Option<StateId>
    requires node { IsNode mem.now node.index }
    requires ends { AllByRecursion (HasEnds mem.now (level_of mem.now node.index) each.now) (entries mem.now node.index) }
    ensures { result ≡ first (shown_states (all_below mem.now (level_of mem.now node.index) (drop i (entries mem.now node.index)))) }
{
    for at in i..mem.len(node) {
        let first = first_of(each, mem, node, at);
        if first.is_some() {
            return first;
        }
    }
    None
}

// The state of the last visible character before an entry, where none is known yet.
fn wider_before(
    each: &[Summary],
    mem: &Mem,
    node: NodeId,
    i: usize,
    before: &Option<StateId>,
) -> Option<StateId>
    requires node { IsNode mem.now node.index }
    requires within { i ≤ length (entries mem.now node.index) }
    requires ends { AllByRecursion (HasEnds mem.now (level_of mem.now node.index) each.now) (entries mem.now node.index) }
    ensures { result ≡ either before.now (last (shown_states (all_below mem.now (level_of mem.now node.index) (take i (entries mem.now node.index))))) }
{
    if before.is_some() {
        return *before;
    }
    before_in(each, mem, node, i)
}

// The state of the first visible character from an entry on, where none is known yet.
fn wider_after(
    each: &[Summary],
    mem: &Mem,
    node: NodeId,
    i: usize,
    after: &Option<StateId>,
) -> Option<StateId>
    requires node { IsNode mem.now node.index }
    requires ends { AllByRecursion (HasEnds mem.now (level_of mem.now node.index) each.now) (entries mem.now node.index) }
    ensures { result ≡ either after.now (first (shown_states (all_below mem.now (level_of mem.now node.index) (drop i (entries mem.now node.index))))) }
{
    if after.is_some() {
        return *after;
    }
    after_in(each, mem, node, i)
}

// The neighbours of a run as they are seen from a node; `around` has those that are seen from the node below.
pub(crate) fn widened(
    each: &[Summary],
    mem: &Mem,
    node: NodeId,
    i: usize,
    around: &Around,
) -> Around
    requires node { IsNode mem.now node.index }
    requires within { i < length (entries mem.now node.index) }
    requires ends { AllByRecursion (HasEnds mem.now (level_of mem.now node.index) each.now) (entries mem.now node.index) }
    ensures before { result.before ≡ either around.now.before
        (last (shown_states (all_below mem.now (level_of mem.now node.index) (take i (entries mem.now node.index))))) }
    ensures after { result.after ≡ either around.now.after
        (first (shown_states (all_below mem.now (level_of mem.now node.index) (drop (i + 1) (entries mem.now node.index))))) }
{
    // For its clause alone: a node has sixteen entries at most, so `i + 1` can't overflow.
    mem.len(node);
    let before = wider_before(each, mem, node, i, &around.before);
    let after = wider_after(each, mem, node, i + 1, &around.after);
    Around { before, after }
}

// Below a node a state, or none, has become another, or none; its neighbours below the node are told. Puts right the node's summary.
pub(crate) fn replace_at(
    each: &mut [Summary],
    minus: &mut Toggles,
    plus: &mut Toggles,
    states: &StateTable,
    node: NodeId,
    around: &Around,
    change: &StateChange,
)
    requires within { node.index < length each.old }
    requires before { IfSome around.now.before (IsState states.now) }
    requires after { IfSome around.now.after (IsState states.now) }
    requires old { IfSome change.now.from (IsState states.now) }
    requires new { IfSome change.now.to (IsState states.now) }
    requires memory { (length states.now.names ≤ minus.old.capacity) × (length states.now.names ≤ plus.old.capacity)
        × (length states.now.names ≤ (summary_of each.old node.index).counts.capacity) }
    requires was { WasAround states.now (summary_of each.old node.index) around.now.before around.now.after change.now.from }
    ensures is { (xs ys : List ℕ) → last xs ≡ around.now.before → first ys ≡ around.now.after
        → IsSummary states.now (xs ++ (one_or_none change.now.from ++ ys)) (summary_of each.old node.index)
        → IsSummary states.now (xs ++ (one_or_none change.now.to ++ ys)) (summary_of each.new node.index) }
    ensures others { (id : ℕ) → id ≢ node.index → summary_of each.new id ≡ summary_of each.old id }
    ensures many { length each.new ≡ length each.old }
    ensures memory { (minus.new.capacity ≡ minus.old.capacity) × (plus.new.capacity ≡ plus.old.capacity)
        × ((summary_of each.new node.index).counts.capacity ≡ (summary_of each.old node.index).counts.capacity) }
{
    count_around(minus, states, around, &change.from);
    count_around(plus, states, around, &change.to);
    // For its clause alone: the counts stand in the order of their tags.
    plus.counts();
    let own = &mut each[node.index as usize];
    // For its clause alone: these counts stand in that order too.
    own.counts.counts();
    own.replace(around, &change.to, minus, plus);
}
