// Summaries put right from a leaf up.
ghost use Rattle.std.specs.Prelude.{◌≡◌, ◌⊎◌, ℕ, ◌<◌, ◌≤◌, IfSome, None, length, slice_index_or, take, true};
ghost use Rattle.std.specs.List.{AllByRecursion};
ghost use Rattle.rt_nodes.specs.Nodes.{IsNode, entries};
ghost use Rattle.rt_tags.specs.Borders.{last, one_or_none};
ghost use Rattle.rt_tags.specs.States.{IsState};
ghost use Rattle.rt_tree.specs.declared.node.Entry.{Entry};
ghost use Rattle.rt_tree.specs.Shape.{IsShape, all_below, below, level_of};
ghost use Rattle.rt_tree.specs.Summaries.{AreBeside, AreSummed, AreSummedBut, HasEnds, shown_states, summary_of};

use crate::node::Mem;
use crate::room::{Place, Top};
use crate::settle::{parent_of, slot_of};
use crate::summaries::{before_in, replace_at, widened};
use crate::summary::{Around, StateChange, Summary};
use rt_nodes::NodeId;
use rt_tags::{StateId, StateTable, Toggles};

// An entry of a leaf, and the states that it showed and shows now.
#[derive(Clone, Copy)]
pub(crate) struct Restated {
    pub(crate) place: Place,
    pub(crate) change: StateChange,
}

// Whether no run showed a state before, and the one that shows one now has a neighbour in that state.
fn is_beside(around: &Around, old: &Option<StateId>, new: &Option<StateId>) -> bool
    ensures none { result ≡ true → old.now ≡ None }
    ensures beside { result ≡ true → (around.now.before ≡ new.now) ⊎ (around.now.after ≡ new.now) }
{
    old.is_none() && (around.before == *new || around.after == *new)
}

// Whether an entry showed no state before, and shows now that of the last visible run before it in its leaf.
#[inline(always)]
fn is_behind(
    each: &[Summary],
    mem: &Mem,
    leaf: NodeId,
    i: usize,
    old: &Option<StateId>,
    new: &Option<StateId>,
) -> bool
    requires node { IsNode mem.now leaf.index }
    requires within { i ≤ length (entries mem.now leaf.index) }
    requires ends { AllByRecursion (HasEnds mem.now (level_of mem.now leaf.index) each.now) (entries mem.now leaf.index) }
    ensures none { result ≡ true → old.now ≡ None }
    ensures before { result ≡ true
        → last (shown_states (all_below mem.now (level_of mem.now leaf.index) (take i (entries mem.now leaf.index)))) ≡ new.now }
{
    if old.is_some() {
        return false;
    }
    before_in(each, mem, leaf, i) == *new
}

// An entry of a leaf shows another state now, or none: puts right the summaries of the nodes above it. What comes in beside a
// neighbour in the same state changes none.
#[inline(always)]
pub(crate) fn note(
    each: &mut [Summary],
    minus: &mut Toggles,
    plus: &mut Toggles,
    states: &StateTable,
    mem: &Mem,
    top: Top,
    restated: Restated,
)
    requires tree { IsShape mem.now top.height top.root.index }
    requires leaf { (restated.place.leaf.index < length mem.now.heads) × (level_of mem.now restated.place.leaf.index ≡ 0) }
    requires within { restated.place.entry < length (entries mem.now restated.place.leaf.index) }
    requires many { length mem.now.heads ≤ length each.old }
    requires old { IfSome restated.change.from (IsState states.now) }
    requires new { IfSome restated.change.to (IsState states.now) }
    requires shows { (e : Entry) → e ≡ slice_index_or (entries mem.now restated.place.leaf.index) restated.place.entry e
        → shown_states (below mem.now 0 e) ≡ one_or_none restated.change.to }
    requires beside { AreBeside states.now mem.now top.height restated.place.leaf.index restated.place.entry }
    requires but { AreSummedBut states.now mem.now each.old top.height restated.place.leaf.index restated.place.entry restated.change.from }
    requires minus { length states.now.names ≤ minus.old.capacity }
    requires plus { length states.now.names ≤ plus.old.capacity }
    requires memory { (id : ℕ) → id < length mem.now.heads → length states.now.names ≤ (summary_of each.old id).counts.capacity }
    ensures summed { AreSummed states.now mem.now each.new }
    ensures many { length each.new ≡ length each.old }
    ensures memory { (id : ℕ) → (summary_of each.new id).counts.capacity ≡ (summary_of each.old id).counts.capacity }
    ensures minus { minus.new.capacity ≡ minus.old.capacity }
    ensures plus { plus.new.capacity ≡ plus.old.capacity }
{
    let Restated { place, change } = restated;
    if is_behind(each, mem, place.leaf, place.entry, &change.from, &change.to) {
        return;
    }
    note_up(each, minus, plus, states, mem, top, restated);
}

// What `note` does, of what doesn't come in behind a run of its leaf in the same state.
#[inline(never)]
fn note_up(
    each: &mut [Summary],
    minus: &mut Toggles,
    plus: &mut Toggles,
    states: &StateTable,
    mem: &Mem,
    top: Top,
    restated: Restated,
)
    requires tree { IsShape mem.now top.height top.root.index }
    requires leaf { (restated.place.leaf.index < length mem.now.heads) × (level_of mem.now restated.place.leaf.index ≡ 0) }
    requires within { restated.place.entry < length (entries mem.now restated.place.leaf.index) }
    requires many { length mem.now.heads ≤ length each.old }
    requires old { IfSome restated.change.from (IsState states.now) }
    requires new { IfSome restated.change.to (IsState states.now) }
    requires shows { (e : Entry) → e ≡ slice_index_or (entries mem.now restated.place.leaf.index) restated.place.entry e
        → shown_states (below mem.now 0 e) ≡ one_or_none restated.change.to }
    requires beside { AreBeside states.now mem.now top.height restated.place.leaf.index restated.place.entry }
    requires but { AreSummedBut states.now mem.now each.old top.height restated.place.leaf.index restated.place.entry restated.change.from }
    requires minus { length states.now.names ≤ minus.old.capacity }
    requires plus { length states.now.names ≤ plus.old.capacity }
    requires memory { (id : ℕ) → id < length mem.now.heads → length states.now.names ≤ (summary_of each.old id).counts.capacity }
    ensures summed { AreSummed states.now mem.now each.new }
    ensures many { length each.new ≡ length each.old }
    ensures memory { (id : ℕ) → (summary_of each.new id).counts.capacity ≡ (summary_of each.old id).counts.capacity }
    ensures minus { minus.new.capacity ≡ minus.old.capacity }
    ensures plus { plus.new.capacity ≡ plus.old.capacity }
{
    let nobody = Around {
        before: None,
        after: None,
    };
    let Restated { place, change } = restated;
    let mut around = widened(each, mem, place.leaf, place.entry, &nobody);
    if is_beside(&around, &change.from, &change.to) {
        return;
    }
    replace_at(each, minus, plus, states, place.leaf, &around, &change);
    let mut node = place.leaf;
    let mut level = 0;
    while level < top.height {
        let parent = parent_of(mem, node);
        let slot = slot_of(mem, parent, node);
        let wider = widened(each, mem, parent, slot, &around);
        replace_at(each, minus, plus, states, parent, &wider, &change);
        around = wider;
        node = parent;
        level += 1;
    }
}
