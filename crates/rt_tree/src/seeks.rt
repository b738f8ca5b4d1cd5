// The next character that has a tag.
ghost use Rattle.std.specs.Prelude.{◌≡◌, ℕ, ◌+◌, ◌*◌, ◌<◌, ◌≤◌, ◌^◌, IfSome, List};
ghost use Rattle.std.specs.List.{AllByRecursion};
ghost use Rattle.rt_store.specs.Tagged.{next_tagged};
ghost use Rattle.rt_tags.specs.States.{IsState, IsTag};
ghost use Rattle.rt_tree.specs.Runs.{IsRun, cells_of_runs};
ghost use Rattle.rt_tree.specs.Shape.{IsTree, level_of, tree_runs};
ghost use Rattle.rt_tree.specs.Summaries.{AreSummed, shown_states};
ghost use Rattle.rt_tree.specs.Sums.{AreFew, counts_of};

use crate::looks::{Counted, CountedTags, Looks};
use crate::node::Mem;
use crate::reach::{Wanted, sought};
use crate::summary::Summary;
use rt_nodes::NodeId;
use rt_tags::{StateTable, TagId};

/// The least place from one up whose character has a tag; none if there is none. It takes at most
/// thirty-two looks a level, one a level at least where there is one, and no memory.
pub fn seek<L: Looks>(
    looks: &mut L,
    states: &StateTable,
    root: NodeId,
    tag: TagId,
    place: usize,
) -> Option<usize>
    requires tree { IsTree (L.nodes looks.old) root.index }
    requires sums { AreSummed states.now (L.nodes looks.old) (L.summaries looks.old) }
    requires tag { IsTag states.now tag }
    requires given { AllByRecursion (IsState states.now) (shown_states (tree_runs (L.nodes looks.old) root.index)) }
    requires few { AreFew (counts_of (tree_runs (L.nodes looks.old) root.index)) }
    requires room { L.looked looks.old + 32 * (level_of (L.nodes looks.old) root.index + 1) < 2 ^ 64 }
    ensures place { (text : List ℕ) → AllByRecursion (IsRun text) (tree_runs (L.nodes looks.old) root.index)
        → result ≡ next_tagged states.now tag (cells_of_runs text (tree_runs (L.nodes looks.old) root.index)) place }
    ensures counted { L.looked looks.old ≤ L.looked looks.new }
    ensures looked { (text : List ℕ) → AllByRecursion (IsRun text) (tree_runs (L.nodes looks.old) root.index)
        → IfSome result (λ _. L.looked looks.old + (level_of (L.nodes looks.old) root.index + 1) ≤ L.looked looks.new) }
    ensures cost { L.looked looks.new ≤ L.looked looks.old + 32 * (level_of (L.nodes looks.old) root.index + 1) }
    ensures same { L.nodes looks.new ≡ L.nodes looks.old }
    ensures kept { L.summaries looks.new ≡ L.summaries looks.old }
    ensures lent { L.counter looks.new ≡ L.counter looks.old }
{
    let wanted = Wanted { tag, on: true };
    sought(looks, states, &wanted, root, place)
}

// The least place from one up whose character has a tag, with so many looks at entries.
pub(crate) fn find_tagged(
    mem: &Mem,
    sums: &[Summary],
    states: &StateTable,
    root: NodeId,
    tag: TagId,
    place: usize,
    steps: &mut u64,
) -> Option<usize>
    requires tree { IsTree mem.now root.index }
    requires sums { AreSummed states.now mem.now sums.now }
    requires tag { IsTag states.now tag }
    requires given { AllByRecursion (IsState states.now) (shown_states (tree_runs mem.now root.index)) }
    requires few { AreFew (counts_of (tree_runs mem.now root.index)) }
    requires room { steps.old + 32 * (level_of mem.now root.index + 1) < 2 ^ 64 }
    ensures place { (text : List ℕ) → AllByRecursion (IsRun text) (tree_runs mem.now root.index)
        → result ≡ next_tagged states.now tag (cells_of_runs text (tree_runs mem.now root.index)) place }
    ensures counted { steps.old ≤ steps.new }
    ensures looked { (text : List ℕ) → AllByRecursion (IsRun text) (tree_runs mem.now root.index)
        → IfSome result (λ _. steps.old + (level_of mem.now root.index + 1) ≤ steps.new) }
    ensures cost { steps.new ≤ steps.old + 32 * (level_of mem.now root.index + 1) }
{
    let nodes = Counted { mem, looks: steps };
    let mut sight = CountedTags { nodes, sums };
    seek(&mut sight, states, root, tag, place)
}
