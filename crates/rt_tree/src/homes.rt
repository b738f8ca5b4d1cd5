// The leaves in which cells stand, by their stamps.
ghost use Rattle.std.specs.Prelude.{◌≡◌, ℕ, ◌+◌, ◌-◌, ◌&&◌, ◌<◌, ◌≤◌, ◌^◌, ◌∷◌, [], IfOk, IsOkUnless, OnOk, OnErr, IfSome, IsSome, Some, None, if◌then◌else◌, nat_lt, false, true, length, min, slice_get};
ghost use Rattle.std.specs.List.{AllByRecursion};
ghost use Rattle.rt_stamps.specs.declared.stamp.Stamp.{Stamp};
ghost use Rattle.rt_nodes.specs.Nodes.{IsNode, entries};
ghost use Rattle.rt_tree.specs.declared.node.Entry.TheVariants.{Here};
ghost use Rattle.rt_tree.specs.declared.node.Run.{Run};
ghost use Rattle.rt_spans.specs.Shown.{KeepsBorders, value_of};
ghost use Rattle.rt_tree.specs.Homes.{AreHome, AreOnceEach, AreUnknown, HasLeaves, IsSaid, IsSpanOf, IsUnknown, KeepsAll, KeepsOthers};
ghost use Rattle.rt_tree.specs.Holds.{Holds};
ghost use Rattle.rt_tree.specs.Runs.{IsRun, has_cell, run_cells};
ghost use Rattle.rt_tree.specs.Shape.{IsTree, level_of, tree_runs};
ghost use Rattle.rt_tree.specs.Skips.{HasCells};
ghost use Rattle.rt_tree.specs.Standing.{AreHoused, HasLeaf, HaveLeavesBelow, IsBordered, IsEntered};
ghost use Rattle.rt_tree.specs.Sums.{AreFew, counts_of};
ghost use Rattle.rt_tree.specs.Trees.{final_run};
ghost use Rattle.rt_tree.specs.Walks.{IsBehind};

use crate::find::{cell_in, has};
use crate::near::found_at;
use crate::node::{Counts, Entry, Mem, Run};
use crate::node_entry::read_entry;
use crate::settle::level_of;
use crate::walk::Found;
use rt_nodes::NodeId;
use rt_spans::SpanMap;
use rt_stamps::{FINAL, Fault, Span, Stamp};
use rt_store::Cell;
use rt_tags::StateId;
use std::alloc::Global;

/// Leaves by the stamps of their cells. While it is sure, each run's stamps have the leaf in which the run stands, in spans of
/// their own: so a run that moves to another leaf is told again with no room.
#[derive(Drop)]
pub(crate) struct Homes {
    pub(crate) leaves: SpanMap<NodeId>,
    // So many spans can be given a leaf.
    pub(crate) left: usize,
    // Whether each cell's stamp has a leaf, and no two cells have one stamp.
    pub(crate) sure: bool,
    ghost fits: { left ≤ leaves.room },
}

/// How many spans are given a leaf for new cells and cuts: one for each cell, which is a run perhaps, and one for each cut, which
/// makes one run more. The runs of a leaf that is cut in two are told again, and take no room.
pub(crate) fn spans_for(cells: usize, cuts: usize) -> usize
    ensures { result ≡ min (cells + cuts) (2 ^ 64 - 1) }
{
    cells.saturating_add(cuts)
}

// A run, and what the runs before it count.
#[derive(Clone, Copy)]
pub(crate) struct Home {
    pub(crate) run: Run,
    pub(crate) before: Counts,
}

impl Home {
    // How far into the run the cell of a stamp is that it has.
    #[inline(always)]
    pub(crate) fn offset(self, stamp: Stamp) -> usize
        requires { has_cell self.run stamp ≡ true }
        ensures { result ≡ stamp.count - self.run.first }
    {
        (stamp.count - self.run.first) as usize
    }

    // The position of the cell of a stamp that the run has.
    #[inline(always)]
    pub(crate) fn position(self, stamp: Stamp) -> usize
        requires has { has_cell self.run stamp ≡ true }
        requires few { self.before.cells + self.run.len < 2 ^ 33 }
        ensures { result ≡ self.before.cells + (stamp.count - self.run.first) }
    {
        self.before.cells as usize + self.offset(stamp)
    }

    // The cell itself.
    pub(crate) fn cell(self, text: &[char], stamp: Stamp) -> Cell<StateId>
        requires run { IsRun text.now self.run }
        requires has { has_cell self.run stamp ≡ true }
        ensures { slice_get (run_cells text.now self.run) (stamp.count - self.run.first) ≡ Some result }
    {
        let offset = self.offset(stamp);
        cell_in(text, &self.run, offset)
    }

    // The position of a stamp's cell, if the run doesn't begin with it.
    pub(crate) fn inside(self, stamp: Stamp) -> Option<usize>
        requires has { has_cell self.run stamp ≡ true }
        requires few { self.before.cells + self.run.len < 2 ^ 33 }
        ensures { result ≡ (if nat_lt self.run.first stamp.count then Some (self.before.cells + (stamp.count - self.run.first)) else None) }
    {
        if self.run.first < stamp.count {
            Some(self.position(stamp))
        } else {
            None
        }
    }
}

// What is known of where a stamp is: no run has it, or this one has it, or nothing is known.
#[derive(Clone, Copy)]
pub(crate) enum Sought {
    Nowhere,
    At(Home),
    Unknown,
}

// The span of a run's stamps; none if it has none, or the greatest count that there is.
#[inline(always)]
fn span_of(run: &Run) -> Option<Span>
    ensures is { IfSome result (λ span. IsSpanOf run.now span) }
    ensures some { 0 < run.now.len → run.now.first + run.now.len < 2 ^ 64 → IsSome result }
{
    if run.len == 0 {
        return None;
    }
    let end = run.first.checked_add(run.len as u64)?;
    Some(Span {
        site: run.site,
        first: run.first,
        last: end - 1,
    })
}

// Where in a node a run with a stamp stands.
pub(crate) fn entry_with(mem: &Mem, node: NodeId, stamp: Stamp) -> Option<usize>
    requires { IsNode mem.now node.index }
    ensures { IfSome result (λ i. (run : Run) × (slice_get (entries mem.now node.index) i ≡ Some (Here run)) × (has_cell run stamp ≡ true)) }
{
    for i in 0..mem.len(node) {
        if has_at(mem, node, i, stamp) {
            return Some(i);
        }
    }
    None
}

// Whether an entry of a node is a run with a stamp.
fn has_at(mem: &Mem, node: NodeId, i: usize, stamp: Stamp) -> bool
    requires { IsNode mem.now node.index × (i < length (entries mem.now node.index)) }
    ensures { result ≡ true → (run : Run) × (slice_get (entries mem.now node.index) i ≡ Some (Here run)) × (has_cell run stamp ≡ true) }
{
    match read_entry(mem, node, i) {
        Entry::Here(run) => has(run, stamp),
        Entry::Down(..) => false,
    }
}

impl Homes {
    // The leaf of the final newline alone is known.
    pub(crate) fn new(alloc: Global, root: NodeId) -> Result<Homes, Fault>
        ensures home { IfOk result (λ homes. AreHome homes.leaves (final_run ∷ [])) }
        ensures bordered { IfOk result (λ homes. IsBordered homes.leaves final_run) }
        ensures there { IfOk result (λ homes. HasLeaf homes.leaves root.index final_run) }
        ensures left { IfOk result (λ homes. homes.left ≡ 0) }
        ensures sure { IfOk result (λ homes. homes.sure ≡ true) }
        ensures err { IsOkUnless result Fault.NoMemory }
    {
        let mut leaves = SpanMap::new(alloc);
        leaves.reserve(1)?;
        let span = Span {
            site: FINAL.site,
            first: FINAL.count,
            last: FINAL.count,
        };
        leaves.set(span, root);
        Ok(Homes {
            leaves,
            left: 0,
            sure: true,
        })
    }

    // Makes room for so many spans.
    pub(crate) fn reserve(&mut self, spans: usize) -> Result<(), Fault>
        ensures leaves { (stamp : Stamp) → value_of self.new.leaves stamp ≡ value_of self.old.leaves stamp }
        ensures borders { KeepsBorders self.old.leaves self.new.leaves }
        ensures sure { self.new.sure ≡ self.old.sure }
        ensures ok { OnOk result (spans ≤ self.new.left) }
        ensures more { self.old.left ≤ self.new.left }
        ensures fault { IsOkUnless result Fault.NoMemory }
    {
        if spans > u32::MAX as usize {
            return Err(Fault::NoMemory);
        }
        self.leaves.reserve(spans)?;
        self.left = self.left.max(spans);
        Ok(())
    }

    // The leaf of a stamp, if it has one.
    pub(crate) fn leaf_of(&self, stamp: Stamp) -> Option<NodeId>
        ensures { result ≡ value_of self.now.leaves stamp }
    {
        self.leaves.get(stamp)
    }

    // Whether no cell has a stamp, as far as is known, that has this leaf or none.
    pub(crate) fn is_nowhere(&self, leaf: Option<NodeId>) -> bool
        ensures { result ≡ true → (self.now.sure ≡ true) × (leaf ≡ None) }
    {
        self.sure && leaf.is_none()
    }

    // The run that is known to stand somewhere, if it has a stamp and no other run has it.
    #[inline(always)]
    pub(crate) fn near(
        &self,
        mem: &Mem,
        root: NodeId,
        last: &Option<Found>,
        stamp: Stamp,
    ) -> Option<Home>
        requires tree { IsTree mem.now root.index }
        requires held { IfSome last.now (Holds mem.now root.index) }
        ensures sure { IfSome result (λ _. self.now.sure ≡ true) }
        ensures home { IfSome result (λ home. IsBehind (tree_runs mem.now root.index) home.run home.before) }
        ensures has { IfSome result (λ home. has_cell home.run stamp ≡ true) }
    {
        if !self.sure {
            return None;
        }
        let found = (*last)?;
        if !has(found.run, stamp) {
            return None;
        }
        Some(Home {
            run: found.run,
            before: found.before,
        })
    }

    // The run of a leaf that has a stamp, if there is one and no other run has it. It is compiled into its callers, which
    // mostly want one of the counts.
    #[inline(always)]
    pub(crate) fn locate(
        &self,
        mem: &Mem,
        root: NodeId,
        leaf: Option<NodeId>,
        stamp: Stamp,
    ) -> Option<Home>
        requires tree { IsTree mem.now root.index }
        requires few { AreFew (counts_of (tree_runs mem.now root.index)) }
        ensures sure { IfSome result (λ _. self.now.sure ≡ true) }
        ensures home { IfSome result (λ home. IsBehind (tree_runs mem.now root.index) home.run home.before) }
        ensures has { IfSome result (λ home. has_cell home.run stamp ≡ true) }
    {
        if !self.sure {
            return None;
        }
        home_in(mem, root, leaf?, stamp)
    }

    // Where the run of a stamp stands, if its leaf has one.
    pub(crate) fn stands(&self, mem: &Mem, root: NodeId, stamp: Stamp) -> Option<Found>
        requires tree { IsTree mem.now root.index }
        requires few { AreFew (counts_of (tree_runs mem.now root.index)) }
        ensures { IfSome result (Holds mem.now root.index) }
    {
        let leaf = self.leaf_of(stamp)?;
        if !is_leaf(mem, leaf) {
            return None;
        }
        let entry = entry_with(mem, leaf, stamp)?;
        found_at(mem, root, leaf, entry)
    }

    // Where the run is that has a stamp: the one that is known to stand somewhere, or one of the leaf that the stamp has.
    #[inline(always)]
    pub(crate) fn look_up(
        &self,
        mem: &Mem,
        root: NodeId,
        last: &Option<Found>,
        stamp: Stamp,
    ) -> Sought
        requires tree { IsTree mem.now root.index }
        requires few { AreFew (counts_of (tree_runs mem.now root.index)) }
        requires held { IfSome last.now (Holds mem.now root.index) }
        ensures { IsSaid (tree_runs mem.now root.index) self.now.sure self.now.leaves stamp result }
    {
        if let Some(home) = self.near(mem, root, last, stamp) {
            return Sought::At(home);
        }
        let leaf = self.leaf_of(stamp);
        if self.is_nowhere(leaf) {
            return Sought::Nowhere;
        }
        match self.locate(mem, root, leaf, stamp) {
            Some(home) => Sought::At(home),
            None => Sought::Unknown,
        }
    }

    // Whether no stamp of a run has a leaf.
    fn has_none(&self, run: &Run) -> bool
        requires { run.now.first + run.now.len ≤ 2 ^ 64 }
        ensures none { result ≡ true → AreUnknown self.now.leaves run.now run.now.len }
        ensures all { AreUnknown self.now.leaves run.now run.now.len → result ≡ true }
    {
        for offset in 0..run.len {
            let stamp = Stamp {
                count: run.first + offset as u64,
                site: run.site,
            };
            if self.leaves.get(stamp).is_some() {
                return false;
            }
        }
        true
    }

    // Whether no cell has a stamp of a run, as far as is known; none has a greater count than `newest`.
    #[inline(always)]
    pub(crate) fn is_new(&self, newest: u64, run: &Run) -> bool
        requires { run.now.first + run.now.len ≤ 2 ^ 64 }
        ensures sure { result ≡ true → self.now.sure ≡ true }
        ensures unknown { result ≡ true → IsUnknown self.now.leaves newest run.now }
        ensures old { self.now.sure ≡ true → IsUnknown self.now.leaves newest run.now → result ≡ true }
    {
        self.sure && (run.first > newest || self.has_none(run))
    }

    // The stamps of a run have a leaf from now on, if they can be told.
    #[inline(always)]
    pub(crate) fn place(&mut self, run: &Run, leaf: NodeId) -> bool
        requires { 0 < self.old.left }
        ensures done { 0 < run.now.len → run.now.first + run.now.len < 2 ^ 64 → result ≡ true }
        ensures entered { result ≡ true → IsEntered self.old.leaves self.new.leaves run.now leaf }
        ensures placed { result ≡ true → HasLeaves self.new.leaves run.now }
        ensures keeps { KeepsAll self.old.leaves self.new.leaves }
        ensures sure { self.new.sure ≡ self.old.sure }
        ensures left { self.old.left ≤ self.new.left + 1 }
    {
        match span_of(run) {
            None => false,
            Some(span) => {
                self.left -= 1;
                self.leaves.set(span, leaf);
                true
            }
        }
    }

    // A run was put into a leaf. If it wasn't new, or has the greatest count that there is, nothing is sure any more.
    #[inline(always)]
    pub(crate) fn enter(&mut self, run: &Run, leaf: NodeId, is_new: bool)
        requires { 0 < self.old.left }
        ensures sure { self.new.sure ≡ true → is_new ≡ true }
        ensures stays { is_new ≡ true → 0 < run.now.len → run.now.first + run.now.len < 2 ^ 64 → self.new.sure ≡ true }
        ensures placed { self.new.sure ≡ true → HasLeaves self.new.leaves run.now }
        ensures entered { self.new.sure ≡ true → IsEntered self.old.leaves self.new.leaves run.now leaf }
        ensures keeps { KeepsAll self.old.leaves self.new.leaves }
        ensures left { self.old.left ≤ self.new.left + 1 }
    {
        let placed = self.place(run, leaf);
        self.sure = is_new && placed;
    }

    // A run is in another leaf now, which is told if spans that have a leaf begin and end where the run does. That takes no room.
    fn retell(&mut self, run: &Run, leaf: NodeId)
        ensures entered { 0 < run.now.len → IsBordered self.old.leaves run.now → IsEntered self.old.leaves self.new.leaves run.now leaf }
        ensures others { KeepsOthers self.old.leaves self.new.leaves (run.now ∷ []) }
        ensures keeps { KeepsAll self.old.leaves self.new.leaves }
        ensures sure { self.new.sure ≡ self.old.sure }
        ensures left { self.new.left ≡ self.old.left }
    {
        if let Some(span) = span_of(run) {
            self.leaves.repaint(span, leaf);
        }
    }

    // Tells where the runs of a node are, if it is a leaf.
    fn retell_all(&mut self, mem: &Mem, node: NodeId)
        requires { IsNode mem.now node.index }
        ensures housed { (root : ℕ) → IsTree mem.now root → AreOnceEach (tree_runs mem.now root) → AllByRecursion HasCells (tree_runs mem.now root)
            → AllByRecursion (IsBordered self.old.leaves) (tree_runs mem.now root) → HaveLeavesBelow node.index mem.now self.old.leaves
            → AllByRecursion (IsBordered self.new.leaves) (tree_runs mem.now root) × HaveLeavesBelow (node.index + 1) mem.now self.new.leaves }
        ensures others { (root : ℕ) → IsTree mem.now root → KeepsOthers self.old.leaves self.new.leaves (tree_runs mem.now root) }
        ensures keeps { KeepsAll self.old.leaves self.new.leaves }
        ensures sure { self.new.sure ≡ self.old.sure }
        ensures left { self.new.left ≡ self.old.left }
    {
        for i in 0..mem.len(node) {
            match read_entry(mem, node, i) {
                Entry::Here(run) => self.retell(&run, node),
                Entry::Down(..) => {}
            }
        }
    }

    // Tells where the runs of new nodes are, those from a number on, if all that is known of other runs is sure.
    #[inline(always)]
    pub(crate) fn note_new(&mut self, mem: &Mem, nodes: usize)
        requires { length mem.now.heads ≡ length mem.now.rows }
        ensures housed { (root : ℕ) → self.old.sure ≡ true → IsTree mem.now root → length (tree_runs mem.now root) < 2 ^ 32
            → AreOnceEach (tree_runs mem.now root) → AllByRecursion HasCells (tree_runs mem.now root)
            → AllByRecursion (IsBordered self.old.leaves) (tree_runs mem.now root) → HaveLeavesBelow nodes mem.now self.old.leaves
            → AreHoused mem.now root self.new.leaves }
        ensures others { (root : ℕ) → IsTree mem.now root → KeepsOthers self.old.leaves self.new.leaves (tree_runs mem.now root) }
        ensures keeps { KeepsAll self.old.leaves self.new.leaves }
        ensures sure { self.new.sure ≡ self.old.sure }
        ensures left { self.new.left ≡ self.old.left }
    {
        if nodes < mem.nodes() {
            self.retell_new(mem, nodes);
        }
    }

    // Tells where the runs of new nodes are, of which there are some.
    #[inline(never)]
    fn retell_new(&mut self, mem: &Mem, nodes: usize)
        requires { length mem.now.heads ≡ length mem.now.rows }
        ensures housed { (root : ℕ) → self.old.sure ≡ true → IsTree mem.now root → length (tree_runs mem.now root) < 2 ^ 32
            → AreOnceEach (tree_runs mem.now root) → AllByRecursion HasCells (tree_runs mem.now root)
            → AllByRecursion (IsBordered self.old.leaves) (tree_runs mem.now root) → HaveLeavesBelow nodes mem.now self.old.leaves
            → AreHoused mem.now root self.new.leaves }
        ensures others { (root : ℕ) → IsTree mem.now root → KeepsOthers self.old.leaves self.new.leaves (tree_runs mem.now root) }
        ensures keeps { KeepsAll self.old.leaves self.new.leaves }
        ensures sure { self.new.sure ≡ self.old.sure }
        ensures left { self.new.left ≡ self.old.left }
    {
        if !self.sure {
            return;
        }
        // There are no more ids.
        let end = mem.nodes().min(1 << 32);
        for index in nodes..end {
            let index = index as u32;
            self.retell_all(mem, NodeId { index });
        }
    }
}

// Whether a number is that of a leaf.
#[inline(always)]
pub(crate) fn is_leaf(mem: &Mem, leaf: NodeId) -> bool
    requires { length mem.now.heads ≡ length mem.now.rows }
    ensures yes { result ≡ true → IsNode mem.now leaf.index × (level_of mem.now leaf.index ≡ 0) }
    ensures no { result ≡ false → leaf.index < length mem.now.heads → level_of mem.now leaf.index ≡ 0 → ⊥ }
{
    (leaf.index as usize) < mem.nodes() && level_of(mem, leaf) == 0
}

// The run of a node that has a stamp, if it is a leaf and has one.
#[inline(always)]
fn home_in(mem: &Mem, root: NodeId, leaf: NodeId, stamp: Stamp) -> Option<Home>
    requires tree { IsTree mem.now root.index }
    requires few { AreFew (counts_of (tree_runs mem.now root.index)) }
    ensures home { IfSome result (λ home. IsBehind (tree_runs mem.now root.index) home.run home.before) }
    ensures has { IfSome result (λ home. has_cell home.run stamp ≡ true) }
{
    if !is_leaf(mem, leaf) {
        return None;
    }
    let entry = entry_with(mem, leaf, stamp)?;
    home_at(mem, root, leaf, entry)
}

// The run at an entry of a leaf.
#[inline(always)]
fn home_at(mem: &Mem, root: NodeId, leaf: NodeId, entry: usize) -> Option<Home>
    requires tree { IsTree mem.now root.index }
    requires few { AreFew (counts_of (tree_runs mem.now root.index)) }
    requires leaf { IsNode mem.now leaf.index × (level_of mem.now leaf.index ≡ 0) }
    requires within { entry < length (entries mem.now leaf.index) }
    ensures home { IfSome result (λ home. IsBehind (tree_runs mem.now root.index) home.run home.before) }
    ensures run { IfSome result (λ home. slice_get (entries mem.now leaf.index) entry ≡ Some (Here home.run)) }
{
    let Found { run, before, .. } = found_at(mem, root, leaf, entry)?;
    Some(Home { run, before })
}
