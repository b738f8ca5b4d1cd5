// The summaries of all nodes, and the memory that they are changed in.
ghost use Rattle.std.specs.Prelude.{◌≡◌, ℕ, ◌+◌, ◌<◌, ◌≤◌, [], ◌∷◌, IsOkUnless, IfOk, IsOk, OnErr, OnOk, length, vec_len};
ghost use Rattle.rt_tags.specs.States.{TagStates};
ghost use Rattle.rt_tree.specs.Summaries.{HaveMemory, IsSummary, TellsAs, room_at, summary_of};

use crate::summary::Summary;
use rt_stamps::Fault;
use rt_tags::{StateId, Toggles};
use std::alloc::Global;

/// A summary for each node by its number, spare nodes too, and what they are changed with.
#[derive(Drop)]
pub struct Summaries {
    pub(crate) each: Vec<Summary>,
    /// The borders that a change takes away at a node.
    pub(crate) minus: Toggles,
    /// The borders that it adds.
    pub(crate) plus: Toggles,
    /// What a node's summary is made in.
    pub(crate) spare: Summary,
    /// How many tags there is memory for in each of these.
    pub(crate) tags: usize,
    pub(crate) heap: Global,
}

// Memory for counts of so many tags.
fn reserve_counts(counts: &mut Toggles, tags: usize) -> Result<(), Fault>
    ensures same { counts.new.counts ≡ counts.old.counts }
    ensures ok { OnOk result (tags ≤ counts.new.capacity) }
    ensures kept { counts.old.capacity ≤ counts.new.capacity }
    ensures fault { IsOkUnless result Fault.NoMemory }
{
    let missing = tags.saturating_sub(counts.counts().len());
    counts.reserve(missing)
}

// No character.
fn no_summary(heap: Global) -> Summary
    ensures { (table : TagStates) → IsSummary table [] result }
{
    Summary {
        first: None,
        last: None,
        counts: Toggles::new(heap),
    }
}

// One visible run.
fn one_run(heap: Global, state: StateId) -> Summary
    ensures { (table : TagStates) → IsSummary table (state ∷ []) result }
{
    Summary {
        first: Some(state),
        last: Some(state),
        counts: Toggles::new(heap),
    }
}

// Memory in a summary.
fn reserve_in(summary: &mut Summary, tags: usize) -> Result<(), Fault>
    ensures same { TellsAs summary.old summary.new }
    ensures ok { OnOk result (tags ≤ summary.new.counts.capacity) }
    ensures kept { summary.old.counts.capacity ≤ summary.new.counts.capacity }
    ensures fault { IsOkUnless result Fault.NoMemory }
{
    reserve_counts(&mut summary.counts, tags)
}

// Memory in the summary of one node.
fn reserve_at(each: &mut [Summary], id: usize, tags: usize) -> Result<(), Fault>
    requires { id < length each.old }
    ensures same { (i : ℕ) → TellsAs (summary_of each.old i) (summary_of each.new i) }
    ensures many { length each.new ≡ length each.old }
    ensures ok { OnOk result (tags ≤ room_at each.new id) }
    ensures kept { (i : ℕ) → room_at each.old i ≤ room_at each.new i }
    ensures fault { IsOkUnless result Fault.NoMemory }
{
    reserve_in(&mut each[id], tags)
}

// Memory in each summary.
fn reserve_each(each: &mut [Summary], tags: usize) -> Result<(), Fault>
    ensures same { (i : ℕ) → TellsAs (summary_of each.old i) (summary_of each.new i) }
    ensures many { length each.new ≡ length each.old }
    ensures ok { OnOk result ((i : ℕ) → i < length each.new → tags ≤ room_at each.new i) }
    ensures kept { (i : ℕ) → room_at each.old i ≤ room_at each.new i }
    ensures fault { IsOkUnless result Fault.NoMemory }
{
    for id in 0..each.len() {
        reserve_at(each, id, tags)?;
    }
    Ok(())
}

impl Summaries {
    // No node, and memory for none.
    pub(crate) fn new(heap: Global) -> Summaries
        ensures nodes { result.each.items ≡ [] }
        ensures memory { HaveMemory result }
        ensures tags { result.tags ≡ 0 }
    {
        Summaries {
            each: Vec::new(heap),
            minus: Toggles::new(heap),
            plus: Toggles::new(heap),
            spare: no_summary(heap),
            tags: 0,
            heap,
        }
    }

    // One node with one visible run, and memory for no tag.
    pub(crate) fn of_one(heap: Global, state: StateId) -> Result<Summaries, Fault>
        ensures one { IfOk result (λ sums. length sums.each.items ≡ 1) }
        ensures is { IfOk result (λ sums. (table : TagStates) → IsSummary table (state ∷ []) (summary_of sums.each.items 0)) }
        ensures memory { IfOk result HaveMemory }
        ensures tags { IfOk result (λ sums. sums.tags ≡ 0) }
        ensures fault { IsOkUnless result Fault.NoMemory }
    {
        let mut sums = Summaries::new(heap);
        sums.each.push(one_run(heap, state))?;
        Ok(sums)
    }

    // Memory for counts of so many tags, or of twice as many as before: to go through all summaries then costs little for each tag.
    fn reserve_tags(&mut self, tags: usize) -> Result<(), Fault>
        requires memory { HaveMemory self.old }
        ensures memory { HaveMemory self.new }
        ensures same { (i : ℕ) → TellsAs (summary_of self.old.each.items i) (summary_of self.new.each.items i) }
        ensures many { length self.new.each.items ≡ length self.old.each.items }
        ensures ok { OnOk result (tags ≤ self.new.tags) }
        ensures kept { self.old.tags ≤ self.new.tags }
        ensures there { tags ≤ self.old.tags → IsOk result }
        ensures fault { IsOkUnless result Fault.NoMemory }
    {
        if tags <= self.tags {
            return Ok(());
        }
        let more = tags.max(self.tags.saturating_mul(2));
        reserve_counts(&mut self.minus, more)?;
        reserve_counts(&mut self.plus, more)?;
        reserve_in(&mut self.spare, more)?;
        reserve_each(self.each.as_mut_slice(), more)?;
        self.tags = more;
        Ok(())
    }

    // A summary more, of no character.
    fn add_node(&mut self) -> Result<(), Fault>
        requires memory { HaveMemory self.old }
        ensures memory { HaveMemory self.new }
        ensures same { (i : ℕ) → i < length self.old.each.items → summary_of self.new.each.items i ≡ summary_of self.old.each.items i }
        ensures ok { OnOk result (length self.new.each.items ≡ length self.old.each.items + 1) }
        ensures err { OnErr result (length self.new.each.items ≡ length self.old.each.items) }
        ensures tags { self.new.tags ≡ self.old.tags }
        ensures fault { IsOkUnless result Fault.NoMemory }
    {
        let mut summary = no_summary(self.heap);
        reserve_in(&mut summary, self.tags)?;
        self.each.push(summary)?;
        Ok(())
    }

    // Summaries of so many nodes.
    fn reserve_nodes(&mut self, nodes: usize) -> Result<(), Fault>
        requires memory { HaveMemory self.old }
        ensures memory { HaveMemory self.new }
        ensures same { (i : ℕ) → i < length self.old.each.items → summary_of self.new.each.items i ≡ summary_of self.old.each.items i }
        ensures ok { OnOk result (nodes ≤ length self.new.each.items) }
        ensures kept { length self.old.each.items ≤ length self.new.each.items }
        ensures tags { self.new.tags ≡ self.old.tags }
        ensures there { nodes ≤ length self.old.each.items → IsOk result }
        ensures fault { IsOkUnless result Fault.NoMemory }
    {
        for _ in self.each.len()..nodes {
            self.add_node()?;
        }
        Ok(())
    }

    /// Makes summaries of so many nodes, spare ones too, with memory for counts of so many tags in each. What summaries tell stays,
    /// also where the answer is `NoMemory`; only memory may be more.
    pub(crate) fn reserve(&mut self, nodes: usize, tags: usize) -> Result<(), Fault>
        requires memory { HaveMemory self.old }
        ensures memory { HaveMemory self.new }
        ensures same { (i : ℕ) → i < length self.old.each.items → TellsAs (summary_of self.old.each.items i) (summary_of self.new.each.items i) }
        ensures nodes { OnOk result (nodes ≤ length self.new.each.items) }
        ensures tags { OnOk result (tags ≤ self.new.tags) }
        ensures kept_nodes { length self.old.each.items ≤ length self.new.each.items }
        ensures kept_tags { self.old.tags ≤ self.new.tags }
        ensures there { nodes ≤ length self.old.each.items → tags ≤ self.old.tags → IsOk result }
        ensures fault { IsOkUnless result Fault.NoMemory }
    {
        self.reserve_tags(tags)?;
        self.reserve_nodes(nodes)
    }
}
