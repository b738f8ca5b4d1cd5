// The sight of nodes that walks have.
ghost use Rattle.std.specs.Prelude.{◌≡◌, ℕ, ◌+◌, ◌<◌, ◌≤◌, ◌^◌, List, [], None, Some, if◌then◌else◌, length, slice_index_or};
ghost use Rattle.std.specs.Borrow.{GName};
ghost use Rattle.rt_nodes.specs.Nodes.{IsNode, entries};
ghost use Rattle.rt_tree.specs.declared.node.Entry.TheVariants.{Here};
ghost use Rattle.rt_tree.specs.declared.summary.Summary.{Summary};
ghost use Rattle.rt_tree.specs.Shape.{Memory, parent_of};
ghost use Rattle.rt_tree.specs.Sights.{borders_in, first_in};

use crate::node::{Entry, Mem, Run};
use crate::node_entry::NodeEntry;
use crate::summary::Summary;
use rt_nodes::NodeId;
use rt_tags::{StateId, TagId};

/// What a look at an entry tells: the entry, and how a tag goes through its visible characters, if one
/// was asked for.
#[derive(Clone, Copy)]
pub struct Sight {
    pub entry: NodeEntry,
    /// How many borders the tag has between these characters; 0 where no tag was asked for.
    pub borders: u32,
    /// The state of the first of them; none where there is none, or no tag was asked for.
    pub first: Option<StateId>,
}

/// The only sight of nodes that the walks `descend`, `ascend` and `seek` have. It counts the entries that are looked at.
pub trait Looks {
    /// The nodes.
    ghost nodes: { Self → Memory };

    /// What is kept for each node of the tags on the characters below it; nothing, where tags aren't seen.
    ghost summaries: { Self → List Summary };

    /// How many looks there were.
    ghost looked: { Self → ℕ };

    /// The counter that was lent.
    ghost counter: { Self → GName };

    /// How many entries a node has.
    fn len(&self, node: NodeId) -> usize
        requires { IsNode (nodes self.now) node.index }
        ensures value { result ≡ length (entries (nodes self.now) node.index) }
        ensures fits { result ≤ 16 };

    /// The parent of a node.
    fn parent(&self, node: NodeId) -> NodeId
        requires { IsNode (nodes self.now) node.index }
        ensures { result.index ≡ parent_of (nodes self.now) node.index };

    /// An entry of a node, with what is told of a tag there, if one is asked for. It is one look more.
    fn look(&mut self, node: NodeId, i: usize, tag: Option<TagId>) -> Sight
        requires node { IsNode (nodes self.old) node.index }
        requires within { i < length (entries (nodes self.old) node.index) }
        requires room { looked self.old + 1 < 2 ^ 64 }
        ensures tells { result.entry ≡ slice_index_or (entries (nodes self.old) node.index) i result.entry }
        ensures borders { result.borders ≡ borders_in (summaries self.old) tag result.entry }
        ensures first { result.first ≡ first_in (summaries self.old) tag result.entry }
        ensures counts { looked self.new ≡ looked self.old + 1 }
        ensures same { nodes self.new ≡ nodes self.old }
        ensures kept { summaries self.new ≡ summaries self.old }
        ensures lent { counter self.new ≡ counter self.old };
}

/// The nodes of a tree, and the counter of looks that is lent to a walk. It tells nothing of tags below
/// nodes.
#[derive(Drop)]
pub struct Counted<'a> {
    pub(crate) mem: &'a Mem,
    pub(crate) looks: &'a mut u64,
}

/// The nodes of a tree with what is kept for them of tags, and the counter of looks that is lent to a
/// walk.
#[derive(Drop)]
pub struct CountedTags<'a, 'b> {
    pub(crate) nodes: Counted<'a>,
    pub(crate) sums: &'b [Summary],
}

// An entry of which nothing is told but itself.
fn plain(entry: NodeEntry) -> Sight
    ensures { result ≡ record { entry = entry; borders = 0; first = None } }
{
    Sight {
        entry,
        borders: 0,
        first: None,
    }
}

// What is told of a run: it has one state.
fn told_of_run(run: Run) -> Sight
    ensures entry { result.entry ≡ Here run }
    ensures borders { result.borders ≡ 0 }
    ensures first { result.first ≡ (if run.gone then None else Some run.state) }
{
    let first = if run.gone { None } else { Some(run.state) };
    Sight {
        entry: NodeEntry::new(Entry::Here(run)),
        borders: 0,
        first,
    }
}

// What is told of an entry, by what is kept for nodes of tags.
fn told(entry: NodeEntry, sums: &[Summary], tag: Option<TagId>) -> Sight
    ensures entry { result.entry ≡ entry }
    ensures borders { result.borders ≡ borders_in sums.now tag entry }
    ensures first { result.first ≡ first_in sums.now tag entry }
{
    let tag = match tag {
        Some(tag) => tag,
        None => return plain(entry),
    };
    let child = match entry.get() {
        Entry::Down(child, _) => child,
        Entry::Here(run) => return told_of_run(run),
    };
    match sums.get(child.index as usize) {
        Some(sum) => Sight {
            entry,
            borders: sum.counts.of(tag),
            first: sum.first,
        },
        None => plain(entry),
    }
}

impl Looks for Counted<'_> {
    ghost nodes = { λ s. s.mem.now };

    ghost summaries = { λ s. [] };

    ghost looked = { λ s. s.looks.now };

    ghost counter = { λ s. s.looks.ghost_name };

    fn len(&self, node: NodeId) -> usize {
        self.mem.len(node)
    }

    fn parent(&self, node: NodeId) -> NodeId {
        self.mem.head(node).parent
    }

    fn look(&mut self, node: NodeId, i: usize, tag: Option<TagId>) -> Sight {
        *self.looks += 1;
        told(*self.mem.entry(node, i), &[], tag)
    }
}

impl Looks for CountedTags<'_, '_> {
    ghost nodes = { λ s. s.nodes.mem.now };

    ghost summaries = { λ s. s.sums.now };

    ghost looked = { λ s. s.nodes.looks.now };

    ghost counter = { λ s. s.nodes.looks.ghost_name };

    fn len(&self, node: NodeId) -> usize {
        self.nodes.len(node)
    }

    fn parent(&self, node: NodeId) -> NodeId {
        self.nodes.parent(node)
    }

    fn look(&mut self, node: NodeId, i: usize, tag: Option<TagId>) -> Sight {
        told(self.nodes.look(node, i, None).entry, self.sums, tag)
    }
}
