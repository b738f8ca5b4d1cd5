// Entries as nodes keep them.
ghost use Rattle.std.specs.Prelude.{◌≡◌, ◌<◌, ◌≤◌, length, slice_index_or, insert};
ghost use Rattle.rt_nodes.specs.Nodes.{IsNode, entries, with_entries, with_entry};
ghost use Rattle.rt_tree.specs.Changes.{entry_totals, with_more};
ghost use Rattle.rt_tree.specs.Sums.{AreFew, plus};

use crate::node::{Entry, Mem, Run, Totals};
use crate::settle::grow_by;
use rt_nodes::NodeId;
use rt_tags::StateId;
use std::marker::Model;

// An entry with the fields of its run beside each other.
#[derive(Clone, Copy)]
enum Form {
    Node(NodeId, Totals),
    Cells {
        gone: bool,
        newline: bool,
        site: u32,
        first: u64,
        state: StateId,
        at: u32,
        len: u32,
    },
}

/// An entry as a node keeps it, in 32 bytes: what it is, the two flags and the site of a run take eight together.
#[derive(Clone, Copy)]
pub struct NodeEntry {
    form: Form,
}

impl Model for NodeEntry {
    ghost use Rattle.rt_tree.specs.declared.node.Entry.{Entry as Shown};

    ghost Value = { Shown };

    ghost use Rattle.rt_tree.specs.NodeEntries.{form_of, entry_of_form};

    ghost view = { λ k. entry_of_form k.form };

    ghost inverse = { λ e. record { form = form_of e } };
}

impl NodeEntry {
    /// It as a node keeps it.
    pub fn new(entry: Entry) -> NodeEntry
        ensures { result ≡ entry }
    {
        let form = match entry {
            Entry::Down(node, totals) => Form::Node(node, totals),
            Entry::Here(run) => Form::Cells {
                gone: run.gone,
                newline: run.newline,
                site: run.site,
                first: run.first,
                state: run.state,
                at: run.at,
                len: run.len,
            },
        };
        NodeEntry { form }
    }

    /// The entry.
    #[inline(always)]
    pub fn get(&self) -> Entry
        ensures { result ≡ self.now }
    {
        match self.form {
            Form::Node(node, totals) => Entry::Down(node, totals),
            Form::Cells {
                gone,
                newline,
                site,
                first,
                state,
                at,
                len,
            } => Entry::Here(Run {
                first,
                state,
                at,
                len,
                site,
                gone,
                newline,
            }),
        }
    }
}

impl NodeEntry {
    // Joins more to the totals that it has for a node.
    #[inline(always)]
    fn grow(&mut self, more: Totals)
        requires { AreFew (plus more.counts (entry_totals self.old).counts) }
        ensures { self.new ≡ with_more more self.old }
    {
        if let Form::Node(_, totals) = &mut self.form {
            grow_by(totals, more);
        }
    }
}

/// An entry of a node.
#[inline(always)]
pub(crate) fn read_entry(mem: &Mem, id: NodeId, i: usize) -> Entry
    requires node { IsNode mem.now id.index }
    requires within { i < length (entries mem.now id.index) }
    ensures { result ≡ slice_index_or (entries mem.now id.index) i result }
{
    mem.entry(id, i).get()
}

/// Puts an entry into a node, before the one at `i` or behind the last. The node must have room.
pub(crate) fn insert_entry(mem: &mut Mem, id: NodeId, i: usize, entry: Entry)
    requires node { IsNode mem.old id.index }
    requires within { i ≤ length (entries mem.old id.index) }
    requires room { length (entries mem.old id.index) < 16 }
    ensures { mem.new ≡ with_entries mem.old id.index (insert (entries mem.old id.index) i entry) }
{
    mem.insert_at(id, i, NodeEntry::new(entry));
}

/// Replaces an entry.
pub(crate) fn set_entry(mem: &mut Mem, id: NodeId, i: usize, entry: Entry)
    requires { IsNode mem.old id.index × (i < length (entries mem.old id.index)) }
    ensures { mem.new ≡ with_entry mem.old id.index i entry }
{
    *mem.entry_mut(id, i) = NodeEntry::new(entry);
}

/// Joins more to the totals that an entry keeps, in place.
#[inline(always)]
pub(crate) fn add_to(mem: &mut Mem, id: NodeId, i: usize, more: Totals)
    requires node { IsNode mem.old id.index × (i < length (entries mem.old id.index)) }
    requires few { (e : Entry) → e ≡ slice_index_or (entries mem.old id.index) i e → AreFew (plus more.counts (entry_totals e).counts) }
    ensures { (e : Entry) → e ≡ slice_index_or (entries mem.old id.index) i e → mem.new ≡ with_entry mem.old id.index i (with_more more e) }
{
    mem.entry_mut(id, i).grow(more);
}
