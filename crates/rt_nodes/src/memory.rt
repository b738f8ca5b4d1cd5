//! Nodes by id.
ghost use Rattle.std.specs.Prelude.{◌≡◌, ◌≢◌, ◌+◌, ◌-◌, ◌<◌, ◌≤◌, List, [], ◌∷◌, ◌++◌, length, OnOk, OnErr, IsOkUnless, IfOk, IsOk, slice_index_or, slice_set, take, drop, insert, max};
ghost use Rattle.std.specs.Borrow.{sem};
ghost use Rattle.rt_nodes.specs.Nodes.{IsNode, entries, no_nodes, with_entries, with_node, with_room};
ghost use Rattle.rt_nodes.specs.Rows.{AreEmpty, row_at, with_tail_moved};

use crate::block::Block;
use rt_stamps::Fault;
use std::alloc::{AllocError, Global};
use std::marker::Model;

// How many nodes have an id.
const MOST: usize = 1 << 32;

/// The id of a node in its memory: nodes are numbered from 0 in the order in which they were made.
#[derive(Clone, Copy, Debug, PartialEq, Eq)]
pub struct NodeId {
    /// The number.
    pub index: u32,
}

/// Nodes by id, and room for more. None is taken away.
pub struct NodeMem<H, E, const CAP: usize> {
    heads: Vec<H>,
    rows: Vec<Block<E>>,
    spare: Vec<Block<E>>,
    alloc: Global,
}

impl<H, E, const CAP: usize> Model for NodeMem<H, E, CAP> {
    ghost use Rattle.std.specs.Prelude.{map, vec_len};
    ghost use Rattle.rt_nodes.specs.Nodes.{Nodes as Shown, nodes_code};
    ghost use Rattle.rt_nodes.specs.Rows.{row_items};
    ghost use Rattle.rt_nodes.specs.Inside.{IsMemory};

    ghost Value = { Shown H E };

    ghost coded = { nodes_code H.code E.code };

    ghost view = { λ m. record { heads = m.heads.items; rows = map row_items m.rows.items; room = vec_len m.spare } };

    ghost invariant = { λ m. IsMemory CAP m.heads m.rows m.spare };
}

impl<H, E, const CAP: usize> NodeMem<H, E, CAP> {
    ghost use Rattle.rt_nodes.specs.Lends.{lends_head, lends_entry};

    /// No node, and room for none.
    pub fn new(alloc: Global) -> Self
        ensures { result ≡ no_nodes }
    {
        NodeMem {
            heads: Vec::new(alloc),
            rows: Vec::new(alloc),
            spare: Vec::new(alloc),
            alloc,
        }
    }

    /// Makes room for `n` nodes more. Answers `NoMemory` without the memory, or the ids: there are 2^32.
    pub fn reserve(&mut self, n: usize) -> Result<(), Fault>
    where
        E: Drop,
        ensures room { OnOk result (self.new ≡ with_room self.old (max self.old.room n)) }
        ensures fault { IsOkUnless result Fault.NoMemory }
        ensures refused { OnErr result (self.new ≡ self.old) }
        ensures roomy { n ≤ self.old.room → IsOk result }
    {
        let had = self.spare.len();
        if n <= had {
            return Ok(());
        }
        if n > MOST - self.heads.len() {
            return Err(Fault::NoMemory);
        }
        self.heads.reserve(n)?;
        self.rows.reserve(n)?;
        let mut fresh = blocks(self.alloc, n - had, CAP)?;
        self.spare.append(&mut fresh)?;
        Ok(())
    }

    /// How many nodes there are.
    pub fn nodes(&self) -> usize
        ensures { result ≡ length self.now.heads }
    {
        self.heads.len()
    }

    /// A new node with no entry. There must be room.
    pub fn make(&mut self, header: H) -> NodeId
        requires { 0 < self.old.room }
        ensures id { (result.index ≡ length self.old.heads) × (result.index ≡ length self.old.rows) }
        ensures node { self.new ≡ with_node self.old header }
    {
        let index = self.heads.len();
        let row = self.spare.take_last();
        self.heads.push_reserved(header);
        self.rows.push_reserved(row);
        NodeId {
            index: index as u32,
        }
    }

    /// The header of a node.
    pub fn head(&self, id: NodeId) -> &H
        requires { IsNode self.now id.index }
        ensures { result.now ≡ slice_index_or self.now.heads id.index result.now }
    {
        &self.heads[id.index as usize]
    }

    /// The header of a node, for writing.
    pub fn head_mut(&mut self, id: NodeId) -> &mut H
        requires { IsNode self.old id.index }
        ensures* writes_back { sem 𝓛 (lends_head H.row E.row CAP.row self.entry id.index result) }
        ensures value { result.now ≡ slice_index_or self.old.heads id.index result.now }
    {
        &mut self.heads[id.index as usize]
    }

    /// How many entries a node has, at most `CAP`.
    pub fn len(&self, id: NodeId) -> usize
        requires { IsNode self.now id.index }
        ensures value { result ≡ length (entries self.now id.index) }
        ensures fits { result ≤ CAP }
    {
        self.rows[id.index as usize].len()
    }

    /// An entry of a node.
    pub fn entry(&self, id: NodeId, i: usize) -> &E
        requires node { IsNode self.now id.index }
        requires within { i < length (entries self.now id.index) }
        ensures { result.now ≡ slice_index_or (entries self.now id.index) i result.now }
    {
        self.rows[id.index as usize].entry(i)
    }

    /// An entry of a node, for writing.
    pub fn entry_mut(&mut self, id: NodeId, i: usize) -> &mut E
        requires node { IsNode self.old id.index }
        requires within { i < length (entries self.old id.index) }
        ensures* writes_back { sem 𝓛 (lends_entry H.row E.row CAP.row self.entry id.index i result) }
        ensures value { result.now ≡ slice_index_or (entries self.old id.index) i result.now }
    {
        let row = &mut self.rows[id.index as usize];
        row.entry_mut(i)
    }

    /// Puts an entry into a node, before the one at `i` or behind the last. The node must have room.
    pub fn insert_at(&mut self, id: NodeId, i: usize, e: E)
        requires node { IsNode self.old id.index }
        requires within { i ≤ length (entries self.old id.index) }
        requires room { length (entries self.old id.index) < CAP }
        ensures { self.new ≡ with_entries self.old id.index (insert (entries self.old id.index) i e) }
    {
        self.rows[id.index as usize].insert_at(i, e);
    }

    /// Moves the entries of `a` after the first `k` to the end of `b`, another node, which must have room.
    pub fn move_tail(&mut self, a: NodeId, k: usize, b: NodeId)
        requires nodes { IsNode self.old a.index × IsNode self.old b.index × (a.index ≢ b.index) }
        requires tail { k ≤ length (entries self.old a.index) }
        requires room { length (entries self.old b.index) + (length (entries self.old a.index) - k) ≤ CAP }
        ensures { self.new ≡ with_entries (with_entries self.old a.index (take k (entries self.old a.index))) b.index
            (entries self.old b.index ++ drop k (entries self.old a.index)) }
    {
        move_between(
            self.rows.as_mut_slice(),
            a.index as usize,
            k,
            b.index as usize,
        );
    }
}

// An empty vector alone gives its memory back, so no header is passed over.
impl<H: Drop, E: Drop, const CAP: usize> Drop for NodeMem<H, E, CAP> {
    fn drop(self) {
        let NodeMem {
            mut heads,
            rows,
            spare,
            alloc: _,
        } = self;
        heads.clear();
        heads.destroy_empty();
        drop(rows);
        drop(spare);
    }
}

// So many blocks without entries.
fn blocks<E>(alloc: Global, count: usize, capacity: usize) -> Result<Vec<Block<E>>, AllocError>
where
    E: Drop,
    ensures { IfOk result (λ bs. (length bs.items ≡ count) × AreEmpty capacity bs.items) }
{
    let mut blocks = Vec::with_capacity(alloc, count)?;
    while blocks.len() < count {
        blocks.push_reserved(Block::new(alloc, capacity)?);
    }
    Ok(blocks)
}

// Moves the entries of the row at `a` after the first `k` to the end of the row at `b`.
fn move_between<E>(rows: &mut [Block<E>], a: usize, k: usize, b: usize)
    requires present { (a < length rows.old) × (b < length rows.old) × (a ≢ b) }
    requires tail { k ≤ length (row_at rows.old a).items }
    requires room { length (row_at rows.old b).items + (length (row_at rows.old a).items - k) ≤ (row_at rows.old b).capacity }
    ensures { rows.new ≡ with_tail_moved rows.old a k b }
{
    if a < b {
        let (front, back) = rows.split_at_mut(b);
        front[a].move_tail(k, &mut back[0]);
    } else {
        let (front, back) = rows.split_at_mut(a);
        back[0].move_tail(k, &mut front[b]);
    }
}
