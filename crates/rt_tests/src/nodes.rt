// Memory of nodes, by its public calls.
ghost use Rattle.std.specs.Prelude.{◌≡◌, ◌+◌, ◌<◌, ◌≤◌, length};
ghost use Rattle.rt_nodes.specs.Nodes.{IsNode, entries};

use crate::checks::same;
use rt_nodes::{NodeId, NodeMem};
use rt_stamps::Fault;
use std::alloc::Global;
use std::rc::Rc;
use std::test::*;

// Whether a node has this header and these entries.
fn is<const CAP: usize>(
    mem: &NodeMem<char, char, CAP>,
    id: NodeId,
    header: char,
    wanted: &str,
) -> bool
    requires { IsNode mem.now id.index }
{
    let mut place = 0;
    for entry in wanted.chars() {
        if place >= mem.len(id) || *mem.entry(id, place) != entry {
            return false;
        }
        place += 1;
    }
    *mem.head(id) == header && mem.len(id) == place
}

// How many nodes the listed calls make, and whether both are as listed after each step.
fn listed(alloc: Global) -> Result<(usize, bool, bool, bool), Fault> {
    let mut mem: NodeMem<char, char, 4> = NodeMem::new(alloc);
    mem.reserve(2)?;
    let a = mem.make('a');
    let b = mem.make('b');
    let nodes = mem.nodes();
    mem.insert_at(a, 0, 'x');
    mem.insert_at(a, 1, 'y');
    mem.insert_at(b, 0, 'z');
    mem.move_tail(a, 1, b);
    let moved = is(&mem, a, 'a', "x") && is(&mem, b, 'b', "zy");
    mem.insert_at(a, 0, 'w');
    let inserted = is(&mem, a, 'a', "wx") && is(&mem, b, 'b', "zy");
    *mem.head_mut(b) = 'c';
    *mem.entry_mut(b, 1) = 'v';
    let changed = is(&mem, a, 'a', "wx") && is(&mem, b, 'c', "zv");
    Ok((nodes, moved, inserted, changed))
}

// How many entries of no bytes two nodes have.
fn entries_of_no_bytes(alloc: Global) -> Result<(usize, usize), Fault> {
    let mut small: NodeMem<char, (), 3> = NodeMem::new(alloc);
    small.reserve(2)?;
    let a = small.make('a');
    let b = small.make('b');
    small.insert_at(a, 0, ());
    small.insert_at(a, 1, ());
    small.move_tail(a, 1, b);
    Ok((small.len(a), small.len(b)))
}

// The header of a node of no room, and how many entries it has.
fn node_of_no_room(alloc: Global) -> Result<(char, usize), Fault> {
    let mut heads: NodeMem<char, char, 0> = NodeMem::new(alloc);
    heads.reserve(1)?;
    let c = heads.make('c');
    Ok((*heads.head(c), heads.len(c)))
}

#[test]
fn the_examples(rt: HostRuntime) -> Result<(), Fault> {
    same(&rt, listed(rt.alloc())?, (2, true, true, true));
    same(&rt, entries_of_no_bytes(rt.alloc())?, (1, 1));
    same(&rt, node_of_no_room(rt.alloc())?, ('c', 0));
    Ok(())
}

// The counts of a header and of an entry.
fn counts(header: &Rc<u32>, entry: &Rc<u32>) -> (usize, usize) {
    (Rc::strong_count(header), Rc::strong_count(entry))
}

// Puts clones in a memory, and then others in place of two of them: the counts after each.
fn counts_in(
    mem: &mut NodeMem<Rc<u32>, Rc<u32>, 4>,
    header: &Rc<u32>,
    entry: &Rc<u32>,
    alloc: Global,
) -> Result<((usize, usize), (usize, usize)), Fault> {
    mem.reserve(3)?;
    let a = mem.make(header.clone()?);
    let b = mem.make(header.clone()?);
    mem.insert_at(a, 0, entry.clone()?);
    mem.insert_at(a, 0, entry.clone()?);
    mem.insert_at(a, 1, entry.clone()?);
    mem.move_tail(a, 1, b);
    mem.reserve(8)?;
    let filled = counts(header, entry);
    *mem.head_mut(a) = Rc::new(alloc, 1)?;
    *mem.entry_mut(b, 1) = Rc::new(alloc, 1)?;
    Ok((filled, counts(header, entry)))
}

// Each clone counts: the count falls by one where one is dropped.
#[test]
fn drops_headers_and_entries_once(rt: HostRuntime) -> Result<(), Fault> {
    let header = Rc::new(rt.alloc(), 0)?;
    let entry = Rc::new(rt.alloc(), 0)?;
    let mut mem: NodeMem<Rc<u32>, Rc<u32>, 4> = NodeMem::new(rt.alloc());
    let found = counts_in(&mut mem, &header, &entry, rt.alloc())?;
    drop(mem);
    same(&rt, found, ((3, 4), (2, 3)));
    same(&rt, counts(&header, &entry), (1, 1));
    Ok(())
}

// What a node should be.
#[derive(Drop)]
struct Node {
    header: u64,
    entries: Vec<u64>,
}

// A memory, and beside it the nodes that it should have.
struct Both {
    mem: NodeMem<u64, u64, 4>,
    nodes: Vec<Node>,
    made: u32,
    alloc: Global,
    ghost heads_made: { length mem.heads ≡ made },
    ghost rows_made: { length mem.rows ≡ made },
}

// Written out, so that each way out of a test lets both go in one step of its proof.
impl Drop for Both {
    fn drop(self) {
        let Both {
            mem: _,
            nodes: _,
            made: _,
            alloc: _,
        } = self;
    }
}

// Numbers that look random.
#[derive(Clone, Copy)]
struct Dice {
    state: u64,
}

impl Dice {
    // A number below `n`.
    fn throw(&mut self, n: u64) -> u64
        requires { 0 < n }
        ensures { result < n }
    {
        self.state = self
            .state
            .wrapping_mul(6364136223846793005)
            .wrapping_add(1442695040888963407);
        (self.state >> 33) % n
    }

    fn id(&mut self, made: u32) -> u32
        requires { 0 < made }
        ensures { result < made }
    {
        self.throw(made as u64) as u32
    }

    fn place(&mut self, n: usize) -> usize
        requires { 0 < n }
        ensures { result < n }
    {
        self.throw(n as u64) as usize
    }
}

impl Both {
    fn new(alloc: Global) -> Both {
        Both {
            mem: NodeMem::new(alloc),
            nodes: Vec::new(alloc),
            made: 0,
            alloc,
        }
    }

    fn make(&mut self, header: u64) -> Result<(), Fault> {
        if self.made >= 1000 {
            return Ok(());
        }
        self.mem.reserve(1)?;
        let entries = Vec::new(self.alloc);
        self.nodes.push(Node { header, entries })?;
        let _ = self.mem.make(header);
        self.made += 1;
        Ok(())
    }

    fn set_header(&mut self, a: NodeId, value: u64) -> Result<(), Fault> {
        if a.index >= self.made {
            return Err(Fault::BadIndex);
        }
        *self.mem.head_mut(a) = value;
        if let Some(node) = self.nodes.get_mut(a.index as usize) {
            node.header = value;
        }
        Ok(())
    }

    fn set_entry(&mut self, a: NodeId, place: usize, value: u64) -> Result<(), Fault> {
        if a.index >= self.made || place >= self.mem.len(a) {
            return Err(Fault::BadIndex);
        }
        *self.mem.entry_mut(a, place) = value;
        set_in(&mut self.nodes, a, place, value);
        Ok(())
    }

    // Moves what stands from a place on, where it has room.
    fn move_tail(&mut self, a: NodeId, kept: usize, b: NodeId) -> Result<(), Fault> {
        if a.index >= self.made || b.index >= self.made || a.index == b.index {
            return Err(Fault::BadIndex);
        }
        let long = self.mem.len(a);
        if kept > long {
            return Err(Fault::BadIndex);
        }
        if self.mem.len(b) + (long - kept) <= 4 {
            self.mem.move_tail(a, kept, b);
            return move_in(&mut self.nodes, a, kept, b);
        }
        Ok(())
    }

    fn insert(&mut self, a: NodeId, place: usize, value: u64) -> Result<(), Fault> {
        if a.index >= self.made || self.mem.len(a) >= 4 || place > self.mem.len(a) {
            return Err(Fault::BadIndex);
        }
        self.mem.insert_at(a, place, value);
        insert_in(&mut self.nodes, a, place, value)
    }

    // One call that looks random, on nodes that are there.
    fn call(&mut self, dice: &mut Dice) -> Result<(), Fault> {
        let value = dice.throw(1000);
        if self.made < 2 || dice.throw(20) == 0 {
            return self.make(value);
        }
        let a = NodeId {
            index: dice.id(self.made),
        };
        let b = NodeId {
            index: dice.id(self.made),
        };
        let long = self.mem.len(a);
        match dice.throw(5) {
            0 => self.set_header(a, value),
            1 if long > 0 => self.set_entry(a, dice.place(long), value),
            2 if a.index != b.index => self.move_tail(a, dice.place(long + 1), b),
            _ if long < 4 => self.insert(a, dice.place(long + 1), value),
            _ => Ok(()),
        }
    }

    // Whether the memory has the nodes.
    fn is_same(&self) -> bool {
        let mut index = 0u32;
        for node in &self.nodes {
            if index >= self.made || !self.has(NodeId { index }, node) {
                return false;
            }
            index += 1;
        }
        index == self.made
    }

    // Whether the memory has a node of an id.
    fn has(&self, id: NodeId, node: &Node) -> bool {
        if id.index >= self.made
            || *self.mem.head(id) != node.header
            || self.mem.len(id) != node.entries.len()
        {
            return false;
        }
        for place in 0..node.entries.len() {
            if *self.mem.entry(id, place) != node.entries[place] {
                return false;
            }
        }
        true
    }
}

// Sets an entry of a node.
fn set_in(nodes: &mut [Node], a: NodeId, place: usize, value: u64) {
    if let Some(node) = nodes.get_mut(a.index as usize) {
        if let Some(entry) = node.entries.get_mut(place) {
            *entry = value;
        }
    }
}

// Puts an entry into a node.
fn insert_in(nodes: &mut [Node], a: NodeId, place: usize, value: u64) -> Result<(), Fault> {
    if let Some(node) = nodes.get_mut(a.index as usize) {
        if place <= node.entries.len() {
            node.entries.insert(place, value)?;
        }
    }
    Ok(())
}

// Moves the entries of a node from a place on to another one.
fn move_in(nodes: &mut [Node], a: NodeId, kept: usize, b: NodeId) -> Result<(), Fault> {
    let Some(node) = nodes.get_mut(a.index as usize) else {
        return Ok(());
    };
    if kept > node.entries.len() {
        return Ok(());
    }
    let mut tail = node.entries.split_off(kept)?;
    if let Some(node) = nodes.get_mut(b.index as usize) {
        node.entries.append(&mut tail)?;
    }
    Ok(())
}

#[test]
fn random_calls(rt: HostRuntime) -> Result<(), Fault> {
    let mut both = Both::new(rt.alloc());
    let mut dice = Dice { state: 1 };
    for i in 0..5000 {
        both.call(&mut dice)?;
        same(&rt, (i, both.is_same()), (i, true));
    }
    Ok(())
}
