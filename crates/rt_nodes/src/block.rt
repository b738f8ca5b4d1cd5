//! A block: entries in memory of its own, with places for so many.
ghost use Rattle.std.specs.Prelude.{◌≡◌, ◌+◌, ◌-◌, ◌<◌, ◌≤◌, List, [], ◌∷◌, ◌++◌, length, take, drop, insert, slice_index_or, vec_capacity, IfOk};
ghost use Rattle.std.specs.Borrow.{sem};
ghost use Rattle.rt_nodes.specs.Rows.{row};

use crate::claim::Claim;
use crate::raw::{allocate, deallocate};
use std::alloc::{AllocError, Global};
use std::marker::Model;
use std_alloc::room::may_hold;
use std_alloc::vec::Lodged;

/// Entries, in room for so many: the first places of memory that `claim` gives the right to free.
pub struct Block<E> {
    entries: Vec<E, Lodged>,
    claim: Claim<E, Global>,
    heap: Global,
}

impl<E> Model for Block<E> {
    ghost use Rattle.std.specs.Prelude.{vec_capacity};
    ghost use Rattle.rt_nodes.specs.Rows.{Row, row_code, row};
    ghost use Rattle.rt_nodes.specs.Claims.{IsClaimOn};

    ghost Value = { Row E };

    ghost coded = { row_code E.code };

    ghost view = { λ b. row b.entries.items (vec_capacity b.entries) };

    ghost invariant = { λ b. IsClaimOn b.claim b.entries b.heap };
}

impl<E> Block<E> {
    ghost use Rattle.rt_nodes.specs.RowLends.{lends_item};

    /// No entry, in room for so many.
    pub(crate) fn new(heap: Global, capacity: usize) -> Result<Self, AllocError>
        ensures { IfOk result (λ b. b ≡ row [] capacity) }
    {
        if !may_hold::<E>(capacity) {
            return Err(AllocError);
        }
        let (entries, claim) = allocate(&heap, capacity)?;
        Ok(Block {
            entries,
            claim,
            heap,
        })
    }

    /// How many entries there are.
    pub(crate) fn len(&self) -> usize
        ensures { result ≡ length self.now.items }
    {
        self.entries.len()
    }

    /// An entry.
    pub(crate) fn entry(&self, i: usize) -> &E
        requires { i < length self.now.items }
        ensures { result.now ≡ slice_index_or self.now.items i result.now }
    {
        &self.entries[i]
    }

    /// An entry, for writing.
    pub(crate) fn entry_mut(&mut self, i: usize) -> &mut E
        requires { i < length self.old.items }
        ensures* writes_back { sem 𝓛 (lends_item E.row self.entry i result) }
        ensures value { result.now ≡ slice_index_or self.old.items i result.now }
    {
        &mut self.entries[i]
    }

    /// Puts an entry in at `i`. There must be room.
    pub(crate) fn insert_at(&mut self, i: usize, e: E)
        requires in_bounds { i ≤ length self.old.items }
        requires room { length self.old.items < self.old.capacity }
        ensures { self.new ≡ row (insert self.old.items i e) self.old.capacity }
    {
        self.entries.insert_reserved(i, e);
    }

    /// Moves the entries after the first `k` to the end of `to`, which must have room.
    pub(crate) fn move_tail(&mut self, k: usize, to: &mut Block<E>)
        requires tail { k ≤ length self.old.items }
        requires room { length to.old.items + (length self.old.items - k) ≤ to.old.capacity }
        ensures front { self.new ≡ row (take k self.old.items) self.old.capacity }
        ensures back { to.new ≡ row (to.old.items ++ drop k self.old.items) to.old.capacity }
    {
        if k < self.entries.len() {
            to.entries.append_tail(&mut self.entries, k);
        }
    }
}

// The entries go first, since memory is given back only once it is empty.
impl<E: Drop> Drop for Block<E> {
    fn drop(self) {
        let Block {
            mut entries,
            claim,
            heap,
        } = self;
        while entries.len() > 0 {
            let last = entries.len() - 1;
            drop(entries.remove(last));
        }
        let at = entries.as_mut_ptr();
        let places = entries.capacity();
        deallocate(&heap, at, places, entries, claim);
    }
}
