// A document: a replica of the text, with the site's marks and tags.
ghost use Rattle.std.specs.Prelude.{◌≡◌, ◌≤◌, ◌<◌, ◌∷◌, [], IfOk, IsOkUnless, length, map};
ghost use Rattle.rt_stamps.specs.declared.limits.TheConstants.{MOST_CELLS};
ghost use Rattle.rt_store.specs.Cells.{AreDistinct, final_cell};
ghost use Rattle.rt_store.specs.Shown.{shown};
ghost use Rattle.rt_store.specs.Tagged.{AreStates};
ghost use Rattle.rt_tags.specs.Tags.{sel};
ghost use Rattle.rt_plans.specs.DraftLaws.{IsDocument};
ghost use Rattle.rt_plans.specs.DocValue.{new_doc};
ghost use Rattle.rt_plans.specs.Listed.{AreListed};
ghost use Rattle.rt_rga.specs.Cells.{cells_of};
ghost use Rattle.rt_rga.specs.Histories.{IsHistory, greatest_last_count};

mod accepting;
mod editing;
mod limiting;
mod marking;
mod noting;
mod reading;
mod replacing;
mod reverting;
mod tagging;

use rt_marks::Marks;
use rt_oplog::OpLog;
use rt_rga::Replica;
use rt_stamps::{Fault, Site};
use rt_store::TextStore;
use rt_tags::{StateTable, TagTable};
use std::alloc::Global;
use std::marker::Model;

/// A text of one site with its marks and tags, and its log of operations.
pub struct Doc<S: TextStore> {
    alloc: Global,
    replica: Replica<S>,
    marks: Marks,
    tags: TagTable,
}

// Written out, so that where it is let go is one step for the crates above, and not one for each
// field of each field.
impl<S: TextStore> Drop for Doc<S> {
    fn drop(self) {
        let Doc {
            alloc: _,
            replica: _,
            marks: _,
            tags: _,
        } = self;
    }
}

impl<S: TextStore> Model for Doc<S> {
    ghost use Rattle.rt_plans.specs.DocValue.{DocValue};
    ghost use Rattle.rt_rga.specs.Histories.{greatest_last_count};
    ghost use Rattle.rt_text.specs.Kept.{IsDoc};

    ghost Value = { DocValue };

    ghost view = { λ d. record {
      cells = d.replica.cells;
      site = d.replica.site;
      limit = d.replica.limit;
      log = d.replica.log;
      count = greatest_last_count d.replica.log;
      marks = d.marks;
      tags = d.tags.names;
    } };

    ghost invariant = { λ d. IsDoc d.replica.cells d.marks d.tags.names };
}

impl<S: TextStore> Doc<S> {
    /// The document of a new store, for a site and a limit of cells, 1 to `MOST_CELLS`, the final newline
    /// and tombstones included. It is refused for want of memory alone.
    pub fn new(alloc: Global, store: S, site: Site, limit: usize) -> Result<Doc<S>, Fault>
        requires store { S.list store ≡ final_cell ∷ [] }
        requires limit { (1 ≤ limit) × (limit ≤ MOST_CELLS) }
        ensures ok { IfOk result (λ doc. doc ≡ new_doc site.number limit) }
        ensures err { IsOkUnless result Fault.NoMemory }
    {
        let replica = Replica::new(alloc, store, site, limit)?;
        Doc::over(alloc, replica)
    }

    // The document of a replica whose characters have no tags. Want of memory.
    pub(crate) fn over(alloc: Global, replica: Replica<S>) -> Result<Doc<S>, Fault>
        requires { AreListed (sel ∷ []) replica.cells }
        ensures ok { IfOk result (λ doc. doc ≡ record {
          cells = replica.cells;
          site = replica.site;
          limit = replica.limit;
          log = replica.log;
          count = greatest_last_count replica.log;
          marks = [];
          tags = sel ∷ [];
        }) }
        ensures err { IsOkUnless result Fault.NoMemory }
    {
        let tags = TagTable::new(alloc)?;
        Ok(Doc {
            alloc,
            replica,
            marks: Marks::new(alloc),
            tags,
        })
    }

    /// The log of the operations, which is a history: the document's cells are its cells, no more than its
    /// limit, and its count is its greatest.
    pub fn log(&self) -> &OpLog
        ensures operations { result.now.operations ≡ self.now.log }
        ensures history { IsHistory self.now.log }
        ensures cells { self.now.cells ≡ cells_of self.now.log }
        ensures few { length self.now.cells ≤ self.now.limit }
        ensures count { self.now.count ≡ greatest_last_count self.now.log }
        ensures site { 0 < self.now.site }
    {
        // For their clauses alone.
        let _ = self.replica.store();
        let _ = self.replica.site();
        self.replica.log()
    }

    // Says that what follows is about the text around a place (`TextStore::focus`).
    #[inline(always)]
    pub(crate) fn focus(&mut self, place: usize)
        ensures { self.new ≡ self.old }
    {
        self.replica.focus(place);
    }

    // The store, and what the states of its cells mean: the cells of the log, which is a history.
    pub(crate) fn kept(&self) -> (&S, &StateTable)
        ensures cells { map (shown result.1.now) (S.list result.0.now) ≡ self.now.cells }
        ensures states { AreStates result.1.now (S.list result.0.now) }
        ensures agrees { S.agrees result.0.now result.1.now }
        ensures distinct { AreDistinct (S.list result.0.now) }
        ensures few { length (S.list result.0.now) ≤ self.now.limit }
        ensures most { self.now.limit ≤ MOST_CELLS }
        ensures history { IsHistory self.now.log }
        ensures document { IsDocument self.now.site self.now.log self.now }
        ensures site { 0 < self.now.site }
    {
        // For their clauses alone.
        let _ = self.replica.log();
        let _ = self.replica.site();
        (self.replica.store(), self.replica.states())
    }
}
