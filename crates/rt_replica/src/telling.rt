// A replica that tells what changes.
ghost use Rattle.std.specs.Prelude.{◌≡◌, ◌≤◌, [], IfOk, IfErr, None, OnErr, OnOk, map};
ghost use Rattle.rt_ops.specs.Edits.{body_of};
ghost use Rattle.rt_rga.specs.Cells.{cells_of};
ghost use Rattle.rt_rga.specs.Drafts.{operations_of, with_drafts};
ghost use Rattle.rt_rga.specs.Histories.{IsHistory};
ghost use Rattle.rt_rga.specs.Made.{RefusesFor, refusal_of};
ghost use Rattle.rt_rga.specs.Requests.{MayBeMade};
ghost use Rattle.rt_replica.specs.Told.{after_taken, as_told};

use rt_holding::Taking;
use rt_oplog::Op;
use rt_rga::{Change, Draft, Offer, Replica};
use rt_stamps::{Fault, Span};
use rt_store::TextStore;
use std::alloc::Global;
use std::marker::Model;
use std::mem::replace;

/// A replica, and what each operation changed that it took since it last told.
pub(crate) struct Telling<S: TextStore> {
    alloc: Global,
    replica: Replica<S>,
    changes: Vec<Change>,
}

// Written out, so that where it is let go is one step for its callers.
impl<S: TextStore> Drop for Telling<S> {
    fn drop(self) {
        let Telling {
            alloc: _,
            replica: _,
            changes: _,
        } = self;
    }
}

impl<S: TextStore> Model for Telling<S> {
    ghost use Rattle.std.specs.Prelude.{map};
    ghost use Rattle.rt_replica.specs.Told.{TellingValue, as_told};

    ghost Value = { TellingValue };

    ghost view = { λ t. record {
      log = t.replica.log;
      cells = t.replica.cells;
      site = t.replica.site;
      limit = t.replica.limit;
      changes = map as_told t.changes.items;
    } };
}

impl<S: TextStore> Taking for Telling<S> {
    ghost log = { λ t. t.log };

    ghost limit = { λ t. t.limit };

    ghost after = { after_taken };

    fn answer(&self, op: &Op) -> Result<Offer, Fault> {
        // For its clauses alone.
        let _ = self.replica.log();
        self.replica.answer(op)
    }

    fn known(&self, site: u32) -> u64 {
        self.replica.log().known(site)
    }

    fn has_gap(&self, span: Span) -> bool {
        self.replica.has_gap(span)
    }

    fn take(&mut self, op: Op) -> Result<(), Op> {
        // For their clauses alone.
        let _ = self.replica.log();
        let _ = self.replica.store();
        let _ = op.edit();
        if self.changes.reserve(1).is_err() {
            return Err(op);
        }
        match self.replica.take(op) {
            Err(op) => Err(op),
            Ok(change) => {
                // For its clauses alone.
                let _ = self.replica.store();
                self.changes.push_reserved(change);
                Ok(())
            }
        }
    }
}

impl<S: TextStore> Telling<S> {
    /// Of a replica that has told all.
    pub(crate) fn new(alloc: Global, replica: Replica<S>) -> Telling<S>
        ensures { result ≡ record { log = replica.log; cells = replica.cells; site = replica.site; limit = replica.limit; changes = [] } }
    {
        Telling {
            alloc,
            replica,
            changes: Vec::new(alloc),
        }
    }

    /// The replica, which keeps to its log.
    pub(crate) fn replica(&self) -> &Replica<S>
        ensures log { result.now.log ≡ self.now.log }
        ensures cells { result.now.cells ≡ self.now.cells }
        ensures site { result.now.site ≡ self.now.site }
        ensures limit { result.now.limit ≡ self.now.limit }
    {
        &self.replica
    }

    /// Makes operations of drafts, as `Replica::make` does. What they change isn't told.
    pub(crate) fn make(&mut self, drafts: Vec<Draft>) -> Result<Vec<Op>, Fault>
        requires { MayBeMade self.old.site self.old.log (map body_of drafts.items) }
        ensures made { IfOk result (λ ops. ops.items ≡ operations_of self.old.site (map body_of drafts.items) self.old.log) }
        ensures fits { OnOk result (refusal_of self.old.limit (map body_of drafts.items) self.old.log ≡ None) }
        ensures refused { IfErr result (RefusesFor (refusal_of self.old.limit (map body_of drafts.items) self.old.log)) }
        ensures log { OnOk result (self.new.log ≡ with_drafts self.old.site (map body_of drafts.items) self.old.log) }
        ensures cells { OnOk result (self.new.cells ≡ cells_of self.new.log) }
        ensures same { OnErr result (self.new ≡ self.old) }
        ensures site { self.new.site ≡ self.old.site }
        ensures limit { self.new.limit ≡ self.old.limit }
        ensures changes { self.new.changes ≡ self.old.changes }
    {
        self.replica.make(drafts)
    }

    /// Tells what changed, all that it hasn't told.
    pub(crate) fn told(&mut self) -> Vec<Change>
        ensures told { map as_told result.items ≡ self.old.changes }
        ensures rest { self.new ≡ record self.old { changes = [] } }
    {
        let none = Vec::new(self.alloc);
        replace(&mut self.changes, none)
    }
}
