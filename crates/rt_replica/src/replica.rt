// A replica that holds what comes too early.
ghost use Rattle.std.specs.Prelude.{◌≡◌, ◌∷◌, ◌≤◌, [], length, map, IfErr, IfOk, IsOkUnless, None, OnErr, OnOk};
ghost use Rattle.rt_stamps.specs.declared.fault.Fault.TheVariants.{NoMemory};
ghost use Rattle.rt_stamps.specs.declared.limits.TheConstants.{MOST_CELLS};
ghost use Rattle.rt_ops.specs.Edits.{body_of};
ghost use Rattle.rt_store.specs.Cells.{final_cell};
ghost use Rattle.rt_holding.specs.Holding.{reply_to};
ghost use Rattle.rt_holding.specs.Taken.{IsRefused};
ghost use Rattle.rt_rga.specs.Cells.{cells_of};
ghost use Rattle.rt_rga.specs.Drafts.{operations_of, with_drafts};
ghost use Rattle.rt_rga.specs.Histories.{IsHistory};
ghost use Rattle.rt_rga.specs.Made.{RefusesFor, refusal_of};
ghost use Rattle.rt_rga.specs.Requests.{MayBeMade};
ghost use Rattle.rt_replica.specs.Replicas.{BecomesOf, TakesAndTells, holding_of, new_replica, reply_of};

use crate::taken::{Made, Taken};
use crate::telling::Telling;
use rt_holding::{Held, Offered};
use rt_oplog::{Op, OpLog};
use rt_rga::{Draft, Replica};
use rt_stamps::{Fault, Site};
use rt_store::TextStore;
use std::alloc::Global;
use std::marker::Model;

/// The accepted operations of a text with its cells, and the operations that came before what they were made upon, which are
/// held.
pub struct HoldingReplica<S: TextStore> {
    telling: Telling<S>,
    held: Held,
}

// Written out, so that where it is let go is one step for its callers.
impl<S: TextStore> Drop for HoldingReplica<S> {
    fn drop(self) {
        let HoldingReplica {
            telling: _,
            held: _,
        } = self;
    }
}

impl<S: TextStore> Model for HoldingReplica<S> {
    ghost use Rattle.rt_replica.specs.Replicas.{HoldingValue, HasSettled};

    ghost Value = { HoldingValue };

    ghost view = { λ r. record {
      log = r.telling.log;
      held = r.held.held;
      cells = r.telling.cells;
      site = r.telling.site;
      limit = r.telling.limit;
    } };

    ghost invariant = { λ r. HasSettled r.telling r.held };
}

impl<S: TextStore> HoldingReplica<S> {
    /// A replica without operations, of a new store: that of a site, for at most `limit` cells, the final newline and those
    /// that are gone among them, 1 to `MOST_CELLS`. `NoMemory` is its only fault.
    pub fn new(
        alloc: Global,
        store: S,
        site: Site,
        limit: usize,
    ) -> Result<HoldingReplica<S>, Fault>
        requires store { S.list store ≡ final_cell ∷ [] }
        requires limit { (1 ≤ limit) × (limit ≤ MOST_CELLS) }
        ensures ok { IfOk result (λ replica. replica ≡ new_replica site.number limit) }
        ensures fault { IsOkUnless result NoMemory }
    {
        let replica = Replica::new(alloc, store, site, limit)?;
        Ok(HoldingReplica {
            telling: Telling::new(alloc, replica),
            held: Held::new(alloc),
        })
    }

    /// The log, which is a history, and of which the cells are.
    pub fn log(&self) -> &OpLog
        ensures operations { result.now.operations ≡ self.now.log }
        ensures history { IsHistory self.now.log }
        ensures cells { self.now.cells ≡ cells_of self.now.log }
    {
        // For its clauses alone.
        let _ = self.telling.replica().store();
        self.telling.replica().log()
    }

    /// What it is without the operations that are held: its store, the states of its cells, its clock.
    pub fn replica(&self) -> &Replica<S>
        ensures log { result.now.log ≡ self.now.log }
        ensures cells { result.now.cells ≡ self.now.cells }
        ensures site { result.now.site ≡ self.now.site }
        ensures limit { result.now.limit ≡ self.now.limit }
    {
        self.telling.replica()
    }

    /// How many operations are held.
    pub fn held(&self) -> usize
        ensures { result ≡ length self.now.held }
    {
        self.held.len()
    }

    /// Accepts an operation of any site. A new one is taken, and then held ones that can be, the least stamp first; any of
    /// these may find no memory, and stays. One that comes before what it was made upon is held. The first of these
    /// decides: `BadStamp`; a repeat; `Conflict`, where its `prev` is below the known end of its site; early, where `prev` is
    /// above it; `BadTarget`, where it names what can never be known; early, where it names what isn't known; `TextFull`,
    /// where the cells would pass the limit. An early one that is held already is a repeat, and `WaitingFull` where 65,536
    /// others are held. `NoMemory` where it is new or to be held. What is refused leaves all as before.
    pub fn accept(&mut self, op: Op) -> Result<Taken, Fault>
        ensures reply { IfOk result (λ taken. reply_to self.old.limit op (holding_of self.old) ≡ reply_of taken) }
        ensures refused { IfErr result (IsRefused (reply_to self.old.limit op (holding_of self.old))) }
        ensures taken { IfOk result (BecomesOf op self.old self.new) }
        ensures same { OnErr result (self.new ≡ self.old) }
        ensures site { self.new.site ≡ self.old.site }
        ensures limit { self.new.limit ≡ self.old.limit }
    {
        // For its clauses alone.
        let _ = self.telling.replica().log();
        match self.held.offer(&mut self.telling, op) {
            Ok(Offered::New { more: _ }) => {
                // For its clauses alone.
                let _ = self.telling.replica().log();
                Ok(Taken::New(self.telling.told()))
            }
            Ok(Offered::Repeat) => Ok(Taken::Repeat),
            Ok(Offered::Held) => Ok(Taken::Held),
            Err(fault) => Err(fault),
        }
    }

    /// Makes operations of the site's own, one of each draft, in order, as `Replica::make` of rt_rga does: all of them or
    /// none. `ClockSpent` where their counts don't fit, `TextFull` where the cells would pass the limit, `NoMemory` where
    /// both fit; then all is as before. Behind them held ones are tried, as after one that is accepted.
    pub fn make(&mut self, drafts: Vec<Draft>) -> Result<Made, Fault>
        requires { MayBeMade self.old.site self.old.log (map body_of drafts.items) }
        ensures made { IfOk result (λ made. made.ops.items ≡ operations_of self.old.site (map body_of drafts.items) self.old.log) }
        ensures fits { OnOk result (refusal_of self.old.limit (map body_of drafts.items) self.old.log ≡ None) }
        ensures refused { IfErr result (RefusesFor (refusal_of self.old.limit (map body_of drafts.items) self.old.log)) }
        ensures taken { IfOk result (λ made. TakesAndTells [] (with_drafts self.old.site (map body_of drafts.items) self.old.log)
            self.old.held self.new made.changes.items) }
        ensures same { OnErr result (self.new ≡ self.old) }
        ensures site { self.new.site ≡ self.old.site }
        ensures limit { self.new.limit ≡ self.old.limit }
    {
        // For its clauses alone.
        let _ = self.telling.replica().log();
        let ops = self.telling.make(drafts)?;
        let own = self.telling.replica();
        // For its clauses alone.
        let _ = own.log();
        let site = own.site().number();
        self.held.settle(&mut self.telling, site);
        // For its clauses alone.
        let _ = self.telling.replica().log();
        Ok(Made {
            ops,
            changes: self.telling.told(),
        })
    }
}
