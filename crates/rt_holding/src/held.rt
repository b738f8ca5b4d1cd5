// Held operations.
ghost use Rattle.std.specs.Prelude.{◌≡◌, ℕ, ◌⊎◌, ◌<◌, ◌≤◌, ◌↔◌, [], IfErr, IfOk, IsOkUnless, IsTrue, List, OnErr, OnOk, false, length, true};
ghost use Rattle.rt_stamps.specs.declared.fault.Fault.TheVariants.{NoMemory, NotYet};
ghost use Rattle.rt_ops.specs.Operations.{Operation};
ghost use Rattle.rt_oplog.specs.Logs.{holds};

use crate::taking::Taking;
use crate::trying::{AfterTry, Ops, after_try_at, drop_at, sleep, standing_of, take_at, take_away};
use crate::waits::{Waits, forget, keep, pop_first, prepare};
use crate::waking::wake;
use rt_oplog::Op;
use rt_rga::Offer;
use rt_stamps::Fault;
use std::alloc::{AllocError, Global};
use std::collections::BTreeMap;
use std::marker::Model;

/// The most operations that are held.
pub const MOST_HELD: usize = 65_536;

/// What became of an operation that was offered and not refused.
#[derive(Clone, Copy, Debug, PartialEq, Eq)]
pub enum Offered {
    /// It was taken, and after it so many of those that were held.
    New { more: usize },
    /// The site had it already, or it comes too early and is held already.
    Repeat,
    /// It came too early, and is held.
    Held,
}

/// The operations that a site holds because they came too early.
#[derive(Drop)]
pub struct Held {
    ops: Ops,
    waits: Waits,
    // How many have come: each has the number of those before it.
    arrivals: u64,
}

impl Model for Held {
    ghost use Rattle.rt_holding.specs.Grown.{HeldValue};
    ghost use Rattle.std.specs.Prelude.{refl};
    ghost use Rattle.std.specs.Coded.{code_by, coded_list, coded_option, coded_ℕ, coded×};
    ghost use Rattle.rt_stamps.specs.contracts.stamp.Stamp as stamp;
    ghost use Rattle.rt_ops.specs.contracts.op.Op as op;
    ghost use Rattle.rt_holding.specs.contracts.waits.Keys as keys;

    ghost Value = { HeldValue };

    ghost coded = { code_by _ (coded× (coded_list op.the_row.coded)
        (coded× (coded_list (coded× (coded× stamp.the_row.coded coded_ℕ) (coded_option op.the_row.coded)))
        (coded× keys.the_row.coded (coded_list (coded× stamp.the_row.coded coded_ℕ)))))
        (λ v. (v.held, (v.table.entries, (v.table.keys, v.table.again))))
        (λ p. record { held = p.0; table = record { entries = p.1.0; keys = p.1.1.0; again = p.1.1.1 } }) (λ _. refl) };

    ghost use Rattle.rt_holding.specs.Kept.{AreHeld, ops_in};
    ghost use Rattle.rt_holding.specs.Waits.{IsReady};

    ghost view = { λ h. record { held = ops_in h.ops.entries; table = record { entries = h.ops.entries; keys = h.waits.keys; again = h.waits.again.items } } };

    ghost invariant = { λ h. record { held : AreHeld h.arrivals h.ops.entries; ready : IsReady 0 h.waits } };
}

impl Held {
    ghost use Rattle.rt_ops.specs.Operations.{has_bad_stamp};
    ghost use Rattle.rt_holding.specs.Grown.{AreTriedAt, AreTriedBefore};
    ghost use Rattle.rt_holding.specs.Holding.{put_held, reply_for, reply_to};
    ghost use Rattle.rt_rga.specs.Answers.{New, Refused, answer_within};
    ghost use Rattle.rt_rga.specs.Histories.{IsHistory};
    ghost use Rattle.rt_holding.specs.Replies as replies;
    ghost use Rattle.rt_holding.specs.Runs.{NoneFalls, NoneTwice};
    ghost use Rattle.rt_holding.specs.Taken.{AreTried, IsOffered, IsRefused, held_after, site_holding, replied};

    /// Nothing is held. It takes no memory.
    pub fn new(alloc: Global) -> Held
        ensures none { result.held ≡ [] }
        ensures tried { (limit : ℕ) (log : List Operation) → AreTriedAt limit log result }
    {
        Held {
            ops: BTreeMap::new(alloc),
            waits: Waits::new(alloc),
            arrivals: 0,
        }
    }

    /// How many are held.
    pub fn len(&self) -> usize
        ensures len { result ≡ length self.now.held }
        ensures most { result ≤ MOST_HELD }
        ensures once { NoneTwice self.now.held }
        ensures order { NoneFalls self.now.held }
    {
        self.ops.len()
    }

    /// Whether none is held.
    pub fn is_empty(&self) -> bool
        ensures { IsTrue result ↔ (self.now.held ≡ []) }
    {
        self.len() == 0
    }

    /// Whether an operation is held.
    pub fn contains(&self, op: &Op) -> bool
        ensures { result ≡ holds self.now.held op.now }
    {
        standing_of(&self.ops, self.arrivals, op).is_some()
    }

    /// Holds one more. `NoMemory` is its only fault.
    fn put<T: Taking>(&mut self, site: &T, op: Op) -> Result<(), Fault>
        requires sound { has_bad_stamp op ≡ false }
        requires new { holds self.old.held op ≡ false }
        requires room { length self.old.held < MOST_HELD }
        ensures put { OnOk result (self.new.held ≡ put_held op self.old.held) }
        ensures fault { IsOkUnless result NoMemory }
        ensures same { OnErr result (self.new.held ≡ self.old.held) }
        ensures tried { (limit : ℕ) (log : List Operation) → AreTriedAt limit log self.old → AreTriedAt limit log self.new }
    {
        // For its clauses alone.
        let _ = op.edit();
        let arrival = self.arrivals;
        let place = (op.stamp(), arrival);
        let Some(next) = arrival.checked_add(1) else {
            return Err(Fault::NoMemory);
        };
        let Ok(()) = prepare(site, &mut self.waits, &op, place) else {
            return Err(Fault::NoMemory);
        };
        match self.ops.insert(place, Some(op)) {
            Ok(_) => {
                self.arrivals = next;
                keep(&mut self.waits, place);
                Ok(())
            }
            Err(refused) => {
                if let Some(op) = refused.value.1 {
                    forget(site, &mut self.waits.keys, &op, place);
                }
                Err(Fault::NoMemory)
            }
        }
    }

    /// The log has grown by operations of the site of number `made_by`: tries held ones, the least stamp first, until none
    /// is left that can be taken. One that is refused for good is dropped; any may find no memory, and stays. Answers how
    /// many were taken.
    pub fn settle<T: Taking>(&mut self, site: &mut T, made_by: u32) -> usize
        requires { AreTriedBefore (T.limit site.old) made_by self.old (T.log site.old) }
        ensures tried { AreTried T.log T.after (T.limit site.old) (site_holding T.log site.old self.old.held) site.old
            site.new self.new.held result }
        ensures limit { T.limit site.new ≡ T.limit site.old }
        ensures log { AreTriedAt (T.limit site.new) (T.log site.new) self.new }
    {
        if self.ops.len() == 0 && self.waits.are_over() {
            return 0;
        }
        wake(site, &self.ops, &mut self.waits, made_by);
        let mut taken = 0;
        let mut lacks = false;
        while let Some(place) = pop_first(&mut self.waits.due) {
            match after_try_at(site, &self.ops, place, lacks) {
                AfterTry::Taken => {
                    match take_at(site, &mut self.ops, place) {
                        Ok(by) => {
                            taken += 1;
                            wake(site, &self.ops, &mut self.waits, by);
                        }
                        Err(AllocError) => {
                            lacks = true;
                            keep(&mut self.waits, place);
                        }
                    }
                }
                AfterTry::Waits => keep(&mut self.waits, place),
                AfterTry::Stays => sleep(site, &self.ops, &mut self.waits, place),
                AfterTry::Absent => {}
                AfterTry::Dropped => drop_at(site, &mut self.ops, &mut self.waits.keys, place),
            }
        }
        taken
    }

    /// Offers an operation. A new one is taken, and then held ones that can be; one that comes too early
    /// is held. Refused as the site answers it, with `BadStamp`, `Conflict`, `BadTarget` or `TextFull`; with
    /// `WaitingFull` where it is early and 65,536 others are held; or with `NoMemory` where it is new or to be held.
    /// Then site and held ones are as before.
    pub fn offer<T: Taking>(&mut self, site: &mut T, op: Op) -> Result<Offered, Fault>
        requires { AreTriedAt (T.limit site.old) (T.log site.old) self.old }
        ensures reply { IfOk result (λ offered. reply_to (T.limit site.old) op (site_holding T.log site.old self.old.held) ≡ replied (Ok offered)) }
        ensures refused { IfErr result (IsRefused (reply_to (T.limit site.old) op (site_holding T.log site.old self.old.held))) }
        ensures offered { IfOk result (λ offered. IsOffered T.log T.after (T.limit site.old) op offered site.old self.old.held
            site.new self.new.held) }
        ensures same_site { OnErr result (site.new ≡ site.old) }
        ensures same { OnErr result (self.new.held ≡ self.old.held) }
        ensures limit { T.limit site.new ≡ T.limit site.old }
        ensures log { AreTriedAt (T.limit site.new) (T.log site.new) self.new }
    {
        match site.answer(&op) {
            Ok(Offer::New) => self.take(site, op),
            Ok(Offer::Repeat) => Ok(Offered::Repeat),
            Err(Fault::NotYet) => self.hold(site, op),
            Err(fault) => Err(fault),
        }
    }

    // A new one, which may be among those that are held, as one that found no memory.
    fn take<T: Taking>(&mut self, site: &mut T, op: Op) -> Result<Offered, Fault>
        requires new { answer_within (T.limit site.old) op (T.log site.old) ≡ New }
        requires history { IsHistory (T.log site.old) }
        requires tried { AreTriedAt (T.limit site.old) (T.log site.old) self.old }
        ensures new { IfOk result (λ offered. replied (Ok offered) ≡ replies.New) }
        ensures offered { IfOk result (λ offered. IsOffered T.log T.after (T.limit site.old) op offered site.old self.old.held
            site.new self.new.held) }
        ensures fault { IsOkUnless result NoMemory }
        ensures same_site { OnErr result (site.new ≡ site.old) }
        ensures same { OnErr result (self.new ≡ self.old) }
        ensures limit { T.limit site.new ≡ T.limit site.old }
        ensures log { OnOk result (AreTriedAt (T.limit site.new) (T.log site.new) self.new) }
    {
        let held = standing_of(&self.ops, self.arrivals, &op);
        let made_by = op.site();
        match site.take(op) {
            Ok(()) => {}
            Err(_) => return Err(Fault::NoMemory),
        }
        take_away(&mut self.ops, held);
        Ok(Offered::New {
            more: self.settle(site, made_by),
        })
    }

    // One that comes too early.
    fn hold<T: Taking>(&mut self, site: &T, op: Op) -> Result<Offered, Fault>
        requires { has_bad_stamp op ≡ false }
        ensures reply { IfOk result (λ offered. reply_for (Refused NotYet) op self.old.held ≡ replied (Ok offered)) }
        ensures refused { IfErr result (IsRefused (reply_for (Refused NotYet) op self.old.held)) }
        ensures held { IfOk result (λ offered. self.new.held ≡ held_after offered op self.old.held) }
        ensures same { OnErr result (self.new.held ≡ self.old.held) }
        ensures tried { (limit : ℕ) (log : List Operation) → AreTriedAt limit log self.old → AreTriedAt limit log self.new }
    {
        if self.contains(&op) {
            return Ok(Offered::Repeat);
        }
        if self.len() >= MOST_HELD {
            return Err(Fault::WaitingFull);
        }
        self.put(site, op)?;
        Ok(Offered::Held)
    }
}
