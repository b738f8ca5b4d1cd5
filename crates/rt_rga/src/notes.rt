// What a replica notes of the operations that it makes.
ghost use Rattle.std.specs.Prelude.{◌≡◌, ◌+◌, ◌++◌, ◌≤◌, IfOk, IfSome, IsOkUnless, List, OnErr, OnOk, ℕ, [], ◌∷◌, length, map, reverse};
ghost use Rattle.rt_stamps.specs.declared.fault.Fault.TheVariants.{NoMemory};
ghost use Rattle.rt_stamps.specs.declared.limits.TheConstants.{MOST_CELLS};
ghost use Rattle.rt_ops.specs.Operations.{Insert, Operation, stamp_of};
ghost use Rattle.rt_store.specs.Cells.{AreDistinct, IsPlaced};
ghost use Rattle.rt_store.specs.Shown.{shown};
ghost use Rattle.rt_rga.specs.Cells.{cells_of};
ghost use Rattle.rt_rga.specs.Drafts.{ContinueInTurn, with_operations};
ghost use Rattle.rt_rga.specs.Making.{AreNewest, fresh_cells};
ghost use Rattle.rt_rga.specs.Replicas.{IsReplica};
ghost use Rattle.rt_rga.specs.Noted.{AreNotedOf, AreNotes, AreOfNewest, are_kept};
ghost use Rattle.rt_tags.specs.States.{KeepsIds, TagStates};

use crate::describe::insertion_at;
use crate::make::change_all;
use crate::taken::Change;
use rt_oplog::{Op, OpLog};
use rt_stamps::{Fault, Stamp};
use rt_store::TextStore;
use rt_tags::StateTable;
use std::alloc::Global;
use std::mem::replace;

/// What is noted of the operations that a replica makes.
#[derive(Drop)]
pub(crate) enum Notes {
    /// Nothing is to be noted.
    Off,
    /// What each of the newest operations changed, in the order in which they were made.
    Kept(Vec<Change>),
    /// What was to be noted isn't known. Memory was wanting, an operation came that the replica didn't make, or of several
    /// that were made at once a Tag lay neither before nor behind all Tags of its tag that came after it.
    Lost,
}

/// A list of one change; none for want of memory.
pub(crate) fn only(alloc: Global, change: Change) -> Option<Vec<Change>>
    ensures { IfSome result (λ changes. changes.items ≡ change ∷ []) }
{
    let mut changes = Vec::new(alloc);
    match changes.push(change) {
        Ok(()) => Some(changes),
        Err(_) => None,
    }
}

impl Notes {
    /// Whether what operations change is to be noted, and nothing of it is lost.
    #[inline(always)]
    pub(crate) fn are_kept(&self) -> bool
        ensures { result ≡ are_kept self.now }
    {
        match self {
            Notes::Off => false,
            Notes::Kept(_) => true,
            Notes::Lost => false,
        }
    }

    /// Nothing is known any more of what was to be noted.
    #[inline(always)]
    pub(crate) fn lose(&mut self)
        ensures { (log : List Operation) → AreNotes self.new log }
    {
        if let Notes::Kept(_) = self {
            *self = Notes::Lost;
        }
    }

    /// Notes what further operations changed, the newest of a log; without that, nothing is known any more.
    #[inline(always)]
    pub(crate) fn add(&mut self, more: Option<Vec<Change>>)
        ensures { (log ops : List Operation) → AreNotes self.old log → IfSome more (λ changes. AreNotedOf log ops changes.items)
            → AreNotes self.new (reverse ops ++ log) }
    {
        if let Notes::Kept(changes) = self {
            let is_noted = match more {
                Some(mut more) => changes.append(&mut more).is_ok(),
                None => false,
            };
            if !is_noted {
                *self = Notes::Lost;
            }
        }
    }

    /// What the Insert of one character without tags will change; none where nothing is to be noted, or for want of memory.
    #[inline(always)]
    pub(crate) fn of_character<S: TextStore>(
        &self,
        alloc: Global,
        store: &S,
        stamp: Stamp,
        after: Stamp,
    ) -> Option<Vec<Change>>
        requires placed { IsPlaced (S.list store.now) after stamp }
        requires distinct { AreDistinct (S.list store.now) }
        ensures { IfSome result (λ changes. (log : List Operation) (table : TagStates) (op : Operation) (character : ℕ) → stamp_of op ≡ stamp
            → op.body ≡ Insert after [] (character ∷ []) → map (shown table) (S.list store.now) ≡ cells_of log
            → AreNotedOf log (op ∷ []) changes.items) }
    {
        if !self.are_kept() {
            return None;
        }
        only(alloc, insertion_at(alloc, store, stamp, after))
    }

    /// Changes what is kept of a log as `change_all` does, which tells what each operation changes where that is to be noted.
    #[inline(always)]
    pub(crate) fn change<S: TextStore>(
        &self,
        alloc: Global,
        store: &mut S,
        states: &mut StateTable,
        log: &OpLog,
        ops: &[Op],
    ) -> Result<Option<Vec<Change>>, Fault>
        requires replica { IsReplica log.now.operations states.old (S.list store.old) }
        requires agrees { S.agrees store.old states.old }
        requires continues { ContinueInTurn log.now.operations ops.now }
        requires newest { AreNewest log.now.operations ops.now }
        requires room { length (S.list store.old) + length (fresh_cells ops.now) ≤ MOST_CELLS }
        ensures replica { OnOk result (IsReplica (with_operations ops.now log.now.operations) states.new (S.list store.new)) }
        ensures cells { OnOk result (length (S.list store.new) ≡ length (S.list store.old) + length (fresh_cells ops.now)) }
        ensures agrees { S.agrees store.new states.new }
        ensures ids { KeepsIds states.old states.new }
        ensures same { OnErr result (S.list store.new ≡ S.list store.old) }
        ensures noted { IfOk result (λ noted. IfSome noted (λ changes. AreNotedOf log.now.operations ops.now changes.items)) }
        ensures fault { IsOkUnless result NoMemory }
    {
        change_all(alloc, store, states, log, ops, self.are_kept())
    }

    /// What was noted, the changes of the newest operations in order, if it is known; nothing is noted from here on.
    pub(crate) fn end(&mut self) -> Option<Vec<Change>>
        ensures of { IfSome result (λ changes. (log : List Operation) → AreNotes self.old log → AreOfNewest (reverse changes.items) log) }
        ensures off { (log : List Operation) → AreNotes self.new log }
    {
        match replace(self, Notes::Off) {
            Notes::Off => None,
            Notes::Kept(changes) => Some(changes),
            Notes::Lost => None,
        }
    }
}
