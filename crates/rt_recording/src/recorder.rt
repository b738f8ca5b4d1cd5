// What a site records of its own edits.
ghost use Rattle.std.specs.Prelude.{◌≡◌, ◌↔◌, ◌⊎◌, ◌^◌, ◌<◌, ◌≤◌, Bool, true, false, None, Some, Err, length, map, is_some, if◌then◌else◌, IfErr, IsOkUnless, IfOk, IfSome, OnErr, OnOk};
ghost use Rattle.rt_stamps.specs.declared.stamp.Stamp.{Stamp};
ghost use Rattle.rt_revert.specs.Reverting.{as_removed};
ghost use Rattle.rt_store.specs.Shown.{shown};
ghost use Rattle.rt_store.specs.Tagged.{AreStates};
ghost use Rattle.rt_tags.specs.States.{KeepsIds};
ghost use Rattle.rt_undo.specs.Actions.{group_of};
ghost use Rattle.rt_undo.specs.Undo.{emptied, forced_on, is_modified, next_redo, next_undo, no_history, redo_done, renamed_by, separated, undo_done, unmodified, with_action, with_most};
ghost use Rattle.rt_recording.specs.Naming.{AreGiven, named_group};
ghost use Rattle.rt_recording.specs.Recordings.{HasStayed, HaveStayed, came_back, span_action};
ghost use Rattle.rt_recording.specs.Returns.{AreReturns, back_after, stamp_after};

mod reverting;

use crate::{coming, own};
use rt_revert::Return;
use rt_stamps::{Fault, Site, Span};
use rt_store::Cell;
use rt_tags::{StateId, StateTable};
use rt_undo::{Action, Kind, RemovedSpan, Stacks};
use std::alloc::Global;
use std::marker::Model;

// What is ready for the next action: the characters that it takes away, and room for a span of those
// that it puts in.
#[derive(Drop)]
struct Prepared {
    removed: Vec<RemovedSpan>,
    inserted: Vec<Span>,
}

/// What a site records of its own edits for undo, and the settings of the widget's options `-undo`,
/// `-autoseparators` and `-maxundo` (Tk text manual, "The undo mechanism"). An edit is prepared, made, and
/// recorded: so all that can be refused comes before it.
pub struct Recorder {
    alloc: Global,
    stacks: Stacks,
    // The states that the tags of the actions stand for. They are the recorder's own.
    table: StateTable,
    undo: bool,
    auto_separators: bool,
    next: Option<Prepared>,
}

// Written out, so that where it is let go is one step for the crates above, and not one for each
// field of each field.
impl Drop for Recorder {
    fn drop(self) {
        let Recorder {
            alloc: _,
            stacks: _,
            table: _,
            undo: _,
            auto_separators: _,
            next: _,
        } = self;
    }
}

impl Model for Recorder {
    ghost use Rattle.rt_recording.specs.Recordings.{Recording};

    ghost Value = { Recording };

    ghost use Rattle.rt_recording.specs.Seen.{IsRecorder, recording_of};

    ghost view = { recording_of };

    ghost invariant = { IsRecorder };
}

impl Recorder {
    /// Nothing is recorded yet; undo is off, separators are automatic, and the undo stack may have any number of
    /// groups. Want of memory.
    pub fn new(alloc: Global) -> Result<Recorder, Fault>
        ensures history { IfOk result (λ recorder. recorder.history ≡ no_history) }
        ensures settings { IfOk result (λ recorder. (recorder.undo ≡ false) × (recorder.auto ≡ true)) }
        ensures pending { IfOk result (λ recorder. recorder.pending ≡ None) }
        ensures came_back { IfOk result (λ recorder. (stamp : Stamp) → came_back recorder stamp ≡ false) }
        ensures err { IsOkUnless result Fault.NoMemory }
    {
        let table = StateTable::new(alloc)?;
        Ok(Recorder {
            alloc,
            stacks: Stacks::new(alloc),
            table,
            undo: false,
            auto_separators: true,
            next: None,
        })
    }

    /// Whether edits are recorded, so that they can be undone (`-undo`).
    pub fn is_undo_on(&self) -> bool
        ensures { result ≡ self.now.undo }
    {
        self.undo
    }

    /// Whether separators are automatic (`-autoseparators`).
    pub fn auto_separators(&self) -> bool
        ensures { result ≡ self.now.auto }
    {
        self.auto_separators
    }

    /// Sets whether edits are recorded. What is recorded stays.
    pub fn set_undo(&mut self, on: bool)
        ensures { self.new ≡ record self.old { undo = on } }
    {
        self.undo = on;
    }

    /// Sets whether separators are automatic.
    pub fn set_auto_separators(&mut self, on: bool)
        ensures { self.new ≡ record self.old { auto = on } }
    {
        self.auto_separators = on;
    }

    /// How many groups the undo stack may have; 0: any number (`-maxundo`).
    pub fn max_undo(&self) -> u64
        ensures { result ≡ self.now.history.most }
    {
        self.stacks.max()
    }

    /// Sets how many groups the undo stack may have, the one that takes the next action among them; 0: any number (Tk text
    /// manual, "-maxundo"). Where there are more, the oldest ones are dropped. The redo stack, the modified flag and what is
    /// prepared stay as they are. It takes no memory.
    pub fn set_max_undo(&mut self, most: u64)
        ensures { self.new ≡ record self.old { history = with_most most self.old.history } }
    {
        self.stacks.set_max(most);
    }

    /// Makes ready for an action that takes some characters away, which have these states in a table.
    /// All memory that `record` needs is taken here. After `NoMemory` all is as it was, also what was prepared
    /// before, but for states that the recorder's own table got.
    pub fn prepare(&mut self, lost: &[Cell<StateId>], states: &StateTable) -> Result<(), Fault>
        requires { AreStates states.now lost.now }
        ensures ok { OnOk result (self.new.pending ≡ Some (map as_removed (map (shown states.now) lost.now))) }
        ensures history { self.new.history ≡ self.old.history }
        ensures settings { (self.new.undo ≡ self.old.undo) × (self.new.auto ≡ self.old.auto) }
        ensures came_back { (stamp : Stamp) → came_back self.new stamp ≡ came_back self.old stamp }
        ensures ids { KeepsIds self.old.table self.new.table }
        ensures same { OnErr result (self.new ≡ record self.old { table = self.new.table }) }
        ensures err { IsOkUnless result Fault.NoMemory }
    {
        let removed = own::removed_cells(self.alloc, states, lost, &mut self.table)?;
        let inserted = Vec::with_capacity(self.alloc, 1)?;
        self.stacks.reserve(0)?;
        self.next = Some(Prepared { removed, inserted });
        Ok(())
    }

    /// Records the action that was prepared: its first operation has the count `first`, and it put in
    /// the characters of the site's counts `first` to `last` (none, where `last` is less). What was
    /// undone can't be redone then, and the oldest groups are dropped where the undo stack would have more than it
    /// may (`set_max_undo`). It takes no memory.
    pub fn record(&mut self, kind: Kind, site: Site, first: u64, last: u64)
        requires prepared { is_some self.old.pending ≡ true }
        requires stays { IfSome self.old.pending (λ removed. HasStayed (came_back self.old)
            (span_action kind (record { site = site.number; first = first; last = last }) removed)) }
        ensures history { IfSome self.old.pending (λ removed. self.new.history ≡ with_action self.old.auto
            (span_action kind (record { site = site.number; first = first; last = last }) removed) self.old.history) }
        ensures pending { self.new.pending ≡ None }
        ensures settings { (self.new.undo ≡ self.old.undo) × (self.new.auto ≡ self.old.auto) }
        ensures others { (self.new.moves ≡ self.old.moves) × (self.new.table ≡ self.old.table) }
    {
        if let Some(next) = self.next.take() {
            let mut inserted = next.inserted;
            inserted.push_reserved(Span {
                site: site.number(),
                first,
                last,
            });
            let action = Action {
                number: first,
                kind,
                inserted,
                removed: next.removed,
            };
            self.stacks.add(action, self.auto_separators);
        }
    }

    /// Forces the modified flag: for an edit that isn't recorded, and for a received operation that
    /// changes the visible text. It takes no memory.
    pub fn force(&mut self)
        ensures { self.new ≡ record self.old { history = forced_on self.old.history } }
    {
        self.stacks.force();
    }

    /// Places a separator: the next action begins a group (Tk text manual, "edit separator"). Nothing is prepared then.
    /// It takes no memory.
    pub fn separate(&mut self)
        ensures history { self.new.history ≡ separated self.old.history }
        ensures settings { (self.new.undo ≡ self.old.undo) × (self.new.auto ≡ self.old.auto) }
        ensures pending { self.new.pending ≡ None }
        ensures others { (self.new.moves ≡ self.old.moves) × (self.new.table ≡ self.old.table) }
    {
        self.next = None;
        self.stacks.separate();
    }

    /// Empties both stacks (Tk text manual, "edit reset"). The modified flag stays as it is, and nothing is prepared. It
    /// takes no memory.
    pub fn reset(&mut self)
        ensures history { self.new.history ≡ emptied self.old.history }
        ensures settings { (self.new.undo ≡ self.old.undo) × (self.new.auto ≡ self.old.auto) }
        ensures pending { self.new.pending ≡ None }
        ensures came_back { (stamp : Stamp) → came_back self.new stamp ≡ false }
        ensures table { self.new.table ≡ self.old.table }
    {
        self.next = None;
        self.stacks.reset();
    }

    /// Whether the text is modified (Tk text manual, "edit modified").
    pub fn modified(&self) -> bool
        ensures { result ≡ is_modified self.now.history }
    {
        self.stacks.modified()
    }

    /// Sets the modified flag (Tk text manual, "edit modified"). Taking it away alone takes memory. After `NoMemory`
    /// all is as it was.
    pub fn set_modified(&mut self, on: bool) -> Result<(), Fault>
        ensures ok { OnOk result (self.new ≡ record self.old {
          history = if on then forced_on self.old.history else unmodified self.old.history;
        }) }
        ensures err { OnErr result (self.new ≡ self.old) }
        ensures memory { IfErr result (λ fault. (fault ≡ Fault.NoMemory) × (on ≡ false)) }
    {
        self.stacks.set_modified(on)
    }

    /// Whether there is a group to undo (Tk text manual, "edit canundo").
    pub fn can_undo(&self) -> bool
        ensures { result ≡ is_some (next_undo self.now.history) }
    {
        self.stacks.can_undo()
    }

    /// Whether there is a group to redo (Tk text manual, "edit canredo").
    pub fn can_redo(&self) -> bool
        ensures { result ≡ is_some (next_redo self.now.history) }
    {
        self.stacks.can_redo()
    }

    // A copy of the group to undo, its actions oldest first. `NothingToUndo` just where there is none,
    // and else only `NoMemory`.
    fn undo_group(&self) -> Result<Vec<Action>, Fault>
        ensures ok { IfOk result (λ group. next_undo self.now.history ≡ Some (named_group self.now.table (group_of group.items))) }
        ensures given { IfOk result (λ group. AreGiven self.now.table (group_of group.items)) }
        ensures stay { IfOk result (λ group. HaveStayed (came_back self.now) (named_group self.now.table (group_of group.items))) }
        ensures none { (result ≡ Err Fault.NothingToUndo) ↔ (next_undo self.now.history ≡ None) }
        ensures fault { IfErr result (λ fault. (fault ≡ Fault.NothingToUndo) ⊎ (fault ≡ Fault.NoMemory)) }
    {
        self.stacks.undo()
    }

    // A copy of the group to redo, its actions in the order in which they were reverted.
    // `NothingToRedo` just where there is none, and else only `NoMemory`.
    fn redo_group(&self) -> Result<Vec<Action>, Fault>
        ensures ok { IfOk result (λ group. next_redo self.now.history ≡ Some (named_group self.now.table (group_of group.items))) }
        ensures given { IfOk result (λ group. AreGiven self.now.table (group_of group.items)) }
        ensures stay { IfOk result (λ group. HaveStayed (came_back self.now) (named_group self.now.table (group_of group.items))) }
        ensures none { (result ≡ Err Fault.NothingToRedo) ↔ (next_redo self.now.history ≡ None) }
        ensures fault { IfErr result (λ fault. (fault ≡ Fault.NothingToRedo) ⊎ (fault ≡ Fault.NoMemory)) }
    {
        self.stacks.redo()
    }

    // The group to undo was reverted, and characters came back by it, one after the other: it leaves its
    // stack, and its reverted actions are the next group to redo. Nothing is prepared then. It takes no
    // memory.
    fn undone(&mut self, returns: &[Return], reverted: Vec<Action>)
        requires ready { self.old.ready ≡ true }
        requires room { length returns.now ≤ self.old.moves.room }
        requires some { is_some (next_undo self.old.history) ≡ true }
        requires returns { AreReturns (came_back self.old) returns.now }
        requires given { AreGiven self.old.table (group_of reverted.items) }
        requires stay { HaveStayed (back_after returns.now (came_back self.old)) (named_group self.old.table (group_of reverted.items)) }
        ensures history { self.new.history ≡ undo_done (named_group self.old.table (group_of reverted.items))
            (renamed_by (stamp_after returns.now) self.old.history) }
        ensures came_back { (stamp : Stamp) → came_back self.new stamp ≡ back_after returns.now (came_back self.old) stamp }
        ensures settings { (self.new.undo ≡ self.old.undo) × (self.new.auto ≡ self.old.auto) }
        ensures others { (self.new.pending ≡ None) × (self.new.table ≡ self.old.table) }
    {
        self.next = None;
        coming::bring_back(&mut self.stacks, returns);
        self.stacks.undone(reverted);
    }

    // The group to redo was reverted, and characters came back by it, one after the other: it leaves its
    // stack, and its reverted actions are the next group to undo, which is closed. The oldest groups are
    // dropped where there are more to undo than may be. Nothing is prepared then. It takes no memory.
    fn redone(&mut self, returns: &[Return], reverted: Vec<Action>)
        requires ready { self.old.ready ≡ true }
        requires room { length returns.now ≤ self.old.moves.room }
        requires some { is_some (next_redo self.old.history) ≡ true }
        requires returns { AreReturns (came_back self.old) returns.now }
        requires given { AreGiven self.old.table (group_of reverted.items) }
        requires stay { HaveStayed (back_after returns.now (came_back self.old)) (named_group self.old.table (group_of reverted.items)) }
        ensures history { self.new.history ≡ redo_done (named_group self.old.table (group_of reverted.items))
            (renamed_by (stamp_after returns.now) self.old.history) }
        ensures came_back { (stamp : Stamp) → came_back self.new stamp ≡ back_after returns.now (came_back self.old) stamp }
        ensures settings { (self.new.undo ≡ self.old.undo) × (self.new.auto ≡ self.old.auto) }
        ensures others { (self.new.pending ≡ None) × (self.new.table ≡ self.old.table) }
    {
        self.next = None;
        coming::bring_back(&mut self.stacks, returns);
        self.stacks.redone(reverted);
    }
}
