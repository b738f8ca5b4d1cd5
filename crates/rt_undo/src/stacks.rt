// The undo stacks of a site.
ghost use Rattle.std.specs.Prelude.{◌≡◌, ◌↔◌, ℕ, ◌+◌, ◌-◌, ◌^◌, ◌<◌, ◌≤◌, ◌||◌, ◌⊎◌, None, Some, Err, true, false, is_some, if◌then◌else◌, IfErr, IsOkUnless, IfOk, OnErr, OnOk};
ghost use Rattle.rt_stamps.specs.declared.stamp.Stamp.{Stamp};
ghost use Rattle.rt_undo.specs.Actions.{action_of, group_of};
ghost use Rattle.rt_undo.specs.Renames.{is_in_span, is_moved, is_same, renamed};
ghost use Rattle.rt_undo.specs.Undo.{with_action, renamed_span, emptied, forced_on, is_modified, limited, next_redo, next_undo, no_history, redo_done, replaced_in, separated, undo_done, unmodified, with_most};

use crate::action::Action;
use crate::copies::group_now;
use crate::flag::{Flag, numbers_now};
use crate::groups::{
    asks_separator, close, drop_group, drop_last, drop_oldest, last_group, push_action, push_group,
    too_many,
};
use crate::renames::Renames;
use rt_stamps::limits::GREATEST_COUNT;
use rt_stamps::{Fault, Span, Stamp};
use std::alloc::Global;
use std::collections::VecDeque;
use std::marker::Model;
use std::mem;

/// The undo stacks of a site: groups of actions that can be undone, groups that were undone, and the
/// modified flag (Tk text manual, "The undo mechanism"). Actions go by stamps, so what other sites do
/// meanwhile leads no undo astray.
///
/// Actions are kept by spans, as they were recorded. Where a character came back under another stamp
/// is kept once beside them, for all groups, so `replaced` costs about a logarithm of the spans that
/// came back, however much stands on the stacks; `undo` and `redo` look up each character of their
/// group. `modified` looks at no action: the flag is told of each that comes or goes. A group that is dropped
/// costs its own actions, however many groups stand there.
pub struct Stacks {
    alloc: Global,
    // The undo stack: groups that take no more actions, oldest first.
    closed: VecDeque<Vec<Action>>,
    // The actions since the last separator.
    current: Vec<Action>,
    // Room for the next group.
    spare: Vec<Action>,
    // The redo stack: reverted groups, the next one last.
    undone: VecDeque<Vec<Action>>,
    // The most groups that may be on the undo stack; 0: any number.
    most: u64,
    flag: Flag,
    renames: Renames,
    // There is room for one action or group.
    ready: bool,
}

// Written out, so that where it is let go is one step for the crates above, and not one for each
// field of each field.
impl Drop for Stacks {
    fn drop(self) {
        let Stacks {
            alloc: _,
            closed: _,
            current: _,
            spare: _,
            undone: _,
            most: _,
            flag: _,
            renames: _,
            ready: _,
        } = self;
    }
}

impl Model for Stacks {
    ghost use Rattle.rt_undo.specs.Seen.{UndoStacks};

    ghost Value = { UndoStacks };

    ghost use Rattle.rt_undo.specs.Seen.{AreStacks, stacks_value};

    ghost view = { stacks_value };

    ghost invariant = { AreStacks };
}

impl Stacks {
    ghost use Rattle.rt_undo.specs.Groups.{IsStill, NoneMoves};

    /// No actions. It takes no memory.
    pub fn new(alloc: Global) -> Stacks
        ensures history { result.history ≡ no_history }
        ensures moves { (stamp : Stamp) → is_moved result.moves stamp ≡ false }
    {
        Stacks {
            alloc,
            closed: VecDeque::new(alloc),
            current: Vec::new(alloc),
            spare: Vec::new(alloc),
            undone: VecDeque::new(alloc),
            most: 0,
            flag: Flag::new(alloc, false),
            renames: Renames::new(alloc),
            ready: false,
        }
    }

    /// Makes room for one `add`, `undone` or `redone`, and for so many calls of `replaced` and
    /// `replaced_span` before it, below 2^32. After `NoMemory` the stacks are as they were.
    pub fn reserve(&mut self, replacements: usize) -> Result<(), Fault>
        requires { replacements < 2 ^ 32 }
        ensures history { self.new.history ≡ self.old.history }
        ensures moves { (stamp : Stamp) → is_moved self.new.moves stamp ≡ is_moved self.old.moves stamp }
        ensures ready { OnOk result (self.new.ready ≡ true) }
        ensures room { OnOk result (replacements ≤ self.new.moves.room) }
        ensures kept { OnOk result (self.old.moves.room ≤ self.new.moves.room) }
        ensures err { OnErr result (self.new ≡ self.old) }
        ensures fault { IsOkUnless result Fault.NoMemory }
    {
        self.closed.reserve(2)?;
        self.current.reserve(1)?;
        self.spare.reserve(1)?;
        self.undone.reserve(1)?;
        self.renames.reserve(replacements)?;
        self.ready = true;
        Ok(())
    }

    /// Records an action, and takes the redo stack away. With automatic separators one is placed before
    /// it where it is a replacement or of another kind than the last action. Where there are more groups
    /// then than the most that may be, the oldest one is dropped. It takes no memory.
    pub fn add(&mut self, action: Action, auto_separators: bool)
        requires ready { self.old.ready ≡ true }
        requires still { IsStill self.old.moves (action_of action) }
        ensures history { self.new.history ≡ with_action auto_separators (action_of action) self.old.history }
        ensures moves { self.new.moves ≡ self.old.moves }
        ensures used { self.new.ready ≡ false }
    {
        self.ready = false;
        if auto_separators && asks_separator(&self.current, action.kind) {
            let next = mem::replace(&mut self.spare, Vec::new(self.alloc));
            close(&mut self.closed, &mut self.current, next, &mut self.flag);
        }
        self.flag.tell_action(&self.closed, &self.current, &action);
        push_action(&mut self.current, action);
        self.undone.clear();
        self.limit();
    }

    /// Places a separator: the next action begins a group ("edit separator"). It takes no memory. Where room was
    /// made, more has to be made before the next action.
    pub fn separate(&mut self)
        ensures history { self.new.history ≡ separated self.old.history }
        ensures moves { self.new.moves ≡ self.old.moves }
        ensures used { self.new.ready ≡ false }
    {
        self.ready = false;
        let next = Vec::new(self.alloc);
        close(&mut self.closed, &mut self.current, next, &mut self.flag);
    }

    // Drops the oldest groups, as many as there are too many. It takes no memory.
    fn limit(&mut self)
        ensures history { self.new.history ≡ limited self.old.history }
        ensures others { (self.new.moves ≡ self.old.moves) × (self.new.ready ≡ self.old.ready) }
    {
        let n = too_many(&self.closed, &self.current, self.most);
        drop_oldest(&mut self.closed, &self.current, &mut self.flag, n);
    }

    /// The most groups that may be on the undo stack, the one that takes the next action among them; 0: any number
    /// ("configure -maxundo").
    pub fn max(&self) -> u64
        ensures { result ≡ self.now.history.most }
    {
        self.most
    }

    /// Sets the most groups that may be on the undo stack, the one that takes the next action among them; 0: any number
    /// ("configure -maxundo"). Where there are more, the oldest ones are dropped, and that changes neither the redo
    /// stack nor the modified flag. It takes no memory.
    pub fn set_max(&mut self, most: u64)
        ensures history { self.new.history ≡ with_most most self.old.history }
        ensures others { (self.new.moves ≡ self.old.moves) × (self.new.ready ≡ self.old.ready) }
    {
        self.most = most;
        self.limit();
    }

    /// Whether there is a group to undo ("edit canundo").
    pub fn can_undo(&self) -> bool
        ensures { result ≡ is_some (next_undo self.now.history) }
    {
        !self.current.is_empty() || !self.closed.is_empty()
    }

    /// Whether there is a group to redo ("edit canredo").
    pub fn can_redo(&self) -> bool
        ensures { result ≡ is_some (next_redo self.now.history) }
    {
        !self.undone.is_empty()
    }

    /// A copy of the group to undo, its actions oldest first; it names no stamp that is moved.
    /// `NothingToUndo` just where there is none, and else only `NoMemory`.
    pub fn undo(&self) -> Result<Vec<Action>, Fault>
        ensures ok { IfOk result (λ group. next_undo self.now.history ≡ Some (group_of group.items)) }
        ensures still { IfOk result (λ group. NoneMoves self.now.moves (group_of group.items)) }
        ensures none { (result ≡ Err Fault.NothingToUndo) ↔ (next_undo self.now.history ≡ None) }
        ensures fault { IfErr result (λ fault. (fault ≡ Fault.NothingToUndo) ⊎ (fault ≡ Fault.NoMemory)) }
    {
        match last_group(&self.closed, &self.current) {
            Some(group) => group_now(self.alloc, &self.renames, group),
            None => Err(Fault::NothingToUndo),
        }
    }

    /// A copy of the group to redo, its actions in the order in which they were reverted; it names no
    /// stamp that is moved. `NothingToRedo` just where there is none, and else only `NoMemory`.
    pub fn redo(&self) -> Result<Vec<Action>, Fault>
        ensures ok { IfOk result (λ group. next_redo self.now.history ≡ Some (group_of group.items)) }
        ensures still { IfOk result (λ group. NoneMoves self.now.moves (group_of group.items)) }
        ensures none { (result ≡ Err Fault.NothingToRedo) ↔ (next_redo self.now.history ≡ None) }
        ensures fault { IfErr result (λ fault. (fault ≡ Fault.NothingToRedo) ⊎ (fault ≡ Fault.NoMemory)) }
    {
        match last_group(&self.undone, &[]) {
            Some(group) => group_now(self.alloc, &self.renames, group),
            None => Err(Fault::NothingToRedo),
        }
    }

    /// The group to undo was reverted: it leaves its stack, and its reverted actions, in the order of
    /// reverting, are the next group to redo. It takes no memory.
    pub fn undone(&mut self, reverted: Vec<Action>)
        requires ready { self.old.ready ≡ true }
        requires some { is_some (next_undo self.old.history) ≡ true }
        requires still { NoneMoves self.old.moves (group_of reverted.items) }
        ensures history { self.new.history ≡ undo_done (group_of reverted.items) self.old.history }
        ensures moves { self.new.moves ≡ self.old.moves }
        ensures used { self.new.ready ≡ false }
    {
        self.ready = false;
        drop_last(&mut self.closed, &mut self.current, &mut self.flag);
        push_group(&mut self.undone, reverted);
    }

    /// The group to redo was reverted: it leaves its stack, and its reverted actions, in the order of
    /// reverting, are the next group to undo, which is closed. Where there are more groups then than the
    /// most that may be, the oldest ones are dropped. It takes no memory.
    pub fn redone(&mut self, reverted: Vec<Action>)
        requires ready { self.old.ready ≡ true }
        requires some { is_some (next_redo self.old.history) ≡ true }
        requires still { NoneMoves self.old.moves (group_of reverted.items) }
        ensures history { self.new.history ≡ redo_done (group_of reverted.items) self.old.history }
        ensures moves { self.new.moves ≡ self.old.moves }
        ensures used { self.new.ready ≡ false }
    {
        self.ready = false;
        drop_group(&mut self.undone);
        let next = Vec::new(self.alloc);
        close(&mut self.closed, &mut self.current, next, &mut self.flag);
        self.flag.tell_group(&self.closed, &reverted);
        push_group(&mut self.closed, reverted);
        self.limit();
    }

    /// A character came back under another stamp, `new`: in every group that stands for the former one
    /// from now on, in the group that is reverted too. Neither came back before. It takes no memory,
    /// and one of the room for replacements.
    pub fn replaced(&mut self, old: Stamp, new: Stamp)
        requires room { 0 < self.old.moves.room }
        requires later { old.count < new.count }
        requires bound { new.count ≤ GREATEST_COUNT }
        requires first_time { is_moved self.old.moves old ≡ false }
        requires fresh { is_moved self.old.moves new ≡ false }
        ensures history { self.new.history ≡ replaced_in old new self.old.history }
        ensures moves { (s : Stamp) → is_moved self.new.moves s ≡ (is_same s old || is_moved self.old.moves s) }
        ensures ready { self.new.ready ≡ self.old.ready }
        ensures room { self.new.moves.room + 1 ≡ self.old.moves.room }
    {
        let former = Span {
            site: old.site,
            first: old.count,
            last: old.count,
        };
        self.replaced_span(former, new);
    }

    /// The characters of a span came back under the stamp `newer` and the next counts: in every group
    /// these stand for them from now on, in the group that is reverted too. None of all these came back
    /// before. It takes no memory, and one of the room for replacements, however long the span is.
    pub fn replaced_span(&mut self, former: Span, newer: Stamp)
        requires room { 0 < self.old.moves.room }
        requires order { former.first ≤ former.last }
        requires later { former.last < newer.count }
        requires bound { newer.count + (former.last - former.first) ≤ GREATEST_COUNT }
        requires first_time { (s : Stamp) → is_in_span former s ≡ true → is_moved self.old.moves s ≡ false }
        requires fresh { (s : Stamp) → is_in_span former s ≡ true → is_moved self.old.moves (renamed former newer s) ≡ false }
        ensures history { self.new.history ≡ renamed_span former newer self.old.history }
        ensures moves { (s : Stamp) → is_moved self.new.moves s ≡ (is_in_span former s || is_moved self.old.moves s) }
        ensures ready { self.new.ready ≡ self.old.ready }
        ensures room { self.new.moves.room + 1 ≡ self.old.moves.room }
    {
        self.renames.rename(former, newer);
    }

    /// Whether the text is modified ("edit modified"): the flag was forced, or other actions can be
    /// undone than at the last `set_modified(false)`.
    pub fn modified(&self) -> bool
        ensures { result ≡ is_modified self.now.history }
    {
        self.flag.is_on(&self.closed, &self.current)
    }

    /// Forces the modified flag: for a change of text that isn't recorded, and for a received operation
    /// that changes the visible text. It takes no memory.
    pub fn force(&mut self)
        ensures history { self.new.history ≡ forced_on self.old.history }
        ensures others { (self.new.moves ≡ self.old.moves) × (self.new.ready ≡ self.old.ready) }
    {
        self.flag.force();
    }

    /// Sets the modified flag ("edit modified"). Setting it forces it. Taking it away keeps the numbers
    /// of the actions that can be undone, and alone takes memory. After `NoMemory` all is as it was.
    pub fn set_modified(&mut self, on: bool) -> Result<(), Fault>
        ensures ok { OnOk result (self.new.history ≡ (if on then forced_on self.old.history else unmodified self.old.history)) }
        ensures others { (self.new.moves ≡ self.old.moves) × (self.new.ready ≡ self.old.ready) }
        ensures err { OnErr result (self.new.history ≡ self.old.history) }
        ensures memory { IfErr result (λ fault. (fault ≡ Fault.NoMemory) × (on ≡ false)) }
    {
        if on {
            self.force();
            return Ok(());
        }
        let numbers = numbers_now(self.alloc, &self.closed, &self.current)?;
        self.flag.clear(numbers, &self.closed, &self.current);
        Ok(())
    }

    /// Empties both stacks ("edit reset"). The modified flag stays as it is, and so does the most groups that
    /// may be. It takes no memory.
    pub fn reset(&mut self)
        ensures history { self.new.history ≡ emptied self.old.history }
        ensures moves { (stamp : Stamp) → is_moved self.new.moves stamp ≡ false }
        ensures used { (self.new.ready ≡ false) × (self.new.moves.room ≡ 0) }
    {
        self.flag = Flag::new(self.alloc, self.modified());
        self.ready = false;
        self.closed = VecDeque::new(self.alloc);
        self.current = Vec::new(self.alloc);
        self.undone = VecDeque::new(self.alloc);
        self.renames = Renames::new(self.alloc);
    }
}
