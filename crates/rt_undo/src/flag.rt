// By what the modified flag is told.
ghost use Rattle.std.specs.Prelude.{◌≡◌, ℕ, ◌≤◌, ◌||◌, ◌++◌, [], ◌∷◌, false, true, not, length, drop, option_map, unwrap_or, is_some, IfSome, IsOkUnless, IfOk, OnErr, OnOk};
ghost use Rattle.rt_undo.specs.Flag.{IsTold};
ghost use Rattle.rt_undo.specs.Groups.{numbers_of, numbers_of_groups};
ghost use Rattle.rt_undo.specs.Undo.{but_newest, rest_after, same_numbers};

use crate::action::Action;
use rt_stamps::Fault;
use std::alloc::Global;
use std::collections::VecDeque;
use std::marker::Model;

/// By what the modified flag is told: whether it was forced, and the numbers of the actions that could
/// be undone at the last `set_modified(false)`, without those of groups that were dropped since. It is told
/// of each group and action that comes or goes, so that to ask it looks at none.
#[derive(Drop)]
pub(crate) struct Flag {
    // The numbers as they were then.
    numbers: Vec<u64>,
    // So many of the first are those of dropped groups.
    passed: usize,
    // The numbers behind these are those of so many of the first groups that can be undone, and where
    // these are all of them, of so many actions behind them.
    groups: usize,
    actions: usize,
    // The place behind the numbers of these.
    place: usize,
    forced: bool,
}

impl Model for Flag {
    ghost use Rattle.rt_undo.specs.Flag.{ModifiedFlag};

    ghost Value = { ModifiedFlag };

    ghost use Rattle.rt_undo.specs.Flag.{flag_shown, PassedIsWithin};

    ghost view = { flag_shown };

    ghost invariant = { PassedIsWithin };
}

// Adds the numbers of actions. Want of memory, and then the list is as it was.
fn push_numbers(actions: &[Action], numbers: &mut Vec<u64>) -> Result<(), Fault>
    ensures ok { OnOk result (numbers.new.items ≡ numbers.old.items ++ numbers_of actions.now) }
    ensures same { OnErr result (numbers.new.items ≡ numbers.old.items) }
    ensures fault { IsOkUnless result Fault.NoMemory }
{
    numbers.reserve(actions.len())?;
    for action in actions {
        numbers.push_reserved(action.number);
    }
    Ok(())
}

// Adds the numbers of the actions of groups. Want of memory.
fn push_numbers_of_groups(groups: &[Vec<Action>], numbers: &mut Vec<u64>) -> Result<(), Fault>
    ensures ok { OnOk result (numbers.new.items ≡ numbers.old.items ++ numbers_of_groups groups.now) }
    ensures fault { IsOkUnless result Fault.NoMemory }
{
    for group in groups {
        push_numbers(group, numbers)?;
    }
    Ok(())
}

/// The numbers of the actions of groups and of actions behind them. Want of memory.
pub(crate) fn numbers_now(
    alloc: Global,
    closed: &VecDeque<Vec<Action>>,
    current: &[Action],
) -> Result<Vec<u64>, Fault>
    ensures ok { IfOk result (λ numbers. numbers.items ≡ numbers_of_groups closed.now.items ++ numbers_of current.now) }
    ensures fault { IsOkUnless result Fault.NoMemory }
{
    let mut numbers = Vec::new(alloc);
    let (older, newer) = closed.as_slices();
    push_numbers_of_groups(older, &mut numbers)?;
    push_numbers_of_groups(newer, &mut numbers)?;
    push_numbers(current, &mut numbers)?;
    Ok(numbers)
}

// The place behind a number, where it stands in a list at a place.
fn place_behind(number: u64, kept: &[u64], place: usize) -> Option<usize>
    requires { place ≤ length kept.now }
    ensures rest { option_map (λ p. drop p kept.now) result ≡ rest_after (number ∷ []) (drop place kept.now) }
    ensures within { IfSome result (λ p. p ≤ length kept.now) }
{
    if place == kept.len() || kept[place] != number {
        return None;
    }
    Some(place + 1)
}

// The place behind the numbers of actions, where they stand in a list from a place on.
fn place_after(actions: &[Action], kept: &[u64], place: usize) -> Option<usize>
    requires { place ≤ length kept.now }
    ensures rest { option_map (λ p. drop p kept.now) result ≡ rest_after (numbers_of actions.now) (drop place kept.now) }
    ensures within { IfSome result (λ p. p ≤ length kept.now) }
{
    let mut after = place;
    for action in actions {
        match place_behind(action.number, kept, after) {
            Some(next) => after = next,
            None => return None,
        }
    }
    Some(after)
}

impl Flag {
    /// A flag that is told by no numbers, where nothing can be undone. It takes no memory.
    pub(crate) fn new(alloc: Global, forced: bool) -> Flag
        ensures kept { result.kept ≡ [] }
        ensures forced { result.forced ≡ forced }
        ensures told { IsTold result [] [] }
    {
        Flag {
            numbers: Vec::new(alloc),
            passed: 0,
            groups: 0,
            actions: 0,
            place: 0,
            forced,
        }
    }

    // Whether the kept numbers are those of the groups and of the actions behind them.
    fn is_same(&self, closed: &VecDeque<Vec<Action>>, current: &[Action]) -> bool
        requires told { IsTold self.now closed.now.items current.now }
        requires not_forced { self.now.forced ≡ false }
        ensures { result ≡ same_numbers (numbers_of_groups closed.now.items ++ numbers_of current.now) self.now.kept }
    {
        if self.groups < closed.len() {
            return false;
        }
        self.actions == current.len() && self.place == self.numbers.len()
    }

    /// Whether it is on, as groups stand on the undo stack and actions behind them: none of them is looked at.
    pub(crate) fn is_on(&self, closed: &VecDeque<Vec<Action>>, current: &[Action]) -> bool
        requires { IsTold self.now closed.now.items current.now }
        ensures { result ≡ (self.now.forced || not (same_numbers (numbers_of_groups closed.now.items ++ numbers_of current.now) self.now.kept)) }
    {
        if self.forced {
            return true;
        }
        !self.is_same(closed, current)
    }

    /// Forces it. It takes no memory.
    pub(crate) fn force(&mut self)
        ensures { self.new ≡ record self.old { forced = true } }
    {
        self.forced = true;
    }

    /// Takes it away, as these are the numbers of the actions that can be undone. It takes no memory.
    pub(crate) fn clear(
        &mut self,
        numbers: Vec<u64>,
        closed: &VecDeque<Vec<Action>>,
        current: &[Action],
    )
        requires { numbers.items ≡ numbers_of_groups closed.now.items ++ numbers_of current.now }
        ensures kept { self.new.kept ≡ numbers.items }
        ensures forced { self.new.forced ≡ false }
        ensures told { IsTold self.new closed.now.items current.now }
    {
        self.place = numbers.len();
        self.numbers = numbers;
        self.passed = 0;
        self.groups = closed.len();
        self.actions = current.len();
        self.forced = false;
    }

    /// An action is put behind the others.
    pub(crate) fn tell_action(
        &mut self,
        closed: &VecDeque<Vec<Action>>,
        current: &[Action],
        action: &Action,
    )
        requires { IsTold self.old closed.now.items current.now }
        ensures kept { (self.new.kept ≡ self.old.kept) × (self.new.forced ≡ self.old.forced) }
        ensures told { IsTold self.new closed.now.items (current.now ++ action.now ∷ []) }
    {
        if self.groups < closed.len() {
            return;
        }
        if self.actions < current.len() {
            return;
        }
        if let Some(place) = place_behind(action.number, &self.numbers, self.place) {
            self.place = place;
            self.actions += 1;
        }
    }

    /// The actions behind the groups go, or are going to be a group.
    pub(crate) fn tell_none(&mut self, closed: &VecDeque<Vec<Action>>, current: &[Action])
        requires { IsTold self.old closed.now.items current.now }
        ensures kept { (self.new.kept ≡ self.old.kept) × (self.new.forced ≡ self.old.forced) }
        ensures told { IsTold self.new closed.now.items [] }
    {
        self.place -= self.actions;
        self.actions = 0;
    }

    /// A group is put behind the others.
    pub(crate) fn tell_group(&mut self, closed: &VecDeque<Vec<Action>>, group: &Vec<Action>)
        requires { IsTold self.old closed.now.items [] }
        ensures kept { (self.new.kept ≡ self.old.kept) × (self.new.forced ≡ self.old.forced) }
        ensures told { IsTold self.new (closed.now.items ++ group.now ∷ []) [] }
    {
        if self.groups < closed.len() {
            return;
        }
        if let Some(place) = place_after(group, &self.numbers, self.place) {
            self.place = place;
            self.groups += 1;
        }
    }

    /// The last group goes, if there are any.
    pub(crate) fn tell_last(&mut self, closed: &VecDeque<Vec<Action>>)
        requires { IsTold self.old closed.now.items [] }
        ensures kept { (self.new.kept ≡ self.old.kept) × (self.new.forced ≡ self.old.forced) }
        ensures told { IsTold self.new (but_newest closed.now.items) [] }
    {
        if self.groups < closed.len() {
            return;
        }
        if let Some(group) = closed.back() {
            self.place -= group.len();
            self.groups -= 1;
        }
    }

    /// The oldest group is dropped, and these are left: its numbers leave those that are kept where these begin
    /// with them, and else the flag is forced. It takes no memory.
    pub(crate) fn pass(
        &mut self,
        dropped: &Vec<Action>,
        closed: &VecDeque<Vec<Action>>,
        current: &[Action],
    )
        requires { IsTold self.old (dropped.now ∷ closed.now.items) current.now }
        ensures kept { self.new.kept ≡ unwrap_or (rest_after (numbers_of dropped.now.items) self.old.kept) [] }
        ensures forced { self.new.forced ≡ (self.old.forced || not (is_some (rest_after (numbers_of dropped.now.items) self.old.kept))) }
        ensures told { IsTold self.new closed.now.items current.now }
    {
        if self.groups > 0 {
            self.groups -= 1;
            self.passed += dropped.len();
        } else {
            self.passed = self.numbers.len();
            self.place = self.numbers.len();
            self.forced = true;
        }
    }
}
