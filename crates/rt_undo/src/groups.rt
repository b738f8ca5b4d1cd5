// Groups of actions on a stack, oldest first, and the group of the actions behind them.
ghost use Rattle.std.specs.Prelude.{◌≡◌, ℕ, ◌+◌, ◌-◌, ◌<◌, ◌≤◌, ◌||◌, ◌==◌, [], ◌∷◌, ◌++◌, not, length, drop, take, option_copied, option_map, unwrap_or, is_some, if◌then◌else◌, vec_len, vec_capacity};
ghost use Rattle.std.specs.VecDeque.{deque_len, deque_capacity};
ghost use Rattle.rt_undo.specs.Actions.{group_of, is_replace};
ghost use Rattle.rt_undo.specs.Flag.{IsTold};
ghost use Rattle.rt_undo.specs.Groups.{groups_of, numbers_of_groups};
ghost use Rattle.rt_undo.specs.Undo.{as_group, but_newest, differs_from, newest, rest_after};

use crate::action::{Action, Kind};
use crate::flag::Flag;
use std::collections::VecDeque;
use std::mem;

/// Puts an action behind others, where there is room.
pub(crate) fn push_action(group: &mut Vec<Action>, action: Action)
    requires { vec_len group.old < vec_capacity group.old }
    ensures items { group.new.items ≡ group.old.items ++ action ∷ [] }
    ensures len { vec_len group.new ≡ vec_len group.old + 1 }
    ensures capacity { vec_capacity group.new ≡ vec_capacity group.old }
{
    group.push_reserved(action);
}

/// Puts a group behind others, where there is room.
pub(crate) fn push_group(groups: &mut VecDeque<Vec<Action>>, group: Vec<Action>)
    requires { deque_len groups.old < deque_capacity groups.old }
    ensures items { groups.new.items ≡ groups.old.items ++ group ∷ [] }
    ensures len { deque_len groups.new ≡ deque_len groups.old + 1 }
    ensures capacity { deque_capacity groups.new ≡ deque_capacity groups.old }
{
    groups.push_back_reserved(group);
}

/// A separator: another group takes the place of the current one, which is put behind the closed ones
/// if it has an action.
pub(crate) fn close(
    closed: &mut VecDeque<Vec<Action>>,
    current: &mut Vec<Action>,
    next: Vec<Action>,
    flag: &mut Flag,
)
    requires room { 0 < vec_len current.old → deque_len closed.old < deque_capacity closed.old }
    requires told { IsTold flag.old closed.old.items current.old.items }
    ensures groups { groups_of closed.new.items ≡ groups_of closed.old.items ++ as_group (group_of current.old.items) }
    ensures next { current.new ≡ next }
    ensures told { IsTold flag.new closed.new.items [] }
    ensures kept { (flag.new.kept ≡ flag.old.kept) × (flag.new.forced ≡ flag.old.forced) }
    ensures len { deque_len closed.new ≤ deque_len closed.old + 1 }
    ensures capacity { deque_capacity closed.new ≡ deque_capacity closed.old }
{
    flag.tell_none(closed, current);
    let group = mem::replace(current, next);
    if !group.is_empty() {
        flag.tell_group(closed, &group);
        push_group(closed, group);
    }
}

/// The last of groups is taken away, if there are any.
pub(crate) fn drop_group(groups: &mut VecDeque<Vec<Action>>)
    ensures items { groups.new.items ≡ but_newest groups.old.items }
    ensures groups { groups_of groups.new.items ≡ but_newest (groups_of groups.old.items) }
    ensures capacity { deque_capacity groups.new ≡ deque_capacity groups.old }
{
    groups.pop_back();
}

/// The last group is taken away: the current one, or if that is empty the last closed one.
pub(crate) fn drop_last(
    closed: &mut VecDeque<Vec<Action>>,
    current: &mut Vec<Action>,
    flag: &mut Flag,
)
    requires { IsTold flag.old closed.old.items current.old.items }
    ensures groups { groups_of closed.new.items ≡ but_newest (groups_of closed.old.items ++ as_group (group_of current.old.items)) }
    ensures empty { current.new.items ≡ [] }
    ensures told { IsTold flag.new closed.new.items [] }
    ensures kept { (flag.new.kept ≡ flag.old.kept) × (flag.new.forced ≡ flag.old.forced) }
{
    flag.tell_none(closed, current);
    if current.is_empty() {
        flag.tell_last(closed);
        drop_group(closed);
    } else {
        current.clear();
    }
}

/// How many groups there are more than the most that may be: 0, if any number may be.
pub(crate) fn too_many(closed: &VecDeque<Vec<Action>>, current: &[Action], most: u64) -> usize
    ensures value { result ≡ (if most == 0 then 0 else length (groups_of closed.now.items ++ as_group (group_of current.now)) - most) }
    ensures within { result ≤ deque_len closed.now }
{
    if most == 0 {
        return 0;
    }
    let groups = if current.is_empty() {
        closed.len()
    } else {
        closed.len() + 1
    };
    (groups as u64).saturating_sub(most) as usize
}

/// The oldest groups are dropped, and their numbers leave those that are kept. It takes no memory.
pub(crate) fn drop_oldest(
    closed: &mut VecDeque<Vec<Action>>,
    current: &[Action],
    flag: &mut Flag,
    n: usize,
)
    requires within { n ≤ deque_len closed.old }
    requires told { IsTold flag.old closed.old.items current.now }
    ensures closed { closed.new.items ≡ drop n closed.old.items }
    ensures kept { flag.new.kept ≡ unwrap_or (rest_after (numbers_of_groups (take n closed.old.items)) flag.old.kept) [] }
    ensures forced { flag.new.forced ≡ (flag.old.forced || not (is_some (rest_after (numbers_of_groups (take n closed.old.items)) flag.old.kept))) }
    ensures told { IsTold flag.new closed.new.items current.now }
    ensures len { deque_len closed.new ≤ deque_len closed.old }
    ensures capacity { deque_capacity closed.new ≡ deque_capacity closed.old }
{
    for _ in 0..n {
        if let Some(group) = closed.pop_front() {
            flag.pass(&group, closed, current);
        }
    }
}

/// Whether automatic separators place one before an action of a kind.
pub(crate) fn asks_separator(current: &[Action], kind: Kind) -> bool
    ensures { result ≡ (is_replace kind || differs_from kind (newest (group_of current.now))) }
{
    match current.last() {
        Some(action) => kind == Kind::Replace || kind != action.kind,
        None => kind == Kind::Replace,
    }
}

/// The last of groups and of actions behind them, which are a group if there are any.
pub(crate) fn last_group<'a>(
    closed: &'a VecDeque<Vec<Action>>,
    current: &'a [Action],
) -> Option<&'a [Action]>
    ensures { option_map (λ group. group_of group) (option_copied result) ≡ newest (groups_of closed.now.items ++ as_group (group_of current.now)) }
{
    if !current.is_empty() {
        return Some(current);
    }
    match closed.back() {
        Some(group) => Some(group.as_slice()),
        None => None,
    }
}
