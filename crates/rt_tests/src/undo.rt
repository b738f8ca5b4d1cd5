// The spans of an action. What is undone and redone, and the modified flag, are told by scripts (rt_tests_script).
ghost use Rattle.std.specs.Prelude.{◌≡◌, false, true, is_some};
ghost use Rattle.rt_stamps.specs.declared.stamp.Stamp.{Stamp};
ghost use Rattle.rt_undo.specs.Renames.{is_moved};
ghost use Rattle.rt_undo.specs.Undo.{next_redo, next_undo, no_history, redo_done, undo_done, with_action};

use crate::checks::same;
use rt_stamps::{Fault, Span, Stamp};
use rt_undo::{Action, Kind, Stacks};
use std::alloc::Global;
use std::test::Fail;

// Characters of consecutive counts are typed.
fn typed(alloc: Global, first: u64, last: u64) -> Result<Action, Fault> {
    let mut inserted = Vec::new(alloc);
    inserted.push(Span {
        site: 1,
        first,
        last,
    })?;
    Ok(Action {
        number: first,
        kind: Kind::Insert,
        inserted,
        removed: Vec::new(alloc),
    })
}

// One action is recorded, with room for two characters that come back.
fn record(stacks: &mut Stacks, action: Action) -> Result<(), Fault>
    requires { (s : Stamp) → is_moved stacks.old.moves s ≡ false }
    ensures moves { (s : Stamp) → is_moved stacks.new.moves s ≡ false }
{
    stacks.reserve(2)?;
    stacks.add(action, true);
    Ok(())
}

// How many spans of typed characters the first action of a group has.
fn spans_in(group: &[Action]) -> usize {
    match group.first() {
        Some(action) => action.inserted.len(),
        None => 0,
    }
}

// Where a character in the middle of a span comes back under another stamp, the span is cut in three.
#[test]
fn spans_of_a_long_action(rt: HostRuntime) -> Result<(), Fail> {
    let mut stacks = Stacks::new(rt.alloc());
    record(&mut stacks, typed(rt.alloc(), 1, 1000)?)?;
    same(&rt, spans_in(&stacks.undo()?), 1);
    stacks.reserve(1)?;
    let former = Stamp {
        count: 500,
        site: 1,
    };
    let new = Stamp {
        count: 1002,
        site: 1,
    };
    stacks.replaced(former, new);
    same(&rt, spans_in(&stacks.undo()?), 3);
    Ok(())
}
