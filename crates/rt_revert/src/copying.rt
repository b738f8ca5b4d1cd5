// A working copy of a text.
ghost use Rattle.std.specs.Prelude.{◌≡◌, ℕ, ◌<◌, ◌≤◌, ◌∷◌, [], List, All, IsOkUnless, IfOk, IfSome, OnOk, length, map};
ghost use Rattle.rt_stamps.specs.declared.limits.TheConstants.{MOST_CELLS};
ghost use Rattle.rt_store.specs.declared.cell.Cell.{Cell};
ghost use Rattle.rt_store.specs.Cells.{EndsFinal, final_cell};
ghost use Rattle.rt_store.specs.Shown.{shown};
ghost use Rattle.rt_store.specs.Tagged.{AreStates};
ghost use Rattle.rt_tags.specs.States.{IsState, KeepsIds, names_on, state_at};
ghost use Rattle.rt_revert.specs.Keeping.{AreAlike};
ghost use Rattle.rt_revert.specs.Named.{AreAt};
ghost use Rattle.rt_revert.specs.Progress.{LookAlike};

use crate::returning::names_of;
use rt_stamps::{FINAL, Fault, ROOT, Span};
use rt_store::{Cell, TextStore};
use rt_tags::{StateId, StateTable};
use std::alloc::Global;

/// The state of another table in which the same tags are on. Want of memory.
pub fn kept_state(
    alloc: Global,
    states: &StateTable,
    state: StateId,
    kept: &mut StateTable,
) -> Result<StateId, Fault>
    requires { IsState states.now state }
    ensures given { IfOk result (IsState kept.new) }
    ensures names { IfOk result (λ id. names_on (state_at kept.new id) ≡ names_on (state_at states.now state)) }
    ensures ids { KeepsIds kept.old kept.new }
    ensures err { IsOkUnless result Fault.NoMemory }
{
    states.order();
    let names = names_of(alloc, states, state)?;
    kept.state_of_list(ROOT, &names)
}

/// Two states in which the same tags are on: one of a table, and one of a table of one's own.
#[derive(Clone, Copy)]
pub struct Alike {
    pub theirs: StateId,
    pub own: StateId,
}

/// A state of a table with such a state of one's own, where perhaps a pair of them is known. Want of
/// memory.
pub fn alike_state(
    alloc: Global,
    states: &StateTable,
    state: StateId,
    known: Option<Alike>,
    table: &mut StateTable,
) -> Result<Alike, Fault>
    requires state { IsState states.now state }
    requires known { IfSome known (AreAlike states.now table.old) }
    ensures theirs { IfOk result (λ alike. alike.theirs ≡ state) }
    ensures alike { IfOk result (AreAlike states.now table.new) }
    ensures ids { KeepsIds table.old table.new }
    ensures err { IsOkUnless result Fault.NoMemory }
{
    match known {
        Some(alike) if alike.theirs == state => Ok(alike),
        _ => Ok(Alike {
            theirs: state,
            own: kept_state(alloc, states, state, table)?,
        }),
    }
}

/// The cells of a store at some positions, with states of another table in which the same tags are on.
/// Want of memory.
pub(crate) fn kept_cells<S: TextStore>(
    alloc: Global,
    store: &S,
    states: &StateTable,
    positions: &[usize],
    kept: &mut StateTable,
) -> Result<Vec<Cell<StateId>>, Fault>
    requires states { AreStates states.now (S.list store.now) }
    requires within { All (λ position. position < length (S.list store.now)) positions.now }
    ensures states { IfOk result (λ cells. AreStates kept.new cells.items) }
    ensures alike { IfOk result (λ cells. (named : List (Cell ℕ)) → AreAt (S.list store.now) positions.now named
        → LookAlike (map (shown kept.new) cells.items) (map (shown states.now) named)) }
    ensures ids { KeepsIds kept.old kept.new }
    ensures err { IsOkUnless result Fault.NoMemory }
{
    let mut cells = Vec::new(alloc);
    let mut known = None;
    for position in positions {
        let cell = store.nth(*position);
        let alike = alike_state(alloc, states, cell.state, known, kept)?;
        let state = alike.own;
        cells.push(Cell { state, ..cell })?;
        known = Some(alike);
    }
    Ok(cells)
}

/// Fills an empty store with cells, the last of which is the final newline. Want of memory.
pub(crate) fn fill<C: TextStore>(
    kept: &StateTable,
    copy: &mut C,
    cells: Vec<Cell<StateId>>,
) -> Result<(), Fault>
    requires empty { C.list copy.old ≡ final_cell ∷ [] }
    requires states { AreStates kept.now cells.items }
    requires few { length cells.items ≤ MOST_CELLS }
    requires ends { EndsFinal cells.items }
    ensures list { OnOk result (C.list copy.new ≡ cells.items) }
    ensures agrees { OnOk result (C.agrees copy.new kept.now) }
    ensures err { IsOkUnless result Fault.NoMemory }
{
    kept.order();
    let mut front = cells;
    let Some(last) = front.pop() else {
        unreachable!()
    };
    let state = last.state;
    copy.reserve(front.len(), 3, kept.tags())?;
    let newline = Span {
        site: FINAL.site,
        first: FINAL.count,
        last: FINAL.count,
    };
    copy.set_state(kept, newline, state);
    copy.splice(kept, 0, &front);
    Ok(())
}
