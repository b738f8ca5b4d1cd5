// Characters that go, with their tags as states of a table of one's own.
ghost use Rattle.std.specs.Prelude.{◌≡◌, map, IsOkUnless, IfOk};
ghost use Rattle.rt_revert.specs.Reverting.{as_removed};
ghost use Rattle.rt_store.specs.Shown.{shown};
ghost use Rattle.rt_store.specs.Tagged.{AreStates};
ghost use Rattle.rt_tags.specs.States.{KeepsIds};
ghost use Rattle.rt_undo.specs.Actions.{removed_in};
ghost use Rattle.rt_recording.specs.Naming.{RemovedAreGiven, named_removed};

use rt_revert::{alike_state, push_removed};
use rt_stamps::Fault;
use rt_store::Cell;
use rt_tags::{StateId, StateTable};
use rt_undo::RemovedSpan;
use std::alloc::Global;

/// Cells as removed characters, with states of one's own table. Want of memory.
pub(crate) fn removed_cells(
    alloc: Global,
    states: &StateTable,
    cells: &[Cell<StateId>],
    table: &mut StateTable,
) -> Result<Vec<RemovedSpan>, Fault>
    requires { AreStates states.now cells.now }
    ensures ok { IfOk result (λ removed. map (named_removed table.new) (removed_in removed.items) ≡ map as_removed (map (shown states.now) cells.now)) }
    ensures given { IfOk result (λ removed. RemovedAreGiven table.new (removed_in removed.items)) }
    ensures ids { KeepsIds table.old table.new }
    ensures err { IsOkUnless result Fault.NoMemory }
{
    let mut removed = Vec::new(alloc);
    let mut known = None;
    for cell in cells {
        let alike = alike_state(alloc, states, cell.state, known, table)?;
        push_removed(&mut removed, cell.stamp, alike.own)?;
        known = Some(alike);
    }
    Ok(removed)
}
