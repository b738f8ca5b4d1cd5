// The visible cells in ranges.
ghost use Rattle.std.specs.Prelude.{◌≡◌, ◌+◌, ◌-◌, ◌*◌, ◌/◌, ◌<◌, ◌≤◌, ◌++◌, All, IfOk, IsOkUnless, OnOk, length, take, drop};
ghost use Rattle.rt_store.specs.Cells.{visible_of};
ghost use Rattle.rt_plans.specs.Removals.{is_covered, cells_at, RangesFollow};

use crate::Range;
use rt_stamps::Fault;
use rt_store::{Cell, TextStore};
use rt_tags::StateId;
use std::alloc::Global;

// Adds the visible cells in a range.
fn push_cells<S: TextStore>(
    store: &S,
    range: Range,
    cells: &mut Vec<Cell<StateId>>,
) -> Result<(), Fault>
    requires order { range.from ≤ range.to }
    requires within { range.to ≤ length (visible_of (S.list store.now)) }
    ensures ok { OnOk result (cells.new.items ≡ cells.old.items ++ take (range.to - range.from) (drop range.from (visible_of (S.list store.now)))) }
    ensures err { IsOkUnless result Fault.NoMemory }
{
    for place in range.from..range.to {
        cells.push(store.cell_at(place))?;
    }
    Ok(())
}

/// The visible cells in ranges, in the text's order. Want of memory.
pub fn cells_in<S: TextStore>(
    alloc: Global,
    store: &S,
    ranges: &[Range],
) -> Result<Vec<Cell<StateId>>, Fault>
    requires order { RangesFollow 0 ranges.now }
    requires within { All (λ range. range.to ≤ length (visible_of (S.list store.now))) ranges.now }
    ensures ok { IfOk result (λ cells. cells.items ≡ cells_at (is_covered ranges.now) 0 (S.list store.now)) }
    ensures err { IsOkUnless result Fault.NoMemory }
{
    let mut cells = Vec::new(alloc);
    for range in ranges {
        push_cells(store, *range, &mut cells)?;
    }
    Ok(cells)
}
