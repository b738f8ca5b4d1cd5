// Stamps of visible cells in ranges.
ghost use Rattle.std.specs.Prelude.{◌≡◌, ◌-◌, ◌≤◌, ◌++◌, All, IfOk, IsOkUnless, OnOk, drop, length, map, take};
ghost use Rattle.rt_store.specs.Cells.{visible_of};
ghost use Rattle.rt_plans.specs.Removals.{RangesFollow, is_covered, stamps_at};

use crate::Range;
use rt_stamps::{Fault, Stamp};
use rt_store::TextStore;
use std::alloc::Global;

// Adds the stamps of the visible cells in a range.
fn push_stamps<S: TextStore>(store: &S, range: Range, stamps: &mut Vec<Stamp>) -> Result<(), Fault>
    requires order { range.from ≤ range.to }
    requires within { range.to ≤ length (visible_of (S.list store.now)) }
    ensures ok { OnOk result (stamps.new.items ≡ stamps.old.items
        ++ map (λ cell. cell.stamp) (take (range.to - range.from) (drop range.from (visible_of (S.list store.now))))) }
    ensures err { IsOkUnless result Fault.NoMemory }
{
    for place in range.from..range.to {
        stamps.push(store.cell_at(place).stamp)?;
    }
    Ok(())
}

/// The stamps of the visible cells in ranges, in the text's order.
pub(crate) fn stamps_in<S: TextStore>(
    alloc: Global,
    store: &S,
    removed: &[Range],
) -> Result<Vec<Stamp>, Fault>
    requires order { RangesFollow 0 removed.now }
    requires within { All (λ range. range.to ≤ length (visible_of (S.list store.now))) removed.now }
    ensures ok { IfOk result (λ stamps. stamps.items ≡ stamps_at (is_covered removed.now) 0 (S.list store.now)) }
    ensures err { IsOkUnless result Fault.NoMemory }
{
    let mut stamps = Vec::new(alloc);
    for range in removed {
        push_stamps(store, *range, &mut stamps)?;
    }
    Ok(stamps)
}
