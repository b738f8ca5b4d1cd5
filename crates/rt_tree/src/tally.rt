// What cells count.
ghost use Rattle.std.specs.Prelude.{ℕ, ◌+◌, ◌≤◌, List, length};
ghost use Rattle.rt_stamps.specs.declared.limits.TheConstants.{MOST_CELLS};
ghost use Rattle.rt_store.specs.declared.cell.Cell.{Cell};
ghost use Rattle.rt_store.specs.Cells.{put_at};
ghost use Rattle.rt_tree.specs.Tallies.{IsCountOf};

use crate::node::Counts;
use rt_store::{Cell, newline_count, visible_count};
use rt_tags::StateId;

// What some cells count, with more that come in among them.
#[inline(always)]
pub(crate) fn counts_with(counts: Counts, cells: &[Cell<StateId>]) -> Counts
    requires few { counts.cells + length cells.now ≤ MOST_CELLS }
    requires below { (counts.visible ≤ counts.cells) × (counts.newlines ≤ counts.cells) }
    ensures { (at : ℕ) (old : List (Cell ℕ)) → IsCountOf counts old → IsCountOf result (put_at at cells.now old) }
{
    let visible = visible_count(cells);
    let newlines = newline_count(cells);
    Counts {
        cells: counts.cells + cells.len() as u32,
        visible: counts.visible + visible as u32,
        newlines: counts.newlines + newlines as u32,
    }
}
