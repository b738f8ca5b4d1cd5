// What cells count.
ghost use Rattle.std.specs.Prelude.{◌≡◌, count_by, length};
ghost use Rattle.rt_stamps.specs.Places.{is_newline};
ghost use Rattle.rt_store.specs.Cells.{text_of, visible_of};

use crate::Cell;
use rt_tags::StateId;

/// How many cells are visible.
pub fn visible_count(cells: &[Cell<StateId>]) -> usize
    ensures { result ≡ length (visible_of cells.now) }
{
    cells.iter().filter(|cell| !cell.gone).count()
}

/// How many visible cells are newlines.
pub fn newline_count(cells: &[Cell<StateId>]) -> usize
    ensures { result ≡ count_by is_newline (text_of cells.now) }
{
    cells
        .iter()
        .filter(|cell| !cell.gone)
        .map(|cell| cell.ch)
        .filter(|ch| *ch == '\n')
        .count()
}
