// Cells of new characters.
ghost use Rattle.std.specs.Prelude.{◌≡◌, ◌+◌, ◌≤◌, ◌++◌, [], false, OnErr, OnOk, IsOkUnless, length};
ghost use Rattle.rt_stamps.specs.declared.limits.TheConstants.{GREATEST_COUNT};
ghost use Rattle.rt_store.specs.Cells.{cells_from};

use crate::one_or_many::OneOrMany;
use rt_stamps::{Fault, Stamp};
use rt_store::Cell;
use rt_tags::StateId;
use std::alloc::Global;
use std::marker::Model;
use std::slice;

/// Cells of new characters.
#[derive(Drop)]
pub(crate) struct NewCells {
    kept: OneOrMany<Cell<StateId>>,
}

impl Model for NewCells {
    ghost use Rattle.std.specs.Prelude.{List, ℕ};
    ghost use Rattle.rt_store.specs.declared.cell.Cell.{Cell as StoreCell};

    ghost Value = { List (StoreCell ℕ) };

    ghost use Rattle.rt_rga.specs.OneOrMany.{items_in};

    ghost view = { λ cells. items_in cells.kept };
}

impl NewCells {
    /// No cells.
    pub(crate) fn none(alloc: Global) -> NewCells
        ensures { result ≡ [] }
    {
        NewCells {
            kept: OneOrMany::Many(Vec::new(alloc)),
        }
    }

    /// The cells.
    pub(crate) fn as_slice(&self) -> &[Cell<StateId>]
        ensures { result.now ≡ self.now }
    {
        match &self.kept {
            OneOrMany::One(cell) => slice::from_ref(cell),
            OneOrMany::Many(cells) => cells.as_slice(),
        }
    }

    /// Adds cells of new characters in one state, from a stamp on. Want of memory, and then the cells are as they were.
    #[inline(always)]
    pub(crate) fn add(
        &mut self,
        alloc: Global,
        first: Stamp,
        state: StateId,
        text: &[char],
    ) -> Result<(), Fault>
        requires { first.count + length text.now ≤ GREATEST_COUNT + 1 }
        ensures cells { OnOk result (self.new ≡ self.old ++ cells_from first.count first.site state text.now) }
        ensures same { OnErr result (self.new ≡ self.old) }
        ensures fault { IsOkUnless result Fault.NoMemory }
    {
        match &mut self.kept {
            OneOrMany::One(cell) => {
                let mut cells = Vec::new(alloc);
                cells.push(*cell)?;
                push_new(&mut cells, first, state, text)?;
                self.kept = OneOrMany::Many(cells);
                Ok(())
            }
            OneOrMany::Many(cells) => match text {
                [ch] if cells.is_empty() => {
                    self.kept = OneOrMany::One(new_cell(first, state, *ch));
                    Ok(())
                }
                _ => push_new(cells, first, state, text),
            },
        }
    }
}

/// The cell of a new character.
pub(crate) fn new_cell(stamp: Stamp, state: StateId, ch: char) -> Cell<StateId>
    ensures { result ≡ record { stamp = stamp; ch = ch; gone = false; state = state } }
{
    Cell {
        stamp,
        ch,
        gone: false,
        state,
    }
}

/// Adds cells of new characters in one state, from a stamp on. Want of memory, and then the list is as it was.
fn push_new(
    cells: &mut Vec<Cell<StateId>>,
    first: Stamp,
    state: StateId,
    text: &[char],
) -> Result<(), Fault>
    requires { first.count + length text.now ≤ GREATEST_COUNT + 1 }
    ensures cells { OnOk result (cells.new.items ≡ cells.old.items ++ cells_from first.count first.site state text.now) }
    ensures same { OnErr result (cells.new.items ≡ cells.old.items) }
    ensures fault { IsOkUnless result Fault.NoMemory }
{
    cells.reserve(text.len())?;
    let mut count = first.count;
    for ch in text {
        let stamp = Stamp {
            count,
            site: first.site,
        };
        cells.push_reserved(new_cell(stamp, state, *ch));
        count += 1;
    }
    Ok(())
}
