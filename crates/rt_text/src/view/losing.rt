// What a deletion takes.
ghost use Rattle.std.specs.Prelude.{◌≡◌, IfOk, IsOkUnless, map};
ghost use Rattle.rt_store.specs.Shown.{shown};
ghost use Rattle.rt_store.specs.Tagged.{AreStates};
ghost use Rattle.rt_text.specs.Commands.{lost_in};

use super::View;
use rt_plans::Range;
use rt_plans::cells::cells_in;
use rt_plans::removal::removed_ranges;
use rt_stamps::Fault;
use rt_store::{Cell, TextStore};
use rt_tags::{StateId, StateTable};

impl<S: TextStore> View<S> {
    /// The characters that a deletion of ranges of places takes of what the widget shows, counted from where that begins, in the text's order, and
    /// what their states mean: each with its stamp and its tags, for whoever puts them back later. It
    /// changes nothing. Want of memory.
    pub fn lost(&self, ranges: &[Range]) -> Result<(Vec<Cell<StateId>>, &StateTable), Fault>
        ensures cells { IfOk result (λ lost. map (shown lost.1.now) lost.0.items ≡ lost_in self.now ranges.now) }
        ensures states { IfOk result (λ lost. AreStates lost.1.now lost.0.items) }
        ensures err { IsOkUnless result Fault.NoMemory }
    {
        let (store, states) = self.doc.kept();
        let stretch = self.widget.limits().stretch(store);
        let removed = removed_ranges(self.alloc, store, stretch, ranges)?;
        let cells = cells_in(self.alloc, store, &removed)?;
        Ok((cells, states))
    }
}
