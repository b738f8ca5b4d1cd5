// The store of the text, for commands of the crates above.
ghost use Rattle.std.specs.Prelude.{◌≡◌, ◌≤◌, length};
ghost use Rattle.rt_stamps.specs.declared.limits.TheConstants.{MOST_CELLS};
ghost use Rattle.rt_store.specs.Cells.{text_of};

use super::ViewRef;
use rt_store::TextStore;

impl<'a, S: TextStore> ViewRef<'a, S> {
    /// The store of the whole document. Only of its visible text something is promised.
    pub fn store(&self) -> &'a S
        ensures text { text_of (S.list result.now) ≡ text_of self.now.doc.cells }
        ensures few { length (S.list result.now) ≤ MOST_CELLS }
    {
        let (store, _) = self.doc.kept();
        store
    }
}
