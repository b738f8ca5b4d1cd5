// What a document notes of the operations that it makes.
ghost use Rattle.std.specs.Prelude.{◌≡◌, IfSome, reverse};
ghost use Rattle.rt_rga.specs.Noted.{AreOfNewest};

use super::Doc;
use rt_rga::Change;
use rt_store::TextStore;

impl<S: TextStore> Doc<S> {
    // Notes from here on what each operation changes that is made, until `noted` is asked.
    pub(crate) fn note(&mut self)
        ensures { self.new ≡ self.old }
    {
        self.replica.note();
    }

    // What the newest operations changed, in the order in which they were made, as `Replica::noted` tells it.
    pub(crate) fn noted(&mut self) -> Option<Vec<Change>>
        ensures newest { IfSome result (λ changes. AreOfNewest (reverse changes.items) self.old.log) }
        ensures same { self.new ≡ self.old }
    {
        self.replica.noted()
    }
}
