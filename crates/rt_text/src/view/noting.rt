// What is noted of the operations that edits make.
ghost use Rattle.std.specs.Prelude.{◌≡◌, IfSome, reverse};
ghost use Rattle.rt_rga.specs.Noted.{AreOfNewest};

use super::View;
use rt_rga::Change;
use rt_store::TextStore;

impl<S: TextStore> View<S> {
    /// Notes from here on what each operation changes that is made for an edit, until `noted` is asked.
    pub fn note(&mut self)
        ensures { self.new ≡ self.old }
    {
        self.doc.note();
    }

    /// What the newest operations of the log changed, in the order in which they were made: all that were made since `note`,
    /// and nothing is noted from here on. None where `note` wasn't asked, an operation was taken since, two that were made
    /// at once may be Tags of one tag that name one stamp, or memory was wanting to note them, which refuses no edit. No
    /// edit makes such Tags.
    pub fn noted(&mut self) -> Option<Vec<Change>>
        ensures newest { IfSome result (λ changes. AreOfNewest (reverse changes.items) self.old.doc.log) }
        ensures same { self.new ≡ self.old }
    {
        self.doc.noted()
    }
}
