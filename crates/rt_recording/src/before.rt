// How a text was before an edit.
ghost use Rattle.std.specs.Prelude.{◌≡◌, ◌≤◌, length};
ghost use Rattle.rt_stamps.specs.declared.limits.TheConstants.{GREATEST_COUNT};
ghost use Rattle.rt_store.specs.Cells.{text_of};
ghost use Rattle.rt_recording.specs.Edits.{has_changed};
ghost use Rattle.rt_recording.specs.Noting.{IsOfLog};

use rt_stamps::Site;
use rt_store::TextStore;
use rt_text::View;

/// The site of a document, its greatest count, how many cells it has, and how many are visible.
#[derive(Clone, Copy)]
pub(crate) struct Before {
    pub site: Site,
    pub count: u64,
    pub cells: usize,
    pub visible: usize,
}

impl Before {
    /// Those of a view's document.
    pub fn of<S: TextStore>(view: &View<S>) -> Before
        ensures site { result.site.number ≡ view.now.doc.site }
        ensures count { result.count ≡ view.now.doc.count }
        ensures bound { view.now.doc.count ≤ GREATEST_COUNT }
        ensures cells { result.cells ≡ length view.now.doc.cells }
        ensures visible { result.visible ≡ length (text_of view.now.doc.cells) }
        ensures kept { IsOfLog view.now.doc }
    {
        let doc = view.doc();
        // For its clauses alone.
        let _ = doc.log();
        Before {
            site: doc.site(),
            count: doc.count(),
            cells: doc.cells(),
            visible: doc.visible(),
        }
    }

    /// Whether the document's text was changed since.
    pub fn has_changed<S: TextStore>(self, view: &View<S>) -> bool
        ensures changed { result ≡ has_changed self.cells self.visible view.now.doc }
        ensures kept { IsOfLog view.now.doc }
    {
        let doc = view.doc();
        // For its clauses alone.
        let _ = doc.log();
        self.cells < doc.cells() || doc.visible() < self.visible
    }
}
