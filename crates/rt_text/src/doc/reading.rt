// What a document says of its text: how long it is, and where places stand in it.
ghost use Rattle.std.specs.Prelude.{◌≡◌, ◌≤◌, length, map};
ghost use Rattle.rt_stamps.specs.Places.{position_at};
ghost use Rattle.rt_store.specs.Cells.{text_of};
ghost use Rattle.rt_store.specs.Shown.{shown};
ghost use Rattle.rt_marks.specs.Marks.{HaveOwnNames};
ghost use Rattle.rt_stamps.specs.declared.limits.TheConstants.{MOST_CELLS};
ghost use Rattle.rt_text.specs.Owned.{widget_value};
ghost use Rattle.rt_text.specs.Lines.{AreLines};
ghost use Rattle.rt_lines.specs.Stretches.{part, stretch_of};

use super::Doc;
use crate::Widget;
use crate::ground::WidgetGround;
use crate::index::{line_at, position_within};
use rt_lines::{Limits, Stretch};
use rt_stamps::{Position, Site};
use rt_store::TextStore;

impl<S: TextStore> Doc<S> {
    // The store, and the stretch of its text between limits.
    pub(crate) fn between(&self, limits: Limits) -> (&S, Stretch)
        ensures text { text_of (S.list result.0.now) ≡ text_of self.now.cells }
        ensures stretch { result.1 ≡ stretch_of self.now.cells limits }
        ensures lines { AreLines (text_of (S.list result.0.now)) result.1 }
        ensures few { length (S.list result.0.now) ≤ MOST_CELLS }
    {
        let (store, _) = self.kept();
        (store, limits.stretch(store))
    }

    // What index expressions see of the document on a widget.
    #[inline(always)]
    pub(crate) fn ground<'a>(&'a self, widget: &'a Widget) -> WidgetGround<'a, S>
        ensures cells { map (shown result.states.now) (S.list result.store.now) ≡ self.now.cells }
        ensures marks { result.marks.now ≡ self.now.marks }
        ensures tags { result.tags.now.names ≡ self.now.tags }
        ensures own { widget_value result.widget.now ≡ widget_value widget.now }
        ensures stretch { result.stretch ≡ stretch_of self.now.cells widget.now.limits }
        ensures names { HaveOwnNames self.now.marks }
    {
        self.marks.order();
        let (store, states) = self.kept();
        let stretch = widget.limits().stretch(store);
        WidgetGround {
            doc: self,
            store,
            marks: &self.marks,
            states,
            tags: &self.tags,
            widget,
            stretch,
            first: line_at(store, stretch.begin),
        }
    }

    /// The site whose document it is.
    pub fn site(&self) -> Site
        ensures { result.number ≡ self.now.site }
    {
        self.replica.site()
    }

    /// The greatest count of its operations, 0 where it has none.
    pub fn count(&self) -> u64
        ensures { result ≡ self.now.count }
    {
        self.replica.clock().seen()
    }

    /// How many cells it has, those of removed characters and of the last newline included.
    pub fn cells(&self) -> usize
        ensures { result ≡ length self.now.cells }
    {
        let (store, _) = self.kept();
        store.cells()
    }

    /// How many characters the text has, the last newline included.
    pub fn visible(&self) -> usize
        ensures { result ≡ length (text_of self.now.cells) }
    {
        let (store, _) = self.kept();
        store.visible()
    }

    // The line and the character of a place of what stands between limits, which is at most its end.
    pub(crate) fn position(&self, limits: Limits, place: usize) -> Position
        requires { place ≤ length (part (stretch_of self.now.cells limits) (text_of self.now.cells)) }
        ensures { result ≡ position_at (part (stretch_of self.now.cells limits) (text_of self.now.cells)) place }
    {
        let (store, stretch) = self.between(limits);
        position_within(store, stretch, place)
    }
}
