// The view borrowed, and the places of indices for its edits.
ghost use Rattle.std.specs.Prelude.{◌≡◌, ◌⊎◌, ◌<◌, ◌≤◌, length, Ok, None, Some, IfOk, IfErr, map};
ghost use Rattle.rt_index.specs.Index.{index_of};
ghost use Rattle.rt_stamps.specs.Outcomes.{first_of, Refuses};
ghost use Rattle.rt_stamps.specs.Words.{as_words};
ghost use Rattle.rt_store.specs.Cells.{text_of};
ghost use Rattle.rt_text.specs.Index.{index_check, place_at_index};
ghost use Rattle.rt_text.specs.Ranges.{ranges_of};
ghost use Rattle.rt_text.specs.Widgets.{length_shown, stretch_by, view_as, widget_of};

use super::View;
use crate::ViewRef;
use rt_lines::Stretch;
use rt_plans::Range;
use rt_stamps::Fault;
use rt_store::TextStore;

impl<S: TextStore> View<S> {
    /// The document as the widget that commands shows it, borrowed.
    pub fn shown(&self) -> ViewRef<'_, S>
        ensures { result ≡ self.now }
    {
        ViewRef::over(self.alloc, &self.doc, &self.widget, &self.others)
    }

    /// The document as the widget of a number shows it, borrowed. The widget that commands is that of 0, and the others
    /// follow.
    pub fn shown_by(&self, number: usize) -> ViewRef<'_, S>
        requires { number ≤ length self.now.others }
        ensures { result ≡ view_as number self.now }
    {
        if number == 0 {
            return self.shown();
        }
        ViewRef::over(
            self.alloc,
            &self.doc,
            &self.others[number - 1],
            &self.others,
        )
    }

    /// The place of an index in what the widget that commands shows, from 0 to `visible` (Tk text manual, "Indices"), as
    /// `ViewRef::place` tells it. `BadIndex`, `NoneTagged`, or want of memory.
    pub fn place(&self, index: &str) -> Result<usize, Fault>
        ensures ok { IfOk result (λ place. index_of (widget_of self.now) index.now ≡ Ok place) }
        ensures within { IfOk result (λ place. place ≤ length_shown self.now) }
        ensures err { IfErr result (Refuses (index_of (widget_of self.now) index.now)) }
    {
        self.shown().place(index)
    }

    // The place of an index, and the places of the text that the widget shows. The faults of `place`.
    #[inline(always)]
    pub(super) fn place_within(&self, index: &str) -> Result<(usize, Stretch), Fault>
        ensures ok { IfOk result (λ found. index_of (widget_of self.now) index.now ≡ Ok found.0) }
        ensures stretch { IfOk result (λ found. found.1 ≡ stretch_by self.now) }
        ensures some { IfOk result (λ found. found.1.begin < found.1.end) }
        ensures within { IfOk result (λ found. found.1.end ≤ length (text_of self.now.doc.cells)) }
        ensures err { IfErr result (Refuses (index_of (widget_of self.now) index.now)) }
    {
        self.shown().place_within(index)
    }

    // The places of the text that the widget shows.
    pub(super) fn stretch(&self) -> Stretch
        ensures value { result ≡ stretch_by self.now }
        ensures some { result.begin < result.end }
        ensures within { result.end ≤ length (text_of self.now.doc.cells) }
    {
        self.shown().stretch()
    }

    /// The ranges that indices name in pairs in what the widget that commands shows (Tk text manual), as `ViewRef::ranges` tells
    /// them. `BadIndex`, `NoneTagged`, or want of memory.
    pub fn ranges(&self, indices: &[String]) -> Result<Vec<Range>, Fault>
        ensures ok { IfOk result (λ ranges. ranges.items
            ≡ ranges_of (map (place_at_index (widget_of self.now)) (as_words indices.now))) }
        ensures checked { IfOk result (λ ranges. first_of (map (index_check (widget_of self.now)) (as_words indices.now)) ≡ None) }
        ensures err { IfErr result (λ fault. (fault ≡ Fault.NoMemory)
            ⊎ (first_of (map (index_check (widget_of self.now)) (as_words indices.now)) ≡ Some fault)) }
    {
        self.shown().ranges(indices)
    }
}
