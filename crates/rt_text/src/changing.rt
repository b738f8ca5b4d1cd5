// Marks after changes of the text, and limits after newlines came back.
ghost use Rattle.std.specs.Prelude.{◌≡◌, ◌+◌, ◌≤◌, All, length, map};
ghost use Rattle.std.specs.List.{AllByRecursion};
ghost use Rattle.rt_revert.specs.Plans.{IsTextChange, marks_after, marks_changed};
ghost use Rattle.rt_text.specs.Changes.{widget_after, widget_changed, widget_renamed};
ghost use Rattle.rt_text.specs.Owned.{widget_value};

use crate::Widget;
use crate::moving::move_back;
use crate::others::revert_each;
use rt_marks::Marks;
use rt_revert::{Return, TextChange};

// Moves the marks of a site for a change of the text. It takes no memory.
fn move_for(marks: &mut Marks, change: &TextChange)
    requires change { IsTextChange change.now }
    requires fits { AllByRecursion (λ m. m.place + 1 ≤ usize.MAX) marks.old }
    ensures { marks.new ≡ marks_changed change.now marks.old }
{
    match change {
        TextChange::Removed(ranges) => move_back(marks, ranges),
        TextChange::Inserted(place) => marks.inserted(*place, 1),
    }
}

// Moves the marks of a site for changes of the text, one after the other. It takes no memory.
fn move_for_all(marks: &mut Marks, changes: &[TextChange])
    requires changes { AllByRecursion IsTextChange changes.now }
    requires fits { AllByRecursion (λ m. m.place + length changes.now ≤ usize.MAX) marks.old }
    ensures { marks.new ≡ marks_after changes.now marks.old }
{
    for change in changes {
        move_for(marks, change);
    }
}

impl Widget {
    // Moves its marks for a change of the text.
    fn change(&mut self, change: &TextChange)
        requires change { IsTextChange change.now }
        requires insert { self.old.insert.place + 1 ≤ usize.MAX }
        requires current { self.old.current.place + 1 ≤ usize.MAX }
        ensures { widget_value self.new ≡ widget_changed change.now (widget_value self.old) }
    {
        match change {
            TextChange::Removed(ranges) => self.leave(ranges),
            TextChange::Inserted(place) => self.inserted(*place, 1),
        }
    }

    // Moves its marks for changes of the text, one after the other.
    fn change_all(&mut self, changes: &[TextChange])
        requires changes { AllByRecursion IsTextChange changes.now }
        requires insert { self.old.insert.place + length changes.now ≤ usize.MAX }
        requires current { self.old.current.place + length changes.now ≤ usize.MAX }
        ensures { widget_value self.new ≡ widget_after changes.now (widget_value self.old) }
    {
        for change in changes {
            self.change(change);
        }
    }

    // Has its limits follow characters that came back. It takes no memory.
    fn rename(&mut self, returns: &[Return])
        ensures { widget_value self.new ≡ widget_renamed returns.now (widget_value self.old) }
    {
        for r in returns {
            self.limits = self.limits.renamed(r.former, r.newer);
        }
    }

    /// Moves its marks for changes of the text, one after the other, and has its limits follow the
    /// characters that came back.
    pub(crate) fn revert(&mut self, changes: &[TextChange], returns: &[Return])
        requires changes { AllByRecursion IsTextChange changes.now }
        requires insert { self.old.insert.place + length changes.now ≤ usize.MAX }
        requires current { self.old.current.place + length changes.now ≤ usize.MAX }
        ensures { widget_value self.new ≡ widget_renamed returns.now (widget_after changes.now (widget_value self.old)) }
    {
        self.change_all(changes);
        self.rename(returns);
    }
}

/// Moves the marks of a site, of a widget and of each other one for changes of the text, one after the other,
/// and has the limits of the widgets follow the characters that came back. It takes no memory.
pub(crate) fn revert_all(
    marks: &mut Marks,
    widget: &mut Widget,
    others: &mut [Widget],
    changes: &[TextChange],
    returns: &[Return],
)
    requires changes { AllByRecursion IsTextChange changes.now }
    requires marks { AllByRecursion (λ m. m.place + length changes.now ≤ usize.MAX) marks.old }
    requires insert { widget.old.insert.place + length changes.now ≤ usize.MAX }
    requires current { widget.old.current.place + length changes.now ≤ usize.MAX }
    requires others { All (λ other. (other.insert.place + length changes.now ≤ usize.MAX)
        × (other.current.place + length changes.now ≤ usize.MAX)) others.old }
    ensures marks { marks.new ≡ marks_after changes.now marks.old }
    ensures own { widget_value widget.new ≡ widget_renamed returns.now (widget_after changes.now (widget_value widget.old)) }
    ensures others { map widget_value others.new ≡ map (λ own. widget_renamed returns.now (widget_after changes.now own)) (map widget_value others.old) }
{
    move_for_all(marks, changes);
    widget.revert(changes, returns);
    revert_each(others, changes, returns);
}
