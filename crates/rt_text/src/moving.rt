// What a removal of text leaves of marks and selections.
ghost use Rattle.std.specs.Prelude.{◌≡◌, ◌≤◌, ◌∷◌, [], false, if◌then◌else◌, map};
ghost use Rattle.rt_marks.specs.Marks.{marks_left};
ghost use Rattle.rt_plans.specs.Removals.{is_covered, RangesFollow};
ghost use Rattle.rt_plans.specs.Selected.{room_in, selected_stamps};
ghost use Rattle.rt_plans.specs.Selections.{unselected};
ghost use Rattle.rt_text.specs.Owned.{widget_value};
ghost use Rattle.rt_text.specs.Widgets.{widget_without, reselected};

use crate::Widget;
use crate::others::{leave_each, remove_from_each};
use rt_marks::Marks;
use rt_plans::{Range, Selection};
use rt_stamps::Stamp;

/// Moves the marks of a site for ranges that are removed. The last range goes first, so that the places
/// of the others still count. It takes no memory.
pub(crate) fn move_back(marks: &mut Marks, removed: &[Range])
    requires { RangesFollow 0 removed.now }
    ensures { marks.new ≡ marks_left (is_covered removed.now) marks.old }
{
    marks.order();
    let mut i = removed.len();
    while i > 0 {
        i -= 1;
        let range = removed[i];
        marks.removed(range.from, range.to - range.from);
    }
}

impl Widget {
    /// Moves its marks for ranges that are removed, the last range first.
    pub(crate) fn leave(&mut self, removed: &[Range])
        requires { RangesFollow 0 removed.now }
        ensures { widget_value self.new ≡ widget_without (is_covered removed.now) (widget_value self.old) }
    {
        let mut i = removed.len();
        while i > 0 {
            i -= 1;
            let range = removed[i];
            self.removed(range.from, range.to - range.from);
        }
    }
}

/// Moves the marks of a site, of a widget and of each other one for ranges that are removed. It takes no memory.
pub(crate) fn leave_all(
    marks: &mut Marks,
    widget: &mut Widget,
    others: &mut [Widget],
    removed: &[Range],
)
    requires { RangesFollow 0 removed.now }
    ensures marks { marks.new ≡ marks_left (is_covered removed.now) marks.old }
    ensures own { widget_value widget.new ≡ widget_without (is_covered removed.now) (widget_value widget.old) }
    ensures others { map widget_value others.new ≡ map (widget_without (is_covered removed.now)) (map widget_value others.old) }
{
    move_back(marks, removed);
    widget.leave(removed);
    leave_each(others, removed);
}

/// Takes the last newline out of a widget's selection and out of those of others, where a deletion
/// holds it. It takes no memory.
pub(crate) fn unselect(held: bool, last: Stamp, selection: &mut Selection, others: &mut [Widget])
    ensures sel { selected_stamps selection.new ≡ (if held then unselected (last ∷ []) (selected_stamps selection.old) else selected_stamps selection.old) }
    ensures others { map widget_value others.new
        ≡ map (reselected (λ sel. if held then unselected (last ∷ []) sel else sel)) (map widget_value others.old) }
    ensures room { room_in selection.old ≤ room_in selection.new }
    ensures kept { held ≡ false → others.new ≡ others.old }
{
    if held {
        selection.remove_one(last);
        remove_from_each(others, last);
    }
}

/// What `unselect` does, for a widget and the others.
pub(crate) fn unselect_last(held: bool, last: Stamp, widget: &mut Widget, others: &mut [Widget])
    ensures own { widget_value widget.new ≡ reselected (λ sel. if held then unselected (last ∷ []) sel else sel) (widget_value widget.old) }
    ensures others { map widget_value others.new
        ≡ map (reselected (λ sel. if held then unselected (last ∷ []) sel else sel)) (map widget_value others.old) }
{
    unselect(held, last, &mut widget.selection, others);
}
