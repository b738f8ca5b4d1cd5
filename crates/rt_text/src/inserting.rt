// What text that was inserted does to marks and selections.
ghost use Rattle.std.specs.Prelude.{◌≡◌, ◌+◌, ◌≤◌, All, length, map};
ghost use Rattle.std.specs.List.{AllByRecursion};
ghost use Rattle.rt_marks.specs.Marks.{marks_inserted};
ghost use Rattle.rt_plans.specs.InsertionPlans.{selected_between};
ghost use Rattle.rt_plans.specs.Selected.{room_in, selected_stamps};
ghost use Rattle.rt_plans.specs.Selections.{with_stamps};
ghost use Rattle.rt_text.specs.Owned.{HaveRoomFor, widget_value};
ghost use Rattle.rt_text.specs.Widgets.{widget_inserted, reselected};

use crate::Widget;
use crate::others::insert_each;
use crate::preparing::select_between;
use rt_marks::Marks;
use rt_plans::Selection;
use rt_plans::inserting::Between;
use rt_stamps::Stamp;

/// Selects characters in a widget, and those between two others in the selections that have both. It takes
/// no memory.
#[inline(always)]
pub(crate) fn select_all(
    selection: &mut Selection,
    others: &mut [Widget],
    selected: &[Stamp],
    between: &Option<Between>,
)
    requires selected { length selected.now ≤ room_in selection.old }
    requires between { HaveRoomFor between.now others.old }
    ensures selection { selected_stamps selection.new ≡ with_stamps selected.now (selected_stamps selection.old) }
    ensures others { map widget_value others.new ≡ map (reselected (selected_between between.now)) (map widget_value others.old) }
{
    selection.add(selected);
    select_between(others, between);
}

/// Moves the marks of a site, of a widget and of each other one for `n` characters that were inserted at a
/// place. It takes no memory.
#[inline(always)]
pub(crate) fn insert_all(
    marks: &mut Marks,
    widget: &mut Widget,
    others: &mut [Widget],
    place: usize,
    n: usize,
)
    requires marks { AllByRecursion (λ m. m.place + n ≤ usize.MAX) marks.old }
    requires insert { widget.old.insert.place + n ≤ usize.MAX }
    requires current { widget.old.current.place + n ≤ usize.MAX }
    requires others { All (λ other. (other.insert.place + n ≤ usize.MAX) × (other.current.place + n ≤ usize.MAX)) others.old }
    ensures marks { marks.new ≡ marks_inserted place n marks.old }
    ensures own { widget_value widget.new ≡ widget_inserted place n (widget_value widget.old) }
    ensures others { map widget_value others.new ≡ map (widget_inserted place n) (map widget_value others.old) }
{
    marks.inserted(place, n);
    widget.inserted(place, n);
    insert_each(others, place, n);
}
