// The other widgets of a site.
ghost use Rattle.std.specs.Prelude.{ℕ, ◌≡◌, ◌+◌, ◌≤◌, ◌∷◌, [], true, All, IsOkUnless, OnOk, length, map};
ghost use Rattle.std.specs.List.{AllByRecursion};
ghost use Rattle.rt_plans.specs.Insertions.{selected_with};
ghost use Rattle.rt_plans.specs.Removals.{RangesFollow, is_covered};
ghost use Rattle.rt_plans.specs.Selected.{room_in};
ghost use Rattle.rt_plans.specs.Selections.{unselected};
ghost use Rattle.rt_revert.specs.Plans.{IsTextChange};
ghost use Rattle.rt_rga.specs.Taken.{AreFallingRuns, is_in_runs};
ghost use Rattle.rt_text.specs.Changes.{widget_after, widget_renamed};
ghost use Rattle.rt_text.specs.Owned.{widget_value, selects_both};
ghost use Rattle.rt_text.specs.Widgets.{widget_inserted, widget_without, reselected};

use crate::Widget;
use rt_plans::Range;
use rt_revert::{Return, TextChange};
use rt_rga::Change;
use rt_stamps::{Fault, Stamp};

/// Makes room for more selected characters in each that has both neighbours selected. Want of memory.
#[inline(always)]
pub(crate) fn reserve_between(
    others: &mut [Widget],
    left: Stamp,
    right: Stamp,
    more: usize,
) -> Result<(), Fault>
    ensures same { map widget_value others.new ≡ map widget_value others.old }
    ensures room { OnOk result (All (λ other. selects_both left right other ≡ true → more ≤ room_in other.selection) others.new) }
    ensures err { IsOkUnless result Fault.NoMemory }
{
    for i in 0..others.len() {
        others[i].reserve_if(left, right, more)?;
    }
    Ok(())
}

/// Selects characters in each that has both neighbours selected, within the room that there is.
#[inline(always)]
pub(crate) fn add_between(others: &mut [Widget], left: Stamp, right: Stamp, stamps: &[Stamp])
    requires { All (λ other. selects_both left right other ≡ true → length stamps.now ≤ room_in other.selection) others.old }
    ensures { map widget_value others.new ≡ map (reselected (selected_with left right stamps.now)) (map widget_value others.old) }
{
    for i in 0..others.len() {
        others[i].select_if(left, right, stamps);
    }
}

/// Takes a character out of what each has selected. It takes no memory.
pub(crate) fn remove_from_each(others: &mut [Widget], stamp: Stamp)
    ensures { map widget_value others.new ≡ map (reselected (unselected (stamp ∷ []))) (map widget_value others.old) }
{
    for i in 0..others.len() {
        others[i].unselect(stamp);
    }
}

/// Moves the marks of each for `n` characters that were inserted at a place.
pub(crate) fn insert_each(others: &mut [Widget], place: usize, n: usize)
    requires { All (λ other. (other.insert.place + n ≤ usize.MAX) × (other.current.place + n ≤ usize.MAX)) others.old }
    ensures { map widget_value others.new ≡ map (widget_inserted place n) (map widget_value others.old) }
{
    for i in 0..others.len() {
        others[i].inserted(place, n);
    }
}

/// Moves the marks of each for ranges that are removed.
pub(crate) fn leave_each(others: &mut [Widget], removed: &[Range])
    requires { RangesFollow 0 removed.now }
    ensures { map widget_value others.new ≡ map (widget_without (is_covered removed.now)) (map widget_value others.old) }
{
    for i in 0..others.len() {
        others[i].leave(removed);
    }
}

/// Moves the marks of each for a change of the text that an accepted operation told.
pub(crate) fn follow_each(others: &mut [Widget], change: &Change)
    requires runs { (end : ℕ) × AreFallingRuns end change.now.removed.items }
    requires fits { All (λ other. (other.insert.place + change.now.inserted ≤ usize.MAX)
        × (other.current.place + change.now.inserted ≤ usize.MAX)) others.old }
    ensures { map widget_value others.new
        ≡ map (λ own. widget_without (is_in_runs change.now.removed.items) (widget_inserted change.now.place change.now.inserted own)) (map widget_value others.old) }
{
    for i in 0..others.len() {
        others[i].follow(change);
    }
}

/// Moves the marks of each for changes of the text, one after the other, and has its limits follow the
/// characters that came back.
pub(crate) fn revert_each(others: &mut [Widget], changes: &[TextChange], returns: &[Return])
    requires changes { AllByRecursion IsTextChange changes.now }
    requires fits { All (λ other. (other.insert.place + length changes.now ≤ usize.MAX)
        × (other.current.place + length changes.now ≤ usize.MAX)) others.old }
    ensures { map widget_value others.new ≡ map (λ own. widget_renamed returns.now (widget_after changes.now own)) (map widget_value others.old) }
{
    for i in 0..others.len() {
        others[i].revert(changes, returns);
    }
}
