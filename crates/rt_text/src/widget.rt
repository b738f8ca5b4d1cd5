// A widget: its own marks, what it has selected, and which lines it shows.
ghost use Rattle.std.specs.Prelude.{◌≡◌, ◌+◌, ◌≤◌, ◌∷◌, [], true, All, IsOkUnless, OnErr, OnOk, length};
ghost use Rattle.rt_plans.specs.Insertions.{selected_with};
ghost use Rattle.rt_plans.specs.Removals.{RangesFollow, is_covered, stamps_at};
ghost use Rattle.rt_plans.specs.Selected.{room_in, selected_stamps};
ghost use Rattle.rt_plans.specs.Selections.{selection_with, unselected};
ghost use Rattle.rt_store.specs.Cells.{visible_of};
ghost use Rattle.rt_text.specs.Owned.{widget_value, selects_both};
ghost use Rattle.rt_text.specs.Widgets.{new_widget, widget_at, widget_inserted, own_mark, widget_removed, widget_with_place, widget_with_gravity, reselected};

use crate::OwnMark;
use rt_lines::Limits;
use rt_marks::Gravity;
use rt_marks::place::{place_inserted, place_removed};
use rt_plans::{Range, Selection, listing};
use rt_stamps::{Fault, Stamp};
use rt_store::TextStore;
use std::alloc::Global;

/// A mark without its name.
#[derive(Clone, Copy)]
pub(crate) struct NamelessMark {
    pub place: usize,
    pub gravity: Gravity,
}

/// A widget: its marks `insert` and `current`, the characters that it has selected, which no other
/// widget sees, and the limits of the lines that it shows. Contracts see the two marks, the stamps of
/// those characters, and the limits. The text that they stand in is a document's, and each edit of it
/// moves the marks.
pub struct Widget {
    pub(crate) insert: NamelessMark,
    pub(crate) current: NamelessMark,
    pub(crate) selection: Selection,
    pub(crate) limits: Limits,
}

// Written out, so that where it is let go is one step for the crates above, and not one for each
// field of each field.
impl Drop for Widget {
    fn drop(self) {
        let Widget {
            insert: _,
            current: _,
            selection: _,
            limits: _,
        } = self;
    }
}

impl Widget {
    /// A new widget, whose marks stand at the beginning with right gravity, which has selected nothing,
    /// and shows all lines. It takes no memory.
    pub(crate) fn new(alloc: Global) -> Widget
        ensures { widget_value result ≡ new_widget }
    {
        Widget::at(alloc, 0, Limits::none())
    }

    /// A new widget with limits, whose marks stand where what it shows begins.
    pub(crate) fn at(alloc: Global, begin: usize, limits: Limits) -> Widget
        ensures { widget_value result ≡ widget_at begin limits }
    {
        let start = NamelessMark {
            place: begin,
            gravity: Gravity::Right,
        };
        Widget {
            insert: start,
            current: start,
            selection: Selection::new(alloc),
            limits,
        }
    }

    /// The limits of what it shows.
    pub fn limits(&self) -> Limits
        ensures { result ≡ (widget_value self.now).limits }
    {
        self.limits
    }

    /// Sets the limits of what it shows.
    pub(crate) fn set_limits(&mut self, limits: Limits)
        ensures { widget_value self.new ≡ record (widget_value self.old) { limits = limits } }
    {
        self.limits = limits;
    }

    /// The place of one of its marks.
    pub fn place(&self, which: OwnMark) -> usize
        ensures { result ≡ (own_mark which (widget_value self.now)).place }
    {
        match which {
            OwnMark::Insert => self.insert.place,
            OwnMark::Current => self.current.place,
        }
    }

    /// The gravity of one of its marks.
    pub fn gravity(&self, which: OwnMark) -> Gravity
        ensures { result ≡ (own_mark which (widget_value self.now)).gravity }
    {
        match which {
            OwnMark::Insert => self.insert.gravity,
            OwnMark::Current => self.current.gravity,
        }
    }

    /// Sets one of its marks at a place. The mark keeps its gravity.
    pub(crate) fn set(&mut self, which: OwnMark, place: usize)
        ensures { widget_value self.new ≡ widget_with_place which place (widget_value self.old) }
    {
        match which {
            OwnMark::Insert => self.insert.place = place,
            OwnMark::Current => self.current.place = place,
        }
    }

    /// Gives one of its marks a gravity. The mark keeps its place.
    pub(crate) fn set_gravity(&mut self, which: OwnMark, gravity: Gravity)
        ensures { widget_value self.new ≡ widget_with_gravity which gravity (widget_value self.old) }
    {
        match which {
            OwnMark::Insert => self.insert.gravity = gravity,
            OwnMark::Current => self.current.gravity = gravity,
        }
    }

    /// The characters that it has selected.
    pub(crate) fn selection(&self) -> &Selection
        ensures { selected_stamps result.now ≡ (widget_value self.now).sel }
    {
        &self.selection
    }

    /// Selects the characters in ranges of a store, or no longer. Want of memory, and then nothing
    /// changes.
    pub(crate) fn select<S: TextStore>(
        &mut self,
        alloc: Global,
        store: &S,
        ranges: &[Range],
        on: bool,
    ) -> Result<(), Fault>
        requires order { RangesFollow 0 ranges.now }
        requires within { All (λ range. range.to ≤ length (visible_of (S.list store.now))) ranges.now }
        ensures ok { OnOk result (widget_value self.new
            ≡ reselected (selection_with on (stamps_at (is_covered ranges.now) 0 (S.list store.now))) (widget_value self.old)) }
        ensures unchanged { OnErr result (widget_value self.new ≡ widget_value self.old) }
        ensures err { IsOkUnless result Fault.NoMemory }
    {
        listing::select(alloc, store, &mut self.selection, ranges, on)
    }

    /// Moves its marks for `n` characters that were inserted at a place.
    pub(crate) fn inserted(&mut self, place: usize, n: usize)
        requires insert { self.old.insert.place + n ≤ usize.MAX }
        requires current { self.old.current.place + n ≤ usize.MAX }
        ensures { widget_value self.new ≡ widget_inserted place n (widget_value self.old) }
    {
        self.insert.place = place_inserted(place, n, self.insert.place, self.insert.gravity);
        self.current.place = place_inserted(place, n, self.current.place, self.current.gravity);
    }

    /// Moves its marks for the `n` characters from a place on that were removed.
    pub(crate) fn removed(&mut self, place: usize, n: usize)
        ensures { widget_value self.new ≡ widget_removed place n (widget_value self.old) }
    {
        self.insert.place = place_removed(place, n, self.insert.place);
        self.current.place = place_removed(place, n, self.current.place);
    }

    // Whether both characters are selected.
    fn has_both(&self, left: Stamp, right: Stamp) -> bool
        ensures { result ≡ selects_both left right self.now }
    {
        self.selection.has(left) && self.selection.has(right)
    }

    /// Makes room for more selected characters where both neighbours are selected. Want of memory.
    pub(crate) fn reserve_if(&mut self, left: Stamp, right: Stamp, more: usize) -> Result<(), Fault>
        ensures same { widget_value self.new ≡ widget_value self.old }
        ensures room { OnOk result (selects_both left right self.new ≡ true → more ≤ room_in self.new.selection) }
        ensures err { IsOkUnless result Fault.NoMemory }
    {
        if self.has_both(left, right) {
            self.selection.reserve(more)?;
        }
        Ok(())
    }

    /// Selects characters where both neighbours are selected, within the room that there is.
    pub(crate) fn select_if(&mut self, left: Stamp, right: Stamp, stamps: &[Stamp])
        requires { selects_both left right self.old ≡ true → length stamps.now ≤ room_in self.old.selection }
        ensures { widget_value self.new ≡ reselected (selected_with left right stamps.now) (widget_value self.old) }
    {
        if self.has_both(left, right) {
            self.selection.add(stamps);
        }
    }

    /// Takes a character out of what is selected. It takes no memory.
    pub(crate) fn unselect(&mut self, stamp: Stamp)
        ensures { widget_value self.new ≡ reselected (unselected (stamp ∷ [])) (widget_value self.old) }
    {
        self.selection.remove_one(stamp);
    }
}
