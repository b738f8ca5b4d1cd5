// A document as a widget shows it, borrowed.
ghost use Rattle.std.specs.Prelude.{◌≡◌, length, map};
ghost use Rattle.std.specs.List.{AllByRecursion};
ghost use Rattle.rt_store.specs.Cells.{text_of};
ghost use Rattle.rt_lines.specs.Ordered.{LimitsAreInOrder};
ghost use Rattle.rt_text.specs.Owned.{widget_value, view_of};
ghost use Rattle.rt_text.specs.Widgets.{AreWidgetsOf, IsOwnOf, limits_of};

mod cursors;
mod lending;
mod reading;
mod tagging;

use crate::{Doc, Widget};
use rt_store::TextStore;
use std::alloc::Global;
use std::marker::Model;

/// A document as one of its site's widgets shows it, borrowed until the text is next changed: all that only reads a text is
/// asked of it, by values. It is of the size of some pointers.
#[derive(Drop)]
pub struct ViewRef<'a, S: TextStore> {
    alloc: Global,
    doc: &'a Doc<S>,
    widget: &'a Widget,
    others: &'a [Widget],
}

impl<'a, S: TextStore> Model for ViewRef<'a, S> {
    ghost use Rattle.std.specs.Prelude.{map};
    ghost use Rattle.rt_text.specs.Owned.{widget_value, view_of};
    ghost use Rattle.rt_text.specs.Widgets.{AreWidgetsOf, ViewValue};

    ghost Value = { ViewValue };

    ghost view = { λ v. view_of v.doc.now v.widget.now v.others.now };

    ghost invariant = { λ v. AreWidgetsOf v.doc.now.cells (widget_value v.widget.now) (map widget_value v.others.now) };
}

impl<'a, S: TextStore> ViewRef<'a, S> {
    // A document as a widget shows it, beside others.
    pub(crate) fn over(
        alloc: Global,
        doc: &'a Doc<S>,
        widget: &'a Widget,
        others: &'a [Widget],
    ) -> ViewRef<'a, S>
        requires { AreWidgetsOf doc.now.cells (widget_value widget.now) (map widget_value others.now) }
        ensures { result ≡ view_of doc.now widget.now others.now }
    {
        ViewRef {
            alloc,
            doc,
            widget,
            others,
        }
    }

    /// The document, whichever widget shows it.
    pub fn doc(&self) -> &'a Doc<S>
        ensures { result.now ≡ self.now.doc }
    {
        self.doc
    }

    /// The widget. The limits of each widget of the site are none or newlines of the text, gone or not, that at the start
    /// before the one at the end.
    pub fn widget(&self) -> &'a Widget
        ensures own { widget_value result.now ≡ self.now.own }
        ensures stands { IsOwnOf (length (text_of self.now.doc.cells)) self.now.own }
        ensures limits { AllByRecursion (LimitsAreInOrder self.now.doc.cells) (limits_of self.now) }
    {
        self.widget
    }
}
