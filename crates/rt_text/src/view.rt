// A document as a widget shows it.
ghost use Rattle.std.specs.Prelude.{◌≡◌, ◌<◌, ◌≤◌, ◌∷◌, ◌++◌, [], IfOk, IsOkUnless, OnOk, OnErr, Some, length, set, slice_get};
ghost use Rattle.std.specs.List.{AllByRecursion, remove};
ghost use Rattle.rt_stamps.specs.declared.limits.TheConstants.{MOST_CELLS};
ghost use Rattle.rt_store.specs.Cells.{final_cell, text_of};
ghost use Rattle.rt_plans.specs.DocValue.{new_doc};
ghost use Rattle.rt_text.specs.Owned.{widget_value};
ghost use Rattle.rt_text.specs.Widgets.{IsOwnOf, limits_of, new_widget};
ghost use Rattle.rt_lines.specs.Ordered.{LimitsAreInOrder};

mod accepting;
mod editing;
mod limiting;
mod losing;
mod marking;
mod noting;
mod placing;
mod replacing;
mod reverting;
mod tagging;

use crate::{Doc, Widget};
use rt_stamps::{Fault, Site};
use rt_store::TextStore;
use std::alloc::Global;
use std::marker::Model;
use std::mem::swap;

/// A document as one of its site's widgets shows it: what the commands of that widget work on. It keeps
/// the site's other widgets too, in order: each edit moves their marks and their selections follow.
pub struct View<S: TextStore> {
    alloc: Global,
    doc: Doc<S>,
    widget: Widget,
    others: Vec<Widget>,
}

// Written out, so that where it is let go is one step for the crates above, and not one for each
// field of each field.
impl<S: TextStore> Drop for View<S> {
    fn drop(self) {
        let View {
            alloc: _,
            doc: _,
            widget: _,
            others: _,
        } = self;
    }
}

impl<S: TextStore> Model for View<S> {
    ghost use Rattle.std.specs.Prelude.{map};
    ghost use Rattle.rt_text.specs.Owned.{widget_value, view_of};
    ghost use Rattle.rt_text.specs.Widgets.{AreWidgetsOf, ViewValue};

    ghost Value = { ViewValue };

    ghost view = { λ v. view_of v.doc v.widget v.others.items };

    ghost invariant = { λ v. AreWidgetsOf v.doc.cells (widget_value v.widget) (map widget_value v.others.items) };
}

impl<S: TextStore> View<S> {
    /// A new widget on the document of a new store, for a site and a limit of cells, 1 to `MOST_CELLS`,
    /// the final newline and tombstones included. It is refused for want of memory alone.
    pub fn new(alloc: Global, store: S, site: Site, limit: usize) -> Result<View<S>, Fault>
        requires store { S.list store ≡ final_cell ∷ [] }
        requires limit { (1 ≤ limit) × (limit ≤ MOST_CELLS) }
        ensures ok { IfOk result (λ view. view ≡ record { doc = new_doc site.number limit; own = new_widget; others = [] }) }
        ensures err { IsOkUnless result Fault.NoMemory }
    {
        let doc = Doc::new(alloc, store, site, limit)?;
        Ok(View {
            alloc,
            doc,
            widget: Widget::new(alloc),
            others: Vec::new(alloc),
        })
    }

    /// The document.
    pub fn doc(&self) -> &Doc<S>
        ensures { result.now ≡ self.now.doc }
    {
        &self.doc
    }

    /// The widget. The limits of each widget of the site are none or newlines of the text, gone or not, that at the start
    /// before the one at the end.
    pub fn widget(&self) -> &Widget
        ensures own { widget_value result.now ≡ self.now.own }
        ensures stands { IsOwnOf (length (text_of self.now.doc.cells)) self.now.own }
        ensures limits { AllByRecursion (LimitsAreInOrder self.now.doc.cells) (limits_of self.now) }
    {
        &self.widget
    }

    /// How many other widgets the site has.
    pub fn others(&self) -> usize
        ensures count { result ≡ length self.now.others }
        ensures stand { AllByRecursion (IsOwnOf (length (text_of self.now.doc.cells))) self.now.others }
    {
        self.others.len()
    }

    /// Lets one of the other widgets command: the one that commanded takes its place among the others. It
    /// takes no memory.
    pub fn exchange(&mut self, other: usize)
        requires { other < length self.old.others }
        ensures own { slice_get self.old.others other ≡ Some self.new.own }
        ensures others { self.new.others ≡ set self.old.others other self.old.own }
        ensures doc { self.new.doc ≡ self.old.doc }
    {
        swap(&mut self.widget, &mut self.others[other]);
    }

    /// Takes one of the other widgets away; those behind it move up by one. It takes no memory.
    pub fn remove_widget(&mut self, other: usize)
        requires { other < length self.old.others }
        ensures { self.new ≡ record self.old { others = remove self.old.others other } }
    {
        self.others.remove(other);
    }
}
