// Marks at their places among the characters that a widget shows.
ghost use Rattle.std.specs.Prelude.{◌≡◌, ◌≤◌, List, ℕ, option_map};
ghost use Rattle.std.specs.List.{AllByRecursion};
ghost use Rattle.rt_marks.specs.Marks.{AreInOrder, IsName, mark_of_name, with_mark};
ghost use Rattle.rt_marks.specs.Seen.{spotted};
ghost use Rattle.rt_text.specs.Widgets.{mark_of, mark_seen, marks_of, marks_shown, own_mark, widget_shown, stretch_by};

use rt_lines::Stretch;
use rt_marks::MarkRef;
use rt_store::TextStore;
use rt_text::{OwnMark, View, ViewRef};

/// The marks of a widget are in order, each has a name, and a name names what it names among them.
pub(crate) fn order<S: TextStore>(view: &ViewRef<'_, S>)
    ensures order { AreInOrder (marks_of view.now) }
    ensures names { AllByRecursion (λ m. IsName m.name) (marks_of view.now) }
    ensures named { (name : List ℕ) → mark_of_name name (marks_of view.now) ≡ mark_of view.now name }
    ensures site { AreInOrder (with_mark (widget_shown view.now).current (marks_shown view.now)) × AreInOrder (marks_shown view.now) }
    ensures shown { (name : List ℕ) → mark_of_name name (marks_shown view.now)
        ≡ option_map (mark_seen (stretch_by view.now)) (mark_of_name name view.now.doc.marks) }
{
    view.doc().marks().order();
    // For its clauses alone.
    let _ = view.widget();
}

/// The site's marks of the names, as the widget that commands shows them.
pub(crate) fn named<S: TextStore>(view: &View<S>)
    ensures { (name : List ℕ) → mark_of_name name (marks_shown view.now)
        ≡ option_map (mark_seen (stretch_by view.now)) (mark_of_name name view.now.doc.marks) }
{
    order(&view.shown());
}

/// Where a widget's own mark stands among the characters that it shows.
pub(crate) fn own_spot<S: TextStore>(view: &ViewRef<'_, S>, which: OwnMark) -> MarkRef<'static>
    ensures { spotted result ≡ own_mark which (widget_shown view.now) }
{
    let widget = view.widget();
    let stretch = view.stretch();
    let place = widget.place(which);
    MarkRef {
        place: match which {
            OwnMark::Insert => stretch.cursor(place),
            OwnMark::Current => stretch.place(place),
        },
        gravity: widget.gravity(which),
        name: which.name(),
    }
}

/// A mark at its place among the characters of a stretch.
pub(crate) fn seen<'a>(stretch: Stretch, mark: MarkRef<'a>) -> MarkRef<'a>
    requires { stretch.begin ≤ stretch.end }
    ensures { spotted result ≡ mark_seen stretch (spotted mark.entry) }
{
    MarkRef {
        place: stretch.place(mark.place),
        gravity: mark.gravity,
        name: mark.name,
    }
}
