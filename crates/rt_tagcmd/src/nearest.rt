// The marks of a widget about a spot: those of its site as the widget sees them, and its own two.
ghost use Rattle.std.specs.Prelude.{◌≡◌, ◌-◌, ◌≤◌, ◌<◌, ◌==◌, ◌&&◌, ◌∷◌, IfSome, List, None, drop, find, length, map, option_map};
ghost use Rattle.rt_marks.specs.Marks.{AreInOrder, Mark, comes_before, find_last, in_order, with_mark};
ghost use Rattle.rt_marks.specs.Seen.{spotted};
ghost use Rattle.rt_store.specs.Cells.{text_of};
ghost use Rattle.rt_text.specs.Widgets.{mark_seen, marks_of, marks_shown, stretch_by};

use crate::seen::{order, own_spot, seen};
use rt_lines::Stretch;
use rt_marks::{MarkRef, Marks};
use rt_store::TextStore;
use rt_text::{OwnMark, ViewRef};

/// The first mark after a spot, of the one that was found and one more.
fn nearer_after<'a>(
    here: &MarkRef<'_>,
    found: Option<MarkRef<'a>>,
    own: MarkRef<'a>,
) -> Option<MarkRef<'a>>
    ensures { (marks : List Mark) → AreInOrder marks → option_map spotted found.entry ≡ find (comes_before (spotted here.now)) marks
        → option_map spotted result ≡ find (comes_before (spotted here.now)) (with_mark (spotted own.entry) marks) }
{
    if !here.comes_before(&own) {
        return found;
    }
    match found {
        Some(mark) => Some(if mark.comes_before(&own) { mark } else { own }),
        None => Some(own),
    }
}

/// The last mark before a spot, of the one that was found and one more.
fn nearer_before<'a>(
    here: &MarkRef<'_>,
    found: Option<MarkRef<'a>>,
    own: MarkRef<'a>,
) -> Option<MarkRef<'a>>
    ensures { (marks : List Mark) → AreInOrder marks → option_map spotted found.entry ≡ find_last (λ m. comes_before m (spotted here.now)) marks
        → option_map spotted result ≡ find_last (λ m. comes_before m (spotted here.now)) (with_mark (spotted own.entry) marks) }
{
    if !own.comes_before(here) {
        return found;
    }
    match found {
        Some(mark) => Some(if own.comes_before(&mark) { mark } else { own }),
        None => Some(own),
    }
}

/// The last of so many marks at the front of the order.
pub(crate) fn last_of(marks: &Marks, count: usize) -> Option<MarkRef<'_>>
    requires { count ≤ length marks.now }
    ensures some { IfSome result (λ mark. (0 < count) × (drop (count - 1) marks.now ≡ spotted mark ∷ drop count marks.now)) }
    ensures none { result ≡ None → count ≡ 0 }
{
    if count == 0 {
        None
    } else {
        marks.at(count - 1)
    }
}

/// The first mark after a spot, of marks at their places among the characters of a stretch: each of them is looked at.
fn first_seen<'a>(marks: &'a Marks, stretch: Stretch, here: &MarkRef<'_>) -> Option<MarkRef<'a>>
    requires { stretch.begin ≤ stretch.end }
    ensures { option_map spotted result ≡ find (comes_before (spotted here.now)) (in_order (map (mark_seen stretch) marks.now)) }
{
    marks.order();
    let mut found = None;
    let mut left = marks.len();
    while let Some(mark) = last_of(marks, left) {
        found = nearer_after(here, found, seen(stretch, mark));
        left -= 1;
    }
    found
}

/// The last mark before a spot, of marks at their places among the characters of a stretch: each of them is looked at.
fn last_seen<'a>(marks: &'a Marks, stretch: Stretch, here: &MarkRef<'_>) -> Option<MarkRef<'a>>
    requires { stretch.begin ≤ stretch.end }
    ensures { option_map spotted result ≡ find_last (λ m. comes_before m (spotted here.now)) (in_order (map (mark_seen stretch) marks.now)) }
{
    marks.order();
    let mut found = None;
    let mut left = marks.len();
    while let Some(mark) = last_of(marks, left) {
        found = nearer_before(here, found, seen(stretch, mark));
        left -= 1;
    }
    found
}

/// Whether a widget shows all of the text.
pub(crate) fn shows_all<S: TextStore>(view: &ViewRef<'_, S>) -> bool
    ensures { result ≡ (stretch_by view.now).begin == 0 && (stretch_by view.now).end == length (text_of view.now.doc.cells) }
{
    let stretch = view.stretch();
    stretch.begin == 0 && stretch.end == view.doc().visible()
}

/// The first mark of the site after a spot, as the widget sees them: a binary search where it shows all of the text.
fn first_shown<'a, S: TextStore>(view: &ViewRef<'a, S>, here: &MarkRef<'_>) -> Option<MarkRef<'a>>
    ensures { option_map spotted result ≡ find (comes_before (spotted here.now)) (marks_shown view.now) }
{
    let marks = view.doc().marks();
    marks.order();
    if shows_all(view) {
        marks.first_after(here)
    } else {
        first_seen(marks, view.stretch(), here)
    }
}

/// The last mark of the site before a spot, as the widget sees them: a binary search where it shows all of the text.
fn last_shown<'a, S: TextStore>(view: &ViewRef<'a, S>, here: &MarkRef<'_>) -> Option<MarkRef<'a>>
    ensures { option_map spotted result ≡ find_last (λ m. comes_before m (spotted here.now)) (marks_shown view.now) }
{
    let marks = view.doc().marks();
    marks.order();
    if shows_all(view) {
        marks.last_until(here)
    } else {
        last_seen(marks, view.stretch(), here)
    }
}

/// The first mark of a widget after a spot.
pub(crate) fn first_after<'a, S: TextStore>(
    view: &ViewRef<'a, S>,
    here: &MarkRef<'_>,
) -> Option<MarkRef<'a>>
    ensures { option_map spotted result ≡ find (comes_before (spotted here.now)) (marks_of view.now) }
{
    order(view);
    let found = nearer_after(
        here,
        first_shown(view, here),
        own_spot(view, OwnMark::Current),
    );
    nearer_after(here, found, own_spot(view, OwnMark::Insert))
}

/// The last mark of a widget before a spot.
pub(crate) fn last_before<'a, S: TextStore>(
    view: &ViewRef<'a, S>,
    here: &MarkRef<'_>,
) -> Option<MarkRef<'a>>
    ensures { option_map spotted result ≡ find_last (λ m. comes_before m (spotted here.now)) (marks_of view.now) }
{
    order(view);
    let found = nearer_before(
        here,
        last_shown(view, here),
        own_spot(view, OwnMark::Current),
    );
    nearer_before(here, found, own_spot(view, OwnMark::Insert))
}
