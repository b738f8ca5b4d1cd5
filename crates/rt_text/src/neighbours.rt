// The neighbours of text that is inserted, as a widget shows them.
ghost use Rattle.std.specs.Prelude.{◌≡◌, ◌==◌, ◌≤◌, ◌<◌, [], All, IfSome, None, length, option_map, slice_get, unwrap_or, if◌then◌else◌};
ghost use Rattle.std.specs.List.{list_any};
ghost use Rattle.std.specs.Str.{chars};
ghost use Rattle.rt_marks.specs.Marks.{place_left};
ghost use Rattle.rt_stamps.specs.declared.limits.TheConstants.{MOST_CELLS};
ghost use Rattle.rt_stamps.specs.declared.stamp.TheConstants.{ROOT};
ghost use Rattle.rt_stamps.specs.Places.{is_newline};
ghost use Rattle.rt_store.specs.Cells.{visible_of};
ghost use Rattle.rt_store.specs.Tagged.{AreStates};
ghost use Rattle.rt_tags.specs.States.{IsState, TagStates};
ghost use Rattle.rt_plans.specs.Insertions.{left_neighbour, right_neighbour};
ghost use Rattle.rt_plans.specs.Removals.{RangesFollow, gone_at, is_covered};
ghost use Rattle.rt_text.specs.Neighbours.{are_sides_shown, ends_behind, ends_with_newline, is_ahead, stands_behind, limit_left, pieces_text};

use crate::staying::{place_after, right_after};
use rt_lines::Limits;
use rt_plans::{Piece, Range};
use rt_stamps::{ROOT, Stamp};
use rt_store::{Cell, TextStore};
use rt_tags::StateId;

/// The visible cell before a place, if there is one.
#[inline(always)]
pub(crate) fn left_of<S: TextStore>(store: &S, place: usize) -> Option<Cell<StateId>>
    requires { place ≤ length (visible_of (S.list store.now)) }
    ensures { result ≡ left_neighbour (visible_of (S.list store.now)) place }
{
    if place == 0 {
        None
    } else {
        Some(store.cell_at(place - 1))
    }
}

/// The element behind which text goes that has a left neighbour, or none.
#[inline(always)]
pub(crate) fn stamp_or_root(left: &Option<Cell<StateId>>) -> Stamp
    ensures { result ≡ unwrap_or (option_map (λ cell. cell.stamp) left.now) ROOT }
{
    match left {
        Some(cell) => cell.stamp,
        None => ROOT,
    }
}

// The place of a limit's newline in what is left once ranges are removed, if there is one.
fn limit_left<S: TextStore>(store: &S, removed: &[Range], limit: Option<Stamp>) -> Option<usize>
    requires { RangesFollow 0 removed.now }
    ensures { result ≡ limit_left (is_covered removed.now) (S.list store.now) limit }
{
    let place = store.place_of(limit?)?;
    Some(place_after(removed, place))
}

// A newline stands at a place or behind it.
fn stands_behind(at: usize, place: Option<usize>) -> bool
    ensures { result ≡ stands_behind at place }
{
    match place {
        Some(place) => at <= place,
        None => false,
    }
}

// A newline stands before a place.
fn is_ahead(at: usize, place: Option<usize>) -> bool
    ensures { result ≡ is_ahead at place }
{
    match place {
        Some(place) => place < at,
        None => false,
    }
}

// Whether a text has a newline.
fn has_newline(text: &str) -> bool
    ensures { result ≡ list_any is_newline (chars text.now) }
{
    text.chars().any(|c| c == '\n')
}

// Whether the text of pieces has a newline.
fn have_newline(pieces: &[Piece]) -> bool
    ensures { result ≡ list_any is_newline (pieces_text pieces.now) }
{
    for piece in pieces {
        if has_newline(piece.text()) {
            return true;
        }
    }
    false
}

// Whether a text ends with a newline behind another, of which that is known.
fn ends_behind(before: bool, text: &str) -> bool
    ensures { result ≡ ends_behind before (chars text.now) }
{
    let mut ends = before;
    for c in text.chars() {
        ends = c == '\n';
    }
    ends
}

// Whether the text of pieces ends with a newline.
fn end_with_newline(pieces: &[Piece]) -> bool
    ensures { result ≡ ends_with_newline (pieces_text pieces.now) }
{
    let mut ends = false;
    for piece in pieces {
        ends = ends_behind(ends, piece.text());
    }
    ends
}

/// Whether a widget still shows both sides of the place behind pieces, once ranges are removed and the pieces stand
/// before the character at a place of what is left: where the newline of a limit is gone, one of theirs may be the
/// nearer.
#[inline(always)]
pub(crate) fn shows_both<S: TextStore>(
    store: &S,
    removed: &[Range],
    limits: Limits,
    at: usize,
    pieces: &[Piece],
) -> bool
    requires { RangesFollow 0 removed.now }
    ensures { result ≡ are_sides_shown (limit_left (is_covered removed.now) (S.list store.now) limits.start)
        (limit_left (is_covered removed.now) (S.list store.now) limits.end) at (pieces_text pieces.now) }
{
    let start = limit_left(store, removed, limits.start);
    let end = limit_left(store, removed, limits.end);
    let begins_there = stands_behind(at, start) && end_with_newline(pieces);
    let ends_there = is_ahead(at, end) && have_newline(pieces);
    !begins_there && !ends_there
}

/// The cell before a place of what is shown, of which the one before it in the text is known: none before the first
/// place.
#[inline(always)]
pub(crate) fn shown_before(place: usize, behind: Option<Cell<StateId>>) -> Option<Cell<StateId>>
    ensures { result ≡ (if place == 0 then None else behind) }
{
    if place == 0 { None } else { behind }
}

/// The cell at a place, if both its sides are shown behind pieces that stand before it.
#[inline(always)]
pub(crate) fn shown_at<S: TextStore>(
    store: &S,
    limits: Limits,
    at: usize,
    pieces: &[Piece],
) -> Option<Cell<StateId>>
    requires { at < length (visible_of (S.list store.now)) }
    ensures { result ≡ (if are_sides_shown (limit_left (is_covered []) (S.list store.now) limits.start)
        (limit_left (is_covered []) (S.list store.now) limits.end) at (pieces_text pieces.now)
        then slice_get (visible_of (S.list store.now)) at else None) }
{
    if shows_both(store, &[], limits, at, pieces) {
        Some(store.cell_at(at))
    } else {
        None
    }
}

/// The cell that comes to stand at a place when ranges are removed, if both its sides are shown behind pieces that
/// stand before it; none where the ranges hold the last newline that is shown.
pub(crate) fn shown_after<S: TextStore>(
    store: &S,
    removed: &[Range],
    held: bool,
    limits: Limits,
    at: usize,
    pieces: &[Piece],
) -> Option<Cell<StateId>>
    requires order { RangesFollow 0 removed.now }
    requires place { at < place_left (is_covered removed.now) (length (visible_of (S.list store.now))) }
    requires within { All (λ range. range.to ≤ length (visible_of (S.list store.now))) removed.now }
    requires few { length (visible_of (S.list store.now)) ≤ MOST_CELLS }
    ensures is { result ≡ (if are_sides_shown (limit_left (is_covered removed.now) (S.list store.now) limits.start)
        (limit_left (is_covered removed.now) (S.list store.now) limits.end) at (pieces_text pieces.now)
        then (if held then None else right_neighbour (visible_of (gone_at (is_covered removed.now) 0 (S.list store.now))) at) else None) }
    ensures given { (table : TagStates) → AreStates table (S.list store.now) → IfSome result (λ cell. IsState table cell.state) }
{
    if shows_both(store, removed, limits, at, pieces) {
        right_after(store, removed, held, at)
    } else {
        None
    }
}
