// The tags of characters on a widget.
ghost use Rattle.std.specs.Prelude.{◌≡◌, ◌≤◌, length, take, true, false, not, if◌then◌else◌};
ghost use Rattle.rt_store.specs.Cells.{visible_of};
ghost use Rattle.rt_store.specs.Tagged.{last_place, next_place, previous_place};
ghost use Rattle.rt_tags.specs.States.{IsState};
ghost use Rattle.rt_plans.specs.Selected.{selected_stamps};
ghost use Rattle.rt_store.specs.Spans.{is_among};
ghost use Rattle.rt_text.specs.Widgets.{is_tagged_in};
ghost use Rattle.rt_store.specs.Shown.{shown};
ghost use Rattle.rt_lines.specs.Stretches.{part};

use rt_lines::Stretch;
use rt_plans::Selection;
use rt_stamps::Stamp;
use rt_store::{Cell, TextStore};
use rt_tags::{StateId, StateTable};

/// Whether a tag is on the character of a cell: `sel` where the character is selected.
pub(crate) fn cell_has(
    states: &StateTable,
    selection: &Selection,
    cell: Cell<StateId>,
    name: &str,
) -> bool
    requires { IsState states.now cell.state }
    ensures { result ≡ is_tagged_in (selected_stamps selection.now) name.now (shown states.now cell) }
{
    if name == "sel" {
        return selection.has(cell.stamp);
    }
    match states.known(name) {
        Some(tag) => states.has(cell.state, tag),
        None => false,
    }
}

// Whether a character is selected, or isn't, as is asked.
fn is_selected(selection: &Selection, selected: bool, stamp: Stamp) -> bool
    ensures { result ≡ (if selected then is_among (selected_stamps selection.now) stamp else not (is_among (selected_stamps selection.now) stamp)) }
{
    if selected {
        selection.has(stamp)
    } else {
        !selection.has(stamp)
    }
}

// The least place from one up whose character is selected, or isn't.
fn next_selected<S: TextStore>(
    store: &S,
    selection: &Selection,
    selected: bool,
    place: usize,
) -> Option<usize>
    ensures { result ≡ next_place (λ cell. if selected then is_among (selected_stamps selection.now) cell.stamp else not
        (is_among (selected_stamps selection.now) cell.stamp)) (visible_of (S.list store.now)) place }
{
    // Where nothing is selected no character is looked at.
    if selection.is_empty() {
        return next_without(store, selected, place);
    }
    for at in place..store.visible() {
        if is_selected(selection, selected, store.cell_at(at).stamp) {
            return Some(at);
        }
    }
    None
}

// The least place from one up whose character has a tag that no character has, or hasn't it.
fn next_without<S: TextStore>(store: &S, on: bool, place: usize) -> Option<usize>
    ensures { result ≡ next_place (λ _. if on then false else true) (visible_of (S.list store.now)) place }
{
    if on {
        return None;
    }
    if place < store.visible() {
        Some(place)
    } else {
        None
    }
}

// The least place from one up whose character has a tag, or hasn't it, as is asked.
fn next_with<S: TextStore>(
    store: &S,
    states: &StateTable,
    selection: &Selection,
    name: &str,
    on: bool,
    place: usize,
) -> Option<usize>
    requires { S.agrees store.now states.now }
    ensures { result ≡ next_place (λ cell. if on then is_tagged_in (selected_stamps selection.now) name.now (shown states.now cell) else not
        (is_tagged_in (selected_stamps selection.now) name.now (shown states.now cell))) (visible_of (S.list store.now)) place }
{
    if name == "sel" {
        return next_selected(store, selection, on, place);
    }
    match states.known(name) {
        Some(tag) if on => store.next_tagged(states, tag, place),
        Some(tag) => store.next_untagged(states, tag, place),
        None => next_without(store, on, place),
    }
}

/// What `next_with` finds, of a stretch of the text, by places in it.
pub(crate) fn next_within<S: TextStore>(
    store: &S,
    states: &StateTable,
    selection: &Selection,
    name: &str,
    on: bool,
    stretch: Stretch,
    place: usize,
) -> Option<usize>
    requires states { S.agrees store.now states.now }
    requires stretch { stretch.end ≤ length (visible_of (S.list store.now)) }
    ensures { result ≡ next_place (λ cell. if on then is_tagged_in (selected_stamps selection.now) name.now (shown states.now cell) else not
        (is_tagged_in (selected_stamps selection.now) name.now (shown states.now cell))) (part stretch (visible_of (S.list store.now))) place }
{
    let from = stretch.begin.saturating_add(place);
    let at = next_with(store, states, selection, name, on, from)?;
    if at < stretch.end {
        Some(at - stretch.begin)
    } else {
        None
    }
}

// The greatest place before one whose character is selected.
fn last_selected<S: TextStore>(store: &S, selection: &Selection, end: usize) -> Option<usize>
    requires { end ≤ length (visible_of (S.list store.now)) }
    ensures { result ≡ last_place (λ cell. is_among (selected_stamps selection.now) cell.stamp) (take end (visible_of (S.list store.now))) }
{
    if selection.is_empty() {
        return None;
    }
    let mut at = end;
    while at > 0 {
        at -= 1;
        if selection.has(store.cell_at(at).stamp) {
            return Some(at);
        }
    }
    None
}

// The greatest place before one whose character has a tag.
fn last_before<S: TextStore>(
    store: &S,
    states: &StateTable,
    selection: &Selection,
    name: &str,
    end: usize,
) -> Option<usize>
    requires states { S.agrees store.now states.now }
    requires end { end ≤ length (visible_of (S.list store.now)) }
    ensures { result ≡ last_place (λ cell. is_tagged_in (selected_stamps selection.now) name.now (shown states.now cell))
        (take end (visible_of (S.list store.now))) }
{
    if name == "sel" {
        return last_selected(store, selection, end);
    }
    match states.known(name) {
        Some(tag) => store.previous_tagged(states, tag, end),
        None => None,
    }
}

/// The greatest place of a stretch of the text whose character has a tag, as one in it.
pub(crate) fn last_within<S: TextStore>(
    store: &S,
    states: &StateTable,
    selection: &Selection,
    name: &str,
    stretch: Stretch,
) -> Option<usize>
    requires states { S.agrees store.now states.now }
    requires stretch { stretch.end ≤ length (visible_of (S.list store.now)) }
    ensures { result ≡ last_place (λ cell. is_tagged_in (selected_stamps selection.now) name.now (shown states.now cell))
        (part stretch (visible_of (S.list store.now))) }
{
    let at = last_before(store, states, selection, name, stretch.end)?;
    at.checked_sub(stretch.begin)
}

/// The greatest place of a stretch of the text below one whose character has a tag, as one in it.
pub(crate) fn previous_within<S: TextStore>(
    store: &S,
    states: &StateTable,
    selection: &Selection,
    name: &str,
    stretch: Stretch,
    place: usize,
) -> Option<usize>
    requires states { S.agrees store.now states.now }
    requires stretch { stretch.end ≤ length (visible_of (S.list store.now)) }
    ensures { result ≡ previous_place (λ cell. is_tagged_in (selected_stamps selection.now) name.now (shown states.now cell))
        (part stretch (visible_of (S.list store.now))) place }
{
    let begin = stretch.begin;
    let end = begin.saturating_add(place).min(stretch.end);
    last_within(store, states, selection, name, Stretch { begin, end })
}
