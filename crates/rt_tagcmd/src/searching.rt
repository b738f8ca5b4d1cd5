// What a search answers.
ghost use Rattle.std.specs.Prelude.{◌≡◌, ◌⊎◌, ◌<◌, ◌≤◌, All, Ok, None, Some, IfOk, IfErr, IsOkUnless, IfSome, length, map, option_map, option_to_list};
ghost use Rattle.std.specs.Str.{chars};
ghost use Rattle.rt_search.specs.Searches.{all_matches, first_match};
ghost use Rattle.rt_tagcmd.specs.SearchCommand.{searched};
ghost use Rattle.rt_stamps.specs.Outcomes.{Refuses, first_of};
ghost use Rattle.rt_stamps.specs.Places.{position_at};
ghost use Rattle.rt_text.specs.Index.{index_check, place_at_index};
ghost use Rattle.rt_text.specs.Widgets.{length_shown, text_shown, widget_of};

use rt_requests::{SearchRequest, Wanted, Word};
use rt_search::{Direction, Overlaps, Part, Search, find_all, find_first, positions};
use rt_stamps::{Fault, Position};
use rt_store::TextStore;
use rt_text::ViewRef;
use std::alloc::Global;

/// The text that a widget shows.
pub fn shown<'a, S: TextStore>(view: &ViewRef<'a, S>) -> Part<'a, S>
    ensures { result ≡ text_shown view.now }
{
    Part::of(view.store(), view.stretch())
}

/// The characters of a pattern.
fn characters_of(alloc: Global, pattern: &str) -> Result<Vec<char>, Fault>
    ensures ok { IfOk result (λ all. all.items ≡ chars pattern.now) }
    ensures err { IsOkUnless result Fault.NoMemory }
{
    let all: Vec<char> = pattern.chars().collect(alloc)?;
    Ok(all)
}

/// The place of an index.
fn place_of_index<S: TextStore>(view: &ViewRef<'_, S>, index: &Word<'_>) -> Result<usize, Fault>
    ensures ok { IfOk result (λ place. place ≡ place_at_index (widget_of view.now) index.now) }
    ensures checked { IfOk result (λ place. index_check (widget_of view.now) index.now ≡ None) }
    ensures within { IfOk result (λ place. place ≤ length_shown view.now) }
    ensures err { IfErr result (λ fault. (fault ≡ Fault.NoMemory) ⊎ (index_check (widget_of view.now) index.now ≡ Some fault)) }
{
    view.place(index.text())
}

/// The place of an index, if there is one.
fn stop_of<S: TextStore>(
    view: &ViewRef<'_, S>,
    stop: &Option<Word<'_>>,
) -> Result<Option<usize>, Fault>
    ensures ok { IfOk result (λ place. place ≡ option_map (place_at_index (widget_of view.now)) stop.now) }
    ensures checked { IfOk result (λ place. first_of (map (index_check (widget_of view.now)) (option_to_list stop.now)) ≡ None) }
    ensures within { IfOk result (λ place. IfSome place (λ p. p ≤ length_shown view.now)) }
    ensures err { IfErr result (λ fault. (fault ≡ Fault.NoMemory)
        ⊎ (first_of (map (index_check (widget_of view.now)) (option_to_list stop.now)) ≡ Some fault)) }
{
    match stop {
        Some(index) => Ok(Some(place_of_index(view, index)?)),
        None => Ok(None),
    }
}

/// The line and the character of the first match, if there is one.
fn one_found<S: TextStore>(
    alloc: Global,
    view: &ViewRef<'_, S>,
    pattern: &[char],
    search: Search,
    start: usize,
    stop: Option<usize>,
) -> Result<Vec<Position>, Fault>
    requires start { start ≤ length_shown view.now }
    requires stop { IfSome stop (λ place. place ≤ length_shown view.now) }
    ensures ok { IfOk result (λ found. found.items
        ≡ map (position_at (text_shown view.now)) (option_to_list (first_match search pattern.now (text_shown view.now) start stop))) }
    ensures err { IsOkUnless result Fault.NoMemory }
{
    let mut found = Vec::new(alloc);
    if let Some(place) = find_first(alloc, &shown(view), pattern, search, start, stop)? {
        found.push(view.position(place))?;
    }
    Ok(found)
}

/// The lines and characters of places, which mostly rise, or mostly fall.
fn positions_along<S: TextStore>(
    alloc: Global,
    view: &ViewRef<'_, S>,
    direction: Direction,
    mut places: Vec<usize>,
) -> Result<Vec<Position>, Fault>
    requires { All (λ place. place < length_shown view.now) places.items }
    ensures ok { IfOk result (λ found. found.items ≡ map (position_at (text_shown view.now)) places.items) }
    ensures err { IsOkUnless result Fault.NoMemory }
{
    let text = shown(view);
    match direction {
        Direction::Forwards => positions(alloc, &text, &places),
        Direction::Backwards => {
            places.reverse();
            let mut found = positions(alloc, &text, &places)?;
            found.reverse();
            Ok(found)
        }
    }
}

/// The lines and characters of all matches.
fn each_found<S: TextStore>(
    alloc: Global,
    view: &ViewRef<'_, S>,
    pattern: &[char],
    search: Search,
    overlaps: Overlaps,
    start: usize,
    stop: Option<usize>,
) -> Result<Vec<Position>, Fault>
    requires start { start ≤ length_shown view.now }
    requires stop { IfSome stop (λ place. place ≤ length_shown view.now) }
    ensures ok { IfOk result (λ found. found.items
        ≡ map (position_at (text_shown view.now)) (all_matches overlaps search pattern.now (text_shown view.now) start stop)) }
    ensures err { IsOkUnless result Fault.NoMemory }
{
    let text = shown(view);
    let places = find_all(alloc, &text, pattern, search, overlaps, start, stop)?;
    positions_along(alloc, view, search.direction, places)
}

/// `search` (Tk text manual, "search"), by what its words ask for: where the
/// pattern stands, as lines and characters. Without `-all` that is at most one place: forwards the least of the first
/// stretch that has one, backwards the greatest. With `-all` they are those of the matches that are taken in turn, stretch
/// after stretch, rising when forwards and falling when backwards; without `-overlap` a match that shares a character with
/// one that is taken is passed over. `BadIndex`, `NoneTagged`, then `EmptyPattern`, or want of memory.
pub fn search<S: TextStore>(
    alloc: Global,
    view: &ViewRef<'_, S>,
    request: &SearchRequest<'_>,
) -> Result<Vec<Position>, Fault>
    ensures ok { IfOk result (λ found. searched view.now request.now ≡ Ok found.items) }
    ensures err { IfErr result (Refuses (searched view.now request.now)) }
{
    let start = place_of_index(view, &request.start)?;
    let stop = stop_of(view, &request.stop)?;
    let pattern = request.pattern.text();
    if pattern.is_empty() {
        return Err(Fault::EmptyPattern);
    }
    let pattern = characters_of(alloc, pattern)?;
    match request.wanted {
        Wanted::One => one_found(alloc, view, &pattern, request.search, start, stop),
        Wanted::Each(overlaps) => {
            each_found(alloc, view, &pattern, request.search, overlaps, start, stop)
        }
    }
}
