// The matches of a pattern.
ghost use Rattle.std.specs.Prelude.{◌≡◌, ℕ, ◌<◌, ◌≤◌, ◌∷◌, IfOk, IfSome, IsOkUnless, length, option_to_list, slice_get};
ghost use Rattle.rt_search.specs.Borders.{AreBorders, pattern_read};
ghost use Rattle.rt_search.specs.Ends.{IsBefore};
ghost use Rattle.rt_search.specs.Searches.{first_match, matches_in, stretches};

use crate::borders::borders_of;
use crate::part::Part;
use crate::pass::{Pass, room};
use crate::search::{Direction, Search, Strictness, nth};
use rt_lines::Stretch;
use rt_stamps::Fault;
use rt_store::TextStore;
use std::alloc::Global;

/// The stretches that a search goes through: one, or two.
pub(crate) fn stretches(
    direction: Direction,
    start: usize,
    stop: Option<usize>,
    end: usize,
) -> (Stretch, Option<Stretch>)
    requires start { start ≤ end }
    requires stop { IfSome stop (λ place. place ≤ end) }
    ensures value { result.0 ∷ option_to_list result.1 ≡ stretches direction start stop end }
    ensures near { result.0.end ≤ end }
    ensures far { IfSome result.1 (λ stretch. stretch.end ≤ end) }
    ensures apart { IfSome result.1 (λ stretch. (place : ℕ) → stretch.begin ≤ place → place < stretch.end → IsBefore direction result.0 place) }
{
    let before = Stretch {
        begin: 0,
        end: start,
    };
    let after = Stretch { begin: start, end };
    match (direction, stop) {
        (Direction::Forwards, None) => (after, Some(before)),
        (Direction::Forwards, Some(stop)) => (
            Stretch {
                begin: start,
                end: stop,
            },
            None,
        ),
        (Direction::Backwards, None) => (before, Some(after)),
        (Direction::Backwards, Some(stop)) => (
            Stretch {
                begin: stop,
                end: start,
            },
            None,
        ),
    }
}

/// Where a match must end at the latest: at the end of the text, or of its stretch.
pub(crate) fn last_end(strictness: Strictness, stretch: Stretch, end: usize) -> usize
    ensures first { strictness ≡ Strictness.First → result ≡ end }
    ensures strict { strictness ≡ Strictness.Strict → result ≡ stretch.end }
{
    match strictness {
        Strictness::First => end,
        Strictness::Strict => stretch.end,
    }
}

/// The first match in a stretch.
fn first_in<S: TextStore>(
    text: &Part<'_, S>,
    pattern: &[char],
    borders: &[usize],
    search: Search,
    stretch: Stretch,
) -> Option<usize>
    requires stretch { stretch.end ≤ length text.now }
    requires many { length borders.now ≡ length pattern.now }
    requires borders { AreBorders (pattern_read search pattern.now) borders.now }
    ensures { result ≡ slice_get (matches_in search pattern.now text.now stretch) 0 }
{
    let room = room(text, pattern, search, stretch);
    let index = Pass::new().next(text, pattern, borders, search, room)?;
    Some(nth(room, search.direction, index))
}

/// The place where a pattern is found first, from a start on: the least of the first stretch that has one, or the
/// greatest when backwards (Tk text manual, "search"); none if there is none. It takes time linear in what is read and
/// the pattern: each character of a stretch is read once, in pieces, up to the end of the match, and behind the stretch
/// as many as a match may run on; there are at most two comparisons for each character. It takes memory for a number for
/// each character of the pattern: `NoMemory` where that is refused.
pub fn find_first<S: TextStore>(
    alloc: Global,
    text: &Part<'_, S>,
    pattern: &[char],
    search: Search,
    start: usize,
    stop: Option<usize>,
) -> Result<Option<usize>, Fault>
    requires start { start ≤ length text.now }
    requires stop { IfSome stop (λ place. place ≤ length text.now) }
    ensures ok { IfOk result (λ found. found ≡ first_match search pattern.now text.now start stop) }
    ensures err { IsOkUnless result Fault.NoMemory }
{
    let (near, far) = stretches(search.direction, start, stop, text.len());
    let borders = borders_of(alloc, search, pattern)?;
    if let Some(place) = first_in(text, pattern, &borders, search, near) {
        return Ok(Some(place));
    }
    match far {
        Some(far) => Ok(first_in(text, pattern, &borders, search, far)),
        None => Ok(None),
    }
}
