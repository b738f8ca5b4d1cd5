// All matches of a pattern.
ghost use Rattle.std.specs.Prelude.{◌≡◌, ◌≤◌, ◌<◌, [], ℕ, IfOk, IsOkUnless, OnOk, IfSome, fold, length};
ghost use Rattle.rt_search.specs.Borders.{AreBorders, pattern_read};
ghost use Rattle.rt_search.specs.Ends.{EndsDecide, FirstDecides, IsBefore, overlaps_one};
ghost use Rattle.rt_search.specs.Searches.{all_matches, is_taken, matches_in, overlap, with_match};

use crate::borders::borders_of;
use crate::find::stretches;
use crate::part::Part;
use crate::pass::{Pass, room};
use crate::search::{Overlaps, Search, nth};
use rt_lines::Stretch;
use rt_stamps::Fault;
use rt_store::TextStore;
use std::alloc::Global;

/// Whether two matches of one length share a character.
fn overlap(length: usize, a: usize, b: usize) -> bool
    ensures { result ≡ overlap length a b }
{
    if a < b {
        b - a < length
    } else {
        a - b < length
    }
}

/// Whether a match overlaps another one, if there is one.
fn overlaps_one(length: usize, place: usize, other: Option<usize>) -> bool
    ensures { result ≡ overlaps_one length other place }
{
    match other {
        Some(other) => overlap(length, place, other),
        None => false,
    }
}

/// Whether a match is taken.
fn is_taken(overlaps: Overlaps, length: usize, taken: &[usize], place: usize) -> bool
    requires { EndsDecide length taken.now place }
    ensures { result ≡ is_taken overlaps length taken.now place }
{
    match overlaps {
        Overlaps::Taken => true,
        Overlaps::PassedOver => {
            !overlaps_one(length, place, taken.first().copied())
                && !overlaps_one(length, place, taken.last().copied())
        }
    }
}

/// Takes the matches of a stretch.
fn take_in<S: TextStore>(
    taken: &mut Vec<usize>,
    text: &Part<'_, S>,
    pattern: &[char],
    borders: &[usize],
    search: Search,
    overlaps: Overlaps,
    stretch: Stretch,
) -> Result<(), Fault>
    requires stretch { stretch.end ≤ length text.now }
    requires many { length borders.now ≡ length pattern.now }
    requires borders { AreBorders (pattern_read search pattern.now) borders.now }
    requires taken { (place : ℕ) → stretch.begin ≤ place → place < stretch.end → FirstDecides (length pattern.now) taken.old.items place }
    ensures ok { OnOk result (taken.new.items
        ≡ fold (with_match overlaps (length pattern.now)) taken.old.items (matches_in search pattern.now text.now stretch)) }
    ensures before { taken.old.items ≡ [] → (place : ℕ) → IsBefore search.direction stretch place
        → FirstDecides (length pattern.now) taken.new.items place }
    ensures err { IsOkUnless result Fault.NoMemory }
{
    let room = room(text, pattern, search, stretch);
    let mut pass = Pass::new();
    while let Some(index) = pass.next(text, pattern, borders, search, room) {
        let place = nth(room, search.direction, index);
        if !is_taken(overlaps, pattern.len(), taken, place) {
            continue;
        }
        taken.push(place)?;
    }
    Ok(())
}

/// The places of all matches, stretch after stretch, rising when forwards and falling when backwards (Tk text manual,
/// "search -all"). Of matches that overlap the one that comes first is taken, unless all are asked for. It costs what
/// `find_first` does where nothing is found, and memory for the list. `NoMemory` where that is refused.
pub fn find_all<S: TextStore>(
    alloc: Global,
    text: &Part<'_, S>,
    pattern: &[char],
    search: Search,
    overlaps: Overlaps,
    start: usize,
    stop: Option<usize>,
) -> Result<Vec<usize>, Fault>
    requires start { start ≤ length text.now }
    requires stop { IfSome stop (λ place. place ≤ length text.now) }
    ensures ok { IfOk result (λ found. found.items ≡ all_matches overlaps search pattern.now text.now start stop) }
    ensures err { IsOkUnless result Fault.NoMemory }
{
    let (near, far) = stretches(search.direction, start, stop, text.len());
    let borders = borders_of(alloc, search, pattern)?;
    let mut taken = Vec::new(alloc);
    take_in(&mut taken, text, pattern, &borders, search, overlaps, near)?;
    if let Some(far) = far {
        take_in(&mut taken, text, pattern, &borders, search, overlaps, far)?;
    }
    Ok(taken)
}
