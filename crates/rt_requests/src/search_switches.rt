// The switches of a search.
ghost use Rattle.std.specs.Prelude.{◌≡◌, string_bytes};
ghost use Rattle.std.specs.List.{list_all};
ghost use Rattle.rt_requests.specs.SearchWords.{case_of, direction_of, is_known_switch, strictness_of, overlap_fits, overlaps_of, search_of, switch_check, redirected, wanted_of};
ghost use Rattle.rt_stamps.specs.Outcomes.{unless};
ghost use Rattle.rt_stamps.specs.Words.{as_words};

use crate::request::Wanted;
use crate::switches::has;
use rt_search::{Case, Direction, Overlaps, Search, Strictness};
use rt_stamps::Fault;

// Whether a search has such a switch.
fn is_known(switch: &str) -> bool
    ensures { result ≡ is_known_switch switch.now }
{
    matches!(
        switch,
        "-forwards" | "-backwards" | "-exact" | "-nocase" | "-all" | "-overlap" | "-strictlimits"
    )
}

// The way that a switch names, and else the way that it was.
fn redirected(direction: Direction, switch: &str) -> Direction
    ensures { result ≡ redirected direction switch.now }
{
    match switch {
        "-forwards" => Direction::Forwards,
        "-backwards" => Direction::Backwards,
        _ => direction,
    }
}

// The way that switches ask to go: of several the last one counts.
fn direction_of(switches: &[String]) -> Direction
    ensures { result ≡ direction_of (as_words switches.now) }
{
    switches.iter().fold(
        Direction::Forwards,
        |direction, switch| redirected(direction, switch),
    )
}

// Whether a search has each of some switches.
fn all_known(switches: &[String]) -> bool
    ensures { result ≡ list_all is_known_switch (as_words switches.now) }
{
    are_known(switches)
}

// What `all_known` asks, of the strings themselves.
fn are_known(switches: &[String]) -> bool
    ensures { result ≡ list_all (λ w. is_known_switch (string_bytes w)) switches.now }
{
    switches.iter().all(|switch| is_known(switch))
}

// Whether `-overlap` is given with `-all` alone.
fn overlap_fits(switches: &[String]) -> bool
    ensures { result ≡ overlap_fits (as_words switches.now) }
{
    has(switches, "-all") || !has(switches, "-overlap")
}

// Refuses switches of which one is unknown, and `-overlap` without `-all`.
pub(crate) fn check_switches(switches: &[String]) -> Result<(), Fault>
    ensures { result ≡ unless (switch_check (as_words switches.now)) tt }
{
    if all_known(switches) && overlap_fits(switches) {
        Ok(())
    } else {
        Err(Fault::BadOption)
    }
}

// Which characters count as the same.
fn case_of(switches: &[String]) -> Case
    ensures { result ≡ case_of (as_words switches.now) }
{
    if has(switches, "-nocase") {
        Case::Ignored
    } else {
        Case::Exact
    }
}

// What of a match must lie in the stretch that is searched.
fn strictness_of(switches: &[String]) -> Strictness
    ensures { result ≡ strictness_of (as_words switches.now) }
{
    if has(switches, "-strictlimits") {
        Strictness::Strict
    } else {
        Strictness::First
    }
}

// What becomes of matches that overlap.
fn overlaps_of(switches: &[String]) -> Overlaps
    ensures { result ≡ overlaps_of (as_words switches.now) }
{
    if has(switches, "-overlap") {
        Overlaps::Taken
    } else {
        Overlaps::PassedOver
    }
}

// How switches ask to search.
pub(crate) fn search_of(switches: &[String]) -> Search
    ensures { result ≡ search_of (as_words switches.now) }
{
    Search {
        direction: direction_of(switches),
        case: case_of(switches),
        strictness: strictness_of(switches),
    }
}

// Which matches switches ask for.
pub(crate) fn wanted_of(switches: &[String]) -> Wanted
    ensures { result ≡ wanted_of (as_words switches.now) }
{
    let overlaps = overlaps_of(switches);
    if has(switches, "-all") {
        Wanted::Each(overlaps)
    } else {
        Wanted::One
    }
}
