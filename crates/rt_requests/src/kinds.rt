// What a dump shows.
ghost use Rattle.std.specs.Prelude.{◌≡◌, string_bytes};
ghost use Rattle.std.specs.List.{list_all};
ghost use Rattle.rt_stamps.specs.Words.{as_words};
ghost use Rattle.rt_requests.specs.Switches.{is_dump_switch, kinds_of, shows};

use crate::switches::has;

/// Which elements a dump shows (Tk text manual, "dump").
#[derive(Clone, Copy, Debug, PartialEq, Eq)]
pub struct Kinds {
    /// `-tag`: where ranges of tags begin and end.
    pub tags: bool,
    /// `-mark`: marks.
    pub marks: bool,
    /// `-text`: pieces of text.
    pub text: bool,
}

impl Kinds {
    /// The kinds that switches of a dump ask for: each that is named, and all of them for `-all` and where there is no
    /// switch. None where a switch is unknown. It takes no memory.
    pub fn of(switches: &[String]) -> Option<Kinds>
        ensures { result ≡ kinds_of (as_words switches.now) }
    {
        if !all_known(switches) {
            return None;
        }
        Some(Kinds {
            tags: shows(switches, "-tag"),
            marks: shows(switches, "-mark"),
            text: shows(switches, "-text"),
        })
    }
}

// Whether a dump has such a switch.
fn is_known(switch: &str) -> bool
    ensures { result ≡ is_dump_switch switch.now }
{
    matches!(switch, "-all" | "-mark" | "-tag" | "-text")
}

// Whether a dump has each of some switches.
fn all_known(switches: &[String]) -> bool
    ensures { result ≡ list_all is_dump_switch (as_words switches.now) }
{
    are_known(switches)
}

// What `all_known` asks, of the strings themselves.
fn are_known(switches: &[String]) -> bool
    ensures { result ≡ list_all (λ w. is_dump_switch (string_bytes w)) switches.now }
{
    switches.iter().all(|switch| is_known(switch))
}

// Whether elements of a kind are shown.
fn shows(switches: &[String], kind: &str) -> bool
    ensures { result ≡ shows (as_words switches.now) kind.now }
{
    switches.is_empty() || has(switches, "-all") || has(switches, kind)
}
