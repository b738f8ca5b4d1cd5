// Places by stamps: another site's cursor, and the anchor of a comment.
use crate::checks::same;
use crate::sites::{Script, answered, new_site};
use rt_script::SiteState;
use rt_stamps::limits::{MOST_BYTES, MOST_CELLS};
use rt_stamps::{FINAL, ROOT, Stamp};
use std::process::Abort;

// Three lines, of which `.u` shows the second.
const LINES: Script = "
.t insert 1.0 \"ab\\ncd\\nef\" -> =
.t peer create .u -startline 2 -endline 3 -> = .u
";

// Text before the `c`, which is taken away then.
const BEFORE: Script = "
.t insert 1.0 XX -> =
.t delete 2.0 -> =
";

// The `c` goes, and comes back under another stamp.
const BACK: Script = "
.t configure -undo 1 -> =
.t delete 2.0 -> =
.t edit undo -> =
";

const NOTHING: Script = "
.t delete 1.0 end -> =
";

// The stamp of a character of the first site's first insertion.
fn nth(count: u64) -> Stamp {
    Stamp { count, site: 1 }
}

// Stops a test where a stamp has another place in a widget.
fn stands(rt: &impl Abort, site: &SiteState, path: &str, stamp: Stamp, place: Option<usize>) {
    same(rt, site.place_of(path, stamp), place);
}

// Stops a test where another character stands at a place of a widget.
fn holds(rt: &impl Abort, site: &SiteState, path: &str, place: usize, stamp: Option<Stamp>) {
    same(rt, site.stamp_at(path, place), stamp);
}

// A widget counts from where it begins; what stands outside is brought to its nearer end.
#[test]
fn stamps_of_places(rt: HostRuntime) {
    let alloc = rt.alloc();
    let site = new_site(&rt, alloc, 1, MOST_CELLS);
    let site = answered(&rt, alloc, site, &[], &[LINES], 4096);
    holds(&rt, &site, ".t", 0, Some(nth(1)));
    holds(&rt, &site, ".t", 8, Some(FINAL));
    holds(&rt, &site, ".t", 9, None);
    holds(&rt, &site, ".u", 0, Some(nth(4)));
    holds(&rt, &site, ".u", 2, Some(nth(6)));
    holds(&rt, &site, ".u", 3, None);
    holds(&rt, &site, ".x", 0, None);
    stands(&rt, &site, ".t", nth(4), Some(3));
    stands(&rt, &site, ".u", nth(4), Some(0));
    stands(&rt, &site, ".u", nth(1), Some(0));
    stands(&rt, &site, ".u", nth(7), Some(3));
    stands(&rt, &site, ".t", nth(9), None);
    stands(&rt, &site, ".t", ROOT, None);
    stands(&rt, &site, ".x", nth(1), None);
}

// What comes back by an undo stands where the gone one's stamp tells, and has a stamp of its own.
#[test]
fn stamps_of_what_comes_back(rt: HostRuntime) {
    let alloc = rt.alloc();
    let site = new_site(&rt, alloc, 1, MOST_CELLS);
    let site = answered(&rt, alloc, site, &[], &[LINES, BACK], 4096);
    stands(&rt, &site, ".t", nth(4), Some(3));
    holds(&rt, &site, ".t", 3, Some(nth(10)));
    stands(&rt, &site, ".t", nth(10), Some(3));
    stands(&rt, &site, ".u", nth(10), Some(0));
}

// A stamp's place follows the text, also where its character is gone, and is the same on a site that received all.
#[test]
fn stamps_follow_the_text(rt: HostRuntime) {
    let alloc = rt.alloc();
    let site = new_site(&rt, alloc, 1, MOST_CELLS);
    let site = answered(&rt, alloc, site, &[], &[LINES, BEFORE], 4096);
    stands(&rt, &site, ".t", nth(1), Some(2));
    stands(&rt, &site, ".t", nth(4), Some(5));
    stands(&rt, &site, ".t", nth(5), Some(5));
    let bytes = site.export().expect(&rt, "memory");
    let mut other = new_site(&rt, alloc, 2, MOST_CELLS);
    if bytes.len() <= MOST_BYTES {
        same(&rt, other.receive(&bytes).fault, None);
    }
    stands(&rt, &other, ".t", nth(4), Some(5));
    let site = answered(&rt, alloc, site, &[], &[NOTHING], 4096);
    stands(&rt, &site, ".t", nth(4), Some(0));
    stands(&rt, &site, ".t", FINAL, Some(0));
}
