// Scripts of one site, as lines with their replies.
ghost use Rattle.std.specs.Prelude.{◌≡◌, ◌<◌, ◌≤◌};
ghost use Rattle.rt_script.specs.Site.{AreWithin};

use crate::checks::same;
use crate::commands::{BAD_COMMANDS, BAD_OPTIONS, COMMANDS, MARKS_AND_TAGS, SEARCHES_AND_DUMPS};
use crate::expressions::{BASES, MODIFIERS, NO_PLACES};
use crate::found::{FOUND, SEARCH_WORDS};
use crate::limits::{
    LIMIT_OPTIONS, LIMITED_MARKS, LIMITED_SEARCHES, LIMITED_TAGS, LIMITED_TEXT, MOVING_LIMITS,
};
use crate::marks::{INDICES, MARK_ORDER, MARK_PLACES, MARK_WORDS};
use crate::options::{LIMIT_WORDS, MAX_UNDO, MAX_UNDO_WORDS, OPTIONS, PEER_WORDS};
use crate::peers::{OWN_PARTS, PEER_COMMANDS, PEERS, SHARED_PARTS};
use crate::replacements::{DUMPS, FULL_SITE, REPLACEMENTS};
use crate::searches::SEARCHES;
use crate::seen::{SEEN, WITHIN_LINES};
use crate::tags::{TAG_COMMANDS, TAG_REFUSALS, TAG_WRITES, TAGGED_TEXT};
use crate::texts::{DELETIONS, RANGES, TEXTS};
use crate::undoing::{COMING_BACK, FLAGS, GROUPING, UNDOING, UNDOING_FULL};
use crate::widgets::{MARKS_IN_ORDER, REMOVALS, SELECTIONS, TAGGED_UNDO};
use rt_samples::Pieces;
use rt_script::{Ended, Received, SiteState, run};
use rt_stamps::Site;
use rt_stamps::limits::{MOST_BYTES, MOST_CELLS};
use rt_stamps::std_ends::{Count, Reader, Writer};
use std::alloc::Global;
use std::marker::Brand;
use std::process::Abort;
use std::sync::ledger::{Blank, Ledger};

/// A script: rows of a line and its reply line, as `.t index end -> = 2.0`.
pub(crate) type Script = &'static str;

/// Scripts, with an empty line between two.
pub(crate) type Scripts = &'static str;

// What is run: a script, on a site that may receive files.
#[derive(Drop)]
struct SiteScript<'a> {
    state: SiteState,
    files: &'a [(String, Vec<u8>)],
    script: Pieces<'a>,
}

// The reply lines of a run, and how it ended.
fn output<A: Ledger, B: Ledger, C: Ledger, D: Ledger>(
    alloc: Global,
    given: SiteScript<'_>,
    reads: Blank,
    failed_reads: Blank,
    writes: Blank,
    failed_writes: Blank,
) -> (Vec<u8>, Ended<SiteState>)
    requires files { AreWithin given.files.now }
    requires reads { (reads.name ≡ A.name) × (reads.parts ≡ A.parts) × (0 < A.parts) }
    requires failed_reads { (failed_reads.name ≡ B.name) × (failed_reads.parts ≡ B.parts) × (0 < B.parts) }
    requires writes { (writes.name ≡ C.name) × (writes.parts ≡ C.parts) × (0 < C.parts) }
    requires failed_writes { (failed_writes.name ≡ D.name) × (failed_writes.parts ≡ D.parts) × (0 < D.parts) }
{
    let SiteScript {
        state,
        files,
        script,
    } = given;
    let mut script = Reader::new(
        script,
        Count::<A>::begin(reads),
        Count::<B>::begin(failed_reads),
    );
    let mut out = Writer::new(
        Vec::new(alloc),
        Count::<C>::begin(writes),
        Count::<D>::begin(failed_writes),
    );
    let ended = run(alloc, state, &mut script, files, &mut out);
    (out.into_inner(), ended)
}

fn run_of(alloc: Global, given: SiteScript<'_>) -> (Vec<u8>, Ended<SiteState>)
    requires { AreWithin given.files.now }
{
    output::<Brand, Brand, Brand, Brand>(
        alloc,
        given,
        Blank::new(1),
        Blank::new(1),
        Blank::new(1),
        Blank::new(1),
    )
}

/// A new site of a number, with at most so many cells.
pub(crate) fn new_site(rt: &impl Abort, alloc: Global, number: u32, limit: usize) -> SiteState
    requires { (1 ≤ limit) × (limit ≤ MOST_CELLS) }
{
    let site = Site::new(number).expect(rt, "a number of a site");
    SiteState::new(alloc, site, limit).expect(rt, "memory")
}

/// What becomes of a file that a site receives.
pub(crate) fn receive(rt: &impl Abort, site: &mut SiteState, file: &[u8]) -> Received {
    assert!(rt; file.len() <= MOST_BYTES);
    site.receive(file)
}

// Adds a line and its end.
fn add_line(rt: &impl Abort, lines: &mut String, line: &str) {
    lines.push_str(line).expect(rt, "memory");
    lines.push('\n').expect(rt, "memory");
}

/// Adds the lines of rows to some, and the reply lines to others. Rows may stand between empty lines.
pub(crate) fn add_rows(rt: &impl Abort, rows: &str, lines: &mut String, replies: &mut String) {
    for row in rows.lines() {
        if !row.is_empty() {
            let (line, reply) = row.split_once(" -> ").expect(rt, row);
            add_line(rt, lines, line);
            add_line(rt, replies, reply);
        }
    }
}

// Runs lines on a site that may receive files, in pieces of a size, looks at its reply lines, and gives the site back.
fn gives(
    rt: &impl Abort,
    alloc: Global,
    state: SiteState,
    files: &[(String, Vec<u8>)],
    lines: &str,
    replies: &str,
    size: usize,
) -> SiteState
    requires { AreWithin files.now }
{
    let script = Pieces {
        bytes: lines.as_bytes(),
        size,
        until_failure: None,
    };
    let given = SiteScript {
        state,
        files,
        script,
    };
    let (text, ended) = run_of(alloc, given);
    assert_eq!(rt; text.as_slice(), replies.as_bytes(), "{lines}");
    same(rt, ended.fault, None);
    ended.site
}

/// Runs scripts, one behind the other, on a site that may receive files, in pieces of a size, looks at its
/// replies, and gives the site back. In pieces of one byte the last line has no newline.
pub(crate) fn answered(
    rt: &impl Abort,
    alloc: Global,
    state: SiteState,
    files: &[(String, Vec<u8>)],
    scripts: &[&str],
    size: usize,
) -> SiteState
    requires { AreWithin files.now }
{
    let rows = scripts.join(alloc, "\n").expect(rt, "memory");
    let mut lines = String::new(alloc);
    let mut replies = String::new(alloc);
    add_rows(rt, rows.as_str(), &mut lines, &mut replies);
    let text = if size > 1 {
        lines.as_str()
    } else {
        lines.trim_end()
    };
    gives(rt, alloc, state, files, text, replies.as_str(), size)
}

const SIZES: &[usize] = &[1, 3, 4096];

/// Runs each of some scripts on a new site, in pieces of three sizes.
pub(crate) fn answer_all(rt: &impl Abort, alloc: Global, scripts: &str) {
    for script in scripts.split("\n\n") {
        for size in SIZES {
            let state = new_site(rt, alloc, 1, MOST_CELLS);
            let _site = answered(rt, alloc, state, &[], &[script], *size);
        }
    }
}

#[test]
fn scripts_of_one_widget(rt: HostRuntime) {
    let alloc = rt.alloc();
    answer_all(&rt, alloc, TEXTS);
    answer_all(&rt, alloc, DELETIONS);
    answer_all(&rt, alloc, RANGES);
    answer_all(&rt, alloc, REPLACEMENTS);
    answer_all(&rt, alloc, DUMPS);
    answer_all(&rt, alloc, SEARCHES);
    answer_all(&rt, alloc, FOUND);
    answer_all(&rt, alloc, SEARCH_WORDS);
    answer_all(&rt, alloc, INDICES);
    answer_all(&rt, alloc, MARK_WORDS);
    answer_all(&rt, alloc, MARK_ORDER);
    answer_all(&rt, alloc, MARK_PLACES);
    answer_all(&rt, alloc, BASES);
    answer_all(&rt, alloc, MODIFIERS);
    answer_all(&rt, alloc, NO_PLACES);
    answer_all(&rt, alloc, TAG_REFUSALS);
    answer_all(&rt, alloc, TAG_COMMANDS);
    answer_all(&rt, alloc, TAG_WRITES);
    answer_all(&rt, alloc, TAGGED_TEXT);
    answer_all(&rt, alloc, UNDOING);
    answer_all(&rt, alloc, COMING_BACK);
    answer_all(&rt, alloc, GROUPING);
    answer_all(&rt, alloc, FLAGS);
    answer_all(&rt, alloc, MAX_UNDO);
}

#[test]
fn scripts_of_words_and_widgets(rt: HostRuntime) {
    let alloc = rt.alloc();
    answer_all(&rt, alloc, COMMANDS);
    answer_all(&rt, alloc, SEARCHES_AND_DUMPS);
    answer_all(&rt, alloc, MARKS_AND_TAGS);
    answer_all(&rt, alloc, BAD_COMMANDS);
    answer_all(&rt, alloc, BAD_OPTIONS);
    answer_all(&rt, alloc, OPTIONS);
    answer_all(&rt, alloc, PEER_WORDS);
    answer_all(&rt, alloc, LIMIT_WORDS);
    answer_all(&rt, alloc, MAX_UNDO_WORDS);
    answer_all(&rt, alloc, SELECTIONS);
    answer_all(&rt, alloc, MARKS_IN_ORDER);
    answer_all(&rt, alloc, TAGGED_UNDO);
    answer_all(&rt, alloc, REMOVALS);
    answer_all(&rt, alloc, PEERS);
    answer_all(&rt, alloc, PEER_COMMANDS);
    answer_all(&rt, alloc, OWN_PARTS);
    answer_all(&rt, alloc, SHARED_PARTS);
    answer_all(&rt, alloc, LIMIT_OPTIONS);
    answer_all(&rt, alloc, MOVING_LIMITS);
    answer_all(&rt, alloc, SEEN);
    answer_all(&rt, alloc, LIMITED_TEXT);
    answer_all(&rt, alloc, WITHIN_LINES);
    answer_all(&rt, alloc, LIMITED_SEARCHES);
    answer_all(&rt, alloc, LIMITED_TAGS);
    answer_all(&rt, alloc, LIMITED_MARKS);
}

const FULL: Script = r#"
.t insert 1.0 abc -> ! 18 TextFull
.t insert 1.0 ab -> =
.t insert 1.0 c -> ! 18 TextFull
.t insert 1.0 ab -> ! 18 TextFull
.t insert 1.0 x -> ! 18 TextFull
.t get 1.0 end -> = "ab\n"
"#;

#[test]
fn full_sites(rt: HostRuntime) {
    let alloc = rt.alloc();
    let state = new_site(&rt, alloc, 1, 4);
    let _site = answered(&rt, alloc, state, &[], &[FULL_SITE], 4096);
    let state = new_site(&rt, alloc, 1, 5);
    let _site = answered(&rt, alloc, state, &[], &[UNDOING_FULL], 4096);
    let state = new_site(&rt, alloc, 1, 3);
    let _site = answered(&rt, alloc, state, &[], &[FULL], 7);
}
