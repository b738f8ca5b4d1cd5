// Sites that begin with a log: operations of it that come early are held, which is no fault.
ghost use Rattle.std.specs.Prelude.{◌≡◌, ◌≤◌};

use crate::checks::same;
use crate::exchange::{SAMPLES, on_site};
use crate::samples::{AB_AND_LATE_Z, AB_Q_Z, INSERT_BOTH, Y_AND_CUT};
use crate::sites::Script;
use rt_samples::files::{AFTER_ITSELF, CUT, DELETE_FINAL, DELETE_SECOND, INSERT_AB, INSERT_Y};
use rt_script::{SiteState, begun};
use rt_stamps::limits::MOST_BYTES;
use rt_stamps::{Fault, Site};
use std::alloc::Global;
use std::process::Abort;

// A site of a number that begins with a log, or why it doesn't.
fn begins(
    rt: &impl Abort,
    alloc: Global,
    number: u32,
    log: &[u8],
) -> Result<SiteState, (Fault, u64)> {
    let site = Site::new(number).expect(rt, "a number of a site");
    assert!(rt; log.len() <= MOST_BYTES);
    begun(alloc, site, Some(log))
}

/// A site's number and the log that it begins with; what its log is then; what it does, and what its log is at the end.
#[derive(Clone, Copy)]
struct Begin {
    number: u32,
    log: &'static [u8],
    begun: &'static [u8],
    script: Script,
    ended: &'static [u8],
}

const NOTHING: &[u8] = b"RGATEXT1";

// All is held; then another site's operation comes, or an own command makes what it waits for.
const ALL_IS_HELD: Begin = Begin {
    number: 3,
    log: INSERT_Y,
    begun: NOTHING,
    script: r#"
.t get 1.0 end -> = "\n"
.t edit modified -> = 0
receive y -> = 0 1 1
receive ab -> = 2 0
receive y -> = 0 1
.t get 1.0 end -> = "aYb\n"
.t edit modified -> = 1
"#,
    ended: INSERT_BOTH,
};

const A_COMMAND_TAKES_IT: Begin = Begin {
    number: 1,
    log: INSERT_Y,
    begun: NOTHING,
    script: r#"
.t insert 1.0 ab -> =
.t get 1.0 end -> = "aYb\n"
.t index insert -> = 1.3
"#,
    ended: INSERT_BOTH,
};

// What is still held at the end isn't in the log.
const IT_STAYS: Begin = Begin {
    number: 9,
    log: AB_AND_LATE_Z,
    begun: INSERT_AB,
    script: r#"
.t get 1.0 end -> = "ab\n"
receive ab -> = 0 1 1
receive second_gone -> = 1 1 1
.t get 1.0 end -> = "a\n"
"#,
    ended: DELETE_SECOND,
};

// What it waits for comes.
const IT_COMES: Begin = Begin {
    number: 9,
    log: AB_AND_LATE_Z,
    begun: INSERT_AB,
    script: r#"
receive q -> = 2 0
receive q -> = 0 1
.t get 1.0 end -> = "qazb\n"
"#,
    ended: AB_Q_Z,
};

const BEGUN: &[Begin] = &[ALL_IS_HELD, A_COMMAND_TAKES_IT, IT_STAYS, IT_COMES];

fn has_log(rt: &impl Abort, site: &SiteState, wanted: &[u8]) {
    let log = site.export().expect(rt, "memory");
    same(rt, log.as_slice(), wanted);
}

// A site begins, and does what its row says.
fn goes_on(rt: &impl Abort, alloc: Global, row: &Begin) {
    match begins(rt, alloc, row.number, row.log) {
        Ok(site) => {
            has_log(rt, &site, row.begun);
            let site = on_site(rt, alloc, site, SAMPLES, &[row.script]);
            has_log(rt, &site, row.ended);
        }
        Err((fault, offset)) => panic!(rt; "{fault} at {offset}"),
    }
}

#[test]
fn logs_of_what_comes_early(rt: HostRuntime) {
    let alloc = rt.alloc();
    for row in BEGUN {
        goes_on(&rt, alloc, row);
    }
}

// Logs at fault, one of them behind an operation that comes early.
const AT_FAULT: &[(&[u8], Fault, u64)] = &[
    (b"", Fault::Truncated, 0),
    (CUT, Fault::Truncated, 44),
    (Y_AND_CUT, Fault::Truncated, 43),
    (AFTER_ITSELF, Fault::BadStamp, 8),
    (DELETE_FINAL, Fault::BadTarget, 8),
];

#[test]
fn logs_at_fault(rt: HostRuntime) {
    let alloc = rt.alloc();
    for (log, fault, offset) in AT_FAULT {
        let begun = begins(&rt, alloc, 1, *log);
        same(&rt, begun.err(), Some((*fault, *offset)));
    }
}
