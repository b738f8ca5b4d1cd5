// Sites that receive files, and exchange theirs.
ghost use Rattle.std.specs.Prelude.{◌≡◌, ◌≤◌, IfOk, OnOk};
ghost use Rattle.rt_script.specs.Site.{AreWithin};

use crate::arriving::{EARLY, MOVED};
use crate::checks::same;
use crate::samples::{
    FRONT, INSERT_BEFORE_LAST, INSERT_BY_ROOT, INSERT_KNOWN, INSERT_PAST_LAST, INSERT_Y_TAGGED,
    LEAVES_SEVEN, LEAVES_SIX, Q_BEFORE_Z, TAG_Y,
};
use crate::sites::{Script, answered, new_site};
use crate::spent::{SPENT, UNSOUND};
use rt_samples::files::{
    AFTER_DELETE, AFTER_ITSELF, CUT, DELETE_FINAL, DELETE_SECOND, INSERT_AB, INSERT_B, INSERT_LAST,
    INSERT_Y, INSERT_Z, SHORT_LENGTH, TAG_FIRST,
};
use rt_script::SiteState;
use rt_stamps::Fault;
use rt_stamps::limits::{MOST_BYTES, MOST_CELLS};
use std::alloc::Global;
use std::process::Abort;

/// Files, each with its name.
pub(crate) type Files<'a> = &'a [(&'a str, &'a [u8])];

// Adds a file.
fn add_file(
    alloc: Global,
    files: &mut Vec<(String, Vec<u8>)>,
    name: &str,
    bytes: &[u8],
) -> Result<(), Fault>
    requires { AreWithin files.old.items }
    ensures { OnOk result (AreWithin files.new.items) }
{
    if bytes.len() > MOST_BYTES {
        return Err(Fault::ReadFault);
    }
    let name = String::from_str(alloc, name)?;
    let bytes = Vec::from_slice(alloc, bytes)?;
    files.push((name, bytes))?;
    Ok(())
}

// Files as they are handed in.
fn given(alloc: Global, files: Files) -> Result<Vec<(String, Vec<u8>)>, Fault>
    ensures { IfOk result (λ files. AreWithin files.items) }
{
    let mut given = Vec::new(alloc);
    for file in files {
        let (name, bytes) = *file;
        add_file(alloc, &mut given, name, bytes)?;
    }
    Ok(given)
}

/// Runs scripts, one behind the other, on a site that may receive files, looks at the replies, and gives the site back.
pub(crate) fn on_site(
    rt: &impl Abort,
    alloc: Global,
    state: SiteState,
    files: Files,
    scripts: &[&str],
) -> SiteState {
    match given(alloc, files) {
        Ok(files) => answered(rt, alloc, state, &files, scripts, 4096),
        Err(fault) => panic!(rt; "{fault}"),
    }
}

/// Does that on a new site of a number that has at most so many cells.
pub(crate) fn at_site(
    rt: &impl Abort,
    alloc: Global,
    number: u32,
    limit: usize,
    files: Files,
    scripts: &[&str],
) -> SiteState
    requires { (1 ≤ limit) × (limit ≤ MOST_CELLS) }
{
    let state = new_site(rt, alloc, number, limit);
    on_site(rt, alloc, state, files, scripts)
}

/// The file of the log that such a site has then.
pub(crate) fn session(
    rt: &impl Abort,
    alloc: Global,
    number: u32,
    files: Files,
    scripts: &[&str],
) -> Vec<u8> {
    let site = at_site(rt, alloc, number, MOST_CELLS, files, scripts);
    site.export().expect(rt, "memory")
}

/// Stops a test where it is another file.
pub(crate) fn ends_with(
    rt: &impl Abort,
    alloc: Global,
    number: u32,
    files: Files,
    scripts: &[&str],
    log: &[u8],
) {
    let found = session(rt, alloc, number, files, scripts);
    same(rt, found.as_slice(), log);
}

/// The samples, by the names that scripts know them by.
pub(crate) const SAMPLES: Files<'static> = &[
    ("ab", INSERT_AB),
    ("ab", INSERT_B),
    ("second_gone", DELETE_SECOND),
    ("cut", CUT),
    ("y", INSERT_Y),
    ("z", INSERT_Z),
    ("last", INSERT_LAST),
    ("b", INSERT_B),
    ("after_itself", AFTER_ITSELF),
    ("final_gone", DELETE_FINAL),
    ("short", SHORT_LENGTH),
    ("tagged", TAG_FIRST),
    ("after_deletion", AFTER_DELETE),
    ("empty", b""),
    ("magic", b"XGATEXT1"),
    ("version", b"RGATEXT9"),
    ("front", FRONT),
    ("before_last", INSERT_BEFORE_LAST),
    ("past_last", INSERT_PAST_LAST),
    ("known", INSERT_KNOWN),
    ("by_root", INSERT_BY_ROOT),
    ("leaves_six", LEAVES_SIX),
    ("leaves_seven", LEAVES_SEVEN),
    ("y_tagged", INSERT_Y_TAGGED),
    ("tag_y", TAG_Y),
    ("q", Q_BEFORE_Z),
];

/// Runs each script of a table on a new site of a number that may receive each of the samples.
pub(crate) fn receive_all(rt: &impl Abort, alloc: Global, table: &[(u32, Script)]) {
    for (number, script) in table {
        let _log = session(rt, alloc, *number, SAMPLES, &[*script]);
    }
}

/// What two sites do that hold what the first of them did first, what either is answered to the file of the other,
/// and what both say then.
#[derive(Clone, Copy)]
pub(crate) struct Case {
    pub(crate) first: Script,
    pub(crate) one: Script,
    pub(crate) other: Script,
    pub(crate) receives_one: Script,
    pub(crate) receives_other: Script,
    pub(crate) after: Script,
}

/// The first file is received.
pub(crate) const HOLDS_FIRST: Script = "receive first -> = 1 0";

/// The numbers of the two sites of a case, and of a third one.
pub(crate) type Numbers = (u32, u32, u32);

/// Sites 1, 2 and 3.
pub(crate) const FIRST_THREE: Numbers = (1, 2, 3);

/// Two sites exchange their files, and a third one receives them in either order. Then all have the same log.
pub(crate) fn exchange(rt: &impl Abort, alloc: Global, numbers: Numbers, case: &Case) {
    let (number, other_number, _) = numbers;
    let first = session(rt, alloc, number, &[], &[case.first]);
    let one = session(rt, alloc, number, &[], &[case.first, case.one]);
    let begun: Files = &[("first", &first)];
    let other = session(rt, alloc, other_number, begun, &[HOLDS_FIRST, case.other]);
    let files: Files = &[("first", &first), ("one", &one), ("other", &other)];
    agree(rt, alloc, numbers, case, files);
}

// The sites of a case have the same log once each has received the file of the other.
fn agree(rt: &impl Abort, alloc: Global, numbers: Numbers, case: &Case, files: Files) {
    let (number, other_number, third) = numbers;
    let (one, other) = (case.receives_one, case.receives_other);
    let at_one = [case.first, case.one, other, case.after];
    let log = session(rt, alloc, number, files, &at_one);
    let at_two = [HOLDS_FIRST, case.other, one, case.after];
    ends_with(rt, alloc, other_number, files, &at_two, &log);
    let in_order = [HOLDS_FIRST, one, other, case.after];
    ends_with(rt, alloc, third, files, &in_order, &log);
    let in_turn = [HOLDS_FIRST, other, one, case.after];
    ends_with(rt, alloc, third, files, &in_turn, &log);
}

const LATER_TEXT_GOES_BEFORE: Case = Case {
    first: ".t insert 1.0 ab -> =",
    one: ".t insert 1.1 XX -> =",
    other: ".t insert 1.1 Y -> =",
    receives_one: "
receive one -> = 1 1
receive one -> = 0 2
",
    receives_other: "
receive other -> = 1 1
receive other -> = 0 2
",
    after: r#".t get 1.0 end -> = "aYXXb\n""#,
};

const REMOVED_BESIDE_NEW: Case = Case {
    first: ".t insert 1.0 ab -> =",
    one: ".t delete 1.1 -> =",
    other: ".t insert 1.2 Z -> =",
    receives_one: "
receive one -> = 1 1
receive one -> = 0 2
",
    receives_other: "
receive other -> = 1 1
receive other -> = 0 2
",
    after: r#".t get 1.0 end -> = "aZ\n""#,
};

const THE_GREATEST_TAG_OPERATION_DECIDES: Case = Case {
    first: ".t insert 1.0 ab t -> =",
    one: "
.t tag remove t 1.0 -> =
.t tag add t 1.0 -> =
",
    other: "
.t tag names -> = sel t
.t tag ranges t -> = 1.0 1.2
.t tag remove t 1.0 -> =
",
    receives_one: "
receive one -> = 2 1
receive one -> = 0 3
",
    receives_other: "
receive other -> = 1 1
receive other -> = 0 2
",
    after: "
.t tag ranges t -> = 1.0 1.2
.t tag names -> = sel t
",
};

const A_LATER_REMOVAL_OF_A_TAG: Case = Case {
    first: ".t insert 1.0 ab t -> =",
    one: "
.t tag remove t 1.0 -> =
.t tag add t 1.0 -> =
",
    other: "
.t insert end q -> =
.t tag remove t 1.0 -> =
",
    receives_one: "
receive one -> = 2 1
receive one -> = 0 3
",
    receives_other: "
receive other -> = 2 1
receive other -> = 0 3
",
    after: r#"
.t tag ranges t -> = 1.1 1.2
.t get 1.0 end -> = "abq\n"
"#,
};

// Operations of each kind, on one tag and another.
const EACH_KIND: Case = Case {
    first: ".t insert 1.0 ab t -> =",
    one: "
.t insert 1.2 c -> =
.t tag add u 1.0 1.3 -> =
.t tag remove t 1.0 -> =
.t delete 1.1 -> =
",
    other: "",
    receives_one: "
receive one -> = 4 1
receive one -> = 0 5
",
    receives_other: "receive other -> = 0 1",
    after: r#"
.t get 1.0 end -> = "ac\n"
.t tag ranges t -> =
.t tag ranges u -> = 1.0 1.2
"#,
};

/// Cases of each kind of operation.
pub(crate) const EXCHANGED: &[Case] = &[
    EACH_KIND,
    LATER_TEXT_GOES_BEFORE,
    REMOVED_BESIDE_NEW,
    THE_GREATEST_TAG_OPERATION_DECIDES,
    A_LATER_REMOVAL_OF_A_TAG,
];

const RECEIVED: &[(u32, Script)] = &[
    (
        2,
        r#"
receive ab -> = 1 0
receive ab -> = 0 1
.t get 1.0 end -> = "ab\n"
receive front -> ! 32 Truncated at 8 new 0 repeat 0
"#,
    ),
    (
        1,
        r#"
receive cut -> ! 32 Truncated at 44 new 1 repeat 0
.t get 1.0 end -> = "ab\n"
receive cut -> ! 32 Truncated at 44 new 0 repeat 1
receive second_gone -> = 1 1
.t get 1.0 end -> = "a\n"
"#,
    ),
    (
        3,
        r#"
receive y -> = 0 0 1
.t get 1.0 end -> = "\n"
receive y -> = 0 1 1
receive cut -> ! 32 Truncated at 44 new 2 repeat 0
receive y -> = 0 1
.t get 1.0 end -> = "aYb\n"
"#,
    ),
    (
        3,
        r#"
receive y -> = 0 0 1
receive z -> = 0 0 2
receive front -> ! 32 Truncated at 8 new 0 repeat 0 held 2
receive ab -> = 2 0
.t get 1.0 end -> = "aYb\n"
receive z -> ! 35 Conflict at 8 new 0 repeat 0
"#,
    ),
    (
        1,
        r#"
receive y -> = 0 0 1
receive z -> = 0 0 2
.t insert 1.0 ab -> =
.t get 1.0 end -> = "aYb\n"
.t index insert -> = 1.3
receive z -> ! 35 Conflict at 8 new 0 repeat 0
receive y -> = 0 1
"#,
    ),
    (
        1,
        r#"
receive last -> = 1 0
.t insert end a -> ! 17 ClockSpent
.t get 1.0 end -> = "z\n"
"#,
    ),
    (
        1,
        r#"
receive second_gone -> = 2 0
receive after_deletion -> ! 37 BadTarget at 8 new 0 repeat 0
receive second_gone -> = 0 2
.t get 1.0 end -> = "a\n"
"#,
    ),
];

const REFUSED: &[(u32, Script)] = &[
    (
        1,
        r#"
receive empty -> ! 32 Truncated at 0 new 0 repeat 0
receive magic -> ! 30 BadMagic at 0 new 0 repeat 0
receive version -> ! 31 BadVersion at 0 new 0 repeat 0
receive after_itself -> ! 34 BadStamp at 8 new 0 repeat 0
receive final_gone -> ! 37 BadTarget at 8 new 0 repeat 0
receive short -> ! 33 BadRecord at 8 new 0 repeat 0
.t get 1.0 end -> = "\n"
receive ab -> = 1 0
receive b -> ! 35 Conflict at 8 new 0 repeat 0
.t get 1.0 end -> = "ab\n"
"#,
    ),
    (
        1,
        r#"
receive none -> ! 20 NoFile
receive -> ! 4 BadCommand
receive ab b -> ! 4 BadCommand
receive none b -> ! 4 BadCommand
receive AB -> ! 20 NoFile
receive "" -> ! 20 NoFile
.t get 1.0 end -> = "\n"
"#,
    ),
];

// What a site does, and the file of its log.
const LOGS: &[(&[Script], &[u8])] = &[
    (&[".t insert 1.0 ab -> ="], INSERT_AB),
    (
        &[".t insert 1.0 ab -> =", ".t delete 1.1 -> ="],
        DELETE_SECOND,
    ),
    (&[], b"RGATEXT1"),
];

#[test]
fn files_are_received(rt: HostRuntime) {
    let alloc = rt.alloc();
    receive_all(&rt, alloc, RECEIVED);
    receive_all(&rt, alloc, EARLY);
    receive_all(&rt, alloc, REFUSED);
    receive_all(&rt, alloc, MOVED);
    receive_all(&rt, alloc, SPENT);
    receive_all(&rt, alloc, UNSOUND);
}

#[test]
fn files_are_exchanged(rt: HostRuntime) {
    let alloc = rt.alloc();
    for case in EXCHANGED {
        exchange(&rt, alloc, FIRST_THREE, case);
    }
    for (scripts, log) in LOGS {
        ends_with(&rt, alloc, 1, &[], *scripts, *log);
    }
}

// The file of a site that typed 65,536 times `x`: up to the characters of its first Insert, which
// are 65,535, and what follows them.
const BEFORE_LONG: &[u8] =
    b"RGATEXT1\0\x01\0\x1d\x01\0\0\0\0\0\0\0\x01\0\x01\0\0\0\0\0\0\0\0\0\0\0\0\0\0\0\0\0\0\0";

const AFTER_LONG: &[u8] =
    b"\0\0\0\x1f\x01\0\0\0\0\0\x01\0\0\0\x01\0\0\0\0\0\0\xff\xff\0\0\0\0\0\0\xff\xff\0\x01\0x";

// The file.
fn long_file(rt: &impl Abort, alloc: Global) -> Vec<u8> {
    let mut file = Vec::from_slice(alloc, BEFORE_LONG).expect(rt, "memory");
    let end = file.len().saturating_add(65_535);
    file.resize(end, b'x').expect(rt, "memory");
    file.extend_from_slice(AFTER_LONG).expect(rt, "memory");
    file
}

// What a second site is answered that receives it.
const RECEIVES_LONG: Script = "
receive long -> = 2 0
.t index 1.end -> = 1.65536
.t get 1.65535 1.end -> = x
receive long -> = 0 2
";

#[test]
fn a_text_of_two_operations(rt: HostRuntime) {
    let alloc = rt.alloc();
    let file = long_file(&rt, alloc);
    same(&rt, file.len(), 65_612);
    let text = "x".repeat(alloc, 65_536).expect(&rt, "memory");
    let typed = format!(in alloc; ".t insert 1.0 {text} -> =").expect(&rt, "memory");
    ends_with(&rt, alloc, 1, &[], &[typed.as_str()], &file);
    ends_with(&rt, alloc, 2, &[("long", &file)], &[RECEIVES_LONG], &file);
}
