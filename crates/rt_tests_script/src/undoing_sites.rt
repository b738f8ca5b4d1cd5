// Undo at sites that receive files, and exchange theirs.
use crate::exchange::{
    Case, FIRST_THREE, Files, HOLDS_FIRST, ends_with, exchange, receive_all, session,
};
use crate::sites::Script;
use std::alloc::Global;
use std::process::Abort;

// What site 1 does first, what site 2 does upon that, what site 1 does then, which receives that on the
// way, and how site 2 receives that. Both show the text in the end.
#[derive(Clone, Copy)]
struct Undoing {
    first: Script,
    other: Script,
    one: Script,
    receives_one: Script,
    after: Script,
}

// Sites 1 and 2 exchange their files. Then both have the same log.
fn undo_among(rt: &impl Abort, alloc: Global, case: &Undoing) {
    let first = session(rt, alloc, 1, &[], &[case.first]);
    let begun: Files = &[("first", &first)];
    let other = session(rt, alloc, 2, begun, &[HOLDS_FIRST, case.other]);
    let files: Files = &[("other", &other)];
    let log = session(rt, alloc, 1, files, &[case.first, case.one, case.after]);
    let files: Files = &[("first", &first), ("one", &log)];
    let scripts = [HOLDS_FIRST, case.other, case.receives_one, case.after];
    ends_with(rt, alloc, 2, files, &scripts, &log);
}

const UNDO_BESIDE_A_RECEIVED_CHARACTER: Undoing = Undoing {
    first: "
.t configure -undo 1 -> =
.t insert 1.0 abc -> =
",
    other: ".t insert 1.1 X -> =",
    one: r#"
.t delete 1.1 -> =
receive other -> = 1 1
.t get 1.0 end -> = "aXc\n"
.t edit undo -> =
.t get 1.0 end -> = "aXbc\n"
.t edit undo -> =
.t get 1.0 end -> = "X\n"
.t edit undo -> ! 12 NothingToUndo
.t edit redo -> =
"#,
    receives_one: "receive one -> = 6 2",
    after: r#".t get 1.0 end -> = "aXbc\n""#,
};

const UNDO_OF_A_REMOVAL_AROUND_NEW_TEXT: Undoing = Undoing {
    first: "
.t configure -undo 1 -> =
.t insert 1.0 abcd t -> =
",
    other: ".t insert 1.2 YY u -> =",
    one: r#"
.t delete 1.1 1.3 -> =
receive other -> = 1 1
.t get 1.0 end -> = "aYYd\n"
.t edit undo -> =
"#,
    receives_one: "receive one -> = 3 2",
    after: r#"
.t get 1.0 end -> = "abYYcd\n"
.t tag ranges t -> = 1.0 1.2 1.4 1.6
.t tag ranges u -> = 1.2 1.4
"#,
};

const UNDO_OF_WHAT_ANOTHER_SITE_REMOVED: Undoing = Undoing {
    first: "
.t configure -undo 1 -> =
.t insert 1.0 abc -> =
",
    other: ".t delete 1.0 end -> =",
    one: r#"
receive other -> = 1 1
.t get 1.0 end -> = "\n"
.t edit undo -> =
.t edit canundo -> = 0
.t edit canredo -> = 1
.t edit redo -> =
.t edit canundo -> = 1
.t edit canredo -> = 0
"#,
    receives_one: "receive one -> = 0 2",
    after: r#".t get 1.0 end -> = "\n""#,
};

const REDO_OF_WHAT_WAS_LEFT: Undoing = Undoing {
    first: "
.t configure -undo 1 -> =
.t insert 1.0 abc -> =
",
    other: ".t delete 1.1 -> =",
    one: r#"
receive other -> = 1 1
.t edit undo -> =
.t get 1.0 end -> = "\n"
.t edit redo -> =
"#,
    receives_one: "receive one -> = 3 2",
    after: r#".t get 1.0 end -> = "ac\n""#,
};

const UNDONE_BESIDE_FILES: &[Undoing] = &[
    UNDO_BESIDE_A_RECEIVED_CHARACTER,
    UNDO_OF_A_REMOVAL_AROUND_NEW_TEXT,
    UNDO_OF_WHAT_ANOTHER_SITE_REMOVED,
    REDO_OF_WHAT_WAS_LEFT,
];

const UNDONE: Script = r#"
.t configure -undo 1 -> =
.t delete 1.1 -> =
.t edit undo -> =
.t get 1.0 end -> = "abc\n"
"#;

// One character that two sites removed and brought back is there twice.
const ONE_REMOVAL_UNDONE_AT_TWO_SITES: Case = Case {
    first: ".t insert 1.0 abc -> =",
    one: UNDONE,
    other: UNDONE,
    receives_one: "receive one -> = 2 1",
    receives_other: "receive other -> = 2 1",
    after: r#".t get 1.0 end -> = "abbc\n""#,
};

// What is received is never recorded, and forces the flag where it changes which characters are visible.
const RECEIVED: &[(u32, Script)] = &[
    (
        3,
        "
.t configure -undo 1 -> =
.t edit modified -> = 0
receive ab -> = 1 0
.t edit modified -> = 1
.t edit undo -> ! 12 NothingToUndo
.t edit modified 0 -> =
receive ab -> = 0 1
.t edit modified -> = 0
receive tagged -> = 1 1
.t tag ranges t -> = 1.0 1.1
.t edit modified -> = 0
",
    ),
    (
        3,
        r#"
.t configure -undo 1 -> =
receive ab -> = 1 0
.t delete 1.1 -> =
.t edit modified 0 -> =
receive second_gone -> = 1 1
.t edit modified -> = 0
.t edit undo -> =
.t get 1.0 end -> = "ab\n"
.t edit modified -> = 1
.t edit canredo -> = 1
receive y -> = 1 0
.t edit canredo -> = 1
.t edit redo -> =
.t get 1.0 end -> = "aY\n"
"#,
    ),
    (
        3,
        "
receive ab -> = 1 0
.t edit modified 0 -> =
receive second_gone -> = 1 1
.t edit modified -> = 1
",
    ),
    (
        1,
        r#"
.t configure -undo 1 -> =
.t insert 1.0 a -> =
.t delete 1.0 -> =
receive last -> = 1 0
.t edit undo -> ! 17 ClockSpent
.t get 1.0 end -> = "z\n"
.t edit canundo -> = 1
.t edit canredo -> = 0
"#,
    ),
];

#[test]
fn undo_beside_received_files(rt: HostRuntime) {
    let alloc = rt.alloc();
    for case in UNDONE_BESIDE_FILES {
        undo_among(&rt, alloc, case);
    }
    exchange(&rt, alloc, FIRST_THREE, &ONE_REMOVAL_UNDONE_AT_TWO_SITES);
    receive_all(&rt, alloc, RECEIVED);
}
