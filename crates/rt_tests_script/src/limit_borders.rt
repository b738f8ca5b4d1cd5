// Widgets that show some lines, at the borders of these, and where other sites change the text.
use crate::exchange::{Files, session};
use crate::sites::{Script, Scripts, answer_all};
use std::alloc::Global;
use std::process::Abort;

const LIMIT_BORDERS: Scripts = r#"
.t insert 1.0 "a\nb\nc\nd" -> =
.t tag add t 1.0 end -> =
.t peer create .p -startline 2 -endline 3 -> = .p
.t delete 2.1 -> =
.p cget -endline -> = 3
.p insert 1.2 "X\n" t Y -> =
.t tag ranges t -> = 1.0 3.0 3.1 5.0
.p get 1.0 end -> = "bcX\n"
.p cget -endline -> = 3

.t insert 1.0 "a\nb\nc\nd" -> =
.t tag add t 1.0 end -> =
.t peer create .p -startline 2 -endline 3 -> = .p
.t delete 2.1 -> =
.p replace 1.1 1.2 "X\n" t Y -> =
.t tag ranges t -> = 1.0 5.0
.p get 1.0 end -> = "bX\nY\n"
.p cget -endline -> = 4

.t insert 1.0 "a\nb\nc\nd" -> =
.t tag add t 1.0 end -> =
.t peer create .p -startline 2 -endline 4 -> = .p
.t delete 1.1 -> =
.p replace 1.1 1.2 "X\n" t Y -> =
.t tag ranges t -> = 1.0 2.0 2.1 5.0
.p get 1.0 end -> = "Y\nc\n"
.p cget -startline -> = 2

.t insert 1.0 "a\nb\nc\nd" -> =
.t peer create .p -startline 2 -endline 4 -> = .p
.t tag add sel 1.0 end -> =
.p tag add sel 1.0 end -> =
.p delete 2.1 end -> =
.t tag ranges sel -> = 1.0 3.1 4.0 5.0
.p tag ranges sel -> = 1.0 2.1
.t get 1.0 end -> = "a\nb\nc\nd\n"

.t configure -undo 1 -> =
.t insert 1.0 "a\nb" -> =
.t peer create .p -startline 2 -> = .p
.t edit undo -> =
.p get 1.0 end -> = "\n"
.p cget -startline -> = 1
.t edit redo -> =
.p get 1.0 end -> = "b\n"
.p cget -startline -> = 2

.t insert 1.0 "a\nb\nc\nd" -> =
.t peer create .p -startline 2 -endline 4 -> = .p
.t mark set m 4.1 -> =
.p mark set insert 2.0 -> =
.t mark set insert 1.1 -> =
.p index insert -> = 2.0
.t index insert -> = 1.1
.p mark set current end -> =
.t index current -> = 4.1
.p index current -> = 3.0
.p index m -> = 3.0
.p delete 2.0 9.9 -> =
.t get 1.0 end -> = "a\nb\nd\n"
.p delete 1.0 end -> =
.t get 1.0 end -> = "a\n\nd\n"
.p insert end "x\ny" {} z u -> =
.t get 1.0 end -> = "a\nx\nyz\nd\n"
.p insert 1.0 S sel -> =
.p tag ranges sel -> = 1.0 1.1
.t tag ranges sel -> =

.t insert 1.0 ab -> =
.t tag add "" 1.0 -> ! 14 BadName
.t tag add {} 1.0 -> ! 14 BadName
"#;

// Four lines of a site that keeps its edits for undo.
const LINES: Script = r#"
.t configure -undo 1 -> =
.t insert 1.0 "a\nb\nc\nd" -> =
"#;
// It joins the first two.
const JOINED: Script = ".t delete 1.1 -> =";
// It parts them again, by a newline with another stamp.
const PARTED: Script = ".t edit undo -> =";
// It joins the last line shown and the one behind.
const JOINED_BELOW: Script = ".t delete 3.1 -> =";

const PARTED_BELOW: Script = ".t edit undo -> =";

// What a widget of another site shows of it, which has the second line and the third.
const SHOWN: Script = r#"
receive first -> = 1 0
.t peer create .p -startline 2 -endline 4 -> = .p
.p mark set insert end -> =
.p cget -startline -> = 2
.p cget -endline -> = 4
.p get 1.0 end -> = "b\nc\n"
.p index insert -> = 2.1
receive joined -> = 1 1
.p cget -startline -> = 1
.p cget -endline -> = 3
.p get 1.0 end -> = "ab\nc\n"
.p index insert -> = 2.1
receive parted -> = 1 2
.p cget -startline -> = 1
.p cget -endline -> = 4
.p get 1.0 end -> = "a\nb\nc\n"
.p index insert -> = 3.1
receive joined_below -> = 1 3
.p cget -startline -> = 1
.p cget -endline -> = 4
.p get 1.0 end -> = "a\nb\ncd\n"
.p index insert -> = 3.1
receive parted_below -> = 1 4
.p cget -startline -> = 1
.p cget -endline -> = 4
.p get 1.0 end -> = "a\nb\nc\n"
.p index insert -> = 3.1
"#;

#[test]
fn scripts_of_limit_borders(rt: HostRuntime) {
    let alloc = rt.alloc();
    answer_all(&rt, alloc, LIMIT_BORDERS);
    limits_of_received_text(&rt, alloc);
}

// The files of the other site, the one after each of its steps, are received in turn.
fn limits_of_received_text(rt: &impl Abort, alloc: Global) {
    let first = session(rt, alloc, 1, &[], &[LINES]);
    let joined = session(rt, alloc, 1, &[], &[LINES, JOINED]);
    let parted = session(rt, alloc, 1, &[], &[LINES, JOINED, PARTED]);
    let below = session(rt, alloc, 1, &[], &[LINES, JOINED, PARTED, JOINED_BELOW]);
    let steps = [LINES, JOINED, PARTED, JOINED_BELOW, PARTED_BELOW];
    let all = session(rt, alloc, 1, &[], &steps);
    let files: Files = &[
        ("first", &first),
        ("joined", &joined),
        ("parted", &parted),
        ("joined_below", &below),
        ("parted_below", &all),
    ];
    let _log = session(rt, alloc, 2, files, &[SHOWN]);
}
