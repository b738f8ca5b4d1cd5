// Scripts about the lines that a widget shows, each on a new site, as lines with their replies.
use crate::sites::Scripts;

// Which lines are shown, and which numbers limits have, where newlines go and come back.
pub(crate) const SEEN: Scripts = r#"
.t insert 1.0 "a\nb\nc\nd" -> =
.t peer create .p -startline 2 -endline 4 -> = .p
.p get 1.0 end -> = "b\nc\n"
.p cget -startline -> = 2
.p cget -endline -> = 4
.t delete 2.1 3.1 -> =
.p get 1.0 end -> = "b\n"
.p cget -startline -> = 2
.p cget -endline -> = 3

.t insert 1.0 "a\nb\nc\nd" -> =
.t peer create .p -startline 2 -endline 4 -> = .p
.t delete 1.1 -> =
.p get 1.0 end -> = "ab\nc\n"
.p cget -startline -> = 1
.p cget -endline -> = 3

.t configure -undo 1 -> =
.t insert 1.0 "a\nb\nc\nd" -> =
.t peer create .p -startline 2 -endline 4 -> = .p
.t delete 1.1 -> =
.t edit undo -> =
.p get 1.0 end -> = "b\nc\n"
.p cget -startline -> = 2
.p cget -endline -> = 4

.t insert 1.0 "a\nb\nc\nd" -> =
.t peer create .p -startline 2 -endline 3 -> = .p
.p get 1.0 end -> = "b\n"
.t delete 1.1 2.0 2.1 3.0 -> =
.p get 1.0 end -> = "abc\n"
.p cget -startline -> = 1
.p cget -endline -> = 2

.t insert 1.0 "a\nb\nc\nd" -> =
.t peer create .p -startline 2 -endline 3 -> = .p
.t delete 1.0 end -> =
.p get 1.0 end -> = "\n"
.p cget -startline -> = 1
.p cget -endline -> = 2

.t configure -startline 2 -> ! 15 BadView
.t insert 1.0 "a\nb\nc\nd" -> =
.t get 1.0 end -> = "a\nb\nc\nd\n"
.t cget -startline -> = ""
.t cget -endline -> = ""

.t insert 1.0 "a\nb\nc\nd" -> =
.t configure -startline 0 -> ! 15 BadView
.t configure -startline 5 -> ! 15 BadView
.t configure -endline 1 -> ! 15 BadView
.t configure -endline 6 -> ! 15 BadView
.t configure -startline 2 -endline 2 -> ! 15 BadView
.t configure -startline 1 -endline 5 -> =
.t cget -startline -> = ""
.t cget -endline -> = ""
.t configure -startline 2 -> =
.t cget -startline -> = 2
.t cget -endline -> = ""
.t configure -endline 2 -> ! 15 BadView
.t configure -endline 3 -> =
.t cget -startline -> = 2
.t cget -endline -> = 3
.t configure -endline "" -> =
.t cget -startline -> = 2
.t cget -endline -> = ""
.t configure -endline 3 -> =
.t configure -startline "" -endline "" -> =
.t cget -startline -> = ""
.t cget -endline -> = ""
.t configure -startline 2 -endline 3 -> =
.t configure -undo 1 -> =
.t cget -startline -> = 2
.t cget -endline -> = 3
"#;

// Commands within the lines of a widget, beside another one that shows all of the text.
pub(crate) const WITHIN_LINES: Scripts = r#"
.t insert 1.0 "a\nb\nc\nd" -> =
.t peer create .p -startline 2 -endline 4 -> = .p
.p index end -> = 3.0
.p index 9.9 -> = 3.0
.p index 2.9 -> = 2.1
.p index "end-1c linestart" -> = 2.0
.p get 1.0 end -> = "b\nc\n"
.p get 1.1 2.1 -> = "\nc"
.p get end -> = ""
.p get end-1c -> = "\n"
.p count -lines -chars 1.0 end -> = 2 4

.t insert 1.0 "a\nb\nc\nd" -> =
.t peer create .p -startline 2 -endline 4 -> = .p
.p delete 2.0 end -> =
.t get 1.0 end -> = "a\nb\nd\n"
.p get 1.0 end -> = "b\n"
.p cget -startline -> = 2
.p cget -endline -> = 3
.p delete 1.0 end -> =
.t get 1.0 end -> = "a\n\nd\n"
.p get 1.0 end -> = "\n"

.t insert 1.0 "a\nb\nc\nd" -> =
.t peer create .p -startline 2 -endline 4 -> = .p
.t delete 1.1 2.0 -> =
.p get 1.0 end -> = "ab\nc\n"
.p cget -startline -> = 1
.p cget -endline -> = 3

.t insert 1.0 "a\nb\nc\nd" -> =
.t peer create .p -startline 2 -endline 4 -> = .p
.p insert end X -> =
.p insert 1.0 "Y\n" -> =
.t get 1.0 end -> = "a\nY\nb\ncX\nd\n"
.p get 1.0 end -> = "Y\nb\ncX\n"
.p replace 2.0 end Z -> =
.t get 1.0 end -> = "a\nYZ\nd\n"
.p replace 1.0 1.1 V -> =
.t get 1.0 end -> = "a\nVZ\nd\n"
.t insert 1.1 W -> =
.p get 1.0 end -> = "VZ\n"

.t insert 1.0 "a\nb\nc\nd" -> =
.t peer create .p -startline 2 -endline 4 -> = .p
.p index insert -> = 1.0
.p mark set insert end -> =
.p mark set current end -> =
.p index insert -> = 2.1
.p index current -> = 3.0
.t mark set before 1.0 -> =
.t mark set behind 4.0 -> =
.t mark set within 3.0 -> =
.p index before -> = 1.0
.p index behind -> = 3.0
.p index within -> = 2.0
.p mark set mine end -> =
.t index mine -> = 4.0

.t insert 1.0 "a\nb\nc\nd" -> =
.t peer create .p -startline 2 -endline 4 -> = .p
.t tag add bold 1.0 1.1 -> =
.p tag ranges bold -> =
.p index bold.first -> ! 3 NoneTagged
.p tag add bold 2.1 end -> =
.p tag ranges bold -> = 2.1 3.0
.p index bold.last -> = 3.0
.t tag ranges bold -> = 1.0 1.1 3.1 4.0
.p delete 2.0 end -> =
.p tag ranges bold -> =

.t insert 1.0 "a\nb\nc\nd" -> =
.t peer create .p -startline 2 -endline 4 -> = .p
.t tag add bold 1.0 end -> =
.p insert 1.0 X -> =
.p tag ranges bold -> = 1.1 3.0
.p insert 2.0 Y -> =
.p tag ranges bold -> = 1.1 3.0

.t insert 1.0 "a\nb\nc\nd" -> =
.t peer create .p -startline 2 -endline 4 -> = .p
.t tag add bold 1.0 end -> =
.t delete 1.1 2.0 -> =
.p insert 1.1 "X\n" bold Y -> =
.t get 1.0 end -> = "aX\nYb\nc\nd\n"
.p get 1.0 end -> = "Yb\nc\n"
.p tag ranges bold -> = 1.1 3.0
"#;
