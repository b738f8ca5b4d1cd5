// Scripts about what moves in the widgets of a site, each on a new site, as lines with their replies.
use crate::sites::Scripts;

// What is selected in each of three widgets, and where their insertion cursors stand.
pub(crate) const SELECTIONS: Scripts = r#"
.t peer create .p -> = .p
.t peer create .q -> = .q
.t insert 1.0 ab -> =
.p tag add sel 1.0 1.2 -> =
.q tag add sel 1.0 1.1 -> =
.t insert 1.1 X -> =
.p tag ranges sel -> = 1.0 1.3
.q tag ranges sel -> = 1.0 1.1
.t tag ranges sel -> =
.t insert 1.1 Z sel -> =
.t get 1.0 end -> = "aZXb\n"
.p tag ranges sel -> = 1.0 1.1 1.2 1.4
.q tag ranges sel -> = 1.0 1.1
.t tag ranges sel -> = 1.1 1.2

.t peer create .p -> = .p
.t peer create .q -> = .q
.t insert 1.0 ab -> =
.p tag add sel 1.0 1.1 1.2 end -> =
.t tag add t 1.0 end -> =
.t tag add u 1.0 end -> =
.t tag add sel 1.2 end -> =
.t delete 1.1 end -> =
.t get 1.0 end -> = "a\n"
.t tag ranges t -> = 1.0 1.1
.t tag ranges u -> = 1.0 1.1
.t tag ranges sel -> =
.p tag ranges sel -> = 1.0 1.1
.q tag ranges sel -> =
.t tag names -> = sel t u

.t peer create .p -> = .p
.t peer create .q -> = .q
.t insert 1.0 abcdef -> =
.t index insert -> = 1.6
.p index insert -> = 1.6
.q index insert -> = 1.6
.t mark set insert 1.1 -> =
.p mark set insert 1.4 -> =
.t index insert -> = 1.1
.p index insert -> = 1.4
.q index insert -> = 1.6
.t insert 1.2 XY -> =
.t index insert -> = 1.1
.p index insert -> = 1.6
.q index insert -> = 1.8
.t delete 1.0 1.3 -> =
.t index insert -> = 1.0
.p index insert -> = 1.3
.q index insert -> = 1.5
.t replace 1.2 1.4 pqr -> =
.t index insert -> = 1.0
.p index insert -> = 1.5
.q index insert -> = 1.6

.t insert 1.0 abcdef -> =
.t tag add t 1.5 9.9 1.3 1.2 1.1 1.3 1.4 1.4 1.0 1.2 -> =
.t tag ranges t -> = 1.0 1.3 1.5 2.0
.t tag remove t 1.6 9.9 -> =
.t tag ranges t -> = 1.0 1.3 1.5 1.6
"#;

// The order of marks, beside the two own ones, and what gaps that become one hold.
pub(crate) const MARKS_IN_ORDER: Scripts = r#"
.t insert 1.0 abc -> =
.t mark set l 1.1 -> =
.t mark set r 1.1 -> =
.t mark gravity l left -> =
.t insert 1.1 XY -> =
.t index l -> = 1.1
.t index r -> = 1.3
.t delete 1.0 1.2 -> =
.t index l -> = 1.0
.t index r -> = 1.1

.t insert 1.0 01234567 -> =
.t mark set c 1.7 -> =
.t mark set b 1.3 -> =
.t mark set aa 1.3 -> =
.t mark set z 1.3 -> =
.t mark set a 1.3 -> =
.t mark set m 1.0 -> =
.t mark gravity z left -> =
.t mark gravity a left -> =
.t mark next m -> = a
.t mark previous a -> = m
.t mark next a -> = z
.t mark previous z -> = a
.t mark next z -> = aa
.t mark previous aa -> = z
.t mark next aa -> = b
.t mark previous b -> = aa
.t mark next b -> = c
.t mark previous c -> = b
.t mark previous m -> =
.t mark next 1.0 -> = m
.t mark previous end -> = insert
.t mark next 1.1 -> = a
.t mark previous 1.3 -> = m
.t mark previous 1.8 -> = c
.t mark next q -> ! 2 BadIndex
.t mark set insert 1.0 -> =
.t mark set current 1.0 -> =
.t mark gravity insert left -> =
.t mark gravity current left -> =
.t mark next c -> =
.t mark previous end -> = c
.t mark previous m -> = insert
.t mark next insert -> = m

.t insert 1.0 0123456789 -> =
.t mark set first 1.2 -> =
.t mark set second 1.4 -> =
.t mark set third 1.5 -> =
.t mark set behind 1.9 -> =
.t mark gravity third left -> =
.t delete 1.2 1.5 -> =
.t mark next 1.0 -> = third
.t mark next third -> = first
.t mark next first -> = second
.t index second -> = 1.2
.t index behind -> = 1.6

.t mark set "" 1.0 -> ! 14 BadName
.t mark set nnnnnnnnnnnnnnnnnnnnnnnnnnnnnnnnnnnnnnnnnnnnnnnnnnnnnnnnnnnnnnnnnnnnnnnnnnnnnnnnnnnnnnnnnnnnnnnnnnnnnnnnnnnnnnnnnnnnnnnnnnnnnnnnnnnnnnnnnnnnnnnnnnnnnnnnnnnnnnnnnnnnnnnnnnnnnnnnnnnnnnnnnnnnnnnnnnnnnnnnnnnnnnnnnnnnnnnnnnnnnnnnnnnnnnnnnnnnnnnnnnnnnnnnnnnnnnnn 1.0 -> ! 14 BadName
.t mark set nnnnnnnnnnnnnnnnnnnnnnnnnnnnnnnnnnnnnnnnnnnnnnnnnnnnnnnnnnnnnnnnnnnnnnnnnnnnnnnnnnnnnnnnnnnnnnnnnnnnnnnnnnnnnnnnnnnnnnnnnnnnnnnnnnnnnnnnnnnnnnnnnnnnnnnnnnnnnnnnnnnnnnnnnnnnnnnnnnnnnnnnnnnnnnnnnnnnnnnnnnnnnnnnnnnnnnnnnnnnnnnnnnnnnnnnnnnnnnnnnnnnnnnnnnnnnnn 1.0 -> =
.t mark unset nnnnnnnnnnnnnnnnnnnnnnnnnnnnnnnnnnnnnnnnnnnnnnnnnnnnnnnnnnnnnnnnnnnnnnnnnnnnnnnnnnnnnnnnnnnnnnnnnnnnnnnnnnnnnnnnnnnnnnnnnnnnnnnnnnnnnnnnnnnnnnnnnnnnnnnnnnnnnnnnnnnnnnnnnnnnnnnnnnnnnnnnnnnnnnnnnnnnnnnnnnnnnnnnnnnnnnnnnnnnnnnnnnnnnnnnnnnnnnnnnnnnnnnnnnnnnnn -> =
.t mark names -> = current insert
.t mark unset unknown -> =
.t mark gravity q left -> ! 8 NoMark
.t mark set q 1.0 -> =
.t mark gravity q -> = right
.t mark gravity q left -> =
.t mark set q end -> =
.t mark gravity q -> = left
.t mark set Q end -> =
.t mark names -> = Q current insert q
"#;

// Typing that is undone and redone with its tags; limits that follow a newline that comes back.
pub(crate) const TAGGED_UNDO: Scripts = r#"
.t configure -undo 1 -> =
.t insert 1.0 ab bold -> =
.t edit undo -> =
.t get 1.0 end -> = "\n"
.t index insert -> = 1.0
.t edit redo -> =
.t get 1.0 end -> = "ab\n"
.t index insert -> = 1.2
.t tag ranges bold -> = 1.0 1.2
.t edit undo -> =
.t get 1.0 end -> = "\n"

.t configure -undo 1 -> =
.t insert 1.0 "a\nb\nc\nd" -> =
.t peer create .p -startline 2 -endline 4 -> = .p
.t peer create .q -> = .q
.t configure -startline 2 -> =
.p index insert -> = 1.0
.q delete 1.1 -> =
.t cget -startline -> = 1
.p cget -startline -> = 1
.q edit undo -> =
.q get 1.0 end -> = "a\nb\nc\nd\n"
.t cget -startline -> = 2
.t cget -endline -> = ""
.p cget -startline -> = 2
.p cget -endline -> = 4
"#;

// Which characters go where ranges overlap, touch, come in any order, are empty or hold the last newline.
pub(crate) const REMOVALS: Scripts = r#"
.t insert 1.0 hello -> =
.t delete 1.1 1.2 1.0 1.4 1.2 1.3 1.3 1.5 -> =
.t get 1.0 end -> = "\n"

.t insert 1.0 hello -> =
.t delete 1.0 1.2 1.1 1.3 -> =
.t get 1.0 end -> = "lo\n"

.t insert 1.0 hello -> =
.t delete 1.2 1.3 1.0 1.2 -> =
.t get 1.0 end -> = "lo\n"

.t insert 1.0 hello -> =
.t delete 1.3 1.4 1.0 1.1 -> =
.t get 1.0 end -> = "elo\n"

.t insert 1.0 hello -> =
.t delete 1.4 1.1 1.2 1.2 2.0 9.9 -> =
.t get 1.0 end -> = "hello\n"

.t delete 1.0 2.0 -> =
.t get 1.0 end -> = "\n"

.t insert 1.0 hello -> =
.t delete 1.5 2.0 -> =
.t get 1.0 end -> = "hello\n"

.t insert 1.0 hello -> =
.t delete 1.3 9.9 -> =
.t get 1.0 end -> = "hel\n"

.t insert 1.0 "a\nbc" -> =
.t delete 1.0 3.0 -> =
.t get 1.0 end -> = "\n"

.t insert 1.0 "a\n" -> =
.t delete 2.0 3.0 -> =
.t get 1.0 end -> = "a\n"

.t insert 1.0 "a\nbc" -> =
.t delete 2.1 3.0 -> =
.t get 1.0 end -> = "a\nb\n"

.t insert 1.0 "a\nbc" -> =
.t delete 2.0 2.2 -> =
.t get 1.0 end -> = "a\n\n"

.t insert 1.0 "a\nbc" -> =
.t delete 2.0 3.0 -> =
.t get 1.0 end -> = "a\n"

.t insert 1.0 "a\nbc" -> =
.t delete 2.0 2.1 2.1 3.0 -> =
.t get 1.0 end -> = "a\n"

.t insert 1.0 "a\nbc" -> =
.t delete 1.1 2.0 2.0 3.0 -> =
.t get 1.0 end -> = "a\n"

.t insert 1.0 "a\nbc" -> =
.t delete 1.0 1.1 2.0 3.0 -> =
.t get 1.0 end -> = "\n"
"#;
