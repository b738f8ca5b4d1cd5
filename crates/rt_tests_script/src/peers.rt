// Scripts about the widgets of one site, each on a new site, as lines with their replies.
use crate::sites::Scripts;

// Widgets that are made and named, and why not.
pub(crate) const PEERS: Scripts = r#"
.t peer names -> =
.t peer create .t -> ! 6 WidgetExists
.t peer create x -> ! 14 BadName
.t peer create .p -font 1 -> ! 9 BadOption
.t peer create x -font 1 -> ! 9 BadOption
.t peer create -> ! 4 BadCommand
.t peer frob -> ! 4 BadCommand
.t peer -> ! 4 BadCommand
.x peer names -> ! 5 NoWidget
.x peer frob -> ! 5 NoWidget
.t peer names -> =

.p index end -> ! 5 NoWidget
.t peer create .p -> = .p
.t peer create .p -> ! 6 WidgetExists
.t peer names -> = .p
.p peer names -> = .t
.p peer create .q -> = .q
.t peer names -> = .p .q
.p peer names -> = .t .q
.q peer names -> = .t .p

destroy .t -> ! 16 LastWidget
destroy .x -> ! 5 NoWidget
destroy -> ! 4 BadCommand
destroy .x .y -> ! 4 BadCommand
.t peer create .p -> = .p
destroy .t -> =
.t index end -> ! 5 NoWidget
.p peer names -> =
destroy .p -> ! 16 LastWidget
.p insert 1.0 a -> =
.p peer create .t -> = .t
.t get 1.0 end -> = "a\n"
.p peer create .q -> = .q
destroy .t -> =
.p peer names -> = .q
.q peer names -> = .p
"#;

// What is each widget's own.
pub(crate) const OWN_PARTS: Scripts = r#"
.t insert 1.0 "a\nb\nc\nd" -> =
.t peer create .p -> = .p
.t tag add sel 1.0 2.1 -> =
.t tag ranges sel -> = 1.0 2.1
.p tag ranges sel -> =
destroy .t -> =
.t index end -> ! 5 NoWidget
.p tag ranges sel -> =
.p index end -> = 5.0

.t insert 1.0 abc -> =
.t tag add sel 1.0 1.2 -> =
.t peer create .p -> = .p
.p tag add sel 1.1 1.3 -> =
.t tag add b 1.0 -> =
.p tag ranges b -> = 1.0 1.1
.t get sel.first sel.last -> = ab
.p get sel.first sel.last -> = bc
.t delete 1.0 -> =
.t tag ranges sel -> = 1.0 1.1
.p tag ranges sel -> = 1.0 1.2

.t insert 1.0 abcd -> =
.t mark set insert 1.3 -> =
.t peer create .p -> = .p
.p index insert -> = 1.0
.p mark set insert 1.2 -> =
.t index insert -> = 1.3
.p index insert -> = 1.2
.t insert 1.1 XY -> =
.t index insert -> = 1.5
.p index insert -> = 1.4
.p delete 1.0 1.3 -> =
.t index insert -> = 1.2
.p index insert -> = 1.1
.t mark gravity insert left -> =
.p mark gravity insert -> = right
.t mark set m 1.1 -> =
.p index m -> = 1.1
.p mark unset m -> =
.t index m -> ! 2 BadIndex

.t peer create .p -> = .p
.p insert 1.0 abc sel -> =
.p tag ranges sel -> = 1.0 1.3
.t tag ranges sel -> =
.t insert 1.1 X "t sel" -> =
.t tag ranges sel -> = 1.1 1.2
.p tag ranges sel -> = 1.0 1.1 1.2 1.4
.p tag ranges t -> = 1.1 1.2

.t insert 1.0 abcd -> =
.t peer create .p -> = .p
.p tag add sel 1.0 1.2 -> =
.t insert 1.1 XY -> =
.p tag ranges sel -> = 1.0 1.4
.t tag ranges sel -> =
.t insert 1.4 Z -> =
.p tag ranges sel -> = 1.0 1.4
.t delete 1.0 -> =
.p tag ranges sel -> = 1.0 1.3
"#;

// Each command of a widget that another one made, which shows the same text.
pub(crate) const PEER_COMMANDS: Scripts = r#"
.t peer create .p -> = .p
.p insert end hello -> =
.p index end -> = 2.0
.t get 1.0 end -> = "hello\n"
.p compare 1.0 < end -> = 1
.p count -chars 1.0 end -> = 6
.p tag add t 1.1 1.3 -> =
.p mark set m 1.2 -> =
.t dump 1.0 1.4 -> = text h 1.0 tagon t 1.1 text e 1.1 mark m 1.2 text l 1.2 tagoff t 1.3 text l 1.3
.p dump -tag 1.0 end -> = tagon t 1.1 tagoff t 1.3
.p replace 1.1 1.3 EY -> =
.t get 1.0 1.end -> = hEYlo
.p search l 1.0 -> = 1.3
.p delete 1.0 end -> =
.t get 1.0 end -> = "\n"

.t insert 1.0 abcabc -> =
.t peer create .p -> = .p
.p search -all abc 1.4 -> = 1.0 1.3
.p mark set l 1.1 -> =
.p mark gravity l left -> =
.t insert 1.1 XY -> =
.p index l -> = 1.1
.p mark next 1.1 -> = l
.t mark previous end -> = insert
.p tag add t 1.2 1.4 -> =
.p tag nextrange t 1.0 -> = 1.2 1.4
.t tag ranges t -> = 1.2 1.4
.p tag raise q -> ! 7 NoTag
.p mark gravity q -> ! 8 NoMark
.p frob -> ! 4 BadCommand
.p cget -font -> ! 9 BadOption
.p edit undo -> =
"#;

// What all widgets share.
pub(crate) const SHARED_PARTS: Scripts = r#"
.t peer create .t -undo 1 -> ! 6 WidgetExists
.t cget -undo -> = 0
.t peer create .p -undo 1 -> = .p
.p cget -undo -> = 1
.t cget -undo -> = 1
.p configure -undo 0 -> =
.t cget -undo -> = 0

.t peer create .p -undo 1 -> = .p
.t insert 1.0 abc -> =
.p edit undo -> =
.t get 1.0 end -> = "\n"
.t edit redo -> =
.p get 1.0 end -> = "abc\n"
destroy .t -> =
.p edit undo -> =
.p get 1.0 end -> = "\n"
"#;
