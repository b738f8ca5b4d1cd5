// Scripts about widgets that show some lines of the text, each on a new site, as lines with their replies.
use crate::sites::Scripts;

// What limits can be set to, what they tell, and why they are refused.
pub(crate) const LIMIT_OPTIONS: Scripts = r#"
.t configure -startline 2 -> ! 15 BadView
.t configure -undo 1 -endline 9 -> ! 15 BadView
.t cget -undo -> = 0
.t cget -startline -> = ""
.t cget -endline -> = ""
.t cget -> ! 4 BadCommand
.t cget -startline -endline -> ! 4 BadCommand
.t cget -font -> ! 9 BadOption
.t configure -> ! 4 BadCommand
.t configure -startline -> ! 4 BadCommand
.x configure -startline 9 -> ! 5 NoWidget
.x cget -startline -> ! 5 NoWidget

.t insert 1.0 "a\nb\nc\nd" -> =
.t configure -startline 1 -endline 5 -> =
.t cget -startline -> = ""
.t cget -endline -> = ""
.t configure -startline 0 -> ! 15 BadView
.t configure -startline 5 -> ! 15 BadView
.t configure -endline 6 -> ! 15 BadView
.t configure -endline 1 -> ! 15 BadView
.t configure -startline 2 -endline 2 -> ! 15 BadView
.t configure -startline 3 -endline 2 -> ! 15 BadView
.t configure -endline 99999999999999999999 -> ! 15 BadView
.t configure -startline +2 -> ! 9 BadOption
.t configure -startline -1 -> ! 9 BadOption
.t configure -endline 2.0 -> ! 9 BadOption
.t configure -endline end -> ! 9 BadOption
.t get 1.0 end -> = "a\nb\nc\nd\n"
.t configure -startline 9 -startline 2 -> =
.t cget -startline -> = 2
.t configure -startline x -startline 3 -> ! 9 BadOption
.t configure -endline 2 -> ! 15 BadView
.t configure -endline 3 -undo 1 -> =
.t cget -undo -> = 1
.t get 1.0 end -> = "b\n"
.t configure -startline 3 -> ! 15 BadView
.t configure -startline 4 -endline "" -> =
.t get 1.0 end -> = "d\n"
.t configure -startline "" -> =
.t get 1.0 end -> = "a\nb\nc\nd\n"

.t insert 1.0 "a\nb\nc\nd" -> =
.t peer create .t -startline 9 -> ! 6 WidgetExists
.t peer create x -startline 9 -> ! 14 BadName
.t peer create . -startline 2 -> ! 14 BadName
.t peer create .p -startline x -> ! 9 BadOption
.t peer create .p -startline -> ! 4 BadCommand
.t peer create .p -startline 9 -undo 1 -> ! 15 BadView
.t peer create .p -startline 2 -endline 2 -> ! 15 BadView
.t peer names -> =
.t cget -undo -> = 0
.t peer create .p -startline 3 -undo 1 -> = .p
.t cget -undo -> = 1
.p peer create .q -> = .q
.q cget -startline -> = 3
.q get 1.0 end -> = "c\nd\n"
.p peer create .r -endline 3 -> ! 15 BadView
.p peer create .r -startline 2 -endline 3 -> = .r
.r get 1.0 end -> = "b\n"
.p peer create .s -startline "" -endline "" -> = .s
.s index insert -> = 1.0
.s index current -> = 1.0
.s insert insert X -> =
.t get 1.0 end -> = "Xa\nb\nc\nd\n"
.p get 1.0 end -> = "c\nd\n"
"#;

// Limits stay where their newlines are, and where these are gone.
pub(crate) const MOVING_LIMITS: Scripts = r#"
.t insert 1.0 "a\nb\nc\nd" -> =
.t peer create .p -startline 2 -endline 4 -> = .p
.p index end -> = 3.0
.p delete 2.0 end -> =
.t get 1.0 end -> = "a\nb\nd\n"
.p get 1.0 end -> = "b\n"
.p cget -endline -> = 3
.t peer names -> = .p

.t insert 1.0 "a\nb\nc\nd" -> =
.t peer create .p -startline 2 -endline 4 -> = .p
.t insert 1.0 "x\ny\n" -> =
.p cget -startline -> = 4
.p cget -endline -> = 6
.t insert 5.0 "z\n" -> =
.p get 1.0 end -> = "b\nz\nc\n"
.t delete 1.0 3.0 -> =
.p cget -startline -> = 2
.p cget -endline -> = 5

.t insert 1.0 "a\nb\nc\nd" -> =
.t peer create .p -startline 2 -endline 4 -> = .p
.t delete 1.1 -> =
.p get 1.0 end -> = "ab\nc\n"
.p cget -startline -> = 1
.t insert 1.1 "X\nY" -> =
.p get 1.0 end -> = "Yb\nc\n"
.p cget -startline -> = 2

.t insert 1.0 "a\nb\nc\nd" -> =
.t peer create .p -startline 2 -endline 4 -> = .p
.t delete 3.1 -> =
.p get 1.0 end -> = "b\ncd\n"
.p cget -endline -> = 4

.t insert 1.0 "a\nb\nc" -> =
.t peer create .p -startline 2 -endline 3 -> = .p
.t delete 2.1 -> =
.p get 1.0 end -> = "bc\n"
.p index end -> = 2.0

.t configure -undo 1 -> =
.t insert 1.0 "a\nb\nc\nd" -> =
.t peer create .p -startline 2 -endline 4 -> = .p
.t delete 1.1 -> =
.p cget -startline -> = 1
.t edit undo -> =
.p cget -startline -> = 2
.p get 1.0 end -> = "b\nc\n"

.t insert 1.0 "a\nb\nc\nd" -> =
.t peer create .p -startline 2 -endline 3 -> = .p
.t delete 1.0 end -> =
.p get 1.0 end -> = "\n"
destroy .t -> =
.p get 1.0 end -> = "\n"
.p cget -startline -> = 1
.p cget -endline -> = 2
.p insert end x -> =
.p get 1.0 end -> = "x\n"
.p configure -startline "" -endline "" -> =
.p get 1.0 end -> = "x\n"
destroy .p -> ! 16 LastWidget

.t insert 1.0 "a\nb\nc\nd" -> =
.t peer create .p -startline 2 -endline 4 -> = .p
.t tag add sel 1.0 2.1 -> =
.t tag ranges sel -> = 1.0 2.1
.p tag ranges sel -> =
destroy .t -> =
.t index end -> ! 5 NoWidget
.p peer names -> =
destroy .p -> ! 16 LastWidget
"#;

// What is read and written within the lines.
pub(crate) const LIMITED_TEXT: Scripts = r#"
.t insert 1.0 "a\nb\nc\nd" -> =
.t peer create .p -startline 2 -endline 4 -> = .p
.p get 1.0 -> = b
.p get 1.0 1.1 2.0 end -> = b "c\n"
.p index 9.9 -> = 3.0
.p index 2.end -> = 2.1
.p compare 2.end == end-1c -> = 1
.p count -lines -chars 1.0 end -> = 2 4
.p get end -> = ""
.p tag add t end -> =
.t tag ranges t -> =
.p tag names end -> =
.p delete end -> =
.t get 1.0 end -> = "a\nb\nc\nd\n"

.t insert 1.0 "a\nb\nc\ndefgh" -> =
.t peer create .p -startline 2 -endline 4 -> = .p
.p index "2.0 + 9 c" -> = 3.0
.p index "2.0 + 5 c - 1 c" -> = 2.1
.p index "end + 2 c - 1 c" -> = 2.1
.p index "9.3 - 1 c" -> = 2.1
.p index "4.3 linestart" -> = 3.0
.p index "1.0 - 5 lines" -> = 1.0
.p index "1.0 + 5 lines" -> = 2.0

.t insert 1.0 "a\nb\nc\nd" -> =
.t peer create .p -startline 2 -endline 4 -> = .p
.p insert end X -> =
.p insert 1.0 "Y\n" -> =
.p get 1.0 end -> = "Y\nb\ncX\n"
.p replace 2.0 end Z -> =
.t get 1.0 end -> = "a\nYZ\nd\n"
.p replace 2.0 1.0 Z -> ! 10 BackwardsRange
.p delete 1.0 end -> =
.t get 1.0 end -> = "a\n\nd\n"
.p get 1.0 end -> = "\n"

.t insert 1.0 "abc\ndef" -> =
.t tag add t 1.0 end -> =
.t peer create .p -startline 2 -> = .p
.p insert 1.0 X -> =
.t tag ranges t -> = 1.0 2.0 2.1 3.0
.p insert 1.2 Y -> =
.p tag ranges t -> = 1.1 2.0

.t insert 1.0 "a\nb\nc\nd" -> =
.t tag add t 1.0 end -> =
.t peer create .p -startline 2 -endline 4 -> = .p
.t delete 1.1 -> =
.p insert 1.1 "X\n" t Y -> =
.t get 1.0 end -> = "aX\nYb\nc\nd\n"
.t tag ranges t -> = 1.0 2.0 2.1 5.0
.p get 1.0 end -> = "Yb\nc\n"

.t insert 1.0 "a\nb\nc" -> =
.t configure -undo 1 -> =
.t peer create .p -startline 3 -> = .p
.t insert 1.0 X -> =
.p edit undo -> =
.t get 1.0 end -> = "a\nb\nc\n"
.p edit redo -> =
.t get 1.0 end -> = "Xa\nb\nc\n"
.t configure -startline 2 -> =
.t insert 1.0 YZ sel -> =
.t edit undo -> =
.t get 1.0 end -> = "b\nc\n"
"#;

// Searches and dumps of the lines.
pub(crate) const LIMITED_SEARCHES: Scripts = r#"
.t insert 1.0 "xa\nxa\nxa\nxa" -> =
.t peer create .p -startline 2 -endline 4 -> = .p
.p search xa 1.0 -> = 1.0
.p search xa 2.1 -> = 1.0
.p search -backwards xa 1.0 -> = 2.0
.p search -all xa 1.1 -> = 2.0 1.0
.p search -all -backwards xa 2.0 -> = 1.0 2.0
.p search -all xa 1.0 2.0 -> = 1.0
.p search "a\nx" 2.0 -> = 1.1
.p search -strictlimits "a\nx" 1.0 2.0 -> =
.p search "a\nxa\nx" 1.0 -> =
.p search -all "\n" 1.0 -> = 1.2 2.2
.p search xa end -> = 1.0
.p search "" 1.0 -> ! 11 EmptyPattern
.t search -all xa 1.0 -> = 1.0 2.0 3.0 4.0

.t insert 1.0 "a\nb\nc\nd" -> =
.t tag add t 1.0 end -> =
.t tag add u 3.0 4.1 -> =
.t mark set m 1.0 -> =
.t peer create .p -startline 2 -endline 4 -> = .p
.p dump -tag 1.0 end -> = tagon t 1.0 tagon u 2.0 tagoff t 3.0 tagoff u 3.0
.p dump -mark 1.0 end -> = mark current 1.0 mark insert 1.0 mark m 1.0
.p dump -text 1.0 end -> = text "b\n" 1.0 text "c\n" 2.0
.p dump -text 2.0 3.0 -> = text "c\n" 2.0
.p dump end -> = tagoff t 3.0 tagoff u 3.0
.p dump 2.1 -> = text "\n" 2.1 tagoff t 3.0 tagoff u 3.0
"#;

// Tags and marks, as the widget sees them.
pub(crate) const LIMITED_TAGS: Scripts = r#"
.t insert 1.0 "abc\ndef\nghi\njkl" -> =
.t peer create .p -startline 2 -endline 4 -> = .p
.t tag add t 1.1 2.1 3.1 4.2 -> =
.p tag ranges t -> = 1.0 1.1 2.1 3.0
.p index t.first -> = 1.0
.p index t.last -> = 3.0
.p tag nextrange t 1.0 -> = 1.0 1.1
.p tag nextrange t 2.0 -> = 2.1 3.0
.p tag prevrange t 1.0 -> =
.p tag prevrange t end -> = 2.1 3.0
.p tag names 1.0 -> = t
.p tag names 1.1 -> =
.t tag add u 4.0 4.1 -> =
.p tag ranges u -> =
.p index u.first -> ! 3 NoneTagged
.p tag nextrange u 1.0 -> =
.p tag remove t 1.0 end -> =
.t tag ranges t -> = 1.1 2.0 4.0 4.2
.p tag add u 1.0 end -> =
.t tag ranges u -> = 2.0 4.1

.t insert 1.0 "abc\ndef" -> =
.t tag add t 1.0 1.2 2.0 2.2 -> =
.t peer create .p -startline 2 -> = .p
.p tag prevrange t 1.1 -> = 1.0 1.2
.p tag delete t -> =
.t tag names -> = sel
.t tag add t 1.0 1.0 -> =
.t tag ranges t -> =

.t insert 1.0 "a\nb\nc\nd" -> =
.t peer create .p -startline 2 -endline 4 -> = .p
.p tag add sel 1.0 end -> =
.t tag ranges sel -> =
.p tag ranges sel -> = 1.0 3.0
.p configure -startline 1 -> =
.p tag ranges sel -> = 2.0 4.0
.p configure -startline 3 -> =
.p tag ranges sel -> = 1.0 2.0
.p insert 1.1 X sel -> =
.t insert 3.1 Y -> =
.p tag ranges sel -> = 1.0 2.0
.t tag ranges sel -> =
"#;

pub(crate) const LIMITED_MARKS: Scripts = r#"
.t insert 1.0 "a\nb\nc\nd" -> =
.t peer create .p -startline 2 -endline 4 -> = .p
.t mark set z 1.0 -> =
.t mark set y 1.1 -> =
.t mark set w 1.1 -> =
.t mark gravity w left -> =
.t mark set x 2.0 -> =
.t mark set v 3.0 -> =
.t mark set k 4.1 -> =
.t mark set m 4.0 -> =
.p mark next 1.0 -> = w
.p mark next w -> = current
.p mark next current -> = insert
.p mark next insert -> = x
.p mark next x -> = y
.p mark next y -> = z
.p mark next z -> = v
.p mark next v -> = k
.p mark next k -> = m
.p mark next m -> =
.p mark next 1.1 -> = v
.p mark previous m -> = k
.p mark previous k -> = v
.p mark previous end -> = v
.p mark previous 2.0 -> = z
.p mark previous current -> = w
.p mark previous 1.0 -> =
.t mark next z -> = w
.t mark next y -> = x
.t mark previous k -> = insert
.t mark previous m -> = v
.p index y -> = 1.0
.p index k -> = 3.0
.p mark gravity w -> = left
.p mark names -> = current insert k m v w x y z
.p dump -mark 1.0 end -> = mark w 1.0 mark current 1.0 mark insert 1.0 mark x 1.0 mark y 1.0 mark z 1.0 mark v 2.0 mark k 3.0 mark m 3.0
.p mark unset y v -> =
.t mark names -> = current insert k m w x z

.t insert 1.0 "a\nb\nc" -> =
.t mark set m 1.0 -> =
.t peer create .p -startline 2 -> = .p
.p index m -> = 1.0
.p mark next 1.0 -> = current
.t mark set insert 1.0 -> =
.t configure -startline 3 -> =
.t index insert -> = 1.0
.t configure -startline "" -> =
.t index insert -> = 1.0

.t insert 1.0 "a\nb\nc\nd" -> =
.t peer create .p -startline 2 -endline 4 -> = .p
.p mark set insert end -> =
.p index insert -> = 2.1
.p mark set current end -> =
.p index current -> = 3.0
.p mark set m end -> =
.t index m -> = 4.0
.t insert 4.0 X -> =
.t index m -> = 4.1
.p index m -> = 3.0
.p insert insert Z -> =
.p get 1.0 end -> = "b\ncZ\n"
.p index insert -> = 2.2

.t insert 1.0 "a\nb\nc" -> =
.t peer create .p -endline 2 -> = .p
.t peer create .q -> = .q
.q mark set insert 2.0 -> =
.q configure -startline "" -endline 2 -> =
.q index insert -> = 1.1
.q configure -endline "" -> =
.q index insert -> = 2.0
"#;
