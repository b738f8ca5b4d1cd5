// Scripts about the words of options and of widgets, each on a new site, as lines with their replies (Tk text manual, "WIDGET
// COMMAND" and "PEER WIDGETS").
use crate::sites::Scripts;

// Each form of `edit`, `configure` and `cget`.
pub(crate) const OPTIONS: Scripts = r#"
.t configure -undo 1 -> =
.t insert 1.0 a -> =
.t edit canundo -> = 1
.t edit undo -> =
.t edit canundo -> = 0
.t edit canredo -> = 1
.t edit redo -> =
.t edit canredo -> = 0
.t edit modified -> = 1
.t edit separator -> =
.t edit reset -> =
.t edit canundo -> = 0
.t edit modified 1 -> =
.t edit modified -> = 1
.t edit modified true -> =
.t edit modified -> = 1
.t edit modified yes -> =
.t edit modified -> = 1
.t edit modified on -> =
.t edit modified -> = 1
.t edit modified 0 -> =
.t edit modified -> = 0
.t edit modified false -> =
.t edit modified -> = 0
.t edit modified no -> =
.t edit modified -> = 0
.t edit modified off -> =
.t edit modified -> = 0

.t cget -undo -> = 0
.t cget -autoseparators -> = 1
.t configure -undo 1 -> =
.t cget -undo -> = 1
.t cget -autoseparators -> = 1
.t configure -undo off -> =
.t cget -undo -> = 0
.t cget -autoseparators -> = 1
.t configure -autoseparators yes -> =
.t cget -undo -> = 0
.t cget -autoseparators -> = 1
.t configure -autoseparators 0 -undo 1 -> =
.t cget -undo -> = 1
.t cget -autoseparators -> = 0
.t configure -undo 1 -autoseparators 1 -undo 0 -> =
.t cget -undo -> = 0
.t cget -autoseparators -> = 1

.t edit -> ! 4 BadCommand
.t edit frob -> ! 4 BadCommand
.t edit "" -> ! 4 BadCommand
.t edit undo 1 -> ! 4 BadCommand
.t edit redo again -> ! 4 BadCommand
.t edit separator 1.0 -> ! 4 BadCommand
.t edit reset all -> ! 4 BadCommand
.t edit canundo 1 -> ! 4 BadCommand
.t edit canredo 0 -> ! 4 BadCommand
.t edit modified 1 0 -> ! 4 BadCommand
.t edit modified frob 1 -> ! 4 BadCommand
.t configure -> ! 4 BadCommand
.t configure -undo -> ! 4 BadCommand
.t configure -frob -> ! 4 BadCommand
.t configure -undo 1 -autoseparators -> ! 4 BadCommand
.t configure -frob 1 -undo -> ! 4 BadCommand
.t cget -> ! 4 BadCommand
.t cget -undo -undo -> ! 4 BadCommand
.t cget -frob -frob -> ! 4 BadCommand

.t edit modified frob -> ! 9 BadOption
.t edit modified "" -> ! 9 BadOption
.t edit modified 2 -> ! 9 BadOption
.t edit modified True -> ! 9 BadOption
.t edit modified y -> ! 9 BadOption
.t configure -frob 1 -> ! 9 BadOption
.t configure -undo frob -> ! 9 BadOption
.t configure undo 1 -> ! 9 BadOption
.t configure -undo x -undo 1 -> ! 9 BadOption
.t configure -undo 1 -autoseparators 01 -> ! 9 BadOption
.t configure -startline 2 -> ! 15 BadView
.t configure -font fixed -> ! 9 BadOption
.t cget -font -> ! 9 BadOption
.t cget undo -> ! 9 BadOption
"#;

// Each form of `peer` and `destroy`, which words are paths, and each refusal.
pub(crate) const PEER_WORDS: Scripts = r#"
.t insert 1.0 "a\nb\nc\nd\ne\nf\ng\nh" -> =
.t peer create .p -> = .p
destroy .p -> =
.t peer create .t.p -> = .t.p
.t peer create .. -> = ..
.t peer create ". " -> = ". "
.t peer create .é -> = .é
.t peer create .p -startline 2 -endline 4 -> = .p
.p cget -startline -> = 2
.p cget -endline -> = 4
destroy .p -> =
.t peer create .p -endline {} -startline "" -> = .p
.p cget -startline -> = ""
.p cget -endline -> = ""
destroy .p -> =
.t peer create .p -undo 1 -startline 3 -autoseparators off -> = .p
.p cget -startline -> = 3
.p cget -endline -> = ""
.t cget -undo -> = 1
.t cget -autoseparators -> = 0
destroy .p -> =
.t peer names -> = .t.p .. ". " .é

.t peer -> ! 4 BadCommand
.t peer frob -> ! 4 BadCommand
.t peer create -> ! 4 BadCommand
.t peer create .p -startline -> ! 4 BadCommand
.t peer create p -startline -> ! 4 BadCommand
.t peer create .p -frob -> ! 4 BadCommand
.t peer create .p -frob 1 -startline -> ! 4 BadCommand
.t peer create .p .q -> ! 4 BadCommand
.t peer names .p -> ! 4 BadCommand
.t peer create .p -frob 1 -> ! 9 BadOption
.t peer create .p -startline x -> ! 9 BadOption
.t peer create p -startline x -> ! 9 BadOption
.t peer create . -maxundo x -> ! 9 BadOption
.t peer create .p .q .r -> ! 9 BadOption
.t peer create p -> ! 14 BadName
.t peer create . -> ! 14 BadName
.t peer create "" -> ! 14 BadName
.t peer create p.q -startline 2 -> ! 14 BadName
.t peer create . -endline 0 -> ! 14 BadName
.t peer create . -maxundo 3 -> ! 14 BadName
.t peer names -> =
.t cget -maxundo -> = 0

.t peer create .t -> ! 6 WidgetExists
.t peer create .p.q -> = .p.q
.t peer create "" -> ! 14 BadName
.t peer create . -> ! 14 BadName
.t peer create t -> ! 14 BadName
.t peer create t. -> ! 14 BadName

destroy .t -> ! 16 LastWidget
destroy frob -> ! 5 NoWidget
destroy "" -> ! 5 NoWidget
destroy -> ! 4 BadCommand
destroy .x .y -> ! 4 BadCommand
"#;

// The words of limits, and each refusal.
pub(crate) const LIMIT_WORDS: Scripts = r#"
.t insert 1.0 "a\nb\nc\nd\ne\nf\ng\nh" -> =
.t configure -undo 1 -> =
.t cget -undo -> = 1
.t configure -autoseparators no -> =
.t cget -autoseparators -> = 0
.t configure -startline 2 -> =
.t cget -startline -> = 2
.t configure -startline "" -> =
.t configure -endline 2 -> =
.t cget -endline -> = 2
.t configure -startline 0 -> ! 15 BadView
.t configure -endline 007 -> =
.t cget -endline -> = 7
.t configure -startline "" -> =
.t cget -startline -> = ""
.t configure -endline {} -> =
.t cget -endline -> = ""
.t configure -startline 9 -startline 2 -> =
.t cget -startline -> = 2
.t configure -endline 3 -startline 2 -endline {} -> =
.t cget -startline -> = 2
.t cget -endline -> = ""
.t configure -undo 0 -endline 5 -undo yes -> =
.t cget -undo -> = 1
.t cget -endline -> = 5
.t configure -startline 18446744073709551615 -> ! 15 BadView
.t configure -startline 18446744073709551616 -> ! 15 BadView
.t configure -startline 00000000000000000000000018446744073709551615 -> ! 15 BadView
.t configure -endline 99999999999999999999999999999999999999999999999999 -> ! 15 BadView

.t configure -> ! 4 BadCommand
.t configure -startline -> ! 4 BadCommand
.t configure -frob -> ! 4 BadCommand
.t configure -startline x -endline -> ! 4 BadCommand
.t configure -frob 1 -> ! 9 BadOption
.t configure -maxundo end -> ! 9 BadOption
.t configure startline 2 -> ! 9 BadOption
.t configure -start 2 -> ! 9 BadOption
.t configure -startline +1 -> ! 9 BadOption
.t configure -startline -1 -> ! 9 BadOption
.t configure -endline 2.0 -> ! 9 BadOption
.t configure -endline " " -> ! 9 BadOption
.t configure -endline "2 " -> ! 9 BadOption
.t configure -endline end -> ! 9 BadOption
.t configure -endline ٣ -> ! 9 BadOption
.t configure -undo x -undo 1 -> ! 9 BadOption
.t configure -startline x -startline 2 -> ! 9 BadOption
.t configure -startline 2 -endline x -> ! 9 BadOption
.t configure -undo 2 -endline 3 -> ! 9 BadOption
.t configure -undo {} -endline 3 -> ! 9 BadOption

.t insert 1.0 "a\nb\nc\nd\ne\nf\ng\nh" -> =
.t configure -startline 2 -endline 4 -undo 1 -> =
.t cget -undo -> = 1
.t cget -autoseparators -> = 1
.t cget -startline -> = 2
.t cget -endline -> = 4
.t cget -> ! 4 BadCommand
.t cget -startline -endline -> ! 4 BadCommand
.t cget -frob -frob -> ! 4 BadCommand
.t cget -frob -> ! 9 BadOption
.t cget startline -> ! 9 BadOption
"#;

// The words of -maxundo, and each refusal.
pub(crate) const MAX_UNDO_WORDS: Scripts = r#"
.t cget -maxundo -> = 0
.t configure -maxundo 3 -> =
.t cget -maxundo -> = 3
.t configure -maxundo 007 -> =
.t cget -maxundo -> = 7
.t configure -maxundo -5 -> =
.t cget -maxundo -> = 0
.t configure -maxundo 2 -maxundo 4 -> =
.t cget -maxundo -> = 4
.t configure -maxundo 1 -undo 1 -maxundo 0 -> =
.t cget -maxundo -> = 0
.t cget -undo -> = 1
.t configure -undo 0 -maxundo 9223372036854775807 -> =
.t cget -maxundo -> = 9223372036854775807
.t configure -maxundo 5 -> =
.t configure -maxundo 9223372036854775808 -> =
.t cget -maxundo -> = 9223372036854775807
.t configure -maxundo 5 -> =
.t configure -maxundo 99999999999999999999999999999999999999999999999999 -> =
.t cget -maxundo -> = 9223372036854775807
.t configure -maxundo -99999999999999999999999999999999999999999999999999 -> =
.t cget -maxundo -> = 0
.t configure -maxundo 5 -> =
.t configure -maxundo -0 -> =
.t cget -maxundo -> = 0
.t cget -undo -> = 0
.t cget -autoseparators -> = 1

.t configure -maxundo 4 -> =
.t configure -maxundo -> ! 4 BadCommand
.t configure -maxundo 1 -undo -> ! 4 BadCommand
.t configure -maxundo x -undo -> ! 4 BadCommand
.t cget -maxundo 4 -> ! 4 BadCommand
.t configure -maxundo "" -> ! 9 BadOption
.t configure -maxundo {} -> ! 9 BadOption
.t configure -maxundo - -> ! 9 BadOption
.t configure -maxundo -- -> ! 9 BadOption
.t configure -maxundo --5 -> ! 9 BadOption
.t configure -maxundo 5- -> ! 9 BadOption
.t configure -maxundo +1 -> ! 9 BadOption
.t configure -maxundo -+1 -> ! 9 BadOption
.t configure -maxundo 1x -> ! 9 BadOption
.t configure -maxundo -1x -> ! 9 BadOption
.t configure -maxundo x -> ! 9 BadOption
.t configure -maxundo 0x1 -> ! 9 BadOption
.t configure -maxundo 1.0 -> ! 9 BadOption
.t configure -maxundo " 1" -> ! 9 BadOption
.t configure -maxundo "1 " -> ! 9 BadOption
.t configure -maxundo "- 1" -> ! 9 BadOption
.t configure -maxundo ٣ -> ! 9 BadOption
.t configure -maxundo true -> ! 9 BadOption
.t configure maxundo 1 -> ! 9 BadOption
.t configure -max 1 -> ! 9 BadOption
.t configure -MAXUNDO 1 -> ! 9 BadOption
.t cget maxundo -> ! 9 BadOption
.t configure -maxundo x -maxundo 1 -> ! 9 BadOption
.t configure -maxundo 1 -maxundo x -> ! 9 BadOption
.t configure -maxundo 1 -undo x -> ! 9 BadOption
.t configure -maxundo 1 -endline x -> ! 9 BadOption
.t configure -maxundo 1 -startline 2 -> ! 15 BadView
.t cget -maxundo -> = 4
"#;

// The most groups that can be undone: the oldest ones are dropped.
pub(crate) const MAX_UNDO: Scripts = r#"
.t configure -undo 1 -maxundo 1 -> =
.t insert 1.0 a -> =
.t delete 1.0 -> =
.t edit undo -> =
.t get 1.0 end -> = "a\n"
.t edit undo -> ! 12 NothingToUndo
.t edit modified -> = 1
.t configure -maxundo -5 -> =
.t cget -maxundo -> = 0
.t configure -maxundo x -> ! 9 BadOption

.t configure -undo 1 -maxundo 2 -> =
.t insert 1.0 a -> =
.t edit separator -> =
.t insert 1.1 b -> =
.t edit separator -> =
.t insert 1.2 c -> =
.t edit undo -> =
.t get 1.0 end -> = "ab\n"
.t edit undo -> =
.t get 1.0 end -> = "a\n"
.t edit canundo -> = 0
.t edit undo -> ! 12 NothingToUndo
.t edit redo -> =
.t edit redo -> =
.t get 1.0 end -> = "abc\n"
.t edit redo -> ! 13 NothingToRedo
.t edit undo -> =
.t edit undo -> =
.t edit undo -> ! 12 NothingToUndo
.t get 1.0 end -> = "a\n"

.t configure -undo 1 -maxundo 1 -> =
.t insert 1.0 a -> =
.t insert 1.1 b -> =
.t insert 1.2 c -> =
.t edit undo -> =
.t get 1.0 end -> = "\n"
.t edit modified -> = 0
.t edit redo -> =
.t get 1.0 end -> = "abc\n"
.t insert 1.3 d -> =
.t edit undo -> =
.t get 1.0 end -> = "abc\n"
.t edit undo -> ! 12 NothingToUndo
.t edit redo -> =
.t get 1.0 end -> = "abcd\n"

.t configure -undo 1 -maxundo 2 -> =
.t insert 1.0 abc -> =
.t replace 1.0 1.1 x -> =
.t replace 1.1 1.2 y -> =
.t replace 1.0 1.0 "" -> =
.t get 1.0 end -> = "xyc\n"
.t edit undo -> =
.t edit undo -> =
.t get 1.0 end -> = "abc\n"
.t edit undo -> ! 12 NothingToUndo

.t configure -undo 1 -maxundo 1 -autoseparators 0 -> =
.t insert 1.0 ab -> =
.t delete 1.0 -> =
.t replace 1.0 1.1 c -> =
.t get 1.0 end -> = "c\n"
.t edit undo -> =
.t get 1.0 end -> = "\n"
.t edit modified -> = 0

.t configure -undo 1 -> =
.t insert 1.0 a -> =
.t edit separator -> =
.t insert 1.1 b -> =
.t edit separator -> =
.t insert 1.2 c -> =
.t configure -maxundo 9223372036854775807 -> =
.t configure -maxundo 3 -> =
.t configure -maxundo 2 -> =
.t insert 1.3 d -> =
.t edit undo -> =
.t get 1.0 end -> = "ab\n"
.t edit undo -> =
.t get 1.0 end -> = "a\n"
.t edit undo -> ! 12 NothingToUndo
.t configure -maxundo 0 -> =
.t edit canundo -> = 0
.t edit redo -> =
.t edit redo -> =
.t get 1.0 end -> = "abcd\n"
.t edit redo -> ! 13 NothingToRedo

.t configure -undo 1 -> =
.t insert 1.0 a -> =
.t edit separator -> =
.t insert 1.1 b -> =
.t edit separator -> =
.t insert 1.2 c -> =
.t edit undo -> =
.t edit undo -> =
.t configure -maxundo 1 -> =
.t edit canundo -> = 1
.t edit canredo -> = 1
.t edit redo -> =
.t edit redo -> =
.t get 1.0 end -> = "abc\n"
.t edit redo -> ! 13 NothingToRedo
.t edit undo -> =
.t get 1.0 end -> = "ab\n"
.t edit undo -> ! 12 NothingToUndo
.t edit canredo -> = 1

.t configure -undo 1 -maxundo 1 -> =
.t insert 1.0 a -> =
.t edit reset -> =
.t cget -maxundo -> = 1
.t edit canundo -> = 0
.t insert 1.1 b -> =
.t edit separator -> =
.t insert 1.2 c -> =
.t edit undo -> =
.t get 1.0 end -> = "ab\n"
.t edit undo -> ! 12 NothingToUndo

.t configure -undo 1 -> =
.t insert 1.0 a -> =
.t edit separator -> =
.t insert 1.1 b -> =
.t edit modified 0 -> =
.t configure -maxundo 1 -> =
.t edit modified -> = 0
.t edit undo -> =
.t edit modified -> = 1
.t edit redo -> =
.t edit modified -> = 0
.t insert 1.2 c -> =
.t edit modified -> = 1
.t edit undo -> =
.t edit modified -> = 0
.t get 1.0 end -> = "ab\n"

.t configure -undo 1 -> =
.t insert 1.0 a -> =
.t edit separator -> =
.t insert 1.1 b -> =
.t edit modified 0 -> =
.t edit undo -> =
.t insert 1.1 x -> =
.t edit modified -> = 1
.t configure -maxundo 1 -> =
.t edit modified -> = 1
.t edit undo -> =
.t edit modified -> = 1
.t edit undo -> ! 12 NothingToUndo
.t edit modified 0 -> =
.t edit redo -> =
.t edit modified -> = 1
.t edit undo -> =
.t edit modified -> = 0

.t configure -undo 1 -maxundo 1 -> =
.t insert 1.0 a -> =
.t edit separator -> =
.t insert 1.1 b -> =
.t edit modified 0 -> =
.t edit reset -> =
.t edit modified -> = 0
.t insert 1.2 c -> =
.t edit modified -> = 1
.t edit undo -> =
.t edit modified -> = 0

.t configure -undo 1 -> =
.t insert 1.0 a -> =
.t edit separator -> =
.t insert 1.1 b -> =
.t configure -maxundo 1 -startline 9 -> ! 15 BadView
.t edit undo -> =
.t edit undo -> =
.t get 1.0 end -> = "\n"

.t configure -undo 1 -> =
.t insert 1.0 a -> =
.t edit separator -> =
.t insert 1.1 b -> =
.t configure -undo 0 -> =
.t configure -maxundo 1 -> =
.t edit canundo -> = 0
.t edit modified -> = 1
.t configure -undo 1 -> =
.t edit canundo -> = 1
.t edit undo -> =
.t get 1.0 end -> = "a\n"
.t edit undo -> ! 12 NothingToUndo

.t configure -undo 1 -> =
.t insert 1.0 a -> =
.t edit separator -> =
.t insert 1.1 b -> =
.t peer create .p -maxundo 1 -> = .p
.p cget -maxundo -> = 1
.t cget -maxundo -> = 1
.p edit undo -> =
.t get 1.0 end -> = "a\n"
.t edit undo -> ! 12 NothingToUndo
.p configure -maxundo 5 -> =
.t cget -maxundo -> = 5
.t peer create .q -maxundo x -> ! 9 BadOption
.t peer create .p -maxundo 2 -> ! 6 WidgetExists
.t peer create .q -maxundo 2 -startline 9 -> ! 15 BadView
.t cget -maxundo -> = 5
destroy .p -> =
.t peer create .q -> = .q
.q cget -maxundo -> = 5
"#;
