// Scripts about undo, redo and the options, each on a new site, as lines with their replies.
use crate::sites::{Script, Scripts};

// Groups of actions that are undone and redone.
pub(crate) const UNDOING: Scripts = r#"
.t configure -undo 1 -> =
.t edit redo -> ! 13 NothingToRedo
.t insert 1.0 a -> =
.t insert 1.1 b -> =
.t delete 1.0 -> =
.t edit undo -> =
.t get 1.0 end -> = "ab\n"
.t edit modified -> = 1
.t edit undo -> =
.t get 1.0 end -> = "\n"
.t edit modified -> = 0
.t edit canredo -> = 1
.t edit redo -> =
.t get 1.0 end -> = "ab\n"
.t edit redo -> =
.t get 1.0 end -> = "b\n"
.t edit redo -> ! 13 NothingToRedo
.t edit canredo -> = 0
.t edit undo -> =
.t edit undo -> =
.t edit undo -> ! 12 NothingToUndo
.t edit canundo -> = 0
.t edit redo -> =
.t insert end c -> =
.t get 1.0 end -> = "abc\n"
.t edit redo -> ! 13 NothingToRedo
.t edit undo -> =
.t get 1.0 end -> = "ab\n"

.t configure -undo 1 -> =
.t insert 1.0 hello -> =
.t replace 1.1 1.4 EY -> =
.t replace 1.0 1.1 "" -> =
.t get 1.0 end -> = "EYo\n"
.t edit undo -> =
.t get 1.0 end -> = "hEYo\n"
.t edit undo -> =
.t get 1.0 end -> = "hello\n"
.t edit undo -> =
.t get 1.0 end -> = "\n"
.t edit redo -> =
.t edit redo -> =
.t get 1.0 end -> = "hEYo\n"
.t edit undo -> =
.t get 1.0 end -> = "hello\n"

.t configure -undo 1 -> =
.t insert 1.0 a t b u "c\nd" -> =
.t delete 1.0 1.1 2.0 end -> =
.t get 1.0 end -> = "bc\n"
.t edit undo -> =
.t get 1.0 end -> = "abc\nd\n"
.t edit undo -> =
.t get 1.0 end -> = "\n"
.t edit redo -> =
.t get 1.0 end -> = "abc\nd\n"
.t tag ranges t -> = 1.0 1.1
.t tag ranges u -> = 1.1 1.2
.t edit redo -> =
.t get 1.0 end -> = "bc\n"

.t configure -undo 1 -autoseparators 0 -> =
.t insert 1.0 abc -> =
.t delete 1.1 -> =
.t edit undo -> =
.t get 1.0 end -> = "\n"
.t edit redo -> =
.t get 1.0 end -> = "ac\n"
.t edit undo -> =
.t get 1.0 end -> = "\n"
.t edit redo -> =
.t get 1.0 end -> = "ac\n"
.t edit canredo -> = 0

.t edit undo -> =
.t edit redo -> =
.t edit canundo -> = 0
.t edit canredo -> = 0
.t edit modified -> = 0
.t get 1.0 end -> = "\n"
"#;

// What comes back has its tags and no selection; marks stay beside the characters.
pub(crate) const COMING_BACK: Scripts = r#"
.t configure -undo 1 -> =
.t insert 1.0 ab t -> =
.t delete 1.0 1.1 -> =
.t edit undo -> =
.t tag ranges t -> = 1.0 1.2
.t delete 1.0 -> =
.t tag delete t -> =
.t edit undo -> =
.t tag names -> = sel t
.t tag ranges t -> = 1.0 1.1

.t configure -undo 1 -> =
.t insert 1.0 abcd t -> =
.t delete 1.2 1.4 -> =
.t edit undo -> =
.t get 1.0 end -> = "abcd\n"
.t tag ranges t -> = 1.0 1.4
.t tag add u 1.1 1.3 -> =
.t delete 1.1 -> =
.t tag remove u 1.0 end -> =
.t edit undo -> =
.t tag ranges u -> = 1.1 1.2
.t edit undo -> =
.t get 1.0 end -> = "\n"
.t edit redo -> =
.t get 1.0 end -> = "abcd\n"
.t tag ranges t -> = 1.0 1.4
.t tag ranges u -> = 1.1 1.2

.t configure -undo 1 -> =
.t insert 1.0 abcd -> =
.t tag add sel 1.0 1.4 -> =
.t delete 1.1 1.3 -> =
.t edit undo -> =
.t tag ranges sel -> = 1.0 1.1 1.3 1.4

.t configure -undo 1 -> =
.t insert 1.0 abcdef -> =
.t mark set l 1.3 -> =
.t mark gravity l left -> =
.t mark set r 1.3 -> =
.t delete 1.2 1.4 -> =
.t mark set insert 1.0 -> =
.t edit undo -> =
.t index insert -> = 1.0
.t index l -> = 1.2
.t index r -> = 1.4
.t get 1.0 end -> = "abcdef\n"

.t configure -undo 1 -> =
.t insert 1.0 ab -> =
.t tag add t 1.0 end -> =
.t edit modified 0 -> =
.t delete "end - 1 chars" end -> =
.t tag ranges t -> = 1.0 1.2
.t edit modified -> = 0
.t edit undo -> =
.t get 1.0 end -> = "\n"
.t edit undo -> ! 12 NothingToUndo
"#;

// Separators, kinds, and what is recorded.
pub(crate) const GROUPING: Scripts = r#"
.t configure -undo 1 -autoseparators 0 -> =
.t insert 1.0 a -> =
.t edit separator -> =
.t insert 1.1 b -> =
.t edit undo -> =
.t get 1.0 end -> = "a\n"
.t edit modified 0 -> =
.t edit reset -> =
.t edit canundo -> = 0
.t edit modified -> = 0
.t cget -undo -> = 1

.t configure -undo 1 -autoseparators 0 -> =
.t insert 1.0 abc -> =
.t delete 1.0 -> =
.t replace 1.0 1.1 X -> =
.t get 1.0 end -> = "Xc\n"
.t edit undo -> =
.t get 1.0 end -> = "\n"
.t edit canundo -> = 0
.t edit redo -> =
.t get 1.0 end -> = "Xc\n"
.t configure -autoseparators 1 -> =
.t insert 1.0 a -> =
.t insert 1.1 b -> =
.t delete 1.0 -> =
.t delete 1.0 -> =
.t edit undo -> =
.t get 1.0 end -> = "abXc\n"
.t edit undo -> =
.t get 1.0 end -> = "Xc\n"
.t insert 1.0 1 -> =
.t edit separator -> =
.t edit separator -> =
.t insert 1.1 2 -> =
.t edit undo -> =
.t get 1.0 end -> = "1Xc\n"
.t edit undo -> =
.t get 1.0 end -> = "Xc\n"

.t configure -undo 1 -> =
.t insert 1.0 a -> =
.t edit separator -> =
.t insert 1.1 b -> =
.t edit undo -> =
.t insert 1.1 c -> =
.t edit undo -> =
.t get 1.0 end -> = "a\n"
.t edit canundo -> = 1

.t configure -undo 1 -> =
.t insert 1.0 a -> =
.t edit redo -> ! 13 NothingToRedo
.t insert 1.1 b -> =
.t edit undo -> =
.t get 1.0 end -> = "\n"
.t edit redo -> =
.t insert 1.2 c -> =
.t edit undo -> =
.t get 1.0 end -> = "ab\n"

.t configure -undo 1 -> =
.t insert 1.0 ab t -> =
.t delete 1.0 -> =
.t edit undo -> =
.t replace 1.0 1.0 "" -> =
.t insert 1.0 "" -> =
.t insert 1.0 "" t "" -> =
.t delete 1.0 1.0 -> =
.t delete end -> =
.t replace end end "" -> =
.t tag add u 1.0 -> =
.t tag remove t 1.0 end -> =
.t mark set m 1.0 -> =
.t replace 1.1 1.0 x -> ! 10 BackwardsRange
.t edit canredo -> = 1
.t edit redo -> =
.t get 1.0 end -> = "b\n"
.t edit redo -> ! 13 NothingToRedo

.t configure -undo 1 -> =
.t insert 1.0 ab -> =
.t delete 1.0 -> =
.t edit undo -> =
.t configure -undo 0 -> =
.t edit canundo -> = 0
.t edit canredo -> = 0
.t edit undo -> =
.t edit redo -> =
.t insert 1.1 XY -> =
.t get 1.0 end -> = "aXYb\n"
.t configure -undo 1 -> =
.t edit canundo -> = 1
.t edit canredo -> = 1
.t edit redo -> =
.t get 1.0 end -> = "XYb\n"
.t edit undo -> =
.t get 1.0 end -> = "aXYb\n"
.t edit undo -> =
.t get 1.0 end -> = "XY\n"
.t edit undo -> ! 12 NothingToUndo
"#;

// The modified flag, and options.
pub(crate) const FLAGS: Scripts = r#"
.t edit modified 1 -> =
.t edit modified -> = 1
.t edit modified no -> =
.t edit modified -> = 0
.t edit modified yes -> =
.t edit modified -> = 1
.t edit modified off -> =
.t insert 1.0 "" -> =
.t tag add t 1.0 -> =
.t edit modified -> = 0
.t insert 1.0 a -> =
.t edit modified -> = 1
.t edit modified 0 -> =
.t edit modified -> = 0
.t delete 1.0 -> =
.t edit modified -> = 1

.t configure -undo 1 -> =
.t insert 1.0 a -> =
.t edit modified -> = 1
.t edit modified 0 -> =
.t edit modified -> = 0
.t edit separator -> =
.t insert 1.1 b -> =
.t edit modified -> = 1
.t edit undo -> =
.t edit modified -> = 0
.t edit undo -> =
.t edit modified -> = 1
.t edit redo -> =
.t edit modified -> = 0
.t edit redo -> =
.t edit modified -> = 1
.t edit undo -> =
.t insert 1.1 c -> =
.t edit modified -> = 1
.t edit modified 1 -> =
.t edit undo -> =
.t edit modified -> = 1

.t configure -undo 1 -> =
.t insert 1.0 a -> =
.t edit reset -> =
.t edit modified -> = 1
.t edit canundo -> = 0
.t edit undo -> ! 12 NothingToUndo
.t edit modified 0 -> =
.t insert 1.1 b -> =
.t edit modified -> = 1
.t edit undo -> =
.t edit modified -> = 0
.t get 1.0 end -> = "a\n"
.t edit canredo -> = 1
.t edit reset -> =
.t edit canredo -> = 0
.t edit modified -> = 0

.t cget -undo -> = 0
.t cget -autoseparators -> = 1
.t configure -undo yes -autoseparators off -> =
.t cget -undo -> = 1
.t cget -autoseparators -> = 0
.t configure -undo true -undo false -> =
.t cget -undo -> = 0
.t configure -undo x -undo 1 -> ! 9 BadOption
.t configure -undo 1 -font 1 -> ! 9 BadOption
.t configure -autoseparators 1 -undo 2 -> ! 9 BadOption
.t configure -undo TRUE -> ! 9 BadOption
.t configure -> ! 4 BadCommand
.t configure -undo -> ! 4 BadCommand
.t configure -undo 1 -font -> ! 4 BadCommand
.t cget -undo -> = 0
.t cget -autoseparators -> = 0
.t cget -> ! 4 BadCommand
.t cget -undo -undo -> ! 4 BadCommand
.t cget -font -> ! 9 BadOption
.t cget undo -> ! 9 BadOption

.t configure -undo 1 -> =
.t insert 1.0 a -> =
.t edit -> ! 4 BadCommand
.t edit frob -> ! 4 BadCommand
.t edit undo 1 -> ! 4 BadCommand
.t edit redo 1 -> ! 4 BadCommand
.t edit separator 1 -> ! 4 BadCommand
.t edit reset 1 -> ! 4 BadCommand
.t edit canundo 1 -> ! 4 BadCommand
.t edit canredo 1 -> ! 4 BadCommand
.t edit modified 0 0 -> ! 4 BadCommand
.t edit modified y -> ! 9 BadOption
.x edit undo -> ! 5 NoWidget
.t edit modified -> = 1
.t edit undo -> =
.t get 1.0 end -> = "\n"
"#;

// On a site of five characters, tombstones and the final newline included: what doesn't fit can't come back.
pub(crate) const UNDOING_FULL: Script = r#"
.t configure -undo 1 -> =
.t insert 1.0 abc -> =
.t delete 1.0 1.2 -> =
.t edit undo -> ! 18 TextFull
.t get 1.0 end -> = "c\n"
.t edit canundo -> = 1
.t edit canredo -> = 0
.t delete 1.0 -> =
.t edit separator -> =
.t edit undo -> ! 18 TextFull
.t edit modified -> = 1
"#;
