// Scripts about replacements and dumps, each on a new site, as lines with their replies.
use crate::sites::{Script, Scripts};

// Text in the place of text, with its tags and its marks.
pub(crate) const REPLACEMENTS: Scripts = r#"
.t insert 1.0 hello -> =
.t replace 1.1 1.3 EY -> =
.t get 1.0 1.end -> = hEYlo
.t replace 1.3 1.1 x -> ! 10 BackwardsRange
.t replace 1.1 1.1 - -> =
.t replace 1.0 1.1 "" -> =
.t get 1.0 end -> = "-EYlo\n"

.t insert 1.0 ab -> =
.t replace 1.0 end x -> =
.t get 1.0 end -> = "x\n"
.t insert end "\nabc" -> =
.t replace 2.0 end Y -> =
.t get 1.0 end -> = "xY\n"

.t insert 1.0 abcd t -> =
.t mark set l 1.2 -> =
.t mark gravity l left -> =
.t mark set r 1.2 -> =
.t replace 1.1 1.3 XY -> =
.t tag ranges t -> = 1.0 1.4
.t index l -> = 1.1
.t index r -> = 1.3
.t replace 1.1 1.3 x u y {} z -> =
.t get 1.0 1.end -> = axyzd
.t tag ranges t -> = 1.0 1.1 1.4 1.5
.t tag ranges u -> = 1.1 1.2
.t tag add sel 1.0 1.end -> =
.t replace 1.1 1.3 Q -> =
.t tag ranges sel -> = 1.0 1.4

.t replace 1.0 1.0 -> ! 4 BadCommand
.t replace x y z "{" -> ! 19 BadQuoting
.t replace 1.0 1.0 a "t {}" -> ! 14 BadName
.t replace x t.first a -> ! 2 BadIndex
.t replace 1.0 sel.first a -> ! 3 NoneTagged
.t get 1.0 end -> = "\n"
"#;

// On a site of four characters, tombstones and the final newline included.
pub(crate) const FULL_SITE: Script = r#"
.t insert 1.0 abc -> =
.t replace 1.0 1.1 x -> ! 18 TextFull
.t get 1.0 end -> = "abc\n"
.t replace 1.0 1.1 "" -> =
.t insert 1.0 x -> ! 18 TextFull
.t get 1.0 end -> = "bc\n"
"#;

// What a dump shows, in its order, and what is refused.
pub(crate) const DUMPS: Scripts = r#"
.t insert 1.0 hello -> =
.t tag add t 1.1 1.3 -> =
.t mark set m 1.2 -> =
.t dump 1.0 end -> = text h 1.0 tagon t 1.1 text e 1.1 mark m 1.2 text l 1.2 tagoff t 1.3 text lo 1.3 mark current 1.5 mark insert 1.5 text "\n" 1.5
.t dump -text 1.0 end -> = text "hello\n" 1.0
.t dump 1.0 1.4 -> = text h 1.0 tagon t 1.1 text e 1.1 mark m 1.2 text l 1.2 tagoff t 1.3 text l 1.3
.t dump -tag 1.0 end -> = tagon t 1.1 tagoff t 1.3
.t dump -tag 1.3 -> = tagoff t 1.3
.t dump -mark 1.0 end -> = mark m 1.2 mark current 1.5 mark insert 1.5
.t dump -mark -text 1.2 -> = mark m 1.2 text l 1.2
.t dump -text 1.3 1.1 -> =

.t insert 1.0 "ab\ncd" -> =
.t tag add u 1.1 2.1 -> =
.t tag add t 1.0 1.1 -> =
.t tag add t 2.1 end -> =
.t mark set z end -> =
.t dump -all 1.0 end -> = tagon t 1.0 text a 1.0 tagoff t 1.1 tagon u 1.1 text "b\n" 1.1 text c 2.0 tagoff u 2.1 tagon t 2.1 text d 2.1 mark current 2.2 mark insert 2.2 text "\n" 2.2 tagoff t 3.0 mark z 3.0
.t dump -mark end -> = mark z 3.0
.t dump -mark 2.2 -> = mark current 2.2 mark insert 2.2 mark z 3.0
.t dump -text 1.0 2.1 -> = text "ab\n" 1.0 text c 2.0

.t dump -> ! 4 BadCommand
.t dump -text -> ! 4 BadCommand
.t dump 1.0 1.0 1.0 -> ! 4 BadCommand
.t dump -frob 1.0 -> ! 9 BadOption
.t dump -- 1.0 -> ! 9 BadOption
.t dump x -> ! 2 BadIndex
.t dump 1.0 sel.last -> ! 3 NoneTagged
"#;
