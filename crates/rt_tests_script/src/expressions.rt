// Scripts about index expressions, each on a new site, as lines with their replies. The places are worked out by hand from
// the tables of docs/WIDGET.md, "Indices".
use crate::sites::Scripts;

// Positions, `end`, marks and tags, and characters on and back.
pub(crate) const BASES: Scripts = r#"
.t insert 1.0 "ab cd_1\n\nÄé x" -> =
.t mark set insert 3.4 -> =
.t mark set current 1.4 -> =
.t mark set m 3.0 -> =
.t mark set t.last 1.1 -> =
.t tag add t 1.3 1.6 -> =
.t tag add "a b" 3.0 3.2 -> =
.t tag add x+y 3.3 -> =
.t tag add u 1.0 1.0 -> =
.t index 0.0 -> = 1.0
.t index 0.5 -> = 1.0
.t index 0.end -> = 1.0
.t index 1.0 -> = 1.0
.t index 1.3 -> = 1.3
.t index 1.7 -> = 1.7
.t index 1.99999999999999999999 -> = 1.7
.t index 1.end -> = 1.7
.t index 2.0 -> = 2.0
.t index 2.1 -> = 2.0
.t index 2.end -> = 2.0
.t index 3.1 -> = 3.1
.t index 3.4 -> = 3.4
.t index 3.end -> = 3.4
.t index 4.0 -> = 4.0
.t index 4.end -> = 4.0
.t index 99999999999999999999.1 -> = 4.0
.t index 01.02 -> = 1.2
.t index end -> = 4.0
.t index insert -> = 3.4
.t index current -> = 1.4
.t index m -> = 3.0
.t index t.first -> = 1.3
.t index t.last -> = 1.1
.t index "a b.first" -> = 3.0
.t index "a b.last" -> = 3.2
.t index x+y.first -> = 3.3
.t index "x+y.last - 1c" -> = 3.3
.t index "1.0 + 2c" -> = 1.2
.t index "1.0+2 chars" -> = 1.2
.t index "1.0 + -1 any chars" -> = 1.0
.t index "1.3 - 2 indices" -> = 1.1
.t index "1.3 - -2 i" -> = 1.5
.t index "3.4 + 1 c" -> = 4.0
.t index 3.4+9c -> = 4.0
.t index "end - 1c" -> = 3.4
.t index "end + 1c" -> = 4.0
.t index "1.0 - 1c" -> = 1.0
.t index "1.0+2any c" -> = 1.2
.t index end-99999999999999999999c -> = 1.0
.t index "m + 0 c" -> = 3.0
"#;

// Lines on and back, keywords, and several modifiers.
pub(crate) const MODIFIERS: Scripts = r#"
.t insert 1.0 "ab cd_1\n\nÄé x" -> =
.t mark set insert 3.4 -> =
.t mark set current 1.4 -> =
.t mark set m 3.0 -> =
.t mark set t.last 1.1 -> =
.t tag add t 1.3 1.6 -> =
.t tag add "a b" 3.0 3.2 -> =
.t tag add x+y 3.3 -> =
.t tag add u 1.0 1.0 -> =
.t index "1.3 + 1 lines" -> = 2.0
.t index "1.3 + 2 l" -> = 3.3
.t index "1.7 +2lines" -> = 3.4
.t index "3.4 + 1 line" -> = 3.4
.t index "3.1 - 2 lines" -> = 1.1
.t index "3.4 - 1 lines" -> = 2.0
.t index "1.5 - 5 lines" -> = 1.5
.t index "end + 1 lines" -> = 4.0
.t index "end - 0 lines" -> = 4.0
.t index "end - 1 lines" -> = 3.0
.t index "end - 2 lines" -> = 2.0
.t index "end - 9 lines" -> = 1.0
.t index "1.5 linestart" -> = 1.0
.t index "3.4 linestart" -> = 3.0
.t index "end linestart" -> = 4.0
.t index "1.5 lineend" -> = 1.7
.t index "3.4 linee" -> = 3.4
.t index "end lineend" -> = 4.0
.t index "1.5 wordstart" -> = 1.3
.t index "3.1 wordstart" -> = 3.0
.t index "1.2 wordstart" -> = 1.2
.t index "3.4 wordstart" -> = 3.4
.t index "end wordstart" -> = 4.0
.t index "1.4 wordend" -> = 1.7
.t index "1.7 wordend" -> = 2.0
.t index "3.0 worde" -> = 3.2
.t index "3.3 wordend" -> = 3.4
.t index "3.4 wordend" -> = 3.4
.t index "end wordend" -> = 4.0
.t index "1.3 wordstart - 2 c" -> = 1.1
.t index "1.0 lineen" -> = 1.7
.t index "1.4 any wordstart" -> = 1.3
.t index "1.0 any linestart" -> = 1.0
.t index "insert linestart + 1 c  " -> = 3.1
.t index "1.0 " -> = 1.0
.t index "1.0 +1c +1c +1c +1c +1c +1c" -> = 1.6
.t index "end - 1 lines + 1 lines - 1c" -> = 2.0
"#;

// Words that are no expressions, and expressions that have no place.
pub(crate) const NO_PLACES: Scripts = r#"
.t insert 1.0 "ab cd_1\n\nÄé x" -> =
.t mark set insert 3.4 -> =
.t mark set current 1.4 -> =
.t mark set m 3.0 -> =
.t mark set t.last 1.1 -> =
.t tag add t 1.3 1.6 -> =
.t tag add "a b" 3.0 3.2 -> =
.t tag add x+y 3.3 -> =
.t tag add u 1.0 1.0 -> =
.t index "" -> ! 2 BadIndex
.t index " 1.0" -> ! 2 BadIndex
.t index "1.0 + 2" -> ! 2 BadIndex
.t index "1.0 display linestart" -> ! 2 BadIndex
.t index "1.0 line" -> ! 2 BadIndex
.t index "1.0 lin" -> ! 2 BadIndex
.t index "1.0 linestartx" -> ! 2 BadIndex
.t index "1.0linestart + 1" -> ! 2 BadIndex
.t index "1.0 + 2 x" -> ! 2 BadIndex
.t index "1.0 + 2 charsx" -> ! 2 BadIndex
.t index "1.0 + 2 any" -> ! 2 BadIndex
.t index "1.0 + 2 any any c" -> ! 2 BadIndex
.t index "1.0 + + 2c" -> ! 2 BadIndex
.t index "1.0 +- 2c" -> ! 2 BadIndex
.t index "1.0 c" -> ! 2 BadIndex
.t index "1.0 any" -> ! 2 BadIndex
.t index "1.0 + c" -> ! 2 BadIndex
.t index "1.0.0 x" -> ! 2 BadIndex
.t index "end 1c" -> ! 2 BadIndex
.t index "end + 2 linestart" -> ! 2 BadIndex
.t index "insert foo" -> ! 2 BadIndex
.t index "insert foo.first" -> ! 2 BadIndex
.t index "current + " -> ! 2 BadIndex
.t index "sel.first x" -> ! 2 BadIndex
.t index + -> ! 2 BadIndex
.t index "1.0 +1c." -> ! 2 BadIndex
.t index "a b" -> ! 2 BadIndex
.t index 1.0+2clinestart -> ! 2 BadIndex
.t index "1.0 LINESTART" -> ! 2 BadIndex

.t insert 1.0 "ab cd_1\n\nÄé x" -> =
.t mark set insert 3.4 -> =
.t mark set current 1.4 -> =
.t mark set m 3.0 -> =
.t mark set t.last 1.1 -> =
.t tag add t 1.3 1.6 -> =
.t tag add "a b" 3.0 3.2 -> =
.t tag add x+y 3.3 -> =
.t tag add u 1.0 1.0 -> =
.t index nobody -> ! 2 BadIndex
.t index 1 -> ! 2 BadIndex
.t index 1. -> ! 2 BadIndex
.t index .5 -> ! 2 BadIndex
.t index @1,2 -> ! 2 BadIndex
.t index ende -> ! 2 BadIndex
.t index "1.0\tlinestart" -> ! 2 BadIndex
.t index v.first -> ! 2 BadIndex
.t index t.firs -> ! 2 BadIndex
.t index "a c.first" -> ! 2 BadIndex
.t index "m x.last" -> ! 2 BadIndex
.t index sel.first -> ! 3 NoneTagged
.t index "sel.last linestart" -> ! 3 NoneTagged
.t index u.first -> ! 3 NoneTagged
.t index "u.last + 1 c" -> ! 3 NoneTagged
"#;
