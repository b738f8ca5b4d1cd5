// Scripts about tags, each on a new site, as lines with their replies.
use crate::sites::Scripts;

// Each refusal of a tag command, in its order.
pub(crate) const TAG_REFUSALS: Scripts = r#"
.t tag -> ! 4 BadCommand
.t tag frob -> ! 4 BadCommand
.t tag add t -> ! 4 BadCommand
.t tag remove t -> ! 4 BadCommand
.t tag delete -> ! 4 BadCommand
.t tag raise -> ! 4 BadCommand
.t tag raise a b c -> ! 4 BadCommand
.t tag lower -> ! 4 BadCommand
.t tag lower a b c -> ! 4 BadCommand
.t tag names 1.0 1.0 -> ! 4 BadCommand
.t tag ranges -> ! 4 BadCommand
.t tag ranges a b -> ! 4 BadCommand
.t tag nextrange t -> ! 4 BadCommand
.t tag nextrange t 1.0 1.0 1.0 -> ! 4 BadCommand
.t tag prevrange t -> ! 4 BadCommand
.t tag prevrange t 1.0 1.0 1.0 -> ! 4 BadCommand

.t tag add "" x -> ! 14 BadName
.t tag add t x -> ! 2 BadIndex
.t tag add t sel.first x -> ! 3 NoneTagged
.t tag remove "" x -> ! 14 BadName
.t tag remove t 1.0 x -> ! 2 BadIndex
.t tag remove t sel.last -> ! 3 NoneTagged
.t tag delete t "" -> ! 14 BadName
.t tag raise q -> ! 7 NoTag
.t tag raise q "" -> ! 14 BadName
.t tag raise sel q -> ! 7 NoTag
.t tag lower q -> ! 7 NoTag
.t tag lower "" q -> ! 14 BadName
.t tag lower sel q -> ! 7 NoTag
.t tag names x -> ! 2 BadIndex
.t tag names sel.first -> ! 3 NoneTagged
.t tag ranges "" -> ! 14 BadName
.t tag nextrange "" x -> ! 14 BadName
.t tag nextrange q x -> ! 2 BadIndex
.t tag nextrange q 1.0 x -> ! 2 BadIndex
.t tag nextrange q 1.0 sel.last -> ! 3 NoneTagged
.t tag nextrange q 1.0 -> =
.t tag prevrange "" x -> ! 14 BadName
.t tag prevrange q x -> ! 2 BadIndex
.t tag prevrange q sel.first x -> ! 3 NoneTagged
.t tag prevrange q end -> =
.t tag names -> = sel
"#;

// The tag commands in turn.
pub(crate) const TAG_COMMANDS: Scripts = r#"
.t insert 1.0 ab t -> =
.t insert 1.1 X -> =
.t insert 1.0 Y -> =
.t tag ranges t -> = 1.1 1.4
.t tag names -> = sel t
.t tag nextrange t 1.2 -> =
.t tag prevrange t 1.2 -> = 1.1 1.4
.t tag lower t -> =
.t tag names -> = t sel

.t insert 1.0 abcdef -> =
.t tag add t 1.1 1.1 1.2 1.4 -> =
.t tag ranges t -> = 1.2 1.4
.t tag add u 1.0 1.1 1.3 1.2 1.4 1.5 -> =
.t tag ranges u -> = 1.0 1.1 1.4 1.5
.t tag add u 1.1 1.0 x -> ! 2 BadIndex
.t tag remove u 1.1 1.0 1.0 1.1 -> =
.t tag ranges u -> = 1.4 1.5
.t tag remove v 1.0 -> =
.t tag add w 1.3 1.3 -> =
.t tag names -> = sel t u w
.t tag raise t t -> =
.t tag lower t t -> =
.t tag names -> = sel t u w
.t tag raise sel t -> =
.t tag names -> = t sel u w
.t tag raise t w -> =
.t tag names -> = sel u w t
.t tag lower t u -> =
.t tag names -> = sel t u w
.t tag lower w -> =
.t tag names -> = w sel t u
.t tag raise w -> =
.t tag names -> = sel t u w
.t tag add t 1.3 1.5 -> =
.t tag ranges t -> = 1.2 1.5
.t index t.first -> = 1.2
.t index "t.last + 1 c" -> = 1.6
.t index v.first -> ! 2 BadIndex
.t index w.last -> ! 3 NoneTagged
.t tag names 1.4 -> = t u
.t tag names end -> =
.t tag delete t nosuch t u -> =
.t tag names -> = sel w
.t tag names 1.4 -> =
.t tag ranges t -> =

.t insert 1.0 "abcdef\nghij" -> =
.t tag add t 1.2 2.2 -> =
.t tag prevrange t end 1.4 -> =
.t tag prevrange t end 2.2 -> =
.t tag prevrange t end 1.1 -> = 1.2 2.2
.t tag prevrange t 1.2 -> =
.t tag prevrange t 1.3 -> = 1.2 2.2
.t tag nextrange t 1.2 -> = 1.2 2.2
.t tag nextrange t 1.3 -> =
.t tag nextrange t 1.0 1.2 -> =
.t tag nextrange t 1.0 1.3 -> = 1.2 2.2
.t tag add t 2.3 -> =
.t tag nextrange t 1.3 -> = 2.3 2.4
.t tag prevrange t end -> = 2.3 2.4
.t tag prevrange t 2.3 -> = 1.2 2.2
.t tag ranges t -> = 1.2 2.2 2.3 2.4
"#;

// What is tagged after several writes.
pub(crate) const TAG_WRITES: Scripts = "
.t insert 1.0 abc -> =
.t tag add sel 1.1 1.2 -> =
.t tag add t 1.0 end -> =
.t tag names 1.1 -> = sel t
.t index sel.last -> = 1.2
.t tag delete sel -> =
.t tag ranges sel -> = 1.1 1.2
.t delete 1.0 end -> =
.t tag ranges t -> =
.t tag names -> = sel t
.t insert 1.0 a t b u c -> =
.t tag ranges t -> = 1.0 1.1
.t tag ranges u -> = 1.1 1.2

.t insert 1.0 abcde -> =
.t tag add t 1.2 1.4 1.1 1.3 -> =
.t tag remove t 1.2 1.3 -> =
.t tag add sel 1.0 1.2 -> =
.t tag add u 1.4 end -> =
.t tag add v 1.1 1.1 -> =
.t tag ranges t -> = 1.1 1.2 1.3 1.4
.t tag ranges sel -> = 1.0 1.2
.t tag ranges u -> = 1.4 2.0
.t tag ranges v -> =
.t tag names -> = sel t u v
.t tag delete t sel x t -> =
.t tag names -> = sel u v
.t tag ranges t -> =
.t tag ranges sel -> = 1.0 1.2
.t tag ranges u -> = 1.4 2.0
.t tag remove sel 1.1 1.9 -> =
.t tag ranges sel -> = 1.0 1.1

.t insert 1.0 abcdef -> =
.t tag add t 1.1 1.3 -> =
.t tag add t 1.4 -> =
.t tag add u 1.2 1.2 -> =
.t tag add sel 1.2 -> =
.t tag names -> = sel t u
.t tag ranges t -> = 1.1 1.3 1.4 1.5
.t tag ranges u -> =
.t tag nextrange t 1.1 -> = 1.1 1.3
.t tag nextrange t 1.2 -> = 1.4 1.5
.t tag prevrange t 1.4 -> = 1.1 1.3
.t tag prevrange t 1.1 -> =
.t tag names 1.2 -> = sel t
.t tag names end -> =
.t tag raise sel -> =
.t tag lower t sel -> =
.t tag names -> = u t sel
.t tag remove t 1.1 -> =
.t tag ranges t -> = 1.2 1.3 1.4 1.5
.t tag delete u t sel -> =
.t tag names -> = sel
";

// The tags and the selection that new text gets.
pub(crate) const TAGGED_TEXT: Scripts = r#"
.t insert 1.0 abc "z a m" -> =
.t tag names -> = sel a m z
.t insert 1.0 "" q -> =
.t insert 1.0 x {} -> =
.t tag names 1.0 -> =
.t insert 1.3 y "b\n a\nb {c d}" -> =
.t tag names 1.3 -> = a b "c d"
.t insert 1.4 Z -> =
.t tag names 1.4 -> = a
.t insert 1.0 x "\"a" -> ! 19 BadQuoting
.t insert x x "{a" -> ! 19 BadQuoting
.t insert x x "a {}" y -> ! 14 BadName
.t insert x x a y -> ! 2 BadIndex
.t insert nosuch.first "" a -> ! 2 BadIndex
.t insert sel.first "" a -> ! 3 NoneTagged
.t get 1.0 end -> = "xabyZc\n"

.t insert 1.0 abcd -> =
.t tag add sel 1.1 1.3 -> =
.t insert 1.2 X -> =
.t tag ranges sel -> = 1.1 1.4
.t insert 1.1 Y -> =
.t tag ranges sel -> = 1.2 1.5
.t insert 1.0 p sel q t r "t sel" s -> =
.t tag ranges sel -> = 1.0 1.1 1.2 1.3 1.6 1.9
.t tag ranges t -> = 1.1 1.3
.t tag remove sel 1.0 end -> =
.t tag ranges sel -> =
.t tag add sel end-1c -> =
.t tag add t end-1c end -> =
.t delete 1.0 end -> =
.t tag ranges sel -> =
.t tag ranges t -> =
.t tag names -> = sel t

.t insert 1.0 ab "u sel t u" c t de -> =
.t get 1.0 end -> = "abcde\n"
.t tag ranges t -> = 1.0 1.3
.t tag ranges u -> = 1.0 1.2
.t tag ranges sel -> = 1.0 1.2
.t insert 1.1 X -> =
.t insert 1.0 Y -> =
.t tag ranges t -> = 1.1 1.5
.t tag ranges u -> = 1.1 1.4
.t tag ranges sel -> = 1.1 1.4
.t insert 1.3 Z {} W -> =
.t get 1.0 end -> = "YaXZWbcde\n"
.t tag ranges t -> = 1.1 1.3 1.5 1.7
.t tag ranges sel -> = 1.1 1.3 1.5 1.6

.t insert 1.0 ab -> =
.t tag add t 1.0 end -> =
.t delete 1.1 1.2 -> =
.t tag ranges t -> = 1.0 2.0
.t delete 1.1 end -> =
.t tag ranges t -> = 1.0 1.1
.t insert 1.1 c -> =
.t tag ranges t -> = 1.0 1.1
.t insert 1.0 d -> =
.t tag ranges t -> = 1.1 1.2
"#;
