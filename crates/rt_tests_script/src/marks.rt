// Scripts about indices and marks, each on a new site, as lines with their replies.
use crate::sites::Scripts;

// Index expressions.
pub(crate) const INDICES: Scripts = r#"
.t index end -> = 2.0
.t get 1.0 end -> = "\n"
.t index end-1c -> = 1.0

.t insert 1.0 hi -> =
.t index "1.0 -1c +1c" -> = 1.1
.t index 9.9 -> = 2.0
.t index 1.99 -> = 1.2
.t index "1.0 + 5 lines" -> = 1.0
.t index "end - 1 lines" -> = 1.0
.t index "end linestart" -> = 2.0
.t index "1.0 wordend" -> = 1.2
.t index "1.2 wordend" -> = 1.2
.t index x.first -> ! 2 BadIndex
.t index sel.first -> ! 3 NoneTagged

.t insert 1.0 "ab cd" -> =
.t index "1.3 wordstart - 2 c" -> = 1.1
.t index "1.0 + -1 any chars" -> = 1.0
.t index "1.0 lineen" -> = 1.5
.t index "1.4 any wordstart" -> = 1.3
.t index "1.0 line" -> ! 2 BadIndex
.t mark set insert end -> =
.t index insert -> = 1.5
.t mark unset insert -> =
.t index insert -> = 1.5
.t mark gravity insert left -> =
.t mark set insert 1.0 -> =
.t mark gravity insert -> = left

.t insert 1.0 "one two\nthree" -> =
.t get "1.4 wordstart" "1.4 wordend" -> = two
.t delete "1.3 linestart" "1.3 + 1 c" -> =
.t get 1.0 end -> = "two\nthree\n"
.t compare "1.0 + 1 lines" == 2.0 -> = 1
.t count -lines "1.0 lineend" end-1c -> = 1
.t insert "end - 1 c linestart" X -> =
.t get "2.0 linestart" "2.0 lineend" -> = Xthree

.t index "sel.first foo" -> ! 2 BadIndex
.t compare sel.first < x -> ! 3 NoneTagged
.t compare x < sel.first -> ! 2 BadIndex
.t get 1.0 sel.last -> ! 3 NoneTagged
.t insert sel.first a -> ! 3 NoneTagged
.t delete 1.0 sel.last x -> ! 3 NoneTagged
.t count sel.first 1.0 -> ! 3 NoneTagged
.t index "1.0 " -> = 1.0
.t index " 1.0" -> ! 2 BadIndex
.t index @1,2 -> ! 2 BadIndex

.t index end -> = 2.0
.t index end-1c -> = 1.0
.t insert 1.0 hi -> =
.t index "1.0 -1c +1c" -> = 1.1
.t index end-1c -> = 1.2
.t index "insert wordstart - 1 c" -> = 1.1
.t index "current lineend" -> = 1.2
.t insert "insert lineend" ! -> =
.t delete "end - 2 chars" -> =
.t get 1.0 "1.0 lineend" -> = hi
"#;

// Names of marks, and each refusal of a mark command.
pub(crate) const MARK_WORDS: Scripts = r#"
.t mark -> ! 4 BadCommand
.t mark frob -> ! 4 BadCommand
.t mark set a -> ! 4 BadCommand
.t mark set a 1.0 b -> ! 4 BadCommand
.t mark unset -> ! 4 BadCommand
.t mark gravity -> ! 4 BadCommand
.t mark gravity a left b -> ! 4 BadCommand
.t mark names x -> ! 4 BadCommand
.t mark next -> ! 4 BadCommand
.t mark next 1.0 1.0 -> ! 4 BadCommand
.t mark previous -> ! 4 BadCommand

.t mark gravity "" up -> ! 9 BadOption
.t mark gravity q up -> ! 9 BadOption
.t mark gravity "" -> ! 14 BadName
.t mark gravity "" left -> ! 14 BadName
.t mark gravity q -> ! 8 NoMark
.t mark gravity q left -> ! 8 NoMark
.t mark set "" x -> ! 14 BadName
.t mark set q x -> ! 2 BadIndex
.t mark set q sel.first -> ! 3 NoneTagged
.t mark unset insert "" -> ! 14 BadName
.t mark next x -> ! 2 BadIndex
.t mark next sel.last -> ! 3 NoneTagged
.t mark next "" -> ! 2 BadIndex
.t mark previous x -> ! 2 BadIndex
.t mark previous sel.first -> ! 3 NoneTagged
.t mark names -> = current insert

.t insert 1.0 abc -> =
.t mark set "" x -> ! 14 BadName
.t mark set nnnnnnnnnnnnnnnnnnnnnnnnnnnnnnnnnnnnnnnnnnnnnnnnnnnnnnnnnnnnnnnnnnnnnnnnnnnnnnnnnnnnnnnnnnnnnnnnnnnnnnnnnnnnnnnnnnnnnnnnnnnnnnnnnnnnnnnnnnnnnnnnnnnnnnnnnnnnnnnnnnnnnnnnnnnnnnnnnnnnnnnnnnnnnnnnnnnnnnnnnnnnnnnnnnnnnnnnnnnnnnnnnnnnnnnnnnnnnnnnnnnnnnnnnnnnnnnn 1.0 -> ! 14 BadName
.t mark set m x -> ! 2 BadIndex
.t mark set insert sel.first -> ! 3 NoneTagged
.t mark gravity "" -> ! 14 BadName
.t mark gravity m -> ! 8 NoMark
.t mark gravity "" up -> ! 9 BadOption
.t mark gravity "" left -> ! 14 BadName
.t mark gravity m left -> ! 8 NoMark
.t mark set m 1.2 -> =
.t mark unset m "" -> ! 14 BadName
.t index m -> = 1.2
.t mark next "" -> ! 2 BadIndex
.t mark previous nnnnnnnnnnnnnnnnnnnnnnnnnnnnnnnnnnnnnnnnnnnnnnnnnnnnnnnnnnnnnnnnnnnnnnnnnnnnnnnnnnnnnnnnnnnnnnnnnnnnnnnnnnnnnnnnnnnnnnnnnnnnnnnnnnnnnnnnnnnnnnnnnnnnnnnnnnnnnnnnnnnnnnnnnnnnnnnnnnnnnnnnnnnnnnnnnnnnnnnnnnnnnnnnnnnnnnnnnnnnnnnnnnnnnnnnnnnnnnnnnnnnnnnnnnnnnnnn -> ! 2 BadIndex
.t mark next sel.last -> ! 3 NoneTagged
.t mark gravity m left -> =
.t mark set m 1.1 -> =
.t mark gravity m -> = left

.t insert 1.0 abcdef -> =
.t mark set "a b" 1.1 -> =
.t mark set m+1c 1.2 -> =
.t mark set 1.0 1.3 -> =
.t mark set end 1.4 -> =
.t mark set t.first 1.5 -> =
.t mark next 1.0 -> = "a b"
.t mark next end -> =
.t mark previous end -> = insert
.t mark next m+1c -> = 1.0
.t mark next "a b" -> = m+1c
.t mark previous m+1c -> = "a b"
.t mark next t.first -> = current
.t index t.first -> = 1.5
.t index m+1c -> ! 2 BadIndex
.t mark previous 1.1 -> =
.t mark previous 1.2 -> = "a b"
.t mark gravity "a b" -> = right
.t mark unset end m+1c q -> =
.t mark next "a b" -> = 1.0
.t mark next "1.3 +1c" -> = t.first
"#;

// The order of marks, and the two own ones.
pub(crate) const MARK_ORDER: Scripts = r#"
.t insert 1.0 ab -> =
.t mark set l 1.1 -> =
.t mark gravity l left -> =
.t mark set r 1.1 -> =
.t insert 1.1 XY -> =
.t index l -> = 1.1
.t index r -> = 1.3
.t index insert -> = 1.4
.t mark names -> = current insert l r
.t mark next 1.0 -> = l
.t mark next l -> = r
.t mark previous r -> = l
.t mark gravity r -> = right

.t insert 1.0 abcdef -> =
.t mark set 1.0 1.3 -> =
.t index 1.0 -> = 1.0
.t mark set end 1.4 -> =
.t index end -> = 2.0
.t mark set "a b" 1.5 -> =
.t index "a b" -> ! 2 BadIndex
.t mark set m+1c 1.5 -> =
.t index m+1c -> ! 2 BadIndex
.t mark set t.first 1.1 -> =
.t index t.first -> = 1.1
.t index "t.first + 1 c" -> = 1.2
.t mark names -> = 1.0 "a b" current end insert m+1c t.first
.t mark next "a b" -> = m+1c
.t mark next m+1c -> = current
.t mark previous m+1c -> = "a b"
.t mark next 1.0 -> = t.first
.t mark previous end -> = insert
.t mark gravity 1.0 -> = right
.t mark unset 1.0 "a b" m+1c end nosuch -> =
.t mark names -> = current insert t.first

.t mark set zz 1.0 -> =
.t mark set aa 1.0 -> =
.t mark gravity zz left -> =
.t mark next 1.0 -> = zz
.t mark next zz -> = aa
.t mark next aa -> = current
.t mark set insert end -> =
.t index insert -> = 1.0
.t mark set current end -> =
.t index current -> = 2.0
.t insert insert x -> =
.t index zz -> = 1.0
.t index insert -> = 1.1

.t insert 1.0 abc -> =
.t mark set insert end -> =
.t mark set current end -> =
.t index insert -> = 1.3
.t index current -> = 2.0
.t mark set insert 1.1 -> =
.t mark gravity insert left -> =
.t insert insert x -> =
.t index insert -> = 1.1
.t mark gravity insert -> = left
.t mark gravity current -> = right
.t mark unset insert current -> =
.t index insert -> = 1.1
.t mark next insert -> = current
.t mark previous insert -> =
.t mark previous current -> = insert
"#;

// Where marks stand after edits.
pub(crate) const MARK_PLACES: Scripts = r#"
.t insert 1.0 abcdef -> =
.t mark set m 1.3 -> =
.t delete 1.1 1.5 -> =
.t index m -> = 1.1
.t delete 1.0 end -> =
.t index m -> = 1.0
.t index insert -> = 1.0
.t mark names -> = current insert m
.t insert end xy -> =
.t index m -> = 1.2

.t insert 1.0 abc -> =
.t mark set a 1.1 -> =
.t mark set b 1.2 -> =
.t mark set c end -> =
.t delete 1.0 1.1 1.2 1.3 -> =
.t index a -> = 1.0
.t index b -> = 1.1
.t index c -> = 2.0
.t index insert -> = 1.1
.t mark next 1.1 -> = b
.t mark next b -> = current
.t mark next insert -> = c
.t mark next c -> =
.t mark previous a -> =
.t mark previous 1.1 -> = a
.t mark previous end -> = insert

.t insert 1.0 ab -> =
.t mark set l 1.1 -> =
.t mark set r 1.1 -> =
.t mark gravity l left -> =
.t insert 1.1 XY -> =
.t index l -> = 1.1
.t index r -> = 1.3
.t index insert -> = 1.4
.t mark next l -> = r
.t mark unset r -> =
.t index r -> ! 2 BadIndex

.t insert 1.0 aXYb -> =
.t mark gravity insert -> = right
.t mark gravity insert left -> =
.t insert insert ! -> =
.t index insert -> = 1.4
.t index current -> = 1.5
.t delete "insert - 2 c" current -> =
.t index insert -> = 1.2
.t index current -> = 1.2
.t get 1.0 end -> = "aX\n"

.t mark set m end -> =
.t mark set insert end -> =
.t mark set current end -> =
.t index m -> = 2.0
.t index insert -> = 1.0
.t insert end "ab\ncd" -> =
.t index m -> = 3.0
.t index current -> = 3.0
.t index insert -> = 2.2
.t delete 1.0 end -> =
.t index m -> = 2.0
.t index current -> = 2.0
.t index insert -> = 1.0
"#;
