// Scripts about what searches find, each on a new site, as lines with their replies.
use crate::sites::Scripts;

// Where patterns stand: the first place, and all of them.
pub(crate) const FOUND: Scripts = r#"
.t insert 1.0 abcabc -> =
.t search abc 1.4 -> = 1.0
.t search -all abc 1.4 -> = 1.0 1.3
.t search abc 1.4 2.0 -> =
.t search -all abc 1.4 2.0 -> =
.t search -backwards abc 1.0 -> = 1.3
.t search -all -backwards abc 1.0 -> = 1.3 1.0
.t search -nocase BC 1.0 -> = 1.1
.t search -all -nocase BC 1.0 -> = 1.1 1.4
.t search abc 1.0 1.2 -> = 1.0
.t search -all abc 1.0 1.2 -> = 1.0
.t search -strictlimits abc 1.0 1.2 -> =
.t search -all -strictlimits abc 1.0 1.2 -> =

.t insert 1.0 aaaa -> =
.t search aa 1.0 -> = 1.0
.t search -all aa 1.0 -> = 1.0 1.2
.t search -backwards aa 2.0 -> = 1.2
.t search -all -backwards aa 2.0 -> = 1.2 1.0
.t search -all -overlap aa 1.1 -> = 1.1 1.2 1.0
.t search -all -overlap -backwards aa 1.2 -> = 1.1 1.0 1.2

.t insert 1.0 ab -> =
.t search "\na" 1.0 -> =
.t search -all "\na" 1.0 -> =
.t search -backwards "\na" 1.0 -> =
.t search -all -backwards "\na" 1.0 -> =
.t search a 1.1 -> = 1.0
.t search -all a 1.1 -> = 1.0
.t search "ab\nc" 1.0 -> =
.t search -all "ab\nc" 1.0 -> =

.t insert 1.0 "xab\ncd" -> =
.t search "ab\nc" 1.0 -> = 1.1
.t search -all "ab\nc" 1.0 -> = 1.1
.t search "ab\nc" 1.2 -> = 1.1
.t search -all "ab\nc" 1.2 -> = 1.1
.t search -backwards "ab\nc" 2.0 -> = 1.1
.t search -all -backwards "ab\nc" 2.0 -> = 1.1
.t search -backwards "ab\nc" 1.3 -> = 1.1
.t search -all -backwards "ab\nc" 1.3 -> = 1.1

.t insert 1.0 "ab\ncab\nc" -> =
.t search "b\nc" 1.0 -> = 1.1
.t search -all "b\nc" 1.0 -> = 1.1 2.2
.t search -backwards "b\nc" 4.0 -> = 2.2
.t search -all -backwards "b\nc" 4.0 -> = 2.2 1.1

.t insert 1.0 "abcd abcd" -> =
.t search -strictlimits bcd 1.7 -> = 1.1
.t search -all -strictlimits bcd 1.7 -> = 1.1
.t search -strictlimits bcd 1.2 -> = 1.6
.t search -all -strictlimits bcd 1.2 -> = 1.6
.t search -strictlimits abcd 1.6 1.8 -> =
.t search -all -strictlimits abcd 1.6 1.8 -> =
.t search -strictlimits -backwards bcd 1.3 -> = 1.6
.t search -all -strictlimits -backwards bcd 1.3 -> = 1.6
.t search -strictlimits -backwards bcd 1.8 1.0 -> = 1.1
.t search -all -strictlimits -backwards bcd 1.8 1.0 -> = 1.1

.t insert 1.0 "ab\ncd" -> =
.t search -strictlimits "b\nc" 1.0 2.0 -> =
.t search -all -strictlimits "b\nc" 1.0 2.0 -> =
.t search -strictlimits "b\ncd" 1.0 2.1 -> =
.t search -all -strictlimits "b\ncd" 1.0 2.1 -> =

.t insert 1.0 aééb -> =
.t search -strictlimits aéé 1.0 1.3 -> = 1.0
.t search -all -strictlimits aéé 1.0 1.3 -> = 1.0
.t search -strictlimits aéé 1.0 1.2 -> =
.t search -all -strictlimits aéé 1.0 1.2 -> =

.t insert 1.0 "ςΣ x" -> =
.t search -nocase σ 1.0 -> = 1.0
.t search -all -nocase σ 1.0 -> = 1.0 1.1

.t insert 1.0 ſİ -> =
.t search -nocase s 1.0 -> = 1.0
.t search -all -nocase s 1.0 -> = 1.0
.t search -nocase i 1.0 -> =
.t search -all -nocase i 1.0 -> =

.t insert 1.0 aaaaa -> =
.t search aa 1.1 -> = 1.1
.t search -all aa 1.1 -> = 1.1 1.3
.t search aa 1.2 -> = 1.2
.t search -all aa 1.2 -> = 1.2 1.0
.t search -backwards aa 1.3 -> = 1.2
.t search -all -backwards aa 1.3 -> = 1.2 1.0
"#;

// The words of searches in their order, and each refusal of one.
pub(crate) const SEARCH_WORDS: Scripts = r#"
.t insert 1.0 abcabc -> =
.t search abc 1.4 -> = 1.0
.t search abc 1.4 end -> =
.t search -backwards abc 1.0 -> = 1.3
.t search -nocase BC 1.0 -> = 1.1
.t search abc 1.0 1.2 -> = 1.0
.t search -strictlimits abc 1.0 1.2 -> =
.t search -forwards -backwards abc 1.0 -> = 1.3
.t search -backwards -exact -forwards -- abc 1.4 -> = 1.0
.t search BC 1.0 -> =

.t insert 1.0 aaaa -> =
.t search -all aa 1.0 -> = 1.0 1.2
.t search -all -overlap aa 1.0 -> = 1.0 1.1 1.2
.t search -all -backwards aa end -> = 1.2 1.0

.t insert 1.0 "a-x\n--a" -> =
.t search -- -x 1.0 -> = 1.1
.t search -all -- -- 1.0 -> = 2.0
.t search -all a 1.0 -> = 1.0 2.2
.t search -all -backwards a 2.0 -> = 1.0 2.2
.t search "x\n-" 1.0 -> = 1.2

.t insert 1.0 abc -> =
.t search -> ! 4 BadCommand
.t search a -> ! 4 BadCommand
.t search -x a -> ! 4 BadCommand
.t search a 1.0 1.1 1.2 -> ! 4 BadCommand
.t search -x a 1.0 -> ! 9 BadOption
.t search -overlap a 1.0 -> ! 9 BadOption
.t search -overlap "" x -> ! 9 BadOption
.t search "" x -> ! 2 BadIndex
.t search a sel.first -> ! 3 NoneTagged
.t search "" 1.0 x -> ! 2 BadIndex
.t search "" 1.0 -> ! 11 EmptyPattern

.t insert 1.0 "ax\n\nxbx\nx" -> =
.t search -all -overlap x 1.0 -> = 1.1 3.0 3.2 4.0
.t search -all -overlap "\n" 1.0 -> = 1.2 2.0 3.3 4.1
.t search -all -overlap x 3.1 -> = 3.2 4.0 1.1 3.0
.t search -all -overlap -backwards x end -> = 4.0 3.2 3.0 1.1
.t search -all -overlap q 1.0 -> =
"#;
