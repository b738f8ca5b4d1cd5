// Scripts about searches, each on a new site, as lines with their replies.
use crate::sites::Scripts;

// Where patterns stand, and what is refused.
pub(crate) const SEARCHES: Scripts = r#"
.t insert 1.0 abcabc -> =
.t search abc 1.4 -> = 1.0
.t search abc 1.4 end -> =
.t search -backwards abc 1.0 -> = 1.3
.t search -nocase BC 1.0 -> = 1.1
.t search abc 1.0 1.2 -> = 1.0
.t search -strictlimits abc 1.0 1.2 -> =
.t search -backwards -forwards abc 1.1 -> = 1.3

.t insert 1.0 aaaa -> =
.t search -all aa 1.0 -> = 1.0 1.2
.t search -all -overlap aa 1.0 -> = 1.0 1.1 1.2
.t search -all -backwards aa end -> = 1.2 1.0
.t search -all -overlap -backwards aa end -> = 1.2 1.1 1.0
.t search aaaaaa 1.0 -> =

.t insert 1.0 ab -> =
.t search "\na" 1.0 -> =
.t search -overlap a 1.0 -> ! 9 BadOption
.t search -- a 1.1 -> = 1.0
.t search -frob a 1.0 -> ! 9 BadOption
.t search -frob a -> ! 4 BadCommand
.t search a 1.0 end x -> ! 4 BadCommand
.t search a x -> ! 2 BadIndex
.t search "" sel.first -> ! 3 NoneTagged
.t search "" 1.0 -> ! 11 EmptyPattern

.t insert 1.0 "a-b\n-b\nc" -> =
.t search "b\n-b\n" 1.0 -> = 1.2
.t search -- -b 1.2 -> = 2.0
.t search -all -- -b 1.0 -> = 1.1 2.0

.t insert 1.0 "Σς ſtop ẞ" -> =
.t search -all -nocase σ 1.0 -> = 1.0 1.1
.t search -nocase STOP 1.0 -> = 1.3
.t search -nocase ß 1.0 -> = 1.8
.t search σ 1.0 -> =
"#;
