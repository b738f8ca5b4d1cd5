// Scripts about the words of commands, each on a new site, as lines with their replies (Tk text manual, "WIDGET COMMAND").
use crate::sites::Scripts;

// Each form of the commands on text, with what it does or tells.
pub(crate) const COMMANDS: Scripts = r#"
.t insert 1.0 hello -> =
.t insert 1.0 "" -> =
.t get 1.0 end -> = "hello\n"
.t insert end a big -> =
.t get 1.0 end -> = "helloa\n"
.t tag ranges big -> = 1.5 1.6
.t insert end plain {} "and loud" "bold loud" tail -> =
.t get 1.0 end -> = "helloaplainand loudtail\n"
.t tag ranges bold -> = 1.11 1.19
.t tag ranges loud -> = 1.11 1.19
.t tag ranges big -> = 1.5 1.6
.t tag names 1.23 -> =

.t insert 1.0 "ab cd\nef gh" -> =
.t delete 1.0 -> =
.t get 1.0 end -> = "b cd\nef gh\n"
.t delete 1.0 1.2 2.0 -> =
.t get 1.0 end -> = "cd\nf gh\n"

.t insert 1.0 "ab cd\nef gh" -> =
.t replace 1.0 1.2 new -> =
.t get 1.0 end -> = "new cd\nef gh\n"
.t replace 1.0 1.2 a big b -> =
.t get 1.0 end -> = "abw cd\nef gh\n"
.t tag ranges big -> = 1.0 1.1
.t replace 1.0 end "" -> =
.t get 1.0 end -> = "\n"

.t insert 1.0 "ab cd\nef gh" -> =
.t mark set insert 1.2 -> =
.t get 1.0 -> = a
.t get 1.0 "insert lineend" -> = "ab cd"
.t index "end - 1 chars" -> = 2.5
.t compare 1.0 < 2.0 -> = 1
.t compare 1.0 <= 2.0 -> = 1
.t compare 1.0 == 2.0 -> = 0
.t compare 1.0 >= 2.0 -> = 0
.t compare 1.0 > 2.0 -> = 0
.t compare 1.0 != 2.0 -> = 1
.t count 1.0 end -> = 12
.t count -lines -chars 1.0 end -> = 2 12
.t count -indices end 1.0 -> = -12
"#;

// Each form of `search` and `dump`.
pub(crate) const SEARCHES_AND_DUMPS: Scripts = r#"
.t insert 1.0 "b-all Aa\nA--" -> =
.t search a 1.0 -> = 1.2
.t search a 1.0 end -> = 1.2
.t search "" frob -> ! 2 BadIndex
.t search -backwards -nocase a 1.0 -> = 2.0
.t search -forwards -backwards -exact a 1.0 -> = 1.7
.t search -backwards -forwards a 1.0 -> = 1.2
.t search -all -strictlimits a 1.0 -> = 1.2 1.7
.t search -overlap -all -all a 1.0 -> = 1.2 1.7
.t search -- -all 1.0 -> = 1.1
.t search -all -- -- -1.0 -> ! 2 BadIndex
.t search a -all -> ! 2 BadIndex
.t search -all -- -- 1.0 -> = 2.1

.t insert 1.0 "ab\ncd" -> =
.t tag add t 1.0 2.1 -> =
.t mark set m 1.1 -> =
.t mark set insert 1.0 -> =
.t mark set current 1.0 -> =
.t dump 1.0 -> = tagon t 1.0 mark current 1.0 mark insert 1.0 text a 1.0
.t dump 1.0 end -> = tagon t 1.0 mark current 1.0 mark insert 1.0 text a 1.0 mark m 1.1 text "b\n" 1.1 text c 2.0 tagoff t 2.1 text "d\n" 2.1
.t dump -all 1.0 -> = tagon t 1.0 mark current 1.0 mark insert 1.0 text a 1.0
.t dump -mark -all 1.0 end -> = tagon t 1.0 mark current 1.0 mark insert 1.0 text a 1.0 mark m 1.1 text "b\n" 1.1 text c 2.0 tagoff t 2.1 text "d\n" 2.1
.t dump -text 1.0 end -> = text "ab\n" 1.0 text "cd\n" 2.0
.t dump -text -tag -text 1.0 -> = tagon t 1.0 text a 1.0
.t dump -mark 1.0 -1.0 -> ! 2 BadIndex
"#;

// Each form of `mark` and `tag`.
pub(crate) const MARKS_AND_TAGS: Scripts = r#"
.t insert 1.0 "ab cd\nef" -> =
.t mark set there 1.3 -> =
.t mark set here 1.0 -> =
.t index here -> = 1.0
.t mark gravity here -> = right
.t mark gravity here left -> =
.t mark gravity here -> = left
.t mark gravity here right -> =
.t mark gravity here -> = right
.t mark names -> = current here insert there
.t mark next 1.0 -> = here
.t mark previous here -> =
.t mark set insert 1.0 -> =
.t mark previous here -> =
.t mark set there 1.0 -> =
.t mark previous there -> = insert
.t mark next 1.0 -> = here
.t mark unset here -> =
.t mark names -> = current insert there
.t mark set here 1.2 -> =
.t mark unset here there -> =
.t mark names -> = current insert

.t insert 1.0 "ab cd\nef" -> =
.t tag add big 1.0 -> =
.t tag ranges big -> = 1.0 1.1
.t tag add big 1.0 1.2 2.0 -> =
.t tag ranges big -> = 1.0 1.2 2.0 2.1
.t tag nextrange big 1.0 -> = 1.0 1.2
.t tag nextrange big 1.0 end -> = 1.0 1.2
.t tag prevrange big end -> = 2.0 2.1
.t tag prevrange big end 1.0 -> = 2.0 2.1
.t tag add small 1.0 -> =
.t tag names -> = sel big small
.t tag names 1.0 -> = big small
.t tag raise big -> =
.t tag names -> = sel small big
.t tag lower big -> =
.t tag names -> = big sel small
.t tag raise big small -> =
.t tag names -> = sel small big
.t tag lower big small -> =
.t tag names -> = sel big small
.t tag remove big 1.0 end -> =
.t tag ranges big -> =
.t tag delete big -> =
.t tag names -> = sel small
.t tag delete big small -> =
.t tag names -> = sel
"#;

// An unknown command or a wrong number of words, and that before an unknown operator or switch.
pub(crate) const BAD_COMMANDS: Scripts = "
.t -> ! 4 BadCommand
.t frob -> ! 4 BadCommand
.t insert -> ! 4 BadCommand
.t insert 1.0 -> ! 4 BadCommand
.t delete -> ! 4 BadCommand
.t replace -> ! 4 BadCommand
.t replace 1.0 -> ! 4 BadCommand
.t replace 1.0 1.2 -> ! 4 BadCommand
.t get -> ! 4 BadCommand
.t index -> ! 4 BadCommand
.t index 1.0 2.0 -> ! 4 BadCommand
.t compare 1.0 < -> ! 4 BadCommand
.t compare 1.0 =< -> ! 4 BadCommand
.t compare 1.0 < 2.0 3.0 -> ! 4 BadCommand
.t count -> ! 4 BadCommand
.t count -lines 1.0 -> ! 4 BadCommand
.t count -frob 1.0 -> ! 4 BadCommand
.t count -1.0 2.0 -> ! 4 BadCommand
.t count 1.0 2.0 3.0 -> ! 4 BadCommand
.t search -> ! 4 BadCommand
.t search a -> ! 4 BadCommand
.t search -x a -> ! 4 BadCommand
.t search -all -- -> ! 4 BadCommand
.t search -all -- a -> ! 4 BadCommand
.t search a 1.0 1.1 1.2 -> ! 4 BadCommand
.t dump -> ! 4 BadCommand
.t dump -all -> ! 4 BadCommand
.t dump -x -> ! 4 BadCommand
.t dump -1.0 -> ! 4 BadCommand
.t dump 1.0 1.1 1.2 -> ! 4 BadCommand
.t dump -x 1.0 1.1 1.2 -> ! 4 BadCommand
.t mark -> ! 4 BadCommand
.t mark frob -> ! 4 BadCommand
.t mark set here -> ! 4 BadCommand
.t mark unset -> ! 4 BadCommand
.t mark gravity here up 1.0 -> ! 4 BadCommand
.t mark names 1.0 -> ! 4 BadCommand
.t mark next -> ! 4 BadCommand
.t tag -> ! 4 BadCommand
.t tag frob -> ! 4 BadCommand
.t tag add big -> ! 4 BadCommand
.t tag raise -> ! 4 BadCommand
.t tag names 1.0 2.0 -> ! 4 BadCommand
.t tag ranges -> ! 4 BadCommand
.t tag nextrange big -> ! 4 BadCommand
.t tag prevrange big 1.0 2.0 3.0 -> ! 4 BadCommand
";

// Operators, switches and gravities that are none, and lists that spell no words.
pub(crate) const BAD_OPTIONS: Scripts = r#"
.t compare 1.0 =< end -> ! 9 BadOption
.t count -lines -words 1.0 end -> ! 9 BadOption
.t search -x a 1.0 -> ! 9 BadOption
.t search -regexp a 1.0 -> ! 9 BadOption
.t search -overlap a 1.0 -> ! 9 BadOption
.t search -overlap "" frob -> ! 9 BadOption
.t dump -x 1.0 -> ! 9 BadOption
.t dump -all -x 1.0 end -> ! 9 BadOption
.t dump -- 1.0 -> ! 9 BadOption
.t count -- 1.0 end -> ! 9 BadOption
.t mark gravity here up -> ! 9 BadOption
.t insert 1.0 a {"b} -> ! 19 BadQuoting
.t insert 1.0 a big b {x {y}z} c -> ! 19 BadQuoting
.t replace 1.0 1.2 a {"b} -> ! 19 BadQuoting
"#;
