// Scripts about texts, each on a new site, as lines with their replies.
use crate::sites::Scripts;

// Lines, words, insertions, and what is read.
pub(crate) const TEXTS: Scripts = r#"
.t index end -> = 2.0
.t get 1.0 end -> = "\n"

.t insert end hello -> =
.t index end -> = 2.0
.t get 1.0 end -> = "hello\n"

.t insert 1.0 "a -> ! 19 BadQuoting

.t insert 1.0 {a b} -> =
.t get 1.0 1.3 -> = "a b"
.t insert 1.0 {a}b -> ! 19 BadQuoting
.t get {1.0} "end" -> = "a b\n"

.t insert 1.0 "a\nb" -> =
.t index end -> = 3.0
.t insert 1.0 "a -> ! 19 BadQuoting
.t index end -> = 3.0

.x index end -> ! 5 NoWidget
.x -> ! 5 NoWidget
.x frob -> ! 5 NoWidget

.t frob -> ! 4 BadCommand
.t -> ! 4 BadCommand
destroy .t -> ! 16 LastWidget
receive -> ! 4 BadCommand
receive a b -> ! 4 BadCommand
receive a -> ! 20 NoFile

.t insert -> ! 4 BadCommand
.t insert 1.0 -> ! 4 BadCommand
.t insert 1.0 a "{b" -> ! 19 BadQuoting
.t get -> ! 4 BadCommand
.t index -> ! 4 BadCommand
.t index 1.0 1.0 -> ! 4 BadCommand

.t insert x a -> ! 2 BadIndex
.t get 1.0 x -> ! 2 BadIndex
.t get x -> ! 2 BadIndex
.t index 1 -> ! 2 BadIndex
.t index 1. -> ! 2 BadIndex
.t index .1 -> ! 2 BadIndex
.t index 1.0.0 -> ! 2 BadIndex
.t index +1.0 -> ! 2 BadIndex
.t index en -> ! 2 BadIndex

.t insert 1.0 hi -> =
.t index 9.9 -> = 2.0
.t index 1.99 -> = 1.2
.t index 0.7 -> = 1.0
.t index 0.end -> = 1.0
.t index 1.end -> = 1.2
.t index 9.end -> = 2.0
.t index 01.001 -> = 1.1

.t insert 1.0 hi -> =
.t get 1.0 -> = h
.t get 1.2 -> = "\n"
.t get end -> = ""
.t get 1.1 1.0 -> = ""
.t get 1.1 end -> = "i\n"

.t insert 1.0 b -> =
.t insert 1.0 a -> =
.t insert 1.1 é -> =
.t insert 1.end z -> =
.t get 1.0 1.end -> = aébz
.t index 1.4 -> = 1.4

.t index 18446744073709551616.0 -> = 2.0
.t index 1.18446744073709551616 -> = 1.0
.t index 18446744073709551617.end -> = 2.0

.t insert 1.0 } -> =
.t get 1.0 end -> = "}\n"
"#;

// Deletions.
pub(crate) const DELETIONS: Scripts = r#"
.t insert 1.0 "a\nb" -> =
.t delete 1.0 end -> =
.t get 1.0 end -> = "\n"

.t insert 1.0 "a\nb\nc" -> =
.t delete 3.0 end -> =
.t get 1.0 end -> = "a\nb\n"
.t index end -> = 3.0

.t insert 1.0 abcdef -> =
.t delete 1.0 1.2 1.1 1.3 1.5 -> =
.t get 1.0 end -> = "de\n"
.t get 1.0 1.1 1.1 1.0 1.1 -> = d e
.t get 1.1 1.1 -> = ""

.t insert 1.0 "a\nbc" -> =
.t delete 2.0 2.1 2.1 end -> =
.t get 1.0 end -> = "a\n"

.t delete -> ! 4 BadCommand
.t delete x -> ! 2 BadIndex
.t delete 1.0 x -> ! 2 BadIndex
.t delete 1.0 1.1 x -> ! 2 BadIndex
.t get 1.0 end -> = "\n"

.t insert 1.0 abc -> =
.t delete 1.0 1.2 x -> ! 2 BadIndex
.t delete end -> =
.t delete end-1c -> =
.t delete 1.2 1.1 -> =
.t delete 1.1 1.1 -> =
.t delete 1.3 -> =
.t get 1.0 end -> = "abc\n"

.t insert 1.0 abc -> =
.t delete 1.1 -> =
.t insert 1.1 xy -> =
.t get 1.0 end -> = "axyc\n"
.t delete 1.0 1.end -> =
.t get 1.0 end -> = "\n"
.t insert end z -> =
.t get 1.0 end -> = "z\n"

.t insert 1.0 "a\n\nb" -> =
.t delete 2.0 3.0 -> =
.t get 1.0 end -> = "a\nb\n"
.t delete 2.0 3.0 1.0 1.1 1.1 2.0 -> =
.t get 1.0 end -> = "\n"

.t insert 1.0 {a b} -> =
.t get 1.0 1.3 -> = "a b"
.t delete {1.0} "1.1" -> =
.t get 1.0 end -> = " b\n"
"#;

// Lists of ranges, comparisons and distances.
pub(crate) const RANGES: Scripts = r#"
.t insert 1.0 de -> =
.t get 1.0 1.1 1.1 1.0 1.1 -> = d e
.t get 1.1 1.1 -> = ""
.t get 1.1 1.1 1.0 1.0 -> =
.t get end -> = ""
.t get end end end -> =

.t insert 1.0 abc -> =
.t get 1.2 end 1.0 1.2 1.1 -> = "c\n" ab b
.t get 1.0 1.1 x -> ! 2 BadIndex
.t get x 1.0 y -> ! 2 BadIndex

.t insert 1.0 hello -> =
.t count -lines -chars 1.0 end -> = 1 6
.t count end 1.0 -> = -6
.t compare 1.0 < end -> = 1
.t compare 1.0 =< end -> ! 9 BadOption

.t insert 1.0 ab -> =
.t count -indices 1.1 1.1 -> = 0
.t count -lines end 1.0 -> = -1
.t count -chars -chars 1.0 1.2 -> = 2 2
.t count 1.0 9.9 -> = 3

.t count -> ! 4 BadCommand
.t count 1.0 -> ! 4 BadCommand
.t count -1.0 2.0 -> ! 4 BadCommand
.t count -x 1.0 -> ! 4 BadCommand
.t count 1.0 1.0 1.0 -> ! 4 BadCommand
.t count 1.0 -chars 1.0 -> ! 4 BadCommand

.t count -x 1.0 1.0 -> ! 9 BadOption
.t count -chars -x y 1.0 -> ! 9 BadOption
.t count -- 1.0 1.0 -> ! 9 BadOption
.t count 1.0 -x -> ! 2 BadIndex
.t count 1.0 x -> ! 2 BadIndex
.t count -chars x 1.0 -> ! 2 BadIndex

.t compare -> ! 4 BadCommand
.t compare 1.0 < -> ! 4 BadCommand
.t compare 1.0 < end 1.0 -> ! 4 BadCommand
.t compare x =< y -> ! 9 BadOption
.t compare x < 1.0 -> ! 2 BadIndex
.t compare 1.0 < x -> ! 2 BadIndex

.t insert 1.0 ab -> =
.t compare 1.0 < 1.1 -> = 1
.t compare 1.1 < 1.1 -> = 0
.t compare 1.1 <= 1.1 -> = 1
.t compare 1.2 <= 1.1 -> = 0
.t compare 1.1 == 1.1 -> = 1
.t compare 1.0 == 1.1 -> = 0

.t insert 1.0 ab -> =
.t compare 1.1 >= 1.1 -> = 1
.t compare 1.0 >= 1.1 -> = 0
.t compare 1.1 > 1.0 -> = 1
.t compare 1.1 > 1.1 -> = 0
.t compare 1.0 != 1.1 -> = 1
.t compare 1.9 != 1.2 -> = 0

.t insert 1.0 hello -> =
.t get 1.0 1.1 1.1 1.0 1.4 -> = h o
.t get "1.0 + 1 c" -> = e
.t count end 1.0 -> = -6
.t count -lines -chars 1.0 end -> = 1 6
.t compare 1.0 < end -> = 1
.t compare insert == 1.end -> = 1
.t compare sel.first is x -> ! 9 BadOption
"#;
