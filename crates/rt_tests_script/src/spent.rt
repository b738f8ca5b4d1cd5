// Sites that have few counts left.
use crate::sites::Script;

// Counts that run out: of deletions, and of the tags that the last newline loses, each of which takes one behind that of its
// deletion. Where the clock can't go as far as the last of these, all is as it was.
pub(crate) const SPENT: &[(u32, Script)] = &[
    (
        1,
        r#"
receive before_last -> = 1 0
.t insert 1.0 ab -> ! 17 ClockSpent
.t insert end ab -> ! 17 ClockSpent
.t get 1.0 end -> = "z\n"
.t insert end a -> =
.t delete 1.0 -> ! 17 ClockSpent
.t get 1.0 end -> = "za\n"
"#,
    ),
    (
        1,
        r#"
receive last -> = 1 0
.t insert end a -> ! 17 ClockSpent
.t delete 1.0 -> ! 17 ClockSpent
.t tag add t 1.0 -> ! 17 ClockSpent
.t get 1.0 end -> = "z\n"
.t tag names -> = sel
receive last -> = 0 1
"#,
    ),
    (
        1,
        r#"
receive leaves_six -> = 1 0
.t insert 1.0 hello -> =
.t delete 1.2 1.2 -> =
.t get 1.0 end -> = "hello\n"
.t delete 1.0 1.1 1.3 1.4 -> =
.t get 1.0 end -> = "elo\n"
.t delete 1.0 1.1 1.3 1.4 -> ! 17 ClockSpent
.t get 1.0 end -> = "elo\n"
.t delete 1.2 1.2 -> =
.t get 1.0 end -> = "elo\n"
.t delete 1.0 one -> ! 2 BadIndex
.t get 1.0 end -> = "elo\n"
"#,
    ),
    (
        1,
        r#"
receive leaves_seven -> = 1 0
.t peer create .p -> = .p
.t peer create .q -> = .q
.t insert 1.0 ab -> =
.p tag add sel 1.0 1.1 1.2 end -> =
.t tag add t 1.0 end -> =
.t tag add u 1.0 end -> =
.t tag add sel 1.2 end -> =
.t delete 1.1 end -> =
.t get 1.0 end -> = "a\n"
.t tag ranges t -> = 1.0 1.1
.t tag ranges u -> = 1.0 1.1
.t tag ranges sel -> =
.p tag ranges sel -> = 1.0 1.1
.q tag ranges sel -> =
.t insert 1.0 c -> ! 17 ClockSpent
"#,
    ),
    (
        1,
        r#"
receive leaves_six -> = 1 0
.t peer create .p -> = .p
.t peer create .q -> = .q
.t insert 1.0 ab -> =
.p tag add sel 1.0 1.1 1.2 end -> =
.t tag add t 1.0 end -> =
.t tag add u 1.0 end -> =
.t tag add sel 1.2 end -> =
.t delete 1.1 end -> ! 17 ClockSpent
.t get 1.0 end -> = "ab\n"
.t tag ranges t -> = 1.0 2.0
.t tag ranges u -> = 1.0 2.0
.t tag ranges sel -> = 1.2 2.0
.p tag ranges sel -> = 1.0 1.1 1.2 2.0
.q tag ranges sel -> =
.t insert 1.0 cd -> =
"#,
    ),
];

// Stamps that no operation has: a count, a site or an end that is out of its range.
pub(crate) const UNSOUND: &[(u32, Script)] = &[(
    1,
    r#"
receive past_last -> ! 34 BadStamp at 8 new 0 repeat 0
receive known -> ! 34 BadStamp at 8 new 0 repeat 0
receive by_root -> ! 34 BadStamp at 8 new 0 repeat 0
receive after_itself -> ! 34 BadStamp at 8 new 0 repeat 0
.t get 1.0 end -> = "\n"
.t insert 1.0 a -> =
.t get 1.0 end -> = "a\n"
"#,
)];
