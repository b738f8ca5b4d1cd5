// Scripts that receive files: what comes early, and what marks do then.
use crate::sites::Script;

/// What comes early: it isn't there before it is taken, and then it moves marks and lists its tags.
pub(crate) const EARLY: &[(u32, Script)] = &[
    (
        3,
        r#"
receive y -> = 0 0 1
receive y -> = 0 1 1
receive ab -> = 2 0
receive y -> = 0 1
.t get 1.0 end -> = "aYb\n"
"#,
    ),
    (
        3,
        r#"
receive y -> = 0 0 1
receive z -> = 0 0 2
receive ab -> = 2 0
.t get 1.0 end -> = "aYb\n"
"#,
    ),
    (
        3,
        r#"
.t insert 1.0 cd -> =
.t mark set left 1.2 -> =
.t mark gravity left left -> =
.t mark set right 1.2 -> =
receive y_tagged -> = 0 0 1
receive tag_y -> = 0 0 2
.t tag names -> = sel
.t get 1.0 end -> = "cd\n"
.t index right -> = 1.2
.t index insert -> = 1.2
receive ab -> = 3 0
.t tag names -> = sel t u
.t tag ranges t -> = 1.3 1.4
.t tag ranges u -> = 1.3 1.4
.t get 1.0 end -> = "cdaYb\n"
.t index left -> = 1.2
.t index right -> = 1.5
.t index insert -> = 1.5
"#,
    ),
    (
        1,
        r#"
receive tag_y -> = 0 0 1
receive y_tagged -> = 0 0 2
.t tag names -> = sel
.t insert 1.0 ab -> =
.t tag names -> = sel t u
.t tag ranges t -> = 1.1 1.2
.t tag ranges u -> = 1.1 1.2
.t index insert -> = 1.3
receive tag_y -> = 0 1
receive y_tagged -> = 0 1
"#,
    ),
];

/// What marks do where text comes and goes beside them.
pub(crate) const MOVED: &[(u32, Script)] = &[
    (
        3,
        r#"
receive ab -> = 1 0
.t index insert -> = 1.2
.t mark set m 1.1 -> =
.t mark set l 1.1 -> =
.t mark gravity l left -> =
.t mark set insert 1.1 -> =
receive y -> = 1 0
.t index m -> = 1.2
.t index l -> = 1.1
.t index insert -> = 1.2
.t mark set e 1.3 -> =
receive second_gone -> = 1 1
.t index e -> = 1.2
.t index m -> = 1.2
receive y -> = 0 1
.t index m -> = 1.2
.t get 1.0 end -> = "aY\n"
"#,
    ),
    (
        3,
        "
receive ab -> = 1 0
.t tag add sel 1.0 1.2 -> =
receive y -> = 1 0
.t tag ranges sel -> = 1.0 1.1 1.2 1.3
receive second_gone -> = 1 1
.t tag ranges sel -> = 1.0 1.1
",
    ),
    (
        3,
        "
receive tagged -> = 2 0
.t tag names -> = sel t
.t tag ranges t -> = 1.0 1.1
",
    ),
];
