// The words of lines and of lists.
use crate::checks::same_in;
use rt_stamps::Fault;
use rt_words::words::{list_words, words};
use std::alloc::Global;
use std::process::Abort;
use std::test::Fail;

// A bar before each word.
fn barred(alloc: Global, words: &[String]) -> Result<String, Fault> {
    let mut text = String::new(alloc);
    for word in words {
        text.push('|')?;
        text.push_str(word)?;
    }
    Ok(text)
}

// A bar before each word, or that there are none.
fn told(alloc: Global, found: Result<Vec<String>, Fault>) -> Result<String, Fault> {
    match found {
        Ok(list) => barred(alloc, &list),
        Err(Fault::BadQuoting) => String::from_str(alloc, "refused").map_err(Fault::from),
        Err(fault) => Err(fault),
    }
}

/// Texts, each with its words behind bars.
type Rows = &'static [(&'static str, &'static str)];

// Stops a test where the words of a line, or of a list, are others than those wanted.
fn told_as(rt: &impl Abort, alloc: Global, is_list: bool, rows: Rows) -> Result<(), Fault> {
    for (text, want) in rows {
        let found = if is_list {
            list_words(alloc, text)
        } else {
            words(alloc, text)
        };
        same_in(rt, told(alloc, found)?.as_str(), *want, text);
    }
    Ok(())
}

const BARE_WORDS: Rows = &[
    ("", ""),
    (" \t ", ""),
    ("a", "|a"),
    (".t insert 1.0 hello", "|.t|insert|1.0|hello"),
    (" a\tb  \t c ", "|a|b|c"),
    ("a\"b c{d e} }", "|a\"b|c{d|e}|}"),
    ("a\\n \\ a\"b\" a{b}c", "|a\\n|\\|a\"b\"|a{b}c"),
    ("#a \r", "|#a|\r"),
    ("é\u{a0}ü \u{1f600}", "|é\u{a0}ü|\u{1f600}"),
];

const QUOTED_WORDS: Rows = &[
    ("\"\"", "|"),
    ("\"\" a \"\"", "||a|"),
    ("\"a b\"", "|a b"),
    ("\ta \"b\tc\"  \"{\" ", "|a|b\tc|{"),
    ("\"\\n\\t\\r\\\\\\\"\"", "|\n\t\r\\\""),
    ("\"a\\\"b\" \"\\\\\" c", "|a\"b|\\|c"),
    ("\"a\\\\n\\n\"", "|a\\n\n"),
    ("\"é ü\\n\u{1f600}\" é", "|é ü\n\u{1f600}|é"),
    ("\"a\r} { b\"", "|a\r} { b"),
];

const BRACED_WORDS: Rows = &[
    ("{}", "|"),
    ("{} {} a", "|||a"),
    ("{a b}", "|a b"),
    ("{a {b {c} d} e} f", "|a {b {c} d} e|f"),
    ("{{}{}}\t{{{}}}", "|{}{}|{{}}"),
    ("{a\\} {\\n\"} b", "|a\\|\\n\"|b"),
    ("{ \"a } ", "| \"a "),
    ("{é {\u{1f600}}}", "|é {\u{1f600}}"),
];

// The words of replies, and the bytes that the lines of answers have for them.
const LINES_OF_REPLIES: Rows = &[
    ("=", "|="),
    ("= 2.0", "|=|2.0"),
    ("= \"hello\\n\"", "|=|hello\n"),
    ("= \"\"", "|=|"),
    ("= a \"\" b", "|=|a||b"),
    ("= \"}\" \"{\" \"a b\"", "|=|}|{|a b"),
    ("= \"a b\" {c {d} e}", "|=|a b|c {d} e"),
    ("= \"\\t\\r\" \"\\\"\\\\\"", "|=|\t\r|\"\\"),
    ("= é#$[ \u{1f600}", "|=|é#$[|\u{1f600}"),
];

// Newlines stand between the words of a list; within quotes and braces they are the word's.
const LISTS: Rows = &[
    ("", ""),
    (" \t\n \n", ""),
    ("a", "|a"),
    ("a b\tc\nd", "|a|b|c|d"),
    ("\na\n\n \tb\n", "|a|b"),
    ("big {very big} \"x\\ny\"", "|big|very big|x\ny"),
    ("\"a\nb\"\n{c\n{d}}\ne", "|a\nb|c\n{d}|e"),
    ("\"\"\n{}\n\"\"", "|||"),
    ("a\rb\u{a0}c", "|a\rb\u{a0}c"),
];

// A newline that stands bare in a line is a character of its word.
const NEWLINES_IN_LINES: Rows = &[
    ("a\nb", "|a\nb"),
    ("\n", "|\n"),
    ("a \n b", "|a|\n|b"),
    ("a\n{b", "|a\n{b"),
    ("{a}\nb", "refused"),
];

const NEWLINES_IN_LISTS: Rows = &[
    ("a\nb", "|a|b"),
    ("\n", ""),
    ("a \n b", "|a|b"),
    ("a\n{b", "refused"),
    ("{a}\nb", "|a|b"),
];

const REFUSED_LISTS: Rows = &[
    ("\"", "refused"),
    ("{", "refused"),
    ("a\n\"b", "refused"),
    ("\"a\"b", "refused"),
    ("{a}b\n", "refused"),
    ("a\n{b\n", "refused"),
    ("\"\\\n\"", "refused"),
    ("\"a\n", "refused"),
    ("{}\n}{\n{", "refused"),
];

const REFUSED_LINES: Rows = &[
    ("\"", "refused"),
    ("\"a", "refused"),
    ("a \"b", "refused"),
    ("\"a\\", "refused"),
    ("\"a\\\"", "refused"),
    ("\"a\"b", "refused"),
    ("\"a\"\"b\"", "refused"),
    ("\"\"{}", "refused"),
    ("\"\\x\"", "refused"),
    ("\"\\", "refused"),
    ("\"\\ \"", "refused"),
    ("\"\\é\"", "refused"),
    ("\"a\"\u{a0}", "refused"),
    ("{", "refused"),
    ("{a", "refused"),
    ("{a{b}", "refused"),
    ("{a}b", "refused"),
    ("{a}}", "refused"),
    ("{}{}", "refused"),
    ("{}\"\"", "refused"),
    ("a \t{b", "refused"),
    ("a {b} \"c\\q\"", "refused"),
    ("{a\\}}", "refused"),
];

/// Texts, and whether they are lists.
const TABLES: &[(bool, Rows)] = &[
    (false, BARE_WORDS),
    (false, QUOTED_WORDS),
    (false, BRACED_WORDS),
    (false, LINES_OF_REPLIES),
    (false, NEWLINES_IN_LINES),
    (false, REFUSED_LINES),
    (true, LISTS),
    (true, NEWLINES_IN_LISTS),
    (true, REFUSED_LISTS),
];

#[test]
fn words_of_lines_and_of_lists(rt: HostRuntime) -> Result<(), Fail> {
    for (is_list, rows) in TABLES {
        told_as(&rt, rt.alloc(), *is_list, *rows)?;
    }
    Ok(())
}
