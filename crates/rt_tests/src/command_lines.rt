// Command lines.
use crate::checks::same_in;
use rt_args::{Line, line};
use std::alloc::Global;
use std::test::Fail;

/// What a command line asks for, or the status with which it is refused.
#[derive(Clone, Copy)]
enum Asked {
    /// A run by a site, with the log and OUT where they are given, and the files.
    Run(u32, Option<&'static str>, Option<&'static str>, &'static [&'static str]),
    Join(&'static str, &'static str, &'static str),
    Show(&'static str),
    Refused(u8),
}

fn path(of: &Option<String>) -> Option<&str> {
    match of {
        Some(path) => Some(path.as_str()),
        None => None,
    }
}

fn are(files: &[String], wanted: &[&str]) -> bool {
    if files.len() != wanted.len() {
        return false;
    }
    for i in 0..wanted.len() {
        if files[i].as_str() != wanted[i] {
            return false;
        }
    }
    true
}

// Whether a command line asks for what is wanted.
fn asks(line: &Line, wanted: Asked) -> bool {
    match (line, wanted) {
        (
            Line::Run {
                site,
                log,
                out,
                files,
            },
            Asked::Run(number, its_log, its_out, its_files),
        ) => {
            (site.number(), path(log), path(out)) == (number, its_log, its_out)
                && are(files, its_files)
        }
        (Line::Join { a, b, out }, Asked::Join(one, other, its_out)) => {
            (a.as_str(), b.as_str(), out.as_str()) == (one, other, its_out)
        }
        (Line::Show { file }, Asked::Show(its_file)) => file.as_str() == its_file,
        _ => false,
    }
}

// Whether the words of a command line ask for what is wanted.
fn is_read_as(alloc: Global, text: &str, wanted: Asked) -> Result<bool, Fail> {
    let words: Vec<&str> = text.split(' ').collect(alloc)?;
    Ok(match line(alloc, words.as_slice()) {
        Ok(line) => asks(&line, wanted),
        Err(fault) => matches!(wanted, Asked::Refused(status) if status == fault.status()),
    })
}

/// A command line, and what it asks for.
type Row = (&'static str, Asked);

const LINES: &[Row] = &[
    ("peertext run --site 7", Asked::Run(7, None, None, &[])),
    ("peertext run --site 1", Asked::Run(1, None, None, &[])),
    (
        "peertext run --site=4294967295",
        Asked::Run(4294967295, None, None, &[]),
    ),
    (
        "peertext run --site 7 --log a",
        Asked::Run(7, Some("a"), None, &[]),
    ),
    (
        "peertext run --out a --site 7",
        Asked::Run(7, None, Some("a"), &[]),
    ),
    (
        "peertext run --site 7 --log a --out b",
        Asked::Run(7, Some("a"), Some("b"), &[]),
    ),
    (
        "peertext run --out=b --site=7 --log=a c",
        Asked::Run(7, Some("a"), Some("b"), &["c"]),
    ),
    (
        "peertext run a --site 7 b --log l c --out o a",
        Asked::Run(7, Some("l"), Some("o"), &["a", "b", "c", "a"]),
    ),
    (
        "peertext run --site 7 -- --log a --",
        Asked::Run(7, None, None, &["--log", "a", "--"]),
    ),
    (
        "peertext run --site 7 a -- -b --out=c",
        Asked::Run(7, None, None, &["a", "-b", "--out=c"]),
    ),
    (
        "peertext run --site 7 --log same --out same same",
        Asked::Run(7, Some("same"), Some("same"), &["same"]),
    ),
    (
        "peertext run --site 7 --log= more",
        Asked::Run(7, Some(""), None, &["more"]),
    ),
    (
        "peertext run --site 7 run join",
        Asked::Run(7, None, None, &["run", "join"]),
    ),
    ("peertext run --site 7 -", Asked::Run(7, None, None, &["-"])),
    ("peertext join a b c", Asked::Join("a", "b", "c")),
    ("peertext join -- -a b -c", Asked::Join("-a", "b", "-c")),
    (
        "peertext join run join show",
        Asked::Join("run", "join", "show"),
    ),
    ("peertext show show", Asked::Show("show")),
    ("peertext join a b", Asked::Refused(2)),
    ("peertext join a b c d", Asked::Refused(2)),
    ("peertext join -a b c", Asked::Refused(2)),
    ("peertext show", Asked::Refused(2)),
    ("peertext show a b", Asked::Refused(2)),
    ("peertext show --site 7", Asked::Refused(2)),
    ("peertext run --site 0", Asked::Refused(2)),
    ("peertext run --site 4294967296", Asked::Refused(2)),
    ("peertext run --site x", Asked::Refused(2)),
    ("peertext run --site -7", Asked::Refused(2)),
    ("peertext run --site", Asked::Refused(2)),
    ("peertext run", Asked::Refused(2)),
    ("peertext run --site 7 --site 7", Asked::Refused(2)),
    ("peertext run --site 7 --slow", Asked::Refused(2)),
    ("peertext run --site 7 --log", Asked::Refused(2)),
    ("peertext run --site 7 --out", Asked::Refused(2)),
    ("peertext run --site 7 --log --out b", Asked::Refused(2)),
    ("peertext run --site 7 --log a --log a", Asked::Refused(2)),
    ("peertext run --site 7 --out a b --out=c", Asked::Refused(2)),
    ("peertext run --site 7 a --site 7", Asked::Refused(2)),
    ("peertext run --log a --out b c", Asked::Refused(2)),
    ("peertext run --site 7 -b", Asked::Refused(2)),
    ("peertext run a -- --site 7", Asked::Refused(2)),
    ("peertext join --log a b c d", Asked::Refused(2)),
    ("peertext show --out a b", Asked::Refused(2)),
    ("peertext walk --site 7", Asked::Refused(2)),
    ("peertext --site 7", Asked::Refused(2)),
    ("peertext", Asked::Refused(2)),
    ("peertext --help", Asked::Refused(0)),
    ("peertext run --help", Asked::Refused(0)),
    ("peertext join --help", Asked::Refused(0)),
    ("peertext show -h", Asked::Refused(0)),
    ("peertext --version", Asked::Refused(0)),
];

#[test]
fn reads_command_lines(rt: HostRuntime) -> Result<(), Fail> {
    for (text, wanted) in LINES {
        same_in(&rt, is_read_as(rt.alloc(), text, *wanted)?, true, text);
    }
    Ok(())
}
