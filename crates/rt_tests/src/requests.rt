// Words that only the crates below a site tell apart: the scripts of rt_tests_script have all others.
use crate::checks::same;
use rt_index::{is_fixed, parse};
use rt_requests::Request;
use rt_stamps::Fault;
use rt_words::words::words;
use std::test::Fail;

/// Words of indices, and whether they name the same place as long as the text stays.
const FIXED: &[(&str, bool)] = &[
    ("end", true),
    ("1.0", true),
    ("0.7", true),
    ("3.end", true),
    ("99.999", true),
    ("", false),
    ("end-1c", false),
    ("1.0 ", false),
    ("1.", false),
    (".0", false),
    ("insert", false),
    ("1.en", false),
    ("m", false),
];

#[test]
fn words_that_are_fixed(rt: HostRuntime) {
    for (word, fixed) in FIXED {
        same(&rt, (*word, is_fixed(word)), (*word, *fixed));
    }
}

// Behind a position and behind a name; and a word that names no place, whatever marks and tags there are.
#[test]
fn words_that_are_parsed(rt: HostRuntime) -> Result<(), Fail> {
    parse(
        rt.alloc(),
        "1.0 + 2 lines lineend - 1 c + 3 any chars wordstart",
    )?;
    parse(
        rt.alloc(),
        "insert + 2 lines lineend - 1 c + 3 any chars wordstart",
    )?;
    same(
        &rt,
        parse(rt.alloc(), "1.0 + 2").err(),
        Some(Fault::BadIndex),
    );
    Ok(())
}

// Limits are read as the other options of a widget are.
#[test]
fn limits_are_read(rt: HostRuntime) -> Result<(), Fail> {
    let limits = words(rt.alloc(), "configure -startline 2")?;
    let taken = Request::of(rt.alloc(), &limits).err();
    same(&rt, taken, None);
    let others = words(rt.alloc(), "configure -startline two")?;
    let refused = Request::of(rt.alloc(), &others).err();
    same(&rt, refused, Some(Fault::BadOption));
    Ok(())
}
