// Tags by their priority.
use crate::checks::same;
use rt_stamps::Fault;
use rt_tags::TagTable;
use std::alloc::Global;
use std::test::Fail;

// Whether a table lists these names, lowest priority first.
fn lists(table: &TagTable, wanted: &[&str]) -> Result<bool, Fault> {
    let names = table.names()?;
    if names.len() != wanted.len() {
        return Ok(false);
    }
    for i in 0..wanted.len() {
        if names[i].as_str() != wanted[i] {
            return Ok(false);
        }
    }
    Ok(true)
}

// A call on a table.
#[derive(Clone, Copy)]
enum Call {
    Ensure(&'static str),
    Prepare(&'static str),
    Forget(&'static str),
    Raise(&'static str, Option<&'static str>),
    Lower(&'static str, Option<&'static str>),
}

fn make(alloc: Global, table: &mut TagTable, call: Call) -> Result<(), Fault> {
    match call {
        Call::Ensure(name) => table.ensure(name),
        Call::Prepare(name) => table.prepare(name),
        Call::Forget(name) => {
            table.forget_all(&[String::from_str(alloc, name)?]);
            Ok(())
        }
        Call::Raise(name, above) => table.raise(name, above),
        Call::Lower(name, below) => table.lower(name, below),
    }
}

/// A call, what is answered, and the names that are listed after it, lowest priority first.
type Row = (Call, Result<(), Fault>, &'static [&'static str]);

// Calls on a new table: those that it refuses, and others.
const CALLS: &[Row] = &[
    (Call::Ensure(""), Err(Fault::BadName), &["sel"]),
    (Call::Prepare(""), Err(Fault::BadName), &["sel"]),
    (Call::Raise("a", None), Err(Fault::NoTag), &["sel"]),
    (Call::Raise("sel", Some("a")), Err(Fault::NoTag), &["sel"]),
    (Call::Lower("a", None), Err(Fault::NoTag), &["sel"]),
    (Call::Lower("sel", Some("a")), Err(Fault::NoTag), &["sel"]),
    (Call::Ensure("t"), Ok(()), &["sel", "t"]),
    (Call::Ensure("u"), Ok(()), &["sel", "t", "u"]),
    (Call::Lower("u", None), Ok(()), &["u", "sel", "t"]),
    (Call::Raise("u", Some("sel")), Ok(()), &["sel", "u", "t"]),
    (Call::Prepare("v"), Ok(()), &["sel", "u", "t"]),
    (Call::Ensure("u"), Ok(()), &["sel", "u", "t"]),
    (Call::Ensure("v"), Ok(()), &["sel", "u", "t", "v"]),
    (Call::Lower("v", Some("u")), Ok(()), &["sel", "v", "u", "t"]),
    (Call::Raise("v", Some("v")), Ok(()), &["sel", "v", "u", "t"]),
    (Call::Raise("sel", None), Ok(()), &["v", "u", "t", "sel"]),
    (Call::Forget("u"), Ok(()), &["v", "t", "sel"]),
    (Call::Forget("sel"), Ok(()), &["v", "t", "sel"]),
    (Call::Ensure("w"), Ok(()), &["v", "t", "sel", "w"]),
    (Call::Ensure("u"), Ok(()), &["v", "t", "sel", "w", "u"]),
    (Call::Forget("u"), Ok(()), &["v", "t", "sel", "w"]),
];

#[test]
fn priorities(rt: HostRuntime) -> Result<(), Fail> {
    let mut table = TagTable::new(rt.alloc())?;
    for (call, answer, wanted) in CALLS {
        let answered = make(rt.alloc(), &mut table, *call);
        same(
            &rt,
            (*wanted, answered, lists(&table, *wanted)?),
            (*wanted, *answer, true),
        );
    }
    same(&rt, table.has("u"), false);
    Ok(())
}
