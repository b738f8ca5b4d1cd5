// States of tags.
ghost use Rattle.rt_tags.specs.States.{IsState, IsTag};

use crate::checks::same;
use rt_stamps::{Fault, ROOT, Stamp};
use rt_tags::{StateId, StateTable, TagEntry, TagId};
use std::alloc::Global;
use std::process::Abort;
use std::test::Fail;

// A tag that is written on characters of one state, and a state that is kept to be compared.
struct Typing {
    alloc: Global,
    table: StateTable,
    tag: TagId,
    before: StateId,
    after: StateId,
    kept: StateId,
    ghost tag_given: { IsTag table tag },
    ghost before_given: { IsState table before },
    ghost after_given: { IsState table after },
}

// Written out, so that each way out of a test lets a typing go in one step of its proof.
impl Drop for Typing {
    fn drop(self) {
        let Typing {
            alloc: _,
            table: _,
            tag: _,
            before: _,
            after: _,
            kept: _,
        } = self;
    }
}

/// What is done next, and what is told of it.
#[derive(Clone, Copy)]
enum Step {
    /// The tag is put on one more character, or taken off, by a count and a site: whether its state is the one before the
    /// write, and whether it is that of the last character.
    Write(u64, u32, bool, (bool, bool)),
    /// The tag is put on 999 more characters, or taken off, by a count and a site: each has the state of the last one, and
    /// not the one before the write.
    Again(u64, u32, bool),
    /// What is written from now on is written on characters of the last one's state.
    GoOn,
    /// Another tag is put on the last character, or taken off.
    More(&'static str, bool),
    /// The last character gets a list of names at once.
    List(&'static [&'static str]),
    /// The tag is written on the last character three times at once, with counts from 2 on.
    Thrice(bool, bool, bool),
    /// A new character without tags is the last one.
    StartOver,
    /// The last character's state is kept.
    Keep,
    /// Whether the last character's state is the one that was kept.
    IsKept(bool),
}

impl Typing {
    fn new(alloc: Global, name: &str) -> Result<Typing, Fault> {
        let mut table = StateTable::new(alloc)?;
        let tag = table.number(name)?;
        Ok(Typing {
            alloc,
            table,
            tag,
            before: StateId::EMPTY,
            after: StateId::EMPTY,
            kept: StateId::EMPTY,
        })
    }

    // Writes the tag on one more character. Whether its state is the one before the write, and whether
    // it is that of the last character.
    fn write(&mut self, count: u64, site: u32, on: bool) -> Result<(bool, bool), Fault> {
        let old = self.after;
        let new = self
            .table
            .with(self.before, self.tag, Stamp { count, site }, on)?;
        self.after = new;
        Ok((new == self.before, new == old))
    }

    fn again(&mut self, count: u64, site: u32, on: bool) -> Result<bool, Fault> {
        for _ in 1..1000 {
            if self.write(count, site, on)? != (false, true) {
                return Ok(false);
            }
        }
        Ok(true)
    }

    fn more(&mut self, name: &str, on: bool) -> Result<bool, Fault> {
        self.before = self.after;
        self.tag = self.table.number(name)?;
        let _ = self.write(ROOT.count, ROOT.site, on)?;
        Ok(true)
    }

    fn list(&mut self, names: &[&str]) -> Result<bool, Fault> {
        let names = strings(self.alloc, names)?;
        let state = self.table.state_of_list(ROOT, &names)?;
        self.after = state;
        Ok(true)
    }

    fn thrice(&mut self, first: bool, second: bool, third: bool) -> Result<bool, Fault> {
        let tag = self.tag;
        let write = |count: u64, on: bool| TagEntry {
            tag,
            writer: Stamp { count, site: 1 },
            on,
        };
        let writes = [write(2, first), write(4, third), write(3, second)];
        self.after = self.table.with_all(self.after, &writes)?;
        Ok(true)
    }

    fn start_over(&mut self) {
        self.table.order();
        self.after = StateId::EMPTY;
    }

    // Takes a step. Whether what is told of it is so.
    fn take(&mut self, step: Step) -> Result<bool, Fault> {
        match step {
            Step::Write(count, site, on, told) => Ok(self.write(count, site, on)? == told),
            Step::Again(count, site, on) => self.again(count, site, on),
            Step::More(name, on) => self.more(name, on),
            Step::List(names) => self.list(names),
            Step::Thrice(first, second, third) => self.thrice(first, second, third),
            Step::GoOn => {
                self.before = self.after;
                Ok(true)
            }
            Step::StartOver => {
                self.start_over();
                Ok(true)
            }
            Step::Keep => {
                self.kept = self.after;
                Ok(true)
            }
            Step::IsKept(told) => Ok((self.after == self.kept) == told),
        }
    }

    // Whether the tags of the last character have these names.
    fn lists(&self, names: &[&str]) -> Result<bool, Fault> {
        let tags = self.table.on(self.after)?;
        if tags.len() != names.len() {
            return Ok(false);
        }
        for i in 0..names.len() {
            if self.table.name(tags[i]) != names[i] {
                return Ok(false);
            }
        }
        Ok(true)
    }

    // Whether the last character has the tag that is written.
    fn has(&self) -> bool {
        self.table.has(self.after, self.tag)
    }
}

// Names in memory of their own.
fn strings(alloc: Global, names: &[&str]) -> Result<Vec<String>, Fault> {
    let mut strings = Vec::new(alloc);
    for name in names {
        strings.push(String::from_str(alloc, name)?)?;
    }
    Ok(strings)
}

/// A step, and what the last character has then: the names of its tags, and whether the tag that is written is one.
type Row = (Step, &'static [&'static str], bool);

// The greatest stamp decides, whichever write comes last.
const GREATEST_WRITE: &[Row] = &[
    (Step::StartOver, &[], false),
    (Step::Write(3, 2, false, (false, false)), &[], false),
    (Step::GoOn, &[], false),
    (Step::Write(3, 1, true, (true, true)), &[], false),
    (Step::Write(4, 1, true, (false, false)), &["t"], true),
    (Step::GoOn, &["t"], true),
    (Step::Write(4, 1, false, (true, true)), &["t"], true),
];

// A thousand characters that are typed singly under one list share one state.
const TYPED_SINGLY: &[Row] = &[
    (Step::Write(0, 0, true, (false, false)), &["t"], true),
    (Step::Again(0, 0, true), &["t"], true),
];

// The tags that are on come by the bytes of their names, and whichever was written first, the state is the same.
const BY_NAME: &[Row] = &[
    (Step::More("b", true), &["b"], true),
    (Step::More("c", false), &["b"], false),
    (Step::More("a", true), &["a", "b"], true),
    (Step::Keep, &["a", "b"], true),
    (Step::StartOver, &[], false),
    (Step::More("a", true), &["a"], true),
    (Step::More("b", true), &["a", "b"], true),
    (Step::IsKept(false), &["a", "b"], true),
    (Step::More("c", false), &["a", "b"], false),
    (Step::IsKept(true), &["a", "b"], false),
];

// A list is the state of its names written one by one, and a name that it has twice is there once.
const AT_ONCE: &[Row] = &[
    (Step::More("b", true), &["b"], true),
    (Step::More("a", true), &["a", "b"], true),
    (Step::Keep, &["a", "b"], true),
    (Step::StartOver, &[], false),
    (Step::List(&["b", "a", "b"]), &["a", "b"], true),
    (Step::IsKept(true), &["a", "b"], true),
];

// Of writes that are made at once the greatest stamp decides, wherever it stands among them.
const GREATEST_OF_ALL: &[Row] = &[
    (Step::Thrice(false, false, true), &["t"], true),
    (Step::StartOver, &[], false),
    (Step::Thrice(true, true, false), &[], false),
];

/// The first tag that is written, and the steps.
const TABLES: &[(&str, &[Row])] = &[
    ("t", GREATEST_WRITE),
    ("t", TYPED_SINGLY),
    ("b", BY_NAME),
    ("b", AT_ONCE),
    ("t", GREATEST_OF_ALL),
];

// Stops a test where a step tells something else, or the last character has other tags then.
fn come_out(rt: &impl Abort, alloc: Global, name: &str, rows: &[Row]) -> Result<(), Fault> {
    let mut typing = Typing::new(alloc, name)?;
    for (step, names, has) in rows {
        let told = typing.take(*step)?;
        let listed = typing.lists(*names)?;
        same(
            rt,
            (*names, told && listed, typing.has()),
            (*names, true, *has),
        );
    }
    Ok(())
}

#[test]
fn states_of_writes(rt: HostRuntime) -> Result<(), Fail> {
    for (name, rows) in TABLES {
        come_out(&rt, rt.alloc(), name, rows)?;
    }
    Ok(())
}

// Writes the tag on a thousand characters by one operation: they get one state, which is a new one.
fn write_many(typing: &mut Typing, count: u64) -> Result<bool, Fault> {
    let on = count % 2 == 0;
    let first = typing.take(Step::Write(count, 1, on, (false, false)))?;
    let others = typing.take(Step::Again(count, 1, on))?;
    let _ = typing.take(Step::GoOn)?;
    Ok(first && others)
}

// A hundred operations on a thousand characters make one state each.
#[test]
fn many_writes(rt: HostRuntime) -> Result<(), Fail> {
    let mut typing = Typing::new(rt.alloc(), "t")?;
    for count in 2..102 {
        same(&rt, write_many(&mut typing, count)?, true);
    }
    Ok(())
}

// A name has one number for good; tags come by the bytes of their names, each once.
#[test]
fn numbers(rt: HostRuntime) -> Result<(), Fail> {
    let mut table = StateTable::new(rt.alloc())?;
    same(&rt, table.known("b"), None);
    let b = table.number("b")?;
    let a = table.number("a")?;
    same(
        &rt,
        (table.number("b")?, table.known("b"), a == b),
        (b, Some(b), false),
    );
    same(&rt, (table.name(b), table.name(a)), ("b", "a"));
    same(
        &rt,
        table.in_order(&[b, a, b])?.as_slice(),
        [a, b].as_slice(),
    );
    Ok(())
}
