// Toggles of tags, and random calls against a plain list of counts.
ghost use Rattle.std.specs.Prelude.{ℕ, ◌<◌, ◌≤◌};
ghost use Rattle.rt_tags.specs.Toggles.{count_of};

use crate::checks::same;
use rt_stamps::Fault;
use rt_tags::{StateTable, TagCount, TagId, Toggles};
use std::alloc::Global;
use std::process::Abort;
use std::test::Fail;

// Toggles, and beside them how many each tag has.
struct Both {
    toggles: Toggles,
    plain: Vec<(TagId, u32)>,
    ghost few: { (tag : ℕ) → count_of tag toggles ≤ 1000 },
}

// Written out, so that each way out of a test lets both go in one step of its proof.
impl Drop for Both {
    fn drop(self) {
        let Both {
            toggles: _,
            plain: _,
        } = self;
    }
}

impl Both {
    fn new(alloc: Global, tags: &[TagId]) -> Result<Both, Fault> {
        let mut plain = Vec::new(alloc);
        for tag in tags {
            plain.push((*tag, 0))?;
        }
        Ok(Both {
            toggles: Toggles::new(alloc),
            plain,
        })
    }

    // Both say the same.
    fn compare(&self, rt: &impl Abort) {
        let mut place = 0;
        for (tag, count) in &self.plain {
            same(rt, self.toggles.of(*tag), *count);
            if *count > 0 {
                let found = self.toggles.counts().get(place).copied();
                let wanted = TagCount {
                    tag: *tag,
                    count: *count,
                };
                same(rt, found, Some(wanted));
                place = place.saturating_add(1);
            }
        }
        same(rt, self.toggles.counts().len(), place);
        same(rt, self.toggles.counts().is_empty(), place == 0);
    }

    fn add(&mut self, rt: &impl Abort, place: usize, n: u32) -> Result<(), Fail> {
        assert!(rt; place < self.plain.len() && n < 100);
        let (tag, count) = self.plain[place];
        if self.toggles.of(tag) + n <= 1000 {
            self.toggles.reserve(1)?;
            self.toggles.add(tag, n);
            self.plain[place] = (tag, count.wrapping_add(n));
        }
        Ok(())
    }

    fn take(&mut self, rt: &impl Abort, place: usize, n: u32) {
        assert!(rt; place < self.plain.len());
        let (tag, count) = self.plain[place];
        if n <= self.toggles.of(tag) {
            self.toggles.take(tag, n);
            self.plain[place] = (tag, count.wrapping_sub(n));
        }
    }

    fn clear(&mut self) {
        self.toggles.clear();
        for entry in self.plain.iter_mut() {
            entry.1 = 0;
        }
    }

    fn add_and_take(&mut self, rt: &impl Abort, other: &Both) -> Result<(), Fail> {
        there_and_back(rt, &mut self.toggles, &self.plain, &other.toggles)
    }
}

// The toggles of another are added, and taken off again.
fn there_and_back(
    rt: &impl Abort,
    toggles: &mut Toggles,
    plain: &[(TagId, u32)],
    other: &Toggles,
) -> Result<(), Fail>
    requires few { (tag : ℕ) → count_of tag toggles.old ≤ 1000 }
    requires others { (tag : ℕ) → count_of tag other.now ≤ 1000 }
    ensures { (tag : ℕ) → count_of tag toggles.new ≤ 1000 }
{
    toggles.reserve(other.counts().len())?;
    toggles.add_all(other);
    for (tag, count) in plain {
        same(rt, toggles.of(*tag), count.wrapping_add(other.of(*tag)));
    }
    toggles.take_all(other);
    Ok(())
}

// The numbers of six tags, lowest first.
fn six(alloc: Global) -> Result<Vec<TagId>, Fault> {
    let mut table = StateTable::new(alloc)?;
    let mut tags = Vec::new(alloc);
    for name in ["f", "b", "d", "a", "e", "c"] {
        tags.push(table.number(name)?)?;
    }
    Ok(tags)
}

// The numbers of forty-eight tags: more than those that are added one by one.
fn many(alloc: Global) -> Result<Vec<TagId>, Fault> {
    let mut table = StateTable::new(alloc)?;
    let mut tags = Vec::new(alloc);
    for i in 0..48u8 {
        let name = format!(in alloc; "{i}")?;
        tags.push(table.number(name.as_str())?)?;
    }
    Ok(tags)
}

// Every second tag here, and every third there, from one and from two toggles on: those that both have stand between others.
fn interleaved(rt: &impl Abort, alloc: Global, tags: &[TagId]) -> Result<(), Fail> {
    let mut some = Both::new(alloc, tags)?;
    let mut others = Both::new(alloc, tags)?;
    for i in 0..24 {
        some.add(rt, i * 2, 1)?;
    }
    for i in 0..16 {
        others.add(rt, 45 - i * 3, 2)?;
    }
    others.add(rt, 1, 1)?;
    some.call(rt, &others, 0, Call::Trade)?;
    others.call(rt, &some, 0, Call::Trade)
}

fn below(seed: &mut u64, limit: u64) -> u64
    requires { 0 < limit }
    ensures { result < limit }
{
    *seed = seed.wrapping_mul(6_364_136_223_846_793_005).wrapping_add(1);
    (*seed >> 33) % limit
}

/// A call on toggles.
#[derive(Clone, Copy)]
enum Call {
    Clear,
    /// The toggles of others are added, and taken off again.
    Trade,
    Add(u32),
    Take(u32),
}

impl Both {
    // A call on the tag of a place; both say the same then.
    fn call(
        &mut self,
        rt: &impl Abort,
        others: &Both,
        place: usize,
        call: Call,
    ) -> Result<(), Fail> {
        match call {
            Call::Clear => self.clear(),
            Call::Trade => self.add_and_take(rt, others)?,
            Call::Add(n) => self.add(rt, place, n)?,
            Call::Take(n) => self.take(rt, place, n),
        }
        self.compare(rt);
        Ok(())
    }
}

// Each call, on toggles of two tags.
const EACH_CALL: &[(usize, Call)] = &[
    (4, Call::Add(5)),
    (1, Call::Add(1)),
    (4, Call::Take(2)),
    (2, Call::Take(0)),
    (1, Call::Take(1)),
    (0, Call::Trade),
    (0, Call::Clear),
];

fn each_call(rt: &impl Abort, some: &mut Both, others: &Both) -> Result<(), Fail> {
    some.compare(rt);
    for (place, call) in EACH_CALL {
        some.call(rt, others, *place, *call)?;
    }
    Ok(())
}

fn random_call(seed: &mut u64) -> Call {
    let n = below(seed, 5) as u32;
    match below(seed, 20) {
        0 => Call::Clear,
        1..=5 => Call::Trade,
        6..=12 => Call::Add(n),
        _ => Call::Take(n),
    }
}

// A call that looks random.
fn turn(rt: &impl Abort, one: &mut Both, other: &Both, seed: &mut u64) -> Result<(), Fail> {
    let place = below(seed, 6) as usize;
    one.call(rt, other, place, random_call(seed))
}

fn random_calls(rt: &impl Abort, some: &mut Both, others: &mut Both) -> Result<(), Fail> {
    let mut seed = 11;
    for _ in 0..1500 {
        turn(rt, some, others, &mut seed)?;
        turn(rt, others, some, &mut seed)?;
    }
    Ok(())
}

fn calls(rt: &impl Abort, alloc: Global, tags: &[TagId]) -> Result<(), Fail> {
    let mut some = Both::new(alloc, tags)?;
    let mut others = Both::new(alloc, tags)?;
    each_call(rt, &mut some, &others)?;
    random_calls(rt, &mut some, &mut others)
}

#[test]
fn toggles_of_tags(rt: HostRuntime) -> Result<(), Fail> {
    let tags = six(rt.alloc())?;
    calls(&rt, rt.alloc(), &tags)?;
    let tags = many(rt.alloc())?;
    interleaved(&rt, rt.alloc(), &tags)
}
