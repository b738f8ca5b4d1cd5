// Logs of three sites' operations by chance, beside plain lists of them.
use crate::checks::same;
use rt_oplog::{Op, OpLog, join};
use rt_stamps::{Fault, ROOT, Stamp};
use std::alloc::Global;
use std::process::Abort;
use std::test::Fail;

/// Numbers as by chance: a linear congruence with the factor of MMIX (Knuth).
#[derive(Clone, Copy)]
struct Dice {
    seen: u64,
}

impl Dice {
    // A number below another one, which isn't 0.
    fn below(&mut self, end: u64) -> u64 {
        self.seen = self
            .seen
            .wrapping_mul(6_364_136_223_846_793_005)
            .wrapping_add(1_442_695_040_888_963_407);
        (self.seen >> 33) % end.max(1)
    }

    fn is_one_of(&mut self, end: u64) -> bool {
        self.below(end) == 0
    }
}

/// An Insert of one `x` or of two, after its site's stamp of a count, or after the root where that is 0.
#[derive(Clone, Copy, Debug, PartialEq, Eq)]
struct Plain {
    stamp: Stamp,
    prev: u64,
    after: u64,
    is_long: bool,
}

impl Plain {
    fn last(self) -> u64 {
        self.stamp.count.saturating_add(u64::from(self.is_long))
    }

    fn op(self, alloc: Global) -> Result<Op, Fault> {
        let text: &[char] = if self.is_long { &['x', 'x'] } else { &['x'] };
        let site = if self.after == 0 { 0 } else { self.stamp.site };
        let after = Stamp {
            count: self.after,
            site,
        };
        let text = Vec::from_slice(alloc, text)?;
        Op::insert(self.stamp, self.prev, after, Vec::new(alloc), text)
    }

    fn reaches(self, other: Plain) -> bool {
        self.stamp.site == other.stamp.site
            && self.stamp.count <= other.stamp.count
            && other.prev < self.last()
    }

    fn clashes(self, other: Plain) -> bool {
        self != other && (self.reaches(other) || other.reaches(self))
    }
}

// Whether a list has an operation.
fn has(list: &[Plain], one: Plain) -> bool {
    list.iter().any(|other| *other == one)
}

// Whether an operation of a list clashes with this one.
fn any_clashes(list: &[Plain], one: Plain) -> bool {
    list.iter().any(|other| other.clashes(one))
}

// Whether a list has an operation of this stamp and previous count.
fn has_stamp(list: &[Plain], stamp: Stamp, prev: u64) -> bool {
    list.iter()
        .any(|one| one.stamp == stamp && one.prev == prev)
}

// The greatest last count of a site.
fn known(list: &[Plain], site: u32) -> u64 {
    let mut known = 0;
    for one in list {
        if one.stamp.site == site {
            known = one.last().max(known);
        }
    }
    known
}

/// A log, and the list of its operations.
struct Both {
    log: OpLog,
    list: Vec<Plain>,
}

// Written out, so that each way out of a test lets both go in one step of its proof.
impl Drop for Both {
    fn drop(self) {
        let Both { log: _, list: _ } = self;
    }
}

impl Both {
    fn new(alloc: Global) -> Both {
        Both {
            log: OpLog::new(alloc),
            list: Vec::new(alloc),
        }
    }

    fn parts(self) -> (OpLog, Vec<Plain>) {
        let Both { log, list } = self;
        (log, list)
    }

    // The fault with which a push is to be refused.
    fn fault_of(&self, one: Plain) -> Option<Fault> {
        if one.prev >= one.stamp.count {
            return Some(Fault::BadStamp);
        }
        if any_clashes(&self.list, one) && !has(&self.list, one) {
            return Some(Fault::Conflict);
        }
        None
    }

    fn push(&mut self, rt: &impl Abort, alloc: Global, one: Plain) -> Result<(), Fault> {
        let fault = self.fault_of(one);
        same(rt, self.log.push(one.op(alloc)?).err(), fault);
        if fault.is_none() && !has(&self.list, one) {
            self.list.push(one)?;
        }
        Ok(())
    }

    // Stops a test where the log has other operations by rising stamp than the list.
    fn is_in_order(&self, rt: &impl Abort) -> Result<(), Fail> {
        let ops = self.log.in_order()?;
        let lens = (self.log.len(), ops.len());
        same(rt, lens, (self.list.len(), self.list.len()));
        let mut last = ROOT;
        for op in &ops {
            let is_there = has_stamp(&self.list, op.stamp, op.prev);
            same(rt, (last < op.stamp, is_there), (true, true));
            last = op.stamp;
        }
        Ok(())
    }

    // Stops a test where the log doesn't say of the sites and of some operations what the list says.
    fn agrees(&self, rt: &impl Abort, alloc: Global, some: &[Plain]) -> Result<(), Fail> {
        for site in 0..5u32 {
            same(rt, self.log.known(site), known(&self.list, site));
        }
        for one in some {
            let op = one.op(alloc)?;
            same(rt, self.log.contains(&op), has(&self.list, *one));
        }
        self.is_in_order(rt)
    }
}

// An operation of the same stamp: that very one, or one that clashes with it or isn't sound.
fn like(dice: &mut Dice, one: Plain) -> Plain {
    let Plain {
        stamp,
        prev,
        after,
        is_long,
    } = one;
    Plain {
        stamp,
        prev: if dice.is_one_of(3) {
            stamp.count
        } else {
            prev / 2
        },
        after,
        is_long: is_long != dice.is_one_of(2),
    }
}

// Adds operations of a site, each of which goes on from the one before, and behind each one like it.
fn make(dice: &mut Dice, made: &mut Vec<Plain>, site: u32) -> Result<(), Fault> {
    let mut last = 0u64;
    for _ in 0..20 {
        let count = last.saturating_add(if dice.is_one_of(4) { 2 } else { 1 });
        let one = Plain {
            stamp: Stamp { count, site },
            prev: last,
            after: if dice.is_one_of(4) { 0 } else { last },
            is_long: dice.is_one_of(6),
        };
        made.push(one)?;
        made.push(like(dice, one))?;
        last = one.last();
    }
    Ok(())
}

// Operations of three sites, site after site.
fn all_made(dice: &mut Dice, alloc: Global) -> Result<Vec<Plain>, Fault> {
    let mut made = Vec::new(alloc);
    for site in 1..4u32 {
        make(dice, &mut made, site)?;
    }
    Ok(made)
}

// The place of an operation by chance: one time of `odd` it may be any, else it is one of those that clash with none.
fn place(dice: &mut Dice, len: usize, odd: u64) -> usize {
    let place = dice.below(len as u64) as usize;
    if dice.is_one_of(odd) {
        return place;
    }
    place.saturating_sub(place % 2)
}

// A log of operations that come by chance, some of them again and again.
fn by_chance(
    rt: &impl Abort,
    alloc: Global,
    dice: &mut Dice,
    made: &[Plain],
    odd: u64,
) -> Result<Both, Fault> {
    let mut both = Both::new(alloc);
    for _ in 0..80 {
        if let Some(one) = made.get(place(dice, made.len(), odd)) {
            both.push(rt, alloc, *one)?;
        }
    }
    Ok(both)
}

// A log of most operations, site after site.
fn by_sites(
    rt: &impl Abort,
    alloc: Global,
    dice: &mut Dice,
    made: &[Plain],
    odd: u64,
) -> Result<Both, Fault> {
    let mut both = Both::new(alloc);
    for (place, one) in made.iter().enumerate() {
        let is_taken = if place % 2 == 0 {
            !dice.is_one_of(8)
        } else {
            dice.is_one_of(odd)
        };
        if is_taken {
            both.push(rt, alloc, *one)?;
        }
    }
    Ok(both)
}

// Whether operations of two lists clash.
fn are_clashing(one: &[Plain], other: &[Plain]) -> bool {
    one.iter().any(|op| any_clashes(other, *op))
}

// The log of two logs has the operations of both, or there is none where two of them clash.
fn join_both(
    rt: &impl Abort,
    alloc: Global,
    one: Both,
    other: Both,
    made: &[Plain],
) -> Result<bool, Fail> {
    let (log, mut list) = one.parts();
    let (more, others) = other.parts();
    let is_clash = are_clashing(&list, &others);
    match join(log, more) {
        Ok(log) => {
            same(rt, is_clash, false);
            for op in &others {
                if !has(&list, *op) {
                    list.push(*op)?;
                }
            }
            Both { log, list }.agrees(rt, alloc, made)?;
            Ok(true)
        }
        Err(fault) => {
            same(rt, (fault, is_clash), (Fault::Conflict, true));
            Ok(false)
        }
    }
}

// Two logs of some of the same operations, and their join; whether there is one.
fn try_two(rt: &impl Abort, alloc: Global, dice: &mut Dice, odd: u64) -> Result<bool, Fail> {
    let made = all_made(dice, alloc)?;
    let one = by_chance(rt, alloc, dice, &made, odd)?;
    one.agrees(rt, alloc, &made)?;
    let other = by_sites(rt, alloc, dice, &made, odd)?;
    other.agrees(rt, alloc, &made)?;
    if dice.is_one_of(2) {
        return join_both(rt, alloc, one, other, &made);
    }
    join_both(rt, alloc, other, one, &made)
}

// Twenty times two logs: how often they had a join.
fn joins_of(rt: &impl Abort, alloc: Global, dice: &mut Dice, odd: u64) -> Result<usize, Fail> {
    let mut joins = 0usize;
    for _ in 0..20 {
        if try_two(rt, alloc, dice, odd)? {
            joins = joins.saturating_add(1);
        }
    }
    Ok(joins)
}

#[test]
fn logs_by_chance_are_as_their_lists(rt: HostRuntime) -> Result<(), Fail> {
    let mut dice = Dice { seen: 7 };
    // Where no operation that clashes is pushed, two logs always have a join.
    same(&rt, joins_of(&rt, rt.alloc(), &mut dice, 1_000_000)?, 20);
    // With one of ten that may clash, some have none.
    let joins = joins_of(&rt, rt.alloc(), &mut dice, 10)?;
    assert!(rt; joins < 20, "{joins}");
    Ok(())
}
