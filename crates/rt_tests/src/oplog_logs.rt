// Logs of a few operations.
use crate::checks::same;
use rt_oplog::{Op, OpLog, join};
use rt_stamps::{Fault, ROOT, Stamp};
use std::alloc::Global;
use std::process::Abort;
use std::test::Fail;

const FIRST: Stamp = Stamp { count: 1, site: 1 };

/// An operation.
#[derive(Clone, Copy)]
enum One {
    /// Site 1 typed `ab`.
    Ab,
    /// Site 2 typed `Y` after the `a`.
    Y,
    /// Site 1 typed `b` with the stamp of the `a`.
    B,
    /// Site 1 typed `c` after the `b`, and then saw the `Y`.
    C,
    /// Site 1 typed `a` after its own stamp.
    Own,
    /// Site 1 typed `z` much later, and tells of nothing before it.
    Late,
    /// Site 1 typed `z` after the `a`, with the stamp of the `b`.
    Z,
}

/// An Insert without tags.
fn typed(alloc: Global, stamp: Stamp, prev: u64, after: Stamp, text: &[char]) -> Result<Op, Fault> {
    let text = Vec::from_slice(alloc, text)?;
    Op::insert(stamp, prev, after, Vec::new(alloc), text)
}

fn op(alloc: Global, one: One) -> Result<Op, Fault> {
    let at = |count: u64, site: u32| Stamp { count, site };
    match one {
        One::Ab => typed(alloc, FIRST, 0, ROOT, &['a', 'b']),
        One::Y => typed(alloc, at(3, 2), 0, FIRST, &['Y']),
        One::B => typed(alloc, FIRST, 0, ROOT, &['b']),
        One::C => typed(alloc, at(4, 1), 2, at(2, 1), &['c']),
        One::Own => typed(alloc, FIRST, 0, FIRST, &['a']),
        One::Late => typed(alloc, at(9, 1), 0, ROOT, &['z']),
        One::Z => typed(alloc, at(2, 1), 0, FIRST, &['z']),
    }
}

/// A log, whose calls name operations.
struct Log {
    log: OpLog,
}

// Written out, so that each way out of a test lets a log go in one step of its proof.
impl Drop for Log {
    fn drop(self) {
        let Log { log: _ } = self;
    }
}

impl Log {
    fn push(&mut self, alloc: Global, one: One) -> Result<(), Fault> {
        self.log.push(op(alloc, one)?)
    }

    // The log of operations that none refuses.
    fn of(alloc: Global, ops: &[One]) -> Result<Log, Fault> {
        let log = OpLog::new(alloc);
        let mut log = Log { log };
        for one in ops {
            log.push(alloc, *one)?;
        }
        Ok(log)
    }

    fn joined(self, other: Log) -> Result<Log, Fault> {
        let Log { log: one } = self;
        let Log { log: other } = other;
        let log = join(one, other)?;
        Ok(Log { log })
    }

    // Whether an operation is in the log, and at this place.
    fn has(&self, alloc: Global, place: usize, one: One) -> Result<bool, Fault> {
        if place >= self.log.len() {
            return Ok(false);
        }
        let op = op(alloc, one)?;
        Ok(self.log.contains(&op) && self.log.get(place).stamp == op.stamp())
    }

    // Stops a test where the log has other operations, or knows other counts of the sites 1 and 2.
    fn is(
        &self,
        rt: &impl Abort,
        alloc: Global,
        ops: &[One],
        known: (u64, u64),
    ) -> Result<(), Fail> {
        let lens = (self.log.len(), self.log.in_order()?.len());
        same(rt, lens, (ops.len(), ops.len()));
        same(rt, (self.log.known(1), self.log.known(2)), known);
        for (place, one) in ops.iter().enumerate() {
            same(rt, (place, self.has(alloc, place, *one)?), (place, true));
        }
        Ok(())
    }
}

const AB: &[One] = &[One::Ab];

const Y: &[One] = &[One::Y];

const BOTH: &[One] = &[One::Ab, One::Y];

const ALL: &[One] = &[One::Ab, One::Y, One::C];

/// Operations that are pushed in turn, each with its fault, the log then, and the counts that it knows of the sites 1 and 2.
type Pushed = (&'static [(One, Option<Fault>)], &'static [One], (u64, u64));

const PUSHED: &[Pushed] = &[
    (
        &[(One::Y, None), (One::Ab, None), (One::Ab, None)],
        BOTH,
        (2, 3),
    ),
    (
        &[(One::Ab, None), (One::B, Some(Fault::Conflict))],
        AB,
        (2, 0),
    ),
    (&[(One::Own, Some(Fault::BadStamp))], &[], (0, 0)),
    (
        &[
            (One::Y, None),
            (One::Ab, None),
            (One::Late, Some(Fault::Conflict)),
            (One::C, None),
        ],
        ALL,
        (4, 3),
    ),
];

// Pushes operations on a new log.
fn push_all(rt: &impl Abort, alloc: Global, row: &Pushed) -> Result<(), Fail> {
    let (pushes, ops, known) = *row;
    let mut log = Log::of(alloc, &[])?;
    log.log.reserve(2)?;
    for (one, fault) in pushes {
        same(rt, log.push(alloc, *one).err(), *fault);
    }
    log.is(rt, alloc, ops, known)
}

#[test]
fn takes_operations_in_turn(rt: HostRuntime) -> Result<(), Fail> {
    let alloc = rt.alloc();
    same(&rt, op(alloc, One::Own)?.check(), Err(Fault::BadStamp));
    for row in PUSHED {
        push_all(&rt, alloc, row)?;
    }
    Ok(())
}

/// Operations that are taken at once, the fault of the first that is refused, and its place, the log of those that none
/// refuses, and the counts that it knows of the sites 1 and 2.
type Made = (
    &'static [One],
    Option<(Fault, usize)>,
    &'static [One],
    (u64, u64),
);

const MADE: &[Made] = &[
    (&[One::Y, One::Ab, One::Ab, One::C], None, ALL, (4, 3)),
    (&[], None, &[], (0, 0)),
    (
        &[One::Y, One::Ab, One::B, One::C],
        Some((Fault::Conflict, 2)),
        &[],
        (0, 0),
    ),
    (
        &[One::Own, One::Ab, One::B],
        Some((Fault::BadStamp, 0)),
        &[],
        (0, 0),
    ),
];

// The log of operations at once, or an empty one with the fault of the first that is refused, and its place.
fn made(alloc: Global, ops: &[One]) -> Result<(Log, Option<(Fault, usize)>), Fault> {
    let mut all = Vec::new(alloc);
    for one in ops {
        all.push(op(alloc, *one)?)?;
    }
    match OpLog::from_ops(alloc, all) {
        Ok(log) => Ok((Log { log }, None)),
        Err(refused) => Ok((Log::of(alloc, &[])?, Some((refused.fault, refused.place)))),
    }
}

#[test]
fn takes_operations_at_once(rt: HostRuntime) -> Result<(), Fail> {
    for (given, why, ops, known) in MADE {
        let (log, refused) = made(rt.alloc(), *given)?;
        same(&rt, refused, *why);
        log.is(&rt, rt.alloc(), *ops, *known)?;
    }
    Ok(())
}

/// Two logs, why they aren't joined, and else their join, and the counts that it knows of the sites 1 and 2.
type Joined = (
    &'static [One],
    &'static [One],
    Option<Fault>,
    &'static [One],
    (u64, u64),
);

const JOINED: &[Joined] = &[
    (AB, Y, None, BOTH, (2, 3)),
    (Y, AB, None, BOTH, (2, 3)),
    (BOTH, BOTH, None, BOTH, (2, 3)),
    (&[], &[], None, &[], (0, 0)),
    (
        &[One::Y, One::Ab],
        &[One::B],
        Some(Fault::Conflict),
        &[],
        (0, 0),
    ),
    (AB, &[One::Z], Some(Fault::Conflict), &[], (0, 0)),
];

fn join_all(rt: &impl Abort, alloc: Global, row: &Joined) -> Result<(), Fail> {
    let (one, other, why, ops, known) = *row;
    match Log::of(alloc, one)?.joined(Log::of(alloc, other)?) {
        Ok(log) => {
            same(rt, None, why);
            log.is(rt, alloc, ops, known)
        }
        Err(fault) => {
            same(rt, Some(fault), why);
            Ok(())
        }
    }
}

// A join takes further operations.
fn join_goes_on(rt: &impl Abort, alloc: Global) -> Result<(), Fail> {
    let mut log = Log::of(alloc, AB)?.joined(Log::of(alloc, Y)?)?;
    log.push(alloc, One::C)?;
    log.is(rt, alloc, ALL, (4, 3))
}

#[test]
fn joins(rt: HostRuntime) -> Result<(), Fail> {
    for row in JOINED {
        join_all(&rt, rt.alloc(), row)?;
    }
    join_goes_on(&rt, rt.alloc())
}

// One character of each of 300 sites, the greatest site first, each on its site's known end.
fn push_of_each(alloc: Global, log: &mut Log, again: bool) -> Result<(), Fault> {
    let first = if again { 301 } else { 1 };
    for back in 0..300u32 {
        let site = 300 - back;
        let count = first + u64::from(back);
        let prev = log.log.known(site);
        let op = typed(alloc, Stamp { count, site }, prev, ROOT, &['x'])?;
        log.log.push(op)?;
    }
    Ok(())
}

#[test]
fn knows_the_ends_of_many_sites(rt: HostRuntime) -> Result<(), Fail> {
    let mut log = Log::of(rt.alloc(), &[])?;
    push_of_each(rt.alloc(), &mut log, false)?;
    push_of_each(rt.alloc(), &mut log, true)?;
    for back in 0..300u32 {
        same(&rt, log.log.known(300 - back), 301 + u64::from(back));
    }
    same(&rt, (log.log.known(301), log.log.len()), (0, 600));
    Ok(())
}
