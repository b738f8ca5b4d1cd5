// Operations of a few sites, offered in each order that is allowed, each twice; and some that come early.
use crate::checks::same;
use rt_oplog::Op;
use rt_replica::{HoldingReplica, Taken};
use rt_rga::{Change, PlaceRun};
use rt_stamps::{Fault, Site, Span, Stamp};
use rt_store::{Cell, ListStore, TextStore};
use rt_tags::StateId;
use std::alloc::Global;
use std::process::Abort;
use std::test::Fail;

/// What an operation of the examples does. A stamp is its count and site, a span its site, first and
/// last count.
#[derive(Clone, Copy)]
pub(crate) enum Does {
    Inserts((u64, u32), &'static [char]),
    InsertsTagged((u64, u32), &'static [char]),
    Deletes((u32, u64, u64)),
    DeletesBoth((u32, u64, u64), (u32, u64, u64)),
    Tags(bool, (u32, u64, u64)),
}

/// An operation of the examples: its count, site and `prev`, and what it does. Its tag is `t`.
pub(crate) type Made = (u64, u32, u64, Does);

fn one<T>(alloc: Global, item: T) -> Result<Vec<T>, Fault>
where
    T: Drop,
{
    let mut items = Vec::new(alloc);
    items.push(item)?;
    Ok(items)
}

fn stamp(named: (u64, u32)) -> Stamp {
    let (count, site) = named;
    Stamp { count, site }
}

fn span(named: (u32, u64, u64)) -> Span {
    let (site, first, last) = named;
    Span { site, first, last }
}

fn insert(
    alloc: Global,
    at: Stamp,
    prev: u64,
    after: (u64, u32),
    tags: Vec<String>,
    text: &[char],
) -> Result<Op, Fault> {
    let text = Vec::from_slice(alloc, text)?;
    Op::insert(at, prev, stamp(after), tags, text)
}

fn op(alloc: Global, made: Made) -> Result<Op, Fault> {
    let (count, site, prev, does) = made;
    let at = Stamp { count, site };
    match does {
        Does::Inserts(after, text) => insert(alloc, at, prev, after, Vec::new(alloc), text),
        Does::InsertsTagged(after, text) => {
            let tags = one(alloc, String::from_str(alloc, "t")?)?;
            insert(alloc, at, prev, after, tags, text)
        }
        Does::Deletes(named) => Op::delete(at, prev, one(alloc, span(named))?),
        Does::DeletesBoth(named, other) => {
            let spans = Vec::from_slice(alloc, &[span(named), span(other)])?;
            Op::delete(at, prev, spans)
        }
        Does::Tags(on, named) => {
            let spans = one(alloc, span(named))?;
            Op::tag(at, prev, on, String::from_str(alloc, "t")?, spans)
        }
    }
}

/// What is answered to an operation: of a new one the place, how many characters it inserted and how
/// many tags it lists; or that none of its changes is told.
#[derive(Clone, Copy, Debug, PartialEq, Eq)]
pub(crate) enum Said {
    New(usize, usize, usize),
    Untold,
    Repeat,
    Held,
    Refused(Fault),
}

impl Said {
    pub(crate) fn is_new(self) -> bool {
        matches!(self, Said::New(_, _, _))
    }

    // Why the operation was refused, if it was.
    pub(crate) fn fault(self) -> Option<Fault> {
        match self {
            Said::Refused(fault) => Some(fault),
            _ => None,
        }
    }
}

// The first change that is told, as what is answered.
fn first_told(changes: &[Change]) -> Said {
    match changes.first() {
        Some(change) => Said::New(change.place, change.inserted, change.lists.len()),
        None => Said::Untold,
    }
}

fn told(taken: Taken) -> Said {
    match taken {
        Taken::New(changes) => first_told(&changes),
        Taken::Repeat => Said::Repeat,
        Taken::Held => Said::Held,
    }
}

// A cell, and a space behind it.
fn spelled(alloc: Global, cell: Cell<StateId>) -> Result<String, Fail> {
    let Stamp { count, site } = cell.stamp;
    let ch = cell.ch;
    let gone = if cell.gone { "-" } else { "" };
    Ok(format!(in alloc; "{count}.{site}{ch}{gone} ")?)
}

/// A replica of site 9.
pub(crate) struct Peer {
    alloc: Global,
    pub(crate) replica: HoldingReplica<ListStore>,
}

// Written out, so that each way out of a test lets a peer go in one step of its proof.
impl Drop for Peer {
    fn drop(self) {
        let Peer {
            alloc: _,
            replica: _,
        } = self;
    }
}

impl Peer {
    pub(crate) fn new(alloc: Global, limit: usize) -> Result<Peer, Fail> {
        let site = Site::new(9).ok_or("a site")?;
        let store = ListStore::new(alloc)?;
        let replica = HoldingReplica::new(alloc, store, site, limit.max(1).min(1_000))?;
        Ok(Peer { alloc, replica })
    }

    pub(crate) fn offer(&mut self, made: Made) -> Said {
        match op(self.alloc, made) {
            Ok(op) => match self.replica.accept(op) {
                Ok(taken) => told(taken),
                Err(fault) => Said::Refused(fault),
            },
            Err(fault) => Said::Refused(fault),
        }
    }

    // Offers an operation that is new, and tells what it takes away.
    fn takes_away(&mut self, made: Made) -> Result<Vec<PlaceRun>, Fail> {
        match self.told_of(made)?.pop() {
            Some(
                Change {
                    place: _,
                    inserted: _,
                    removed,
                    retagged: _,
                    lists: _,
                },
            ) => Ok(removed),
            None => Err(Fail::from("it is told")),
        }
    }

    // Offers an operation that is new, and tells what it changes, and what held ones change after it.
    fn told_of(&mut self, made: Made) -> Result<Vec<Change>, Fail> {
        match self.replica.accept(op(self.alloc, made)?)? {
            Taken::New(changes) => Ok(changes),
            Taken::Repeat => Err(Fail::from("it is new, not a repeat")),
            Taken::Held => Err(Fail::from("it is new, not held")),
        }
    }

    // The text, with a star behind each character that has the tag `t`.
    pub(crate) fn reading(&self) -> Result<String, Fail> {
        let store = self.replica.replica().store();
        let mut text = String::new(self.alloc);
        for place in 0..store.visible() {
            text.push(store.char_at(place))?;
            if self.tagged_from(place) == Some(place) {
                text.push('*')?;
            }
        }
        Ok(text)
    }

    // The cells in turn: of each its stamp and its character, with a minus behind one that is gone.
    pub(crate) fn cells(&self) -> Result<String, Fail> {
        let store = self.replica.replica().store();
        let mut text = String::new(self.alloc);
        for position in 0..store.cells() {
            let cell = spelled(self.alloc, store.nth(position))?;
            text.push_str(&cell)?;
        }
        Ok(text)
    }

    // The first place from one up with the tag `t`.
    fn tagged_from(&self, place: usize) -> Option<usize> {
        let replica = self.replica.replica();
        let states = replica.states();
        match states.known("t") {
            Some(tag) => replica.store().next_tagged(states, tag, place),
            None => None,
        }
    }
}

pub(crate) const AB: Made = (1, 1, 0, Does::Inserts((0, 0), &['a', 'b']));

pub(crate) const XX: Made = (3, 1, 2, Does::Inserts((1, 1), &['X', 'X']));

pub(crate) const Y: Made = (3, 2, 0, Does::Inserts((1, 1), &['Y']));

pub(crate) const B_GOES: Made = (3, 1, 2, Does::Deletes((1, 2, 2)));

pub(crate) const Z: Made = (3, 2, 0, Does::Inserts((2, 1), &['Z']));

pub(crate) const TAGGED: Made = (1, 1, 0, Does::InsertsTagged((0, 0), &['a', 'b']));

pub(crate) const OFF: Made = (3, 1, 2, Does::Tags(false, (1, 1, 1)));

pub(crate) const ON: Made = (4, 1, 3, Does::Tags(true, (1, 1, 1)));

pub(crate) const OFF_TOO: Made = (3, 2, 0, Does::Tags(false, (1, 1, 1)));

pub(crate) const Q: Made = (3, 2, 0, Does::Inserts((2, 1), &['q']));

pub(crate) const OFF_LAST: Made = (4, 2, 3, Does::Tags(false, (1, 1, 1)));

/// Operations in an order; then the text with a star behind each tagged character, and how many cells there are.
type Row = (&'static [Made], &'static str, usize);

const AT_ONE_PLACE: &[Row] = &[(&[AB, XX, Y], "aYXXb\n", 6), (&[AB, Y, XX], "aYXXb\n", 6)];

const BESIDE_A_TOMBSTONE: &[Row] = &[(&[AB, B_GOES, Z], "aZ\n", 4), (&[AB, Z, B_GOES], "aZ\n", 4)];

const TAGS: &[Row] = &[
    (&[TAGGED, OFF, ON, OFF_TOO], "a*b*\n", 3),
    (&[TAGGED, OFF, OFF_TOO, ON], "a*b*\n", 3),
    (&[TAGGED, OFF_TOO, OFF, ON], "a*b*\n", 3),
];

const LATER_TAGS: &[Row] = &[
    (&[TAGGED, OFF, ON, Q, OFF_LAST], "ab*q\n", 4),
    (&[TAGGED, OFF, Q, ON, OFF_LAST], "ab*q\n", 4),
    (&[TAGGED, OFF, Q, OFF_LAST, ON], "ab*q\n", 4),
    (&[TAGGED, Q, OFF, ON, OFF_LAST], "ab*q\n", 4),
    (&[TAGGED, Q, OFF, OFF_LAST, ON], "ab*q\n", 4),
    (&[TAGGED, Q, OFF_LAST, OFF, ON], "ab*q\n", 4),
];

// Offers operations, each twice: it is new, and then a repeat.
fn offer_twice(rt: &impl Abort, peer: &mut Peer, all: &[Made]) {
    for made in all {
        let is_new = peer.offer(*made).is_new();
        same(rt, (is_new, peer.offer(*made)), (true, Said::Repeat));
    }
}

// Offers the operations of a row to a new replica, which shows what is told then.
fn comes_out(rt: &impl Abort, alloc: Global, row: &Row) -> Result<(), Fail> {
    let (all, text, cells) = *row;
    let mut peer = Peer::new(alloc, 100)?;
    offer_twice(rt, &mut peer, all);
    same(rt, peer.reading()?.as_str(), text);
    same(rt, peer.replica.replica().store().cells(), cells);
    Ok(())
}

fn come_out(rt: &impl Abort, alloc: Global, rows: &[Row]) -> Result<(), Fail> {
    for row in rows {
        comes_out(rt, alloc, row)?;
    }
    Ok(())
}

// Insertions at one place, one beside a removed character, tags by two sites.
#[test]
fn each_order(rt: HostRuntime) -> Result<(), Fail> {
    for rows in [AT_ONE_PLACE, BESIDE_A_TOMBSTONE, TAGS, LATER_TAGS] {
        come_out(&rt, rt.alloc(), rows)?;
    }
    Ok(())
}

// Operations that are offered in turn, and what is answered.
fn answers(
    rt: &impl Abort,
    alloc: Global,
    limit: usize,
    rows: &[(Made, Said)],
) -> Result<(), Fail> {
    let mut peer = Peer::new(alloc, limit)?;
    for (made, wanted) in rows {
        same(rt, peer.offer(*made), *wanted);
    }
    Ok(())
}

const CHANGES: &[(Made, Said)] = &[
    (AB, Said::New(0, 2, 0)),
    (
        (3, 2, 0, Does::InsertsTagged((2, 1), &['Y', 'Z'])),
        Said::New(2, 2, 1),
    ),
    ((3, 1, 2, Does::Deletes((1, 1, 2))), Said::New(0, 0, 0)),
    ((4, 3, 0, Does::Inserts((3, 2), &['c'])), Said::New(1, 1, 0)),
    ((5, 3, 4, Does::Tags(true, (0, 1, 1))), Said::New(0, 0, 1)),
    ((6, 3, 5, Does::Tags(false, (0, 1, 1))), Said::New(0, 0, 0)),
];

const REFUSALS: &[(Made, Said)] = &[
    (Y, Said::Held),
    (Y, Said::Repeat),
    (AB, Said::New(0, 2, 0)),
    (AB, Said::Repeat),
    (Y, Said::Refused(Fault::TextFull)),
    (
        (1, 1, 0, Does::Inserts((0, 0), &['b'])),
        Said::Refused(Fault::Conflict),
    ),
    (
        (3, 1, 2, Does::Inserts((3, 2), &['c'])),
        Said::Refused(Fault::BadStamp),
    ),
    ((9, 1, 5, Does::Inserts((0, 0), &['b'])), Said::Held),
    (
        (9, 1, 2, Does::Inserts((4, 1), &['b'])),
        Said::Refused(Fault::BadTarget),
    ),
    (
        (9, 2, 0, Does::Inserts((0, 1), &['b'])),
        Said::Refused(Fault::BadTarget),
    ),
    (
        (9, 2, 0, Does::Deletes((0, 1, 1))),
        Said::Refused(Fault::BadTarget),
    ),
    (
        (9, 2, 0, Does::Inserts((1, 0), &['b'])),
        Said::Refused(Fault::BadTarget),
    ),
];

const MOST: u64 = (1 << 48) - 1;

// The stamps of a span are looked up as far as its site's known end.
const LONG_SPANS: &[(Made, Said)] = &[
    (AB, Said::New(0, 2, 0)),
    ((MOST, 2, 0, Does::Deletes((1, 1, MOST - 1))), Said::Held),
    ((MOST, 2, 0, Does::Deletes((7, 1, MOST - 1))), Said::Held),
    (
        (MOST, 1, 2, Does::Deletes((1, 1, MOST - 1))),
        Said::Refused(Fault::BadTarget),
    ),
];

/// Operations that are offered in turn, and the runs of places that each takes away.
type Removal = (Made, &'static [PlaceRun]);

// After `abcXYdef`: `b` alone; then `a` and `c` beside it with `Y` and `d`, while `b` is gone already;
// then `e`, by a site that doesn't know that `c` and `d` are gone.
const REMOVALS: &[Removal] = &[
    (
        (
            1,
            1,
            0,
            Does::Inserts((0, 0), &['a', 'b', 'c', 'd', 'e', 'f']),
        ),
        &[],
    ),
    ((7, 2, 0, Does::Inserts((3, 1), &['X', 'Y'])), &[]),
    (
        (9, 3, 0, Does::Deletes((1, 2, 2))),
        &[PlaceRun { from: 1, to: 2 }],
    ),
    (
        (10, 3, 9, Does::DeletesBoth((1, 1, 4), (2, 8, 8))),
        &[PlaceRun { from: 3, to: 5 }, PlaceRun { from: 0, to: 2 }],
    ),
    ((9, 2, 8, Does::Tags(true, (1, 3, 5))), &[]),
    (
        (10, 2, 9, Does::Deletes((1, 3, 5))),
        &[PlaceRun { from: 1, to: 2 }],
    ),
    ((11, 2, 10, Does::Deletes((1, 3, 5))), &[]),
];

#[test]
fn removals(rt: HostRuntime) -> Result<(), Fail> {
    let mut peer = Peer::new(rt.alloc(), 100)?;
    for (made, runs) in REMOVALS {
        same(&rt, peer.takes_away(*made)?.as_slice(), *runs);
    }
    same(&rt, peer.reading()?.as_str(), "Xf\n");
    Ok(())
}

#[test]
fn changes_and_refusals(rt: HostRuntime) -> Result<(), Fail> {
    answers(&rt, rt.alloc(), 100, CHANGES)?;
    answers(&rt, rt.alloc(), 3, REFUSALS)?;
    answers(&rt, rt.alloc(), 100, LONG_SPANS)
}

// Places and numbers of the characters that changes insert.
fn insertions(alloc: Global, changes: &[Change]) -> Result<Vec<(usize, usize)>, Fail> {
    let mut places = Vec::new(alloc);
    for change in changes {
        places.push((change.place, change.inserted))?;
    }
    Ok(places)
}

// What held ones change is told behind what the offered one changes, the least stamp first, each in the text that those
// before it left.
#[test]
fn held_ones_are_told(rt: HostRuntime) -> Result<(), Fail> {
    let mut peer = Peer::new(rt.alloc(), 100)?;
    same(&rt, peer.offer(Y), Said::Held);
    same(&rt, peer.offer(XX), Said::Held);
    same(&rt, peer.replica.held(), 2);
    let changes = peer.told_of(AB)?;
    let places = insertions(rt.alloc(), &changes)?;
    same(&rt, places.as_slice(), &[(0, 2), (1, 2), (1, 1)]);
    same(&rt, peer.replica.held(), 0);
    same(&rt, peer.reading()?.as_str(), "aYXXb\n");
    Ok(())
}

const Y_TOO: Made = (3, 2, 0, Does::Inserts((1, 1), &['Z']));

// Of two that clash the first that came is taken, and the other one is held no more.
const CLASHING: &[(Made, Said)] = &[
    (Y, Said::Held),
    (Y_TOO, Said::Held),
    (AB, Said::New(0, 2, 0)),
    (Y, Said::Repeat),
    (Y_TOO, Said::Refused(Fault::Conflict)),
];

#[test]
fn one_of_two_that_clash(rt: HostRuntime) -> Result<(), Fail> {
    let mut peer = Peer::new(rt.alloc(), 100)?;
    let mut held = Vec::new(rt.alloc());
    for (made, wanted) in CLASHING {
        same(&rt, peer.offer(*made), *wanted);
        held.push(peer.replica.held())?;
    }
    same(&rt, held.as_slice(), &[1, 2, 0, 0, 0]);
    same(&rt, peer.cells()?.as_str(), "1.1a 3.2Y 2.1b 1.0\n ");
    Ok(())
}
