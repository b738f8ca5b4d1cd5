// Stamps of characters that came back under other stamps.
ghost use Rattle.std.specs.Prelude.{◌≡◌, ℕ, ◌+◌, ◌-◌, ◌^◌, ◌<◌, ◌≤◌, ◌||◌, false, true, OnOk, OnErr, IsOkUnless};
ghost use Rattle.rt_stamps.specs.declared.stamp.Stamp.{Stamp};
ghost use Rattle.rt_undo.specs.Renames.{is_in_span, is_moved, now_of, renamed, target};

use rt_spans::SpanMap;
use rt_stamps::limits::GREATEST_COUNT;
use rt_stamps::{Fault, Span, Stamp};
use std::alloc::Global;
use std::marker::Model;

/// Where characters came back: the one of count `first` under the stamp `to`, those of the next counts
/// under the next ones.
#[derive(Clone, Copy)]
pub struct Move {
    first: u64,
    to: Stamp,
}

impl Move {
    // Where it leads a stamp.
    fn target(self, stamp: Stamp) -> Stamp
        requires begun { self.first ≤ stamp.count }
        requires bounded { (target self stamp).count ≤ GREATEST_COUNT }
        ensures { result ≡ target self stamp }
    {
        Stamp {
            count: self.to.count + (stamp.count - self.first),
            site: self.to.site,
        }
    }
}

/// Stamps of characters that came back under other stamps, perhaps several times. A look-up costs
/// about a logarithm of the number of spans for each time that the character came back.
#[derive(Drop)]
pub struct Renames {
    map: SpanMap<Move>,
}

impl Model for Renames {
    ghost use Rattle.rt_undo.specs.declared.renames.Move.{Move};
    ghost use Rattle.rt_spans.specs.Shown.{SpanMapValue};

    ghost Value = { SpanMapValue Move };

    ghost use Rattle.rt_undo.specs.Renames.{AllLeadOn};

    ghost view = { λ r. r.map };

    ghost invariant = { λ r. AllLeadOn r.map };
}

impl Renames {
    /// No character came back. It takes no memory.
    pub fn new(alloc: Global) -> Renames
        ensures now { (stamp : Stamp) → now_of result stamp ≡ stamp }
        ensures moved { (stamp : Stamp) → is_moved result stamp ≡ false }
        ensures room { result.room ≡ 0 }
    {
        Renames {
            map: SpanMap::new(alloc),
        }
    }

    /// Makes room for `n` calls of `rename`, below 2^32, which then take no memory. `NoMemory` changes
    /// nothing.
    pub fn reserve(&mut self, n: usize) -> Result<(), Fault>
        requires { n < 2 ^ 32 }
        ensures now { (stamp : Stamp) → now_of self.new stamp ≡ now_of self.old stamp }
        ensures moved { (stamp : Stamp) → is_moved self.new stamp ≡ is_moved self.old stamp }
        ensures ok { OnOk result (n ≤ self.new.room) }
        ensures kept { OnOk result (self.old.room ≤ self.new.room) }
        ensures err { OnErr result (self.new ≡ self.old) }
        ensures fault { IsOkUnless result Fault.NoMemory }
    {
        self.map.reserve(n)
    }

    /// The stamp that a character has now: the last one under which it came back, its own if it never
    /// did.
    pub fn now(&self, stamp: Stamp) -> Stamp
        ensures now { result ≡ now_of self.now stamp }
        ensures newest { is_moved self.now result ≡ false }
    {
        let mut newest = stamp;
        while let Some(step) = self.map.get(newest) {
            newest = step.target(newest);
        }
        newest
    }

    // The stamp that a character has now leads no further.
    pub(crate) fn ends(&self)
        ensures { (stamp : Stamp) → is_moved self.now (now_of self.now stamp) ≡ false }
    {
        let _ = &self.map;
    }

    /// The characters of a span came back under the stamp `newer` and the next counts. Neither they nor
    /// those stamps came back before. It takes no memory, and one of the room.
    pub fn rename(&mut self, former: Span, newer: Stamp)
        requires room { 0 < self.old.room }
        requires order { former.first ≤ former.last }
        requires later { former.last < newer.count }
        requires bound { newer.count + (former.last - former.first) ≤ GREATEST_COUNT }
        requires first_time { (s : Stamp) → is_in_span former s ≡ true → is_moved self.old s ≡ false }
        requires fresh { (s : Stamp) → is_in_span former s ≡ true → is_moved self.old (renamed former newer s) ≡ false }
        ensures now { (s : Stamp) → now_of self.new s ≡ renamed former newer (now_of self.old s) }
        ensures moved { (s : Stamp) → is_moved self.new s ≡ (is_in_span former s || is_moved self.old s) }
        ensures room { self.new.room + 1 ≡ self.old.room }
    {
        let step = Move {
            first: former.first,
            to: newer,
        };
        self.map.set(former, step);
    }
}
