// Blocks of places.
ghost use Rattle.std.specs.Prelude.{◌≡◌, ◌+◌, ◌<◌, ◌≤◌, [], ◌∷◌, ◌++◌, length, slice_get, Some, vec_len, vec_capacity};
ghost use Rattle.std.specs.Bool.{OnTrue, OnFalse};
ghost use Rattle.std.specs.List.{insert};
ghost use Rattle.rt_oplog.specs.declared.runs.TheConstants.{HALF, MOST};
ghost use Rattle.rt_oplog.specs.Logs.{IsFalling};
ghost use Rattle.rt_oplog.specs.Kept.{is_earlier, newest_first, leading};
ghost use Rattle.rt_oplog.specs.Places.{end_place};
ghost use Rattle.rt_oplog.specs.Runs.{places_in};
ghost use Rattle.rt_oplog.specs.Spares.{AreSpareRuns};

use crate::run::Run;
use crate::runs::{MOST, count, ends_before, ops_before, place_at, put, split_off};
use rt_rows::{RowPlace, Rows};
use rt_stamps::Stamp;

/// Places that stand next to each other, at least one, in runs, of which it has `MOST` at most.
#[derive(Drop)]
pub(crate) struct Block {
    pub runs: Vec<Run>,
    /// How many places there are.
    pub many: usize,
    ghost counted: { many ≡ length (places_in runs.items) },
    ghost some: { 0 < vec_len runs },
    ghost few: { vec_len runs ≤ MOST },
    ghost wide: { MOST ≤ vec_capacity runs },
}

impl Block {
    /// A place that stands alone so far.
    pub(crate) fn one(spare: Vec<Run>, place: RowPlace) -> Block
        requires { AreSpareRuns spare }
        ensures places { places_in result.runs.items ≡ place ∷ [] }
        ensures one { vec_len result.runs ≡ 1 }
    {
        let mut runs = spare;
        runs.push_reserved(Run::one(place));
        Block { runs, many: 1 }
    }

    /// Whether the operation of the last place is before a stamp.
    pub(crate) fn is_before(&self, ops: &Rows, stamp: Stamp) -> bool
        ensures { result ≡ is_earlier ops.now.rows stamp (end_place (places_in self.now.runs.items)) }
    {
        ends_before(ops, self.runs[self.runs.len() - 1], stamp)
    }

    /// How many operations are before a stamp.
    pub(crate) fn ops_before(&self, ops: &Rows, stamp: Stamp) -> usize
        requires { IsFalling (newest_first ops.now.rows (places_in self.now.runs.items)) }
        ensures place { result ≡ leading (is_earlier ops.now.rows stamp) (places_in self.now.runs.items) }
        ensures within { result ≤ length (places_in self.now.runs.items) }
    {
        ops_before(ops, &self.runs, stamp)
    }

    /// The place that stands at a number.
    pub(crate) fn get(&self, number: usize) -> RowPlace
        requires { number < length (places_in self.now.runs.items) }
        ensures { slice_get (places_in self.now.runs.items) number ≡ Some result }
    {
        place_at(&self.runs, self.many, number)
    }

    /// Whether there is no room for two more runs.
    pub(crate) fn is_full(&self) -> bool
        ensures full { OnTrue result (MOST < vec_len self.now.runs + 2) }
        ensures free { OnFalse result (vec_len self.now.runs + 2 ≤ MOST) }
    {
        self.runs.len() + 2 > MOST
    }

    /// Puts a place in, where there is room: mostly behind all others, where none moves.
    #[inline(always)]
    pub(crate) fn put(&mut self, at: usize, place: RowPlace)
        requires within { at ≤ length (places_in self.old.runs.items) }
        requires room { vec_len self.old.runs + 2 ≤ MOST }
        ensures items { places_in self.new.runs.items ≡ insert (places_in self.old.runs.items) at place }
        ensures longer { vec_len self.old.runs ≤ vec_len self.new.runs }
        ensures len { vec_len self.new.runs ≤ vec_len self.old.runs + 2 }
    {
        put(&mut self.runs, self.many, at, place);
        self.many += 1;
    }

    /// The runs in the second half become a block of their own.
    pub(crate) fn split_off(&mut self, spare: Vec<Run>) -> Block
        requires spare { AreSpareRuns spare }
        requires full { MOST < vec_len self.old.runs + 2 }
        ensures items { places_in self.old.runs.items ≡ places_in self.new.runs.items ++ places_in result.runs.items }
        ensures front { vec_len self.new.runs ≡ HALF }
        ensures both { vec_len self.new.runs + vec_len result.runs ≡ vec_len self.old.runs }
    {
        let runs = split_off(&mut self.runs, spare);
        let many = count(&runs);
        self.many -= many;
        Block { runs, many }
    }
}
