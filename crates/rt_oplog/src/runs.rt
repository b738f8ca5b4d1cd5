// Runs of places, one after another.
ghost use Rattle.std.specs.Prelude.{◌≡◌, ◌+◌, ◌-◌, ◌<◌, ◌≤◌, [], ◌∷◌, ◌++◌, length, take, slice_get, Some, IfSome, slice_index_or, vec_len, vec_capacity};
ghost use Rattle.std.specs.List.{insert, list_all};
ghost use Rattle.rt_oplog.specs.declared.run.Run.{Run};
ghost use Rattle.rt_oplog.specs.declared.runs.TheConstants.{HALF, MOST};
ghost use Rattle.rt_oplog.specs.Logs.{IsFalling};
ghost use Rattle.rt_oplog.specs.Kept.{is_earlier, newest_first, leading};
ghost use Rattle.rt_oplog.specs.Places.{end_place};
ghost use Rattle.rt_oplog.specs.Runs.{places_in, places_of, places_to};
ghost use Rattle.rt_oplog.specs.Spares.{AreSpareRuns};

use crate::run::Run;
use rt_rows::{RowPlace, Rows};
use rt_stamps::Stamp;

/// How many runs a block has at most.
pub(crate) const MOST: usize = 512;

/// How many runs a block has at least, but for the last one.
pub(crate) const HALF: usize = 255;

/// A run, and how many of its places stand before; behind all runs none.
#[derive(Clone, Copy)]
pub(crate) struct Spot {
    pub run: usize,
    pub within: usize,
}

/// How many places there are.
pub(crate) fn count(runs: &[Run]) -> usize
    requires { length runs.now ≤ MOST }
    ensures { result ≡ length (places_in runs.now) }
{
    let mut many = 0;
    for run in runs {
        many += run.len();
    }
    many
}

/// Where the place at a number stands, of so many. It goes from the last run to the first, as the newest is asked for most.
fn spot_of(runs: &[Run], many: usize, number: usize) -> Spot
    requires many { many ≡ length (places_in runs.now) }
    requires within { number ≤ many }
    ensures run { result.run ≤ length runs.now }
    ensures number { places_to runs.now result.run + result.within ≡ number }
    ensures inside { number < many → (result.run < length runs.now) × ((d : Run) → result.within < length (places_of (slice_index_or runs.now result.run d))) }
    ensures end { many ≤ number → result.within ≡ 0 }
{
    let mut before = many;
    let mut run = runs.len();
    while before > number {
        run -= 1;
        before -= runs[run].len();
    }
    Spot {
        run,
        within: number - before,
    }
}

/// The place that stands at a number, of so many.
pub(crate) fn place_at(runs: &[Run], many: usize, number: usize) -> RowPlace
    requires many { many ≡ length (places_in runs.now) }
    requires within { number < many }
    ensures { slice_get (places_in runs.now) number ≡ Some result }
{
    let spot = spot_of(runs, many, number);
    runs[spot.run].place(spot.within)
}

/// Whether the operation of a place is before a stamp.
fn is_earlier(ops: &Rows, place: RowPlace, stamp: Stamp) -> bool
    ensures { result ≡ is_earlier ops.now.rows stamp place }
{
    ops.stamp_at(place) < stamp
}

/// Whether the operation of a run's last place is before a stamp.
pub(crate) fn ends_before(ops: &Rows, run: Run, stamp: Stamp) -> bool
    ensures { result ≡ is_earlier ops.now.rows stamp (end_place (places_of run)) }
{
    is_earlier(ops, run.place(run.len() - 1), stamp)
}

/// How many runs stand in front, all of whose operations are before a stamp.
fn runs_before(ops: &Rows, runs: &[Run], stamp: Stamp) -> usize
    requires { IsFalling (newest_first ops.now.rows (places_in runs.now)) }
    ensures runs { result ≡ leading (λ (run : Run). list_all (is_earlier ops.now.rows stamp) (places_of run)) runs.now }
    ensures within { result ≤ length runs.now }
{
    runs.partition_point(|run| ends_before(ops, *run, stamp))
}

/// How many operations of a run are before a stamp.
fn run_before(ops: &Rows, run: Run, stamp: Stamp) -> usize
    requires { IsFalling (newest_first ops.now.rows (places_of run)) }
    ensures place { result ≡ leading (is_earlier ops.now.rows stamp) (places_of run) }
    ensures within { result ≤ length (places_of run) }
{
    let mut low = 0;
    let mut high = run.len();
    while low < high {
        let middle = low + (high - low) / 2;
        if is_earlier(ops, run.place(middle), stamp) {
            low = middle + 1;
        } else {
            high = middle;
        }
    }
    low
}

/// How many operations are before a stamp.
pub(crate) fn ops_before(ops: &Rows, runs: &[Run], stamp: Stamp) -> usize
    requires falling { IsFalling (newest_first ops.now.rows (places_in runs.now)) }
    requires few { length runs.now ≤ MOST }
    ensures place { result ≡ leading (is_earlier ops.now.rows stamp) (places_in runs.now) }
    ensures within { result ≤ length (places_in runs.now) }
{
    let run = runs_before(ops, runs, stamp);
    let front = count(&runs[..run]);
    if run < runs.len() {
        front + run_before(ops, runs[run], stamp)
    } else {
        front
    }
}

/// Puts a run in, where there is room.
fn insert_run(runs: &mut Vec<Run>, at: usize, run: Run)
    requires within { at ≤ vec_len runs.old }
    requires room { vec_len runs.old < vec_capacity runs.old }
    ensures items { runs.new.items ≡ insert runs.old.items at run }
    ensures len { vec_len runs.new ≡ vec_len runs.old + 1 }
    ensures capacity { vec_capacity runs.new ≡ vec_capacity runs.old }
{
    let _ = runs.insert(at, run);
}

/// A run becomes two, the second of which begins at a spot in it.
fn cut_at(runs: &mut Vec<Run>, spot: Spot)
    requires some { 0 < spot.within }
    requires run { spot.run < vec_len runs.old }
    requires within { (d : Run) → spot.within < length (places_of (slice_index_or runs.old.items spot.run d)) }
    requires room { vec_len runs.old < vec_capacity runs.old }
    ensures same { places_in runs.new.items ≡ places_in runs.old.items }
    ensures begins { places_to runs.new.items (spot.run + 1) ≡ places_to runs.old.items spot.run + spot.within }
    ensures len { vec_len runs.new ≡ vec_len runs.old + 1 }
    ensures capacity { vec_capacity runs.new ≡ vec_capacity runs.old }
{
    let (front, back) = runs[spot.run].cut(spot.within);
    runs[spot.run] = front;
    insert_run(runs, spot.run + 1, back);
}

/// The run that begins with the place at a number, of so many. It is cut off where no run does.
fn begin_run(runs: &mut Vec<Run>, many: usize, number: usize) -> usize
    requires many { many ≡ length (places_in runs.old.items) }
    requires within { number ≤ many }
    requires room { vec_len runs.old < vec_capacity runs.old }
    ensures same { places_in runs.new.items ≡ places_in runs.old.items }
    ensures run { result ≤ vec_len runs.new }
    ensures begins { places_to runs.new.items result ≡ number }
    ensures longer { vec_len runs.old ≤ vec_len runs.new }
    ensures len { vec_len runs.new ≤ vec_len runs.old + 1 }
    ensures capacity { vec_capacity runs.new ≡ vec_capacity runs.old }
{
    let spot = spot_of(runs, many, number);
    if spot.within == 0 {
        return spot.run;
    }
    cut_at(runs, spot);
    spot.run + 1
}

/// The run in front of another and a place behind it, if that follows.
fn grown_before(runs: &[Run], run: usize, place: RowPlace) -> Option<Run>
    requires { run ≤ length runs.now }
    ensures { IfSome result (λ more. (0 < run) × ((d : Run) → places_of more ≡ places_of (slice_index_or runs.now (run - 1) d) ++ place ∷ [])) }
{
    if run == 0 {
        return None;
    }
    runs[run - 1].grown(place)
}

/// Puts a place in front of a run: where it follows the one before, that run grows.
fn put_before(runs: &mut Vec<Run>, run: usize, place: RowPlace)
    requires within { run ≤ vec_len runs.old }
    requires room { vec_len runs.old < vec_capacity runs.old }
    ensures items { places_in runs.new.items ≡ insert (places_in runs.old.items) (places_to runs.old.items run) place }
    ensures longer { vec_len runs.old ≤ vec_len runs.new }
    ensures len { vec_len runs.new ≤ vec_len runs.old + 1 }
    ensures capacity { vec_capacity runs.new ≡ vec_capacity runs.old }
{
    match grown_before(runs, run, place) {
        Some(grown) => runs[run - 1] = grown,
        None => insert_run(runs, run, Run::one(place)),
    }
}

/// Puts a place in at a number, where there is room for two runs.
#[inline(always)]
pub(crate) fn put(runs: &mut Vec<Run>, many: usize, number: usize, place: RowPlace)
    requires many { many ≡ length (places_in runs.old.items) }
    requires within { number ≤ many }
    requires room { vec_len runs.old + 2 ≤ vec_capacity runs.old }
    ensures items { places_in runs.new.items ≡ insert (places_in runs.old.items) number place }
    ensures longer { vec_len runs.old ≤ vec_len runs.new }
    ensures len { vec_len runs.new ≤ vec_len runs.old + 2 }
    ensures capacity { vec_capacity runs.new ≡ vec_capacity runs.old }
{
    let run = begin_run(runs, many, number);
    put_before(runs, run, place);
}

/// The runs in the second half of so many, in the room of a block to be.
pub(crate) fn split_off(runs: &mut Vec<Run>, spare: Vec<Run>) -> Vec<Run>
    requires spare { AreSpareRuns spare }
    requires few { vec_len runs.old ≤ MOST }
    requires full { HALF ≤ vec_len runs.old }
    ensures items { runs.old.items ≡ runs.new.items ++ result.items }
    ensures front { vec_len runs.new ≡ HALF }
    ensures both { vec_len runs.new + vec_len result ≡ vec_len runs.old }
    ensures capacity { vec_capacity runs.new ≡ vec_capacity runs.old }
    ensures wide { MOST ≤ vec_capacity result }
{
    let mut later = spare;
    let _ = later.extend_from_slice(&runs[HALF..]);
    runs.truncate(HALF);
    later
}
