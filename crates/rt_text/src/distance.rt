// Distances between two places.
ghost use Rattle.std.specs.Prelude.{◌≡◌, ◌+◌, ◌≤◌, pos, ◌-ℤ◌, IfOk, IsOkUnless, map, length};
ghost use Rattle.rt_stamps.specs.declared.limits.TheConstants.{MOST_CELLS};
ghost use Rattle.rt_store.specs.Cells.{text_of};
ghost use Rattle.rt_text.specs.Distances.{or_indices, distance_of};

use rt_index::Measure;
use rt_stamps::Fault;
use rt_store::TextStore;
use std::alloc::Global;

// How far a place is from another.
fn difference(from: usize, to: usize) -> i64
    requires { (from ≤ MOST_CELLS + 1) × (to ≤ MOST_CELLS + 1) }
    ensures { result ≡ pos to -ℤ pos from }
{
    to as i64 - from as i64
}

// The distance from a place to another.
fn distance_of<S: TextStore>(store: &S, from: usize, to: usize, measure: Measure) -> i64
    requires cells { length (S.list store.now) ≤ MOST_CELLS }
    requires places { (from ≤ length (text_of (S.list store.now))) × (to ≤ length (text_of (S.list store.now))) }
    ensures { result ≡ distance_of (text_of (S.list store.now)) from to measure }
{
    match measure {
        Measure::Chars | Measure::Indices => difference(from, to),
        Measure::Lines => difference(store.line_of(from), store.line_of(to)),
    }
}

// The distances from a place to another, one for each measure.
fn distances_by<S: TextStore>(
    alloc: Global,
    store: &S,
    from: usize,
    to: usize,
    measures: &[Measure],
) -> Result<Vec<i64>, Fault>
    requires cells { length (S.list store.now) ≤ MOST_CELLS }
    requires places { (from ≤ length (text_of (S.list store.now))) × (to ≤ length (text_of (S.list store.now))) }
    ensures ok { IfOk result (λ distances. distances.items ≡ map (distance_of (text_of (S.list store.now)) from to) measures.now) }
    ensures err { IsOkUnless result Fault.NoMemory }
{
    let mut distances = Vec::new(alloc);
    for measure in measures {
        distances.push(distance_of(store, from, to, *measure))?;
    }
    Ok(distances)
}

/// The distances from a place to another, in indices where no measure is given.
pub(crate) fn distances_of<S: TextStore>(
    alloc: Global,
    store: &S,
    from: usize,
    to: usize,
    measures: &[Measure],
) -> Result<Vec<i64>, Fault>
    requires cells { length (S.list store.now) ≤ MOST_CELLS }
    requires places { (from ≤ length (text_of (S.list store.now))) × (to ≤ length (text_of (S.list store.now))) }
    ensures ok { IfOk result (λ distances. distances.items ≡ map (distance_of (text_of (S.list store.now)) from to) (or_indices measures.now)) }
    ensures err { IsOkUnless result Fault.NoMemory }
{
    if measures.is_empty() {
        distances_by(alloc, store, from, to, &[Measure::Indices])
    } else {
        distances_by(alloc, store, from, to, measures)
    }
}
