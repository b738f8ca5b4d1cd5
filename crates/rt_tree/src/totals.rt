// Sums of totals.
ghost use Rattle.std.specs.Prelude.{◌≡◌, ◌≤◌, [], ◌∷◌, IfSome, true};
ghost use Rattle.rt_nodes.specs.Nodes.{IsNode, entries};
ghost use Rattle.rt_tree.specs.Changes.{HasGrown, adds_up, entry_totals, join, least_of};
ghost use Rattle.rt_tree.specs.Sums.{AreFew, lesser, plus, totals_of};

use crate::node::{Counts, Entry, Mem, Run, Totals};
use crate::node_entry::NodeEntry;
use crate::sums::{counts_of_run, no_counts, plus};
use rt_nodes::NodeId;
use rt_stamps::Stamp;
use rt_stamps::limits::GREATEST_SITE;

// What no run adds up to.
fn no_totals() -> Totals
    ensures { result ≡ totals_of [] }
{
    Totals {
        least_count: u64::MAX,
        counts: no_counts(),
        least_site: GREATEST_SITE,
    }
}

pub(crate) fn least_of(totals: Totals) -> Stamp
    ensures { result ≡ least_of totals }
{
    Stamp {
        count: totals.least_count,
        site: totals.least_site,
    }
}

fn lesser(a: Stamp, b: Stamp) -> Stamp
    ensures { result ≡ lesser a b }
{
    if b < a { b } else { a }
}

pub(crate) fn join(a: Totals, b: Totals) -> Totals
    requires { AreFew (plus a.counts b.counts) }
    ensures { result ≡ join a b }
{
    let least = lesser(least_of(a), least_of(b));
    Totals {
        least_count: least.count,
        counts: plus(a.counts, b.counts),
        least_site: least.site,
    }
}

pub(crate) fn totals_of(run: Run) -> Totals
    ensures { result ≡ totals_of (run ∷ []) }
{
    let first = Stamp {
        count: run.first,
        site: run.site,
    };
    let least = lesser(first, least_of(no_totals()));
    Totals {
        least_count: least.count,
        counts: counts_of_run(run),
        least_site: least.site,
    }
}

pub(crate) fn entry_totals(entry: &NodeEntry) -> Totals
    ensures { result ≡ entry_totals entry.now }
{
    match entry.get() {
        Entry::Down(_, totals) => totals,
        Entry::Here(run) => totals_of(run),
    }
}

// Whether totals have the same least stamp as others had, and no count that is less.
fn has_grown(before: Totals, after: Totals) -> bool
    ensures { result ≡ true → HasGrown before after }
{
    before.least_count == after.least_count
        && before.least_site == after.least_site
        && before.counts.cells <= after.counts.cells
        && before.counts.visible <= after.counts.visible
        && before.counts.newlines <= after.counts.newlines
}

// What has to be joined to totals to make others of them.
fn difference(before: Totals, after: Totals) -> Totals
    requires { HasGrown before after }
    ensures { join result before ≡ after }
{
    let counts = Counts {
        cells: after.counts.cells - before.counts.cells,
        visible: after.counts.visible - before.counts.visible,
        newlines: after.counts.newlines - before.counts.newlines,
    };
    Totals { counts, ..before }
}

// What has to be joined to totals to make others of them, where they have only grown.
pub(crate) fn growth(before: Totals, after: Totals) -> Option<Totals>
    ensures { IfSome result (λ more. join more before ≡ after) }
{
    if !has_grown(before, after) {
        return None;
    }
    Some(difference(before, after))
}

// What the entries of a node add up to.
pub(crate) fn adds_up(mem: &Mem, id: NodeId) -> Totals
    requires node { IsNode mem.now id.index }
    requires few { AreFew (adds_up (entries mem.now id.index)).counts }
    ensures { result ≡ adds_up (entries mem.now id.index) }
{
    let mut sum = no_totals();
    let mut left = mem.len(id);
    while left > 0 {
        left -= 1;
        sum = join(entry_totals(mem.entry(id, left)), sum);
    }
    sum
}
