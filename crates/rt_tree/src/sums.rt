// Sums of counts.
ghost use Rattle.std.specs.Prelude.{◌≡◌, ◌+◌, ◌<◌, ◌^◌};
ghost use Rattle.rt_tree.specs.Shape.{entry_counts};
ghost use Rattle.rt_tree.specs.Sums.{AreFew, amount, counts_of_run, no_counts, plus};

use crate::node::{CountedBy, Counts, Entry, Run};
use crate::node_entry::NodeEntry;

// What no run counts.
pub(crate) fn no_counts() -> Counts
    ensures { result ≡ no_counts }
{
    Counts {
        cells: 0,
        visible: 0,
        newlines: 0,
    }
}

// The sum of counts.
pub(crate) fn plus(a: Counts, b: Counts) -> Counts
    requires { AreFew (plus a b) }
    ensures { result ≡ plus a b }
{
    Counts {
        cells: a.cells + b.cells,
        visible: a.visible + b.visible,
        newlines: a.newlines + b.newlines,
    }
}

// One of the counts.
pub(crate) fn amount(by: CountedBy, counts: Counts) -> usize
    ensures { result ≡ amount by counts }
{
    let amount = match by {
        CountedBy::Cells => counts.cells,
        CountedBy::Visible => counts.visible,
        CountedBy::Newlines => counts.newlines,
    };
    amount as usize
}

// What a run counts.
pub(crate) fn counts_of_run(run: Run) -> Counts
    ensures { result ≡ counts_of_run run }
{
    Counts {
        cells: run.len,
        visible: if run.gone { 0 } else { run.len },
        newlines: if run.gone || !run.newline { 0 } else { 1 },
    }
}

// What the runs of an entry count.
pub(crate) fn entry_counts(entry: &NodeEntry) -> Counts
    ensures { result ≡ entry_counts entry.now }
{
    match entry.get() {
        Entry::Down(_, totals) => totals.counts,
        Entry::Here(run) => counts_of_run(run),
    }
}
