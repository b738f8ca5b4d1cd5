// The spans of visible cells in ranges, looked up run by run.
ghost use Rattle.std.specs.Prelude.{◌≡◌, ◌+◌, ◌-◌, ◌<◌, ◌≤◌, ◌||◌, All, IfOk, IsOkUnless, IsPermutation, OnOk, drop, length, not, take, true};
ghost use Rattle.std.specs.List.{list_all};
ghost use Rattle.rt_stamps.specs.declared.stamp.Stamp.{Stamp};
ghost use Rattle.rt_store.specs.Cells.{AreDistinct, is_in_span, stamps_of, visible_of};
ghost use Rattle.rt_store.specs.Spans.{each_next, is_among, is_clear_of, is_in_spans, is_span};
ghost use Rattle.rt_plans.specs.NamedSpans.{begins_by, spans_in};
ghost use Rattle.rt_plans.specs.Removals.{RangesFollow, is_covered, stamps_at};

use crate::Range;
use rt_stamps::{Fault, Span};
use rt_store::TextStore;
use std::alloc::Global;

// The span of visible cells from a place on, up to another place or less far.
fn span_at<S: TextStore>(store: &S, range: Range) -> Span
    requires distinct { AreDistinct (S.list store.now) }
    requires order { range.from < range.to }
    requires within { range.to ≤ length (visible_of (S.list store.now)) }
    ensures forward { is_span result ≡ true }
    ensures within { range.from + (result.last - result.first) < range.to }
    ensures named { (stamp : Stamp) → is_in_span result stamp
        ≡ is_among (stamps_of (take (result.last - result.first + 1) (drop range.from (visible_of (S.list store.now))))) stamp }
{
    let first = store.cell_at(range.from).stamp;
    let more = (range.to - range.from - 1) as u64;
    let last = match store.run_from(first, first.count.saturating_add(more)) {
        Some(run) => run.last,
        None => first.count,
    };
    Span {
        site: first.site,
        first: first.count,
        last,
    }
}

// Adds the spans of the visible cells in a range.
fn push_spans<S: TextStore>(store: &S, range: Range, spans: &mut Vec<Span>) -> Result<(), Fault>
    requires distinct { AreDistinct (S.list store.now) }
    requires order { range.from ≤ range.to }
    requires within { range.to ≤ length (visible_of (S.list store.now)) }
    requires forward { list_all is_span spans.old.items ≡ true }
    ensures forward { OnOk result (list_all is_span spans.new.items ≡ true) }
    ensures named { OnOk result ((stamp : Stamp) → is_in_spans spans.new.items stamp ≡ (is_in_spans spans.old.items stamp
        || is_among (stamps_of (take (range.to - range.from) (drop range.from (visible_of (S.list store.now))))) stamp)) }
    ensures err { IsOkUnless result Fault.NoMemory }
{
    let mut place = range.from;
    while place < range.to {
        let rest = Range {
            from: place,
            to: range.to,
        };
        let span = span_at(store, rest);
        spans.push(span)?;
        place += (span.last - span.first) as usize + 1;
    }
    Ok(())
}

// The spans of the visible cells in ranges, in the text's order.
fn spans_there<S: TextStore>(alloc: Global, store: &S, ranges: &[Range]) -> Result<Vec<Span>, Fault>
    requires distinct { AreDistinct (S.list store.now) }
    requires order { RangesFollow 0 ranges.now }
    requires within { All (λ range. range.to ≤ length (visible_of (S.list store.now))) ranges.now }
    ensures forward { IfOk result (λ spans. list_all is_span spans.items ≡ true) }
    ensures named { IfOk result (λ spans. (stamp : Stamp)
        → is_in_spans spans.items stamp ≡ is_among (stamps_at (is_covered ranges.now) 0 (S.list store.now)) stamp) }
    ensures err { IsOkUnless result Fault.NoMemory }
{
    let mut spans = Vec::new(alloc);
    for range in ranges {
        push_spans(store, *range, &mut spans)?;
    }
    Ok(spans)
}

// Spans in the order of their sites and first counts.
fn sort(spans: &mut Vec<Span>)
    ensures same { IsPermutation spans.old.items spans.new.items }
    ensures sorted { each_next begins_by spans.new.items ≡ true }
{
    spans.sort_unstable_by_key(|span| (span.site, span.first));
}

// Whether a span that begins no earlier than another one goes on with it.
fn goes_on(span: Span, next: Span) -> bool
    requires { begins_by span next ≡ true }
    ensures { result ≡ not (is_clear_of span next) }
{
    next.site == span.site && (next.first <= span.last || next.first - span.last == 1)
}

// Sorted spans, those that overlap or follow one another as one.
fn joined(alloc: Global, spans: &[Span]) -> Result<Vec<Span>, Fault>
    requires sorted { each_next begins_by spans.now ≡ true }
    requires forward { list_all is_span spans.now ≡ true }
    ensures same { IfOk result (λ joined. (stamp : Stamp) → is_in_spans joined.items stamp ≡ is_in_spans spans.now stamp) }
    ensures forward { IfOk result (λ joined. list_all is_span joined.items ≡ true) }
    ensures clear { IfOk result (λ joined. each_next is_clear_of joined.items ≡ true) }
    ensures err { IsOkUnless result Fault.NoMemory }
{
    let mut joined = Vec::new(alloc);
    let Some((first, others)) = spans.split_first() else {
        return Ok(joined);
    };
    let mut span = *first;
    for next in others {
        if goes_on(span, *next) {
            span.last = span.last.max(next.last);
        } else {
            joined.push(span)?;
            span = *next;
        }
    }
    joined.push(span)?;
    Ok(joined)
}

/// The spans of the visible cells in ranges: the longest runs of consecutive counts of one site, by site
/// and first count. Takes time and memory for the runs. Want of memory.
pub(crate) fn spans_in<S: TextStore>(
    alloc: Global,
    store: &S,
    ranges: &[Range],
) -> Result<Vec<Span>, Fault>
    requires distinct { AreDistinct (S.list store.now) }
    requires order { RangesFollow 0 ranges.now }
    requires within { All (λ range. range.to ≤ length (visible_of (S.list store.now))) ranges.now }
    ensures ok { IfOk result (λ spans. spans.items ≡ spans_in (stamps_at (is_covered ranges.now) 0 (S.list store.now))) }
    ensures err { IsOkUnless result Fault.NoMemory }
{
    let mut spans = spans_there(alloc, store, ranges)?;
    sort(&mut spans);
    joined(alloc, &spans)
}
