// The ranges of characters that have a tag.
ghost use Rattle.std.specs.Prelude.{◌≡◌, ◌≤◌, Decides, IfOk, IsOkUnless, length};
ghost use Rattle.rt_store.specs.Tagged.{Passes};
ghost use Rattle.rt_tagcmd.specs.TagRanges.{BeginFrom, IsBegin, IsClearFrom, PassThrough, PassUpTo, first_range_from, next_range, passing_ranges, previous_range};
ghost use Rattle.rt_text.specs.Widgets.{shows_tag, cells_shown};

use rt_stamps::Fault;
use rt_store::TextStore;
use rt_text::{Range, ViewRef};
use std::alloc::Global;

// Whether a character stands at a place and has a tag.
fn has_tag<S: TextStore>(view: &ViewRef<'_, S>, name: &str, place: usize) -> bool
    ensures { Decides result (Passes (shows_tag view.now.own name.now) (cells_shown view.now) place) }
{
    view.next_tagged(name, place) == Some(place)
}

// Up to where all characters from a place on have a tag.
fn tagged_up_to<S: TextStore>(view: &ViewRef<'_, S>, name: &str, place: usize) -> usize
    requires { place ≤ length (cells_shown view.now) }
    ensures { PassUpTo (shows_tag view.now.own name.now) (cells_shown view.now) place result }
{
    let end = view.visible();
    view.next_untagged(name, place).unwrap_or(end)
}

// The end of the range that reaches over a place, or the place where none does.
fn clear_from<S: TextStore>(view: &ViewRef<'_, S>, name: &str, place: usize) -> usize
    ensures { IsClearFrom (shows_tag view.now.own name.now) (cells_shown view.now) place result }
{
    if place > 0 && has_tag(view, name, place - 1) {
        return tagged_up_to(view, name, place);
    }
    place
}

// The first range that begins at a place or later.
fn first_range<S: TextStore>(view: &ViewRef<'_, S>, name: &str, place: usize) -> Option<Range>
    ensures { result ≡ first_range_from place (passing_ranges (shows_tag view.now.own name.now) (cells_shown view.now)) }
{
    let clear = clear_from(view, name, place);
    let from = view.next_tagged(name, clear)?;
    let to = tagged_up_to(view, name, from);
    Some(Range { from, to })
}

/// The ranges of characters that have a tag, in order, by places of what the widget shows, from 0. `NoMemory` is its only fault.
pub fn ranges<S: TextStore>(
    alloc: Global,
    view: &ViewRef<'_, S>,
    name: &str,
) -> Result<Vec<Range>, Fault>
    ensures ok { IfOk result (λ ranges. ranges.items ≡ passing_ranges (shows_tag view.now.own name.now) (cells_shown view.now)) }
    ensures err { IsOkUnless result Fault.NoMemory }
{
    let mut ranges = Vec::new(alloc);
    let mut place = 0;
    while let Some(range) = first_range(view, name, place) {
        ranges.push(range)?;
        place = range.to;
    }
    Ok(ranges)
}

/// The first range of a tag that begins at one place or later, and before another.
pub(crate) fn next_range<S: TextStore>(
    view: &ViewRef<'_, S>,
    name: &str,
    from: usize,
    to: usize,
) -> Option<Range>
    ensures { result ≡ next_range from to (passing_ranges (shows_tag view.now.own name.now) (cells_shown view.now)) }
{
    let range = first_range(view, name, from)?;
    if range.from < to { Some(range) } else { None }
}

// Whether all characters from a place on have a tag, up to one that has it.
fn all_tagged<S: TextStore>(view: &ViewRef<'_, S>, name: &str, from: usize, last: usize) -> bool
    requires { Passes (shows_tag view.now.own name.now) (cells_shown view.now) last }
    ensures { Decides result (PassThrough (shows_tag view.now.own name.now) (cells_shown view.now) from last) }
{
    match view.next_untagged(name, from) {
        Some(at) => last < at,
        None => true,
    }
}

// A place that the range of another, which has the tag, doesn't begin before. It is looked for in steps that double, so
// it isn't much farther away than where the range begins.
fn begin_from<S: TextStore>(view: &ViewRef<'_, S>, name: &str, place: usize) -> usize
    requires { Passes (shows_tag view.now.own name.now) (cells_shown view.now) place }
    ensures within { result ≤ place }
    ensures begin { BeginFrom (shows_tag view.now.own name.now) (cells_shown view.now) place result }
{
    let mut low = place;
    let mut step: usize = 1;
    while low > 0 {
        low = low.saturating_sub(step);
        if !all_tagged(view, name, low, place) {
            return low + 1;
        }
        step = step.saturating_mul(2);
    }
    0
}

// Where the range begins that holds a place.
fn range_begin<S: TextStore>(view: &ViewRef<'_, S>, name: &str, place: usize) -> usize
    requires { Passes (shows_tag view.now.own name.now) (cells_shown view.now) place }
    ensures { IsBegin (shows_tag view.now.own name.now) (cells_shown view.now) place result }
{
    let mut low = begin_from(view, name, place);
    let mut high = place;
    while low < high {
        let middle = low + (high - low) / 2;
        if all_tagged(view, name, middle, place) {
            high = middle;
        } else {
            low = middle + 1;
        }
    }
    high
}

/// The last range of a tag that begins before one place, and at another or later.
pub(crate) fn previous_range<S: TextStore>(
    view: &ViewRef<'_, S>,
    name: &str,
    to: usize,
    from: usize,
) -> Option<Range>
    ensures { result ≡ previous_range to from (passing_ranges (shows_tag view.now.own name.now) (cells_shown view.now)) }
{
    let last = view.previous_tagged(name, to)?;
    let begin = range_begin(view, name, last);
    if begin < from {
        return None;
    }
    let end = tagged_up_to(view, name, last);
    Some(Range {
        from: begin,
        to: end,
    })
}
