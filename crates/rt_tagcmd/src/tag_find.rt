// Where a tag is.
ghost use Rattle.std.specs.Prelude.{◌≡◌, ◌≤◌, ◌⊎◌, ◌∷◌, [], All, None, Some, Ok, IfOk, IfErr, IsOkUnless, OnOk, false, map, option_copied, option_to_list};
ghost use Rattle.std.specs.Option.{option_map_or};
ghost use Rattle.rt_stamps.specs.Outcomes.{Refuses, first_of};
ghost use Rattle.rt_tagcmd.specs.TagCommands.{range_ends, tag_nextrange, tag_prevrange, tag_ranges};
ghost use Rattle.rt_tags.specs.Tags.{is_listed};
ghost use Rattle.rt_text.specs.Index.{index_check, place_at_index};
ghost use Rattle.rt_text.specs.Widgets.{length_shown, widget_of};

use crate::tag_range::{next_range, previous_range, ranges};
use rt_stamps::{Fault, Position, check_name};
use rt_store::TextStore;
use rt_text::{Range, ViewRef};
use std::alloc::Global;

// Where ranges begin and end, in turn.
fn range_ends<S: TextStore>(
    alloc: Global,
    view: &ViewRef<'_, S>,
    ranges: &[Range],
) -> Result<Vec<Position>, Fault>
    requires { All (λ range. (range.from ≤ length_shown view.now) × (range.to ≤ length_shown view.now)) ranges.now }
    ensures ok { IfOk result (λ positions. positions.items ≡ range_ends view.now ranges.now) }
    ensures err { IsOkUnless result Fault.NoMemory }
{
    let mut positions = Vec::new(alloc);
    for range in ranges {
        positions.push(view.position(range.from))?;
        positions.push(view.position(range.to))?;
    }
    Ok(positions)
}

/// `tag ranges NAME` (Tk text manual): where the longest ranges of characters with a tag begin and
/// end, in turn and in the text's order; none of a tag that isn't listed. `BadName`, or want of
/// memory.
pub fn tag_ranges<S: TextStore>(
    alloc: Global,
    view: &ViewRef<'_, S>,
    name: &str,
) -> Result<Vec<Position>, Fault>
    ensures ok { IfOk result (λ positions. tag_ranges view.now name.now ≡ Ok positions.items) }
    ensures unlisted { is_listed name.now view.now.doc.tags ≡ false → IfOk result (λ positions. positions.items ≡ []) }
    ensures err { IfErr result (Refuses (tag_ranges view.now name.now)) }
{
    check_name(name)?;
    let _tags = view.doc().tags();
    let ranges = ranges(alloc, view, name)?;
    range_ends(alloc, view, &ranges)
}

// The places of an index and perhaps another one, or of an index and a place where that isn't given.
fn search_places<S: TextStore>(
    view: &ViewRef<'_, S>,
    index: &str,
    other: Option<&str>,
    without: usize,
) -> Result<(usize, usize), Fault>
    ensures ok { IfOk result (λ places. places ≡ (
      place_at_index (widget_of view.now) index.now,
      option_map_or
          (place_at_index (widget_of view.now)) (option_copied other.entry) without,
    )) }
    ensures checked { OnOk result (first_of (map (index_check (widget_of view.now)) (index.now ∷ option_to_list (option_copied other.entry)))
        ≡ None) }
    ensures err { IfErr result (λ fault. (fault ≡ Fault.NoMemory)
        ⊎ (first_of (map (index_check (widget_of view.now)) (index.now ∷ option_to_list (option_copied other.entry))) ≡ Some fault)) }
{
    let place = view.place(index)?;
    match other {
        Some(other) => Ok((place, view.place(other)?)),
        None => Ok((place, without)),
    }
}

// Where a range begins and ends, if there is one.
fn found_ends<S: TextStore>(
    alloc: Global,
    view: &ViewRef<'_, S>,
    range: Option<Range>,
) -> Result<Vec<Position>, Fault>
    requires { All (λ range. (range.from ≤ length_shown view.now) × (range.to ≤ length_shown view.now)) (option_to_list range) }
    ensures ok { IfOk result (λ positions. positions.items ≡ range_ends view.now (option_to_list range)) }
    ensures err { IsOkUnless result Fault.NoMemory }
{
    match range {
        Some(range) => range_ends(alloc, view, &[range]),
        None => Ok(Vec::new(alloc)),
    }
}

/// `tag nextrange NAME INDEX ?INDEX?` (Tk text manual): where the first range of a tag begins and
/// ends that begins at the first index or later, and before the second; nothing where there is none.
/// A range that only reaches over the first index isn't found. Without a second index it is the
/// text's end. `BadName`, `BadIndex`, `NoneTagged`, or want of memory.
pub fn tag_nextrange<S: TextStore>(
    alloc: Global,
    view: &ViewRef<'_, S>,
    name: &str,
    from: &str,
    to: Option<&str>,
) -> Result<Vec<Position>, Fault>
    ensures ok { IfOk result (λ positions. tag_nextrange view.now name.now from.now (option_copied to.entry) ≡ Ok positions.items) }
    ensures err { IfErr result (Refuses (tag_nextrange view.now name.now from.now (option_copied to.entry))) }
{
    check_name(name)?;
    let (from, to) = search_places(view, from, to, view.visible())?;
    found_ends(alloc, view, next_range(view, name, from, to))
}

/// `tag prevrange NAME INDEX ?INDEX?` (Tk text manual): where the last range of a tag begins and
/// ends that begins before the first index, and at the second or later; nothing where there is none.
/// It may reach over the first index, and one that only reaches over the second isn't found. Without
/// a second index it is the text's beginning. `BadName`, `BadIndex`, `NoneTagged`, or want of memory.
pub fn tag_prevrange<S: TextStore>(
    alloc: Global,
    view: &ViewRef<'_, S>,
    name: &str,
    to: &str,
    from: Option<&str>,
) -> Result<Vec<Position>, Fault>
    ensures ok { IfOk result (λ positions. tag_prevrange view.now name.now to.now (option_copied from.entry) ≡ Ok positions.items) }
    ensures err { IfErr result (Refuses (tag_prevrange view.now name.now to.now (option_copied from.entry))) }
{
    check_name(name)?;
    let (to, from) = search_places(view, to, from, 0)?;
    found_ends(alloc, view, previous_range(view, name, to, from))
}
