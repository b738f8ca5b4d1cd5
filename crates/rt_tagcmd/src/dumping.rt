// What a dump answers.
ghost use Rattle.std.specs.Prelude.{◌≡◌, ◌+◌, ◌==◌, ◌≤◌, if◌then◌else◌, ◌⊎◌, All, IfErr, IsOkUnless, IfOk, None, Ok, OnOk, Some, map, option_copied, option_to_list};
ghost use Rattle.rt_tagcmd.specs.Dumping.{dumped, elements_between, others_asked, stop_of};
ghost use Rattle.rt_tagcmd.specs.Elements.{answered};
ghost use Rattle.rt_tagcmd.specs.Stretches.{within};
ghost use Rattle.rt_stamps.specs.Outcomes.{Refuses, first_of};
ghost use Rattle.rt_text.specs.Index.{index_check};
ghost use Rattle.rt_text.specs.Widgets.{length_shown, text_shown, widget_of};

use crate::borders::borders;
use crate::dumped_marks::push_marks;
use crate::element_order::sort;
use crate::placed::Placed;
use crate::stretch::DumpStretch;
use crate::texts::texts_in;
use crate::{Element, shown};
use rt_requests::Kinds;
use rt_stamps::Fault;
use rt_store::TextStore;
use rt_text::ViewRef;
use std::alloc::Global;

/// The place where a dump stops: that of its second index, and without one the next place.
fn stop_of<S: TextStore>(
    view: &ViewRef<'_, S>,
    from: usize,
    to: Option<&str>,
) -> Result<usize, Fault>
    requires { from ≤ length_shown view.now }
    ensures ok { IfOk result (λ place. place ≡ stop_of view.now from (option_copied to.entry)) }
    ensures checked { OnOk result (first_of (map (index_check (widget_of view.now)) (option_to_list (option_copied to.entry))) ≡ None) }
    ensures within { IfOk result (λ place. place ≤ length_shown view.now) }
    ensures err { IfErr result (λ fault. (fault ≡ Fault.NoMemory)
        ⊎ (first_of (map (index_check (widget_of view.now)) (option_to_list (option_copied to.entry))) ≡ Some fault)) }
{
    match to {
        Some(index) => view.place(index),
        None => Ok(view.visible().min(from.saturating_add(1))),
    }
}

/// The stretch from one place up to before another, with the text's end where the other is that.
fn stretch_of<S: TextStore>(view: &ViewRef<'_, S>, from: usize, to: usize) -> DumpStretch
    requires { to ≤ length_shown view.now }
    ensures { result ≡ record { from = from; behind = if to == length_shown view.now then to + 1 else to } }
{
    // For its clauses alone.
    let _ = view.store();
    let behind = if to == view.visible() { to + 1 } else { to };
    DumpStretch { from, behind }
}

/// The elements of a stretch that are asked for and aren't text, of one kind after the other.
fn others_in<S: TextStore>(
    alloc: Global,
    view: &ViewRef<'_, S>,
    kinds: Kinds,
    stretch: DumpStretch,
) -> Result<Vec<Placed>, Fault>
    ensures ok { IfOk result (λ others. others.items ≡ within stretch (others_asked view.now kinds)) }
    ensures err { IsOkUnless result Fault.NoMemory }
{
    let mut others = if kinds.tags {
        borders(alloc, view, stretch)?
    } else {
        Vec::new(alloc)
    };
    if kinds.marks {
        push_marks(alloc, view, stretch, &mut others)?;
    }
    Ok(others)
}

/// Elements at the lines and characters of their places. `NoMemory` is its only fault.
fn elements_at<S: TextStore>(
    alloc: Global,
    view: &ViewRef<'_, S>,
    all: Vec<Placed>,
) -> Result<Vec<Element>, Fault>
    requires { All (λ e. e.place ≤ length_shown view.now) all.items }
    ensures ok { IfOk result (λ elements. elements.items ≡ map (answered (text_shown view.now)) all.items) }
    ensures err { IsOkUnless result Fault.NoMemory }
{
    let mut elements = Vec::new(alloc);
    for element in all {
        let position = view.position(element.place());
        elements.push(element.at(position))?;
    }
    Ok(elements)
}

/// The elements of a stretch that are asked for, by their places: in order from one place up to before another, and at
/// the text's end too where the other is that.
fn gathered<S: TextStore>(
    alloc: Global,
    view: &ViewRef<'_, S>,
    kinds: Kinds,
    from: usize,
    to: usize,
) -> Result<Vec<Placed>, Fault>
    requires to { to ≤ length_shown view.now }
    ensures ok { IfOk result (λ all. all.items ≡ elements_between view.now kinds from to) }
    ensures err { IsOkUnless result Fault.NoMemory }
{
    let mut all = others_in(alloc, view, kinds, stretch_of(view, from, to))?;
    sort(&mut all)?;
    if kinds.text {
        let mut texts = texts_in(alloc, &shown(view), &all, from, to)?;
        all.append(&mut texts)?;
        sort(&mut all)?;
    }
    Ok(all)
}

/// `dump ?SWITCH ...? INDEX ?INDEX?` (Tk text manual, "dump"): what a widget shows from the first index up to before the
/// second, of the kinds that are asked for: where ranges of tags end and begin in the widget, its marks, and its text.
/// Without a second index that is one place; where it stops at the text's end, what stands there is shown too. At one
/// place come `tagoff`, `tagon` (each of the tag of the lowest priority first), `mark` (in the order of marks), `text`.
/// A text value ends before the next of the other elements, just after a newline, or where the dump stops. `BadIndex`,
/// `NoneTagged`, or want of memory.
///
/// Of each listed tag it looks up the ranges of the stretch alone. It reads the characters of the stretch once, in one
/// piece, and asks the store for the line of each element; it sorts what stands there. At worst, where each of n
/// characters has a mark or a range of its own, that is the sort of a few times n elements. Selected characters aren't
/// counted by the store: to find the next of them, or the next that isn't selected, a dump goes from place to place.
pub fn dump<S: TextStore>(
    alloc: Global,
    view: &ViewRef<'_, S>,
    kinds: Kinds,
    from: &str,
    to: Option<&str>,
) -> Result<Vec<Element>, Fault>
    ensures ok { IfOk result (λ elements. dumped view.now kinds from.now (option_copied to.entry) ≡ Ok elements.items) }
    ensures err { IfErr result (Refuses (dumped view.now kinds from.now (option_copied to.entry))) }
{
    let from = view.place(from)?;
    let to = stop_of(view, from, to)?;
    let all = gathered(alloc, view, kinds, from, to)?;
    elements_at(alloc, view, all)
}
