// Where ranges of tags end and begin.
ghost use Rattle.std.specs.Prelude.{◌≡◌, ◌++◌, ◌≤◌, ◌<◌, ℕ, IsOkUnless, IfOk, IfSome, None, OnOk};
ghost use Rattle.rt_tagcmd.specs.Dumping.{tagoffs_of, tagons_of, tagoffs, tagons};
ghost use Rattle.rt_tagcmd.specs.Stretches.{RunsTo, within};
ghost use Rattle.rt_store.specs.Tagged.{IsLeastFrom, Passes};
ghost use Rattle.rt_text.specs.Widgets.{shows_tag, cells_shown};

use crate::Key;
use crate::placed::Placed;
use crate::stretch::DumpStretch;
use rt_stamps::Fault;
use rt_store::TextStore;
use rt_text::ViewRef;
use std::alloc::Global;

/// The first place from one on whose character has a tag, where it is before another.
fn next_begin<S: TextStore>(
    view: &ViewRef<'_, S>,
    name: &str,
    place: usize,
    behind: usize,
) -> Option<usize>
    ensures some { IfSome result (λ begin. IsLeastFrom (shows_tag view.now.own name.now) (cells_shown view.now) place begin × (begin < behind)) }
    ensures none { result ≡ None → (k : ℕ) → place ≤ k → k < behind → Passes (shows_tag view.now.own name.now) (cells_shown view.now) k → ⊥ }
{
    match view.next_tagged(name, place) {
        Some(begin) if begin < behind => Some(begin),
        _ => None,
    }
}

/// Where the characters from a place on that have a tag end, or another place if they go on up to that.
fn end_within<S: TextStore>(view: &ViewRef<'_, S>, name: &str, begin: usize, behind: usize) -> usize
    requires before { begin < behind }
    requires tagged { Passes (shows_tag view.now.own name.now) (cells_shown view.now) begin }
    ensures { RunsTo (shows_tag view.now.own name.now) (cells_shown view.now) begin result behind }
{
    let end = view.visible();
    view.next_untagged(name, begin).unwrap_or(end).min(behind)
}

/// Puts behind others where the ranges of a tag end in a stretch, and where they begin. It looks for no range behind
/// the stretch, and for one that reaches into it no further back than by one character.
fn push_tag<S: TextStore>(
    alloc: Global,
    view: &ViewRef<'_, S>,
    stretch: DumpStretch,
    name: &str,
    ends: &mut Vec<Placed>,
    starts: &mut Vec<Placed>,
) -> Result<(), Fault>
    ensures ends { OnOk result (ends.new.items ≡ ends.old.items ++ within stretch (tagoffs_of view.now name.now)) }
    ensures starts { OnOk result (starts.new.items ≡ starts.old.items ++ within stretch (tagons_of view.now name.now)) }
    ensures err { IsOkUnless result Fault.NoMemory }
{
    let mut place = stretch.from.saturating_sub(1);
    while let Some(begin) = next_begin(view, name, place, stretch.behind) {
        let end = end_within(view, name, begin, stretch.behind);
        stretch.push(alloc, ends, Key::TagOff, name, end)?;
        stretch.push(alloc, starts, Key::TagOn, name, begin)?;
        place = end;
    }
    Ok(())
}

/// Where ranges of tags end in a stretch, and then where they begin, each in the order of the listed tags. Of each
/// tag it looks up its ranges there. `NoMemory` is its only fault.
pub(crate) fn borders<S: TextStore>(
    alloc: Global,
    view: &ViewRef<'_, S>,
    stretch: DumpStretch,
) -> Result<Vec<Placed>, Fault>
    ensures ok { IfOk result (λ all. all.items ≡ within stretch (tagoffs view.now) ++ within stretch (tagons view.now)) }
    ensures err { IsOkUnless result Fault.NoMemory }
{
    let names = view.doc().tags().names()?;
    let mut ends = Vec::new(alloc);
    let mut starts = Vec::new(alloc);
    for name in &names {
        push_tag(alloc, view, stretch, name, &mut ends, &mut starts)?;
    }
    ends.append(&mut starts)?;
    Ok(ends)
}
