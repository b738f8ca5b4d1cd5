// What is recorded of an edit.
ghost use Rattle.std.specs.Prelude.{◌≡◌, ◌≤◌, true, List, [], None, Some, IfErr, IsOkUnless, IfOk, OnErr, OnOk, map};
ghost use Rattle.rt_stamps.specs.declared.limits.TheConstants.{GREATEST_COUNT};
ghost use Rattle.rt_stamps.specs.Outcomes.{Refuses};
ghost use Rattle.rt_stamps.specs.Words.{Word, as_words};
ghost use Rattle.rt_undo.specs.Actions.{Removed};
ghost use Rattle.rt_revert.specs.Reverting.{as_removed};
ghost use Rattle.rt_recording.specs.Recordings.{HasStayed, came_back, span_action};
ghost use Rattle.rt_text.specs.Commands.{view_deleted, lost_in};
ghost use Rattle.rt_text.specs.Index.{index_check, place_at_index};
ghost use Rattle.rt_text.specs.Widgets.{widget_of};
ghost use Rattle.rt_recording.specs.Edits.{counts_between, has_changed, lost_between, lost_from, noted_by};
ghost use Rattle.rt_recording.specs.Noting.{IsOfLog, Keeps};

use crate::Recorder;
use crate::before::Before;
use rt_plans::Range;
use rt_stamps::Fault;
use rt_store::TextStore;
use rt_text::View;
use rt_undo::Kind;

/// Makes ready to record an insertion, where edits are recorded. Want of memory, and then what was recorded
/// is as it was.
pub(crate) fn prepare_insertion<S: TextStore>(
    view: &View<S>,
    recorder: &mut Recorder,
) -> Result<(), Fault>
    ensures pending { OnOk result (recorder.old.undo ≡ true → recorder.new.pending ≡ Some []) }
    ensures kept { Keeps recorder.old recorder.new }
    ensures same { OnErr result (recorder.new ≡ record recorder.old { table = recorder.new.table }) }
    ensures err { IsOkUnless result Fault.NoMemory }
{
    if !recorder.is_undo_on() {
        return Ok(());
    }
    let (_, states) = view.lost(&[])?;
    recorder.prepare(&[], states)
}

// Makes ready to record an edit that takes what stands in ranges. Want of memory, and then what was
// recorded is as it was.
fn prepare<S: TextStore>(
    view: &View<S>,
    recorder: &mut Recorder,
    ranges: &[Range],
) -> Result<(), Fault>
    ensures pending { OnOk result (recorder.new.pending ≡ Some (map as_removed (lost_in view.now ranges.now))) }
    ensures kept { Keeps recorder.old recorder.new }
    ensures same { OnErr result (recorder.new ≡ record recorder.old { table = recorder.new.table }) }
    ensures err { IsOkUnless result Fault.NoMemory }
{
    let (lost, states) = view.lost(ranges)?;
    recorder.prepare(&lost, states)
}

/// Makes ready as `prepare` does, for a deletion by its indices, where edits are recorded. Its faults, or want of memory.
pub(crate) fn prepare_deletion<S: TextStore>(
    view: &View<S>,
    recorder: &mut Recorder,
    indices: &[String],
) -> Result<(), Fault>
    ensures pending { OnOk result (recorder.old.undo ≡ true
        → recorder.new.pending ≡ Some (map as_removed (lost_between view.now (as_words indices.now)))) }
    ensures kept { Keeps recorder.old recorder.new }
    ensures same { OnErr result (recorder.new ≡ record recorder.old { table = recorder.new.table }) }
    ensures err { IfErr result (Refuses (view_deleted view.now (as_words indices.now))) }
{
    if !recorder.is_undo_on() {
        return Ok(());
    }
    let ranges = view.ranges(indices)?;
    prepare(view, recorder, &ranges)
}

// The place of an index, if it is one. Want of memory.
fn found<S: TextStore>(view: &View<S>, index: &str) -> Result<Option<usize>, Fault>
    ensures ok { IfOk result (λ place. index_check (widget_of view.now) index.now ≡ None
        → place ≡ Some (place_at_index (widget_of view.now) index.now)) }
    ensures err { IsOkUnless result Fault.NoMemory }
{
    match view.place(index) {
        Ok(place) => Ok(Some(place)),
        Err(Fault::NoMemory) => Err(Fault::NoMemory),
        Err(_) => Ok(None),
    }
}

/// Makes ready as `prepare` does, for a replacement by its indices. Where one is none, nothing is prepared, since the replacement
/// is refused: for what, it tells itself. Want of memory.
pub(crate) fn prepare_replacement<S: TextStore>(
    view: &View<S>,
    recorder: &mut Recorder,
    from: &str,
    to: &str,
) -> Result<(), Fault>
    ensures pending { OnOk result (recorder.old.undo ≡ true → index_check (widget_of view.now) from.now ≡ None
        → index_check (widget_of view.now) to.now ≡ None → recorder.new.pending ≡ Some (map as_removed (lost_from view.now from.now to.now))) }
    ensures kept { Keeps recorder.old recorder.new }
    ensures same { OnErr result (recorder.new ≡ record recorder.old { table = recorder.new.table }) }
    ensures err { IsOkUnless result Fault.NoMemory }
{
    if !recorder.is_undo_on() {
        return Ok(());
    }
    let begin = found(view, from)?;
    let end = found(view, to)?;
    match (begin, end) {
        (Some(from), Some(to)) => prepare(view, recorder, &[Range { from, to }]),
        _ => Ok(()),
    }
}

/// Records an edit that was prepared and made, or forces the flag, where it changed the text. It takes no
/// memory.
#[inline(always)]
pub(crate) fn note<S: TextStore>(
    view: &View<S>,
    recorder: &mut Recorder,
    kind: Kind,
    before: Before,
)
    requires count { before.count ≤ GREATEST_COUNT }
    requires prepared { recorder.old.undo ≡ true → (lost : List (Removed (List Word))) × (recorder.old.pending ≡ Some lost) }
    requires stays { (lost : List (Removed (List Word))) → recorder.old.undo ≡ true → recorder.old.pending ≡ Some lost
        → HasStayed (came_back recorder.old) (span_action kind (counts_between before.site.number before.count view.now.doc.count) lost) }
    ensures history { (lost : List (Removed (List Word))) → (recorder.old.undo ≡ true → recorder.old.pending ≡ Some lost)
        → recorder.new.history ≡ noted_by (has_changed before.cells before.visible view.now.doc) recorder.old.undo recorder.old.auto
        (span_action kind (counts_between before.site.number before.count view.now.doc.count) lost) recorder.old.history }
    ensures settings { (recorder.new.undo ≡ recorder.old.undo) × (recorder.new.auto ≡ recorder.old.auto) }
    ensures moves { recorder.new.moves ≡ recorder.old.moves }
    ensures kept { IsOfLog view.now.doc }
{
    if before.has_changed(view) {
        if recorder.is_undo_on() {
            let last = view.doc().count();
            recorder.record(kind, before.site, before.count + 1, last);
        } else {
            recorder.force();
        }
    }
}
