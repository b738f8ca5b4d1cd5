// Removed characters by spans.
ghost use Rattle.std.specs.Prelude.{◌≡◌, ◌∷◌, ◌++◌, [], IfOk, IsOkUnless, OnErr, OnOk, map};
ghost use Rattle.rt_undo.specs.Actions.{removed_in};
ghost use Rattle.rt_revert.specs.Keeping.{continues_span};
ghost use Rattle.rt_revert.specs.Planning.{cell_removed};

use rt_stamps::{Fault, Span, Stamp};
use rt_store::Cell;
use rt_tags::StateId;
use rt_undo::RemovedSpan;
use std::alloc::Global;

// Whether a removed character stands behind those of a span: its stamp is the next one, and it had the
// same tags.
fn continues_span(part: &RemovedSpan, stamp: Stamp, state: StateId) -> bool
    ensures { result ≡ continues_span part.now stamp state }
{
    part.state == state
        && part.span.first <= part.span.last
        && stamp.site == part.span.site
        && stamp.count > part.span.last
        && stamp.count - part.span.last == 1
}

/// Adds a removed character to those of spans, to the last span where it stands behind it, and that takes no
/// memory. Want of memory, and then the spans are as they were.
pub fn push_removed(
    removed: &mut Vec<RemovedSpan>,
    stamp: Stamp,
    state: StateId,
) -> Result<(), Fault>
    ensures ok { OnOk result (removed_in removed.new.items ≡ removed_in removed.old.items ++ record { stamp = stamp; tags = state } ∷ []) }
    ensures same { OnErr result (removed.new.items ≡ removed.old.items) }
    ensures fault { IsOkUnless result Fault.NoMemory }
{
    let span = Span {
        site: stamp.site,
        first: stamp.count,
        last: stamp.count,
    };
    if let Some(last) = removed.pop() {
        if continues_span(&last, stamp, state) {
            let first = last.span.first;
            let span = Span { first, ..span };
            removed.push_reserved(RemovedSpan { span, state });
            return Ok(());
        }
        removed.push_reserved(last);
    }
    removed.push(RemovedSpan { span, state })?;
    Ok(())
}

/// Cells as removed characters. Want of memory.
pub(crate) fn removed_from(
    alloc: Global,
    cells: &[Cell<StateId>],
) -> Result<Vec<RemovedSpan>, Fault>
    ensures ok { IfOk result (λ removed. removed_in removed.items ≡ map cell_removed cells.now) }
    ensures err { IsOkUnless result Fault.NoMemory }
{
    let mut removed = Vec::new(alloc);
    for cell in cells {
        push_removed(&mut removed, cell.stamp, cell.state)?;
    }
    Ok(removed)
}
