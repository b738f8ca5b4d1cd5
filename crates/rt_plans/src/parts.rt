// Spans cut for operations, each with at most as many as one may name.
ghost use Rattle.std.specs.Prelude.{◌≡◌, ◌++◌, IsOkUnless, OnOk, map};
ghost use Rattle.rt_stamps.specs.declared.limits.TheConstants.{MOST_SPANS};
ghost use Rattle.rt_ops.specs.Edits.{body_of};
ghost use Rattle.rt_ops.specs.Operations.{Delete, Tag};
ghost use Rattle.rt_plans.specs.NamedSpans.{parts_of};

use rt_rga::Draft;
use rt_stamps::limits::MOST_SPANS;
use rt_stamps::{Fault, Span};
use std::alloc::Global;

/// Adds Deletes of spans. Want of memory.
pub(crate) fn push_deletes(
    alloc: Global,
    drafts: &mut Vec<Draft>,
    spans: &[Span],
) -> Result<(), Fault>
    ensures ok { OnOk result (map body_of drafts.new.items
        ≡ map body_of drafts.old.items ++ map (λ part. Delete part) (parts_of MOST_SPANS spans.now)) }
    ensures err { IsOkUnless result Fault.NoMemory }
{
    for part in spans.chunks(MOST_SPANS) {
        drafts.push(Draft::Delete {
            spans: Vec::from_slice(alloc, part)?,
        })?;
    }
    Ok(())
}

/// Adds Tags that put a tag on the characters of spans, or take it off. Want of memory.
pub(crate) fn push_tags(
    alloc: Global,
    drafts: &mut Vec<Draft>,
    on: bool,
    name: &str,
    spans: &[Span],
) -> Result<(), Fault>
    ensures ok { OnOk result (map body_of drafts.new.items
        ≡ map body_of drafts.old.items ++ map (λ part. Tag on name.now part) (parts_of MOST_SPANS spans.now)) }
    ensures err { IsOkUnless result Fault.NoMemory }
{
    for part in spans.chunks(MOST_SPANS) {
        drafts.push(Draft::Tag {
            on,
            name: String::from_str(alloc, name)?,
            spans: Vec::from_slice(alloc, part)?,
        })?;
    }
    Ok(())
}
