// Writes of several tags at once, and the tags that writes put on.
ghost use Rattle.std.specs.Prelude.{◌≡◌, IfOk};
ghost use Rattle.rt_tags.specs.Kept.{all_on, tags_on};

use crate::states::{TagEntry, TagId};
use rt_stamps::Stamp;
use std::alloc::{AllocError, Global};

/// Writes that put tags on, under one writer.
pub(crate) fn listed(
    alloc: Global,
    writer: Stamp,
    tags: &[TagId],
) -> Result<Vec<TagEntry>, AllocError>
    ensures { IfOk result (λ v. v.items ≡ all_on writer tags.now) }
{
    let mut writes = Vec::with_capacity(alloc, tags.len())?;
    for tag in tags {
        writes.push(TagEntry {
            tag: *tag,
            writer,
            on: true,
        })?;
    }
    Ok(writes)
}

/// The tags that are on.
pub(crate) fn tags_on(alloc: Global, entries: &[TagEntry]) -> Result<Vec<TagId>, AllocError>
    ensures { IfOk result (λ v. v.items ≡ tags_on entries.now) }
{
    let mut on = Vec::new(alloc);
    for entry in entries {
        if entry.on {
            on.push(entry.tag)?;
        }
    }
    Ok(on)
}
