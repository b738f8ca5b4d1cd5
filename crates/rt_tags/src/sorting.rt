// Writes of tags by the bytes of the tags' names, the greatest of each tag.
ghost use Rattle.std.specs.Prelude.{◌≡◌, ◌+◌, ◌<◌, ◌∷◌, [], if◌then◌else◌, IfNone, IfOk, IfSome, length};
ghost use Rattle.rt_stamps.specs.Names.{name_order};
ghost use Rattle.rt_stamps.specs.Stamps.{is_before};
ghost use Rattle.rt_stamps.specs.Words.{as_words};
ghost use Rattle.rt_tags.specs.Kept.{HaveNames, IsFirst, IsSorted, all_seen, write_seen};
ghost use Rattle.rt_tags.specs.Writers.{state_after};

use crate::states::TagEntry;
use std::alloc::{AllocError, Global};
use std::cmp::Ordering;

// How the names of two entries' tags stand to each other.
fn order(names: &[String], x: TagEntry, y: TagEntry) -> Ordering
    requires x { x.tag < length names.now }
    requires y { y.tag < length names.now }
    ensures { result ≡ name_order (write_seen (as_words names.now) x).name (write_seen (as_words names.now) y).name }
{
    let name = names[y.tag.place()].as_str();
    names[x.tag.place()].as_str().cmp(name)
}

// Of two entries of one tag the one that stays, where the second is the later write.
fn newer(x: TagEntry, y: TagEntry) -> TagEntry
    ensures { result ≡ (if is_before x.writer y.writer then y else x) }
{
    if x.writer < y.writer { y } else { x }
}

// The first entry of two lists together, of which the second has the later writes, and what is left of
// either list.
fn first<'a>(
    names: &[String],
    old: &'a [TagEntry],
    new: &'a [TagEntry],
) -> Option<(TagEntry, &'a [TagEntry], &'a [TagEntry])>
    requires old { IsSorted (as_words names.now) old.now }
    requires new { IsSorted (as_words names.now) new.now }
    ensures none { IfNone result ((old.now ≡ []) × (new.now ≡ [])) }
    ensures some { IfSome result (λ r. IsFirst (as_words names.now) old.now new.now r.0 r.1.now r.2.now) }
{
    match old.split_first() {
        None => match new.split_first() {
            None => None,
            Some((y, more_new)) => Some((*y, old, more_new)),
        },
        Some((x, more_old)) => match new.split_first() {
            None => Some((*x, more_old, new)),
            Some((y, more_new)) => match order(names, *x, *y) {
                Ordering::Less => Some((*x, more_old, new)),
                Ordering::Greater => Some((*y, old, more_new)),
                Ordering::Equal => Some((newer(*x, *y), more_old, more_new)),
            },
        },
    }
}

/// The entries after others that were written later.
pub(crate) fn merged(
    alloc: Global,
    names: &[String],
    old: &[TagEntry],
    new: &[TagEntry],
) -> Result<Vec<TagEntry>, AllocError>
    requires old { IsSorted (as_words names.now) old.now }
    requires new { IsSorted (as_words names.now) new.now }
    ensures sorted { IfOk result (λ v. IsSorted (as_words names.now) v.items) }
    ensures entries { IfOk result (λ v. all_seen (as_words names.now) v.items
        ≡ state_after (all_seen (as_words names.now) old.now) (all_seen (as_words names.now) new.now)) }
{
    let mut out = Vec::new(alloc);
    let mut rest_of_old = old;
    let mut rest_of_new = new;
    while let Some((entry, more_old, more_new)) = first(names, rest_of_old, rest_of_new) {
        out.push(entry)?;
        rest_of_old = more_old;
        rest_of_new = more_new;
    }
    Ok(out)
}

// The entries of a list of at most one.
fn copied(alloc: Global, entries: &[TagEntry]) -> Result<Vec<TagEntry>, AllocError>
    ensures { IfOk result (λ v. v.items ≡ entries.now) }
{
    let mut out = Vec::new(alloc);
    for entry in entries {
        out.push(*entry)?;
    }
    Ok(out)
}

/// The entries that writes leave, one after the other: each half of them is sorted, and then both
/// are merged.
pub(crate) fn sorted(
    alloc: Global,
    names: &[String],
    writes: &[TagEntry],
) -> Result<Vec<TagEntry>, AllocError>
    requires { HaveNames (length names.now) writes.now }
    ensures sorted { IfOk result (λ v. IsSorted (as_words names.now) v.items) }
    ensures entries { IfOk result (λ v. all_seen (as_words names.now) v.items
        ≡ state_after [] (all_seen (as_words names.now) writes.now)) }
{
    if writes.len() < 2 {
        return copied(alloc, writes);
    }
    let (front, back) = writes.split_at(writes.len() / 2);
    let front = sorted(alloc, names, front)?;
    let back = sorted(alloc, names, back)?;
    merged(alloc, names, &front, &back)
}
