// Operations, read from the bytes of a record.
ghost use Rattle.std.specs.Prelude.{◌≡◌, ℕ, ◌∷◌, ◌++◌, ◌<◌, ◌^◌, Bool, List, length, IfNone, IfSome};
ghost use Rattle.std.specs.Int.{w64};
ghost use Rattle.rt_ops.specs.Versions.{fewest, layout};
ghost use Rattle.rt_ops.specs.File.{number, stamp_bytes, flag, HasRecord, content_of};
ghost use Rattle.rt_ops.specs.Decoding.{Decodes, DecodesBody, StampFits};

use crate::fields::{byte_at, name_at, spans_of, stamp_at, tags_at, text_of, u64_at};
use crate::{Op, Version};
use rt_stamps::{Fault, Stamp};
use std::alloc::Global;

/// What stands before the body of each operation.
#[derive(Clone, Copy)]
struct Head {
    kind: u8,
    stamp: Stamp,
    prev: u64,
}

fn head_at(version: Version, bytes: &[u8]) -> Option<(Head, &[u8])>
    ensures none { IfNone result (length bytes.now < fewest version) }
    ensures fits { IfSome result (λ found. StampFits version found.0.stamp × (found.0.prev < 2 ^ 64)) }
    ensures bytes { IfSome result (λ found. bytes.now ≡ found.0.kind ∷ (stamp_bytes version found.0.stamp ++ (number w64 found.0.prev ++ found.1.now))) }
{
    let (kind, rest) = byte_at(bytes)?;
    let (stamp, rest) = stamp_at(version, rest)?;
    let (prev, rest) = u64_at(rest)?;
    Some((Head { kind, stamp, prev }, rest))
}

fn insert_of(
    alloc: Global,
    version: Version,
    stamp: Stamp,
    prev: u64,
    bytes: &[u8],
) -> Result<Op, Fault>
    ensures { DecodesBody version 1 stamp prev bytes.now result }
{
    let (after, rest) = match stamp_at(version, bytes) {
        Some(found) => found,
        None => return Err(Fault::BadRecord),
    };
    let (tags, rest) = tags_at(alloc, rest)?;
    if tags.len() > version.most_tags() {
        return Err(Fault::BadRecord);
    }
    let text = text_of(alloc, rest)?;
    Op::insert_text(stamp, prev, after, tags, text)
}

fn delete_of(
    alloc: Global,
    version: Version,
    stamp: Stamp,
    prev: u64,
    bytes: &[u8],
) -> Result<Op, Fault>
    ensures { DecodesBody version 2 stamp prev bytes.now result }
{
    let spans = spans_of(alloc, version, bytes)?;
    Op::delete(stamp, prev, spans)
}

fn flag_at(bytes: &[u8]) -> Option<(bool, &[u8])>
    ensures none { IfNone result ((on : Bool) (more : List ℕ) → bytes.now ≡ flag on ∷ more → ⊥) }
    ensures bytes { IfSome result (λ found. bytes.now ≡ flag found.0 ∷ found.1.now) }
{
    match bytes {
        [0, rest @ ..] => Some((false, rest)),
        [1, rest @ ..] => Some((true, rest)),
        _ => None,
    }
}

fn tag_of(
    alloc: Global,
    version: Version,
    stamp: Stamp,
    prev: u64,
    bytes: &[u8],
) -> Result<Op, Fault>
    ensures { DecodesBody version 3 stamp prev bytes.now result }
{
    let (on, rest) = match flag_at(bytes) {
        Some(found) => found,
        None => return Err(Fault::BadRecord),
    };
    let (name, rest) = name_at(alloc, rest)?;
    let spans = spans_of(alloc, version, rest)?;
    Op::tag(stamp, prev, on, name, spans)
}

/// The operation that all of the bytes spell in a version, which stand behind a record's length field.
/// `BadRecord` exactly where they spell none.
pub fn decode(alloc: Global, version: Version, bytes: &[u8]) -> Result<Op, Fault>
    ensures { Decodes (content_of version) (HasRecord version) (λ op. op) bytes.now result }
{
    let (head, rest) = match head_at(version, bytes) {
        Some(found) => found,
        None => return Err(Fault::BadRecord),
    };
    match head.kind {
        1 => insert_of(alloc, version, head.stamp, head.prev, rest),
        2 => delete_of(alloc, version, head.stamp, head.prev, rest),
        3 => tag_of(alloc, version, head.stamp, head.prev, rest),
        _ => Err(Fault::BadRecord),
    }
}
