// Walks over the nodes of a state.
ghost use Rattle.std.specs.Prelude.{◌≡◌, ℕ, ◌+◌, ◌*◌, ◌==◌, ◌<◌, ◌≤◌, ◌^◌, ◌++◌, ◌&&◌, OnOk, drop, length, take, true, false, vec_capacity};
ghost use Rattle.std.specs.List.{count_by};
ghost use Rattle.rt_tags.specs.Borders.{beyond};
ghost use Rattle.rt_tags.specs.ManyCounts.{ArePlaced};
ghost use Rattle.rt_tags.specs.SharedStates.{AreBelow, AreShared, IsThere, at_id, chosen, entries_of, entry_if, if_so, is_off, puts_on, scaled, setting_of};
ghost use Rattle.rt_tags.specs.Toggles.{AreFrom, count_in};

use crate::many::{put, sort};
use crate::nodes::{Node, Setting, node_at, setting_at};
use crate::states::{TagEntry, TagId};
use crate::toggles::TagCount;
use indexmap::IndexSet;
use std::alloc::AllocError;

// Whether a setting puts its tag on.
pub(crate) fn puts_on(setting: Option<Setting>) -> bool
    ensures { result ≡ puts_on setting }
{
    match setting {
        Some(setting) => setting.on,
        None => false,
    }
}

// Whether no tag of a state is on.
pub(crate) fn is_none_on(nodes: &IndexSet<Node>, id: u32) -> bool
    requires kept { AreShared nodes.now.keys }
    requires given { id < length nodes.now.keys }
    ensures yes { result ≡ true → (t : ℕ) → puts_on (setting_of (at_id nodes.now.keys id) t) ≡ false }
    ensures no { result ≡ false → (t : ℕ) × (puts_on (setting_of (at_id nodes.now.keys id) t) ≡ true) }
{
    if id == 0 {
        return true;
    }
    let node = node_at(nodes, id);
    if puts_on(node.setting) {
        return false;
    }
    if !is_none_on(nodes, node.odd) {
        return false;
    }
    is_none_on(nodes, node.even)
}

// Adds a tag's setting as an entry, if there is one.
pub(crate) fn push_setting(
    out: &mut Vec<TagEntry>,
    tag: TagId,
    setting: Option<Setting>,
) -> Result<(), AllocError>
    ensures { OnOk result (out.new.items ≡ out.old.items ++ entry_if tag setting) }
{
    if let Some(setting) = setting {
        out.push(TagEntry {
            tag,
            writer: setting.writer,
            on: setting.on,
        })?;
    }
    Ok(())
}

// Adds the entries of a part of a state, by its whole tags.
pub(crate) fn add_entries(
    out: &mut Vec<TagEntry>,
    nodes: &IndexSet<Node>,
    id: u32,
    scale: u64,
    offset: u64,
) -> Result<(), AllocError>
    requires kept { AreShared nodes.now.keys }
    requires given { id < length nodes.now.keys }
    requires fits { (t : ℕ) → IsThere (at_id nodes.now.keys id) t → t * scale + offset < 2 ^ 32 }
    requires scale { 0 < id → (scale < 2 ^ 33) × (offset < 2 ^ 33) }
    ensures { OnOk result (out.new.items ≡ out.old.items ++ scaled scale offset (entries_of (at_id nodes.now.keys id))) }
{
    if id == 0 {
        return Ok(());
    }
    let node = node_at(nodes, id);
    let tag = node.tag as u64 * scale + offset;
    push_setting(out, TagId::at(tag as usize), node.setting)?;
    add_entries(out, nodes, node.odd, scale * 2, offset + scale)?;
    add_entries(out, nodes, node.even, scale * 2, offset)
}

// Whether a setting puts its tag on, which isn't on in another state.
fn is_beyond(nodes: &IndexSet<Node>, setting: Option<Setting>, other: u32, tag: u32) -> bool
    requires kept { AreShared nodes.now.keys }
    requires other { other < length nodes.now.keys }
    ensures { result ≡ (puts_on setting && is_off (at_id nodes.now.keys other) tag) }
{
    puts_on(setting) && !puts_on(setting_at(nodes, other, tag))
}

// Counts a tag once more, if it is so, where it doesn't stand behind the first counts.
fn put_if(counts: &mut Vec<TagCount>, ordered: usize, is_so: bool, tag: u32)
    requires placed { ArePlaced ordered counts.old.items }
    requires within { tag < vec_capacity counts.old }
    requires others { (t : ℕ) → vec_capacity counts.old ≤ t → count_in t counts.old.items ≡ 0 }
    requires few { count_in tag counts.old.items + count_by (λ x. x == tag) (if_so is_so tag) < 2 ^ 32 }
    requires behind { count_in tag (drop ordered counts.old.items) + count_by (λ x. x == tag) (if_so is_so tag) ≤ 1 }
    ensures placed { ArePlaced ordered counts.new.items }
    ensures counts { (t : ℕ) → count_in t counts.new.items ≡ count_in t counts.old.items + count_by (λ x. x == t) (if_so is_so tag) }
    ensures first { (t : ℕ) → count_in t (take ordered counts.old.items) ≤ count_in t (take ordered counts.new.items) }
    ensures capacity { vec_capacity counts.new ≡ vec_capacity counts.old }
    ensures others { (t : ℕ) → vec_capacity counts.new ≤ t → count_in t counts.new.items ≡ 0 }
{
    if is_so {
        put(counts, ordered, TagId::at(tag as usize), 1);
    }
}

// Parts of two states at one place: a tag of theirs stands for its number times the scale and the offset.
#[derive(Clone, Copy)]
struct Parts {
    here: u32,
    there: u32,
    scale: u64,
    offset: u64,
}

// One toggle more of each tag that is on in a part of a state and not in another state. What both share is passed over. A tag
// without a count at its place is put behind the first counts.
fn put_beyond(
    counts: &mut Vec<TagCount>,
    ordered: usize,
    nodes: &IndexSet<Node>,
    parts: Parts,
    other: u32,
)
    requires kept { AreShared nodes.now.keys }
    requires here { parts.here < length nodes.now.keys }
    requires there { parts.there < length nodes.now.keys }
    requires other { other < length nodes.now.keys }
    requires part { (t : ℕ) → IsThere (at_id nodes.now.keys parts.there) t
        → setting_of (at_id nodes.now.keys other) (t * parts.scale + parts.offset) ≡ setting_of (at_id nodes.now.keys parts.there) t }
    requires fits { (t : ℕ) → IsThere (at_id nodes.now.keys parts.here) t → t * parts.scale + parts.offset < 2 ^ 32 }
    requires scale { 0 < parts.here → (parts.scale < 2 ^ 33) × (parts.offset < 2 ^ 33) }
    requires placed { ArePlaced ordered counts.old.items }
    requires within { (t : ℕ) → IsThere (at_id nodes.now.keys parts.here) t → t * parts.scale + parts.offset < vec_capacity counts.old }
    requires others { (tag : ℕ) → vec_capacity counts.old ≤ tag → count_in tag counts.old.items ≡ 0 }
    requires few { (tag : ℕ) → count_in tag counts.old.items + count_by (λ x. x == tag)
        (chosen (λ t. t * parts.scale + parts.offset) (is_off (at_id nodes.now.keys other)) (at_id nodes.now.keys parts.here)) < 2 ^ 32 }
    requires behind { (tag : ℕ) → count_in tag (drop ordered counts.old.items) + count_by (λ x. x == tag)
        (chosen (λ t. t * parts.scale + parts.offset) (is_off (at_id nodes.now.keys other)) (at_id nodes.now.keys parts.here)) ≤ 1 }
    ensures placed { ArePlaced ordered counts.new.items }
    ensures counts { (tag : ℕ) → count_in tag counts.new.items ≡ count_in tag counts.old.items + count_by (λ x. x == tag)
        (chosen (λ t. t * parts.scale + parts.offset) (is_off (at_id nodes.now.keys other)) (at_id nodes.now.keys parts.here)) }
    ensures first { (t : ℕ) → count_in t (take ordered counts.old.items) ≤ count_in t (take ordered counts.new.items) }
    ensures capacity { vec_capacity counts.new ≡ vec_capacity counts.old }
    ensures others { (t : ℕ) → vec_capacity counts.new ≤ t → count_in t counts.new.items ≡ 0 }
{
    if parts.here == 0 || parts.here == parts.there {
        return;
    }
    let node = node_at(nodes, parts.here);
    let beside = node_at(nodes, parts.there);
    let tag = (node.tag as u64 * parts.scale + parts.offset) as u32;
    let is_so = is_beyond(nodes, node.setting, other, tag);
    put_if(counts, ordered, is_so, tag);
    let odds = Parts {
        here: node.odd,
        there: beside.odd,
        scale: parts.scale * 2,
        offset: parts.offset + parts.scale,
    };
    put_beyond(counts, ordered, nodes, odds, other);
    let evens = Parts {
        here: node.even,
        there: beside.even,
        scale: parts.scale * 2,
        offset: parts.offset,
    };
    put_beyond(counts, ordered, nodes, evens, other);
}

/// One toggle more of each tag that is on in a state and not in another. What both share is passed over.
pub(crate) fn add_beyond(counts: &mut Vec<TagCount>, nodes: &IndexSet<Node>, here: u32, there: u32)
    requires kept { AreShared nodes.now.keys }
    requires here { here < length nodes.now.keys }
    requires there { there < length nodes.now.keys }
    requires order { AreFrom 0 counts.old.items }
    requires within { AreBelow (vec_capacity counts.old) nodes.now.keys }
    requires others { (tag : ℕ) → vec_capacity counts.old ≤ tag → count_in tag counts.old.items ≡ 0 }
    requires few { (tag : ℕ) → count_in tag counts.old.items + 1 < 2 ^ 32 }
    ensures order { AreFrom 0 counts.new.items }
    ensures counts { (tag : ℕ) → count_in tag counts.new.items ≡ count_in tag counts.old.items
        + beyond (puts_on (setting_of (at_id nodes.now.keys here) tag)) (puts_on (setting_of (at_id nodes.now.keys there) tag)) }
    ensures capacity { vec_capacity counts.new ≡ vec_capacity counts.old }
{
    let ordered = counts.len();
    let whole = Parts {
        here,
        there,
        scale: 1,
        offset: 0,
    };
    put_beyond(counts, ordered, nodes, whole, there);
    sort(counts, ordered);
}
