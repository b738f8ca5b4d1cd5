// Many writes on a state at once.
ghost use Rattle.std.specs.Prelude.{◌≡◌, ℕ, ◌+◌, ◌++◌, ◌<◌, ◌≤◌, ◌^◌, IfOk, IsOkUnless, None, Some, is_some, length, slice_get, true};
ghost use Rattle.std.specs.List.{AllByRecursion};
ghost use Rattle.rt_tags.specs.Kept.{HaveNames};
ghost use Rattle.rt_tags.specs.ManyWrites.{IsSplit, goes_into, halved, newer_setting, part_writes, setting_after};
ghost use Rattle.rt_tags.specs.SharedStates.{AreBelow, AreShared, HasMore, IsBelow, IsHeap, at_id, entry_if, setting_of};

use crate::nodes::{Node, Setting, add, node_at};
use crate::states::{TagEntry, TagId};
use crate::walk::push_setting;
use crate::writing::is_kept;
use indexmap::IndexSet;
use rt_stamps::Fault;
use std::alloc::{AllocError, Global};

// A node's own setting as the first write, and writes behind it.
fn with_own(alloc: Global, node: Node, writes: &[TagEntry]) -> Result<Vec<TagEntry>, AllocError>
    ensures { IfOk result (λ v. v.items ≡ entry_if node.tag node.setting ++ writes.now) }
{
    let mut all = Vec::new(alloc);
    push_setting(&mut all, TagId::at(node.tag as usize), node.setting)?;
    all.extend_from_slice(writes)?;
    Ok(all)
}

// The least tag of writes.
fn least_tag(writes: &[TagEntry]) -> usize
    requires { 0 < length writes.now }
    ensures least { AllByRecursion (λ e. result ≤ e.tag) writes.now }
    ensures there { is_some (setting_after writes.now result None) ≡ true }
{
    let mut least = writes[0].tag.place();
    for entry in writes {
        if entry.tag.place() < least {
            least = entry.tag.place();
        }
    }
    least
}

// A tag's setting after a write of it.
fn newer(setting: Option<Setting>, write: TagEntry) -> Option<Setting>
    ensures { result ≡ newer_setting setting write }
{
    if is_kept(setting, write.writer) {
        return setting;
    }
    Some(Setting {
        writer: write.writer,
        on: write.on,
    })
}

// The setting of a tag that writes leave.
fn setting_left(writes: &[TagEntry], tag: usize) -> Option<Setting>
    ensures { result ≡ setting_after writes.now tag None }
{
    let mut left = None;
    for entry in writes {
        if entry.tag.place() == tag {
            left = newer(left, *entry);
        }
    }
    left
}

// Whether a write goes into a part: its tag has the part's remainder and isn't the one on top.
fn goes_into(write: TagEntry, top: usize, remainder: usize) -> bool
    ensures { result ≡ goes_into remainder top write }
{
    write.tag.place() % 2 == remainder && write.tag.place() != top
}

// A write of half the number.
fn halved(write: TagEntry) -> TagEntry
    ensures { result ≡ halved write }
{
    TagEntry {
        tag: TagId::at(write.tag.place() / 2),
        writer: write.writer,
        on: write.on,
    }
}

// The writes that go into a part.
fn part_of(
    alloc: Global,
    writes: &[TagEntry],
    top: usize,
    remainder: usize,
) -> Result<Vec<TagEntry>, AllocError>
    ensures { IfOk result (λ v. v.items ≡ part_writes remainder top writes.now) }
{
    let mut part = Vec::new(alloc);
    for entry in writes {
        if goes_into(*entry, top, remainder) {
            part.push(halved(*entry))?;
        }
    }
    Ok(part)
}

// Writes of the least tag, and of the other odd and even ones.
#[derive(Drop)]
struct InParts {
    top: usize,
    setting: Option<Setting>,
    odds: Vec<TagEntry>,
    evens: Vec<TagEntry>,
}

// A node's setting and writes on it, in three.
fn split(alloc: Global, node: Node, writes: &[TagEntry]) -> Result<InParts, AllocError>
    requires { 0 < length writes.now }
    ensures { IfOk result (λ s. IsSplit (entry_if node.tag node.setting ++ writes.now) s.top s.setting s.odds.items s.evens.items) }
{
    let all = with_own(alloc, node, writes)?;
    let top = least_tag(&all);
    let setting = setting_left(&all, top);
    let odds = part_of(alloc, &all, top, 1)?;
    let evens = part_of(alloc, &all, top, 0)?;
    Ok(InParts {
        top,
        setting,
        odds,
        evens,
    })
}

// Keeps a node, if it isn't kept, and answers its id. Want of memory.
fn keep(nodes: &mut IndexSet<Node>, node: Node) -> Result<u32, Fault>
    requires kept { AreShared nodes.old.keys }
    requires odd { node.odd < length nodes.old.keys }
    requires even { node.even < length nodes.old.keys }
    requires filled { is_some node.setting ≡ true }
    requires heap { IsHeap nodes.old.keys node }
    ensures kept { AreShared nodes.new.keys }
    ensures more { HasMore nodes.old.keys nodes.new.keys }
    ensures at { IfOk result (λ r. slice_get nodes.new.keys r ≡ Some node) }
    ensures below { (n : ℕ) → AreBelow n nodes.old.keys
        → IfOk result (λ r. IsBelow n (at_id nodes.new.keys r)) → AreBelow n nodes.new.keys }
    ensures given { IfOk result (λ r. r < length nodes.new.keys) }
    ensures len { length nodes.new.keys ≤ length nodes.old.keys + 1 }
    ensures fault { IsOkUnless result Fault.NoMemory }
{
    if nodes.len() > u32::MAX as usize {
        return Err(Fault::NoMemory);
    }
    nodes.reserve(1)?;
    Ok(add(nodes, node))
}

/// Keeps the state after writes, one after the other, and those of its parts alone, and answers its id. Want of memory.
pub(crate) fn write_in(
    alloc: Global,
    nodes: &mut IndexSet<Node>,
    id: u32,
    writes: &[TagEntry],
) -> Result<u32, Fault>
    requires kept { AreShared nodes.old.keys }
    requires given { id < length nodes.old.keys }
    requires tags { HaveNames (2 ^ 32) writes.now }
    ensures kept { AreShared nodes.new.keys }
    ensures more { HasMore nodes.old.keys nodes.new.keys }
    ensures below { (n : ℕ) → AreBelow n nodes.old.keys → HaveNames n writes.now → AreBelow n nodes.new.keys }
    ensures given { IfOk result (λ r. r < length nodes.new.keys) }
    ensures settings { IfOk result (λ r. (t : ℕ) → setting_of (at_id nodes.new.keys r) t
        ≡ setting_after writes.now t (setting_of (at_id nodes.old.keys id) t)) }
    ensures few { id ≡ 0 → length nodes.new.keys ≤ length nodes.old.keys + length writes.now }
    ensures fault { IsOkUnless result Fault.NoMemory }
{
    if writes.is_empty() {
        return Ok(id);
    }
    let node = node_at(nodes, id);
    let parts = split(alloc, node, writes)?;
    let odd = write_in(alloc, nodes, node.odd, &parts.odds)?;
    let even = write_in(alloc, nodes, node.even, &parts.evens)?;
    let above = Node {
        tag: parts.top as u32,
        setting: parts.setting,
        odd,
        even,
    };
    keep(nodes, above)
}
