// One more write on a state, and several.
ghost use Rattle.std.specs.Prelude.{◌≡◌, ℕ, List, ◌+◌, ◌<◌, ◌≤◌, ◌^◌, All, IfOk, IsOkUnless, OnErr, Ok, length, true};
ghost use Rattle.rt_stamps.specs.declared.stamp.Stamp.{Stamp};
ghost use Rattle.rt_tags.specs.Kept.{HaveNames, all_seen, state_of};
ghost use Rattle.rt_tags.specs.SharedStates.{AreBelow, AreShared, HasMore, at_id, is_setting_kept, setting_of, settings_after};
ghost use Rattle.rt_tags.specs.Tags.{HaveNoRepeats};
ghost use Rattle.rt_tags.specs.Writers.{state_after};

use crate::building::write_in;
use crate::nodes::{Node, Setting, TagSetting, put, setting_at};
use crate::states::TagEntry;
use indexmap::IndexSet;
use rt_stamps::{Fault, Stamp};
use std::alloc::Global;

// Binary digits of a tag's number.
const LEVELS: u32 = 32;

// Nodes that one write may make.
const MOST_NEW: usize = 33;

// Whether a setting is there whose writer isn't less.
pub(crate) fn is_kept(setting: Option<Setting>, writer: Stamp) -> bool
    ensures { result ≡ is_setting_kept setting writer }
{
    match setting {
        Some(setting) => setting.writer >= writer,
        None => false,
    }
}

/// Keeps the state after one more write, and answers its id: of each tag the greatest writer stays. Want of memory.
pub(crate) fn write(nodes: &mut IndexSet<Node>, id: u32, entry: TagEntry) -> Result<u32, Fault>
    requires kept { AreShared nodes.old.keys }
    requires given { id < length nodes.old.keys }
    requires tag { entry.tag < 2 ^ 32 }
    ensures kept { AreShared nodes.new.keys }
    ensures more { HasMore nodes.old.keys nodes.new.keys }
    ensures below { (n : ℕ) → AreBelow n nodes.old.keys → entry.tag < n → AreBelow n nodes.new.keys }
    ensures given { IfOk result (λ r. r < length nodes.new.keys) }
    ensures settings { IfOk result (λ r. (t : ℕ) → setting_of (at_id nodes.new.keys r) t
        ≡ settings_after entry.tag (record { writer = entry.writer; on = entry.on }) (at_id nodes.old.keys id) t) }
    ensures same { is_setting_kept (setting_of (at_id nodes.old.keys id) entry.tag) entry.writer ≡ true → result ≡ Ok id }
    ensures err { OnErr result (nodes.new.keys ≡ nodes.old.keys) }
    ensures fault { IsOkUnless result Fault.NoMemory }
{
    let tag = entry.tag.place() as u32;
    if is_kept(setting_at(nodes, id, tag), entry.writer) {
        return Ok(id);
    }
    if nodes.len() > u32::MAX as usize - MOST_NEW {
        return Err(Fault::NoMemory);
    }
    nodes.reserve(MOST_NEW)?;
    let setting = Setting {
        writer: entry.writer,
        on: entry.on,
    };
    Ok(put(nodes, id, TagSetting { tag, setting }, LEVELS))
}

/// Keeps the state after writes, one after the other, and answers its id. Want of memory.
pub(crate) fn write_all(
    alloc: Global,
    nodes: &mut IndexSet<Node>,
    id: u32,
    entries: &[TagEntry],
) -> Result<u32, Fault>
    requires kept { AreShared nodes.old.keys }
    requires given { id < length nodes.old.keys }
    requires tags { HaveNames (2 ^ 32) entries.now }
    ensures kept { AreShared nodes.new.keys }
    ensures more { HasMore nodes.old.keys nodes.new.keys }
    ensures below { (n : ℕ) → AreBelow n nodes.old.keys → HaveNames n entries.now → AreBelow n nodes.new.keys }
    ensures given { IfOk result (λ r. r < length nodes.new.keys) }
    ensures states { IfOk result (λ r. (names : List (List ℕ)) → HaveNoRepeats names → AreBelow (length names) nodes.old.keys
        → HaveNames (length names) entries.now → state_of names (at_id nodes.new.keys r)
        ≡ state_after (state_of names (at_id nodes.old.keys id)) (all_seen names entries.now)) }
    ensures few { id ≡ 0 → length nodes.new.keys ≤ length nodes.old.keys + length entries.now }
    ensures fault { IsOkUnless result Fault.NoMemory }
{
    write_in(alloc, nodes, id, entries)
}
