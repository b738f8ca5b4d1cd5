// States of tags as nodes that share parts, each kept once.
ghost use Rattle.std.specs.Prelude.{◌≡◌, ℕ, ◌+◌, ◌<◌, ◌≤◌, ◌^◌, Some, is_some, true, length, slice_get};
ghost use Rattle.indexmap.specs.IndexSet.{index_set_len, spare};
ghost use Rattle.rt_tags.specs.SharedStates.{AreBelow, AreShared, HasMore, IsBelow, IsHeap, IsInOrder, IsThere, at_id, setting_of, with_setting};

use indexmap::IndexSet;
use rt_stamps::Stamp;

/// A tag's setting in a state: its greatest writer, and whether that put the tag on.
#[derive(Clone, Copy, Debug, PartialEq, Eq, Hash)]
pub struct Setting {
    pub writer: Stamp,
    pub on: bool,
}

// A tag and its setting.
#[derive(Clone, Copy)]
pub(crate) struct TagSetting {
    pub tag: u32,
    pub setting: Setting,
}

// A state: its least tag with its setting, and the ids of the states of the other odd and of the other even tags, each by half
// of its number.
#[derive(Clone, Copy, Debug, PartialEq, Eq, Hash)]
pub struct Node {
    pub tag: u32,
    pub setting: Option<Setting>,
    pub odd: u32,
    pub even: u32,
}

// The node with an id.
pub(crate) fn node_at(nodes: &IndexSet<Node>, id: u32) -> Node
    requires { id < length nodes.now.keys }
    ensures { slice_get nodes.now.keys id ≡ Some result }
{
    *nodes.get_index(id as usize).unwrap()
}

// Keeps a node, if it isn't kept, and answers its id.
pub(crate) fn add(nodes: &mut IndexSet<Node>, node: Node) -> u32
    requires kept { AreShared nodes.old.keys }
    requires room { 0 < spare nodes.old }
    requires few { length nodes.old.keys < 2 ^ 32 }
    requires odd { node.odd < length nodes.old.keys }
    requires even { node.even < length nodes.old.keys }
    requires filled { is_some node.setting ≡ true }
    requires heap { IsHeap nodes.old.keys node }
    ensures kept { AreShared nodes.new.keys }
    ensures more { HasMore nodes.old.keys nodes.new.keys }
    ensures at { slice_get nodes.new.keys result ≡ Some node }
    ensures below { (n : ℕ) → AreBelow n nodes.old.keys → IsBelow n (at_id nodes.new.keys result) → AreBelow n nodes.new.keys }
    ensures given { result < length nodes.new.keys }
    ensures new { 0 < result }
    ensures len { length nodes.new.keys ≤ length nodes.old.keys + 1 }
    ensures room { spare nodes.old ≤ spare nodes.new + 1 }
{
    let (place, _) = nodes.insert_full(node).unwrap();
    place as u32
}

// The setting of a tag in the state with an id.
pub(crate) fn setting_at(nodes: &IndexSet<Node>, id: u32, tag: u32) -> Option<Setting>
    requires kept { AreShared nodes.now.keys }
    requires given { id < length nodes.now.keys }
    ensures { result ≡ setting_of (at_id nodes.now.keys id) tag }
{
    let mut at = id;
    let mut rest = tag;
    while at > 0 {
        let node = node_at(nodes, at);
        if node.tag == rest {
            return node.setting;
        }
        at = if rest % 2 == 1 { node.odd } else { node.even };
        rest = rest / 2;
    }
    None
}

// Two settings by their tags.
fn in_order(a: TagSetting, b: TagSetting) -> (TagSetting, TagSetting)
    requires { a.tag ≡ b.tag → ⊥ }
    ensures { IsInOrder a b result.0 result.1 }
{
    if a.tag < b.tag { (a, b) } else { (b, a) }
}

// Keeps the state that has one more setting than the one with an id, and answers its id. All tags are less than two to the
// power of the levels.
pub(crate) fn put(nodes: &mut IndexSet<Node>, id: u32, new: TagSetting, levels: u32) -> u32
    requires kept { AreShared nodes.old.keys }
    requires given { id < length nodes.old.keys }
    requires small { new.tag < 2 ^ 32 }
    requires levels { new.tag < 2 ^ levels }
    requires within { (t : ℕ) → IsThere (at_id nodes.old.keys id) t → t < 2 ^ levels }
    requires room { levels < spare nodes.old }
    requires few { length nodes.old.keys + levels < 2 ^ 32 }
    ensures kept { AreShared nodes.new.keys }
    ensures more { HasMore nodes.old.keys nodes.new.keys }
    ensures given { result < length nodes.new.keys }
    ensures settings { (t : ℕ) → setting_of (at_id nodes.new.keys result) t ≡ with_setting new.tag new.setting (at_id nodes.old.keys id) t }
    ensures below { (n : ℕ) → AreBelow n nodes.old.keys → new.tag < n → AreBelow n nodes.new.keys }
    ensures len { length nodes.new.keys ≤ length nodes.old.keys + (levels + 1) }
    ensures room { spare nodes.old ≤ spare nodes.new + (levels + 1) }
{
    let node = node_at(nodes, id);
    let Some(setting) = node.setting else {
        let alone = Node {
            tag: new.tag,
            setting: Some(new.setting),
            odd: 0,
            even: 0,
        };
        return add(nodes, alone);
    };
    if new.tag == node.tag {
        let changed = Node {
            tag: node.tag,
            setting: Some(new.setting),
            odd: node.odd,
            even: node.even,
        };
        return add(nodes, changed);
    }
    let old = TagSetting {
        tag: node.tag,
        setting,
    };
    let (top, low) = in_order(new, old);
    let part = TagSetting {
        tag: low.tag / 2,
        setting: low.setting,
    };
    if low.tag % 2 == 1 {
        let odd = put(nodes, node.odd, part, levels - 1);
        let above = Node {
            tag: top.tag,
            setting: Some(top.setting),
            odd,
            even: node.even,
        };
        return add(nodes, above);
    }
    let even = put(nodes, node.even, part, levels - 1);
    let above = Node {
        tag: top.tag,
        setting: Some(top.setting),
        odd: node.odd,
        even,
    };
    add(nodes, above)
}
