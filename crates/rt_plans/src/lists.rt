// Lists of tags, and the characters of a text.
ghost use Rattle.std.specs.Prelude.{◌≡◌, ◌≢◌, ◌++◌, ◌∷◌, [], All, IfNone, IfOk, IsOkUnless, IfSome, OnOk, false, length, map, filter, not};
ghost use Rattle.std.specs.Str.{bytes_eq, chars};
ghost use Rattle.rt_stamps.specs.Words.{as_words};
ghost use Rattle.rt_tags.specs.States.{IsState, IsTag, KeepsIds, is_on, name_at, names_on, state_at};
ghost use Rattle.rt_tags.specs.Tags.{is_listed, sel};
ghost use Rattle.rt_plans.specs.Insertions.{shared_names};

use rt_oplog::Text;
use rt_stamps::Fault;
use rt_tags::{StateId, StateTable, TagId};
use std::alloc::Global;

// Adds the tag of a name, but for `sel`.
fn push_tag(states: &mut StateTable, tags: &mut Vec<TagId>, name: &str) -> Result<(), Fault>
    requires { All (IsTag states.old) tags.old.items }
    ensures ok { OnOk result (map (name_at states.new) tags.new.items ≡ map (name_at states.old) tags.old.items
        ++ filter (λ name. not (bytes_eq name sel)) (name.now ∷ [])) }
    ensures given { OnOk result (All (IsTag states.new) tags.new.items) }
    ensures ids { KeepsIds states.old states.new }
    ensures err { IsOkUnless result Fault.NoMemory }
{
    if name == "sel" {
        return Ok(());
    }
    let tag = states.number(name)?;
    tags.push(tag)?;
    Ok(())
}

// The tags of a list in turn, but for `sel`.
fn tags_of_list(
    alloc: Global,
    states: &mut StateTable,
    names: &[String],
) -> Result<Vec<TagId>, Fault>
    ensures ok { IfOk result (λ tags. map (name_at states.new) tags.items ≡ filter
        (λ name. not (bytes_eq name sel)) (as_words names.now)) }
    ensures given { IfOk result (λ tags. All (IsTag states.new) tags.items) }
    ensures ids { KeepsIds states.old states.new }
    ensures err { IsOkUnless result Fault.NoMemory }
{
    let mut tags = Vec::new(alloc);
    for name in names {
        push_tag(states, &mut tags, name)?;
    }
    Ok(tags)
}

/// The tags of a list by their names' bytes, each once, but for `sel`. Want of memory; then the table
/// keeps what it gave out.
pub(crate) fn shared_tags(
    alloc: Global,
    states: &mut StateTable,
    names: &[String],
) -> Result<Vec<TagId>, Fault>
    ensures ok { IfOk result (λ tags. map (name_at states.new) tags.items ≡ shared_names (as_words names.now)) }
    ensures given { IfOk result (λ tags. All (IsTag states.new) tags.items) }
    ensures ids { KeepsIds states.old states.new }
    ensures err { IsOkUnless result Fault.NoMemory }
{
    let tags = tags_of_list(alloc, states, names)?;
    states.in_order(&tags)
}

/// The tags that two states share, by their names' bytes. Want of memory.
pub(crate) fn tags_of_both(
    alloc: Global,
    states: &StateTable,
    left: StateId,
    right: StateId,
) -> Result<Vec<TagId>, Fault>
    requires left { IsState states.now left }
    requires right { IsState states.now right }
    ensures ok { IfOk result (λ tags. map (name_at states.now) tags.items
        ≡ filter (λ name. is_on name (state_at states.now right)) (names_on (state_at states.now left))) }
    ensures given { IfOk result (λ tags. All (IsTag states.now) tags.items) }
    ensures err { IsOkUnless result Fault.NoMemory }
{
    let on = states.on(left)?;
    let mut both = Vec::new(alloc);
    for tag in on.as_slice() {
        if states.has(right, *tag) {
            both.push(*tag)?;
        }
    }
    Ok(both)
}

/// The only character of a text, if it has one and no more.
#[inline(always)]
pub(crate) fn only_char(text: &str) -> Option<char>
    ensures only { IfSome result (λ ch. chars text.now ≡ ch ∷ []) }
    ensures none { IfNone result (length (chars text.now) ≢ 1) }
{
    let mut characters = text.chars();
    let first = characters.next()?;
    match characters.next() {
        Some(_) => None,
        None => Some(first),
    }
}

/// The characters of a text. A single one takes no memory.
#[inline(always)]
pub(crate) fn characters_of(alloc: Global, text: &str) -> Result<Text, Fault>
    ensures ok { IfOk result (λ all. all ≡ chars text.now) }
    ensures err { IsOkUnless result Fault.NoMemory }
{
    if let Some(ch) = only_char(text) {
        return Ok(Text::of(ch));
    }
    let all: Vec<char> = text.chars().collect(alloc)?;
    Ok(Text::new(all))
}

/// Whether a list names `sel`.
pub(crate) fn names_sel(names: &[String]) -> bool
    ensures { result ≡ is_listed sel (as_words names.now) }
{
    for name in names {
        if name.as_str() == "sel" {
            return true;
        }
    }
    false
}
