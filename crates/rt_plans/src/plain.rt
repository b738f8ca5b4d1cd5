// One character as typing makes it: without a list, between two others that have no tag in common.
ghost use Rattle.std.specs.Prelude.{◌≡◌, ◌+◌, ◌<◌, ◌&&◌, ◌∷◌, [], ℕ, List, None, Some, IfNone, IfSome, IsSomeAnd, false, map, option_map};
ghost use Rattle.rt_stamps.specs.declared.stamp.Stamp.{Stamp};
ghost use Rattle.rt_stamps.specs.Words.{Word};
ghost use Rattle.rt_ops.specs.Edits.{body_of};
ghost use Rattle.rt_rga.specs.Drafts.{one_character};
ghost use Rattle.rt_rga.specs.OneOrMany.{items_in};
ghost use Rattle.rt_store.specs.declared.cell.Cell.{Cell};
ghost use Rattle.rt_store.specs.Shown.{shown};
ghost use Rattle.rt_store.specs.Spans.{is_among};
ghost use Rattle.rt_tags.specs.States.{IsState, names_on, state_at};
ghost use Rattle.rt_plans.specs.InsertionPlans.{Plans, with_typed};
ghost use Rattle.rt_plans.specs.Insertions.{are_among, tags_between};
ghost use Rattle.rt_plans.specs.Selected.{selected_stamps};

use crate::inserting::{Between, Plan, Typed};
use crate::{Selection, Stamps};
use rt_oplog::Text;
use rt_rga::{Draft, OneOrMany};
use rt_stamps::{Site, Stamp};
use rt_store::Cell;
use rt_tags::{StateId, StateTable};
use std::alloc::Global;

/// Two neighbours, if both are there, the left one has no tags, and not both are selected. What is between them then gets no
/// tags, and isn't selected.
#[inline(always)]
pub(crate) fn plain_sides(
    states: &StateTable,
    selection: &Selection,
    left: &Option<Cell<StateId>>,
    right: &Option<Cell<StateId>>,
) -> Option<(Stamp, Stamp)>
    requires left { IfSome left.now (λ cell. IsState states.now cell.state) }
    ensures tags { IfSome result (λ _. tags_between (option_map (shown states.now) left.now) (option_map (shown states.now) right.now) ≡ []) }
    ensures selected { IfSome result (λ _.
        are_among (selected_stamps selection.now) (option_map (shown states.now) left.now) (option_map (shown states.now) right.now) ≡ false) }
    ensures sides { IfSome result (λ sides. (stamps : List Stamp)
        → are_among stamps (option_map (shown states.now) left.now) (option_map (shown states.now) right.now)
        ≡ (is_among stamps sides.0 && is_among stamps sides.1)) }
    ensures plain { IfSome result (λ sides. IsSomeAnd left.now (λ l. IsSomeAnd right.now (λ r. (sides.0 ≡ l.stamp) × (sides.1 ≡ r.stamp)
        × (names_on (state_at states.now l.state) ≡ [])
        × ((is_among (selected_stamps selection.now) l.stamp && is_among (selected_stamps selection.now) r.stamp) ≡ false)))) }
    ensures none { IfNone result ((l r : Cell ℕ) → left.now ≡ Some l → right.now ≡ Some r
        → names_on (state_at states.now l.state) ≡ []
        → (is_among (selected_stamps selection.now) l.stamp && is_among (selected_stamps selection.now) r.stamp) ≡ false → ⊥) }
{
    let Some(left) = left else {
        return None;
    };
    let Some(right) = right else {
        return None;
    };
    if !states.has_none(left.state) {
        return None;
    }
    if selection.has(left.stamp) && selection.has(right.stamp) {
        return None;
    }
    Some((left.stamp, right.stamp))
}

/// The plan of a typed character behind an element, with the count after one.
#[inline(always)]
pub(crate) fn plain_plan(alloc: Global, site: Site, count: u64, after: Stamp, typed: Typed) -> Plan
    requires { count < u64.MAX }
    ensures drafts { map body_of (items_in result.drafts) ≡ one_character after typed.character }
    ensures plans { (sel : List Stamp) (others : List (List Stamp)) (tags : List Word) → Plans result sel others tags
        (with_typed site.number typed (record { cells = []; count = count; sel = sel; others = others; tags = tags })) }
{
    Plan {
        drafts: OneOrMany::One(Draft::Insert {
            after,
            tags: Vec::new(alloc),
            text: Text::of(typed.character),
        }),
        characters: 1,
        selected: Vec::new(alloc),
        names: Vec::new(alloc),
        between: Some(Between {
            left: typed.left,
            right: typed.right,
            stamps: Stamps::of_one(site, count + 1),
        }),
    }
}
