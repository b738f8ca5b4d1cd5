// What an insertion comes to, as the operations that it makes.
ghost use Rattle.std.specs.Prelude.{◌≡◌, ◌⊎◌, ◌<◌, ◌≤◌, ◌&&◌, ◌∷◌, [], ℕ, List, None, Some, IfNone, IfOk, IfErr, IfSome, IsSomeAnd, false, length, map, option_map};
ghost use Rattle.std.specs.Str.{chars};
ghost use Rattle.rt_stamps.specs.declared.limits.TheConstants.{GREATEST_COUNT, MOST_CHARACTERS};
ghost use Rattle.rt_stamps.specs.declared.stamp.Stamp.{Stamp};
ghost use Rattle.rt_stamps.specs.Words.{Word};
ghost use Rattle.rt_ops.specs.Edits.{body_of};
ghost use Rattle.rt_rga.specs.Drafts.{one_character};
ghost use Rattle.rt_rga.specs.OneOrMany.{items_in};
ghost use Rattle.rt_store.specs.declared.cell.Cell.{Cell};
ghost use Rattle.rt_store.specs.Shown.{shown};
ghost use Rattle.rt_store.specs.Spans.{is_among};
ghost use Rattle.rt_tags.specs.States.{IsState, names_on, state_at};
ghost use Rattle.rt_plans.specs.InsertionDrafts.{insertion_drafts};
ghost use Rattle.rt_plans.specs.InsertionPlans.{Plans, with_typed};
ghost use Rattle.rt_plans.specs.Insertions.{Insertion, insertion_of};
ghost use Rattle.rt_plans.specs.Selected.{selected_stamps};

use crate::inserts::Inserts;
use crate::lists::only_char;
use crate::pieces::PlannedPieces;
use crate::plain::{plain_plan, plain_sides};
use crate::{Author, Piece, Selection, Stamps};
use rt_rga::{Draft, OneOrMany};
use rt_stamps::limits::GREATEST_COUNT;
use rt_stamps::{Fault, Stamp};
use rt_store::Cell;
use rt_tags::{StateId, StateTable};
use std::alloc::Global;

/// Where new text goes: the element that it comes behind, and its neighbours, whose tags it gets where both have them. The
/// element is the left neighbour's where there is one.
#[derive(Clone, Copy)]
pub struct Gap {
    pub after: Stamp,
    pub left: Option<Cell<StateId>>,
    pub right: Option<Cell<StateId>>,
}

/// What typing mostly comes to: a character between two neighbours.
#[derive(Clone, Copy)]
pub struct Typed {
    pub left: Stamp,
    pub right: Stamp,
    pub character: char,
}

/// Characters between two others that are there.
#[derive(Drop)]
pub struct Between {
    pub left: Stamp,
    pub right: Stamp,
    pub stamps: Stamps,
}

/// What pieces of text come to: their operations in turn, how many new characters there are, those that
/// the commanding widget selects, the tags to list in turn, and the characters that other widgets
/// select where they have both neighbours.
pub struct Plan {
    pub drafts: OneOrMany<Draft>,
    pub characters: usize,
    pub selected: Vec<Stamp>,
    pub names: Vec<String>,
    pub between: Option<Between>,
}

// Written out, so that where it is let go is one step for the crates above, and not one for each
// field of each field.
impl Drop for Plan {
    #[inline(always)]
    fn drop(self) {
        let Plan {
            drafts: _,
            characters: _,
            selected: _,
            names: _,
            between: _,
        } = self;
    }
}

/// The plan of pieces, and then characters without a list, in a gap, as the operations of an author.
/// Without a right neighbour, or without a left one and pieces, the characters without a list get no
/// tags, and are nowhere selected; without a right one the selection may be any. `ClockSpent` where the
/// counts would pass `GREATEST_COUNT`, or want of memory.
pub fn planned_between(
    alloc: Global,
    states: &StateTable,
    author: Author,
    selection: &Selection,
    gap: &Gap,
    pieces: &[Piece],
    rest: &str,
) -> Result<Plan, Fault>
    requires left { IfSome gap.now.left (λ cell. IsState states.now cell.state) }
    requires right { IfSome gap.now.right (λ cell. IsState states.now cell.state) }
    requires after { IfSome gap.now.left (λ cell. gap.now.after ≡ cell.stamp) }
    requires count { author.count ≤ GREATEST_COUNT }
    ensures drafts { IfOk result (λ plan. (sel : List Stamp) (others : List (List Stamp)) (tags : List Word)
        → IfSome gap.now.right (λ cell. sel ≡ selected_stamps selection.now) → map body_of (items_in plan.drafts)
        ≡ insertion_drafts MOST_CHARACTERS author.site.number gap.now.after
        (option_map (shown states.now) gap.now.left) (option_map (shown states.now) gap.now.right) pieces.now rest.now
        (record { cells = []; count = author.count; sel = sel; others = others; tags = tags })) }
    ensures plans { IfOk result (λ plan. (sel : List Stamp) (others : List (List Stamp)) (tags : List Word)
        → IfSome gap.now.right (λ cell. sel ≡ selected_stamps selection.now) → Plans plan sel others tags
        (insertion_of author.site.number (option_map (shown states.now) gap.now.left) (option_map (shown states.now) gap.now.right) pieces.now rest.now
        (record { cells = []; count = author.count; sel = sel; others = others; tags = tags }))) }
    ensures alone { IfOk result (λ plan. gap.now.right ≡ None → plan.between ≡ None) }
    ensures err { IfErr result (λ fault. (fault ≡ Fault.NoMemory)
        ⊎ ((fault ≡ Fault.ClockSpent) × ((sel : List Stamp) (others : List (List Stamp)) (tags : List Word)
        → IfSome gap.now.right (λ cell. sel ≡ selected_stamps selection.now) → GREATEST_COUNT
        < (insertion_of author.site.number (option_map (shown states.now) gap.now.left) (option_map (shown states.now) gap.now.right) pieces.now rest.now
        (record { cells = []; count = author.count; sel = sel; others = others; tags = tags })).count))) }
{
    let Author { site, count } = author;
    // What typing comes to is told at once.
    if let Some(typed) = typed_between(states, count, selection, gap, pieces, rest) {
        return Ok(plain_plan(alloc, site, count, gap.after, typed));
    }
    let mut all = match PlannedPieces::of(alloc, site, count, gap.after, pieces) {
        Ok(all) => all,
        Err(fault) => return Err(fault),
    };
    let between = all.add_unlisted(alloc, states, site, selection, gap, rest)?;
    let PlannedPieces {
        texts,
        characters,
        selected,
        names,
        last: _,
    } = all;
    let Inserts { drafts, .. } = texts;
    Ok(Plan {
        drafts,
        characters,
        selected,
        names,
        between,
    })
}

/// What typing mostly comes to, told at once: one character, no pieces, a left neighbour without tags and a right one, not both
/// selected, and a count left. `None` otherwise. It takes no memory.
#[inline(always)]
pub fn typed_between(
    states: &StateTable,
    count: u64,
    selection: &Selection,
    gap: &Gap,
    pieces: &[Piece],
    rest: &str,
) -> Option<Typed>
    requires left { IfSome gap.now.left (λ cell. IsState states.now cell.state) }
    ensures drafts { IfSome result (λ typed. (site : ℕ) (after : Stamp) (sel : List Stamp) (others : List (List Stamp)) (tags : List Word)
        → insertion_drafts MOST_CHARACTERS site after
        (option_map (shown states.now) gap.now.left) (option_map (shown states.now) gap.now.right) pieces.now rest.now
        (record { cells = []; count = count; sel = sel; others = others; tags = tags })
        ≡ one_character after typed.character) }
    ensures comes { IfSome result (λ typed. (site : ℕ) (others : List (List Stamp)) (tags : List Word)
        → let start : Insertion = record { cells = []; count = count; sel = selected_stamps selection.now; others = others; tags = tags } in
        insertion_of site (option_map (shown states.now) gap.now.left) (option_map (shown states.now) gap.now.right) pieces.now rest.now start
        ≡ with_typed site typed start) }
    ensures only { IfSome result (λ typed. (pieces.now ≡ []) × (chars rest.now ≡ typed.character ∷ []) × (count < GREATEST_COUNT)) }
    ensures sides { IfSome result (λ typed. IsSomeAnd gap.now.left (λ l. IsSomeAnd gap.now.right (λ r. (typed.left ≡ l.stamp) × (typed.right ≡ r.stamp)
        × (names_on (state_at states.now l.state) ≡ [])
        × ((is_among (selected_stamps selection.now) l.stamp && is_among (selected_stamps selection.now) r.stamp) ≡ false)))) }
    ensures told { IfNone result ((l r : Cell ℕ) → gap.now.left ≡ Some l → gap.now.right ≡ Some r
        → pieces.now ≡ [] → length (chars rest.now) ≡ 1 → count < GREATEST_COUNT
        → names_on (state_at states.now l.state) ≡ []
        → (is_among (selected_stamps selection.now) l.stamp && is_among (selected_stamps selection.now) r.stamp) ≡ false → ⊥) }
{
    if pieces.is_empty() && count < GREATEST_COUNT {
        if let Some(character) = only_char(rest) {
            if let Some((one, other)) = plain_sides(states, selection, &gap.left, &gap.right) {
                return Some(Typed {
                    left: one,
                    right: other,
                    character,
                });
            }
        }
    }
    None
}
