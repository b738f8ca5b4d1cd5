// Text without a list, behind the pieces that are planned.
ghost use Rattle.std.specs.Prelude.{◌≡◌, ◌⊎◌, ◌+◌, ◌<◌, ◌≤◌, ◌++◌, ◌&&◌, ◌||◌, [], IfOk, IfErr, IsOkUnless, IfSome, OnOk, List, None, Some, filter, is_some, length, map, option_map, if◌then◌else◌};
ghost use Rattle.std.specs.Str.{chars};
ghost use Rattle.rt_stamps.specs.declared.limits.TheConstants.{GREATEST_COUNT, MOST_CHARACTERS};
ghost use Rattle.rt_stamps.specs.declared.stamp.Stamp.{Stamp};
ghost use Rattle.rt_stamps.specs.Words.{Word, as_words};
ghost use Rattle.rt_ops.specs.Edits.{body_of};
ghost use Rattle.rt_rga.specs.OneOrMany.{items_in};
ghost use Rattle.rt_store.specs.Shown.{TaggedCell, shown};
ghost use Rattle.rt_store.specs.Spans.{is_among};
ghost use Rattle.rt_tags.specs.States.{IsState, is_on, names_on, state_at};
ghost use Rattle.rt_plans.specs.declared.inserting.Plan.{Plan};
ghost use Rattle.rt_plans.specs.InsertionDrafts.{last_element, text_drafts};
ghost use Rattle.rt_plans.specs.InsertionPlans.{Plans};
ghost use Rattle.rt_plans.specs.Insertions.{Insertion, counts_for, on_left, tags_between, with_unlisted};
ghost use Rattle.rt_plans.specs.PlannedPieces.{ArePlanned, AreSoFar};
ghost use Rattle.rt_plans.specs.Selected.{selected_stamps};
ghost use Rattle.rt_plans.specs.Selections.{with_stamps};

use crate::inserting::{Between, Gap};
use crate::lists::{characters_of, tags_of_both};
use crate::pieces::{PlannedPieces, names_of};
use crate::stamps::select_new;
use crate::{Selection, Stamps};
use rt_stamps::{Fault, Site, Stamp};
use rt_store::Cell;
use rt_tags::{StateId, StateTable};
use std::alloc::Global;

// Whether the tag of a name is on in a state.
fn is_on(states: &StateTable, name: &str, state: StateId) -> bool
    requires { IsState states.now state }
    ensures { result ≡ is_on name.now (state_at states.now state) }
{
    match states.known(name) {
        Some(tag) => states.has(state, tag),
        None => false,
    }
}

// Those of some names that are on in a state.
fn names_also(
    alloc: Global,
    states: &StateTable,
    names: &[String],
    state: StateId,
) -> Result<Vec<String>, Fault>
    requires { IsState states.now state }
    ensures ok { IfOk result (λ v. as_words v.items
        ≡ filter (λ name. is_on name (state_at states.now state)) (as_words names.now)) }
    ensures err { IsOkUnless result Fault.NoMemory }
{
    let mut both = Vec::new(alloc);
    for name in names {
        if is_on(states, name, state) {
            both.push(name.clone()?)?;
        }
    }
    Ok(both)
}

// The names of the tags between two cells that are there.
fn names_of_both(
    alloc: Global,
    states: &StateTable,
    left: Option<Cell<StateId>>,
    right: Cell<StateId>,
) -> Result<Vec<String>, Fault>
    requires left { IfSome left (λ cell. IsState states.now cell.state) }
    requires right { IsState states.now right.state }
    ensures ok { IfOk result (λ v. as_words v.items
        ≡ tags_between (option_map (shown states.now) left) (Some (shown states.now right))) }
    ensures err { IsOkUnless result Fault.NoMemory }
{
    match left {
        Some(left) => {
            let tags = tags_of_both(alloc, states, left.state, right.state)?;
            names_of(alloc, states, &tags)
        }
        None => Ok(Vec::new(alloc)),
    }
}

impl PlannedPieces {
    // The tags of text without a list, behind the pieces, or where these have no text a left neighbour: none
    // without a right one.
    fn names_between(
        &self,
        alloc: Global,
        states: &StateTable,
        left: Option<Cell<StateId>>,
        right: Option<Cell<StateId>>,
    ) -> Result<Vec<String>, Fault>
        requires left { IfSome left (λ cell. IsState states.now cell.state) }
        requires right { IfSome right (λ cell. IsState states.now cell.state) }
        ensures ok { IfOk result (λ v. (cells : List TaggedCell)
            → option_map (λ names. as_words names.items) self.now.last ≡ option_map (λ cell. names_on cell.state) (on_left None cells)
            → as_words v.items ≡ tags_between (on_left (option_map (shown states.now) left) cells) (option_map (shown states.now) right)) }
        ensures err { IsOkUnless result Fault.NoMemory }
    {
        let Some(right) = right else {
            return Ok(Vec::new(alloc));
        };
        match &self.last {
            Some(names) => names_also(alloc, states, names, right.state),
            None => names_of_both(alloc, states, left, right),
        }
    }

    // Whether there is a character before further text, in the pieces or before them.
    fn has_left(&self, left: &Option<Cell<StateId>>) -> bool
        ensures { result ≡ (is_some self.now.last || is_some left.now) }
    {
        self.last.is_some() || left.is_some()
    }

    // The characters on both sides of further text, where there are both.
    fn sides(
        &self,
        left: &Option<Cell<StateId>>,
        right: &Option<Cell<StateId>>,
    ) -> Option<(Stamp, Stamp)>
        ensures { result ≡ (if is_some self.now.last || is_some left.now
            then option_map (λ cell. (self.now.texts.behind, cell.stamp)) right.now else None) }
    {
        if !self.has_left(left) {
            return None;
        }
        match right {
            Some(cell) => Some((self.texts.behind, cell.stamp)),
            None => None,
        }
    }

    // Whether two characters are both selected already, or after the insertion.
    #[inline(always)]
    fn selects_both(&self, selection: &Selection, left: Stamp, right: Stamp) -> bool
        ensures both { result ≡ (is_among (with_stamps self.now.selected.items (selected_stamps selection.now)) left
            && is_among (with_stamps self.now.selected.items (selected_stamps selection.now)) right) }
    {
        self.selects(selection, left) && self.selects(selection, right)
    }

    // Whether a character is selected already, or after the insertion.
    #[inline(always)]
    fn selects(&self, selection: &Selection, stamp: Stamp) -> bool
        ensures { result ≡ is_among (with_stamps self.now.selected.items (selected_stamps selection.now)) stamp }
    {
        selection.has(stamp) || self.selected.contains(&stamp)
    }

    /// Adds text without a list behind the pieces, or where they have no text, behind the left neighbour of a
    /// gap, and answers the characters that stand between two others. Without a right neighbour the text
    /// has no tags and isn't selected. `ClockSpent`, or want of memory.
    pub(crate) fn add_unlisted(
        &mut self,
        alloc: Global,
        states: &StateTable,
        site: Site,
        selection: &Selection,
        gap: &Gap,
        rest: &str,
    ) -> Result<Option<Between>, Fault>
        requires count { self.old.texts.count ≤ GREATEST_COUNT }
        requires characters { self.old.characters ≤ self.old.texts.count }
        requires left { IfSome gap.now.left (λ cell. IsState states.now cell.state) }
        requires right { IfSome gap.now.right (λ cell. IsState states.now cell.state) }
        ensures drafts { OnOk result ((after : Stamp) (sel : List Stamp) (listed : List Word) (so_far : Insertion)
            → IfSome gap.now.right (λ cell. sel ≡ selected_stamps selection.now) → AreSoFar after sel listed self.old so_far
            → map body_of (items_in self.new.texts.drafts)
            ≡ map body_of (items_in self.old.texts.drafts) ++ text_drafts MOST_CHARACTERS site.number so_far.count (last_element after so_far.cells)
            (tags_between (on_left (option_map (shown states.now) gap.now.left) so_far.cells) (option_map (shown states.now) gap.now.right)) (chars rest.now)) }
        ensures plans { IfOk result (λ between. (plan : Plan) (after : Stamp) (sel : List Stamp) (listed : List Word) (so_far : Insertion)
            → IfSome gap.now.right (λ cell. sel ≡ selected_stamps selection.now) → AreSoFar after sel listed self.old so_far
            → IfSome gap.now.left (λ cell. after ≡ cell.stamp) → ArePlanned plan self.new between
            → Plans plan sel so_far.others listed (with_unlisted site.number
            (on_left (option_map (shown states.now) gap.now.left) so_far.cells) (option_map (shown states.now) gap.now.right) (chars rest.now) so_far)) }
        ensures alone { IfOk result (λ between. gap.now.right ≡ None → between ≡ None) }
        ensures err { IfErr result (λ fault. (fault ≡ Fault.NoMemory) ⊎ ((fault ≡ Fault.ClockSpent)
            × ((after : Stamp) (sel : List Stamp) (listed : List Word) (so_far : Insertion)
            → IfSome gap.now.right (λ cell. sel ≡ selected_stamps selection.now) → AreSoFar after sel listed self.old so_far
            → GREATEST_COUNT < so_far.count + counts_for
            (tags_between (on_left (option_map (shown states.now) gap.now.left) so_far.cells) (option_map (shown states.now) gap.now.right))
            (chars rest.now)))) }
    {
        let text = characters_of(alloc, rest)?;
        let characters = text.characters();
        if characters.is_empty() {
            return Ok(None);
        }
        let sides = self.sides(&gap.left, &gap.right);
        let count = self.texts.count;
        let names = self.names_between(alloc, states, gap.left, gap.right)?;
        self.add_text(alloc, site, &names, characters)?;
        let Some((before, after)) = sides else {
            return Ok(None);
        };
        let asked = self.selects_both(selection, before, after);
        select_new(&mut self.selected, asked, site, count, &names, characters)?;
        let stamps = Stamps::of(alloc, site, count, &names, characters)?;
        Ok(Some(Between {
            left: before,
            right: after,
            stamps,
        }))
    }
}
