// Plans of a reverted group and of a reverted insertion, also over a text that no site has: a character that the group removed
// is there. What an undo of a site plans is told by the operations that it makes (rt_tests_script).
ghost use Rattle.std.specs.Prelude.{◌≡◌, ◌<◌, [], ◌∷◌, IfOk, false, length};
ghost use Rattle.rt_store.specs.Cells.{final_cell};
ghost use Rattle.rt_store.specs.ListStore.{list_cells};
ghost use Rattle.rt_undo.specs.Actions.{group_of};
ghost use Rattle.rt_revert.specs.Plans.{AreGiven, named_group};
ghost use Rattle.rt_revert.specs.ReversionLaws.{AllMayRevert};

use crate::checks::same;
use rt_plans::Author;
use rt_revert::losses::planned_losses;
use rt_revert::{Return, Reversal, planned_reversion};
use rt_rga::Draft;
use rt_stamps::{Fault, Site, Span, Stamp};
use rt_store::{Cell, ListStore, TextStore};
use rt_tags::{StateId, StateTable};
use rt_undo::{Action, Kind, RemovedSpan};
use std::alloc::Global;
use std::process::Abort;
use std::test::Fail;

// A character of site 1 without tags.
fn cell(count: u64, ch: char, gone: bool) -> Cell<StateId>
    ensures { result ≡ record { stamp = record { count = count; site = 1 }; ch = ch; gone = gone; state = 0 } }
{
    Cell {
        stamp: Stamp { count, site: 1 },
        ch,
        gone,
        state: StateId::EMPTY,
    }
}

// The text `ab`, of which the `b` may be gone.
#[tactic(auto, using(rt_store::proofs::GivenStates::spliced_states, rt_store::proofs::GivenStates::one_state))]
fn text(alloc: Global, states: &StateTable, gone: bool) -> Result<ListStore, Fault>
    requires { 0 < length states.now.states }
    ensures { IfOk result (λ store. list_cells store
        ≡ record { stamp = record { count = 1; site = 1 }; ch = 97; gone = false; state = 0 }
        ∷ record { stamp = record { count = 2; site = 1 }; ch = 98; gone = gone; state = 0 } ∷ final_cell ∷ []) }
{
    let mut store = ListStore::new(alloc)?;
    store.reserve(2, 2, states.tags())?;
    store.splice(states, 0, &[cell(2, 'b', gone)]);
    store.splice(states, 0, &[cell(1, 'a', false)]);
    Ok(store)
}

// Stamps of site 1.
fn span(first: u64, last: u64) -> Span
    ensures { result ≡ record { site = 1; first = first; last = last } }
{
    Span {
        site: 1,
        first,
        last,
    }
}

// Characters of site 1 are typed.
fn typed(alloc: Global, first: u64, last: u64) -> Result<Action, Fault>
    ensures number { IfOk result (λ action. action.number ≡ first) }
    ensures inserted { IfOk result (λ action. action.inserted.items ≡ record { site = 1; first = first; last = last } ∷ []) }
    ensures removed { IfOk result (λ action. action.removed.items ≡ []) }
{
    let mut inserted = Vec::new(alloc);
    inserted.push(span(first, last))?;
    Ok(Action {
        number: first,
        kind: Kind::Insert,
        inserted,
        removed: Vec::new(alloc),
    })
}

// Characters of site 1, which had no tags, are removed.
fn cut(alloc: Global, number: u64, first: u64, last: u64) -> Result<Action, Fault>
    ensures number { IfOk result (λ action. action.number ≡ number) }
    ensures inserted { IfOk result (λ action. action.inserted.items ≡ []) }
    ensures removed { IfOk result (λ action. action.removed.items
        ≡ record { span = record { site = 1; first = first; last = last }; state = 0 } ∷ []) }
{
    let mut removed = Vec::new(alloc);
    removed.push(RemovedSpan {
        span: span(first, last),
        state: StateId::EMPTY,
    })?;
    Ok(Action {
        number,
        kind: Kind::Delete,
        inserted: Vec::new(alloc),
        removed,
    })
}

// `ab` was typed, and `b` removed.
fn typing_and_cutting(alloc: Global) -> Result<Vec<Action>, Fault>
    ensures given { IfOk result (λ group. AreGiven (record { names = []; states = [] ∷ [] }) (group_of group.items)) }
    ensures sound { IfOk result (λ group. AllMayRevert (named_group (record { names = []; states = [] ∷ [] }) (group_of group.items))) }
{
    let mut group = Vec::new(alloc);
    group.push(typed(alloc, 1, 2)?)?;
    group.push(cut(alloc, 3, 2, 2)?)?;
    Ok(group)
}

// The plan of a group in `ab`, of which the `b` may be gone, by a site whose greatest count is 3.
fn planned(alloc: Global, site: Site, gone: bool, group: &[Action]) -> Result<Reversal, Fault>
    requires given { AreGiven (record { names = []; states = [] ∷ [] }) (group_of group.now) }
    requires sound { AllMayRevert (named_group (record { names = []; states = [] ∷ [] }) (group_of group.now)) }
{
    let states = StateTable::new(alloc)?;
    let store = text(alloc, &states, gone)?;
    let mut kept = StateTable::new(alloc)?;
    let copy = ListStore::new(alloc)?;
    let author = Author { site, count: 3 };
    planned_reversion(alloc, &store, &states, copy, author, group, &mut kept)
}

// Which operations there are.
fn operations(drafts: &[Draft]) -> &'static str {
    match drafts {
        [Draft::Delete { .. }] => "delete",
        [Draft::Insert { .. }, Draft::Delete { .. }] => "insert, delete",
        _ => "others",
    }
}

// Stops a test where the reverted group makes other operations, or other characters come back.
fn comes_back(
    rt: &impl Abort,
    alloc: Global,
    gone: bool,
    wanted: &str,
    returns: &[Return],
) -> Result<(), Fail> {
    let site = Site::new(1).ok_or("a site")?;
    let group = typing_and_cutting(alloc)?;
    let plan = planned(alloc, site, gone, &group)?;
    let mut drafts = Vec::new(alloc);
    plan.drafts.move_to(&mut drafts)?;
    same(rt, operations(&drafts), wanted);
    same(rt, plan.returns.as_slice(), returns);
    Ok(())
}

// Stops a test where others go of the characters of `ab`, of which the `b` is named first, and may be gone.
fn goes(rt: &impl Abort, alloc: Global, gone: bool, wanted: Span) -> Result<(), Fault> {
    let states = StateTable::new(alloc)?;
    let store = text(alloc, &states, gone)?;
    let spans = [span(2, 2), span(1, 1)];
    let losses = planned_losses(alloc, &store, &states, &spans)?;
    let removed = RemovedSpan {
        span: wanted,
        state: StateId::EMPTY,
    };
    same(rt, losses.removed.as_slice(), [removed].as_slice());
    same(rt, losses.drafts.len(), 1);
    Ok(())
}

const RETURNS: &[Return] = &[Return {
    former: Stamp { count: 2, site: 1 },
    newer: Stamp { count: 4, site: 1 },
}];

// A removed character that is gone comes back, under another stamp; one that is there doesn't.
#[test]
fn what_comes_back_and_goes(rt: HostRuntime) -> Result<(), Fail> {
    comes_back(&rt, rt.alloc(), true, "insert, delete", RETURNS)?;
    comes_back(&rt, rt.alloc(), false, "delete", &[])?;
    goes(&rt, rt.alloc(), true, span(1, 1))?;
    goes(&rt, rt.alloc(), false, span(1, 2))?;
    Ok(())
}
