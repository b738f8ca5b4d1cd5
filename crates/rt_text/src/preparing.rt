// What an insertion needs, before anything changes.
ghost use Rattle.std.specs.Prelude.{ℕ, List, ◌≡◌, ◌⊎◌, ◌≤◌, ◌||◌, All, IfErr, IsOk, IsOkUnless, OnErr, OnOk, None, Some, true, length, map, string_bytes};
ghost use Rattle.rt_stamps.specs.Outcomes.{first_of};
ghost use Rattle.rt_tags.specs.Tags.{IsName, is_listed, is_ready};
ghost use Rattle.rt_stamps.specs.Names.{name_check};
ghost use Rattle.rt_stamps.specs.Words.{as_words};
ghost use Rattle.rt_text.specs.Commands.{names_in};
ghost use Rattle.rt_plans.specs.DeletionLaws.{IsPiece};
ghost use Rattle.rt_plans.specs.Insertions.{all_listed};
ghost use Rattle.rt_plans.specs.InsertionPlans.{selected_between};
ghost use Rattle.rt_plans.specs.Selected.{room_in, selected_stamps};
ghost use Rattle.rt_text.specs.Widgets.{reselected};
ghost use Rattle.rt_text.specs.Owned.{HaveRoomFor, widget_value};
ghost use Rattle.rt_ops.specs.Edits.{body_of};
ghost use Rattle.rt_rga.specs.Cells.{cells_of};
ghost use Rattle.rt_rga.specs.Drafts.{with_drafts};
ghost use Rattle.rt_rga.specs.OneOrMany.{items_in};
ghost use Rattle.rt_rga.specs.Made.{refusal_of};
ghost use Rattle.rt_rga.specs.Requests.{MayBeMade};

use crate::Widget;
use crate::others::{add_between, reserve_between};
use rt_plans::inserting::{Between, Plan};
use rt_plans::{Piece, Selection};
use rt_rga::{Draft, OneOrMany, Replica};
use rt_stamps::Fault;
use rt_store::TextStore;
use rt_tags::TagTable;

/// Whether all names in the lists of pieces may be names of tags, or why not: then the pieces may be
/// inserted.
pub(crate) fn check_names(pieces: &[Piece]) -> Result<(), Fault>
    ensures ok { OnOk result (first_of (map name_check (names_in pieces.now)) ≡ None) }
    ensures pieces { OnOk result (All IsPiece pieces.now) }
    ensures err { IfErr result (λ fault. first_of (map name_check (names_in pieces.now)) ≡ Some fault) }
{
    for piece in pieces {
        piece.is_text();
        rt_stamps::check_names(piece.tags())?;
    }
    Ok(())
}

/// Prepares tags: to list them takes no memory. It lists nothing, names that were ready stay so, and no
/// others than those that are given become so. Want of memory, and only where one of them isn't ready.
pub(crate) fn prepare_tags(table: &mut TagTable, names: &[String]) -> Result<(), Fault>
    requires { All (λ w. IsName (string_bytes w)) names.now }
    ensures names { table.new.names ≡ table.old.names }
    ensures ready { OnOk result (All (λ w. is_ready (string_bytes w) table.new ≡ true) names.now) }
    ensures kept { (other : List ℕ) → is_ready other table.old ≡ true → is_ready other table.new ≡ true }
    ensures only { (other : List ℕ) → is_ready other table.new ≡ true
        → (is_listed other (as_words names.now) || is_ready other table.old) ≡ true }
    ensures err { IsOkUnless result Fault.NoMemory }
    ensures memory { All (λ w. is_ready (string_bytes w) table.old ≡ true) names.now → IsOk result }
{
    for name in names {
        table.prepare(name)?;
    }
    Ok(())
}

/// Lists tags that were prepared. It takes no memory.
pub(crate) fn list_tags(table: &mut TagTable, names: &[String])
    requires names { All (λ w. IsName (string_bytes w)) names.now }
    requires ready { All (λ w. is_ready (string_bytes w) table.old ≡ true) names.now }
    ensures { table.new.names ≡ all_listed (as_words names.now) table.old.names }
{
    for name in names {
        table.ensure(name).unwrap();
    }
}

// Makes room for characters between two others in the selections that have both.
#[inline(always)]
fn reserve_others(others: &mut [Widget], between: &Option<Between>) -> Result<(), Fault>
    ensures same { map widget_value others.new ≡ map widget_value others.old }
    ensures room { OnOk result (HaveRoomFor between.now others.new) }
    ensures err { IsOkUnless result Fault.NoMemory }
{
    match between {
        Some(between) => {
            let more = between.stamps.as_slice().len();
            reserve_between(others, between.left, between.right, more)
        }
        None => Ok(()),
    }
}

/// Selects characters between two others in the selections that have both. It takes no memory.
#[inline(always)]
pub(crate) fn select_between(others: &mut [Widget], between: &Option<Between>)
    requires { HaveRoomFor between.now others.old }
    ensures { map widget_value others.new ≡ map (reselected (selected_between between.now)) (map widget_value others.old) }
{
    match between {
        Some(between) => {
            let stamps = between.stamps.as_slice();
            add_between(others, between.left, between.right, stamps);
        }
        None => {}
    }
}

// Makes all room that a plan takes beside its operations': nothing else changes. Want of memory.
#[inline(always)]
fn make_room(
    tags: &mut TagTable,
    selection: &mut Selection,
    others: &mut [Widget],
    plan: &Plan,
) -> Result<(), Fault>
    requires { All (λ w. IsName (string_bytes w)) plan.now.names.items }
    ensures tags { tags.new.names ≡ tags.old.names }
    ensures selection { selected_stamps selection.new ≡ selected_stamps selection.old }
    ensures others { map widget_value others.new ≡ map widget_value others.old }
    ensures ready { OnOk result (All (λ w. is_ready (string_bytes w) tags.new ≡ true) plan.now.names.items) }
    ensures selects { OnOk result (length plan.now.selected.items ≤ room_in selection.new) }
    ensures between { OnOk result (HaveRoomFor plan.now.between others.new) }
    ensures err { IsOkUnless result Fault.NoMemory }
{
    prepare_tags(tags, &plan.names)?;
    selection.reserve(plan.selected.len())?;
    reserve_others(others, &plan.between)
}

/// Has a replica make operations, once there is room for all else that a plan takes. Refused as the replica
/// refuses them, or for want of memory, and then nothing changes but what ids the replica has.
#[inline(always)]
pub(crate) fn make_planned<S: TextStore>(
    replica: &mut Replica<S>,
    tags: &mut TagTable,
    selection: &mut Selection,
    others: &mut [Widget],
    drafts: OneOrMany<Draft>,
    plan: &Plan,
) -> Result<(), Fault>
    requires names { All (λ w. IsName (string_bytes w)) plan.now.names.items }
    requires may { MayBeMade replica.old.site replica.old.log (map body_of (items_in drafts)) }
    ensures fits { OnOk result (refusal_of replica.old.limit (map body_of (items_in drafts)) replica.old.log ≡ None) }
    ensures refused { IfErr result (λ fault. (fault ≡ Fault.NoMemory)
        ⊎ (refusal_of replica.old.limit (map body_of (items_in drafts)) replica.old.log ≡ Some fault)) }
    ensures log { OnOk result (replica.new.log ≡ with_drafts replica.old.site (map body_of (items_in drafts)) replica.old.log) }
    ensures cells { OnOk result (replica.new.cells ≡ cells_of replica.new.log) }
    ensures same { OnErr result (replica.new ≡ record replica.old { table = replica.new.table }) }
    ensures site { replica.new.site ≡ replica.old.site }
    ensures limit { replica.new.limit ≡ replica.old.limit }
    ensures tags { tags.new.names ≡ tags.old.names }
    ensures selection { selected_stamps selection.new ≡ selected_stamps selection.old }
    ensures others { map widget_value others.new ≡ map widget_value others.old }
    ensures ready { OnOk result (All (λ w. is_ready (string_bytes w) tags.new ≡ true) plan.now.names.items) }
    ensures selects { OnOk result (length plan.now.selected.items ≤ room_in selection.new) }
    ensures between { OnOk result (HaveRoomFor plan.now.between others.new) }
{
    make_room(tags, selection, others, plan)?;
    replica.commit(drafts)?;
    Ok(())
}
