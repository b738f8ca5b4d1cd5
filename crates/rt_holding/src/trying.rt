// Held operations are tried.
ghost use Rattle.std.specs.Prelude.{◌≡◌, ◌≤◌, ◌||◌, false, true, IfNone, IfOk, IfSome, None, OnErr, OnOk, Some};
ghost use Rattle.std.specs.Map.{remove_entry};
ghost use Rattle.std.specs.BinaryHeap.{heap_items};
ghost use Rattle.std.specs.BTreeMap.{IsOrdered, get, insert_entry, is_at};
ghost use Rattle.std.specs.List.{AllByRecursion};
ghost use Rattle.rt_ops.specs.Operations.{Operation, has_bad_stamp};
ghost use Rattle.rt_oplog.specs.Logs.{holds, with_operation};
ghost use Rattle.rt_rga.specs.Answers.{answer_within};
ghost use Rattle.rt_holding.specs.Kept.{IsHeldAt, IsInPlace, IsNewAt, Standing, by_stamp_and_arrival, ops_in, after_try_of};
ghost use Rattle.rt_holding.specs.Waits.{HasLess, IfIsThere, IsReady, IsSetAt, KeepsOtherPlaces, are_all_kept, is_any_kept, is_place_in, key_count, after_try_there};

use crate::taking::Taking;
use crate::waits::{Keys, Waits, forget, keep, put_keys};
use rt_oplog::{Op, is_same};
use rt_rga::Offer;
use rt_stamps::{Fault, Stamp};
use std::alloc::AllocError;
use std::collections::BTreeMap;

/// Where a held operation stands: by its stamp, and of equal stamps by when it came.
pub(crate) type Standing = (Stamp, u64);

/// The held operations in order; none at the place of the one that is being tried.
pub(crate) type Ops = BTreeMap<Standing, Option<Op>>;

/// What becomes of a held operation that is tried.
#[derive(Clone, Copy, Debug, PartialEq, Eq)]
pub(crate) enum AfterTry {
    /// It is taken.
    Taken,
    /// It could be taken, but memory was wanting: it is looked at again.
    Waits,
    /// It comes too early still, or finds no room.
    Stays,
    /// It is refused for good.
    Dropped,
    /// None is there.
    Absent,
}

/// What becomes of a held operation that is tried. Where memory was wanting before, none is taken.
fn after_try_for<T: Taking>(site: &T, op: &Op, lacks: bool) -> AfterTry
    ensures { result ≡ after_try_of lacks (answer_within (T.limit site.now) op.now (T.log site.now)) }
{
    match site.answer(op) {
        Ok(Offer::New) => {
            if lacks {
                AfterTry::Waits
            } else {
                AfterTry::Taken
            }
        }
        Ok(Offer::Repeat) => AfterTry::Dropped,
        Err(Fault::NotYet) => AfterTry::Stays,
        Err(Fault::TextFull) => AfterTry::Stays,
        Err(_) => AfterTry::Dropped,
    }
}

/// What becomes of the operation at a place that is tried.
pub(crate) fn after_try_at<T: Taking>(site: &T, ops: &Ops, place: Standing, lacks: bool) -> AfterTry
    ensures { result ≡ after_try_there lacks (T.limit site.now) (T.log site.now) (get by_stamp_and_arrival ops.now place) }
{
    match ops.get(&place) {
        Some(Some(op)) => after_try_for(site, op, lacks),
        _ => AfterTry::Absent,
    }
}

/// The operation at a place would stay: it sleeps, with all its keys kept. It is looked at again where they find no memory.
pub(crate) fn sleep<T: Taking>(site: &T, ops: &Ops, waits: &mut Waits, place: Standing)
    requires ready { IsReady 1 waits.old }
    requires sound { IfIsThere (λ op. has_bad_stamp op ≡ false) (get by_stamp_and_arrival ops.now place) }
    ensures ready { IsReady 0 waits.new }
    ensures keys { KeepsOtherPlaces place waits.old.keys waits.new.keys }
    ensures due { heap_items waits.new.due ≡ heap_items waits.old.due }
    ensures again { (p : Standing) → is_place_in p waits.old.again.items ≡ true → is_place_in p waits.new.again.items ≡ true }
    ensures asleep { IfIsThere (λ op. (is_place_in place waits.new.again.items || are_all_kept waits.new.keys (T.log site.now) place op) ≡ true)
        (get by_stamp_and_arrival ops.now place) }
{
    if let Some(Some(op)) = ops.get(&place) {
        if put_keys(site, waits, op, place).is_ok() {
            return;
        }
    }
    keep(waits, place);
}

/// Where an operation is held, if it is: looks at those of its stamp.
pub(crate) fn standing_of(ops: &Ops, arrivals: u64, op: &Op) -> Option<Standing>
    requires { AllByRecursion (IsInPlace arrivals) ops.now.entries }
    ensures some { IfSome result (λ place. IsHeldAt place op.now ops.now.entries) }
    ensures none { IfNone result (holds (ops_in ops.now.entries) op.now ≡ false) }
{
    let stamp = op.stamp();
    for (place, kept) in ops.range((stamp, 0)..(stamp, arrivals)) {
        if let Some(held) = kept {
            if is_same(held, op) {
                return Some(*place);
            }
        }
    }
    None
}

/// Takes out the operation at a place, which stays.
fn take_out(ops: &mut Ops, place: Standing) -> Op
    requires { (op : Operation) × IsHeldAt place op ops.old.entries }
    ensures there { IsHeldAt place result ops.old.entries }
    ensures entries { ops.new.entries ≡ insert_entry by_stamp_and_arrival ops.old.entries place None }
    ensures others { IsSetAt place (Some None) ops.old ops.new }
{
    let was: Result<_, _> = ops.insert(place, None);
    was.unwrap().unwrap().unwrap()
}

/// Drops the place, with the operation at it and its keys, if there is one.
pub(crate) fn drop_at<T: Taking>(site: &T, ops: &mut Ops, keys: &mut Keys, place: Standing)
    ensures entries { ops.new.entries ≡ remove_entry (is_at (by_stamp_and_arrival place)) ops.old.entries }
    ensures others { IsSetAt place None ops.old ops.new }
    ensures ordered { IsOrdered by_stamp_and_arrival ops.new }
    ensures keys { KeepsOtherPlaces place keys.old keys.new }
    ensures gone { IfIsThere (λ op. has_bad_stamp op ≡ false → is_any_kept keys.new (T.log site.now) place op ≡ false)
        (get by_stamp_and_arrival ops.old place) }
    ensures less { HasLess keys.old keys.new }
    ensures fewer { key_count keys.new ≤ key_count keys.old }
{
    if let Some(op) = ops.remove(&place).flatten() {
        forget(site, keys, &op, place);
    }
}

/// Takes out the operation at a place, if there is one, of which all keys are passed.
pub(crate) fn take_away(ops: &mut Ops, place: Option<Standing>)
    ensures some { IfSome place (λ p. ops.new.entries ≡ remove_entry (is_at (by_stamp_and_arrival p)) ops.old.entries) }
    ensures others { IfSome place (λ p. IsSetAt p None ops.old ops.new) }
    ensures none { IfNone place (ops.new.entries ≡ ops.old.entries) }
{
    if let Some(place) = place {
        let _op = ops.remove(&place);
    }
}

/// Takes the operation at a place, and tells its site; or leaves it there for want of memory.
pub(crate) fn take_at<T: Taking>(
    site: &mut T,
    ops: &mut Ops,
    place: Standing,
) -> Result<u32, AllocError>
    requires { IsNewAt (T.limit site.old) (T.log site.old) ops.old.entries place }
    ensures site { OnOk result ((op : Operation) → IsHeldAt place op ops.old.entries → site.new ≡ T.after op site.old) }
    ensures log { OnOk result ((op : Operation) → IsHeldAt place op ops.old.entries → T.log site.new ≡ with_operation op (T.log site.old)) }
    ensures by { IfOk result (λ by. (op : Operation) → IsHeldAt place op ops.old.entries → by ≡ op.site) }
    ensures out { OnOk result (ops.new.entries ≡ remove_entry (is_at (by_stamp_and_arrival place)) ops.old.entries) }
    ensures others { OnOk result (IsSetAt place None ops.old ops.new) }
    ensures ordered { IsOrdered by_stamp_and_arrival ops.new }
    ensures limit { T.limit site.new ≡ T.limit site.old }
    ensures same_site { OnErr result (site.new ≡ site.old) }
    ensures same_ops { OnErr result (ops.new.entries ≡ ops.old.entries) }
{
    let op = take_out(ops, place);
    let by = op.site();
    match site.take(op) {
        Ok(()) => {
            let _none = ops.remove(&place);
            Ok(by)
        }
        Err(back) => {
            let _none = ops.insert(place, Some(back));
            Err(AllocError)
        }
    }
}
