// Two logs merged.
ghost use Rattle.std.specs.Prelude.{◌≡◌, ◌⊎◌, [], ◌∷◌, false, true, MatchResult, OnOk, IsOkUnless};
ghost use Rattle.std.specs.List.{AllByRecursion};
ghost use Rattle.rt_stamps.specs.declared.fault.Fault.TheVariants.{NoMemory, Conflict};
ghost use Rattle.rt_stamps.specs.Stamps.{is_before};
ghost use Rattle.rt_ops.specs.Rules.{keeps_rules};
ghost use Rattle.rt_ops.specs.Views.{body_in, operation_in};
ghost use Rattle.rt_ops.specs.Operations.{Operation, has_bad_stamp};
ghost use Rattle.rt_oplog.specs.Logs.{HasClashOf, HasOp, IsLog, IsFalling, same_operation};
ghost use Rattle.rt_rows.specs.Places.{HasPlace, KeepsPlaces, op_at};
ghost use Rattle.rt_oplog.specs.Kept.{newest_first, IsLogInRows};
ghost use Rattle.rt_oplog.specs.Merged.{IsTakenOver, Merges};

use crate::ends::Ends;
use crate::same::are_alike;
use rt_ops::OpView;
use rt_rows::{RowPlace, Rows};
use rt_stamps::{Fault, Stamp};
use std::alloc::Global;

/// The operation of a place, seen where it is kept.
pub(crate) fn op_in(ops: &Rows, place: RowPlace) -> OpView<'_>
    requires { HasPlace ops.now.rows place }
    ensures is { op_at ops.now.rows place ≡ operation_in result }
    ensures rules { keeps_rules (body_in result.edit) ≡ true }
{
    ops.view(place)
}

/// Whether one stamp is before another.
fn is_before(one: Stamp, other: Stamp) -> bool
    ensures { result ≡ is_before one other }
{
    one < other
}

/// Whether the operations of two places are the same.
fn are_same(ops: &Rows, place: RowPlace, more: &Rows, other: RowPlace) -> bool
    requires one { HasPlace ops.now.rows place }
    requires other { HasPlace more.now.rows other }
    ensures { result ≡ same_operation (op_at ops.now.rows place) (op_at more.now.rows other) }
{
    are_alike(op_in(ops, place), op_in(more, other))
}

/// Puts a copy of the operation of a place into other rows, and names its new place. `NoMemory` is its only fault.
fn take_over(
    alloc: Global,
    ops: &mut Rows,
    order: &mut Vec<RowPlace>,
    more: &Rows,
    place: RowPlace,
) -> Result<(), Fault>
    requires { HasPlace more.now.rows place }
    ensures kept { KeepsPlaces ops.old.rows ops.new.rows }
    ensures taken { OnOk result (IsTakenOver more.now.rows ops.new.rows (place ∷ []) order.old.items order.new.items) }
    ensures fault { IsOkUnless result NoMemory }
{
    let op = op_in(more, place).copied(alloc)?;
    ops.reserve(1)?;
    let new = ops.push(op);
    order.push(new)?;
    Ok(())
}

/// Puts copies of the operations of these places into other rows, and names their new places. `NoMemory` is its only fault.
fn take_rest(
    alloc: Global,
    ops: &mut Rows,
    order: &mut Vec<RowPlace>,
    more: &Rows,
    places: &[RowPlace],
) -> Result<(), Fault>
    requires { AllByRecursion (HasPlace more.now.rows) places.now }
    ensures kept { KeepsPlaces ops.old.rows ops.new.rows }
    ensures taken { OnOk result (IsTakenOver more.now.rows ops.new.rows places.now order.old.items order.new.items) }
    ensures fault { IsOkUnless result NoMemory }
{
    for place in places {
        take_over(alloc, ops, order, more, *place)?;
    }
    Ok(())
}

/// The places of the operations of both lists by rising stamp, those of one operation once. What is
/// only in `more` is copied into `ops`. `Conflict` where two different operations have one stamp.
pub(crate) fn merge(
    alloc: Global,
    ops: &mut Rows,
    more: &Rows,
    mine: &[RowPlace],
    theirs: &[RowPlace],
) -> Result<Vec<RowPlace>, Fault>
    requires mine { AllByRecursion (HasPlace ops.old.rows) mine.now }
    requires theirs { AllByRecursion (HasPlace more.now.rows) theirs.now }
    requires one { IsLog (newest_first ops.old.rows mine.now) }
    requires other { IsLog (newest_first more.now.rows theirs.now) }
    ensures { Merges (newest_first ops.old.rows mine.now) (newest_first more.now.rows theirs.now) result ops.new.rows }
{
    let mut order = Vec::new(alloc);
    let mut left = 0;
    let mut right = 0;
    while left < mine.len() && right < theirs.len() {
        let one = ops.stamp_at(mine[left]);
        let other = more.stamp_at(theirs[right]);
        if is_before(one, other) {
            order.push(mine[left])?;
            left += 1;
        } else if is_before(other, one) {
            take_over(alloc, ops, &mut order, more, theirs[right])?;
            right += 1;
        } else if are_same(ops, mine[left], more, theirs[right]) {
            order.push(mine[left])?;
            left += 1;
            right += 1;
        } else {
            return Err(Fault::Conflict);
        }
    }
    order.extend_from_slice(&mine[left..])?;
    take_rest(alloc, ops, &mut order, more, &theirs[right..])?;
    Ok(order)
}

/// The known ends of the operations of these places. `Conflict` where two of them clash.
pub(crate) fn ends_of(alloc: Global, ops: &Rows, order: &[RowPlace]) -> Result<Ends, Fault>
    requires within { AllByRecursion (HasPlace ops.now.rows) order.now }
    requires falling { IsFalling (newest_first ops.now.rows order.now) }
    requires sound { (op : Operation) → HasOp (newest_first ops.now.rows order.now) op → has_bad_stamp op ≡ false }
    ensures { MatchResult result (λ ends. IsLogInRows ops.now.rows order.now ends)
        (λ fault. (fault ≡ NoMemory) ⊎ ((fault ≡ Conflict) × HasClashOf (newest_first ops.now.rows order.now) (newest_first ops.now.rows order.now))) }
{
    let mut ends = Ends::new(alloc);
    for place in order {
        let op = op_in(ops, *place);
        if op.prev < ends.get(op.site()) {
            return Err(Fault::Conflict);
        }
        ends.reserve(1)?;
        let _ = ends.raise(op.site(), op.last_count());
    }
    Ok(ends)
}
