// Logs.
ghost use Rattle.std.specs.Prelude.{◌≡◌, ◌+◌, ◌-◌, ◌<◌, ◌≤◌, ◌∷◌, All, [], true, false, length, reverse, map, min, IsOk, OnOk, IfOk, IsOkUnless, Ok, Err, slice_get, Some};
ghost use Rattle.std.specs.List.{AllByRecursion, list_any};
ghost use Rattle.rt_stamps.specs.declared.fault.Fault.TheVariants.{NoMemory};
ghost use Rattle.rt_stamps.specs.Stamps.{is_before};
ghost use Rattle.rt_ops.specs.Rules.{keeps_rules};
ghost use Rattle.rt_ops.specs.Views.{body_in, operation_in};
ghost use Rattle.rt_rows.specs.Views.{operation_typed};
ghost use Rattle.rt_stamps.specs.declared.limits.TheConstants.{GREATEST_COUNT};
ghost use Rattle.rt_ops.specs.Operations.{Insert, stamp_of, has_bad_stamp};
ghost use Rattle.rt_oplog.specs.Logs.{IsLog, IsFalling, holds, same_operation, clash, going_on, known_end, pushed, with_operation};
ghost use Rattle.rt_rows.specs.Places.{HasPlace, KeepsPlaces, op_at};
ghost use Rattle.rt_oplog.specs.Kept.{newest_first, IsLogInRows, IsPutBehind, IsPutInOrder};
ghost use Rattle.rt_oplog.specs.Blocks.{places_in_blocks};
ghost use Rattle.rt_oplog.specs.Runs.{places_in, places_of};
ghost use Rattle.rt_oplog.specs.Outcomes.{Pushes, MakesLog, Joins};

use crate::Op;
use crate::block::Block;
use crate::ends::Ends;
use crate::merge::{ends_of, merge, op_in};
use crate::order::Order;
use crate::run::Run;
use crate::same::{are_alike, is_clash};
use rt_ops::OpView;
use rt_rows::{RowPlace, Rows, TypedOp};
use rt_stamps::{Fault, Stamp};
use std::alloc::Global;
use std::marker::Model;

/// A set of sound operations, no two of which clash.
#[derive(Drop)]
pub struct OpLog {
    alloc: Global,
    /// The operations, each of which keeps its place.
    ops: Rows,
    /// Their places in `ops`, by rising stamp.
    order: Order,
    ends: Ends,
}

/// Why operations have no log.
#[derive(Clone, Copy, Debug, PartialEq, Eq)]
pub struct Refused {
    /// `BadStamp` or `Conflict`, with which the first refused operation was refused, or `NoMemory`.
    pub fault: Fault,
    /// How many operations stand before that one.
    pub place: usize,
}

impl Model for OpLog {
    ghost use Rattle.std.specs.Prelude.{min};
    ghost use Rattle.rt_oplog.specs.Ends.{room_for};
    ghost use Rattle.rt_oplog.specs.Outcomes.{Log};

    ghost Value = { Log };

    ghost use Rattle.rt_oplog.specs.Kept.{newest_first, IsLogInRows};

    ghost view = { λ log. record {
      operations = newest_first log.ops.rows log.order.items;
      room = min log.ops.room (min log.order.room (room_for log.ends));
    } };

    ghost invariant = { λ log. IsLogInRows log.ops.rows log.order.items log.ends };
}

/// Whether the operation of a place is this one.
fn is_at(ops: &Rows, place: RowPlace, op: &Op) -> bool
    requires { HasPlace ops.now.rows place }
    ensures { result ≡ same_operation (op_at ops.now.rows place) op.now }
{
    are_alike(op_in(ops, place), OpView::of(op))
}

/// Whether this very operation is one of the places.
fn is_held(ops: &Rows, order: &Order, op: &Op) -> bool
    requires within { AllByRecursion (HasPlace ops.now.rows) order.now.items }
    requires falling { IsFalling (newest_first ops.now.rows order.now.items) }
    ensures { result ≡ holds (newest_first ops.now.rows order.now.items) op.now }
{
    match order.find(ops, op.stamp()) {
        Some(place) => is_at(ops, place, op),
        None => false,
    }
}

/// Whether an operation of a run clashes with this one.
fn any_clash_at(ops: &Rows, run: Run, op: &Op) -> bool
    requires within { AllByRecursion (HasPlace ops.now.rows) (places_of run) }
    requires log { IsLog (newest_first ops.now.rows (places_of run)) }
    requires sound { has_bad_stamp op.now ≡ false }
    ensures { result ≡ list_any (λ place. clash op.now (op_at ops.now.rows place)) (places_of run) }
{
    for number in 0..run.len() {
        if is_clash(op, op_in(ops, run.place(number))) {
            return true;
        }
    }
    false
}

/// Whether an operation of the places of runs clashes with this one.
fn any_clash(ops: &Rows, runs: &[Run], op: &Op) -> bool
    requires within { AllByRecursion (HasPlace ops.now.rows) (places_in runs.now) }
    requires log { IsLog (newest_first ops.now.rows (places_in runs.now)) }
    requires sound { has_bad_stamp op.now ≡ false }
    ensures { result ≡ list_any (λ place. clash op.now (op_at ops.now.rows place)) (places_in runs.now) }
{
    for run in runs {
        if any_clash_at(ops, *run, op) {
            return true;
        }
    }
    false
}

/// Whether an operation of the places of blocks clashes with this one.
fn any_clash_in(ops: &Rows, blocks: &[Block], op: &Op) -> bool
    requires within { AllByRecursion (HasPlace ops.now.rows) (places_in_blocks blocks.now) }
    requires log { IsLog (newest_first ops.now.rows (places_in_blocks blocks.now)) }
    requires sound { has_bad_stamp op.now ≡ false }
    ensures { result ≡ list_any (λ place. clash op.now (op_at ops.now.rows place)) (places_in_blocks blocks.now) }
{
    for block in blocks {
        if any_clash(ops, &block.runs, op) {
            return true;
        }
    }
    false
}

/// Whether an operation of the places clashes with this one. What goes on from its site's known end
/// clashes with none; what is the newest and goes on from below it clashes.
fn has_clash(ops: &Rows, order: &Order, ends: &Ends, op: &Op) -> bool
    requires kept { IsLogInRows ops.now.rows order.now.items ends.now }
    requires sound { has_bad_stamp op.now ≡ false }
    ensures { result ≡ list_any (clash op.now) (newest_first ops.now.rows order.now.items) }
{
    if op.prev() >= ends.get(op.site()) {
        return false;
    }
    match order.find(ops, op.stamp()) {
        Some(_) => any_clash_in(ops, order.blocks(), op),
        None => true,
    }
}

/// Puts an operation in, and its place behind all others, where there is room.
#[inline(always)]
fn push_newest(ops: &mut Rows, order: &mut Order, op: Op)
    requires ops { 0 < ops.old.room }
    requires order { 0 < order.old.room }
    ensures kept { KeepsPlaces ops.old.rows ops.new.rows }
    ensures put { IsPutBehind op ops.new.rows order.old.items order.new.items }
    ensures left { ops.old.room ≤ ops.new.room + 1 }
    ensures room { order.old.room ≤ order.new.room + 1 }
{
    let place = ops.push(op);
    order.push(place);
}

/// Puts a typed operation in, and its place behind all others, where there is room.
#[inline(always)]
fn push_newest_typed(ops: &mut Rows, order: &mut Order, typed: TypedOp)
    requires count { typed.stamp.count ≤ GREATEST_COUNT }
    requires ops { 0 < ops.old.room }
    requires order { 0 < order.old.room }
    ensures kept { KeepsPlaces ops.old.rows ops.new.rows }
    ensures put { IsPutBehind (operation_typed typed) ops.new.rows order.old.items order.new.items }
    ensures left { ops.old.room ≤ ops.new.room + 1 }
    ensures room { order.old.room ≤ order.new.room + 1 }
{
    let place = ops.push_typed(typed);
    order.push(place);
}

/// Puts an operation in, and its place behind those whose operations are before its stamp, where there is room.
fn put_in_order(ops: &mut Rows, order: &mut Order, op: Op)
    requires within { AllByRecursion (HasPlace ops.old.rows) order.old.items }
    requires falling { IsFalling (newest_first ops.old.rows order.old.items) }
    requires ops { 0 < ops.old.room }
    requires order { 0 < order.old.room }
    ensures kept { KeepsPlaces ops.old.rows ops.new.rows }
    ensures put { IsPutInOrder op ops.new.rows order.old.items order.new.items }
    ensures left { ops.old.room ≤ ops.new.room + 1 }
    ensures room { order.old.room ≤ order.new.room + 1 }
{
    let stamp = op.stamp();
    let place = ops.push(op);
    order.insert(ops, stamp, place);
}

impl OpLog {
    /// A log without operations.
    pub fn new(alloc: Global) -> OpLog
        ensures { result.operations ≡ [] }
    {
        OpLog {
            alloc,
            ops: Rows::new(alloc),
            order: Order::new(alloc),
            ends: Ends::new(alloc),
        }
    }

    /// The log of operations, each pushed in turn. Else the first that a push refuses, or `NoMemory` where a growth was
    /// refused.
    pub fn from_ops(alloc: Global, ops: Vec<Op>) -> Result<OpLog, Refused>
        ensures { MakesLog ops.items result }
    {
        let mut log = OpLog::new(alloc);
        let mut place = 0;
        for op in ops {
            if let Err(fault) = log.push(op) {
                return Err(Refused { fault, place });
            }
            // For its clauses alone.
            log.soundness();
            place += 1;
        }
        Ok(log)
    }

    /// Makes room for `more` calls of `push`, which then take no memory. `NoMemory` where a growth was refused, `more` is
    /// above 2^32 - 1, or there would be more than 2^32 rows (rt_rows); the operations stay.
    #[inline(always)]
    pub fn reserve(&mut self, more: usize) -> Result<(), Fault>
        ensures same { self.new.operations ≡ self.old.operations }
        ensures ok { OnOk result (more ≤ self.new.room) }
        ensures kept { self.old.room ≤ self.new.room }
        ensures fault { IsOkUnless result NoMemory }
        ensures there { more ≤ self.old.room → IsOk result }
    {
        self.ops.reserve(more)?;
        self.order.reserve(more)?;
        self.ends.reserve(more)?;
        Ok(())
    }

    /// How many operations there are.
    pub fn len(&self) -> usize
        ensures { result ≡ length self.now.operations }
    {
        self.order.len()
    }

    /// The operation at a place by rising stamp, that of the oldest being 0, seen where it is kept.
    pub fn get(&self, place: usize) -> OpView<'_>
        requires { place < length self.now.operations }
        ensures is { slice_get (reverse self.now.operations) place ≡ Some (operation_in result) }
        ensures rules { keeps_rules (body_in result.edit) ≡ true }
    {
        op_in(&self.ops, self.order.get(place))
    }

    /// The operations in rows, and their places by rising stamp, in blocks.
    pub(crate) fn blocks(&self) -> (&Rows, &[Block])
        ensures within { AllByRecursion (HasPlace result.0.now.rows) (places_in_blocks result.1.now) }
        ensures operations { map (op_at result.0.now.rows) (places_in_blocks result.1.now) ≡ reverse self.now.operations }
        ensures log { IsLog self.now.operations }
    {
        (&self.ops, self.order.blocks())
    }

    /// In any log the operations are sound, and no two of them clash.
    pub fn soundness(&self)
        ensures log { IsLog self.now.operations }
    {
        let _ = &self.ops;
    }

    /// The operations by rising stamp, each seen where it is kept. `NoMemory` is its only fault.
    pub fn in_order(&self) -> Result<Vec<OpView<'_>>, Fault>
        ensures operations { IfOk result (λ ops. map operation_in ops.items ≡ reverse self.now.operations) }
        ensures rules { IfOk result (λ ops. AllByRecursion (λ op. keeps_rules (body_in op.edit) ≡ true) ops.items) }
        ensures fault { IsOkUnless result NoMemory }
    {
        let places = self.order.flat()?;
        let mut ops = Vec::new(self.alloc);
        for place in &places {
            ops.push(op_in(&self.ops, *place))?;
        }
        Ok(ops)
    }

    /// Whether the log has this very operation.
    pub fn contains(&self, op: &Op) -> bool
        ensures { result ≡ holds self.now.operations op.now }
    {
        // What goes on from no lower than its site's known end isn't there.
        op.prev() < self.ends.get(op.site()) && is_held(&self.ops, &self.order, op)
    }

    /// The greatest last count of a site's operations, 0 if it has none.
    pub fn known(&self, site: u32) -> u64
        ensures { result ≡ known_end self.now.operations site }
    {
        self.ends.get(site)
    }

    /// Whether an operation of the log clashes with this one.
    fn clashes(&self, op: &Op) -> bool
        requires { has_bad_stamp op.now ≡ false }
        ensures { result ≡ list_any (clash op.now) self.now.operations }
    {
        has_clash(&self.ops, &self.order, &self.ends, op)
    }

    /// Adds an operation; nothing where the log has it. `BadStamp` exactly for an operation that is
    /// not sound, `Conflict` exactly where one of the log clashes with it, `NoMemory` only where
    /// neither applies, the log has it not, and there is no room left. After a fault the operations are as before.
    pub fn push(&mut self, op: Op) -> Result<(), Fault>
        ensures { Pushes op self.old result self.new }
    {
        op.check()?;
        if self.contains(&op) {
            return Ok(());
        }
        if self.clashes(&op) {
            return Err(Fault::Conflict);
        }
        self.reserve(1)?;
        self.put(op);
        Ok(())
    }

    /// Adds an operation that isn't there and clashes with none, where there is room.
    fn put(&mut self, op: Op)
        requires sound { has_bad_stamp op ≡ false }
        requires new { holds self.old.operations op ≡ false }
        requires free { list_any (clash op) self.old.operations ≡ false }
        requires room { 0 < self.old.room }
        ensures operations { self.new.operations ≡ with_operation op self.old.operations }
        ensures room { self.old.room ≤ self.new.room + 1 }
    {
        let _ = self.ends.raise(op.site(), op.last_count());
        put_in_order(&mut self.ops, &mut self.order, op);
    }

    /// Adds an operation that is newer than all others and goes on from no lower than its site's
    /// known end, where there is room. Takes no memory, and looks at none of the others.
    #[inline(always)]
    pub fn append(&mut self, op: Op)
        requires sound { has_bad_stamp op ≡ false }
        requires newest { All (λ q. is_before (stamp_of q) (stamp_of op) ≡ true) self.old.operations }
        requires prev { known_end self.old.operations op.site ≤ op.prev }
        requires room { 0 < self.old.room }
        ensures operations { self.new.operations ≡ op ∷ self.old.operations }
        ensures room { self.old.room ≤ self.new.room + 1 }
    {
        let last = op.last_count();
        let _ = self.ends.raise(op.site(), last);
        push_newest(&mut self.ops, &mut self.order, op);
    }

    /// Adds a site's next operation, the Insert of one character without tags, which goes on from the site's known end and is
    /// newer than all others, where there is room. Takes no memory, and looks at none of the others.
    #[inline(always)]
    pub fn append_typed(&mut self, stamp: Stamp, after: Stamp, character: char)
        requires sound { has_bad_stamp (going_on self.old.operations stamp (Insert after [] (character ∷ []))) ≡ false }
        requires newest { All (λ q. is_before (stamp_of q) stamp ≡ true) self.old.operations }
        requires room { 0 < self.old.room }
        ensures operations { self.new.operations ≡ going_on self.old.operations stamp (Insert after [] (character ∷ [])) ∷ self.old.operations }
        ensures room { self.old.room ≤ self.new.room + 1 }
    {
        let prev = self.ends.raise(stamp.site, stamp.count);
        let typed = TypedOp {
            stamp,
            prev,
            after,
            character,
        };
        push_newest_typed(&mut self.ops, &mut self.order, typed);
    }
}

/// The operations of both logs, each once. `Conflict` exactly where two of them clash; or `NoMemory`, in place of either,
/// where a growth was refused or there would be more than 2^32 rows (rt_rows). Both logs are used up.
pub fn join(one: OpLog, other: OpLog) -> Result<OpLog, Fault>
    ensures { Joins one.operations other.operations result }
{
    let OpLog {
        alloc,
        mut ops,
        order: mine,
        ..
    } = one;
    let OpLog {
        ops: more,
        order: theirs,
        ..
    } = other;
    let places = merge(alloc, &mut ops, &more, &mine.flat()?, &theirs.flat()?)?;
    let ends = ends_of(alloc, &ops, &places)?;
    let order = Order::of(alloc, &places)?;
    Ok(OpLog {
        alloc,
        ops,
        order,
        ends,
    })
}
