// Copies of actions, with the stamps that their characters have now.
ghost use Rattle.std.specs.Prelude.{◌≡◌, [], ◌∷◌, ◌++◌, ◌&&◌, map, IsOkUnless, IfOk, OnErr, OnOk};
ghost use Rattle.rt_ops.specs.Operations.{stamps_in, stamps_of_span};
ghost use Rattle.rt_undo.specs.Actions.{action_of, group_of, removed_in, removed_with, restamped, restamped_one};
ghost use Rattle.rt_undo.specs.Groups.{NoneMoves};
ghost use Rattle.rt_undo.specs.Renames.{now_of};
ghost use Rattle.rt_undo.specs.Undo.{with_stamps_in};
ghost use Rattle.rt_undo.specs.Copies.{is_behind_span};

use crate::action::{Action, RemovedSpan};
use crate::renames::Renames;
use rt_stamps::{Fault, Span, Stamp};
use rt_tags::StateId;
use std::alloc::Global;

// Whether a stamp is that of the count after a span's last.
fn is_next(span: Span, stamp: Stamp) -> bool
    ensures { result ≡ is_behind_span span stamp }
{
    span.first <= span.last
        && stamp.site == span.site
        && stamp.count > span.last
        && stamp.count - span.last == 1
}

/// Adds a stamp to those of spans, to the last span where it is the next one, and that takes no memory. Want of
/// memory, and then the spans are as they were.
pub fn push_stamp(spans: &mut Vec<Span>, stamp: Stamp) -> Result<(), Fault>
    ensures ok { OnOk result (stamps_in spans.new.items ≡ stamps_in spans.old.items ++ stamp ∷ []) }
    ensures same { OnErr result (spans.new.items ≡ spans.old.items) }
    ensures fault { IsOkUnless result Fault.NoMemory }
{
    let span = Span {
        site: stamp.site,
        first: stamp.count,
        last: stamp.count,
    };
    if let Some(last) = spans.pop() {
        if is_next(last, stamp) {
            let first = last.first;
            spans.push_reserved(Span { first, ..span });
            return Ok(());
        }
        spans.push_reserved(last);
    }
    spans.push(span)?;
    Ok(())
}

// Adds the stamps that the characters of a span have now.
fn push_now(renames: &Renames, span: Span, spans: &mut Vec<Span>) -> Result<(), Fault>
    ensures ok { OnOk result (stamps_in spans.new.items ≡ stamps_in spans.old.items ++ map (now_of renames.now) (stamps_of_span span)) }
    ensures fault { IsOkUnless result Fault.NoMemory }
{
    for count in span.first..=span.last {
        let stamp = Stamp {
            count,
            site: span.site,
        };
        push_stamp(spans, renames.now(stamp))?;
    }
    Ok(())
}

/// The stamps that the characters of spans have now. Want of memory.
pub fn spans_now(alloc: Global, renames: &Renames, spans: &[Span]) -> Result<Vec<Span>, Fault>
    ensures ok { IfOk result (λ copy. stamps_in copy.items ≡ map (now_of renames.now) (stamps_in spans.now)) }
    ensures fault { IsOkUnless result Fault.NoMemory }
{
    let mut copy = Vec::new(alloc);
    for span in spans {
        push_now(renames, *span, &mut copy)?;
    }
    Ok(copy)
}

// Adds removed characters that had the same tags. Want of memory, and then all is as it was.
fn push_removed(spans: &[Span], state: StateId, removed: &mut Vec<RemovedSpan>) -> Result<(), Fault>
    ensures ok { OnOk result (removed_in removed.new.items ≡ removed_in removed.old.items ++ map (removed_with state) (stamps_in spans.now)) }
    ensures same { OnErr result (removed.new.items ≡ removed.old.items) }
    ensures fault { IsOkUnless result Fault.NoMemory }
{
    removed.reserve(spans.len())?;
    for span in spans {
        removed.push_reserved(RemovedSpan { span: *span, state });
    }
    Ok(())
}

// Removed characters, under the stamps that they have now.
fn removed_now(
    alloc: Global,
    renames: &Renames,
    removed: &[RemovedSpan],
) -> Result<Vec<RemovedSpan>, Fault>
    ensures ok { IfOk result (λ copy. removed_in copy.items ≡ map (restamped_one (now_of renames.now)) (removed_in removed.now)) }
    ensures fault { IsOkUnless result Fault.NoMemory }
{
    let mut copy = Vec::new(alloc);
    for part in removed {
        let mut spans = Vec::new(alloc);
        push_now(renames, part.span, &mut spans)?;
        push_removed(&spans, part.state, &mut copy)?;
    }
    Ok(copy)
}

impl Action {
    /// The action by the stamps that its characters have now. Want of memory.
    pub fn renamed(&self, alloc: Global, renames: &Renames) -> Result<Action, Fault>
        ensures ok { IfOk result (λ copy. action_of copy ≡ restamped (now_of renames.now) (action_of self.now)) }
        ensures fault { IsOkUnless result Fault.NoMemory }
    {
        Ok(Action {
            number: self.number,
            kind: self.kind,
            inserted: spans_now(alloc, renames, &self.inserted)?,
            removed: removed_now(alloc, renames, &self.removed)?,
        })
    }
}

/// A group, by the stamps that its characters have now, none of which is moved. Want of memory.
pub fn group_now(alloc: Global, renames: &Renames, group: &[Action]) -> Result<Vec<Action>, Fault>
    ensures ok { IfOk result (λ copy. group_of copy.items ≡ with_stamps_in (now_of renames.now) (group_of group.now)) }
    ensures still { IfOk result (λ copy. NoneMoves renames.now (group_of copy.items)) }
    ensures fault { IsOkUnless result Fault.NoMemory }
{
    renames.ends();
    let mut copy = Vec::new(alloc);
    for action in group {
        copy.push(action.renamed(alloc, renames)?)?;
    }
    Ok(copy)
}
