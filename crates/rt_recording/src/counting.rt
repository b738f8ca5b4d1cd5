// How many characters may come back.
ghost use Rattle.std.specs.Prelude.{◌≡◌, ◌+◌, ◌^◌, ◌<◌, length, IsOkUnless, IfOk};
ghost use Rattle.rt_ops.specs.Operations.{stamps_of_span};
ghost use Rattle.rt_undo.specs.Actions.{group_of, removed_in};
ghost use Rattle.rt_recording.specs.Returns.{removed_count};

use rt_stamps::{Fault, Span};
use rt_undo::{Action, RemovedSpan};

// More characters, those of a span.
fn with_span(count: usize, span: Span) -> Result<usize, Fault>
    requires { count < 2 ^ 32 }
    ensures ok { IfOk result (λ all. all ≡ count + length (stamps_of_span span)) }
    ensures few { IfOk result (λ all. all < 2 ^ 32) }
    ensures err { IsOkUnless result Fault.NoMemory }
{
    if span.last < span.first {
        return Ok(count);
    }
    let more = span.last - span.first;
    if more >= (u32::MAX as u64) - (count as u64) {
        return Err(Fault::NoMemory);
    }
    Ok(count + (more as usize) + 1)
}

// More characters, those that an action took away.
fn with_removed(count: usize, removed: &[RemovedSpan]) -> Result<usize, Fault>
    requires { count < 2 ^ 32 }
    ensures ok { IfOk result (λ all. all ≡ count + length (removed_in removed.now)) }
    ensures few { IfOk result (λ all. all < 2 ^ 32) }
    ensures err { IsOkUnless result Fault.NoMemory }
{
    let mut all = count;
    for part in removed {
        all = with_span(all, part.span)?;
    }
    Ok(all)
}

/// How many characters come back at most where a group is reverted. There is no memory for 2^32 or
/// more.
pub(crate) fn most_returns(group: &[Action]) -> Result<usize, Fault>
    ensures ok { IfOk result (λ most. most ≡ removed_count (group_of group.now)) }
    ensures few { IfOk result (λ most. most < 2 ^ 32) }
    ensures err { IsOkUnless result Fault.NoMemory }
{
    let mut all = 0;
    for action in group {
        all = with_removed(all, &action.removed)?;
    }
    Ok(all)
}
