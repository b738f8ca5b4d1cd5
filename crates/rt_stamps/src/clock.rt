// Counts that no operation has yet.
ghost use Rattle.std.specs.Prelude.{◌≡◌, ℕ, ◌+◌, ◌<◌, ◌≤◌, IfErr, IfOk, max};
ghost use Rattle.rt_stamps.specs.declared.limits.TheConstants.{GREATEST_COUNT};
ghost use Rattle.rt_stamps.specs.Clock.{fresh_count};

use crate::Fault;
use crate::limits::GREATEST_COUNT;
use std::marker::Model;

/// The last of some counts that follow a count, or `ClockSpent` where it would pass `GREATEST_COUNT`.
pub fn count_after(count: u64, more: u64) -> Result<u64, Fault>
    requires { count ≤ GREATEST_COUNT }
    ensures ok { IfOk result (λ last. (last ≡ count + more) × (last ≤ GREATEST_COUNT)) }
    ensures err { IfErr result (λ fault. (fault ≡ Fault.ClockSpent) × (GREATEST_COUNT < count + more)) }
{
    if more > GREATEST_COUNT - count {
        return Err(Fault::ClockSpent);
    }
    Ok(count + more)
}

/// The greatest count of the operations that are known, 0 at first.
#[derive(Debug, Drop)]
pub struct Clock {
    seen: u64,
}

impl Model for Clock {
    ghost use Rattle.std.specs.Prelude.{ℕ, ◌≤◌};
    ghost use Rattle.rt_stamps.specs.declared.limits.TheConstants.{GREATEST_COUNT};

    ghost Value = { ℕ };

    ghost view = { λ c. c.seen };

    ghost invariant = { λ c. c.seen ≤ GREATEST_COUNT };
}

impl Clock {
    /// A clock that has seen no count.
    pub fn new() -> Clock
        ensures { result ≡ 0 }
    {
        Clock { seen: 0 }
    }

    /// The greatest count that was seen.
    pub fn seen(&self) -> u64
        ensures value { result ≡ self.now }
        ensures greatest { result ≤ GREATEST_COUNT }
    {
        self.seen
    }

    /// The first of `k` fresh counts, 1 or more, which is one more than the greatest that was seen.
    /// `ClockSpent` where the last of them would pass `GREATEST_COUNT`.
    pub fn next(&self, k: u64) -> Result<u64, Fault>
        requires { 1 ≤ k }
        ensures { result ≡ fresh_count self.now k }
    {
        count_after(self.seen, k)?;
        Ok(self.seen + 1)
    }

    /// Sees a count, at most `GREATEST_COUNT`.
    pub fn saw(&mut self, count: u64)
        requires { count ≤ GREATEST_COUNT }
        ensures { self.new ≡ max self.old count }
    {
        self.seen = self.seen.max(count);
    }
}
