// Fresh counts.
use crate::checks::same;
use rt_stamps::limits::GREATEST_COUNT;
use rt_stamps::{Clock, Fault};

#[test]
fn fresh_counts(rt: HostRuntime) {
    let mut clock = Clock::new();
    same(&rt, clock.next(2), Ok(1));
    clock.saw(GREATEST_COUNT);
    same(&rt, clock.next(1), Err(Fault::ClockSpent));
}
