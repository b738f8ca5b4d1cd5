// Ranges of places.
ghost use Rattle.std.specs.Prelude.{◌≡◌, ◌+◌, ◌≤◌};
ghost use Rattle.rt_plans.specs.Merging.{range_from};

/// The places from one up to before another; none where that isn't later.
#[derive(Clone, Copy, Debug, PartialEq, Eq)]
pub struct Range {
    pub from: usize,
    pub to: usize,
}

impl Range {
    // It, so many places further on.
    pub(crate) fn moved_on(self, begin: usize) -> Range
        requires { (begin + self.from ≤ usize.MAX) × (begin + self.to ≤ usize.MAX) }
        ensures { result ≡ range_from begin self }
    {
        Range {
            from: begin + self.from,
            to: begin + self.to,
        }
    }
}
