// Stamps of characters.
ghost use Rattle.std.specs.Prelude.{◌≡◌, ℕ, ◌<◌, ◌↔◌, IsSome, IfSome};
ghost use Rattle.rt_stamps.specs.Spans.{span_of};

/// A site, whose number is 1 or more.
#[derive(Clone, Copy, Debug, PartialEq, Eq, PartialOrd, Ord)]
pub struct Site {
    number: u32,
    pub ghost positive: { 0 < number },
}

impl Site {
    /// The site of a number from 1 to 4,294,967,295; none for 0.
    pub fn new(number: u32) -> Option<Site>
        ensures some { IsSome result ↔ (0 < number) }
        ensures value { IfSome result (λ site. site.number ≡ number) }
    {
        if number == 0 {
            None
        } else {
            Some(Site { number })
        }
    }

    /// The site's number.
    pub fn number(self) -> u32
        ensures value { result ≡ self.number }
        ensures positive { 0 < result }
    {
        self.number
    }
}

/// The stamp of a character or an operation, for good. Stamps are ordered by count, and those of
/// one count by site (Replicated Growable Array, JPDC 2011, simplified).
#[derive(Clone, Copy, Debug, PartialEq, Eq, PartialOrd, Ord, Hash)]
pub struct Stamp {
    /// From 1 to `GREATEST_COUNT`; 0 at `ROOT` alone.
    pub count: u64,
    /// From 1 up; 0 at `ROOT` and `FINAL` alone.
    pub site: u32,
}

/// The left element of a character at the very beginning. It is no character.
pub const ROOT: Stamp = Stamp { count: 0, site: 0 };

/// The stamp of the last newline, which every text ends with and no operation inserts.
pub const FINAL: Stamp = Stamp { count: 1, site: 0 };

/// The stamps of one site from a first count to a last one, both included.
#[derive(Clone, Copy, Debug, PartialEq, Eq)]
pub struct Span {
    pub site: u32,
    pub first: u64,
    pub last: u64,
}

impl Span {
    /// The span of one stamp.
    pub fn of(stamp: Stamp) -> Span
        ensures { result ≡ span_of stamp }
    {
        Span {
            site: stamp.site,
            first: stamp.count,
            last: stamp.count,
        }
    }
}
