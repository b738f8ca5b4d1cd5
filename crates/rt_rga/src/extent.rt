// From which stamp to which the spans of Tags go: so it is seen that no two Tags of one tag name one stamp.
ghost use Rattle.std.specs.Prelude.{◌≡◌, if◌then◌else◌, true};
ghost use Rattle.rt_ops.specs.Rules.{are_spans};
ghost use Rattle.rt_store.specs.Spans.{precedes};
ghost use Rattle.rt_rga.specs.Extents.{IsAdded, extent_of, is_apart_from, joined_extents, joined_if_apart};

use indexmap::IndexMap;
use rt_stamps::{Span, Stamp};

/// From which stamp to which spans go, by site and at one site by count.
#[derive(Clone, Copy)]
pub(crate) struct Extent {
    first: Stamp,
    last: Stamp,
}

// Whether a stamp comes before another, by site and at one site by count.
fn precedes(a: Stamp, b: Stamp) -> bool
    ensures { result ≡ precedes a b }
{
    a.site < b.site || (a.site == b.site && a.count < b.count)
}

// The one of two stamps that comes first.
fn earlier(a: Stamp, b: Stamp) -> Stamp
    ensures { result ≡ (if precedes b a then b else a) }
{
    if precedes(b, a) { b } else { a }
}

// The one that comes last.
fn later(a: Stamp, b: Stamp) -> Stamp
    ensures { result ≡ (if precedes a b then b else a) }
{
    if precedes(a, b) { b } else { a }
}

impl Extent {
    // That of some spans; none where there is no span.
    fn of(spans: &[Span]) -> Option<Extent>
        ensures { result ≡ extent_of spans.now }
    {
        let first = spans.first()?;
        let last = spans.last()?;
        Some(Extent {
            first: Stamp {
                count: first.first,
                site: first.site,
            },
            last: Stamp {
                count: last.last,
                site: last.site,
            },
        })
    }

    // Whether all of it comes before all of another, or behind.
    fn is_apart_from(self, other: Extent) -> bool
        ensures { result ≡ is_apart_from self other }
    {
        precedes(self.last, other.first) || precedes(other.last, self.first)
    }

    // With another, and with what lies between.
    fn with(self, other: Extent) -> Extent
        ensures { result ≡ joined_extents self other }
    {
        Extent {
            first: earlier(self.first, other.first),
            last: later(self.last, other.last),
        }
    }

    // Itself where there is no other one. Joined with another that it is apart from; none where it isn't.
    fn beside(self, other: Option<Extent>) -> Option<Extent>
        ensures { result ≡ joined_if_apart self other }
    {
        let Some(other) = other else {
            return Some(self);
        };
        if self.is_apart_from(other) {
            return Some(self.with(other));
        }
        None
    }
}

/// Adds the spans of a Tag to those of others of its name, and answers whether it did. It doesn't where they lie neither
/// before nor behind all of these, or for want of memory.
pub(crate) fn add<'a>(
    extents: &mut IndexMap<&'a str, Extent>,
    name: &'a str,
    spans: &[Span],
) -> bool
    requires { are_spans spans.now ≡ true }
    ensures { result ≡ true → IsAdded spans.now name.now extents.old extents.new }
{
    let Some(extent) = Extent::of(spans) else {
        return false;
    };
    match extent.beside(extents.get(name).copied()) {
        Some(both) => extents.insert(name, both).is_ok(),
        None => false,
    }
}
