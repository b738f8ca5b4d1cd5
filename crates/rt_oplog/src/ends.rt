// The known ends of sites.
ghost use Rattle.std.specs.Prelude.{◌≡◌, ℕ, ◌+◌, ◌==◌, ◌<◌, ◌≤◌, max, if◌then◌else◌, length, IsOk, OnOk};
ghost use Rattle.rt_oplog.specs.Kept.{leading};
ghost use Rattle.rt_oplog.specs.Ends.{end_in, end_kept, is_of_another, room_for};
ghost use Rattle.rt_oplog.specs.declared.ends.TheConstants.{RECENT};

use rt_spans::SpanMap;
use rt_stamps::{Span, Stamp};
use std::alloc::{AllocError, Global};

/// A site and its known end.
#[derive(Clone, Copy)]
pub(crate) struct SiteEnd {
    pub site: u32,
    pub last: u64,
}

/// The known end of each site that has operations.
#[derive(Drop)]
pub(crate) struct Ends {
    /// Those of the last sites to come here, so that what a few sites do in turn looks nothing up. The first of a site tells.
    pub recent: [SiteEnd; RECENT],
    /// Those of the others, each at the site's stamp of count 0: a map that takes a further site at the cost of a logarithm,
    /// in whatever order sites come.
    pub others: SpanMap<u64>,
}

/// Of how many sites the end is at hand.
const RECENT: usize = 4;

/// Where a site's end stands among some, their number where it doesn't.
#[inline(always)]
fn place_of(recent: &[SiteEnd], site: u32) -> usize
    ensures place { result ≡ leading (is_of_another site) recent.now }
    ensures within { result ≤ length recent.now }
{
    for at in 0..recent.len() {
        if recent[at].site == site {
            return at;
        }
    }
    recent.len()
}

/// The end of a site that is kept.
fn kept(ends: &SpanMap<u64>, site: u32) -> u64
    ensures { result ≡ end_kept ends.now site }
{
    match ends.get(Stamp { count: 0, site }) {
        Some(last) => last,
        None => 0,
    }
}

/// Keeps the end of a site, where there is room for one.
fn keep(ends: &mut SpanMap<u64>, end: SiteEnd)
    requires { 0 < ends.old.room }
    ensures ends { (site : ℕ) → end_kept ends.new site ≡ (if end.site == site then end.last else end_kept ends.old site) }
    ensures room { ends.old.room ≤ ends.new.room + 1 }
{
    let span = Span {
        site: end.site,
        first: 0,
        last: 0,
    };
    if !ends.repaint(span, end.last) {
        ends.set(span, end.last);
    }
}

impl Ends {
    /// No site.
    pub(crate) fn new(alloc: Global) -> Ends
        ensures { (site : ℕ) → end_in result site ≡ 0 }
    {
        Ends {
            recent: [SiteEnd { site: 0, last: 0 }; RECENT],
            others: SpanMap::new(alloc),
        }
    }

    /// Makes room for `more` further sites. An error where `more` is above 2^32 - 1, or a growth was refused.
    #[inline(always)]
    pub(crate) fn reserve(&mut self, more: usize) -> Result<(), AllocError>
        ensures same { (site : ℕ) → end_in self.new site ≡ end_in self.old site }
        ensures ok { OnOk result (more ≤ room_for self.new) }
        ensures kept { room_for self.old ≤ room_for self.new }
        ensures succeeds { more ≤ room_for self.old → IsOk result }
    {
        if more > u32::MAX as usize {
            return Err(AllocError);
        }
        match self.others.reserve(more) {
            Ok(()) => Ok(()),
            Err(_) => Err(AllocError),
        }
    }

    /// The known end of a site, 0 if it has none.
    #[inline(always)]
    pub(crate) fn get(&self, site: u32) -> u64
        ensures { result ≡ end_in self.now site }
    {
        let at = place_of(&self.recent, site);
        if at < RECENT {
            self.recent[at].last
        } else {
            kept(&self.others, site)
        }
    }

    /// Brings the end of a site to hand that isn't there, in front. There is room for one more site.
    fn bring(&mut self, site: u32)
        requires room { 0 < room_for self.old }
        requires away { RECENT ≤ leading (is_of_another site) self.old.recent }
        ensures place { leading (is_of_another site) self.new.recent ≡ 0 }
        ensures same { (s : ℕ) → end_in self.new s ≡ end_in self.old s }
        ensures room { room_for self.old ≤ room_for self.new + 1 }
    {
        let last = kept(&self.others, site);
        let [one, two, three, leaving] = self.recent;
        keep(&mut self.others, leaving);
        self.recent = [SiteEnd { site, last }, one, two, three];
    }

    /// Where a site's end is at hand. There is room for one more site.
    #[inline(always)]
    fn at_hand(&mut self, site: u32) -> usize
        requires { 0 < room_for self.old }
        ensures place { result ≡ leading (is_of_another site) self.new.recent }
        ensures within { result < RECENT }
        ensures same { (s : ℕ) → end_in self.new s ≡ end_in self.old s }
        ensures room { room_for self.old ≤ room_for self.new + 1 }
    {
        let at = place_of(&self.recent, site);
        if at < RECENT {
            return at;
        }
        self.bring(site);
        0
    }

    /// A last count of a site, and what its known end was. There is room for one more site.
    #[inline(always)]
    pub(crate) fn raise(&mut self, site: u32, last: u64) -> u64
        requires { 0 < room_for self.old }
        ensures known { result ≡ end_in self.old site }
        ensures ends { (s : ℕ) → end_in self.new s ≡ (if site == s then max last (end_in self.old s) else end_in self.old s) }
        ensures room { room_for self.old ≤ room_for self.new + 1 }
    {
        let at = self.at_hand(site);
        let known = self.recent[at].last;
        self.recent[at].last = last.max(known);
        known
    }
}
