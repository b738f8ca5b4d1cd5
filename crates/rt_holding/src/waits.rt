// Which of the held operations may be tried, and at which counts others may be.
ghost use Rattle.std.specs.Prelude.{◌≡◌, ℕ, ◌+◌, ◌<◌, ◌≤◌, ◌==◌, ◌&&◌, ◌||◌, ◌∷◌, vec_len, Bool, true, false, [], length, IfNone, IfSome, OnErr, OnOk, OnSome};
ghost use Rattle.std.specs.List.{list_all, list_any};
ghost use Rattle.std.specs.BinaryHeap.{IsHeap, KeepsHeap, heap_capacity, heap_items, heap_len};
ghost use Rattle.std.specs.BTreeMap.{is_at};
ghost use Rattle.std.specs.BTreeSet.{contains};
ghost use Rattle.rt_ops.specs.Operations.{has_bad_stamp};
ghost use Rattle.rt_holding.specs.Kept.{Standing, by_stamp_and_arrival};
ghost use Rattle.rt_rga.specs.Kept.{goes_past};
ghost use Rattle.rt_holding.specs.Waits.{HasLess, HasMore, HasNoneOf, IsFirstDue, IsFirstOf, IsKeyedMore, IsLess, IsNotedMore, IsPassedIn, IsReady, KeepOthers, KeepsOtherPlaces, LeavesNone, NoneIsBefore};
ghost use Rattle.rt_holding.specs.Waits.{are_all_kept, by_key, by_later, has_key, is_any_kept, is_due, is_keyed, is_place_in, is_noted, is_waited_for, key_count, least_key};

use crate::taking::Taking;
use crate::trying::Standing;
use rt_oplog::{Edit, Op};
use rt_stamps::{ROOT, Span, Stamp};
use std::alloc::{AllocError, Global};
use std::cmp::Reverse;
use std::collections::{BTreeMap, BTreeSet, BinaryHeap};

/// The known end of a site is to come to a count, and what for: where a held operation stands.
#[derive(Clone, Copy, PartialEq, Eq, PartialOrd, Ord)]
pub(crate) struct Key {
    pub(crate) site: u32,
    pub(crate) count: u64,
    pub(crate) place: Standing,
}

pub(crate) type KeySet = BTreeSet<Key>;

/// Of a site up to where it was looked through.
pub(crate) type Ends = BTreeMap<u32, u64>;

/// The keys of held operations.
#[derive(Drop)]
pub(crate) struct Keys {
    /// At the first stamp of a span that hasn't begun, and at what is waited for of an operation's own site.
    pub(crate) alone: KeySet,
    /// At the last stamp of a span that has begun, and goes past its site's known end.
    pub(crate) begun: KeySet,
    /// For each site of which a span has begun: the count up to which its stamps were looked through for gaps.
    pub(crate) ends: Ends,
}

/// Where those stand that may be tried, the first of them on top.
pub(crate) type Due = BinaryHeap<Reverse<Standing>>;

/// What held operations wait for. There is room for all of them among those that are due, and among those that are looked at again.
#[derive(Drop)]
pub(crate) struct Waits {
    pub(crate) keys: Keys,
    pub(crate) due: Due,
    /// Those that are looked at after each operation that is taken.
    pub(crate) again: Vec<Standing>,
}

impl Waits {
    pub(crate) fn new(alloc: Global) -> Waits
        ensures { IsReady 0 result }
    {
        Waits {
            keys: Keys {
                alone: BTreeSet::new(alloc),
                begun: BTreeSet::new(alloc),
                ends: BTreeMap::new(alloc),
            },
            due: BinaryHeap::new(alloc),
            again: Vec::new(alloc),
        }
    }

    /// None is due, and none is looked at again.
    pub(crate) fn are_over(&self) -> bool
        ensures { result ≡ (vec_len self.now.again == 0) && (heap_len self.now.due == 0) }
    {
        self.again.len() == 0 && self.due.len() == 0
    }
}

// WHAT IS DUE

/// One more is due.
pub(crate) fn push_due(due: &mut Due, place: Standing)
    requires { heap_len due.old < heap_capacity due.old }
    ensures due { (p : Standing) → is_due p due.new ≡ is_at (by_stamp_and_arrival p) place || is_due p due.old }
    ensures len { heap_len due.new ≡ heap_len due.old + 1 }
    ensures capacity { heap_capacity due.old ≤ heap_capacity due.new }
    ensures heap { KeepsHeap by_later (heap_items due.old) (heap_items due.new) }
{
    let pushed: Result<_, _> = due.push(Reverse(place));
    pushed.unwrap();
}

/// Takes a place out for as long as it stands on top: altogether, where none goes before it.
fn drop_same(due: &mut Due, place: Standing)
    requires { IsHeap by_later (heap_items due.old) }
    ensures heap { IsHeap by_later (heap_items due.new) }
    ensures due { (p : Standing) → is_due p due.old ≡ true → (is_due p due.new || is_at (by_stamp_and_arrival p) place) ≡ true }
    ensures gone { NoneIsBefore place due.old → is_due place due.new ≡ false }
    ensures len { heap_len due.new ≤ heap_len due.old }
    ensures capacity { heap_capacity due.new ≡ heap_capacity due.old }
{
    while let Some(&Reverse(top)) = due.peek() {
        if top != place {
            return;
        }
        let _same = due.pop();
    }
}

/// Takes out the first of those that are due.
pub(crate) fn pop_first(due: &mut Due) -> Option<Standing>
    requires { IsHeap by_later (heap_items due.old) }
    ensures heap { IsHeap by_later (heap_items due.new) }
    ensures some { IfSome result (λ place. IsFirstDue place due.old due.new) }
    ensures none { IfNone result ((p : Standing) → is_due p due.old ≡ false) }
    ensures len { OnSome result (heap_len due.new < heap_len due.old) }
    ensures fewer { heap_len due.new ≤ heap_len due.old }
    ensures capacity { heap_capacity due.new ≡ heap_capacity due.old }
{
    let Reverse(first) = due.pop()?;
    drop_same(due, first);
    Some(first)
}

/// One more is looked at again.
pub(crate) fn keep(waits: &mut Waits, place: Standing)
    requires { IsReady 1 waits.old }
    ensures ready { IsReady 0 waits.new }
    ensures listed { (p : Standing) → is_place_in p waits.new.again.items ≡ is_place_in p waits.old.again.items || is_at (by_stamp_and_arrival p) place }
    ensures keys { waits.new.keys ≡ waits.old.keys }
    ensures due { waits.new.due ≡ waits.old.due }
{
    let pushed: Result<_, _> = waits.again.push(place);
    pushed.unwrap();
}

// KEYS

impl Key {
    /// All of a site stand behind it, or at it.
    fn least(site: u32) -> Key
        ensures { result ≡ least_key site }
    {
        Key {
            site,
            count: 0,
            place: (ROOT, 0),
        }
    }
}

/// The first key of a site.
pub(crate) fn first_key(keys: &KeySet, site: u32) -> Option<Key>
    ensures some { IfSome result (IsFirstOf keys.now site) }
    ensures none { IfNone result (HasNoneOf keys.now site) }
{
    let first = keys.range(Key::least(site)..).next()?;
    if first.site == site {
        Some(*first)
    } else {
        None
    }
}

/// The first key of a site to which its known end has come.
pub(crate) fn first_passed(keys: &KeySet, site: u32, known: u64) -> Option<Key>
    ensures some { IfSome result (IsPassedIn keys.now site known) }
    ensures none { IfNone result (LeavesNone keys.now site known) }
{
    let key = first_key(keys, site)?;
    if key.count <= known { Some(key) } else { None }
}

/// All that are looked at again are due.
pub(crate) fn look_again(waits: &mut Waits)
    requires { IsReady 0 waits.old }
    ensures ready { IsReady 0 waits.new }
    ensures keys { waits.new.keys ≡ waits.old.keys }
    ensures due { (p : Standing) → is_due p waits.old.due ≡ true → is_due p waits.new.due ≡ true }
    ensures again { (p : Standing) → is_place_in p waits.old.again.items ≡ true → is_due p waits.new.due ≡ true }
{
    while let Some(place) = waits.again.pop() {
        push_due(&mut waits.due, place);
    }
}

/// Whether a key is kept.
pub(crate) fn has_it(keys: &KeySet, stamp: Stamp, place: Standing) -> bool
    ensures { result ≡ has_key keys.now place stamp }
{
    keys.contains(&Key {
        site: stamp.site,
        count: stamp.count,
        place,
    })
}

// WHAT AN OPERATION WAITS FOR

/// A stamp alone.
fn only(stamp: Stamp) -> Span
    ensures { result ≡ record { site = stamp.site; first = stamp.count; last = stamp.count } }
{
    Span {
        site: stamp.site,
        first: stamp.count,
        last: stamp.count,
    }
}

/// Whether a span goes past the known end of its site.
pub(crate) fn is_open<T: Taking>(site: &T, span: Span) -> bool
    ensures { result ≡ goes_past (T.log site.now) span }
{
    span.site != 0 && span.first <= span.last && site.known(span.site) < span.last
}

/// Makes room for two more, among those that are due and those that are looked at again.
fn make_room(waits: &mut Waits) -> Result<(), AllocError>
    requires { IsReady 0 waits.old }
    ensures ready { (more : ℕ) → IsReady more waits.old → IsReady more waits.new }
    ensures room { OnOk result (IsReady 2 waits.new) }
    ensures keys { waits.new.keys ≡ waits.old.keys }
    ensures due { heap_items waits.new.due ≡ heap_items waits.old.due }
    ensures again { waits.new.again.items ≡ waits.old.again.items }
{
    let keys = waits.keys.alone.len() + waits.keys.begun.len() + 2;
    waits.due.reserve(waits.again.len() + keys)?;
    waits.again.reserve(waits.due.len() + keys)
}

/// One more key.
fn put_key(waits: &mut Waits, stamp: Stamp, place: Standing) -> Result<(), AllocError>
    requires { IsReady 1 waits.old }
    ensures ready { IsReady 1 waits.new }
    ensures keyed { IsKeyedMore place waits.old waits.new }
    ensures kept { OnOk result (has_key waits.new.keys.alone place stamp ≡ true) }
{
    make_room(waits)?;
    let key = Key {
        site: stamp.site,
        count: stamp.count,
        place,
    };
    match waits.keys.alone.insert(key) {
        Ok(_) => Ok(()),
        Err(_) => Err(AllocError),
    }
}

/// What comes of a site behind a known end is to be looked through.
fn note_end(ends: &mut Ends, site: u32, known: u64) -> Result<(), AllocError>
    ensures noted { OnOk result (is_noted ends.new site known ≡ true) }
    ensures more { IsNotedMore ends.old ends.new }
{
    if let Some(&end) = ends.get(&site) {
        if end <= known {
            return Ok(());
        }
    }
    match ends.insert(site, known) {
        Ok(_) => Ok(()),
        Err(_) => Err(AllocError),
    }
}

/// One more key, of a span that has begun.
pub(crate) fn put_begun(keys: &mut Keys, key: Key, known: u64) -> Result<(), AllocError>
    ensures kept { OnOk result (contains by_key keys.new.begun key ≡ true) }
    ensures noted { OnOk result (is_noted keys.new.ends key.site known ≡ true) }
    ensures alone { keys.new.alone ≡ keys.old.alone }
    ensures others { KeepsOtherPlaces key.place keys.old keys.new }
    ensures more { HasMore keys.old keys.new }
    ensures len { key_count keys.new ≤ key_count keys.old + 1 }
    ensures same { OnErr result (key_count keys.new ≡ key_count keys.old) }
{
    note_end(&mut keys.ends, key.site, known)?;
    match keys.begun.insert(key) {
        Ok(_) => Ok(()),
        Err(_) => Err(AllocError),
    }
}

/// That of a span that goes past the known end of its site: at its first stamp, or once that is known at its last.
fn put_open<T: Taking>(
    site: &T,
    waits: &mut Waits,
    span: Span,
    place: Standing,
) -> Result<(), AllocError>
    requires { IsReady 1 waits.old }
    ensures ready { IsReady 1 waits.new }
    ensures keyed { IsKeyedMore place waits.old waits.new }
    ensures kept { OnOk result (is_waited_for waits.new.keys (T.log site.now) place span ≡ true) }
{
    let known = site.known(span.site);
    if known < span.first {
        return put_key(
            waits,
            Stamp {
                count: span.first,
                site: span.site,
            },
            place,
        );
    }
    make_room(waits)?;
    let key = Key {
        site: span.site,
        count: span.last,
        place,
    };
    put_begun(&mut waits.keys, key, known)
}

/// That of a span, if it goes past the known end of its site.
fn put_span<T: Taking>(
    site: &T,
    waits: &mut Waits,
    span: Span,
    place: Standing,
) -> Result<(), AllocError>
    requires { IsReady 1 waits.old }
    ensures ready { IsReady 1 waits.new }
    ensures keyed { IsKeyedMore place waits.old waits.new }
    ensures kept { OnOk result (is_waited_for waits.new.keys (T.log site.now) place span ≡ true) }
{
    if is_open(site, span) {
        put_open(site, waits, span, place)
    } else {
        Ok(())
    }
}

/// Those of all spans.
fn put_spans<T: Taking>(
    site: &T,
    waits: &mut Waits,
    spans: &[Span],
    place: Standing,
) -> Result<(), AllocError>
    requires { IsReady 1 waits.old }
    ensures ready { IsReady 1 waits.new }
    ensures keyed { IsKeyedMore place waits.old waits.new }
    ensures kept { OnOk result (list_all (is_waited_for waits.new.keys (T.log site.now) place) spans.now ≡ true) }
{
    for span in spans {
        put_span(site, waits, *span, place)?;
    }
    Ok(())
}

/// Those of an operation: for the one before it; or for one in its own place, and for what it names.
pub(crate) fn put_keys<T: Taking>(
    site: &T,
    waits: &mut Waits,
    op: &Op,
    place: Standing,
) -> Result<(), AllocError>
    requires sound { has_bad_stamp op.now ≡ false }
    requires ready { IsReady 1 waits.old }
    ensures ready { IsReady 1 waits.new }
    ensures keyed { IsKeyedMore place waits.old waits.new }
    ensures kept { OnOk result (are_all_kept waits.new.keys (T.log site.now) place op.now ≡ true) }
{
    let own = op.site();
    let prev = op.prev();
    if site.known(own) < prev {
        return put_key(
            waits,
            Stamp {
                count: prev,
                site: own,
            },
            place,
        );
    }
    put_key(
        waits,
        Stamp {
            count: prev + 1,
            site: own,
        },
        place,
    )?;
    match op.edit() {
        Edit::Insert { after, .. } => put_span(site, waits, only(*after), place),
        Edit::Delete { spans } => put_spans(site, waits, spans, place),
        Edit::Tag { spans, .. } => put_spans(site, waits, spans, place),
    }
}

/// The keys of an operation at a place, and room to look at it again.
pub(crate) fn prepare<T: Taking>(
    site: &T,
    waits: &mut Waits,
    op: &Op,
    place: Standing,
) -> Result<(), AllocError>
    requires sound { has_bad_stamp op.now ≡ false }
    requires ready { IsReady 0 waits.old }
    ensures ready { IsReady 0 waits.new }
    ensures room { OnOk result (IsReady 1 waits.new) }
    ensures others { KeepsOtherPlaces place waits.old.keys waits.new.keys }
    ensures due { heap_items waits.new.due ≡ heap_items waits.old.due }
    ensures again { waits.new.again.items ≡ waits.old.again.items }
{
    make_room(waits)?;
    if put_keys(site, waits, op, place).is_ok() {
        return Ok(());
    }
    forget(site, &mut waits.keys, op, place);
    Err(AllocError)
}

/// Takes a key out, if it is there.
fn drop_key(keys: &mut KeySet, stamp: Stamp, place: Standing)
    ensures gone { has_key keys.new place stamp ≡ false }
    ensures less { IsLess keys.old keys.new }
    ensures others { KeepOthers place keys.old keys.new }
    ensures fewer { length keys.new.keys ≤ length keys.old.keys }
{
    let _was_there = keys.remove(&Key {
        site: stamp.site,
        count: stamp.count,
        place,
    });
}

/// That of a span that goes past the known end of its site.
fn drop_span<T: Taking>(site: &T, keys: &mut Keys, span: Span, place: Standing)
    ensures gone { (goes_past (T.log site.now) span && is_keyed keys.new (T.log site.now) place span) ≡ false }
    ensures less { HasLess keys.old keys.new }
    ensures others { KeepsOtherPlaces place keys.old keys.new }
    ensures fewer { key_count keys.new ≤ key_count keys.old }
{
    if !is_open(site, span) {
        return;
    }
    if site.known(span.site) < span.first {
        let first = Stamp {
            count: span.first,
            site: span.site,
        };
        drop_key(&mut keys.alone, first, place);
    } else {
        let last = Stamp {
            count: span.last,
            site: span.site,
        };
        drop_key(&mut keys.begun, last, place);
    }
}

fn drop_spans<T: Taking>(site: &T, keys: &mut Keys, spans: &[Span], place: Standing)
    ensures gone { list_any (λ span. goes_past (T.log site.now) span && is_keyed keys.new (T.log site.now) place span) spans.now ≡ false }
    ensures less { HasLess keys.old keys.new }
    ensures others { KeepsOtherPlaces place keys.old keys.new }
    ensures fewer { key_count keys.new ≤ key_count keys.old }
{
    for span in spans {
        drop_span(site, keys, *span, place);
    }
}

/// Takes out those of an operation's own site: for the one before it, and for one in its own place.
fn drop_own(keys: &mut KeySet, op: &Op, place: Standing)
    ensures before { has_key keys.new place (record { count = op.now.prev; site = op.now.site }) ≡ false }
    ensures next { has_bad_stamp op.now ≡ false → has_key keys.new place (record { count = op.now.prev + 1; site = op.now.site }) ≡ false }
    ensures less { IsLess keys.old keys.new }
    ensures others { KeepOthers place keys.old keys.new }
    ensures fewer { length keys.new.keys ≤ length keys.old.keys }
{
    let site = op.site();
    let prev = op.prev();
    drop_key(keys, Stamp { count: prev, site }, place);
    let count = prev.saturating_add(1);
    drop_key(keys, Stamp { count, site }, place);
}

/// Takes out the keys of an operation at a place.
pub(crate) fn forget<T: Taking>(site: &T, keys: &mut Keys, op: &Op, place: Standing)
    ensures gone { has_bad_stamp op.now ≡ false → is_any_kept keys.new (T.log site.now) place op.now ≡ false }
    ensures less { HasLess keys.old keys.new }
    ensures others { KeepsOtherPlaces place keys.old keys.new }
    ensures fewer { key_count keys.new ≤ key_count keys.old }
{
    drop_own(&mut keys.alone, op, place);
    match op.edit() {
        Edit::Insert { after, .. } => drop_span(site, keys, only(*after), place),
        Edit::Delete { spans } => drop_spans(site, keys, spans, place),
        Edit::Tag { spans, .. } => drop_spans(site, keys, spans, place),
    }
}
