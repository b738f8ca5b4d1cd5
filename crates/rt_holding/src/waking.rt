// Held operations are due when what they wait for has come.
ghost use Rattle.std.specs.Prelude.{◌≡◌, ℕ, ◌<◌, ◌≤◌, ◌==◌, ◌⊎◌, false, IsTrue, length, true};
ghost use Rattle.std.specs.BTreeMap.{get};
ghost use Rattle.std.specs.BTreeSet.{contains};
ghost use Rattle.std.specs.List.{list_any};
ghost use Rattle.rt_stamps.specs.Spans.{is_in_span};
ghost use Rattle.rt_holding.specs.declared.waking.Passed.TheVariants.{Due};
ghost use Rattle.rt_rga.specs.Histories.{IsHistory};
ghost use Rattle.rt_holding.specs.Kept.{Standing, by_stamp_and_arrival};
ghost use Rattle.rt_rga.specs.Kept.{goes_past};
ghost use Rattle.rt_holding.specs.Waiting.{targets};
ghost use Rattle.rt_holding.specs.Waits.{HasMore, IfIsThere, IsReady, by_key, is_due};
ghost use Rattle.rt_holding.specs.Waking.{AreAllDue, AreEndsPassed, IsLookedThrough, IsPassedOn, IsSeenTo, IsStillWaiting, IsToCome, IsWoken};
ghost use Rattle.rt_holding.specs.Waking.{stamp_of_key};

use crate::taking::Taking;
use crate::trying::{Ops, Standing};
use crate::waits::{
    Key, KeySet, Waits, first_key, first_passed, has_it, is_open, look_again, push_due, put_begun,
};
use rt_oplog::{Edit, Op};
use rt_stamps::{Span, Stamp};

/// What becomes of an operation of which a key is passed.
#[derive(Clone, Copy, Debug, PartialEq, Eq)]
enum Passed {
    /// It may be tried.
    Due,
    /// It waits for the last stamp of the span, of that count.
    GoesOn(u64),
    /// It waits for other spans.
    Sleeps,
}

/// Whether a span has the stamp of a key.
fn has_stamp(span: Span, key: Key) -> bool
    ensures { result ≡ is_in_span span (stamp_of_key key) }
{
    key.site == span.site && span.first <= key.count && key.count <= span.last
}

/// Whether the span at an index, if there is one, goes past the known end of its site.
fn is_open_at<T: Taking>(site: &T, spans: &[Span], index: usize) -> bool
    ensures { IsTrue result → list_any (goes_past (T.log site.now)) spans.now ≡ true }
{
    match spans.get(index) {
        Some(span) => is_open(site, *span),
        None => false,
    }
}

/// Whether some span goes past the known end of its site: those near an index are looked at first.
fn is_any_open<T: Taking>(site: &T, spans: &[Span], index: usize) -> bool
    requires { index < length spans.now }
    ensures { IsTrue result → list_any (goes_past (T.log site.now)) spans.now ≡ true }
{
    for distance in 0..spans.len() {
        if distance <= index && is_open_at(site, spans, index - distance) {
            return true;
        }
        if distance < spans.len() - index && is_open_at(site, spans, index + distance) {
            return true;
        }
    }
    false
}

/// Whether the key of a span's first stamp is passed, and kept still.
fn is_pending(keys: &KeySet, spans: &[Span], index: usize, key: Key, known: u64) -> bool
    ensures { IsTrue result → IsToCome known keys.now key spans.now }
{
    let Some(&later) = spans.get(index) else {
        return false;
    };
    if later.site != key.site || later.last < later.first {
        return false;
    }
    if later.first < key.count || known < later.first {
        return false;
    }
    has_it(
        keys,
        Stamp {
            count: later.first,
            site: later.site,
        },
        key.place,
    )
}

/// What becomes of an operation that names spans, and of which a key is passed: only what became known of that span is looked at.
fn passed_among<T: Taking>(site: &T, keys: &KeySet, spans: &[Span], key: Key) -> Passed
    ensures { IsPassedOn (T.log site.now) keys.now key spans.now result }
{
    if key.site == 0 {
        return Passed::Due;
    }
    let index = spans.partition_point(|span| (span.site, span.last) < (key.site, key.count));
    let Some(&span) = spans.get(index) else {
        return Passed::Due;
    };
    let known = site.known(key.site);
    let came = Span {
        site: key.site,
        first: key.count,
        last: span.last.min(known),
    };
    if !has_stamp(span, key) || site.has_gap(came) {
        return Passed::Due;
    }
    if known < span.last {
        return Passed::GoesOn(span.last);
    }
    if is_pending(keys, spans, index + 1, key, known) {
        return Passed::Sleeps;
    }
    if is_any_open(site, spans, index) {
        Passed::Sleeps
    } else {
        Passed::Due
    }
}

/// What becomes of an operation of which a key is passed. One that waits for its own site may be tried.
fn passed_of<T: Taking>(site: &T, keys: &KeySet, op: &Op, key: Key) -> Passed
    ensures { (result ≡ Due) ⊎ (((key.site == op.now.site) ≡ false) × IsPassedOn (T.log site.now) keys.now key (targets op.now.body) result) }
{
    if key.site == op.site() {
        return Passed::Due;
    }
    match op.edit() {
        Edit::Insert { .. } => Passed::Due,
        Edit::Delete { spans } => passed_among(site, keys, spans, key),
        Edit::Tag { spans, .. } => passed_among(site, keys, spans, key),
    }
}

/// A key was passed, and taken out: the operation at its place is due, or waits on.
fn pass<T: Taking>(site: &T, ops: &Ops, waits: &mut Waits, key: Key)
    requires { IsReady 1 waits.old }
    ensures ready { IsReady 0 waits.new }
    ensures due { (p : Standing) → is_due p waits.old.due ≡ true → is_due p waits.new.due ≡ true }
    ensures alone { waits.new.keys.alone ≡ waits.old.keys.alone }
    ensures more { HasMore waits.old.keys waits.new.keys }
    ensures here { IfIsThere (λ op. (is_due key.place waits.new.due ≡ true) ⊎ IsSeenTo (T.log site.now) waits.new.keys key op)
        (get by_stamp_and_arrival ops.now key.place) }
{
    let Some(Some(op)) = ops.get(&key.place) else {
        return;
    };
    match passed_of(site, &waits.keys.alone, op, key) {
        Passed::Due => push_due(&mut waits.due, key.place),
        Passed::GoesOn(last) => {
            let end = Key { count: last, ..key };
            let known = site.known(key.site);
            match put_begun(&mut waits.keys, end, known) {
                Ok(()) => {}
                Err(_) => push_due(&mut waits.due, key.place),
            }
        }
        Passed::Sleeps => {}
    }
}

/// Whether an operation of which a span has come to its end waits for others.
fn is_waiting<T: Taking>(site: &T, keys: &KeySet, spans: &[Span], key: Key) -> bool
    ensures { IsTrue result → IsStillWaiting (T.log site.now) keys.now key spans.now }
{
    let index = spans.partition_point(|span| (span.site, span.last) < (key.site, key.count));
    if index >= spans.len() {
        return false;
    }
    is_pending(keys, spans, index + 1, key, site.known(key.site)) || is_any_open(site, spans, index)
}

/// Whether an operation waits at a key, as `is_waiting` has it, for the spans that it names.
fn waits_on<T: Taking>(site: &T, keys: &KeySet, op: &Op, key: Key) -> bool
    ensures { IsTrue result → IsStillWaiting (T.log site.now) keys.now key (targets op.now.body) }
{
    match op.edit() {
        Edit::Insert { .. } => false,
        Edit::Delete { spans } => is_waiting(site, keys, spans, key),
        Edit::Tag { spans, .. } => is_waiting(site, keys, spans, key),
    }
}

/// A span of the operation at a key's place came to its end: it is due, or waits for others.
fn end_at<T: Taking>(site: &T, ops: &Ops, waits: &mut Waits, key: Key)
    requires { IsReady 1 waits.old }
    ensures ready { IsReady 0 waits.new }
    ensures due { (p : Standing) → is_due p waits.old.due ≡ true → is_due p waits.new.due ≡ true }
    ensures keys { waits.new.keys ≡ waits.old.keys }
    ensures here { (is_due key.place waits.new.due ≡ true)
        ⊎ IfIsThere (λ op. IsStillWaiting (T.log site.now) waits.old.keys.alone key (targets op.body)) (get by_stamp_and_arrival ops.now key.place) }
{
    let Some(Some(op)) = ops.get(&key.place) else {
        return;
    };
    if !waits_on(site, &waits.keys.alone, op, key) {
        push_due(&mut waits.due, key.place);
    }
}

/// All are due of which a span of a site has begun.
fn wake_begun(waits: &mut Waits, made_by: u32)
    requires { IsReady 0 waits.old }
    ensures ready { IsReady 0 waits.new }
    ensures due { (p : Standing) → is_due p waits.old.due ≡ true → is_due p waits.new.due ≡ true }
    ensures alone { waits.new.keys.alone ≡ waits.old.keys.alone }
    ensures ends { waits.new.keys.ends ≡ waits.old.keys.ends }
    ensures others { (key : Key) → (made_by == key.site) ≡ false → contains by_key waits.new.keys.begun key ≡ contains by_key waits.old.keys.begun key }
    ensures all { AreAllDue made_by waits.old.keys.begun waits.new.due }
{
    while let Some(key) = first_key(&waits.keys.begun, made_by) {
        let _was_there = waits.keys.begun.remove(&key);
        push_due(&mut waits.due, key.place);
    }
}

/// What came of a site is looked through, once for all of which a span of it has begun. With a gap, all of them are due: each
/// names a stamp that can never be known.
fn look_through<T: Taking>(site: &T, waits: &mut Waits, made_by: u32)
    requires { IsReady 0 waits.old }
    ensures ready { IsReady 0 waits.new }
    ensures looked { IsLookedThrough made_by (T.log site.now) waits.old waits.new }
{
    let Some(&end) = waits.keys.ends.get(&made_by) else {
        return;
    };
    let known = site.known(made_by);
    if known <= end {
        return;
    }
    let came = Span {
        site: made_by,
        first: end + 1,
        last: known,
    };
    let noted: Result<_, _> = waits.keys.ends.insert(made_by, known);
    let _end = noted.unwrap();
    if site.has_gap(came) {
        wake_begun(waits, made_by);
    }
}

/// Of a site's spans that had begun, those that have come to their end are seen to.
fn pass_ends<T: Taking>(site: &T, ops: &Ops, waits: &mut Waits, made_by: u32)
    requires { IsReady 0 waits.old }
    ensures ready { IsReady 0 waits.new }
    ensures passed { AreEndsPassed made_by (T.log site.now) ops.now waits.old waits.new }
{
    let known = site.known(made_by);
    while let Some(key) = first_passed(&waits.keys.begun, made_by, known) {
        let _was_there = waits.keys.begun.remove(&key);
        end_at(site, ops, waits, key);
    }
}

/// The log has grown by operations of a site: all are due that may be tried since then, or are looked at again.
pub(crate) fn wake<T: Taking>(site: &T, ops: &Ops, waits: &mut Waits, made_by: u32)
    requires { IsReady 0 waits.old }
    ensures ready { IsReady 0 waits.new }
    ensures woken { IsWoken made_by (T.log site.now) ops.now waits.old waits.new }
    ensures history { IsHistory (T.log site.now) }
{
    look_again(waits);
    look_through(site, waits, made_by);
    pass_ends(site, ops, waits, made_by);
    let known = site.known(made_by);
    while let Some(key) = first_passed(&waits.keys.alone, made_by, known) {
        let _was_there = waits.keys.alone.remove(&key);
        pass(site, ops, waits, key);
    }
}
