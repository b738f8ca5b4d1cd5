// Counts of many tags, added to others or taken off them in one go.
ghost use Rattle.std.specs.Prelude.{◌≡◌, ℕ, ◌+◌, ◌^◌, ◌<◌, ◌≤◌, ◌==◌, length, map, take, drop, vec_len, vec_capacity, if◌then◌else◌};
ghost use Rattle.rt_tags.specs.ManyCounts.{ArePlaced, lessened};
ghost use Rattle.rt_tags.specs.Toggles.{AreFrom, count_in, more_tags};

use crate::states::TagId;
use crate::toggles::{TagCount, insert_count, spot_of};

/// Up to so many tags are cheaper one by one, though each moves all counts behind its place.
pub(crate) const FEW: usize = 16;

// A tag has so many toggles more: at its place among the first counts, which are in order, if it stands there, else behind all.
pub(crate) fn put(counts: &mut Vec<TagCount>, ordered: usize, tag: TagId, more: u32)
    requires placed { ArePlaced ordered counts.old.items }
    requires some { 0 < more }
    requires few { count_in tag counts.old.items + more < 2 ^ 32 }
    requires room { count_in tag counts.old.items ≡ 0 → vec_len counts.old < vec_capacity counts.old }
    requires behind { count_in tag (drop ordered counts.old.items) ≡ 0 }
    ensures placed { ArePlaced ordered counts.new.items }
    ensures counts { (t : ℕ) → count_in t counts.new.items ≡ count_in t counts.old.items + (if tag == t then more else 0) }
    ensures first { (t : ℕ) → count_in t (take ordered counts.old.items) ≤ count_in t (take ordered counts.new.items) }
    ensures len { vec_len counts.new ≤ vec_len counts.old + (if count_in tag counts.old.items == 0 then 1 else 0) }
    ensures capacity { vec_capacity counts.new ≡ vec_capacity counts.old }
{
    let spot = spot_of(&counts[..ordered], tag);
    if spot.count == 0 {
        counts.push_reserved(TagCount { tag, count: more });
    } else {
        counts[spot.place] = TagCount {
            tag,
            count: spot.count + more,
        };
    }
}

// The last of the counts goes to its place among the first, which are in order.
fn place_last(counts: &mut Vec<TagCount>, ordered: usize)
    requires placed { ArePlaced ordered counts.old.items }
    requires more { ordered < vec_len counts.old }
    ensures placed { ArePlaced (ordered + 1) counts.new.items }
    ensures counts { (tag : ℕ) → count_in tag counts.new.items ≡ count_in tag counts.old.items }
    ensures len { vec_len counts.new ≡ vec_len counts.old }
    ensures capacity { vec_capacity counts.new ≡ vec_capacity counts.old }
{
    let last = counts[counts.len() - 1];
    counts.truncate(counts.len() - 1);
    let place = spot_of(&counts[..ordered], last.tag).place;
    insert_count(counts, place, last);
}

// Brings counts in order, of which the first are in order already, one by one.
fn place_each(counts: &mut Vec<TagCount>, ordered: usize)
    requires { ArePlaced ordered counts.old.items }
    ensures order { AreFrom 0 counts.new.items }
    ensures counts { (tag : ℕ) → count_in tag counts.new.items ≡ count_in tag counts.old.items }
    ensures len { vec_len counts.new ≡ vec_len counts.old }
    ensures capacity { vec_capacity counts.new ≡ vec_capacity counts.old }
{
    for placed in ordered..counts.len() {
        place_last(counts, placed);
    }
}

/// Brings counts in order, of which the first are in order already: the others one by one where they are few.
pub(crate) fn sort(counts: &mut Vec<TagCount>, ordered: usize)
    requires { ArePlaced ordered counts.old.items }
    ensures order { AreFrom 0 counts.new.items }
    ensures counts { (tag : ℕ) → count_in tag counts.new.items ≡ count_in tag counts.old.items }
    ensures len { vec_len counts.new ≡ vec_len counts.old }
    ensures capacity { vec_capacity counts.new ≡ vec_capacity counts.old }
{
    if counts.len() - ordered <= FEW {
        place_each(counts, ordered);
        return;
    }
    counts.sort_unstable_by_key(|c| c.tag.place());
}

/// Each tag has as many toggles more as others have of it.
pub(crate) fn add(counts: &mut Vec<TagCount>, others: &[TagCount])
    requires order { AreFrom 0 counts.old.items }
    requires others { AreFrom 0 others.now }
    requires room { vec_len counts.old + more_tags others.now counts.old.items ≤ vec_capacity counts.old }
    requires few { (tag : ℕ) → count_in tag counts.old.items + count_in tag others.now < 2 ^ 32 }
    ensures order { AreFrom 0 counts.new.items }
    ensures counts { (tag : ℕ) → count_in tag counts.new.items ≡ count_in tag counts.old.items + count_in tag others.now }
    ensures len { vec_len counts.new ≤ vec_len counts.old + more_tags others.now counts.old.items }
    ensures capacity { vec_capacity counts.new ≡ vec_capacity counts.old }
{
    let ordered = counts.len();
    for c in others {
        put(counts, ordered, c.tag, c.count);
    }
    sort(counts, ordered);
}

// Each count is less by those that others have of its tag.
fn lessen(counts: &mut Vec<TagCount>, others: &[TagCount])
    requires order { AreFrom 0 counts.old.items }
    requires others { AreFrom 0 others.now }
    requires less { (tag : ℕ) → count_in tag others.now ≤ count_in tag counts.old.items }
    ensures items { counts.new.items ≡ map (lessened others.now) counts.old.items }
    ensures len { vec_len counts.new ≡ vec_len counts.old }
    ensures capacity { vec_capacity counts.new ≡ vec_capacity counts.old }
{
    for i in 0..counts.len() {
        let c = counts[i];
        let less = spot_of(others, c.tag).count;
        counts[i] = TagCount {
            tag: c.tag,
            count: c.count - less,
        };
    }
}

/// Each tag has as many toggles less as others have of it.
pub(crate) fn take(counts: &mut Vec<TagCount>, others: &[TagCount])
    requires order { AreFrom 0 counts.old.items }
    requires others { AreFrom 0 others.now }
    requires less { (tag : ℕ) → count_in tag others.now ≤ count_in tag counts.old.items }
    ensures order { AreFrom 0 counts.new.items }
    ensures counts { (tag : ℕ) → count_in tag counts.old.items ≡ count_in tag counts.new.items + count_in tag others.now }
    ensures len { vec_len counts.new ≤ vec_len counts.old }
    ensures capacity { vec_capacity counts.new ≡ vec_capacity counts.old }
{
    lessen(counts, others);
    counts.retain(|c| c.count > 0);
}
