// How many toggles there are of each tag.
ghost use Rattle.std.specs.Prelude.{◌≡◌, ℕ, ◌+◌, ◌^◌, ◌<◌, ◌≤◌, ◌==◌, IsOk, OnOk, OnErr, IsOkUnless, length, true, vec_len, vec_capacity, if◌then◌else◌};
ghost use Rattle.std.specs.List.{insert, prefix_len};
ghost use Rattle.rt_tags.specs.ManyCounts.{is_tag_before};
ghost use Rattle.rt_tags.specs.Toggles.{AreFrom, HasRoomFor, count_in, count_of, more_tags};

use crate::many::{self, FEW};
use crate::states::TagId;
use rt_stamps::Fault;
use std::alloc::Global;
use std::marker::Model;

/// A tag, and how many toggles of it there are.
#[derive(Clone, Copy, Debug, PartialEq, Eq)]
pub struct TagCount {
    pub tag: TagId,
    pub count: u32,
}

/// How many toggles a stretch of text has of each tag: borders of the tag's ranges. It is short where
/// few tags have a border, and a look-up takes about a logarithm of its length.
#[derive(Drop)]
pub struct Toggles {
    // the tags that have toggles, in order
    pub(crate) counts: Vec<TagCount>,
}

impl Model for Toggles {
    ghost use Rattle.std.specs.Prelude.{vec_capacity};
    ghost use Rattle.rt_tags.specs.Toggles.{TagCounts, AreFrom};

    ghost Value = { TagCounts };

    ghost view = { λ t. record { counts = t.counts.items; capacity = vec_capacity t.counts } };

    ghost invariant = { λ t. AreFrom 0 t.counts.items };
}

// Where a tag's count stands among counts, or would stand, and how many toggles it tells.
#[derive(Clone, Copy)]
pub(crate) struct CountPlace {
    pub(crate) place: usize,
    pub(crate) count: u32,
}

// How many counts are those of lesser tags.
fn tags_below(counts: &[TagCount], tag: TagId) -> usize
    requires { AreFrom 0 counts.now }
    ensures place { result ≡ prefix_len (is_tag_before tag) counts.now }
    ensures within { result ≤ length counts.now }
{
    counts.partition_point(|c| c.tag.place() < tag.place())
}

// Where a tag's count is.
pub(crate) fn spot_of(counts: &[TagCount], tag: TagId) -> CountPlace
    requires { AreFrom 0 counts.now }
    ensures place { result.place ≡ prefix_len (is_tag_before tag) counts.now }
    ensures within { result.place ≤ length counts.now }
    ensures count { result.count ≡ count_in tag counts.now }
{
    let place = tags_below(counts, tag);
    let count = if place < counts.len() && counts[place].tag == tag {
        counts[place].count
    } else {
        0
    };
    CountPlace { place, count }
}

// Puts a count in, where there is room.
pub(crate) fn insert_count(counts: &mut Vec<TagCount>, place: usize, count: TagCount)
    requires within { place ≤ vec_len counts.old }
    requires room { vec_len counts.old < vec_capacity counts.old }
    ensures items { counts.new.items ≡ insert counts.old.items place count }
    ensures len { vec_len counts.new ≡ vec_len counts.old + 1 }
    ensures capacity { vec_capacity counts.new ≡ vec_capacity counts.old }
{
    let _ = counts.insert(place, count);
}

impl Toggles {
    /// No toggles. It takes no memory.
    pub fn new(alloc: Global) -> Toggles
        ensures counts { (tag : ℕ) → count_of tag result ≡ 0 }
        ensures capacity { result.capacity ≡ 0 }
    {
        Toggles {
            counts: Vec::new(alloc),
        }
    }

    /// The tags that have toggles, in order, each with how many it has.
    pub fn counts(&self) -> &[TagCount]
        ensures counts { result.now ≡ self.now.counts }
        ensures order { AreFrom 0 result.now }
    {
        &self.counts
    }

    /// How many toggles of a tag there are.
    pub fn of(&self, tag: TagId) -> u32
        ensures { result ≡ count_of tag self.now }
    {
        spot_of(self.counts.as_slice(), tag).count
    }

    /// A tag has so many toggles more. It takes no memory.
    pub fn add(&mut self, tag: TagId, n: u32)
        requires room { count_of tag self.old ≡ 0 → HasRoomFor 1 self.old }
        requires few { count_of tag self.old + n < 2 ^ 32 }
        ensures counts { (t : ℕ) → count_of t self.new ≡ count_of t self.old + (if tag == t then n else 0) }
        ensures tags { length self.new.counts ≤ length self.old.counts + (if count_of tag self.old == 0 then 1 else 0) }
        ensures capacity { self.new.capacity ≡ self.old.capacity }
    {
        if n == 0 {
            return;
        }
        let spot = spot_of(self.counts.as_slice(), tag);
        if spot.count == 0 {
            insert_count(&mut self.counts, spot.place, TagCount { tag, count: n });
        } else {
            self.counts[spot.place] = TagCount {
                tag,
                count: spot.count + n,
            };
        }
    }

    /// A tag has so many toggles less.
    pub fn take(&mut self, tag: TagId, n: u32)
        requires { n ≤ count_of tag self.old }
        ensures counts { (t : ℕ) → count_of t self.old ≡ count_of t self.new + (if tag == t then n else 0) }
        ensures tags { length self.new.counts ≤ length self.old.counts }
        ensures capacity { self.new.capacity ≡ self.old.capacity }
    {
        if n == 0 {
            return;
        }
        let spot = spot_of(self.counts.as_slice(), tag);
        if spot.count == n {
            let _ = self.counts.remove(spot.place);
        } else {
            self.counts[spot.place] = TagCount {
                tag,
                count: spot.count - n,
            };
        }
    }

    /// Makes room for `n` tags more. `NoMemory` changes nothing.
    pub fn reserve(&mut self, n: usize) -> Result<(), Fault>
        ensures counts { self.new.counts ≡ self.old.counts }
        ensures ok { OnOk result (HasRoomFor n self.new) }
        ensures kept { self.old.capacity ≤ self.new.capacity }
        ensures there { HasRoomFor n self.old → IsOk result }
        ensures err { OnErr result (self.new ≡ self.old) }
        ensures fault { IsOkUnless result Fault.NoMemory }
    {
        Ok(self.counts.reserve(n)?)
    }

    /// No tag has a toggle any more.
    pub fn clear(&mut self)
        ensures counts { (tag : ℕ) → count_of tag self.new ≡ 0 }
        ensures capacity { self.new.capacity ≡ self.old.capacity }
    {
        self.counts.clear();
    }

    /// Each tag has as many toggles more as it has there. It takes no memory.
    pub fn add_all(&mut self, other: &Toggles)
        requires room { HasRoomFor (more_tags other.now.counts self.old.counts) self.old }
        requires few { (tag : ℕ) → count_of tag self.old + count_of tag other.now < 2 ^ 32 }
        ensures counts { (tag : ℕ) → count_of tag self.new ≡ count_of tag self.old + count_of tag other.now }
        ensures tags { length self.new.counts ≤ length self.old.counts + more_tags other.now.counts self.old.counts }
        ensures capacity { self.new.capacity ≡ self.old.capacity }
    {
        let counts = other.counts();
        if counts.len() > FEW {
            many::add(&mut self.counts, counts);
            return;
        }
        self.add_each(other);
    }

    // What `add_all` does, one tag after the other.
    fn add_each(&mut self, other: &Toggles)
        requires room { HasRoomFor (more_tags other.now.counts self.old.counts) self.old }
        requires few { (tag : ℕ) → count_of tag self.old + count_of tag other.now < 2 ^ 32 }
        ensures counts { (tag : ℕ) → count_of tag self.new ≡ count_of tag self.old + count_of tag other.now }
        ensures tags { length self.new.counts ≤ length self.old.counts + more_tags other.now.counts self.old.counts }
        ensures capacity { self.new.capacity ≡ self.old.capacity }
    {
        for c in other.counts() {
            self.add(c.tag, c.count);
        }
    }

    /// Each tag has as many toggles less as it has there.
    pub fn take_all(&mut self, other: &Toggles)
        requires { (tag : ℕ) → count_of tag other.now ≤ count_of tag self.old }
        ensures counts { (tag : ℕ) → count_of tag self.old ≡ count_of tag self.new + count_of tag other.now }
        ensures tags { length self.new.counts ≤ length self.old.counts }
        ensures capacity { self.new.capacity ≡ self.old.capacity }
    {
        let counts = other.counts();
        if counts.len() > FEW {
            many::take(&mut self.counts, counts);
            return;
        }
        self.take_each(other);
    }

    // What `take_all` does, one tag after the other.
    fn take_each(&mut self, other: &Toggles)
        requires { (tag : ℕ) → count_of tag other.now ≤ count_of tag self.old }
        ensures counts { (tag : ℕ) → count_of tag self.old ≡ count_of tag self.new + count_of tag other.now }
        ensures tags { length self.new.counts ≤ length self.old.counts }
        ensures capacity { self.new.capacity ≡ self.old.capacity }
    {
        for c in other.counts() {
            self.take(c.tag, c.count);
        }
    }
}
