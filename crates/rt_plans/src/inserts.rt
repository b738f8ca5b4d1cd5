// The operations of one text with its tags.
ghost use Rattle.std.specs.Prelude.{◌≡◌, ◌⊎◌, ◌+◌, ◌-◌, ◌<◌, ◌≤◌, ◌++◌, ◌∷◌, [], IfOk, IfErr, IsOkUnless, OnErr, OnOk, true, length, map, take, drop};
ghost use Rattle.rt_stamps.specs.declared.limits.TheConstants.{GREATEST_COUNT, MOST_CHARACTERS, MOST_TAGS};
ghost use Rattle.rt_stamps.specs.Words.{as_words};
ghost use Rattle.rt_ops.specs.Edits.{body_of};
ghost use Rattle.rt_ops.specs.Operations.{Insert, Tag};
ghost use Rattle.rt_rga.specs.OneOrMany.{items_in};
ghost use Rattle.rt_plans.specs.InsertionDrafts.{last_element, tags_put_on, text_drafts};
ghost use Rattle.rt_plans.specs.Insertions.{counts_for, further_tags, tagged_cells};

use crate::counts::{further, last_count};
use rt_oplog::Text;
use rt_rga::{Draft, OneOrMany};
use rt_stamps::limits::{MOST_CHARACTERS, MOST_TAGS};
use rt_stamps::{Fault, Site, Span, Stamp};
use std::alloc::Global;

/// Copies of names. Want of memory.
#[inline(always)]
pub(crate) fn copied(alloc: Global, names: &[String]) -> Result<Vec<String>, Fault>
    ensures ok { IfOk result (λ v. as_words v.items ≡ as_words names.now) }
    ensures err { IsOkUnless result Fault.NoMemory }
{
    if names.is_empty() {
        return Ok(Vec::new(alloc));
    }
    let mut copies = Vec::with_capacity(alloc, names.len())?;
    for name in names {
        copies.push(name.clone()?)?;
    }
    Ok(copies)
}

// The text of an Insert.
fn part_text(alloc: Global, characters: &[char]) -> Result<Text, Fault>
    ensures ok { IfOk result (λ text. text ≡ characters.now) }
    ensures err { IsOkUnless result Fault.NoMemory }
{
    match characters {
        [character] => Ok(Text::of(*character)),
        _ => Ok(Text::new(Vec::from_slice(alloc, characters)?)),
    }
}

/// The characters of the next Insert of a text, and those behind them.
pub(crate) fn next_part(text: &[char]) -> (&[char], &[char])
    ensures part { result.0.now ≡ take MOST_CHARACTERS text.now }
    ensures rest { result.1.now ≡ drop MOST_CHARACTERS text.now }
{
    text.split_at(text.len().min(MOST_CHARACTERS))
}

// The names that an Insert lists, and the further ones.
fn listed_first(names: &[String]) -> (&[String], &[String])
    ensures listed { as_words result.0.now ≡ take MOST_TAGS (as_words names.now) }
    ensures further { as_words result.1.now ≡ further_tags (as_words names.now) }
{
    names.split_at(names.len().min(MOST_TAGS))
}

// An Insert after an element, with the names that it lists.
fn insert_draft(
    alloc: Global,
    after: Stamp,
    names: &[String],
    characters: &[char],
) -> Result<Draft, Fault>
    ensures ok { IfOk result (λ draft. body_of draft ≡ Insert after (as_words names.now) characters.now) }
    ensures err { IsOkUnless result Fault.NoMemory }
{
    let tags = copied(alloc, names)?;
    match part_text(alloc, characters) {
        Ok(text) => Ok(Draft::Insert { after, tags, text }),
        Err(fault) => Err(fault),
    }
}

// A Tag that is put on the characters of a span.
fn tag_draft(alloc: Global, span: Span, name: &str) -> Result<Draft, Fault>
    ensures ok { IfOk result (λ draft. body_of draft ≡ Tag true name.now (span ∷ [])) }
    ensures err { IsOkUnless result Fault.NoMemory }
{
    let name = String::from_str(alloc, name)?;
    let spans = Vec::from_slice(alloc, &[span])?;
    Ok(Draft::Tag {
        on: true,
        name,
        spans,
    })
}

// Adds a Tag for each of some names, put on the characters of a span.
fn push_tags(
    alloc: Global,
    drafts: &mut OneOrMany<Draft>,
    span: Span,
    names: &[String],
) -> Result<(), Fault>
    ensures ok { OnOk result (map body_of (items_in drafts.new) ≡ map body_of (items_in drafts.old) ++ tags_put_on span (as_words names.now)) }
    ensures err { IsOkUnless result Fault.NoMemory }
{
    for name in names {
        drafts.push(alloc, tag_draft(alloc, span, name)?)?;
    }
    Ok(())
}

/// Texts, each behind the one before it, as their operations: these in turn, the greatest count, and the
/// element behind which further text goes.
#[derive(Drop)]
pub struct Inserts {
    pub drafts: OneOrMany<Draft>,
    pub count: u64,
    pub behind: Stamp,
}

impl Inserts {
    // Adds an Insert of some characters, with the Tags behind it.
    fn push_part(
        &mut self,
        alloc: Global,
        site: Site,
        names: &[String],
        part: &[char],
    ) -> Result<(), Fault>
        requires { self.old.count + length part.now + (length names.now - MOST_TAGS) ≤ GREATEST_COUNT }
        ensures drafts { OnOk result (map body_of (items_in self.new.drafts) ≡ map body_of (items_in self.old.drafts)
            ++ Insert self.old.behind (take MOST_TAGS (as_words names.now)) part.now
            ∷ tags_put_on (record { site = site.number; first = self.old.count + 1; last = self.old.count + length part.now })
            (further_tags (as_words names.now))) }
        ensures count { OnOk result (self.new.count ≡ self.old.count + length part.now + (length names.now - MOST_TAGS)) }
        ensures behind { OnOk result (self.new.behind ≡ record { count = self.old.count + length part.now; site = site.number }) }
        ensures err { IsOkUnless result Fault.NoMemory }
    {
        let first = self.count + 1;
        let last = self.count + part.len() as u64;
        let site_number = site.number();
        let (listed, more) = listed_first(names);
        let draft = match insert_draft(alloc, self.behind, listed, part) {
            Ok(draft) => draft,
            Err(fault) => return Err(fault),
        };
        self.drafts.push(alloc, draft)?;
        let span = Span {
            site: site_number,
            first,
            last,
        };
        push_tags(alloc, &mut self.drafts, span, more)?;
        self.count = last + further(names.len()) as u64;
        self.behind = Stamp {
            count: last,
            site: site_number,
        };
        Ok(())
    }

    // A text with some tags, behind an element and a count. `ClockSpent`, or want of memory.
    fn of_text(
        alloc: Global,
        site: Site,
        count: u64,
        after: Stamp,
        names: &[String],
        text: &[char],
    ) -> Result<Inserts, Fault>
        requires { count ≤ GREATEST_COUNT }
        ensures drafts { IfOk result (λ texts. map body_of (items_in texts.drafts)
            ≡ text_drafts MOST_CHARACTERS site.number count after (as_words names.now) text.now) }
        ensures count { IfOk result (λ texts. texts.count ≡ count + counts_for (as_words names.now) text.now) }
        ensures within { IfOk result (λ texts. texts.count ≤ GREATEST_COUNT) }
        ensures behind { IfOk result (λ texts. texts.behind ≡ last_element after (tagged_cells site.number count (as_words names.now) text.now)) }
        ensures err { IfErr result (λ fault. (fault ≡ Fault.NoMemory)
            ⊎ ((fault ≡ Fault.ClockSpent) × (GREATEST_COUNT < count + counts_for (as_words names.now) text.now))) }
    {
        last_count(count, names.len(), text.len())?;
        let mut texts = Inserts {
            drafts: OneOrMany::none(alloc),
            count,
            behind: after,
        };
        let mut rest = text;
        while !rest.is_empty() {
            let (part, more) = next_part(rest);
            texts.push_part(alloc, site, names, part)?;
            rest = more;
        }
        Ok(texts)
    }

    /// Adds a text with some tags. `ClockSpent`, or want of memory, and then all is as it was.
    pub fn push_text(
        &mut self,
        alloc: Global,
        site: Site,
        names: &[String],
        text: &[char],
    ) -> Result<(), Fault>
        requires { self.old.count ≤ GREATEST_COUNT }
        ensures drafts { OnOk result (map body_of (items_in self.new.drafts) ≡ map body_of (items_in self.old.drafts)
            ++ text_drafts MOST_CHARACTERS site.number self.old.count self.old.behind (as_words names.now) text.now) }
        ensures count { OnOk result (self.new.count ≡ self.old.count + counts_for (as_words names.now) text.now) }
        ensures within { OnOk result (self.new.count ≤ GREATEST_COUNT) }
        ensures behind { OnOk result (self.new.behind
            ≡ last_element self.old.behind (tagged_cells site.number self.old.count (as_words names.now) text.now)) }
        ensures same { OnErr result ((items_in self.new.drafts ≡ items_in self.old.drafts)
            × (self.new.count ≡ self.old.count) × (self.new.behind ≡ self.old.behind)) }
        ensures err { IfErr result (λ fault. (fault ≡ Fault.NoMemory)
            ⊎ ((fault ≡ Fault.ClockSpent) × (GREATEST_COUNT < self.old.count + counts_for (as_words names.now) text.now))) }
    {
        let Inserts {
            drafts,
            count,
            behind,
        } = Inserts::of_text(alloc, site, self.count, self.behind, names, text)?;
        self.drafts.append(alloc, drafts)?;
        self.count = count;
        self.behind = behind;
        Ok(())
    }
}
