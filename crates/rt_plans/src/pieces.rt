// Pieces of text with lists, as they are planned.
ghost use Rattle.std.specs.Prelude.{◌≡◌, ◌⊎◌, ◌+◌, ◌<◌, ◌≤◌, ◌++◌, [], All, IfOk, IfErr, IsOkUnless, OnOk, List, None, Some, length, map, option_map};
ghost use Rattle.std.specs.Str.{chars};
ghost use Rattle.rt_stamps.specs.declared.limits.TheConstants.{GREATEST_COUNT, MOST_CHARACTERS};
ghost use Rattle.rt_stamps.specs.declared.stamp.Stamp.{Stamp};
ghost use Rattle.rt_stamps.specs.Words.{Word, as_words};
ghost use Rattle.rt_ops.specs.Edits.{body_of};
ghost use Rattle.rt_rga.specs.OneOrMany.{items_in};
ghost use Rattle.rt_tags.specs.States.{IsTag, name_at};
ghost use Rattle.rt_plans.specs.InsertionDrafts.{last_element, pieces_drafts, text_drafts};
ghost use Rattle.rt_plans.specs.Insertions.{Insertion, counts_for, shared_names, tagged_cells, with_listed, with_pieces};
ghost use Rattle.rt_plans.specs.PlannedPieces.{AreSoFar};

use crate::Piece;
use crate::inserts::{Inserts, copied};
use crate::lists::{characters_of, names_sel, shared_tags};
use crate::stamps::select_new;
use rt_rga::OneOrMany;
use rt_stamps::{Fault, Site, Stamp};
use rt_tags::{StateTable, TagId};
use std::alloc::Global;

/// The names of tags. Want of memory.
pub(crate) fn names_of(
    alloc: Global,
    states: &StateTable,
    tags: &[TagId],
) -> Result<Vec<String>, Fault>
    requires { All (IsTag states.now) tags.now }
    ensures ok { IfOk result (λ v. as_words v.items ≡ map (name_at states.now) tags.now) }
    ensures err { IsOkUnless result Fault.NoMemory }
{
    let mut names = Vec::with_capacity(alloc, tags.len())?;
    for tag in tags {
        names.push(String::from_str(alloc, states.name(*tag))?)?;
    }
    Ok(names)
}

// The names of a list by their bytes, each once, but for `sel`.
fn shared_names(alloc: Global, names: &[String]) -> Result<Vec<String>, Fault>
    ensures ok { IfOk result (λ v. as_words v.items ≡ shared_names (as_words names.now)) }
    ensures err { IsOkUnless result Fault.NoMemory }
{
    let mut states = StateTable::new(alloc)?;
    let tags = shared_tags(alloc, &mut states, names)?;
    names_of(alloc, &states, &tags)
}

/// Pieces of text as they are planned: their operations and how many characters they have, those that
/// the commanding widget selects, the tags to list in turn, and those of the last text that has
/// characters.
#[derive(Drop)]
pub(crate) struct PlannedPieces {
    pub texts: Inserts,
    pub characters: usize,
    pub selected: Vec<Stamp>,
    pub names: Vec<String>,
    pub last: Option<Vec<String>>,
}

impl PlannedPieces {
    // No text, behind an element and after a count.
    fn new(alloc: Global, count: u64, after: Stamp) -> PlannedPieces
        ensures drafts { items_in result.texts.drafts ≡ [] }
        ensures count { result.texts.count ≡ count }
        ensures behind { result.texts.behind ≡ after }
        ensures characters { result.characters ≡ 0 }
        ensures selected { result.selected.items ≡ [] }
        ensures names { result.names.items ≡ [] }
        ensures last { result.last ≡ None }
    {
        PlannedPieces {
            texts: Inserts {
                drafts: OneOrMany::none(alloc),
                count,
                behind: after,
            },
            characters: 0,
            selected: Vec::new(alloc),
            names: Vec::new(alloc),
            last: None,
        }
    }

    /// Adds a text with some tags, which are to be listed. `ClockSpent`, or want of memory.
    pub(crate) fn add_text(
        &mut self,
        alloc: Global,
        site: Site,
        names: &[String],
        text: &[char],
    ) -> Result<(), Fault>
        requires count { self.old.texts.count ≤ GREATEST_COUNT }
        requires characters { self.old.characters ≤ self.old.texts.count }
        ensures drafts { OnOk result (map body_of (items_in self.new.texts.drafts) ≡ map body_of (items_in self.old.texts.drafts)
            ++ text_drafts MOST_CHARACTERS site.number self.old.texts.count self.old.texts.behind (as_words names.now) text.now) }
        ensures characters { OnOk result (self.new.characters ≡ self.old.characters + length text.now) }
        ensures few { OnOk result (self.new.characters ≤ self.new.texts.count) }
        ensures count { OnOk result (self.new.texts.count ≡ self.old.texts.count + counts_for (as_words names.now) text.now) }
        ensures within { OnOk result (self.new.texts.count ≤ GREATEST_COUNT) }
        ensures behind { OnOk result (self.new.texts.behind ≡ last_element self.old.texts.behind
            (tagged_cells site.number self.old.texts.count (as_words names.now) text.now)) }
        ensures names { OnOk result (as_words self.new.names.items
            ≡ as_words self.old.names.items ++ as_words names.now) }
        ensures selected { self.new.selected ≡ self.old.selected }
        ensures last { self.new.last ≡ self.old.last }
        ensures err { IfErr result (λ fault. (fault ≡ Fault.NoMemory) ⊎ ((fault ≡ Fault.ClockSpent)
            × (GREATEST_COUNT < self.old.texts.count + counts_for (as_words names.now) text.now))) }
    {
        self.texts.push_text(alloc, site, names, text)?;
        let mut more = copied(alloc, names)?;
        self.names.append(&mut more)?;
        self.characters += text.len();
        Ok(())
    }

    /// Adds a piece with a list. `ClockSpent`, or want of memory.
    pub(crate) fn add_listed(
        &mut self,
        alloc: Global,
        site: Site,
        piece: &Piece,
    ) -> Result<(), Fault>
        requires count { self.old.texts.count ≤ GREATEST_COUNT }
        requires characters { self.old.characters ≤ self.old.texts.count }
        ensures drafts { OnOk result (map body_of (items_in self.new.texts.drafts) ≡ map body_of (items_in self.old.texts.drafts)
            ++ text_drafts MOST_CHARACTERS site.number self.old.texts.count self.old.texts.behind (shared_names piece.now.tags) (chars piece.now.text)) }
        ensures so_far { OnOk result ((after : Stamp) (selection : List Stamp) (listed : List Word) (so_far : Insertion)
            → AreSoFar after selection listed self.old so_far
            → AreSoFar after selection listed self.new (with_listed site.number piece.now.tags (chars piece.now.text) so_far)) }
        ensures within { OnOk result (self.new.texts.count ≤ GREATEST_COUNT) }
        ensures few { OnOk result (self.new.characters ≤ self.new.texts.count) }
        ensures err { IfErr result (λ fault. (fault ≡ Fault.NoMemory) ⊎ ((fault ≡ Fault.ClockSpent)
            × (GREATEST_COUNT < self.old.texts.count + counts_for (shared_names piece.now.tags) (chars piece.now.text)))) }
    {
        let text = characters_of(alloc, piece.text())?;
        let characters = text.characters();
        if characters.is_empty() {
            return Ok(());
        }
        let names = shared_names(alloc, piece.tags())?;
        let count = self.texts.count;
        self.add_text(alloc, site, &names, characters)?;
        let chosen = names_sel(piece.tags());
        select_new(&mut self.selected, chosen, site, count, &names, characters)?;
        self.last = Some(names);
        Ok(())
    }

    /// Pieces with lists, behind an element, with the counts after one. `ClockSpent`, or want of memory.
    pub(crate) fn of(
        alloc: Global,
        site: Site,
        count: u64,
        after: Stamp,
        pieces: &[Piece],
    ) -> Result<PlannedPieces, Fault>
        requires { count ≤ GREATEST_COUNT }
        ensures drafts { IfOk result (λ all. (sel : List Stamp) (others : List (List Stamp)) (tags : List Word)
            → map body_of (items_in all.texts.drafts) ≡ pieces_drafts MOST_CHARACTERS site.number after pieces.now
            (record { cells = []; count = count; sel = sel; others = others; tags = tags })) }
        ensures so_far { IfOk result (λ all. (sel : List Stamp) (others : List (List Stamp)) (tags : List Word)
            → AreSoFar after sel tags all
            (with_pieces site.number pieces.now (record { cells = []; count = count; sel = sel; others = others; tags = tags }))) }
        ensures within { IfOk result (λ all. all.texts.count ≤ GREATEST_COUNT) }
        ensures few { IfOk result (λ all. all.characters ≤ all.texts.count) }
        ensures err { IfErr result (λ fault. (fault ≡ Fault.NoMemory)
            ⊎ ((fault ≡ Fault.ClockSpent) × ((sel : List Stamp) (others : List (List Stamp)) (tags : List Word)
            → GREATEST_COUNT < (with_pieces site.number pieces.now (record { cells = []; count = count; sel = sel; others = others; tags = tags })).count))) }
    {
        let mut all = PlannedPieces::new(alloc, count, after);
        for piece in pieces {
            all.add_listed(alloc, site, piece)?;
        }
        Ok(all)
    }
}
