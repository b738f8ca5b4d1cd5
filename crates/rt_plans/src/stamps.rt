// The stamps of new characters.
ghost use Rattle.std.specs.Prelude.{◌≡◌, ℕ, ◌+◌, ◌≤◌, ◌++◌, ◌∷◌, [], IfOk, IsOkUnless, List, OnOk, length};
ghost use Rattle.rt_stamps.specs.declared.limits.TheConstants.{GREATEST_COUNT};
ghost use Rattle.rt_stamps.specs.declared.stamp.Stamp.{Stamp};
ghost use Rattle.rt_stamps.specs.Words.{as_words};
ghost use Rattle.rt_store.specs.Cells.{cells_from, stamps_of};
ghost use Rattle.rt_plans.specs.Insertions.{counts_for, selected_if, tagged_cells};
ghost use Rattle.rt_plans.specs.Selections.{with_stamps};

use crate::counts::further;
use crate::inserts::next_part;
use rt_rga::OneOrMany;
use rt_stamps::{Fault, Site, Stamp};
use std::alloc::Global;
use std::marker::Model;
use std::slice;

/// The stamps of new characters. That of a single one, as typed, takes no memory of its own. Contracts see
/// a list of stamps.
#[derive(Drop)]
pub struct Stamps {
    kept: OneOrMany<Stamp>,
}

impl Model for Stamps {
    ghost use Rattle.std.specs.Prelude.{List};
    ghost use Rattle.rt_stamps.specs.declared.stamp.Stamp.{Stamp};
    ghost use Rattle.rt_rga.specs.OneOrMany.{items_in};

    ghost Value = { List Stamp };

    ghost view = { λ stamps. items_in stamps.kept };
}

// Adds the stamps of the characters of one Insert, with counts from `first` on.
fn push_run(
    stamps: &mut Vec<Stamp>,
    site: Site,
    first: u64,
    characters: &[char],
) -> Result<(), Fault>
    requires { first + length characters.now ≤ GREATEST_COUNT + 1 }
    ensures ok { OnOk result (stamps.new.items ≡ stamps.old.items ++ stamps_of {T = ℕ} (cells_from first site.number 0 characters.now)) }
    ensures err { IsOkUnless result Fault.NoMemory }
{
    let mut count = first;
    for _ch in characters {
        stamps.push(Stamp {
            count,
            site: site.number(),
        })?;
        count += 1;
    }
    Ok(())
}

// Adds the stamps of a text with some tags, with the counts after one.
fn push_stamps(
    stamps: &mut Vec<Stamp>,
    site: Site,
    count: u64,
    names: &[String],
    text: &[char],
) -> Result<(), Fault>
    requires { count + counts_for (as_words names.now) text.now ≤ GREATEST_COUNT }
    ensures ok { OnOk result (stamps.new.items ≡ stamps.old.items
        ++ stamps_of (tagged_cells site.number count (as_words names.now) text.now)) }
    ensures err { IsOkUnless result Fault.NoMemory }
{
    let more_tags = further(names.len()) as u64;
    let mut last = count;
    let mut rest = text;
    while !rest.is_empty() {
        let (part, more) = next_part(rest);
        push_run(stamps, site, last + 1, part)?;
        last += part.len() as u64 + more_tags;
        rest = more;
    }
    Ok(())
}

/// Adds the characters of a new text to those that are to be selected, where that is asked. Want of memory.
pub(crate) fn select_new(
    selected: &mut Vec<Stamp>,
    asked: bool,
    site: Site,
    count: u64,
    names: &[String],
    text: &[char],
) -> Result<(), Fault>
    requires { count + counts_for (as_words names.now) text.now ≤ GREATEST_COUNT }
    ensures selected { OnOk result ((selection : List Stamp) → with_stamps selected.new.items selection
        ≡ selected_if asked (stamps_of (tagged_cells site.number count (as_words names.now) text.now)) (with_stamps selected.old.items selection)) }
    ensures err { IsOkUnless result Fault.NoMemory }
{
    if asked {
        push_stamps(selected, site, count, names, text)?;
    }
    Ok(())
}

impl Stamps {
    /// That of one character.
    #[inline(always)]
    pub(crate) fn of_one(site: Site, count: u64) -> Stamps
        ensures { result ≡ record { count = count; site = site.number } ∷ [] }
    {
        let stamp = Stamp {
            count,
            site: site.number(),
        };
        Stamps {
            kept: OneOrMany::One(stamp),
        }
    }

    /// Those of a text with some tags, with the counts after one. Want of memory, where they are more than
    /// one.
    #[inline(always)]
    pub(crate) fn of(
        alloc: Global,
        site: Site,
        count: u64,
        names: &[String],
        text: &[char],
    ) -> Result<Stamps, Fault>
        requires { count + counts_for (as_words names.now) text.now ≤ GREATEST_COUNT }
        ensures ok { IfOk result (λ stamps. stamps
            ≡ stamps_of (tagged_cells site.number count (as_words names.now) text.now)) }
        ensures err { IsOkUnless result Fault.NoMemory }
    {
        if text.len() == 1 {
            return Ok(Stamps::of_one(site, count + 1));
        }
        let mut stamps = Vec::with_capacity(alloc, text.len())?;
        push_stamps(&mut stamps, site, count, names, text)?;
        Ok(Stamps {
            kept: OneOrMany::Many(stamps),
        })
    }

    /// The stamps in turn.
    pub fn as_slice(&self) -> &[Stamp]
        ensures { result.now ≡ self.now }
    {
        match &self.kept {
            OneOrMany::One(stamp) => slice::from_ref(stamp),
            OneOrMany::Many(stamps) => stamps.as_slice(),
        }
    }
}
