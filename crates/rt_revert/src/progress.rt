// What reverting actions has come to.
ghost use Rattle.std.specs.Prelude.{◌≡◌, ℕ, ◌⊎◌, ◌+◌, ◌<◌, ◌≤◌, ◌++◌, ◌∷◌, [], ◌||◌, false, if◌then◌else◌, IfErr, IsOkUnless, IfOk, OnErr, OnOk, length, map};
ghost use Rattle.rt_stamps.specs.declared.limits.TheConstants.{GREATEST_COUNT, MOST_CELLS, MOST_CHARACTERS};
ghost use Rattle.rt_stamps.specs.declared.stamp.Stamp.{Stamp};
ghost use Rattle.rt_stamps.specs.Stamps.{is_same};
ghost use Rattle.rt_stamps.specs.Words.{as_words};
ghost use Rattle.rt_ops.specs.Edits.{body_of};
ghost use Rattle.rt_rga.specs.OneOrMany.{items_in};
ghost use Rattle.rt_plans.specs.InsertionDrafts.{text_drafts};
ghost use Rattle.rt_plans.specs.Insertions.{counts_for};
ghost use Rattle.rt_undo.specs.Actions.{group_of};
ghost use Rattle.rt_undo.specs.Renames.{is_moved, now_of, replaced};
ghost use Rattle.rt_undo.specs.Undo.{with_stamps_in};
ghost use Rattle.rt_revert.specs.Portions.{AreSmall, offset_behind, offset_of};
ghost use Rattle.rt_revert.specs.Progress.{TellsTheSame};

use crate::offsets::offset_behind;
use crate::plan::{Return, Reversal, TextChange};
use rt_plans::Range;
use rt_plans::inserts::Inserts;
use rt_rga::{Draft, OneOrMany};
use rt_spans::SpanMap;
use rt_stamps::{Fault, ROOT, Site, Span, Stamp, count_after};
use rt_undo::{Action, Renames, group_now};
use std::alloc::Global;

/// What reverting actions has come to: the operations with the greatest count, the stamps that
/// characters have now, the tags that operations put on them, the changes of the text, the characters
/// that came back, and the reverted actions; and the offsets of the cells of the working copy.
#[derive(Drop)]
pub(crate) struct Progress {
    pub texts: Inserts,
    pub renames: Renames,
    pub names: Vec<String>,
    pub changes: Vec<TextChange>,
    pub returns: Vec<Return>,
    pub actions: Vec<Action>,
    pub offsets: SpanMap<usize>,
}

impl Progress {
    /// Nothing was reverted yet.
    pub(crate) fn new(alloc: Global, count: u64, offsets: SpanMap<usize>) -> Progress
        ensures drafts { items_in result.texts.drafts ≡ [] }
        ensures count { result.texts.count ≡ count }
        ensures now { (stamp : Stamp) → now_of result.renames stamp ≡ stamp }
        ensures moved { (stamp : Stamp) → is_moved result.renames stamp ≡ false }
        ensures names { result.names.items ≡ [] }
        ensures changes { result.changes.items ≡ [] }
        ensures returns { result.returns.items ≡ [] }
        ensures actions { result.actions.items ≡ [] }
        ensures offsets { result.offsets ≡ offsets }
    {
        Progress {
            texts: Inserts {
                drafts: OneOrMany::none(alloc),
                count,
                behind: ROOT,
            },
            renames: Renames::new(alloc),
            names: Vec::new(alloc),
            changes: Vec::new(alloc),
            returns: Vec::new(alloc),
            actions: Vec::new(alloc),
            offsets,
        }
    }

    /// Characters go that stood at some places, by some operations. `ClockSpent`, or want of memory, and then the
    /// plan tells what it told.
    pub(crate) fn lose(
        &mut self,
        alloc: Global,
        places: Vec<Range>,
        drafts: Vec<Draft>,
    ) -> Result<(), Fault>
        requires { self.old.texts.count ≤ GREATEST_COUNT }
        ensures drafts { OnOk result (items_in self.new.texts.drafts ≡ items_in self.old.texts.drafts ++ drafts.items) }
        ensures count { OnOk result (self.new.texts.count ≡ self.old.texts.count + length drafts.items) }
        ensures within { OnOk result (self.new.texts.count ≤ GREATEST_COUNT) }
        ensures changes { OnOk result (self.new.changes.items ≡ self.old.changes.items ++ TextChange.Removed places ∷ []) }
        ensures renames { OnOk result (self.new.renames ≡ self.old.renames) }
        ensures names { OnOk result (self.new.names ≡ self.old.names) }
        ensures returns { OnOk result (self.new.returns ≡ self.old.returns) }
        ensures actions { OnOk result (self.new.actions ≡ self.old.actions) }
        ensures offsets { OnOk result (self.new.offsets ≡ self.old.offsets) }
        ensures same { OnErr result (TellsTheSame self.old self.new) }
        ensures err { IfErr result (λ fault. (fault ≡ Fault.NoMemory)
            ⊎ ((fault ≡ Fault.ClockSpent) × (GREATEST_COUNT < self.old.texts.count + length drafts.items))) }
    {
        let count = count_after(self.texts.count, drafts.len() as u64)?;
        self.changes.reserve(1)?;
        self.texts.drafts.append(alloc, OneOrMany::Many(drafts))?;
        self.changes.push_reserved(TextChange::Removed(places));
        self.texts.count = count;
        Ok(())
    }

    /// A character is inserted behind an element, with some tags. `ClockSpent`, or want of memory, and then the plan
    /// tells what it told.
    pub(crate) fn write(
        &mut self,
        alloc: Global,
        site: Site,
        names: &[String],
        behind: Stamp,
        ch: char,
    ) -> Result<(), Fault>
        requires { self.old.texts.count ≤ GREATEST_COUNT }
        ensures drafts { OnOk result (map body_of (items_in self.new.texts.drafts) ≡ map body_of (items_in self.old.texts.drafts)
            ++ text_drafts MOST_CHARACTERS site.number self.old.texts.count behind (as_words names.now) (ch ∷ [])) }
        ensures count { OnOk result (self.new.texts.count ≡ self.old.texts.count + counts_for (as_words names.now) (ch ∷ [])) }
        ensures within { OnOk result (self.new.texts.count ≤ GREATEST_COUNT) }
        ensures changes { OnOk result (self.new.changes ≡ self.old.changes) }
        ensures renames { OnOk result (self.new.renames ≡ self.old.renames) }
        ensures names { OnOk result (self.new.names ≡ self.old.names) }
        ensures returns { OnOk result (self.new.returns ≡ self.old.returns) }
        ensures actions { OnOk result (self.new.actions ≡ self.old.actions) }
        ensures offsets { OnOk result (self.new.offsets ≡ self.old.offsets) }
        ensures same { OnErr result (TellsTheSame self.old self.new) }
        ensures err { IfErr result (λ fault. (fault ≡ Fault.NoMemory) ⊎ ((fault ≡ Fault.ClockSpent)
            × (GREATEST_COUNT < self.old.texts.count + counts_for (as_words names.now) (ch ∷ [])))) }
    {
        self.texts.behind = behind;
        self.texts.push_text(alloc, site, names, &[ch])
    }

    /// A character came back at a place of the working copy, with some tags. Want of memory, and then the plan tells
    /// what it told.
    pub(crate) fn come_back(
        &mut self,
        former: Stamp,
        newer: Stamp,
        place: usize,
        names: Vec<String>,
    ) -> Result<(), Fault>
        requires later { former.count < newer.count }
        requires bound { newer.count ≤ GREATEST_COUNT }
        requires still { is_moved self.old.renames former ≡ false }
        requires fresh { is_moved self.old.renames newer ≡ false }
        requires place { place ≤ MOST_CELLS }
        requires offsets { AreSmall self.old.offsets }
        ensures now { OnOk result ((s : Stamp) → now_of self.new.renames s ≡ replaced former newer (now_of self.old.renames s)) }
        ensures moved { OnOk result ((s : Stamp) → is_moved self.new.renames s ≡ (is_same s former || is_moved self.old.renames s)) }
        ensures returns { OnOk result (self.new.returns.items ≡ self.old.returns.items ++ record { former = former; newer = newer } ∷ []) }
        ensures changes { OnOk result (self.new.changes.items
            ≡ self.old.changes.items ++ TextChange.Inserted (place + offset_behind self.old.offsets former) ∷ []) }
        ensures names { OnOk result (self.new.names.items ≡ self.old.names.items ++ names.items) }
        ensures texts { OnOk result (self.new.texts ≡ self.old.texts) }
        ensures actions { OnOk result (self.new.actions ≡ self.old.actions) }
        ensures offsets { OnOk result ((s : Stamp) → offset_of self.new.offsets s
            ≡ (if is_same s newer then offset_behind self.old.offsets former else offset_of self.old.offsets s)) }
        ensures same { OnErr result (TellsTheSame self.old self.new) }
        ensures err { IsOkUnless result Fault.NoMemory }
    {
        let offset = offset_behind(&self.offsets, former);
        let whole = place + offset;
        self.renames.reserve(1)?;
        self.offsets.reserve(1)?;
        self.changes.reserve(1)?;
        self.returns.reserve(1)?;
        let mut more = names;
        self.names.append(&mut more)?;
        self.changes.push_reserved(TextChange::Inserted(whole));
        self.returns.push_reserved(Return { former, newer });
        self.renames.rename(Span::of(former), newer);
        self.offsets.set(Span::of(newer), offset);
        Ok(())
    }

    /// The plan that this is. Want of memory.
    pub(crate) fn done(self, alloc: Global) -> Result<Reversal, Fault>
        ensures drafts { IfOk result (λ plan. items_in plan.drafts ≡ items_in self.texts.drafts) }
        ensures names { IfOk result (λ plan. plan.names.items ≡ self.names.items) }
        ensures changes { IfOk result (λ plan. plan.changes.items ≡ self.changes.items) }
        ensures returns { IfOk result (λ plan. plan.returns.items ≡ self.returns.items) }
        ensures actions { IfOk result (λ plan. group_of plan.actions.items ≡ with_stamps_in (now_of self.renames) (group_of self.actions.items)) }
        ensures err { IsOkUnless result Fault.NoMemory }
    {
        let Progress {
            texts,
            renames,
            names,
            changes,
            returns,
            actions,
            offsets: _,
        } = self;
        let Inserts {
            drafts,
            count: _,
            behind: _,
        } = texts;
        let actions = group_now(alloc, &renames, &actions)?;
        Ok(Reversal {
            drafts,
            names,
            changes,
            returns,
            actions,
        })
    }
}
