// A replica: accepted operations, and the cells that are kept of them.
ghost use Rattle.std.specs.Prelude.{◌≡◌, ℕ, ◌+◌, ◌<◌, ◌≤◌, ◌∷◌, [], IfOk, IfErr, IfSome, IsOkUnless, None, OnErr, OnOk, Some, length, map, reverse, true};
ghost use Rattle.rt_stamps.specs.declared.limits.TheConstants.{MOST_CELLS};
ghost use Rattle.rt_stamps.specs.declared.stamp.Stamp.{Stamp as StampValue};
ghost use Rattle.rt_store.specs.Cells.{final_cell};
ghost use Rattle.rt_store.specs.Tagged.{AreStates};
ghost use Rattle.rt_tags.specs.States.{KeepsIds};
ghost use Rattle.rt_ops.specs.Edits.{body_of};
ghost use Rattle.rt_oplog.specs.Logs.{with_operation};
ghost use Rattle.rt_rga.specs.Answers.{answer_within, has_gap};
ghost use Rattle.rt_rga.specs.Cells.{cells_of};
ghost use Rattle.rt_rga.specs.Drafts.{ContinueInTurn, one_character, operations_of, with_drafts, with_operations};
ghost use Rattle.rt_rga.specs.OneOrMany.{items_in};
ghost use Rattle.rt_rga.specs.Kept.{said};
ghost use Rattle.rt_ops.specs.Rules.{keeps_rules};
ghost use Rattle.rt_rga.specs.Made.{Makes, RefusesFor, refusal_of};
ghost use Rattle.rt_rga.specs.Making.{AreNewest, fresh_cells, next_insert};
ghost use Rattle.rt_rga.specs.Noted.{AreOfNewest};
ghost use Rattle.rt_rga.specs.Requests.{MayBeMade};
ghost use Rattle.rt_rga.specs.Histories.{Continues, IsHistory, greatest_last_count, inserted};
ghost use Rattle.rt_store.specs.Shown.{shown};
ghost use Rattle.rt_rga.specs.Taken.{IsChange};

use crate::Draft;
use crate::answer::{Offer, answer_within, has_gap};
use crate::character::{push_character, put_character};
use crate::describe::describe;
use crate::edits::{change, first_named};
use crate::logging::{push_few, push_next};
use crate::make::{copied, list_of, prepared};
use crate::notes::Notes;
use crate::one_or_many::OneOrMany;
use crate::taken::Change;
use rt_oplog::{Op, OpLog};
use rt_stamps::limits::GREATEST_COUNT;
use rt_stamps::{Clock, Fault, Site, Span, Stamp};
use rt_store::TextStore;
use rt_tags::StateTable;
use std::alloc::Global;
use std::marker::Model;

/// The accepted operations of a text, and its cells. The cells are those of the operations.
pub struct Replica<S: TextStore> {
    alloc: Global,
    log: OpLog,
    clock: Clock,
    store: S,
    states: StateTable,
    site: Site,
    limit: usize,
    notes: Notes,
}

// Written out, so that where it is let go is one step for the crates above, and not one for each
// field of each field.
impl<S: TextStore> Drop for Replica<S> {
    fn drop(self) {
        let Replica {
            alloc: _,
            log: _,
            clock: _,
            store: _,
            states: _,
            site: _,
            limit: _,
            notes: _,
        } = self;
    }
}

impl<S: TextStore> Model for Replica<S> {
    ghost use Rattle.std.specs.Prelude.{map};
    ghost use Rattle.rt_rga.specs.Kept.{ReplicaIsSound, IsWithin, ReplicaValue};
    ghost use Rattle.rt_rga.specs.Noted.{AreNotes};
    ghost use Rattle.rt_store.specs.Shown.{shown};

    ghost Value = { ReplicaValue };

    ghost view = { λ r. record {
      log = r.log.operations;
      cells = map (shown r.states) (S.list r.store);
      table = r.states;
      site = r.site.number;
      limit = r.limit;
    } };

    ghost invariant = { λ r. ReplicaIsSound (IsWithin r.log.operations r.states (S.list r.store) r.clock r.limit) (S.agrees r.store r.states)
        (AreNotes r.notes r.log.operations) };
}

impl<S: TextStore> Replica<S> {
    /// A replica without operations, of a new store: that of a site, for at most `limit` cells, the
    /// final newline and those that are gone among them, 1 to `MOST_CELLS`. `NoMemory` is its only fault.
    pub fn new(alloc: Global, store: S, site: Site, limit: usize) -> Result<Replica<S>, Fault>
        requires store { S.list store ≡ final_cell ∷ [] }
        requires limit { (1 ≤ limit) × (limit ≤ MOST_CELLS) }
        ensures log { IfOk result (λ replica. replica.log ≡ []) }
        ensures cells { IfOk result (λ replica. replica.cells ≡ cells_of []) }
        ensures table { IfOk result (λ replica. replica.table ≡ record { names = []; states = [] ∷ [] }) }
        ensures site { IfOk result (λ replica. replica.site ≡ site.number) }
        ensures limit { IfOk result (λ replica. replica.limit ≡ limit) }
        ensures fault { IsOkUnless result Fault.NoMemory }
    {
        let states = StateTable::new(alloc)?;
        Ok(Replica {
            alloc,
            log: OpLog::new(alloc),
            clock: Clock::new(),
            store,
            states,
            site,
            limit,
            notes: Notes::Off,
        })
    }

    /// The log, which is a history.
    pub fn log(&self) -> &OpLog
        ensures operations { result.now.operations ≡ self.now.log }
        ensures history { IsHistory self.now.log }
    {
        &self.log
    }

    /// What the states of the cells mean.
    pub fn states(&self) -> &StateTable
        ensures { result.now ≡ self.now.table }
    {
        &self.states
    }

    /// The site whose operations `make` makes.
    pub fn site(&self) -> Site
        ensures { result.number ≡ self.now.site }
    {
        self.site
    }

    /// The most cells that there may be, the final newline and those that are gone among them.
    pub fn limit(&self) -> usize
        ensures value { result ≡ self.now.limit }
        ensures most { result ≤ MOST_CELLS }
    {
        self.limit
    }

    /// The store, whose cells are those of the log, and no more than the limit.
    pub fn store(&self) -> &S
        ensures kept { map (shown self.now.table) (S.list result.now) ≡ self.now.cells }
        ensures cells { self.now.cells ≡ cells_of self.now.log }
        ensures states { AreStates self.now.table (S.list result.now) }
        ensures agrees { S.agrees result.now self.now.table }
        ensures few { length (S.list result.now) ≤ self.now.limit }
        ensures most { self.now.limit ≤ MOST_CELLS }
    {
        &self.store
    }

    /// Says that what follows is about the text around a place (`TextStore::focus`).
    #[inline(always)]
    pub fn focus(&mut self, place: usize)
        ensures { self.new ≡ self.old }
    {
        self.store.focus(place);
    }

    /// The clock, which has seen the greatest last count of the log.
    pub fn clock(&self) -> &Clock
        ensures { result.now ≡ greatest_last_count self.now.log }
    {
        &self.clock
    }

    /// Notes from here on what each of the site's own operations changes, until `noted` is asked.
    pub fn note(&mut self)
        ensures { self.new ≡ self.old }
    {
        self.notes = Notes::Kept(Vec::new(self.alloc));
    }

    /// What the newest operations of the log changed, in the order in which they were made: all that were made since `note`,
    /// and nothing is noted from here on. None where `note` wasn't asked, an operation was taken since, two that were made
    /// at once may be Tags of one tag that name one stamp, or memory was wanting to note them, which refuses no operation.
    pub fn noted(&mut self) -> Option<Vec<Change>>
        ensures newest { IfSome result (λ changes. AreOfNewest (reverse changes.items) self.old.log) }
        ensures same { self.new ≡ self.old }
    {
        self.notes.end()
    }

    /// What is answered to an operation, where memory is left.
    pub fn answer(&self, op: &Op) -> Result<Offer, Fault>
        ensures answer { said result ≡ answer_within self.now.limit op.now self.now.log }
        ensures rules { keeps_rules op.now.body ≡ true }
    {
        answer_within(&self.log, &self.store, self.limit, op)
    }

    /// Whether some stamp of a span is that of no character that an operation of the log inserted. It looks
    /// stamps up, from the first on to the first that is none.
    pub fn has_gap(&self, span: Span) -> bool
        ensures { result ≡ has_gap self.now.log span }
    {
        has_gap(&self.store, span)
    }

    /// Takes an operation that continues the log, within the limit of cells, or gives it back for want of
    /// memory.
    pub fn take(&mut self, op: Op) -> Result<Change, Op>
        requires continues { Continues self.old.log op }
        requires room { length self.old.cells + length (inserted op) ≤ self.old.limit }
        ensures log { OnOk result (self.new.log ≡ with_operation op self.old.log) }
        ensures change { IfOk result (IsChange op self.old.cells) }
        ensures same { OnErr result (self.new ≡ record self.old { table = self.new.table }) }
        ensures back { IfErr result (λ back. back ≡ op) }
        ensures site { self.new.site ≡ self.old.site }
        ensures limit { self.new.limit ≡ self.old.limit }
        ensures ids { KeepsIds self.old.table self.new.table }
    {
        self.focus_on(&op);
        self.take_next(op)
    }

    // Says that what follows is about the text around the first character that an operation names.
    #[inline(always)]
    fn focus_on(&mut self, op: &Op)
        ensures { self.new ≡ self.old }
    {
        if let Some(stamp) = first_named(op.edit()) {
            self.store.focus_on(stamp);
        }
    }

    // Takes an operation, as `take` does.
    #[inline(always)]
    fn take_next(&mut self, op: Op) -> Result<Change, Op>
        requires continues { Continues self.old.log op }
        requires room { length self.old.cells + length (inserted op) ≤ self.old.limit }
        ensures log { OnOk result (self.new.log ≡ with_operation op self.old.log) }
        ensures change { IfOk result (IsChange op self.old.cells) }
        ensures same { OnErr result (self.new ≡ record self.old { table = self.new.table }) }
        ensures back { IfErr result (λ back. back ≡ op) }
        ensures site { self.new.site ≡ self.old.site }
        ensures limit { self.new.limit ≡ self.old.limit }
        ensures ids { KeepsIds self.old.table self.new.table }
    {
        if self.log.reserve(1).is_err() {
            return Err(op);
        }
        let told = match describe(self.alloc, &self.store, &mut self.states, &op) {
            Ok(told) => told,
            Err(_) => return Err(op),
        };
        if change(
            self.alloc,
            &mut self.store,
            &mut self.states,
            &self.log,
            &op,
        )
        .is_err()
        {
            return Err(op);
        }
        push_next(&mut self.log, &mut self.clock, op);
        self.notes.lose();
        Ok(told)
    }

    /// Logs operations that are newer than all before them, each of which continues the log with those
    /// before it, within the limit of cells. Want of memory.
    #[inline(always)]
    fn make_all(&mut self, ops: OneOrMany<Op>) -> Result<(), Fault>
        requires continues { ContinueInTurn self.old.log (items_in ops) }
        requires newest { AreNewest self.old.log (items_in ops) }
        requires room { length self.old.cells + length (fresh_cells (items_in ops)) ≤ self.old.limit }
        ensures log { OnOk result (self.new.log ≡ with_operations (items_in ops) self.old.log) }
        ensures cells { OnOk result (self.new.cells ≡ cells_of self.new.log) }
        ensures same { OnErr result (self.new ≡ record self.old { table = self.new.table }) }
        ensures site { self.new.site ≡ self.old.site }
        ensures limit { self.new.limit ≡ self.old.limit }
        ensures ids { KeepsIds self.old.table self.new.table }
        ensures fault { IsOkUnless result Fault.NoMemory }
    {
        let made = list_of(&ops);
        self.log.reserve(made.len())?;
        let noted = self.notes.change(
            self.alloc,
            &mut self.store,
            &mut self.states,
            &self.log,
            made,
        )?;
        push_few(&mut self.log, &mut self.clock, ops);
        self.notes.add(noted);
        Ok(())
    }

    // The operations of drafts, which the log and the limit of cells have room for. The faults of `make`.
    #[inline(always)]
    fn planned(&self, drafts: OneOrMany<Draft>) -> Result<OneOrMany<Op>, Fault>
        requires { MayBeMade self.now.site self.now.log (map body_of (items_in drafts)) }
        ensures made { IfOk result (λ ops. items_in ops ≡ operations_of self.now.site (map body_of (items_in drafts)) self.now.log) }
        ensures fits { OnOk result (refusal_of self.now.limit (map body_of (items_in drafts)) self.now.log ≡ None) }
        ensures refused { IfErr result (RefusesFor (refusal_of self.now.limit (map body_of (items_in drafts)) self.now.log)) }
        ensures continues { IfOk result (λ ops. ContinueInTurn self.now.log (items_in ops)) }
        ensures newest { IfOk result (λ ops. AreNewest self.now.log (items_in ops)) }
        ensures room { IfOk result (λ ops. length self.now.cells + length (fresh_cells (items_in ops)) ≤ self.now.limit) }
    {
        let site = self.site.number();
        prepared(
            self.alloc,
            site,
            self.clock.seen(),
            self.log.known(site),
            self.store.cells(),
            self.limit,
            drafts,
        )
    }

    /// Makes operations of the site's own, one of each draft, in order; all of them or none. Each draft
    /// keeps the rules of `Op` and names what is known, or what a draft before it inserts. The first
    /// count is one more than the greatest last count of the log, and the first `prev` the known end of
    /// the site; each further operation goes on from the one before it. `ClockSpent` where the counts
    /// would pass `GREATEST_COUNT`, else `TextFull` where the cells would pass the limit; then all is as
    /// before. `NoMemory` only where neither applies, and then all is as before but for names and states
    /// that got numbers.
    pub fn make(&mut self, drafts: Vec<Draft>) -> Result<Vec<Op>, Fault>
        requires { MayBeMade self.old.site self.old.log (map body_of drafts.items) }
        ensures made { IfOk result (λ ops. ops.items ≡ operations_of self.old.site (map body_of drafts.items) self.old.log) }
        ensures makes { Makes (map body_of drafts.items) self.old self.new result }
    {
        let ops = self.planned(OneOrMany::Many(drafts))?;
        let copies = copied(self.alloc, list_of(&ops))?;
        self.make_all(ops)?;
        Ok(copies)
    }

    // Makes operations of drafts, as `make` does.
    #[inline(always)]
    fn commit_one_or_many(&mut self, drafts: OneOrMany<Draft>) -> Result<(), Fault>
        requires { MayBeMade self.old.site self.old.log (map body_of (items_in drafts)) }
        ensures { Makes (map body_of (items_in drafts)) self.old self.new result }
    {
        match self.planned(drafts) {
            Ok(made) => self.make_all(made),
            Err(fault) => Err(fault),
        }
    }

    /// Makes operations of the site's own, as `make` does, and answers no copies of them: for a caller who
    /// reads them in the log, where they stand in order behind all that it had. Refused as `make` is.
    #[inline(always)]
    pub fn commit(&mut self, drafts: OneOrMany<Draft>) -> Result<(), Fault>
        requires { MayBeMade self.old.site self.old.log (map body_of (items_in drafts)) }
        ensures { Makes (map body_of (items_in drafts)) self.old self.new result }
    {
        // What is done for a draft is compiled once for a single one, as typing makes it, without the steps of a list; and into
        // its callers, which know mostly whether it is one.
        match drafts {
            OneOrMany::One(draft) => self.commit_one_or_many(OneOrMany::One(draft)),
            OneOrMany::Many(drafts) => self.commit_one_or_many(OneOrMany::Many(drafts)),
        }
    }

    // The stamp of the site's next operation, where the counts and the limit of cells have room for one character. The
    // faults of `make`; it takes no memory.
    #[inline(always)]
    fn stamp_of_character(&self) -> Result<Stamp, Fault>
        ensures stamp { IfOk result (λ stamp. stamp ≡ record { count = greatest_last_count self.now.log + 1; site = self.now.site }) }
        ensures positive { OnOk result (0 < self.now.site) }
        ensures fits { OnOk result ((after : StampValue) (character : ℕ)
            → refusal_of self.now.limit (one_character after character) self.now.log ≡ None) }
        ensures refused { IfErr result (λ fault. (after : StampValue) (character : ℕ)
            → refusal_of self.now.limit (one_character after character) self.now.log ≡ Some fault) }
        ensures room { OnOk result (length self.now.cells + 1 ≤ self.now.limit) }
    {
        let last = self.clock.seen();
        if last >= GREATEST_COUNT {
            return Err(Fault::ClockSpent);
        }
        if self.store.cells() >= self.limit {
            return Err(Fault::TextFull);
        }
        Ok(Stamp {
            count: last + 1,
            site: self.site.number(),
        })
    }

    // Makes the site's next operation of a stamp, the Insert of one character without tags behind an element, which
    // continues the log, within the limit of cells. Want of memory.
    #[inline(always)]
    fn make_character(&mut self, stamp: Stamp, after: Stamp, character: char) -> Result<(), Fault>
        requires stamp { stamp ≡ record { count = greatest_last_count self.old.log + 1; site = self.old.site } }
        requires continues { Continues self.old.log (next_insert self.old.site after character self.old.log) }
        requires room { length self.old.cells + 1 ≤ self.old.limit }
        ensures log { OnOk result (self.new.log ≡ with_drafts self.old.site (one_character after character) self.old.log) }
        ensures cells { OnOk result (self.new.cells ≡ cells_of self.new.log) }
        ensures same { OnErr result (self.new ≡ self.old) }
        ensures site { self.new.site ≡ self.old.site }
        ensures limit { self.new.limit ≡ self.old.limit }
        ensures table { self.new.table ≡ self.old.table }
        ensures fault { IsOkUnless result Fault.NoMemory }
    {
        self.log.reserve(1)?;
        let noted = self
            .notes
            .of_character(self.alloc, &self.store, stamp, after);
        put_character(
            &mut self.store,
            &self.states,
            &self.log,
            stamp,
            after,
            character,
        )?;
        push_character(&mut self.log, &mut self.clock, stamp, after, character);
        self.notes.add(noted);
        Ok(())
    }

    /// Makes one operation of the site's own, as `commit` does: the Insert of one character without tags behind
    /// an element. Refused as `make` is, and then all is as before: no name and no state gets a number.
    #[inline(always)]
    pub fn commit_character(&mut self, after: Stamp, character: char) -> Result<(), Fault>
        requires { MayBeMade self.old.site self.old.log (one_character after character) }
        ensures makes { Makes (one_character after character) self.old self.new result }
        ensures table { self.new.table ≡ self.old.table }
    {
        match self.stamp_of_character() {
            Ok(stamp) => self.make_character(stamp, after, character),
            Err(fault) => Err(fault),
        }
    }
}
