// Laws of the definitions, and of replicas, each the contract of a function that changes nothing.
ghost use Rattle.std.specs.Prelude.{◌≡◌, ◌↔◌, ◌≤◌, ℕ, false, true, List, [], map, reverse, All, Ok, max};
ghost use Rattle.std.specs.List.{AllByRecursion};
ghost use Rattle.rt_stamps.specs.declared.limits.TheConstants.{GREATEST_COUNT};
ghost use Rattle.rt_stamps.specs.declared.stamp.TheConstants.{ROOT};
ghost use Rattle.rt_tags.specs.States.{TagStates, names_on};
ghost use Rattle.rt_tags.specs.Tags.{HaveNoRepeats};
ghost use Rattle.rt_store.specs.declared.cell.Cell.{Cell};
ghost use Rattle.rt_store.specs.Cells.{AreDistinct, EndsFinal, stamps_of, text_of};
ghost use Rattle.rt_ops.specs.Operations.{Operation, last_count};
ghost use Rattle.rt_oplog.specs.Logs.{AreOf, HasOp, IsLog, joined, with_operation};
ghost use Rattle.rt_ops.specs.Rules.{keeps_rules};
ghost use Rattle.rt_rga.specs.Reading.{Character, IsReading, reading, reading_by_stamp};
ghost use Rattle.rt_rga.specs.Histories.{Continues, IsHistory, characters, greatest_last_count};
ghost use Rattle.rt_rga.specs.Sites.{IsHistoryBySites};
ghost use Rattle.rt_rga.specs.Cells.{cells_of};
ghost use Rattle.rt_rga.specs.Changes.{changed};
ghost use Rattle.rt_rga.specs.Answers.{New, Repeat, all_taken, answer_to, answer_within};
ghost use Rattle.rt_rga.specs.Orders.{AreIn, ComeInTime};
ghost use Rattle.rt_rga.specs.Replicas.{IsReplica};
ghost use Rattle.rt_rga.specs.Requests.{ReplicaRequest, after_requests};
ghost use Rattle.rt_rga.specs.Texts.{tagged_text};
ghost use Rattle.rt_store.specs.Spans.{is_among};
ghost use Rattle.rt_store.specs.Shown.{TaggedCell};
ghost use Rattle.rt_store.specs.Written.{IsBelowNext, IsWritten};
ghost use Rattle.rt_rga.specs.Names.{HasNames};
ghost use Rattle.rt_rga.specs.Laws.{AllDraftsCountOn, BadSpansAreWithinEnd, BadTargetsStay, BothMayBeMade, CellsAreChanged, CellsAreCharacters, CellsAreCounted, ChangesAppend, CharactersAppend, ClashFreeAreJoined, ClashFreeAreTaken, ConflictsAreClashes, ConflictsStay, CountsAppend, DeleteIsKept, DeletesOfZeroAreBad, DraftsAreCounted, DraftsChangeInTurn, DraftsCountOn, DraftsFit, DraftsLeaveHistory, EitherOrderWillDo, EqualLogsShowEqualCells, EqualLogsShowEqualText, FinalIsKnown, FinalIsSpared, FullHasNone, GapsAreWithinEnd, GreatestDecide, InTimeIsTaken, InTimeIsTakenWithin, InsertFindsPlace, InsertIsKept, InsertsArePlaced, InsertsSkipGreater, MadeIsNew, NewHasItsBases, NewHasRoom, NewMakesLarger, NewestIsFirst, NewestSkipsNothing, OffersAddNew, OperationsAppend, RequestsKeepLimit, RequestsLeaveHistory, RequestsMakeUnlessRefused, SelIsInNoState, SetsAppend, SharedAreListed, SitesAgree, SpansAreKnown, SpansNameTheirStamps, TagIsKept, TagsOfZeroAreFinal};

use crate::Replica;
use rt_store::TextStore;

/// The reading of a history goes over its tree depth first, and no other list does. It can be had in
/// one pass over the characters by rising stamp (Replicated Growable Array, JPDC 2011).
pub fn depth_first()
    ensures is_reading { (set : List Operation) → IsHistory set → IsReading (characters set) (reading (characters set)) }
    ensures no_other { (set : List Operation) (list : List Character) → IsHistory set → IsReading (characters set) list → list
        ≡ reading (characters set) }
    ensures by_stamp { (set : List Operation) → IsHistory set → reading (characters set) ≡ reading_by_stamp (characters set) }
{}

/// An Insert puts its characters in behind the element that it goes after, past all cells directly
/// behind that with greater stamps (Replicated Growable Array, JPDC 2011).
pub fn skipping()
    ensures { InsertsSkipGreater }
{}

/// An operation continues a history just where it makes a larger one, and of those that keep the rules
/// of their fields, as each `Op` does, just these are answered New. The larger one's cells are those of
/// the smaller one, changed by the operation. Two operations of different sites that continue a history
/// change its cells alike in either order.
pub fn merging()
    ensures continues { (set : List Operation) (op : Operation) → IsHistory set → (Continues set op ↔ IsHistory (with_operation op set)) }
    ensures new { NewMakesLarger }
    ensures cells { CellsAreChanged }
    ensures either_order { EitherOrderWillDo }
{}

/// Whatever operations that keep the rules are offered to a history, in whatever order, the set stays a
/// history. An operation of a history is new to a smaller one just where this has those that it was
/// made upon. So the operations of a history, in any order that puts each after those, and with any
/// repeats, are all taken; by rising stamp they come so. A history is known by its operations.
pub fn orders()
    ensures history { (ops set : List Operation) → IsHistory set → AllByRecursion (λ op. keeps_rules op.body ≡ true) ops
        → IsHistory (all_taken ops set) }
    ensures members { OffersAddNew }
    ensures bases { NewHasItsBases }
    ensures in_time { InTimeIsTaken }
    ensures within { InTimeIsTakenWithin }
    ensures by_stamp { (set : List Operation) → IsHistory set → ComeInTime set [] (reverse set) }
    ensures one_list { (one other : List Operation) → IsHistory one → IsHistory other → AreOf one other → one ≡ other }
{}

/// Whatever is asked of a site's replica, offers and operations of its own, with refusals and repeats
/// between: the set stays a history within the limit of cells, and loses nothing. Sites that come to
/// have the same operations have equal cells. A request to make operations does what `Replica::make`
/// does.
pub fn requests()
    ensures history { RequestsLeaveHistory }
    ensures limit { RequestsKeepLimit }
    ensures agree { SitesAgree }
    ensures kept { (site limit : ℕ) (requests : List ReplicaRequest) (set : List Operation) → AreIn set (after_requests site limit requests set) }
    ensures makes { RequestsMakeUnlessRefused }
{}

/// Repeat is answered to what the history has. To another sound operation Conflict is answered just
/// where one of the history clashes with it. A conflict stays one in every larger history, and so does
/// a bad target, unless by then it is a conflict.
pub fn refusals()
    ensures repeat { (set : List Operation) (op : Operation) → IsHistory set → (answer_to op set ≡ Repeat) ↔ HasOp set op }
    ensures conflict { ConflictsAreClashes }
    ensures conflict_stays { ConflictsStay }
    ensures target_stays { BadTargetsStay }
{}

/// A site that keeps at most so many cells answers New, to operations that keep the rules, where the
/// larger history has no more of them, and TextFull where it would. All other answers are as without a
/// limit.
pub fn room()
    ensures new { NewHasRoom }
    ensures full { FullHasNone }
    ensures others { (set : List Operation) (op : Operation) (limit : ℕ) → (answer_to op set ≡ New → ⊥)
        → answer_within limit op set ≡ answer_to op set }
{}

/// A history is a set of sound operations, each site's a chain, that name what is known in the whole
/// set. No two of them clash: it is a log.
pub fn histories()
    ensures by_sites { (set : List Operation) → IsHistory set ↔ IsHistoryBySites set }
    ensures logs { (set : List Operation) → IsHistory set → IsLog set }
{}

/// Two histories are joined to their union where none of one clashes with one of the other, and what
/// two histories are joined to is a history. It is also what one makes of the other's operations, when
/// they are offered to it by rising stamp, as a file has them.
pub fn joins()
    ensures union { ClashFreeAreJoined }
    ensures taken { ClashFreeAreTaken }
    ensures history { (one other set : List Operation) → IsHistory one → IsHistory other → joined one other ≡ Ok set → IsHistory set }
{}

/// The cells of a history are the inserted characters and the final newline, which is the last, each
/// once. Their stamps are less than those that a site gives next; no write on them is newer than the
/// history, and none is of a tag that is no shared one, such as `sel`.
pub fn cells()
    ensures characters { CellsAreCharacters }
    ensures ends { (set : List Operation) → IsHistory set → EndsFinal (cells_of set) }
    ensures distinct { (set : List Operation) → IsHistory set → AreDistinct (cells_of set) }
    ensures no_root { (set : List Operation) → IsHistory set → is_among (stamps_of (cells_of set)) ROOT ≡ false }
    ensures older { (set : List Operation) → IsHistory set → All (λ cell. IsBelowNext (greatest_last_count set) cell.stamp) (cells_of set) }
    ensures written { (set : List Operation) → IsHistory set → All (λ cell. IsWritten (greatest_last_count set) cell.state) (cells_of set) }
    ensures no_sel { SelIsInNoState }
    ensures names { (set : List Operation) → IsHistory set → All (λ cell. HasNames cell.state) (cells_of set) }
{}

/// A tag is on a character of a history where, of its Insert's tags and the Tag operations that name
/// it, one is of that tag, and the greatest of these says on. Just these are the character's tags.
pub fn shared_tags()
    ensures on { GreatestDecide }
    ensures listed { SharedAreListed }
    ensures once { (set : List Operation) → IsHistory set → All (λ cell. HaveNoRepeats (names_on cell.state)) (cells_of set) }
{}

/// An Insert that is new to a history finds its place in the cells, and a Delete leaves the final
/// newline: what a store asks.
pub fn places()
    ensures insert { InsertsArePlaced }
    ensures delete { FinalIsSpared }
{}

/// A site's own operation is the newest of what it knows, so its cells go directly behind the element
/// that they are inserted after. A draft that names what is known and has counts left makes one that is
/// answered New. Drafts whose counts fit make a larger history; the
/// cells are changed one after the other, and as many more as there are new characters.
pub fn drafts()
    ensures newest { NewestIsFirst }
    ensures directly { NewestSkipsNothing }
    ensures new { MadeIsNew }
    ensures history { DraftsLeaveHistory }
    ensures cells { DraftsChangeInTurn }
    ensures count { DraftsCountOn }
    ensures fit { DraftsFit }
    ensures counts { AllDraftsCountOn }
    ensures length { DraftsAreCounted }
{}

/// Drafts and then more make the operations of the first ones, and then those of the others on the set
/// that has them. They may be made where both may, each for its set. Their counts go on, and their
/// characters add up.
pub fn appended_drafts()
    ensures operations { OperationsAppend }
    ensures set { SetsAppend }
    ensures cells { ChangesAppend }
    ensures may_be_made { BothMayBeMade }
    ensures count { CountsAppend }
    ensures characters { CharactersAppend }
{}

/// What two replicas keep whose logs have the same operations shows equal cells, and so equal text
/// with equal tags. The text and the stamps of what is kept are those of its history's cells.
pub fn agreement()
    ensures cells { EqualLogsShowEqualCells }
    ensures text { EqualLogsShowEqualText }
    ensures characters { (cells : List TaggedCell) → map (λ c. c.ch) (tagged_text cells) ≡ text_of cells }
    ensures kept { (log : List Operation) (table : TagStates) (kept : List (Cell ℕ)) → IsReplica log table kept → text_of kept
        ≡ text_of (cells_of log) }
    ensures stamps { (log : List Operation) (table : TagStates) (kept : List (Cell ℕ)) → IsReplica log table kept
        → stamps_of kept ≡ stamps_of (cells_of log) }
{}

/// Replicas whose logs have the same operations have equal cells, and so equal text with equal tags, over
/// whichever stores.
pub fn replicas_agree<S: TextStore, T: TextStore>(one: &Replica<S>, other: &Replica<T>)
    ensures cells { AreOf one.now.log other.now.log → one.now.cells ≡ other.now.cells }
    ensures text { AreOf one.now.log other.now.log → tagged_text one.now.cells ≡ tagged_text other.now.cells }
{
    // For their clauses alone.
    let _ = one.log();
    let _ = one.store();
    let _ = other.log();
    let _ = other.store();
}

/// What is kept of a history stays that when an operation that continues it changes what is kept: an
/// Insert puts cells in where the store finds their place, a Delete makes cells gone, and after a Tag
/// each named cell has the id of its state with the write.
pub fn replicas()
    ensures insert { InsertIsKept }
    ensures place { InsertFindsPlace }
    ensures delete { DeleteIsKept }
    ensures tag { TagIsKept }
{}

/// A span names its site's stamps from its first count to its last. Of these only those up to the
/// site's known end have to be looked up: a gap among them, or any gap where the site is the
/// operation's own, can never come to be filled. Of site 0 nothing has to be looked up.
pub fn spans()
    ensures stamps { SpansNameTheirStamps }
    ensures known { SpansAreKnown }
    ensures gap { GapsAreWithinEnd }
    ensures no_target { BadSpansAreWithinEnd }
    ensures zero_deleted { DeletesOfZeroAreBad }
    ensures zero_tagged { TagsOfZeroAreFinal }
    ensures zero_known { FinalIsKnown }
{}

/// How many cells a history has, and its greatest count, after one more operation.
pub fn counts()
    ensures cells { CellsAreCounted }
    ensures most { (set : List Operation) → IsHistory set → greatest_last_count set ≤ GREATEST_COUNT }
    ensures greatest { (set : List Operation) (op : Operation) → greatest_last_count (with_operation op set)
        ≡ max (last_count op) (greatest_last_count set) }
{}
