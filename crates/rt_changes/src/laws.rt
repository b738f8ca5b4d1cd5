// Laws of the definitions, each the contract of a function that does nothing.
ghost use Rattle.rt_changes.specs.Laws.{ChangesAreExact, ChangesAreInText, ChangesAreReplayed, DeletesTakeAway, DeletesTakeStampsAway, DeletesTakeTextAway, InsertsPutIn, InsertsPutStampsIn, InsertsPutTextIn, OffersAreReplayed, OwnAreReplayed, RequestsAreReplayed, RetaggedDiffer, RunsAreKnown, RunsFall, RunsHavePlaces, TagsAreListed, TagsLeaveStamps, TagsLeaveText, TagsRetag, TakenAreExact, TakenAreGone, TakenAreInText, TakenAreReplayed, ToldAreChanges};

/// What an operation that continues a history does to the visible text with its tags. An Insert puts
/// its characters in at its place, each with its tags. A Delete leaves the characters at the places
/// that it doesn't take away, in order. A Tag puts its tag on the characters at its places or takes it
/// off, and leaves everything else. The places that are taken away are those whose characters aren't
/// visible afterwards; a Tag's places are those at which the greatest write of its tag says otherwise
/// with it than without it.
pub fn changes()
    ensures inserted { InsertsPutIn }
    ensures deleted { DeletesTakeAway }
    ensures tagged { TagsRetag }
    ensures gone { TakenAreGone }
    ensures differ { RetaggedDiffer }
{}

/// What `changes` says of the text with its tags, of the characters alone.
pub fn characters()
    ensures inserted { InsertsPutTextIn }
    ensures deleted { DeletesTakeTextAway }
    ensures tagged { TagsLeaveText }
{}

/// What `changes` says of the text, of the stamps of the visible characters, which tell one character from another.
pub fn stamps()
    ensures inserted { InsertsPutStampsIn }
    ensures deleted { DeletesTakeStampsAway }
    ensures tagged { TagsLeaveStamps }
{}

/// The longest runs of some places are known by these places; and which tags are listed with one more on or
/// off.
pub fn words()
    ensures have { RunsHavePlaces }
    ensures fall { RunsFall }
    ensures known { RunsAreKnown }
    ensures listed { TagsAreListed }
{}

/// The changes that an operation makes, replayed one after the other on the visible text with its tags,
/// give the text after it. Each is within the text that the ones before it leave, and each place that
/// one names is one that changes: what is taken away was visible and isn't afterwards, what is put in
/// is new, and a tag changes on each character that a change of tags names. What the code tells of an
/// operation are these changes.
pub fn replays()
    ensures one { ChangesAreReplayed }
    ensures within { ChangesAreInText }
    ensures exact { ChangesAreExact }
    ensures told { ToldAreChanges }
{}

/// The changes of operations that are offered one after the other, of those that a site makes, and of
/// whatever is asked of its replica, replayed on the text before all, give the text after all.
pub fn turns()
    ensures offers { OffersAreReplayed }
    ensures own { OwnAreReplayed }
    ensures requests { RequestsAreReplayed }
{}

/// The changes of operations that continue a log one after the other, replayed on the text before all, give the text after
/// all; each is within the text that the ones before it leave, and names only places that its operation changes.
pub fn taken()
    ensures replayed { TakenAreReplayed }
    ensures within { TakenAreInText }
    ensures exact { TakenAreExact }
{}
