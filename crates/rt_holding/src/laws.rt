// Laws of the definitions, each the contract of a function that does nothing.
ghost use Rattle.std.specs.Prelude.{ℕ, List};
ghost use Rattle.rt_ops.specs.Operations.{Operation};
ghost use Rattle.rt_holding.specs.Arrivals.{ComesToTheSame, by_stamp};
ghost use Rattle.rt_holding.specs.Memory.{FilesFindMemory, FilesGoOneWay, OffersFindMemory, SettledFindsMemory, SettlesAlone};
ghost use Rattle.rt_holding.specs.Runs.{NoneFalls};
ghost use Rattle.rt_holding.specs.Waiting.{LeftOnesStay, LooksAreEnough, UnpassedStay};
ghost use Rattle.rt_holding.specs.Laws.{AmpleIsGreatest, AmpleRuns, AmpleStay, CellsChangeInTurn, FullStays, GreatestIsAccepted, HistoriesAreAccepted, NothingIsTried, RefusedChangesNothing, RepeatChangesNothing, RequestsKeep, SettledLeavesNone, SettledSettles, HoldingSitesAgree, TakenInTurn};

/// In whatever order operations come, if no two clash and in the end none is held that could be taken, the greatest
/// history within them is accepted. So two sites to which the same came have equal cells, and of a history nothing
/// stays held.
pub fn orders()
    ensures greatest { GreatestIsAccepted }
    ensures agree { HoldingSitesAgree }
    ensures history { HistoriesAreAccepted }
{}

/// Where each try finds memory, none stays held that could be taken; and if then none finds no room, the greatest
/// history is accepted.
pub fn ample_memory()
    ensures runs { AmpleRuns }
    ensures stay { AmpleStay }
    ensures greatest { AmpleIsGreatest }
{}

/// Whatever is asked, a site keeps to what it keeps to (`IsHolding`); what is refused, or there already, changes
/// nothing, also of those that are held.
pub fn requests()
    ensures keep { RequestsKeep }
    ensures refused { RefusedChangesNothing }
    ensures again { RepeatChangesNothing }
{}

/// Held operations that are tried: with ample memory `settled` says what becomes of them, and none is left that could be
/// taken; those that are taken continue the log, and change the cells, one after the other; one without room stays
/// without; where nothing is held, nothing is tried.
pub fn settling()
    ensures settles { SettledSettles }
    ensures none_left { SettledLeavesNone }
    ensures taken { TakenInTurn }
    ensures cells { CellsChangeInTurn }
    ensures full { FullStays }
    ensures nothing { NothingIsTried }
{}

/// What a held operation awaits: until a stamp of these is passed its answer stays, and one that isn't tried needn't be. Then
/// what came alone decides its answer.
pub fn waiting()
    ensures unpassed { UnpassedStay }
    ensures looks { LooksAreEnough }
    ensures left { LeftOnesStay }
{}

/// Held operations by rising stamp are as good as in order of arrival, where the least stamp is sought that may be tried, and of
/// equal ones the one that came first.
pub fn arrivals()
    ensures same { (arrived : List Operation) → ComesToTheSame arrived }
    ensures order { (arrived : List Operation) → NoneFalls (by_stamp arrived) }
{}

/// Where no memory was wanting, there is at most one way in which held operations settle, and in which a file is received.
/// From each state there is one in which held operations settle. Over sites to whose log comes what is new when they take it,
/// and whose limit stays (`TakesNew`), there is also one for each offer that isn't refused, and for each file that is read.
pub fn one_way<Site>()
    ensures settles { SettlesAlone }
    ensures found { SettledFindsMemory }
    ensures files { (log : Site → List Operation) (limit : Site → ℕ) (after : Operation → Site → Site)
        → FilesGoOneWay log limit after }
    ensures offers_found { (log : Site → List Operation) (limit : Site → ℕ) (after : Operation → Site → Site)
        → OffersFindMemory log limit after }
    ensures files_found { (log : Site → List Operation) (limit : Site → ℕ) (after : Operation → Site → Site)
        → FilesFindMemory log limit after }
{}
