// Laws of the definitions, and of sites, each the contract of a function that changes nothing.
ghost use Rattle.std.specs.Prelude.{◌≡◌, ◌≢◌, ◌<◌, ◌≤◌, ◌^◌, ℕ, List, Ok, Result, Some, encode_utf8_all, true};
ghost use Rattle.rt_stamps.specs.declared.fault.Fault.{Fault};
ghost use Rattle.rt_stamps.specs.declared.stamp.Stamp.{Stamp};
ghost use Rattle.rt_stamps.specs.Words.{Word};
ghost use Rattle.rt_rga.specs.Texts.{tagged_text};
ghost use Rattle.rt_recording.specs.EditedValue.{EditedValue};
ghost use Rattle.rt_oplog.specs.Logs.{AreOf};
ghost use Rattle.rt_requests.specs.declared.options.NamedOption.{NamedOption};
ghost use Rattle.rt_requests.specs.declared.peers.PeerRequest.{PeerRequest};
ghost use Rattle.rt_requests.specs.declared.request.Request.{Request};
ghost use Rattle.rt_requests.specs.declared.request.Request.TheVariants.{Cget, Configure, Peer};
ghost use Rattle.rt_requests.specs.declared.settings.WidgetSettings.{WidgetSettings};
ghost use Rattle.rt_index.specs.Index.{index_of};
ghost use Rattle.rt_text.specs.PlaceWords.{place_word};
ghost use Rattle.rt_text.specs.Widgets.{ViewValue, length_shown, widget_of};
ghost use Rattle.rt_peers.specs.Cursors.{stamp_place_by, stamp_by, widget_by};
ghost use Rattle.rt_peers.specs.Events.{EventsGoOneWay, EventsLive};
ghost use Rattle.rt_peers.specs.Exchange.{AgreeOnceCaughtUp, AgreeOnceExchanged, ExchangeAgrees, ReceivesAny, ReceivesLacking, ReceivesWhole, TellsClash};
ghost use Rattle.rt_peers.specs.Lives.{AcceptsGreatest, AcceptsHistory, AgreeInAnyOrder, KeepsOrMakes, SitesHold};
ghost use Rattle.rt_peers.specs.Memory.{CommandsGoOneWay, ReceivingFindsMemory, ReceivingGoesOneWay, RequestsGoOneWay};
ghost use Rattle.rt_peers.specs.Numbered.{step_by, view_by};
ghost use Rattle.rt_peers.specs.Peers.{text_led};
ghost use Rattle.rt_peers.specs.PeerStep.{destroyed};
ghost use Rattle.rt_peers.specs.Reading.{reads, told_at};
ghost use Rattle.rt_peers.specs.SiteStep.{AnswersInTurn, Gives, KeepsOperations, by_widget, log_of, step_at};
ghost use Rattle.rt_peers.specs.SiteValue.{SiteValue, number_of_path};
ghost use Rattle.rt_peers.specs.ViewStep.{Outcome, one_word};
ghost use Rattle.rt_peers.specs.WholeText.{ShowsAll, get_all};
ghost use Rattle.rt_store.specs.Cells.{text_of};

use crate::SiteState;

/// A widget that commands changes places with the first one, and then back again: so a step that leaves the text as it
/// was leaves the site as it was. So a request that only reads leaves the site as it was, and its reply is what `step` says of
/// the text as the widget shows it (`SiteState::widget`): each value that is asked of that, by its words.
pub fn telling()
    ensures back { (place : ℕ) (text : EditedValue) → text_led place (text_led place text) ≡ text }
    ensures told { (place : ℕ) (state : SiteValue) (reply : List Word)
        → by_widget place state (λ text. Ok (reply, text)) ≡ Ok (reply, state) }
    ensures reads { (path : Word) (request : Request) (state : SiteValue) → reads request ≡ true
        → step_at path state request ≡ told_at path state request }
    ensures left { (path : Word) (request : Request) (old new : SiteValue) (result : Result (List Word) Fault) → reads request ≡ true
        → AnswersInTurn (step_at path old request) old result new → new ≡ old }
{}

/// What the widget of a number is asked is what that of its path is asked, but for its peers; and both show the same.
pub fn numbers()
    ensures asked { (path : Word) (number : ℕ) (state : SiteValue) (request : Request) → number_of_path path state.paths ≡ Some number
        → ((peers : PeerRequest) → request ≢ Peer peers) → step_by number state request ≡ step_at path state request }
    ensures shown { (path : Word) (number : ℕ) (state : SiteValue) → number_of_path path state.paths ≡ Some number
        → view_by number state ≡ widget_by path state }
{}

/// On each widget of a site the index of a place (`PlaceIndex` of rt_text), up to the number of the characters that it shows, is that
/// place.
pub fn places(site: &SiteState)
    ensures { (path : Word) (view : ViewValue) (place : ℕ) → widget_by path site.now ≡ Some view → place < 2 ^ 64 → place ≤ length_shown view
        → index_of (widget_of view) (place_word place) ≡ Ok place }
{
    // For its clauses alone.
    let _ = site.log();
}

/// The stamp of a character that a widget shows finds the place at which it stands there.
pub fn cursors(site: &SiteState)
    ensures { (path : Word) (place : ℕ) (stamp : Stamp) → stamp_by path place site.now ≡ Some stamp
        → stamp_place_by path stamp site.now ≡ Some place }
{
    // For its clauses alone.
    let _ = site.log();
}

/// Sites that accepted the same operations hold equal cells, and so equal text with equal tags: whatever
/// their calls were, in whatever order, with repeats and refusals between.
pub fn sites_agree(one: &SiteState, other: &SiteState)
    ensures cells { AreOf one.now.text.view.doc.log other.now.text.view.doc.log → one.now.text.view.doc.cells ≡ other.now.text.view.doc.cells }
    ensures text { AreOf one.now.text.view.doc.log other.now.text.view.doc.log
        → tagged_text one.now.text.view.doc.cells ≡ tagged_text other.now.text.view.doc.cells }
{
    // For their clauses alone.
    let _ = one.log();
    let _ = other.log();
}

/// Each widget without limits answers `get 1.0 end` (Tk text manual, "get") by all visible characters of the text. So any
/// two of sites that accepted the same operations answer it by the same word, and are left as they were.
pub fn sites_tell_alike(one: &SiteState, other: &SiteState)
    ensures whole { (path : Word) → ShowsAll path one.now
        → step_at path one.now get_all ≡ Ok (one_word (encode_utf8_all (text_of one.now.text.view.doc.cells)), one.now) }
    ensures alike { AreOf one.now.text.view.doc.log other.now.text.view.doc.log
        → (path : Word) → ShowsAll path one.now → (other_path : Word) → ShowsAll other_path other.now
        → (reply : List Word) × (step_at path one.now get_all ≡ Ok (reply, one.now)) × (step_at other_path other.now get_all ≡ Ok (reply, other.now)) }
{
    // For their clauses alone.
    let _ = one.log();
    let _ = other.log();
}

/// Sites to which the same operations came, no two of which clash, hold equal cells, and so equal text with equal
/// tags, as soon as neither holds one that could be taken: in whatever orders they came, in whatever files and with
/// repeats, and whatever each site made of its own between. So it is as soon as neither holds any. An operation that was
/// refused for want of memory, of cells or of a place among the held ones counts as one that didn't come.
pub fn sites_agree_in_any_order(one: &SiteState, other: &SiteState)
    ensures cells { AgreeInAnyOrder (λ state. state.text.view.doc.cells) one.now other.now }
    ensures text { AgreeInAnyOrder (λ state. tagged_text state.text.view.doc.cells) one.now other.now }
{
    // For their clauses alone.
    let _ = one.log();
    let _ = other.log();
}

/// A site that holds nothing receives the whole log of another, as `SiteState::export` gives it, of which no operation
/// clashes with one of its own: it comes to the join of both logs, and so do both sites that receive each other's. It
/// comes to the same where it receives only what is past counts up to which it knows each site's operations, as
/// `SiteState::export_since` gives it. Only want of memory or of room ends it early. Whether or not operations clash,
/// one that receives the whole log has the join where no fault is told; where the join is a Conflict, a fault is told,
/// which is Conflict, or want of memory or of room before.
pub fn exchange(one: &SiteState, other: &SiteState)
    ensures whole { ReceivesWhole one.now (log_of other.now) }
    ensures any { ReceivesAny one.now (log_of other.now) }
    ensures clash { TellsClash one.now (log_of other.now) }
    ensures lacking { ReceivesLacking one.now (log_of other.now) }
    ensures agree { ExchangeAgrees one.now other.now }
{
    // For their clauses alone.
    let _ = one.log();
    let _ = other.log();
}

/// Two sites that hold nothing receive each the log that the other had before, and neither is told a fault: then both have one log and
/// equal cells, and so equal text with equal tags. So it is where each receives only what it lacks of the other's
/// log, if no operation of one clashes with one of the other.
pub fn exchanged(one: &SiteState, other: &SiteState, left_one: &SiteState, left_other: &SiteState)
    ensures logs { AgreeOnceExchanged log_of one.now other.now left_one.now left_other.now }
    ensures cells { AgreeOnceExchanged (λ state. state.text.view.doc.cells) one.now other.now left_one.now left_other.now }
    ensures text { AgreeOnceExchanged (λ state. tagged_text state.text.view.doc.cells) one.now other.now left_one.now left_other.now }
    ensures lacking_logs { AgreeOnceCaughtUp log_of one.now other.now left_one.now left_other.now }
    ensures lacking_cells { AgreeOnceCaughtUp (λ state. state.text.view.doc.cells) one.now other.now left_one.now left_other.now }
    ensures lacking_text { AgreeOnceCaughtUp (λ state. tagged_text state.text.view.doc.cells) one.now other.now left_one.now left_other.now }
{
    // For their clauses alone.
    let _ = one.log();
    let _ = other.log();
    let _ = left_one.log();
    let _ = left_other.log();
}

/// What a site has accepted of what came to it, where no two of these clash and none is left that could be taken, or where they
/// are a history; and what it keeps to.
pub fn accepted()
    ensures greatest { AcceptsGreatest }
    ensures history { AcceptsHistory }
    ensures holding { SitesHold }
{}

/// What a call of a site does to its operations, by what its own clause says: it accepts nothing, or it makes
/// operations of the site's own, after which held ones are tried. Where options or peers are asked for it accepts nothing.
/// Besides these calls there are `SiteState::receive` and `receive_telling`.
pub fn calls()
    ensures answers { (outcome : Outcome SiteValue) (old new : SiteValue) (result : Result (List Word) Fault)
        → AnswersInTurn outcome old result new → KeepsOrMakes old new }
    ensures commands { (path : Word) (words : List Word) (old new : SiteValue) (result : Result (List Word) Fault)
        → Gives path words old result new → KeepsOrMakes old new }
    ensures settings { (path : Word) (settings : WidgetSettings) (old new : SiteValue) (result : Result (List Word) Fault)
        → AnswersInTurn (step_at path old (Configure settings)) old result new → KeepsOperations old new }
    ensures options { (path : Word) (option : NamedOption) (old new : SiteValue) (result : Result (List Word) Fault)
        → AnswersInTurn (step_at path old (Cget option)) old result new → KeepsOperations old new }
    ensures peers { (path : Word) (request : PeerRequest) (old new : SiteValue) (result : Result (List Word) Fault)
        → AnswersInTurn (step_at path old (Peer request)) old result new → KeepsOperations old new }
    ensures destroyed { (path : Word) (old new : SiteValue) → destroyed path old ≡ Ok new → KeepsOperations old new }
{}

/// Any calls, one after the other, lead a site that lives to one that lives, of which `sites_agree_in_any_order` and
/// `accepted` speak. What came to it with them are operations of its own number, and of the files that it received.
pub fn lives_on()
    ensures events { EventsLive }
{}

/// Where no memory was wanting, a call has at most one answer and leaves at most one state: two sites in the same state that
/// are asked the same go on as one. So it is of any calls, one after the other. Each file that is read can be received so.
pub fn one_way()
    ensures requests { RequestsGoOneWay }
    ensures commands { CommandsGoOneWay }
    ensures receiving { ReceivingGoesOneWay }
    ensures found { ReceivingFindsMemory }
    ensures events { EventsGoOneWay }
{}
