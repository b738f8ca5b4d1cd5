// Laws of the definitions, each the contract of a function that does nothing.
ghost use Rattle.std.specs.Prelude.{◌≡◌, Ok, List};
ghost use Rattle.rt_stamps.specs.Words.{Word};
ghost use Rattle.rt_requests.specs.declared.destroying.Destroy.{Destroy};
ghost use Rattle.rt_requests.specs.declared.request.Request.{Request};
ghost use Rattle.rt_requests.specs.Asking.{Asked, Asks, CanBeAsked};
ghost use Rattle.rt_requests.specs.PeerWords.{asked_destroy};
ghost use Rattle.rt_requests.specs.SettingWords.{LimitsAreNamed};

use rt_words::laws::{spelling_is_total, spelling_is_unique};

/// Words ask for one thing alone, or are refused with one fault.
pub fn reading_is_unique()
    ensures { (words : List Word) (one other : Asked) → Asks words one → Asks words other → one ≡ other }
{
    spelling_is_unique();
}

/// Words ask for something, or are refused with a fault.
pub fn reading_is_total()
    ensures { (words : List Word) → (asked : Asked) × Asks words asked }
{
    spelling_is_total();
}

/// There are words for each request, whatever bytes its parts are, but for a count and a dump from an index that begins
/// with a minus: such a word is a switch; for a dump of no kind of elements; for settings of no option, or of a line or
/// of groups by a number that isn't kept; and for a widget of a path that none can have. There are words for each line
/// `destroy PATH` too.
pub fn requests_are_spelled()
    ensures commands { (request : Request) → CanBeAsked request → (words : List Word) × Asks words (Ok request) }
    ensures lines { (request : Destroy) → (words : List Word) × (asked_destroy words ≡ Ok request) }
{}

/// Words behind `configure` that name no limit set none: what the widget shows stays.
pub fn limits_are_named()
    ensures { LimitsAreNamed }
{}
