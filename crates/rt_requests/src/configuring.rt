// Questions about the options of a widget and about its peers, and what options are set to.
ghost use Rattle.std.specs.Prelude.{◌≡◌};
ghost use Rattle.rt_stamps.specs.Words.{as_words};
ghost use Rattle.rt_requests.specs.declared.request.Request.TheVariants.{Cget, Configure, Peer};
ghost use Rattle.rt_requests.specs.Asking.{as_request};
ghost use Rattle.rt_requests.specs.PeerWords.{asked_of_peers};
ghost use Rattle.rt_requests.specs.SettingWords.{asked_named_option, asked_settings};

use crate::options::NamedOption;
use crate::peers::PeerRequest;
use crate::request::Request;
use crate::settings::WidgetSettings;
use rt_stamps::Fault;

// `cget OPTION`.
pub(crate) fn cget<'a>(words: &'a [String]) -> Result<Request<'a>, Fault>
    ensures { result ≡ as_request Cget (asked_named_option (as_words words.now)) }
{
    let option = NamedOption::asked(words)?;
    Ok(Request::Cget { option })
}

// `configure OPTION VALUE ?OPTION VALUE ...?`.
pub(crate) fn configure<'a>(words: &'a [String]) -> Result<Request<'a>, Fault>
    ensures { result ≡ as_request Configure (asked_settings (as_words words.now)) }
{
    let settings = WidgetSettings::of(words)?;
    Ok(Request::Configure { settings })
}

// `peer WHAT ?WORD ...?`.
pub(crate) fn peer<'a>(words: &'a [String]) -> Result<Request<'a>, Fault>
    ensures { result ≡ as_request Peer (asked_of_peers (as_words words.now)) }
{
    let request = PeerRequest::of(words)?;
    Ok(Request::Peer(request))
}
