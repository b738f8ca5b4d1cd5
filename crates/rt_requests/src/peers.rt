// What is asked of the peers of a widget.
ghost use Rattle.std.specs.Prelude.{◌≡◌, ◌∷◌};
ghost use Rattle.rt_stamps.specs.Words.{as_words};
ghost use Rattle.rt_requests.specs.PeerWords.{asked_create, asked_names, asked_of_peers};

use crate::path::Path;
use crate::settings::{WidgetSettings, of_pairs};
use rt_stamps::Fault;

/// What is asked of the peers of a widget (Tk text manual, "PEER WIDGETS").
#[derive(Drop)]
pub enum PeerRequest<'a> {
    /// A widget of the same text is made.
    Create {
        path: Path<'a>,
        settings: WidgetSettings,
    },
    /// The paths of the other widgets.
    Names,
}

impl<'a> PeerRequest<'a> {
    /// What the words behind `peer` ask for. Refused by the first of `BadCommand`, `BadOption` and `BadName`. It takes
    /// no memory.
    pub(crate) fn of(words: &'a [String]) -> Result<PeerRequest<'a>, Fault>
        ensures { result ≡ asked_of_peers (as_words words.now) }
    {
        let Some((what, words)) = words.split_first() else {
            return Err(Fault::BadCommand);
        };
        of_peers(what, words)
    }
}

// What is asked, by its name.
fn of_peers<'a>(what: &str, words: &'a [String]) -> Result<PeerRequest<'a>, Fault>
    ensures { result ≡ asked_of_peers (what.now ∷ as_words words.now) }
{
    match what {
        "create" => create(words),
        "names" => names(words),
        _ => Err(Fault::BadCommand),
    }
}

// `peer create PATH ?OPTION VALUE ...?`.
fn create<'a>(words: &'a [String]) -> Result<PeerRequest<'a>, Fault>
    ensures { result ≡ asked_create (as_words words.now) }
{
    let Some((path, words)) = words.split_first() else {
        return Err(Fault::BadCommand);
    };
    let settings = of_pairs(words)?;
    let Some(path) = Path::of(path) else {
        return Err(Fault::BadName);
    };
    Ok(PeerRequest::Create { path, settings })
}

// `peer names`.
fn names<'a>(words: &'a [String]) -> Result<PeerRequest<'a>, Fault>
    ensures { result ≡ asked_names (as_words words.now) }
{
    match words {
        [] => Ok(PeerRequest::Names),
        _ => Err(Fault::BadCommand),
    }
}
